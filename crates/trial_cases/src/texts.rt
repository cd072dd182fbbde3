//! The texts of the worked banks.

ghost use Rattle.std.specs.Prelude.{◌≡◌, ◌++◌, IfOk, OnOk, string_bytes};
ghost use Rattle.trial_cases.specs.Texts.{columns, fields, signed_fields, header, line, text_of};

use bank_tables::{ItemRow, Rows};
use std::alloc::{AllocError, Global};

/// The text of bank A.
pub const BANK_A: &str = "item,stimulus,categories,i0,i1,i2,l0_0,l0_1,l0_2,l1_0,l1_1,l1_2
0,0,2,9,5,1,-7,-7,-7,-7,-7,-7
1,0,2,7,8,2,-7,-7,-7,-7,-7,-7
2,0,2,4,9,3,-7,-7,-7,-30,-15,-1
3,0,2,2,6,8,-7,-7,-7,-7,-7,-7
4,0,2,1,4,9,0,-1,-20,-7,-7,-7
5,0,2,3,7,5,-7,-7,-7,-7,-7,-7
";

/// Adds the names of so many columns.
fn push_columns(alloc: Global, text: &mut String, name: &str, count: u32) -> Result<(), AllocError>
    ensures { OnOk result
        (string_bytes text.new ≡ string_bytes text.old ++ columns name.now count) }
{
    for k in 0..count {
        text.push_str(&format!(in alloc; ",{name}{k}")?)?;
    }
    Ok(())
}

/// Adds numbers, each after a comma.
fn push_fields(alloc: Global, text: &mut String, numbers: &[u32]) -> Result<(), AllocError>
    ensures { OnOk result (string_bytes text.new ≡ string_bytes text.old ++ fields numbers.now) }
{
    for n in numbers {
        text.push_str(&format!(in alloc; ",{n}")?)?;
    }
    Ok(())
}

/// Adds signed numbers, each after a comma.
fn push_signed(alloc: Global, text: &mut String, numbers: &[i32]) -> Result<(), AllocError>
    ensures { OnOk result
        (string_bytes text.new ≡ string_bytes text.old ++ signed_fields numbers.now) }
{
    for n in numbers {
        text.push_str(&format!(in alloc; ",{n}")?)?;
    }
    Ok(())
}

/// The first line.
#[tactic(auto, unfolding(crate::specs::Texts::header))]
fn header(alloc: Global, rows: &Rows) -> Result<String, AllocError>
    ensures { IfOk result (λ text. string_bytes text ≡ header rows.now) }
{
    let mut text = String::from_str(alloc, "item,stimulus,categories")?;
    push_columns(alloc, &mut text, "q", rows.quantities)?;
    push_columns(alloc, &mut text, "i", rows.grid)?;
    push_columns(alloc, &mut text, "l0_", rows.grid)?;
    push_columns(alloc, &mut text, "l1_", rows.grid)?;
    text.push_str("\n")?;
    Ok(text)
}

/// The line of item `i`.
#[tactic(auto, unfolding(crate::specs::Texts::line))]
fn line(alloc: Global, i: usize, row: &ItemRow) -> Result<String, AllocError>
    ensures { IfOk result (λ text. string_bytes text ≡ line i row.now) }
{
    let stimulus = row.stimulus;
    let mut text = format!(in alloc; "{i},{stimulus},2")?;
    push_fields(alloc, &mut text, row.quantities.as_slice())?;
    push_fields(alloc, &mut text, row.info.as_slice())?;
    push_signed(alloc, &mut text, row.loglik.as_slice())?;
    text.push_str("\n")?;
    Ok(text)
}

/// The text of rows whose items have two response categories.
pub fn bank_text(alloc: Global, rows: &Rows) -> Result<String, AllocError>
    ensures { IfOk result (λ text. string_bytes text ≡ text_of rows.now) }
{
    let items = rows.items.as_slice();
    let mut text = header(alloc, rows)?;
    for i in 0..items.len() {
        let line = line(alloc, i, &items[i])?;
        text.push_str(line.as_str())?;
    }
    Ok(text)
}
