//! The bank text.

ghost use Rattle.std.specs.Prelude.{◌≡◌, ◌++◌, ◌∷◌, IfOk, OnOk};
ghost use Rattle.std.specs.List.{flat_map};
ghost use Rattle.std.specs.Fmt.{decimal, signed_decimal};
ghost use Rattle.bank_maker.specs.Items.{information, wrong, right, points};
ghost use Rattle.bank_maker.specs.Banks.{header, item_text, bank_text};

use crate::item::{DrawnItem, stimulus_of};
use exam_edge::Memory;
use exam_text::push_number;
use std::alloc::Global;

/// How many points the ability grid has.
const GRID: u8 = 11;

/// A comma and a number.
fn push_field(alloc: Global, out: &mut Vec<u8>, value: u64) -> Result<(), Memory>
    ensures { OnOk result (out.new.items ≡ out.old.items ++ 44 ∷ decimal value) }
{
    out.push(b',')?;
    push_number(alloc, out, value)
}

/// A comma and the number below 0 that is so far from it.
fn push_loss(alloc: Global, out: &mut Vec<u8>, loss: u64) -> Result<(), Memory>
    ensures { OnOk result (out.new.items ≡ out.old.items ++ 44 ∷ 45 ∷ decimal loss) }
{
    out.extend_from_slice(b",-")?;
    push_number(alloc, out, loss)
}

/// A column's name: letters and a number.
fn push_name(alloc: Global, out: &mut Vec<u8>, letters: &[u8], number: u64) -> Result<(), Memory>
    ensures { OnOk result (out.new.items ≡ out.old.items ++ (letters.now ++ decimal number)) }
{
    out.extend_from_slice(letters)?;
    push_number(alloc, out, number)
}

/// The names of the columns of the grid points, which begin with these letters.
fn push_names(alloc: Global, out: &mut Vec<u8>, letters: &[u8]) -> Result<(), Memory>
    ensures { OnOk result (out.new.items
        ≡ out.old.items ++ flat_map (λ g. letters.now ++ decimal g) points) }
{
    for point in 0..GRID {
        push_name(alloc, out, letters, u64::from(point))?;
    }
    Ok(())
}

/// The header.
fn push_header(alloc: Global, out: &mut Vec<u8>) -> Result<(), Memory>
    ensures { OnOk result (out.new.items ≡ out.old.items ++ header) }
{
    push_name(alloc, out, b"item,stimulus,categories,q", 0)?;
    push_names(alloc, out, b",i")?;
    push_names(alloc, out, b",l0_")?;
    push_names(alloc, out, b",l1_")?;
    out.push(b'\n')?;
    Ok(())
}

/// The information at each grid point, a comma before each.
fn push_information(alloc: Global, out: &mut Vec<u8>, item: &DrawnItem) -> Result<(), Memory>
    ensures { OnOk result (out.new.items
        ≡ out.old.items ++ flat_map (λ g. 44 ∷ decimal (information item.now g)) points) }
{
    for point in 0..GRID {
        push_field(alloc, out, item.information(point))?;
    }
    Ok(())
}

/// The log-likelihood of a wrong response at each grid point, a comma before each.
fn push_wrong(alloc: Global, out: &mut Vec<u8>, item: &DrawnItem) -> Result<(), Memory>
    ensures { OnOk result (out.new.items
        ≡ out.old.items ++ flat_map (λ g. 44 ∷ signed_decimal (wrong item.now g)) points) }
{
    for point in 0..GRID {
        push_loss(alloc, out, item.wrong_loss(point))?;
    }
    Ok(())
}

/// The log-likelihood of a right response at each grid point, a comma before each.
fn push_right(alloc: Global, out: &mut Vec<u8>, item: &DrawnItem) -> Result<(), Memory>
    ensures { OnOk result (out.new.items
        ≡ out.old.items ++ flat_map (λ g. 44 ∷ signed_decimal (right item.now g)) points) }
{
    for point in 0..GRID {
        push_loss(alloc, out, item.right_loss(point))?;
    }
    Ok(())
}

/// The record of an item.
fn push_item(alloc: Global, out: &mut Vec<u8>, number: u64, item: &DrawnItem) -> Result<(), Memory>
    ensures { OnOk result (out.new.items ≡ out.old.items ++ item_text number item.now) }
{
    push_number(alloc, out, number)?;
    push_field(alloc, out, stimulus_of(number))?;
    push_field(alloc, out, 2)?;
    push_field(alloc, out, u64::from(item.quantity))?;
    push_information(alloc, out, item)?;
    push_wrong(alloc, out, item)?;
    push_right(alloc, out, item)?;
    out.push(b'\n')?;
    Ok(())
}

/// The bank text of drawn items.
pub fn bank_text(alloc: Global, items: &[DrawnItem]) -> Result<Vec<u8>, Memory>
    ensures { IfOk result (λ text. text.items ≡ bank_text items.now) }
{
    let mut out = Vec::new(alloc);
    push_header(alloc, &mut out)?;
    for i in 0..items.len() {
        push_item(alloc, &mut out, i as u64, &items[i])?;
    }
    Ok(out)
}
