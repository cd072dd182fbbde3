//! The plan text.

ghost use Rattle.std.specs.Prelude.{◌≡◌, ◌+◌, ◌≤◌, ◌<◌, ◌++◌, ◌∷◌, [], map, length, IfOk, OnOk};
ghost use Rattle.std.specs.List.{flat_map, range_with_len};
ghost use Rattle.std.specs.Fmt.{decimal, signed_decimal};
ghost use Rattle.exam_text.specs.Runs.{run_word};
ghost use Rattle.spec_reader.specs.Sets.{runs_of};
ghost use Rattle.spec_reader.specs.Rules.{Key, Prior, Quantity, Stimulus, Base};
ghost use Rattle.spec_reader.specs.Canonical.{words_text, line_text, limit_rules, setting_rules};
ghost use Rattle.bank_maker.specs.Items.{item_count};
ghost use Rattle.bank_maker.specs.Plans.{between, in_category, category_row, pair, base_quantity, key_of, rows, plan, plan_text};

use crate::item::DrawnItem;
use exam_edge::Memory;
use exam_text::{Run, push_hex, push_number, push_run, push_signed};
use std::alloc::Global;

/// The prior, by grid point.
const PRIOR: [i32; 11] = [-500, -320, -180, -80, -20, 0, -20, -80, -180, -320, -500];

/// The numbers, a space before each.
fn push_numbers(alloc: Global, out: &mut Vec<u8>, numbers: &[u64]) -> Result<(), Memory>
    ensures { OnOk result (out.new.items
        ≡ out.old.items ++ flat_map (λ n. 32 ∷ decimal n) numbers.now) }
{
    for number in numbers {
        out.push(b' ')?;
        push_number(alloc, out, *number)?;
    }
    Ok(())
}

/// The runs, a space before each.
fn push_runs(alloc: Global, out: &mut Vec<u8>, runs: &[Run]) -> Result<(), Memory>
    ensures { OnOk result (out.new.items
        ≡ out.old.items ++ flat_map (λ r. 32 ∷ run_word r) runs.now) }
{
    for run in runs {
        out.push(b' ')?;
        push_run(alloc, out, *run)?;
    }
    Ok(())
}

/// A line: a keyword, numbers, and the runs of a set of items.
#[tactic(auto, using(spec_reader::proofs::PrintLaws::set_line))]
fn push_line(
    alloc: Global,
    out: &mut Vec<u8>,
    keyword: &[u8],
    numbers: &[u64],
    runs: &[Run],
) -> Result<(), Memory>
    ensures { OnOk result (out.new.items ≡ out.old.items
        ++ words_text (keyword.now ∷ (map decimal numbers.now ++ map run_word runs.now))) }
{
    out.extend_from_slice(keyword)?;
    push_numbers(alloc, out, numbers)?;
    push_runs(alloc, out, runs)?;
    out.push(b'\n')?;
    Ok(())
}

/// The signed numbers, a space before each.
fn push_values(alloc: Global, out: &mut Vec<u8>, values: &[i32]) -> Result<(), Memory>
    ensures { OnOk result (out.new.items
        ≡ out.old.items ++ flat_map (λ z. 32 ∷ signed_decimal z) values.now) }
{
    for value in values {
        out.push(b' ')?;
        push_signed(alloc, out, *value)?;
    }
    Ok(())
}

/// The line of the prior.
#[tactic(auto, using(spec_reader::proofs::PrintLaws::values_line))]
fn push_prior(alloc: Global, out: &mut Vec<u8>, values: &[i32]) -> Result<(), Memory>
    ensures { OnOk result (out.new.items ≡ out.old.items ++ line_text (Prior values.now)) }
{
    out.extend_from_slice(b"prior")?;
    push_values(alloc, out, values)?;
    out.push(b'\n')?;
    Ok(())
}

/// The key of a number: the number as eight bytes, four times.
fn key_of(alloc: Global, number: u32) -> Result<Vec<u8>, Memory>
    ensures { IfOk result (λ v. v.items ≡ key_of number) }
{
    let eight = u64::from(number).to_be_bytes();
    let mut key = Vec::from_slice(alloc, &eight)?;
    key.extend_from_slice(&eight)?;
    key.extend_from_slice(&eight)?;
    key.extend_from_slice(&eight)?;
    Ok(key)
}

/// The line of the key.
#[tactic(auto, unfolding(spec_reader::specs::Canonical::words_text))]
fn push_key(alloc: Global, out: &mut Vec<u8>, key: &[u8]) -> Result<(), Memory>
    ensures { OnOk result (out.new.items ≡ out.old.items ++ line_text (Key key.now)) }
{
    out.extend_from_slice(b"key ")?;
    push_hex(alloc, out, key)?;
    out.push(b'\n')?;
    Ok(())
}

/// The budgets and the limits.
fn push_limits(alloc: Global, out: &mut Vec<u8>, sessions: u32) -> Result<(), Memory>
    ensures { OnOk result (out.new.items
        ≡ out.old.items ++ flat_map line_text (limit_rules (plan 0 sessions []))) }
{
    push_line(alloc, out, b"budget", &[501], &[])?;
    push_line(alloc, out, b"base-budget", &[4095], &[])?;
    push_line(alloc, out, b"sessions", &[u64::from(sessions)], &[])?;
    push_line(alloc, out, b"journal", &[536_870_912], &[])?;
    Ok(())
}

/// The lines before the rows.
fn push_settings(alloc: Global, out: &mut Vec<u8>, number: u32, sessions: u32) -> Result<(), Memory>
    ensures { OnOk result (out.new.items
        ≡ out.old.items ++ flat_map line_text (setting_rules (plan number sessions []))) }
{
    push_line(alloc, out, b"length", &[20], &[])?;
    push_prior(alloc, out, &PRIOR)?;
    push_line(alloc, out, b"rate", &[1, 4], &[])?;
    let key = key_of(alloc, number)?;
    push_key(alloc, out, &key)?;
    push_limits(alloc, out, sessions)
}

/// The items of a category, each a run of its own.
fn category_runs(alloc: Global, category: u16) -> Result<Vec<Run>, Memory>
    requires { category < 5 }
    ensures { IfOk result (λ v. v.items ≡ runs_of (in_category category)) }
{
    let mut runs = Vec::new(alloc);
    for k in 0..24 {
        let item = 5 * k + category;
        runs.push(Run {
            low: item,
            high: item,
        })?;
    }
    Ok(runs)
}

/// The line of a category.
fn push_category(alloc: Global, out: &mut Vec<u8>, category: u16) -> Result<(), Memory>
    requires { category < 5 }
    ensures { OnOk result (out.new.items ≡ out.old.items ++ line_text (category_row category)) }
{
    let runs = category_runs(alloc, category)?;
    push_line(alloc, out, b"count", &[3, 5], &runs)
}

/// The lines of the categories.
fn push_categories(alloc: Global, out: &mut Vec<u8>) -> Result<(), Memory>
    ensures { OnOk result (out.new.items
        ≡ out.old.items ++ flat_map (λ c. line_text (category_row c)) (range_with_len 0 5)) }
{
    for category in 0..5 {
        push_category(alloc, out, category)?;
    }
    Ok(())
}

/// The line of a pair of enemies.
#[tactic(auto, using(crate::proofs::PlanLaws::pair_runs))]
fn push_pair(alloc: Global, out: &mut Vec<u8>, k: u16) -> Result<(), Memory>
    requires { k < 10 }
    ensures { OnOk result (out.new.items ≡ out.old.items ++ line_text (pair k)) }
{
    let run = Run {
        low: 50 + 2 * k,
        high: 51 + 2 * k,
    };
    push_line(alloc, out, b"enemies", &[], &[run])
}

/// The lines of the pairs of enemies.
fn push_pairs(alloc: Global, out: &mut Vec<u8>) -> Result<(), Memory>
    ensures { OnOk result (out.new.items
        ≡ out.old.items ++ flat_map (λ k. line_text (pair k)) (range_with_len 0 10)) }
{
    for k in 0..10 {
        push_pair(alloc, out, k)?;
    }
    Ok(())
}

/// The line of a range of the quantity over all items.
fn push_quantity(alloc: Global, out: &mut Vec<u8>, high: u64) -> Result<(), Memory>
    ensures { OnOk result (out.new.items
        ≡ out.old.items ++ line_text (Quantity 0 600 high (between 0 119))) }
{
    push_line(
        alloc,
        out,
        b"quantity",
        &[0, 600, high],
        &[Run { low: 0, high: 119 }],
    )
}

/// The lines of the rows.
fn push_rows(alloc: Global, out: &mut Vec<u8>, high: u64) -> Result<(), Memory>
    ensures { OnOk result (out.new.items ≡ out.old.items ++ flat_map line_text (rows high)) }
{
    push_categories(alloc, out)?;
    push_quantity(alloc, out, high)?;
    push_pairs(alloc, out)?;
    push_line(alloc, out, b"stimuli", &[0, 2], &[])
}

/// The lines of the bounds of the stimuli.
fn push_bounds(alloc: Global, out: &mut Vec<u8>) -> Result<(), Memory>
    ensures { OnOk result (out.new.items
        ≡ out.old.items ++ flat_map (λ k. line_text (Stimulus (k + 1) 2 4)) (range_with_len 0 6)) }
{
    for k in 0..6 {
        push_line(alloc, out, b"stimulus", &[k + 1, 2, 4], &[])?;
    }
    Ok(())
}

/// The line of the base form.
fn push_base(alloc: Global, out: &mut Vec<u8>) -> Result<(), Memory>
    ensures { OnOk result (out.new.items ≡ out.old.items ++ line_text (Base (between 30 49))) }
{
    push_line(alloc, out, b"base", &[], &[Run { low: 30, high: 49 }])
}

/// The quantity of the items of the base form.
fn base_quantity(items: &[DrawnItem]) -> u32
    requires { length items.now ≡ item_count }
    ensures sum { result ≡ base_quantity items.now }
    ensures small { result ≤ 5100 }
{
    let mut sum = 0;
    for item in &items[30..50] {
        sum += u32::from(item.quantity);
    }
    sum
}

/// The plan text of drawn items.
pub fn plan_text(
    alloc: Global,
    number: u32,
    sessions: u32,
    items: &[DrawnItem],
) -> Result<Vec<u8>, Memory>
    requires { length items.now ≡ item_count }
    ensures { IfOk result (λ text. text.items ≡ plan_text number sessions items.now) }
{
    let high = u64::from(base_quantity(items)) + 50;
    let mut out = Vec::new(alloc);
    push_settings(alloc, &mut out, number, sessions)?;
    push_rows(alloc, &mut out, high)?;
    push_bounds(alloc, &mut out)?;
    push_base(alloc, &mut out)?;
    Ok(out)
}
