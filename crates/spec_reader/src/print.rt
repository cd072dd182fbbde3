//! The canonical text of a plan.

ghost use Rattle.std.specs.Prelude.{◌≡◌, ◌++◌, ◌∷◌, [], OnOk, IfOk, map, length};
ghost use Rattle.std.specs.Fmt.{decimal, signed_decimal};
ghost use Rattle.std.specs.List.{flat_map};
ghost use Rattle.std.specs.Option.{option_map};
ghost use Rattle.bank_tables.specs.Items.{has};
ghost use Rattle.exam_text.specs.Keys.{IsKey};
ghost use Rattle.exam_text.specs.Runs.{run_word};
ghost use Rattle.spec_reader.specs.Sets.{runs_of};
ghost use Rattle.spec_reader.specs.Rules.{Prior, Key, Stimulus, Rate as RateLine};
ghost use Rattle.spec_reader.specs.Plans.{row_said, plan_said};
ghost use Rattle.spec_reader.specs.Canonical.{words_text, line_text, bounds_below, band_rules, base_rules, limit_rules, setting_rules, canonical, set_words};

use crate::runs::runs_of;
use bank_tables::ItemSet;
use constraint_model::Spec;
use exam_edge::Memory;
use exam_text::{Run, push_key, push_number, push_run, push_signed};
use form_model::{Rate, Row, StimulusBound};
use std::alloc::{AllocError, Global};

/// The numbers, a space before each.
fn push_numbers(alloc: Global, out: &mut Vec<u8>, numbers: &[u64]) -> Result<(), AllocError>
    ensures { OnOk result (out.new.items
        ≡ out.old.items ++ flat_map (λ n. 32 ∷ decimal n) numbers.now) }
{
    for number in numbers {
        out.push(b' ')?;
        push_number(alloc, out, *number)?;
    }
    Ok(())
}

/// The grid points, a space before each.
fn push_points(alloc: Global, out: &mut Vec<u8>, points: &[u8]) -> Result<(), AllocError>
    ensures { OnOk result (out.new.items
        ≡ out.old.items ++ flat_map (λ n. 32 ∷ decimal n) points.now) }
{
    for point in points {
        out.push(b' ')?;
        push_number(alloc, out, u64::from(*point))?;
    }
    Ok(())
}

/// The signed numbers, a space before each.
fn push_values(alloc: Global, out: &mut Vec<u8>, values: &[i32]) -> Result<(), AllocError>
    ensures { OnOk result (out.new.items
        ≡ out.old.items ++ flat_map (λ z. 32 ∷ signed_decimal z) values.now) }
{
    for value in values {
        out.push(b' ')?;
        push_signed(alloc, out, *value)?;
    }
    Ok(())
}

/// The runs, a space before each.
fn push_runs(alloc: Global, out: &mut Vec<u8>, runs: &[Run]) -> Result<(), AllocError>
    ensures { OnOk result (out.new.items
        ≡ out.old.items ++ flat_map (λ r. 32 ∷ run_word r) runs.now) }
{
    for run in runs {
        out.push(b' ')?;
        push_run(alloc, out, *run)?;
    }
    Ok(())
}

/// Writes a set of items at the end: its maximal runs, a space before each.
pub fn push_set(alloc: Global, out: &mut Vec<u8>, set: &ItemSet) -> Result<(), AllocError>
    ensures { OnOk result (out.new.items
        ≡ out.old.items ++ flat_map (λ r. 32 ∷ run_word r) (runs_of (has set.now))) }
{
    let runs = runs_of(alloc, set)?;
    push_runs(alloc, out, &runs)
}

/// A line of numbers.
#[tactic(auto, using(crate::proofs::PrintLaws::numbers_line))]
fn push_line(
    alloc: Global,
    out: &mut Vec<u8>,
    keyword: &[u8],
    numbers: &[u64],
) -> Result<(), AllocError>
    ensures { OnOk result (out.new.items
        ≡ out.old.items ++ words_text (keyword.now ∷ map decimal numbers.now)) }
{
    out.extend_from_slice(keyword)?;
    push_numbers(alloc, out, numbers)?;
    out.push(b'\n')?;
    Ok(())
}

/// A line of numbers and a set of items.
#[tactic(auto, using(crate::proofs::PrintLaws::set_line))]
fn push_set_line(
    alloc: Global,
    out: &mut Vec<u8>,
    keyword: &[u8],
    numbers: &[u64],
    set: &ItemSet,
) -> Result<(), AllocError>
    ensures { OnOk result (out.new.items
        ≡ out.old.items ++ words_text
        (keyword.now ∷ (map decimal numbers.now ++ set_words (has set.now)))) }
{
    out.extend_from_slice(keyword)?;
    push_numbers(alloc, out, numbers)?;
    push_set(alloc, out, set)?;
    out.push(b'\n')?;
    Ok(())
}

#[tactic(auto, using(crate::proofs::PrintLaws::values_line))]
fn push_prior(alloc: Global, out: &mut Vec<u8>, values: &[i32]) -> Result<(), AllocError>
    ensures { OnOk result (out.new.items ≡ out.old.items ++ line_text (Prior values.now)) }
{
    out.extend_from_slice(b"prior")?;
    push_values(alloc, out, values)?;
    out.push(b'\n')?;
    Ok(())
}

#[tactic(auto, unfolding(crate::specs::Canonical::words_text))]
fn push_key_line(alloc: Global, out: &mut Vec<u8>, key: &[u8; 32]) -> Result<(), AllocError>
    ensures { OnOk result (out.new.items ≡ out.old.items ++ line_text (Key key.now)) }
{
    out.extend_from_slice(b"key ")?;
    push_key(alloc, out, key)?;
    out.push(b'\n')?;
    Ok(())
}

/// The line of the points at which bands begin, if there are any.
#[tactic(auto, using(crate::proofs::PrintLaws::no_bands_line))]
fn push_bands(alloc: Global, out: &mut Vec<u8>, points: &[u8]) -> Result<(), AllocError>
    ensures { OnOk result (out.new.items
        ≡ out.old.items ++ flat_map line_text (band_rules points.now)) }
{
    if !points.is_empty() {
        out.extend_from_slice(b"bands")?;
        push_points(alloc, out, points)?;
        out.push(b'\n')?;
    }
    Ok(())
}

/// The budgets and the limits.
fn push_limits(alloc: Global, out: &mut Vec<u8>, spec: &Spec) -> Result<(), AllocError>
    ensures { OnOk result (out.new.items
        ≡ out.old.items ++ flat_map line_text (limit_rules (plan_said spec.now))) }
{
    push_line(alloc, out, b"budget", &[u64::from(spec.budget())])?;
    push_line(alloc, out, b"base-budget", &[u64::from(spec.base_budget())])?;
    push_line(alloc, out, b"sessions", &[u64::from(spec.sessions())])?;
    push_line(alloc, out, b"journal", &[spec.journal()])?;
    Ok(())
}

fn push_rate(alloc: Global, out: &mut Vec<u8>, rate: Rate) -> Result<(), AllocError>
    ensures { OnOk result (out.new.items
        ≡ out.old.items ++ line_text (RateLine rate.num rate.den)) }
{
    push_line(
        alloc,
        out,
        b"rate",
        &[u64::from(rate.num), u64::from(rate.den)],
    )
}

/// The settings of a plan.
fn push_settings(alloc: Global, out: &mut Vec<u8>, spec: &Spec) -> Result<(), AllocError>
    ensures lines { OnOk result (out.new.items
        ≡ out.old.items ++ flat_map line_text (setting_rules (plan_said spec.now))) }
    ensures key { OnOk result (IsKey spec.now.key) }
{
    push_line(alloc, out, b"length", &[u64::from(spec.length())])?;
    push_prior(alloc, out, spec.prior())?;
    push_rate(alloc, out, spec.rate())?;
    push_key_line(alloc, out, spec.key())?;
    push_bands(alloc, out, spec.bands())?;
    push_limits(alloc, out, spec)?;
    Ok(())
}

/// The line of a row.
fn push_row(alloc: Global, out: &mut Vec<u8>, row: &Row) -> Result<(), AllocError>
    ensures { OnOk result (out.new.items ≡ out.old.items ++ line_text (row_said row.now)) }
{
    match row {
        Row::Count { set, low, high } => {
            push_set_line(
                alloc,
                out,
                b"count",
                &[u64::from(*low), u64::from(*high)],
                set,
            )
        }
        Row::Quantity {
            which,
            set,
            low,
            high,
        } => {
            let numbers = [u64::from(*which), u64::from(*low), u64::from(*high)];
            push_set_line(alloc, out, b"quantity", &numbers, set)
        }
        Row::Enemies { set } => push_set_line(alloc, out, b"enemies", &[], set),
        Row::Stimuli { low, high } => {
            push_line(alloc, out, b"stimuli", &[u64::from(*low), u64::from(*high)])
        }
    }
}

fn push_rows(alloc: Global, out: &mut Vec<u8>, rows: &[Row]) -> Result<(), AllocError>
    ensures { OnOk result (out.new.items
        ≡ out.old.items ++ flat_map (λ row. line_text (row_said row)) rows.now) }
{
    for row in rows {
        push_row(alloc, out, row)?;
    }
    Ok(())
}

/// The line of the bounds of a stimulus.
fn push_bound(
    alloc: Global,
    out: &mut Vec<u8>,
    stimulus: u64,
    bound: StimulusBound,
) -> Result<(), AllocError>
    ensures { OnOk result (out.new.items
        ≡ out.old.items ++ line_text (Stimulus stimulus bound.low bound.high)) }
{
    let numbers = [stimulus, u64::from(bound.low), u64::from(bound.high)];
    push_line(alloc, out, b"stimulus", &numbers)
}

/// The bounds of each stimulus, from 1 on.
fn push_bounds(alloc: Global, out: &mut Vec<u8>, bounds: &[StimulusBound]) -> Result<(), AllocError>
    ensures { OnOk result (out.new.items
        ≡ out.old.items ++ flat_map line_text (bounds_below (length bounds.now) bounds.now)) }
{
    for i in 0..bounds.len() {
        push_bound(alloc, out, i as u64 + 1, bounds[i])?;
    }
    Ok(())
}

fn push_base(alloc: Global, out: &mut Vec<u8>, base: Option<ItemSet>) -> Result<(), AllocError>
    ensures { OnOk result (out.new.items
        ≡ out.old.items ++ flat_map line_text (base_rules (option_map has base))) }
{
    if let Some(set) = base {
        push_set_line(alloc, out, b"base", &[], &set)?;
    }
    Ok(())
}

/// The canonical text of a plan, which reads back to the same plan. `Memory` is lack of memory.
// Promise: What is printed is the canonical text of the plan
// - by `canonical`
pub fn print_plan(alloc: Global, spec: &Spec) -> Result<Vec<u8>, Memory>
    ensures text { IfOk result (λ text. text.items ≡ canonical spec.now) }
    ensures key { IfOk result (λ _. IsKey spec.now.key) }
{
    let mut out = Vec::new(alloc);
    push_settings(alloc, &mut out, spec)?;
    push_rows(alloc, &mut out, spec.rows())?;
    push_bounds(alloc, &mut out, spec.bounds())?;
    push_base(alloc, &mut out, spec.base())?;
    Ok(out)
}
