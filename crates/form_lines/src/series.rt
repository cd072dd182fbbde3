//! The lines of a form series.

ghost use Rattle.std.specs.Prelude.{◌≡◌, ◌++◌, length, OnOk, IfOk, string_bytes};
ghost use Rattle.series_check.specs.Cuts.{problem_of};
ghost use Rattle.series_model.specs.Series.{forms_of};
ghost use Rattle.form_lines.specs.Texts.{form_lines, series_tree_text, value_line, bound_line, series_text, no_series, no_series_within};

use crate::items::{mark_text, push_form};
use bank_tables::ItemSet;
use exam_text::{push_hex, push_number};
use form_series::SeriesBound;
use series_check::Setting;
use series_tree::{Memory, SeriesTree, encode_series};
use std::alloc::{AllocError, Global};

/// Writes a series tree at the end, in hexadecimal, with the end of the line.
#[tactic(auto, unfolding(crate::specs::Texts::series_tree_text))]
fn push_tree(alloc: Global, out: &mut Vec<u8>, tree: &SeriesTree) -> Result<(), Memory>
    ensures { OnOk result (out.new.items ≡ out.old.items ++ series_tree_text tree.now) }
{
    let bytes = encode_series(alloc, tree)?;
    push_hex(alloc, out, &bytes)?;
    out.push(b'\n')?;
    Ok(())
}

/// The first line of a series.
#[tactic(auto, unfolding(crate::specs::Texts::value_line))]
fn value_line(
    alloc: Global,
    forms: u8,
    value: u64,
    proved: bool,
    nodes: usize,
) -> Result<String, AllocError>
    ensures { IfOk result (λ line. string_bytes line ≡ value_line forms value proved nodes) }
{
    let mark = mark_text(proved);
    format!(in alloc; "series {forms} value {value} {mark} nodes {nodes}\n")
}

/// Writes the lines of the forms.
fn push_forms(alloc: Global, out: &mut Vec<u8>, items: u16, sets: &[ItemSet]) -> Result<(), Memory>
    ensures { OnOk result (out.new.items
        ≡ out.old.items ++ form_lines items (length sets.now) (forms_of sets.now)) }
{
    for f in 0..sets.len() {
        push_form(alloc, out, items, &sets[f])?;
    }
    Ok(())
}

/// Writes the line of a bound, if there is one.
#[tactic(auto, unfolding(crate::specs::Texts::bound_line))]
fn push_bound(alloc: Global, out: &mut Vec<u8>, bound: &Option<SeriesBound>) -> Result<(), Memory>
    ensures { OnOk result (out.new.items ≡ out.old.items ++ bound_line bound.now) }
{
    let Some(SeriesBound { value, tree }) = bound else {
        return Ok(());
    };
    out.extend_from_slice(b"at most ")?;
    push_number(alloc, out, *value)?;
    out.extend_from_slice(b" tree ")?;
    push_tree(alloc, out, tree)
}

/// The lines of a series that was found: its value with the mark and the number of nodes, its
/// forms, the tree, and the bound.
#[tactic(auto, unfolding(crate::specs::Texts::series_text))]
pub(crate) fn series_text(
    alloc: Global,
    setting: &Setting,
    sets: &[ItemSet],
    value: u64,
    proved: bool,
    tree: &SeriesTree,
    bound: &Option<SeriesBound>,
) -> Result<Vec<u8>, Memory>
    requires { length sets.now ≡ setting.now.forms }
    ensures { IfOk result (λ text. text.items
        ≡ series_text (problem_of setting.now) sets.now value proved tree.now bound.now) }
{
    let line = value_line(alloc, setting.forms, value, proved, tree.nodes().len())?;
    let mut text = Vec::new(alloc);
    text.extend_from_slice(line.as_bytes())?;
    push_forms(alloc, &mut text, setting.bank.items(), sets)?;
    text.extend_from_slice(b"tree ")?;
    push_tree(alloc, &mut text, tree)?;
    push_bound(alloc, &mut text, bound)?;
    Ok(text)
}

/// The line where there is no series: the tree shows it. The only error is lack of memory.
#[tactic(auto, unfolding(crate::specs::Texts::no_series))]
pub fn no_series_text(alloc: Global, tree: &SeriesTree) -> Result<Vec<u8>, Memory>
    // Promise: The line of a tree without a series is written as stated
    // - of `no_series_text`, `none_found_text`
    ensures { IfOk result (λ text. text.items ≡ no_series tree.now) }
{
    let mut text = Vec::new(alloc);
    text.extend_from_slice(b"no series ")?;
    push_tree(alloc, &mut text, tree)?;
    Ok(text)
}

/// The line where no series was found within so many nodes: the tree spends them. The only error is
/// lack of memory.
#[tactic(auto, unfolding(crate::specs::Texts::no_series_within))]
pub fn none_found_text(alloc: Global, budget: u32, tree: &SeriesTree) -> Result<Vec<u8>, Memory>
    ensures { IfOk result (λ text. text.items ≡ no_series_within budget tree.now) }
{
    let mut text = Vec::new(alloc);
    text.extend_from_slice(b"no series in ")?;
    push_number(alloc, &mut text, budget as u64)?;
    text.extend_from_slice(b" nodes ")?;
    push_tree(alloc, &mut text, tree)?;
    Ok(text)
}
