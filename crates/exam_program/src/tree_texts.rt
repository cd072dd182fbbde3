//! The texts that have a proof tree.

ghost use Rattle.std.specs.Prelude.{◌≡◌, ◌++◌, OnOk, IfOk, string_bytes};
ghost use Rattle.constraint_model.specs.Views.{problem_of};
ghost use Rattle.form_model.specs.Validity.{IsWellMade};
ghost use Rattle.exam_program.specs.Texts.{tree_text, no_form, no_base_form, objective_line, form_text};

use bank_tables::ItemSet;
use constraint_model::{Problem, objective};
use exam_text::{push_hex, push_number};
use form_lines::{mark_text, push_items};
use proof_tree::{Memory, Tree, encode};
use std::alloc::{AllocError, Global};

/// Writes the tree at the end, in hexadecimal, with the end of the line.
#[tactic(auto, unfolding(crate::specs::Texts::tree_text))]
fn push_tree(alloc: Global, out: &mut Vec<u8>, tree: &Tree) -> Result<(), Memory>
    ensures { OnOk result (out.new.items ≡ out.old.items ++ tree_text tree.now) }
{
    let bytes = encode(alloc, tree)?;
    push_hex(alloc, out, &bytes)?;
    out.push(b'\n')?;
    Ok(())
}

/// The text where no set of items is a form of the whole problem.
#[tactic(auto, unfolding(crate::specs::Texts::no_form))]
pub(crate) fn no_form_text(alloc: Global, tree: &Tree) -> Result<Vec<u8>, Memory>
    ensures { IfOk result (λ text. text.items ≡ no_form tree.now) }
{
    let mut text = Vec::new(alloc);
    text.extend_from_slice(b"no form ")?;
    push_tree(alloc, &mut text, tree)?;
    Ok(text)
}

/// The text where no form of the whole problem was found within so many nodes.
#[tactic(auto, unfolding(crate::specs::Texts::no_base_form))]
pub(crate) fn no_base_form_text(alloc: Global, budget: u32, tree: &Tree) -> Result<Vec<u8>, Memory>
    ensures { IfOk result (λ text. text.items ≡ no_base_form budget tree.now) }
{
    let mut text = Vec::new(alloc);
    text.extend_from_slice(b"no base form in ")?;
    push_number(alloc, &mut text, budget as u64)?;
    text.extend_from_slice(b" nodes ")?;
    push_tree(alloc, &mut text, tree)?;
    Ok(text)
}

/// The line of a form's objective, with its mark and the number of the tree's nodes.
#[tactic(auto, unfolding(crate::specs::Texts::objective_line))]
fn objective_line(
    alloc: Global,
    value: u64,
    proved: bool,
    nodes: usize,
) -> Result<String, AllocError>
    ensures { IfOk result (λ line. string_bytes line ≡ objective_line value proved nodes) }
{
    let mark = mark_text(proved);
    format!(in alloc; "objective {value} {mark} nodes {nodes}\n")
}

/// The text of a form that was found: its items, its objective with the mark and the number of
/// nodes, and the tree.
#[tactic(auto, unfolding(crate::specs::Texts::form_text))]
pub(crate) fn form_text(
    alloc: Global,
    problem: &Problem,
    form: &ItemSet,
    proved: bool,
    tree: &Tree,
) -> Result<Vec<u8>, Memory>
    requires { IsWellMade (problem_of problem.now) }
    ensures { IfOk result (λ text. text.items
        ≡ form_text (problem_of problem.now) form.now proved tree.now) }
{
    let mut text = Vec::new(alloc);
    text.extend_from_slice(b"form")?;
    push_items(alloc, &mut text, problem.bank.items(), form)?;
    text.push(b'\n')?;
    let value = objective(problem, form);
    let line = objective_line(alloc, value, proved, tree.nodes().len())?;
    text.extend_from_slice(line.as_bytes())?;
    text.extend_from_slice(b"tree ")?;
    push_tree(alloc, &mut text, tree)?;
    Ok(text)
}
