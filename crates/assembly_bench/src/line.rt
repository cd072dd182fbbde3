//! The line of a step.

ghost use Rattle.form_model.specs.Validity.{IsWellMade};
ghost use Rattle.constraint_model.specs.Views.{problem_of};

use anyhow::Result;
use bank_tables::ItemSet;
use branch_bound::{Assembled, Outcome};
use constraint_model::{Problem, objective};
use proof_tree::{Tree, encode};
use std::alloc::{AllocError, Global};
use std::{fmt, io};

fn mark(outcome: &Outcome) -> &'static str {
    match outcome {
        Outcome::Found {
            form: _,
            proved: true,
        } => "proved",
        Outcome::Found {
            form: _,
            proved: false,
        } => "unproved",
        Outcome::NoForm => "noform",
        Outcome::NoneFound => "none",
    }
}

/// Prints the time, size and outcome of an assembly with this form.
pub fn print_outcome<R: Print>(
    rt: &R,
    problem: &Problem,
    assembled: &Assembled,
    form: &Option<ItemSet>,
    microseconds: u64,
) -> io::Result<()>
    requires { IsWellMade (problem_of problem.now) }
{
    let nodes = assembled.tree().nodes().len();
    let mark = mark(&assembled.outcome());
    let search = if assembled.used_fallback() {
        "fallback"
    } else {
        "search"
    };
    let best = match form {
        Some(form) => objective(problem, form),
        None => 0,
    };
    print!(rt;
        "microseconds {microseconds} nodes {nodes} mark {mark} search {search} objective {best}"
    )
}

/// A set, printed as its members parted by commas, or `-` for none.
#[derive(Clone, Copy)]
struct Members {
    set: Option<ItemSet>,
}

impl fmt::Display for Members {
    fn fmt<W: fmt::Write>(&self, f: &mut fmt::Formatter<W>) -> fmt::Result {
        let mut before = "";
        if let Some(items) = &self.set {
            for i in 0..512u16 {
                if items.has(i) {
                    write!(f, "{before}{i}")?;
                    before = ",";
                }
            }
        }
        if before.is_empty() {
            return write!(f, "-");
        }
        Ok(())
    }
}

/// The bytes of the tree in hexadecimal.
fn tree_words(alloc: Global, tree: &Tree) -> Result<String, AllocError> {
    match encode(alloc, tree) {
        Ok(bytes) => hex::encode(alloc, bytes),
        Err(_) => Err(AllocError),
    }
}

/// Prints what rebuilds the problem, the form, and the tree.
pub fn print_rebuilding<R: Print + AllocGlobal>(
    rt: &R,
    problem: &Problem,
    form: &Option<ItemSet>,
    tree: &Tree,
) -> Result<()> {
    let theta = problem.theta;
    let given = Members {
        set: Some(problem.given),
    };
    let barred = Members {
        set: Some(problem.barred),
    };
    let start = Members { set: problem.start };
    let form = Members { set: *form };
    let tree = tree_words(rt.alloc(), tree)?;
    print!(rt;
        " theta {theta} given {given} barred {barred} start {start} form {form} tree {tree}"
    )?;
    Ok(())
}
