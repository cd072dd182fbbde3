//! The times of the checker.

ghost use Rattle.std.specs.Prelude.{IfOk};
ghost use Rattle.bank_tables.specs.Items.{has};
ghost use Rattle.bank_tables.specs.Validity.{HoldsItems};
ghost use Rattle.form_model.specs.Validity.{IsPlanFor, IsWellMade};
ghost use Rattle.constraint_model.specs.Views.{problem_of};

use crate::bank::rows;
use crate::command::Trial;
use crate::form::best_form;
use crate::plan::draft;
use crate::size::Size;
use crate::tree::tree;
use anyhow::{Result, bail};
use bank_tables::{Bank, ItemSet};
use certificate_check::{check, spent};
use constraint_model::{Problem, Spec};
use proof_tree::Tree;
use std::fmt;
use std::fmt::Debug;
use std::rt::Clock;
use std::time::{Duration, Instant};

/// A time in microseconds.
pub fn microseconds(time: Duration) -> u64 {
    u64::try_from(time.as_micros()).unwrap_or(u64::MAX)
}

/// The end of a line: the time that a call took and, from it, nodes a second; nothing if quiet.
#[derive(Clone, Copy)]
struct Pace {
    nodes: u64,
    microseconds: u64,
    quiet: bool,
}

impl fmt::Display for Pace {
    fn fmt<W: fmt::Write>(&self, f: &mut fmt::Formatter<W>) -> fmt::Result {
        if self.quiet {
            return Ok(());
        }
        let microseconds = self.microseconds;
        let pace = self.nodes.saturating_mul(1_000_000) / microseconds.max(1);
        write!(f, " microseconds {microseconds} a second {pace}")
    }
}

/// Prints a line for a call that has just ended: what it answered and, unless quiet, what it took.
fn report<R: Print + Clock, A: Debug>(
    rt: &R,
    call: &str,
    tree: &Tree,
    answer: &A,
    start: &Instant,
    quiet: bool,
) -> Result<()> {
    let microseconds = microseconds(start.elapsed(rt)?);
    let nodes = tree.nodes().len() as u64;
    let pace = Pace {
        nodes,
        microseconds,
        quiet,
    };
    println!(rt; "{call} {nodes} nodes {answer:?}{pace}")?;
    Ok(())
}

fn time_check<R: Print + Clock>(
    rt: &R,
    problem: &Problem,
    form: &ItemSet,
    tree: &Tree,
    quiet: bool,
) -> Result<()>
    requires { IsWellMade (problem_of problem.now) }
{
    let start = Instant::now(rt)?;
    let verdict = check(problem, Some(form), tree);
    report(rt, "check", tree, &verdict, &start, quiet)
}

fn time_spent<R: Print + Clock>(rt: &R, problem: &Problem, tree: &Tree, quiet: bool) -> Result<()>
    requires { IsWellMade (problem_of problem.now) }
{
    let nodes = tree.nodes().len();
    let start = Instant::now(rt)?;
    let is_spent = spent(problem, tree, nodes as u16);
    report(rt, "spent", tree, &is_spent, &start, quiet)
}

/// The problem of a session that was last served from this form.
fn with_start<'a>(problem: &Problem<'a>, form: &ItemSet) -> Problem<'a>
    requires well_made { IsWellMade (problem_of problem.now) }
    requires items { HoldsItems problem.now.bank.now (has form.now) }
    ensures { IsWellMade (problem_of result) }
{
    Problem {
        start: Some(*form),
        ..*problem
    }
}

/// The best form, of items of the bank.
fn made_form(bank: &Bank, size: &Size) -> Result<ItemSet>
    ensures { IfOk result (λ form. HoldsItems bank.now (has form)) }
{
    let form = best_form(size);
    if !form.all_below(bank.items()) {
        bail!("no form of these sizes");
    }
    Ok(form)
}

/// Times the checker on a tree: `spent` on one with an open leaf, `check` on one without.
fn time_tree<R: Print + Clock + AllocGlobal>(
    rt: &R,
    problem: &Problem,
    form: &ItemSet,
    trial: &Trial,
    open: bool,
) -> Result<()>
    requires { IsWellMade (problem_of problem.now) }
{
    match tree(rt.alloc(), &trial.size, trial.nodes, open)? {
        Some(tree) if open => time_spent(rt, problem, &tree, trial.quiet),
        Some(tree) => time_check(rt, problem, form, &tree, trial.quiet),
        None => bail!("no tree of these sizes"),
    }
}

/// Times the checker on trees for the best form of a plan.
fn time_trees<R: Print + Clock + AllocGlobal>(
    rt: &R,
    bank: &Bank,
    spec: &Spec,
    trial: &Trial,
) -> Result<()>
    requires { IsPlanFor bank.now spec.now }
{
    let form = made_form(bank, &trial.size)?;
    let problem = with_start(&Problem::whole(bank, spec), &form);
    time_tree(rt, &problem, &form, trial, false)?;
    time_tree(rt, &problem, &form, trial, true)
}

/// Times the checker on a plan and trees for a bank.
fn time_plan<R: Print + Clock + AllocGlobal>(rt: &R, bank: &Bank, trial: &Trial) -> Result<()> {
    let draft = draft(rt.alloc(), &trial.size)?;
    match Spec::of(rt.alloc(), bank, draft) {
        Ok(spec) => time_trees(rt, bank, &spec, trial),
        Err(_) => bail!("no plan of these sizes"),
    }
}

/// Makes a problem and trees, times the checker on them, and prints a line for each call.
pub fn time_checks<R: Print + Clock + AllocGlobal>(rt: &R, trial: &Trial) -> Result<()> {
    let rows = rows(rt.alloc(), &trial.size)?;
    match Bank::of(rt.alloc(), rows) {
        Ok(bank) => time_plan(rt, &bank, trial),
        Err(_) => bail!("no bank of these sizes"),
    }
}
