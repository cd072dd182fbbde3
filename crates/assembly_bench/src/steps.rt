//! The times of the assembler.

ghost use Rattle.std.specs.Prelude.{IfOk, IfSome};
ghost use Rattle.bank_tables.specs.Items.{has};
ghost use Rattle.branch_bound.specs.Assemblies.{IsTrueOutcome};
ghost use Rattle.form_model.specs.Forms.{Form};
ghost use Rattle.serving_model.specs.Seats.{IsSeat, IsPending, IsSeatProblem};
ghost use Rattle.form_model.specs.Validity.{IsBudget, IsPlanFor, IsWellMade};
ghost use Rattle.constraint_model.specs.Views.{problem_of};
ghost use Rattle.shadow_select.specs.Next.{HasFreeItem};

use crate::checking::microseconds;
use crate::command::Order;
use crate::line::{print_outcome, print_rebuilding};
use crate::reading::{bank_of, bytes_in, plan_of};
use crate::seat::{Service, new_seat, seat_after};
use crate::warm::{first_vector, fitting};
use anyhow::{Result, bail};
use bank_tables::{Bank, ItemSet};
use branch_bound::{Assembled, Outcome, assemble_from};
use constraint_model::{Problem, Spec};
use proof_tree::Vector;
use serving_model::Seat;
use shadow_select::laws::a_free_item_is_left;
use shadow_select::{next_item, next_problem};
use std::rt::{Clock, Files};
use std::time::Instant;

/// The session that is served.
#[derive(Clone, Copy)]
struct Session<'a> {
    bank: &'a Bank,
    spec: &'a Spec,
    base: ItemSet,
    options: Options,
}

/// What is asked of each step.
#[derive(Clone, Copy)]
struct Options {
    /// That what rebuilds it is printed.
    trees: bool,
    /// That the first vector of its tree is kept for the next step.
    warm: bool,
}

/// The form of an outcome, if it has one.
fn found_form(problem: &Problem, outcome: Outcome) -> Option<ItemSet>
    requires { IsTrueOutcome (problem_of problem.now) outcome }
    ensures { IfSome result (λ form. Form (problem_of problem.now) (has form)) }
{
    match outcome {
        Outcome::Found { form, proved: _ } => Some(form),
        Outcome::NoForm | Outcome::NoneFound => None,
    }
}

/// Prints the outcome of an assembly that has just ended, and with `trees` what rebuilds it. Gives
/// the form if there is one, and leaves a vector that the next search may begin with.
fn found_in<R: Print + Clock + AllocGlobal>(
    rt: &R,
    problem: &Problem,
    assembled: &Assembled,
    start: &Instant,
    vector: &mut Option<Vector>,
    options: Options,
) -> Result<Option<ItemSet>>
    requires well_made { IsWellMade (problem_of problem.now) }
    requires outcome { IsTrueOutcome (problem_of problem.now) assembled.now.outcome }
    ensures { IfOk result (λ found.
        IfSome found (λ form. Form (problem_of problem.now) (has form))) }
{
    let took = microseconds(start.elapsed(rt)?);
    let form = found_form(problem, assembled.outcome());
    print_outcome(rt, problem, assembled, &form, took)?;
    if options.trees {
        print_rebuilding(rt, problem, &form, assembled.tree())?;
    }
    *vector = first_vector(rt.alloc(), assembled.tree(), options.warm)?;
    Ok(form)
}

/// Assembles a form, prints the outcome, and gives the form if there is one. The search may begin
/// with the vector, and leaves one for the next search.
fn form_of<'a, R: Print + Clock + AllocGlobal>(
    rt: &R,
    problem: &Problem<'a>,
    hint: Option<&ItemSet>,
    budget: u16,
    vector: &mut Option<Vector>,
    options: Options,
) -> Result<Option<ItemSet>>
    requires well_made { IsWellMade (problem_of problem.now) }
    requires budget { IsBudget budget }
    ensures { IfOk result (λ found.
        IfSome found (λ form. Form (problem_of problem.now) (has form))) }
{
    let copy = problem.again();
    let warm = fitting(problem, vector.as_ref());
    let start = Instant::now(rt)?;
    let Ok(assembled) = assemble_from(rt.alloc(), copy, hint, budget, warm) else {
        bail!("out of memory");
    };
    found_in(rt, problem, &assembled, &start, vector, options)
}

/// The base form of the plan. If the plan names none, it is assembled and printed.
fn base_form<'a, R: Print + Clock + AllocGlobal>(
    rt: &R,
    bank: &'a Bank,
    spec: &'a Spec,
    options: Options,
) -> Result<ItemSet>
    requires { IsPlanFor bank.now spec.now }
{
    if let Some(base) = spec.base() {
        return Ok(base);
    }
    let problem = Problem::whole(bank, spec);
    print!(rt; "base ")?;
    let budget = spec.base_budget() as u16;
    let found = form_of(rt, &problem, None, budget, &mut None, options)?;
    println!(rt; "")?;
    match found {
        Some(form) => Ok(form),
        None => bail!("no base form"),
    }
}

/// Serves an item of the form of a step, and prints it; gives the seat after it.
fn serve_item<R: Print + AllocGlobal>(
    rt: &R,
    session: &Session,
    problem: &Problem,
    seat: &Seat,
    form: ItemSet,
    response: u8,
) -> Result<Seat>
    requires plan { IsPlanFor session.now.bank.now session.now.spec.now }
    requires seat { IsSeat session.now.bank.now session.now.spec.now seat.now }
    requires pending { IsPending session.now.spec.now seat.now }
    requires problem { IsSeatProblem session.now.bank.now session.now.spec.now 0 seat.now
        (problem_of problem.now) }
    requires well_made { IsWellMade (problem_of problem.now) }
    requires form { Form (problem_of problem.now) (has form) }
    requires free { HasFreeItem (problem_of problem.now) (has form) }
    ensures { IfOk result (IsSeat session.now.bank.now session.now.spec.now) }
{
    let item = next_item(problem, &form);
    println!(rt; " item {item}")?;
    if response >= session.bank.categories(item) {
        bail!("response {response} to item {item}");
    }
    let service = Service {
        form,
        item,
        response,
    };
    Ok(seat_after(problem, session.bank, session.spec, seat, &service))
}

/// Serves one step and prints it. Its search may begin with the vector, and leaves one for the
/// next.
fn step<R: Print + Clock + AllocGlobal>(
    rt: &R,
    session: &Session,
    seat: &Seat,
    vector: &mut Option<Vector>,
    response: u8,
) -> Result<Seat>
    requires plan { IsPlanFor session.now.bank.now session.now.spec.now }
    requires seat { IsSeat session.now.bank.now session.now.spec.now seat.now }
    ensures { IfOk result (IsSeat session.now.bank.now session.now.spec.now) }
{
    let Some(problem) = next_problem(session.bank, session.spec, 0, seat) else {
        bail!("more responses than steps");
    };
    let base = session.base;
    let budget = session.spec.budget() as u16;
    let number = problem.step;
    print!(rt; "step {number} ")?;
    let found = form_of(rt, &problem, Some(&base), budget, vector, session.options)?;
    let Some(form) = found else {
        println!(rt; " item -")?;
        bail!("no form");
    };
    a_free_item_is_left();
    serve_item(rt, session, &problem, seat, form, response)
}

fn serve<R: Print + Clock + AllocGlobal>(
    rt: &R,
    session: &Session,
    left_out: &ItemSet,
    responses: &[u8],
) -> Result<()>
    requires { IsPlanFor session.now.bank.now session.now.spec.now }
{
    let mut seat = new_seat(session.bank, left_out);
    let mut vector = None;
    for digit in responses {
        seat = step(rt, session, &seat, &mut vector, digit.wrapping_sub(b'0'))?;
    }
    Ok(())
}

/// Serves a session, and prints a line for its base form, if that is assembled, and for each step.
pub fn time_steps<R: Print + Clock + Files + AllocGlobal>(rt: &R, order: &Order<'_>) -> Result<()> {
    let name = order.bank;
    match bank_of(rt.alloc(), bytes_in(rt, name)?) {
        Ok(bank) => time_steps_on(rt, &bank, order),
        Err(fault) => bail!("{name}: {fault:?}"),
    }
}

/// The same on a bank.
fn time_steps_on<R: Print + Clock + Files + AllocGlobal>(
    rt: &R,
    bank: &Bank,
    order: &Order<'_>,
) -> Result<()> {
    let name = order.plan;
    match plan_of(rt.alloc(), bank, bytes_in(rt, name)?) {
        Ok(spec) => serve_order(rt, bank, &spec, order),
        Err(fault) => bail!("{name}: {fault:?}"),
    }
}

/// The same on a bank and its plan.
fn serve_order<R: Print + Clock + AllocGlobal>(
    rt: &R,
    bank: &Bank,
    spec: &Spec,
    order: &Order<'_>,
) -> Result<()>
    requires { IsPlanFor bank.now spec.now }
{
    let options = Options {
        trees: order.trees,
        warm: order.warm,
    };
    let base = base_form(rt, bank, spec, options)?;
    let session = Session {
        bank,
        spec,
        base,
        options,
    };
    serve(rt, &session, &order.left_out, order.responses.as_bytes())
}
