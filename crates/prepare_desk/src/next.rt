//! What is put on a desk for one response.

ghost use Rattle.std.specs.Prelude.{◌≡◌, IfOk, IfSome, IsFalse};
ghost use Rattle.std.specs.Option.{option_copied};
ghost use Rattle.constraint_model.specs.Views.{problem_of};
ghost use Rattle.form_model.specs.Validity.{IsWellMade};
ghost use Rattle.exam_hall.specs.Known.{HasGrown, IsOf, marked};
ghost use Rattle.exam_office.specs.Warm.{FitsPlan};
ghost use Rattle.prepare_desk.specs.Desks.{IsReadyFor, purpose_of};
ghost use Rattle.prepare_desk.specs.Posts.{IsIdle};
ghost use Rattle.prepare_desk.specs.Preparing.{IsLeastFor, IsNextFor, IsResultFor};

use crate::desk::Ready;
use crate::key::Key;
use constraint_model::Problem;
use exam_edge::{Disk, Gate, Memory};
use exam_hall::{Ahead, Hall, is_same};
use exam_office::Office;
use proof_tree::Vector;
use std::alloc::Global;
use std::sync::Wait;
use turn_lock::Pass;

/// The most responses that an item may have.
pub(crate) const RESPONSES: u8 = 5;

/// The problem of the response before, and the least response that leads to it.
#[derive(Clone, Copy)]
pub(crate) struct Before<'a> {
    response: u8,
    problem: Problem<'a>,
}

/// What is to be put on a desk for a response, the answer that it is for, and its problem.
#[derive(Drop)]
pub(crate) struct Next<'a> {
    pub(crate) key: Key,
    pub(crate) ready: Ready<'a>,
    pub(crate) before: Before<'a>,
}

/// Looks ahead at the step that follows a response, and assembles its form; none if no step
/// follows, or if the session was answered since the response before. The gate is passed before and
/// after the assembly. `Memory` is lack of memory.
pub(crate) fn next_after<'a, D: Disk, G: Gate, R: Wait>(
    rt: &R,
    alloc: Global,
    hall: &Hall<'a, D>,
    gate: &G,
    pass: &mut Pass<Office<'a, D>>,
    session: u32,
    response: u8,
    before: &Option<Before<'a>>,
) -> Result<Option<Next<'a>>, Memory>
    requires of { IsOf pass.old hall.now }
    ensures next { IfOk result (λ next. IfSome next (IsNextFor session response before.now)) }
    ensures ready { IfOk result (λ next. IfSome next (λ n.
        IsReadyFor (purpose_of hall.now) n.ready)) }
    ensures idles { IsIdle (marked pass.old) (marked pass.new) }
    ensures of { IsOf pass.new hall.now }
    ensures grown { HasGrown pass.old pass.new }
{
    match hall.ahead(rt, alloc, pass, session, response) {
        Ahead::NoStep => Ok(None),
        Ahead::Next { problem, warm } => {
            if is_of_other_step(before, &problem) {
                return Ok(None);
            }
            let of = response_of(before, &problem, response);
            let caller = pass.number();
            let vector = warm.as_ref();
            match ready_for(alloc, hall, gate, caller, &problem, vector, of, response) {
                Ok(ready) => Ok(Some(Next {
                    key: Key {
                        session,
                        step: problem.step - 1,
                        response,
                    },
                    ready,
                    before: Before {
                        response: of,
                        problem,
                    },
                })),
                Err(memory) => Err(memory),
            }
        }
    }
}

/// Whether the problem of the response before is of another step.
fn is_of_other_step(before: &Option<Before>, problem: &Problem) -> bool
    ensures { IsFalse result → IfSome before.now (λ b. b.problem.step ≡ problem.now.step) }
{
    match before {
        Some(before) => before.problem.step != problem.step,
        None => false,
    }
}

/// The least response in turn that leads to a problem: that of the response before, or this one.
fn response_of(before: &Option<Before>, problem: &Problem, response: u8) -> u8
    ensures { IsLeastFor before.now problem.now response result }
{
    match before {
        Some(before) if is_same(&before.problem, problem) => before.response,
        _ => response,
    }
}

/// What is ready for a response: what is assembled for its problem, or what was assembled for that
/// of the response `of`, since it is the same.
fn ready_for<'a, D: Disk, G: Gate>(
    alloc: Global,
    hall: &Hall<'a, D>,
    gate: &G,
    caller: u32,
    problem: &Problem<'a>,
    warm: Option<&Vector>,
    of: u8,
    response: u8,
) -> Result<Ready<'a>, Memory>
    requires well_made { IsWellMade (problem_of problem.now) }
    requires bank { problem.now.bank.now ≡ hall.now.bank }
    requires plan { problem.now.spec.now ≡ hall.now.plan }
    requires fits { IfSome (option_copied warm) (FitsPlan hall.now.bank hall.now.plan) }
    ensures ready { IfOk result (IsReadyFor (purpose_of hall.now)) }
    ensures result { IfOk result (IsResultFor problem.now of response) }
{
    if of != response {
        return Ok(Ready::SameAs(of));
    }
    match hall.prepare(alloc, gate, caller, problem, warm) {
        Ok(made) => Ok(Ready::Made(made)),
        Err(memory) => Err(memory),
    }
}
