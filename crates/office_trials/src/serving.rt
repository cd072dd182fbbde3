//! What is assembled for a session, and committed.

ghost use Rattle.std.specs.Prelude.{ℕ, List, IsTrue};
ghost use Rattle.constraint_model.specs.Views.{problem_of};
ghost use Rattle.exam_office.specs.Commits.{IsOfStart, MayBeCommitted};
ghost use Rattle.exam_office.specs.Marks.{history};

use branch_bound::{Assembled, Outcome, assemble};
use exam_edge::Disk;
use exam_office::laws::may_be_committed;
use exam_office::{Office, Place, Refusal};
use std::alloc::Global;
use std::process::Abort;

/// Whether a form was found, or there is none with ineligible items barred.
fn is_of_start(assembled: &Assembled) -> bool
    ensures { IsTrue result → (base : List ℕ)
        → IsOfStart (problem_of assembled.now.problem) base assembled.now.outcome }
{
    let problem = assembled.problem();
    match assembled.outcome() {
        Outcome::Found { .. } => true,
        Outcome::NoForm => !problem.aside,
        Outcome::NoneFound => false,
    }
}

/// What is assembled for a session that waits for an item, with the base form as the hint.
fn assembled_for<'a, R: Abort, D: Disk>(
    rt: &R,
    alloc: Global,
    office: &Office<'a, D>,
    session: u32,
) -> Assembled<'a>
    ensures { MayBeCommitted office.now.bank office.now.plan office.now.base
        (history office.now.marks) result }
{
    may_be_committed();
    let Some(problem) = office.problem(session) else {
        panic!(rt; "no problem");
    };
    let base = office.base();
    match assemble(alloc, problem, Some(&base), office.spec().budget() as u16) {
        Ok(assembled) => {
            if !is_of_start(&assembled) {
                panic!(rt; "no form was found");
            }
            assembled
        }
        Err(_) => panic!(rt; "nothing was assembled"),
    }
}

/// What is assembled for a session is committed.
pub(crate) fn serve<R: Abort, D: Disk>(
    rt: &R,
    alloc: Global,
    office: &mut Office<D>,
    session: u32,
) -> Result<Place, Refusal> {
    let assembled = assembled_for(rt, alloc, office, session);
    office.commit(alloc, &assembled)
}

/// What is assembled for a session is committed once it was committed before.
pub(crate) fn serve_again<R: Abort, D: Disk>(
    rt: &R,
    alloc: Global,
    office: &mut Office<D>,
    session: u32,
) -> Result<Place, Refusal> {
    let assembled = assembled_for(rt, alloc, office, session);
    let _first = office.commit(alloc, &assembled);
    office.commit(alloc, &assembled)
}

/// What is assembled for a session is committed once the session was closed.
pub(crate) fn serve_late<R: Abort, D: Disk>(
    rt: &R,
    alloc: Global,
    office: &mut Office<D>,
    session: u32,
) -> Result<Place, Refusal> {
    let assembled = assembled_for(rt, alloc, office, session);
    let _closed = office.close(alloc, session, None);
    office.commit(alloc, &assembled)
}
