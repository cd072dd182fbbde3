//! Forms that are ready before the answer comes, on bank A. All numbers are worked by hand.
//!
//! A session begins with the items 1, 2 and 3, of information 8, 9 and 6 at point 1, and gets item
//! 2. With response 0 its estimate is point 1, its form is the same, and item 1 is next. With
//!    response 1 its estimate is point 2. Its form is then that of the items 1, 2 and 4, of
//!    information 2, 3 and 9, and item 4 is next. The two problems differ, so each needs an
//!    assembly of its own. After item 4 too: with response 0 the estimate is point 1, and with
//!    response 1 point 2.

ghost use Rattle.std.specs.Prelude.{◌≡◌};
ghost use Rattle.form_model.specs.Validity.{IsPlanFor};
ghost use Rattle.exam_hall.specs.Known.{IsOf};
ghost use Rattle.prepare_desk.specs.Desks.{purpose_of};
ghost use Rattle.prepare_desk.specs.Posts.{IsFirstOf, IsPostOf};

use crate::assemblies::Assemblies;
use crate::equal::expect_equal;
use crate::office::{EVEN, empty_disk, opened, planned};
use crate::own_desk::tried_with_own;
use crate::requests::{
    Ask, FIRST, FIRST_ANSWER, FIRST_ANSWER_FOR_ANOTHER, OTHER_ANSWER, SECOND, SECOND_ANSWER, THIRD,
    Told, request_of, told,
};
use crate::work::{one_door, serve_bank_a};
use bank_tables::Bank;
use constraint_model::Spec;
use exam_edge::MemoryDisk;
use exam_hall::Hall;
use exam_office::{Office, Place, Refusal};
use prepare_desk::{Desk, Key, Post, shared};
use std::alloc::Global;
use std::process::Abort;
use std::sync::Wait;
use std::test::Fail;
use std::thread::Threads;
use turn_lock::{Pass, Turn};

// What a caller does: it asks, or it prepares the next forms of a session.
#[derive(Clone, Copy)]
pub(crate) enum Step {
    Ask(Ask),
    Prepare(u32),
}

// What comes of it: a reply, or the number of the forms that are ready.
#[derive(Clone, Copy, Debug, PartialEq)]
pub(crate) enum Outcome {
    Reply(Told),
    Prepared(u32),
    NoMemory,
}

// What comes of a step, and how many assemblies have begun by then.
pub(crate) type Row = (Outcome, u32);

// A caller's four steps, and the rows that come of them.
struct Trial {
    room: u32,
    steps: [Step; 4],
    rows: [Row; 4],
    // The answers that something is still ready for, that of the form made last first.
    left: &'static [Key],
}

// The form of response 1 is taken off the desk, so that the answer needs no assembly. That of
// response 0 stays there.
const A_FORM_IS_READY: Trial = Trial {
    room: 16,
    steps: [
        Step::Ask(Ask::Begin(70)),
        Step::Prepare(0),
        Step::Ask(FIRST_ANSWER),
        Step::Ask(Ask::Look(0)),
    ],
    rows: [
        (Outcome::Reply(Ok((0, FIRST, true))), 1),
        (Outcome::Prepared(2), 3),
        (Outcome::Reply(Ok((0, SECOND, false))), 3),
        (Outcome::Reply(Ok((0, SECOND, false))), 3),
    ],
    left: &[Key {
        session: 0,
        step: 0,
        response: 0,
    }],
};

// An answer that names another booking is refused. It takes the form of its response off the desk,
// so the right answer needs an assembly, and gets the same item.
const REFUSED_BEFORE: Trial = Trial {
    room: 16,
    steps: [
        Step::Ask(Ask::Begin(70)),
        Step::Prepare(0),
        Step::Ask(FIRST_ANSWER_FOR_ANOTHER),
        Step::Ask(FIRST_ANSWER),
    ],
    rows: [
        (Outcome::Reply(Ok((0, FIRST, true))), 1),
        (Outcome::Prepared(2), 3),
        (Outcome::Reply(Err(Refusal::OtherBooking)), 3),
        (Outcome::Reply(Ok((0, SECOND, false))), 4),
    ],
    left: &[Key {
        session: 0,
        step: 0,
        response: 0,
    }],
};

// No step follows the last one of a session, so nothing is prepared there.
const NO_STEP_FOLLOWS: Trial = Trial {
    room: 16,
    steps: [
        Step::Ask(Ask::Begin(70)),
        Step::Ask(FIRST_ANSWER),
        Step::Ask(SECOND_ANSWER),
        Step::Prepare(0),
    ],
    rows: [
        (Outcome::Reply(Ok((0, FIRST, true))), 1),
        (Outcome::Reply(Ok((0, SECOND, false))), 2),
        (Outcome::Reply(Ok((0, THIRD, false))), 3),
        (Outcome::Prepared(0), 3),
    ],
    left: &[],
};

// The next item of session 0 after response 0 to its first.
const AFTER_WRONG: Place = Place::Waiting {
    step: 1,
    item: 1,
    proved: true,
};

// With room for one result, that of response 1 displaces that of response 0, whose answer then
// needs an assembly.
const ROOM_FOR_ONE: Trial = Trial {
    room: 1,
    steps: [
        Step::Ask(Ask::Begin(70)),
        Step::Prepare(0),
        Step::Ask(OTHER_ANSWER),
        Step::Ask(Ask::Look(0)),
    ],
    rows: [
        (Outcome::Reply(Ok((0, FIRST, true))), 1),
        (Outcome::Prepared(2), 3),
        (Outcome::Reply(Ok((0, AFTER_WRONG, false))), 4),
        (Outcome::Reply(Ok((0, AFTER_WRONG, false))), 4),
    ],
    left: &[Key {
        session: 0,
        step: 0,
        response: 1,
    }],
};

// The items but 2 and 4 have the same log-likelihood at each point, so both responses to item 1
// leave the estimate at point 1, and lead to one problem. It is assembled once. The answer with
// response 1 takes the result of response 0, and nothing is left. Item 3 is the free item of the
// form 1, 2, 3.
const ONE_PROBLEM: Trial = Trial {
    room: 16,
    steps: [
        Step::Ask(Ask::Begin(70)),
        Step::Ask(OTHER_ANSWER),
        Step::Prepare(0),
        Step::Ask(Ask::Answer {
            session: 0,
            step: 1,
            response: 1,
        }),
    ],
    rows: [
        (Outcome::Reply(Ok((0, FIRST, true))), 1),
        (Outcome::Reply(Ok((0, AFTER_WRONG, false))), 2),
        (Outcome::Prepared(2), 3),
        (
            Outcome::Reply(Ok((
                0,
                Place::Waiting {
                    step: 2,
                    item: 3,
                    proved: true,
                },
                false,
            ))),
            3,
        ),
    ],
    left: &[],
};

// What comes of one step.
fn row_of<'h, 'a, R: Wait>(
    rt: &R,
    alloc: Global,
    hall: &Hall<'a, MemoryDisk>,
    gate: &Assemblies,
    pass: &mut Pass<Office<'a, MemoryDisk>>,
    post: &mut Post<'h, 'a>,
    step: &Step,
) -> Row
    requires of { IsOf pass.old hall.now }
    requires post { IsPostOf hall.now post.old }
    ensures of { IsOf pass.new hall.now }
    ensures post { IsPostOf hall.now post.new }
{
    let outcome = match step {
        Step::Ask(ask) => {
            let reply = post.handle(rt, alloc, hall, gate, pass, &request_of(ask));
            Outcome::Reply(told(&reply))
        }
        Step::Prepare(session) => match post.prepare(rt, alloc, hall, gate, pass, *session) {
            Ok(forms) => Outcome::Prepared(forms),
            Err(_) => Outcome::NoMemory,
        },
    };
    (outcome, gate.begun())
}

// What comes of four steps of a caller with a place at the desk.
fn rows_at<'a, R: Wait>(
    rt: &R,
    alloc: Global,
    hall: &Hall<'a, MemoryDisk>,
    pass: &mut Pass<Office<'a, MemoryDisk>>,
    desk: &Turn<Desk<'a>>,
    first: &mut Pass<Desk<'a>>,
    steps: &[Step; 4],
) -> [Row; 4]
    requires of { IsOf pass.old hall.now }
    requires desk { IsFirstOf desk.now (purpose_of hall.now) first.old }
    requires splits { first.old.splits ≡ 0 }
    ensures of { IsOf pass.new hall.now }
    ensures desk { first.new.turn ≡ desk.now }
{
    let gate = Assemblies::new();
    let mut post = Post::new(desk, first);
    let [begin, second, third, last] = steps;
    let begun = row_of(rt, alloc, hall, &gate, pass, &mut post, begin);
    let second = row_of(rt, alloc, hall, &gate, pass, &mut post, second);
    let third = row_of(rt, alloc, hall, &gate, pass, &mut post, third);
    let last = row_of(rt, alloc, hall, &gate, pass, &mut post, last);
    [begun, second, third, last]
}

// What comes of the steps, and the answers that something is ready for at the end.
pub(crate) type Tried = ([Row; 4], Vec<Key>);

// What comes of the steps in a hall with a desk, which are both closed then.
fn tried_in<'a, R: Wait>(
    rt: &R,
    alloc: Global,
    hall: Hall<'a, MemoryDisk>,
    pass: Pass<Office<'a, MemoryDisk>>,
    desk: Turn<Desk<'a>>,
    first: Pass<Desk<'a>>,
    steps: &[Step; 4],
) -> Result<Tried, Fail>
    requires of { IsOf pass hall }
    requires desk { IsFirstOf desk (purpose_of hall) first }
    requires splits { first.splits ≡ 0 }
{
    let (mut pass, mut first) = (pass, first);
    let rows = rows_at(rt, alloc, &hall, &mut pass, &desk, &mut first, steps);
    let _ = hall.close(rt, pass).into_disk();
    match desk.close(rt, first).keys(alloc) {
        Ok(left) => Ok((rows, left)),
        Err(_) => Err(Fail::from("no memory for the keys")),
    }
}

// Whose a desk is: that of all callers, or one that a caller has for itself.
#[derive(Clone, Copy)]
enum Owner {
    All,
    One,
}

// What comes of the steps in a hall over this office, with a desk that one caller has.
fn tried_alone<'a, R: Wait>(
    rt: &R,
    alloc: Global,
    office: Office<'a, MemoryDisk>,
    trial: &Trial,
) -> Result<Tried, Fail> {
    let (bank, spec, base) = (office.bank(), office.spec(), office.base());
    let Ok(desk) = Desk::new(alloc, bank, spec, base, trial.room) else {
        let _ = office.into_disk();
        return Err(Fail::from("no memory for the desk"));
    };
    match Hall::new(alloc, office) {
        Ok((hall, pass)) => tried_with_own(rt, alloc, hall, pass, desk, &trial.steps),
        Err(office) => {
            let _ = office.into_disk();
            Err(Fail::from("no memory for the hall"))
        }
    }
}

// What comes of the steps in a hall over this office, with a desk that all callers have.
fn tried_over<'a, R: Wait>(
    rt: &R,
    alloc: Global,
    office: Office<'a, MemoryDisk>,
    trial: &Trial,
) -> Result<Tried, Fail> {
    let (bank, spec, base) = (office.bank(), office.spec(), office.base());
    let Ok((desk, first)) = shared(alloc, bank, spec, base, trial.room) else {
        let _ = office.into_disk();
        return Err(Fail::from("no memory for the desk"));
    };
    match Hall::new(alloc, office) {
        Ok((hall, pass)) => tried_in(rt, alloc, hall, pass, desk, first, &trial.steps),
        Err(office) => {
            let _ = desk.close(rt, first);
            let _ = office.into_disk();
            Err(Fail::from("no memory for the hall"))
        }
    }
}

fn tried_with<'a, R: Wait>(
    rt: &R,
    alloc: Global,
    bank: &'a Bank,
    spec: &'a Spec,
    trial: &Trial,
    owner: Owner,
) -> Result<Tried, Fail>
    requires { IsPlanFor bank.now spec.now }
{
    let office = match opened(alloc, bank, spec, empty_disk(alloc)) {
        Ok(office) => office,
        Err(fail) => return Err(fail),
    };
    match owner {
        Owner::All => tried_over(rt, alloc, office, trial),
        Owner::One => tried_alone(rt, alloc, office, trial),
    }
}

fn tried_on_a<R: Wait>(rt: &R, alloc: Global, trial: &Trial, owner: Owner) -> Result<Tried, Fail> {
    match planned(alloc, &EVEN) {
        Ok((bank, spec)) => tried_with(rt, alloc, &bank, &spec, trial, owner),
        Err(fail) => Err(fail),
    }
}

// The rows of a trial come of its steps, and these keys are left, whosever the desk is.
fn expect_rows<R: Abort + Wait>(rt: &R, alloc: Global, trial: &Trial) -> Result<(), Fail> {
    expect_rows_with(rt, alloc, trial, Owner::All)?;
    expect_rows_with(rt, alloc, trial, Owner::One)
}

fn expect_rows_with<R: Abort + Wait>(
    rt: &R,
    alloc: Global,
    trial: &Trial,
    owner: Owner,
) -> Result<(), Fail> {
    let (rows, left) = tried_on_a(rt, alloc, trial, owner)?;
    expect_equal(rt, &rows, &trial.rows);
    expect_equal(rt, &left.as_slice(), &trial.left);
    Ok(())
}

#[test]
fn an_answer_whose_form_is_ready_needs_no_assembly(rt: HostRuntime) -> Result<(), Fail> {
    expect_rows(&rt, rt.alloc(), &A_FORM_IS_READY)
}

#[test]
fn a_refused_answer_costs_an_assembly(rt: HostRuntime) -> Result<(), Fail> {
    expect_rows(&rt, rt.alloc(), &REFUSED_BEFORE)
}

#[test]
fn nothing_is_prepared_at_the_last_step(rt: HostRuntime) -> Result<(), Fail> {
    expect_rows(&rt, rt.alloc(), &NO_STEP_FOLLOWS)
}

#[test]
fn responses_that_lead_to_one_problem_need_one_assembly(rt: HostRuntime) -> Result<(), Fail> {
    expect_rows(&rt, rt.alloc(), &ONE_PROBLEM)
}

#[test]
fn the_result_put_last_displaces_the_first(rt: HostRuntime) -> Result<(), Fail> {
    expect_rows(&rt, rt.alloc(), &ROOM_FOR_ONE)
}

// A session begins, and its first item is answered.
const BEGIN_AND_ANSWER: &str =
    "POST /sessions HTTP/1.1\r\nContent-Length: 14\r\n\r\n{\"booking\":70}\
    POST /sessions/0/answers HTTP/1.1\r\nContent-Length: 23\r\n\r\n{\"step\":0,\"response\":1}";

// A session begins, and its place is looked at.
const BEGIN_AND_LOOK: &str = "POST /sessions HTTP/1.1\r\nContent-Length: 14\r\n\r\n{\"booking\":70}\
    GET /sessions/0 HTTP/1.1\r\n\r\n";

// How many assemblies a server begins for messages.
fn assemblies_of<R: Threads + Wait + Sync>(
    rt: &R,
    alloc: Global,
    messages: &str,
    ahead: Option<u32>,
) -> Result<u32, Fail> {
    let gate = Assemblies::new();
    let doors = one_door(alloc, messages)?;
    let _ = serve_bank_a(rt, alloc, doors, &gate, ahead)?;
    Ok(gate.begun())
}

// One for the first item, two that are prepared, none for the answer, and two that are prepared.
#[test]
fn a_server_that_prepares(rt: HostRuntime) -> Result<(), Fail> {
    let begun = assemblies_of(&rt, rt.alloc(), BEGIN_AND_ANSWER, Some(4))?;
    expect_equal(&rt, &begun, &5);
    Ok(())
}

// One for the first item, two that are prepared, and none for a look: its forms are on the desk.
#[test]
fn a_look_prepares_nothing_again(rt: HostRuntime) -> Result<(), Fail> {
    let begun = assemblies_of(&rt, rt.alloc(), BEGIN_AND_LOOK, Some(4))?;
    expect_equal(&rt, &begun, &3);
    Ok(())
}

// With room for one result, that of the first response is displaced, so a look prepares again.
#[test]
fn a_look_prepares_what_was_displaced(rt: HostRuntime) -> Result<(), Fail> {
    let begun = assemblies_of(&rt, rt.alloc(), BEGIN_AND_LOOK, Some(1))?;
    expect_equal(&rt, &begun, &5);
    Ok(())
}

// One for each item.
#[test]
fn a_server_that_prepares_nothing(rt: HostRuntime) -> Result<(), Fail> {
    let begun = assemblies_of(&rt, rt.alloc(), BEGIN_AND_ANSWER, None)?;
    expect_equal(&rt, &begun, &2);
    Ok(())
}
