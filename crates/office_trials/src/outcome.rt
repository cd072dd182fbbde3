//! An office over a disk in memory, and what becomes of calls of it.

ghost use Rattle.answer_journal.specs.Standing.{IsAsLeft};
ghost use Rattle.exam_edge.specs.MemoryDisk.{accounts_of};
ghost use Rattle.form_model.specs.Validity.{IsPlanFor};

use crate::counted_disk::{Count, CountedDisk};
use crate::files::{Parts, joined};
use crate::serving::{serve, serve_again, serve_late};
use bank_tables::{Bank, List};
use constraint_model::Spec;
use exam_edge::{Disk, MemoryDisk};
use exam_office::{Begun, Health, Office, OpenFault, Place, Refusal, Summary};
use form_model::{Draft, Rate};
use history_model::Counts;
use std::alloc::Global;
use std::process::Abort;
use trial_cases::{bank_a, draft_a, set_of};

/// The numbers of a plan in which the trials differ from the worked one.
#[derive(Clone, Copy)]
pub(crate) struct Numbers {
    pub rate: Rate,
    pub sessions: u32,
    pub journal: u64,
    /// The points at which new bands begin.
    pub points: &'static [u8],
}

/// Those of the worked plan.
pub(crate) const WORKED: Numbers = Numbers {
    rate: Rate { num: 1, den: 1 },
    sessions: 1_000,
    journal: 67_108_864,
    points: &[],
};

/// A call of an office.
#[derive(Clone, Copy)]
pub(crate) enum Call {
    Begin(u64),
    /// What is assembled for a session is committed.
    Serve(u32),
    /// The same, once it was committed before.
    ServeAgain(u32),
    /// The same, once the session was closed.
    ServeLate(u32),
    /// The response to a step of a session.
    Answer(u32, u16, u8),
    /// The same, with the booking that the session must have.
    AnswerFor(u32, u16, u8, u64),
    Close(u32),
    /// The same, with the booking that the session must have.
    CloseFor(u32, u64),
    Look(u32),
    /// The vector that the search for a session's next form may begin with.
    Warm(u32),
    /// The exposure counts of an item; none if there is no such item.
    Exposure(usize),
    /// How the examination is, once the entry in doubt is resolved.
    Probe,
}

/// What a call gives.
#[derive(Clone, Copy, PartialEq)]
pub(crate) enum Reply {
    Begun(Begun),
    At(Place),
    Refused(Refusal),
    /// A vector of so many pairs, and the first of them.
    Vector(usize, Option<(u16, u32)>),
    /// A session without a vector.
    Cold,
    /// None where there is no such item.
    Exposed(Option<Counts>),
    Found(Health),
    /// No call gives this. It is expected where `JournalFull` has this length at least.
    Full(u64),
    /// No call gives this. It is expected where the reply is not tested.
    Any,
}

/// A call, and what it has to give.
pub(crate) type Step = (Call, Reply);

/// Session 0 is started by the call.
pub(crate) const BEGUN: Reply = Reply::Begun(Begun {
    session: 0,
    fresh: true,
});

/// Session 0 was started before.
pub(crate) const FOUND: Reply = Reply::Begun(Begun {
    session: 0,
    fresh: false,
});

/// The first item of the worked session waits for an answer. It was served from a form that is
/// proved best.
pub(crate) const FIRST: Place = Place::Waiting {
    step: 0,
    item: 2,
    proved: true,
};

/// The same of the second item.
pub(crate) const SECOND: Place = Place::Waiting {
    step: 1,
    item: 4,
    proved: true,
};

/// The same of the third item.
pub(crate) const THIRD: Place = Place::Waiting {
    step: 2,
    item: 1,
    proved: true,
};

/// A call of the disk failed.
pub(crate) const FAILED: Reply = Reply::Refused(Refusal::Disk);

/// The worked session. Each call adds an entry.
pub(crate) const SESSION: [Step; 7] = [
    (Call::Begin(70), BEGUN),
    (Call::Serve(0), Reply::At(FIRST)),
    (Call::Answer(0, 0, 1), Reply::At(Place::Pending(1))),
    (Call::Serve(0), Reply::At(SECOND)),
    (Call::Answer(0, 1, 0), Reply::At(Place::Pending(2))),
    (Call::Serve(0), Reply::At(THIRD)),
    (Call::Answer(0, 2, 1), Reply::At(Place::Complete)),
];

/// The summary of a history without an entry.
pub(crate) const NOTHING: Summary = Summary {
    entries: 0,
    sessions: 0,
    finished: 0,
    proved: 0,
    unproved: 0,
    aside: 0,
    nodes: 0,
};

/// An office is opened over a file of these parts under the worked plan with these numbers. Calls
/// of the disk fail that have the numbers of `fails`, counted from 0. Then calls of the office are
/// made, one list after another.
#[derive(Clone, Copy)]
pub(crate) struct Trial<'a> {
    pub numbers: Numbers,
    pub file: Parts<'a>,
    pub fails: &'a [u64],
    pub steps: &'a [&'a [Step]],
}

/// The trial under the worked plan in which no call of the disk fails.
pub(crate) fn calm<'a>(file: Parts<'a>, steps: &'a [&'a [Step]]) -> Trial<'a> {
    Trial {
        numbers: WORKED,
        file,
        fails: &[],
        steps,
    }
}

/// Why the file was not opened, or else the summary of the history and the vector of session 0
/// after the calls.
#[derive(Clone, Copy)]
pub(crate) struct Found {
    pub fault: Option<OpenFault>,
    pub summary: Summary,
    pub vector: Reply,
}

/// What was found; and the bytes of the disk in the end, and the count of its calls.
#[derive(Drop)]
pub(crate) struct Outcome {
    pub found: Found,
    pub bytes: Vec<u8>,
    pub count: Count,
}

fn at(answer: Result<Place, Refusal>) -> Reply {
    match answer {
        Ok(place) => Reply::At(place),
        Err(refusal) => Reply::Refused(refusal),
    }
}

fn begin<D: Disk>(alloc: Global, office: &mut Office<D>, booking: u64) -> Reply {
    match office.begin(alloc, booking) {
        Ok(begun) => Reply::Begun(begun),
        Err(refusal) => Reply::Refused(refusal),
    }
}

fn vector_of<D: Disk>(alloc: Global, office: &Office<D>, session: u32) -> Reply {
    match office.warm(alloc, session) {
        Ok(Some(vector)) => {
            let pairs = vector.pairs();
            Reply::Vector(pairs.len(), pairs.first().copied())
        }
        Ok(None) => Reply::Cold,
        Err(refusal) => Reply::Refused(refusal),
    }
}

fn exposure_of<D: Disk>(alloc: Global, office: &Office<D>, item: usize) -> Reply {
    match office.exposure(alloc) {
        Ok(exposure) => Reply::Exposed(exposure.rows.as_slice().get(item).copied()),
        Err(refusal) => Reply::Refused(refusal),
    }
}

fn probe<D: Disk>(office: &mut Office<D>) -> Reply {
    match office.probe() {
        Ok(health) => Reply::Found(health),
        Err(refusal) => Reply::Refused(refusal),
    }
}

/// What a call gives that has the place of a session.
fn place_by<R: Abort, D: Disk>(
    rt: &R,
    alloc: Global,
    office: &mut Office<D>,
    call: &Call,
) -> Result<Place, Refusal> {
    match *call {
        Call::Serve(session) => serve(rt, alloc, office, session),
        Call::ServeAgain(session) => serve_again(rt, alloc, office, session),
        Call::ServeLate(session) => serve_late(rt, alloc, office, session),
        Call::Answer(session, step, response) => {
            office.answer(alloc, session, step, response, None)
        }
        Call::AnswerFor(session, step, response, booking) => {
            office.answer(alloc, session, step, response, Some(booking))
        }
        Call::Close(session) => office.close(alloc, session, None),
        Call::CloseFor(session, booking) => office.close(alloc, session, Some(booking)),
        Call::Look(session) => office.look(session),
        _ => panic!(rt; "another call"),
    }
}

pub(crate) fn ask<R: Abort, D: Disk>(
    rt: &R,
    alloc: Global,
    office: &mut Office<D>,
    call: &Call,
) -> Reply {
    match *call {
        Call::Begin(booking) => begin(alloc, office, booking),
        Call::Warm(session) => vector_of(alloc, office, session),
        Call::Exposure(item) => exposure_of(alloc, office, item),
        Call::Probe => probe(office),
        _ => at(place_by(rt, alloc, office, call)),
    }
}

/// A call gave what it had to give.
fn expect_reply<R: Abort>(rt: &R, found: Reply, expected: Reply) {
    match (found, expected) {
        (Reply::Refused(Refusal::JournalFull(length)), Reply::Full(least)) => {
            assert!(rt; length >= least);
        }
        (_, Reply::Any) => {}
        _ => assert!(rt; found == expected),
    }
}

/// Each call gives its reply.
fn expect_replies<R: Abort, D: Disk>(
    rt: &R,
    alloc: Global,
    office: &mut Office<D>,
    steps: &[Step],
) {
    for (call, reply) in steps {
        expect_reply(rt, ask(rt, alloc, office, call), *reply);
    }
}

/// The same of one list of calls after another, and what is found then.
fn ask_all<R: Abort, D: Disk>(
    rt: &R,
    alloc: Global,
    office: &mut Office<D>,
    lists: &[&[Step]],
) -> Found {
    for steps in lists {
        expect_replies(rt, alloc, office, steps);
    }
    Found {
        fault: None,
        summary: office.summary(),
        vector: vector_of(alloc, office, 0),
    }
}

/// What was found, and what is on the disk then.
fn outcome_of<R: Abort>(
    rt: &R,
    alloc: Global,
    found: Found,
    disk: CountedDisk<MemoryDisk>,
) -> Outcome {
    Outcome {
        found,
        bytes: disk.disk.bytes().to_vec(alloc).expect(rt, "the file"),
        count: disk.count,
    }
}

/// The same if the file was not opened. Only a trial without calls may end so.
fn unopened<R: Abort>(
    rt: &R,
    alloc: Global,
    fault: OpenFault,
    disk: CountedDisk<MemoryDisk>,
) -> Outcome {
    let found = Found {
        fault: Some(fault),
        summary: NOTHING,
        vector: Reply::Cold,
    };
    outcome_of(rt, alloc, found, disk)
}

fn run_over<'a, R: Abort>(
    rt: &R,
    alloc: Global,
    bank: &'a Bank,
    spec: &'a Spec,
    disk: CountedDisk<MemoryDisk>,
    lists: &[&[Step]],
) -> Outcome
    requires plan { IsPlanFor bank.now spec.now }
    requires left { IsAsLeft (accounts_of disk.disk) }
{
    let Some(base) = spec.base() else {
        panic!(rt; "no base");
    };
    match Office::open(alloc, bank, spec, base, disk) {
        Ok(office) => {
            let mut office = office;
            let found = ask_all(rt, alloc, &mut office, lists);
            outcome_of(rt, alloc, found, office.into_disk())
        }
        Err((disk, fault)) => {
            assert!(rt; lists.is_empty());
            unopened(rt, alloc, fault, disk)
        }
    }
}

/// The worked plan with these numbers, and a base form.
pub(crate) fn draft<R: Abort>(rt: &R, alloc: Global, numbers: &Numbers) -> Draft {
    let mut draft = draft_a(alloc).expect(rt, "a draft");
    draft.rate = numbers.rate;
    draft.sessions = numbers.sessions;
    draft.journal = numbers.journal;
    draft.bands = List::of(numbers.points.to_vec(alloc).expect(rt, "points"));
    draft.base = Some(set_of(&[1, 2, 3]));
    draft
}

/// A disk with a file of these parts. Its calls that have these numbers fail.
pub(crate) fn disk_of<R: Abort>(rt: &R, alloc: Global, file: Parts<'_>, fails: &[u64]) -> MemoryDisk
    ensures { IsAsLeft (accounts_of result) }
{
    let numbers = fails.to_vec(alloc).expect(rt, "numbers");
    let disk = MemoryDisk::of(alloc, joined(rt, alloc, file), numbers);
    // There is room for each call that fails, so a crash leaves what the model of a disk has.
    assert!(rt; disk.room() == fails.len());
    disk
}

/// The trial over a bank and a plan for it. What owns a bank is a function of its own, since one
/// that also owns a disk is dear to prove.
fn run_on<R: Abort>(rt: &R, alloc: Global, bank: &Bank, spec: &Spec, trial: &Trial<'_>) -> Outcome
    requires { IsPlanFor bank.now spec.now }
{
    let disk = CountedDisk::of(disk_of(rt, alloc, trial.file, trial.fails));
    run_over(rt, alloc, bank, spec, disk, trial.steps)
}

/// The same over a bank and the plan of a draft.
fn run_by<R: Abort>(
    rt: &R,
    alloc: Global,
    bank: &Bank,
    draft: Draft,
    trial: &Trial<'_>,
) -> Outcome {
    match Spec::of(alloc, bank, draft) {
        Ok(spec) => run_on(rt, alloc, bank, &spec, trial),
        Err(_) => panic!(rt; "no plan"),
    }
}

/// What becomes of a trial. Each call gives its reply.
pub(crate) fn run<R: Abort>(rt: &R, alloc: Global, trial: &Trial<'_>) -> Outcome {
    let bank = bank_a(alloc).expect(rt, "a bank");
    run_by(rt, alloc, &bank, draft(rt, alloc, &trial.numbers), trial)
}
