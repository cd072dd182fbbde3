//! Requests with a list of items that an examinee must not get, on an office of one thread.

ghost use Rattle.answer_journal.specs.Standing.{IsAsLeft};
ghost use Rattle.exam_edge.specs.MemoryDisk.{accounts_of};
ghost use Rattle.form_model.specs.Validity.{IsPlanFor};

use crate::equal::expect_equal;
use crate::outcome::{FIRST, Numbers, WORKED, disk_of, draft};
use bank_tables::{Bank, List};
use constraint_model::Spec;
use exam_edge::{Disk, MemoryDisk};
use exam_office::{Alone, Exposure, Office, Place, Refusal, Reply, Request};
use form_model::{Draft, Row};
use history_model::Counts;
use std::alloc::Global;
use std::process::Abort;
use trial_cases::{bank_a, draft_of, item, rows_of, set_of};

/// A request.
#[derive(Clone, Copy)]
enum Ask {
    Begin(u64),
    /// A session for a booking without these items.
    Without(u64, &'static [u16]),
    Close(u32),
}

/// What it has to give: the place of a session, and whether the request started it; or a refusal.
#[derive(Clone, Copy, Debug, PartialEq)]
enum Answer {
    At(u32, Place, bool),
    Refused(Refusal),
    Counts,
}

type Step = (Ask, Answer);

fn request_of(ask: &Ask) -> Request {
    match *ask {
        Ask::Begin(booking) => Request::Begin(booking),
        Ask::Without(booking, items) => Request::BeginWithout {
            booking,
            items: set_of(items),
        },
        Ask::Close(session) => Request::Close {
            session,
            booking: None,
        },
    }
}

fn answer_of(reply: &Reply) -> Answer {
    match reply {
        Reply::At {
            session,
            place,
            fresh,
        } => Answer::At(*session, *place, *fresh),
        Reply::Refused(refusal) => Answer::Refused(*refusal),
        Reply::Exposure(_) => Answer::Counts,
    }
}

/// Each request gives its answer.
fn expect_answers<'a, R: Abort, D: Disk>(
    rt: &R,
    alloc: Global,
    alone: &mut Alone<'a, D>,
    steps: &[Step],
) {
    for (ask, answer) in steps {
        let reply = alone.ask(alloc, &request_of(ask));
        expect_equal(rt, &answer_of(&reply), answer);
    }
}

/// The exposure is of one finished session, with these counts.
fn expect_exposure<R: Abort>(rt: &R, exposure: &Exposure, counts: &[Counts]) {
    expect_equal(rt, &exposure.finished, &1);
    let rows = exposure.rows.as_slice();
    expect_equal(rt, &rows.len(), &counts.len());
    for (row, expected) in rows.iter().zip(counts.iter()) {
        expect_equal(rt, row, expected);
    }
}

fn expect_counts<'a, R: Abort, D: Disk>(
    rt: &R,
    alloc: Global,
    alone: &mut Alone<'a, D>,
    counts: &[Counts],
) {
    match alone.ask(alloc, &Request::Exposure) {
        Reply::Exposure(exposure) => expect_exposure(rt, &exposure, counts),
        _ => panic!(rt; "no counts"),
    }
}

/// Requests, and the counts of each item after them, if they are looked at.
#[derive(Clone, Copy)]
struct Trial<'a> {
    steps: &'a [Step],
    counts: Option<&'a [Counts]>,
}

fn asks_over<'a, R: Abort>(
    rt: &R,
    alloc: Global,
    bank: &'a Bank,
    spec: &'a Spec,
    disk: MemoryDisk,
    trial: &Trial<'_>,
) -> Vec<u8>
    requires plan { IsPlanFor bank.now spec.now }
    requires left { IsAsLeft (accounts_of disk) }
{
    let Some(base) = spec.base() else {
        panic!(rt; "no base");
    };
    let Ok(office) = Office::open(alloc, bank, spec, base, disk) else {
        panic!(rt; "no office");
    };
    let mut alone = Alone { office };
    expect_answers(rt, alloc, &mut alone, trial.steps);
    if let Some(counts) = trial.counts {
        expect_counts(rt, alloc, &mut alone, counts);
    }
    let Alone { office } = alone;
    let disk = office.into_disk();
    disk.bytes().to_vec(alloc).expect(rt, "the file")
}

fn asks_on<R: Abort>(
    rt: &R,
    alloc: Global,
    bank: &Bank,
    spec: &Spec,
    file: &[u8],
    trial: &Trial<'_>,
) -> Vec<u8>
    requires { IsPlanFor bank.now spec.now }
{
    asks_over(
        rt,
        alloc,
        bank,
        spec,
        disk_of(rt, alloc, &[file], &[]),
        trial,
    )
}

/// The journal after the requests, from a journal, over a bank and the plan of a draft.
fn asks_by<R: Abort>(
    rt: &R,
    alloc: Global,
    bank: &Bank,
    draft: Draft,
    file: &[u8],
    trial: &Trial<'_>,
) -> Vec<u8> {
    match Spec::of(alloc, bank, draft) {
        Ok(spec) => asks_on(rt, alloc, bank, &spec, file, trial),
        Err(_) => panic!(rt; "no plan"),
    }
}

/// Session 1 waits for the answer to its first item.
const ONE: Place = Place::Waiting {
    step: 0,
    item: 1,
    proved: true,
};

/// Items 2 and 5 are enemies, and of 0 and 1 one is in each form. The best form is 1, 2 and 3. The
/// best one without item 2 is 1, 3 and 5, where 1 has the most information. Without 0 and 1, and
/// without 3 to 5, there is none. Item 4 is not of the base form, and item 2 is.
const REQUESTS: [Step; 14] = [
    (Ask::Begin(70), Answer::At(0, FIRST, true)),
    (Ask::Without(71, &[2]), Answer::At(1, ONE, true)),
    (
        Ask::Without(71, &[1]),
        Answer::Refused(Refusal::OtherList(1)),
    ),
    (
        Ask::Without(71, &[6]),
        Answer::Refused(Refusal::OtherList(1)),
    ),
    (Ask::Without(71, &[2]), Answer::At(1, ONE, false)),
    (Ask::Begin(71), Answer::At(1, ONE, false)),
    (
        Ask::Without(70, &[2]),
        Answer::Refused(Refusal::OtherList(0)),
    ),
    (Ask::Without(72, &[0, 1]), Answer::Refused(Refusal::NoForm)),
    (
        Ask::Without(72, &[3, 4, 5]),
        Answer::Refused(Refusal::NoForm),
    ),
    (Ask::Without(72, &[6]), Answer::Refused(Refusal::NoItem(6))),
    (
        Ask::Without(72, &[2, 511]),
        Answer::Refused(Refusal::NoItem(6)),
    ),
    (Ask::Without(72, &[]), Answer::Refused(Refusal::NoItem(6))),
    (Ask::Without(72, &[4]), Answer::At(2, FIRST, true)),
    (Ask::Close(1), Answer::At(1, Place::Closed, false)),
];

/// The same session and its list in an office that opens the journal.
const AGAIN: [Step; 3] = [
    (
        Ask::Without(71, &[1]),
        Answer::Refused(Refusal::OtherList(1)),
    ),
    (Ask::Without(71, &[2]), Answer::At(1, Place::Closed, false)),
    (Ask::Without(72, &[4]), Answer::At(2, FIRST, false)),
];

/// Of the closed session: item 1 was shown, item 2 is of its list, and each other item was
/// eligible.
const COUNTS: [Counts; 6] = [
    Counts { alpha: 0, eps: 1 },
    Counts { alpha: 1, eps: 1 },
    Counts { alpha: 0, eps: 0 },
    Counts { alpha: 0, eps: 1 },
    Counts { alpha: 0, eps: 1 },
    Counts { alpha: 0, eps: 1 },
];

#[test]
fn lists_of_retakers(rt: HostRuntime) {
    let alloc = rt.alloc();
    let bank = bank_a(alloc).expect(&rt, "a bank");
    let first = Trial {
        steps: &REQUESTS,
        counts: Some(&COUNTS),
    };
    let file = asks_by(&rt, alloc, &bank, draft(&rt, alloc, &WORKED), &[], &first);
    let again = Trial {
        steps: &AGAIN,
        counts: Some(&COUNTS),
    };
    let left = asks_by(&rt, alloc, &bank, draft(&rt, alloc, &WORKED), &file, &again);
    expect_equal(&rt, &left.as_slice(), &file.as_slice());
}

/// With two sessions allowed the number of sessions is tested before a form is needed, and after
/// the list.
const FULL: [Step; 4] = [
    (Ask::Begin(70), Answer::At(0, FIRST, true)),
    (Ask::Without(71, &[2]), Answer::At(1, ONE, true)),
    (
        Ask::Without(72, &[0, 1]),
        Answer::Refused(Refusal::SessionsFull(2)),
    ),
    (Ask::Without(72, &[6]), Answer::Refused(Refusal::NoItem(6))),
];

#[test]
fn lists_beyond_the_sessions(rt: HostRuntime) {
    let alloc = rt.alloc();
    let bank = bank_a(alloc).expect(&rt, "a bank");
    let numbers = Numbers {
        sessions: 2,
        ..WORKED
    };
    let trial = Trial {
        steps: &FULL,
        counts: None,
    };
    asks_by(&rt, alloc, &bank, draft(&rt, alloc, &numbers), &[], &trial);
}

/// Nine like items on one grid point.
fn bank_of_nine<R: Abort>(rt: &R, alloc: Global) -> Bank {
    let mut items = Vec::new(alloc);
    for _ in 0..9 {
        let one = item(alloc, 0, &[], &[1], &[-1, -1]).expect(rt, "an item");
        items.push(one).expect(rt, "room");
    }
    match Bank::of(alloc, rows_of(1, 0, items)) {
        Ok(bank) => bank,
        Err(_) => panic!(rt; "no bank"),
    }
}

/// The pairs among three items.
const PAIRS: [[u16; 2]; 6] = [[0, 1], [1, 2], [0, 2], [3, 4], [4, 5], [3, 5]];

/// Tests of three items, with no two of items 0, 1 and 2, and no two of 3, 4 and 5; a base form of
/// the others; and a node budget for a base form.
fn draft_of_nine<R: Abort>(rt: &R, alloc: Global, nodes: u32) -> Draft {
    let mut rows = Vec::new(alloc);
    for pair in &PAIRS {
        let row = Row::Enemies { set: set_of(pair) };
        rows.push(row).expect(rt, "room");
    }
    let mut draft = draft_of(alloc, 3, &[0], &[], &[]).expect(rt, "a draft");
    draft.rows = List::of(rows);
    draft.base_budget = nodes;
    draft.base = Some(set_of(&[6, 7, 8]));
    draft
}

/// Items 0 to 5 alone have no form, since it would have at most one of each three. One node does
/// not show that: half of each item meets each row, and the halves are three items. A whole tree of
/// six items has at most 127 nodes.
const UNKNOWN: [Step; 1] = [(
    Ask::Without(1, &[6, 7, 8]),
    Answer::Refused(Refusal::NoneFound),
)];

const KNOWN: [Step; 1] = [(
    Ask::Without(1, &[6, 7, 8]),
    Answer::Refused(Refusal::NoForm),
)];

#[test]
fn lists_at_the_base_budget(rt: HostRuntime) {
    let alloc = rt.alloc();
    let bank = bank_of_nine(&rt, alloc);
    for (nodes, steps) in &[(1, &UNKNOWN), (127, &KNOWN)] {
        let trial = Trial {
            steps: *steps,
            counts: None,
        };
        let draft = draft_of_nine(&rt, alloc, *nodes);
        asks_by(&rt, alloc, &bank, draft, &[], &trial);
    }
}
