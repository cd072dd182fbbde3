//! Requests with lists of items on bank A, through a hall. The replies were worked out by hand: the
//! form without item 2 is of items 1, 3 and 5, and no form is without items 0 and 1, or without
//! items 3 to 5.

ghost use Rattle.std.specs.Prelude.{◌≡◌};
ghost use Rattle.form_model.specs.Validity.{IsPlanFor};
ghost use Rattle.exam_hall.specs.Known.{IsOf};

use crate::equal::expect_equal;
use crate::halls::hall_on;
use crate::meeting::Meeting;
use crate::office::{EVEN, planned};
use crate::requests::{Ask, FIRST, Told, request_of, told};
use bank_tables::Bank;
use constraint_model::Spec;
use exam_edge::{Gate, MemoryDisk, Point};
use exam_hall::{Caller, Hall};
use exam_handler::{Handler, Health, Observer};
use exam_office::{Office, Place, Refusal, Request};
use std::alloc::Global;
use std::process::Abort;
use std::sync::Wait;
use std::sync::atomic::{AtomicU32, Ordering};
use std::test::Fail;
use std::thread;
use std::thread::Threads;
use turn_lock::Pass;

// A gate that holds nobody, and counts how often it is passed.
#[derive(Drop)]
struct Counting {
    passes: AtomicU32,
}

impl Counting {
    fn new() -> Counting {
        Counting {
            passes: AtomicU32::new(0),
        }
    }

    fn passes(&self) -> u32 {
        self.passes.load(Ordering::SeqCst)
    }
}

impl Gate for Counting {
    fn pass(&self, _point: Point, _caller: u32) {
        self.passes.fetch_add(1, Ordering::SeqCst);
    }
}

impl Observer for Counting {
    fn see(&self, _health: &Health) {}
}

// A request, its reply, and how often the gate was passed by then.
#[derive(Drop)]
struct Row {
    asked: Ask,
    told: Told,
    passes: u32,
}

// The first item of a session that must not have item 2.
const FIRST_WITHOUT_2: Place = Place::Waiting {
    step: 0,
    item: 1,
    proved: true,
};

// The base is of items 1, 2 and 3. Each form that is sought takes two passes, and so does the form
// that the first item of a session is served from.
const ROWS: [Row; 8] = [
    Row {
        asked: Ask::Begin(70),
        told: Ok((0, FIRST, true)),
        passes: 2,
    },
    Row {
        asked: Ask::BeginWithout(71, &[2]),
        told: Ok((1, FIRST_WITHOUT_2, true)),
        passes: 6,
    },
    Row {
        asked: Ask::BeginWithout(71, &[1]),
        told: Err(Refusal::OtherList(1)),
        passes: 8,
    },
    Row {
        asked: Ask::Begin(71),
        told: Ok((1, FIRST_WITHOUT_2, false)),
        passes: 8,
    },
    Row {
        asked: Ask::BeginWithout(72, &[0, 1]),
        told: Err(Refusal::NoForm),
        passes: 10,
    },
    Row {
        asked: Ask::BeginWithout(72, &[3, 4, 5]),
        told: Err(Refusal::NoForm),
        passes: 12,
    },
    // The bank has no item 6: no form is sought.
    Row {
        asked: Ask::BeginWithout(72, &[6]),
        told: Err(Refusal::NoItem(6)),
        passes: 12,
    },
    // Nor is one sought without items that the base hasn't.
    Row {
        asked: Ask::BeginWithout(72, &[4]),
        told: Ok((2, FIRST, true)),
        passes: 14,
    },
];

fn ask<H: Handler, R: Wait + Sync>(
    rt: &R,
    alloc: Global,
    handler: &mut H,
    request: &Request,
) -> Told {
    told(&handler.handle(rt, alloc, request))
}

// The replies to the rows, one after another, each with how often the gate was passed by then; and
// the pass that they were asked with.
fn ask_rows<'a, R: Wait + Sync>(
    rt: &R,
    alloc: Global,
    hall: &Hall<'a, MemoryDisk>,
    pass: Pass<Office<'a, MemoryDisk>>,
) -> (Pass<Office<'a, MemoryDisk>>, Vec<(Told, u32)>)
    requires { IsOf pass hall.now }
    ensures { IsOf result.0 hall.now }
{
    let gate = Counting::new();
    let mut caller = Caller::new(hall, &gate, pass);
    let mut replies = Vec::new(alloc);
    for row in &ROWS {
        let reply = caller.handle(rt, alloc, &request_of(&row.asked));
        let _ = replies.push((told(&reply), gate.passes()));
    }
    (caller.into_pass(), replies)
}

fn replies_in<'a, R: Wait + Sync>(
    rt: &R,
    alloc: Global,
    hall: Hall<'a, MemoryDisk>,
    pass: Pass<Office<'a, MemoryDisk>>,
) -> Vec<(Told, u32)>
    requires { IsOf pass hall }
{
    let (pass, replies) = ask_rows(rt, alloc, &hall, pass);
    let _ = hall.close(rt, pass).into_disk();
    replies
}

fn replies_over<'a, R: Wait + Sync>(
    rt: &R,
    alloc: Global,
    bank: &'a Bank,
    spec: &'a Spec,
) -> Result<Vec<(Told, u32)>, Fail>
    requires { IsPlanFor bank.now spec.now }
{
    match hall_on(alloc, bank, spec) {
        Ok((hall, pass)) => Ok(replies_in(rt, alloc, hall, pass)),
        Err(fail) => Err(fail),
    }
}

// What owns a bank is a function of its own, since a test that does and compares is dear to prove.
fn replies_on_a<R: Wait + Sync>(rt: &R, alloc: Global) -> Result<Vec<(Told, u32)>, Fail> {
    match planned(alloc, &EVEN) {
        Ok((bank, spec)) => replies_over(rt, alloc, &bank, &spec),
        Err(fail) => Err(fail),
    }
}

fn expect_row<R: Abort>(rt: &R, found: Option<&(Told, u32)>, row: &Row) {
    expect_equal(rt, &found, &Some(&(row.told, row.passes)));
}

#[test]
fn sessions_with_lists(rt: HostRuntime) -> Result<(), Fail> {
    let replies = replies_on_a(&rt, rt.alloc())?;
    expect_equal(&rt, &replies.len(), &ROWS.len());
    for (at, row) in ROWS.iter().enumerate() {
        expect_row(&rt, replies.get(at), row);
    }
    Ok(())
}

// Both callers begin one booking, each in a thread of its own. Returns both replies.
fn begin_each<H: Handler + Send, R: Threads + Wait + Sync>(
    rt: &R,
    alloc: Global,
    first: &mut H,
    second: &mut H,
) -> (Told, Told) {
    thread::join(
        rt,
        || ask(rt, alloc, first, &request_of(&Ask::BeginWithout(70, &[2]))),
        || ask(
            rt,
            alloc,
            second,
            &request_of(&Ask::BeginWithout(70, &[2, 4])),
        ),
    )
}

// The callers have passes 1 and 2.
fn begin_both<'a, R: Threads + Wait + Sync>(
    rt: &R,
    alloc: Global,
    hall: &Hall<'a, MemoryDisk>,
    gate: &Meeting,
    pass: &mut Pass<Office<'a, MemoryDisk>>,
) -> (Told, Told)
    requires of { IsOf pass.old hall.now }
    requires new { (pass.old.number ≡ 0) × (pass.old.splits ≡ 0) }
    ensures { IsOf pass.new hall.now }
{
    let mut first = Caller::new(hall, gate, hall.split(pass));
    let mut second = Caller::new(hall, gate, hall.split(pass));
    begin_each(rt, alloc, &mut first, &mut second)
}

fn both_in<'a, R: Threads + Wait + Sync>(
    rt: &R,
    alloc: Global,
    hall: Hall<'a, MemoryDisk>,
    pass: Pass<Office<'a, MemoryDisk>>,
    gate: &Meeting,
) -> (Told, Told)
    requires of { IsOf pass hall }
    requires new { (pass.number ≡ 0) × (pass.splits ≡ 0) }
{
    let mut pass = pass;
    let replies = begin_both(rt, alloc, &hall, gate, &mut pass);
    let _ = hall.close(rt, pass).into_disk();
    replies
}

fn both_over<'a, R: Threads + Wait + Sync>(
    rt: &R,
    alloc: Global,
    bank: &'a Bank,
    spec: &'a Spec,
    gate: &Meeting,
) -> Result<(Told, Told), Fail>
    requires { IsPlanFor bank.now spec.now }
{
    match hall_on(alloc, bank, spec) {
        Ok((hall, pass)) => Ok(both_in(rt, alloc, hall, pass, gate)),
        Err(fail) => Err(fail),
    }
}

fn both_on_a<R: Threads + Wait + Sync>(
    rt: &R,
    alloc: Global,
    gate: &Meeting,
) -> Result<(Told, Told), Fail> {
    match planned(alloc, &EVEN) {
        Ok((bank, spec)) => both_over(rt, alloc, &bank, &spec, gate),
        Err(fail) => Err(fail),
    }
}

// One caller has the session, and the other is refused.
fn expect_begun_once<R: Abort>(rt: &R, (first, second): (Told, Told)) {
    let begun = Ok((0, FIRST_WITHOUT_2, true));
    let other = Err(Refusal::OtherList(0));
    if first == begun {
        expect_equal(rt, &second, &other);
    } else {
        expect_equal(rt, &first, &other);
        expect_equal(rt, &second, &begun);
    }
}

// Callers that sought their forms one after another would give up at the gate. The form without
// item 2 has no item 4.
#[test]
fn one_booking_has_one_list(rt: HostRuntime) -> Result<(), Fail> {
    let gate = Meeting::new();
    let replies = both_on_a(&rt, rt.alloc(), &gate)?;
    expect_equal(&rt, &gate.given_up(), &0);
    expect_begun_once(&rt, replies);
    Ok(())
}
