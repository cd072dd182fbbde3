//! Two callers of one hall: one is held before its assembly while the other is answered.

ghost use Rattle.std.specs.Prelude.{◌≡◌};
ghost use Rattle.form_model.specs.Validity.{IsPlanFor};
ghost use Rattle.exam_hall.specs.Known.{IsOf};

use crate::equal::expect_equal;
use crate::halls::hall_on;
use crate::office::{EVEN, planned};
use crate::requests::{FIRST, Told, told};
use bank_tables::Bank;
use constraint_model::Spec;
use exam_edge::{Gate, MemoryDisk, Point};
use exam_hall::{Caller, Hall};
use exam_handler::{Handler, Health, Observer};
use exam_office::{Office, Request};
use std::alloc::Global;
use std::sync::Wait;
use std::sync::atomic::{AtomicBool, Ordering};
use std::test::Fail;
use std::thread;
use std::thread::Threads;
use turn_lock::Pass;

// How many turns a caller waits for the other, before it gives up.
const TURNS: u32 = 10_000_000;

// A gate that holds the caller with pass 1 before its assembly, until it is let go or gives up.
#[derive(Drop)]
struct Hold {
    is_held: AtomicBool,
    is_free: AtomicBool,
    given_up: AtomicBool,
}

impl Hold {
    fn new() -> Hold {
        Hold {
            is_held: AtomicBool::new(false),
            is_free: AtomicBool::new(false),
            given_up: AtomicBool::new(false),
        }
    }

    fn wait_for(&self, sign: &AtomicBool) {
        for _ in 0..TURNS {
            if sign.load(Ordering::SeqCst) {
                return;
            }
            thread::yield_now();
        }
        self.given_up.store(true, Ordering::SeqCst);
    }

    // Waits until the first caller is held.
    fn wait(&self) {
        self.wait_for(&self.is_held);
    }

    fn let_go(&self) {
        self.is_free.store(true, Ordering::SeqCst);
    }

    // Whether a caller gave up.
    fn given_up(&self) -> bool {
        self.given_up.load(Ordering::SeqCst)
    }
}

impl Gate for Hold {
    fn pass(&self, point: Point, caller: u32) {
        if caller == 1 && point == Point::BeforeAssembly {
            self.is_held.store(true, Ordering::SeqCst);
            self.wait_for(&self.is_free);
        }
    }
}

impl Observer for Hold {
    fn see(&self, _health: &Health) {}
}

// The first caller begins a session, and is held.
fn ask_first<H: Handler, R: Wait + Sync>(rt: &R, alloc: Global, handler: &mut H) -> Told {
    told(&handler.handle(rt, alloc, &Request::Begin(70)))
}

// The second caller waits until the first is held. It begins a session, and lets the first go
// after its own reply.
fn ask_second<H: Handler, R: Wait + Sync>(
    rt: &R,
    alloc: Global,
    gate: &Hold,
    handler: &mut H,
) -> Told {
    gate.wait();
    let reply = told(&handler.handle(rt, alloc, &Request::Begin(71)));
    gate.let_go();
    reply
}

// Each caller asks in a thread of its own. Returns both replies.
fn ask_each<H: Handler + Send, R: Threads + Wait + Sync>(
    rt: &R,
    alloc: Global,
    gate: &Hold,
    first: &mut H,
    second: &mut H,
) -> (Told, Told) {
    thread::join(
        rt,
        || ask_first(rt, alloc, first),
        || ask_second(rt, alloc, gate, second),
    )
}

// The callers have passes 1 and 2.
fn ask_both<'a, R: Threads + Wait + Sync>(
    rt: &R,
    alloc: Global,
    hall: &Hall<'a, MemoryDisk>,
    gate: &Hold,
    pass: &mut Pass<Office<'a, MemoryDisk>>,
) -> (Told, Told)
    requires of { IsOf pass.old hall.now }
    requires new { (pass.old.number ≡ 0) × (pass.old.splits ≡ 0) }
    ensures { IsOf pass.new hall.now }
{
    let mut first = Caller::new(hall, gate, hall.split(pass));
    let mut second = Caller::new(hall, gate, hall.split(pass));
    ask_each(rt, alloc, gate, &mut first, &mut second)
}

fn replies_in<'a, R: Threads + Wait + Sync>(
    rt: &R,
    alloc: Global,
    hall: Hall<'a, MemoryDisk>,
    pass: Pass<Office<'a, MemoryDisk>>,
    gate: &Hold,
) -> (Told, Told)
    requires of { IsOf pass hall }
    requires new { (pass.number ≡ 0) × (pass.splits ≡ 0) }
{
    let mut pass = pass;
    let replies = ask_both(rt, alloc, &hall, gate, &mut pass);
    let _ = hall.close(rt, pass).into_disk();
    replies
}

fn replies_over<'a, R: Threads + Wait + Sync>(
    rt: &R,
    alloc: Global,
    bank: &'a Bank,
    spec: &'a Spec,
    gate: &Hold,
) -> Result<(Told, Told), Fail>
    requires { IsPlanFor bank.now spec.now }
{
    match hall_on(alloc, bank, spec) {
        Ok((hall, pass)) => Ok(replies_in(rt, alloc, hall, pass, gate)),
        Err(fail) => Err(fail),
    }
}

// What owns a bank is a function of its own, since a test that does and compares is dear to prove.
fn replies_on_a<R: Threads + Wait + Sync>(
    rt: &R,
    alloc: Global,
    gate: &Hold,
) -> Result<(Told, Told), Fail> {
    match planned(alloc, &EVEN) {
        Ok((bank, spec)) => replies_over(rt, alloc, &bank, &spec, gate),
        Err(fail) => Err(fail),
    }
}

// Session 0 is started first, and session 1 is served before it. No session has ended, so both have
// the same first item.
#[test]
fn one_is_held_while_the_other_is_answered(rt: HostRuntime) -> Result<(), Fail> {
    let gate = Hold::new();
    let (held, meanwhile) = replies_on_a(&rt, rt.alloc(), &gate)?;
    assert!(rt; !gate.given_up());
    expect_equal(&rt, &meanwhile, &Ok((1, FIRST, true)));
    expect_equal(&rt, &held, &Ok((0, FIRST, true)));
    Ok(())
}
