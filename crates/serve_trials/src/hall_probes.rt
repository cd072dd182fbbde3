//! Looks at the health of a hall, whose disk fails in the start of a session.

ghost use Rattle.form_model.specs.Validity.{IsPlanFor};
ghost use Rattle.exam_hall.specs.Known.{IsOf};

use crate::answers::disk_of;
use crate::equal::expect_equal;
use crate::halls::hall_on_disk;
use crate::office::{EVEN, planned};
use crate::requests::told;
use bank_tables::Bank;
use constraint_model::Spec;
use exam_edge::{MemoryDisk, OpenGate};
use exam_hall::{Caller, Hall};
use exam_handler::{Handler, Health};
use exam_office::{Office, Refusal, Request};
use std::alloc::Global;
use std::process::Abort;
use std::sync::Wait;
use std::test::Fail;
use turn_lock::Pass;

// The entries, the sessions and the open ones; or why they were not found.
type Found = Result<(u64, u32, u32), Refusal>;

// Calls of the disk that fail in the start of a session, and what one look after another finds.
struct Case {
    fails: &'static [u64],
    found: &'static [Found],
}

// Opening an empty journal is calls 0 to 5, and the two entries of the start are calls 6 to 9 and
// 10 to 13: write, sync, open the gate, sync. Where the second sync fails, the entry is on the
// disk, and is kept; where the first fails, it is dropped.
const CASES: [Case; 5] = [
    Case {
        fails: &[],
        found: &[Ok((2, 1, 1))],
    },
    Case {
        fails: &[13],
        found: &[Ok((2, 1, 1)), Ok((2, 1, 1))],
    },
    Case {
        fails: &[11],
        found: &[Ok((1, 1, 1)), Ok((1, 1, 1))],
    },
    // The fault stays for two looks, and nothing is lost.
    Case {
        fails: &[9, 10, 11],
        found: &[
            Err(Refusal::Disk),
            Err(Refusal::Disk),
            Ok((1, 1, 1)),
            Ok((1, 1, 1)),
        ],
    },
    Case {
        fails: &[7, 8],
        found: &[Err(Refusal::Disk), Ok((0, 0, 0))],
    },
];

fn in_numbers(found: Result<Health, Refusal>) -> Found {
    match found {
        Ok(health) => Ok((health.entries, health.sessions, health.open)),
        Err(refusal) => Err(refusal),
    }
}

// Looks so often, after a session was to start, and gives the pass that it looked with.
fn look_all<'a, R: Wait + Sync>(
    rt: &R,
    alloc: Global,
    hall: &Hall<'a, MemoryDisk>,
    pass: Pass<Office<'a, MemoryDisk>>,
    looks: usize,
) -> (Pass<Office<'a, MemoryDisk>>, Vec<Found>)
    requires { IsOf pass hall.now }
    ensures { IsOf result.0 hall.now }
{
    let mut caller = Caller::new(hall, &OpenGate, pass);
    let _ = told(&caller.handle(rt, alloc, &Request::Begin(70)));
    let mut found = Vec::new(alloc);
    for look in 0..looks {
        let _ = look;
        let _ = found.push(in_numbers(caller.probe(rt)));
    }
    (caller.into_pass(), found)
}

fn found_in<'a, R: Wait + Sync>(
    rt: &R,
    alloc: Global,
    hall: Hall<'a, MemoryDisk>,
    pass: Pass<Office<'a, MemoryDisk>>,
    looks: usize,
) -> Vec<Found>
    requires { IsOf pass hall }
{
    let (pass, found) = look_all(rt, alloc, &hall, pass, looks);
    let _ = hall.close(rt, pass).into_disk();
    found
}

fn found_over<'a, R: Wait + Sync>(
    rt: &R,
    alloc: Global,
    bank: &'a Bank,
    spec: &'a Spec,
    case: &Case,
) -> Result<Vec<Found>, Fail>
    requires { IsPlanFor bank.now spec.now }
{
    let disk = match disk_of(alloc, case.fails) {
        Ok(disk) => disk,
        Err(fail) => return Err(fail),
    };
    match hall_on_disk(alloc, bank, spec, disk) {
        Ok((hall, pass)) => Ok(found_in(rt, alloc, hall, pass, case.found.len())),
        Err(fail) => Err(fail),
    }
}

// What owns a bank is a function of its own, since a test that does and compares is dear to prove.
fn found_on_a<R: Wait + Sync>(rt: &R, alloc: Global, case: &Case) -> Result<Vec<Found>, Fail> {
    match planned(alloc, &EVEN) {
        Ok((bank, spec)) => found_over(rt, alloc, &bank, &spec, case),
        Err(fail) => Err(fail),
    }
}

fn expect_found<R: Abort + Wait + Sync>(rt: &R, alloc: Global, case: &Case) -> Result<(), Fail> {
    let found = found_on_a(rt, alloc, case)?;
    expect_equal(rt, &found.as_slice(), &case.found);
    Ok(())
}

#[test]
fn looks_at_the_health(rt: HostRuntime) -> Result<(), Fail> {
    for case in &CASES {
        expect_found(&rt, rt.alloc(), case)?;
    }
    Ok(())
}
