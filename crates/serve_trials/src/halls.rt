//! A hall on bank A, and what its callers are answered.

ghost use Rattle.std.specs.Prelude.{◌≡◌, IfOk};
ghost use Rattle.answer_journal.specs.Standing.{IsAsLeft};
ghost use Rattle.exam_edge.specs.MemoryDisk.{accounts_of};
ghost use Rattle.form_model.specs.Validity.{IsPlanFor};
ghost use Rattle.exam_hall.specs.Known.{IsOf};

use crate::office::{empty_disk, opened};
use crate::requests::{Ask, Told, request_of, told};
use bank_tables::Bank;
use constraint_model::Spec;
use exam_edge::{Gate, MemoryDisk};
use exam_hall::{Caller, Hall};
use exam_handler::{Handler, Observer};
use exam_office::Office;
use std::alloc::Global;
use std::sync::Wait;
use std::test::Fail;
use turn_lock::Pass;

type Opened<'a> = (Hall<'a, MemoryDisk>, Pass<Office<'a, MemoryDisk>>);

// A hall over an office, and its first pass.
fn hall_over<'a>(alloc: Global, office: Office<'a, MemoryDisk>) -> Result<Opened<'a>, Fail>
    ensures { IfOk result (λ r. IsOf r.1 r.0 × (r.1.number ≡ 0) × (r.1.splits ≡ 0)) }
{
    match Hall::new(alloc, office) {
        Ok(opened) => Ok(opened),
        Err(office) => {
            let _ = office.into_disk();
            Err(Fail::from("no memory for the hall"))
        }
    }
}

/// A hall over an office with an empty journal, and its first pass.
pub(crate) fn hall_on<'a>(alloc: Global, bank: &'a Bank, spec: &'a Spec) -> Result<Opened<'a>, Fail>
    requires { IsPlanFor bank.now spec.now }
    ensures { IfOk result (λ r. IsOf r.1 r.0 × (r.1.number ≡ 0) × (r.1.splits ≡ 0)) }
{
    hall_on_disk(alloc, bank, spec, empty_disk(alloc))
}

/// The same over this disk.
pub(crate) fn hall_on_disk<'a>(
    alloc: Global,
    bank: &'a Bank,
    spec: &'a Spec,
    disk: MemoryDisk,
) -> Result<Opened<'a>, Fail>
    requires plan { IsPlanFor bank.now spec.now }
    requires left { IsAsLeft (accounts_of disk) }
    ensures { IfOk result (λ r. IsOf r.1 r.0 × (r.1.number ≡ 0) × (r.1.splits ≡ 0)) }
{
    match opened(alloc, bank, spec, disk) {
        Ok(office) => hall_over(alloc, office),
        Err(fail) => Err(fail),
    }
}

/// The replies to requests, one after another, and the pass that they were asked with.
pub(crate) fn ask_all<'a, G: Gate + Observer, R: Wait + Sync>(
    rt: &R,
    alloc: Global,
    hall: &Hall<'a, MemoryDisk>,
    gate: &G,
    pass: Pass<Office<'a, MemoryDisk>>,
    requests: &[Ask],
) -> (Pass<Office<'a, MemoryDisk>>, Vec<Told>)
    requires { IsOf pass hall.now }
    ensures { IsOf result.0 hall.now }
{
    let mut caller = Caller::new(hall, gate, pass);
    let mut replies = Vec::new(alloc);
    for request in requests {
        let reply = caller.handle(rt, alloc, &request_of(request));
        let _ = replies.push(told(&reply));
    }
    (caller.into_pass(), replies)
}
