//! The requests of a script, over an office with a disk in memory.

ghost use Rattle.std.specs.Prelude.{◌≡◌, [], IsTrue, IfErr, OnOk};
ghost use Rattle.answer_journal.specs.Journal.{tells_of};
ghost use Rattle.exam_office.specs.Asking.{IsDurable};
ghost use Rattle.exam_office.specs.Marks.{history};
ghost use Rattle.exam_office.specs.Writing.{IsSameOffice};
ghost use Rattle.exam_drill.specs.Leading.{fault_of, LeadsTo, IsDoneBy, IsCutShort, IsStopped};

use crate::fault::DrillFault;
use constraint_model::Spec;
use exam_edge::MemoryDisk;
use exam_office::{Alone, Refusal, Reply, Request};
use std::alloc::Global;

/// The fault that a reply ends a drill with, if it does. A disk in memory whose calls aren't told
/// to fail fails for lack of memory alone.
fn fault_of(spec: &Spec, reply: &Reply) -> Option<DrillFault>
    ensures { result ≡ fault_of spec.now reply.now }
{
    match reply {
        Reply::Refused(Refusal::JournalFull(size)) => Some(DrillFault::JournalFull {
            size: *size,
            most: spec.journal(),
        }),
        Reply::Refused(Refusal::Disk) | Reply::Refused(Refusal::Memory) => Some(DrillFault::Memory),
        _ => None,
    }
}

/// Does a request. The journal was begun over an empty file.
fn ask<'a>(
    alloc: Global,
    alone: &mut Alone<'a, MemoryDisk>,
    request: &Request,
) -> Result<(), DrillFault>
    requires durable { IsDurable alone.old.office.bank alone.old.office.plan alone.old.office }
    requires told { IsTrue (tells_of alone.old.office.journal) }
    requires empty { alone.old.office.opened.content ≡ [] }
    ensures ok { OnOk result
        (IsDoneBy alone.old.office.bank alone.old.office.plan (history alone.old.office.marks)
        request.now (history alone.new.office.marks)) }
    ensures durable { OnOk result
        (IsDurable alone.old.office.bank alone.old.office.plan alone.new.office) }
    ensures err { IfErr result
        (IsCutShort alone.old.office.bank alone.old.office.plan (history alone.old.office.marks)
        request.now) }
    ensures same { IsSameOffice alone.old.office alone.new.office }
    ensures tells { tells_of alone.new.office.journal ≡ tells_of alone.old.office.journal }
{
    let reply = alone.ask(alloc, request);
    match fault_of(alone.office.spec(), &reply) {
        Some(fault) => {
            // How long the journal is now.
            alone.office.keeps();
            alone.office.holds();
            Err(fault)
        }
        None => Ok(()),
    }
}

/// Does requests one after another, on a journal that was begun over an empty file.
pub fn ask_all<'a>(
    alloc: Global,
    alone: &mut Alone<'a, MemoryDisk>,
    requests: &[Request],
) -> Result<(), DrillFault>
    requires durable { IsDurable alone.old.office.bank alone.old.office.plan alone.old.office }
    requires told { IsTrue (tells_of alone.old.office.journal) }
    requires empty { alone.old.office.opened.content ≡ [] }
    ensures ok { OnOk result
        (LeadsTo alone.old.office.bank alone.old.office.plan (history alone.old.office.marks)
        requests.now (history alone.new.office.marks)) }
    ensures err { IfErr result
        (IsStopped alone.old.office.bank alone.old.office.plan (history alone.old.office.marks)
        requests.now) }
    ensures same { IsSameOffice alone.old.office alone.new.office }
{
    for request in requests {
        match ask(alloc, alone, request) {
            Ok(()) => {}
            Err(fault) => return Err(fault),
        }
    }
    Ok(())
}
