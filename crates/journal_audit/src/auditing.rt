//! The audit of a journal.

ghost use Rattle.std.specs.Prelude.{◌≡◌, ◌≤◌, ◌++◌, Some, IsTrue, IfOk, IfErr, OnOk, OnErr};
ghost use Rattle.form_model.specs.Validity.{IsPlanFor};
ghost use Rattle.exam_edge.specs.Faults.{Rose};
ghost use Rattle.exam_edge.specs.Lent.{IsLent};
ghost use Rattle.exam_edge.specs.Images.{AtEachMoment, IsImage, IsSettled, latest};
ghost use Rattle.answer_journal.specs.Opening.{tail_gates};
ghost use Rattle.answer_journal.specs.Standing.{IsAsLeft};
ghost use Rattle.answer_journal.specs.Versions.{contents, counted_in};
ghost use Rattle.answer_journal.specs.Walk.{first_gate};
ghost use Rattle.exam_office.specs.Opening.{IsReadAnswer};
ghost use Rattle.exam_office.specs.declared.fault.OpenFault.TheVariants.{Disk as OfDisk};
ghost use Rattle.journal_audit.specs.Audit.{IsAudit, PutsAsideOrNot};

use crate::report::report_of;
use answer_journal::{Journal, Walk};
use bank_tables::Bank;
use constraint_model::Spec;
use exam_edge::Disk;
use exam_office::{OpenFault, journal_fault, take_history};
use history_model::{Exposure, Summary};
use std::alloc::Global;

// Judges every record of a file that is walked over.
fn audit_walk<D: Disk>(
    alloc: Global,
    bank: &Bank,
    spec: &Spec,
    walk: &mut Walk<D>,
) -> Result<(Summary, Exposure, Vec<Exposure>), OpenFault>
    requires plan { IsPlanFor bank.now spec.now }
    requires start { walk.old.given ≡ 0 }
    requires place { IsTrue (D.tells walk.old.disk)
        → walk.old.at ≡ first_gate (D.content walk.old.disk) }
    requires version { IsTrue (D.tells walk.old.disk)
        → walk.old.record_version ≡ (counted_in (D.content walk.old.disk)).version }
    requires gives { IsTrue (D.tells walk.old.disk) → contents (D.content walk.old.disk)
        ≡ Some (counted_in (D.content walk.old.disk)) }
    ensures found { IfOk result (λ found. IsTrue (D.tells walk.old.disk)
        → IsAudit bank.now spec.now (D.content walk.old.disk) found.0 found.1
        found.2.items) }
    ensures why { IfErr result (λ e. IsTrue (D.tells walk.old.disk)
        → IsReadAnswer bank.now spec.now (D.content walk.old.disk) e) }
    ensures cause { IfErr result (λ e. e ≡ OfDisk
        → Rose (D.faults walk.old.disk) (D.faults walk.new.disk)) }
    ensures content { IsTrue (D.tells walk.old.disk)
        → D.content walk.new.disk ≡ D.content walk.old.disk }
    ensures accounts { IsTrue (D.tells walk.old.disk)
        → D.accounts walk.new.disk ≡ D.accounts walk.old.disk }
    ensures aside { OnOk result (IsTrue (D.tells walk.old.disk) → D.aside walk.new.disk
        ≡ D.aside walk.old.disk ++ tail_gates (D.content walk.old.disk)) }
    ensures aside_err { OnErr result (IsTrue (D.tells walk.old.disk)
        → PutsAsideOrNot (D.content walk.old.disk) (D.aside walk.old.disk)
        (D.aside walk.new.disk)) }
    ensures frame { IsLent D.tells D.identity D.faults walk.old.disk walk.new.disk }
{
    if walk.put_tail_aside().is_err() {
        return Err(OpenFault::Disk);
    }
    let (book, _) = match take_history(alloc, bank, spec, walk) {
        Ok(found) => found,
        Err(fault) => return Err(fault),
    };
    match report_of(alloc, &book) {
        Ok(found) => Ok(found),
        Err(_) => Err(OpenFault::Memory),
    }
}

// Audits the journal of a disk, which comes back.
fn audit_into<D: Disk>(
    alloc: Global,
    bank: &Bank,
    spec: &Spec,
    disk: D,
    answer: &mut Result<(Summary, Exposure, Vec<Exposure>), OpenFault>,
) -> D
    requires plan { IsPlanFor bank.now spec.now }
    requires left { IsTrue (D.tells disk) → IsAsLeft (D.accounts disk) }
    ensures found { IfOk answer.new (λ found. IsTrue (D.tells disk)
        → IsAudit bank.now spec.now (D.content disk) found.0 found.1
        found.2.items) }
    ensures why { IfErr answer.new (λ e. IsTrue (D.tells disk)
        → IsReadAnswer bank.now spec.now (D.content disk) e) }
    ensures cause { IfErr answer.new (λ e. e ≡ OfDisk
        → Rose (D.faults disk) (D.faults result)) }
    ensures untouched { IsTrue (D.tells disk) → D.content result ≡ D.content disk }
    ensures moments { IsTrue (D.tells disk)
        → AtEachMoment (D.accounts disk) (D.accounts result)
        (IsImage (latest (D.accounts disk))) }
    ensures settled { IsTrue (D.tells disk) → IsSettled (D.content disk) (D.accounts disk)
        → AtEachMoment (D.accounts disk) (D.accounts result) (λ file. file ≡ D.content disk) }
    ensures aside { OnOk answer.new (IsTrue (D.tells disk)
        → D.aside result ≡ D.aside disk ++ tail_gates (D.content disk)) }
    ensures aside_err { OnErr answer.new (IsTrue (D.tells disk)
        → PutsAsideOrNot (D.content disk) (D.aside disk) (D.aside result)) }
    ensures frame { IsLent D.tells D.identity D.faults disk result }
{
    let mut walk = match Journal::walk(disk, spec.journal()) {
        Ok(walk) => walk,
        Err((disk, fault)) => {
            *answer = Err(journal_fault(fault));
            return disk;
        }
    };
    *answer = audit_walk(alloc, bank, spec, &mut walk);
    walk.stop()
}

/// Judges every record of a journal of either version, its proof tree included, and gives the
/// summary and the exposure of the history that the file represents, in all and in each band of the
/// plan, or what is wrong with the file; never that it is of the first version. It takes the memory
/// of a book, one record and the counts. It syncs, writes nothing, and leaves the file as it was.
/// What opening would cut is put aside, as opening does. The disk is as a reboot or a journal left
/// it.
pub fn audit<D: Disk>(
    alloc: Global,
    bank: &Bank,
    spec: &Spec,
    disk: &mut D,
) -> Result<(Summary, Exposure, Vec<Exposure>), OpenFault>
    requires plan { IsPlanFor bank.now spec.now }
    requires left { IsTrue (D.tells disk.old) → IsAsLeft (D.accounts disk.old) }
    // The file represents a history, and the numbers are those of that history.
    // Promise: The summary and the exposure are those of the history that the file represents: each
    // record was judged, its proof tree included
    // - by `found` (`IsAudit`)
    // Promise: With them is the exposure of each band of the plan, in order: how many finished
    // sessions visited it, and in how many of those each item was shown there and was eligible
    // there
    // - by `found` (`IsAudit`, `AreBandExposuresOf`)
    ensures found { IfOk result (λ found. IsTrue (D.tells disk.old)
        → IsAudit bank.now spec.now (D.content disk.old) found.0 found.1
        found.2.items) }
    // What is wrong with the file, if anything is. Nothing is wrong with a file of either version
    // within the limit that represents a history.
    // Promise: A file of either version that represents no history is refused with the first thing
    // that is wrong with it, never for its version. A mark of proof without its tree is such a
    // fault. `Disk` comes only where the disk's count of faults rose
    // - by `why` (`IsReadAnswer`), `cause`
    ensures why { IfErr result (λ e. IsTrue (D.tells disk.old)
        → IsReadAnswer bank.now spec.now (D.content disk.old) e) }
    ensures cause { IfErr result (λ e. e ≡ OfDisk
        → Rose (D.faults disk.old) (D.faults disk.new)) }
    // Promise: The file is not changed. At each moment a crash leaves what it might have left
    // before; of a settled disk that is its content
    // - by `untouched`, `moments`, `settled`, `grows`, `tells`
    ensures untouched { IsTrue (D.tells disk.old) → D.content disk.new ≡ D.content disk.old }
    // At each moment of the call a crash leaves what it might have left before.
    ensures moments { IsTrue (D.tells disk.old)
        → AtEachMoment (D.accounts disk.old) (D.accounts disk.new)
        (IsImage (latest (D.accounts disk.old))) }
    ensures settled { IsTrue (D.tells disk.old)
        → IsSettled (D.content disk.old) (D.accounts disk.old)
        → AtEachMoment (D.accounts disk.old) (D.accounts disk.new)
        (λ file. file ≡ D.content disk.old) }
    // What opening would cut was put aside once. If there is no answer it may not have been;
    // nothing else ever is.
    // Promise: What opening would cut was put aside once where an audit answers. Else it was, or
    // nothing was put aside
    // - by `aside`, `aside_err` (`PutsAsideOrNot`)
    ensures aside { OnOk result (IsTrue (D.tells disk.old)
        → D.aside disk.new ≡ D.aside disk.old ++ tail_gates (D.content disk.old)) }
    ensures aside_err { OnErr result (IsTrue (D.tells disk.old)
        → PutsAsideOrNot (D.content disk.old) (D.aside disk.old) (D.aside disk.new)) }
    ensures grows { D.faults disk.old ≤ D.faults disk.new }
    ensures tells { D.tells disk.new ≡ D.tells disk.old }
{
    let mut answer = Err(OpenFault::Memory);
    let _ = audit_into(alloc, bank, spec, &mut *disk, &mut answer);
    answer
}

/// The same of a disk that is handed over, and comes back.
pub fn audit_disk<D: Disk>(
    alloc: Global,
    bank: &Bank,
    spec: &Spec,
    disk: D,
) -> (D, Result<(Summary, Exposure, Vec<Exposure>), OpenFault>)
    requires plan { IsPlanFor bank.now spec.now }
    requires left { IsTrue (D.tells disk) → IsAsLeft (D.accounts disk) }
    // Promise: The same of a disk that is handed over and handed back
    // - by `found`, `why`, `cause`, `untouched`, `moments`, `aside`, `aside_err`, `frame`
    ensures found { IfOk result.1 (λ found. IsTrue (D.tells disk)
        → IsAudit bank.now spec.now (D.content disk) found.0 found.1
        found.2.items) }
    ensures why { IfErr result.1 (λ e. IsTrue (D.tells disk)
        → IsReadAnswer bank.now spec.now (D.content disk) e) }
    ensures cause { IfErr result.1 (λ e. e ≡ OfDisk
        → Rose (D.faults disk) (D.faults result.0)) }
    ensures untouched { IsTrue (D.tells disk) → D.content result.0 ≡ D.content disk }
    ensures moments { IsTrue (D.tells disk)
        → AtEachMoment (D.accounts disk) (D.accounts result.0)
        (IsImage (latest (D.accounts disk))) }
    ensures aside { OnOk result.1 (IsTrue (D.tells disk)
        → D.aside result.0 ≡ D.aside disk ++ tail_gates (D.content disk)) }
    ensures aside_err { OnErr result.1 (IsTrue (D.tells disk)
        → PutsAsideOrNot (D.content disk) (D.aside disk) (D.aside result.0)) }
    ensures frame { IsLent D.tells D.identity D.faults disk result.0 }
{
    let mut answer = Err(OpenFault::Memory);
    let disk = audit_into(alloc, bank, spec, disk, &mut answer);
    (disk, answer)
}
