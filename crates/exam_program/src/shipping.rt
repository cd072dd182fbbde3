//! The command `ship`: the records of the journal over a link.

ghost use Rattle.std.specs.Prelude.{◌≡◌, ℕ, ◌≤◌, ◌⊎◌, List, All, Some, false, IsTrue};
ghost use Rattle.answer_journal.specs.Standing.{IsAsLeft};
ghost use Rattle.bank_tables.specs.Items.{has};
ghost use Rattle.command_line.specs.Commands.{Ship, command_of};
ghost use Rattle.exam_edge.specs.Allowing.{AllowsAll};
ghost use Rattle.exam_edge.specs.Faults.{Rose};
ghost use Rattle.exam_edge.specs.Lent.{IsLent};
ghost use Rattle.exam_program.specs.Ships.{AreShipped, ShipEnds, IsShipOf};
ghost use Rattle.exam_program.specs.Linked.{HasFailedFirst, IsStatusOfAny};
ghost use Rattle.exam_program.specs.Outcomes.{Ends, EndsAs, IsStatusBefore};
ghost use Rattle.exam_program.specs.Outside.{Outside, disk_seen, outside};
ghost use Rattle.exam_serve.specs.Doors.{AreLent, HasFailedDoor};
ghost use Rattle.form_model.specs.Forms.{Meets};
ghost use Rattle.form_model.specs.Validity.{IsPlanFor};
ghost use Rattle.exam_office.specs.Allowing.{AllowsHistories};
ghost use Rattle.exam_program.specs.AllowedFiles.{AllowsExams};

use crate::link_ends::end_shipping;
use crate::linking::ready_in;
use crate::replay::halt_of_opening;
use crate::report::report;
use crate::serving::Left;
use bank_tables::{Bank, ItemSet};
use constraint_model::Spec;
use exam_edge::{Disk, Door, Files, Sink};
use exam_follower::OfficeLog;
use exam_office::Office;
use record_doors::ship_first;
use std::alloc::Global;

/// Opens the journal on a disk, ships its records over one link of the first door, and prints how
/// that ended.
fn ship_over<'a, O: Sink, D: Disk, L: Door>(
    alloc: Global,
    bank: &'a Bank,
    spec: &'a Spec,
    base: &ItemSet,
    out: &mut O,
    disk: D,
    doors: Vec<L>,
) -> Left<D, L>
    requires plan { IsPlanFor bank.now spec.now }
    requires base { Meets bank.now spec.now (has base.now) }
    requires home { All (λ d. L.is_out d ≡ false) doors.items }
    requires left { IsTrue (D.tells disk) → IsAsLeft (D.accounts disk) }
    requires allows { AllowsHistories bank.now spec.now D.may_become }
    requires allowed { AllowsAll L.Link.tells L.Link.allows }
    ensures answers { (words : List (List ℕ)) (o : Outside)
        → IsShipOf words o bank.now spec.now base.now
        → o.disk ≡ disk_seen D.tells D.content D.accounts D.faults disk result.disk
        → ((result.doors ≡ doors)
        × Ends words o (O.tells out.old) (O.written out.old) (O.written out.new) result.status)
        ⊎ ShipEnds (AreShipped L.tells L.coming L.returned L.is_out L.faults L.identity
        L.Link.tells L.Link.left L.Link.written L.Link.faults L.Link.identity doors.items
        result.doors.items)
        words o (O.tells out.old) (O.written out.old) (O.written out.new) result.status }
    ensures cause { (words : List (List ℕ)) (o : Outside)
        → IsShipOf words o bank.now spec.now base.now
        → o.disk ≡ disk_seen D.tells D.content D.accounts D.faults disk result.disk
        → EndsAs words o result.halt result.status }
    ensures door { result.status ≡ 14 → HasFailedDoor L.faults doors.items result.doors.items }
    ensures link { result.status ≡ 19 → HasFailedFirst L.tells L.coming L.returned L.is_out
        L.faults L.identity L.Link.faults doors.items result.doors.items }
    ensures sink { result.status ≡ 8 → Rose (O.faults out.old) (O.faults out.new) }
    ensures failed { result.status ≡ 9 → Rose (D.faults disk) (D.faults result.disk) }
    ensures opened { IsStatusBefore result.status → ⊥ }
    ensures status { IsStatusOfAny result.status }
    ensures grows { O.faults out.old ≤ O.faults out.new }
    ensures tells { O.tells out.new ≡ O.tells out.old }
    ensures disk { IsLent D.tells D.identity D.faults disk result.disk }
    ensures doors { AreLent L.tells L.identity L.faults L.is_out doors.items result.doors.items }
{
    let office = match Office::open(alloc, bank, spec, *base, disk) {
        Ok(office) => office,
        Err((disk, fault)) => {
            let halt = halt_of_opening(fault);
            let status = report(alloc, out, &halt);
            return Left {
                disk,
                doors,
                status,
                halt: Some(halt),
            };
        }
    };
    // What the type of an office keeps of its records.
    office.holds();
    let mut log = OfficeLog::new(office);
    let mut doors = doors;
    let end = ship_first(alloc, &mut log, &mut doors);
    let office = log.into_office();
    office.keeps();
    let disk = office.into_disk();
    let status = end_shipping(alloc, out, spec.journal(), end);
    Left {
        disk,
        doors,
        status,
        halt: None,
    }
}

/// Ships the records of the journal on a disk over one link of the first door, and prints how that
/// ended. It gives the disk and the doors back.
pub(crate) fn ship<F: Files, O: Sink, D: Disk, L: Door>(
    alloc: Global,
    files: &mut F,
    out: &mut O,
    disk: D,
    doors: Vec<L>,
    bank: &str,
    plan: &str,
) -> Left<D, L>
    requires home { All (λ d. L.is_out d ≡ false) doors.items }
    requires left { IsTrue (D.tells disk) → IsAsLeft (D.accounts disk) }
    requires allows { AllowsExams (F.tells files.old) (F.has files.old) (F.content files.old)
        D.may_become }
    requires allowed { AllowsAll L.Link.tells L.Link.allows }
    ensures answers { IsTrue (F.tells files.old) → (words : List (List ℕ))
        → command_of words ≡ Some (Ship bank.now plan.now)
        → ((result.doors ≡ doors)
        × Ends words (outside (F.has files.old) (F.content files.old) (F.faults files.old)
        (F.faults files.new)
        (disk_seen D.tells D.content D.accounts D.faults disk result.disk))
        (O.tells out.old) (O.written out.old) (O.written out.new) result.status)
        ⊎ ShipEnds (AreShipped L.tells L.coming L.returned L.is_out L.faults L.identity
        L.Link.tells L.Link.left L.Link.written L.Link.faults L.Link.identity doors.items
        result.doors.items)
        words (outside (F.has files.old) (F.content files.old) (F.faults files.old)
        (F.faults files.new)
        (disk_seen D.tells D.content D.accounts D.faults disk result.disk))
        (O.tells out.old) (O.written out.old) (O.written out.new) result.status }
    ensures cause { IsTrue (F.tells files.old) → (words : List (List ℕ))
        → command_of words ≡ Some (Ship bank.now plan.now)
        → EndsAs words (outside (F.has files.old) (F.content files.old) (F.faults files.old)
        (F.faults files.new)
        (disk_seen D.tells D.content D.accounts D.faults disk result.disk))
        result.halt result.status }
    ensures door { result.status ≡ 14 → HasFailedDoor L.faults doors.items result.doors.items }
    ensures link { result.status ≡ 19 → HasFailedFirst L.tells L.coming L.returned L.is_out
        L.faults L.identity L.Link.faults doors.items result.doors.items }
    ensures files { result.status ≡ 7 → Rose (F.faults files.old) (F.faults files.new) }
    ensures sink { result.status ≡ 8 → Rose (O.faults out.old) (O.faults out.new) }
    ensures failed { result.status ≡ 9 → Rose (D.faults disk) (D.faults result.disk) }
    ensures kept { IsStatusBefore result.status → result.disk ≡ disk }
    ensures usage { result.status ≡ 2 → ⊥ }
    ensures status { IsStatusOfAny result.status }
    ensures files_grow { F.faults files.old ≤ F.faults files.new }
    ensures sink_grows { O.faults out.old ≤ O.faults out.new }
    ensures files_tell { F.tells files.new ≡ F.tells files.old }
    ensures sink_tells { O.tells out.new ≡ O.tells out.old }
    ensures disk { IsLent D.tells D.identity D.faults disk result.disk }
    ensures doors { AreLent L.tells L.identity L.faults L.is_out doors.items result.doors.items }
{
    let ready = match ready_in(alloc, files, bank, plan) {
        Ok(ready) => ready,
        Err(halt) => {
            let status = report(alloc, out, &halt);
            return Left {
                disk,
                doors,
                status,
                halt: Some(halt),
            };
        }
    };
    let exam = &ready.exam;
    ship_over(alloc, &exam.bank, &exam.spec, &ready.base, out, disk, doors)
}
