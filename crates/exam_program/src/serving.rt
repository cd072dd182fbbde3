//! The command `serve`: connections over the journal.

ghost use Rattle.std.specs.Prelude.{◌≡◌, ℕ, ◌≤◌, ◌⊎◌, List, All, Some, None, false, IsTrue, OnErr, vec_len};
ghost use Rattle.std.specs.Option.{option_copied};
ghost use Rattle.bank_tables.specs.Items.{has};
ghost use Rattle.exam_edge.specs.Faults.{Rose};
ghost use Rattle.exam_edge.specs.Lent.{FailsOnly, IsLent};
ghost use Rattle.answer_journal.specs.Standing.{IsAsLeft};
ghost use Rattle.form_model.specs.Forms.{Meets};
ghost use Rattle.form_model.specs.Validity.{IsPlanFor};
ghost use Rattle.exam_office.specs.declared.mark.Mark.{Mark};
ghost use Rattle.exam_office.specs.Noting.{OpenedWith};
ghost use Rattle.exam_serve.specs.Allowing.{AreFairDoors, IsCallerOf};
ghost use Rattle.exam_serve.specs.Doors.{AreLent, AreServed, HasFailedDoor};
ghost use Rattle.command_line.specs.Commands.{Serve, command_of};
ghost use Rattle.exam_program.specs.Allowing.{AreFirstMarks};
ghost use Rattle.exam_program.specs.Bases.{IsBaseForm};
ghost use Rattle.exam_program.specs.Halts.{Reads};
ghost use Rattle.exam_program.specs.Outcomes.{EndsAs, IsStatusBefore, IsStatusOfRun};
ghost use Rattle.exam_program.specs.Outside.{Outside, outside, disk_seen};
ghost use Rattle.exam_program.specs.Runs.{RunEnds, EndsWith, IsEnding, IsLastOf, IsLastWritten, IsOver, IsStatusOfEnding, IsStatusOfServing};
ghost use Rattle.exam_program.specs.Texts.{disk_failed};
ghost use Rattle.exam_program.specs.Serves.{IsServeOf};
ghost use Rattle.exam_office.specs.Allowing.{AllowsHistories};
ghost use Rattle.exam_program.specs.AllowedFiles.{AllowsExams};

use crate::base::base_form;
use crate::halt::Halt;
use crate::reading::exam_in;
use crate::replay::halt_of_opening;
use crate::report::{print, print_text, report};
use bank_tables::{Bank, ItemSet};
use constraint_model::Spec;
use exam_edge::{Disk, Door, Failed, Files, Gate, Sink};
use exam_handler::Observer;
use exam_lines::summary_line;
use exam_office::Office;
use exam_serve::{End, Served, serve_doors};
use history_model::Summary;
use std::alloc::Global;
use std::sync::Wait;
use std::thread::Threads;

/// What a command with doors leaves: the disk, the doors in their order, the status to end with,
/// and the halt if it ended by one.
pub(crate) struct Left<D, L> {
    pub disk: D,
    pub doors: Vec<L>,
    pub status: u8,
    pub halt: Option<Halt>,
}

/// Prints how the work at the doors ended, and gives the status to end with: the numbers of the
/// history, or that a door failed, or that memory ran out before any link was accepted. The status
/// is not 0 if a connection ended for lack of memory.
#[tactic(auto, unfolding(crate::specs::Texts::door_failed, exam_text::specs::Texts::no_memory))]
fn end_with<O: Sink>(alloc: Global, out: &mut O, end: End, summary: &Summary) -> u8
    ensures printed { EndsWith (IsLastOf end summary.now) (O.tells out.old) (O.written out.old)
        (O.written out.new) result }
    ensures status { IsStatusOfServing end result
        ⊎ ((result ≡ 8) × Rose (O.faults out.old) (O.faults out.new)) }
    ensures grows { O.faults out.old ≤ O.faults out.new }
    ensures tells { O.tells out.new ≡ O.tells out.old }
{
    match end {
        End::Done => print_text(out, summary_line(alloc, summary), 0),
        End::Starved => print_text(out, summary_line(alloc, summary), 10),
        End::DoorFailed => print(out, b"door failed\n", 14),
        End::Memory => print(out, b"no memory\n", 10),
    }
}

/// Prints that the disk failed, and gives the status to end with.
#[tactic(auto, unfolding(crate::specs::Texts::disk_failed))]
fn print_disk_failed<O: Sink>(out: &mut O) -> u8
    ensures printed { IsLastWritten (O.tells out.old) (O.written out.old) (O.written out.new)
        9 disk_failed result }
    ensures status { (result ≡ 9)
        ⊎ ((result ≡ 8) × Rose (O.faults out.old) (O.faults out.new)) }
    ensures grows { O.faults out.old ≤ O.faults out.new }
    ensures tells { O.tells out.new ≡ O.tells out.old }
{
    print(out, b"disk failed\n", 9)
}

/// Asks the disk for its length once the work at the doors is done: a journal that was lost gives
/// none.
fn ask_disk<D: Disk>(disk: &mut D, end: End) -> Result<(), Failed>
    ensures done { OnErr result (IsOver end) }
    ensures failed { FailsOnly D.faults disk.old disk.new result }
    ensures content { IsTrue (D.tells disk.old) → D.content disk.new ≡ D.content disk.old }
    ensures accounts { IsTrue (D.tells disk.old) → D.accounts disk.new ≡ D.accounts disk.old }
    ensures frame { IsLent D.tells D.identity D.faults disk.old disk.new }
{
    match end {
        End::Done | End::Starved => match disk.len() {
            Ok(_) => Ok(()),
            Err(failed) => Err(failed),
        },
        End::DoorFailed => Ok(()),
        End::Memory => Ok(()),
    }
}

/// Prints how the work at the doors ended, and gives the status to end with. The numbers of the
/// history are printed only over a disk that works.
fn end_over<O: Sink, D: Disk>(
    alloc: Global,
    out: &mut O,
    disk: &mut D,
    end: End,
    summary: &Summary,
) -> u8
    ensures printed { EndsWith (IsEnding end summary.now) (O.tells out.old) (O.written out.old)
        (O.written out.new) result }
    ensures status { IsStatusOfEnding end result
        ⊎ ((result ≡ 8) × Rose (O.faults out.old) (O.faults out.new)) }
    ensures failed { result ≡ 9 → Rose (D.faults disk.old) (D.faults disk.new) }
    ensures grows { O.faults out.old ≤ O.faults out.new }
    ensures tells { O.tells out.new ≡ O.tells out.old }
    ensures content { IsTrue (D.tells disk.old) → D.content disk.new ≡ D.content disk.old }
    ensures accounts { IsTrue (D.tells disk.old) → D.accounts disk.new ≡ D.accounts disk.old }
    ensures frame { IsLent D.tells D.identity D.faults disk.old disk.new }
{
    match ask_disk(disk, end) {
        Ok(()) => end_with(alloc, out, end, summary),
        Err(_) => print_disk_failed(out),
    }
}

/// Opens the journal on a disk, serves the connections of the doors over it, for messages that bear
/// the token if there is one, and prints how that ended. The observer is told how the examination
/// is before and after that. The base form, which meets the plan, is the hint of each assembly.
fn serve_over<'a, R, O, D, L, G>(
    rt: &R,
    alloc: Global,
    bank: &'a Bank,
    spec: &'a Spec,
    base: &ItemSet,
    out: &mut O,
    disk: D,
    doors: Vec<L>,
    gate: &G,
    token: Option<&[u8]>,
    ahead: Option<u32>,
) -> Left<D, L>
where
    R: Threads + Wait + Sync,
    O: Sink,
    D: Disk + Send,
    L: Door + Send,
    G: Gate + Observer + Sync,
    requires plan { IsPlanFor bank.now spec.now }
    requires base { Meets bank.now spec.now (has base.now) }
    requires few { vec_len doors ≤ 65535 }
    requires home { All (λ d. L.is_out d ≡ false) doors.items }
    requires left { IsTrue (D.tells disk) → IsAsLeft (D.accounts disk) }
    requires allows { AllowsHistories bank.now spec.now D.may_become }
    requires fair { (office : OpenedWith) (opened : List Mark)
        → office.bank ≡ bank.now → office.plan ≡ spec.now → office.base ≡ base.now
        → AreFirstMarks (D.tells disk) (D.identity disk) (D.content disk) office opened
        → AreFairDoors (option_copied token)
        L.Link.tells L.Link.left L.Link.written L.Link.allows L.tells L.coming
        (IsCallerOf office opened) doors.items }
    ensures answers { (words : List (List ℕ)) (o : Outside)
        → IsServeOf words o bank.now spec.now base.now
        → o.disk ≡ disk_seen D.tells D.content D.accounts D.faults disk result.disk
        → RunEnds (λ opened closed end. AreServed (option_copied token.entry)
        L.tells L.coming L.returned L.is_out L.faults L.identity L.Link.tells L.Link.left L.Link.written L.Link.faults L.Link.identity
        opened closed doors.items result.doors.items end) (result.doors ≡ doors)
        words o (O.tells out.old) (O.written out.old) (O.written out.new) result.status }
    ensures cause { (words : List (List ℕ)) (o : Outside)
        → IsServeOf words o bank.now spec.now base.now
        → o.disk ≡ disk_seen D.tells D.content D.accounts D.faults disk result.disk
        → EndsAs words o result.halt result.status }
    ensures door { result.status ≡ 14 → HasFailedDoor L.faults doors.items result.doors.items }
    ensures sink { result.status ≡ 8 → Rose (O.faults out.old) (O.faults out.new) }
    ensures failed { result.status ≡ 9 → Rose (D.faults disk) (D.faults result.disk) }
    ensures opened { IsStatusBefore result.status → ⊥ }
    ensures status { IsStatusOfRun result.status }
    ensures grows { O.faults out.old ≤ O.faults out.new }
    ensures tells { O.tells out.new ≡ O.tells out.old }
    ensures disk { IsLent D.tells D.identity D.faults disk result.disk }
    ensures doors { AreLent L.tells L.identity L.faults L.is_out doors.items result.doors.items }
{
    let office = match Office::open(alloc, bank, spec, *base, disk) {
        Ok(office) => office,
        Err((disk, fault)) => {
            let halt = halt_of_opening(fault);
            let status = report(alloc, out, &halt);
            return Left {
                disk,
                doors,
                status,
                halt: Some(halt),
            };
        }
    };
    gate.see(&office.health());
    let Served { office, doors, end } = serve_doors(rt, alloc, office, gate, token, ahead, doors);
    gate.see(&office.health());
    // What the type of an office keeps of its marks.
    office.keeps();
    let summary = office.summary();
    let mut disk = office.into_disk();
    let status = end_over(alloc, out, &mut disk, end, &summary);
    Left {
        disk,
        doors,
        status,
        halt: None,
    }
}

/// Serves the connections of the doors over the journal on a disk, for messages that bear the token
/// if there is one, and prints how that ended. It gives the disk and the doors back.
pub(crate) fn serve<R, F, O, D, L, G>(
    rt: &R,
    alloc: Global,
    files: &mut F,
    out: &mut O,
    disk: D,
    doors: Vec<L>,
    gate: &G,
    token: Option<&[u8]>,
    bank: &str,
    plan: &str,
    ahead: Option<u32>,
) -> Left<D, L>
where
    R: Threads + Wait + Sync,
    F: Files,
    O: Sink,
    D: Disk + Send,
    L: Door + Send,
    G: Gate + Observer + Sync,
    requires few { vec_len doors ≤ 65535 }
    requires home { All (λ d. L.is_out d ≡ false) doors.items }
    requires left { IsTrue (D.tells disk) → IsAsLeft (D.accounts disk) }
    requires allows { AllowsExams (F.tells files.old) (F.has files.old) (F.content files.old)
        D.may_become }
    requires fair { (office : OpenedWith) (opened : List Mark)
        → (IsTrue (F.tells files.old) → Reads (F.has files.old) (F.content files.old)
        bank.now plan.now office.bank office.plan)
        → IsBaseForm office.bank office.plan office.base
        → AreFirstMarks (D.tells disk) (D.identity disk) (D.content disk) office opened
        → AreFairDoors (option_copied token)
        L.Link.tells L.Link.left L.Link.written L.Link.allows L.tells L.coming
        (IsCallerOf office opened) doors.items }
    ensures answers { IsTrue (F.tells files.old) → (words : List (List ℕ))
        → command_of words ≡ Some (Serve bank.now plan.now ahead)
        → RunEnds (λ opened closed end. AreServed (option_copied token.entry)
        L.tells L.coming L.returned L.is_out L.faults L.identity L.Link.tells L.Link.left L.Link.written L.Link.faults L.Link.identity
        opened closed doors.items result.doors.items end) (result.doors ≡ doors)
        words (outside (F.has files.old) (F.content files.old) (F.faults files.old)
        (F.faults files.new)
        (disk_seen D.tells D.content D.accounts D.faults disk result.disk))
        (O.tells out.old) (O.written out.old) (O.written out.new) result.status }
    ensures cause { IsTrue (F.tells files.old) → (words : List (List ℕ))
        → command_of words ≡ Some (Serve bank.now plan.now ahead)
        → EndsAs words (outside (F.has files.old) (F.content files.old) (F.faults files.old)
        (F.faults files.new)
        (disk_seen D.tells D.content D.accounts D.faults disk result.disk))
        result.halt result.status }
    ensures door { result.status ≡ 14 → HasFailedDoor L.faults doors.items result.doors.items }
    ensures files { result.status ≡ 7 → Rose (F.faults files.old) (F.faults files.new) }
    ensures sink { result.status ≡ 8 → Rose (O.faults out.old) (O.faults out.new) }
    ensures failed { result.status ≡ 9 → Rose (D.faults disk) (D.faults result.disk) }
    ensures kept { IsStatusBefore result.status → result.disk ≡ disk }
    ensures usage { result.status ≡ 2 → ⊥ }
    ensures status { IsStatusOfRun result.status }
    ensures files_grow { F.faults files.old ≤ F.faults files.new }
    ensures sink_grows { O.faults out.old ≤ O.faults out.new }
    ensures files_tell { F.tells files.new ≡ F.tells files.old }
    ensures sink_tells { O.tells out.new ≡ O.tells out.old }
    ensures disk { IsLent D.tells D.identity D.faults disk result.disk }
    ensures doors { AreLent L.tells L.identity L.faults L.is_out doors.items result.doors.items }
{
    let exam = match exam_in(alloc, files, bank, plan) {
        Ok(exam) => exam,
        Err(halt) => {
            let status = report(alloc, out, &halt);
            return Left {
                disk,
                doors,
                status,
                halt: Some(halt),
            };
        }
    };
    let base = match base_form(alloc, &exam.bank, &exam.spec) {
        Ok(base) => base,
        Err(halt) => {
            let status = report(alloc, out, &halt);
            return Left {
                disk,
                doors,
                status,
                halt: Some(halt),
            };
        }
    };
    serve_over(
        rt, alloc, &exam.bank, &exam.spec, &base, out, disk, doors, gate, token, ahead,
    )
}
