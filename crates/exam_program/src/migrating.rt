//! The command `migrate`: the journal's records by the second version.

ghost use Rattle.std.specs.Prelude.{◌≡◌, ℕ, ◌≤◌, List, Some, OnOk, IsTrue, IfErr, IfSome};
ghost use Rattle.exam_edge.specs.Faults.{Rose};
ghost use Rattle.exam_edge.specs.Lent.{IsLent};
ghost use Rattle.answer_journal.specs.Standing.{IsAsLeft};
ghost use Rattle.command_line.specs.Commands.{Migrate, command_of};
ghost use Rattle.form_model.specs.Validity.{IsPlanFor};
ghost use Rattle.exam_lines.specs.Texts.{migrated_text};
ghost use Rattle.exam_program.specs.Halts.{IsBeforeJournal};
ghost use Rattle.exam_program.specs.Migrations.{migration_halt};
ghost use Rattle.exam_program.specs.Outcomes.{IsMigrationOf, Prints, Halts};
ghost use Rattle.exam_program.specs.Outside.{Outside, outside, disk_seen};
ghost use Rattle.exam_office.specs.Allowing.{AllowsHistories};
ghost use Rattle.exam_program.specs.AllowedFiles.{AllowsExams};

use crate::halt::Halt;
use crate::output::put_text;
use crate::reading::exam_in;
use bank_tables::Bank;
use constraint_model::Spec;
use exam_edge::{Disk, Files, Sink};
use exam_lines::migrated_line;
use exam_office::{MigrateFault, Moved, migrate};
use std::alloc::Global;

/// Why a migration that is not done ends the command.
fn halt_of_migration(spec: &Spec, fault: MigrateFault) -> Halt
    ensures { result ≡ migration_halt spec.now fault }
{
    match fault {
        MigrateFault::Open(why) => Halt::Journal(why),
        MigrateFault::Full(size) => Halt::JournalFull {
            size,
            most: spec.journal(),
        },
        MigrateFault::Disk => Halt::Disk,
        MigrateFault::Memory => Halt::Memory,
    }
}

/// The line of a migration that was done.
fn moved_text(alloc: Global, done: Moved) -> Option<Vec<u8>>
    ensures { IfSome result (λ text. text.items ≡ migrated_text done.records done.length) }
{
    let line = migrated_line(alloc, done.records, done.length).ok()?;
    Some(line.into_bytes())
}

/// Moves the journal on a disk to the second version, by a bank and a plan, and prints how many
/// records it wrote, and the length of the journal then. It gives the disk back.
fn migrate_exam<O: Sink, D: Disk>(
    alloc: Global,
    bank: &Bank,
    spec: &Spec,
    out: &mut O,
    disk: D,
) -> (D, Result<(), Halt>)
    requires plan { IsPlanFor bank.now spec.now }
    requires left { IsTrue (D.tells disk) → IsAsLeft (D.accounts disk) }
    requires allows { AllowsHistories bank.now spec.now D.may_become }
    ensures ok { OnOk result.1 ((words : List (List ℕ)) (o : Outside)
        → IsMigrationOf words o bank.now spec.now
        → o.disk ≡ disk_seen D.tells D.content D.accounts D.faults disk result.0
        → Prints words o (O.tells out.old) (O.written out.old) (O.written out.new) 0) }
    ensures err { IfErr result.1 (λ halt. (words : List (List ℕ)) (o : Outside)
        → IsMigrationOf words o bank.now spec.now
        → o.disk ≡ disk_seen D.tells D.content D.accounts D.faults disk result.0
        → Halts words o (O.tells out.old) (O.written out.old) (O.written out.new) halt) }
    ensures no_files { result.1 ≡ Err Halt.Files → ⊥ }
    ensures sink { result.1 ≡ Err Halt.Sink → Rose (O.faults out.old) (O.faults out.new) }
    ensures failed { result.1 ≡ Err Halt.Disk → Rose (D.faults disk) (D.faults result.0) }
    ensures late { IfErr result.1 (λ halt. IsBeforeJournal halt → ⊥) }
    ensures grows { O.faults out.old ≤ O.faults out.new }
    ensures tells { O.tells out.new ≡ O.tells out.old }
    ensures disk { IsLent D.tells D.identity D.faults disk result.0 }
{
    match migrate(alloc, bank, spec, disk) {
        Ok((done, disk)) => {
            let printed = put_text(out, moved_text(alloc, done));
            (disk, printed)
        }
        Err((disk, fault)) => (disk, Err(halt_of_migration(spec, fault))),
    }
}

/// Moves the journal on a disk to the second version, and prints how many records it wrote, and the
/// length of the journal then. It gives the disk back.
pub(crate) fn migrate_journal<F: Files, O: Sink, D: Disk>(
    alloc: Global,
    files: &mut F,
    out: &mut O,
    disk: D,
    bank: &str,
    plan: &str,
) -> (D, Result<(), Halt>)
    requires left { IsTrue (D.tells disk) → IsAsLeft (D.accounts disk) }
    requires allows { AllowsExams (F.tells files.old) (F.has files.old) (F.content files.old)
        D.may_become }
    ensures ok { OnOk result.1 (IsTrue (F.tells files.old) → (words : List (List ℕ))
        → command_of words ≡ Some (Migrate bank.now plan.now)
        → Prints words (outside (F.has files.old) (F.content files.old) (F.faults files.old)
        (F.faults files.new)
        (disk_seen D.tells D.content D.accounts D.faults disk result.0))
        (O.tells out.old) (O.written out.old) (O.written out.new) 0) }
    ensures err { IfErr result.1 (λ halt. IsTrue (F.tells files.old) → (words : List (List ℕ))
        → command_of words ≡ Some (Migrate bank.now plan.now)
        → Halts words (outside (F.has files.old) (F.content files.old) (F.faults files.old)
        (F.faults files.new)
        (disk_seen D.tells D.content D.accounts D.faults disk result.0))
        (O.tells out.old) (O.written out.old) (O.written out.new) halt) }
    ensures files { result.1 ≡ Err Halt.Files → Rose (F.faults files.old) (F.faults files.new) }
    ensures sink { result.1 ≡ Err Halt.Sink → Rose (O.faults out.old) (O.faults out.new) }
    ensures failed { result.1 ≡ Err Halt.Disk → Rose (D.faults disk) (D.faults result.0) }
    ensures kept { IfErr result.1 (λ halt. IsBeforeJournal halt → result.0 ≡ disk) }
    ensures files_grow { F.faults files.old ≤ F.faults files.new }
    ensures sink_grows { O.faults out.old ≤ O.faults out.new }
    ensures files_tell { F.tells files.new ≡ F.tells files.old }
    ensures sink_tells { O.tells out.new ≡ O.tells out.old }
    ensures disk { IsLent D.tells D.identity D.faults disk result.0 }
{
    let exam = match exam_in(alloc, files, bank, plan) {
        Ok(exam) => exam,
        Err(halt) => return (disk, Err(halt)),
    };
    migrate_exam(alloc, &exam.bank, &exam.spec, out, disk)
}
