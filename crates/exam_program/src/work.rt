//! The commands.

ghost use Rattle.std.specs.Prelude.{◌≡◌, ℕ, ◌≤◌, ◌++◌, List, Some, OnOk, IsTrue, IfSome, IfErr};
ghost use Rattle.exam_edge.specs.Faults.{Rose};
ghost use Rattle.exam_edge.specs.Lent.{IsLent};
ghost use Rattle.answer_journal.specs.Standing.{IsAsLeft};
ghost use Rattle.command_line.specs.Commands.{Check, Assemble, Replay, command_of};
ghost use Rattle.exam_program.specs.Halts.{IsBeforeJournal, IsOfNoDisk};
ghost use Rattle.exam_program.specs.Outcomes.{Prints, Halts};
ghost use Rattle.exam_program.specs.Outside.{DiskSeen, outside, disk_seen, IsUntouched};
ghost use Rattle.exam_program.specs.Texts.{bank_line};
ghost use Rattle.spec_reader.specs.Canonical.{canonical};
ghost use Rattle.exam_program.specs.AllowedFiles.{AllowsExams};

use crate::base::{assembly_text, base_form};
use crate::halt::Halt;
use crate::lines::bank_line;
use crate::output::{joined, put_text};
use crate::reading::{exam_in, script_in};
use crate::replay::replay;
use bank_tables::Bank;
use constraint_model::Spec;
use exam_edge::{Disk, Files, Sink};
use spec_reader::print_plan;
use std::alloc::Global;

/// What was understood of a bank and a plan: the bank line, and the plan in canonical form.
fn understood(alloc: Global, bank: &Bank, spec: &Spec) -> Option<Vec<u8>>
    ensures { IfSome result (λ text. text.items ≡ bank_line bank.now ++ canonical spec.now) }
{
    let line = bank_line(alloc, bank).ok()?;
    let plan = print_plan(alloc, spec).ok()?;
    joined(alloc, line.as_bytes(), &plan)
}

/// Reads a bank and a plan, and prints what was understood.
pub(crate) fn check<F: Files, O: Sink>(
    alloc: Global,
    files: &mut F,
    out: &mut O,
    bank: &str,
    plan: &str,
) -> Result<(), Halt>
    ensures ok { OnOk result (IsTrue (F.tells files.old) → (words : List (List ℕ)) (disk : DiskSeen)
        → command_of words ≡ Some (Check bank.now plan.now) → IsUntouched disk
        → Prints words (outside (F.has files.old) (F.content files.old) (F.faults files.old)
        (F.faults files.new) disk)
        (O.tells out.old) (O.written out.old) (O.written out.new) 0) }
    ensures err { IfErr result (λ halt. IsTrue (F.tells files.old)
        → (words : List (List ℕ)) (disk : DiskSeen)
        → command_of words ≡ Some (Check bank.now plan.now) → IsUntouched disk
        → Halts words (outside (F.has files.old) (F.content files.old) (F.faults files.old)
        (F.faults files.new) disk)
        (O.tells out.old) (O.written out.old) (O.written out.new) halt) }
    ensures files { result ≡ Err Halt.Files → Rose (F.faults files.old) (F.faults files.new) }
    ensures sink { result ≡ Err Halt.Sink → Rose (O.faults out.old) (O.faults out.new) }
    ensures alone { IfErr result IsOfNoDisk }
    ensures files_grow { F.faults files.old ≤ F.faults files.new }
    ensures sink_grows { O.faults out.old ≤ O.faults out.new }
    ensures files_tell { F.tells files.new ≡ F.tells files.old }
    ensures sink_tells { O.tells out.new ≡ O.tells out.old }
{
    let exam = match exam_in(alloc, files, bank, plan) {
        Ok(exam) => exam,
        Err(halt) => return Err(halt),
    };
    put_text(out, understood(alloc, &exam.bank, &exam.spec))
}

/// Reads a bank and a plan, assembles a form of the whole problem, and prints it with its tree.
pub(crate) fn assemble<F: Files, O: Sink>(
    alloc: Global,
    files: &mut F,
    out: &mut O,
    bank: &str,
    plan: &str,
) -> Result<(), Halt>
    ensures ok { OnOk result (IsTrue (F.tells files.old) → (words : List (List ℕ)) (disk : DiskSeen)
        → command_of words ≡ Some (Assemble bank.now plan.now) → IsUntouched disk
        → Prints words (outside (F.has files.old) (F.content files.old) (F.faults files.old)
        (F.faults files.new) disk)
        (O.tells out.old) (O.written out.old) (O.written out.new) 0) }
    ensures err { IfErr result (λ halt. IsTrue (F.tells files.old)
        → (words : List (List ℕ)) (disk : DiskSeen)
        → command_of words ≡ Some (Assemble bank.now plan.now) → IsUntouched disk
        → Halts words (outside (F.has files.old) (F.content files.old) (F.faults files.old)
        (F.faults files.new) disk)
        (O.tells out.old) (O.written out.old) (O.written out.new) halt) }
    ensures files { result ≡ Err Halt.Files → Rose (F.faults files.old) (F.faults files.new) }
    ensures sink { result ≡ Err Halt.Sink → Rose (O.faults out.old) (O.faults out.new) }
    ensures alone { IfErr result IsOfNoDisk }
    ensures files_grow { F.faults files.old ≤ F.faults files.new }
    ensures sink_grows { O.faults out.old ≤ O.faults out.new }
    ensures files_tell { F.tells files.new ≡ F.tells files.old }
    ensures sink_tells { O.tells out.new ≡ O.tells out.old }
{
    let exam = match exam_in(alloc, files, bank, plan) {
        Ok(exam) => exam,
        Err(halt) => return Err(halt),
    };
    match assembly_text(alloc, &exam.bank, &exam.spec) {
        Ok(text) => put_text(out, Some(text)),
        Err(halt) => Err(halt),
    }
}

/// Does the requests of a script over the journal on a disk, and prints the reply to each. It gives
/// the disk back.
pub(crate) fn replay_script<F: Files, O: Sink, D: Disk>(
    alloc: Global,
    files: &mut F,
    out: &mut O,
    disk: D,
    bank: &str,
    plan: &str,
    script: &str,
) -> (D, Result<(), Halt>)
    requires left { IsTrue (D.tells disk) → IsAsLeft (D.accounts disk) }
    requires allows { AllowsExams (F.tells files.old) (F.has files.old) (F.content files.old)
        D.may_become }
    ensures ok { OnOk result.1 (IsTrue (F.tells files.old) → (words : List (List ℕ))
        → command_of words ≡ Some (Replay bank.now plan.now script.now)
        → Prints words (outside (F.has files.old) (F.content files.old) (F.faults files.old)
        (F.faults files.new)
        (disk_seen D.tells D.content D.accounts D.faults disk result.0))
        (O.tells out.old) (O.written out.old) (O.written out.new) 0) }
    ensures err { IfErr result.1 (λ halt. IsTrue (F.tells files.old) → (words : List (List ℕ))
        → command_of words ≡ Some (Replay bank.now plan.now script.now)
        → Halts words (outside (F.has files.old) (F.content files.old) (F.faults files.old)
        (F.faults files.new)
        (disk_seen D.tells D.content D.accounts D.faults disk result.0))
        (O.tells out.old) (O.written out.old) (O.written out.new) halt) }
    ensures files { result.1 ≡ Err Halt.Files → Rose (F.faults files.old) (F.faults files.new) }
    ensures sink { result.1 ≡ Err Halt.Sink → Rose (O.faults out.old) (O.faults out.new) }
    ensures failed { result.1 ≡ Err Halt.Disk → Rose (D.faults disk) (D.faults result.0) }
    ensures kept { IfErr result.1 (λ halt. IsBeforeJournal halt → result.0 ≡ disk) }
    ensures files_grow { F.faults files.old ≤ F.faults files.new }
    ensures sink_grows { O.faults out.old ≤ O.faults out.new }
    ensures files_tell { F.tells files.new ≡ F.tells files.old }
    ensures sink_tells { O.tells out.new ≡ O.tells out.old }
    ensures disk { IsLent D.tells D.identity D.faults disk result.0 }
{
    let exam = match exam_in(alloc, files, bank, plan) {
        Ok(exam) => exam,
        Err(halt) => return (disk, Err(halt)),
    };
    let requests = match script_in(alloc, files, script) {
        Ok(requests) => requests,
        Err(halt) => return (disk, Err(halt)),
    };
    let base = match base_form(alloc, &exam.bank, &exam.spec) {
        Ok(base) => base,
        Err(halt) => return (disk, Err(halt)),
    };
    replay(alloc, &exam.bank, &exam.spec, &base, &requests, out, disk)
}
