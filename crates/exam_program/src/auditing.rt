//! The command `audit`: what the journal has.

ghost use Rattle.std.specs.Prelude.{◌≡◌, ℕ, ◌≤◌, ◌++◌, List, Some, OnOk, IsTrue, IfErr, IfSome, string_bytes};
ghost use Rattle.exam_edge.specs.Faults.{Rose};
ghost use Rattle.exam_edge.specs.Lent.{IsLent};
ghost use Rattle.answer_journal.specs.Standing.{IsAsLeft};
ghost use Rattle.history_model.specs.declared.request.Reply.TheVariants.{Exposure as Exposed};
ghost use Rattle.command_line.specs.Commands.{Audit, command_of};
ghost use Rattle.form_model.specs.Validity.{IsPlanFor};
ghost use Rattle.exam_lines.specs.Texts.{summary_text};
ghost use Rattle.replay_cli.specs.Replies.{line_of};
ghost use Rattle.exam_program.specs.Halts.{IsBeforeJournal};
ghost use Rattle.exam_program.specs.Outcomes.{IsAuditOf, Prints, Halts};
ghost use Rattle.exam_program.specs.Outside.{Outside, outside, disk_seen};
ghost use Rattle.exam_program.specs.Texts.{bands_part, audit_text};

use crate::halt::Halt;
use crate::output::{joined, put_text};
use crate::reading::exam_in;
use crate::replay::halt_of_opening;
use bank_tables::Bank;
use constraint_model::Spec;
use exam_edge::{Disk, Files, Sink};
use exam_lines::{bands_text, summary_line};
use exam_office::Reply;
use history_model::{Exposure, Summary};
use journal_audit::audit_disk;
use replay_cli::reply_line;
use std::alloc::Global;

/// The numbers of a history, and its exposure counts in all.
fn total_text(alloc: Global, total: &Summary, exposure: Exposure) -> Option<Vec<u8>>
    ensures { IfSome result (λ text. text.items
        ≡ summary_text total.now ++ line_of (Exposed exposure)) }
{
    let line = summary_line(alloc, total).ok()?;
    let counts = reply_line(alloc, &Reply::Exposure(exposure)).ok()?;
    joined(alloc, line.as_bytes(), &counts)
}

/// The exposure counts in each band, where the plan has more than one.
fn bands_part(alloc: Global, spec: &Spec, bands: &[Exposure]) -> Option<String>
    ensures { IfSome result (λ part. string_bytes part ≡ bands_part spec.now bands.now) }
{
    if spec.bands().is_empty() {
        return Some(String::new(alloc));
    }
    bands_text(alloc, bands).ok()
}

/// The lines of an audit: the numbers of the history, and its exposure counts, in all and in each
/// band.
#[tactic(auto, unfolding(crate::specs::Texts::audit_text))]
fn audit_text(
    alloc: Global,
    spec: &Spec,
    total: &Summary,
    exposure: Exposure,
    bands: &[Exposure],
) -> Option<Vec<u8>>
    ensures { IfSome result (λ text. text.items
        ≡ audit_text spec.now total.now exposure bands.now) }
{
    let text = total_text(alloc, total, exposure)?;
    let part = bands_part(alloc, spec, bands)?;
    joined(alloc, &text, part.as_bytes())
}

/// Judges every record of the journal on a disk, by a bank and a plan, and prints the numbers of
/// its history and its exposure counts, in all and in each band. It gives the disk back.
fn audit_exam<O: Sink, D: Disk>(
    alloc: Global,
    bank: &Bank,
    spec: &Spec,
    out: &mut O,
    disk: D,
) -> (D, Result<(), Halt>)
    requires plan { IsPlanFor bank.now spec.now }
    requires left { IsTrue (D.tells disk) → IsAsLeft (D.accounts disk) }
    ensures ok { OnOk result.1 ((words : List (List ℕ)) (o : Outside)
        → IsAuditOf words o bank.now spec.now
        → o.disk ≡ disk_seen D.tells D.content D.accounts D.faults disk result.0
        → Prints words o (O.tells out.old) (O.written out.old) (O.written out.new) 0) }
    ensures err { IfErr result.1 (λ halt. (words : List (List ℕ)) (o : Outside)
        → IsAuditOf words o bank.now spec.now
        → o.disk ≡ disk_seen D.tells D.content D.accounts D.faults disk result.0
        → Halts words o (O.tells out.old) (O.written out.old) (O.written out.new) halt) }
    ensures no_files { result.1 ≡ Err Halt.Files → ⊥ }
    ensures sink { result.1 ≡ Err Halt.Sink → Rose (O.faults out.old) (O.faults out.new) }
    ensures failed { result.1 ≡ Err Halt.Disk → Rose (D.faults disk) (D.faults result.0) }
    ensures late { IfErr result.1 (λ halt. IsBeforeJournal halt → ⊥) }
    ensures grows { O.faults out.old ≤ O.faults out.new }
    ensures tells { O.tells out.new ≡ O.tells out.old }
    ensures disk { IsLent D.tells D.identity D.faults disk result.0 }
{
    let (disk, found) = audit_disk(alloc, bank, spec, disk);
    match found {
        Ok((total, exposure, bands)) => {
            let done = put_text(out, audit_text(alloc, spec, &total, exposure, &bands));
            (disk, done)
        }
        Err(fault) => (disk, Err(halt_of_opening(fault))),
    }
}

/// Judges every record of the journal on a disk, and prints the numbers of its history and its
/// exposure counts, in all and in each band. It gives the disk back.
pub(crate) fn audit_journal<F: Files, O: Sink, D: Disk>(
    alloc: Global,
    files: &mut F,
    out: &mut O,
    disk: D,
    bank: &str,
    plan: &str,
) -> (D, Result<(), Halt>)
    requires { IsTrue (D.tells disk) → IsAsLeft (D.accounts disk) }
    ensures ok { OnOk result.1 (IsTrue (F.tells files.old) → (words : List (List ℕ))
        → command_of words ≡ Some (Audit bank.now plan.now)
        → Prints words (outside (F.has files.old) (F.content files.old) (F.faults files.old)
        (F.faults files.new)
        (disk_seen D.tells D.content D.accounts D.faults disk result.0))
        (O.tells out.old) (O.written out.old) (O.written out.new) 0) }
    ensures err { IfErr result.1 (λ halt. IsTrue (F.tells files.old) → (words : List (List ℕ))
        → command_of words ≡ Some (Audit bank.now plan.now)
        → Halts words (outside (F.has files.old) (F.content files.old) (F.faults files.old)
        (F.faults files.new)
        (disk_seen D.tells D.content D.accounts D.faults disk result.0))
        (O.tells out.old) (O.written out.old) (O.written out.new) halt) }
    ensures files { result.1 ≡ Err Halt.Files → Rose (F.faults files.old) (F.faults files.new) }
    ensures sink { result.1 ≡ Err Halt.Sink → Rose (O.faults out.old) (O.faults out.new) }
    ensures failed { result.1 ≡ Err Halt.Disk → Rose (D.faults disk) (D.faults result.0) }
    ensures kept { IfErr result.1 (λ halt. IsBeforeJournal halt → result.0 ≡ disk) }
    ensures files_grow { F.faults files.old ≤ F.faults files.new }
    ensures sink_grows { O.faults out.old ≤ O.faults out.new }
    ensures files_tell { F.tells files.new ≡ F.tells files.old }
    ensures sink_tells { O.tells out.new ≡ O.tells out.old }
    ensures disk { IsLent D.tells D.identity D.faults disk result.0 }
{
    let exam = match exam_in(alloc, files, bank, plan) {
        Ok(exam) => exam,
        Err(halt) => return (disk, Err(halt)),
    };
    audit_exam(alloc, &exam.bank, &exam.spec, out, disk)
}
