//! What a command that follows or ships needs before the journal is opened.

ghost use Rattle.std.specs.Prelude.{◌≡◌, ℕ, ◌≤◌, List, Bool, Some, IsTrue, IfOk, IfErr};
ghost use Rattle.bank_tables.specs.Items.{has};
ghost use Rattle.command_line.specs.Commands.{Command, IsLinked, command_of, files_of};
ghost use Rattle.exam_edge.specs.Faults.{Rose};
ghost use Rattle.exam_program.specs.Bases.{IsBaseForm};
ghost use Rattle.exam_program.specs.Halts.{IsEarly, Reads};
ghost use Rattle.exam_program.specs.Outcomes.{Halts};
ghost use Rattle.exam_program.specs.Outside.{DiskSeen, IsUntouched, outside};
ghost use Rattle.form_model.specs.Forms.{Meets};
ghost use Rattle.form_model.specs.Validity.{IsPlanFor};

use crate::base::base_form;
use crate::halt::Halt;
use crate::reading::{Exam, exam_in};
use bank_tables::ItemSet;
use exam_edge::Files;
use std::alloc::Global;

/// A bank, a plan that is valid for it, and the base form.
#[derive(Drop)]
pub(crate) struct Ready {
    pub exam: Exam,
    pub base: ItemSet,
}

/// The bank and the plan in the files of these names, and the base form.
pub(crate) fn ready_in<F: Files>(
    alloc: Global,
    files: &mut F,
    bank: &str,
    plan: &str,
) -> Result<Ready, Halt>
    ensures ok { IfOk result (λ ready. IsTrue (F.tells files.old)
        → Reads (F.has files.old) (F.content files.old) bank.now plan.now ready.exam.bank
        ready.exam.spec) }
    ensures valid { IfOk result (λ ready. IsPlanFor ready.exam.bank ready.exam.spec) }
    ensures base { IfOk result (λ ready. IsBaseForm ready.exam.bank ready.exam.spec ready.base) }
    ensures meets { IfOk result
        (λ ready. Meets ready.exam.bank ready.exam.spec (has ready.base)) }
    ensures err { IfErr result (λ halt. IsTrue (F.tells files.old)
        → (words : List (List ℕ)) (command : Command) (disk : DiskSeen)
        (told : Bool) (was : List ℕ)
        → command_of words ≡ Some command → IsLinked command
        → files_of command ≡ Some (bank.now, plan.now) → IsUntouched disk
        → Halts words (outside (F.has files.old) (F.content files.old) (F.faults files.old)
        (F.faults files.new) disk) told was was halt) }
    ensures early { IfErr result IsEarly }
    ensures failed { result ≡ Err Halt.Files → Rose (F.faults files.old) (F.faults files.new) }
    ensures grows { F.faults files.old ≤ F.faults files.new }
    ensures tells { F.tells files.new ≡ F.tells files.old }
{
    let exam = match exam_in(alloc, files, bank, plan) {
        Ok(exam) => exam,
        Err(halt) => return Err(halt),
    };
    match base_form(alloc, &exam.bank, &exam.spec) {
        Ok(base) => Ok(Ready { exam, base }),
        Err(halt) => Err(halt),
    }
}
