//! The texts of files.

ghost use Rattle.std.specs.Prelude.{◌≡◌, ℕ, ◌≤◌, List, IsTrue, IfOk, IfErr};
ghost use Rattle.exam_edge.specs.Faults.{Rose};
ghost use Rattle.bank_reader.specs.Reading.{bank_of};
ghost use Rattle.form_model.specs.Validity.{IsPlanFor};
ghost use Rattle.exam_program.specs.Halts.{HaltsAtBank, IsPlanIn, HaltsAtPlan, Reads, HaltsAtExam, IsScriptIn, HaltsAtScript, IsEarly};

use crate::halt::Halt;
use crate::item_sets::has_item_sets;
use bank_reader::{ReadFault, read_bank};
use bank_tables::Bank;
use constraint_model::Spec;
use exam_edge::{FileSource, Files};
use exam_office::Request;
use replay_cli::{ScriptFault, read_script};
use spec_reader::{PlanFault, read_plan};
use std::alloc::Global;

/// A bank, and a plan that is valid for it.
#[derive(Drop)]
pub(crate) struct Exam {
    pub bank: Bank,
    pub spec: Spec,
}

/// The bank in the file of this name.
fn bank_in<F: Files>(alloc: Global, files: &mut F, name: &str) -> Result<Bank, Halt>
    ensures ok { IfOk result (λ bank. IsTrue (F.tells files.old)
        → bank_of (F.content files.old name.now) ≡ Ok bank) }
    ensures there { IfOk result (λ _. IsTrue (F.tells files.old)
        → IsTrue (F.has files.old name.now)) }
    ensures err { IfErr result (λ halt. IsTrue (F.tells files.old)
        → HaltsAtBank (F.has files.old name.now) (F.content files.old name.now) halt) }
    ensures failed { result ≡ Err Halt.Files → Rose (F.faults files.old) (F.faults files.new) }
    ensures early { IfErr result IsEarly }
    ensures names { IsTrue (F.tells files.old) → (file : List ℕ)
        → F.has files.new file ≡ F.has files.old file }
    ensures content { IsTrue (F.tells files.old) → (file : List ℕ)
        → F.content files.new file ≡ F.content files.old file }
    ensures grows { F.faults files.old ≤ F.faults files.new }
    ensures tells { F.tells files.new ≡ F.tells files.old }
{
    let mut source = FileSource { files, name, at: 0 };
    match read_bank(alloc, &mut source) {
        Ok(bank) => Ok(bank),
        Err(ReadFault::Source) => Err(Halt::Files),
        Err(ReadFault::Memory) => Err(Halt::Memory),
        Err(fault) => Err(Halt::Bank(fault)),
    }
}

/// The plan in the file of this name.
fn plan_in<F: Files>(alloc: Global, files: &mut F, bank: &Bank, name: &str) -> Result<Spec, Halt>
    ensures ok { IfOk result (λ spec. IsTrue (F.tells files.old)
        → IsPlanIn bank.now (F.content files.old name.now) spec) }
    ensures valid { IfOk result (λ spec. IsPlanFor bank.now spec) }
    ensures there { IfOk result (λ _. IsTrue (F.tells files.old)
        → IsTrue (F.has files.old name.now)) }
    ensures err { IfErr result (λ halt. IsTrue (F.tells files.old)
        → HaltsAtPlan bank.now (F.has files.old name.now) (F.content files.old name.now) halt) }
    ensures failed { result ≡ Err Halt.Files → Rose (F.faults files.old) (F.faults files.new) }
    ensures early { IfErr result IsEarly }
    ensures names { IsTrue (F.tells files.old) → (file : List ℕ)
        → F.has files.new file ≡ F.has files.old file }
    ensures content { IsTrue (F.tells files.old) → (file : List ℕ)
        → F.content files.new file ≡ F.content files.old file }
    ensures grows { F.faults files.old ≤ F.faults files.new }
    ensures tells { F.tells files.new ≡ F.tells files.old }
{
    let mut source = FileSource { files, name, at: 0 };
    match read_plan(alloc, bank, &mut source) {
        Ok(spec) => {
            has_item_sets(&spec);
            Ok(spec)
        }
        Err(PlanFault::Source) => Err(Halt::Files),
        Err(PlanFault::Memory) => Err(Halt::Memory),
        Err(fault) => Err(Halt::Plan(fault)),
    }
}

/// The bank and the plan in the files of these names.
pub(crate) fn exam_in<F: Files>(
    alloc: Global,
    files: &mut F,
    bank: &str,
    plan: &str,
) -> Result<Exam, Halt>
    ensures ok { IfOk result (λ exam. IsTrue (F.tells files.old)
        → Reads (F.has files.old) (F.content files.old) bank.now plan.now exam.bank exam.spec) }
    ensures valid { IfOk result (λ exam. IsPlanFor exam.bank exam.spec) }
    ensures err { IfErr result (λ halt. IsTrue (F.tells files.old)
        → HaltsAtExam (F.has files.old) (F.content files.old) bank.now plan.now halt) }
    ensures failed { result ≡ Err Halt.Files → Rose (F.faults files.old) (F.faults files.new) }
    ensures early { IfErr result IsEarly }
    ensures names { IsTrue (F.tells files.old) → (file : List ℕ)
        → F.has files.new file ≡ F.has files.old file }
    ensures content { IsTrue (F.tells files.old) → (file : List ℕ)
        → F.content files.new file ≡ F.content files.old file }
    ensures grows { F.faults files.old ≤ F.faults files.new }
    ensures tells { F.tells files.new ≡ F.tells files.old }
{
    let bank = match bank_in(alloc, files, bank) {
        Ok(bank) => bank,
        Err(halt) => return Err(halt),
    };
    match plan_in(alloc, files, &bank, plan) {
        Ok(spec) => Ok(Exam { bank, spec }),
        Err(halt) => Err(halt),
    }
}

/// The requests of the script in the file of this name.
pub(crate) fn script_in<F: Files>(
    alloc: Global,
    files: &mut F,
    name: &str,
) -> Result<Vec<Request>, Halt>
    ensures ok { IfOk result (λ requests. IsTrue (F.tells files.old)
        → IsScriptIn (F.content files.old name.now) requests.items) }
    ensures there { IfOk result (λ _. IsTrue (F.tells files.old)
        → IsTrue (F.has files.old name.now)) }
    ensures err { IfErr result (λ halt. IsTrue (F.tells files.old)
        → HaltsAtScript (F.has files.old name.now) (F.content files.old name.now) halt) }
    ensures early { IfErr result IsEarly }
    ensures failed { result ≡ Err Halt.Files → Rose (F.faults files.old) (F.faults files.new) }
    ensures grows { F.faults files.old ≤ F.faults files.new }
    ensures tells { F.tells files.new ≡ F.tells files.old }
{
    let mut source = FileSource { files, name, at: 0 };
    match read_script(alloc, &mut source) {
        Ok(requests) => Ok(requests),
        Err(ScriptFault::Source) => Err(Halt::Files),
        Err(ScriptFault::Memory) => Err(Halt::Memory),
        Err(fault) => Err(Halt::Script(fault)),
    }
}
