//! The texts of a drill, read as the texts of files are.

ghost use Rattle.std.specs.Prelude.{◌≡◌, ◌≤◌, ◌⊎◌, List, length, IfOk, IfErr};
ghost use Rattle.bank_reader.specs.Grammar.{IsBankText};
ghost use Rattle.bank_reader.specs.declared.fault.ReadFault.TheVariants as read_fault;
ghost use Rattle.bank_tables.specs.Tables.{Tables};
ghost use Rattle.form_model.specs.Plan.{Plan};
ghost use Rattle.form_model.specs.Validity.{IsPlanFor};
ghost use Rattle.history_model.specs.declared.request.Request.{Request};
ghost use Rattle.replay_cli.specs.Scripts.{IsScript};
ghost use Rattle.replay_cli.specs.Reading.{most_bytes};
ghost use Rattle.spec_reader.specs.Reading.{IsPlanText, most_bytes as most_of_plan};
ghost use Rattle.spec_reader.specs.declared.plan_fault.PlanFault.TheVariants as plan_fault;

use crate::fault::DrillFault;
use bank_reader::{ReadFault, read_bank};
use bank_tables::Bank;
use constraint_model::Spec;
use exam_edge::MemorySource;
use history_model::Request;
use replay_cli::{ScriptFault, read_script};
use spec_reader::{PlanFault, read_plan};
use std::alloc::Global;

/// The fault that ends a drill where a bank text was not read.
fn fault_of(fault: ReadFault) -> DrillFault
    requires { (fault ≡ read_fault.Memory) ⊎ (fault ≡ read_fault.Source) }
    ensures { result ≡ DrillFault.Memory }
{
    match fault {
        ReadFault::Source | ReadFault::Memory => DrillFault::Memory,
        _ => unreachable!(),
    }
}

/// The bank of a bank text.
pub fn bank_of(alloc: Global, text: Vec<u8>) -> Result<Bank, DrillFault>
    requires { (b : Tables) × IsBankText text.items b }
    ensures ok { IfOk result (IsBankText text.items) }
    ensures err { IfErr result (λ fault. fault ≡ DrillFault.Memory) }
{
    let mut source = MemorySource::of(text, Vec::new(alloc));
    match read_bank(alloc, &mut source) {
        Ok(bank) => Ok(bank),
        Err(fault) => Err(fault_of(fault)),
    }
}

/// The fault that ends a drill where a plan text was not read.
fn fault_of_plan(fault: PlanFault) -> DrillFault
    requires { (fault ≡ plan_fault.Memory) ⊎ (fault ≡ plan_fault.Source) }
    ensures { result ≡ DrillFault.Memory }
{
    match fault {
        PlanFault::Source | PlanFault::Memory => DrillFault::Memory,
        _ => unreachable!(),
    }
}

/// The plan of a text of a plan that is valid for the bank. The text is not too long.
pub fn plan_of(alloc: Global, bank: &Bank, text: Vec<u8>) -> Result<Spec, DrillFault>
    requires plan { (p : Plan) × IsPlanText bank.now text.items p × IsPlanFor bank.now p }
    requires short { length text.items ≤ most_of_plan }
    ensures ok { IfOk result (IsPlanText bank.now text.items) }
    ensures valid { IfOk result (IsPlanFor bank.now) }
    ensures err { IfErr result (λ fault. fault ≡ DrillFault.Memory) }
{
    let mut source = MemorySource::of(text, Vec::new(alloc));
    match read_plan(alloc, bank, &mut source) {
        Ok(spec) => Ok(spec),
        Err(fault) => Err(fault_of_plan(fault)),
    }
}

/// The requests of a script that is not too long.
pub fn script_of(alloc: Global, text: Vec<u8>) -> Result<Vec<Request>, DrillFault>
    requires script { (requests : List Request) × IsScript text.items requests }
    requires short { length text.items ≤ most_bytes }
    ensures ok { IfOk result (λ requests. IsScript text.items requests.items) }
    ensures err { IfErr result (λ fault. fault ≡ DrillFault.Memory) }
{
    let mut source = MemorySource::of(text, Vec::new(alloc));
    match read_script(alloc, &mut source) {
        Ok(requests) => Ok(requests),
        Err(ScriptFault::Source) | Err(ScriptFault::Memory) => Err(DrillFault::Memory),
        Err(ScriptFault::TooLong) | Err(ScriptFault::Line(_)) => unreachable!(),
    }
}
