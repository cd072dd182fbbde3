//! The bank and the plan of a session.

ghost use Rattle.std.specs.Prelude.{IfOk};
ghost use Rattle.form_model.specs.Validity.{IsPlanFor};

use anyhow::{Context, Result};
use bank_reader::{ReadFault, read_bank};
use bank_tables::Bank;
use constraint_model::Spec;
use exam_edge::MemorySource;
use spec_reader::{PlanFault, read_plan};
use std::alloc::Global;
use std::fs;
use std::rt::Files;

/// The bytes of the file of this name.
pub fn bytes_in<R: Files + AllocGlobal>(rt: &R, name: &str) -> Result<Vec<u8>> {
    fs::read(rt, name).context(format_args!("reading {name}"))
}

/// The bank that the bytes are.
pub fn bank_of(alloc: Global, bytes: Vec<u8>) -> Result<Bank, ReadFault> {
    let mut source = MemorySource::of(bytes, Vec::new(alloc));
    read_bank(alloc, &mut source)
}

/// The plan that the bytes are.
pub fn plan_of(alloc: Global, bank: &Bank, bytes: Vec<u8>) -> Result<Spec, PlanFault>
    ensures { IfOk result (IsPlanFor bank.now) }
{
    let mut source = MemorySource::of(bytes, Vec::new(alloc));
    read_plan(alloc, bank, &mut source)
}
