//! A drill, from its texts to its summary.

ghost use Rattle.std.specs.Prelude.{◌≤◌, IfOk, IfErr};
ghost use Rattle.bank_tables.specs.Items.{has};
ghost use Rattle.form_model.specs.Forms.{Meets};
ghost use Rattle.form_model.specs.Validity.{IsPlanFor};
ghost use Rattle.exam_drill.specs.Leading.{IsSummaryOf, IsExamFault};
ghost use Rattle.exam_drill.specs.Drills.{IsSummaryOfDrill, IsDrillFault};

use crate::asking::ask_all;
use crate::fault::DrillFault;
use crate::reading::{bank_of, plan_of, script_of};
use bank_maker::laws::{a_bank_is_read, a_plan_is_read, a_script_is_read};
use bank_maker::make;
use bank_tables::{Bank, ItemSet};
use constraint_model::Spec;
use exam_edge::MemoryDisk;
use exam_office::{Alone, Office};
use history_model::{Request, Summary};
use std::alloc::Global;

/// Does requests from the empty history on, over a disk in memory, and gives the summary of the
/// history that they lead to.
fn examine(
    alloc: Global,
    bank: &Bank,
    spec: &Spec,
    base: ItemSet,
    requests: &[Request],
) -> Result<Summary, DrillFault>
    requires plan { IsPlanFor bank.now spec.now }
    requires base { Meets bank.now spec.now (has base) }
    ensures ok { IfOk result (IsSummaryOf bank.now spec.now requests.now) }
    ensures err { IfErr result (IsExamFault bank.now spec.now requests.now) }
{
    let disk = MemoryDisk::of(alloc, Vec::new(alloc), Vec::new(alloc));
    let office = match Office::open(alloc, bank, spec, base, disk) {
        Ok(office) => office,
        Err(_) => return Err(DrillFault::Memory),
    };
    let mut alone = Alone { office };
    let done = ask_all(alloc, &mut alone, requests);
    let Alone { office } = alone;
    let summary = office.summary();
    let _disk = office.into_disk();
    match done {
        Ok(()) => Ok(summary),
        Err(fault) => Err(fault),
    }
}

/// Makes the texts of a drill of so many sessions from a number, reads them, does the requests of
/// its script over a disk in memory, and gives the summary of the history that they lead to. Only
/// memory may run out.
pub fn run_drill(alloc: Global, number: u32, sessions: u32) -> Result<Summary, DrillFault>
    requires some { 1 ≤ sessions }
    requires few { sessions ≤ 200 }
    // Promise: The summary is that of a history to which the requests of the made script lead from
    // the empty history, each done in turn. The bank, the plan and the requests are those that the
    // made texts describe
    // - by `ok` (`IsSummaryOfDrill`, `LeadsTo`)
    ensures ok { IfOk result (IsSummaryOfDrill number sessions) }
    // Promise: A drill has no summary only because memory ran out. The bank, the plan and the
    // script are never refused, and the journal has room for each record
    // - by `err` (`IsDrillFault`)
    ensures err { IfErr result IsDrillFault }
{
    a_bank_is_read();
    a_plan_is_read();
    a_script_is_read();
    let made = make(alloc, number, sessions)?;
    let bank = bank_of(alloc, made.bank)?;
    let spec = plan_of(alloc, &bank, made.plan)?;
    let requests = script_of(alloc, made.script)?;
    let Some(base) = spec.base() else {
        unreachable!()
    };
    examine(alloc, &bank, &spec, base, &requests)
}
