//! The command `drill`: an examination of its own making, over a disk in memory.

ghost use Rattle.std.specs.Prelude.{◌≡◌, ℕ, ◌≤◌, ◌++◌, List, Some, OnOk, IfErr, IfSome};
ghost use Rattle.command_line.specs.Commands.{Drill, command_of};
ghost use Rattle.exam_edge.specs.Faults.{Rose};
ghost use Rattle.exam_drill.specs.Drills.{IsDrillFault};
ghost use Rattle.exam_drill.specs.Texts.{drill_text};
ghost use Rattle.exam_lines.specs.Texts.{summary_text};
ghost use Rattle.exam_program.specs.Drilling.{HaltsAtDrill, IsOfDrill};
ghost use Rattle.exam_program.specs.Outcomes.{Prints, Halts};
ghost use Rattle.exam_program.specs.Outside.{Outside, IsUntouched};

use crate::halt::Halt;
use crate::output::{joined, put_text};
use exam_drill::{DrillFault, drill_line, run_drill};
use exam_edge::Sink;
use exam_lines::summary_line;
use history_model::Summary;
use std::alloc::Global;

/// The lines of a drill: its number with its sessions, and the numbers of the history.
fn drill_text(alloc: Global, number: u32, sessions: u32, summary: &Summary) -> Option<Vec<u8>>
    ensures { IfSome result (λ text. text.items
        ≡ drill_text number sessions ++ summary_text summary.now) }
{
    let first = drill_line(alloc, number, sessions).ok()?;
    let line = summary_line(alloc, summary).ok()?;
    joined(alloc, first.as_bytes(), line.as_bytes())
}

/// Why a drill has no summary, as the program ends with it. Its journal is never full.
fn halt_of_drill(fault: DrillFault) -> Halt
    requires { IsDrillFault fault }
    ensures halts { HaltsAtDrill result }
    ensures alone { IsOfDrill result }
    ensures no_sink { result ≡ Halt.Sink → ⊥ }
{
    match fault {
        DrillFault::JournalFull { .. } => unreachable!(),
        DrillFault::Memory => Halt::Memory,
    }
}

/// Makes an examination of so many sessions from a number, gives it, and prints the numbers of its
/// history.
pub(crate) fn drill<O: Sink>(
    alloc: Global,
    out: &mut O,
    number: u32,
    sessions: u32,
) -> Result<(), Halt>
    requires some { 1 ≤ sessions }
    requires few { sessions ≤ 200 }
    ensures ok { OnOk result ((words : List (List ℕ)) (o : Outside)
        → command_of words ≡ Some (Drill number sessions) → IsUntouched o.disk
        → Prints words o (O.tells out.old) (O.written out.old) (O.written out.new) 0) }
    ensures err { IfErr result (λ halt. (words : List (List ℕ)) (o : Outside)
        → command_of words ≡ Some (Drill number sessions) → IsUntouched o.disk
        → Halts words o (O.tells out.old) (O.written out.old) (O.written out.new) halt) }
    ensures sink { result ≡ Err Halt.Sink → Rose (O.faults out.old) (O.faults out.new) }
    ensures alone { IfErr result IsOfDrill }
    ensures grows { O.faults out.old ≤ O.faults out.new }
    ensures tells { O.tells out.new ≡ O.tells out.old }
{
    match run_drill(alloc, number, sessions) {
        Ok(summary) => put_text(out, drill_text(alloc, number, sessions, &summary)),
        Err(fault) => Err(halt_of_drill(fault)),
    }
}
