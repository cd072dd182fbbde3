//! The line of a draft's fault.

ghost use Rattle.std.specs.Prelude.{◌≡◌, IfOk, string_bytes};
ghost use Rattle.exam_text.specs.Texts.{no_memory};
ghost use Rattle.constraint_model.specs.Texts.{draft_text};

use crate::spec_fault::SpecFault;
use std::alloc::{AllocError, Global};

impl SpecFault {
    /// The line that reports to a user what is wrong with a plan, with its line feed.
    #[tactic(auto, unfolding(crate::specs::Texts::draft_text, exam_text::specs::Texts::no_memory))]
    pub fn text(self, alloc: Global) -> Result<String, AllocError>
        // Promise: The line that is printed of a fault is the stated one
        // - by the clause (`draft_text`)
        ensures { IfOk result (λ line. string_bytes line ≡ draft_text self) }
    {
        match self {
            SpecFault::Length => String::from_str(alloc, "plan: length\n"),
            SpecFault::BadPrior => String::from_str(alloc, "plan: prior\n"),
            SpecFault::TooManyRows => String::from_str(alloc, "plan: rows\n"),
            SpecFault::RowBounds(row) => format!(in alloc; "plan: row {row} bounds\n"),
            SpecFault::EmptySet(row) => format!(in alloc; "plan: row {row} empty\n"),
            SpecFault::BadItem(row) => format!(in alloc; "plan: row {row} item\n"),
            SpecFault::BadQuantity(row) => format!(in alloc; "plan: row {row} quantity\n"),
            SpecFault::BadStimulus(stimulus) => format!(in alloc; "plan: stimulus {stimulus}\n"),
            SpecFault::BadRate => String::from_str(alloc, "plan: rate\n"),
            SpecFault::BadBands => String::from_str(alloc, "plan: bands\n"),
            SpecFault::BadBudget => String::from_str(alloc, "plan: budget\n"),
            SpecFault::BadLimit => String::from_str(alloc, "plan: limit\n"),
            SpecFault::BadBase(_) => String::from_str(alloc, "plan: base\n"),
            SpecFault::Memory => String::from_str(alloc, "no memory\n"),
        }
    }
}
