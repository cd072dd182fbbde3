//! The line of a fault of a plan text.

ghost use Rattle.std.specs.Prelude.{◌≡◌, IfOk, string_bytes};
ghost use Rattle.exam_text.specs.Texts.{files_failed, no_memory};
ghost use Rattle.spec_reader.specs.Texts.{plan_text};
ghost use Rattle.spec_reader.specs.declared.plan_fault.PlanFault.TheVariants.{Line, Missing};

use crate::line_fault::Kind;
use crate::plan_fault::{Name, PlanFault};
use std::alloc::{AllocError, Global};

#[tactic(auto, unfolding(crate::specs::Texts::plan_text))]
fn line_text(alloc: Global, line: u64, kind: Kind) -> Result<String, AllocError>
    ensures { IfOk result (λ text. string_bytes text ≡ plan_text (Line line kind)) }
{
    match kind {
        Kind::Word => format!(in alloc; "plan: line {line} word\n"),
        Kind::Shape => format!(in alloc; "plan: line {line} shape\n"),
        Kind::Number => format!(in alloc; "plan: line {line} number\n"),
        Kind::Set => format!(in alloc; "plan: line {line} set\n"),
    }
}

#[tactic(auto, unfolding(crate::specs::Texts::plan_text))]
fn missing_text(alloc: Global, name: Name) -> Result<String, AllocError>
    ensures { IfOk result (λ text. string_bytes text ≡ plan_text (Missing name)) }
{
    match name {
        Name::Length => String::from_str(alloc, "plan: missing length\n"),
        Name::Prior => String::from_str(alloc, "plan: missing prior\n"),
        Name::Key => String::from_str(alloc, "plan: missing key\n"),
    }
}

impl PlanFault {
    /// The line that reports to a user what is wrong with a plan text, with its line feed.
    #[tactic(auto, unfolding(crate::specs::Texts::plan_text, exam_text::specs::Texts::files_failed, exam_text::specs::Texts::no_memory))]
    pub fn text(self, alloc: Global) -> Result<String, AllocError>
        // Promise: The line that is printed of a fault is the stated one
        ensures { IfOk result (λ line. string_bytes line ≡ plan_text self) }
    {
        match self {
            PlanFault::Source => String::from_str(alloc, "files failed\n"),
            PlanFault::TooLong => String::from_str(alloc, "plan: too long\n"),
            PlanFault::Line(line, kind) => line_text(alloc, line, kind),
            PlanFault::Twice(line) => format!(in alloc; "plan: line {line} twice\n"),
            PlanFault::Missing(name) => missing_text(alloc, name),
            PlanFault::Spec(fault) => fault.text(alloc),
            PlanFault::Memory => String::from_str(alloc, "no memory\n"),
        }
    }
}
