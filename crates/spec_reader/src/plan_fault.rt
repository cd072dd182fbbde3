//! Why a text is no plan.

ghost use Rattle.std.specs.Prelude.{◌≡◌};
ghost use Rattle.spec_reader.specs.declared.plan_fault.PlanFault.TheVariants.{Memory};
ghost use Rattle.spec_reader.specs.Faults.{fault_of_line};

use crate::line_fault::{Kind, LineFault};
use constraint_model::SpecFault;
use std::alloc::AllocError;

/// A line that a text must have.
#[derive(Clone, Copy, Debug, PartialEq, Eq)]
pub enum Name {
    Length,
    Prior,
    Key,
}

/// Why a text is no plan for an item bank: the first faulty line, then the first line that is
/// missing, then the first fault of what the lines mean.
#[derive(Clone, Copy, Debug, PartialEq, Eq)]
pub enum PlanFault {
    /// The source failed, and has counted that.
    Source,
    /// The text has more than 1,048,576 bytes.
    TooLong,
    /// This line is ill-formed. Lines count from 1.
    Line(u64, Kind),
    /// This line repeats an earlier one that may occur only once.
    Twice(u64),
    /// There is no such line.
    Missing(Name),
    /// The lines mean no valid plan for the bank.
    Spec(SpecFault),
    /// Out of memory.
    Memory,
}

impl From<AllocError> for PlanFault {
    ghost from_gives = { λ _ e. e ≡ Memory };

    fn from(_e: AllocError) -> PlanFault {
        PlanFault::Memory
    }
}

impl From<LineFault> for PlanFault {
    ghost from_gives = { λ fault e. e ≡ fault_of_line fault };

    fn from(fault: LineFault) -> PlanFault {
        match fault {
            LineFault::Line(at, kind) => PlanFault::Line(at, kind),
            LineFault::Twice(at) => PlanFault::Twice(at),
            LineFault::Memory => PlanFault::Memory,
        }
    }
}
