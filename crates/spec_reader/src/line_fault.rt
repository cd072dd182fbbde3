//! The first faulty line of a plan text.

ghost use Rattle.std.specs.Prelude.{◌≡◌};
ghost use Rattle.spec_reader.specs.declared.line_fault.LineFault.TheVariants.{Memory};

use std::alloc::{AllocError, AllocFailed};

/// What is wrong with a line; of several faults the first in this order.
#[derive(Clone, Copy, Debug, PartialEq, Eq)]
pub enum Kind {
    /// The first word names no kind of line.
    Word,
    /// There is a wrong number of words, or a wrong space.
    Shape,
    /// A number, a signed number or the key is ill-formed.
    Number,
    /// A set of items is ill-formed.
    Set,
}

/// Why lines have no rules.
#[derive(Clone, Copy, PartialEq, Eq)]
pub enum LineFault {
    /// This line is ill-formed. Lines count from 1.
    Line(u64, Kind),
    /// This line repeats an earlier one that may occur only once.
    Twice(u64),
    /// Out of memory.
    Memory,
}

impl From<AllocError> for LineFault {
    ghost from_gives = { λ _ e. e ≡ Memory };

    fn from(_e: AllocError) -> LineFault {
        LineFault::Memory
    }
}

impl<T: Drop> From<AllocFailed<T>> for LineFault {
    ghost from_gives = { λ _ e. e ≡ Memory };

    fn from(_e: AllocFailed<T>) -> LineFault {
        LineFault::Memory
    }
}
