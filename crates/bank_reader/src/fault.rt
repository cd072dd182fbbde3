//! Why a bank text is no bank.

ghost use Rattle.std.specs.Prelude.{◌≡◌};
ghost use Rattle.bank_reader.specs.TextFaults.{fault_of};
ghost use Rattle.bank_reader.specs.declared.fault.ReadFault.TheVariants.{Memory};

use bank_tables::BankFault;
use std::alloc::{AllocError, AllocFailed};
use text_source::TextFault;

/// The first fault of a bank text, from its front on. Record 0 is the header, record k is item k -
/// 1; records count without empty lines, columns count from 0.
#[derive(Clone, Copy, Debug, PartialEq, Eq)]
pub enum ReadFault {
    /// A call of the source failed.
    Source,
    /// The text has more than 4,194,304 bytes.
    TooLong,
    /// The first column that no header has after the columns before it; or the number of columns,
    /// where some are missing.
    Header(u64),
    /// The number of fields of this record is not that of the header.
    Csv(u64),
    /// The text in this record and column is ill-formed.
    Field(u64, u64),
    /// A number is out of its bounds.
    Bank(BankFault),
    /// Out of memory.
    Memory,
}

impl From<AllocError> for ReadFault {
    ghost from_gives = { λ _ e. e ≡ Memory };

    fn from(_e: AllocError) -> ReadFault {
        ReadFault::Memory
    }
}

impl<T: Drop> From<AllocFailed<T>> for ReadFault {
    ghost from_gives = { λ _ e. e ≡ Memory };

    fn from(_e: AllocFailed<T>) -> ReadFault {
        ReadFault::Memory
    }
}

impl From<TextFault> for ReadFault {
    ghost from_gives = { λ t e. e ≡ fault_of t };

    fn from(fault: TextFault) -> ReadFault {
        match fault {
            TextFault::Source => ReadFault::Source,
            TextFault::TooLong => ReadFault::TooLong,
            TextFault::Memory => ReadFault::Memory,
        }
    }
}
