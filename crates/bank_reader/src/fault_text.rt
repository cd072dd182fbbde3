//! The line of a fault of a bank text.

ghost use Rattle.std.specs.Prelude.{◌≡◌, IfOk, string_bytes};
ghost use Rattle.exam_text.specs.Texts.{files_failed, no_memory};
ghost use Rattle.bank_reader.specs.declared.fault.ReadFault.TheVariants.{Bank};
ghost use Rattle.bank_reader.specs.Texts.{bank_text};

use crate::fault::ReadFault;
use bank_tables::BankFault;
use std::alloc::{AllocError, Global};

#[tactic(auto, unfolding(crate::specs::Texts::bank_text, exam_text::specs::Texts::no_memory))]
fn bounds_text(alloc: Global, fault: BankFault) -> Result<String, AllocError>
    ensures { IfOk result (λ line. string_bytes line ≡ bank_text (Bank fault)) }
{
    match fault {
        BankFault::NoItems => String::from_str(alloc, "bank: no items\n"),
        BankFault::TooMany(count) => format!(in alloc; "bank: {count} items\n"),
        BankFault::BadGrid => String::from_str(alloc, "bank: grid\n"),
        BankFault::BadStimulus(item) => format!(in alloc; "bank: stimulus of item {item}\n"),
        BankFault::BadCategories(item) => format!(in alloc; "bank: categories of item {item}\n"),
        BankFault::BadQuantity(item) => format!(in alloc; "bank: quantity of item {item}\n"),
        BankFault::BadInfo(item) => format!(in alloc; "bank: information of item {item}\n"),
        BankFault::BadLogLik(item) => format!(in alloc; "bank: likelihood of item {item}\n"),
        BankFault::Memory => String::from_str(alloc, "no memory\n"),
    }
}

impl ReadFault {
    /// The line that reports to a user what is wrong with a bank text, with its line feed.
    #[tactic(auto, unfolding(crate::specs::Texts::bank_text, exam_text::specs::Texts::files_failed, exam_text::specs::Texts::no_memory))]
    pub fn text(self, alloc: Global) -> Result<String, AllocError>
        // Promise: The line that is printed of a fault is the stated one
        ensures { IfOk result (λ line. string_bytes line ≡ bank_text self) }
    {
        match self {
            ReadFault::Source => String::from_str(alloc, "files failed\n"),
            ReadFault::TooLong => String::from_str(alloc, "bank: too long\n"),
            ReadFault::Header(column) => format!(in alloc; "bank: header column {column}\n"),
            ReadFault::Csv(number) => format!(in alloc; "bank: record {number}\n"),
            ReadFault::Field(number, column) => {
                format!(in alloc; "bank: record {number} column {column}\n")
            }
            ReadFault::Bank(fault) => bounds_text(alloc, fault),
            ReadFault::Memory => String::from_str(alloc, "no memory\n"),
        }
    }
}
