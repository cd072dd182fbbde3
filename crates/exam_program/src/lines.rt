//! The lines that are printed.

ghost use Rattle.std.specs.Prelude.{◌≡◌, IfOk, string_bytes};
ghost use Rattle.exam_program.specs.Texts.{bank_line, journal_text, sessions_limit, journal_limit};

use answer_journal::OpenFault as JournalFault;
use bank_tables::Bank;
use exam_office::OpenFault;
use std::alloc::{AllocError, Global};

/// What was understood of a bank: its numbers of items, grid points, quantities and stimuli.
#[tactic(auto, unfolding(crate::specs::Texts::bank_line))]
pub(crate) fn bank_line(alloc: Global, bank: &Bank) -> Result<String, AllocError>
    ensures { IfOk result (λ line. string_bytes line ≡ bank_line bank.now) }
{
    let items = bank.items();
    let grid = bank.grid();
    let quantities = bank.quantities();
    let stimuli = bank.stimuli();
    format!(in alloc; "bank items {items} grid {grid} quantities {quantities} stimuli {stimuli}\n")
}

/// What is wrong with the journal's file. A place is that of a record's gate, in bytes.
#[tactic(auto, unfolding(crate::specs::Texts::journal_text, crate::specs::Texts::disk_failed, exam_text::specs::Texts::no_memory))]
pub(crate) fn journal_text(alloc: Global, fault: OpenFault) -> Result<String, AllocError>
    ensures { IfOk result (λ line. string_bytes line ≡ journal_text fault) }
{
    match fault {
        OpenFault::Journal(JournalFault::TooLong(size)) => format!(in alloc;
            "journal: too long {size}\n"
        ),
        OpenFault::Journal(JournalFault::Header) => String::from_str(alloc, "journal: header\n"),
        OpenFault::Journal(JournalFault::Length(at)) => format!(in alloc;
            "journal: length at {at}\n"
        ),
        OpenFault::Journal(JournalFault::Cut(at)) => format!(in alloc; "journal: cut at {at}\n"),
        OpenFault::Version | OpenFault::Journal(JournalFault::Version) => String::from_str(
            alloc,
            "journal: version\n",
        ),
        OpenFault::BadRecord(at, _) => format!(in alloc; "journal: record at {at}\n"),
        OpenFault::Illegal(at, _) => format!(in alloc; "journal: illegal at {at}\n"),
        OpenFault::BadTree(at) => format!(in alloc; "journal: bad tree at {at}\n"),
        OpenFault::Disk | OpenFault::Journal(JournalFault::Disk) => String::from_str(
            alloc,
            "disk failed\n",
        ),
        OpenFault::Memory | OpenFault::Journal(JournalFault::Memory) => String::from_str(
            alloc,
            "no memory\n",
        ),
    }
}

/// A request would start one session more than the plan allows.
#[tactic(auto, unfolding(crate::specs::Texts::sessions_limit))]
pub(crate) fn sessions_limit(alloc: Global, count: u32, most: u32) -> Result<String, AllocError>
    ensures { IfOk result (λ line. string_bytes line ≡ sessions_limit count most) }
{
    format!(in alloc; "limit sessions {count} of {most}\n")
}

/// The journal would be longer than the plan allows, in bytes.
#[tactic(auto, unfolding(crate::specs::Texts::journal_limit))]
pub(crate) fn journal_limit(alloc: Global, size: u64, most: u64) -> Result<String, AllocError>
    ensures { IfOk result (λ line. string_bytes line ≡ journal_limit size most) }
{
    format!(in alloc; "limit journal {size} of {most}\n")
}
