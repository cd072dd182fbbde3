//! The office: a book over a journal; and whole requests, on an office of one thread. Upward it
//! promises that each entry of an examination is on the disk before it is acknowledged; that at
//! each moment a crash leaves the history so far, or that with some of the entries in hand; that an
//! entry in doubt after a fault of the disk is kept exactly where the disk has it; and that a
//! request does what the rules of examinations ask for. It judges nothing but by the book.
#![tactic(auto)]

mod ahead;
mod alone;
mod answering;
mod appending;
mod asking;
mod begun;
mod committing;
mod cursor;
mod fault;
mod handed_in;
pub mod laws;
mod leading;
mod mark;
mod migrating;
mod noted;
mod office;
mod opening;
mod probing;
mod reading_back;
mod reporting;
mod serving;
mod starting;
mod taking;
mod threads;
mod turns;
mod vectors;
mod warming;
mod witness;
mod writing;

pub use alone::Alone;
pub use appending::Taken;
pub use begun::Begun;
pub use cursor::Cursor;
pub use exam_handler::{Handler, Health};
pub use fault::OpenFault;
pub use history_model::{Entry, Exposure, Place, Refusal, Reply, Request, Summary};
pub use mark::Mark;
pub use migrating::{MigrateFault, Moved, migrate};
pub use noted::Noted;
pub use office::Office;
pub use taking::{journal_fault, take_history};
pub use witness::{needs_search, search_witness, seek_witness};
