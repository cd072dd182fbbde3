//! Tests of the stream of a growing journal: the records of a journal in memory, one after another.
//! It promises nothing upward and holds no code of the product.
#![tactic(auto)]

mod memory_journal;
#[cfg(test)]
mod reading;

pub use memory_journal::MemoryJournal;
