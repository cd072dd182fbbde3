//! A place in the records of an office's journal.

/// The place of a record that is read next. Where nothing is in doubt, `Office::cursor` gives that
/// of the first one.
#[derive(Clone, Copy, Debug, PartialEq, Eq)]
pub struct Cursor {
    /// How many records are before it: its number, from 0.
    pub number: u64,
    /// The place of its gate, in bytes from the start of the file.
    pub at: u64,
}
