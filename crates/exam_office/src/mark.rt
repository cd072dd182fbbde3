//! What an office notes.

ghost use Rattle.std.specs.Prelude.{◌≡◌, ◌+◌, ◌<◌, ◌^◌, [], ◌∷◌, ◌++◌, length, OnOk, OnErr};

use exam_edge::Memory;
use history_log::Counted;
use history_model::Entry;

/// What an office notes, one after another. A length is that of the journal in bytes.
#[derive(Clone, Copy)]
pub enum Mark {
    /// An entry that was found at opening.
    Old(Entry),
    /// The office was opened, with the journal at this length.
    Opened(u64),
    /// A call added this entry; the length with it.
    Own(Entry, u64),
    /// An entry in doubt was found on the disk; the length with it.
    Adopted(Entry, u64),
    /// The disk failed, and this entry is in doubt.
    Fault(Entry),
}

/// Whether one mark more may be noted: their number is below 2^64.
pub(crate) fn room_for_mark(marks: &Counted<Mark>) -> Result<(), Memory>
    ensures room { OnOk result (length marks.now + 1 < 2 ^ 64) }
    ensures full { OnErr result (length marks.now + 1 ≡ 2 ^ 64) }
{
    if marks.count() == u64::MAX {
        return Err(Memory);
    }
    Ok(())
}

/// Notes a mark.
pub(crate) fn note(marks: &mut Counted<Mark>, mark: &Mark) -> Result<(), Memory>
    ensures noted { OnOk result (marks.new ≡ marks.old ++ mark.now ∷ []) }
    ensures same { OnErr result (marks.new ≡ marks.old) }
{
    room_for_mark(marks)?;
    marks.push(mark);
    Ok(())
}
