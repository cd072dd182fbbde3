//! The records of an office's journal, read again one after another.

ghost use Rattle.std.specs.Prelude.{◌≡◌, ◌+◌, ◌≤◌, length, slice_get, Some, None, IsTrue, is_some, IfOk, IfErr, IfSome, OnErr, if◌then◌else◌};
ghost use Rattle.std.specs.Option.{option_map};
ghost use Rattle.exam_edge.specs.Lent.{IsLent};
ghost use Rattle.exam_edge.specs.Images.{AllImages, latest};
ghost use Rattle.answer_journal.specs.Journal.{tells_of, accounts_of, faults_of, identity_of, length_of, limit_of, payloads_of, start_of};
ghost use Rattle.answer_journal.specs.Payload.{end_of};
ghost use Rattle.answer_journal.specs.Versions.{contents, second};
ghost use Rattle.exam_office.specs.Marks.{history, reach};
ghost use Rattle.exam_office.specs.Payloads.{HoldsRecords, IsCursorOf, IsOnlyRead, IsPayloadLong, IsUnread};

use crate::cursor::Cursor;
use crate::office::Office;
use answer_journal::WalkFault;
use exam_edge::Disk;
use history_model::Refusal;
use std::alloc::Global;

impl<'a, D: Disk> Office<'a, D> {
    /// How many records the journal has, without one in doubt.
    pub fn records(&self) -> u64
        ensures { result ≡ length (history self.now.marks) }
    {
        self.book.entries()
    }

    /// What its journal has, as a law: while nothing is in doubt, the payloads of records of the
    /// history, in order. Its length is that of the last mark that has one, and its limit that of
    /// the plan.
    pub fn holds(&self)
        // Promise: While nothing is in doubt, the payloads of the journal are those of records of
        // the history, each of which may follow those before it. Each file that a crash may leave
        // has them. The office counts them
        // - of `Office::holds`, `Office::records`
        // - by `records` (`HoldsRecords`), `images`, `length`, `limit`, `short`
        ensures records { self.now.doubt ≡ None → HoldsRecords self.now }
        // Each file that a crash may leave has these payloads.
        ensures images { self.now.doubt ≡ None → IsTrue (tells_of self.now.journal)
            → AllImages (λ file. contents file ≡ Some (second (payloads_of self.now.journal)))
            (latest (accounts_of self.now.journal)) }
        ensures length { length_of self.now.journal ≡ reach self.now.marks }
        // Its file ends with the closed gate after the last record.
        ensures frames { self.now.doubt ≡ None → IsTrue (tells_of self.now.journal)
            → end_of (start_of self.now.journal) (payloads_of self.now.journal) + 1
            ≡ length_of self.now.journal }
        ensures limit { limit_of self.now.journal ≡ self.now.plan.journal }
        ensures short { length_of self.now.journal ≤ 536870912 }
    {
        let _ = self.book.entries();
        let _ = self.journal.length();
    }

    /// The cursor of the first record.
    pub fn cursor(&self) -> Cursor
        // Promise: The records of a journal are read again in their order, from the first one: the
        // payload of the cursor's number, and none exactly at the end. The cursor moves on by one
        // record, and stays where none was read. Nothing is written. `Disk` comes only where the
        // disk's count of faults rose
        // - of `Office::cursor`, `Office::next_record`
        // - by `first`, `record`, `fits`, `moved`, `cursor`, `stays`, `cause`, `read`
        ensures first { result.number ≡ 0 }
        ensures cursor { IsCursorOf self.now.journal result }
    {
        Cursor {
            number: 0,
            at: self.journal.start(),
        }
    }

    /// The payload of the record at a cursor, of the second version, and moves the cursor on to the
    /// next one; `None` exactly at the end. No entry may be in doubt, and the cursor is one of this
    /// office. After `Disk` or `Memory`, the only refusals, the cursor is where it was. The journal
    /// is not changed. Only of a disk that does not report its content the record may not be there
    /// any more: then there is none.
    pub fn next_record(
        &mut self,
        alloc: Global,
        cursor: &mut Cursor,
    ) -> Result<Option<Vec<u8>>, Refusal>
        requires sure { self.old.doubt ≡ None }
        requires cursor { IsCursorOf self.old.journal cursor.old }
        ensures record { IfOk result (λ found. IsTrue (tells_of self.old.journal)
            → option_map (λ v. v.items) found
            ≡ slice_get (payloads_of self.old.journal) cursor.old.number) }
        ensures fits { IfOk result (λ found. IfSome found (λ v. IsPayloadLong (length v.items))) }
        ensures moved { IfOk result (λ found. cursor.new.number
            ≡ (if is_some found then cursor.old.number + 1 else cursor.old.number)) }
        ensures cursor { IsCursorOf self.new.journal cursor.new }
        ensures stays { OnErr result (cursor.new ≡ cursor.old) }
        ensures cause { IfErr result (IsUnread self.old self.new) }
        ensures read { IsOnlyRead self.old self.new }
        ensures frame { IsLent tells_of identity_of faults_of self.old.journal self.new.journal }
    {
        let _ = self.journal.length();
        let found = match self.journal.read_frame(alloc, cursor.at) {
            Ok(found) => found,
            Err(WalkFault::Disk) => return Err(Refusal::Disk),
            Err(WalkFault::Memory) => return Err(Refusal::Memory),
        };
        let Some(payload) = found else {
            return Ok(None);
        };
        cursor.at += 5 + payload.len() as u64;
        cursor.number += 1;
        Ok(Some(payload))
    }
}
