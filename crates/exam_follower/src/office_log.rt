//! An office's journal as a log to ship from.

ghost use Rattle.std.specs.Prelude.{◌≡◌, ◌≢◌, ◌≤◌, ℕ, length, None, Err, IsTrue, IfErr, OnOk};
ghost use Rattle.exam_edge.specs.Faults.{Rose};
ghost use Rattle.answer_journal.specs.Journal.{tells_of, faults_of};
ghost use Rattle.exam_office.specs.Payloads.{IsCursorOf};
ghost use Rattle.exam_follower.specs.Shipping.{shipped_of, IsReadOnly};

use exam_edge::Disk;
use exam_office::{Cursor, Office, Refusal};
use record_links::{LogFault, RecordLog};
use std::alloc::Global;
use std::marker::Model;

/// An office whose records are shipped, with the place of the one that is read next. No entry of it
/// is in doubt.
pub struct OfficeLog<'a, D: Disk> {
    office: Office<'a, D>,
    cursor: Cursor,
}

impl<'a, D: Disk> Model for OfficeLog<'a, D> {
    ghost use Rattle.std.specs.Prelude.{◌≡◌, None};
    ghost use Rattle.exam_office.specs.Payloads.{IsCursorOf};
    ghost use Rattle.exam_follower.specs.Shipping.{LogState};

    ghost Value = { LogState D };

    ghost view = { λ l. record { office = l.office; cursor = l.cursor } };

    ghost invariant = { λ l. (l.office.doubt ≡ None) × IsCursorOf l.office.journal l.cursor };
}

// The fault of a log that a refusal to read is.
fn log_fault(refusal: Refusal) -> LogFault
    ensures { result ≡ Rattle.exam_follower.specs.Shipping.log_fault refusal }
{
    match refusal {
        Refusal::Disk => LogFault::Disk,
        _ => LogFault::Memory,
    }
}

// Reads on until a cursor is at the record of a number; from the first record on, where it is past
// that.
fn go_to<'a, D: Disk>(
    alloc: Global,
    office: &mut Office<'a, D>,
    cursor: &mut Cursor,
    number: u64,
) -> Result<(), LogFault>
    requires sure { office.old.doubt ≡ None }
    requires cursor { IsCursorOf office.old.journal cursor.old }
    ensures at { OnOk result (cursor.new.number ≡ number) }
    ensures cursor { IsCursorOf office.new.journal cursor.new }
    ensures failed { IfErr result (λ e. e ≡ LogFault.Disk
        → Rose (faults_of office.old.journal) (faults_of office.new.journal)) }
    ensures lost { IsTrue (tells_of office.old.journal) → number ≤ length (shipped_of office.old)
        → (n : ℕ) → result ≢ Err (LogFault.Lost n) }
    ensures read { IsReadOnly office.old office.new }
{
    if number < cursor.number {
        *cursor = office.cursor();
    }
    'records: while cursor.number < number {
        match office.next_record(alloc, cursor) {
            Ok(Some(_)) => {}
            Ok(None) => return Err(LogFault::Lost(cursor.number)),
            Err(refusal) => return Err(log_fault(refusal)),
        }
    }
    Ok(())
}

impl<'a, D: Disk> OfficeLog<'a, D> {
    /// The log of an office. No entry may be in doubt.
    pub fn new(office: Office<'a, D>) -> OfficeLog<'a, D>
        requires { office.doubt ≡ None }
        // Promise: The log of an office is that office, and gives it back
        // - of `OfficeLog::new`, `OfficeLog::into_office`
        ensures { result.office ≡ office.entry }
    {
        let cursor = office.cursor();
        OfficeLog { office, cursor }
    }

    /// The office, as the log has it now.
    pub fn into_office(self) -> Office<'a, D>
        ensures { result ≡ self.entry.office }
    {
        let OfficeLog { office, cursor: _ } = self;
        office
    }
}

impl<'a, D: Disk> RecordLog for OfficeLog<'a, D> {
    ghost use Rattle.exam_follower.specs.Shipping.{shipped_of, IsReadOnly};
    ghost use Rattle.exam_follower.specs.Later.{read_itself, read_still};

    ghost tells = { λ l. tells_of l.office.journal };

    ghost records = { λ l. shipped_of l.office };

    ghost faults = { λ l. faults_of l.office.journal };

    ghost is_later = { λ l m. IsReadOnly l.office m.office };

    ghost later_itself = { λ l. read_itself l.office };

    ghost later_still = { λ l m n. read_still l.office m.office n.office };

    fn count(&self) -> u64 {
        self.office.holds();
        self.office.records()
    }

    fn record(&mut self, alloc: Global, number: u64) -> Result<Vec<u8>, LogFault> {
        match go_to(alloc, &mut self.office, &mut self.cursor, number) {
            Ok(()) => {}
            Err(fault) => return Err(fault),
        }
        match self.office.next_record(alloc, &mut self.cursor) {
            Ok(Some(payload)) => Ok(payload),
            Ok(None) => Err(LogFault::Lost(number)),
            Err(refusal) => Err(log_fault(refusal)),
        }
    }
}
