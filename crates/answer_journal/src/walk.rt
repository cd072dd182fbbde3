//! A file that is walked over to be opened, one payload in memory at a time.

ghost use Rattle.std.specs.Prelude.{◌≡◌, ◌≢◌, ◌≤◌, ◌<◌, ◌+◌, ◌^◌, ◌⊎◌, List, ℕ, [], ◌∷◌, ◌++◌, length, map, take, drop, Some, None, IsTrue, IfOk, IfErr, OnOk, OnErr};
ghost use Rattle.std.specs.Option.{ForSome};
ghost use Rattle.exam_edge.specs.Faults.{Rose};
ghost use Rattle.exam_edge.specs.Lent.{IsLent, FailsOnly};
ghost use Rattle.exam_edge.specs.Images.{AllImages, Allows, AtEachMoment, IsImage, IsSettled, latest};
ghost use Rattle.answer_journal.specs.Frames.{IsPayload};
ghost use Rattle.answer_journal.specs.Moving.{IsImageOrUnmoved, IsMovingWith, IsUnmoved};
ghost use Rattle.answer_journal.specs.Versions.{contents, counted_in, second};
ghost use Rattle.answer_journal.specs.OpenFault.{IsOfDevice};
ghost use Rattle.answer_journal.specs.Opening.{AllowsSame, PutsTailAside, tail_gates};
ghost use Rattle.answer_journal.specs.Payload.{at_of, bytes_of, places_of};
ghost use Rattle.answer_journal.specs.Reading.{IsRoomFor};
ghost use Rattle.answer_journal.specs.Standing.{IsBeingSwitched, IsImageOrHolds, IsSettledOrInterrupted, opened_file};
ghost use Rattle.answer_journal.specs.Walk.{HasRecord, IsJust, first_gate, first_payloads};

use crate::frames::Found;
use crate::gates::{find_frame, read_from};
use crate::moving::{Moving, write_mark};
use crate::opening::{Extent, finish_file, put_tail_aside, settle_mark};
use crate::{Journal, OpenFault, Payload};
use exam_edge::{Disk, Failed};
use std::alloc::{AllocError, Global};
use std::marker::Model;

/// Why no payload was given. What reads it is as it was.
#[derive(Clone, Copy, Debug, PartialEq, Eq)]
pub enum WalkFault {
    /// A call of the disk failed, and the disk has counted that.
    Disk,
    /// Out of memory.
    Memory,
}

impl From<AllocError> for WalkFault {
    ghost use Rattle.answer_journal.specs.declared.walk.WalkFault.TheVariants.{Memory};

    ghost from_gives = { λ _ e. e ≡ Memory };

    fn from(_: AllocError) -> Self {
        WalkFault::Memory
    }
}

/// A file whose frames were tested up to the first closed gate, and that was not changed. It gives
/// the payloads that count one after another. Once all were given, `finish` makes the file a
/// journal, and `start_move` begins to move one of the first version; `stop` leaves it as it is.
/// Contracts see the place of the next gate, how many payloads of the file were given, and the
/// versions.
pub struct Walk<D: Disk> {
    pub(crate) disk: D,
    pub(crate) limit: u64,
    pub(crate) extent: Extent,
    pub(crate) at: u64,
    /// How many payloads are before that place, those that do not count among them.
    pub(crate) passed: u64,
    /// The place of the gate of the last record that was passed; of the first gate before.
    pub(crate) last: u64,
}

impl<D: Disk> Model for Walk<D> {
    ghost use Rattle.std.specs.Prelude.{◌+◌};
    ghost use Rattle.std.specs.Prelude.{◌-◌};
    ghost use Rattle.answer_journal.specs.Walk.{WalkState, IsWalk, counted_version};

    ghost Value = { WalkState D };

    ghost view = { λ w. record {
      disk = w.disk;
      limit = w.limit;
      size = w.extent.end + 1;
      at = w.at;
      given = w.passed - w.extent.skipped;
      header_version = w.extent.version;
      record_version = counted_version w.extent.version w.extent.skipped;
    } };

    ghost invariant = { λ w. IsWalk (D.tells w.disk) (D.content w.disk)
        (D.accounts w.disk) w.limit w.extent w.at w.passed w.last };
}

// The length of the payload after the gate at a place of a file of this length, where that record
// ends by the gate at `end`.
fn find_record<D: Disk>(disk: &mut D, at: u64, end: u64, size: u64) -> Result<Option<usize>, Failed>
    requires before { at < end }
    requires within { end < size }
    requires few { size ≤ 536870918 }
    requires all { IsTrue (D.tells disk.old) → size ≡ length (D.content disk.old) }
    ensures room { IfOk result (λ found. ForSome found (IsRoomFor at (end + 1))) }
    ensures found { IfOk result (λ found. IsTrue (D.tells disk.old) → (p : List ℕ)
        → HasRecord (D.content disk.old) at p → at + 5 + length p ≤ end
        → found ≡ Some (length p)) }
    ensures content { IsTrue (D.tells disk.old) → D.content disk.new ≡ D.content disk.old }
    ensures accounts { IsTrue (D.tells disk.old) → D.accounts disk.new ≡ D.accounts disk.old }
    ensures aside { IsTrue (D.tells disk.old) → D.aside disk.new ≡ D.aside disk.old }
    ensures failed { FailsOnly D.faults disk.old disk.new result }
    ensures frame { IsLent D.tells D.identity D.faults disk.old disk.new }
{
    match find_frame(disk, at, size)? {
        Found::Record(count) => {
            if at + 5 + count as u64 <= end {
                Ok(Some(count))
            } else {
                Ok(None)
            }
        }
        _ => Ok(None),
    }
}

// Reads so many bytes from a place on, if they are there.
fn read_payload<D: Disk>(
    alloc: Global,
    disk: &mut D,
    from: u64,
    count: usize,
) -> Result<Option<Vec<u8>>, WalkFault>
    requires { from + count < 2 ^ 63 }
    ensures count { IfOk result (λ found. ForSome found (λ v. length v.items ≡ count)) }
    ensures bytes { IfOk result (λ found. IsTrue (D.tells disk.old)
        → from + count ≤ length (D.content disk.old)
        → IsJust found (λ v. v.items ≡ take count (drop from (D.content disk.old)))) }
    ensures cause { IfErr result
        (λ e. e ≡ WalkFault.Disk → Rose (D.faults disk.old) (D.faults disk.new)) }
    ensures content { IsTrue (D.tells disk.old) → D.content disk.new ≡ D.content disk.old }
    ensures accounts { IsTrue (D.tells disk.old) → D.accounts disk.new ≡ D.accounts disk.old }
    ensures aside { IsTrue (D.tells disk.old) → D.aside disk.new ≡ D.aside disk.old }
    ensures frame { IsLent D.tells D.identity D.faults disk.old disk.new }
{
    let mut bytes = vec![in alloc; 0u8; count]?;
    match read_from(disk, from, &mut bytes) {
        Ok(read) => {
            if read == count {
                Ok(Some(bytes))
            } else {
                Ok(None)
            }
        }
        Err(_) => Err(WalkFault::Disk),
    }
}

// Puts the bytes into the buffer, in the place of those that it had.
fn refill(buffer: &mut Vec<u8>, bytes: Vec<u8>)
    ensures { buffer.new ≡ bytes }
{
    *buffer = bytes;
}

// Reads the payload after the gate at a place before `end`. Only of a disk that doesn't report its
// content the record may not be there any more: then there is none.
fn read_record<D: Disk>(
    alloc: Global,
    disk: &mut D,
    at: u64,
    end: u64,
    size: u64,
) -> Result<Option<Vec<u8>>, WalkFault>
    requires before { at < end }
    requires within { end < size }
    requires few { size ≤ 536870918 }
    requires all { IsTrue (D.tells disk.old) → size ≡ length (D.content disk.old) }
    ensures room { IfOk result
        (λ found. ForSome found (λ v. IsRoomFor at (end + 1) (length v.items))) }
    ensures payload { IfOk result (λ found. IsTrue (D.tells disk.old) → (p : List ℕ)
        → HasRecord (D.content disk.old) at p → at + 5 + length p ≤ end
        → IsJust found (λ v. v.items ≡ p)) }
    ensures cause { IfErr result
        (λ e. e ≡ WalkFault.Disk → Rose (D.faults disk.old) (D.faults disk.new)) }
    ensures content { IsTrue (D.tells disk.old) → D.content disk.new ≡ D.content disk.old }
    ensures accounts { IsTrue (D.tells disk.old) → D.accounts disk.new ≡ D.accounts disk.old }
    ensures aside { IsTrue (D.tells disk.old) → D.aside disk.new ≡ D.aside disk.old }
    ensures frame { IsLent D.tells D.identity D.faults disk.old disk.new }
{
    match find_record(disk, at, end, size) {
        Ok(Some(count)) => read_payload(alloc, disk, at + 5, count),
        Ok(None) => Ok(None),
        Err(_) => Err(WalkFault::Disk),
    }
}

/// Reads the payload after the gate at a place up to `end`, where there is none. The file has this
/// length. Only of a disk that doesn't report its content the record may not be there any more:
/// then there is none.
pub fn read_before<D: Disk>(
    alloc: Global,
    disk: &mut D,
    at: u64,
    end: u64,
    size: u64,
) -> Result<Option<Vec<u8>>, WalkFault>
    requires before { at ≤ end }
    requires within { end < size }
    requires few { size ≤ 536870918 }
    requires all { IsTrue (D.tells disk.old) → size ≡ length (D.content disk.old) }
    ensures room { IfOk result
        (λ found. ForSome found (λ v. IsRoomFor at (end + 1) (length v.items))) }
    ensures payload { IfOk result (λ found. IsTrue (D.tells disk.old) → (p : List ℕ)
        → HasRecord (D.content disk.old) at p → at + 5 + length p ≤ end
        → IsJust found (λ v. v.items ≡ p)) }
    ensures end { IfOk result (λ found. at ≡ end → found ≡ None) }
    ensures cause { IfErr result
        (λ e. e ≡ WalkFault.Disk → Rose (D.faults disk.old) (D.faults disk.new)) }
    ensures content { IsTrue (D.tells disk.old) → D.content disk.new ≡ D.content disk.old }
    ensures accounts { IsTrue (D.tells disk.old) → D.accounts disk.new ≡ D.accounts disk.old }
    ensures aside { IsTrue (D.tells disk.old) → D.aside disk.new ≡ D.aside disk.old }
    ensures frame { IsLent D.tells D.identity D.faults disk.old disk.new }
{
    if at == end {
        return Ok(None);
    }
    read_record(alloc, disk, at, end, size)
}

impl<D: Disk> Walk<D> {
    ghost use Rattle.answer_journal.specs.Journal.{tells_of, content_of, accounts_of, aside_of};
    ghost use Rattle.answer_journal.specs.Journal.{faults_of};
    ghost use Rattle.answer_journal.specs.Journal.{identity_of, length_of, limit_of, payloads_of};
    ghost use Rattle.answer_journal.specs.Journal.{version_of, start_of};
    ghost use Rattle.answer_journal.specs.Journal.{IsReady};

    /// Puts the next payload into the buffer, which then has just that payload, and gives the place
    /// of its gate. `None` exactly after the last one. The walk and the buffer are as they were at
    /// `None` and at a fault.
    pub fn next(&mut self, alloc: Global, buffer: &mut Vec<u8>) -> Result<Option<u64>, WalkFault>
        // The next one, where there is one.
        // Promise: Walking gives the payloads that opening gives, one after another, each with the
        // place of its gate: the next one, and none exactly after the last. The buffer then has
        // just that payload
        // - by `place`, `at`, `given`, `fits`, `payload`, `last`, `ended`
        ensures place { IfOk result (λ found. ForSome found (λ at. at ≡ self.old.at)) }
        ensures at { IfOk result (λ found. ForSome found
            (λ at. self.new.at ≡ at + 5 + length buffer.new.items)) }
        ensures given { IfOk result
            (λ found. ForSome found (λ _. self.new.given ≡ self.old.given + 1)) }
        ensures fits { IfOk result (λ found. ForSome found (λ _. IsPayload buffer.new.items)) }
        ensures payload { IfOk result (λ found. ForSome found (λ _. IsTrue (D.tells self.old.disk)
            → first_payloads self.new.given (D.content self.old.disk)
            ≡ first_payloads self.old.given (D.content self.old.disk)
            ++ buffer.new.items ∷ [])) }

        // None only after the last.
        ensures last { IfOk result (λ found. found ≡ None → IsTrue (D.tells self.old.disk)
            → first_payloads self.old.given (D.content self.old.disk)
            ≡ (counted_in (D.content self.old.disk)).payloads) }
        ensures ended { IfOk result (λ found. found ≡ None → IsTrue (D.tells self.old.disk)
            → self.old.at + 1 ≡ self.old.size) }
        // Promise: A walk that gave no payload is as it was, and so is the buffer. `Disk` comes
        // only where the disk's count of faults rose
        // - by `stays`, `kept`, `stays_err`, `kept_err`, `cause`
        ensures stays { IfOk result (λ found. found ≡ None
            → (self.new.at ≡ self.old.at) × (self.new.given ≡ self.old.given)) }
        ensures kept { IfOk result (λ found. found ≡ None → buffer.new ≡ buffer.old) }

        ensures stays_err { OnErr result
            ((self.new.at ≡ self.old.at) × (self.new.given ≡ self.old.given)) }
        ensures kept_err { OnErr result (buffer.new ≡ buffer.old) }
        ensures cause { IfErr result (λ e. e ≡ WalkFault.Disk
            → Rose (D.faults self.old.disk) (D.faults self.new.disk)) }

        ensures within { self.new.at < self.new.size }
        ensures size { self.new.size ≡ self.old.size }
        ensures versions { (self.new.header_version ≡ self.old.header_version)
            × (self.new.record_version ≡ self.old.record_version) }
        ensures limit { self.new.limit ≡ self.old.limit }
        ensures untouched { IsTrue (D.tells self.old.disk)
            → D.content self.new.disk ≡ D.content self.old.disk }
        ensures accounts { IsTrue (D.tells self.old.disk)
            → D.accounts self.new.disk ≡ D.accounts self.old.disk }
        ensures aside { IsTrue (D.tells self.old.disk)
            → D.aside self.new.disk ≡ D.aside self.old.disk }
        ensures frame { IsLent D.tells D.identity D.faults self.old.disk self.new.disk }
    {
        if self.extent.end <= self.at {
            return Ok(None);
        }
        match read_record(
            alloc,
            &mut self.disk,
            self.at,
            self.extent.end,
            self.extent.size,
        ) {
            Ok(Some(bytes)) => {
                let place = self.at;
                self.at += 5 + bytes.len() as u64;
                self.passed += 1;
                self.last = place;
                refill(buffer, bytes);
                Ok(Some(place))
            }
            Ok(None) => Ok(None),
            Err(fault) => Err(fault),
        }
    }

    /// The place of the next gate.
    pub fn place(&self) -> u64
        // Promise: The place of the next gate and the length of the journal are known; `stop` gives
        // the disk back as it was
        // - of `Walk::place`, `Walk::length`, `Walk::stop`
        ensures { result ≡ self.now.at }
    {
        self.at
    }

    /// The version that the file's header names, 1 or 2; 2 for a file of at most nine bytes.
    pub fn version(&self) -> u8
        // Promise: The version of the header, that of the records that count, and the place of the
        // first of them are known
        // - of `Walk::version`, `Walk::record_version`, `Journal::version`, `Journal::start`,
        //   `Journal::walk`, `Journal::open`
        // - by the clause, `versions`, `place`, `version`, `start`
        ensures { result ≡ self.now.header_version }
    {
        self.extent.version
    }

    /// The version of the records that the walk gives: 2 also for a file with the header of the
    /// first version that was moved.
    pub fn record_version(&self) -> u8
        ensures version { result ≡ self.now.record_version }
        ensures one_of { (result ≡ 1) ⊎ (result ≡ 2) }
    {
        if self.extent.version == 1 && self.extent.skipped == 0 {
            1
        } else {
            2
        }
    }

    /// The length in bytes that the journal is to have.
    pub fn length(&self) -> u64
        ensures length { result ≡ self.now.size }
        ensures few { result ≤ 536870912 }
    {
        self.extent.end + 1
    }

    /// Puts aside what follows the first closed gate, where anything does: `finish` cuts it, and
    /// puts it aside itself. The file and the walk stay as they are.
    pub fn put_tail_aside(&mut self) -> Result<(), Failed>
        ensures at { self.new.at ≡ self.old.at }
        ensures given { self.new.given ≡ self.old.given }
        ensures size { self.new.size ≡ self.old.size }
        ensures versions { (self.new.header_version ≡ self.old.header_version)
            × (self.new.record_version ≡ self.old.record_version) }
        ensures limit { self.new.limit ≡ self.old.limit }
        // Promise: Putting aside what follows the first closed gate does not change the file, and
        // names the place of that gate
        // - by `untouched`, `accounts`, `aside`
        ensures untouched { IsTrue (D.tells self.old.disk)
            → D.content self.new.disk ≡ D.content self.old.disk }
        ensures accounts { IsTrue (D.tells self.old.disk)
            → D.accounts self.new.disk ≡ D.accounts self.old.disk }
        ensures aside { OnOk result (IsTrue (D.tells self.old.disk) → D.aside self.new.disk
            ≡ D.aside self.old.disk ++ tail_gates (D.content self.old.disk)) }
        ensures kept { OnErr result (IsTrue (D.tells self.old.disk)
            → D.aside self.new.disk ≡ D.aside self.old.disk) }
        ensures cause { OnErr result
            (Rose (D.faults self.old.disk) (D.faults self.new.disk)) }
        ensures frame { IsLent D.tells D.identity D.faults self.old.disk self.new.disk }
    {
        put_tail_aside(&mut self.disk, self.extent)
    }

    /// Writes the gate of the mark again as it reads, where one moved the file, and syncs: the last
    /// writer may have ended after a sync that failed. The file and the walk stay as they are.
    pub fn settle_mark(&mut self) -> Result<(), Failed>
        ensures at { self.new.at ≡ self.old.at }
        ensures given { self.new.given ≡ self.old.given }
        ensures size { self.new.size ≡ self.old.size }
        ensures versions { (self.new.header_version ≡ self.old.header_version)
            × (self.new.record_version ≡ self.old.record_version) }
        ensures limit { self.new.limit ≡ self.old.limit }
        ensures untouched { IsTrue (D.tells self.old.disk)
            → D.content self.new.disk ≡ D.content self.old.disk }
        ensures moments { IsTrue (D.tells self.old.disk)
            → AtEachMoment (D.accounts self.old.disk) (D.accounts self.new.disk)
            (IsImage (latest (D.accounts self.old.disk))) }
        ensures left { IsTrue (D.tells self.old.disk)
            → IsSettledOrInterrupted (D.content self.new.disk) (D.accounts self.new.disk) }
        // If that gate was being opened, it is on the disk now.
        // Promise: The gate of the mark is on the disk again, where a switch that failed had left
        // it suspect; a crash leaves what it might have left before
        // - of `Walk::settle_mark`, `Journal::walk`
        // - by `settled`, `left`, `moments`, `untouched`, `switching`
        ensures settled { OnOk result (IsTrue (D.tells self.old.disk)
            → self.old.header_version ≡ 1 → self.old.record_version ≡ 2
            → IsBeingSwitched (D.accounts self.old.disk)
            → IsSettled (D.content self.new.disk) (D.accounts self.new.disk)) }
        ensures aside { IsTrue (D.tells self.old.disk)
            → D.aside self.new.disk ≡ D.aside self.old.disk }
        ensures cause { OnErr result
            (Rose (D.faults self.old.disk) (D.faults self.new.disk)) }
        ensures frame { IsLent D.tells D.identity D.faults self.old.disk self.new.disk }
    {
        settle_mark(&mut self.disk, self.extent)
    }

    /// Makes the file a journal, as opening does, once all payloads were given. What follows the
    /// first closed gate is put aside before it is cut. If a call of the disk fails, the disk has
    /// counted that and comes back. The file may then be changed in part.
    pub fn finish(self) -> Result<Journal<D>, (D, OpenFault)>
        requires version { self.record_version ≡ 2 }
        requires all { IsTrue (D.tells self.disk)
            → first_payloads self.given (D.content self.disk)
            ≡ (counted_in (D.content self.disk)).payloads }
        requires comes { IsTrue (D.tells self.disk)
            → AllowsSame D.may_become contents (D.content self.disk) }
        // Promise: A file of which all payloads were given becomes a journal of these payloads, as
        // by opening. Only the disk can fail, and it has counted that; only a disk that reports
        // nothing may have lost a record, and its file is then not changed. No walk becomes a
        // journal before the end of its file
        // - by `ready`, `whole`, `keeps`, `content`, `moments`, `moments_err`, `images`, `why`,
        //   `cause`, `untouched`
        ensures ready { IfOk result IsReady }
        ensures limit { IfOk result (λ journal. limit_of journal ≡ self.limit) }
        ensures length { IfOk result (λ journal. length_of journal ≡ self.size) }
        // The walk is at the end of the file, also of a disk that does not report its content.
        ensures whole { OnOk result (self.at + 1 ≡ self.size) }
        ensures version { IfOk result (λ journal. version_of journal ≡ self.header_version) }
        ensures start { IfOk result (λ journal. IsTrue (D.tells self.disk)
            → start_of journal ≡ first_gate (D.content self.disk)) }
        ensures keeps { IfOk result (λ journal. IsTrue (D.tells self.disk)
            → contents (D.content self.disk) ≡ Some (second (payloads_of journal))) }
        ensures content { IfOk result (λ journal. IsTrue (D.tells self.disk)
            → content_of journal ≡ opened_file (D.content self.disk) (length_of journal)) }

        // Only the disk can fail. A disk that doesn't report its content may have lost a record
        // since its frame was tested: then the file is not changed.
        ensures why { IfErr result (λ e. IsTrue (D.tells self.disk) → e.1 ≡ OpenFault.Disk) }
        ensures cause { IfErr result
            (λ e. e.1 ≡ OpenFault.Disk → Rose (D.faults self.disk) (D.faults e.0)) }
        ensures untouched { IfErr result (λ e. e.1 ≢ OpenFault.Disk → e.0 ≡ self.disk) }

        // At each moment of the call a crash leaves what it might have left before, or the same
        // payloads.
        ensures moments { IfOk result (λ journal. IsTrue (D.tells self.disk)
            → AtEachMoment (D.accounts self.disk) (accounts_of journal)
            (IsImageOrHolds (latest (D.accounts self.disk)) (D.content self.disk))) }
        ensures moments_err { IfErr result (λ e. IsTrue (D.tells self.disk)
            → AtEachMoment (D.accounts self.disk) (D.accounts e.0)
            (IsImageOrHolds (latest (D.accounts self.disk)) (D.content self.disk))) }
        // The same payloads, where before it could leave nothing but the content.
        ensures settled { IfOk result (λ journal. IsTrue (D.tells self.disk)
            → AllImages (λ file. file ≡ D.content self.disk) (latest (D.accounts self.disk))
            → AtEachMoment (D.accounts self.disk) (accounts_of journal)
            (λ file. contents file ≡ contents (D.content self.disk))) }
        ensures settled_err { IfErr result (λ e. IsTrue (D.tells self.disk)
            → AllImages (λ file. file ≡ D.content self.disk) (latest (D.accounts self.disk))
            → AtEachMoment (D.accounts self.disk) (D.accounts e.0)
            (λ file. contents file ≡ contents (D.content self.disk))) }
        ensures images { IfOk result (λ journal. IsTrue (D.tells self.disk)
            → AllImages (λ file. contents file ≡ contents (D.content self.disk))
            (latest (accounts_of journal))) }

        // What is cut was put aside before, and nothing else was.
        ensures aside { IfOk result (λ journal. IsTrue (D.tells self.disk) → aside_of journal
            ≡ D.aside self.disk ++ tail_gates (D.content self.disk)) }
        ensures aside_err { IfErr result (λ e. IsTrue (D.tells self.disk)
            → PutsTailAside (D.content self.disk) (D.content e.0)
            (D.accounts self.disk) (D.accounts e.0) (D.aside self.disk) (D.aside e.0)) }

        ensures grows { IfOk result (λ journal. D.faults self.disk ≤ faults_of journal) }
        ensures tells { IfOk result (λ journal. tells_of journal ≡ D.tells self.disk) }
        ensures identity { IfOk result (λ journal. identity_of journal ≡ D.identity self.disk) }
        ensures frame_err { IfErr result
            (λ e. IsLent D.tells D.identity D.faults self.disk e.0) }
    {
        let Walk {
            disk,
            limit,
            extent,
            at,
            passed: _,
            last,
        } = self;
        if at < extent.end {
            return Err((disk, OpenFault::Cut(at)));
        }
        let mut disk = disk;
        match finish_file(&mut disk, extent, last) {
            Ok(()) => Ok(Journal {
                disk,
                size: extent.end + 1,
                limit,
                doubt: None,
                version: extent.version,
                start: extent.start,
            }),
            Err(_) => Err((disk, OpenFault::Disk)),
        }
    }

    /// Makes the file of a journal of the first version ready to be moved, once all payloads were
    /// given: as `finish` does it puts aside and cuts what follows the first closed gate. Then it
    /// writes the mark after that gate, which stays closed. There has to be room for the mark and a
    /// gate. If a call of the disk fails, the disk has counted that and comes back. The file may
    /// then be changed in part.
    pub fn start_move(self, alloc: Global) -> Result<Moving<D>, (D, OpenFault)>
        requires version { self.record_version ≡ 1 }
        requires room { self.size + 6 ≤ self.limit }
        requires all { IsTrue (D.tells self.disk)
            → first_payloads self.given (D.content self.disk)
            ≡ (counted_in (D.content self.disk)).payloads }
        requires comes { IsTrue (D.tells self.disk)
            → Allows D.may_become (IsUnmoved (counted_in (D.content self.disk)).payloads)
            (IsUnmoved (counted_in (D.content self.disk)).payloads) }
        // Promise: A journal of the first version is made ready to be moved only at the end of its
        // walk: what follows its closed gate is put aside and cut, and the mark is written after
        // that gate. At each moment each file that a crash may leave is one that it might have left
        // before, or gives the old payloads
        // - by `moving` (`IsMovingWith`), `waiting`, `places`, `whole`, `moments`, `moments_err`,
        //   `settled`, `settled_err`, `aside`, `aside_err`, `why`, `cause`
        ensures moving { IfOk result (λ moving. IsTrue (D.tells self.disk)
            → IsMovingWith (counted_in (D.content self.disk)).payloads [] (D.content moving.disk)
            moving.waiting (D.accounts moving.disk) moving.gate moving.end) }
        ensures waiting { IfOk result (λ moving. moving.waiting ≡ []) }
        ensures places { IfOk result
            (λ moving. (moving.gate + 1 ≡ self.size) × (moving.end ≡ self.size + 5)) }
        ensures limit { IfOk result (λ moving. moving.limit ≡ self.limit) }
        ensures whole { OnOk result (self.at + 1 ≡ self.size) }

        // Only the disk can fail, as where the file is finished.
        ensures why { IfErr result (λ e. IsTrue (D.tells self.disk) → e.1 ≡ OpenFault.Disk) }
        ensures cause { IfErr result
            (λ e. e.1 ≡ OpenFault.Disk → Rose (D.faults self.disk) (D.faults e.0)) }
        ensures untouched { IfErr result (λ e. e.1 ≢ OpenFault.Disk → e.0 ≡ self.disk) }

        // At each moment of the call a crash leaves what it might have left before, or the same
        // payloads.
        ensures moments { IfOk result (λ moving. IsTrue (D.tells self.disk)
            → AtEachMoment (D.accounts self.disk) (D.accounts moving.disk)
            (IsImageOrUnmoved (latest (D.accounts self.disk))
            (counted_in (D.content self.disk)).payloads)) }
        ensures moments_err { IfErr result (λ e. IsTrue (D.tells self.disk)
            → AtEachMoment (D.accounts self.disk) (D.accounts e.0)
            (IsImageOrUnmoved (latest (D.accounts self.disk))
            (counted_in (D.content self.disk)).payloads)) }
        // The same payloads, where before it could leave nothing but the content.
        ensures settled { IfOk result (λ moving. IsTrue (D.tells self.disk)
            → AllImages (λ file. file ≡ D.content self.disk) (latest (D.accounts self.disk))
            → AtEachMoment (D.accounts self.disk) (D.accounts moving.disk)
            (IsUnmoved (counted_in (D.content self.disk)).payloads)) }
        ensures settled_err { IfErr result (λ e. IsTrue (D.tells self.disk)
            → AllImages (λ file. file ≡ D.content self.disk) (latest (D.accounts self.disk))
            → AtEachMoment (D.accounts self.disk) (D.accounts e.0)
            (IsUnmoved (counted_in (D.content self.disk)).payloads)) }

        // What is cut was put aside before, and nothing else was.
        ensures aside { IfOk result (λ moving. IsTrue (D.tells self.disk) → D.aside moving.disk
            ≡ D.aside self.disk ++ tail_gates (D.content self.disk)) }
        ensures aside_err { IfErr result (λ e. IsTrue (D.tells self.disk)
            → PutsTailAside (D.content self.disk) (D.content e.0)
            (D.accounts self.disk) (D.accounts e.0) (D.aside self.disk) (D.aside e.0)) }

        ensures frame { IfOk result
            (λ moving. IsLent D.tells D.identity D.faults self.disk moving.disk) }
        ensures frame_err { IfErr result
            (λ e. IsLent D.tells D.identity D.faults self.disk e.0) }
    {
        let Walk {
            disk,
            limit,
            extent,
            at,
            passed: _,
            last,
        } = self;
        if at < extent.end {
            return Err((disk, OpenFault::Cut(at)));
        }
        let mut disk = disk;
        if finish_file(&mut disk, extent, last).is_err() {
            return Err((disk, OpenFault::Disk));
        }
        match write_mark(&mut disk, extent.end) {
            Ok(()) => Ok(Moving {
                disk,
                limit,
                gate: extent.end,
                end: extent.end + 6,
                waiting: Vec::new(alloc),
            }),
            Err(_) => Err((disk, OpenFault::Disk)),
        }
    }

    /// The disk as it is. The file is not changed.
    pub fn stop(self) -> D
        ensures { result ≡ self.disk }
    {
        let Walk {
            disk,
            limit: _,
            extent: _,
            at: _,
            passed: _,
            last: _,
        } = self;
        disk
    }
}

/// The payloads that a walk is to give from its start on, with the places of their gates.
pub fn read_all<D: Disk>(alloc: Global, walk: &mut Walk<D>) -> Result<Vec<Payload>, OpenFault>
    requires start { walk.old.given ≡ 0 }
    ensures places { IfOk result
        (λ read. map at_of read.items ≡ places_of walk.old.at (map bytes_of read.items)) }
    ensures bytes { IfOk result (λ read. IsTrue (D.tells walk.old.disk)
        → map bytes_of read.items ≡ first_payloads walk.new.given (D.content walk.old.disk)) }
    // All of them.
    ensures last { OnOk result (IsTrue (D.tells walk.old.disk)
        → first_payloads walk.new.given (D.content walk.old.disk)
        ≡ (counted_in (D.content walk.old.disk)).payloads) }
    ensures versions { (walk.new.header_version ≡ walk.old.header_version)
        × (walk.new.record_version ≡ walk.old.record_version) }
    ensures err { IfErr result
        (IsOfDevice (Rose (D.faults walk.old.disk) (D.faults walk.new.disk))) }
    ensures limit { walk.new.limit ≡ walk.old.limit }
    ensures content { IsTrue (D.tells walk.old.disk)
        → D.content walk.new.disk ≡ D.content walk.old.disk }
    ensures accounts { IsTrue (D.tells walk.old.disk)
        → D.accounts walk.new.disk ≡ D.accounts walk.old.disk }
    ensures aside { IsTrue (D.tells walk.old.disk)
        → D.aside walk.new.disk ≡ D.aside walk.old.disk }
    ensures frame { IsLent D.tells D.identity D.faults walk.old.disk walk.new.disk }
{
    let mut read = Vec::new(alloc);
    'payloads: loop {
        let mut bytes = Vec::new(alloc);
        match walk.next(alloc, &mut bytes) {
            Ok(Some(at)) => read.push(Payload { at, bytes })?,
            Ok(None) => return Ok(read),
            Err(WalkFault::Disk) => return Err(OpenFault::Disk),
            Err(WalkFault::Memory) => return Err(OpenFault::Memory),
        }
    }
}
