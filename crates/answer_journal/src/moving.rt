//! A journal of the first version is moved to records of the second: they are written after its
//! closed gate, many at once, and it is opened once they are on the disk.

ghost use Rattle.std.specs.Prelude.{◌≡◌, ℕ, ◌+◌, ◌-◌, ◌<◌, ◌≤◌, List, [], ◌∷◌, ◌++◌, length, take, get_or, None, Some, IsTrue, IfOk, IfErr, OnOk, OnErr};
ghost use Rattle.std.specs.Int.{to_be_bytes, w32};
ghost use Rattle.std.specs.Option.{ForSome};
ghost use Rattle.exam_edge.specs.Faults.{Rose};
ghost use Rattle.exam_edge.specs.Lent.{IsLent, FailsOnly};
ghost use Rattle.exam_edge.specs.Images.{Allows, AtEachMoment, IsSettled};
ghost use Rattle.answer_journal.specs.Frames.{IsPayload, shadowj1, front};
ghost use Rattle.answer_journal.specs.Moving.{GivesEither, IsMoving, IsMovingWith, IsUnmoved, IsWritten};
ghost use Rattle.answer_journal.specs.Outcome.{OnMoveFull};
ghost use Rattle.answer_journal.specs.Payload.{end_of};
ghost use Rattle.answer_journal.specs.Reading.{IsRoomFor};
ghost use Rattle.answer_journal.specs.Standing.{IsAsLeft, IsAtRest, payload_list};
ghost use Rattle.answer_journal.specs.Versions.{after_mark, contents, mark, second};
ghost use Rattle.answer_journal.specs.Walk.{IsJust};

use crate::WalkFault;
use crate::durable::write_durably;
use crate::frames::{CLOSED, MARK, OPEN};
use crate::walk::read_before;
use exam_edge::{Disk, Failed, Memory};
use std::alloc::Global;
use std::marker::Model;

/// So many bytes of records are written at once, or more: the last record may be longer.
const BATCH: usize = 65_536;

/// Why a record was not added to a journal that is moved. Then only `stop` is left.
#[derive(Clone, Copy, Debug, PartialEq, Eq)]
pub enum MoveFault {
    /// The journal would have this length in bytes, above its limit. Nothing was written.
    Full(u64),
    /// A call of the disk failed, and the disk has counted that. Any part of the records that
    /// waited may be written.
    Disk,
    /// Out of memory. Nothing was written.
    Memory,
}

/// A journal of the first version that is being moved. Its frames and its closed gate are on the
/// disk; after that gate are the mark and the records of the second version so far, which do not
/// count. The last of these records wait in memory until there are many to write. `switch` opens
/// the gate: then only they count.
pub struct Moving<D: Disk> {
    pub(crate) disk: D,
    pub(crate) limit: u64,
    /// The place of the closed gate.
    pub(crate) gate: u64,
    /// The length of the file once the records that wait are written.
    pub(crate) end: u64,
    /// The records that wait, each after an open gate.
    pub(crate) waiting: Vec<u8>,
}

impl<D: Disk> Model for Moving<D> {
    ghost use Rattle.std.specs.Prelude.{◌≤◌, ◌<◌, ◌+◌};
    ghost use Rattle.answer_journal.specs.Moving.{MovingState, ArePlaces};

    ghost Value = { MovingState D };

    ghost view = { λ m. record {
      disk = m.disk;
      limit = m.limit;
      gate = m.gate;
      end = m.end;
      waiting = m.waiting.items;
    } };

    ghost invariant = { λ m. ArePlaces m.limit m.gate m.end m.waiting.items };
}

/// Writes the mark after the closed gate at a place, which ends the file. Nothing is synced, and
/// the gate stays closed.
pub fn write_mark<D: Disk>(disk: &mut D, gate: u64) -> Result<(), Failed>
    requires few { gate < 536870912 }
    requires rest { IsTrue (D.tells disk.old)
        → IsAtRest shadowj1 (D.content disk.old) (D.accounts disk.old) (gate + 1)
        × (after_mark (payload_list shadowj1 (D.content disk.old)) ≡ None) }
    requires comes { IsTrue (D.tells disk.old)
        → Allows D.may_become (IsUnmoved (payload_list shadowj1 (D.content disk.old)))
        (IsUnmoved (payload_list shadowj1 (D.content disk.old))) }
    ensures moving { OnOk result (IsTrue (D.tells disk.old)
        → IsMoving (payload_list shadowj1 (D.content disk.old)) [] (D.content disk.new)
        (D.accounts disk.new) gate (gate + 6)) }
    ensures moments { IsTrue (D.tells disk.old)
        → AtEachMoment (D.accounts disk.old) (D.accounts disk.new)
        (IsUnmoved (payload_list shadowj1 (D.content disk.old))) }
    ensures aside { IsTrue (D.tells disk.old) → D.aside disk.new ≡ D.aside disk.old }
    ensures failed { FailsOnly D.faults disk.old disk.new result }
    ensures frame { IsLent D.tells D.identity D.faults disk.old disk.new }
{
    disk.write_at(gate + 1, &[0, 0, 0, 1, MARK[0]])?;
    Ok(())
}

// Adds a record to those that wait: an open gate, the length of its payload, and the payload. The
// list is as it was if memory runs out.
fn put_record(waiting: &mut Vec<u8>, payload: &[u8]) -> Result<(), Memory>
    requires { IsPayload payload.now }
    ensures added { OnOk result (waiting.new.items ≡ waiting.old.items
        ++ 1 ∷ (to_be_bytes w32 (length payload.now) ++ payload.now)) }
    ensures kept { OnErr result (waiting.new.items ≡ waiting.old.items) }
{
    let count = payload.len() as u32;
    waiting.reserve(5 + payload.len())?;
    waiting.push(OPEN)?;
    waiting.extend_from_slice(&count.to_be_bytes())?;
    waiting.extend_from_slice(payload)?;
    Ok(())
}

// Writes the records that wait at the end of the file, all at once; then it has the length `end`.
// Nothing is synced.
fn write_waiting<D: Disk>(disk: &mut D, end: u64, waiting: &[u8]) -> Result<(), Failed>
    requires within { length waiting.now ≤ end }
    requires moving { IsTrue (D.tells disk.old) → (ps qs : List (List ℕ)) × (gate : ℕ)
        × IsMovingWith ps qs (D.content disk.old) waiting.now (D.accounts disk.old) gate end
        × Allows D.may_become (IsUnmoved ps) (IsUnmoved ps) }
    ensures moving { OnOk result (IsTrue (D.tells disk.old) → (ps qs : List (List ℕ)) (gate : ℕ)
        → IsMovingWith ps qs (D.content disk.old) waiting.now (D.accounts disk.old) gate end
        → IsMoving ps qs (D.content disk.new) (D.accounts disk.new) gate end) }
    ensures moments { IsTrue (D.tells disk.old) → (ps qs : List (List ℕ)) (gate : ℕ)
        → IsMovingWith ps qs (D.content disk.old) waiting.now (D.accounts disk.old) gate end
        → AtEachMoment (D.accounts disk.old) (D.accounts disk.new) (IsUnmoved ps) }
    ensures left { IsTrue (D.tells disk.old) → IsAsLeft (D.accounts disk.new) }
    ensures aside { IsTrue (D.tells disk.old) → D.aside disk.new ≡ D.aside disk.old }
    ensures failed { FailsOnly D.faults disk.old disk.new result }
    ensures frame { IsLent D.tells D.identity D.faults disk.old disk.new }
{
    if waiting.is_empty() {
        return Ok(());
    }
    disk.write_at(end - waiting.len() as u64, waiting)?;
    Ok(())
}

// Writes the records that wait if they are many; then none waits. Nothing is synced.
fn write_batch<D: Disk>(disk: &mut D, end: u64, waiting: &mut Vec<u8>) -> Result<(), Failed>
    requires within { length waiting.old.items ≤ end }
    requires moving { IsTrue (D.tells disk.old) → (ps qs : List (List ℕ)) × (gate : ℕ)
        × IsMovingWith ps qs (D.content disk.old) waiting.old.items (D.accounts disk.old) gate
        end × Allows D.may_become (IsUnmoved ps) (IsUnmoved ps) }
    ensures moving { OnOk result (IsTrue (D.tells disk.old) → (ps qs : List (List ℕ)) (gate : ℕ)
        → IsMovingWith ps qs (D.content disk.old) waiting.old.items (D.accounts disk.old) gate end
        → IsMovingWith ps qs (D.content disk.new) waiting.new.items (D.accounts disk.new) gate
        end) }
    ensures few { OnOk result (length waiting.new.items < 65536) }
    ensures fewer { length waiting.new.items ≤ length waiting.old.items }
    ensures moments { IsTrue (D.tells disk.old) → (ps qs : List (List ℕ)) (gate : ℕ)
        → IsMovingWith ps qs (D.content disk.old) waiting.old.items (D.accounts disk.old) gate end
        → AtEachMoment (D.accounts disk.old) (D.accounts disk.new) (IsUnmoved ps) }
    ensures aside { IsTrue (D.tells disk.old) → D.aside disk.new ≡ D.aside disk.old }
    ensures failed { FailsOnly D.faults disk.old disk.new result }
    ensures frame { IsLent D.tells D.identity D.faults disk.old disk.new }
{
    if waiting.len() < BATCH {
        return Ok(());
    }
    write_waiting(disk, end, waiting)?;
    waiting.clear();
    Ok(())
}

// Writes the closed gate at the end, and syncs: then all of the file is on the disk.
fn close_after<D: Disk>(disk: &mut D, end: u64) -> Result<(), Failed>
    requires moving { IsTrue (D.tells disk.old) → (ps qs : List (List ℕ)) × (gate : ℕ)
        × IsMoving ps qs (D.content disk.old) (D.accounts disk.old) gate end
        × Allows D.may_become (IsUnmoved ps) (IsUnmoved ps) }
    ensures content { OnOk result (IsTrue (D.tells disk.old)
        → D.content disk.new ≡ D.content disk.old ++ 0 ∷ []) }
    ensures settled { OnOk result (IsTrue (D.tells disk.old)
        → IsSettled (D.content disk.new) (D.accounts disk.new)) }
    ensures moments { IsTrue (D.tells disk.old) → (ps qs : List (List ℕ)) (gate : ℕ)
        → IsMoving ps qs (D.content disk.old) (D.accounts disk.old) gate end
        → AtEachMoment (D.accounts disk.old) (D.accounts disk.new) (IsUnmoved ps) }
    ensures left { IsTrue (D.tells disk.old) → IsAsLeft (D.accounts disk.new) }
    ensures aside { IsTrue (D.tells disk.old) → D.aside disk.new ≡ D.aside disk.old }
    ensures failed { FailsOnly D.faults disk.old disk.new result }
    ensures frame { IsLent D.tells D.identity D.faults disk.old disk.new }
{
    write_durably(disk, end, &[CLOSED])?;
    Ok(())
}

// Writes the last records, which wait, and the closed gate after them, and syncs: then all of the
// file is on the disk.
fn write_rest<D: Disk>(disk: &mut D, end: u64, last: &[u8]) -> Result<(), Failed>
    requires within { length last.now ≤ end }
    requires moving { IsTrue (D.tells disk.old) → (ps qs : List (List ℕ)) × (gate : ℕ)
        × IsMovingWith ps qs (D.content disk.old) last.now (D.accounts disk.old) gate end
        × Allows D.may_become (IsUnmoved ps) (IsUnmoved ps) }
    ensures whole { OnOk result (IsTrue (D.tells disk.old) → (ps qs : List (List ℕ)) (gate : ℕ)
        → IsMovingWith ps qs (D.content disk.old) last.now (D.accounts disk.old) gate end
        → IsWritten ps qs (D.content disk.new) (D.accounts disk.new) gate) }
    ensures moments { IsTrue (D.tells disk.old) → (ps qs : List (List ℕ)) (gate : ℕ)
        → IsMovingWith ps qs (D.content disk.old) last.now (D.accounts disk.old) gate end
        → AtEachMoment (D.accounts disk.old) (D.accounts disk.new) (IsUnmoved ps) }
    ensures left { IsTrue (D.tells disk.old) → IsAsLeft (D.accounts disk.new) }
    ensures aside { IsTrue (D.tells disk.old) → D.aside disk.new ≡ D.aside disk.old }
    ensures failed { FailsOnly D.faults disk.old disk.new result }
    ensures frame { IsLent D.tells D.identity D.faults disk.old disk.new }
{
    write_waiting(disk, end, last)?;
    close_after(disk, end)?;
    Ok(())
}

// Opens the closed gate before the mark and the records of the second version, once all of the file
// is on the disk.
fn open_switch<D: Disk>(disk: &mut D, gate: u64) -> Result<(), Failed>
    requires whole { IsTrue (D.tells disk.old) → (ps qs : List (List ℕ))
        × IsWritten ps qs (D.content disk.old) (D.accounts disk.old) gate
        × Allows D.may_become (IsUnmoved ps) (GivesEither ps qs) }
    ensures content { OnOk result (IsTrue (D.tells disk.old) → (ps qs : List (List ℕ))
        → IsWritten ps qs (D.content disk.old) (D.accounts disk.old) gate
        → D.content disk.new ≡ front shadowj1 (ps ++ mark ∷ qs) ++ 0 ∷ []) }
    ensures settled { OnOk result (IsTrue (D.tells disk.old)
        → IsSettled (D.content disk.new) (D.accounts disk.new)) }
    ensures moments { IsTrue (D.tells disk.old) → (ps qs : List (List ℕ))
        → IsWritten ps qs (D.content disk.old) (D.accounts disk.old) gate
        → AtEachMoment (D.accounts disk.old) (D.accounts disk.new) (GivesEither ps qs) }
    ensures left { IsTrue (D.tells disk.old) → IsAsLeft (D.accounts disk.new) }
    ensures aside { IsTrue (D.tells disk.old) → D.aside disk.new ≡ D.aside disk.old }
    ensures failed { FailsOnly D.faults disk.old disk.new result }
    ensures frame { IsLent D.tells D.identity D.faults disk.old disk.new }
{
    write_durably(disk, gate, &[OPEN])?;
    Ok(())
}

impl<D: Disk> Moving<D> {
    /// Reads the payload after the gate at a place of the old journal, which is one of its gates.
    /// `None` exactly at the closed one. Only of a disk that does not report its content the record
    /// may not be there any more: then there is none.
    pub fn read_old(&mut self, alloc: Global, at: u64) -> Result<Option<Vec<u8>>, WalkFault>
        requires gate { at ≤ self.old.gate }
        requires moving { IsTrue (D.tells self.old.disk) → (ps qs : List (List ℕ))
            × IsMovingWith ps qs (D.content self.old.disk) self.old.waiting
            (D.accounts self.old.disk) self.old.gate self.old.end }
        // Promise: While a journal is moved its old records can be read, and new ones are added
        // after the mark, within the limit. Fewer than 65,536 bytes of them wait in memory to be
        // written. At each moment each file that a crash may leave gives the old payloads
        // - of `Moving::read_old`, `Moving::add`
        // - by `payload`, `end`, `added` (`IsMovingWith`), `few`, `memory`, `moments`, `full`,
        //   `fits`
        ensures payload { IfOk result (λ found. IsTrue (D.tells self.old.disk)
            → (ps qs : List (List ℕ)) (k : ℕ) → IsMovingWith ps qs (D.content self.old.disk)
            self.old.waiting (D.accounts self.old.disk) self.old.gate self.old.end → k < length ps
            → at ≡ end_of 8 (take k ps) → IsJust found (λ v. v.items ≡ get_or ps k [])) }
        ensures end { IfOk result (λ found. at ≡ self.old.gate → found ≡ None) }
        ensures room { IfOk result (λ found. ForSome found
            (λ v. IsRoomFor at (self.old.gate + 1) (length v.items))) }
        ensures cause { IfErr result (λ e. e ≡ WalkFault.Disk
            → Rose (D.faults self.old.disk) (D.faults self.new.disk)) }
        ensures content { IsTrue (D.tells self.old.disk)
            → D.content self.new.disk ≡ D.content self.old.disk }
        ensures accounts { IsTrue (D.tells self.old.disk)
            → D.accounts self.new.disk ≡ D.accounts self.old.disk }
        ensures aside { IsTrue (D.tells self.old.disk)
            → D.aside self.new.disk ≡ D.aside self.old.disk }
        ensures places { (self.new.gate ≡ self.old.gate) × (self.new.end ≡ self.old.end)
            × (self.new.limit ≡ self.old.limit) }
        ensures waiting { self.new.waiting ≡ self.old.waiting }
        ensures frame { IsLent D.tells D.identity D.faults self.old.disk self.new.disk }
    {
        let written = self.end - self.waiting.len() as u64;
        read_before(alloc, &mut self.disk, at, self.gate, written)
    }

    /// Adds a record of the second version, of this payload, to those so far. It does not count
    /// yet. It waits in memory, and is written with those that wait once these are many. `Full`
    /// exactly where the file with it and the gate at its end would exceed the journal's limit. At
    /// `Full` and `Memory` nothing was changed; at `Disk` any part of what waited may be written.
    pub fn add(&mut self, payload: &[u8]) -> Result<(), MoveFault>
        requires fits { IsPayload payload.now }
        requires moving { IsTrue (D.tells self.old.disk) → (ps qs : List (List ℕ))
            × IsMovingWith ps qs (D.content self.old.disk) self.old.waiting
            (D.accounts self.old.disk) self.old.gate self.old.end
            × Allows D.may_become (IsUnmoved ps) (IsUnmoved ps) }
        ensures added { OnOk result (IsTrue (D.tells self.old.disk) → (ps qs : List (List ℕ))
            → IsMovingWith ps qs (D.content self.old.disk) self.old.waiting
            (D.accounts self.old.disk) self.old.gate self.old.end
            → IsMovingWith ps (qs ++ payload.now ∷ []) (D.content self.new.disk)
            self.new.waiting (D.accounts self.new.disk) self.new.gate self.new.end) }
        ensures end { OnOk result (self.new.end ≡ self.old.end + 5 + length payload.now) }
        // Few wait: so many are written at once.
        ensures few { OnOk result (length self.new.waiting < 65536) }
        // At each moment a crash leaves the old records.
        ensures moments { IsTrue (D.tells self.old.disk) → (ps qs : List (List ℕ))
            → IsMovingWith ps qs (D.content self.old.disk) self.old.waiting
            (D.accounts self.old.disk) self.old.gate self.old.end
            → AtEachMoment (D.accounts self.old.disk) (D.accounts self.new.disk) (IsUnmoved ps) }
        ensures full { IfErr result
            (λ e. OnMoveFull e (λ n. (n ≡ self.old.end + 6 + length payload.now)
            × (self.old.limit < n) × (self.new ≡ self.old))) }
        ensures fits { self.old.limit < self.old.end + 6 + length payload.now
            → result ≡ Err (MoveFault.Full (self.old.end + 6 + length payload.now)) }
        ensures memory { IfErr result (λ e. e ≡ MoveFault.Memory → self.new ≡ self.old) }
        ensures cause { IfErr result (λ e. e ≡ MoveFault.Disk
            → Rose (D.faults self.old.disk) (D.faults self.new.disk)) }
        ensures gate { (self.new.gate ≡ self.old.gate) × (self.new.limit ≡ self.old.limit) }
        ensures aside { IsTrue (D.tells self.old.disk)
            → D.aside self.new.disk ≡ D.aside self.old.disk }
        ensures frame { IsLent D.tells D.identity D.faults self.old.disk self.new.disk }
    {
        let with_it = self.end + 6 + payload.len() as u64;
        if self.limit < with_it {
            return Err(MoveFault::Full(with_it));
        }
        if put_record(&mut self.waiting, payload).is_err() {
            return Err(MoveFault::Memory);
        }
        self.end = with_it - 1;
        if write_batch(&mut self.disk, self.end, &mut self.waiting).is_err() {
            return Err(MoveFault::Disk);
        }
        Ok(())
    }

    /// Writes the records that wait and the gate at the end, syncs, opens the closed gate, and
    /// syncs: from then on the records after the mark count, and those before it do not. If a call
    /// of the disk fails, the disk has counted that and comes back, and either may count.
    pub fn switch(self) -> Result<D, D>
        requires { IsTrue (D.tells self.disk) → (ps qs : List (List ℕ))
            × IsMovingWith ps qs (D.content self.disk) self.waiting (D.accounts self.disk)
            self.gate self.end × Allows D.may_become (IsUnmoved ps) (GivesEither ps qs) }
        // Promise: The switch makes only the new records count. At each moment each file that a
        // crash may leave gives the old payloads by the first version, or the new ones by the
        // second; after `Ok` it gives the new ones, and the file has the stated bytes
        // - by `moved`, `content`, `settled`, `moments`, `moments_err` (`GivesEither`), `left_err`
        ensures moved { IfOk result (λ disk. IsTrue (D.tells self.disk)
            → (ps qs : List (List ℕ)) → IsMovingWith ps qs (D.content self.disk)
            self.waiting (D.accounts self.disk) self.gate self.end
            → contents (D.content disk) ≡ Some (second qs)) }
        ensures content { IfOk result (λ disk. IsTrue (D.tells self.disk)
            → (ps qs : List (List ℕ)) → IsMovingWith ps qs (D.content self.disk)
            self.waiting (D.accounts self.disk) self.gate self.end
            → D.content disk ≡ front shadowj1 (ps ++ mark ∷ qs) ++ 0 ∷ []) }
        ensures length { IfOk result (λ disk. IsTrue (D.tells self.disk)
            → length (D.content disk) ≡ self.end + 1) }
        ensures settled { IfOk result (λ disk. IsTrue (D.tells self.disk)
            → IsSettled (D.content disk) (D.accounts disk)) }
        // At each moment each file that a crash may leave gives the old records or the new ones.
        ensures moments { IfOk result (λ disk. IsTrue (D.tells self.disk)
            → (ps qs : List (List ℕ)) → IsMovingWith ps qs (D.content self.disk)
            self.waiting (D.accounts self.disk) self.gate self.end
            → AtEachMoment (D.accounts self.disk) (D.accounts disk) (GivesEither ps qs)) }
        ensures moments_err { IfErr result (λ disk. IsTrue (D.tells self.disk)
            → (ps qs : List (List ℕ)) → IsMovingWith ps qs (D.content self.disk)
            self.waiting (D.accounts self.disk) self.gate self.end
            → AtEachMoment (D.accounts self.disk) (D.accounts disk) (GivesEither ps qs)) }
        ensures left_err { IfErr result
            (λ disk. IsTrue (D.tells self.disk) → IsAsLeft (D.accounts disk)) }
        ensures cause { IfErr result (λ disk. Rose (D.faults self.disk) (D.faults disk)) }
        ensures aside { IfOk result (λ disk. IsTrue (D.tells self.disk)
            → D.aside disk ≡ D.aside self.disk) }
        ensures aside_err { IfErr result (λ disk. IsTrue (D.tells self.disk)
            → D.aside disk ≡ D.aside self.disk) }
        ensures frame { IfOk result
            (λ disk. IsLent D.tells D.identity D.faults self.disk disk) }
        ensures frame_err { IfErr result
            (λ disk. IsLent D.tells D.identity D.faults self.disk disk) }
    {
        let Moving {
            disk,
            limit: _,
            gate,
            end,
            waiting,
        } = self;
        let mut disk = disk;
        if write_rest(&mut disk, end, &waiting).is_err() {
            return Err(disk);
        }
        match open_switch(&mut disk, gate) {
            Ok(()) => Ok(disk),
            Err(_) => Err(disk),
        }
    }

    /// The length of the file once the records that wait are written, in bytes.
    pub fn length(&self) -> u64
        // Promise: The length of the file is known; a move may be given up, and its disk be opened
        // again
        // - of `Moving::length`, `Moving::stop`
        // - by `length`, `disk`, `left`
        ensures length { result ≡ self.now.end }
        ensures few { result ≤ 536870918 }
    {
        self.end
    }

    /// The disk as it is, without the records that wait. The closed gate is closed, and the old
    /// records count.
    pub fn stop(self) -> D
        ensures disk { result ≡ self.disk }
        ensures left { IsTrue (D.tells self.disk) → (ps qs : List (List ℕ))
            → IsMovingWith ps qs (D.content self.disk) self.waiting (D.accounts self.disk)
            self.gate self.end → IsAsLeft (D.accounts result) }
    {
        let Moving {
            disk,
            limit: _,
            gate: _,
            end: _,
            waiting: _,
        } = self;
        disk
    }
}
