//! How a journal of the first version is moved to the second. What is not changed up to the end is
//! the old records and their closed gate: the new ones are written after it, and count once the
//! journal opens that gate.

ghost use Rattle.std.specs.Prelude.{◌≡◌, ◌≢◌, ◌⊎◌, ◌+◌, ◌<◌, ◌≤◌, ◌^◌, ℕ, List, [], ◌∷◌, ◌++◌, length, map, Some, None, IsTrue, IfOk, IfErr, OnOk};
ghost use Rattle.exam_edge.specs.Faults.{Rose};
ghost use Rattle.exam_edge.specs.Lent.{IsLent};
ghost use Rattle.exam_edge.specs.Images.{AllImages, Allows, AtEachMoment, IsClean, IsImage, IsSettled, latest};
ghost use Rattle.form_model.specs.Validity.{IsPlanFor};
ghost use Rattle.history_model.specs.declared.entry.Entry.{Entry};
ghost use Rattle.history_model.specs.Judging.{Record, MayFollow};
ghost use Rattle.answer_journal.specs.Frames.{IsPayload};
ghost use Rattle.answer_journal.specs.Moving.{IsImageOrUnmoved, IsMovingWith, IsUnmoved};
ghost use Rattle.answer_journal.specs.Payload.{end_of};
ghost use Rattle.answer_journal.specs.Opening.{PutsTailAside, tail_gates};
ghost use Rattle.answer_journal.specs.Standing.{IsAsLeft, IsBeingSwitched};
ghost use Rattle.answer_journal.specs.Versions.{contents, counted_in};
ghost use Rattle.answer_journal.specs.Walk.{first_gate, first_payloads};
ghost use Rattle.exam_office.specs.declared.fault.OpenFault.TheVariants.{Disk as OfDisk, Memory as OfMemory};
ghost use Rattle.exam_office.specs.declared.migrating.MigrateFault.TheVariants.{Disk as NoDisk, Memory as NoMemory};
ghost use Rattle.exam_records.specs.Shape.{HasNoList, IsRecord};
ghost use Rattle.exam_office.specs.Files.{payload_in, IsImageOrStands, Stands, StandsSecond};
ghost use Rattle.exam_office.specs.Allowing.{AllowsHistories};
ghost use Rattle.exam_office.specs.Opening.{IsNotTaken, IsReadAnswer};
ghost use Rattle.exam_office.specs.Migrating.{AreMeasured, IsLeft, IsMigrateAnswer, IsMigrated, IsMoved, IsMovedUpTo, IsOfContent, IsOldFile, IsOpenOfFile, IsTakenOver, moved_file, moved_tail};

use crate::fault::OpenFault;
use crate::taking::{follow, journal_fault, read_record, take_history};
use answer_journal::{Journal, MoveFault, Moving, OpenFault as JournalFault, Walk, WalkFault};
use bank_tables::Bank;
use constraint_model::Spec;
use exam_edge::Disk;
use exam_records::{Record, RecordFault, encode, growth};
use exam_session::Book;
use std::alloc::Global;

/// What a migration did: how many records it wrote, and the length of the file now, in bytes.
#[derive(Clone, Copy, Debug, PartialEq, Eq)]
pub struct Moved {
    /// The records that were written by the second version; none where the file had such records
    /// already.
    pub records: u64,
    /// The length of the file, in bytes.
    pub length: u64,
}

/// Why a journal was not moved.
#[derive(Clone, Copy, Debug, PartialEq, Eq)]
pub enum MigrateFault {
    /// The journal was not opened. The fault is none of `Version`, `Disk` and `Memory`. Nothing was
    /// written.
    Open(OpenFault),
    /// The journal would have this length in bytes, above its limit. Nothing was written.
    Full(u64),
    /// A call of the disk failed, and the disk has counted that.
    Disk,
    /// Out of memory. What was written does not count.
    Memory,
}

/// The fault of a migration for one of opening.
fn migrate_fault(fault: OpenFault) -> MigrateFault
    ensures { result ≡ Rattle.exam_office.specs.Migrating.migrate_fault fault }
{
    match fault {
        OpenFault::Disk => MigrateFault::Disk,
        OpenFault::Memory => MigrateFault::Memory,
        _ => MigrateFault::Open(fault),
    }
}

/// Takes the record of a payload of the first version into the book, where it may follow.
fn take_old(alloc: Global, at: u64, payload: &[u8], book: &mut Book) -> Result<Record, OpenFault>
    ensures bank { book.new.bank ≡ book.old.bank }
    ensures plan { book.new.plan ≡ book.old.plan }
    ensures spells { IfOk result IsRecord }
    ensures unlisted { IfOk result (λ rec. HasNoList rec.entry) }
    ensures spelling { IfOk result
        (λ rec. payload_in book.old.bank book.old.plan 1 rec ≡ payload.now) }
    ensures may { IfOk result
        (λ rec. MayFollow book.old.bank book.old.plan book.old.entries rec.entry rec.tree) }
    ensures entries { IfOk result
        (λ rec. book.new.entries ≡ book.old.entries ++ rec.entry ∷ []) }
    ensures refused { IfErr result
        (IsNotTaken book.old.bank book.old.plan 1 book.old.entries at payload.now) }
{
    let rec = match read_record(alloc, 1, payload, book) {
        Ok(rec) => rec,
        Err(RecordFault::Memory) => return Err(OpenFault::Memory),
        Err(fault) => return Err(OpenFault::BadRecord(at, fault)),
    };
    match follow(alloc, at, &rec, book) {
        Ok(()) => Ok(rec),
        Err(fault) => Err(fault),
    }
}

/// Takes the record of a payload of the first version into the book, where it may follow, and gives
/// the length of its payload by the second version.
fn take_length(alloc: Global, at: u64, payload: &[u8], book: &mut Book) -> Result<u64, OpenFault>
    ensures bank { book.new.bank ≡ book.old.bank }
    ensures plan { book.new.plan ≡ book.old.plan }
    ensures taken { IfOk result (λ size. (second : List ℕ) × (length second ≡ size)
        × IsTakenOver book.old.bank book.old.plan book.old.entries payload.now book.new.entries
        second) }
    ensures few { IfOk result (λ size. size ≤ length payload.now + 449) }
    ensures refused { IfErr result
        (IsNotTaken book.old.bank book.old.plan 1 book.old.entries at payload.now) }
{
    match take_old(alloc, at, payload, book) {
        Ok(rec) => Ok(payload.len() as u64 + growth(&rec.entry)),
        Err(fault) => Err(fault),
    }
}

/// Takes the record of a payload of the first version into the book, where it may follow, and gives
/// its payload by the second version.
fn take_over(alloc: Global, at: u64, payload: &[u8], book: &mut Book) -> Result<Vec<u8>, OpenFault>
    ensures bank { book.new.bank ≡ book.old.bank }
    ensures plan { book.new.plan ≡ book.old.plan }
    ensures taken { IfOk result (λ second. IsTakenOver book.old.bank book.old.plan
        book.old.entries payload.now book.new.entries second.items) }
    ensures some { IfOk result (λ second. 0 < length second.items) }
    ensures few { IfOk result (λ second. length second.items ≤ 98885) }
    ensures refused { IfErr result
        (IsNotTaken book.old.bank book.old.plan 1 book.old.entries at payload.now) }
{
    let rec = match take_old(alloc, at, payload, book) {
        Ok(rec) => rec,
        Err(fault) => return Err(fault),
    };
    match encode(alloc, &rec) {
        Ok(second) => Ok(second),
        Err(_) => Err(OpenFault::Memory),
    }
}

/// Takes the records of a file of the first version into an empty book, with one in memory, and
/// gives how many bytes their frames have by the second version.
fn measure_records<D: Disk>(
    alloc: Global,
    walk: &mut Walk<D>,
    book: &mut Book,
) -> Result<u64, OpenFault>
    requires start { walk.old.given ≡ 0 }
    requires place { IsTrue (D.tells walk.old.disk)
        → walk.old.at ≡ first_gate (D.content walk.old.disk) }
    requires first { IsTrue (D.tells walk.old.disk)
        → (counted_in (D.content walk.old.disk)).version ≡ 1 }
    requires gives { IsTrue (D.tells walk.old.disk) → contents (D.content walk.old.disk)
        ≡ Some (counted_in (D.content walk.old.disk)) }
    requires few { walk.old.size ≤ 536870912 }
    requires empty { book.old.entries ≡ [] }
    ensures measured { IfOk result (AreMeasured book.old.bank book.old.plan walk.old.at
        (D.tells walk.old.disk) (D.content walk.old.disk) walk.new.given walk.new.at
        book.new.entries) }
    ensures few { IfOk result (λ total. total < 2 ^ 43) }
    // All of them.
    ensures last { OnOk result (IsTrue (D.tells walk.old.disk)
        → first_payloads walk.new.given (D.content walk.old.disk)
        ≡ (counted_in (D.content walk.old.disk)).payloads) }
    ensures whole { OnOk result (IsTrue (D.tells walk.old.disk)
        → walk.new.at + 1 ≡ walk.new.size) }
    ensures why { IfErr result (λ e. IsTrue (D.tells walk.old.disk)
        → IsReadAnswer book.old.bank book.old.plan (D.content walk.old.disk) e) }
    ensures cause { IfErr result (λ e. e ≡ OfDisk
        → Rose (D.faults walk.old.disk) (D.faults walk.new.disk)) }
    ensures limit { walk.new.limit ≡ walk.old.limit }
    ensures size { walk.new.size ≡ walk.old.size }
    ensures version { walk.new.record_version ≡ walk.old.record_version }
    ensures content { IsTrue (D.tells walk.old.disk)
        → D.content walk.new.disk ≡ D.content walk.old.disk }
    ensures accounts { IsTrue (D.tells walk.old.disk)
        → D.accounts walk.new.disk ≡ D.accounts walk.old.disk }
    ensures aside { IsTrue (D.tells walk.old.disk)
        → D.aside walk.new.disk ≡ D.aside walk.old.disk }
    ensures frame { IsLent D.tells D.identity D.faults walk.old.disk walk.new.disk }
{
    let mut payload = Vec::new(alloc);
    let mut total = 0;
    'records: loop {
        match walk.next(alloc, &mut payload) {
            Ok(Some(at)) => match take_length(alloc, at, &payload, book) {
                Ok(size) => total += 5 + size,
                Err(fault) => return Err(fault),
            },
            Ok(None) => return Ok(total),
            Err(WalkFault::Disk) => return Err(OpenFault::Disk),
            Err(WalkFault::Memory) => return Err(OpenFault::Memory),
        }
    }
}

/// Judges each record of a file of the first version that is walked over, and gives the length of
/// the file once it is moved. It writes nothing.
fn moved_length<D: Disk>(
    alloc: Global,
    bank: &Bank,
    spec: &Spec,
    walk: &mut Walk<D>,
) -> Result<u64, OpenFault>
    requires plan { IsPlanFor bank.now spec.now }
    requires start { walk.old.given ≡ 0 }
    requires place { IsTrue (D.tells walk.old.disk)
        → walk.old.at ≡ first_gate (D.content walk.old.disk) }
    requires first { IsTrue (D.tells walk.old.disk)
        → (counted_in (D.content walk.old.disk)).version ≡ 1 }
    requires gives { IsTrue (D.tells walk.old.disk) → contents (D.content walk.old.disk)
        ≡ Some (counted_in (D.content walk.old.disk)) }
    ensures room { IfOk result (λ size. walk.old.size + 6 ≤ size) }
    ensures old { IfOk result (λ size. IsTrue (D.tells walk.old.disk)
        → (old : IsOldFile bank.now spec.now (D.content walk.old.disk))
        × (size ≡ length (moved_file bank.now spec.now old.records))) }
    // All of them.
    ensures last { OnOk result (IsTrue (D.tells walk.old.disk)
        → first_payloads walk.new.given (D.content walk.old.disk)
        ≡ (counted_in (D.content walk.old.disk)).payloads) }
    ensures why { IfErr result (λ e. IsTrue (D.tells walk.old.disk)
        → IsReadAnswer bank.now spec.now (D.content walk.old.disk) e) }
    ensures cause { IfErr result (λ e. e ≡ OfDisk
        → Rose (D.faults walk.old.disk) (D.faults walk.new.disk)) }
    ensures limit { walk.new.limit ≡ walk.old.limit }
    ensures size { walk.new.size ≡ walk.old.size }
    ensures version { walk.new.record_version ≡ walk.old.record_version }
    ensures content { IsTrue (D.tells walk.old.disk)
        → D.content walk.new.disk ≡ D.content walk.old.disk }
    ensures accounts { IsTrue (D.tells walk.old.disk)
        → D.accounts walk.new.disk ≡ D.accounts walk.old.disk }
    ensures aside { IsTrue (D.tells walk.old.disk)
        → D.aside walk.new.disk ≡ D.aside walk.old.disk }
    ensures frame { IsLent D.tells D.identity D.faults walk.old.disk walk.new.disk }
{
    let mut book = match Book::new(alloc, bank, spec) {
        Ok(book) => book,
        Err(_) => return Err(OpenFault::Memory),
    };
    let length = walk.length();
    match measure_records(alloc, walk, &mut book) {
        Ok(total) => Ok(length + 6 + total),
        Err(fault) => Err(fault),
    }
}

/// The payload after a gate of the old records before the closed one.
fn read_old<D: Disk>(alloc: Global, moving: &mut Moving<D>, at: u64) -> Result<Vec<u8>, OpenFault>
    requires before { at ≤ moving.old.gate }
    requires moving { IsTrue (D.tells moving.old.disk) → (ps qs : List (List ℕ))
        × IsMovingWith ps qs (D.content moving.old.disk) moving.old.waiting
        (D.accounts moving.old.disk) moving.old.gate moving.old.end }
    ensures payload { IfOk result (λ payload. IsTrue (D.tells moving.old.disk)
        → (before after qs : List (List ℕ)) (p : List ℕ) → IsMovingWith (before ++ p ∷ after) qs
        (D.content moving.old.disk) moving.old.waiting (D.accounts moving.old.disk)
        moving.old.gate moving.old.end
        → at ≡ end_of 8 before → payload.items ≡ p) }
    ensures within { IfOk result (λ payload. at + 5 + length payload.items ≤ moving.old.gate) }
    ensures why { IfErr result (λ e. IsTrue (D.tells moving.old.disk)
        → (before after qs : List (List ℕ)) (p : List ℕ) → IsMovingWith (before ++ p ∷ after) qs
        (D.content moving.old.disk) moving.old.waiting (D.accounts moving.old.disk)
        moving.old.gate moving.old.end
        → at ≡ end_of 8 before → (e ≡ OfDisk) ⊎ (e ≡ OfMemory)) }
    ensures cause { IfErr result (λ e. e ≡ OfDisk
        → Rose (D.faults moving.old.disk) (D.faults moving.new.disk)) }
    ensures content { IsTrue (D.tells moving.old.disk)
        → D.content moving.new.disk ≡ D.content moving.old.disk }
    ensures accounts { IsTrue (D.tells moving.old.disk)
        → D.accounts moving.new.disk ≡ D.accounts moving.old.disk }
    ensures places { (moving.new.gate ≡ moving.old.gate) × (moving.new.end ≡ moving.old.end)
        × (moving.new.limit ≡ moving.old.limit) }
    ensures waiting { moving.new.waiting ≡ moving.old.waiting }
    ensures aside { IsTrue (D.tells moving.old.disk)
        → D.aside moving.new.disk ≡ D.aside moving.old.disk }
    ensures frame { IsLent D.tells D.identity D.faults moving.old.disk moving.new.disk }
{
    match moving.read_old(alloc, at) {
        Ok(Some(payload)) => Ok(payload),
        Ok(None) => Err(OpenFault::Journal(JournalFault::Cut(at))),
        Err(WalkFault::Disk) => Err(OpenFault::Disk),
        Err(WalkFault::Memory) => Err(OpenFault::Memory),
    }
}

/// Adds a payload of the second version to those so far.
fn add_record<D: Disk>(moving: &mut Moving<D>, payload: &[u8]) -> Result<(), MigrateFault>
    requires fits { IsPayload payload.now }
    requires moving { IsTrue (D.tells moving.old.disk) → (ps qs : List (List ℕ))
        × IsMovingWith ps qs (D.content moving.old.disk) moving.old.waiting
        (D.accounts moving.old.disk) moving.old.gate moving.old.end
        × Allows D.may_become (IsUnmoved ps) (IsUnmoved ps) }
    ensures added { OnOk result (IsTrue (D.tells moving.old.disk) → (ps qs : List (List ℕ))
        → IsMovingWith ps qs (D.content moving.old.disk) moving.old.waiting
        (D.accounts moving.old.disk) moving.old.gate moving.old.end
        → IsMovingWith ps (qs ++ payload.now ∷ []) (D.content moving.new.disk)
        moving.new.waiting (D.accounts moving.new.disk) moving.new.gate moving.new.end) }
    ensures moments { IsTrue (D.tells moving.old.disk) → (ps qs : List (List ℕ))
        → IsMovingWith ps qs (D.content moving.old.disk) moving.old.waiting
        (D.accounts moving.old.disk) moving.old.gate moving.old.end
        → AtEachMoment (D.accounts moving.old.disk) (D.accounts moving.new.disk)
        (IsImageOrUnmoved (latest (D.accounts moving.old.disk)) ps) }
    // Unless the disk failed, nothing was written.
    ensures kept { IfErr result (λ e. e ≢ NoDisk → IsTrue (D.tells moving.old.disk)
        → D.content moving.new.disk ≡ D.content moving.old.disk) }
    ensures why { IfErr result (λ e. moving.old.end + 6 + length payload.now ≤ moving.old.limit
        → (e ≡ NoDisk) ⊎ (e ≡ NoMemory)) }
    ensures cause { IfErr result (λ e. e ≡ NoDisk
        → Rose (D.faults moving.old.disk) (D.faults moving.new.disk)) }
    ensures open { IfErr result IsOpenOfFile }
    ensures places { (moving.new.gate ≡ moving.old.gate)
        × (moving.new.limit ≡ moving.old.limit) }
    ensures aside { IsTrue (D.tells moving.old.disk)
        → D.aside moving.new.disk ≡ D.aside moving.old.disk }
    ensures frame { IsLent D.tells D.identity D.faults moving.old.disk moving.new.disk }
{
    match moving.add(payload) {
        Ok(()) => Ok(()),
        Err(MoveFault::Full(size)) => Err(MigrateFault::Full(size)),
        Err(MoveFault::Disk) => Err(MigrateFault::Disk),
        Err(MoveFault::Memory) => Err(MigrateFault::Memory),
    }
}

/// Adds the record after a gate of the old records by the second version, and takes it into the
/// book. It gives the place of the next gate.
fn move_record<D: Disk>(
    alloc: Global,
    at: u64,
    book: &mut Book,
    moving: &mut Moving<D>,
) -> Result<u64, MigrateFault>
    requires few { moving.old.gate ≤ 536870912 }
    requires before { at < moving.old.gate }
    requires so_far { IsTrue (D.tells moving.old.disk) → (R done : List Record)
        × IsMovedUpTo book.old.bank book.old.plan R done (D.content moving.old.disk)
        moving.old.waiting (D.accounts moving.old.disk) moving.old.gate moving.old.end
        book.old.entries at }
    requires allows { AllowsHistories book.old.bank book.old.plan D.may_become }
    ensures bank { book.new.bank ≡ book.old.bank }
    ensures plan { book.new.plan ≡ book.old.plan }
    ensures moved { IfOk result (λ next. IsTrue (D.tells moving.old.disk)
        → (R done : List Record) → IsMovedUpTo book.old.bank book.old.plan R done
        (D.content moving.old.disk) moving.old.waiting (D.accounts moving.old.disk)
        moving.old.gate moving.old.end book.old.entries at
        → (r : Record) × IsMovedUpTo book.old.bank book.old.plan R (done ++ r ∷ [])
        (D.content moving.new.disk) moving.new.waiting (D.accounts moving.new.disk)
        moving.new.gate moving.new.end book.new.entries next) }
    ensures next { IfOk result (λ next. (at < next) × (next ≤ moving.old.gate)) }
    ensures moments { IsTrue (D.tells moving.old.disk) → (R done : List Record)
        → IsMovedUpTo book.old.bank book.old.plan R done (D.content moving.old.disk)
        moving.old.waiting (D.accounts moving.old.disk) moving.old.gate moving.old.end
        book.old.entries at
        → AtEachMoment (D.accounts moving.old.disk) (D.accounts moving.new.disk)
        (IsImageOrUnmoved (latest (D.accounts moving.old.disk))
        (map (payload_in book.old.bank book.old.plan 1) R)) }
    // Unless the disk failed, nothing was written.
    ensures kept { IfErr result (λ e. e ≢ NoDisk → IsTrue (D.tells moving.old.disk)
        → D.content moving.new.disk ≡ D.content moving.old.disk) }
    ensures why { IfErr result (λ e. IsTrue (D.tells moving.old.disk)
        → (R done : List Record) → IsMovedUpTo book.old.bank book.old.plan R done
        (D.content moving.old.disk) moving.old.waiting (D.accounts moving.old.disk)
        moving.old.gate moving.old.end book.old.entries at
        → length (moved_file book.old.bank book.old.plan R) ≤ moving.old.limit
        → (e ≡ NoDisk) ⊎ (e ≡ NoMemory)) }
    ensures cause { IfErr result (λ e. e ≡ NoDisk
        → Rose (D.faults moving.old.disk) (D.faults moving.new.disk)) }
    ensures open { IfErr result IsOpenOfFile }
    ensures places { (moving.new.gate ≡ moving.old.gate)
        × (moving.new.limit ≡ moving.old.limit) }
    ensures aside { IsTrue (D.tells moving.old.disk)
        → D.aside moving.new.disk ≡ D.aside moving.old.disk }
    ensures frame { IsLent D.tells D.identity D.faults moving.old.disk moving.new.disk }
{
    let payload = match read_old(alloc, moving, at) {
        Ok(payload) => payload,
        Err(fault) => return Err(migrate_fault(fault)),
    };
    let second = match take_over(alloc, at, &payload, book) {
        Ok(second) => second,
        Err(fault) => return Err(migrate_fault(fault)),
    };
    match add_record(moving, &second) {
        Ok(()) => Ok(at + 5 + payload.len() as u64),
        Err(fault) => Err(fault),
    }
}

/// Adds each of the old records, up to the closed gate at this place, by the second version, with
/// one in memory beside those that wait to be written. The book is empty.
fn move_records<D: Disk>(
    alloc: Global,
    gate: u64,
    book: &mut Book,
    moving: &mut Moving<D>,
) -> Result<(), MigrateFault>
    requires gate { gate ≡ moving.old.gate }
    requires few { gate ≤ 536870912 }
    requires start { IsTrue (D.tells moving.old.disk) → (R : List Record)
        × IsMovedUpTo book.old.bank book.old.plan R [] (D.content moving.old.disk)
        moving.old.waiting (D.accounts moving.old.disk) moving.old.gate moving.old.end
        book.old.entries 8 }
    requires allows { AllowsHistories book.old.bank book.old.plan D.may_become }
    ensures moved { OnOk result (IsTrue (D.tells moving.old.disk) → (R : List Record)
        → IsMovedUpTo book.old.bank book.old.plan R [] (D.content moving.old.disk)
        moving.old.waiting (D.accounts moving.old.disk) moving.old.gate moving.old.end
        book.old.entries 8
        → (at : ℕ) × IsMovedUpTo book.old.bank book.old.plan R R (D.content moving.new.disk)
        moving.new.waiting (D.accounts moving.new.disk) moving.new.gate moving.new.end
        book.new.entries at) }
    ensures moments { IsTrue (D.tells moving.old.disk) → (R : List Record)
        → IsMovedUpTo book.old.bank book.old.plan R [] (D.content moving.old.disk)
        moving.old.waiting (D.accounts moving.old.disk) moving.old.gate moving.old.end
        book.old.entries 8
        → AtEachMoment (D.accounts moving.old.disk) (D.accounts moving.new.disk)
        (IsImageOrUnmoved (latest (D.accounts moving.old.disk))
        (map (payload_in book.old.bank book.old.plan 1) R)) }
    ensures kept { IfErr result (λ e. e ≢ NoDisk → IsTrue (D.tells moving.old.disk)
        → (R : List Record)
        → IsMovedUpTo book.old.bank book.old.plan R [] (D.content moving.old.disk)
        moving.old.waiting (D.accounts moving.old.disk) moving.old.gate moving.old.end
        book.old.entries 8
        → IsUnmoved (map (payload_in book.old.bank book.old.plan 1) R)
        (D.content moving.new.disk)) }
    ensures why { IfErr result (λ e. IsTrue (D.tells moving.old.disk) → (R : List Record)
        → IsMovedUpTo book.old.bank book.old.plan R [] (D.content moving.old.disk)
        moving.old.waiting (D.accounts moving.old.disk) moving.old.gate moving.old.end
        book.old.entries 8
        → length (moved_file book.old.bank book.old.plan R) ≤ moving.old.limit
        → (e ≡ NoDisk) ⊎ (e ≡ NoMemory)) }
    ensures cause { IfErr result (λ e. e ≡ NoDisk
        → Rose (D.faults moving.old.disk) (D.faults moving.new.disk)) }
    ensures open { IfErr result IsOpenOfFile }
    ensures aside { IsTrue (D.tells moving.old.disk)
        → D.aside moving.new.disk ≡ D.aside moving.old.disk }
    ensures frame { IsLent D.tells D.identity D.faults moving.old.disk moving.new.disk }
{
    let mut at = 8;
    'records: while at < gate {
        match move_record(alloc, at, book, moving) {
            Ok(next) => at = next,
            Err(fault) => return Err(fault),
        }
    }
    Ok(())
}

/// Moves a journal of the first version whose records were judged, and that is within the limit
/// once it is moved.
fn move_judged<D: Disk>(
    alloc: Global,
    bank: &Bank,
    spec: &Spec,
    walk: Walk<D>,
) -> Result<(Moved, D), (D, MigrateFault)>
    requires plan { IsPlanFor bank.now spec.now }
    requires version { walk.record_version ≡ 1 }
    requires room { walk.size + 6 ≤ walk.limit }
    requires all { IsTrue (D.tells walk.disk) → first_payloads walk.given (D.content walk.disk)
        ≡ (counted_in (D.content walk.disk)).payloads }
    requires old { IsTrue (D.tells walk.disk)
        → (old : IsOldFile bank.now spec.now (D.content walk.disk))
        × (length (moved_file bank.now spec.now old.records) ≤ walk.limit) }
    requires allows { AllowsHistories bank.now spec.now D.may_become }
    ensures moved { IfOk result (λ done. IsTrue (D.tells walk.disk)
        → IsMoved bank.now spec.now (D.content walk.disk) (D.content done.1)
        (D.accounts done.1) done.0) }
    ensures stands { IfOk result (λ done. IsTrue (D.tells walk.disk) → (H : List Entry)
        → Stands bank.now spec.now H (D.content walk.disk)
        → StandsSecond bank.now spec.now H (D.content done.1)) }
    ensures length { IfOk result (λ done. IsTrue (D.tells walk.disk)
        → done.0.length ≡ length (D.content done.1)) }
    ensures limit { IfOk result (λ done. IsTrue (D.tells walk.disk)
        → length (D.content done.1) ≤ walk.limit) }
    ensures moments { IfOk result (λ done. IsTrue (D.tells walk.disk) → (H : List Entry)
        → Stands bank.now spec.now H (D.content walk.disk)
        → AtEachMoment (D.accounts walk.disk) (D.accounts done.1)
        (IsImageOrStands bank.now spec.now H (latest (D.accounts walk.disk)))) }
    ensures moments_err { IfErr result (λ e. IsTrue (D.tells walk.disk) → (H : List Entry)
        → Stands bank.now spec.now H (D.content walk.disk)
        → AtEachMoment (D.accounts walk.disk) (D.accounts e.0)
        (IsImageOrStands bank.now spec.now H (latest (D.accounts walk.disk)))) }
    ensures why { IfErr result (λ e. IsTrue (D.tells walk.disk)
        → (e.1 ≡ NoDisk) ⊎ (e.1 ≡ NoMemory)) }
    ensures kept { IfErr result (λ e. e.1 ≢ NoDisk → IsTrue (D.tells walk.disk)
        → IsUnmoved (counted_in (D.content walk.disk)).payloads (D.content e.0)) }
    ensures aside { IfOk result (λ done. IsTrue (D.tells walk.disk)
        → D.aside done.1 ≡ D.aside walk.disk ++ tail_gates (D.content walk.disk)) }
    ensures aside_err { IfErr result (λ e. IsTrue (D.tells walk.disk)
        → PutsTailAside (D.content walk.disk) (D.content e.0)
        (D.accounts walk.disk) (D.accounts e.0) (D.aside walk.disk) (D.aside e.0)) }
    ensures cause { IfErr result
        (λ e. e.1 ≡ NoDisk → Rose (D.faults walk.disk) (D.faults e.0)) }
    ensures open { IfErr result (λ e. IsOpenOfFile e.1) }
    ensures frame { IfOk result
        (λ done. IsLent D.tells D.identity D.faults walk.disk done.1) }
    ensures frame_err { IfErr result
        (λ e. IsLent D.tells D.identity D.faults walk.disk e.0) }
{
    let mut book = match Book::new(alloc, bank, spec) {
        Ok(book) => book,
        Err(_) => return Err((walk.stop(), MigrateFault::Memory)),
    };
    let length = walk.length();
    let mut moving = match walk.start_move(alloc) {
        Ok(moving) => moving,
        Err((disk, fault)) => return Err((disk, migrate_fault(journal_fault(fault)))),
    };
    match move_records(alloc, length - 1, &mut book, &mut moving) {
        Ok(()) => {}
        Err(fault) => return Err((moving.stop(), fault)),
    }
    let done = Moved {
        records: book.entries(),
        length: moving.length() + 1,
    };
    match moving.switch() {
        Ok(disk) => Ok((done, disk)),
        Err(disk) => Err((disk, MigrateFault::Disk)),
    }
}

/// Moves a journal of the first version that is walked over from its start.
fn move_old<D: Disk>(
    alloc: Global,
    bank: &Bank,
    spec: &Spec,
    walk: Walk<D>,
) -> Result<(Moved, D), (D, MigrateFault)>
    requires plan { IsPlanFor bank.now spec.now }
    requires version { walk.record_version ≡ 1 }
    requires limit { walk.limit ≡ spec.now.journal }
    requires start { walk.given ≡ 0 }
    requires place { IsTrue (D.tells walk.disk) → walk.at ≡ first_gate (D.content walk.disk) }
    requires first { IsTrue (D.tells walk.disk) → (counted_in (D.content walk.disk)).version ≡ 1 }
    requires gives { IsTrue (D.tells walk.disk)
        → contents (D.content walk.disk) ≡ Some (counted_in (D.content walk.disk)) }
    requires allows { AllowsHistories bank.now spec.now D.may_become }
    ensures moved { IfOk result (λ done. IsTrue (D.tells walk.disk)
        → IsMoved bank.now spec.now (D.content walk.disk) (D.content done.1)
        (D.accounts done.1) done.0) }
    ensures stands { IfOk result (λ done. IsTrue (D.tells walk.disk) → (H : List Entry)
        → Stands bank.now spec.now H (D.content walk.disk)
        → StandsSecond bank.now spec.now H (D.content done.1)) }
    ensures length { IfOk result (λ done. IsTrue (D.tells walk.disk)
        → done.0.length ≡ length (D.content done.1)) }
    ensures limit { IfOk result (λ done. IsTrue (D.tells walk.disk)
        → length (D.content done.1) ≤ spec.now.journal) }
    ensures moments { IfOk result (λ done. IsTrue (D.tells walk.disk) → (H : List Entry)
        → Stands bank.now spec.now H (D.content walk.disk)
        → AtEachMoment (D.accounts walk.disk) (D.accounts done.1)
        (IsImageOrStands bank.now spec.now H (latest (D.accounts walk.disk)))) }
    ensures moments_err { IfErr result (λ e. IsTrue (D.tells walk.disk) → (H : List Entry)
        → Stands bank.now spec.now H (D.content walk.disk)
        → AtEachMoment (D.accounts walk.disk) (D.accounts e.0)
        (IsImageOrStands bank.now spec.now H (latest (D.accounts walk.disk)))) }
    ensures why { IfErr result (λ e. IsTrue (D.tells walk.disk)
        → IsMigrateAnswer bank.now spec.now (D.content walk.disk) e.1) }
    ensures untouched { IfErr result (λ e. IsOfContent e.1 → IsTrue (D.tells walk.disk)
        → (D.content e.0 ≡ D.content walk.disk) × (D.accounts e.0 ≡ D.accounts walk.disk)) }
    ensures unwritten_err { IfErr result (λ e. IsTrue (D.tells walk.disk)
        → IsOldFile bank.now spec.now (D.content walk.disk)
        ⊎ ((D.content e.0 ≡ D.content walk.disk) × (D.accounts e.0 ≡ D.accounts walk.disk))) }
    ensures kept { IfErr result (λ e. e.1 ≢ NoDisk → IsTrue (D.tells walk.disk)
        → IsUnmoved (counted_in (D.content walk.disk)).payloads (D.content e.0)) }
    ensures aside_kept { IfErr result (λ e. IsOfContent e.1 → IsTrue (D.tells walk.disk)
        → D.aside e.0 ≡ D.aside walk.disk) }
    ensures aside { IfOk result (λ done. IsTrue (D.tells walk.disk)
        → D.aside done.1 ≡ D.aside walk.disk ++ tail_gates (D.content walk.disk)) }
    ensures aside_err { IfErr result (λ e. IsTrue (D.tells walk.disk)
        → PutsTailAside (D.content walk.disk) (D.content e.0)
        (D.accounts walk.disk) (D.accounts e.0) (D.aside walk.disk) (D.aside e.0)) }
    ensures cause { IfErr result
        (λ e. e.1 ≡ NoDisk → Rose (D.faults walk.disk) (D.faults e.0)) }
    ensures open { IfErr result (λ e. IsOpenOfFile e.1) }
    ensures frame { IfOk result
        (λ done. IsLent D.tells D.identity D.faults walk.disk done.1) }
    ensures frame_err { IfErr result
        (λ e. IsLent D.tells D.identity D.faults walk.disk e.0) }
{
    let mut walk = walk;
    let length = match moved_length(alloc, bank, spec, &mut walk) {
        Ok(length) => length,
        Err(fault) => return Err((walk.stop(), migrate_fault(fault))),
    };
    if spec.journal() < length {
        return Err((walk.stop(), MigrateFault::Full(length)));
    }
    move_judged(alloc, bank, spec, walk)
}

/// Judges a journal with records of the second version that is walked over from its start, and
/// leaves it as it is.
fn leave<D: Disk>(
    alloc: Global,
    bank: &Bank,
    spec: &Spec,
    walk: Walk<D>,
) -> Result<(Moved, D), (D, MigrateFault)>
    requires plan { IsPlanFor bank.now spec.now }
    requires version { walk.record_version ≡ 2 }
    requires start { walk.given ≡ 0 }
    requires place { IsTrue (D.tells walk.disk) → walk.at ≡ first_gate (D.content walk.disk) }
    requires second { IsTrue (D.tells walk.disk)
        → (counted_in (D.content walk.disk)).version ≡ 2 }
    requires gives { IsTrue (D.tells walk.disk)
        → contents (D.content walk.disk) ≡ Some (counted_in (D.content walk.disk)) }
    ensures left { IfOk result (λ done. IsTrue (D.tells walk.disk)
        → IsLeft bank.now spec.now (D.content walk.disk) (D.content done.1) done.0) }
    ensures length { IfOk result (λ done. IsTrue (D.tells walk.disk)
        → done.0.length ≡ length (D.content done.1)) }
    ensures unwritten { IfOk result (λ done. IsTrue (D.tells walk.disk)
        → AtEachMoment (D.accounts walk.disk) (D.accounts done.1)
        (IsImage (latest (D.accounts walk.disk)))) }
    ensures switched { IfOk result (λ done. IsTrue (D.tells walk.disk) → walk.header_version ≡ 1
        → IsBeingSwitched (D.accounts walk.disk)
        → IsSettled (D.content done.1) (D.accounts done.1)) }
    ensures aside { IfOk result (λ done. IsTrue (D.tells walk.disk)
        → D.aside done.1 ≡ D.aside walk.disk) }
    ensures aside_err { IfErr result (λ e. IsTrue (D.tells walk.disk)
        → D.aside e.0 ≡ D.aside walk.disk) }
    ensures unwritten_err { IfErr result (λ e. IsTrue (D.tells walk.disk)
        → AtEachMoment (D.accounts walk.disk) (D.accounts e.0)
        (IsImage (latest (D.accounts walk.disk)))) }
    ensures why { IfErr result (λ e. IsTrue (D.tells walk.disk)
        → IsMigrateAnswer bank.now spec.now (D.content walk.disk) e.1) }
    ensures untouched { IfErr result (λ e. IsTrue (D.tells walk.disk)
        → D.content e.0 ≡ D.content walk.disk) }
    ensures cause { IfErr result
        (λ e. e.1 ≡ NoDisk → Rose (D.faults walk.disk) (D.faults e.0)) }
    ensures open { IfErr result (λ e. IsOpenOfFile e.1) }
    ensures frame { IfOk result
        (λ done. IsLent D.tells D.identity D.faults walk.disk done.1) }
    ensures frame_err { IfErr result
        (λ e. IsLent D.tells D.identity D.faults walk.disk e.0) }
{
    let mut walk = walk;
    match take_history(alloc, bank, spec, &mut walk) {
        Ok(_) => {}
        Err(fault) => return Err((walk.stop(), migrate_fault(fault))),
    }
    if walk.settle_mark().is_err() {
        return Err((walk.stop(), MigrateFault::Disk));
    }
    let mut disk = walk.stop();
    match disk.len() {
        Ok(length) => Ok((Moved { records: 0, length }, disk)),
        Err(_) => Err((disk, MigrateFault::Disk)),
    }
}

/// Moves a journal of the first version to the second. It judges each record, its proof tree
/// included; cuts what follows the first closed gate, after that was put aside; and writes after
/// that gate a mark and each record by the second version. These count once all of them are on the
/// disk and the gate is opened, which is one byte. A journal with records of the second version,
/// or a file of at most nine bytes, is judged and left as it is. One old record is in memory at a
/// time, and fewer than 65,536 bytes of new ones that wait to be written, beside a book. The disk
/// is as a reboot or a journal left it, and comes back.
pub fn migrate<D: Disk>(
    alloc: Global,
    bank: &Bank,
    spec: &Spec,
    disk: D,
) -> Result<(Moved, D), (D, MigrateFault)>
    requires plan { IsPlanFor bank.now spec.now }
    requires left { IsTrue (D.tells disk) → IsAsLeft (D.accounts disk) }
    requires allows { AllowsHistories bank.now spec.now D.may_become }
    // The file represented a history. If that was by the first version, it has the same records by
    // the second now, and these count; else it is as it was.
    // Promise: A migration leaves a file of exactly the old records, a mark, and the same records
    // in the second version; a journal of the second version is left as it is. The file represents
    // the history that it represented before, and is within the limit
    // - by `migrated` (`IsMigrated`), `stands`, `limit`
    ensures migrated { IfOk result (λ done. IsTrue (D.tells disk)
        → IsMigrated bank.now spec.now (D.content disk) (D.content done.1)
        (D.accounts done.1) done.0) }
    ensures stands { IfOk result (λ done. IsTrue (D.tells disk) → (H : List Entry)
        → Stands bank.now spec.now H (D.content disk)
        → StandsSecond bank.now spec.now H (D.content done.1)) }
    ensures limit { IfOk result (λ done. IsTrue (D.tells disk)
        → length (D.content done.1) ≤ spec.now.journal) }
    // Where nothing was suspect before, a crash leaves nothing but the file.
    ensures images { IfOk result (λ done. IsTrue (D.tells disk)
        → IsClean (latest (D.accounts disk))
        → AllImages (λ file. file ≡ D.content done.1) (latest (D.accounts done.1))) }

    // Of a settled disk each file that a crash may leave, at each moment, represents the history.
    ensures settled { IfOk result (λ done. IsTrue (D.tells disk)
        → IsSettled (D.content disk) (D.accounts disk) → (H : List Entry)
        → Stands bank.now spec.now H (D.content disk)
        → AtEachMoment (D.accounts disk) (D.accounts done.1) (Stands bank.now spec.now H)) }
    ensures settled_err { IfErr result (λ e. IsTrue (D.tells disk)
        → IsSettled (D.content disk) (D.accounts disk) → (H : List Entry)
        → Stands bank.now spec.now H (D.content disk)
        → AtEachMoment (D.accounts disk) (D.accounts e.0) (Stands bank.now spec.now H)) }
    // Of any other, it represents the history, or a crash might have left it before.
    // Promise: At each moment of a migration each file that a crash may leave is one that it might
    // have left before, or represents the same history. On a settled disk it represents that
    // history, whether the migration ends well or not
    // - by `moments`, `moments_err`, `settled`, `settled_err`, `images`
    ensures moments { IfOk result (λ done. IsTrue (D.tells disk) → (H : List Entry)
        → Stands bank.now spec.now H (D.content disk)
        → AtEachMoment (D.accounts disk) (D.accounts done.1)
        (IsImageOrStands bank.now spec.now H (latest (D.accounts disk)))) }
    ensures moments_err { IfErr result (λ e. IsTrue (D.tells disk) → (H : List Entry)
        → Stands bank.now spec.now H (D.content disk)
        → AtEachMoment (D.accounts disk) (D.accounts e.0)
        (IsImageOrStands bank.now spec.now H (latest (D.accounts disk)))) }

    // What is wrong with the file, if anything is. Nothing is wrong with a file within the limit
    // that represents a history; it may be too long once it is moved.
    // Promise: A migration is refused with the first fault of the file, or since the new length
    // exceeds the limit, before anything is written. Unless the file represents a history by
    // records of the first version, no fault at all lets it write
    // - by `why` (`IsMigrateAnswer`), `untouched`, `unwritten`, `unwritten_err`, `open`, `cause`
    ensures why { IfErr result (λ e. IsTrue (D.tells disk)
        → IsMigrateAnswer bank.now spec.now (D.content disk) e.1) }
    ensures cause { IfErr result (λ e. e.1 ≡ NoDisk → Rose (D.faults disk) (D.faults e.0)) }
    ensures open { IfErr result (λ e. IsOpenOfFile e.1) }
    // A refusal for the content of the file changes nothing, at any moment.
    ensures untouched { IfErr result (λ e. IsOfContent e.1 → IsTrue (D.tells disk)
        → D.content e.0 ≡ D.content disk) }
    ensures unwritten { IfErr result (λ e. IsOfContent e.1 → IsTrue (D.tells disk)
        → AtEachMoment (D.accounts disk) (D.accounts e.0)
        (IsImage (latest (D.accounts disk)))) }
    // At any fault nothing was written, unless the file represents a history by records of the
    // first version.
    ensures unwritten_err { IfErr result (λ e. IsTrue (D.tells disk)
        → IsOldFile bank.now spec.now (D.content disk)
        ⊎ ((D.content e.0 ≡ D.content disk) × AtEachMoment (D.accounts disk) (D.accounts e.0)
        (IsImage (latest (D.accounts disk))))) }
    // Unless the disk failed, the old records count, where they counted.
    ensures kept { IfErr result (λ e. e.1 ≢ NoDisk → IsTrue (D.tells disk)
        → (counted_in (D.content disk)).version ≡ 1
        → IsUnmoved (counted_in (D.content disk)).payloads (D.content e.0)) }
    // If the gate that moves the journal was being opened, it is on the disk now.
    ensures switched { IfOk result (λ done. IsTrue (D.tells disk)
        → IsBeingSwitched (D.accounts disk)
        → IsSettled (D.content done.1) (D.accounts done.1)) }
    // A refusal for the content of the file puts nothing aside.
    // Promise: A refusal for the content of the file puts nothing aside. An opening that fails for
    // another reason than the disk puts nothing aside either
    // - of `migrate`, `Office::open`
    ensures aside_kept { IfErr result (λ e. IsOfContent e.1 → IsTrue (D.tells disk)
        → D.aside e.0 ≡ D.aside disk) }
    // What is cut was put aside before, and nothing else was.
    // Promise: What a migration cuts was put aside before, and the gate of the mark is on the disk
    // after it; where memory runs out the old records still count
    // - by `aside`, `aside_err`, `switched`, `kept`
    ensures aside { IfOk result (λ done. IsTrue (D.tells disk) → D.aside done.1
        ≡ D.aside disk ++ moved_tail (D.content disk)) }
    ensures aside_err { IfErr result (λ e. IsTrue (D.tells disk)
        → PutsTailAside (D.content disk) (D.content e.0)
        (D.accounts disk) (D.accounts e.0) (D.aside disk) (D.aside e.0)) }
    ensures frame { IfOk result (λ done. IsLent D.tells D.identity D.faults disk done.1) }
    ensures frame_err { IfErr result (λ e. IsLent D.tells D.identity D.faults disk e.0) }
{
    let walk = match Journal::walk(disk, spec.journal()) {
        Ok(walk) => walk,
        Err((disk, fault)) => return Err((disk, migrate_fault(journal_fault(fault)))),
    };
    if walk.record_version() == 1 {
        move_old(alloc, bank, spec, walk)
    } else {
        leave(alloc, bank, spec, walk)
    }
}
