//! The records of a file, taken into a book one after another.

ghost use Rattle.std.specs.Prelude.{◌≡◌, ◌⊎◌, ◌+◌, [], ◌∷◌, ◌++◌, map, Some, Err, IsTrue, IfOk, IfErr, OnOk};
ghost use Rattle.std.specs.Option.{is_some};
ghost use Rattle.exam_edge.specs.Faults.{Rose};
ghost use Rattle.exam_edge.specs.Lent.{IsLent};
ghost use Rattle.form_model.specs.Validity.{IsPlanFor};
ghost use Rattle.history_model.specs.Judging.{MayFollow};
ghost use Rattle.exam_records.specs.declared.fault.RecordFault.TheVariants.{Memory as NoMemory};
ghost use Rattle.answer_journal.specs.Versions.{contents, counted_in};
ghost use Rattle.answer_journal.specs.Walk.{first_gate, first_payloads};
ghost use Rattle.exam_office.specs.declared.fault.OpenFault.TheVariants.{Disk as OfDisk};
ghost use Rattle.exam_office.specs.declared.mark.Mark.TheVariants.{Old, Opened};
ghost use Rattle.exam_office.specs.Files.{Stands};
ghost use Rattle.exam_office.specs.KeptVectors.{AreOf, AreWith, IsTakenWith, AreTakenWith};
ghost use Rattle.exam_office.specs.Opening.{IsNotFollowing, IsReadAs, AreTaken, IsNotTaken, IsReadAnswer, record_in};

use crate::fault::OpenFault;
use crate::mark::{Mark, note};
use crate::vectors::Vectors;
use answer_journal::{OpenFault as JournalFault, Walk, WalkFault};
use bank_tables::Bank;
use constraint_model::Spec;
use exam_edge::{Disk, Memory};
use exam_records::{Record, RecordFault, decode, decode_old};
use exam_session::Book;
use history_log::Counted;
use history_model::laws::may_is_legal;
use history_model::{Entry, Illegal};
use std::alloc::Global;

/// The fault of a record that may not follow.
fn fault_of(at: u64, reason: Illegal) -> OpenFault
    ensures { result ≡ Rattle.exam_office.specs.Opening.fault_of at reason }
{
    match reason {
        Illegal::Tree(_) | Illegal::NotSpent(_) => OpenFault::BadTree(at),
        _ => OpenFault::Illegal(at, reason),
    }
}

/// The fault of a file that is no journal.
pub fn journal_fault(fault: JournalFault) -> OpenFault
    ensures { result ≡ Rattle.exam_office.specs.Opening.journal_fault fault }
{
    match fault {
        JournalFault::Disk => OpenFault::Disk,
        JournalFault::Version => OpenFault::Version,
        JournalFault::Memory => OpenFault::Memory,
        _ => OpenFault::Journal(fault),
    }
}

/// Takes a record into the book, where it may follow.
pub(crate) fn follow(alloc: Global, at: u64, rec: &Record, book: &mut Book) -> Result<(), OpenFault>
    ensures bank { book.new.bank ≡ book.old.bank }
    ensures plan { book.new.plan ≡ book.old.plan }
    ensures may { OnOk result
        (MayFollow book.old.bank book.old.plan book.old.entries rec.now.entry rec.now.tree) }
    ensures entries { OnOk result (book.new.entries ≡ book.old.entries ++ rec.now.entry ∷ []) }
    ensures refused { IfErr result
        (IsNotFollowing book.old.bank book.old.plan book.old.entries at rec.now) }
{
    match book.judge(rec) {
        Ok(()) => {}
        Err(reason) => return Err(fault_of(at, reason)),
    }
    match book.reserve(alloc) {
        Ok(()) => {}
        Err(_) => return Err(OpenFault::Memory),
    }
    may_is_legal();
    book.apply(rec.entry);
    Ok(())
}

/// Keeps what a record makes the vector of its session, where the vectors are asked for.
fn keep_vector(
    alloc: Global,
    bank: &Bank,
    spec: &Spec,
    rec: &Record,
    vectors: &mut Option<Vectors>,
) -> Result<(), Memory>
    ensures vectors { OnOk result (AreWith bank.now spec.now vectors.old rec.now vectors.new) }
    ensures asked { is_some vectors.new ≡ is_some vectors.old }
{
    match vectors {
        Some(vectors) => vectors.take(alloc, bank, spec, rec),
        None => Ok(()),
    }
}

/// The record of a payload by its version: what the first version leaves out is that of the book.
pub(crate) fn read_record(
    alloc: Global,
    version: u8,
    payload: &[u8],
    book: &Book,
) -> Result<Record, RecordFault>
    ensures reads { IfOk result
        (IsReadAs book.now.bank book.now.plan version book.now.entries payload.now) }
    ensures fault { IfErr result
        (λ fault. (fault ≡ NoMemory) ⊎ (record_in version payload.now ≡ Err fault)) }
{
    if version == 1 {
        match decode_old(alloc, payload) {
            Ok(old) => Ok(book.lift(old)),
            Err(fault) => Err(fault),
        }
    } else {
        decode(alloc, payload)
    }
}

/// Takes the record of a payload into the book, where it may follow, and gives its entry.
fn take_record(
    alloc: Global,
    version: u8,
    at: u64,
    payload: &[u8],
    book: &mut Book,
    vectors: &mut Option<Vectors>,
) -> Result<Entry, OpenFault>
    ensures bank { book.new.bank ≡ book.old.bank }
    ensures plan { book.new.plan ≡ book.old.plan }
    ensures taken { IfOk result (λ entry. IsTakenWith book.old.bank book.old.plan version
        book.old.entries payload.now entry vectors.old vectors.new) }
    ensures entries { IfOk result (λ entry. book.new.entries ≡ book.old.entries ++ entry ∷ []) }
    ensures asked { is_some vectors.new ≡ is_some vectors.old }
    ensures refused { IfErr result
        (IsNotTaken book.old.bank book.old.plan version book.old.entries at payload.now) }
{
    let rec = match read_record(alloc, version, payload, book) {
        Ok(rec) => rec,
        Err(RecordFault::Memory) => return Err(OpenFault::Memory),
        Err(fault) => return Err(OpenFault::BadRecord(at, fault)),
    };
    match follow(alloc, at, &rec, book) {
        Ok(()) => {}
        Err(fault) => return Err(fault),
    }
    match keep_vector(alloc, book.bank(), book.spec(), &rec, vectors) {
        Ok(()) => Ok(rec.entry),
        Err(_) => Err(OpenFault::Memory),
    }
}

/// Takes the records of a file into an empty book and notes their entries, with one payload in
/// memory. Only a disk that doesn't report its content may have lost a record since its frame was
/// tested.
fn take_records<D: Disk>(
    alloc: Global,
    walk: &mut Walk<D>,
    book: &mut Book,
    marks: &mut Counted<Mark>,
    vectors: &mut Option<Vectors>,
) -> Result<(), OpenFault>
    requires start { walk.old.given ≡ 0 }
    requires place { IsTrue (D.tells walk.old.disk)
        → walk.old.at ≡ first_gate (D.content walk.old.disk) }
    requires version { IsTrue (D.tells walk.old.disk)
        → walk.old.record_version ≡ (counted_in (D.content walk.old.disk)).version }
    requires gives { IsTrue (D.tells walk.old.disk) → contents (D.content walk.old.disk)
        ≡ Some (counted_in (D.content walk.old.disk)) }
    requires empty { book.old.entries ≡ [] }
    requires none { marks.old ≡ [] }
    requires cold { AreOf book.old.bank book.old.plan [] vectors.old }
    ensures bank { book.new.bank ≡ book.old.bank }
    ensures plan { book.new.plan ≡ book.old.plan }
    ensures taken { OnOk result (AreTakenWith book.old.bank book.old.plan walk.old.record_version
        walk.old.at (D.tells walk.old.disk) (D.content walk.old.disk) walk.new.given walk.new.at
        book.new.entries vectors.new) }
    ensures noted { OnOk result (marks.new ≡ map Old book.new.entries) }
    ensures asked { is_some vectors.new ≡ is_some vectors.old }
    // All of them.
    ensures last { OnOk result (IsTrue (D.tells walk.old.disk)
        → first_payloads walk.new.given (D.content walk.old.disk)
        ≡ (counted_in (D.content walk.old.disk)).payloads) }
    ensures why { IfErr result (λ e. IsTrue (D.tells walk.old.disk)
        → IsReadAnswer book.old.bank book.old.plan (D.content walk.old.disk) e) }
    ensures cause { IfErr result (λ e. e ≡ OfDisk
        → Rose (D.faults walk.old.disk) (D.faults walk.new.disk)) }
    ensures limit { walk.new.limit ≡ walk.old.limit }
    ensures size { walk.new.size ≡ walk.old.size }
    // The walk is at the end of the file, also of a disk that does not report its content.
    ensures whole { OnOk result (walk.new.at + 1 ≡ walk.new.size) }
    ensures versions { (walk.new.header_version ≡ walk.old.header_version)
        × (walk.new.record_version ≡ walk.old.record_version) }
    ensures content { IsTrue (D.tells walk.old.disk)
        → D.content walk.new.disk ≡ D.content walk.old.disk }
    ensures accounts { IsTrue (D.tells walk.old.disk)
        → D.accounts walk.new.disk ≡ D.accounts walk.old.disk }
    ensures aside { IsTrue (D.tells walk.old.disk)
        → D.aside walk.new.disk ≡ D.aside walk.old.disk }
    ensures frame { IsLent D.tells D.identity D.faults walk.old.disk walk.new.disk }
{
    let version = walk.record_version();
    let mut payload = Vec::new(alloc);
    'records: loop {
        match walk.next(alloc, &mut payload) {
            Ok(Some(at)) => match take_record(alloc, version, at, &payload, book, vectors) {
                Ok(entry) => match note(marks, &Mark::Old(entry)) {
                    Ok(()) => {}
                    Err(_) => return Err(OpenFault::Memory),
                },
                Err(fault) => return Err(fault),
            },
            Ok(None) => {
                let length = walk.length();
                if walk.place() + 1 < length {
                    return Err(OpenFault::Journal(JournalFault::Cut(walk.place())));
                }
                return Ok(());
            }
            Err(WalkFault::Disk) => return Err(OpenFault::Disk),
            Err(WalkFault::Memory) => return Err(OpenFault::Memory),
        }
    }
}

/// Judges each record of a file of either version that is walked over, its proof tree included, and
/// takes it into a new book, with one record in memory. It gives the book, and the marks of an
/// office opened with it: the entries found, and the length of the journal. It writes nothing.
pub fn take_history<'a, D: Disk>(
    alloc: Global,
    bank: &'a Bank,
    spec: &'a Spec,
    walk: &mut Walk<D>,
) -> Result<(Book<'a>, Counted<Mark>), OpenFault>
    requires plan { IsPlanFor bank.now spec.now }
    requires start { walk.old.given ≡ 0 }
    requires place { IsTrue (D.tells walk.old.disk)
        → walk.old.at ≡ first_gate (D.content walk.old.disk) }
    requires version { IsTrue (D.tells walk.old.disk)
        → walk.old.record_version ≡ (counted_in (D.content walk.old.disk)).version }
    requires gives { IsTrue (D.tells walk.old.disk) → contents (D.content walk.old.disk)
        ≡ Some (counted_in (D.content walk.old.disk)) }
    ensures bank { IfOk result (λ found. found.0.bank ≡ bank.now) }
    ensures plan { IfOk result (λ found. found.0.plan ≡ spec.now) }
    // Promise: A history that is taken from a walk is the one that the file represents, with a new
    // book of it and the marks of an office opened with it. Another file is refused with the fault
    // that opening gives. The walk is then at the end of its file, on every disk. The file is not
    // changed. `Disk` comes only where the disk's count of faults rose
    // - of `take_history`, `journal_fault`
    // - by `taken`, `marks`, `last`, `whole`, `stands`, `why`, `cause`, `content`, `accounts`,
    //   `frame`
    ensures taken { IfOk result
        (λ found. AreTaken bank.now spec.now walk.old.record_version walk.old.at
        (D.tells walk.old.disk) (D.content walk.old.disk) walk.new.given walk.new.at
        found.0.entries) }
    ensures marks { IfOk result
        (λ found. found.1 ≡ map Old found.0.entries ++ Opened walk.new.size ∷ []) }
    // All of them: the file represents this history.
    ensures last { OnOk result (IsTrue (D.tells walk.old.disk)
        → first_payloads walk.new.given (D.content walk.old.disk)
        ≡ (counted_in (D.content walk.old.disk)).payloads) }
    ensures stands { IfOk result (λ found. IsTrue (D.tells walk.old.disk)
        → Stands bank.now spec.now found.0.entries (D.content walk.old.disk)) }
    // The first record that is refused, if memory and the disk don't fail before.
    ensures why { IfErr result (λ e. IsTrue (D.tells walk.old.disk)
        → IsReadAnswer bank.now spec.now (D.content walk.old.disk) e) }
    ensures cause { IfErr result (λ e. e ≡ OfDisk
        → Rose (D.faults walk.old.disk) (D.faults walk.new.disk)) }
    ensures limit { walk.new.limit ≡ walk.old.limit }
    ensures size { walk.new.size ≡ walk.old.size }
    // The walk is at the end of the file, also of a disk that does not report its content.
    ensures whole { OnOk result (walk.new.at + 1 ≡ walk.new.size) }
    ensures versions { (walk.new.header_version ≡ walk.old.header_version)
        × (walk.new.record_version ≡ walk.old.record_version) }
    ensures content { IsTrue (D.tells walk.old.disk)
        → D.content walk.new.disk ≡ D.content walk.old.disk }
    ensures accounts { IsTrue (D.tells walk.old.disk)
        → D.accounts walk.new.disk ≡ D.accounts walk.old.disk }
    ensures aside { IsTrue (D.tells walk.old.disk)
        → D.aside walk.new.disk ≡ D.aside walk.old.disk }
    ensures frame { IsLent D.tells D.identity D.faults walk.old.disk walk.new.disk }
{
    take_all(alloc, bank, spec, walk, &mut None)
}

/// The same, and what the records make the vectors of their sessions, where these are asked for.
pub(crate) fn take_all<'a, D: Disk>(
    alloc: Global,
    bank: &'a Bank,
    spec: &'a Spec,
    walk: &mut Walk<D>,
    vectors: &mut Option<Vectors>,
) -> Result<(Book<'a>, Counted<Mark>), OpenFault>
    requires plan { IsPlanFor bank.now spec.now }
    requires start { walk.old.given ≡ 0 }
    requires place { IsTrue (D.tells walk.old.disk)
        → walk.old.at ≡ first_gate (D.content walk.old.disk) }
    requires version { IsTrue (D.tells walk.old.disk)
        → walk.old.record_version ≡ (counted_in (D.content walk.old.disk)).version }
    requires gives { IsTrue (D.tells walk.old.disk) → contents (D.content walk.old.disk)
        ≡ Some (counted_in (D.content walk.old.disk)) }
    requires cold { AreOf bank.now spec.now [] vectors.old }
    ensures bank { IfOk result (λ found. found.0.bank ≡ bank.now) }
    ensures plan { IfOk result (λ found. found.0.plan ≡ spec.now) }
    ensures taken { IfOk result (λ found. AreTakenWith bank.now spec.now walk.old.record_version
        walk.old.at (D.tells walk.old.disk) (D.content walk.old.disk) walk.new.given walk.new.at
        found.0.entries vectors.new) }
    ensures asked { is_some vectors.new ≡ is_some vectors.old }
    ensures marks { IfOk result
        (λ found. found.1 ≡ map Old found.0.entries ++ Opened walk.new.size ∷ []) }
    // All of them: the file represents this history.
    ensures last { OnOk result (IsTrue (D.tells walk.old.disk)
        → first_payloads walk.new.given (D.content walk.old.disk)
        ≡ (counted_in (D.content walk.old.disk)).payloads) }
    ensures stands { IfOk result (λ found. IsTrue (D.tells walk.old.disk)
        → Stands bank.now spec.now found.0.entries (D.content walk.old.disk)) }
    // The first record that is refused, if memory and the disk don't fail before.
    ensures why { IfErr result (λ e. IsTrue (D.tells walk.old.disk)
        → IsReadAnswer bank.now spec.now (D.content walk.old.disk) e) }
    ensures cause { IfErr result (λ e. e ≡ OfDisk
        → Rose (D.faults walk.old.disk) (D.faults walk.new.disk)) }
    ensures limit { walk.new.limit ≡ walk.old.limit }
    ensures size { walk.new.size ≡ walk.old.size }
    // The walk is at the end of the file, also of a disk that does not report its content.
    ensures whole { OnOk result (walk.new.at + 1 ≡ walk.new.size) }
    ensures versions { (walk.new.header_version ≡ walk.old.header_version)
        × (walk.new.record_version ≡ walk.old.record_version) }
    ensures content { IsTrue (D.tells walk.old.disk)
        → D.content walk.new.disk ≡ D.content walk.old.disk }
    ensures accounts { IsTrue (D.tells walk.old.disk)
        → D.accounts walk.new.disk ≡ D.accounts walk.old.disk }
    ensures aside { IsTrue (D.tells walk.old.disk)
        → D.aside walk.new.disk ≡ D.aside walk.old.disk }
    ensures frame { IsLent D.tells D.identity D.faults walk.old.disk walk.new.disk }
{
    let mut book = match Book::new(alloc, bank, spec) {
        Ok(book) => book,
        Err(_) => return Err(OpenFault::Memory),
    };
    let mut marks = Counted::new();
    match take_records(alloc, walk, &mut book, &mut marks, vectors) {
        Ok(()) => {}
        Err(fault) => return Err(fault),
    }
    match note(&mut marks, &Mark::Opened(walk.length())) {
        Ok(()) => Ok((book, marks)),
        Err(_) => Err(OpenFault::Memory),
    }
}
