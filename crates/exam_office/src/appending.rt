//! A record that another office wrote is appended.

ghost use Rattle.std.specs.Prelude.{◌≡◌, ◌≢◌, [], ◌∷◌, ◌++◌, None, IsTrue, IfErr, OnOk};
ghost use Rattle.exam_edge.specs.Lent.{IsLent};
ghost use Rattle.exam_edge.specs.Images.{AllImages, AtEachMoment, latest};
ghost use Rattle.history_model.specs.Judging.{MayFollow};
ghost use Rattle.history_model.specs.Reasons.{IsIllegal};
ghost use Rattle.exam_records.specs.Spelling.{payload_of};
ghost use Rattle.answer_journal.specs.Journal.{tells_of, accounts_of, faults_of, identity_of, payloads_of, IsDoubtful};
ghost use Rattle.answer_journal.specs.Versions.{HoldsOrOneMore};
ghost use Rattle.exam_office.specs.Appending.{FindsRecord, IsAppended, IsNotAppended, taken_by};
ghost use Rattle.exam_office.specs.Calls.{IsLeft};
ghost use Rattle.exam_office.specs.Files.{StandsSecond};
ghost use Rattle.exam_office.specs.Marks.{history};
ghost use Rattle.exam_office.specs.Writing.{IsSameOffice};

use crate::office::Office;
use exam_edge::Disk;
use exam_records::Record;
use history_model::{Illegal, Refusal};
use std::alloc::Global;

/// Why a record was not taken.
#[derive(Clone, Copy, Debug, PartialEq, Eq)]
pub enum Taken {
    /// It may not follow the entries of the history.
    Illegal(Illegal),
    /// Out of memory.
    Memory,
    /// With it the journal would have this length in bytes, above its limit.
    Full(u64),
    /// A call of the disk failed, and the disk has counted that.
    Disk,
}

/// Why a record was not taken, by the refusal of mending or of writing it: out of memory, a full
/// journal, or the disk.
fn fault_of(refusal: Refusal) -> Taken
    ensures { result ≡ taken_by refusal }
{
    match refusal {
        Refusal::Memory => Taken::Memory,
        Refusal::JournalFull(size) => Taken::Full(size),
        _ => Taken::Disk,
    }
}

impl<'a, D: Disk> Office<'a, D> {
    /// Whether a record may follow the entries of the history.
    fn judge(&self, rec: &Record) -> Result<(), Illegal>
        ensures may { OnOk result (MayFollow self.now.bank self.now.plan
            (history self.now.marks) rec.now.entry rec.now.tree) }
        ensures reason { IfErr result (IsIllegal self.now.bank self.now.plan
            (history self.now.marks) rec.now.entry rec.now.tree) }
    {
        let _ = self.book.entries();
        self.book.judge(rec)
    }

    /// Appends a record that another office wrote, if it may follow: resolves the entry in doubt
    /// first, and judges the record after the history that is there then. At `Ok` it is on the
    /// disk. Before the other answers than `Disk` nothing is written but what mending writes. That
    /// an entry is of this office's base form is not asked.
    pub fn append_record(&mut self, alloc: Global, rec: &Record) -> Result<(), Taken>
        ensures same { IsSameOffice self.old self.new }
        // Promise: A record that another office wrote is appended only if it may follow the history
        // that is there once the entry in doubt is resolved. It is the last one then, and is on the
        // disk: each file that a crash may leave represents the history with it
        // - by `appended` (`IsAppended`), `payloads`, `images`
        ensures appended { OnOk result (IsAppended self.old self.new rec.now) }
        // Promise: A record that is not appended has its cause: the first reason why it may not
        // follow, the length above the limit, or a disk whose count of faults rose. Nothing of it
        // is written but in the last case, and then it is in doubt
        // - by `fault` (`IsNotAppended`), `unchanged`, `doubtful`
        ensures fault { IfErr result (IsNotAppended self.old self.new rec.now) }
        ensures images { OnOk result (IsTrue (tells_of self.old.journal)
            → AllImages (StandsSecond self.old.bank self.old.plan (history self.new.marks))
            (latest (accounts_of self.new.journal))) }
        // Promise: At every moment of that call each file that a crash may leave represents the
        // history before or that with the entry in doubt, or either of them with the record's entry
        // where it may follow. With nothing in doubt before, its payloads are those of the journal,
        // or these and the record's
        // - by `moments` (`FindsRecord`), `left`
        ensures moments { IsTrue (tells_of self.old.journal)
            → AtEachMoment (accounts_of self.old.journal) (accounts_of self.new.journal)
            (IsLeft self.old.bank self.old.plan
            (FindsRecord self.old.bank self.old.plan rec.now)
            (history self.old.marks) self.old.doubt) }
        // Where nothing was in doubt before, by the payloads of the journal. What `settle` does to
        // them is in its clauses.
        ensures payloads { OnOk result (self.old.doubt ≡ None → IsTrue (tells_of self.old.journal)
            → payloads_of self.new.journal
            ≡ payloads_of self.old.journal ++ payload_of rec.now ∷ []) }
        ensures doubtful { IfErr result (λ e. e ≡ Taken.Disk → self.old.doubt ≡ None
            → IsDoubtful (payloads_of self.old.journal) (payload_of rec.now) self.new.journal) }
        ensures unchanged { IfErr result (λ e. e ≢ Taken.Disk → self.old.doubt ≡ None
            → self.new ≡ self.old) }
        ensures left { self.old.doubt ≡ None → IsTrue (tells_of self.old.journal)
            → AtEachMoment (accounts_of self.old.journal) (accounts_of self.new.journal)
            (HoldsOrOneMore (payloads_of self.old.journal) (payload_of rec.now)) }
        ensures frame { IsLent tells_of identity_of faults_of self.old.journal self.new.journal }
    {
        match self.settle() {
            Ok(()) => {}
            Err(refusal) => return Err(fault_of(refusal)),
        }
        self.holds();
        match self.judge(rec) {
            Ok(()) => {}
            Err(reason) => return Err(Taken::Illegal(reason)),
        }
        match self.write(alloc, &rec.entry, rec.tree.as_ref()) {
            Ok(()) => Ok(()),
            Err(refusal) => Err(fault_of(refusal)),
        }
    }
}
