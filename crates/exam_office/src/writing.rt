//! How an office writes.

ghost use Rattle.std.specs.Prelude.{◌≡◌, ◌+◌, ◌<◌, ℕ, List, [], ◌∷◌, ◌++◌, length, None, IsTrue, IfOk, IfErr, OnOk, OnErr};
ghost use Rattle.std.specs.Option.{option_copied};
ghost use Rattle.exam_edge.specs.Lent.{IsLent};
ghost use Rattle.exam_edge.specs.Images.{AllImages, AtEachMoment, latest};
ghost use Rattle.history_model.specs.Judging.{MayFollow};
ghost use Rattle.exam_records.specs.Shape.{IsRecord};
ghost use Rattle.exam_records.specs.Spelling.{payload_of};
ghost use Rattle.answer_journal.specs.Journal.{tells_of, accounts_of, faults_of, identity_of, payloads_of, IsDoubtful};
ghost use Rattle.answer_journal.specs.Versions.{HoldsOrOneMore};
ghost use Rattle.exam_office.specs.declared.mark.Mark.TheVariants.{Own};
ghost use Rattle.exam_office.specs.Files.{StandsSecond};
ghost use Rattle.exam_office.specs.Marks.{history};
ghost use Rattle.exam_office.specs.Payloads.{IsResolved};
ghost use Rattle.exam_office.specs.Writing.{IsMending, IsWriting, IsMended, IsSameOffice, IsUnmended, IsUnwritten, with_record};

use crate::mark::{Mark, room_for_mark};
use crate::office::Office;
use answer_journal::{Adopted, AppendFault, Frame};
use exam_edge::{Disk, Memory};
use exam_records::push_record;
use history_model::laws::may_is_legal;
use history_model::{Entry, Refusal};
use proof_tree::Tree;
use std::alloc::Global;

impl<'a, D: Disk> Office<'a, D> {
    /// The frame of the record of an entry and its tree, which may follow.
    fn frame_of(&self, alloc: Global, entry: &Entry, tree: Option<&Tree>) -> Result<Frame, Memory>
        requires { MayFollow self.now.bank self.now.plan (history self.now.marks) entry.now
            (option_copied tree) }
        ensures frame { IfOk result (λ frame. frame
            ≡ payload_of (record { entry = entry.now; tree = option_copied tree.entry })) }
        ensures is_record { OnOk result
            (IsRecord (record { entry = entry.now; tree = option_copied tree.entry })) }
    {
        let _ = self.book.entries();
        let mut bytes = Frame::room(alloc)?;
        push_record(alloc, &mut bytes, entry, tree)?;
        let frame = Frame::of(bytes)?;
        Ok(frame)
    }

    /// Resolves the entry in doubt, if there is one: keeps it exactly where the disk has it.
    pub fn settle(&mut self) -> Result<(), Refusal>
        ensures same { IsSameOffice self.old self.new }
        ensures sure { OnOk result (self.new.doubt ≡ None) }
        // Promise: The entry in doubt is kept exactly where the disk has it, and then it is the
        // last entry; else it is dropped, and nothing is added. The payloads of the journal are
        // those before, and with it kept its payload after them. Without room for a mark nothing is
        // done; `Disk` comes only where the disk's count of faults rose
        // - by `mended`, `refused`, `resolved`, `images`, `moments`, `left`, `unchanged`
        ensures mended { OnOk result (IsMended self.old.marks self.old.doubt self.new.marks) }
        ensures refused { IfErr result (IsUnmended self.old self.new) }
        ensures images { OnOk result (IsTrue (tells_of self.old.journal)
            → AllImages (StandsSecond self.old.bank self.old.plan (history self.new.marks))
            (latest (accounts_of self.new.journal))) }
        ensures moments { IsTrue (tells_of self.old.journal)
            → AtEachMoment (accounts_of self.old.journal) (accounts_of self.new.journal)
            (IsMending self.old.bank self.old.plan (history self.old.marks) self.old.doubt) }
        // By the payloads of the journal.
        ensures resolved { OnOk result ((ps : List (List ℕ)) (payload : List ℕ)
            → IsDoubtful ps payload self.old.journal
            → IsResolved self.old.marks ps payload self.new.journal self.new.marks) }
        ensures still { OnErr result ((ps : List (List ℕ)) (payload : List ℕ)
            → IsDoubtful ps payload self.old.journal → IsDoubtful ps payload self.new.journal) }
        ensures left { IsTrue (tells_of self.old.journal)
            → (ps : List (List ℕ)) (payload : List ℕ) → IsDoubtful ps payload self.old.journal
            → AtEachMoment (accounts_of self.old.journal) (accounts_of self.new.journal)
            (HoldsOrOneMore ps payload) }
        ensures unchanged { self.old.doubt ≡ None → self.new ≡ self.old }
        ensures frame { IsLent tells_of identity_of faults_of self.old.journal self.new.journal }
    {
        let Some(entry) = &self.doubt else {
            return Ok(());
        };
        match room_for_mark(&self.marks) {
            Ok(()) => {}
            Err(_) => return Err(Refusal::Memory),
        }
        match self.journal.mend() {
            Ok(Adopted::Kept) => {
                may_is_legal();
                self.book.apply(*entry);
                let size = self.journal.length();
                self.marks.push(&Mark::Adopted(*entry, size));
                self.vectors.adopt();
                self.doubt = None;
                Ok(())
            }
            Ok(Adopted::Dropped) => {
                self.vectors.forget();
                self.doubt = None;
                Ok(())
            }
            Err(_) => {
                self.marks.push(&Mark::Fault(*entry));
                Err(Refusal::Disk)
            }
        }
    }

    /// Writes the record of an entry and its tree, which may follow; nothing is in doubt before.
    pub(crate) fn write(
        &mut self,
        alloc: Global,
        entry: &Entry,
        tree: Option<&Tree>,
    ) -> Result<(), Refusal>
        requires sure { self.old.doubt ≡ None }
        requires may { MayFollow self.old.bank self.old.plan (history self.old.marks) entry.now
            (option_copied tree) }
        ensures same { IsSameOffice self.old self.new }
        ensures sure { OnOk result (self.new.doubt ≡ None) }
        ensures written { OnOk result (self.new.marks ≡ self.old.marks ++ Own entry.now
            (with_record self.old.marks
            (record { entry = entry.now; tree = option_copied tree.entry })) ∷ []) }
        ensures refused { IfErr result (IsUnwritten self.old self.new
            (record { entry = entry.now; tree = option_copied tree.entry })) }
        ensures images { OnOk result (IsTrue (tells_of self.old.journal)
            → AllImages (StandsSecond self.old.bank self.old.plan (history self.new.marks))
            (latest (accounts_of self.new.journal))) }
        ensures moments { IsTrue (tells_of self.old.journal)
            → AtEachMoment (accounts_of self.old.journal) (accounts_of self.new.journal)
            (IsWriting self.old.bank self.old.plan (history self.old.marks) entry.now) }
        // By the payloads of the journal.
        ensures payloads { OnOk result (IsTrue (tells_of self.old.journal)
            → payloads_of self.new.journal ≡ payloads_of self.old.journal
            ++ payload_of (record { entry = entry.now; tree = option_copied tree.entry }) ∷ []) }
        ensures spells { OnOk result
            (IsRecord (record { entry = entry.now; tree = option_copied tree.entry })) }
        ensures doubtful { IfErr result (λ e. e ≡ Refusal.Disk
            → IsDoubtful (payloads_of self.old.journal)
            (payload_of (record { entry = entry.now; tree = option_copied tree.entry }))
            self.new.journal
            × IsRecord (record { entry = entry.now; tree = option_copied tree.entry })) }
        ensures left { IsTrue (tells_of self.old.journal)
            → AtEachMoment (accounts_of self.old.journal) (accounts_of self.new.journal)
            (HoldsOrOneMore (payloads_of self.old.journal)
            (payload_of (record { entry = entry.now; tree = option_copied tree.entry }))) }
        ensures frame { IsLent tells_of identity_of faults_of self.old.journal self.new.journal }
    {
        let _ = &self.journal;
        let frame = match self.frame_of(alloc, entry, tree) {
            Ok(frame) => frame,
            Err(_) => return Err(Refusal::Memory),
        };
        match room_for_mark(&self.marks) {
            Ok(()) => {}
            Err(_) => return Err(Refusal::Memory),
        }
        match self.book.reserve(alloc) {
            Ok(()) => {}
            Err(_) => return Err(Refusal::Memory),
        }
        let new = match self
            .vectors
            .prepare(alloc, self.bank, self.spec, entry, tree)
        {
            Ok(new) => new,
            Err(_) => return Err(Refusal::Memory),
        };
        match self.journal.append(&frame) {
            Ok(()) => {
                may_is_legal();
                self.book.apply(*entry);
                let size = self.journal.length();
                self.marks.push(&Mark::Own(*entry, size));
                self.vectors.keep(new);
                Ok(())
            }
            Err(AppendFault::Full(size)) => Err(Refusal::JournalFull(size)),
            Err(AppendFault::Disk) => {
                self.marks.push(&Mark::Fault(*entry));
                self.vectors.hold(new);
                self.doubt = Some(*entry);
                Err(Refusal::Disk)
            }
        }
    }
}
