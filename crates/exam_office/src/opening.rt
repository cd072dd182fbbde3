//! How an office is opened.

ghost use Rattle.std.specs.Prelude.{◌≡◌, ◌≢◌, ◌≤◌, [], ◌∷◌, ◌++◌, List, length, map, Some, None, IsTrue, IfOk, IfErr};
ghost use Rattle.bank_tables.specs.Items.{has};
ghost use Rattle.form_model.specs.Forms.{Meets};
ghost use Rattle.form_model.specs.Validity.{IsPlanFor};
ghost use Rattle.exam_edge.specs.Faults.{Rose};
ghost use Rattle.exam_edge.specs.Lent.{IsLent};
ghost use Rattle.exam_edge.specs.Images.{AllImages, AtEachMoment, IsImage, IsSettled, latest};
ghost use Rattle.history_model.specs.declared.entry.Entry.{Entry};
ghost use Rattle.history_model.specs.Legality.{LegalRun};
ghost use Rattle.exam_office.specs.declared.mark.Mark.TheVariants.{Old, Opened};
ghost use Rattle.exam_office.specs.declared.fault.OpenFault.TheVariants.{Disk as OfDisk};
ghost use Rattle.answer_journal.specs.Standing.{IsAsLeft};
ghost use Rattle.answer_journal.specs.Versions.{contents, counted_in, second};
ghost use Rattle.answer_journal.specs.Journal.{disk_of, tells_of, accounts_of, aside_of, faults_of, identity_of, payloads_of};
ghost use Rattle.answer_journal.specs.Opening.{PutsTailAside, tail_gates};
ghost use Rattle.exam_office.specs.Writing.{IsMending};
ghost use Rattle.exam_office.specs.Files.{IsImageOrStands, Stands, StandsSecond};
ghost use Rattle.exam_office.specs.Moments.{AreOpeningMoments};
ghost use Rattle.exam_office.specs.Marks.{history, reach};
ghost use Rattle.exam_office.specs.Running.{handed};
ghost use Rattle.exam_office.specs.Opening.{IsOpenAnswer};
ghost use Rattle.exam_office.specs.Allowing.{AllowsHistories};

use crate::fault::OpenFault;
use crate::handed_in::HandedIn;
use crate::office::Office;
use crate::taking::{journal_fault, take_all};
use crate::vectors::Vectors;
use answer_journal::Journal;
use bank_tables::{Bank, ItemSet};
use constraint_model::Spec;
use exam_edge::Disk;
use std::alloc::Global;

impl<'a, D: Disk> Office<'a, D> {
    /// Opens an office over a disk: reads the journal, and takes each record that may follow those
    /// before it, with one record in memory. Only then it makes the file a journal that ends with
    /// its first closed gate. A journal of the first version that was not moved is refused. The
    /// base is a form of the plan alone. The disk is as a reboot or a journal left it. A refusal
    /// gives the disk back.
    pub fn open(
        alloc: Global,
        bank: &'a Bank,
        spec: &'a Spec,
        base: ItemSet,
        disk: D,
    ) -> Result<Office<'a, D>, (D, OpenFault)>
        requires plan { IsPlanFor bank.now spec.now }
        requires base { Meets bank.now spec.now (has base) }
        requires left { IsTrue (D.tells disk) → IsAsLeft (D.accounts disk) }
        // Promise: An office and a migration ask of the disk only that it allows each history to go
        // on: of a file that represents it, each that represents it with or without further
        // entries. A disk may allow no more than that
        // - of `Office::open`, `migrate`, `laws::histories_go_on`
        // - by `allows` (`AllowsHistories`), the clause (`HistoriesGoOn`)
        requires allows { AllowsHistories bank.now spec.now D.may_become }
        ensures bank { IfOk result (λ office. office.bank ≡ bank.now) }
        ensures plan { IfOk result (λ office. office.plan ≡ spec.now) }
        ensures base { IfOk result (λ office. office.base ≡ base) }
        ensures opened { IfOk result (λ office. office.opened
            ≡ handed D.content D.accounts D.faults disk) }
        ensures sure { IfOk result (λ office. office.doubt ≡ None) }
        // Promise: The history of an opened office is legal, also over a disk that reports nothing
        ensures legal { IfOk result (λ office. LegalRun bank.now spec.now (history office.marks)) }
        ensures marks { IfOk result (λ office. office.marks ≡ map Old
            (history office.marks) ++ Opened (reach office.marks) ∷ []) }
        // The file represented the history, and so does each file that a crash may leave now.
        // Promise: A file is opened only if its bytes represent a history, which is then the
        // office's. After `Ok` the content and each file that a crash may leave represent it. While
        // it is opened, each such file does too, or is one that a crash might have left before,
        // whether opening succeeds or fails. On a settled disk each does
        // - by `stands`, `images`, `moments` (`AreOpeningMoments`), `moments_err`, `settled`,
        //   `settled_err`, `marks`
        ensures stands { IfOk result (λ office. IsTrue (D.tells disk)
            → Stands bank.now spec.now (history office.marks) (D.content disk)) }
        // Its records were of the second version.
        ensures version { IfOk result (λ office. IsTrue (D.tells disk)
            → (counted_in (D.content disk)).version ≡ 2) }
        // The journal has its payloads.
        // Promise: The journal of an opened office has the payloads of the file that was handed in
        ensures payloads { IfOk result (λ office. IsTrue (D.tells disk)
            → contents (D.content disk) ≡ Some (second (payloads_of office.journal))) }
        // The file was within the journal's limit.
        ensures short { IfOk result (λ office. IsTrue (D.tells disk)
            → length (D.content disk) ≤ spec.now.journal) }
        ensures images { IfOk result (λ office. IsTrue (D.tells disk)
            → AllImages (StandsSecond bank.now spec.now (history office.marks))
            (latest (accounts_of office.journal))) }
        // While it was opened, each such file represented the history, or is one that a crash might
        // have left before.
        ensures moments { IfOk result (λ office. IsTrue (D.tells disk)
            → AreOpeningMoments bank.now spec.now (history office.marks)
            (latest (D.accounts disk)) (D.accounts disk) (accounts_of office.journal)) }
        ensures moments_err { IfErr result (λ e. IsTrue (D.tells disk) → (H : List Entry)
            → Stands bank.now spec.now H (D.content disk)
            → AtEachMoment (D.accounts disk) (D.accounts e.0)
            (IsImageOrStands bank.now spec.now H (latest (D.accounts disk)))) }
        // On a settled disk each represented it.
        ensures settled { IfOk result (λ office. IsTrue (D.tells disk)
            → IsSettled (D.content disk) (D.accounts disk)
            → AtEachMoment (D.accounts disk) (accounts_of office.journal)
            (StandsSecond bank.now spec.now (history office.marks))) }
        ensures settled_err { IfErr result (λ e. IsTrue (D.tells disk)
            → IsSettled (D.content disk) (D.accounts disk) → (H : List Entry)
            → Stands bank.now spec.now H (D.content disk)
            → AtEachMoment (D.accounts disk) (D.accounts e.0) (Stands bank.now spec.now H)) }
        // What is wrong with the file, if anything is. Nothing is wrong with a file within the
        // limit that represents a history by records of the second version.
        // Promise: Another file is refused with its first fault: those of the journal's frames,
        // then the first record that is none or may not follow, with its place. A record is judged
        // with what the bytes leave out: the draws of the other bands, and the step and the band of
        // a setting aside. A mark of proof without its tree is such a fault. `Disk` comes only
        // where the disk's count of faults rose
        // - by `why`, `cause`
        ensures why { IfErr result (λ e. IsTrue (D.tells disk)
            → IsOpenAnswer bank.now spec.now (D.content disk) e.1) }
        ensures cause { IfErr result (λ e. e.1 ≡ OfDisk → Rose (D.faults disk) (D.faults e.0)) }
        // A refusal for any other reason changes nothing, at any moment.
        // Promise: A file that is refused for its frames, for its records, or for lack of memory,
        // is left byte for byte. At each moment a crash leaves what it might have left before
        // - by `untouched`, `unwritten`
        ensures untouched { IfErr result (λ e. e.1 ≢ OfDisk → IsTrue (D.tells disk)
            → D.content e.0 ≡ D.content disk) }
        ensures unwritten { IfErr result (λ e. e.1 ≢ OfDisk → IsTrue (D.tells disk)
            → AtEachMoment (D.accounts disk) (D.accounts e.0)
            (IsImage (latest (D.accounts disk)))) }
        // No other refusal puts anything aside.
        ensures aside_kept { IfErr result (λ e. e.1 ≢ OfDisk → IsTrue (D.tells disk)
            → D.aside e.0 ≡ D.aside disk) }
        // What is cut was put aside before, and nothing else was.
        ensures tail_aside { IfOk result (λ office. IsTrue (D.tells disk)
            → aside_of office.journal ≡ D.aside disk ++ tail_gates (D.content disk)) }
        ensures tail_aside_err { IfErr result (λ e. IsTrue (D.tells disk)
            → PutsTailAside (D.content disk) (D.content e.0) (D.accounts disk) (D.accounts e.0)
            (D.aside disk) (D.aside e.0)) }
        ensures grows { IfOk result (λ office. D.faults disk ≤ faults_of office.journal) }
        ensures tells { IfOk result (λ office. tells_of office.journal ≡ D.tells disk) }
        ensures identity { IfOk result (λ office. identity_of office.journal ≡ D.identity disk) }
        ensures frame_err { IfErr result (λ e. IsLent D.tells D.identity D.faults disk e.0) }
    {
        let opened = HandedIn::of(&disk);
        let mut walk = match Journal::walk(disk, spec.journal()) {
            Ok(walk) => walk,
            Err((disk, fault)) => return Err((disk, journal_fault(fault))),
        };
        if walk.record_version() == 1 {
            return Err((walk.stop(), OpenFault::Version));
        }
        let mut vectors = Some(Vectors::new(alloc));
        let (book, marks) = match take_all(alloc, bank, spec, &mut walk, &mut vectors) {
            Ok(found) => found,
            Err(fault) => return Err((walk.stop(), fault)),
        };
        let Some(vectors) = vectors else {
            unreachable!()
        };
        // Up to here nothing was written. From here on no record is refused.
        let journal = match walk.finish() {
            Ok(journal) => journal,
            Err((disk, fault)) => return Err((disk, journal_fault(fault))),
        };
        Ok(Office {
            bank,
            spec,
            base,
            book,
            journal,
            marks,
            doubt: None,
            vectors,
            opened,
        })
    }

    /// The disk as it is. If it reports its content, the content and each file that a crash may
    /// leave represent the history. If an entry is in doubt, each represents the history or that
    /// with the entry.
    pub fn into_disk(self) -> D
        // Promise: The disk that is handed back represents the history, or, with an entry in doubt,
        // the history with or without that entry
        // - by `content`, `images`, `disk`
        ensures content { IsTrue (D.tells result)
            → IsMending self.entry.bank self.entry.plan (history self.entry.marks) self.entry.doubt
            (D.content result) }
        // With nothing in doubt, the file has the length of the last mark that has one.
        // Promise: With nothing in doubt, its file has the length that the office counts
        ensures length { IsTrue (D.tells result) → self.entry.doubt ≡ None
            → length (D.content result) ≡ reach self.entry.marks }
        ensures images { IsTrue (D.tells result)
            → AllImages (IsMending self.entry.bank self.entry.plan
            (history self.entry.marks) self.entry.doubt) (latest (D.accounts result)) }
        ensures disk { result ≡ disk_of self.entry.journal }
        ensures accounts { D.accounts result ≡ accounts_of self.entry.journal }
        ensures faults { D.faults result ≡ faults_of self.entry.journal }
        ensures tells { D.tells result ≡ tells_of self.entry.journal }
        ensures identity { D.identity result ≡ identity_of self.entry.journal }
    {
        let Office {
            bank: _,
            spec: _,
            base: _,
            book: _,
            journal,
            marks: _,
            doubt: _,
            vectors: _,
            opened: _,
        } = self;
        journal.into_disk()
    }
}
