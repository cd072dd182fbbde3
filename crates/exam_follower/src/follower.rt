//! The follower.

ghost use Rattle.std.specs.Prelude.{◌≡◌, ◌≢◌, ◌≤◌, List, [], ◌∷◌, ◌++◌, length, map, Some, None, IsTrue, IfOk, IfErr};
ghost use Rattle.bank_tables.specs.Items.{has};
ghost use Rattle.form_model.specs.Forms.{Meets};
ghost use Rattle.form_model.specs.Validity.{IsPlanFor};
ghost use Rattle.exam_edge.specs.Faults.{Rose};
ghost use Rattle.exam_edge.specs.Lent.{IsLent};
ghost use Rattle.exam_edge.specs.Images.{AllImages, AtEachMoment, IsImage, IsSettled, latest};
ghost use Rattle.history_model.specs.declared.entry.Entry.{Entry};
ghost use Rattle.history_model.specs.Judging.{entries_of};
ghost use Rattle.history_model.specs.Legality.{LegalRun};
ghost use Rattle.answer_journal.specs.Standing.{IsAsLeft};
ghost use Rattle.answer_journal.specs.Versions.{contents, second};
ghost use Rattle.answer_journal.specs.Journal.{tells_of, accounts_of, aside_of, faults_of, identity_of, payloads_of};
ghost use Rattle.answer_journal.specs.Opening.{PutsTailAside, tail_gates};
ghost use Rattle.exam_office.specs.Allowing.{AllowsHistories};
ghost use Rattle.exam_office.specs.declared.mark.Mark.TheVariants.{Old, Opened};
ghost use Rattle.exam_office.specs.declared.fault.OpenFault.TheVariants.{Disk as OfDisk};
ghost use Rattle.exam_office.specs.Files.{IsImageOrStands, Stands, StandsSecond};
ghost use Rattle.exam_office.specs.Marks.{history, reach};
ghost use Rattle.exam_office.specs.Moments.{AreOpeningMoments};
ghost use Rattle.exam_office.specs.Opening.{IsOpenAnswer};
ghost use Rattle.exam_office.specs.Running.{handed};
ghost use Rattle.record_links.specs.Replicas.{IsMended};

use bank_tables::{Bank, ItemSet};
use constraint_model::Spec;
use exam_edge::Disk;
use exam_office::{Office, OpenFault};
use exam_records::Record;
use history_log::Counted;
use std::alloc::Global;
use std::marker::Model;

/// An office that keeps a copy of a leader's records.
pub struct Follower<'a, D: Disk> {
    pub(crate) office: Office<'a, D>,
    /// The records that were taken since it was opened, for contracts alone.
    pub(crate) taken: Counted<Record>,
    /// The record in doubt.
    pub(crate) doubt: Option<Record>,
}

impl<'a, D: Disk> Model for Follower<'a, D> {
    ghost use Rattle.exam_follower.specs.Followers.{FollowerState, IsFollower};

    ghost Value = { FollowerState D };

    ghost view = { λ f. record { office = f.office; taken = f.taken; doubt = f.doubt } };

    ghost invariant = { λ f. IsFollower (record {
      office = f.office;
      taken = f.taken;
      doubt = f.doubt;
    }) };
}

impl<'a, D: Disk> Follower<'a, D> {
    ghost use Rattle.exam_follower.specs.Delivering.{HasRecords};
    ghost use Rattle.exam_follower.specs.Followers.{held_of, records_of, found, AreSpelled};
    ghost use Rattle.exam_follower.specs.Takeover.{IsKeptByTakeover, IsKeptOverOpenings};

    /// Opens a follower over a disk, as an office is opened there: its records are those in the
    /// file. The base is a form of the plan alone. The disk is as a reboot or a journal left it. A
    /// refusal gives the disk back.
    pub fn open(
        alloc: Global,
        bank: &'a Bank,
        spec: &'a Spec,
        base: ItemSet,
        disk: D,
    ) -> Result<Follower<'a, D>, (D, OpenFault)>
        requires plan { IsPlanFor bank.now spec.now }
        requires base { Meets bank.now spec.now (has base) }
        requires left { IsTrue (D.tells disk) → IsAsLeft (D.accounts disk) }
        requires allows { AllowsHistories bank.now spec.now D.may_become }
        ensures bank { IfOk result (λ f. f.office.bank ≡ bank.now) }
        ensures plan { IfOk result (λ f. f.office.plan ≡ spec.now) }
        ensures base { IfOk result (λ f. f.office.base ≡ base) }
        ensures opened { IfOk result (λ f. f.office.opened
            ≡ handed D.content D.accounts D.faults disk) }
        ensures sure { IfOk result (λ f. (f.office.doubt ≡ None) × (f.doubt ≡ None)) }
        ensures none { IfOk result (λ f. f.taken ≡ []) }
        ensures marks { IfOk result (λ f. f.office.marks ≡ map Old
            (history f.office.marks) ++ Opened (reach f.office.marks) ∷ []) }
        ensures legal { IfOk result (λ f.
            LegalRun bank.now spec.now (history f.office.marks)) }
        // Its records are those in the file.
        // Promise: A follower is opened as an office is: its records are those of the file, and its
        // history what the file represents. What is cut of the file was put aside before
        // - by `records`, `stands`, `bank`, `plan`, `base`, `opened`, `sure`, `none`, `marks`,
        //   `legal`, `short`, `images`, `settled`, `tail_aside`, `grows`, `tells`, `identity`
        ensures records { IfOk result (λ f. IsTrue (D.tells disk)
            → contents (D.content disk) ≡ Some (second (records_of f))) }
        // The file was within the journal's limit.
        ensures short { IfOk result (λ f. IsTrue (D.tells disk)
            → length (D.content disk) ≤ spec.now.journal) }
        ensures stands { IfOk result (λ f. IsTrue (D.tells disk)
            → Stands bank.now spec.now (history f.office.marks) (D.content disk)) }
        ensures images { IfOk result (λ f. IsTrue (D.tells disk)
            → AllImages (StandsSecond bank.now spec.now (history f.office.marks))
            (latest (accounts_of f.office.journal))) }
        // While it was opened, each such file represented the history, or is one that a crash might
        // have left before.
        ensures moments { IfOk result (λ f. IsTrue (D.tells disk)
            → AreOpeningMoments bank.now spec.now (history f.office.marks)
            (latest (D.accounts disk)) (D.accounts disk) (accounts_of f.office.journal)) }
        // On a settled disk each represented it.
        ensures settled { IfOk result (λ f. IsTrue (D.tells disk)
            → IsSettled (D.content disk) (D.accounts disk)
            → AtEachMoment (D.accounts disk) (accounts_of f.office.journal)
            (StandsSecond bank.now spec.now (history f.office.marks))) }
        // What is wrong with the file, if anything is.
        // Promise: A refusal has the first thing that is wrong with the file, and changes nothing
        // unless the disk failed, which has counted that
        // - by `why`, `cause`, `untouched`, `unwritten`, `settled_err`, `aside_kept`,
        //   `tail_aside_err`, `frame_err`
        ensures why { IfErr result (λ e. IsTrue (D.tells disk)
            → IsOpenAnswer bank.now spec.now (D.content disk) e.1) }
        ensures cause { IfErr result (λ e. e.1 ≡ OfDisk → Rose (D.faults disk) (D.faults e.0)) }
        // A refusal for any other reason changes nothing, at any moment.
        ensures untouched { IfErr result (λ e. e.1 ≢ OfDisk → IsTrue (D.tells disk)
            → D.content e.0 ≡ D.content disk) }
        ensures unwritten { IfErr result (λ e. e.1 ≢ OfDisk → IsTrue (D.tells disk)
            → AtEachMoment (D.accounts disk) (D.accounts e.0)
            (IsImage (latest (D.accounts disk)))) }
        ensures moments_err { IfErr result (λ e. IsTrue (D.tells disk) → (H : List Entry)
            → Stands bank.now spec.now H (D.content disk)
            → AtEachMoment (D.accounts disk) (D.accounts e.0)
            (IsImageOrStands bank.now spec.now H (latest (D.accounts disk)))) }
        ensures settled_err { IfErr result (λ e. IsTrue (D.tells disk)
            → IsSettled (D.content disk) (D.accounts disk) → (H : List Entry)
            → Stands bank.now spec.now H (D.content disk)
            → AtEachMoment (D.accounts disk) (D.accounts e.0) (Stands bank.now spec.now H)) }
        // What is cut was put aside before, and nothing else was; no other refusal puts anything
        // aside.
        ensures aside_kept { IfErr result (λ e. e.1 ≢ OfDisk → IsTrue (D.tells disk)
            → D.aside e.0 ≡ D.aside disk) }
        ensures tail_aside { IfOk result (λ f. IsTrue (D.tells disk)
            → aside_of f.office.journal ≡ D.aside disk ++ tail_gates (D.content disk)) }
        ensures tail_aside_err { IfErr result (λ e. IsTrue (D.tells disk)
            → PutsTailAside (D.content disk) (D.content e.0) (D.accounts disk) (D.accounts e.0)
            (D.aside disk) (D.aside e.0)) }
        ensures grows { IfOk result (λ f. D.faults disk ≤ faults_of f.office.journal) }
        ensures tells { IfOk result (λ f. tells_of f.office.journal ≡ D.tells disk) }
        ensures identity { IfOk result (λ f. identity_of f.office.journal ≡ D.identity disk) }
        ensures frame_err { IfErr result (λ e. IsLent D.tells D.identity D.faults disk e.0) }
    {
        match Office::open(alloc, bank, spec, base, disk) {
            Ok(office) => Ok(Follower {
                office,
                taken: Counted::new(),
                doubt: None,
            }),
            Err(refused) => Err(refused),
        }
    }

    /// How many records it has, without one in doubt.
    pub fn count(&self) -> u64
        // Promise: The count is that of the records, without one in doubt
        ensures { result ≡ length (records_of self.now) }
    {
        self.office.records()
    }

    /// What its type keeps, as a law. The entries of the history are those that were found and
    /// those of the records that it took. Of a disk that reports its content, its records spell the
    /// history, and with none in doubt the journal has them. Each file that a crash may leave has
    /// them, or these with the one in doubt.
    pub fn keeps(&self)
        // Promise: The entries of the history are those found and those of the records taken. Of a
        // disk that reports its content the records spell the history, and with none in doubt the
        // journal has them. Each file that a crash may leave between two calls has them, or these
        // with the one in doubt
        // - by `history`, `spelled`, `journal`, `doubt`, `images`
        ensures history { history self.now.office.marks
            ≡ found self.now.office.marks ++ entries_of self.now.taken }
        ensures spelled { IsTrue (tells_of self.now.office.journal)
            → AreSpelled (records_of self.now) (history self.now.office.marks) }
        ensures doubt { (self.now.doubt ≡ None → self.now.office.doubt ≡ None)
            × (self.now.office.doubt ≡ None → self.now.doubt ≡ None) }
        ensures journal { self.now.doubt ≡ None → IsTrue (tells_of self.now.office.journal)
            → payloads_of self.now.office.journal ≡ records_of self.now }
        ensures images { IsTrue (tells_of self.now.office.journal)
            → AllImages (HasRecords (IsMended (held_of self.now)))
            (latest (accounts_of self.now.office.journal)) }
    {
        self.office.holds();
    }

    /// The office of it, which goes on where it is: a takeover. Its history is the entries of the
    /// follower, and it has each record that the follower answered for.
    pub fn promote(self) -> Office<'a, D>
        // Promise: A takeover goes on with the follower's office and entries. Each record of the
        // leader that is numbered below a have answered since the follower was opened has its entry
        // there
        // - by `office`, `history`, `answered` (`IsKeptByTakeover`)
        ensures office { result ≡ self.entry.office }
        ensures history { history result.marks
            ≡ found result.marks ++ entries_of self.entry.taken }
        // Whatever happened to a leader and this follower of it, by its rule: each record that is
        // numbered below a have which the follower answered has its entry, the leader's, in the
        // history.
        ensures answered { IsTrue (tells_of result.journal) → IsKeptByTakeover self.entry
            (history result.marks) }
        // So it is of the haves of all openings, which are events by one rule:
        // `laws::all_in_one_world`.
        // Promise: So has each that is numbered below a have answered in any opening of the file,
        // since that was a beginning of the leader's. The rule is that of the bank and the plan,
        // for all openings
        // - by `ever` (`IsKeptOverOpenings`)
        ensures ever { IsTrue (tells_of result.journal) → IsKeptOverOpenings self.entry
            (history result.marks) }
    {
        let Follower {
            office,
            taken: _,
            doubt: _,
        } = self;
        office
    }
}
