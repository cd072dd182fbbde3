//! What an office reports, and what it was opened with.

ghost use Rattle.std.specs.Prelude.{◌≡◌, ℕ, ◌≤◌, Some, IsTrue, IfOk, IfErr, IfSome, IfNone};
ghost use Rattle.form_model.specs.Validity.{IsPlanFor, IsWellMade};
ghost use Rattle.constraint_model.specs.Views.{problem_of};
ghost use Rattle.history_model.specs.declared.place.Place.TheVariants.{Pending};
ghost use Rattle.history_model.specs.declared.refusal.Refusal.TheVariants.{Memory as OutOfMemory};
ghost use Rattle.history_model.specs.Places.{place};
ghost use Rattle.history_model.specs.Requests.{IsExposureOf};
ghost use Rattle.history_model.specs.SessionProblems.{IsProblemOf};
ghost use Rattle.history_model.specs.Summaries.{summary};
ghost use Rattle.exam_office.specs.Marks.{history, AreMarks, AreCounted};
ghost use Rattle.exam_office.specs.Noting.{IsDoubtOf};
ghost use Rattle.form_model.specs.Forms.{Meets};
ghost use Rattle.bank_tables.specs.Items.{has};
ghost use Rattle.history_model.specs.Legality.{LegalRun};
ghost use Rattle.exam_office.specs.Moments.{AreMoments};
ghost use Rattle.answer_journal.specs.Journal.{tells_of, accounts_of, faults_of, start_of};
ghost use Rattle.answer_journal.specs.Walk.{first_gate};

use crate::office::Office;
use bank_tables::{Bank, ItemSet, List};
use constraint_model::{Problem, Spec};
use exam_edge::{Disk, Memory};
use exposure_counters::Counters;
use history_model::{Counts, Exposure, Refusal, Summary};
use std::alloc::Global;

/// The counts of each item, in order.
#[tactic(auto, using(crate::proofs::Reported::row_more, crate::proofs::Reported::rows_end))]
fn rows_of(alloc: Global, counters: &Counters) -> Result<List<Counts>, Memory>
    ensures { IfOk result (λ rows. rows ≡ counters.now.counts) }
{
    let mut rows = Vec::new(alloc);
    for item in 0..counters.items() {
        rows.push(counters.read(item))?;
    }
    Ok(List::of(rows))
}

impl<'a, D: Disk> Office<'a, D> {
    /// The problem of a session that waits for an item; none where it doesn't.
    pub fn problem(&self, session: u32) -> Option<Problem<'a>>
        ensures problem { IfSome result (λ p. IsProblemOf self.now.bank self.now.plan
            (history self.now.marks) session p.step (problem_of p)) }
        ensures well_made { IfSome result (λ p. IsWellMade (problem_of p)) }
        ensures none { IfNone result ((step : ℕ)
            → place self.now.plan (history self.now.marks) session ≡ Some (Pending step) → ⊥) }
    {
        self.book.problem(session)
    }

    /// The number of finished sessions, and the exposure counts of each item of the bank. Fails
    /// only where it is out of memory.
    #[tactic(auto, using(crate::proofs::Reported::exposed))]
    pub fn exposure(&self, alloc: Global) -> Result<Exposure, Refusal>
        ensures exposure { IfOk result (λ exposure. IsExposureOf self.now.bank self.now.plan
            (history self.now.marks) exposure) }
        ensures memory { IfErr result (λ refusal. refusal ≡ OutOfMemory) }
    {
        let counters = self.book.counters();
        match rows_of(alloc, counters) {
            Ok(rows) => Ok(Exposure {
                finished: counters.finished(),
                rows,
            }),
            Err(_) => Err(Refusal::Memory),
        }
    }

    /// The history in numbers. It takes no memory.
    pub fn summary(&self) -> Summary
        ensures { result ≡ summary self.now.plan (history self.now.marks) }
    {
        self.book.summary()
    }

    /// The base form.
    pub fn base(&self) -> ItemSet
        ensures { result ≡ self.now.base }
    {
        self.base
    }

    /// The bank.
    pub fn bank(&self) -> &'a Bank
        // Promise: The bank, the plan and the base are those it was opened with
        // - of `Office::bank`, `Office::spec`, `Office::base`
        ensures { result.now ≡ self.now.bank }
    {
        self.bank
    }

    /// The plan.
    pub fn spec(&self) -> &'a Spec
        ensures { result.now ≡ self.now.plan }
    {
        self.spec
    }

    /// What the type keeps, as a law: the plan is valid for the bank; the history is a legal run;
    /// the marks are in order; there are no more faults among them than the disk's count rose since
    /// it was handed in, and that count is no lower; an entry in doubt is that of the last mark, a
    /// fault. The base is a form of the plan alone. While the office was opened, each file that a
    /// crash may leave represents the history that was found, or is one that a crash might have
    /// left before. At each moment since, it represents the history of the marks so far, or that
    /// with the one entry in hand.
    pub fn keeps(&self)
        // Promise: By its type, an office's plan is valid for its bank, its history is a legal run,
        // and the base is a form of the plan. Its marks are in order, and an entry in doubt is that
        // of the last mark. There are no more faults among the marks than the disk's count rose
        // since it was handed in, or that count is at its last value. The count is no lower than it
        // was then
        // - by `plan`, `run`, `marks`, `counted`, `grows`, `doubt`, `base`
        ensures plan { IsPlanFor self.now.bank self.now.plan }
        ensures run { LegalRun self.now.bank self.now.plan (history self.now.marks) }
        ensures marks { AreMarks self.now.marks }
        ensures counted { AreCounted self.now.marks self.now.opened.faults
            (faults_of self.now.journal) }
        ensures grows { self.now.opened.faults ≤ faults_of self.now.journal }
        ensures doubt { IsDoubtOf self.now.marks self.now.doubt }
        ensures base { Meets self.now.bank self.now.plan (has self.now.base) }
        // The first record that counts is where it was in the file that was handed in.
        ensures start { IsTrue (tells_of self.now.journal)
            → start_of self.now.journal ≡ first_gate self.now.opened.content }
        // Promise: By its type, an office knows each moment since its disk was handed in. While it
        // was opened, each file that a crash may leave represents the history that was found, or is
        // one that a crash might have left before. From then on it represents the history of the
        // marks so far, or that with the one entry in hand. So each represents the history of the
        // office at some moment, or that with the one entry in doubt then
        // - of `Office::keeps`, `laws::each_moment_stands`
        // - by `moments` (`AreMoments`, `AreOpeningMoments`, `IsInHand`), `EachMomentStands`
        //   (`AreOnTheWay`)
        ensures moments { IsTrue (tells_of self.now.journal)
            → AreMoments self.now.bank self.now.plan self.now.opened.accounts self.now.marks
            (accounts_of self.now.journal) }
    {
        let _ = self.book.entries();
    }
}
