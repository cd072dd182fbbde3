//! What was assembled is made an entry.

ghost use Rattle.std.specs.Prelude.{◌≡◌, ◌↔◌, true, Some, IsTrue, IfOk, IfErr, IfSome, IfNone, OnOk};
ghost use Rattle.bank_tables.specs.Items.{Set};
ghost use Rattle.exam_edge.specs.Lent.{IsLent};
ghost use Rattle.exam_edge.specs.Images.{AllImages, AtEachMoment, latest};
ghost use Rattle.form_model.specs.Forms.{Form};
ghost use Rattle.form_model.specs.Plan.{band_of};
ghost use Rattle.form_model.specs.Validity.{IsWellMade};
ghost use Rattle.constraint_model.specs.Views.{problem_of};
ghost use Rattle.shadow_select.specs.Next.{HasFreeItem};
ghost use Rattle.branch_bound.specs.Assemblies.{IsFirmOutcome};
ghost use Rattle.history_model.specs.declared.entry.Entry.TheVariants.{SetAside};
ghost use Rattle.history_model.specs.Judging.{MayFollow};
ghost use Rattle.history_model.specs.declared.place.Place.TheVariants.{Pending};
ghost use Rattle.history_model.specs.Places.{place};
ghost use Rattle.answer_journal.specs.Journal.{tells_of, accounts_of, faults_of, identity_of};
ghost use Rattle.exam_office.specs.Files.{StandsSecond};
ghost use Rattle.exam_office.specs.Marks.{history};
ghost use Rattle.exam_office.specs.Writing.{IsSameOffice};
ghost use Rattle.exam_office.specs.Calls.{refuse, add, Calls, IsLeft, refused_with};
ghost use Rattle.history_model.specs.Entries.{is_started};
ghost use Rattle.exam_office.specs.Commits.{IsEntryFor, IsWaitingFor, IsStaleBy, FindsCommit, MayBeCommitted};

use crate::office::Office;
use branch_bound::{Assembled, Outcome};
use constraint_model::Problem;
use exam_edge::Disk;
use history_model::laws::may_is_legal;
use history_model::{Cause, Entry, Place, Refusal};
use shadow_select::next_item;
use std::alloc::Global;

/// Whether the place waits for the item of a step, and two flags are the same.
fn is_still(place: &Place, step: u16, now: bool, then: bool) -> bool
    ensures { IsTrue result ↔ (place.now ≡ Pending step) × (now ≡ then) }
{
    *place == Place::Pending(step) && now == then
}

/// The entry that sets eligibility aside in the band of the problem's estimate.
fn setting_aside(asked: &Problem, cause: Cause, nodes: u16) -> Entry
    requires { IsWellMade (problem_of asked.now) }
    ensures { result ≡ SetAside asked.now.session asked.now.step
        (band_of (problem_of asked.now).plan asked.now.theta) cause nodes }
{
    Entry::SetAside {
        session: asked.session,
        step: asked.step,
        band: asked.spec.band(asked.theta),
        cause,
        nodes,
    }
}

/// The entry that an outcome of a problem is made.
fn entry_for(asked: &Problem, outcome: &Outcome, nodes: u16) -> Entry
    requires well_made { IsWellMade (problem_of asked.now) }
    requires form { IsFirmOutcome (problem_of asked.now) outcome.now }
    requires free { (X : Set) → Form (problem_of asked.now) X
        → HasFreeItem (problem_of asked.now) X }
    ensures { IsEntryFor (problem_of asked.now) nodes outcome.now result }
{
    match outcome {
        Outcome::Found { form, proved } => Entry::Served {
            session: asked.session,
            step: asked.step,
            item: next_item(asked, form),
            form: *form,
            proved: *proved,
            nodes,
        },
        Outcome::NoForm => setting_aside(asked, Cause::NoForm, nodes),
        Outcome::NoneFound => setting_aside(asked, Cause::Spent, nodes),
    }
}

impl<'a, D: Disk> Office<'a, D> {
    /// The place of a session and whether its eligibility is set aside in the band of its estimate,
    /// unless it still waits for the item of this step with this flag.
    fn find_stale(&self, session: u32, step: u16, aside: bool) -> Option<(Place, bool)>
        requires { is_started (history self.now.marks) session ≡ true }
        ensures none { IfNone result (IsWaitingFor self.now.bank self.now.plan
            (history self.now.marks) session step aside) }
        ensures some { IfSome result (λ at. IsStaleBy self.now.bank self.now.plan
            (history self.now.marks) session step aside at.0 at.1) }
    {
        let now_aside = self.book.is_aside(session);
        let Some(place) = self.book.place(session) else {
            unreachable!()
        };
        if is_still(&place, step, now_aside, aside) {
            return None;
        }
        Some((place, now_aside))
    }

    /// The entry that what was assembled is made, or why it is stale.
    fn find_commit(&self, assembled: &Assembled<'a>) -> Result<Entry, Refusal>
        requires { MayBeCommitted self.now.bank self.now.plan self.now.base
            (history self.now.marks) assembled.now }
        ensures found { IfOk result (λ entry. FindsCommit self.now.bank self.now.plan assembled.now
            (history self.now.marks) (add entry)) }
        ensures may { IfOk result (λ entry. MayFollow self.now.bank self.now.plan
            (history self.now.marks) entry (Some assembled.now.tree)) }
        ensures refused { IfErr result
            (λ refusal. FindsCommit self.now.bank self.now.plan assembled.now
            (history self.now.marks) (refuse refusal)) }
    {
        may_is_legal();
        let _ = self.book.entries();
        let problem = assembled.problem();
        if let Some((place, aside)) = self.find_stale(
            problem.session,
            problem.step,
            problem.aside,
        ) {
            return Err(Refusal::Stale(place, aside));
        }
        let Some(asked) = self.book.problem(problem.session) else {
            unreachable!()
        };
        let outcome = assembled.outcome();
        let nodes = assembled.tree().nodes().len() as u16;
        Ok(entry_for(&asked, &outcome, nodes))
    }

    /// Makes what was assembled the session's next entry: its item is served, or eligibility is set
    /// aside.
    pub fn commit(&mut self, alloc: Global, assembled: &Assembled<'a>) -> Result<Place, Refusal>
        requires { MayBeCommitted self.old.bank self.old.plan self.old.base
            (history self.old.marks) assembled.now }
        ensures same { IsSameOffice self.old self.new }
        // Promise: An assembled form is committed only for a session that still waits for it, with
        // eligibility in the band of its estimate set aside or not as then; else the reply is where
        // the session is now, and that flag
        // - of `Office::commit`, `laws::may_be_committed`
        // - by `call` (`FindsCommit`)
        ensures call { Calls
            (FindsCommit self.old.bank self.old.plan assembled.now) self.old self.new
            (refused_with result) }
        ensures at { IfOk result (λ at. place self.new.plan
            (history self.new.marks) assembled.now.problem.session ≡ Some at) }
        ensures images { OnOk result (IsTrue (tells_of self.old.journal)
            → AllImages (StandsSecond self.old.bank self.old.plan (history self.new.marks))
            (latest (accounts_of self.new.journal))) }
        ensures moments { IsTrue (tells_of self.old.journal)
            → AtEachMoment (accounts_of self.old.journal) (accounts_of self.new.journal)
            (IsLeft self.old.bank self.old.plan
            (FindsCommit self.old.bank self.old.plan assembled.now)
            (history self.old.marks) self.old.doubt) }
        ensures frame { IsLent tells_of identity_of faults_of self.old.journal self.new.journal }
    {
        match self.settle() {
            Ok(()) => {}
            Err(refusal) => return Err(refusal),
        }
        match self.find_commit(assembled) {
            Err(refusal) => Err(refusal),
            Ok(entry) => match self.write(alloc, &entry, Some(assembled.tree())) {
                Ok(()) => self.look(assembled.problem().session),
                Err(refusal) => Err(refusal),
            },
        }
    }
}
