//! Whether a record may follow the entries of a book.

ghost use Rattle.std.specs.Prelude.{Option, Some, None, IfOk, IfErr};
ghost use Rattle.std.specs.Option.{option_copied};
ghost use Rattle.bank_tables.specs.Items.{Set};
ghost use Rattle.form_model.specs.Forms.{Form};
ghost use Rattle.shadow_select.specs.Next.{HasFreeItem};
ghost use Rattle.form_model.specs.Validity.{IsWellMade};
ghost use Rattle.constraint_model.specs.Views.{problem_of};
ghost use Rattle.history_model.specs.declared.entry.Entry.TheVariants.{Started, SetAside, Served, Answered, Closed};
ghost use Rattle.history_model.specs.SessionProblems.{IsProblemOf};
ghost use Rattle.history_model.specs.Judging.{MayFollow};
ghost use Rattle.history_model.specs.Reasons.{IsIllegal};
ghost use Rattle.exam_session.specs.Waits.{IsNotPending, WaitsForNone};

use crate::book::Book;
use crate::claims::{claim_of_cause, claim_of_mark, shows};
use crate::drawing::first_difference;
use crate::listing::unlisted;
use bank_tables::ItemSet;
use constraint_model::{Problem, meets};
use exam_records::Record;
use history_model::{Bands, Cause, Entry, Illegal, Place, Without};
use proof_tree::Tree;
use shadow_select::next_item;

impl<'a> Book<'a> {
    /// The problem of a session that waits for an item, at whatever step.
    fn problem_now(&self, session: u32) -> Result<Problem<'a>, Illegal>
        ensures problem { IfOk result
            (λ p. IsProblemOf self.now.bank self.now.plan self.now.entries session p.step
            (problem_of p)) }
        ensures well_made { IfOk result (λ p. IsWellMade (problem_of p)) }
        ensures reason { IfErr result
            (WaitsForNone self.now.plan self.now.entries session) }
    {
        let Some(place) = self.place(session) else {
            return Err(Illegal::NoSession(self.sessions()));
        };
        match self.problem(session) {
            Some(problem) => Ok(problem),
            None => Err(Illegal::NotPending(place)),
        }
    }

    /// The problem of a session that waits for an item at a step.
    fn problem_at(&self, session: u32, step: u16) -> Result<Problem<'a>, Illegal>
        ensures problem { IfOk result
            (λ p. IsProblemOf self.now.bank self.now.plan self.now.entries session step
            (problem_of p)) }
        ensures well_made { IfOk result (λ p. IsWellMade (problem_of p)) }
        ensures free { IfOk result (λ p. (X : Set) → Form (problem_of p) X
            → HasFreeItem (problem_of p) X) }
        ensures reason { IfErr result (IsNotPending self.now.plan self.now.entries session step) }
    {
        let Some(place) = self.place(session) else {
            return Err(Illegal::NoSession(self.sessions()));
        };
        if place != Place::Pending(step) {
            return Err(Illegal::NotPending(place));
        }
        match self.problem(session) {
            Some(problem) => Ok(problem),
            None => unreachable!(),
        }
    }

    fn judge_start(
        &self,
        session: u32,
        booking: u64,
        eligible: &Bands,
        without: Option<&Without>,
        tree: Option<&Tree>,
    ) -> Result<(), Illegal>
        ensures may { IfOk result
            (λ _. MayFollow self.now.bank self.now.plan self.now.entries
            (Started session booking eligible.now (option_copied without.entry))
            (option_copied tree.entry)) }
        ensures reason { IfErr result
            (IsIllegal self.now.bank self.now.plan self.now.entries
            (Started session booking eligible.now (option_copied without.entry))
            (option_copied tree.entry)) }
    {
        let count = self.sessions();
        if session != count || session >= self.spec.sessions() {
            return Err(Illegal::NotNumber(count));
        }
        if let Some(holder) = self.booked(booking) {
            return Err(Illegal::Booked(holder));
        }
        if let Some(item) = first_difference(eligible, &self.drawn()) {
            return Err(Illegal::NotDrawn(item));
        }
        if let Some(reason) = unlisted(self.bank, self.spec, without) {
            return Err(reason);
        }
        if tree.is_some() {
            return Err(Illegal::NotSpent(0));
        }
        Ok(())
    }

    fn judge_aside(
        &self,
        session: u32,
        step: u16,
        band: u8,
        cause: Cause,
        nodes: u16,
        tree: Option<&Tree>,
    ) -> Result<(), Illegal>
        ensures may { IfOk result
            (λ _. MayFollow self.now.bank self.now.plan self.now.entries
            (SetAside session step band cause nodes) (option_copied tree.entry)) }
        ensures reason { IfErr result
            (IsIllegal self.now.bank self.now.plan self.now.entries
            (SetAside session step band cause nodes) (option_copied tree.entry)) }
    {
        let problem = match self.problem_now(session) {
            Ok(problem) => problem,
            Err(reason) => return Err(reason),
        };
        if problem.aside {
            return Err(Illegal::IsAside);
        }
        if step != problem.step {
            return Err(Illegal::NotStep(problem.step));
        }
        let now = self.spec.band(problem.theta);
        if band != now {
            return Err(Illegal::NotBand(now));
        }
        shows(&problem, None, claim_of_cause(cause), nodes, tree)
    }

    fn judge_serving(
        &self,
        session: u32,
        step: u16,
        item: u16,
        form: &ItemSet,
        proved: bool,
        nodes: u16,
        tree: Option<&Tree>,
    ) -> Result<(), Illegal>
        ensures may { IfOk result
            (λ _. MayFollow self.now.bank self.now.plan self.now.entries
            (Served session step item form.now proved nodes) (option_copied tree.entry)) }
        ensures reason { IfErr result
            (IsIllegal self.now.bank self.now.plan self.now.entries
            (Served session step item form.now proved nodes) (option_copied tree.entry)) }
    {
        let problem = match self.problem_at(session, step) {
            Ok(problem) => problem,
            Err(reason) => return Err(reason),
        };
        if let Some(breach) = meets(&problem, form) {
            return Err(Illegal::NotForm(breach));
        }
        let next = next_item(&problem, form);
        if item != next {
            return Err(Illegal::NotItem(next));
        }
        shows(&problem, Some(form), claim_of_mark(proved), nodes, tree)
    }

    fn judge_answer(
        &self,
        session: u32,
        step: u16,
        response: u8,
        tree: Option<&Tree>,
    ) -> Result<(), Illegal>
        ensures may { IfOk result
            (λ _. MayFollow self.now.bank self.now.plan self.now.entries
            (Answered session step response) (option_copied tree.entry)) }
        ensures reason { IfErr result
            (IsIllegal self.now.bank self.now.plan self.now.entries (Answered session step response)
            (option_copied tree.entry)) }
    {
        let Some(place) = self.place(session) else {
            return Err(Illegal::NoSession(self.sessions()));
        };
        if tree.is_some() {
            return Err(Illegal::NotSpent(0));
        }
        match place {
            Place::Waiting { step: at, item, .. } if at == step => {
                let categories = self.bank.categories(item);
                if response < categories {
                    Ok(())
                } else {
                    Err(Illegal::BadResponse(categories))
                }
            }
            _ => Err(Illegal::NotWaiting(place)),
        }
    }

    fn judge_closing(&self, session: u32, tree: Option<&Tree>) -> Result<(), Illegal>
        ensures may { IfOk result
            (λ _. MayFollow self.now.bank self.now.plan self.now.entries (Closed session)
            (option_copied tree.entry)) }
        ensures reason { IfErr result
            (IsIllegal self.now.bank self.now.plan self.now.entries (Closed session)
            (option_copied tree.entry)) }
    {
        let Some(place) = self.place(session) else {
            return Err(Illegal::NoSession(self.sessions()));
        };
        if tree.is_some() {
            return Err(Illegal::NotSpent(0));
        }
        match place {
            Place::Pending(_) | Place::Waiting { .. } => Ok(()),
            Place::Complete | Place::Closed => Err(Illegal::Ended(place)),
        }
    }

    /// Tests whether the record of an entry and its proof tree may follow the entries of the book,
    /// and gives otherwise the first reason, in the order of `Illegal`'s variants for the record's
    /// kind. Takes no memory.
    pub fn judge_parts(&self, entry: &Entry, tree: Option<&Tree>) -> Result<(), Illegal>
        // Promise: An entry with a lent tree is judged the same way
        // - by `may`, `reason`
        ensures may { IfOk result
            (λ _. MayFollow self.now.bank self.now.plan self.now.entries entry.now
            (option_copied tree.entry)) }
        ensures reason { IfErr result
            (IsIllegal self.now.bank self.now.plan self.now.entries entry.now
            (option_copied tree.entry)) }
    {
        match *entry {
            Entry::Started {
                session,
                booking,
                eligible,
                without,
            } => self.judge_start(session, booking, &eligible, without.as_ref(), tree),
            Entry::SetAside {
                session,
                step,
                band,
                cause,
                nodes,
            } => self.judge_aside(session, step, band, cause, nodes, tree),
            Entry::Served {
                session,
                step,
                item,
                form,
                proved,
                nodes,
            } => self.judge_serving(session, step, item, &form, proved, nodes, tree),
            Entry::Answered {
                session,
                step,
                response,
            } => self.judge_answer(session, step, response, tree),
            Entry::Closed { session } => self.judge_closing(session, tree),
        }
    }

    /// Tests a record, as its entry and its tree.
    // Promise: Judging has no condition, takes no memory and changes nothing
    // - by its signature
    pub fn judge(&self, rec: &Record) -> Result<(), Illegal>
        // Promise: A record may follow exactly if `judge` answers Ok, its proof tree included. Else
        // the first reason is given with its value, and a record that has a reason may not follow
        // - by `may` (`MayFollow`), `reason` (`IsIllegal`)
        ensures may { IfOk result
            (λ _. MayFollow self.now.bank self.now.plan self.now.entries rec.now.entry
            rec.now.tree) }
        ensures reason { IfErr result
            (IsIllegal self.now.bank self.now.plan self.now.entries rec.now.entry rec.now.tree) }
    {
        self.judge_parts(&rec.entry, rec.tree.as_ref())
    }
}
