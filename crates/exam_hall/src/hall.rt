//! The hall.

ghost use Rattle.std.specs.Prelude.{◌≡◌, ◌<◌, ◌+◌, List, length, IfOk, IfErr, IfSome};
ghost use Rattle.std.specs.Option.{option_copied};
ghost use Rattle.bank_tables.specs.Items.{has};
ghost use Rattle.form_model.specs.Validity.{IsWellMade};
ghost use Rattle.certificate_model.specs.Verdicts.{NamesOnlySides};
ghost use Rattle.constraint_model.specs.Views.{problem_of};
ghost use Rattle.turn_lock.specs.Histories.{StartsWith};
ghost use Rattle.turn_lock.specs.Passes.{KnowsAll, TakesIn, new_pass};
ghost use Rattle.history_model.specs.declared.entry.Entry.{Entry};
ghost use Rattle.history_model.specs.Legality.{LegalRun};
ghost use Rattle.history_model.specs.Lists.{IsListFor};
ghost use Rattle.history_model.specs.SessionProblems.{IsProblemOf};
ghost use Rattle.exam_office.specs.Calls.{IsWitness};
ghost use Rattle.exam_office.specs.Commits.{MayBeCommitted};
ghost use Rattle.exam_handler.specs.Handling.{IsProbeRefusal, IsReply};
ghost use Rattle.exam_office.specs.Marks.{history};
ghost use Rattle.exam_office.specs.Noting.{noted, marks_of, opened_with};
ghost use Rattle.exam_office.specs.Serving.{IsAssembledFor};
ghost use Rattle.exam_office.specs.Warm.{FitsPlan};
ghost use Rattle.exam_office.specs.Leading.{IsWitnessFor};
ghost use Rattle.exam_hall.specs.Leading.{IsAsked};
ghost use Rattle.exam_hall.specs.Foreseeing.{Foresees};
ghost use Rattle.exam_hall.specs.Known.{HasGrown, IsOf, IsOfficeOf, marked};
ghost use Rattle.exam_hall.specs.Prepared.{IsPrepared, FitsFor, KeepsFor};
ghost use Rattle.exam_hall.specs.Rounds.{IsGoodFor, IsEntryOf, IsOfStep, Rounds, Assembles};
ghost use Rattle.exam_hall.specs.Used.{AddsOwn, Uses, UsesFirst};
ghost use Rattle.exam_hall.specs.Probes.{Probes, Watches};
ghost use Rattle.exam_hall.specs.Sees.{Sees};
ghost use Rattle.exam_hall.specs.Turns.{HasBegun};

use crate::asking::{First, FirstAnswer};
use crate::committing::{Commit, Round};
use crate::prepared::made_for;
use crate::preparing::{Ahead, Foresee};
use crate::probing::{Probe, Watch};
use bank_tables::{Bank, ItemSet};
use branch_bound::{Assembled, assemble_from};
use constraint_model::{Problem, Spec};
use exam_edge::{Disk, Gate, Memory, Point};
use exam_handler::Health;
use exam_office::{Office, Place, Refusal, Reply, Request, needs_search, search_witness};
use proof_tree::Vector;
use std::alloc::Global;
use std::marker::Model;
use std::sync::Wait;
use turn_lock::{Pass, Turn};

/// An office that callers share, each with a pass. Contracts see the hall's lock, and the bank, the
/// plan and the base form of its office. It can't be dropped: `close` ends it, and gives the office
/// back.
pub struct Hall<'a, D: Disk> {
    turn: Turn<Office<'a, D>>,
    bank: &'a Bank,
    spec: &'a Spec,
    base: ItemSet,
}

impl<'a, D: Disk> Model for Hall<'a, D> {
    ghost use Rattle.bank_tables.specs.Items.{has};
    ghost use Rattle.form_model.specs.Forms.{Meets};
    ghost use Rattle.form_model.specs.Validity.{IsPlanFor};
    ghost use Rattle.exam_hall.specs.Known.{HallKnown};

    ghost Value = { HallKnown };

    ghost view = { λ h. record {
      lock = h.turn;
      bank = h.bank.now;
      plan = h.spec.now;
      base = h.base;
    } };

    ghost invariant = { λ h. Meets h.bank.now h.spec.now (has h.base)
        × IsPlanFor h.bank.now h.spec.now };
}

impl<'a, D: Disk> Hall<'a, D> {
    /// A hall over an office, and its first pass, which has seen all marks of the office. Out of
    /// memory, the office is given back as it was.
    pub fn new(
        alloc: Global,
        office: Office<'a, D>,
    ) -> Result<(Hall<'a, D>, Pass<Office<'a, D>>), Office<'a, D>>
        // Promise: A new hall's pass has seen all marks of the office. If memory runs out the
        // office is handed back as it was
        // - by `pass`, `office`, `same`
        ensures pass { IfOk result (λ r. r.1
            ≡ new_pass r.0.lock 0
            (length (noted (opened_with office.entry) office.entry.marks))
            (noted (opened_with office.entry) office.entry.marks)) }
        ensures office { IfOk result (λ r. IsOfficeOf (opened_with office.entry) r.0) }
        // Promise: A pass stays one of the hall, whose office has the hall's bank, plan and base
        // - of `Hall::new`, `Hall::split`, `Hall::join`, `Hall::handle`, `Hall::ahead`,
        //   `Caller::into_pass`
        // - by `of` (`IsOf`)
        ensures of { IfOk result (λ r. IsOf r.1 r.0) }
        ensures same { IfErr result (λ o. o ≡ office.entry) }
    {
        office.keeps();
        let bank = office.bank();
        let spec = office.spec();
        let base = office.base();
        match Turn::new(alloc, office) {
            Ok((turn, pass)) => Ok((
                Hall {
                    turn,
                    bank,
                    spec,
                    base,
                },
                pass,
            )),
            Err(office) => Err(office),
        }
    }

    /// A new pass, which has seen as much as the first one. It takes no memory. Only the first pass
    /// is split, at most 65,535 times.
    pub fn split(&self, pass: &mut Pass<Office<'a, D>>) -> Pass<Office<'a, D>>
        requires of { IsOf pass.old self.now }
        requires first { (pass.old.number ≡ 0) × (pass.old.splits < 65535) }
        // Promise: A split pass has seen as much, and has a new number; a joined pass has the
        // longer of what two passes have seen, and no entry was the own of both
        // - of `Hall::split`, `Hall::join`
        // - by `pass`, `new`, `new_of`, `joined`
        ensures pass { pass.new ≡ record pass.old { splits = pass.old.splits + 1 } }
        ensures new { result ≡ new_pass self.now.lock (pass.old.splits + 1) pass.old.start
            pass.old.seen }
        ensures of { IsOf pass.new self.now }
        ensures new_of { IsOf result self.now }
    {
        self.turn.split(pass)
    }

    /// Joins another pass into this one, which has then seen the longer of what the two have seen,
    /// and has both their places for its own.
    pub fn join(&self, pass: &mut Pass<Office<'a, D>>, other: Pass<Office<'a, D>>)
        requires of { IsOf pass.old self.now }
        requires other_of { IsOf other self.now }
        ensures joined { TakesIn pass.old other.entry pass.new }
        ensures of { IsOf pass.new self.now }
    {
        self.turn.join(pass, other);
    }

    /// Waits for a last turn, and gives the office that is found then. Its marks begin with all
    /// that the pass has seen. If the pass is the first one, and each pass that was split from it
    /// was joined into it, it has seen all marks, and each mark since the hall was made is its own.
    /// Else nothing is promised of marks that only other passes have seen.
    pub fn close<R: Wait>(self, rt: &R, pass: Pass<Office<'a, D>>) -> Office<'a, D>
        requires of { IsOf pass self }
        // Promise: The office at the end has a list of marks that begins with all that the closing
        // pass has seen, and was opened with the same bank, plan, base and disk
        ensures begins { StartsWith (noted (opened_with result) result.marks)
            pass.entry.seen }
        // Promise: If the closing pass is the first one, and as many passes were joined into it as
        // were split from it, each mark since the hall was made is its own
        // - by `all` (`KnowsAll`)
        ensures all { KnowsAll (noted (opened_with result) result.marks) pass.entry }
    {
        let Hall {
            turn,
            bank: _,
            spec: _,
            base: _,
        } = self;
        turn.close(rt, pass)
    }

    /// The base form. It takes no memory.
    pub fn base(&self) -> ItemSet
        // Promise: The base form of a hall can be read
        ensures { result ≡ self.now.base }
    {
        self.base
    }

    /// Answers a request, in one turn, and two more at most. Where its session waits for an item, a
    /// form is assembled between two turns, and the gate is passed before and after that. If the
    /// session moved on meanwhile, its place is the reply; if it still waits at the same step,
    /// there is one assembly more. Before the first turn of a request with a list, a form without
    /// the items of the list is assembled where the base has one of them; the gate is passed before
    /// and after that too. It waits for its turns.
    pub fn handle<G: Gate, R: Wait>(
        &self,
        rt: &R,
        alloc: Global,
        gate: &G,
        pass: &mut Pass<Office<'a, D>>,
        request: &Request,
    ) -> Reply
        requires of { IsOf pass.old self.now }
        // Promise: A request makes one turn on the office, and at most two more. What the pass had
        // seen begins what it has seen afterwards, and the history is a legal run. The lengths
        // after the turns never fall, and the last is that of all that the pass has seen
        // - by `sees` (`Sees`, `Went`)
        // Promise: What the call adds is its own, each entry once, in order, at places after all
        // that the pass had seen: the request's first entry, then eligibility set aside, then an
        // item served; or a part of these. Entries of other callers may come between
        // - by `sees` (`IsPartOf`)
        // Promise: An item is served, and eligibility set aside, only in a session that the history
        // has, for an answer only where that is recorded
        // - by `sees` (`IsServedFor`)
        // Promise: Each form that the call served from is one that no exchange of one item betters,
        // and is no worse than the base and the form before where these are forms. Eligibility is
        // set aside with a spent budget only where neither the base nor the form before is one.
        // Before the first item of a session with a list, the form before is that of the start. All
        // this is by the history before the entry
        // - by `sees` (`AreGoodAt`)
        // Promise: The place of the reply is that of the request's session after the history that
        // the pass has seen. A booking gives its session; for a request with a list, that session
        // was started with the list. If an answer or a closing names a booking, the session is that
        // of this booking. An answer is in that history, and a closing was added by this call.
        // `fresh` is true exactly where this call started the session
        // - by `sees` (`IsAt`, `IsSessionOf`, `IsOfNamed`)
        // Promise: A reply that a session still waits for an item comes only where other callers
        // served and answered in that session after the call's first turn
        // - by `sees` (`MovedOn`)
        // Promise: A refusal by a test is the first one that applies to the history, and nothing
        // was added. So it is with `OtherBooking`, which comes by a test alone
        // - by `sees` (`IsRefusedBy`)
        // Promise: A request with a list is also refused where no form without its items is known:
        // no set is one, or a search spent the base budget and found none. Then no test refuses it,
        // its booking has no session, and nothing was added
        // - by `sees` (`IsNotBegunBy`, `LacksForm`)
        // Promise: A request that stops has not served an item. Either it has added nothing, and
        // its first entry may follow; of a request with a list, its booking then has no session,
        // and no test refuses it. Or its session waited for an item after the first turn, and still
        // waits. Where the last mark is a fault, the history may not have been tested
        // - by `sees` (`IsUnfinished`)
        // Promise: If a request stops because the journal is full, the length named is that with a
        // record of such an entry that may follow. A fault of the disk is the last mark, which this
        // call added, of such an entry or of the one that was in doubt. With any other reply the
        // call adds no fault
        // - by `sees` (`Fails`, `NoFault`)
        // Promise: The exposure counts are those of the history, and nothing was added
        // - by `sees` (`IsExposed`)
        ensures sees { Sees self.now (marked pass.old) (marked pass.new) request.now result }
        ensures of { IsOf pass.new self.now }
        ensures grown { HasGrown pass.old pass.new }
        // Promise: No reply is Stale, and the place of `IsClosed` is an end
        ensures reply { IsReply result }
    {
        self.handle_prepared(rt, alloc, gate, pass, request, None)
    }

    /// Answers a request so, with what was assembled ahead. If its whole problem is the one that
    /// the first turn finds, it is committed in place of the first assembly; else it is dropped. So
    /// a result for another response, for a step that is over or for a session that was closed
    /// meanwhile is not used.
    /// Where a form is ready for the answer, an item that is served at the next step is one of that
    /// form, unless another caller set eligibility aside for the session meanwhile.
    pub fn handle_prepared<G: Gate, R: Wait>(
        &self,
        rt: &R,
        alloc: Global,
        gate: &G,
        pass: &mut Pass<Office<'a, D>>,
        request: &Request,
        prepared: Option<Assembled<'a>>,
    ) -> Reply
        requires of { IsOf pass.old self.now }
        requires prepared { IfSome prepared (IsPrepared self.now.bank self.now.plan self.now.base) }
        // Promise: A request keeps each of these promises with a form that was prepared too. That
        // is any assembly of the office's bank and plan, within the plan's budget, with the base as
        // the hint
        // - by `sees`, `reply`, `of`, `grown` (`IsPrepared`)
        ensures sees { Sees self.now (marked pass.old) (marked pass.new) request.now result }
        ensures of { IsOf pass.new self.now }
        ensures grown { HasGrown pass.old pass.new }
        // Promise: Where a form is ready for the answer of a request, the item that the request
        // serves at the next step is the next item of that form, with its mark and the number of
        // nodes of its tree. A form is ready if it was found for the problem that the session has
        // with this response after a history at or before the call. After that history no other
        // caller may set eligibility aside for the session
        // - by `used` (`Uses`, `IsReady`)
        ensures used { IfSome prepared.entry (Uses self.now (marked pass.old) (marked pass.new)
            request.now) }
        ensures reply { IsReply result }
    {
        let witness = self.seek(alloc, gate, pass.number(), request);
        match self.begin(rt, alloc, pass, request, witness) {
            FirstAnswer::Done(reply) => reply,
            FirstAnswer::Waits {
                fresh,
                problem,
                warm,
            } => {
                let session = problem.session;
                let fitting = self.fitting(prepared, &problem);
                match self.assemble_twice(rt, alloc, gate, pass, &problem, warm.as_ref(), fitting) {
                    Ok(place) => Reply::At {
                        session,
                        place,
                        fresh,
                    },
                    Err(refusal) => Reply::Refused(refusal),
                }
            }
        }
    }

    /// Answers how the examination is, in one turn, after the entry in doubt is resolved. It waits
    /// for its turn. Refused where the disk failed again, or where there is no room for a mark.
    pub fn probe<R: Wait>(&self, rt: &R, pass: &mut Pass<Office<'a, D>>) -> Result<Health, Refusal>
        requires of { IsOf pass.old self.now }
        // Promise: A look at the health makes one turn, and adds no entry of its own. It gives the
        // health of the history that the pass has seen then; a fault of the disk is the last mark.
        // An observer's look adds nothing at all
        // - of `Hall::probe`, `Hall::health`
        // - by `probes` (`Probes`), `watches` (`Watches`), `refusal`
        ensures probes { Probes self.now (marked pass.old) (marked pass.new) result }
        ensures of { IsOf pass.new self.now }
        ensures grown { HasGrown pass.old pass.new }
        ensures refusal { IfErr result IsProbeRefusal }
    {
        self.turn.turn(rt, pass, &mut Probe)
    }

    /// How the examination is, without the entry in doubt, if there is one. It takes one turn,
    /// which adds nothing, and no memory. It waits for its turn.
    pub fn health<R: Wait>(&self, rt: &R, pass: &mut Pass<Office<'a, D>>) -> Health
        requires of { IsOf pass.old self.now }
        ensures watches { Watches self.now (marked pass.old) (marked pass.new) result }
        ensures of { IsOf pass.new self.now }
        ensures grown { HasGrown pass.old pass.new }
    {
        self.turn.turn(rt, pass, &mut Watch)
    }

    /// What the form of a session's next step can be assembled from, before this answer comes. It
    /// takes one turn, which adds nothing. It waits for its turn.
    pub fn ahead<R: Wait>(
        &self,
        rt: &R,
        alloc: Global,
        pass: &mut Pass<Office<'a, D>>,
        session: u32,
        response: u8,
    ) -> Ahead<'a>
        requires of { IsOf pass.old self.now }
        // Promise: A look ahead makes one turn and adds nothing. It finds that no step follows, or
        // a problem and a vector that the search of it may begin with. The session has this problem
        // once the response is recorded and the next item is to be served, if eligibility in its
        // band is set aside or not as in the problem
        // - by `foresees` (`Foresees`, `IsNextProblem`, `LeadsTo`, `HasNextStep`)
        ensures foresees { Foresees self.now session response (marked pass.old) (marked pass.new)
            result }
        ensures of { IsOf pass.new self.now }
        ensures grown { HasGrown pass.old pass.new }
    {
        let mut foresee = Foresee {
            alloc,
            session,
            response,
        };
        self.turn.turn(rt, pass, &mut foresee)
    }

    /// What is assembled for a problem before the answer that leads to it comes, from a vector or
    /// from none. `handle_prepared` may have it. The gate is passed before and after the assembly.
    /// It takes no turn.
    pub fn prepare<G: Gate>(
        &self,
        alloc: Global,
        gate: &G,
        caller: u32,
        problem: &Problem<'a>,
        warm: Option<&Vector>,
    ) -> Result<Assembled<'a>, Memory>
        requires well_made { IsWellMade (problem_of problem.now) }
        requires bank { problem.now.bank.now ≡ self.now.bank }
        requires plan { problem.now.spec.now ≡ self.now.plan }
        requires fits { IfSome (option_copied warm) (FitsPlan self.now.bank self.now.plan) }
        // Promise: What is assembled ahead is of the problem that was handed in, and may be handed
        // to a request
        // - by `problem`, `prepared` (`IsPrepared`)
        ensures problem { IfOk result (λ a. a.problem ≡ problem.now) }
        ensures prepared { IfOk result (IsPrepared self.now.bank self.now.plan self.now.base) }
    {
        gate.pass(Point::BeforeAssembly, caller);
        let made = self.assembled(alloc, problem, warm);
        gate.pass(Point::AfterAssembly, caller);
        made
    }

    /// A form without the items of a request's list, or why none is known. A request without a list
    /// needs none, and gets the base.
    fn seek<G: Gate>(
        &self,
        alloc: Global,
        gate: &G,
        caller: u32,
        request: &Request,
    ) -> Result<ItemSet, Refusal>
        ensures { IsWitnessFor self.now.bank self.now.plan request.now result }
    {
        match request {
            Request::BeginWithout { booking: _, items } => {
                self.seek_without(alloc, gate, caller, items)
            }
            _ => Ok(self.base),
        }
    }

    /// A form without these items, or why none is known: the base, if it has none of them, else
    /// what an assembly gives. The gate is passed before and after an assembly.
    fn seek_without<G: Gate>(
        &self,
        alloc: Global,
        gate: &G,
        caller: u32,
        items: &ItemSet,
    ) -> Result<ItemSet, Refusal>
        ensures { IsListFor self.now.bank (has items.now)
            → IsWitness self.now.bank self.now.plan items.now result }
    {
        if !needs_search(self.bank, self.spec, &self.base, items) {
            return Ok(self.base);
        }
        gate.pass(Point::BeforeAssembly, caller);
        let found = search_witness(alloc, self.bank, self.spec, items);
        gate.pass(Point::AfterAssembly, caller);
        found
    }

    /// The first turn of a request.
    fn begin<R: Wait>(
        &self,
        rt: &R,
        alloc: Global,
        pass: &mut Pass<Office<'a, D>>,
        request: &Request,
        witness: Result<ItemSet, Refusal>,
    ) -> FirstAnswer<'a>
        requires of { IsOf pass.old self.now }
        requires witness { IsWitnessFor self.now.bank self.now.plan request.now witness }
        ensures of { IsOf pass.new self.now }
        ensures grown { HasGrown pass.old pass.new }
        ensures begun { HasBegun self.now (marked pass.old) (marked pass.new) request.now result }
    {
        let mut first = First {
            alloc,
            request: *request,
            witness,
        };
        self.turn.turn(rt, pass, &mut first)
    }

    /// What was assembled ahead, if it was made for this problem.
    fn fitting(
        &self,
        prepared: Option<Assembled<'a>>,
        problem: &Problem<'a>,
    ) -> Option<Assembled<'a>>
        requires { IfSome prepared (IsPrepared self.now.bank self.now.plan self.now.base) }
        ensures fits { IfSome result (λ a. (H : List Entry) → LegalRun self.now.bank self.now.plan H
            → IsAsked self.now.bank self.now.plan H problem.now
            → FitsFor self.now.bank self.now.plan self.now.base H problem.now a) }
        ensures keeps { KeepsFor problem.now prepared.entry result }
    {
        let _ = self.bank.items();
        made_for(prepared, problem)
    }

    /// Assembles and commits, and once more where the session still waits at the same step. What is
    /// prepared for the problem is committed in place of the first assembly.
    fn assemble_twice<G: Gate, R: Wait>(
        &self,
        rt: &R,
        alloc: Global,
        gate: &G,
        pass: &mut Pass<Office<'a, D>>,
        problem: &Problem<'a>,
        warm: Option<&Vector>,
        prepared: Option<Assembled<'a>>,
    ) -> Result<Place, Refusal>
        requires of { IsOf pass.old self.now }
        requires fits { IfSome (option_copied warm) (FitsPlan self.now.bank self.now.plan) }
        requires asked { IsAsked self.now.bank self.now.plan (history (marks_of pass.old.seen))
            problem.now }
        requires legal { LegalRun self.now.bank self.now.plan (history (marks_of pass.old.seen)) }
        requires prepared { IfSome prepared (FitsFor self.now.bank self.now.plan self.now.base
            (history (marks_of pass.old.seen)) problem.now) }
        ensures of { IsOf pass.new self.now }
        ensures grown { HasGrown pass.old pass.new }
        ensures assembles { Assembles self.now problem.now.session (marked pass.old)
            (marked pass.new) result }
        ensures of_step { AddsOwn (IsOfStep problem.now.step) (marked pass.old) (marked pass.new) }
        ensures used { IfSome prepared.entry (UsesFirst problem.now.session (marked pass.old)
            (marked pass.new)) }
    {
        match self.serve_first(rt, alloc, gate, pass, problem, warm, prepared) {
            Round::Placed(place) => Ok(place),
            Round::Failed(refusal) => Err(refusal),
            Round::Again(next) => match self.serve_once(rt, alloc, gate, pass, &next, warm) {
                Round::Placed(place) => Ok(place),
                Round::Failed(refusal) => Err(refusal),
                Round::Again(_) => unreachable!(),
            },
        }
    }

    /// The commit of what is prepared for the problem, in a turn; or one assembly and its commit.
    fn serve_first<G: Gate, R: Wait>(
        &self,
        rt: &R,
        alloc: Global,
        gate: &G,
        pass: &mut Pass<Office<'a, D>>,
        problem: &Problem<'a>,
        warm: Option<&Vector>,
        prepared: Option<Assembled<'a>>,
    ) -> Round<'a>
        requires of { IsOf pass.old self.now }
        requires fits { IfSome (option_copied warm) (FitsPlan self.now.bank self.now.plan) }
        requires asked { IsAsked self.now.bank self.now.plan (history (marks_of pass.old.seen))
            problem.now }
        requires legal { LegalRun self.now.bank self.now.plan (history (marks_of pass.old.seen)) }
        requires prepared { IfSome prepared (FitsFor self.now.bank self.now.plan self.now.base
            (history (marks_of pass.old.seen)) problem.now) }
        ensures of { IsOf pass.new self.now }
        ensures grown { HasGrown pass.old pass.new }
        ensures rounds { Rounds self.now problem.now (marked pass.old) (marked pass.new) result }
        ensures used { IfSome prepared.entry (λ a. AddsOwn (IsEntryOf a) (marked pass.old)
            (marked pass.new)) }
    {
        match prepared {
            Some(assembled) => self.commit(rt, alloc, pass, assembled),
            None => self.serve_once(rt, alloc, gate, pass, problem, warm),
        }
    }

    /// One assembly, and its commit in a turn.
    fn serve_once<G: Gate, R: Wait>(
        &self,
        rt: &R,
        alloc: Global,
        gate: &G,
        pass: &mut Pass<Office<'a, D>>,
        problem: &Problem<'a>,
        warm: Option<&Vector>,
    ) -> Round<'a>
        requires of { IsOf pass.old self.now }
        requires fits { IfSome (option_copied warm) (FitsPlan self.now.bank self.now.plan) }
        requires asked { IsAsked self.now.bank self.now.plan (history (marks_of pass.old.seen))
            problem.now }
        requires legal { LegalRun self.now.bank self.now.plan (history (marks_of pass.old.seen)) }
        ensures of { IsOf pass.new self.now }
        ensures grown { HasGrown pass.old pass.new }
        ensures rounds { Rounds self.now problem.now (marked pass.old) (marked pass.new) result }
    {
        gate.pass(Point::BeforeAssembly, pass.number());
        let Ok(assembled) = self.assembled(alloc, problem, warm) else {
            return Round::Failed(Refusal::Memory);
        };
        gate.pass(Point::AfterAssembly, pass.number());
        self.commit(rt, alloc, pass, assembled)
    }

    /// What is assembled for a problem, with the base as the hint, from a vector or from none.
    fn assembled(
        &self,
        alloc: Global,
        problem: &Problem<'a>,
        warm: Option<&Vector>,
    ) -> Result<Assembled<'a>, Memory>
        requires well_made { IsWellMade (problem_of problem.now) }
        requires sides { IfSome (option_copied warm) (NamesOnlySides (problem_of problem.now)) }
        ensures problem { IfOk result (λ a. a.problem ≡ problem.now) }
        ensures assembled { IfOk result (λ a. (H : List Entry)
            → LegalRun self.now.bank self.now.plan H
            → IsProblemOf self.now.bank self.now.plan H problem.now.session problem.now.step
            (problem_of problem.now)
            → IsAssembledFor self.now.bank self.now.plan self.now.base H problem.now.session a) }
        ensures prepared { IfOk result (λ a. problem.now.bank.now ≡ self.now.bank
            → problem.now.spec.now ≡ self.now.plan
            → IsPrepared self.now.bank self.now.plan self.now.base a) }
    {
        let base = self.base;
        assemble_from(
            alloc,
            problem.again(),
            Some(&base),
            problem.spec.budget() as u16,
            warm,
        )
    }

    /// The turn of a commit.
    fn commit<R: Wait>(
        &self,
        rt: &R,
        alloc: Global,
        pass: &mut Pass<Office<'a, D>>,
        assembled: Assembled<'a>,
    ) -> Round<'a>
        requires of { IsOf pass.old self.now }
        requires may { MayBeCommitted self.now.bank self.now.plan self.now.base
            (history (marks_of pass.old.seen)) assembled }
        requires good { IsGoodFor self.now.base assembled }
        ensures of { IsOf pass.new self.now }
        ensures grown { HasGrown pass.old pass.new }
        ensures rounds { Rounds self.now assembled.entry.problem (marked pass.old) (marked pass.new)
            result }
        ensures only { AddsOwn (IsEntryOf assembled.entry) (marked pass.old) (marked pass.new) }
    {
        let mut step = Commit { alloc, assembled };
        self.turn.turn(rt, pass, &mut step)
    }
}
