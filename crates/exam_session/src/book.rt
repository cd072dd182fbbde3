//! The book.

ghost use Rattle.std.specs.Prelude.{◌≡◌, ℕ, Bool, ◌+◌, ◌<◌, ◌≤◌, [], length, Option, Some, None, IsSome, IfOk, IfSome, IfNone, if◌then◌else◌};
ghost use Rattle.std.specs.Vec.{vec_len, vec_capacity};
ghost use Rattle.bank_tables.specs.Items.{Set};
ghost use Rattle.bank_tables.specs.Tables.{size};
ghost use Rattle.bank_tables.specs.Validity.{HoldsItems};
ghost use Rattle.form_model.specs.Forms.{Form};
ghost use Rattle.form_model.specs.Plan.{bands_of};
ghost use Rattle.serving_model.specs.Seats.{first_band};
ghost use Rattle.form_model.specs.Validity.{IsPlanFor, IsWellMade};
ghost use Rattle.constraint_model.specs.Views.{problem_of};
ghost use Rattle.shadow_select.specs.Next.{HasFreeItem};
ghost use Rattle.history_model.specs.declared.place.Place.TheVariants.{Pending, Waiting};
ghost use Rattle.history_model.specs.Entries.{sessions, is_started, holder, items_in, seat_of};
ghost use Rattle.history_model.specs.Places.{place};
ghost use Rattle.history_model.specs.Counts.{finished};
ghost use Rattle.history_model.specs.Draws.{AreDrawn};
ghost use Rattle.history_model.specs.Refusals.{recorded};
ghost use Rattle.history_model.specs.Summaries.{summary};
ghost use Rattle.history_model.specs.SessionProblems.{IsProblemOf, is_aside_now};
ghost use Rattle.exam_session.specs.Ledgers.{IsExamination};
ghost use Rattle.exam_session.specs.Kept.{AreCounts, AreBandCounts};

use crate::bands::first_band;
use crate::bookings::{Bookings, session_with};
use crate::counting::new_counters;
use crate::drawing::draw_bands;
use crate::kept_seat::KeptSeat;
use crate::totals::Totals;
use bank_tables::Bank;
use constraint_model::{Problem, Spec};
use exposure_counters::{Counters, Memory};
use history_log::Counted;
use history_model::{Bands, Entry, Place, Summary};
use serving_model::Seat;
use shadow_select::next_problem_from;
use std::alloc::Global;
use std::marker::Model;

/// The entries of an examination, which always are a legal run for its bank and plan.
#[derive(Drop)]
pub struct Book<'a> {
    pub(crate) bank: &'a Bank,
    pub(crate) spec: &'a Spec,
    /// The entries, for contracts alone.
    pub(crate) entries: Counted<Entry>,
    /// The seat of each session.
    pub(crate) seats: Vec<KeptSeat>,
    /// The seat for the next session, where there is room for it.
    pub(crate) spare: Option<KeptSeat>,
    pub(crate) bookings: Bookings,
    /// The exposure counts in all.
    pub(crate) counters: Counters,
    /// Those of each band of the plan.
    pub(crate) band_counters: Vec<Counters>,
    pub(crate) totals: Totals,
    /// For how many entries more there is room, one or none: in the seats and the bookings up to
    /// the plan's limit of sessions.
    pub(crate) room: usize,
}

impl<'a> Model for Book<'a> {
    ghost use Rattle.std.specs.Prelude.{◌+◌, ◌^◌, ◌<◌, ◌≤◌, min, length, IsSome, IfSome};
    ghost use Rattle.std.specs.Vec.{vec_len, vec_capacity};
    ghost use Rattle.exam_session.specs.Ledgers.{Ledger, IsExamination};
    ghost use Rattle.exam_session.specs.Kept.{AreCounts, AreCountsByBand};
    ghost use Rattle.exam_session.specs.KeptSeats.{IsSpare, AreKeptWithSums};
    ghost use Rattle.exam_session.specs.Bookings.{AreBookings, places};
    ghost use Rattle.exam_session.specs.Totals.{AreTotals};

    ghost Value = { Ledger };

    ghost view = { λ b. record {
      bank = b.bank.now;
      plan = b.spec.now;
      entries = b.entries;
      room = b.room;
    } };

    ghost invariant = { λ b.
        IsExamination (record {
          bank = b.bank.now;
          plan = b.spec.now;
          entries = b.entries;
          room = b.room;
        })
        × AreKeptWithSums b.bank.now b.spec.now b.entries b.seats.items
        × AreBookings b.entries b.bookings.each.items b.bookings.order.items
        × AreCounts b.bank.now b.spec.now b.entries b.counters
        × AreTotals b.entries b.totals
        × (length b.entries + b.room ≤ 2 ^ 47)
        × (b.room ≤ 1)
        × IfSome b.spare (IsSpare b.spec.now)
        × (0 < b.room → vec_len b.seats < b.spec.now.sessions → IsSome b.spare)
        × (min b.spec.now.sessions (vec_len b.seats + b.room) ≤ vec_capacity b.seats)
        × (min b.spec.now.sessions (vec_len b.bookings.each + b.room) ≤ places b.bookings)
        × AreCountsByBand b.bank.now b.spec.now b.entries b.band_counters.items };
}

/// A book may be moved to another thread.
fn moves<T: Send>() {}

fn book_moves<'a>() {
    moves::<Book<'a>>();
}

impl<'a> Book<'a> {
    /// A book of no entries.
    pub fn new(alloc: Global, bank: &'a Bank, spec: &'a Spec) -> Result<Book<'a>, Memory>
        requires { IsPlanFor bank.now spec.now }
        ensures bank { IfOk result (λ book. book.bank ≡ bank.now) }
        ensures plan { IfOk result (λ book. book.plan ≡ spec.now) }
        // Promise: A legal entry is appended and nothing else changes; only `new` and `reserve`
        // take memory; `reserve` makes room for one entry, and cannot fail where there is room
        // - of `Book::new`, `Book::reserve`, `Book::apply`, `Book::room`
        // - by `entries`, `bank`, `plan`, `room`, `memory`, `needed`
        ensures entries { IfOk result (λ book. book.entries ≡ []) }
        ensures room { IfOk result (λ book. book.room ≡ 0) }
    {
        let counters = Counters::new(alloc, bank.items())?;
        let band_counters = new_counters(alloc, bank, spec)?;
        Ok(Book {
            bank,
            spec,
            entries: Counted::new(),
            seats: Vec::new(alloc),
            spare: None,
            bookings: Bookings::new(alloc),
            counters,
            band_counters,
            totals: Totals {
                proved: 0,
                unproved: 0,
                aside: 0,
                nodes: 0,
            },
            room: 0,
        })
    }

    /// The bank.
    pub fn bank(&self) -> &'a Bank
        ensures { result.now ≡ self.now.bank }
    {
        self.bank
    }

    /// The plan.
    pub fn spec(&self) -> &'a Spec
        ensures { result.now ≡ self.now.plan }
    {
        self.spec
    }

    /// The number of entries.
    pub fn entries(&self) -> u64
        ensures number { result ≡ length self.now.entries }
        // the entries are a legal run, whatever was done with the book
        // Promise: A book always is a legal run of its entries, for a plan that is valid for its
        // bank: its type has no other value
        // - by `examination` (`IsExamination`)
        ensures examination { IsExamination self.now }
    {
        self.entries.count()
    }

    /// For how many entries more there is room.
    pub fn room(&self) -> usize
        ensures { result ≡ self.now.room }
    {
        self.room
    }

    /// The number of sessions.
    pub fn sessions(&self) -> u32
        // Promise: A book's answers are those of its entries: the number of sessions, each one's
        // place and seat, the session of a booking, the exposure counts of each item
        // - of `Book::sessions`, `Book::place`, `Book::seat`, `Book::booked`, `Book::counters`,
        //   `Book::entries`
        ensures number { result ≡ sessions self.now.entries }
        ensures few { result ≤ self.now.plan.sessions }
    {
        self.seats.len() as u32
    }

    /// What a session holds so far, made of what is kept of it; none where it isn't there.
    pub fn seat(&self, session: u32) -> Option<Seat>
        ensures { result ≡ (if is_started self.now.entries session
            then Some (seat_of self.now.entries session) else None) }
    {
        match self.seats.get(session as usize) {
            Some(kept) => Some(kept.seat()),
            None => None,
        }
    }

    /// The place of a session; none where there is no such session.
    #[tactic(auto, using(crate::proofs::BookLaws::placed, crate::proofs::BookLaws::not_placed))]
    pub fn place(&self, session: u32) -> Option<Place>
        ensures place { result ≡ place self.now.plan self.now.entries session }
        // the item that waits for its answer is one of the bank
        // Promise: The item of a place that waits for its answer is an item of the bank
        ensures item { (step item : ℕ) (proved : Bool) → result ≡ Some (Waiting step item proved)
            → item < size self.now.bank }
    {
        match self.seats.get(session as usize) {
            Some(kept) => Some(kept.place(self.spec)),
            None => None,
        }
    }

    /// Whether eligibility is set aside for a session in the band of its estimate now; not where
    /// there is no such session.
    pub fn is_aside(&self, session: u32) -> bool
        // Promise: Whether eligibility is set aside in the band of a session's estimate, and the
        // band in which each session begins, can be read
        // - of `Book::is_aside`, `Book::first_band`
        // - by the clause (`is_aside_now`), `band`, `of_plan`
        ensures { result
            ≡ is_aside_now self.now.bank self.now.plan self.now.entries session }
    {
        match self.seats.get(session as usize) {
            Some(kept) => kept.is_aside(self.spec),
            None => false,
        }
    }

    /// The exposure counts of the bank's items in all, and the number of finished sessions.
    pub fn counters(&self) -> &Counters
        ensures { AreCounts self.now.bank self.now.plan self.now.entries result.now }
    {
        &self.counters
    }

    /// The exposure counts of the bank's items in a band of the plan, and the number of finished
    /// sessions that visited it.
    pub fn band_counters(&self, band: u8) -> &Counters
        requires { band < bands_of self.now.plan }
        // Promise: What is counted in a band is counted by the definitions: the sessions that
        // visited it, those in which an item was shown at a step whose estimate is there, and those
        // in which it could be had there
        // - by the clause (`AreBandCounts`)
        ensures { AreBandCounts self.now.bank self.now.plan self.now.entries band result.now }
    {
        &self.band_counters[band as usize]
    }

    /// The band in which each session begins: that of the estimate before any answer.
    pub fn first_band(&self) -> u8
        ensures band { result ≡ first_band self.now.bank self.now.plan }
        ensures of_plan { result < bands_of self.now.plan }
        ensures few { result < 8 }
    {
        first_band(self.spec)
    }

    /// The draw for a session in each band, at the counts of the entries so far.
    pub(crate) fn drawn_for(&self, session: u32) -> Bands
        ensures drawn { AreDrawn self.now.bank self.now.plan self.now.entries session result }
        ensures items { (band : ℕ) → HoldsItems self.now.bank (items_in result.sets band) }
        ensures eight { length result.sets ≡ 8 }
    {
        draw_bands(
            self.spec.key(),
            self.spec.rate(),
            session,
            self.band_counters.as_slice(),
        )
    }

    /// The items that are eligible for the next session in each band: its draw there.
    pub fn drawn(&self) -> Bands
        // Promise: The eligible set of the next session in each band is the draw at the counts of
        // the book's own history
        // - by `drawn` (`AreDrawn`), `items`
        ensures drawn { AreDrawn self.now.bank self.now.plan self.now.entries
            (sessions self.now.entries) result }
        ensures items { (band : ℕ) → HoldsItems self.now.bank (items_in result.sets band) }
    {
        self.drawn_for(self.sessions())
    }

    /// The response that is recorded for a step of a session; none where there is none.
    pub fn recorded(&self, session: u32, step: u16) -> Option<u8>
        // Promise: The recorded response of a step, the summary, the bank and the plan are those of
        // the entries
        // - of `Book::recorded`, `Book::summary`, `Book::bank`, `Book::spec`
        // - by the clause (`recorded`, `summary`)
        ensures { result ≡ recorded self.now.entries session step }
    {
        match self.seats.get(session as usize) {
            Some(kept) => kept.response(step),
            None => None,
        }
    }

    /// The session of a booking; none where it has none.
    pub fn booked(&self, booking: u64) -> Option<u32>
        ensures { result ≡ holder self.now.entries booking }
    {
        session_with(
            self.bookings.each.as_slice(),
            self.bookings.order.as_slice(),
            booking,
        )
    }

    /// The entries in numbers.
    pub fn summary(&self) -> Summary
        ensures { result ≡ summary self.now.plan self.now.entries }
    {
        Summary {
            entries: self.entries(),
            sessions: self.sessions(),
            finished: self.counters.finished(),
            proved: self.totals.proved,
            unproved: self.totals.unproved,
            aside: self.totals.aside,
            nodes: self.totals.nodes,
        }
    }

    /// The problem of a session that waits for an item; none where it doesn't.
    pub fn problem(&self, session: u32) -> Option<Problem<'a>>
        // Promise: A session has a problem exactly where it waits for an item: that of its seat,
        // well made; each form of it has an item that is not given
        // - by `problem`, `well_made`, `free`, `none`
        ensures problem { IfSome result
            (λ p. IsProblemOf self.now.bank self.now.plan self.now.entries session p.step
            (problem_of p)) }
        ensures well_made { IfSome result (λ p. IsWellMade (problem_of p)) }
        // a form of it has an item that isn't given
        ensures free { IfSome result (λ p. (X : Set) → Form (problem_of p) X
            → HasFreeItem (problem_of p) X) }
        ensures none { IfNone result ((step : ℕ) → place self.now.plan self.now.entries session
            ≡ Some (Pending step) → ⊥) }
    {
        match self.seats.get(session as usize) {
            Some(kept) => {
                let seat = kept.seat();
                let sums = kept.sums();
                next_problem_from(self.bank, self.spec, session, &seat, &sums)
            }
            None => None,
        }
    }
}
