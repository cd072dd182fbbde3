//! What an entry changes in the exposure counts of a book.

ghost use Rattle.std.specs.Prelude.{◌≡◌, ◌<◌, ◌||◌, ◌&&◌, not, [], ◌∷◌, ◌++◌, List, ℕ, Some, IfOk, get_or, length, slice_get};
ghost use Rattle.bank_tables.specs.Items.{has};
ghost use Rattle.bank_tables.specs.Tables.{size};
ghost use Rattle.bank_tables.specs.Validity.{IsBank, HoldsItems};
ghost use Rattle.form_model.specs.Plan.{Plan, bands_of};
ghost use Rattle.serving_model.specs.Seats.{eligible_in, is_aside_in, is_available_in, is_withheld};
ghost use Rattle.form_model.specs.Validity.{IsPlanFor};
ghost use Rattle.exposure_counters.specs.Tallies.{Tally, IsTallyOf};
ghost use Rattle.history_model.specs.declared.entry.Entry.{Entry};
ghost use Rattle.history_model.specs.Counts.{opens};
ghost use Rattle.history_model.specs.Legality.{Legal, LegalRun};
ghost use Rattle.history_model.specs.Laws.{finished_by};
ghost use Rattle.exam_session.specs.Kept.{AreCounts, AreCountsByBand};
ghost use Rattle.exam_session.specs.KeptSeats.{AreKept};
ghost use Rattle.exam_session.specs.Visits.{AreVisits, IsCountable, IsCountableIn, IsCountedByBand, IsCountedOrNot};

use crate::bands::{BandVisits, visits_of};
use crate::kept_seat::KeptSeat;
use bank_tables::{Bank, ItemSet};
use constraint_model::Spec;
use exposure_counters::{Counters, Memory};
use history_model::Entry;
use serving_model::Seat;
use shadow_select::{all_items, shown_items};
use std::alloc::Global;

/// Counters of each band of the plan, all zero.
pub(crate) fn new_counters(alloc: Global, bank: &Bank, spec: &Spec) -> Result<Vec<Counters>, Memory>
    ensures number { IfOk result (λ list. length list.items ≡ bands_of spec.now) }
    ensures items { IfOk result (λ list. (band : ℕ) (tally : Tally)
        → slice_get list.items band ≡ Some tally → length tally.counts ≡ size bank.now) }
    ensures none { IfOk result (λ list. (band : ℕ) (tally : Tally)
        → slice_get list.items band ≡ Some tally → IsTallyOf [] tally) }
{
    let bands = spec.bands().len() + 1;
    let mut list = Vec::with_capacity(alloc, bands)?;
    for band in 0..bands {
        list.push(Counters::new(alloc, bank.items())?)?;
    }
    Ok(list)
}

/// The session that a legal entry finishes: one whose last item is answered, or that is closed.
fn finished_by(spec: &Spec, entry: &Entry) -> Option<u32>
    ensures { result ≡ finished_by spec.now entry.now }
{
    match *entry {
        Entry::Answered { session, step, .. } if u32::from(step) + 1 >= spec.length() => {
            Some(session)
        }
        Entry::Closed { session } => Some(session),
        _ => None,
    }
}

/// The eligible set of a band.
fn eligible_set(seat: &Seat, band: u8) -> ItemSet
    requires { band < 8 }
    ensures { result ≡ get_or seat.now.eligible band [] }
{
    seat.eligible[band as usize]
}

/// The items that are available in a band: those eligible there, or all where eligibility is set
/// aside there.
fn available_items(bank: &Bank, seat: &Seat, band: u8) -> ItemSet
    requires { band < 8 }
    ensures available { (i : ℕ) → i < size bank.now
        → has result i ≡ (eligible_in seat.now band i || is_aside_in seat.now band) }
    ensures items { HoldsItems bank.now (eligible_in seat.now band)
        → HoldsItems bank.now (has result) }
{
    if seat.aside[band as usize] {
        all_items(bank)
    } else {
        eligible_set(seat, band)
    }
}

/// The items that could be served in a band: those that are available there, without those that are
/// withheld.
fn open_items(bank: &Bank, seat: &Seat, band: u8) -> ItemSet
    requires { band < 8 }
    ensures open { (i : ℕ) → i < size bank.now
        → has result i ≡ (is_available_in seat.now band i && not (is_withheld seat.now i)) }
    ensures items { HoldsItems bank.now (eligible_in seat.now band)
        → HoldsItems bank.now (has result) }
{
    let available = available_items(bank, seat, band);
    match seat.without {
        Some(withheld) => available.minus(withheld),
        None => available,
    }
}

/// The items that could be served in some band that the session visited.
fn open_in_all(bank: &Bank, spec: &Spec, seat: &Seat, visits: &BandVisits) -> ItemSet
    requires visits { AreVisits bank.now spec.now seat.now visits.now }
    requires items { (band : ℕ) → HoldsItems bank.now (eligible_in seat.now band) }
    ensures open { (i : ℕ) → i < size bank.now
        → has result i ≡ opens bank.now spec.now i seat.now }
    ensures items { HoldsItems bank.now (has result) }
{
    let mut open = ItemSet::empty();
    for band in 0..spec.bands().len() + 1 {
        if visits.was_in(band as u8) {
            open = open.union(open_items(bank, seat, band as u8));
        }
    }
    open
}

/// Counts a finished session in a band, if it visited it.
fn count_band(bank: &Bank, seat: &Seat, visits: &BandVisits, band: u8, counters: &mut Counters)
    requires { (plan : Plan)
        × IsCountableIn bank.now plan band seat.now visits.now counters.old }
    ensures { (plan : Plan) → AreVisits bank.now plan seat.now visits.now
        → IsCountedOrNot bank.now plan band seat.now counters.old counters.new }
{
    if !visits.was_in(band) {
        return;
    }
    let open = open_items(bank, seat, band);
    counters.finish(&visits.shown_in(band), &open);
}

/// Counts a finished session in each band that it visited.
fn count_bands(
    bank: &Bank,
    spec: &Spec,
    seat: &Seat,
    visits: &BandVisits,
    counters: &mut [Counters],
)
    requires visits { AreVisits bank.now spec.now seat.now visits.now }
    requires countable { IsCountable bank.now spec.now seat.now counters.old }
    ensures { IsCountedByBand bank.now spec.now seat.now counters.old counters.new }
{
    prove!(counters.len() == spec.bands().len() + 1);
    for band in 0..counters.len() {
        count_band(bank, seat, visits, band as u8, &mut counters[band]);
    }
}

/// Counts the session that an entry finishes, by its seat before the entry: in all, and in each
/// band that it visited.
pub(crate) fn count_entry(
    bank: &Bank,
    spec: &Spec,
    seats: &[KeptSeat],
    counters: &mut Counters,
    band_counters: &mut [Counters],
    entry: &Entry,
)
    requires bank { IsBank bank.now }
    requires plan { IsPlanFor bank.now spec.now }
    requires examination { (H : List Entry) × LegalRun bank.now spec.now H
        × Legal bank.now spec.now H entry.now × AreKept spec.now H seats.now
        × AreCounts bank.now spec.now H counters.old
        × AreCountsByBand bank.now spec.now H band_counters.old }
    ensures total { (H : List Entry) → LegalRun bank.now spec.now H
        → Legal bank.now spec.now H entry.now → AreKept spec.now H seats.now
        → AreCounts bank.now spec.now H counters.old
        → AreCounts bank.now spec.now (H ++ entry.now ∷ []) counters.new }
    ensures bands { (H : List Entry) → LegalRun bank.now spec.now H
        → Legal bank.now spec.now H entry.now → AreKept spec.now H seats.now
        → AreCountsByBand bank.now spec.now H band_counters.old
        → AreCountsByBand bank.now spec.now (H ++ entry.now ∷ []) band_counters.new }
{
    let Some(session) = finished_by(spec, entry) else {
        return;
    };
    let seat = seats[session as usize].seat();
    let visits = visits_of(bank, spec, &seat);
    let shown = shown_items(bank, &seat);
    let open = open_in_all(bank, spec, &seat, &visits);
    counters.finish(&shown, &open);
    count_bands(bank, spec, &seat, &visits, band_counters);
}
