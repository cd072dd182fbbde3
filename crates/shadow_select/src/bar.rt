//! The items barred.

ghost use Rattle.std.specs.Prelude.{◌≡◌, ℕ, ◌<◌, ◌==◌, IsTrue};
ghost use Rattle.std.specs.List.{list_any};
ghost use Rattle.bank_tables.specs.Items.{has};
ghost use Rattle.bank_tables.specs.Tables.{size, stimulus};
ghost use Rattle.serving_model.specs.Seats.{is_shown, is_withheld, is_unavailable_in, is_barred, last_shown};
ghost use Rattle.serving_model.specs.Serving.{last_stimulus};

use crate::shown::{entered_stimuli, last_shown, last_stimulus};
use bank_tables::{Bank, ItemSet};
use serving_model::Seat;

/// Whether an item is on the list of those that the examinee must not get.
fn is_withheld(seat: &Seat, item: u16) -> bool
    ensures { result ≡ is_withheld seat.now item }
{
    match seat.without {
        Some(items) => items.has(item),
        None => false,
    }
}

/// Whether an item is unavailable in a band: it isn't eligible there, nor is eligibility set aside
/// there.
fn is_unavailable(seat: &Seat, band: u8, item: u16) -> bool
    requires { band < 8 }
    ensures { result ≡ is_unavailable_in seat.now band item }
{
    !(seat.eligible[band as usize].has(item) || seat.aside[band as usize])
}

/// Whether an item is barred in a band, by the items shown, the stimuli entered and the stimulus of
/// the item shown last.
fn is_barred(
    bank: &Bank,
    seat: &Seat,
    band: u8,
    shown: &ItemSet,
    entered: &ItemSet,
    last: u8,
    item: u16,
) -> bool
    requires band { band < 8 }
    requires item { item < size bank.now }
    requires shown { (i : ℕ) → has shown.now i ≡ is_shown seat.now i }
    requires entered { (s : ℕ)
        → has entered.now s ≡ list_any (λ item. stimulus bank.now item == s) seat.now.shown }
    requires last { last ≡ last_stimulus bank.now (last_shown seat.now) }
    ensures { result ≡ is_barred bank.now seat.now (is_unavailable_in seat.now band) item }
{
    let stimulus = bank.stimulus(item);
    let left_behind = stimulus != 0 && entered.has(stimulus as u16) && stimulus != last;
    let kept_out = is_withheld(seat, item) || is_unavailable(seat, band, item);
    !shown.has(item) && (left_behind || kept_out)
}

/// The items barred in a band: those not shown that are of a stimulus that was left, or withheld
/// from the examinee, or not eligible in the band where eligibility isn't set aside there.
pub fn barred_items(bank: &Bank, seat: &Seat, band: u8, shown: &ItemSet) -> ItemSet
    requires band { band < 8 }
    requires items { (i : ℕ) → IsTrue (is_shown seat.now i) → i < size bank.now }
    requires shown { (i : ℕ) → has shown.now i ≡ is_shown seat.now i }
    ensures { (i : ℕ)
        → has result i ≡ is_barred bank.now seat.now (is_unavailable_in seat.now band) i }
{
    let entered = entered_stimuli(bank, seat);
    let last = last_stimulus(bank, last_shown(seat));
    let mut barred = ItemSet::empty();
    for i in 0..bank.items() {
        if is_barred(bank, seat, band, shown, &entered, last, i) {
            barred = barred.with(i);
        }
    }
    barred
}
