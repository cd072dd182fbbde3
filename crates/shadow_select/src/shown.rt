//! The items that a seat was shown.

ghost use Rattle.std.specs.Prelude.{◌≡◌, ℕ, ◌<◌, ◌==◌, length, nat_lt, slice_get, IsTrue, IfSome, Some};
ghost use Rattle.std.specs.List.{list_any};
ghost use Rattle.bank_tables.specs.Items.{has};
ghost use Rattle.bank_tables.specs.Tables.{size, stimulus};
ghost use Rattle.serving_model.specs.Seats.{is_shown, last_shown};
ghost use Rattle.serving_model.specs.Serving.{last_stimulus};

use bank_tables::{Bank, ItemSet, Short};
use serving_model::Seat;

/// The number at a place of a short list.
pub fn number_at(list: &Short, place: usize) -> u16
    requires { place < length list.now }
    // Promise: A number of a short list can be read at each of its places
    ensures { slice_get list.now place ≡ Some result }
{
    match list.get(place) {
        Some(number) => number,
        None => unreachable!(),
    }
}

/// The items of the bank.
pub fn all_items(bank: &Bank) -> ItemSet
    // Promise: The set of all items of a bank, and the set of the items shown
    // - of `all_items`, `shown_items`
    ensures { (i : ℕ) → has result i ≡ nat_lt i (size bank.now) }
{
    let mut all = ItemSet::empty();
    for i in 0..bank.items() {
        all = all.with(i);
    }
    all
}

/// The items shown.
pub fn shown_items(bank: &Bank, seat: &Seat) -> ItemSet
    requires { (i : ℕ) → IsTrue (is_shown seat.now i) → i < size bank.now }
    ensures { (i : ℕ) → has result i ≡ is_shown seat.now i }
{
    prove!(bank.items() <= 512);
    let mut items = ItemSet::empty();
    for k in 0..seat.shown.len() {
        items = items.with(number_at(&seat.shown, k));
    }
    items
}

/// The stimuli of the items shown, as a set of their numbers; 0, which is no stimulus, may be among
/// them.
pub fn entered_stimuli(bank: &Bank, seat: &Seat) -> ItemSet
    requires { (i : ℕ) → IsTrue (is_shown seat.now i) → i < size bank.now }
    ensures { (s : ℕ) → has result s
        ≡ list_any (λ item. stimulus bank.now item == s) seat.now.shown }
{
    prove!(bank.items() <= 512);
    let mut stimuli = ItemSet::empty();
    for k in 0..seat.shown.len() {
        let item = number_at(&seat.shown, k);
        stimuli = stimuli.with(bank.stimulus(item) as u16);
    }
    stimuli
}

/// The item shown last.
pub fn last_shown(seat: &Seat) -> Option<u16>
    ensures { result ≡ last_shown seat.now }
{
    seat.shown.get(seat.shown.len().saturating_sub(1))
}

/// The stimulus of the item given last, or 0.
pub fn last_stimulus(bank: &Bank, last: Option<u16>) -> u8
    requires { IfSome last (λ item. item < size bank.now) }
    ensures { result ≡ last_stimulus bank.now last }
{
    match last {
        None => 0,
        Some(item) => bank.stimulus(item),
    }
}
