//! The items of a bank that a set has, by stimulus.

ghost use Rattle.std.specs.Prelude.{◌≡◌, ℕ, ◌&&◌, ◌||◌, ◌==◌, nat_lt, not, true};
ghost use Rattle.bank_tables.specs.Items.{has};
ghost use Rattle.bank_tables.specs.Sums.{any_below};
ghost use Rattle.bank_tables.specs.Tables.{size, stimulus};

use bank_tables::{Bank, ItemSet};

/// The items of the bank that are in neither set.
pub fn others(bank: &Bank, taken: &ItemSet, out: &ItemSet) -> ItemSet
    ensures { (i : ℕ) →
        has result i ≡
        (nat_lt i (size bank.now) && (not (has taken.now i) && not (has out.now i))) }
{
    let mut rest = ItemSet::empty();
    for i in 0..bank.items() {
        if !taken.has(i) && !out.has(i) {
            rest = rest.with(i);
        }
    }
    rest
}

/// The set with the stimulus in it, where it is one: 0 is none.
pub fn with_one_more(stimuli: ItemSet, which: u8) -> ItemSet
    ensures { (s : ℕ) → has result s ≡ ((nat_lt 0 s && which == s) || has stimuli s) }
{
    if which > 0 {
        stimuli.with(which as u16)
    } else {
        stimuli
    }
}

/// Whether an item of the set has the stimulus.
pub fn has_one_of(bank: &Bank, items: &ItemSet, which: u8) -> bool
    ensures { result ≡ any_below (size bank.now) (λ i.
        has items.now i && stimulus bank.now i == which) }
{
    for i in 0..bank.items() {
        if items.has(i) && bank.stimulus(i) == which {
            return true;
        }
    }
    false
}

/// The items of the bank in the set that have the stimulus.
pub fn those_of(bank: &Bank, items: &ItemSet, which: u8) -> ItemSet
    ensures { (i : ℕ) →
        has result i ≡
        (nat_lt i (size bank.now) && (has items.now i && stimulus bank.now i == which)) }
{
    let mut those = ItemSet::empty();
    for i in 0..bank.items() {
        if items.has(i) && bank.stimulus(i) == which {
            those = those.with(i);
        }
    }
    those
}
