//! A set of items.

ghost use Rattle.std.specs.Prelude.{◌≡◌, ℕ, ◌+◌, ◌<◌, ◌≤◌, ◌↔◌, ◌||◌, ◌&&◌, ◌==◌, not, true, false, IsTrue, IfSome, MatchOption};
ghost use Rattle.bank_tables.specs.Items.{has, IsLowest, IsLowestFrom, AreWords};
ghost use Rattle.bank_tables.specs.Sums.{size_of};

use crate::limits::ITEMS;
use std::marker::Model;

/// A set of items, which are numbers below 512.
#[derive(Clone, Copy, Debug, PartialEq, Eq)]
pub struct ItemSet {
    words: [u64; 8],
}

impl Model for ItemSet {
    ghost use Rattle.std.specs.Prelude.{ℕ, List};
    ghost use Rattle.bank_tables.specs.Items.{AreWords};

    ghost Value = { List ℕ };

    ghost view = { λ s. s.words };

    ghost invariant = { λ s. AreWords s.words };

    ghost inverse = { λ words. record { words = words } };
}

impl ItemSet {
    /// No items.
    pub fn empty() -> ItemSet
        // Promise: Each operation on sets of items is the operation on their members, for every
        // item
        // - of `ItemSet::empty`, `ItemSet::has`, `ItemSet::with`, `ItemSet::without`,
        //   `ItemSet::union`, `ItemSet::minus`, `ItemSet::meet`, `ItemSet::is_subset`,
        //   `ItemSet::all_below`
        ensures { (i : ℕ) → has result i ≡ false }
    {
        ItemSet { words: [0; 8] }
    }

    /// Whether the item is in the set.
    pub fn has(&self, item: u16) -> bool
        ensures { result ≡ has self.now item }
    {
        if item < ITEMS {
            self.words[(item / 64) as usize] >> (item % 64) & 1 == 1
        } else {
            false
        }
    }

    /// The set with the item in it.
    pub fn with(self, item: u16) -> ItemSet
        requires { item < 512 }
        ensures { (i : ℕ) → has result i ≡ ((i == item) || has self i) }
    {
        let mut words = self.words;
        words[(item / 64) as usize] |= 1 << (item % 64);
        ItemSet { words }
    }

    /// The set with the item not in it.
    pub fn without(self, item: u16) -> ItemSet
        requires { item < 512 }
        ensures { (i : ℕ) → has result i ≡ (not (i == item) && has self i) }
    {
        let mut words = self.words;
        words[(item / 64) as usize] &= !(1 << (item % 64));
        ItemSet { words }
    }

    /// The items of either set.
    pub fn union(self, other: ItemSet) -> ItemSet
        ensures { (i : ℕ) → has result i ≡ (has self i || has other i) }
    {
        let others = other.words;
        let mut words = self.words;
        for k in 0..8 {
            words[k] |= others[k];
        }
        ItemSet { words }
    }

    /// The items of this set that are not of the other.
    pub fn minus(self, other: ItemSet) -> ItemSet
        ensures { (i : ℕ) → has result i ≡ (has self i && not (has other i)) }
    {
        let others = other.words;
        let mut words = self.words;
        for k in 0..8 {
            words[k] &= !others[k];
        }
        ItemSet { words }
    }

    /// The items of both sets.
    pub fn meet(self, other: ItemSet) -> ItemSet
        ensures { (i : ℕ) → has result i ≡ (has self i && has other i) }
    {
        let others = other.words;
        let mut words = self.words;
        for k in 0..8 {
            words[k] &= others[k];
        }
        ItemSet { words }
    }

    /// Whether each item of this set is of the other.
    pub fn is_subset(&self, other: &ItemSet) -> bool
        ensures { IsTrue result ↔ ((i : ℕ) → IsTrue (has self.now i) → IsTrue (has other.now i)) }
    {
        for k in 0..8 {
            if self.words[k] & other.words[k] != self.words[k] {
                return false;
            }
        }
        true
    }

    /// Whether each member is below the bound: with the number of items of a bank, whether all are
    /// items of that bank.
    pub fn all_below(&self, bound: u16) -> bool
        ensures { IsTrue result ↔ ((i : ℕ) → IsTrue (has self.now i) → i < bound) }
    {
        let _ = &self.words;
        for i in bound..ITEMS {
            if self.has(i) {
                return false;
            }
        }
        true
    }

    /// The number of its members.
    pub fn count(&self) -> u32
        // Promise: `count` is the number of members. `first` is the lowest member, and None exactly
        // for the empty set
        // - of `ItemSet::count`, `ItemSet::first`
        // - by `count`, `lowest`
        ensures count { result ≡ size_of (has self.now) }
        ensures few { result ≤ 512 }
        ensures below { (i : ℕ) → 512 ≤ i → has self.now i ≡ false }
        ensures words { AreWords self.now }
    {
        let mut total = 0;
        for k in 0..8 {
            total += self.words[k].count_ones();
        }
        total
    }

    /// The lowest member.
    pub fn first(&self) -> Option<u16>
        ensures lowest { MatchOption result ((i : ℕ)
            → has self.now i ≡ false) (λ x. IsLowest (has self.now) x) }
        ensures item { IfSome result (λ x. x < 512) }
    {
        for k in 0..8u16 {
            let word = self.words[k as usize];
            if word != 0 {
                return Some(64 * k + word.trailing_zeros() as u16);
            }
        }
        None
    }

    /// The lowest member from a number on. A walk over the members by it looks at each word once.
    pub fn first_from(&self, from: u16) -> Option<u16>
        // Promise: `first_from` is the lowest member that is at least a number, and None exactly if
        // there is none (`IsLowestFrom`)
        ensures lowest { MatchOption result ((i : ℕ) → from ≤ i
            → has self.now i ≡ false) (λ x. IsLowestFrom (has self.now) from x) }
        ensures item { IfSome result (λ x. x < 512) }
    {
        let words = &self.words;
        if from >= ITEMS {
            return None;
        }
        let word = words[(from / 64) as usize] >> (from % 64);
        if word != 0 {
            return Some(from + word.trailing_zeros() as u16);
        }
        for k in from / 64 + 1..8 {
            let word = words[k as usize];
            if word != 0 {
                return Some(64 * k + word.trailing_zeros() as u16);
            }
        }
        None
    }
}
