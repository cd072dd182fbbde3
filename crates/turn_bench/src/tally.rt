//! What is under the locks.

ghost use Rattle.std.specs.Prelude.{◌≡◌, ◌++◌, ◌∷◌, [], MatchBool};

use history_log::Counted;
use turn_lock::{Kept, Move as TurnMove};

/// A list of numbers, which is its own history. At run time it is the number of its entries.
#[derive(Drop)]
pub struct Tally {
    /// The entries.
    pub entries: Counted<u32>,
}

impl Tally {
    /// An empty list.
    pub fn new() -> Tally {
        Tally {
            entries: Counted::new(),
        }
    }

    /// Adds an entry, and answers whether there was room for it.
    pub fn add(&mut self, number: u32) -> bool
        ensures { MatchBool result (self.new.entries ≡ self.old.entries ++ number ∷ [])
            (self.new.entries ≡ self.old.entries) }
    {
        if self.entries.count() == u64::MAX {
            return false;
        }
        self.entries.push(&number);
        true
    }
}

impl Kept for Tally {
    type Entry = u32;

    ghost history = { λ t. t.entries };

    fn history_len(&self) -> u64 {
        self.entries.count()
    }
}

/// Adds an entry in a turn, and answers whether there was room for it.
#[derive(Drop)]
pub struct Add {
    /// The entry.
    pub number: u32,
}

impl TurnMove<Tally> for Add {
    type Answer = bool;

    ghost needs = { λ _ _. Unit {0} };

    ghost makes = { λ m before after _ answer.
        MatchBool answer (after ≡ before ++ m.number ∷ []) (after ≡ before) };

    fn make(&mut self, value: &mut Tally) -> bool {
        value.add(self.number)
    }

    ghost lasts = { λ _ _ _ h. h };
}
