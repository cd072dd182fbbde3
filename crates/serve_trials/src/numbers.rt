//! A list of numbers under the lock.

use turn_lock::{Kept, Move as TurnMove};

/// A list of numbers, which is its own history.
#[derive(Drop)]
pub struct Numbers {
    /// The numbers, in the order in which they were appended.
    pub items: Vec<u32>,
}

impl Kept for Numbers {
    type Entry = u32;

    ghost history = { λ n. n.items.items };

    fn history_len(&self) -> u64 {
        self.items.len() as u64
    }
}

/// Appends a number, and answers whether there was memory for it.
#[derive(Drop)]
pub struct Append {
    /// The number that is appended.
    pub number: u32,
}

impl TurnMove<Numbers> for Append {
    ghost use Rattle.serve_trials.specs.Own.{Appends};

    type Answer = bool;

    ghost needs = { λ _ _. Unit {0} };

    ghost makes = { λ m before after _ answer. Appends m.number before after answer };

    fn make(&mut self, value: &mut Numbers) -> bool {
        value.items.push(self.number).is_ok()
    }

    ghost lasts = { λ _ _ _ h. h };
}
