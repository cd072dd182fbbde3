//! What is under the lock, and what is done to it in one turn.

ghost use Rattle.std.specs.Prelude.{◌≡◌, List, length, ◌++◌};
ghost use Rattle.turn_lock.specs.Histories.{Grows};

/// A value with a history.
pub trait Kept {
    /// What a history is a list of.
    type Entry;

    /// The entries so far, the earliest first: fewer than 2^64.
    ghost history: { Self → List Self.Entry };

    /// How many entries the history has. It takes no memory.
    fn history_len(&self) -> u64
        // Promise: A value gives the length of its history; a move states what it needs and what it
        // makes
        // - of `Kept::history_len`, `Move::make`
        ensures { result ≡ length (history self.now) };
}

/// What is done to a value in one turn.
pub trait Move<V: Kept> {
    /// What the caller learns.
    type Answer;

    /// What the move needs of a history.
    ghost needs: { Self → List V.Entry → Type 0 };

    /// What it does: of the move before, the history before and after, the move after, and the
    /// answer.
    ghost makes: { Self → List V.Entry → List V.Entry → Self → Self.Answer → Type 0 };

    /// Adds at most two entries to the value's history.
    fn make(&mut self, value: &mut V) -> Self::Answer
        requires { needs self.old (V.history value.old) }
        ensures grows { Grows (V.history value.old) (V.history value.new) }
        ensures makes { makes self.old (V.history value.old)
            (V.history value.new) self.new result };

    /// What a move needs of a history lasts while the history grows.
    ghost lasts: { (m : Self) (seen rest : List V.Entry) → needs m seen → needs m (seen ++ rest) };
}
