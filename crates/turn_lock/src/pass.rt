//! What a caller has of a lock.

ghost use Rattle.std.specs.Prelude.{◌≡◌, []};
ghost use Rattle.turn_lock.specs.Passes.{Known};
ghost use Rattle.turn_lock.specs.Seats.{known_of, IsIdle};

use crate::kept::Kept;
use crate::view::View;
use atomic_table::Seat;
use std::marker::Model;

/// The right to take turns at one lock. Contracts see which lock that is (`turn`), the pass's
/// number, how often it was split, the beginning of the history that it has `seen`, the places in
/// `seen` of the entries that are its own (`mine`), and the length of `seen` after each of its
/// turns (`fronts`). It is two numbers in memory, and may go to another thread. A pass that is
/// dropped takes no more turns; the others go on.
#[derive(Drop)]
pub struct Pass<V: Kept> {
    pub(crate) seat: Seat<Option<V>, View<V::Entry>>,
    pub(crate) number: u32,
    pub(crate) splits: u32,
}

impl<V: Kept> Model for Pass<V> {
    ghost Value = { Known V.Entry };

    ghost view = { λ p. known_of p.seat.table_id p.seat.me.0 };

    ghost invariant = { λ p. (p.number ≡ p.seat.me.0.number) × (p.splits ≡ p.seat.me.0.splits)
        × IsIdle p.seat.me.0 × (p.seat.me.1 ≡ []) };
}

impl<V: Kept> Pass<V> {
    /// The pass's number: 0 for the first pass of a lock, and for another the number of splits when
    /// it was made.
    pub fn number(&self) -> u32
        // Promise: A pass's number can be read
        ensures { result ≡ self.now.number }
    {
        self.number
    }
}
