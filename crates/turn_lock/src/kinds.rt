//! The table of the lock, its rule, and the kinds of step. Word 0 is the next ticket, word 1 the
//! ticket that is served, word 2 the length of the history; slot 0 has the value.

ghost use Rattle.std.specs.Prelude.{◌≡◌, ℕ, Some};
ghost use Rattle.turn_lock.specs.Rule.{Holds};
ghost use Rattle.turn_lock.specs.Seats.{first_view, split_view, new_view, joined_view, spent_view};
ghost use Rattle.turn_lock.specs.Plays.{Draws, Serves, Reaches, Raises, Leaves, Learns};

use crate::kept::Kept;
use crate::view::View;
use atomic_table::{Join, Play, Split, TableRule};
use std::snapshot::Snapshot;

/// What holds between any two steps.
pub struct LockRule;

impl<V: Kept> TableRule<Option<V>, View<V::Entry>, Snapshot<V>> for LockRule {
    ghost holds = { λ _ s. Holds V.history s };

    ghost first = { λ key. first_view (V.history key.value) };
}

/// Draws a ticket.
pub struct Draw;

impl<V: Kept> Play<Option<V>, View<V::Entry>> for Draw {
    ghost then = { λ _ me found after. Draws me found after };
}

/// Loads the ticket that is served. If it is the seat's own, the value is out with the seat from
/// here on.
pub struct Serve;

impl<V: Kept> Play<Option<V>, View<V::Entry>> for Serve {
    ghost then = { λ _ me found after. (t : ℕ) → me.0.ticket ≡ Some t
        → Serves V.history t me found after };
}

/// Loads the ticket that is served, and leaves the value at home.
pub struct Reach;

impl<V: Kept> Play<Option<V>, View<V::Entry>> for Reach {
    ghost then = { λ _ me found after. (t : ℕ) → me.0.ticket ≡ Some t → Reaches t me found after };
}

/// Stores the length of the history.
pub struct Raise;

impl<V: Kept> Play<Option<V>, View<V::Entry>> for Raise {
    ghost then = { λ _ me _ after. Raises V.history me after };
}

/// Serves the next ticket. The value is at home from here on.
pub struct Leave;

impl<V: Kept> Play<Option<V>, View<V::Entry>> for Leave {
    ghost then = { λ _ me _ after. Leaves me after };
}

/// Splits a new pass from the first one.
pub struct Part;

impl<E> Split<View<E>> for Part {
    ghost left = { split_view };

    ghost right = { new_view };
}

/// Joins one pass into another.
pub struct Unite;

impl<E> Join<View<E>> for Unite {
    ghost both = { joined_view };

    ghost spent = { spent_view };
}

/// Gives how two passes that were joined agreed.
pub struct Learn;

impl<V: Kept> Play<Option<V>, View<V::Entry>> for Learn {
    ghost then = { λ _ me _ after. Learns me after };
}
