//! What the definitions imply for seats.

ghost use Rattle.shadow_select.specs.Next.{FreeItemIsLeft};
ghost use Rattle.shadow_select.specs.Steps.{NewSeatIsSeat, ServedSeatIsSeat, AnsweredSeatIsSeat};

/// A form of the problem of a seat that waits for an item has an item not yet given.
pub fn a_free_item_is_left()
    // Promise: A form of the problem of a seat that waits for an item always has an item that is
    // not given
    ensures { FreeItemIsLeft }
{}

/// A seat that was shown nothing meets the condition of `next_problem`.
pub fn a_new_seat_is_a_seat()
    // Promise: A new seat is a seat, and one that was served or answered stays one
    // - of `laws::a_new_seat_is_a_seat`, `laws::a_served_seat_is_a_seat`,
    //   `laws::an_answered_seat_is_a_seat`
    ensures { NewSeatIsSeat }
{}

/// A seat goes on meeting it where the next item of a form of its problem is shown.
pub fn a_served_seat_is_a_seat()
    ensures { ServedSeatIsSeat }
{}

/// A seat goes on meeting it where the item shown last is answered in range.
pub fn an_answered_seat_is_a_seat()
    ensures { AnsweredSeatIsSeat }
{}
