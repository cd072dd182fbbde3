//! How a seat goes on. A book of many sessions keeps its seats in another form. There it takes the
//! same steps by code of its own.

ghost use Rattle.std.specs.Prelude.{◌≡◌, ◌<◌, length};
ghost use Rattle.serving_model.specs.Seats.{new_seat, with_item, with_response};

use bank_tables::{ItemSet, Short};
use serving_model::Seat;

/// The seat of a session that begins without a list, with the items that are eligible for it in
/// each band.
pub fn new_seat(eligible: &[ItemSet; 8]) -> Seat
    // Promise: A new seat has nothing shown. A seat is given an item from a form, or a response,
    // and nothing else of it changes
    // - of `new_seat`, `with_item`, `with_response`
    ensures { result ≡ new_seat eligible.now }
{
    Seat {
        shown: Short::empty(),
        responses: Short::empty(),
        eligible: *eligible,
        aside: [false; 8],
        without: None,
        form: None,
        proved: false,
        closed: false,
    }
}

/// The seat after an item of a form was shown. It keeps the form with its mark, whether the form is
/// proved best.
pub fn with_item(seat: &Seat, form: &ItemSet, proved: bool, item: u16) -> Seat
    requires { length seat.now.shown < 512 }
    ensures { result ≡ with_item seat.now form.now proved item }
{
    let mut after = *seat;
    after.shown.push(item);
    after.form = Some(*form);
    after.proved = proved;
    after
}

/// The seat after a response to the item shown last.
pub fn with_response(seat: &Seat, response: u8) -> Seat
    requires { length seat.now.responses < 512 }
    ensures { result ≡ with_response seat.now response }
{
    let mut after = *seat;
    after.responses.push(u16::from(response));
    after
}
