//! The seat of the session.

ghost use Rattle.std.specs.Prelude.{◌<◌};
ghost use Rattle.bank_tables.specs.Items.{has};
ghost use Rattle.bank_tables.specs.Tables.{categories};
ghost use Rattle.form_model.specs.Plan.{Plan};
ghost use Rattle.form_model.specs.Forms.{Form};
ghost use Rattle.serving_model.specs.Seats.{IsSeat, IsPending, IsSeatProblem};
ghost use Rattle.serving_model.specs.Serving.{IsNext};
ghost use Rattle.form_model.specs.Validity.{IsPlanFor};
ghost use Rattle.constraint_model.specs.Views.{problem_of};

use bank_tables::{Bank, ItemSet};
use constraint_model::{Problem, Spec};
use serving_model::Seat;
use shadow_select::laws::a_new_seat_is_a_seat;
use shadow_select::{with_item, with_response};

/// The items of the bank without some.
fn eligible_items(bank: &Bank, left_out: &ItemSet) -> ItemSet {
    let mut eligible = ItemSet::empty();
    prove!(bank.items() <= 512);
    for i in 0..bank.items() {
        if !left_out.has(i) {
            eligible = eligible.with(i);
        }
    }
    eligible
}

/// The seat of a session that begins. The same items are eligible in every band.
pub fn new_seat(bank: &Bank, left_out: &ItemSet) -> Seat
    ensures { (plan : Plan) → IsSeat bank.now plan result }
{
    a_new_seat_is_a_seat();
    shadow_select::new_seat(&[eligible_items(bank, left_out); 8])
}

/// The result of a step: the form, the item served from it, and the response.
#[derive(Clone, Copy)]
pub struct Service {
    pub form: ItemSet,
    pub item: u16,
    pub response: u8,
}

/// The seat after a step.
pub fn seat_after(
    problem: &Problem,
    bank: &Bank,
    spec: &Spec,
    seat: &Seat,
    service: &Service,
) -> Seat
    requires plan { IsPlanFor bank.now spec.now }
    requires seat { IsSeat bank.now spec.now seat.now }
    requires pending { IsPending spec.now seat.now }
    requires problem { IsSeatProblem bank.now spec.now 0 seat.now (problem_of problem.now) }
    requires form { Form (problem_of problem.now) (has service.now.form) }
    requires next { IsNext (problem_of problem.now) (has service.now.form) service.now.item }
    requires response { service.now.response < categories bank.now service.now.item }
    ensures { IsSeat bank.now spec.now result }
{
    prove!(spec.length() <= bank.items() as u32);
    let shown = with_item(seat, &service.form, seat.proved, service.item);
    with_response(&shown, service.response)
}
