//! The ability estimate of a seat.

ghost use Rattle.serving_model.specs.Seats.{answers, IsSeat};
ghost use Rattle.form_model.specs.Validity.{IsPlanFor};
ghost use Rattle.ability_grid.specs.Running.{IsSumsOf};

use crate::shown::number_at;
use ability_grid::Sums;
use bank_tables::Bank;
use constraint_model::Spec;
use serving_model::Seat;

/// The sums of the plan's prior and the seat's answers.
pub fn sums_of(bank: &Bank, spec: &Spec, seat: &Seat) -> Sums
    requires plan { IsPlanFor bank.now spec.now }
    requires seat { IsSeat bank.now spec.now seat.now }
    ensures { IsSumsOf bank.now spec.now.prior (answers seat.now) result }
{
    prove!(bank.items() <= 512);
    let mut sums = Sums::of_prior(spec.prior());
    for k in 0..seat.responses.len() {
        let item = number_at(&seat.shown, k);
        let response = number_at(&seat.responses, k);
        sums.add(bank, item, response as u8);
    }
    sums
}
