//! The next problem of a seat.

ghost use Rattle.std.specs.Prelude.{◌↔◌, IsTrue, IsSome, IfSome};
ghost use Rattle.serving_model.specs.Seats.{answers, IsSeat, IsPending, IsSeatProblem};
ghost use Rattle.form_model.specs.Validity.{IsPlanFor, IsWellMade};
ghost use Rattle.constraint_model.specs.Views.{problem_of};
ghost use Rattle.ability_grid.specs.Running.{IsSumsOf};

use crate::bar::barred_items;
use crate::estimate::sums_of;
use crate::shown::{last_shown, shown_items};
use ability_grid::Sums;
use bank_tables::Bank;
use constraint_model::{Problem, Spec};
use serving_model::Seat;

/// Whether the seat waits for an item.
fn is_pending(spec: &Spec, seat: &Seat) -> bool
    ensures { IsTrue result ↔ IsPending spec.now seat.now }
{
    let answered = seat.responses.len();
    !seat.closed && answered < spec.length() as usize && seat.shown.len() == answered
}

/// The problem of a seat that waits for an item, with the posterior mode of its answers as
/// estimate; none where it doesn't wait for one. The sums of the prior and its answers are given.
pub fn next_problem_from<'a>(
    bank: &'a Bank,
    spec: &'a Spec,
    session: u32,
    seat: &Seat,
    sums: &Sums,
) -> Option<Problem<'a>>
    requires plan { IsPlanFor bank.now spec.now }
    requires seat { IsSeat bank.now spec.now seat.now }
    requires sums { IsSumsOf bank.now spec.now.prior (answers seat.now) sums.now }
    ensures pending { IsSome result ↔ IsPending spec.now seat.now }
    // Promise: The same comes from sums of the prior and the answers that the caller has
    // - by `problem`, `IsSumsOf`
    ensures problem { IfSome result
        (λ p. IsSeatProblem bank.now spec.now session seat.now (problem_of p)) }
    ensures well_made { IfSome result (λ p. IsWellMade (problem_of p)) }
{
    if !is_pending(spec, seat) {
        return None;
    }
    prove!(bank.items() <= 512);
    let given = shown_items(bank, seat);
    let theta = sums.mode();
    let band = spec.band(theta);
    let barred = barred_items(bank, seat, band, &given);
    Some(Problem {
        bank,
        spec,
        session,
        step: seat.responses.len() as u16,
        aside: seat.aside[band as usize],
        given,
        barred,
        theta,
        last: last_shown(seat),
        start: seat.form,
    })
}

/// The same, with the sums made of the prior and the seat's answers.
pub fn next_problem<'a>(
    bank: &'a Bank,
    spec: &'a Spec,
    session: u32,
    seat: &Seat,
) -> Option<Problem<'a>>
    requires plan { IsPlanFor bank.now spec.now }
    requires seat { IsSeat bank.now spec.now seat.now }
    // Promise: There is a next problem exactly where the session is not closed, the test is not
    // complete and each item shown is answered
    // - of `next_problem`, `next_problem_from`
    ensures pending { IsSome result ↔ IsPending spec.now seat.now }
    // Promise: It is the problem of the seat. Given are the items shown. Barred are the items of
    // stimuli that were left, and those withheld from the examinee. Items that are not eligible in
    // the band of the estimate are barred too, unless eligibility is set aside there. The estimate
    // is the posterior mode of the answers. The start is the form last served from
    // - of `next_problem`, `next_problem_from`
    ensures problem { IfSome result
        (λ p. IsSeatProblem bank.now spec.now session seat.now (problem_of p)) }
    // Promise: Each such problem meets what later calls ask of a problem
    // - of `next_problem`, `next_problem_from`
    ensures well_made { IfSome result (λ p. IsWellMade (problem_of p)) }
{
    let sums = sums_of(bank, spec, seat);
    next_problem_from(bank, spec, session, seat, &sums)
}
