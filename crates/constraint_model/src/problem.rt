//! The problem of assembling a form.

ghost use Rattle.std.specs.Prelude.{◌≡◌};
ghost use Rattle.form_model.specs.Validity.{IsPlanFor, IsWellMade, IsWhole};
ghost use Rattle.constraint_model.specs.Views.{problem_of};

use crate::spec::Spec;
use ability_grid::Sums;
use bank_tables::{Bank, ItemSet};

/// What a form is assembled for: van der Linden's 0-1 model, maximise the information at the
/// estimate.
#[derive(Clone, Copy, Debug)]
pub struct Problem<'a> {
    pub bank: &'a Bank,
    pub spec: &'a Spec,
    pub session: u32,
    /// The step of the session, from 0 on.
    pub step: u16,
    /// Whether eligibility is set aside.
    pub aside: bool,
    /// The items given, which are to be in the form.
    pub given: ItemSet,
    /// The items barred, which are not.
    pub barred: ItemSet,
    /// The grid point of the estimate.
    pub theta: u8,
    /// The item given last.
    pub last: Option<u16>,
    /// The form last served from.
    pub start: Option<ItemSet>,
}

impl<'a> Problem<'a> {
    /// The problem that has only the plan, at the mode of its prior: no session, eligibility set
    /// aside, nothing given, nothing barred.
    pub fn whole(bank: &'a Bank, spec: &'a Spec) -> Problem<'a>
        requires { IsPlanFor bank.now spec.now }
        // Promise: The plan's own problem is at the mode of the prior, with nothing given or
        // barred, and is well made
        // - by `whole` (`IsWhole`), `well_made`
        ensures whole { IsWhole bank.now spec.now (problem_of result) }
        ensures well_made { IsWellMade (problem_of result) }
    {
        prove!(bank.items() > 0);
        Problem {
            bank,
            spec,
            session: 0,
            step: 0,
            aside: true,
            given: ItemSet::empty(),
            barred: ItemSet::empty(),
            theta: Sums::of_prior(spec.prior()).mode(),
            last: None,
            start: None,
        }
    }

    /// The same problem, made anew from its parts. A function that keeps a problem takes it by this
    /// call, since no proof is generated where a parameter that holds references is moved as a
    /// whole.
    pub fn again(&self) -> Problem<'a>
        // Promise: A problem made again is the same problem
        ensures { result ≡ self.now }
    {
        Problem {
            bank: self.bank,
            spec: self.spec,
            session: self.session,
            step: self.step,
            aside: self.aside,
            given: self.given,
            barred: self.barred,
            theta: self.theta,
            last: self.last,
            start: self.start,
        }
    }
}
