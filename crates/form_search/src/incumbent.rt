//! The best form known.

ghost use Rattle.form_model.specs.Validity.{IsWellMade};
ghost use Rattle.constraint_model.specs.Views.{problem_of};

use crate::exchange::best_exchanges;
use crate::table::Table;
use bank_tables::ItemSet;
use constraint_model::{Problem, is_form, objective};

/// The best form known, with its objective.
#[derive(Drop)]
pub struct Incumbent {
    pub form: Option<ItemSet>,
    pub objective: u64,
}

impl Incumbent {
    /// None yet.
    pub fn none() -> Incumbent {
        Incumbent {
            form: None,
            objective: 0,
        }
    }

    /// The greatest bound at which no form is better; -1 without a form, where a ray's bound has to
    /// be below 0.
    pub fn top(&self) -> i64 {
        match self.form {
            Some(_) => {
                let objective = i64::try_from(self.objective).unwrap_or(0);
                objective.wrapping_mul(256).wrapping_add(255)
            }
            None => -1,
        }
    }

    /// Takes a set of items if it is a better form.
    pub fn take(&mut self, problem: &Problem, items: &ItemSet) -> bool
        requires { IsWellMade (problem_of problem.now) }
    {
        let found = objective(problem, items);
        if self.form.is_some() && found <= self.objective {
            return false;
        }
        if !is_form(problem, items) {
            return false;
        }
        self.form = Some(*items);
        self.objective = found;
        true
    }

    /// Exchanges items of the form until no exchange of one betters it.
    pub fn exchange(&mut self, problem: &Problem, table: &Table)
        requires { IsWellMade (problem_of problem.now) }
    {
        if let Some(items) = self.form {
            let firm = best_exchanges(table, &items);
            let _ = self.take(problem, &firm);
        }
    }

    /// Takes a set of items if it is a better form, and then exchanges items until no exchange of
    /// one betters it.
    pub fn offer(&mut self, problem: &Problem, table: &Table, items: &ItemSet)
        requires { IsWellMade (problem_of problem.now) }
    {
        if self.take(problem, items) {
            self.exchange(problem, table);
        }
    }
}
