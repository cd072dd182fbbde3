//! Sums over the ability grid.

ghost use Rattle.std.specs.Prelude.{◌≡◌, ℕ, ◌+◌, ◌<◌, ◌≤◌, [], ◌∷◌, ◌++◌, length, get_or, List, ℤ, pos, negsuc, ◌+ℤ◌, ◌≤ℤ◌};
ghost use Rattle.bank_tables.specs.Tables.{Tables, size, categories, loglik};
ghost use Rattle.form_model.specs.Ability.{AnswerList, IsPosteriorMode};
ghost use Rattle.ability_grid.specs.Running.{sum_at, IsSumsOf, IsLowestGreatest};

use bank_tables::Bank;
use std::marker::Model;

/// The grid has at most so many points.
pub(crate) const MOST_POINTS: usize = 61;

/// The logarithm of the posterior at each point of the ability grid, up to a constant: that of the
/// prior, plus the log-likelihood of each answer added (the posterior over a grid of abilities;
/// Bock and Mislevy, Adaptive EAP Estimation of Ability in a Microcomputer Environment, 1982).
#[derive(Clone, Copy, Debug, PartialEq, Eq)]
pub struct Sums {
    pub(crate) grid: u8,
    pub(crate) additions: u16,
    pub(crate) values: [i64; MOST_POINTS],
}

impl Model for Sums {
    ghost use Rattle.ability_grid.specs.Running.{Running, IsRunning};

    ghost Value = { Running };

    ghost view = { λ s. record { grid = s.grid; additions = s.additions; values = s.values } };

    ghost invariant = { λ s. IsRunning (record { grid = s.grid; additions = s.additions; values = s.values }) };

    ghost inverse = { λ r. record { grid = r.grid; additions = r.additions; values = r.values } };
}

impl Sums {
    /// The sums of a prior, which is one logarithm per grid point, with no answer added.
    pub fn of_prior(prior: &[i32]) -> Sums
        requires some { 0 < length prior.now }
        requires few { length prior.now ≤ 61 }
        // Promise: The sums of a prior are the prior at each grid point, with no answer added
        // - by `grid`, `additions`, `sums`
        ensures grid { result.grid ≡ length prior.now }
        ensures additions { result.additions ≡ 0 }
        ensures sums { (b : Tables) → b.grid ≡ length prior.now → IsSumsOf b prior.now [] result }
    {
        let mut values = [0i64; MOST_POINTS];
        for (g, value) in prior.iter().enumerate() {
            values[g] = *value as i64;
        }
        Sums {
            grid: prior.len() as u8,
            additions: 0,
            values,
        }
    }

    /// Adds an answer: an item of the bank and the response to it, from 0 on.
    pub fn add(&mut self, bank: &Bank, item: u16, response: u8)
        // Promise: An answer turns the sums of a prior and some answers into those with one answer
        // more; no sum wraps
        // - by `grid`, `additions`, `each`, `sums`
        requires grid { self.old.grid ≡ bank.now.grid }
        requires item { item < size bank.now }
        requires response { response < categories bank.now item }
        requires few { self.old.additions < 512 }
        ensures grid { self.new.grid ≡ self.old.grid }
        ensures additions { self.new.additions ≡ self.old.additions + 1 }
        ensures each { (g : ℕ) → g < self.old.grid
            → sum_at self.new g ≡ sum_at self.old g +ℤ loglik bank.now item response g }

        // Sums of a prior and some answers become those of the prior and one answer more.
        ensures sums { (prior : List ℤ) (answers : AnswerList)
            → IsSumsOf bank.now prior answers self.old
            → IsSumsOf bank.now prior (answers ++ (item, response) ∷ []) self.new }
    {
        prove!(item < bank.items());
        add_answer(&mut self.values, self.grid, bank, item, response);
        self.additions += 1;
    }

    /// The lowest grid point at which the sum is greatest: the posterior mode of the prior and the
    /// answers added.
    pub fn mode(&self) -> u8
        // Promise: The estimate is the posterior mode, the lowest grid point in a tie
        // - by `lowest`, `mode`
        ensures lowest { IsLowestGreatest self.now result }
        ensures mode { (b : Tables) (prior : List ℤ) (answers : AnswerList)
            → IsSumsOf b prior answers self.now → IsPosteriorMode b prior answers result }
    {
        let mut best = 0;
        for g in 0..self.grid {
            if self.values[g as usize] > self.values[best as usize] {
                best = g;
            }
        }
        best
    }
}

/// Adds the log-likelihood of an answer at each grid point.
pub(crate) fn add_answer(values: &mut [i64], grid: u8, bank: &Bank, item: u16, response: u8)
    requires grid { grid ≡ bank.now.grid }
    requires room { grid ≤ length values.old }
    requires item { item < size bank.now }
    requires response { response < categories bank.now item }
    requires low { (g : ℕ) → g < grid → negsuc 9000000000000000 ≤ℤ get_or values.old g (pos 0) }
    requires high { (g : ℕ) → g < grid → get_or values.old g (pos 0) ≤ℤ pos 2147483647 }
    ensures { (g : ℕ) → g < grid
        → get_or values.new g (pos 0)
        ≡ get_or values.old g (pos 0) +ℤ loglik bank.now item response g }
{
    for g in 0..grid {
        values[g as usize] += bank.loglik(item, response, g) as i64;
    }
}
