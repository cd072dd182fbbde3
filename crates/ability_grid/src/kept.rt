//! Sums that are kept from answer to answer.

ghost use Rattle.std.specs.Prelude.{◌≡◌, ℕ, ◌+◌, ◌<◌, ◌≤◌, [], ◌∷◌, ◌++◌, length, List, ℤ, ◌+ℤ◌, IfOk};
ghost use Rattle.bank_tables.specs.Tables.{Tables, size, categories, loglik};
ghost use Rattle.form_model.specs.Ability.{AnswerList};
ghost use Rattle.ability_grid.specs.Running.{sum_at, IsSumsOf};

use crate::Memory;
use crate::sums::{MOST_POINTS, Sums, add_answer};
use bank_tables::Bank;
use std::alloc::Global;
use std::marker::Model;

/// Sums over the ability grid in memory for its points alone: 8 bytes a point.
#[derive(Debug, Drop)]
pub struct KeptSums {
    additions: u16,
    values: Vec<i64>,
}

impl Model for KeptSums {
    ghost use Rattle.std.specs.Prelude.{length};
    ghost use Rattle.ability_grid.specs.Running.{Running, IsRunning};

    ghost Value = { Running };

    ghost view = { λ s. record {
      grid = length s.values.items;
      additions = s.additions;
      values = s.values.items;
    } };

    ghost invariant = { λ s. IsRunning (record {
      grid = length s.values.items;
      additions = s.additions;
      values = s.values.items;
    }) };
}

impl KeptSums {
    /// The sums of a prior, which is one logarithm per grid point, with no answer added.
    pub fn of_prior(alloc: Global, prior: &[i32]) -> Result<KeptSums, Memory>
        requires some { 0 < length prior.now }
        requires few { length prior.now ≤ 61 }
        // Promise: Kept sums begin as those of a prior, an answer is added to them in the same way,
        // and they give the same sums back
        // - of `KeptSums::of_prior`, `KeptSums::add`, `KeptSums::sums`
        // - by `grid`, `additions`, `each`, `sums`
        ensures grid { IfOk result (λ sums. sums.grid ≡ length prior.now) }
        ensures additions { IfOk result (λ sums. sums.additions ≡ 0) }
        ensures sums { IfOk result (λ sums. (b : Tables) → b.grid ≡ length prior.now
            → IsSumsOf b prior.now [] sums) }
    {
        let sums = Sums::of_prior(prior);
        let values = Vec::from_slice(alloc, &sums.values[..prior.len()])?;
        Ok(KeptSums {
            additions: 0,
            values,
        })
    }

    /// Adds an answer: an item of the bank and the response to it, from 0 on. Takes no memory.
    pub fn add(&mut self, bank: &Bank, item: u16, response: u8)
        requires grid { self.old.grid ≡ bank.now.grid }
        requires item { item < size bank.now }
        requires response { response < categories bank.now item }
        requires few { self.old.additions < 512 }
        ensures grid { self.new.grid ≡ self.old.grid }
        ensures additions { self.new.additions ≡ self.old.additions + 1 }
        ensures each { (g : ℕ) → g < self.old.grid
            → sum_at self.new g ≡ sum_at self.old g +ℤ loglik bank.now item response g }

        // Sums of a prior and some answers become those of the prior and one answer more.
        ensures sums { (prior : List ℤ) (answers : AnswerList)
            → IsSumsOf bank.now prior answers self.old
            → IsSumsOf bank.now prior (answers ++ (item, response) ∷ []) self.new }
    {
        prove!(item < bank.items());
        let grid = self.values.len() as u8;
        add_answer(self.values.as_mut_slice(), grid, bank, item, response);
        self.additions += 1;
    }

    /// The sums.
    pub fn sums(&self) -> Sums
        ensures grid { result.grid ≡ self.now.grid }
        ensures additions { result.additions ≡ self.now.additions }
        ensures each { (g : ℕ) → g < self.now.grid → sum_at result g ≡ sum_at self.now g }

        // They are the sums of the same prior and answers.
        ensures sums { (b : Tables) (prior : List ℤ) (answers : AnswerList)
            → IsSumsOf b prior answers self.now → IsSumsOf b prior answers result }
    {
        let mut values = [0i64; MOST_POINTS];
        for (g, value) in self.values.iter().enumerate() {
            values[g] = *value;
        }
        Sums {
            grid: self.values.len() as u8,
            additions: self.additions,
            values,
        }
    }
}
