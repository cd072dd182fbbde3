//! An item bank.

ghost use Rattle.std.specs.Prelude.{◌≡◌, ◌<◌, Some, None, IfOk, IfErr};
ghost use Rattle.bank_tables.specs.Tables.{size, stimulus, categories, quantity, info, loglik};
ghost use Rattle.bank_tables.specs.Validity.{IsBank};
ghost use Rattle.bank_tables.specs.Sums.{greatest_below};
ghost use Rattle.bank_tables.specs.Faults.{bank_fault};

use crate::bank_fault::BankFault;
use crate::faults::first_fault;
use crate::list::List;
use crate::rows::{ItemRow, Rows};
use std::alloc::Global;
use std::marker::Model;

/// An item bank: rows whose numbers are within their bounds, with the greatest stimulus number, so
/// that it is looked up once. The rows are moved in, so they keep the types that they are given in.
#[derive(Debug, Drop)]
pub struct Bank {
    grid: u8,
    quantities: u8,
    stimuli: u8,
    items: List<ItemRow>,
}

impl Model for Bank {
    ghost use Rattle.bank_tables.specs.Tables.{Tables};
    ghost use Rattle.bank_tables.specs.Insides.{tables_of, IsInside};

    ghost Value = { Tables };

    ghost view = { tables_of };

    ghost invariant = { IsInside };
}

/// The greatest stimulus number of the rows of a bank.
fn greatest_stimulus(rows: &Rows) -> u8
    requires { IsBank rows.now }
    ensures { result ≡ greatest_below (size rows.now) (stimulus rows.now) }
{
    let items = rows.items.as_slice();
    let mut most = 0;
    for i in 0..items.len() {
        let stimulus = items[i].stimulus;
        if stimulus > most {
            most = stimulus;
        }
    }
    most as u8
}

impl Bank {
    /// The bank of these rows, or their first fault: the tests go in the order of `BankFault`'s
    /// variants, from `BadStimulus` on item by item. It takes no memory of its own, so
    /// `BankFault::Memory` is never given.
    pub fn of(_alloc: Global, rows: Rows) -> Result<Bank, BankFault>
        // Promise: Rows become an item bank exactly where all their numbers are within their
        // bounds, and the bank is those rows
        // - by `bank`, `faultless`
        ensures bank { IfOk result (λ b. b ≡ rows) }
        ensures faultless { IfOk result (λ _. bank_fault rows ≡ None) }
        // Promise: Else the fault is the first of the tests in their order, item by item; it is
        // never out of memory
        ensures fault { IfErr result (λ f. bank_fault rows ≡ Some f) }
    {
        match first_fault(&rows) {
            Some(fault) => Err(fault),
            None => {
                let stimuli = greatest_stimulus(&rows);
                let Rows {
                    grid,
                    quantities,
                    items,
                } = rows;
                Ok(Bank {
                    grid: grid as u8,
                    quantities: quantities as u8,
                    stimuli,
                    items,
                })
            }
        }
    }

    /// The number of items, 1 to 512.
    pub fn items(&self) -> u16
        // Promise: Each accessor gives the bank's own number
        // - of `Bank::items`, `Bank::grid`, `Bank::quantities`, `Bank::stimulus`,
        //   `Bank::categories`, `Bank::quantity`, `Bank::info`, `Bank::loglik`
        // - by the clause
        ensures items { result ≡ size self.now }
        ensures bank { IsBank self.now }
    {
        self.items.as_slice().len() as u16
    }

    /// The number of points of the ability grid, 1 to 61.
    pub fn grid(&self) -> u8
        ensures { result ≡ self.now.grid }
    {
        self.grid
    }

    /// The number of quantities, at most 8.
    pub fn quantities(&self) -> u8
        ensures { result ≡ self.now.quantities }
    {
        self.quantities
    }

    /// The greatest stimulus number, at most 64.
    pub fn stimuli(&self) -> u8
        // Promise: The number of stimuli is the greatest stimulus number
        ensures { result ≡ greatest_below (size self.now) (stimulus self.now) }
    {
        self.stimuli
    }

    /// The stimulus of an item; 0 is none.
    pub fn stimulus(&self, item: u16) -> u8
        requires { item < size self.now }
        ensures { result ≡ stimulus self.now item }
    {
        self.items.as_slice()[item as usize].stimulus as u8
    }

    /// The number of response categories of an item, 2 to 5.
    pub fn categories(&self, item: u16) -> u8
        requires { item < size self.now }
        ensures { result ≡ categories self.now item }
    {
        self.items.as_slice()[item as usize].categories as u8
    }

    /// A quantity of an item.
    pub fn quantity(&self, item: u16, which: u8) -> u32
        requires item { item < size self.now }
        requires which { which < self.now.quantities }
        ensures { result ≡ quantity self.now item which }
    {
        self.items.as_slice()[item as usize].quantities.as_slice()[which as usize]
    }

    /// The information of an item at a grid point.
    pub fn info(&self, item: u16, point: u8) -> u32
        requires item { item < size self.now }
        requires point { point < self.now.grid }
        ensures { result ≡ info self.now item point }
    {
        self.items.as_slice()[item as usize].info.as_slice()[point as usize]
    }

    /// The log-likelihood of a response to an item at a grid point.
    pub fn loglik(&self, item: u16, response: u8, point: u8) -> i32
        requires item { item < size self.now }
        requires response { response < categories self.now item }
        requires point { point < self.now.grid }
        ensures { result ≡ loglik self.now item response point }
    {
        let at = response as usize * self.grid as usize + point as usize;
        self.items.as_slice()[item as usize].loglik.as_slice()[at]
    }
}

/// Threads may move and share a value of this type.
fn may_be_shared<T: Send + Sync>() {}

/// Threads may move and share a bank.
fn a_bank_may_be_shared() {
    may_be_shared::<Bank>()
}
