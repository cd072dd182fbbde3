//! The tests that rows of an item bank must pass.

ghost use Rattle.std.specs.Prelude.{◌≡◌, ◌*◌, ◌<◌, ◌≤◌, ◌==◌, ◌&&◌, nat_le};
ghost use Rattle.std.specs.List.{list_all};
ghost use Rattle.bank_tables.specs.Tables.{size};
ghost use Rattle.bank_tables.specs.Faults.{are_numbers, is_loglik, item_fault, items_fault, bank_fault};

use crate::bank_fault::BankFault;
use crate::limits::{CATEGORIES, GRID, ITEMS, QUANTITIES, STIMULI};
use crate::rows::{ItemRow, Rows};

fn are_at_most(most: u32, numbers: &[u32]) -> bool
    ensures { result ≡ list_all (λ x. nat_le x most) numbers.now }
{
    numbers.iter().all(|n| *n <= most)
}

fn are_numbers(count: u32, most: u32, numbers: &[u32]) -> bool
    ensures { result ≡ are_numbers count most numbers.now }
{
    numbers.len() == count as usize && are_at_most(most, numbers)
}

fn are_logliks(numbers: &[i32]) -> bool
    ensures { result ≡ list_all is_loglik numbers.now }
{
    numbers.iter().all(|n| -10_000_000 <= *n && *n <= 0)
}

#[tactic(auto, unfolding(crate::specs::Faults::item_fault))]
fn item_fault(grid: u32, quantities: u32, item: u16, row: &ItemRow) -> Option<BankFault>
    requires { grid < 62 }
    ensures { result ≡ item_fault grid quantities item row.now }
{
    if row.stimulus > STIMULI as u32 {
        return Some(BankFault::BadStimulus(item));
    }
    if row.categories < 2 || row.categories > CATEGORIES as u32 {
        return Some(BankFault::BadCategories(item));
    }
    if !are_numbers(quantities, 65_535, row.quantities.as_slice()) {
        return Some(BankFault::BadQuantity(item));
    }
    if !are_numbers(grid, 1_000_000, row.info.as_slice()) {
        return Some(BankFault::BadInfo(item));
    }
    let logliks = row.loglik.as_slice();
    if logliks.len() != (row.categories * grid) as usize || !are_logliks(logliks) {
        return Some(BankFault::BadLogLik(item));
    }
    None
}

/// The fault of the first item that has one.
#[tactic(auto, using(exam_text::proofs::Firsts::found_at))]
fn items_fault(rows: &Rows) -> Option<BankFault>
    requires grid { rows.now.grid < 62 }
    requires few { size rows.now ≤ 512 }
    ensures { result ≡ items_fault rows.now }
{
    let items = rows.items.as_slice();
    for i in 0..items.len() {
        if let Some(fault) = item_fault(rows.grid, rows.quantities, i as u16, &items[i]) {
            return Some(fault);
        }
    }
    None
}

/// The first fault of the rows, in the order of the tests.
#[tactic(auto, unfolding(crate::specs::Faults::bank_fault))]
pub fn first_fault(rows: &Rows) -> Option<BankFault>
    ensures { result ≡ bank_fault rows.now }
{
    let count = rows.items.as_slice().len();
    if count == 0 {
        return Some(BankFault::NoItems);
    }
    if count > ITEMS as usize {
        return Some(BankFault::TooMany(count as u64));
    }
    if rows.grid == 0 || rows.grid > GRID as u32 || rows.quantities > QUANTITIES as u32 {
        return Some(BankFault::BadGrid);
    }
    items_fault(rows)
}
