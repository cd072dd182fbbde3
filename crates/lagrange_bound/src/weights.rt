//! The reduced weights of items: what each adds to the Lagrangian.

ghost use Rattle.std.specs.Prelude.{◌≡◌, ℕ, ◌*◌, ◌<◌, ◌≤◌, cond, slice_index, slice_set, pos, ◌+ℤ◌, ◌*ℤ◌};
ghost use Rattle.bank_tables.specs.Items.{has};
ghost use Rattle.bank_tables.specs.Sums.{sum_in_z};
ghost use Rattle.bank_tables.specs.Tables.{size};
ghost use Rattle.bank_tables.specs.Validity.{IsBank};
ghost use Rattle.certificate_model.specs.Ranges.{AreMultipliers, IsWithin, at};
ghost use Rattle.form_model.specs.Validity.{IsRow, IsWellMade};
ghost use Rattle.certificate_model.specs.Weights.{item_activity, item_weight, price_of_stimulus, weight};
ghost use Rattle.constraint_model.specs.Views.{problem_of};
ghost use Rattle.lagrange_bound.specs.Fills.{no_weight};
ghost use Rattle.lagrange_bound.specs.Ranges.{IsWeight, excess_top, item_top, row_top};
ghost use Rattle.lagrange_bound.specs.Shares.{own_weight};

use bank_tables::{Bank, ItemSet};
use constraint_model::prices::price;
use constraint_model::{Problem, Row};

/// The number in place of the weight of an item that isn't free: it is below each weight.
const NO_WEIGHT: i64 = -140_737_488_355_329;

/// 256 times the information of an item at the estimate, or 0 for a ray.
fn information(problem: &Problem, ray: bool, item: u16) -> u32
    requires well_made { IsWellMade (problem_of problem.now) }
    requires item { item < size problem.now.bank.now }
    ensures value { result ≡ weight (problem_of problem.now) ray item }
    ensures high { result ≤ 256000000 }
{
    if ray {
        0
    } else {
        256 * problem.bank.info(item, problem.theta)
    }
}

/// The price of a stimulus; 0 is none.
fn price_of_stimulus(problem: &Problem, sides: &[u32; 386], which: u8) -> i64
    requires well_made { IsWellMade (problem_of problem.now) }
    requires sides { AreMultipliers (slice_index sides.now) }
    requires which { which ≤ 64 }
    ensures value { result ≡
        price_of_stimulus (problem_of problem.now) (slice_index sides.now) which }
    ensures within { IsWithin 16777216 result }
{
    if which == 0 {
        0
    } else {
        price(
            sides,
            2 * problem.spec.rows().len() + 2 * (which as usize - 1),
        )
    }
}

/// The weight of an item without the rows.
fn own_weight(problem: &Problem, sides: &[u32; 386], ray: bool, item: u16) -> i64
    requires well_made { IsWellMade (problem_of problem.now) }
    requires sides { AreMultipliers (slice_index sides.now) }
    requires item { item < size problem.now.bank.now }
    ensures value { result ≡ own_weight (problem_of problem.now) (slice_index sides.now) ray item }
    ensures within { IsWithin 272777216 result }
{
    let stimulus = problem.bank.stimulus(item);
    information(problem, ray, item) as i64 + price_of_stimulus(problem, sides, stimulus)
}

/// The weight of each item without the rows.
fn own_weights(problem: &Problem, sides: &[u32; 386], ray: bool) -> [i64; 512]
    requires well_made { IsWellMade (problem_of problem.now) }
    requires sides { AreMultipliers (slice_index sides.now) }
    ensures value { (i : ℕ) → i < size problem.now.bank.now →
        at result i ≡ own_weight (problem_of problem.now) (slice_index sides.now) ray i }
    ensures within { (i : ℕ) → i < size problem.now.bank.now → IsWithin 272777216 (at result i) }
{
    let mut weights = [0i64; 512];
    for i in 0..problem.bank.items() {
        weights[i as usize] = own_weight(problem, sides, ray, i);
    }
    weights
}

/// A price times a quantity.
fn priced(price: i64, quantity: u32) -> i64
    requires price { IsWithin 16777216 price }
    requires quantity { quantity ≤ 65535 }
    ensures value { result ≡ price *ℤ pos quantity }
    ensures within { IsWithin row_top result }
{
    price * quantity as i64
}

/// What an item adds to a row, times the row's price.
fn share(bank: &Bank, row: &Row, price: i64, item: u16) -> i64
    requires bank { IsBank bank.now }
    requires row { IsRow bank.now row.now }
    requires price { IsWithin 16777216 price }
    requires item { item < size bank.now }
    ensures value { result ≡ price *ℤ pos (item_activity bank.now row.now item) }
    ensures within { IsWithin row_top result }
{
    match row {
        Row::Count { set, .. } => priced(price, set.has(item) as u32),
        Row::Quantity { which, set, .. } => {
            if set.has(item) {
                priced(price, bank.quantity(item, *which))
            } else {
                0
            }
        }
        Row::Enemies { set } => priced(price, set.has(item) as u32),
        Row::Stimuli { .. } => 0,
    }
}

/// Adds a number to the weight of an item.
pub fn raise(weights: &mut [i64; 512], item: u16, by: i64)
    requires item { item < 512 }
    requires weight { IsWithin item_top (at weights.old item) }
    requires by { IsWithin excess_top by }
    ensures { weights.new ≡ slice_set weights.old item (at weights.old item +ℤ by) }
{
    weights[item as usize] += by;
}

/// Adds what each item adds to a row, times the row's price.
fn add_row(weights: &mut [i64; 512], bank: &Bank, row: &Row, price: i64)
    requires bank { IsBank bank.now }
    requires row { IsRow bank.now row.now }
    requires price { IsWithin 16777216 price }
    requires within { (i : ℕ) → i < size bank.now → IsWithin item_top (at weights.old i) }
    ensures { (i : ℕ) → i < size bank.now →
        at weights.new i ≡ at weights.old i +ℤ (price *ℤ pos (item_activity bank.now row.now i)) }
{
    for i in 0..bank.items() {
        raise(weights, i, share(bank, row, price, i));
    }
}

/// Adds what each item adds to a row that has a price.
fn add_priced_row(weights: &mut [i64; 512], bank: &Bank, row: &Row, price: i64)
    requires bank { IsBank bank.now }
    requires row { IsRow bank.now row.now }
    requires price { IsWithin 16777216 price }
    requires within { (i : ℕ) → i < size bank.now → IsWithin item_top (at weights.old i) }
    ensures { (i : ℕ) → i < size bank.now →
        at weights.new i ≡ at weights.old i +ℤ (price *ℤ pos (item_activity bank.now row.now i)) }
{
    if price != 0 {
        add_row(weights, bank, row, price);
    }
}

/// The reduced weight of each item; of a ray without its information.
pub fn item_weights(problem: &Problem, sides: &[u32; 386], ray: bool) -> [i64; 512]
    requires well_made { IsWellMade (problem_of problem.now) }
    requires sides { AreMultipliers (slice_index sides.now) }
    ensures value { (i : ℕ) → i < size problem.now.bank.now →
        at result i ≡ item_weight (problem_of problem.now) (slice_index sides.now) ray i }
    ensures within { (i : ℕ) → i < size problem.now.bank.now → IsWithin item_top (at result i) }
{
    let mut weights = own_weights(problem, sides, ray);
    let rows = problem.spec.rows();
    for r in 0..rows.len() {
        add_priced_row(&mut weights, problem.bank, &rows[r], price(sides, 2 * r));
    }
    weights
}

/// The weight of an item that is in the set, else 0.
fn weight_in(weights: &[i64; 512], items: &ItemSet, item: u16) -> i64
    requires item { item < 512 }
    requires within { IsWithin item_top (at weights.now item) }
    ensures value { result ≡ cond (has items.now item) (at weights.now item) (pos 0) }
    ensures within { IsWithin item_top result }
{
    if items.has(item) {
        weights[item as usize]
    } else {
        0
    }
}

/// The sum of the weights of the first n items that are in the set.
pub fn sum_over(weights: &[i64; 512], n: u16, items: &ItemSet) -> i64
    requires few { n ≤ 512 }
    requires within { (i : ℕ) → i < n → IsWithin item_top (at weights.now i) }
    ensures value { result ≡ sum_in_z n (has items.now) (at weights.now) }
    ensures within { IsWithin (512 * item_top) result }
{
    let mut sum = 0i64;
    for i in 0..n {
        sum += weight_in(weights, items, i);
    }
    sum
}

/// Marks the first n items that aren't in the set.
pub fn mark_others(weights: &mut [i64; 512], n: u16, items: &ItemSet)
    requires few { n ≤ 512 }
    requires within { (i : ℕ) → i < n → IsWithin item_top (at weights.old i) }
    ensures value { (i : ℕ) → i < n →
        at weights.new i ≡ cond (has items.now i) (at weights.old i) no_weight }
    ensures weights { (i : ℕ) → i < n → IsWeight (at weights.new i) }
{
    for i in 0..n {
        if !items.has(i) {
            weights[i as usize] = NO_WEIGHT;
        }
    }
}
