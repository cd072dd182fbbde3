//! Reduced weights: what each item and stimulus adds to the Lagrangian of a vector.

use crate::table::{Table, TableItem};
use proof_tree::{Memory, Vector};
use std::alloc::Global;

/// The multipliers of low sides less those of high sides, by row and then by stimulus.
fn prices_of(alloc: Global, table: &Table, vector: &Vector) -> Result<Vec<i64>, Memory> {
    let count = table.rows.len().saturating_add(table.stimuli.len());
    let mut prices = Vec::from_elem(alloc, 0i64, count)?;
    for pair in vector.pairs() {
        if let Some(price) = prices.get_mut((pair.0 / 2) as usize) {
            let multiplier = pair.1 as i64;
            *price = if pair.0 % 2 == 0 {
                price.wrapping_add(multiplier)
            } else {
                price.wrapping_sub(multiplier)
            };
        }
    }
    Ok(prices)
}

/// The reduced weight of an item: 256 times its information, or 0 for a ray, what it adds to each
/// row times the row's price, and the price of its stimulus.
fn weight_of(table: &Table, prices: &[i64], entry: &TableItem, ray: bool) -> i64 {
    let mut weight = if ray {
        0
    } else {
        (entry.info as i64).wrapping_mul(256)
    };
    for part in table.parts_of(entry) {
        let price = prices.get(part.row as usize).copied().unwrap_or(0);
        weight = weight.wrapping_add(price.wrapping_mul(part.amount as i64));
    }
    if entry.stimulus > 0 {
        let at = table.rows.len().saturating_add(entry.stimulus as usize);
        let price = prices.get(at.wrapping_sub(1)).copied().unwrap_or(0);
        weight = weight.wrapping_add(price);
    }
    weight
}

/// The reduced weight of each item.
pub fn weights_of(
    alloc: Global,
    table: &Table,
    vector: &Vector,
    ray: bool,
) -> Result<Vec<i64>, Memory> {
    let prices = prices_of(alloc, table, vector)?;
    let mut weights = Vec::new(alloc);
    for entry in table.entries.as_slice() {
        weights.push(weight_of(table, prices.as_slice(), entry, ray))?;
    }
    Ok(weights)
}

/// What the bounds of a row or stimulus add for a side of it.
fn side_price(low: i64, high: i64, pair: &(u16, u32)) -> i64 {
    let multiplier = pair.1 as i64;
    if pair.0 % 2 == 0 {
        multiplier.wrapping_mul(low.wrapping_neg())
    } else {
        multiplier.wrapping_mul(high)
    }
}

/// The constant: the price of the bounds of each row.
pub fn constant_of(table: &Table, vector: &Vector) -> i64 {
    let mut sum = 0i64;
    for pair in vector.pairs() {
        if let Some(limits) = table.rows.get((pair.0 / 2) as usize) {
            sum = sum.wrapping_add(side_price(limits.low, limits.high, pair));
        }
    }
    sum
}

/// What each stimulus adds for the rows that count stimuli.
fn counted_price(table: &Table, vector: &Vector) -> i64 {
    let mut sum = 0i64;
    for pair in vector.pairs() {
        if let Some(limits) = table.rows.get((pair.0 / 2) as usize) {
            if limits.of_stimuli {
                sum = sum.wrapping_add(side_price(-1, -1, pair));
            }
        }
    }
    sum
}

/// The reduced weight of each stimulus: the price of its bounds, and of each row that counts
/// stimuli.
pub fn stimulus_weights(alloc: Global, table: &Table, vector: &Vector) -> Result<Vec<i64>, Memory> {
    let counted = counted_price(table, vector);
    let mut weights = Vec::from_elem(alloc, counted, table.stimuli.len())?;
    for pair in vector.pairs() {
        let at = ((pair.0 / 2) as usize).wrapping_sub(table.rows.len());
        if let Some(limits) = table.stimuli.get(at) {
            if let Some(weight) = weights.get_mut(at) {
                *weight = weight.wrapping_add(side_price(limits.low, limits.high, pair));
            }
        }
    }
    Ok(weights)
}

/// The cap: the multiplier of its low side less that of its high side, where the vector names one
/// of them.
pub fn cap_of(vector: &Vector) -> Option<i64> {
    let mut cap = None;
    for pair in vector.pairs() {
        if pair.0 / 2 == 192 {
            cap = Some(cap.unwrap_or(0i64).wrapping_sub(side_price(1, 1, pair)));
        }
    }
    cap
}
