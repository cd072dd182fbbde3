//! Forms near to the items of the greatest weight.

use crate::exchange::{Swap, after_swap};
use crate::table::Table;
use crate::tally::Tally;
use crate::weights::weights_of;
use bank_tables::ItemSet;
use proof_tree::{Memory, Vector};
use std::alloc::Global;

/// Swaps, at most.
const MOST_SWAPS: u32 = 40;

/// The weight of an item.
fn weight_at(weights: &[i64], item: u16) -> i64 {
    weights.get(item as usize).copied().unwrap_or(0)
}

/// A free item outside the set of the greatest weight, of those that open no stimulus and fill none
/// beyond its bound where `fits` is set.
fn next_best(
    table: &Table,
    tally: &Tally,
    weights: &[i64],
    items: &ItemSet,
    fits: bool,
) -> Option<u16> {
    let mut best = None;
    let mut most = i64::MIN;
    let mut item = 0u16;
    for entry in table.entries.as_slice() {
        if entry.free && !items.has(item) && weight_at(weights, item) > most {
            if !fits || tally.has_room(table, entry) {
                most = weight_at(weights, item);
                best = Some(item);
            }
        }
        item = item.saturating_add(1);
    }
    best
}

/// A set with as many more free items of the greatest weight as the test needs.
fn filled(table: &Table, weights: &[i64], begun: &ItemSet) -> ItemSet {
    let mut items = *begun;
    for _ in begun.count()..table.length {
        let tally = Tally::of(table, &items);
        let next = match next_best(table, &tally, weights, &items, true) {
            Some(item) => Some(item),
            None => next_best(table, &tally, weights, &items, false),
        };
        match next {
            Some(item) if item < 512 => items = items.with(item),
            _ => {}
        }
    }
    items
}

/// A swap with how it changes the violation, and what it loses in weight.
#[derive(Clone, Copy)]
struct Found {
    swap: Swap,
    change: i64,
    loss: i64,
}

/// Whether the first of two swaps is the better one, or lowers the violation where there is no
/// other.
fn is_better(found: &Found, best: &Option<Found>) -> bool {
    match best {
        Some(old) => {
            found.change < old.change || found.change == old.change && found.loss < old.loss
        }
        None => found.change < 0,
    }
}

/// Of the swaps by which one item leaves, the best, if it is better than the best so far.
fn lowering_for(
    table: &Table,
    tally: &Tally,
    weights: &[i64],
    items: &ItemSet,
    leaves: u16,
    best: Option<Found>,
) -> Option<Found> {
    let leaving = table.entries.get(leaves as usize)?;
    let mut best = best;
    let mut comes = 0u16;
    for coming in table.entries.as_slice() {
        let loss = weight_at(weights, leaves).wrapping_sub(weight_at(weights, comes));
        if coming.free && !items.has(comes) {
            let found = Found {
                swap: Swap { leaves, comes },
                change: tally.change(table, leaving, coming),
                loss,
            };
            if is_better(&found, &best) {
                best = Some(found);
            }
        }
        comes = comes.saturating_add(1);
    }
    best
}

/// The swap that lowers the violation most; of several one that loses least in weight.
fn lowering(table: &Table, weights: &[i64], items: &ItemSet) -> Option<Found> {
    let tally = Tally::of(table, items);
    let mut best = None;
    let mut leaves = 0u16;
    for leaving in table.entries.as_slice() {
        if leaving.free && items.has(leaves) {
            if let Some(found) = lowering_for(table, &tally, weights, items, leaves, best) {
                best = Some(found);
            }
        }
        leaves = leaves.saturating_add(1);
    }
    best
}

/// The set begun, filled with items of the greatest weight, and with swaps that lower how far it is
/// from the bounds: perhaps a form.
pub fn nearby_form(
    alloc: Global,
    table: &Table,
    vector: &Vector,
    begun: &ItemSet,
) -> Result<ItemSet, Memory> {
    let weights = weights_of(alloc, table, vector, false)?;
    let mut items = filled(table, weights.as_slice(), begun);
    for _ in 0..MOST_SWAPS {
        match lowering(table, weights.as_slice(), &items) {
            Some(found) => items = after_swap(&items, found.swap),
            None => break,
        }
    }
    Ok(items)
}
