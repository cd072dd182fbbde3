//! Exchanges of one item of a form for another.

use crate::table::Table;
use crate::tally::Tally;
use bank_tables::ItemSet;

/// One item that leaves for another.
#[derive(Clone, Copy)]
pub struct Swap {
    pub leaves: u16,
    pub comes: u16,
}

/// The set after a swap.
pub fn after_swap(items: &ItemSet, swap: Swap) -> ItemSet {
    if swap.leaves < 512 && swap.comes < 512 {
        items.without(swap.leaves).with(swap.comes)
    } else {
        *items
    }
}

/// The exchange that betters a form most, with one that may leave it; `least` is what a better one
/// has to gain at least.
fn best_for(
    table: &Table,
    tally: &Tally,
    items: &ItemSet,
    leaves: u16,
    least: u32,
) -> Option<(u16, u32)> {
    let leaving = table.entries.get(leaves as usize)?;
    let mut best = None;
    let mut gain = least;
    let mut comes = 0u16;
    for coming in table.entries.as_slice() {
        if coming.free && coming.info > leaving.info.saturating_add(gain) && !items.has(comes) {
            if tally.change(table, leaving, coming) == 0 {
                gain = coming.info.saturating_sub(leaving.info);
                best = Some((comes, gain));
            }
        }
        comes = comes.saturating_add(1);
    }
    best
}

/// The exchange that betters a form most, if one does.
fn best_exchange(table: &Table, items: &ItemSet) -> Option<Swap> {
    let tally = Tally::of(table, items);
    let mut best = None;
    let mut gain = 0u32;
    let mut leaves = 0u16;
    for leaving in table.entries.as_slice() {
        if leaving.free && items.has(leaves) {
            if let Some((comes, more)) = best_for(table, &tally, items, leaves, gain) {
                gain = more;
                best = Some(Swap { leaves, comes });
            }
        }
        leaves = leaves.saturating_add(1);
    }
    best
}

/// A form with exchanges made, best first, until none betters it.
pub fn best_exchanges(table: &Table, form: &ItemSet) -> ItemSet {
    let mut items = *form;
    for _ in 0..512 {
        match best_exchange(table, &items) {
            Some(swap) => items = after_swap(&items, swap),
            None => break,
        }
    }
    items
}
