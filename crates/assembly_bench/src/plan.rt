//! The plan of a made problem.

ghost use Rattle.std.specs.Prelude.{◌<◌, ◌*◌};

use crate::form::{best_form, best_stimuli, best_with, best_words};
use crate::size::Size;
use bank_tables::{ItemSet, List};
use constraint_model::{Draft, Rate, Row, StimulusBound};
use std::alloc::{AllocError, Global};

/// The kinds of row that a plan has in turn, with one row on the number of stimuli at its end.
#[derive(Clone, Copy)]
pub enum Kind {
    Count,
    Quantity,
    Enemies,
    Stimuli,
}

/// The kind of a row.
pub fn kind_of(size: &Size, row: u8) -> Kind {
    if row as u16 + 1 == size.rows as u16 && size.stimuli > 0 {
        return Kind::Stimuli;
    }
    match row % 3 {
        0 => Kind::Count,
        1 => Kind::Quantity,
        _ => Kind::Enemies,
    }
}

/// Every item.
fn all_items(size: &Size) -> ItemSet {
    let mut set = ItemSet::empty();
    for i in 0..size.items {
        set = set.with(i);
    }
    set
}

/// The items of a category, one of five.
fn category(size: &Size, which: u8) -> ItemSet {
    let mut set = ItemSet::empty();
    for i in 0..size.items {
        if i % 5 == which as u16 % 5 {
            set = set.with(i);
        }
    }
    set
}

/// An item of the best form and the one after it.
fn enemies(size: &Size, which: u8) -> ItemSet {
    let best = (which as u16 % size.length() * size.stride()).min(510);
    ItemSet::empty().with(best).with(best + 1)
}

/// A row, with an upper or lower bound that the best form just meets.
fn row(size: &Size, row: u8) -> Row {
    match kind_of(size, row) {
        Kind::Count => {
            let set = category(size, row / 3);
            let high = set.meet(best_form(size)).count();
            Row::Count { set, low: 0, high }
        }
        Kind::Quantity => Row::Quantity {
            which: 0,
            set: all_items(size),
            low: best_words(size),
            high: 33_553_920,
        },
        Kind::Enemies => Row::Enemies {
            set: enemies(size, row / 3),
        },
        Kind::Stimuli => Row::Stimuli {
            low: 0,
            high: best_stimuli(size),
        },
    }
}

/// The bounds of a stimulus: as many items as the best form has, or any number where it has none.
fn bound(size: &Size, stimulus: u8) -> StimulusBound {
    match best_with(size, stimulus) {
        0 => StimulusBound { low: 1, high: 512 },
        high => StimulusBound { low: 1, high },
    }
}

fn rows(alloc: Global, size: &Size) -> Result<Vec<Row>, AllocError> {
    let mut rows = Vec::new(alloc);
    for r in 0..size.rows {
        rows.push(row(size, r))?;
    }
    Ok(rows)
}

fn bounds(alloc: Global, size: &Size) -> Result<Vec<StimulusBound>, AllocError> {
    let mut bounds = Vec::new(alloc);
    for k in 0..size.stimuli {
        bounds.push(bound(size, k + 1))?;
    }
    Ok(bounds)
}

/// The plan.
pub fn draft(alloc: Global, size: &Size) -> Result<Draft, AllocError> {
    Ok(Draft {
        length: size.length() as u32,
        prior: List::of(vec![in alloc; 0]?),
        rows: List::of(rows(alloc, size)?),
        bounds: List::of(bounds(alloc, size)?),
        rate: Rate { num: 1, den: 1 },
        key: [0; 32],
        bands: List::of(Vec::new(alloc)),
        budget: 4_095,
        base_budget: 4_095,
        sessions: 1,
        journal: 64,
        base: None,
    })
}
