//! The vectors of a made tree.

ghost use Rattle.std.specs.Prelude.{◌<◌, ◌*◌};

use crate::form::best_with;
use crate::plan::{Kind, kind_of};
use crate::size::Size;
use bank_tables::List;
use proof_tree::Vector;
use std::alloc::{AllocError, Global};

/// The multiplier of a row on the number of words.
pub const WORD_PRICE: u32 = 10_000;

/// The side of a row that the best form just meets, with its multiplier, which differs a little
/// from vector to vector.
fn row_pair(size: &Size, row: u8, which: u8) -> (u16, u32) {
    let side = 2 * row as u16;
    match kind_of(size, row) {
        Kind::Quantity => (side, WORD_PRICE + which as u32),
        Kind::Stimuli => (side + 1, 1),
        _ => (side + 1, 1 + row as u32 + which as u32),
    }
}

/// The same for a stimulus: the high side where the best form has items with it, and else the low
/// side.
fn stimulus_pair(size: &Size, stimulus: u8, which: u8) -> (u16, u32)
    requires { 0 < stimulus }
{
    let side = 2 * size.rows as u16 + 2 * (stimulus as u16 - 1);
    let used = best_with(size, stimulus) > 0;
    (side + used as u16, 5 + which as u32)
}

fn pairs(alloc: Global, size: &Size, which: u8) -> Result<Vec<(u16, u32)>, AllocError> {
    let mut pairs = Vec::new(alloc);
    for r in 0..size.rows {
        pairs.push(row_pair(size, r, which))?;
    }
    for k in 0..size.stimuli {
        pairs.push(stimulus_pair(size, k + 1, which))?;
    }
    Ok(pairs)
}

/// So many vectors. The relaxed maximum of each is 256 times the objective of the best form.
pub fn vectors(alloc: Global, size: &Size, count: u8) -> Result<Option<List<Vector>>, AllocError> {
    let mut vectors = Vec::new(alloc);
    for which in 0..count {
        match Vector::of(List::of(pairs(alloc, size, which)?)) {
            Some(vector) => vectors.push(vector)?,
            None => return Ok(None),
        }
    }
    Ok(Some(List::of(vectors)))
}
