//! The vector of a vertex, in whole multipliers.

use crate::numbers::{add_at, at, product};
use crate::relaxation::{NO_SIDE, Relaxation};
use crate::vertex::{Hold, Stand, Vertex};
use crate::workspace::Workspace;
use bank_tables::List;
use bank_tables::limits::MULTIPLIER;
use bank_tables::sides::{CAP_HIGH, CAP_LOW};
use proof_tree::{Memory, Vector};
use std::alloc::Global;

/// The greatest multiplier.
const MOST: i64 = MULTIPLIER as i64;

/// Adds a side with its multiplier, in units of 1/256, if it has one and that is positive.
fn push_side(pairs: &mut Vec<(u16, u32)>, side: u16, price: i64) -> Result<(), Memory> {
    let multiplier = price.saturating_add(128) >> 8;
    if side != NO_SIDE && multiplier > 0 {
        pairs.push((side, multiplier.clamp(0, MOST) as u32))?;
    }
    Ok(())
}

/// Adds the cap, in units of 1/256.
fn push_cap(pairs: &mut Vec<(u16, u32)>, price: i64) -> Result<(), Memory> {
    let cap = price.saturating_add(128) >> 8;
    if cap >= 0 {
        pairs.push((CAP_LOW, cap.clamp(1, MOST) as u32))?;
    }
    if cap <= 0 {
        pairs.push((CAP_HIGH, cap.saturating_neg().clamp(1, MOST) as u32))?;
    }
    Ok(())
}

/// The vector of the multipliers of all lines; with a cap, that is the price of the length.
fn vector_of(
    alloc: Global,
    relaxation: &Relaxation,
    prices: &[i64],
    has_cap: bool,
) -> Result<Vector, Memory> {
    let mut pairs = Vec::new(alloc);
    for (line, price) in relaxation.lines.iter().zip(prices.iter()) {
        push_side(&mut pairs, line.positive, *price)?;
        push_side(&mut pairs, line.negative, price.wrapping_neg())?;
    }
    if has_cap {
        push_cap(&mut pairs, at(prices, 0).wrapping_neg())?;
    }
    match Vector::of(List::of(pairs)) {
        Some(vector) => Ok(vector),
        None => Ok(Vector::new(List::of(Vec::new(alloc)))),
    }
}

impl Vertex {
    /// The vector of the vertex.
    // Promise: The vector of a vertex, or of a direction from it
    // - of `Vertex::vector`, `vector_towards`
    // - by none
    pub fn vector(
        &self,
        alloc: Global,
        relaxation: &Relaxation,
        room: &mut Workspace,
    ) -> Result<Vector, Memory> {
        self.exact_prices(relaxation, room)?;
        vector_of(
            alloc,
            relaxation,
            room.sums.as_slice(),
            self.has_followers(relaxation),
        )
    }

    /// Whether an item is taken as far as its stimulus, and no further for the stimulus alone.
    fn has_followers(&self, relaxation: &Relaxation) -> bool {
        let mut number = 0u16;
        for column in self.columns.as_slice() {
            if column.stand == Stand::One && column.weight > 0 {
                if let Some(stimulus) = relaxation.link(number) {
                    if self.hold(stimulus) == Hold::Free {
                        return true;
                    }
                }
            }
            number = number.wrapping_add(1);
        }
        false
    }

    /// Adds the direction of the last line search to the multipliers, times a length.
    pub(crate) fn add_direction(&self, room: &mut Workspace, length: i64) {
        for (tight, price) in self.tight.iter().zip(room.direction.prices.iter()) {
            let more = product(length, *price);
            add_at(&mut room.sums, tight.line as usize, more);
        }
        if let Some((line, sign)) = room.direction.line {
            add_at(&mut room.sums, line as usize, length.wrapping_mul(sign));
        }
    }
}

/// The vector at a length from a vertex in the direction of its last line search, or that direction
/// alone.
pub fn vector_towards(
    alloc: Global,
    relaxation: &Relaxation,
    vertex: &Vertex,
    room: &mut Workspace,
    length: i64,
    alone: bool,
) -> Result<Vector, Memory> {
    let lines = relaxation.lines.len();
    if alone {
        room.sums.clear();
        room.sums.resize(lines, 0)?;
    } else {
        vertex.exact_prices(relaxation, room)?;
    }
    vertex.add_direction(room, length);
    vector_of(
        alloc,
        relaxation,
        room.sums.as_slice(),
        relaxation.has_links(),
    )
}
