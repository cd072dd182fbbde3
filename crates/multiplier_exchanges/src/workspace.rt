//! Room for the numbers of an exchange, which is used again.

use crate::breaks::{Break, Event};
use std::alloc::Global;

/// A direction of the multipliers: what is added to that of each tight line, the line that is to be
/// tight, with the sign of its multiplier, and what is added to the reduced weight of each column.
#[derive(Drop)]
pub(crate) struct Direction {
    pub prices: Vec<i64>,
    pub line: Option<(u16, i64)>,
    pub entries: Vec<i64>,
}

/// Room for the numbers of an exchange.
#[derive(Drop)]
pub struct Workspace {
    pub(crate) direction: Direction,
    /// Where columns and lines reach 0 on the way.
    pub(crate) breaks: Vec<Break>,
    /// The same of the items of one stimulus.
    pub(crate) events: Vec<Event>,
    /// The sum of each line.
    pub(crate) sums: Vec<i64>,
    /// What the tight lines still need.
    pub(crate) needs: Vec<i64>,
    /// A column times the inverse.
    pub(crate) column: Vec<i64>,
    /// The inverse times a line.
    pub(crate) line: Vec<i64>,
    /// The inverse to come, or a row of it.
    pub(crate) spare: Vec<i64>,
}

impl Workspace {
    /// Room that is empty.
    // Promise: Room for the numbers of an exchange
    // - by none
    pub fn new(alloc: Global) -> Workspace {
        Workspace {
            direction: Direction {
                prices: Vec::new(alloc),
                line: None,
                entries: Vec::new(alloc),
            },
            breaks: Vec::new(alloc),
            events: Vec::new(alloc),
            sums: Vec::new(alloc),
            needs: Vec::new(alloc),
            column: Vec::new(alloc),
            line: Vec::new(alloc),
            spare: Vec::new(alloc),
        }
    }
}
