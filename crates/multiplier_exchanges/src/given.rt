//! A relaxation that is given by its columns and lines, and is not that of a problem.

use crate::numbers::FAR;
use crate::relaxation::{Cell, Line, NO_SIDE, Relaxation};
use crate::vertex::Vertex;
use crate::workspace::Workspace;
use proof_tree::Memory;
use std::alloc::Global;

/// The columns of a relaxation that is given: each is taken by 0 to 1 of it.
#[derive(Drop)]
pub struct Columns {
    /// The numbers of the columns of items; the first line is their length.
    pub items: Vec<u16>,
    /// The numbers of the columns after them, which the sets of a path name as stimuli.
    pub groups: Vec<u8>,
    /// What one of each column adds to the bound, at most 2^38.
    pub gains: Vec<i64>,
}

/// A line that is given: its bounds (without an upper one: none), what it is measured by, at least
/// 1, and its cells, each a column and the amount that one of it adds to the line, at most 65,536
/// or so.
#[derive(Clone, Copy)]
pub struct Given<'a> {
    pub low: i64,
    pub high: Option<i64>,
    pub scale: i64,
    pub cells: &'a [(u16, i64)],
}

impl Relaxation {
    /// The relaxation of some columns, of whose items so many are taken.
    // Promise: A relaxation that is given by its columns and lines, as that of several forms
    // - of `Relaxation::given`, `Relaxation::add_given`, `Relaxation::end_given`
    // - by none
    pub fn given(
        alloc: Global,
        columns: Columns,
        length: i64,
        fine: u32,
    ) -> Result<Relaxation, Memory> {
        let mut relaxation = Relaxation::empty(alloc, 0);
        relaxation.fine = fine.min(16);
        let one = 1i64 << fine.min(16);
        let Columns {
            items,
            groups,
            gains,
        } = columns;
        relaxation.gains.extend_from_slice(gains.as_slice())?;
        relaxation.items.extend_from_slice(items.as_slice())?;
        relaxation.stimuli.extend_from_slice(groups.as_slice())?;
        let mut cells = Vec::new(alloc);
        for place in 0..items.len() {
            cells.push((u16::try_from(place).unwrap_or(NO_SIDE), one))?;
        }
        relaxation.add_given(&Given {
            low: length.wrapping_mul(one),
            high: Some(length.wrapping_mul(one)),
            scale: 1,
            cells: cells.as_slice(),
        })?;
        Ok(relaxation)
    }

    /// Adds a line.
    pub fn add_given(&mut self, line: &Given) -> Result<(), Memory> {
        let start = self.line_cells.len();
        for (place, amount) in line.cells {
            self.line_cells.push(Cell {
                place: *place,
                amount: *amount,
            })?;
        }
        self.lines.push(Line {
            low: line.low,
            high: line.high.unwrap_or(FAR),
            scale: line.scale.max(1),
            positive: NO_SIDE,
            negative: NO_SIDE,
            start,
            end: self.line_cells.len(),
        })?;
        Ok(())
    }

    /// Links columns of items to groups, one list of columns for each group, and ends the
    /// relaxation: no line comes after it. A linked item is taken as far as its group.
    pub fn end_given(&mut self, alloc: Global, links: &[Vec<u16>]) -> Result<(), Memory> {
        let count = self.items.len();
        self.links.resize(count, NO_SIDE)?;
        let mut column = count;
        for linked in links {
            self.link_starts.push(self.linked.len())?;
            for place in linked.as_slice() {
                if let Some(link) = self.links.get_mut(*place as usize) {
                    *link = u16::try_from(column).unwrap_or(NO_SIDE);
                    self.linked.push(*place)?;
                }
            }
            column = column.saturating_add(1);
        }
        self.link_starts.push(self.linked.len())?;
        self.add_columns(alloc)
    }
}

impl Vertex {
    /// The multiplier of each line: positive where more of the line would let the bound fall.
    // Promise: The multiplier of each line of a given relaxation, at a vertex or in a direction
    // from it
    // - of `Vertex::prices`, `Vertex::prices_towards`
    // - by none
    pub fn prices<'a>(
        &self,
        relaxation: &Relaxation,
        room: &'a mut Workspace,
    ) -> Result<&'a [i64], Memory> {
        self.exact_prices(relaxation, room)?;
        Ok(room.sums.as_slice())
    }

    /// The direction of the last line search, times a length, added to these multipliers, or alone.
    pub fn prices_towards<'a>(
        &self,
        relaxation: &Relaxation,
        room: &'a mut Workspace,
        length: i64,
        alone: bool,
    ) -> Result<&'a [i64], Memory> {
        if alone {
            room.sums.clear();
            room.sums.resize(relaxation.lines.len(), 0)?;
        } else {
            self.exact_prices(relaxation, room)?;
        }
        self.add_direction(room, length);
        Ok(room.sums.as_slice())
    }
}
