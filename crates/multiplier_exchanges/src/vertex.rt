//! A vertex of the relaxation.

use crate::direction::amount_at;
use crate::numbers::{ONE, add_at, at};
use crate::relaxation::{PathSets, Relaxation};
use bank_tables::ItemSet;
use proof_tree::Memory;
use std::alloc::Global;

/// Where a column stands.
#[derive(Clone, Copy, PartialEq, Eq)]
pub(crate) enum Stand {
    Zero,
    One,
    Basic,
}

/// Where a path holds a column.
#[derive(Clone, Copy, PartialEq, Eq)]
pub(crate) enum Hold {
    Free,
    Zero,
    One,
}

/// A column: its reduced weight (0 for an item that is basic), where it stands, and where the path
/// holds it. A linked item that stands at 1 is taken as far as its stimulus is. The weight of a
/// stimulus is without those of its items. Linked are such items and their stimuli.
#[derive(Clone, Copy)]
pub(crate) struct Column {
    pub weight: i64,
    pub stand: Stand,
    pub hold: Hold,
    pub is_linked: bool,
}

/// A tight line: its number, which bound it stands at, and its multiplier in units of 1/256.
#[derive(Clone, Copy)]
pub(crate) struct Tight {
    pub line: u16,
    pub is_high: bool,
    pub price: i64,
}

/// A vertex.
#[derive(Drop)]
pub struct Vertex {
    pub(crate) columns: Vec<Column>,
    pub(crate) tight: Vec<Tight>,
    pub(crate) basic: Vec<u16>,
    /// The inverse of the basic columns on the tight lines: a row for each basic column.
    pub(crate) inverse: Vec<i64>,
    /// The sum on each line of the columns that stand at 1.
    pub(crate) sums: Vec<i64>,
    pub(crate) is_tight: Vec<bool>,
    /// The value of each basic column.
    pub(crate) values: Vec<i64>,
    /// The gains of the columns that stand at 1.
    pub(crate) standing: i64,
    /// 65,536 times the objective of the vertex.
    pub(crate) bound: i64,
    /// Exchanges since the inverse was refreshed.
    pub(crate) age: u32,
}

/// Where a path holds what is in neither set, in the first, or in the other.
fn hold_by(number: u16, one: &ItemSet, free: &ItemSet) -> Hold {
    if one.has(number) {
        Hold::One
    } else if free.has(number) {
        Hold::Free
    } else {
        Hold::Zero
    }
}

/// The places and gains of the free columns of the length, the greatest gain first.
fn free_by_gain(
    alloc: Global,
    relaxation: &Relaxation,
    sets: &PathSets,
) -> Result<Vec<(i64, u16)>, Memory> {
    let mut order = Vec::new(alloc);
    let mut column = 0u16;
    for item in relaxation.items.as_slice() {
        if sets.free.has(*item) {
            order.push((relaxation.gain(column).wrapping_neg(), column))?;
        }
        column = column.saturating_add(1);
    }
    order.sort_unstable_by_key(|pair| pair.0);
    Ok(order)
}

impl Vertex {
    /// The bound of the vertex: 65,536 times its objective.
    pub fn bound(&self) -> i64 {
        self.bound
    }

    /// Where a column stands.
    #[inline]
    pub(crate) fn stand(&self, column: u16) -> Stand {
        match self.columns.get(column as usize) {
            Some(known) => known.stand,
            None => Stand::Basic,
        }
    }

    /// Where the path holds a column.
    #[inline]
    pub(crate) fn hold(&self, column: u16) -> Hold {
        match self.columns.get(column as usize) {
            Some(known) => known.hold,
            None => Hold::Zero,
        }
    }

    /// Adds a column to the sums, or takes it off them.
    fn count(&mut self, relaxation: &Relaxation, column: u16, sign: i64) {
        let gain = relaxation.gain(column).wrapping_mul(sign);
        self.standing = self.standing.wrapping_add(gain);
        for cell in relaxation.column_cells(column) {
            let more = cell.amount.wrapping_mul(sign);
            add_at(&mut self.sums, cell.place as usize, more);
        }
    }

    /// The same of a column with the items that follow it.
    fn count_all(&mut self, relaxation: &Relaxation, column: u16, sign: i64) {
        self.count(relaxation, column, sign);
        for item in relaxation.linked(column) {
            if self.stand(*item) == Stand::One {
                self.count(relaxation, *item, sign);
            }
        }
    }

    /// Whether a column that stands at 1 counts as a whole: a linked item does only where its
    /// stimulus stands at 1.
    #[inline]
    fn counts(&self, relaxation: &Relaxation, column: u16) -> bool {
        match relaxation.link(column) {
            Some(stimulus) => self.stand(stimulus) == Stand::One,
            None => true,
        }
    }

    /// Lets a column stand.
    pub(crate) fn stand_at(&mut self, relaxation: &Relaxation, column: u16, stand: Stand) {
        let counts = self.counts(relaxation, column);
        let Some(known) = self.columns.get_mut(column as usize) else {
            return;
        };
        let was = known.stand == Stand::One;
        let is = stand == Stand::One;
        known.stand = stand;
        if counts && is && !was {
            self.count_all(relaxation, column, 1);
        } else if counts && was && !is {
            self.count_all(relaxation, column, -1);
        }
    }

    /// Whether the column is that of an item whose stimulus is basic.
    #[inline]
    pub(crate) fn follows_basic(&self, relaxation: &Relaxation, column: u16) -> bool {
        match relaxation.link(column) {
            Some(stimulus) => self.stand(stimulus) == Stand::Basic,
            None => false,
        }
    }

    /// The reduced weight of a column; that of a stimulus with those of the items that follow it.
    pub(crate) fn weight(&self, relaxation: &Relaxation, column: u16) -> i64 {
        let mut weight = match self.columns.get(column as usize) {
            Some(known) => known.weight,
            None => 0,
        };
        for item in relaxation.linked(column) {
            if let Some(known) = self.columns.get(*item as usize) {
                if known.stand == Stand::One {
                    weight = weight.wrapping_add(known.weight);
                }
            }
        }
        weight
    }

    /// What a column adds to a line; a stimulus with the items that follow it.
    pub(crate) fn amount(&self, relaxation: &Relaxation, column: u16, line: u16) -> i64 {
        let mut amount = amount_at(relaxation.column_cells(column), line);
        for item in relaxation.linked(column) {
            if self.stand(*item) == Stand::One {
                amount = amount.wrapping_add(amount_at(relaxation.column_cells(*item), line));
            }
        }
        amount
    }

    /// The gain of a column; that of a stimulus with those of the items that follow it.
    pub(crate) fn whole_gain(&self, relaxation: &Relaxation, column: u16) -> i64 {
        let mut gain = relaxation.gain(column);
        for item in relaxation.linked(column) {
            if self.stand(*item) == Stand::One {
                gain = gain.wrapping_add(relaxation.gain(*item));
            }
        }
        gain
    }

    /// Lets the path hold a column; one that isn't basic stands there.
    fn hold_at(&mut self, relaxation: &Relaxation, column: u16, hold: Hold) {
        let Some(known) = self.columns.get_mut(column as usize) else {
            return;
        };
        if known.hold == hold {
            return;
        }
        known.hold = hold;
        if known.stand == Stand::Basic || self.follows_basic(relaxation, column) {
            return;
        }
        let stand = stand_by(hold, self.weight(relaxation, column));
        self.stand_at(relaxation, column, stand);
    }

    /// Lets a path hold the columns of the items.
    fn hold_items(&mut self, relaxation: &Relaxation, sets: &PathSets) {
        let mut column = 0u16;
        for item in relaxation.items.as_slice() {
            self.hold_at(relaxation, column, hold_by(*item, &sets.taken, &sets.free));
            column = column.saturating_add(1);
        }
    }

    /// Lets a path hold the columns.
    pub fn hold_on(&mut self, relaxation: &Relaxation, sets: &PathSets) {
        self.hold_items(relaxation, sets);
        let mut column = relaxation.items.len() as u64;
        for stimulus in relaxation.stimuli.as_slice() {
            let hold = hold_by(*stimulus as u16, &sets.chosen, &sets.opened);
            self.hold_at(relaxation, u16::try_from(column).unwrap_or(u16::MAX), hold);
            column = column.saturating_add(1);
        }
    }

    /// The vertex with no tight line, where each column stands at 0.
    fn empty(alloc: Global, relaxation: &Relaxation) -> Result<Vertex, Memory> {
        let lines = relaxation.lines.len();
        let mut columns = Vec::with_capacity(alloc, relaxation.gains.len())?;
        let mut column = 0u16;
        for gain in relaxation.gains.as_slice() {
            columns.push(Column {
                weight: *gain,
                stand: Stand::Zero,
                hold: Hold::Zero,
                is_linked: relaxation.is_linked(column),
            })?;
            column = column.saturating_add(1);
        }
        Ok(Vertex {
            columns,
            tight: Vec::new(alloc),
            basic: Vec::new(alloc),
            inverse: Vec::new(alloc),
            sums: Vec::from_elem(alloc, 0i64, lines)?,
            is_tight: Vec::from_elem(alloc, false, lines)?,
            values: Vec::new(alloc),
            standing: 0,
            bound: i64::MAX,
            age: 0,
        })
    }

    /// Takes the gain of the last item off the weights of the items.
    fn lower_weights(&mut self, items: usize, gain: i64) {
        for column in self.columns.iter_mut().take(items) {
            column.weight = column.weight.wrapping_sub(gain);
        }
    }

    /// Makes a column basic, and the length tight at a price.
    fn make_basic(&mut self, column: u16, price: i64) -> Result<(), Memory> {
        if let Some(known) = self.columns.get_mut(column as usize) {
            known.stand = Stand::Basic;
            known.weight = 0;
        }
        if let Some(tight) = self.is_tight.get_mut(0) {
            *tight = true;
        }
        self.tight.push(Tight {
            line: 0,
            is_high: false,
            price,
        })?;
        self.basic.push(column)?;
        self.inverse.push(ONE)?;
        Ok(())
    }

    /// The vertex of the items of the greatest gains, as many as the length needs. The length is
    /// tight, and the last of them is basic.
    // Promise: A first vertex, copies of it, and where a path holds its columns
    // - of `Vertex::first`, `Vertex::again`, `Vertex::hold_on`
    // - by none
    pub fn first(
        alloc: Global,
        relaxation: &Relaxation,
        sets: &PathSets,
    ) -> Result<Vertex, Memory> {
        let mut vertex = Vertex::empty(alloc, relaxation)?;
        let order = free_by_gain(alloc, relaxation, sets)?;
        let wanted = match relaxation.lines.get(0) {
            Some(line) => usize::try_from(line.low).unwrap_or(0),
            None => 0,
        };
        let last = wanted.min(order.len()).saturating_sub(1);
        if let Some((less, column)) = order.get(last).copied() {
            vertex.lower_weights(relaxation.items.len(), less.wrapping_neg());
            vertex.make_basic(column, less)?;
        }
        vertex.hold_on(relaxation, sets);
        Ok(vertex)
    }

    /// The same once more.
    pub fn again(&self, alloc: Global) -> Result<Vertex, Memory> {
        let mut columns = Vec::with_capacity(alloc, self.columns.len())?;
        columns.extend_from_slice(self.columns.as_slice())?;
        let mut tight = Vec::new(alloc);
        tight.extend_from_slice(self.tight.as_slice())?;
        let mut basic = Vec::new(alloc);
        basic.extend_from_slice(self.basic.as_slice())?;
        let mut is_tight = Vec::new(alloc);
        is_tight.extend_from_slice(self.is_tight.as_slice())?;
        Ok(Vertex {
            columns,
            tight,
            basic,
            inverse: copied(alloc, self.inverse.as_slice())?,
            sums: copied(alloc, self.sums.as_slice())?,
            is_tight,
            values: copied(alloc, self.values.as_slice())?,
            standing: self.standing,
            bound: self.bound,
            age: self.age,
        })
    }

    /// The value of the basic column at a place.
    #[inline]
    pub(crate) fn value(&self, place: usize) -> i64 {
        at(self.values.as_slice(), place)
    }
}

/// A copy of some numbers.
fn copied(alloc: Global, numbers: &[i64]) -> Result<Vec<i64>, Memory> {
    let mut copy = Vec::new(alloc);
    copy.extend_from_slice(numbers)?;
    Ok(copy)
}

/// Where a column of a weight stands that a path holds so.
#[inline]
pub(crate) fn stand_by(hold: Hold, weight: i64) -> Stand {
    match hold {
        Hold::One => Stand::One,
        Hold::Zero => Stand::Zero,
        Hold::Free => { if weight > 0 { Stand::One } else { Stand::Zero } }
    }
}
