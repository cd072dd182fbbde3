//! The linear relaxation of a problem.

use crate::numbers::FAR;
use bank_tables::{Bank, ItemSet};
use certificate_model::Node;
use constraint_model::{Problem, Row, StimulusBound};
use proof_tree::Memory;
use std::alloc::Global;

/// The items taken and free on a path, and the numbers of the stimuli chosen and open.
#[derive(Clone, Copy, Debug)]
pub struct PathSets {
    pub taken: ItemSet,
    pub free: ItemSet,
    pub chosen: ItemSet,
    pub opened: ItemSet,
}

/// A coefficient: its line or column, and what it is.
#[derive(Clone, Copy)]
pub(crate) struct Cell {
    pub place: u16,
    pub amount: i64,
}

/// The number of a side that is none.
pub(crate) const NO_SIDE: u16 = 65_535;

/// A line: its bounds, what it is measured by, the sides of its positive and of its negative
/// multiplier, and where its cells begin and end.
#[derive(Clone, Copy)]
pub(crate) struct Line {
    pub low: i64,
    pub high: i64,
    pub scale: i64,
    pub positive: u16,
    pub negative: u16,
    pub start: usize,
    pub end: usize,
}

/// The relaxation at the root: 65,536 times the information of what is chosen is to be greatest.
#[derive(Drop)]
pub struct Relaxation {
    /// 65,536 times the information of each column.
    pub(crate) gains: Vec<i64>,
    pub(crate) lines: Vec<Line>,
    pub(crate) line_cells: Vec<Cell>,
    /// Where the cells of each column begin, and where those of the last end.
    starts: Vec<usize>,
    column_cells: Vec<Cell>,
    /// The gain of the items given.
    pub(crate) given: i64,
    /// Amounts and bounds of lines are in units of 2 to the minus this, at most 16.
    pub(crate) fine: u32,
    /// The numbers of the items that are columns.
    pub(crate) items: Vec<u16>,
    /// The numbers of the stimuli that are columns, after the items.
    pub(crate) stimuli: Vec<u8>,
    /// For each item that is a column the column of its stimulus, where that is open at the root;
    /// else `NO_SIDE`.
    pub(crate) links: Vec<u16>,
    /// The columns of the items linked to each stimulus, one stimulus after the other.
    pub(crate) linked: Vec<u16>,
    /// Where the linked items of each stimulus begin, and where those of the last end.
    pub(crate) link_starts: Vec<usize>,
}

/// The place of each item among the columns; `NO_SIDE` for none.
type Places = [u16; 512];

/// A short number.
fn short(number: usize) -> u16 {
    u16::try_from(number).unwrap_or(NO_SIDE)
}

/// 65,536 times the information of an item at the estimate.
fn gain_of(problem: &Problem, item: u16) -> i64 {
    if item < problem.bank.items() && problem.theta < problem.bank.grid() {
        (problem.bank.info(item, problem.theta) as i64).wrapping_mul(65_536)
    } else {
        0
    }
}

/// The sum of the gains of some items.
fn gains_of(problem: &Problem, items: &ItemSet) -> i64 {
    let mut next = 0;
    let mut sum = 0i64;
    for _ in 0..512 {
        let Some(item) = items.first_from(next) else {
            break;
        };
        next = item + 1;
        sum = sum.wrapping_add(gain_of(problem, item));
    }
    sum
}

/// The set of items that a row counts, and the quantity that it sums over them, if it does; none
/// for a row on stimuli.
fn counted(row: &Row) -> (ItemSet, Option<u8>) {
    match row {
        Row::Count { set, .. } => (*set, None),
        Row::Quantity { which, set, .. } => (*set, Some(*which)),
        Row::Enemies { set } => (*set, None),
        Row::Stimuli { .. } => (ItemSet::empty(), None),
    }
}

/// The bounds of a row.
fn bounds_of(row: &Row) -> (i64, i64) {
    match row {
        Row::Count { low, high, .. } => (*low as i64, *high as i64),
        Row::Quantity { low, high, .. } => (*low as i64, *high as i64),
        Row::Enemies { .. } => (0, 1),
        Row::Stimuli { low, high } => (*low as i64, *high as i64),
    }
}

/// What an item adds to a row that counts it.
fn amount_of(bank: &Bank, which: Option<u8>, item: u16) -> i64 {
    match which {
        None => 1,
        Some(quantity) => {
            if item < bank.items() && quantity < bank.quantities() {
                bank.quantity(item, quantity) as i64
            } else {
                0
            }
        }
    }
}

/// The sum of what some items add to a row that counts them.
fn sum_of(bank: &Bank, which: Option<u8>, items: ItemSet) -> i64 {
    let mut next = 0;
    let mut sum = 0i64;
    for _ in 0..512 {
        let Some(item) = items.first_from(next) else {
            break;
        };
        next = item + 1;
        sum = sum.wrapping_add(amount_of(bank, which, item));
    }
    sum
}

/// The items of each stimulus, those of stimulus `s` at `s`.
type Members = [ItemSet; 65];

/// The items of a set by their stimuli.
fn members_of(bank: &Bank, items: &ItemSet) -> Members {
    let mut members = [ItemSet::empty(); 65];
    let mut next = 0;
    for _ in 0..512 {
        let Some(item) = items.first_from(next) else {
            break;
        };
        next = item + 1;
        if item < bank.items() {
            if let Some(set) = members.get_mut(bank.stimulus(item) as usize) {
                *set = set.with(item);
            }
        }
    }
    members
}

/// The items of a stimulus.
fn members_at(members: &Members, stimulus: u8) -> ItemSet {
    match members.get(stimulus as usize) {
        Some(items) => *items,
        None => ItemSet::empty(),
    }
}

impl Relaxation {
    /// The cells of a line.
    #[inline]
    pub(crate) fn line_cells(&self, line: u16) -> &[Cell] {
        match self.lines.get(line as usize) {
            Some(line) => self.line_cells.get(line.start..line.end).unwrap_or(&[]),
            None => &[],
        }
    }

    /// The cells of a column.
    #[inline]
    pub(crate) fn column_cells(&self, column: u16) -> &[Cell] {
        let place = column as usize;
        match (self.starts.get(place), self.starts.get(place + 1)) {
            (Some(start), Some(end)) => self.column_cells.get(*start..*end).unwrap_or(&[]),
            _ => &[],
        }
    }

    /// The column of the stimulus to which the item of a column is linked: it is chosen only where
    /// that is.
    #[inline]
    pub(crate) fn link(&self, column: u16) -> Option<u16> {
        match self.links.get(column as usize) {
            Some(stimulus) if *stimulus != NO_SIDE => Some(*stimulus),
            _ => None,
        }
    }

    /// The columns of the items that are linked to the stimulus of a column.
    #[inline]
    pub(crate) fn linked(&self, column: u16) -> &[u16] {
        let place = (column as usize).wrapping_sub(self.items.len());
        match (
            self.link_starts.get(place),
            self.link_starts.get(place.wrapping_add(1)),
        ) {
            (Some(start), Some(end)) => self.linked.get(*start..*end).unwrap_or(&[]),
            _ => &[],
        }
    }

    /// Whether a column is that of a linked item, or of a stimulus with such items.
    #[inline]
    pub(crate) fn is_linked(&self, column: u16) -> bool {
        self.link(column).is_some() || !self.linked(column).is_empty()
    }

    /// Whether an item is linked to a stimulus.
    pub(crate) fn has_links(&self) -> bool {
        !self.linked.is_empty()
    }

    /// Whether the column is that of a stimulus.
    #[inline]
    pub(crate) fn is_stimulus(&self, column: u16) -> bool {
        (column as usize) >= self.items.len()
    }

    /// The gain of a column.
    #[inline]
    pub(crate) fn gain(&self, column: u16) -> i64 {
        self.gains.get(column as usize).copied().unwrap_or(0)
    }

    /// The branch on a column.
    pub fn branch_on(&self, column: u16) -> Node {
        let place = column as usize;
        match self.items.get(place) {
            Some(item) => Node::BranchItem(*item),
            None => {
                let after = place.saturating_sub(self.items.len());
                Node::BranchStimulus(self.stimuli.get(after).copied().unwrap_or(0))
            }
        }
    }

    /// Adds the columns of the free items.
    fn add_items(&mut self, problem: &Problem, free: &ItemSet) -> Result<Places, Memory> {
        let mut places = [NO_SIDE; 512];
        let mut next = 0;
        for place in 0..512u16 {
            let Some(item) = free.first_from(next) else {
                break;
            };
            next = item + 1;
            self.items.push(item)?;
            self.gains.push(gain_of(problem, item))?;
            if let Some(slot) = places.get_mut(item as usize) {
                *slot = place;
            }
        }
        Ok(places)
    }

    /// Adds the columns of the stimuli that may be chosen.
    fn add_stimuli(&mut self, sets: &PathSets) -> Result<(), Memory> {
        for stimulus in 1..65u8 {
            let number = stimulus as u16;
            if sets.chosen.has(number) || sets.opened.has(number) {
                self.stimuli.push(stimulus)?;
                self.gains.push(0)?;
            }
        }
        Ok(())
    }

    /// Adds a cell for each item of a set, with what it adds to a row, times a sign.
    fn add_cells(
        &mut self,
        bank: &Bank,
        places: &Places,
        items: ItemSet,
        which: Option<u8>,
        sign: i64,
    ) -> Result<(), Memory> {
        let mut next = 0;
        for _ in 0..512 {
            let Some(item) = items.first_from(next) else {
                break;
            };
            next = item + 1;
            let place = places.get(item as usize).copied().unwrap_or(NO_SIDE);
            let amount = amount_of(bank, which, item).wrapping_mul(sign);
            if place != NO_SIDE && amount != 0 {
                self.line_cells.push(Cell { place, amount })?;
            }
        }
        Ok(())
    }

    /// Adds a cell for each stimulus.
    fn add_stimulus_cells(&mut self) -> Result<(), Memory> {
        let first = self.items.len();
        for number in 0..self.stimuli.len() {
            let place = short(first.saturating_add(number));
            self.line_cells.push(Cell { place, amount: 1 })?;
        }
        Ok(())
    }

    /// The sum of the cells from a place on, and their number.
    fn sum_from(&self, start: usize) -> (i64, i64) {
        let mut sum = 0i64;
        let mut count = 0i64;
        for cell in self.line_cells.as_slice().get(start..).unwrap_or(&[]) {
            sum = sum.wrapping_add(cell.amount);
            count = count.wrapping_add(1);
        }
        (sum, count)
    }

    /// Adds the line of a row, its cells from a place on; none where it is met by whatever is
    /// chosen.
    fn end_row(&mut self, row: u8, start: usize, low: i64, high: i64) -> Result<(), Memory> {
        let (sum, count) = self.sum_from(start);
        if count == 0 || low <= 0 && high >= sum {
            self.line_cells.truncate(start);
            return Ok(());
        }
        let side = 2 * row as u16;
        self.lines.push(Line {
            low,
            high,
            scale: sum.checked_div(count).unwrap_or(1).max(1),
            positive: side,
            negative: side + 1,
            start,
            end: self.line_cells.len(),
        })?;
        Ok(())
    }

    /// Adds the line of a row of the plan.
    fn add_row(
        &mut self,
        problem: &Problem,
        sets: &PathSets,
        places: &Places,
        row: u8,
        given: &Row,
    ) -> Result<(), Memory> {
        let start = self.line_cells.len();
        let (set, which) = counted(given);
        let (low, high) = bounds_of(given);
        if let Row::Stimuli { .. } = given {
            self.add_stimulus_cells()?;
            return self.end_row(row, start, low, high);
        }
        self.add_cells(problem.bank, places, set.meet(sets.free), which, 1)?;
        let taken = sum_of(problem.bank, which, set.meet(sets.taken));
        let (low, high) = (low.wrapping_sub(taken), high.wrapping_sub(taken));
        self.end_row(row, start, low, high)
    }

    /// Adds the lines of the rows of the plan.
    fn add_rows(
        &mut self,
        problem: &Problem,
        sets: &PathSets,
        places: &Places,
    ) -> Result<(), Memory> {
        let mut row = 0u8;
        for given in problem.spec.rows() {
            self.add_row(problem, sets, places, row, given)?;
            row = row.saturating_add(1);
        }
        Ok(())
    }

    /// Adds the line of the length.
    fn add_length(&mut self, problem: &Problem, sets: &PathSets) -> Result<(), Memory> {
        let count = self.items.len();
        for place in 0..count {
            let place = short(place);
            self.line_cells.push(Cell { place, amount: 1 })?;
        }
        let left = (problem.spec.length() as i64).wrapping_sub(sets.taken.count() as i64);
        self.lines.push(Line {
            low: left,
            high: left,
            scale: 1,
            positive: NO_SIDE,
            negative: NO_SIDE,
            start: 0,
            end: count,
        })?;
        Ok(())
    }

    /// Adds the line of one bound of a stimulus, the lower one for the sign 1 and the upper one for
    /// -1.
    fn add_bound(
        &mut self,
        bank: &Bank,
        places: &Places,
        members: ItemSet,
        place: u16,
        bound: i64,
        taken: i64,
        sign: i64,
        side: u16,
    ) -> Result<(), Memory> {
        let start = self.line_cells.len();
        self.add_cells(bank, places, members, None, sign)?;
        let amount = bound.wrapping_mul(sign).wrapping_neg();
        self.line_cells.push(Cell { place, amount })?;
        self.lines.push(Line {
            low: taken.wrapping_mul(sign).wrapping_neg(),
            high: FAR,
            scale: 2,
            positive: side,
            negative: NO_SIDE,
            start,
            end: self.line_cells.len(),
        })?;
        Ok(())
    }

    /// Adds the lines of both bounds of a stimulus, whose column is at a place; `members` are its
    /// free items, and so many of its items are taken.
    fn add_bounds(
        &mut self,
        problem: &Problem,
        places: &Places,
        members: ItemSet,
        taken: i64,
        stimulus: u8,
        place: u16,
        bound: &StimulusBound,
    ) -> Result<(), Memory> {
        let bank = problem.bank;
        let rows = short(problem.spec.rows().len());
        let pair = rows.wrapping_add(stimulus as u16).wrapping_sub(1);
        let side = pair.wrapping_mul(2);
        let (low, high) = (bound.low as i64, bound.high as i64);
        self.add_bound(bank, places, members, place, low, taken, 1, side)?;
        let side = side.wrapping_add(1);
        self.add_bound(bank, places, members, place, high, taken, -1, side)
    }

    /// Adds the lines of the bounds of the stimuli that may be chosen.
    fn add_all_bounds(
        &mut self,
        problem: &Problem,
        sets: &PathSets,
        places: &Places,
        members: &Members,
    ) -> Result<(), Memory> {
        let taken = members_of(problem.bank, &sets.taken);
        let mut place = short(self.items.len());
        let mut stimulus = 1u8;
        for bound in problem.spec.bounds() {
            let number = stimulus as u16;
            if sets.chosen.has(number) || sets.opened.has(number) {
                let free = members_at(members, stimulus);
                let count = members_at(&taken, stimulus).count() as i64;
                self.add_bounds(problem, places, free, count, stimulus, place, bound)?;
                place = place.saturating_add(1);
            }
            stimulus = stimulus.saturating_add(1);
        }
        Ok(())
    }

    /// Links the items of one stimulus to its column.
    fn link_items(&mut self, places: &Places, members: ItemSet, column: u16) -> Result<(), Memory> {
        let mut next = 0;
        for _ in 0..512 {
            let Some(item) = members.first_from(next) else {
                break;
            };
            next = item + 1;
            let place = places.get(item as usize).copied().unwrap_or(NO_SIDE);
            if let Some(link) = self.links.get_mut(place as usize) {
                *link = column;
                self.linked.push(place)?;
            }
        }
        Ok(())
    }

    /// Links the items of the open stimuli.
    fn add_links(
        &mut self,
        sets: &PathSets,
        places: &Places,
        members: &Members,
    ) -> Result<(), Memory> {
        let count = self.items.len();
        self.links.resize(count, NO_SIDE)?;
        for place in 0..self.stimuli.len() {
            self.link_starts.push(self.linked.len())?;
            let stimulus = self.stimuli.get(place).copied().unwrap_or(0);
            if sets.opened.has(stimulus as u16) {
                let column = short(count.saturating_add(place));
                self.link_items(places, members_at(members, stimulus), column)?;
            }
        }
        self.link_starts.push(self.linked.len())?;
        Ok(())
    }

    /// The number of cells of each column.
    fn column_counts(&self, alloc: Global) -> Result<Vec<usize>, Memory> {
        let mut counts = Vec::from_elem(alloc, 0usize, self.gains.len())?;
        for cell in self.line_cells.as_slice() {
            if let Some(count) = counts.get_mut(cell.place as usize) {
                *count = count.saturating_add(1);
            }
        }
        Ok(counts)
    }

    /// Notes where the cells of each column begin.
    fn note_starts(&mut self, counts: &[usize]) -> Result<(), Memory> {
        let mut start = 0usize;
        for count in counts {
            self.starts.push(start)?;
            start = start.saturating_add(*count);
        }
        self.starts.push(start)?;
        Ok(())
    }

    /// Copies the cells of a line to those of their columns; `ends` are the ends of what is there
    /// of each.
    fn copy_line(&mut self, line: u16, start: usize, end: usize, ends: &mut [usize]) {
        for cell in self.line_cells.as_slice().get(start..end).unwrap_or(&[]) {
            if let Some(at) = ends.get_mut(cell.place as usize) {
                if let Some(slot) = self.column_cells.get_mut(*at) {
                    *slot = Cell {
                        place: line,
                        amount: cell.amount,
                    };
                }
                *at = at.saturating_add(1);
            }
        }
    }

    /// Makes the copy of the cells by columns.
    pub(crate) fn add_columns(&mut self, alloc: Global) -> Result<(), Memory> {
        let counts = self.column_counts(alloc)?;
        self.note_starts(counts.as_slice())?;
        let none = Cell {
            place: NO_SIDE,
            amount: 0,
        };
        self.column_cells.resize(self.line_cells.len(), none)?;
        let mut ends = Vec::new(alloc);
        ends.extend_from_slice(self.starts.as_slice())?;
        for line in 0..self.lines.len() {
            if let Some(known) = self.lines.get(line).copied() {
                self.copy_line(short(line), known.start, known.end, &mut ends);
            }
        }
        Ok(())
    }

    /// The relaxation with no columns and no lines.
    pub(crate) fn empty(alloc: Global, given: i64) -> Relaxation {
        Relaxation {
            gains: Vec::new(alloc),
            lines: Vec::new(alloc),
            line_cells: Vec::new(alloc),
            starts: Vec::new(alloc),
            column_cells: Vec::new(alloc),
            given,
            fine: 0,
            items: Vec::new(alloc),
            stimuli: Vec::new(alloc),
            links: Vec::new(alloc),
            linked: Vec::new(alloc),
            link_starts: Vec::new(alloc),
        }
    }

    /// Makes room for the columns of so many items.
    fn make_room(&mut self, free: usize) -> Result<(), Memory> {
        self.gains.reserve(free)?;
        self.line_cells.reserve(free.saturating_mul(4))?;
        self.starts.reserve(free)?;
        self.items.reserve(free)?;
        Ok(())
    }

    /// Adds the columns and the lines of a problem at its root.
    fn fill(&mut self, alloc: Global, problem: &Problem, root: &PathSets) -> Result<(), Memory> {
        self.make_room(root.free.count() as usize)?;
        let places = self.add_items(problem, &root.free)?;
        self.add_stimuli(root)?;
        let members = members_of(problem.bank, &root.free);
        self.add_links(root, &places, &members)?;
        self.add_length(problem, root)?;
        self.add_rows(problem, root, &places)?;
        self.add_all_bounds(problem, root, &places, &members)?;
        self.add_columns(alloc)
    }

    /// The relaxation of a problem at its root.
    // Promise: The relaxation of a problem, and the column that a branch is on
    // - of `Relaxation::of`, `Relaxation::branch_on`
    // - by none
    pub fn of(alloc: Global, problem: &Problem, root: &PathSets) -> Result<Relaxation, Memory> {
        let mut relaxation = Relaxation::empty(alloc, gains_of(problem, &root.taken));
        relaxation.fill(alloc, problem, root)?;
        Ok(relaxation)
    }
}
