//! The numbers of a problem, item by item.

use crate::tally::Tally;
use bank_tables::ItemSet;
use constraint_model::{Problem, Row};
use proof_tree::Memory;
use std::alloc::Global;

/// So many stimuli have few multipliers to be rounded.
const FEW_STIMULI: usize = 24;

/// What an item adds to a row of the plan.
#[derive(Clone, Copy)]
pub struct Part {
    pub row: u8,
    pub amount: u32,
}

/// The bounds of a row, whether it counts stimuli, and the mean of what the free items add to it.
#[derive(Clone, Copy)]
pub struct RowBounds {
    pub low: i64,
    pub high: i64,
    pub scale: i64,
    pub of_stimuli: bool,
}

/// An item: its information at the estimate, its stimulus (0 for none), whether it was given,
/// whether it may be taken or left, and where what it adds to rows begins and ends.
#[derive(Clone, Copy)]
pub struct TableItem {
    pub info: u32,
    pub stimulus: u8,
    pub given: bool,
    pub free: bool,
    start: usize,
    end: usize,
}

/// The numbers of a problem.
#[derive(Drop)]
pub struct Table {
    pub length: u32,
    pub entries: Vec<TableItem>,
    /// What the items add to rows, item by item.
    parts: Vec<Part>,
    pub rows: Vec<RowBounds>,
    /// The bounds of stimulus `s` at `s - 1`.
    pub stimuli: Vec<RowBounds>,
    /// The items given, and those that may be taken or left.
    pub usable: ItemSet,
    /// Their sums.
    pub most: Tally,
}

/// What an item of the bank adds to a row.
fn amount_of(problem: &Problem, row: &Row, item: u16) -> u32 {
    match row {
        Row::Count { set, .. } => set.has(item) as u32,
        Row::Quantity { which, set, .. } => {
            if set.has(item) && item < problem.bank.items() && *which < problem.bank.quantities() {
                problem.bank.quantity(item, *which)
            } else {
                0
            }
        }
        Row::Enemies { set } => set.has(item) as u32,
        Row::Stimuli { .. } => 0,
    }
}

/// Adds what an item adds to each row to which it adds something.
fn add_parts(parts: &mut Vec<Part>, problem: &Problem, item: u16) -> Result<(), Memory> {
    let mut row = 0u8;
    for given in problem.spec.rows() {
        let amount = amount_of(problem, given, item);
        if amount > 0 {
            parts.push(Part { row, amount })?;
        }
        row = row.saturating_add(1);
    }
    Ok(())
}

/// The information of an item at the estimate.
fn info_of(problem: &Problem, item: u16) -> u32 {
    if item < problem.bank.items() && problem.theta < problem.bank.grid() {
        problem.bank.info(item, problem.theta)
    } else {
        0
    }
}

/// The stimulus of an item.
fn stimulus_of(problem: &Problem, item: u16) -> u8 {
    if item < problem.bank.items() {
        problem.bank.stimulus(item)
    } else {
        0
    }
}

/// An item, whose parts are still to come.
fn entry_of(problem: &Problem, item: u16, start: usize) -> TableItem {
    let given = problem.given.has(item);
    TableItem {
        info: info_of(problem, item),
        stimulus: stimulus_of(problem, item),
        given,
        free: !given && !problem.barred.has(item),
        start,
        end: start,
    }
}

/// The mean of what the free items add to a row of a quantity, and 1 for another row.
fn scale_of(table: &Table, row: u8, given: &Row) -> i64 {
    match given {
        Row::Quantity { .. } => {
            let mut sum = 0i64;
            let mut count = 0i64;
            for entry in table.entries.as_slice() {
                let amount = amount_in(table.parts_of(entry), row);
                if entry.free && amount > 0 {
                    sum = sum.wrapping_add(amount);
                    count = count.wrapping_add(1);
                }
            }
            sum.checked_div(count).unwrap_or(1).max(1)
        }
        _ => 1,
    }
}

/// The bounds of a row.
fn limits_of(table: &Table, row: u8, given: &Row) -> RowBounds {
    let scale = scale_of(table, row, given);
    let (low, high, of_stimuli) = match given {
        Row::Count { low, high, .. } => (*low, *high, false),
        Row::Quantity { low, high, .. } => (*low, *high, false),
        Row::Enemies { .. } => (0, 1, false),
        Row::Stimuli { low, high } => (*low, *high, true),
    };
    RowBounds {
        low: low as i64,
        high: high as i64,
        scale,
        of_stimuli,
    }
}

/// Adds the items of the bank.
fn add_entries(
    entries: &mut Vec<TableItem>,
    parts: &mut Vec<Part>,
    problem: &Problem,
) -> Result<(), Memory> {
    for item in 0..problem.bank.items() {
        let mut entry = entry_of(problem, item, parts.len());
        add_parts(parts, problem, item)?;
        entry.end = parts.len();
        entries.push(entry)?;
    }
    Ok(())
}

/// Adds the bounds of the stimuli.
fn add_stimuli(stimuli: &mut Vec<RowBounds>, problem: &Problem) -> Result<(), Memory> {
    for bound in problem.spec.bounds() {
        let limits = RowBounds {
            low: bound.low as i64,
            high: bound.high as i64,
            scale: 1,
            of_stimuli: false,
        };
        stimuli.push(limits)?;
    }
    Ok(())
}

/// The sum of the parts on a row.
pub fn amount_in(parts: &[Part], row: u8) -> i64 {
    for part in parts {
        if part.row == row {
            return part.amount as i64;
        }
    }
    0
}

impl Table {
    /// What an item adds to each row to which it adds something.
    pub fn parts_of(&self, entry: &TableItem) -> &[Part] {
        self.parts.get(entry.start..entry.end).unwrap_or(&[])
    }

    /// The number of items that may be taken or left, and of those of them that are of stimuli.
    fn free_items(&self) -> (u32, u32) {
        let mut free = 0u32;
        let mut grouped = 0u32;
        for entry in &self.entries {
            free = free.wrapping_add(entry.free as u32);
            grouped = grouped.wrapping_add((entry.free && entry.stimulus > 0) as u32);
        }
        (free, grouped)
    }

    /// Whether there are many stimuli, and at least two fifths of the items that may be taken or
    /// left are of stimuli. Exchanges, by which items are linked to their stimuli, then lose more
    /// by the rounding of so many multipliers than they gain.
    pub fn is_of_passages(&self) -> bool {
        let (free, grouped) = self.free_items();
        self.stimuli.len() > FEW_STIMULI && free.wrapping_mul(2) <= grouped.wrapping_mul(5)
    }

    /// Whether some of the items that may be taken or left are of stimuli, and exchanges prove more
    /// with each node than steps do.
    pub fn has_links(&self) -> bool {
        self.free_items().1 > 0 && !self.is_of_passages()
    }

    /// The items given, and those that may be taken or left.
    fn usable_items(&self) -> ItemSet {
        let mut items = ItemSet::empty();
        let mut item = 0u16;
        for entry in self.entries.as_slice() {
            if item < 512 && (entry.given || entry.free) {
                items = items.with(item);
            }
            item = item.saturating_add(1);
        }
        items
    }

    /// Adds the rows of the plan.
    fn add_rows(&mut self, problem: &Problem) -> Result<(), Memory> {
        let mut row = 0u8;
        for given in problem.spec.rows() {
            let limits = limits_of(self, row, given);
            self.rows.push(limits)?;
            row = row.saturating_add(1);
        }
        Ok(())
    }

    /// Adds the numbers of a problem.
    fn fill(&mut self, problem: &Problem) -> Result<(), Memory> {
        add_entries(&mut self.entries, &mut self.parts, problem)?;
        self.add_rows(problem)?;
        add_stimuli(&mut self.stimuli, problem)?;
        self.usable = self.usable_items();
        self.most = Tally::of(self, &self.usable);
        Ok(())
    }

    /// The numbers of a problem.
    pub fn of(alloc: Global, problem: &Problem) -> Result<Table, Memory> {
        let mut table = Table {
            length: problem.spec.length(),
            entries: Vec::new(alloc),
            parts: Vec::new(alloc),
            rows: Vec::new(alloc),
            stimuli: Vec::new(alloc),
            usable: ItemSet::empty(),
            most: Tally::none(),
        };
        table.fill(problem)?;
        Ok(table)
    }
}
