//! The sum of a set of items on each row and stimulus, and the violation: how far these are from
//! the bounds, in all.

use crate::table::{RowBounds, Table, TableItem, amount_in};
use bank_tables::ItemSet;
use lagrange_bound::Cut;

/// The sums of a set of items.
#[derive(Clone, Copy)]
pub struct Tally {
    /// On each row that doesn't count stimuli.
    activity: [i64; 128],
    /// On each stimulus: its number of items, that of stimulus `s` at `s`.
    members: [i64; 65],
    /// The number of stimuli with an item in the set.
    used: i64,
}

/// How far a number is from its bounds, in eighths of the scale, rounded up.
fn excess(limits: &RowBounds, found: i64) -> i64 {
    let over = limits
        .low
        .wrapping_sub(found)
        .max(found.wrapping_sub(limits.high));
    if over <= 0 {
        return 0;
    }
    let scale = limits.scale.max(1);
    over.wrapping_mul(8)
        .wrapping_add(scale.wrapping_sub(1))
        .checked_div(scale)
        .unwrap_or(over)
}

/// The same of a stimulus, which may have no item.
fn stimulus_excess(limits: &RowBounds, found: i64) -> i64 {
    if found == 0 { 0 } else { excess(limits, found) }
}

impl Tally {
    /// The sums of no items.
    pub fn none() -> Tally {
        Tally {
            activity: [0; 128],
            members: [0; 65],
            used: 0,
        }
    }

    /// The sums of a set of items.
    pub fn of(table: &Table, items: &ItemSet) -> Tally {
        let mut tally = Tally::none();
        tally.add_all(table, items, 1);
        tally
    }

    /// Adds the items of a set, or with the sign -1 takes them off.
    fn add_all(&mut self, table: &Table, items: &ItemSet, sign: i64) {
        let mut next = 0;
        for _ in 0..512 {
            let Some(item) = items.first_from(next) else {
                break;
            };
            next = item + 1;
            if let Some(entry) = table.entries.get(item as usize) {
                self.add(table, entry, sign);
            }
        }
    }

    /// Adds an item, or with the sign -1 takes it off.
    fn add(&mut self, table: &Table, entry: &TableItem, sign: i64) {
        for part in table.parts_of(entry) {
            if let Some(sum) = self.activity.get_mut(part.row as usize) {
                *sum = sum.wrapping_add(sign.wrapping_mul(part.amount as i64));
            }
        }
        if entry.stimulus > 0 {
            self.count(entry.stimulus, sign);
        }
    }

    /// Adds an item of a stimulus, or takes it off.
    fn count(&mut self, stimulus: u8, sign: i64) {
        if let Some(members) = self.members.get_mut(stimulus as usize) {
            let before = *members;
            let after = before.wrapping_add(sign);
            *members = after;
            let more = (after != 0) as i64 - (before != 0) as i64;
            self.used = self.used.wrapping_add(more);
        }
    }

    /// The sum of the set on a row that doesn't count stimuli.
    fn on_row(&self, row: u8) -> i64 {
        self.activity.get(row as usize).copied().unwrap_or(0)
    }

    /// How many of its items have the stimulus.
    fn on_stimulus(&self, stimulus: u8) -> i64 {
        self.members.get(stimulus as usize).copied().unwrap_or(0)
    }

    /// Whether one more item opens no stimulus, and fills none beyond its bound.
    pub fn has_room(&self, table: &Table, entry: &TableItem) -> bool {
        if entry.stimulus == 0 {
            return true;
        }
        let found = self.on_stimulus(entry.stimulus);
        match table.stimuli.get((entry.stimulus as usize).wrapping_sub(1)) {
            Some(limits) => 0 < found && found < limits.high,
            None => false,
        }
    }

    /// Whether a row or stimulus has too much in this set, or too little in the other, which has
    /// all that may come.
    pub fn rules_out(&self, table: &Table, all: &Tally, cut: &Cut) -> bool {
        let chosen = cut.chosen.count() as i64;
        let usable = chosen.wrapping_add(cut.opened.count() as i64);
        let mut row = 0u8;
        for limits in table.rows.as_slice() {
            let (least, most) = if limits.of_stimuli {
                (chosen, usable)
            } else {
                (self.on_row(row), all.on_row(row))
            };
            if least > limits.high || most < limits.low {
                return true;
            }
            row = row.saturating_add(1);
        }
        self.rules_out_stimulus(table, all, cut)
    }

    /// The same of the stimuli alone; one that is only open may have no item.
    fn rules_out_stimulus(&self, table: &Table, all: &Tally, cut: &Cut) -> bool {
        let mut stimulus = 1u8;
        for limits in table.stimuli.as_slice() {
            let is_short = all.on_stimulus(stimulus) < limits.low;
            let is_chosen = cut.chosen.has(stimulus as u16);
            if self.on_stimulus(stimulus) > limits.high || is_chosen && is_short {
                return true;
            }
            stimulus = stimulus.saturating_add(1);
        }
        false
    }

    /// How the excess of a row changes where so much is added to it.
    fn row_change(&self, table: &Table, row: u8, added: i64) -> i64 {
        match table.rows.get(row as usize) {
            Some(limits) => {
                let found = self.on_row(row);
                excess(limits, found.wrapping_add(added)).wrapping_sub(excess(limits, found))
            }
            None => 0,
        }
    }

    /// How the excess of the rows of two items changes where the one leaves for the other.
    fn rows_change(&self, table: &Table, leaves: &TableItem, comes: &TableItem) -> i64 {
        let mut sum = 0i64;
        for part in table.parts_of(leaves) {
            let added = amount_in(table.parts_of(comes), part.row).wrapping_sub(part.amount as i64);
            if added != 0 {
                sum = sum.wrapping_add(self.row_change(table, part.row, added));
            }
        }
        for part in table.parts_of(comes) {
            if amount_in(table.parts_of(leaves), part.row) == 0 {
                sum = sum.wrapping_add(self.row_change(table, part.row, part.amount as i64));
            }
        }
        sum
    }

    /// How the excess of a stimulus changes where so many items are added to it.
    fn stimulus_change(&self, table: &Table, stimulus: u8, added: i64) -> i64 {
        match table.stimuli.get((stimulus as usize).wrapping_sub(1)) {
            Some(limits) => {
                let found = self.on_stimulus(stimulus);
                stimulus_excess(limits, found.wrapping_add(added)).wrapping_sub(stimulus_excess(
                    limits, found,
                ))
            }
            None => 0,
        }
    }

    /// How the excess of the rows that count stimuli changes if so many more are used.
    fn used_change(&self, table: &Table, added: i64) -> i64 {
        let mut sum = 0i64;
        if added != 0 {
            for limits in table.rows.as_slice() {
                if limits.of_stimuli {
                    let after = excess(limits, self.used.wrapping_add(added));
                    sum = sum.wrapping_add(after.wrapping_sub(excess(limits, self.used)));
                }
            }
        }
        sum
    }

    /// How the excess of the stimuli changes where one item leaves for another.
    fn stimuli_change(&self, table: &Table, leaves: &TableItem, comes: &TableItem) -> i64 {
        if leaves.stimulus == comes.stimulus {
            return 0;
        }
        let mut used = 0i64;
        if leaves.stimulus > 0 && self.on_stimulus(leaves.stimulus) == 1 {
            used = -1;
        }
        if comes.stimulus > 0 && self.on_stimulus(comes.stimulus) == 0 {
            used = used.wrapping_add(1);
        }
        self.stimulus_change(table, leaves.stimulus, -1)
            .wrapping_add(self.stimulus_change(table, comes.stimulus, 1))
            .wrapping_add(self.used_change(table, used))
    }

    /// How the violation changes where one item leaves for another.
    pub fn change(&self, table: &Table, leaves: &TableItem, comes: &TableItem) -> i64 {
        self.rows_change(table, leaves, comes)
            .wrapping_add(self.stimuli_change(table, leaves, comes))
    }
}

/// Whether a row is impossible by counting on a path. By the table the answer comes sooner than by
/// `impossible`, which names the row.
pub fn is_ruled_out(table: &Table, cut: &Cut) -> bool {
    let taken = cut.taken.count();
    if taken > table.length || taken.saturating_add(cut.free.count()) < table.length {
        return true;
    }
    let least = Tally::of(table, &cut.taken);
    let mut most = table.most;
    let left = table.usable.minus(cut.taken.union(cut.free));
    most.add_all(table, &left, -1);
    least.rules_out(table, &most, cut)
}
