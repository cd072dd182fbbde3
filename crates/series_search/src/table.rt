//! The bank, the plan and the weights as flat arrays.

use crate::kinds::Kinds;
use crate::numbers::{at, signed};
use bank_tables::{Bank, ItemSet};
use constraint_model::{Row, Spec};
use series_tree::Memory;
use std::alloc::Global;

/// The most items, each counted once for each form, of a bank that is small.
const SMALL: usize = 128;

/// The bounds of a row, what it is measured by, and whether it counts stimuli.
#[derive(Clone, Copy)]
pub struct Limits {
    pub low: i64,
    pub high: i64,
    pub scale: i64,
    pub of_stimuli: bool,
}

/// What an item adds to a row.
#[derive(Clone, Copy)]
pub struct Part {
    pub row: usize,
    pub amount: i64,
}

/// The numbers of a series problem.
#[derive(Drop)]
pub struct Table {
    /// What trees may have.
    pub kinds: Kinds,
    /// The number of forms, 1 to 4.
    pub forms: usize,
    pub length: i64,
    pub items: u16,
    /// The grid points whose weight is not 0, and their weights.
    pub points: Vec<u8>,
    pub weights: Vec<i64>,
    /// The weighted information of each item at each of these points, item by item.
    pub info: Vec<i64>,
    /// The mean of these numbers, at least 1, and the greatest of them.
    pub mean: i64,
    pub most: i64,
    /// The stimulus of each item, the items of each stimulus (those of none at 0), and its bounds
    /// (those of stimulus `s` at `s - 1`).
    pub stimulus: Vec<usize>,
    pub members: Vec<ItemSet>,
    pub bounds: Vec<(i64, i64)>,
    pub rows: Vec<Limits>,
    parts: Vec<Part>,
    /// Where the parts of each item begin, and where those of the last end.
    starts: Vec<usize>,
}

/// What an item adds to a row.
fn amount_of(bank: &Bank, row: &Row, item: u16) -> i64 {
    match row {
        Row::Count { set, .. } => set.has(item) as i64,
        Row::Enemies { set } => set.has(item) as i64,
        Row::Quantity { which, set, .. } => {
            if set.has(item) && item < bank.items() && *which < bank.quantities() {
                bank.quantity(item, *which) as i64
            } else {
                0
            }
        }
        Row::Stimuli { .. } => 0,
    }
}

/// The bounds of a row that is measured so.
fn limits_of(row: &Row, scale: i64) -> Limits {
    let (low, high, of_stimuli) = match row {
        Row::Count { low, high, .. } => (*low as i64, *high as i64, false),
        Row::Quantity { low, high, .. } => (*low as i64, *high as i64, false),
        Row::Enemies { .. } => (0, 1, false),
        Row::Stimuli { low, high } => (*low as i64, *high as i64, true),
    };
    Limits {
        low,
        high,
        scale,
        of_stimuli,
    }
}

/// The mean of what the items add to a row that add something, at least 1.
fn scale_of(bank: &Bank, row: &Row) -> i64 {
    let mut sum = 0i64;
    let mut count = 0i64;
    for item in 0..bank.items() {
        let amount = amount_of(bank, row, item);
        if amount > 0 {
            sum = sum.wrapping_add(amount);
            count = count.wrapping_add(1);
        }
    }
    sum.checked_div(count).unwrap_or(1).max(1)
}

/// The information of an item at a point.
fn info_of(bank: &Bank, item: u16, point: u8) -> i64 {
    if item < bank.items() && point < bank.grid() {
        bank.info(item, point) as i64
    } else {
        0
    }
}

impl Table {
    /// Whether the bank is small: the items, once for each form, are few.
    pub fn is_small(&self) -> bool {
        (self.items as usize).wrapping_mul(self.forms) <= SMALL
    }

    /// Whether a vector of the pool has a threshold.
    pub fn has_thresholds(&self) -> bool {
        self.kinds.pool && self.kinds.thresholds && !self.bounds.is_empty()
    }

    /// The table with nothing in it.
    fn empty(alloc: Global, bank: &Bank, spec: &Spec, forms: usize, kinds: Kinds) -> Table {
        Table {
            kinds,
            forms,
            length: spec.length() as i64,
            items: bank.items(),
            points: Vec::new(alloc),
            weights: Vec::new(alloc),
            info: Vec::new(alloc),
            mean: 1,
            most: 1,
            stimulus: Vec::new(alloc),
            members: Vec::new(alloc),
            bounds: Vec::new(alloc),
            rows: Vec::new(alloc),
            parts: Vec::new(alloc),
            starts: Vec::new(alloc),
        }
    }

    /// Adds the points whose weight is not 0.
    fn add_points(&mut self, weights: &[u32]) -> Result<(), Memory> {
        let mut point = 0u8;
        for weight in weights {
            if *weight > 0 {
                self.points.push(point)?;
                self.weights.push(*weight as i64)?;
            }
            point = point.saturating_add(1);
        }
        Ok(())
    }

    /// Adds the weighted information of an item.
    fn add_info(&mut self, bank: &Bank, item: u16) -> Result<(), Memory> {
        for (point, weight) in self.points.iter().zip(self.weights.iter()) {
            let info = info_of(bank, item, *point).wrapping_mul(*weight);
            self.info.push(info)?;
        }
        Ok(())
    }

    /// Adds what an item adds to each row.
    fn add_parts(&mut self, bank: &Bank, rows: &[Row], item: u16) -> Result<(), Memory> {
        self.starts.push(self.parts.len())?;
        let mut number = 0usize;
        for row in rows {
            let amount = amount_of(bank, row, item);
            if amount > 0 {
                self.parts.push(Part {
                    row: number,
                    amount,
                })?;
            }
            number = number.wrapping_add(1);
        }
        Ok(())
    }

    /// Adds the items.
    fn add_items(&mut self, bank: &Bank, rows: &[Row]) -> Result<(), Memory> {
        self.members.resize(65, ItemSet::empty())?;
        for item in 0..bank.items() {
            self.add_info(bank, item)?;
            self.add_parts(bank, rows, item)?;
            let stimulus = bank.stimulus(item) as usize;
            self.stimulus.push(stimulus)?;
            if let Some(set) = self.members.get_mut(stimulus) {
                if item < 512 {
                    *set = set.with(item);
                }
            }
        }
        self.starts.push(self.parts.len())?;
        Ok(())
    }

    /// Notes the mean and the greatest of the weighted information.
    fn measure(&mut self) {
        let mut sum = 0i64;
        for info in self.info.as_slice() {
            sum = sum.wrapping_add(*info);
            self.most = self.most.max(*info);
        }
        let count = self.info.len() as u64;
        let count = i64::try_from(count).unwrap_or(1);
        self.mean = sum.checked_div(count).unwrap_or(1).max(1);
    }

    /// Adds the bounds of the rows and of the stimuli.
    fn add_bounds(&mut self, bank: &Bank, spec: &Spec) -> Result<(), Memory> {
        for row in spec.rows() {
            self.rows.push(limits_of(row, scale_of(bank, row)))?;
        }
        for bound in spec.bounds() {
            self.bounds.push((bound.low as i64, bound.high as i64))?;
        }
        Ok(())
    }

    /// The table of a bank and a plan, with a weight for each grid point.
    pub fn of(
        alloc: Global,
        bank: &Bank,
        spec: &Spec,
        weights: &[u32],
        forms: usize,
        kinds: Kinds,
    ) -> Result<Table, Memory> {
        let mut table = Table::empty(alloc, bank, spec, forms, kinds);
        table.add_points(weights)?;
        table.add_items(bank, spec.rows())?;
        table.measure();
        table.add_bounds(bank, spec)?;
        Ok(table)
    }

    /// What an item adds to each row to which it adds something.
    #[inline]
    pub fn parts_of(&self, item: usize) -> &[Part] {
        match (self.starts.get(item), self.starts.get(item.wrapping_add(1))) {
            (Some(start), Some(end)) => self.parts.get(*start..*end).unwrap_or(&[]),
            _ => &[],
        }
    }

    /// The weighted information of an item at each point.
    #[inline]
    pub fn info_of(&self, item: usize) -> &[i64] {
        let size = self.points.len();
        let start = item.wrapping_mul(size);
        let end = start.wrapping_add(size);
        self.info.get(start..end).unwrap_or(&[])
    }

    /// The stimulus of an item; 0 for none.
    #[inline]
    pub fn stimulus_of(&self, item: usize) -> usize {
        self.stimulus.get(item).copied().unwrap_or(0)
    }

    /// The items of a stimulus.
    pub fn members_of(&self, stimulus: usize) -> ItemSet {
        self.members
            .get(stimulus)
            .copied()
            .unwrap_or(ItemSet::empty())
    }

    /// The bounds of a stimulus, which is not 0.
    #[inline]
    pub fn bounds_of(&self, stimulus: usize) -> (i64, i64) {
        self.bounds
            .get(stimulus.wrapping_sub(1))
            .copied()
            .unwrap_or((1, 512))
    }

    /// The number of items of all forms.
    pub fn pool_length(&self) -> i64 {
        self.length.wrapping_mul(signed(self.forms))
    }

    /// The sum of the weighted information of some items at a point, by its place.
    fn sum_at(&self, items: &ItemSet, place: usize) -> i64 {
        let mut sum = 0i64;
        let mut next = 0;
        for _ in 0..512 {
            let Some(item) = items.first_from(next) else {
                break;
            };
            next = item + 1;
            sum = sum.wrapping_add(at(self.info_of(item as usize), place));
        }
        sum
    }

    /// The least weighted information of a set of items over the points.
    pub fn least(&self, items: &ItemSet) -> i64 {
        let mut least = i64::MAX;
        for place in 0..self.points.len() {
            least = least.min(self.sum_at(items, place));
        }
        least
    }

    /// A number that no form's value exceeds: the least over the points of the greatest sums.
    pub fn top(&self, alloc: Global) -> Result<i64, Memory> {
        let mut top = i64::MAX;
        for place in 0..self.points.len() {
            top = top.min(self.greatest_sum(alloc, place)?);
        }
        Ok(top)
    }

    /// The sum of the greatest weighted information at a point.
    fn greatest_sum(&self, alloc: Global, place: usize) -> Result<i64, Memory> {
        let mut numbers = Vec::new(alloc);
        for item in 0..self.items {
            numbers.push(at(self.info_of(item as usize), place).wrapping_neg())?;
        }
        numbers.sort_unstable();
        let length = usize::try_from(self.length).unwrap_or(0);
        let mut sum = 0i64;
        for number in numbers.iter().take(length) {
            sum = sum.wrapping_sub(*number);
        }
        Ok(sum)
    }
}
