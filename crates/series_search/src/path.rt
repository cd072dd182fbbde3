//! Paths of branches: the items in and free in each form, and the used items.

use crate::table::Table;
use bank_tables::ItemSet;
use series_tree::SeriesNode;

/// A path.
#[derive(Clone, Copy)]
pub struct Path {
    pub taken: [ItemSet; 4],
    pub free: [ItemSet; 4],
    pub used: ItemSet,
}

/// The items of a bank.
pub fn all_items(table: &Table) -> ItemSet {
    let mut items = ItemSet::empty();
    for item in 0..table.items.min(512) {
        items = items.with(item);
    }
    items
}

/// The union of four sets.
fn union_of(sets: &[ItemSet; 4]) -> ItemSet {
    let mut items = ItemSet::empty();
    for set in sets {
        items = items.union(*set);
    }
    items
}

impl Path {
    /// The path of the root.
    pub fn root(table: &Table) -> Path {
        let all = all_items(table);
        let mut free = [ItemSet::empty(); 4];
        for set in free.iter_mut().take(table.forms) {
            *set = all;
        }
        Path {
            taken: [ItemSet::empty(); 4],
            free,
            used: ItemSet::empty(),
        }
    }

    /// The items in a form.
    #[inline]
    pub fn taken_in(&self, form: usize) -> ItemSet {
        self.taken.get(form).copied().unwrap_or(ItemSet::empty())
    }

    /// The items free in a form.
    #[inline]
    pub fn free_in(&self, form: usize) -> ItemSet {
        self.free.get(form).copied().unwrap_or(ItemSet::empty())
    }

    /// The items that are in some form.
    pub fn placed(&self) -> ItemSet {
        union_of(&self.taken)
    }

    /// The items that are free in some form.
    pub fn live(&self) -> ItemSet {
        union_of(&self.free)
    }

    /// The items that are in some form, or free in some.
    pub fn present(&self) -> ItemSet {
        self.placed().union(self.live())
    }

    /// The path where an item is out of each form.
    fn without(&self, item: u16) -> Path {
        let mut path = *self;
        if item < 512 {
            for set in path.free.iter_mut() {
                *set = set.without(item);
            }
        }
        path
    }

    /// The path where an item is in a form.
    fn with(&self, form: u8, item: u16) -> Path {
        let mut path = self.without(item);
        if let Some(set) = path.taken.get_mut(form as usize) {
            if item < 512 {
                *set = set.with(item);
            }
        }
        path
    }

    /// The path where an item is out of a form and, where twins count as one, of each form of the
    /// same state.
    fn without_in(&self, form: u8, item: u16, twins: bool) -> Path {
        let mut path = *self;
        let state = (self.taken_in(form as usize), self.free_in(form as usize));
        for other in 0..4usize {
            let is_twin = twins && (self.taken_in(other), self.free_in(other)) == state;
            if let Some(set) = path.free.get_mut(other) {
                if item < 512 && (other == form as usize || is_twin) {
                    *set = set.without(item);
                }
            }
        }
        path
    }

    /// A side of a branch.
    pub fn below(&self, node: &SeriesNode, first: bool) -> Path {
        match node {
            SeriesNode::Use { item } if first && *item < 512 => {
                let mut path = *self;
                path.used = path.used.with(*item);
                path
            }
            SeriesNode::Use { item } => self.without(*item),
            SeriesNode::Branch { form, item } | SeriesNode::Twin { form, item } if first => {
                self.with(*form, *item)
            }
            SeriesNode::Branch { form, item } => self.without_in(*form, *item, false),
            SeriesNode::Twin { form, item } => self.without_in(*form, *item, true),
            _ => *self,
        }
    }

    /// The leaf of a row that is impossible by counting, if there is one; of used items if they
    /// fail so.
    pub fn counted(&self, table: &Table) -> Option<SeriesNode> {
        let placed = self.placed();
        let lost = self.used.minus(placed).minus(self.live());
        let sure = placed.union(self.used).count() as i64;
        if lost.first().is_some() || sure > table.pool_length() {
            return Some(SeriesNode::Count { form: 0, row: 0 });
        }
        let mut form = 0u8;
        for _ in 0..table.forms {
            if let Some(row) = self.impossible_row(table, form as usize) {
                return Some(SeriesNode::Count { form, row });
            }
            form = form.saturating_add(1);
        }
        None
    }

    /// The lowest row of a form that is impossible by counting.
    fn impossible_row(&self, table: &Table, form: usize) -> Option<u8> {
        let taken = self.taken_in(form);
        let most = taken.union(self.free_in(form));
        if taken.count() as i64 > table.length || (most.count() as i64) < table.length {
            return Some(0);
        }
        let sums = Sums::of(table, &taken);
        let all = Sums::of(table, &most);
        if let Some(row) = sums.impossible_in_plan(table, &all) {
            return Some(row);
        }
        sums.impossible_stimulus(table, &all)
    }
}

/// The sum of a set of items on each row, and its number of items of each stimulus.
#[derive(Clone, Copy)]
pub struct Sums {
    rows: [i64; 128],
    stimuli: [i64; 65],
    used: i64,
}

impl Sums {
    /// The sums of a set of items.
    pub fn of(table: &Table, items: &ItemSet) -> Sums {
        let mut sums = Sums {
            rows: [0; 128],
            stimuli: [0; 65],
            used: 0,
        };
        let mut next = 0;
        for _ in 0..512 {
            let Some(item) = items.first_from(next) else {
                break;
            };
            next = item + 1;
            sums.add(table, item as usize);
        }
        sums
    }

    /// Adds an item.
    fn add(&mut self, table: &Table, item: usize) {
        for part in table.parts_of(item) {
            if let Some(sum) = self.rows.get_mut(part.row) {
                *sum = sum.wrapping_add(part.amount);
            }
        }
        let stimulus = table.stimulus_of(item);
        if let Some(count) = self.stimuli.get_mut(stimulus) {
            if stimulus > 0 && *count == 0 {
                self.used = self.used.wrapping_add(1);
            }
            *count = count.wrapping_add(1);
        }
    }

    /// The sum on a row.
    fn on_row(&self, row: usize) -> i64 {
        self.rows.get(row).copied().unwrap_or(0)
    }

    /// The number of items of a stimulus.
    fn on_stimulus(&self, stimulus: usize) -> i64 {
        self.stimuli.get(stimulus).copied().unwrap_or(0)
    }

    /// The lowest row of the plan of which these sums are too great, or those of all that may come
    /// too small.
    fn impossible_in_plan(&self, table: &Table, all: &Sums) -> Option<u8> {
        let mut number = 0usize;
        for limits in table.rows.as_slice() {
            let (least, most) = if limits.of_stimuli {
                (self.used, all.used)
            } else {
                (self.on_row(number), all.on_row(number))
            };
            number = number.wrapping_add(1);
            if least > limits.high || most < limits.low {
                return u8::try_from(number).ok();
            }
        }
        None
    }

    /// The lowest stimulus of which it is so.
    fn impossible_stimulus(&self, table: &Table, all: &Sums) -> Option<u8> {
        let mut number = 1usize;
        for (low, high) in table.bounds.as_slice() {
            let found = self.on_stimulus(number);
            if found > *high || found > 0 && all.on_stimulus(number) < *low {
                return u8::try_from(table.rows.len().saturating_add(number)).ok();
            }
            number = number.wrapping_add(1);
        }
        None
    }

    /// Whether the sums are those of a set that meets the rows and the bounds of the stimuli.
    pub fn meets(&self, table: &Table) -> bool {
        self.impossible_in_plan(table, self).is_none()
            && self.impossible_stimulus(table, self).is_none()
    }
}
