//! A group for each item: a form, or several forms together, or what is left.

use crate::draws::Draws;
use crate::energy::{
    UNIT, broken, broken_stimulus, choosing, points_change, points_energy, rows_energy,
};
use crate::numbers::{add_at, at};
use crate::table::Table;
use bank_tables::ItemSet;
use series_tree::Memory;
use std::alloc::Global;

/// Numbers of each group for stimuli.
const STIMULI: usize = 65;

/// An arrangement. The last group is what is left, which has no goals; there may be none in it.
#[derive(Drop)]
pub struct Arrangement {
    /// The number of groups with goals.
    pub groups: usize,
    /// How many forms each is.
    times: Vec<i64>,
    group_of: Vec<usize>,
    place_of: Vec<usize>,
    has: Vec<Vec<u16>>,
    /// For each group its sums at the points, its sums on the rows, its items of each stimulus, and
    /// how many stimuli are chosen.
    sums: Vec<i64>,
    rows: Vec<i64>,
    counts: Vec<i64>,
    chosen: Vec<i64>,
    goal: i64,
    inverse: i64,
    energy: i64,
    violation: i64,
}

/// A move: two items change their groups.
#[derive(Clone, Copy)]
struct Exchange {
    first: usize,
    other: usize,
    leaves: usize,
    comes: usize,
}

/// The most items of a passage that change their group together.
const MOST_TOGETHER: usize = 16;

/// Items that change their group together.
#[derive(Clone, Copy)]
struct Together {
    items: [usize; MOST_TOGETHER],
    count: usize,
}

impl Together {
    /// No items.
    fn none() -> Together {
        Together {
            items: [0; MOST_TOGETHER],
            count: 0,
        }
    }

    /// Adds an item, if there is room.
    fn add(&mut self, item: usize) {
        if let Some(slot) = self.items.get_mut(self.count) {
            *slot = item;
            self.count = self.count.wrapping_add(1);
        }
    }

    /// The item at a place.
    fn at(&self, place: usize) -> usize {
        self.items.get(place).copied().unwrap_or(0)
    }
}

impl Arrangement {
    /// The arrangement of no items.
    pub fn empty(alloc: Global, table: &Table, times: &[i64]) -> Result<Arrangement, Memory> {
        let groups = times.len();
        let all = groups.wrapping_add(1);
        let items = table.items as usize;
        let mut has = Vec::new(alloc);
        for _ in 0..all {
            has.push(Vec::new(alloc))?;
        }
        Ok(Arrangement {
            groups,
            times: Vec::from_slice(alloc, times)?,
            group_of: Vec::from_elem(alloc, groups, items)?,
            place_of: Vec::from_elem(alloc, 0usize, items)?,
            has,
            sums: Vec::from_elem(alloc, 0i64, all.wrapping_mul(table.points.len()))?,
            rows: Vec::from_elem(alloc, 0i64, all.wrapping_mul(table.rows.len()))?,
            counts: Vec::from_elem(alloc, 0i64, all.wrapping_mul(STIMULI))?,
            chosen: Vec::from_elem(alloc, 0i64, all)?,
            goal: 0,
            inverse: UNIT
                .wrapping_mul(1_048_576)
                .checked_div(table.mean)
                .unwrap_or(1)
                .max(1),
            energy: 0,
            violation: 0,
        })
    }

    /// How many forms a group is.
    #[inline]
    fn times_of(&self, group: usize) -> i64 {
        at(self.times.as_slice(), group)
    }

    /// The sums of a group at the points.
    #[inline]
    fn sums_of(&self, table: &Table, group: usize) -> &[i64] {
        let size = table.points.len();
        let start = group.wrapping_mul(size);
        self.sums
            .get(start..start.wrapping_add(size))
            .unwrap_or(&[])
    }

    /// The goal of a group at each point.
    #[inline]
    fn goal_of(&self, group: usize) -> i64 {
        self.goal.wrapping_mul(self.times_of(group))
    }

    /// Adds an item to a group.
    pub fn put(&mut self, table: &Table, item: u16, group: usize) -> Result<(), Memory> {
        let Some(list) = self.has.get_mut(group) else {
            return Ok(());
        };
        let place = list.len();
        list.push(item)?;
        if let Some(slot) = self.group_of.get_mut(item as usize) {
            *slot = group;
        }
        if let Some(slot) = self.place_of.get_mut(item as usize) {
            *slot = place;
        }
        self.count_points(table, group, item as usize, 1);
        let _ = self.count_rows(table, group, item as usize, 1);
        let _ = self.count_stimulus(table, group, table.stimulus_of(item as usize), 1);
        Ok(())
    }

    /// Adds an item to the sums of a group at the points, or takes it off them.
    fn count_points(&mut self, table: &Table, group: usize, item: usize, sign: i64) {
        let mut place = group.wrapping_mul(table.points.len());
        for info in table.info_of(item) {
            add_at(&mut self.sums, place, info.wrapping_mul(sign));
            place = place.wrapping_add(1);
        }
    }

    /// Adds an item to the sums of a group on the rows, or takes it off them; how the energy
    /// changes.
    fn count_rows(&mut self, table: &Table, group: usize, item: usize, sign: i64) -> i64 {
        let first = group.wrapping_mul(table.rows.len());
        let times = self.times_of(group);
        let mut change = 0i64;
        for part in table.parts_of(item) {
            let place = first.wrapping_add(part.row);
            let before = at(self.rows.as_slice(), place);
            let after = before.wrapping_add(part.amount.wrapping_mul(sign));
            if let Some(limits) = table.rows.get(part.row) {
                change = change
                    .wrapping_add(broken(limits, times, after))
                    .wrapping_sub(broken(limits, times, before));
            }
            add_at(&mut self.rows, place, part.amount.wrapping_mul(sign));
        }
        change
    }

    /// Adds one to the items of a stimulus in a group, or takes one off; how the energy changes.
    fn count_stimulus(&mut self, table: &Table, group: usize, stimulus: usize, sign: i64) -> i64 {
        if stimulus == 0 {
            return 0;
        }
        let place = group.wrapping_mul(STIMULI).wrapping_add(stimulus);
        let (bounds, times) = (table.bounds_of(stimulus), self.times_of(group));
        let before = at(self.counts.as_slice(), place);
        let after = before.wrapping_add(sign);
        add_at(&mut self.counts, place, sign);
        let more = choosing(bounds, times, after).wrapping_sub(choosing(bounds, times, before));
        broken_stimulus(bounds, times, after)
            .wrapping_sub(broken_stimulus(bounds, times, before))
            .wrapping_add(self.choose(table, group, more))
    }

    /// Adds so many stimuli to those that a group has chosen; how the energy of the rows on them
    /// changes.
    fn choose(&mut self, table: &Table, group: usize, more: i64) -> i64 {
        if more == 0 {
            return 0;
        }
        let times = self.times_of(group);
        let before = at(self.chosen.as_slice(), group);
        let after = before.wrapping_add(more);
        add_at(&mut self.chosen, group, more);
        let mut change = 0i64;
        for limits in table.rows.as_slice() {
            if limits.of_stimuli {
                change = change
                    .wrapping_add(broken(limits, times, after))
                    .wrapping_sub(broken(limits, times, before));
            }
        }
        change
    }

    /// Sets the goal of each form, and computes the energy anew.
    pub fn set_goal(&mut self, table: &Table, goal: i64) {
        self.goal = goal;
        self.energy = 0;
        self.violation = 0;
        for group in 0..self.groups {
            let points = points_energy(
                self.inverse,
                self.goal_of(group),
                self.sums_of(table, group),
            );
            let broken = self.violation_of(table, group);
            self.energy = self.energy.wrapping_add(points).wrapping_add(broken);
            self.violation = self.violation.wrapping_add(broken);
        }
    }

    /// The energy of the broken rows of a group.
    fn violation_of(&self, table: &Table, group: usize) -> i64 {
        let size = table.rows.len();
        let start = group.wrapping_mul(size);
        let sums = self
            .rows
            .get(start..start.wrapping_add(size))
            .unwrap_or(&[]);
        let times = self.times_of(group);
        let mut energy = rows_energy_but_stimuli(table, times, sums);
        energy = energy.wrapping_add(self.stimuli_energy(table, group));
        for limits in table.rows.as_slice() {
            if limits.of_stimuli {
                let chosen = at(self.chosen.as_slice(), group);
                energy = energy.wrapping_add(broken(limits, times, chosen));
            }
        }
        energy
    }

    /// The energy of the stimuli of a group.
    fn stimuli_energy(&self, table: &Table, group: usize) -> i64 {
        let first = group.wrapping_mul(STIMULI);
        let times = self.times_of(group);
        let mut energy = 0i64;
        let mut stimulus = 1usize;
        for bounds in table.bounds.as_slice() {
            let count = at(self.counts.as_slice(), first.wrapping_add(stimulus));
            energy = energy.wrapping_add(broken_stimulus(*bounds, times, count));
            stimulus = stimulus.wrapping_add(1);
        }
        energy
    }

    /// Whether no row is broken.
    pub fn is_sound(&self) -> bool {
        self.violation == 0
    }

    /// Whether each group meets its goal and its rows.
    pub fn is_met(&self) -> bool {
        self.energy == 0
    }

    /// The least sum of a form over the groups and points.
    pub fn least(&self, table: &Table) -> i64 {
        let mut least = i64::MAX;
        for group in 0..self.groups {
            let times = self.times_of(group).max(1);
            for sum in self.sums_of(table, group) {
                least = least.min(sum.checked_div(times).unwrap_or(0));
            }
        }
        least
    }

    /// The items of each group.
    pub fn sets(&self) -> [ItemSet; 4] {
        let mut sets = [ItemSet::empty(); 4];
        for (set, list) in sets.iter_mut().zip(self.has.iter().take(self.groups)) {
            for item in list.as_slice() {
                if *item < 512 {
                    *set = set.with(*item);
                }
            }
        }
        sets
    }

    /// An item drawn from a group.
    #[inline]
    fn drawn(&self, draws: &mut Draws, group: usize) -> Option<usize> {
        let list = self.has.get(group)?;
        let item = list.get(draws.below(list.len()))?;
        Some(*item as usize)
    }

    /// A move drawn at random: an item of a group with goals and one of another group.
    #[inline]
    fn drawn_exchange(&self, draws: &mut Draws) -> Option<Exchange> {
        let first = draws.below(self.groups);
        let mut other = draws.below(self.groups);
        if other >= first {
            other = other.wrapping_add(1);
        }
        Some(Exchange {
            first,
            other,
            leaves: self.drawn(draws, first)?,
            comes: self.drawn(draws, other)?,
        })
    }

    /// How the energy at the points changes by a move.
    #[inline]
    fn change_at_points(&self, table: &Table, exchange: &Exchange) -> i64 {
        let Exchange {
            first,
            other,
            leaves,
            comes,
        } = *exchange;
        let goal = self.goal_of(first);
        let sums = self.sums_of(table, first);
        let change = points_change(table, self.inverse, goal, sums, leaves, comes);
        if other >= self.groups {
            return change;
        }
        let goal = self.goal_of(other);
        let sums = self.sums_of(table, other);
        change.wrapping_add(points_change(table, self.inverse, goal, sums, comes, leaves))
    }

    /// Moves an item from the rows of a group to them for another; how the energy changes.
    #[inline]
    fn change_rows(&mut self, table: &Table, group: usize, leaves: usize, comes: usize) -> i64 {
        if group >= self.groups {
            return 0;
        }
        let mut change = self.count_rows(table, group, leaves, -1);
        change = change.wrapping_add(self.count_rows(table, group, comes, 1));
        let (old, new) = (table.stimulus_of(leaves), table.stimulus_of(comes));
        if old != new {
            change = change.wrapping_add(self.count_stimulus(table, group, old, -1));
            change = change.wrapping_add(self.count_stimulus(table, group, new, 1));
        }
        change
    }

    /// Makes a move whose rows are moved already.
    fn apply(&mut self, table: &Table, exchange: &Exchange) {
        let Exchange {
            first,
            other,
            leaves,
            comes,
        } = *exchange;
        self.count_points(table, first, leaves, -1);
        self.count_points(table, first, comes, 1);
        self.count_points(table, other, comes, -1);
        self.count_points(table, other, leaves, 1);
        let place = self.place_of.get(leaves).copied().unwrap_or(0);
        let beside = self.place_of.get(comes).copied().unwrap_or(0);
        self.note(comes, first, place);
        self.note(leaves, other, beside);
    }

    /// Notes that an item is at a place of a group.
    fn note(&mut self, item: usize, group: usize, place: usize) {
        if let Some(slot) = self.group_of.get_mut(item) {
            *slot = group;
        }
        if let Some(slot) = self.place_of.get_mut(item) {
            *slot = place;
        }
        if let Some(list) = self.has.get_mut(group) {
            if let Some(slot) = list.get_mut(place) {
                *slot = u16::try_from(item).unwrap_or(0);
            }
        }
    }

    /// Adds items of a group and of a stimulus, 0 for none, until there are so many, from a place
    /// that is drawn.
    fn add_some(
        &self,
        table: &Table,
        draws: &mut Draws,
        group: usize,
        stimulus: usize,
        most: usize,
        some: &mut Together,
    ) {
        let Some(list) = self.has.get(group) else {
            return;
        };
        let start = draws.below(list.len());
        for item in list.iter().skip(start).chain(list.iter().take(start)) {
            if some.count >= most {
                break;
            }
            if table.stimulus_of(*item as usize) == stimulus {
                some.add(*item as usize);
            }
        }
    }

    /// Makes a move, whatever the energy is then.
    fn make(&mut self, table: &Table, exchange: &Exchange) {
        let points = self.change_at_points(table, exchange);
        let (leaves, comes) = (exchange.leaves, exchange.comes);
        let rows = self
            .change_rows(table, exchange.first, leaves, comes)
            .wrapping_add(self.change_rows(table, exchange.other, comes, leaves));
        self.apply(table, exchange);
        self.energy = self.energy.wrapping_add(points).wrapping_add(rows);
        self.violation = self.violation.wrapping_add(rows);
    }

    /// Items of a group change places with as many of what is left, one after the other.
    fn make_all(&mut self, table: &Table, first: usize, leave: &Together, come: &Together) {
        let other = self.groups;
        for place in 0..leave.count {
            let exchange = Exchange {
                first,
                other,
                leaves: leave.at(place),
                comes: come.at(place),
            };
            self.make(table, &exchange);
        }
    }

    /// The items of a passage of a group, or some of no passage, and as many of another passage or
    /// of none that are left.
    fn drawn_passages(
        &self,
        table: &Table,
        draws: &mut Draws,
        first: usize,
    ) -> Option<(Together, Together)> {
        let left = self.groups;
        let old = table.stimulus_of(self.drawn(draws, first)?);
        let new = table.stimulus_of(self.drawn(draws, left)?);
        if old == new {
            return None;
        }
        let (mut leave, mut come) = (Together::none(), Together::none());
        let most = if old == 0 {
            draws.below(4).wrapping_add(2)
        } else {
            MOST_TOGETHER
        };
        self.add_some(table, draws, first, old, most, &mut leave);
        self.add_some(table, draws, left, new, leave.count, &mut come);
        if new != 0 {
            self.add_some(table, draws, left, 0, leave.count, &mut come);
        }
        if come.count == leave.count {
            Some((leave, come))
        } else {
            None
        }
    }

    /// One move of a whole passage at a temperature; whether it was made.
    pub fn step_of_passage(&mut self, table: &Table, draws: &mut Draws, temperature: i64) -> bool {
        let first = draws.below(self.groups);
        let Some((leave, come)) = self.drawn_passages(table, draws, first) else {
            return false;
        };
        let known = self.energy;
        let most = draws.rise(temperature);
        self.make_all(table, first, &leave, &come);
        if self.energy.wrapping_sub(known) > most {
            self.make_all(table, first, &come, &leave);
            return false;
        }
        true
    }

    /// One move at a temperature; whether it was made.
    #[inline]
    pub fn step(&mut self, table: &Table, draws: &mut Draws, temperature: i64) -> bool {
        let Some(exchange) = self.drawn_exchange(draws) else {
            return false;
        };
        let most = draws.rise(temperature);
        let points = self.change_at_points(table, &exchange);
        if points > most.wrapping_add(self.violation) {
            return false;
        }
        let (leaves, comes) = (exchange.leaves, exchange.comes);
        let rows = self
            .change_rows(table, exchange.first, leaves, comes)
            .wrapping_add(self.change_rows(table, exchange.other, comes, leaves));
        if points.wrapping_add(rows) > most {
            let _ = self.change_rows(table, exchange.first, comes, leaves);
            let _ = self.change_rows(table, exchange.other, leaves, comes);
            return false;
        }
        self.apply(table, &exchange);
        self.energy = self.energy.wrapping_add(points).wrapping_add(rows);
        self.violation = self.violation.wrapping_add(rows);
        true
    }
}

/// The energy of the rows of a group that don't count stimuli.
fn rows_energy_but_stimuli(table: &Table, times: i64, sums: &[i64]) -> i64 {
    let mut energy = rows_energy(table, times, sums);
    for limits in table.rows.as_slice() {
        if limits.of_stimuli {
            energy = energy.wrapping_sub(broken(limits, times, 0));
        }
    }
    energy
}
