//! A problem on a path as flat arrays: its free items, lines for its rows, and its stimuli.

use crate::coefficients::{
    Bounds, Measure, Taken, bounds_of, coefficient, gain_of, stimulus_of, sum_over,
};
use crate::constraints::{Line, Multiplier};
use crate::ranking::{Weighed, put_in_order, reorder};
use crate::selection::{Selection, reweigh};
use crate::stimuli::Stimulus;
use bank_tables::sides::{CAP_HIGH, CAP_LOW};
use bank_tables::{Bank, ItemSet};
use constraint_model::{Problem, Row, StimulusBound};
use lagrange_bound::Cut;
use proof_tree::{Memory, Vector};
use std::alloc::Global;

/// The free items, the lines and the stimuli.
#[derive(Drop)]
pub(crate) struct Flat {
    /// The numbers of the free items: those of no stimulus, and then those of each stimulus.
    pub numbers: Vec<u16>,
    /// 256 times the information of each, or 0 for a ray.
    pub gains: Vec<i64>,
    /// The reduced weight of each.
    pub weights: Vec<i64>,
    /// The smoothed share of steps in which each was chosen, from 0 to 4,096.
    pub shares: Vec<u16>,
    /// How many are of no stimulus.
    pub alone: usize,
    /// The heaviest of these, in order: as many as can be chosen.
    pub top: Vec<Weighed>,
    /// The items of each stimulus, the heaviest first.
    pub ranked: Vec<Weighed>,
    /// The stimuli that are chosen or open.
    pub stimuli: Vec<Stimulus>,
    /// The rows in their order.
    pub lines: Vec<Line>,
    pub selection: Selection,
    /// 256 times the information of the items taken, or 0 for a ray.
    pub taken: i64,
    /// How many more items a form needs.
    pub wanted: i64,
    /// The threshold of the last step.
    pub threshold: i64,
    /// Whether the rows that have no line are met.
    pub rest_is_met: bool,
}

/// The multiplier of each side.
type Sides = [u32; 386];

/// The place of each free item among them.
type Places = [u16; 512];

/// The multiplier of each side that a vector names, 0 of the others.
fn sides_of(vector: &Vector) -> Sides {
    let mut sides = [0u32; 386];
    for (side, multiplier) in vector.pairs() {
        if let Some(slot) = sides.get_mut(*side as usize) {
            *slot = *multiplier;
        }
    }
    sides
}

/// The multiplier of a side.
fn multiplier_at(sides: &Sides, side: usize) -> i64 {
    match sides.get(side) {
        Some(multiplier) => *multiplier as i64,
        None => 0,
    }
}

/// A place as a short number; the greatest where it is none.
#[inline]
fn short(place: usize) -> u16 {
    u16::try_from(place).unwrap_or(u16::MAX)
}

/// The free items, by number and by place.
#[derive(Drop)]
struct Free {
    numbers: Vec<u16>,
    gains: Vec<i64>,
    /// The place of each number.
    places: Places,
    /// The last item of each stimulus; 0 is none.
    last_of: [u16; 256],
    /// The item before each that has the same stimulus.
    before: [u16; 512],
}

impl Free {
    /// Gives an item the next place.
    fn place(&mut self, problem: &Problem, item: u16, ray: bool) -> Result<(), Memory> {
        if let Some(slot) = self.places.get_mut(item as usize) {
            *slot = short(self.numbers.len());
        }
        self.numbers.push(item)?;
        self.gains.push(gain_of(problem, ray, item))?;
        Ok(())
    }

    /// Keeps an item of a stimulus for later.
    fn chain(&mut self, stimulus: u8, item: u16) {
        let last = &mut self.last_of[stimulus as usize];
        if let Some(slot) = self.before.get_mut(item as usize) {
            *slot = *last;
            *last = item;
        }
    }

    /// Gives the items of a stimulus their places.
    fn place_members(
        &mut self,
        problem: &Problem,
        stimulus: usize,
        ray: bool,
    ) -> Result<(), Memory> {
        let mut item = self.last_of.get(stimulus).copied().unwrap_or(u16::MAX);
        for _ in 0..512 {
            let Some(before) = self.before.get(item as usize).copied() else {
                break;
            };
            self.place(problem, item, ray)?;
            item = before;
        }
        Ok(())
    }
}

/// The free items, of which those of no stimulus have places yet.
fn free_items(alloc: Global, problem: &Problem, free: &ItemSet, ray: bool) -> Result<Free, Memory> {
    let count = free.count() as usize;
    let mut items = Free {
        numbers: Vec::with_capacity(alloc, count)?,
        gains: Vec::with_capacity(alloc, count)?,
        places: [u16::MAX; 512],
        last_of: [u16::MAX; 256],
        before: [u16::MAX; 512],
    };
    for item in 0..problem.bank.items() {
        if free.has(item) {
            let stimulus = stimulus_of(problem.bank, item);
            if stimulus == 0 {
                items.place(problem, item, ray)?;
            } else {
                items.chain(stimulus, item);
            }
        }
    }
    Ok(items)
}

/// A stimulus on a path of which so many items are taken, with free items yet to come.
fn stimulus_on(
    cut: &Cut,
    number: u16,
    side: usize,
    bound: &StimulusBound,
    taken: i64,
    start: usize,
) -> Stimulus {
    Stimulus {
        number,
        side: short(side),
        is_chosen: cut.chosen.has(number),
        low: (bound.low as i64).wrapping_sub(taken).max(0),
        high: (bound.high as i64).wrapping_sub(taken).max(0),
        start,
        end: start,
        next: start,
        last: start,
        base: 0,
        part: 0,
        share: 0,
    }
}

/// The stimuli that are chosen or open, whose free items get their places.
fn stimuli_on(
    alloc: Global,
    problem: &Problem,
    cut: &Cut,
    free: &mut Free,
    taken: &Taken,
    ray: bool,
) -> Result<Vec<Stimulus>, Memory> {
    let rows = problem.spec.rows().len();
    let alone = free.numbers.len();
    let mut stimuli = Vec::new(alloc);
    for (k, bound) in problem.spec.bounds().iter().enumerate() {
        let stimulus = k.wrapping_add(1);
        let number = short(stimulus);
        if cut.chosen.has(number) || cut.opened.has(number) {
            let start = free.numbers.len().wrapping_sub(alone);
            let fixed = taken.of_stimulus.get(stimulus).copied().unwrap_or(0);
            let side = rows.wrapping_add(k).wrapping_mul(2);
            let made = stimulus_on(cut, number, side, bound, fixed, start);
            free.place_members(problem, stimulus, ray)?;
            let end = free.numbers.len().wrapping_sub(alone);
            stimuli.push(made.with_end(end))?;
        }
    }
    Ok(stimuli)
}

/// Adds the free items from a place on, in the order of their places.
fn push_ranked(ranked: &mut Vec<Weighed>, gains: &[i64], alone: usize) -> Result<(), Memory> {
    for (item, gain) in gains.iter().enumerate().skip(alone) {
        ranked.push(Weighed {
            weight: *gain,
            item,
        })?;
    }
    Ok(())
}

/// Adds what the free items of a large set add to a line, and gives the sum.
fn add_many(
    selection: &mut Selection,
    bank: &Bank,
    numbers: &[u16],
    measure: Measure,
    line: u16,
) -> Result<i64, Memory> {
    let mut sum = 0i64;
    for (place, item) in numbers.iter().enumerate() {
        if measure.set.has(*item) {
            let part = coefficient(bank, measure.which, *item);
            selection.add_entry(short(place), line, part)?;
            sum = sum.wrapping_add(part);
        }
    }
    Ok(sum)
}

/// The same of a small set of free items.
fn add_few(
    selection: &mut Selection,
    bank: &Bank,
    places: &Places,
    measure: Measure,
    line: u16,
) -> Result<i64, Memory> {
    let mut next = 0;
    let mut sum = 0i64;
    for _ in 0..512 {
        let Some(item) = measure.set.first_from(next) else {
            break;
        };
        next = item + 1;
        let part = coefficient(bank, measure.which, item);
        selection.add_entry(places[item as usize], line, part)?;
        sum = sum.wrapping_add(part);
    }
    Ok(sum)
}

/// Adds what the free items add to a line by a measure, and gives the unit of its steps.
fn add_measure(
    selection: &mut Selection,
    problem: &Problem,
    free: &Free,
    measure: Measure,
    line: u16,
) -> Result<i64, Memory> {
    let count = measure.set.count();
    let sum = if (count as usize) < free.numbers.len() / 2 {
        add_few(selection, problem.bank, &free.places, measure, line)?
    } else {
        add_many(selection, problem.bank, &free.numbers, measure, line)?
    };
    let mean = sum.checked_div(count as i64).unwrap_or(1).max(1);
    Ok(65536i64.checked_div(mean).unwrap_or(1).max(1))
}

/// The signed multiplier of a row; the low side of enemies adds nothing.
fn row_multiplier(row: &Row, sides: &Sides, side: usize) -> i64 {
    let high = multiplier_at(sides, side.wrapping_add(1));
    match row {
        Row::Enemies { .. } => high.wrapping_neg(),
        Row::Count { .. } | Row::Quantity { .. } | Row::Stimuli { .. } => {
            multiplier_at(sides, side).wrapping_sub(high)
        }
    }
}

/// A row with no entries yet.
fn new_line(start: usize, side: usize, low: i64, high: i64, multiplier: i64) -> Line {
    Line {
        is_on_stimuli: true,
        side: short(side),
        low,
        high,
        unit: 65536,
        fixed: 0,
        activity: 0,
        price: 0,
        multiplier: Multiplier::of(multiplier),
        start,
        end: start,
    }
}

/// The weight of the last of the heaviest items; the greatest number where there are none.
#[inline]
fn least_of(top: &[Weighed]) -> i64 {
    match top.last() {
        Some(last) => last.weight,
        None => i64::MAX,
    }
}

impl Flat {
    /// Adds a row; not if it has neither free items nor a multiplier.
    fn add_row(
        &mut self,
        problem: &Problem,
        cut: &Cut,
        free: &Free,
        sides: &Sides,
        number: usize,
        row: &Row,
    ) -> Result<(), Memory> {
        let Bounds { low, high, measure } = bounds_of(row);
        let side = number.wrapping_mul(2);
        let multiplier = row_multiplier(row, sides, side);
        let mut line = new_line(self.selection.entries.len(), side, low, high, multiplier);
        if let Some(Measure { set, which }) = measure {
            let place = short(self.lines.len());
            let members = Measure {
                set: set.meet(cut.free),
                which,
            };
            line.is_on_stimuli = false;
            line.unit = add_measure(&mut self.selection, problem, free, members, place)?;
            line.end = self.selection.entries.len();
            line.fixed = sum_over(problem.bank, which, set.meet(cut.taken));
            line.activity = line.fixed.wrapping_mul(256);
            if line.start == line.end && multiplier == 0 {
                self.rest_is_met = self.rest_is_met && low <= line.fixed && line.fixed <= high;
                return Ok(());
            }
        }
        self.lines.push(line)?;
        Ok(())
    }

    /// No items and no lines yet, but some stimuli, and so many items of no stimulus to come.
    fn empty(alloc: Global, selection: Selection, stimuli: Vec<Stimulus>, alone: usize) -> Flat {
        Flat {
            numbers: Vec::new(alloc),
            gains: Vec::new(alloc),
            weights: Vec::new(alloc),
            shares: Vec::new(alloc),
            alone,
            top: Vec::new(alloc),
            ranked: Vec::new(alloc),
            stimuli,
            lines: Vec::new(alloc),
            selection,
            taken: 0,
            wanted: 0,
            threshold: 0,
            rest_is_met: true,
        }
    }

    /// Adds the free items.
    fn add_items(&mut self, free: &Free) -> Result<(), Memory> {
        self.numbers.extend_from_slice(&free.numbers)?;
        self.gains.extend_from_slice(&free.gains)?;
        self.weights.extend_from_slice(&free.gains)?;
        self.shares.resize(free.numbers.len(), 0)?;
        self.lines.reserve(32)?;
        push_ranked(&mut self.ranked, &free.gains, self.alone)
    }

    /// The free items and the stimuli on a path, with no lines and none chosen.
    fn with_items(
        alloc: Global,
        problem: &Problem,
        cut: &Cut,
        free: &mut Free,
        ray: bool,
    ) -> Result<Flat, Memory> {
        let taken = Taken::of(problem, cut.taken, ray);
        let alone = free.numbers.len();
        let stimuli = stimuli_on(alloc, problem, cut, free, &taken, ray)?;
        let selection = Selection::none(alloc, free.numbers.len())?;
        let mut flat = Flat::empty(alloc, selection, stimuli, alone);
        flat.taken = taken.gain;
        flat.add_items(free)?;
        Ok(flat)
    }

    /// Moves the multipliers by a step of a length, and brings the weights to the new prices.
    pub(crate) fn step(&mut self, length: i64) {
        for line in self.lines.iter_mut() {
            line.step(length);
            let change = line.reprice();
            if change != 0 {
                if let Some(entries) = self.selection.entries.get(line.start..line.end) {
                    reweigh(&mut self.weights, entries, change);
                }
            }
        }
    }

    /// How many items of no stimulus may be chosen: as many as a form needs, and one more where it
    /// may have stimuli.
    fn most_alone(&self) -> usize {
        let wanted = usize::try_from(self.wanted).unwrap_or(0);
        if self.stimuli.is_empty() {
            wanted
        } else {
            wanted.wrapping_add(1)
        }
    }

    /// The heaviest items of no stimulus, the first time.
    fn begin_top(&mut self) -> Result<(), Memory> {
        let most = self.most_alone();
        for (item, weight) in self.weights.iter().enumerate().take(self.alone) {
            let moved = Weighed {
                weight: *weight,
                item,
            };
            let count = self.top.len();
            if count < most {
                self.top.push(moved)?;
                put_in_order(&mut self.top, 0, count, moved);
            } else if *weight > least_of(&self.top) {
                put_in_order(&mut self.top, 0, count.wrapping_sub(1), moved);
            }
        }
        for weighed in &self.top {
            self.selection.mark(weighed.item, true);
        }
        Ok(())
    }

    /// Adds the rows, and begins with the multipliers of some sides.
    fn begin(
        &mut self,
        problem: &Problem,
        cut: &Cut,
        free: &Free,
        sides: &Sides,
    ) -> Result<(), Memory> {
        for (number, row) in problem.spec.rows().iter().enumerate() {
            self.add_row(problem, cut, free, sides, number, row)?;
        }
        self.wanted = (problem.spec.length() as i64).wrapping_sub(cut.taken.count() as i64);
        let low = multiplier_at(sides, CAP_LOW as usize);
        let high = multiplier_at(sides, CAP_HIGH as usize);
        self.threshold = low.wrapping_sub(high);
        self.step(0);
        self.begin_top()
    }

    /// Puts an item of no stimulus among the heaviest, in place of the last of them.
    fn put_in_top(&mut self, moved: Weighed) {
        if self.selection.is_marked(moved.item) {
            return;
        }
        if let Some(last) = self.top.last().copied() {
            self.selection.mark(last.item, false);
            self.selection.choose(&mut self.lines, last.item, 0);
            self.selection.mark(moved.item, true);
            let place = self.top.len().wrapping_sub(1);
            put_in_order(&mut self.top, 0, place, moved);
        }
    }

    /// Brings the heaviest items of no stimulus in order by their weights, and puts in those that
    /// became heavier.
    pub(crate) fn rank_top(&mut self) {
        let count = self.top.len();
        reorder(&mut self.top, 0, count, &self.weights);
        let mut least = least_of(&self.top);
        for item in 0..self.alone {
            let weight = self.weights.get(item).copied().unwrap_or(i64::MIN);
            if weight > least {
                self.put_in_top(Weighed { weight, item });
                least = least_of(&self.top);
            }
        }
    }

    /// Brings the items of each stimulus in order by their weights.
    pub(crate) fn rank_members(&mut self) {
        for stimulus in self.stimuli.iter_mut() {
            let (start, end) = (stimulus.start, stimulus.end);
            reorder(&mut self.ranked, start, end, &self.weights);
            stimulus.base = stimulus.base_of(&self.ranked);
        }
    }

    /// The problem on a path, with the multipliers of a vector.
    pub(crate) fn of(
        alloc: Global,
        problem: &Problem,
        cut: &Cut,
        from: &Vector,
        ray: bool,
    ) -> Result<Flat, Memory> {
        let sides = sides_of(from);
        let mut free = free_items(alloc, problem, &cut.free, ray)?;
        let mut flat = Flat::with_items(alloc, problem, cut, &mut free, ray)?;
        flat.begin(problem, cut, &free, &sides)?;
        Ok(flat)
    }
}
