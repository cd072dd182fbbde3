//! Whole-number subgradient steps.

use crate::aim::{Aim, Ascent};
use crate::choice::Choice;
use crate::constraints::{Line, MOST};
use crate::direction::{RowsValue, Slope};
use crate::problem::Flat;
use crate::step_size::Level;
use bank_tables::sides::{CAP_HIGH, CAP_LOW};
use bank_tables::{ItemSet, List};
use constraint_model::Problem;
use lagrange_bound::Cut;
use proof_tree::{Memory, Vector};
use std::alloc::Global;

fn push_side(pairs: &mut Vec<(u16, u32)>, side: u16, multiplier: i64) -> Result<(), Memory> {
    if 0 < multiplier {
        pairs.push((side, multiplier.min(MOST) as u32))?;
    }
    Ok(())
}

/// A side with its multiplier, and the next side with another one.
fn push_sides(pairs: &mut Vec<(u16, u32)>, side: u16, low: i64, high: i64) -> Result<(), Memory> {
    push_side(pairs, side, low)?;
    push_side(pairs, side.wrapping_add(1), high)
}

/// The sides of the rows with the multipliers of the best bound.
fn push_rows(pairs: &mut Vec<(u16, u32)>, lines: &[Line]) -> Result<(), Memory> {
    for line in lines {
        let best = line.multiplier.best;
        push_sides(pairs, line.side, best, best.wrapping_neg())?;
    }
    Ok(())
}

/// The sides of the cap; both of them for the cap 0.
fn push_cap(pairs: &mut Vec<(u16, u32)>, cap: i64) -> Result<(), Memory> {
    if cap == 0 {
        pairs.push((CAP_LOW, 1))?;
        pairs.push((CAP_HIGH, 1))?;
        return Ok(());
    }
    push_sides(pairs, CAP_LOW, cap, cap.wrapping_neg())
}

/// Gives the items of a set the share of those always selected.
fn fill(shares: &mut [u16], items: ItemSet) {
    let mut next = 0;
    for _ in 0..512 {
        let Some(item) = items.first_from(next) else {
            break;
        };
        next = item + 1;
        if let Some(slot) = shares.get_mut(item as usize) {
            *slot = 4096;
        }
    }
}

impl Flat {
    /// The sides of the stimuli at a threshold, and of the cap where a stimulus is open.
    fn push_stimuli(&self, pairs: &mut Vec<(u16, u32)>, threshold: i64) -> Result<(), Memory> {
        let price = RowsValue::of(&self.lines).price;
        let mut has_open = false;
        for stimulus in &self.stimuli {
            let (low, high) = stimulus.multipliers(&self.ranked, price, threshold);
            push_sides(pairs, stimulus.side, low, high)?;
            has_open = has_open || !stimulus.is_chosen;
        }
        if has_open {
            push_cap(pairs, threshold)
        } else {
            Ok(())
        }
    }

    /// The vector of the best bound, once the weights are those of its multipliers.
    fn vector(&self, alloc: Global, threshold: i64, from: &Vector) -> Result<Vector, Memory> {
        let mut pairs = Vec::with_capacity(alloc, self.lines.len())?;
        push_rows(&mut pairs, &self.lines)?;
        self.push_stimuli(&mut pairs, threshold)?;
        match Vector::of(List::of(pairs)) {
            Some(vector) => Ok(vector),
            None => from.again(alloc),
        }
    }

    /// The share of each item of the bank.
    fn all_shares(
        &self,
        alloc: Global,
        problem: &Problem,
        taken: ItemSet,
    ) -> Result<Vec<u16>, Memory> {
        let mut shares = Vec::from_elem(alloc, 0, problem.bank.items() as usize)?;
        fill(&mut shares, taken);
        for (item, share) in self.numbers.iter().zip(self.shares.iter()) {
            if let Some(slot) = shares.get_mut(*item as usize) {
                *slot = *share;
            }
        }
        Ok(shares)
    }

    /// The share of each stimulus of the bank.
    fn stimulus_shares(&self, alloc: Global, problem: &Problem) -> Result<Vec<u16>, Memory> {
        let mut shares = Vec::from_elem(alloc, 0, problem.bank.stimuli() as usize)?;
        for stimulus in &self.stimuli {
            let place = (stimulus.number as usize).wrapping_sub(1);
            if let Some(slot) = shares.get_mut(place) {
                *slot = stimulus.share;
            }
        }
        Ok(shares)
    }
}

/// A search for better multipliers.
#[derive(Drop)]
struct Search {
    flat: Flat,
    level: Level,
    /// The threshold of the best bound.
    threshold: i64,
    form: Option<ItemSet>,
}

impl Search {
    /// A search from a vector, before its first step.
    fn of(
        alloc: Global,
        problem: &Problem,
        cut: &Cut,
        from: &Vector,
        aim: &Aim,
    ) -> Result<Search, Memory> {
        Ok(Search {
            flat: Flat::of(alloc, problem, cut, from, aim.ray)?,
            level: Level::of(aim.target.unwrap_or(i64::MIN / 4), 0, 1, 0),
            threshold: 0,
            form: None,
        })
    }

    /// Takes the items chosen if they are a form whose objective is above the target; the target
    /// rises to it.
    fn take_form(&mut self, cut: &Cut, ray: bool) {
        let gain = self.flat.gain();
        if ray {
            if self.form.is_none() {
                self.form = Some(self.flat.chosen(cut.taken));
            }
        } else if gain > self.level.target {
            self.form = Some(self.flat.chosen(cut.taken));
            self.level.target = gain.wrapping_add(255);
        }
    }

    /// The bound at the present multipliers, and the slope there.
    fn look(&mut self, cut: &Cut, ray: bool) -> (i64, Slope) {
        let flat = &mut self.flat;
        flat.rank_top();
        flat.rank_members();
        let rows = RowsValue::of(&flat.lines);
        let choice = Choice::of(flat, rows.price);
        flat.choose(&choice);
        let bound = rows
            .value
            .wrapping_add(choice.value)
            .wrapping_add(flat.taken);
        let slope = Slope::of(&mut flat.lines);
        if choice.is_whole && slope.meets && flat.rest_is_met {
            self.take_form(cut, ray);
        }
        (bound, slope)
    }

    /// Notes the multipliers as those of the best bound.
    fn note_best(&mut self) {
        self.threshold = self.flat.threshold;
        for line in self.flat.lines.iter_mut() {
            line.note_best();
        }
    }

    /// The level after the first bound.
    fn begun(&self, aim: &Aim, bound: i64) -> Level {
        match aim.target {
            Some(_) => Level::of(
                self.level.target,
                bound,
                part_of(aim.steps),
                reach_of(aim.ray),
            ),
            None => Level::blind(bound),
        }
    }

    /// Goes by at most so many steps.
    fn run(&mut self, cut: &Cut, aim: &Aim) {
        let (mut bound, mut slope) = self.look(cut, aim.ray);
        self.flat.share_first();
        self.level = self.begun(aim, bound);
        self.note_best();
        for _ in 0..aim.steps {
            if self.level.is_reached() || self.level.is_stale() {
                return;
            }
            self.flat.step(self.level.length(bound, slope.squares));
            (bound, slope) = self.look(cut, aim.ray);
            self.flat.share();
            if self.level.takes(bound) {
                self.note_best();
            }
        }
    }

    /// Goes back to the multipliers of the best bound, where those of stimuli are to be worked out
    /// at them.
    fn return_to_best(&mut self) {
        if self.flat.stimuli.is_empty() {
            return;
        }
        for line in self.flat.lines.iter_mut() {
            line.return_to_best();
        }
        self.flat.step(0);
        self.flat.rank_members();
    }

    /// What the steps led to.
    fn ascent(
        &mut self,
        alloc: Global,
        problem: &Problem,
        cut: &Cut,
        from: &Vector,
    ) -> Result<Ascent, Memory> {
        let choice = self.flat.chosen(cut.taken);
        self.return_to_best();
        Ok(Ascent {
            vector: self.flat.vector(alloc, self.threshold, from)?,
            bound: self.level.best,
            shares: self.flat.all_shares(alloc, problem, cut.taken)?,
            stimulus_shares: self.flat.stimulus_shares(alloc, problem)?,
            choice,
            form: self.form,
        })
    }
}

/// The part of the gap that the first step of a long search aims at, and of a short one.
fn part_of(steps: u32) -> i64 {
    if steps > 40 { 8 } else { 4 }
}

/// How far below the target the steps aim at most; a ray is as good at any scale, and at a larger
/// one suffers less by rounding.
fn reach_of(ray: bool) -> i64 {
    if ray { 1024 } else { 64 }
}

/// Goes from a vector by at most so many subgradient steps towards a bound of at most the target.
// Promise: Steps from a vector, made safely and in the end. Nothing is promised of what they lead
// to
// - by none
pub fn steps_from(
    alloc: Global,
    problem: &Problem,
    cut: &Cut,
    from: &Vector,
    aim: Aim,
) -> Result<Ascent, Memory> {
    let mut search = Search::of(alloc, problem, cut, from, &aim)?;
    search.run(cut, &aim);
    search.ascent(alloc, problem, cut, from)
}
