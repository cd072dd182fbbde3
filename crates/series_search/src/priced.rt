//! Vectors with the weights that they give: by the rule of the pool an item counts less the
//! multiplier of its form's length, else less that of its common use.

use crate::multipliers::Multipliers;
use crate::numbers::{add_at, at};
use crate::table::Table;
use series_tree::Memory;
use std::alloc::Global;

/// A vector of the pool.
#[derive(Drop)]
pub struct Priced {
    pub pairs: Vec<(u16, u32)>,
    /// Whether it is judged by the rule of the pool.
    pub is_pool: bool,
    /// Whether no point has a multiplier.
    pub is_ray: bool,
    /// The constants of all forms, and their lengths times the multipliers of these.
    pub constant: i64,
    /// What each item counts in each form, form by form.
    pub weights: Vec<i64>,
    /// The weight of each stimulus in each form, form by form: 65 numbers each.
    pub stimuli: Vec<i64>,
    /// The threshold, where there are stimuli.
    pub threshold: Option<i64>,
    /// The multipliers of the points, form by form.
    points: Vec<i64>,
}

/// What an item counts in a form.
fn weight_of(table: &Table, multipliers: &Multipliers, form: usize, item: usize) -> i64 {
    let mut place = form.wrapping_mul(table.points.len());
    let less = if multipliers.is_pool {
        at(multipliers.lengths.as_slice(), form)
    } else {
        at(multipliers.uses.as_slice(), item)
    };
    let mut weight = less.wrapping_neg();
    for info in table.info_of(item) {
        let multiplier = at(multipliers.points.as_slice(), place);
        weight = weight.wrapping_add(multiplier.wrapping_mul(*info));
        place = place.wrapping_add(1);
    }
    weight
        .wrapping_add(row_weight(table, multipliers, form, item))
        .wrapping_add(bound_of(table, multipliers, form, table.stimulus_of(item)))
}

/// The multiplier of the bounds of a stimulus in a form; 0 for none.
fn bound_of(table: &Table, multipliers: &Multipliers, form: usize, stimulus: usize) -> i64 {
    if stimulus == 0 {
        return 0;
    }
    let first = form.wrapping_mul(table.bounds.len());
    let place = first.wrapping_add(stimulus).wrapping_sub(1);
    at(multipliers.bounds.as_slice(), place)
}

/// The sum of the multipliers of the rows that an item adds to.
fn row_weight(table: &Table, multipliers: &Multipliers, form: usize, item: usize) -> i64 {
    let first = form.wrapping_mul(table.rows.len());
    let mut weight = 0i64;
    for part in table.parts_of(item) {
        let multiplier = at(multipliers.rows.as_slice(), first.wrapping_add(part.row));
        weight = weight.wrapping_add(multiplier.wrapping_mul(part.amount));
    }
    weight
}

impl Priced {
    /// The vector of multipliers of points and lengths, its weights still to come.
    fn begun(alloc: Global, table: &Table, multipliers: &Multipliers) -> Result<Priced, Memory> {
        let stimuli = table.forms.wrapping_mul(65);
        Ok(Priced {
            pairs: Vec::new(alloc),
            is_pool: multipliers.is_pool,
            is_ray: multipliers.is_ray(),
            constant: 0,
            weights: Vec::new(alloc),
            stimuli: Vec::from_elem(alloc, 0i64, stimuli)?,
            threshold: None,
            points: Vec::from_slice(alloc, multipliers.points.as_slice())?,
        })
    }

    /// Adds the weights of the items in a form.
    fn add_weights(
        &mut self,
        table: &Table,
        multipliers: &Multipliers,
        form: usize,
    ) -> Result<(), Memory> {
        for item in 0..table.items as usize {
            self.weights
                .push(weight_of(table, multipliers, form, item))?;
        }
        Ok(())
    }

    /// Adds the constant of a form, and the weight of its stimuli.
    fn add_rows(&mut self, table: &Table, multipliers: &Multipliers, form: usize) {
        if self.is_pool {
            let length = at(multipliers.lengths.as_slice(), form).wrapping_mul(table.length);
            self.constant = self.constant.wrapping_add(length);
        }
        let mut place = form.wrapping_mul(table.rows.len());
        for limits in table.rows.as_slice() {
            let multiplier = at(multipliers.rows.as_slice(), place);
            let bound = if multiplier > 0 {
                limits.low
            } else {
                limits.high
            };
            let less = multiplier.wrapping_mul(bound);
            self.constant = self.constant.wrapping_sub(less);
            if limits.of_stimuli {
                self.weigh_stimuli(form, multiplier);
            }
            place = place.wrapping_add(1);
        }
        self.add_bounds(table, multipliers, form);
    }

    /// Adds the multipliers of the bounds of the stimuli to the weights of these in a form.
    fn add_bounds(&mut self, table: &Table, multipliers: &Multipliers, form: usize) {
        let first = form.wrapping_mul(65);
        for stimulus in 1..table.bounds.len().saturating_add(1) {
            let multiplier = bound_of(table, multipliers, form, stimulus);
            let (low, high) = table.bounds_of(stimulus);
            let bound = if multiplier > 0 { low } else { high };
            let more = multiplier.wrapping_mul(bound).wrapping_neg();
            add_at(&mut self.stimuli, first.wrapping_add(stimulus), more);
        }
    }

    /// Adds the multipliers of common use.
    fn add_uses(&mut self, multipliers: &Multipliers) {
        for multiplier in multipliers.uses.as_slice() {
            self.constant = self.constant.wrapping_add(*multiplier);
        }
    }

    /// Adds a multiplier to the weight of each stimulus in a form.
    fn weigh_stimuli(&mut self, form: usize, multiplier: i64) {
        let first = form.wrapping_mul(65);
        for stimulus in 1..65usize {
            add_at(&mut self.stimuli, first.wrapping_add(stimulus), multiplier);
        }
    }

    /// The vector of some multipliers.
    pub fn of(alloc: Global, table: &Table, multipliers: &Multipliers) -> Result<Priced, Memory> {
        let mut priced = Priced::begun(alloc, table, multipliers)?;
        for form in 0..table.forms {
            priced.add_weights(table, multipliers, form)?;
            priced.add_rows(table, multipliers, form);
        }
        if !priced.is_pool {
            priced.add_uses(multipliers);
        }
        Ok(priced)
    }

    /// What an item counts in a form.
    #[inline]
    pub fn weight(&self, table: &Table, form: usize, item: usize) -> i64 {
        let first = form.wrapping_mul(table.items as usize);
        at(self.weights.as_slice(), first.wrapping_add(item))
    }

    /// The least weighted sum of a series whose value exceeds a number.
    pub fn goal(&self, table: &Table, value: i64) -> i64 {
        let size = table.points.len();
        let mut goal = 0i64;
        let mut place = 0usize;
        for multiplier in self.points.as_slice() {
            let point = place.checked_rem(size).unwrap_or(0);
            let weight = at(table.weights.as_slice(), point).max(1);
            let next = value.checked_div(weight).unwrap_or(0).wrapping_add(1);
            let least = if self.is_pool {
                next.wrapping_mul(weight)
            } else {
                value.wrapping_add(1)
            };
            goal = goal.wrapping_add(multiplier.wrapping_mul(least));
            place = place.wrapping_add(1);
        }
        goal
    }

    /// The least number that no series exceeds by this vector, whose relaxed maximum is given; by
    /// halves.
    pub fn least_value(&self, table: &Table, maximum: i64, top: i64) -> i64 {
        let mut low = -1i64;
        let mut high = top;
        for _ in 0..64 {
            if high.wrapping_sub(low) <= 1 {
                break;
            }
            let middle = low.wrapping_add(high.wrapping_sub(low) / 2);
            if maximum < self.goal(table, middle) {
                high = middle;
            } else {
                low = middle;
            }
        }
        high
    }
}
