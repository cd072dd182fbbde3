//! Multipliers of several forms, and the vector that they make.

use crate::numbers::at;
use crate::table::Table;
use series_tree::Memory;
use std::alloc::Global;

/// The greatest multiplier of a vector of the pool, and of another.
const MOST: i64 = 4_294_967_295;

const MOST_ALONE: i64 = 16_777_216;

/// The sides of the common uses begin here.
const USE_SIDES: usize = 256;

/// The sides of the rows of the first form begin here, and each form has so many.
const ROW_SIDES: usize = 768;

const FORM_SIDES: usize = 384;

/// The sides of the lengths begin here; after them come those of the threshold, and the mark of the
/// pool.
const LENGTH_SIDES: usize = 2_304;

const THRESHOLD_SIDES: usize = 2_312;

const MARK: usize = 2_314;

/// The multipliers of each form, of either sign: those of points are at least 0, and the others are
/// above 0 for the low side.
#[derive(Drop)]
pub struct Multipliers {
    /// Of the points that have a weight, form by form.
    pub points: Vec<i64>,
    /// Of the rows of the plan, form by form.
    pub rows: Vec<i64>,
    /// Of the bounds of the stimuli, form by form.
    pub bounds: Vec<i64>,
    /// Of the lengths.
    pub lengths: Vec<i64>,
    /// Of the common use of each item, which are at least 0; they count only without the rule of
    /// the pool.
    pub uses: Vec<i64>,
    /// Whether the vector is judged by the rule of the pool; else each form alone.
    pub is_pool: bool,
}

/// The greatest absolute value of some numbers.
fn greatest(numbers: &[i64]) -> i64 {
    let mut most = 0i64;
    for number in numbers {
        most = most.max(number.saturating_abs());
    }
    most
}

/// Divides each number by a power of two, to the nearest.
fn lower(numbers: &mut [i64], half: i64, divisor: i64) {
    for number in numbers.iter_mut() {
        *number = number
            .saturating_add(half)
            .checked_div_euclid(divisor)
            .unwrap_or(0);
    }
}

/// Adds a side with its multiplier, if that is above 0.
fn push_side(pairs: &mut Vec<(u16, u32)>, side: usize, multiplier: i64) -> Result<(), Memory> {
    let number = u32::try_from(multiplier.clamp(0, MOST)).unwrap_or(0);
    if number > 0 {
        pairs.push((u16::try_from(side).unwrap_or(u16::MAX), number))?;
    }
    Ok(())
}

/// Adds the low and the high side of a multiplier of either sign.
fn push_sides(pairs: &mut Vec<(u16, u32)>, low: usize, multiplier: i64) -> Result<(), Memory> {
    push_side(pairs, low, multiplier)?;
    push_side(pairs, low.wrapping_add(1), multiplier.saturating_neg())
}

impl Multipliers {
    /// Multipliers that are all 0, of a vector of the pool or of another.
    pub fn none(alloc: Global, table: &Table, is_pool: bool) -> Result<Multipliers, Memory> {
        let points = table.forms.wrapping_mul(table.points.len());
        let rows = table.forms.wrapping_mul(table.rows.len());
        let bounds = table.forms.wrapping_mul(table.bounds.len());
        Ok(Multipliers {
            points: Vec::from_elem(alloc, 0i64, points)?,
            rows: Vec::from_elem(alloc, 0i64, rows)?,
            bounds: Vec::from_elem(alloc, 0i64, bounds)?,
            lengths: Vec::from_elem(alloc, 0i64, table.forms)?,
            uses: Vec::from_elem(alloc, 0i64, table.items as usize)?,
            is_pool,
        })
    }

    /// Divides all by a power of two until they fit a vector.
    pub fn fit(&mut self) {
        let most = greatest(self.points.as_slice())
            .max(greatest(self.rows.as_slice()))
            .max(greatest(self.bounds.as_slice()))
            .max(greatest(self.lengths.as_slice()))
            .max(greatest(self.uses.as_slice()));
        let limit = if self.is_pool { MOST } else { MOST_ALONE };
        let mut divisor = 1i64;
        for _ in 0..62 {
            if most.checked_div(divisor).unwrap_or(0) < limit {
                break;
            }
            divisor = divisor.wrapping_mul(2);
        }
        if divisor > 1 {
            lower(&mut self.uses, divisor.saturating_sub(1), divisor);
            let half = divisor / 2;
            lower(&mut self.points, half, divisor);
            lower(&mut self.rows, half, divisor);
            lower(&mut self.bounds, half, divisor);
            lower(&mut self.lengths, half, divisor);
        }
    }

    /// Whether no point has a multiplier.
    pub fn is_ray(&self) -> bool {
        self.points.iter().all(|number| *number == 0)
    }

    /// Adds the sides of the points of a form.
    fn push_points(
        &self,
        pairs: &mut Vec<(u16, u32)>,
        table: &Table,
        form: usize,
    ) -> Result<(), Memory> {
        let mut place = form.wrapping_mul(table.points.len());
        for point in table.points.as_slice() {
            let side = form.wrapping_mul(64).wrapping_add(*point as usize);
            push_side(pairs, side, at(self.points.as_slice(), place))?;
            place = place.wrapping_add(1);
        }
        Ok(())
    }

    /// Adds the sides of the rows and of the stimuli of a form.
    fn push_rows(
        &self,
        pairs: &mut Vec<(u16, u32)>,
        table: &Table,
        form: usize,
    ) -> Result<(), Memory> {
        let first = form.wrapping_mul(table.rows.len());
        let base = ROW_SIDES.wrapping_add(form.wrapping_mul(FORM_SIDES));
        for row in 0..table.rows.len() {
            let multiplier = at(self.rows.as_slice(), first.wrapping_add(row));
            push_sides(pairs, base.wrapping_add(row.wrapping_mul(2)), multiplier)?;
        }
        self.push_bounds(
            pairs,
            table,
            form,
            base.wrapping_add(table.rows.len().wrapping_mul(2)),
        )
    }

    /// Adds the sides of the stimuli of a form, which begin at a number.
    fn push_bounds(
        &self,
        pairs: &mut Vec<(u16, u32)>,
        table: &Table,
        form: usize,
        base: usize,
    ) -> Result<(), Memory> {
        let first = form.wrapping_mul(table.bounds.len());
        for place in 0..table.bounds.len() {
            let multiplier = at(self.bounds.as_slice(), first.wrapping_add(place));
            push_sides(pairs, base.wrapping_add(place.wrapping_mul(2)), multiplier)?;
        }
        Ok(())
    }

    /// Adds the sides of the common uses.
    fn push_uses(&self, pairs: &mut Vec<(u16, u32)>) -> Result<(), Memory> {
        let mut side = USE_SIDES;
        for multiplier in self.uses.as_slice() {
            push_side(pairs, side, *multiplier)?;
            side = side.wrapping_add(1);
        }
        Ok(())
    }

    /// Adds the sides from those of the lengths on; at least one, so that the vector is one of the
    /// pool.
    fn push_pool(&self, pairs: &mut Vec<(u16, u32)>, threshold: Option<i64>) -> Result<(), Memory> {
        let before = pairs.len();
        let mut side = LENGTH_SIDES;
        for multiplier in self.lengths.as_slice() {
            push_sides(pairs, side, *multiplier)?;
            side = side.wrapping_add(2);
        }
        if let Some(number) = threshold {
            push_sides(pairs, THRESHOLD_SIDES, number)?;
        }
        if pairs.len() == before {
            push_side(pairs, MARK, 1)?;
        }
        Ok(())
    }

    /// The pairs of the vector.
    pub fn pairs(
        &self,
        alloc: Global,
        table: &Table,
        threshold: Option<i64>,
    ) -> Result<Vec<(u16, u32)>, Memory> {
        let mut pairs = Vec::new(alloc);
        for form in 0..table.forms {
            self.push_points(&mut pairs, table, form)?;
        }
        if !self.is_pool {
            self.push_uses(&mut pairs)?;
        }
        for form in 0..table.forms {
            self.push_rows(&mut pairs, table, form)?;
        }
        if self.is_pool {
            self.push_pool(&mut pairs, threshold)?;
        }
        Ok(pairs)
    }
}
