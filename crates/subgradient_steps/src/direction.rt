//! What the rows add to the relaxed maximum, and the direction of the next step.

use crate::constraints::{Line, Multiplier};

/// What the rows add to the relaxed maximum.
#[derive(Clone, Copy)]
pub(crate) struct RowsValue {
    pub value: i64,
    /// What the rows on stimuli add to the weight of each stimulus.
    pub price: i64,
}

impl RowsValue {
    /// What the rows add.
    pub(crate) fn of(lines: &[Line]) -> RowsValue {
        let mut sum = RowsValue { value: 0, price: 0 };
        for line in lines {
            let bound = if line.price > 0 { line.low } else { line.high };
            let slack = line.fixed.wrapping_sub(bound);
            sum.value = sum.value.wrapping_add(line.price.wrapping_mul(slack));
            if line.is_on_stimuli {
                sum.price = sum.price.wrapping_add(line.price);
            }
        }
        sum
    }
}

/// The direction of all multipliers: the sum of its squares; and whether the choice meets all rows.
#[derive(Clone, Copy)]
pub(crate) struct Slope {
    pub squares: i64,
    pub meets: bool,
}

/// 256 times the subgradient of a row at its multiplier.
#[inline]
fn slope_of(line: &Line) -> i64 {
    let scaled = line.multiplier.scaled;
    let over_low = line.activity.wrapping_sub(line.low.wrapping_mul(256));
    let over_high = line.activity.wrapping_sub(line.high.wrapping_mul(256));
    if scaled > 0 || scaled == 0 && over_low < 0 {
        over_low
    } else if scaled < 0 || over_high > 0 {
        over_high
    } else {
        0
    }
}

/// The new direction of a multiplier: its slope and half of the direction before.
#[inline]
fn turned(multiplier: &Multiplier, slope: i64, unit: i64) -> i64 {
    let steep = slope.wrapping_mul(unit) >> 16;
    steep
        .wrapping_add(multiplier.direction / 2)
        .clamp(-(1 << 24), 1 << 24)
}

/// Turns the multiplier of a row; one that is 0 only leaves it against a violation.
#[inline]
fn turn(line: &mut Line) {
    let scaled = line.multiplier.scaled;
    let slope = slope_of(line);
    let mut direction = 0;
    if scaled != 0 || slope != 0 {
        direction = turned(&line.multiplier, slope, line.unit);
        if scaled == 0 && (slope < 0) != (direction < 0) {
            direction = 0;
        }
    }
    line.multiplier.direction = direction;
}

/// Whether the activity of a row is within its bounds.
#[inline]
fn is_met(line: &Line) -> bool {
    line.low.wrapping_mul(256) <= line.activity && line.activity <= line.high.wrapping_mul(256)
}

impl Slope {
    /// Turns all multipliers.
    pub(crate) fn of(lines: &mut [Line]) -> Slope {
        let mut slope = Slope {
            squares: 0,
            meets: true,
        };
        for line in lines.iter_mut() {
            turn(line);
            let direction = line.multiplier.direction;
            slope.squares = slope
                .squares
                .wrapping_add(direction.wrapping_mul(direction));
            slope.meets = slope.meets && is_met(line);
        }
        slope
    }
}
