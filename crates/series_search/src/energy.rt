//! How far a group of items is from its goals and bounds, as energies: squares of what is lacking,
//! where the mean information of an item is 16,384.

use crate::numbers::at;
use crate::table::{Limits, Table};

/// The mean weighted information of an item, in which what is lacking is measured.
pub const UNIT: i64 = 16_384;

/// From here on an energy grows straight, so that lack of information never outweighs a broken row.
const STRAIGHT: i64 = 4_915;

/// The most that is lacking of a row, as it is measured.
const MOST: i64 = 67_108_864;

/// What a unit of a quantity counts for more than one of a count.
const QUANTITY: i64 = 5;

/// The energy of what a group lacks of its goal at a point.
#[inline]
pub fn lack(inverse: i64, lacking: i64) -> i64 {
    if lacking <= 0 {
        return 0;
    }
    let measured = (lacking.saturating_mul(inverse) >> 20).saturating_add(1);
    if measured <= STRAIGHT {
        measured.wrapping_mul(measured)
    } else {
        measured
            .wrapping_mul(2)
            .wrapping_sub(STRAIGHT)
            .wrapping_mul(STRAIGHT)
    }
}

/// The energy of a sum on a row of so many forms.
#[inline]
pub fn broken(limits: &Limits, times: i64, sum: i64) -> i64 {
    let low = limits.low.wrapping_mul(times);
    let high = limits.high.wrapping_mul(times);
    let out = low.wrapping_sub(sum).max(sum.wrapping_sub(high));
    if out <= 0 {
        return 0;
    }
    let unit = if limits.scale > 1 {
        UNIT.wrapping_mul(QUANTITY)
    } else {
        UNIT
    };
    let measured = out
        .saturating_mul(unit)
        .checked_div(limits.scale)
        .unwrap_or(MOST)
        .clamp(1, MOST);
    measured.wrapping_mul(measured)
}

/// The energy of so many items of a stimulus in so many forms.
pub fn broken_stimulus(bounds: (i64, i64), times: i64, count: i64) -> i64 {
    let mut least = count;
    for forms in 1..5i64 {
        if forms <= times {
            let low = bounds.0.wrapping_mul(forms).wrapping_sub(count);
            let high = count.wrapping_sub(bounds.1.wrapping_mul(forms));
            least = least.min(low.max(high).max(0));
        }
    }
    least
        .wrapping_mul(UNIT)
        .wrapping_mul(least.wrapping_mul(UNIT))
}

/// In how many forms so many items of a stimulus are.
pub fn choosing(bounds: (i64, i64), times: i64, count: i64) -> i64 {
    count
        .saturating_add(bounds.1)
        .saturating_sub(1)
        .checked_div(bounds.1)
        .unwrap_or(0)
        .min(times)
}

/// How the energy of a group changes at the points where one item leaves for another.
#[inline]
pub fn points_change(
    table: &Table,
    inverse: i64,
    goal: i64,
    sums: &[i64],
    leaves: usize,
    comes: usize,
) -> i64 {
    let mut change = 0i64;
    let more = table.info_of(comes).iter();
    let less = table.info_of(leaves).iter();
    for ((sum, more), less) in sums.iter().zip(more).zip(less) {
        let lacking = goal.wrapping_sub(*sum);
        let next = lacking.wrapping_sub(*more).wrapping_add(*less);
        let after = lack(inverse, next);
        change = change
            .wrapping_add(after)
            .wrapping_sub(lack(inverse, lacking));
    }
    change
}

/// The energy of a group at all points.
pub fn points_energy(inverse: i64, goal: i64, sums: &[i64]) -> i64 {
    let mut energy = 0i64;
    for sum in sums {
        energy = energy.wrapping_add(lack(inverse, goal.wrapping_sub(*sum)));
    }
    energy
}

/// The energy of a group on all rows.
pub fn rows_energy(table: &Table, times: i64, sums: &[i64]) -> i64 {
    let mut energy = 0i64;
    let mut row = 0usize;
    for limits in table.rows.as_slice() {
        energy = energy.wrapping_add(broken(limits, times, at(sums, row)));
        row = row.wrapping_add(1);
    }
    energy
}
