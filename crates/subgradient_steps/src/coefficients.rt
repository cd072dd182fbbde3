//! What the rows of a plan and the objective count of items.

use bank_tables::{Bank, ItemSet};
use constraint_model::{Problem, Row};

/// What a row counts of the items of a set.
#[derive(Clone, Copy)]
pub(crate) struct Measure {
    pub set: ItemSet,
    /// A quantity of the bank, or their number.
    pub which: Option<u8>,
}

/// The bounds of a row, and what it counts of items; None if it counts stimuli.
#[derive(Clone, Copy)]
pub(crate) struct Bounds {
    pub low: i64,
    pub high: i64,
    pub measure: Option<Measure>,
}

/// The bounds of a row, and what it counts.
pub(crate) fn bounds_of(row: &Row) -> Bounds {
    match row {
        Row::Count { set, low, high } => Bounds {
            low: *low as i64,
            high: *high as i64,
            measure: Some(Measure {
                set: *set,
                which: None,
            }),
        },
        Row::Quantity {
            which,
            set,
            low,
            high,
        } => Bounds {
            low: *low as i64,
            high: *high as i64,
            measure: Some(Measure {
                set: *set,
                which: Some(*which),
            }),
        },
        Row::Enemies { set } => Bounds {
            low: 0,
            high: 1,
            measure: Some(Measure {
                set: *set,
                which: None,
            }),
        },
        Row::Stimuli { low, high } => Bounds {
            low: *low as i64,
            high: *high as i64,
            measure: None,
        },
    }
}

/// What an item adds to a measure.
#[inline]
pub(crate) fn coefficient(bank: &Bank, which: Option<u8>, item: u16) -> i64 {
    match which {
        None => 1,
        Some(quantity) => {
            if item < bank.items() && quantity < bank.quantities() {
                bank.quantity(item, quantity) as i64
            } else {
                0
            }
        }
    }
}

/// The sum of a measure over the items of a set.
pub(crate) fn sum_over(bank: &Bank, which: Option<u8>, items: ItemSet) -> i64 {
    if which.is_none() {
        return items.count() as i64;
    }
    let mut next = 0;
    let mut sum = 0i64;
    for _ in 0..512 {
        let Some(item) = items.first_from(next) else {
            break;
        };
        next = item + 1;
        sum = sum.wrapping_add(coefficient(bank, which, item));
    }
    sum
}

/// 256 times the information of an item at the estimate, or 0 for a ray.
#[inline]
pub(crate) fn gain_of(problem: &Problem, ray: bool, item: u16) -> i64 {
    let bank = problem.bank;
    if !ray && item < bank.items() && problem.theta < bank.grid() {
        (bank.info(item, problem.theta) as i64).wrapping_mul(256)
    } else {
        0
    }
}

/// The stimulus of an item; 0 is none.
#[inline]
pub(crate) fn stimulus_of(bank: &Bank, item: u16) -> u8 {
    if item < bank.items() {
        bank.stimulus(item)
    } else {
        0
    }
}

/// The items taken: their gains, and how many have each stimulus.
#[derive(Drop)]
pub(crate) struct Taken {
    pub gain: i64,
    pub of_stimulus: [i64; 256],
}

impl Taken {
    /// Those of a set.
    pub(crate) fn of(problem: &Problem, items: ItemSet, ray: bool) -> Taken {
        let mut gain = 0i64;
        let mut of_stimulus = [0i64; 256];
        let mut next = 0;
        for _ in 0..512 {
            let Some(item) = items.first_from(next) else {
                break;
            };
            next = item + 1;
            gain = gain.wrapping_add(gain_of(problem, ray, item));
            let count = &mut of_stimulus[stimulus_of(problem.bank, item) as usize];
            *count = count.wrapping_add(1);
        }
        Taken { gain, of_stimulus }
    }
}
