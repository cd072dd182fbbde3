//! The rows of a plan: its constraints on a form.

use bank_tables::ItemSet;

/// A constraint on the items and stimuli of a form (van der Linden, Linear Models for Optimal Test
/// Design, 2005).
#[derive(Clone, Copy, Debug, PartialEq, Eq)]
pub enum Row {
    /// Categorical: the number of items of a set lies between the bounds.
    Count {
        set: ItemSet,
        low: u32,
        high: u32,
    },
    /// Quantitative: the sum of a quantity over the items of a set lies between the bounds.
    Quantity {
        which: u8,
        set: ItemSet,
        low: u32,
        high: u32,
    },
    /// Logical: at most one item of the set.
    Enemies {
        set: ItemSet,
    },
    /// The number of stimuli with an item in the form lies between the bounds.
    Stimuli {
        low: u32,
        high: u32,
    },
}

/// The bounds on the number of items of one stimulus, where it has an item in the form.
#[derive(Clone, Copy, Debug, PartialEq, Eq)]
pub struct StimulusBound {
    pub low: u32,
    pub high: u32,
}
