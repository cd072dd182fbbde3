//! The first fault of a draft.

use form_model::Breach;

/// Why a draft is no plan for an item bank. Of several faults it is the first in this order, row by
/// row from `RowBounds` to `BadQuantity`, and stimulus by stimulus once each has bounds.
#[derive(Clone, Copy, Debug, PartialEq, Eq)]
pub enum SpecFault {
    /// The number of items per test is 0, or exceeds that of the bank.
    Length,
    /// The prior has not one value for each grid point, or one that is not from -10,000,000 to 0.
    BadPrior,
    /// There are more than 128 rows.
    TooManyRows,
    /// This row's lower bound exceeds its upper bound, or that exceeds the greatest activity of a
    /// row of its kind: 512 items, 33,553,920 of a quantity, 64 stimuli.
    RowBounds(u8),
    /// This row's set has no item.
    EmptySet(u8),
    /// This row's set has an item that is not in the bank.
    BadItem(u8),
    /// This row's quantity is not one of the bank's.
    BadQuantity(u8),
    /// There is not one pair of bounds for each stimulus of the bank: this stimulus is the lowest
    /// without bounds, or, where there are too many, the one past the greatest. Or its lower bound
    /// is 0 or exceeds its upper bound, or that exceeds 512.
    BadStimulus(u8),
    /// The exposure rate is not a fraction above 0 and at most 1 with a denominator of at most
    /// 65,535.
    BadRate,
    /// There are more than 7 points at which bands begin, or they don't rise, or one is not a grid
    /// point, or is the first.
    BadBands,
    /// A node budget is even, or not 1 to 4,095.
    BadBudget,
    /// The number of sessions is not 1 to 65,536, or the journal's not 64 to 536,870,912 bytes.
    BadLimit,
    /// The base does not meet the plan; its first breach.
    BadBase(Breach),
    /// Out of memory.
    Memory,
}
