//! What subgradient steps aim at, and what they lead to.

use bank_tables::ItemSet;
use proof_tree::Vector;

/// What subgradient steps aim at: a bound of at most `target`, or as low as they come where there
/// is none, of the objective or of a ray, within so many steps.
#[derive(Clone, Copy, Debug, PartialEq, Eq)]
pub struct Aim {
    pub ray: bool,
    pub target: Option<i64>,
    pub steps: u32,
}

/// What they lead to.
#[derive(Debug, Drop)]
pub struct Ascent {
    /// The best vector met.
    pub vector: Vector,
    /// Its bound, as the steps computed it.
    pub bound: i64,
    /// For each item of the bank the smoothed share of steps in which the relaxed maximum had it,
    /// from 0 to 4,096.
    pub shares: Vec<u16>,
    /// The same of each stimulus, that of stimulus `s` at `s - 1`.
    pub stimulus_shares: Vec<u16>,
    /// The items that the relaxed maximum of the last step had.
    pub choice: ItemSet,
    /// A set of items met on the way that seems to be a form better than the target.
    pub form: Option<ItemSet>,
}
