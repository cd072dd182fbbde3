//! The exposure counts of an item.

/// In how many finished sessions the item was shown, and in how many it was eligible or eligibility
/// was set aside (item-ineligibility control; van der Linden and Veldkamp, Journal of Educational
/// and Behavioral Statistics, 2004).
#[derive(Clone, Copy, Debug, PartialEq, Eq)]
pub struct Counts {
    pub alpha: u32,
    pub eps: u32,
}
