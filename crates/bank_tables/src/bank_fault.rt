//! The first fault of the rows of an item bank.

/// Why rows are no item bank. Of several faults it is the first in this order, item by item from
/// the fourth on.
#[derive(Clone, Copy, Debug, PartialEq, Eq)]
pub enum BankFault {
    /// There is no item.
    NoItems,
    /// There are so many items, more than 512.
    TooMany(u64),
    /// The number of grid points is not 1 to 61, or there are more than 8 quantities.
    BadGrid,
    /// The stimulus of this item is above 64.
    BadStimulus(u16),
    /// The number of response categories of this item is not 2 to 5.
    BadCategories(u16),
    /// This item has a wrong number of quantities, or one above 65,535.
    BadQuantity(u16),
    /// This item has a wrong number of values of information, or one above 1,000,000.
    BadInfo(u16),
    /// This item has a wrong number of log-likelihoods, or one not from -10,000,000 to 0.
    BadLogLik(u16),
    /// Out of memory.
    Memory,
}
