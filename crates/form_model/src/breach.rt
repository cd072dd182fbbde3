//! Why a set of items is no form.

/// The first breach, with the value found.
#[derive(Clone, Copy, Debug, PartialEq, Eq)]
pub enum Breach {
    /// The set has another number of items than the test, or an item that is not in the bank; its
    /// number of items.
    Length(u32),
    /// The row doesn't hold; the activity of the set on it.
    Row(u8, u32),
    /// The stimulus has a number of items out of its bounds; that number.
    Stimulus(u8, u32),
    /// The set lacks this item, which was given.
    Given(u16),
    /// The set has this item, which is barred.
    Barred(u16),
}
