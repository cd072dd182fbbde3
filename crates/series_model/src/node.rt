//! The nodes of a series tree.

/// A node; a branch has two subtrees after it in preorder, left first. A form is numbered from 0.
#[derive(Clone, Copy, Debug, PartialEq, Eq)]
pub enum SeriesNode {
    /// Left, the item is in the form; right, it is not.
    Branch { form: u8, item: u16 },
    /// No better series is here: the relaxed maximum of this vector is too low.
    Bound(u8),
    /// No series is here: with weights 0 the relaxed maximum of this vector is below 0.
    Ray(u8),
    /// No series is here: this row of the form is impossible by counting, or the used items are.
    Count { form: u8, row: u8 },
    /// Only one list of sets is left, and it is not a better series.
    Whole,
    /// Nothing is shown.
    Open,
    /// Left, the item is used: it is in exactly one form; right, it is in none.
    Use { item: u16 },
    /// Left, the item is in the form; right, it is neither there nor in a form that has the same
    /// items and the same free items.
    Twin { form: u8, item: u16 },
}
