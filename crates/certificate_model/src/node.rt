//! The nodes of a proof tree.

/// A node; a branch has two subtrees after it in preorder, left first, and `Fix` has one.
#[derive(Clone, Copy, Debug, PartialEq, Eq)]
pub enum Node {
    /// Left, the item is in the form; right, it is not.
    BranchItem(u16),
    /// Left, the stimulus has an item in the form; right, it has none.
    BranchStimulus(u8),
    /// No better form is here: the relaxed maximum of this vector is too low.
    Bound(u8),
    /// No form is here: with weights 0 the relaxed maximum of this vector is below 0.
    Ray(u8),
    /// No form is here: this row is impossible by counting.
    Count(u8),
    /// Only one set of items is left, and it is not a better form.
    Whole,
    /// Nothing is shown.
    Open,
    /// Below are the forms better than a goal: by this vector they have, or lack, what it settles
    /// (reduced cost fixing). The goal is an objective, which the form reaches.
    Fix(u8, u32),
}
