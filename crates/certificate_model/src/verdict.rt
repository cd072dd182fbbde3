//! What a proof tree shows.

/// Why a node is unsound.
#[derive(Clone, Copy, Debug, PartialEq, Eq)]
pub enum Reason {
    /// The set that the tree is to show best is no form.
    NotForm,
    /// A branch on an item that isn't free, or on a stimulus that isn't open.
    Determined,
    /// The tree has no such vector.
    NoVector,
    /// The vector names a side that is not in the plan.
    NoSide,
    /// The relaxed maximum isn't low enough, the form doesn't reach the goal, or there is no form
    /// to compare with.
    NotClosed,
    /// The ray's relaxed maximum isn't below 0.
    NotNegative,
    /// The row isn't impossible by counting.
    RowPossible,
    /// More than one set of items is left.
    NotWhole,
    /// The one set left is a better form.
    Better,
    /// An Open leaf where one set of items is left.
    OpenWhole,
    /// The vector settles no item and no stimulus.
    FixesNothing,
}

/// The verdict on a tree, with a form or none.
#[derive(Clone, Copy, Debug, PartialEq, Eq)]
pub enum Verdict {
    /// The form is best.
    Optimal,
    /// No set of items is a form.
    NoForm,
    /// All nodes are sound; so many leaves are Open.
    Partial(u16),
    /// This node, counted from 0 in preorder, is the first unsound one.
    Bad(u16, Reason),
}
