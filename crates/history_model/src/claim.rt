//! What an entry claims of its proof tree.

/// What an entry claims of its proof tree.
#[derive(Clone, Copy, Debug, PartialEq, Eq)]
pub enum Claim {
    /// The form is best.
    FormIsBest,
    /// No set is a form.
    NoneIsForm,
    /// The node budget is spent.
    BudgetIsSpent,
}
