//! The outcome of an assembly.

use bank_tables::ItemSet;

/// The outcome of an assembly.
#[derive(Clone, Copy, Debug, PartialEq, Eq)]
pub enum Outcome {
    /// A form; proved, it is best, else the node budget was spent.
    Found { form: ItemSet, proved: bool },
    /// No set of items is a form.
    NoForm,
    /// The node budget was spent, and no form was found.
    NoneFound,
}
