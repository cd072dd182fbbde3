//! What a series tree is judged for.

use bank_tables::Bank;
use constraint_model::Spec;

/// An item bank, a plan, the weight of each grid point, and the number of forms.
#[derive(Clone, Copy)]
pub struct Setting<'a> {
    pub bank: &'a Bank,
    pub spec: &'a Spec,
    pub weights: &'a [u32],
    pub forms: u8,
}
