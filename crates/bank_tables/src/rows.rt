//! The rows of an item bank, as a text or a program gives them.

use crate::list::List;

/// One item.
#[derive(Debug, Drop)]
pub struct ItemRow {
    /// The number of its stimulus (a passage that several items share), from 1 on; 0 for none.
    pub stimulus: u32,
    /// The number of its response categories.
    pub categories: u32,
    /// A value of each quantity, such as a word count.
    pub quantities: List<u32>,
    /// The information at each grid point.
    pub info: List<u32>,
    /// The log-likelihood of each response at each grid point, response by response.
    pub loglik: List<i32>,
}

/// The rows of a bank; item `i` is row `i`.
#[derive(Debug, Drop)]
pub struct Rows {
    /// The number of points of the ability grid.
    pub grid: u32,
    /// The number of quantities.
    pub quantities: u32,
    pub items: List<ItemRow>,
}
