//! What a reader must believe about form series: the nodes of a series tree and its verdict, and in
//! specs/ the definitions of a series, its value, the best series, the paths of branch and bound
//! over several forms, the relaxed maximum and the verdict. Upward it promises the laws over them;
//! it never computes anything.
#![tactic(auto)]

pub mod laws;
mod node;
mod verdict;

pub use node::SeriesNode;
pub use verdict::SeriesVerdict;
