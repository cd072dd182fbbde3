//! The best multipliers of a path of branches, by exchanges from vertex to vertex of the linear
//! relaxation (the dual simplex method for variables with two bounds; Lemke, The Dual Method of
//! Solving the Linear Programming Problem, 1954; Wagner, The Dual Simplex Algorithm for Bounded
//! Variables, 1958), with long steps (Fourer, Notes on the Dual Simplex Method, 1994). It promises
//! no more than that it is safe and ends. All its numbers are whole, and its sums are written to
//! wrap, so that they need no proof: who relies on a bound computes it anew from the vector.
//!
//! Words: a *column* is a free item of the root, or a stimulus that may be chosen there; a *line*
//! is the length, a row of the plan, or a bound of a stimulus; *cells* are the coefficients that
//! are not 0. At a *vertex* some lines are *tight*, and as many columns are *basic*; each other
//! column *stands* at 0 or at 1. An *exchange* lets a column or line that is out of its bounds
//! leave, and another one enter.
#![tactic(auto)]

mod breaks;
mod choice;
mod direction;
mod given;
mod inverse;
mod leaving;
mod multipliers;
mod numbers;
mod pivot;
mod refresh;
mod relaxation;
mod run;
mod values;
mod vertex;
mod workspace;

pub use choice::Fraction;
pub use given::{Columns, Given};
pub use multipliers::vector_towards;
pub use proof_tree::Memory;
pub use relaxation::{PathSets, Relaxation};
pub use run::Reached;
pub use vertex::Vertex;
pub use workspace::Workspace;
