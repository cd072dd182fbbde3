//! A plan as a text or a program gives it.

use crate::row::{Row, StimulusBound};
use bank_tables::{ItemSet, List};

/// The exposure rate `num / den`.
#[derive(Clone, Copy, Debug, PartialEq, Eq)]
pub struct Rate {
    pub num: u32,
    pub den: u32,
}

/// The numbers of a plan, before they are tested against an item bank.
#[derive(Debug, Drop)]
pub struct Draft {
    /// Items per test.
    pub length: u32,
    /// The logarithm of the prior at each grid point, in the unit of the bank's log-likelihoods.
    pub prior: List<i32>,
    /// The constraints, numbered from 0.
    pub rows: List<Row>,
    /// The bounds of each stimulus: those of stimulus `s` at `s - 1`.
    pub bounds: List<StimulusBound>,
    pub rate: Rate,
    /// The key of the eligibility draw (ChaCha20, RFC 8439).
    pub key: [u8; 32],
    /// The grid points at which a new band of abilities begins, in rising order; none where there
    /// is one band.
    pub bands: List<u8>,
    /// Nodes of a proof tree for a step, at most.
    pub budget: u32,
    /// The same for the base form.
    pub base_budget: u32,
    /// Sessions, at most.
    pub sessions: u32,
    /// Bytes of the journal, at most.
    pub journal: u64,
    /// A form that meets the plan, if the plan names one.
    pub base: Option<ItemSet>,
}
