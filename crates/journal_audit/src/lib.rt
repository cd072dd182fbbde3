//! The audit of a journal of either version: every record of it is judged, its proof tree included,
//! with one record in memory at a time. Upward it promises that the summary and the exposure, in
//! all and in each band, are those of the history that the file represents, that each fault is the
//! first thing that is wrong with the file, and that the file is not changed. It holds no form and
//! no search.
#![tactic(auto)]

mod auditing;
mod report;

pub use auditing::{audit, audit_disk};
