//! A follower over an office: a second journal, kept from the records of a leader, that another
//! machine takes over with; and an office's journal as a log to ship from. Upward: an offer is
//! delivered as the world of `record_links` has it, judged by the rules of examinations as a
//! request's own entry is; a stop at any call of the disk leaves the records, those with the one in
//! doubt, or either with the record taken; and the office that a takeover goes on with has every
//! record that was answered for.
#![tactic(auto)]

mod delivering;
mod fault;
mod follower;
pub mod laws;
mod office_log;
mod replica;

pub use fault::DeliverFault;
pub use follower::Follower;
pub use office_log::OfficeLog;
