//! A follower of a leader's records: what the two say to one another over a link, and what the
//! follower keeps of it. Upward: over every loss, repeat and stop its records are a beginning of
//! the leader's, with at least as many as it ever answered. A link leaves it where the offers that
//! were read leave it, in their order, and what it wrote is the counts after them; the leader's
//! side wrote the offer of each record that was asked for. Who keeps the records, and from where
//! they are shipped, are traits.
#![tactic(auto)]

mod fault;
mod followed;
mod following;
mod growing_log;
mod have;
mod kept;
pub mod laws;
mod memory;
mod offer;
mod record_log;
mod replica;
mod shipping;
mod streaming;
mod writing;

pub use fault::PeerFault;
pub use followed::Followed;
pub use following::follow_link;
pub use growing_log::{AskFault, Asked, GrowingLog};
pub use memory::MemoryRecords;
pub use record_log::{LogFault, RecordLog};
pub use replica::{Replica, TakeFault};
pub use shipping::ship_link;
pub use streaming::stream_link;

#[cfg(test)]
mod tests;
