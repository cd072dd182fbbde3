//! What a stream of records has of the host: the journal's file, which its server writes meanwhile,
//! that server's count of entries, and the connection to the follower. Upward: a call answers
//! `Failed` exactly where it counted a fault. It reports no content, so that nothing is claimed of
//! what a file or a socket holds. It never writes the file, and takes no lock.
#![tactic(auto)]

mod follower;
mod journal;
mod pace;
mod server;

pub use follower::HostFollower;
pub use journal::HostJournal;
