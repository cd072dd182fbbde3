//! The outside of the host, as the traits of `exam_edge` have it: its files, standard output, the
//! journal's file, a listener and its connections, and a connection to an address. Upward: a call
//! answers `Failed` exactly where the system's call failed or moved more bytes than there is room
//! for, and each such call is counted. It makes an interrupted call again. It reports no content,
//! so that nothing is claimed of what a file or a socket holds.
#![tactic(auto)]

mod again;
mod candidates;
mod closing;
mod connection;
mod cut_tail;
mod fault_count;
mod file_watch;
mod health;
mod host_disk;
mod host_door;
mod host_files;
mod host_link;
mod host_sink;
mod idle_streams;
mod journal_file;
mod lines;
mod reserve;
mod threads;
mod trouble;
mod whole;

pub use again::{connect_within, read_at_again};
pub use closing::Closing;
pub use host_disk::HostDisk;
pub use host_door::HostDoor;
pub use host_files::HostFiles;
pub use host_link::{HostLink, Patience};
pub use host_sink::HostSink;
pub use journal_file::Access;
pub use lines::{LineCopier, Lines};
pub use reserve::{Reserve, ReserveKeeper};
