//! The stream of a journal that a server writes meanwhile.

use crate::records::tell_settled;
use host_edge::Lines;
use host_stream::{HostFollower, HostJournal};
use journal_stream::{JournalTail, stream_door};
use record_doors::DoorEnd;
use record_links::{Followed, PeerFault};
use std::alloc::AllocError;
use std::process::ExitCode;
use std::sync::Wait;

/// The text and the status of a stream that ended.
#[derive(Clone, Copy)]
struct Ended {
    text: &'static str,
    status: u8,
}

const NO_DISK: Ended = Ended {
    text: "disk failed",
    status: 9,
};

const NO_LINK: Ended = Ended {
    text: "link failed",
    status: 19,
};

const NO_PEER: Ended = Ended {
    text: "peer message",
    status: 20,
};

/// The status of a program whose standard output failed.
const NO_OUTPUT: u8 = 8;

/// How a stream ended.
fn ended_of(end: DoorEnd) -> Ended {
    match end {
        DoorEnd::Ended(Followed::Disk) => NO_DISK,
        DoorEnd::Ended(Followed::Memory) => Ended {
            text: "no memory",
            status: 10,
        },
        DoorEnd::Ended(Followed::Peer(_)) => NO_PEER,
        _ => NO_LINK,
    }
}

/// Writes a line to standard error on what the follower did.
fn explain_peer(lines: &Lines, end: DoorEnd) {
    let DoorEnd::Ended(Followed::Peer(fault)) = end else {
        return;
    };
    match fault {
        PeerFault::Above(count) => lines.tell(format_args!(
            "the follower has {count} records, more than this journal"
        )),
        PeerFault::Kind(kind) => lines.tell(format_args!(
            "the follower sent a message of kind {kind}, and no count"
        )),
        _ => lines.tell("the follower sent no count"),
    }
}

/// Writes a line with the count and the digest of the records so far, and then streams the journal
/// of the server at an address to a follower at another, until it fails.
pub fn stream_journal<R: Wait>(
    waiting: &R,
    rt: &HostRuntime,
    lines: &Lines,
    journal: String,
    server: String,
    follower: String,
) -> Result<ExitCode, AllocError> {
    tell_settled(rt, lines, journal.as_str(), server.as_str());
    let file = HostJournal::of(rt.clone()?, lines.share()?, journal, server);
    let mut door = HostFollower::of(rt.clone()?, lines.share()?, follower);
    let mut log = JournalTail::new(file);
    let end = stream_door(waiting, rt.alloc(), &mut log, &mut door);
    let _ = log.into_file();
    explain_peer(lines, end);
    let Ended { text, status } = ended_of(end);
    match println!(rt; "{text}") {
        Ok(()) => Ok(ExitCode::from(status)),
        Err(_) => Ok(ExitCode::from(NO_OUTPUT)),
    }
}
