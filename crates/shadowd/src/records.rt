//! The count and the digest of the records in a journal's file.

ghost use Rattle.std.specs.Prelude.{◌≤◌, length};

use answer_journal::{Journal, Walk};
use exam_text::push_hex;
use host_edge::{HostDisk, Lines};
use host_stream::HostJournal;
use journal_stream::JournalTail;
use record_links::{Asked, GrowingLog};
use sha2::{Digest, Sha256};
use std::fs;

/// The greatest length of a journal, in bytes, whatever the plan.
const LONGEST: u64 = 536_870_912;

/// After so many waits at one record the server was asked for its count.
const WAITS: u32 = 10;

/// The records of a journal: how many there are, and the SHA-256 of them, each as a file of the
/// second version has it, with its open gate, its length and its payload.
#[derive(Drop)]
struct Records {
    count: u64,
    digest: [u8; 32],
}

/// The records so far.
#[derive(Drop)]
struct Counted {
    count: u64,
    hasher: Sha256,
}

impl Counted {
    fn new() -> Counted {
        Counted {
            count: 0,
            hasher: Sha256::new(),
        }
    }

    // Counts the record of a payload.
    fn add(&mut self, payload: &[u8])
        requires { length payload.now ≤ 131072 }
    {
        self.hasher.update(&[1u8]);
        self.hasher.update(&(payload.len() as u32).to_be_bytes());
        self.hasher.update(payload);
        self.count = self.count.saturating_add(1);
    }

    fn finish(self) -> Records {
        Records {
            count: self.count,
            digest: self.hasher.finalize(),
        }
    }
}

// The records that a walk still has to give.
fn records_of(rt: &HostRuntime, walk: &mut Walk<&mut HostDisk>) -> Option<Records> {
    let mut counted = Counted::new();
    let mut payload = Vec::new(rt.alloc());
    'records: for _ in 0..u64::MAX {
        match walk.next(rt.alloc(), &mut payload) {
            Ok(Some(_)) => counted.add(payload.as_slice()),
            Ok(None) => break 'records,
            Err(_) => return None,
        }
    }
    Some(counted.finish())
}

// The records that are settled, as far as the file and its server show it now.
fn settled_records(rt: &HostRuntime, log: &mut JournalTail<HostJournal>) -> Option<Records> {
    let mut counted = Counted::new();
    let mut waits = 0u32;
    'records: for _ in 0..u64::MAX {
        match log.ask(rt.alloc(), counted.count) {
            Ok(Asked::Record(payload)) => counted.add(payload.as_slice()),
            Ok(Asked::NotYet) if waits < WAITS => {
                waits += 1;
                log.wait();
            }
            Ok(_) => break 'records,
            Err(_) => return None,
        }
    }
    Some(counted.finish())
}

// The records of a disk whose journal is of the second version, or was moved to it.
fn read_records(rt: &HostRuntime, disk: &mut HostDisk) -> Option<Records> {
    match Journal::walk(disk, LONGEST) {
        Ok(walk) => {
            let mut walk = walk;
            let found = match walk.record_version() {
                2 => records_of(rt, &mut walk),
                _ => None,
            };
            let _ = walk.stop();
            found
        }
        Err(_) => None,
    }
}

// The number of the record at a place, from 0, if a walk comes to it.
fn number_at(rt: &HostRuntime, walk: &mut Walk<&mut HostDisk>, place: u64) -> Option<u64> {
    let mut payload = Vec::new(rt.alloc());
    'records: for number in 0..u64::MAX {
        match walk.next(rt.alloc(), &mut payload) {
            Ok(Some(at)) if at == place => return Some(number),
            Ok(Some(_)) => {}
            _ => break 'records,
        }
    }
    None
}

/// The number of the record whose gate is at a place of a journal's file, if there is a place, and
/// a record at it. Records count from 0. The file is read, and not changed.
pub fn number_in(rt: &HostRuntime, disk: &mut HostDisk, place: Option<u64>) -> Option<u64> {
    let place = place?;
    match Journal::walk(disk, LONGEST) {
        Ok(walk) => {
            let mut walk = walk;
            let number = number_at(rt, &mut walk, place);
            let _ = walk.stop();
            number
        }
        Err(_) => None,
    }
}

// Writes the line of these records.
fn tell(rt: &HostRuntime, lines: &Lines, journal: &str, records: &Records) {
    let mut digits = Vec::new(rt.alloc());
    if push_hex(rt.alloc(), &mut digits, records.digest.as_slice()).is_err() {
        return;
    }
    if let Ok(digest) = String::from_utf8(digits) {
        let count = records.count;
        lines.tell_of(journal, format_args!("{count} records, SHA-256 {digest}"));
    }
}

/// Writes a line to standard error with the count and the digest of the records in the file of this
/// path, if it is there. It is read, and not changed.
pub fn tell_records(rt: &HostRuntime, lines: &Lines, journal: &str) {
    if fs::metadata(rt, journal).is_err() {
        return;
    }
    let Ok(path) = String::from_str(rt.alloc(), journal) else {
        return;
    };
    let Ok(shared) = lines.share() else {
        return;
    };
    let mut disk = HostDisk::to_read(*rt, path).telling(shared);
    if let Some(records) = read_records(rt, &mut disk) {
        tell(rt, lines, journal, &records);
    }
}

/// Writes a line to standard error with the count and the digest of the records that the server at
/// an address has settled in the file of this path, if there is one. The file is read, without a
/// lock, and not changed.
pub fn tell_settled(rt: &HostRuntime, lines: &Lines, journal: &str, server: &str) {
    if fs::metadata(rt, journal).is_err() {
        return;
    }
    let Ok(path) = String::from_str(rt.alloc(), journal) else {
        return;
    };
    let Ok(address) = String::from_str(rt.alloc(), server) else {
        return;
    };
    let mut log = JournalTail::new(HostJournal::quiet(*rt, path, address));
    if let Some(records) = settled_records(rt, &mut log) {
        tell(rt, lines, journal, &records);
    }
    let _ = log.into_file();
}
