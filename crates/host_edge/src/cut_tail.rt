//! What follows the closed gate at which a journal ends. It is about to be cut.

ghost use Rattle.std.specs.Prelude.{◌≤◌, IfSome};

use crate::again::read_at_again;
use crate::journal_file::sync_folder;
use std::alloc::AllocError;
use std::fs::{File, OpenOptions};
use std::io::ErrorKind;
use std::os::unix::fs::{FileExt, OpenOptionsExt};
use std::{fs, io};

// The greatest length of a payload in bytes.
const MOST_PAYLOAD: u32 = 131_072;

// An open gate.
const OPEN: u8 = 1;

// The first byte of a payload that is kept for a move to another version of the format.
const MOVED: u8 = 8;

// The length of a header in bytes: the first gate is there.
const HEADER: u64 = 8;

// How many names are tried for a copy.
const MOST_NAMES: u32 = 1000;

// A record that is whole, with a gate behind it.
#[derive(Clone, Copy)]
struct WholeRecord {
    // The first byte of its payload.
    kind: u8,
    // The place of the gate behind it.
    gate: u64,
    // Whether that gate is open.
    is_open: bool,
}

/// What follows a closed gate and is to be kept.
#[derive(Clone, Copy)]
pub struct Tail {
    /// How many whole records, if the gate before the first of them were open.
    pub records: u64,
    /// How many bytes.
    pub bytes: u64,
}

// The whole records that follow a gate.
#[derive(Clone, Copy)]
struct Following {
    // How many they are, if that gate were open.
    records: u64,
    // Whether the first of them is the mark of a move.
    is_of_move: bool,
}

// The length of a payload by its four bytes, big-endian; nothing where no payload has that length.
fn payload_length(bytes: [u8; 4]) -> Option<u32>
    ensures { IfSome result (λ n. (1 ≤ n) × (n ≤ 131072)) }
{
    let length = u32::from_be_bytes(bytes);
    if 1 <= length && length <= MOST_PAYLOAD {
        Some(length)
    } else {
        None
    }
}

// Fills the buffer from a place of the file on: whether the file has so many bytes.
fn is_filled(file: &File, at: u64, buffer: &mut [u8]) -> io::Result<bool> {
    match file.read_exact_at(buffer, at) {
        Ok(()) => Ok(true),
        Err(cause) if cause.kind() == ErrorKind::UnexpectedEof => Ok(false),
        Err(cause) => Err(cause),
    }
}

// The record whose length is at a place, if it is whole.
fn record_at(file: &File, at: u64) -> io::Result<Option<WholeRecord>> {
    let mut front = [0u8; 5];
    if !is_filled(file, at, &mut front)? {
        return Ok(None);
    }
    let [a, b, c, d, kind] = front;
    let Some(length) = payload_length([a, b, c, d]) else {
        return Ok(None);
    };
    let place = at.saturating_add(4 + u64::from(length));
    let mut gate = [0u8; 1];
    if !is_filled(file, place, &mut gate)? {
        return Ok(None);
    }
    Ok(Some(WholeRecord {
        kind,
        gate: place,
        is_open: gate[0] == OPEN,
    }))
}

// The whole records that follow the gate at a place.
fn records_after(file: &File, gate: u64) -> io::Result<Following> {
    let mut at = gate.saturating_add(1);
    let mut found = Following {
        records: 0,
        is_of_move: false,
    };
    for counted in 0..u64::MAX {
        let Some(record) = record_at(file, at)? else {
            break;
        };
        found.records = counted + 1;
        if counted == 0 {
            found.is_of_move = record.kind == MOVED;
        }
        if !record.is_open {
            break;
        }
        at = record.gate.saturating_add(1);
    }
    Ok(found)
}

// How many whole records are before the gate at a place, from the first gate on.
fn records_before(file: &File, gate: u64) -> io::Result<u64> {
    let mut at = HEADER + 1;
    for counted in 0..u64::MAX {
        if at > gate {
            return Ok(counted);
        }
        let Some(record) = record_at(file, at)? else {
            return Ok(counted);
        };
        at = record.gate.saturating_add(1);
    }
    Ok(u64::MAX)
}

/// What follows the closed gate at a place of the file, where it is to be kept: two or more whole
/// records. A move that did not end is not kept: its mark is followed by no more records than are
/// before the gate, and it repeats them.
pub fn tail_of(file: &File, gate: u64) -> io::Result<Option<Tail>> {
    let Following {
        records,
        is_of_move,
    } = records_after(file, gate)?;
    if records < 2 || is_of_move && records - 1 <= records_before(file, gate)? {
        return Ok(None);
    }
    let length = file.metadata()?.len();
    Ok(Some(Tail {
        records,
        bytes: length.saturating_sub(gate.saturating_add(1)),
    }))
}

// Makes a file for the bytes behind the gate at a place, which its owner alone may use, and gives
// its path. A name that is taken gets a number.
fn new_copy(rt: &HostRuntime, journal: &str, gate: u64) -> io::Result<(String, File)> {
    for number in 1..=MOST_NAMES {
        let name = copy_name(rt, journal, gate, number)?;
        let made = OpenOptions::new()
            .write(true)
            .create_new(true)
            .mode(0o600)
            .open(rt, name.as_str());
        match made {
            Ok(file) => return Ok((name, file)),
            Err(cause) if cause.kind() == ErrorKind::AlreadyExists => {}
            Err(cause) => return Err(cause),
        }
    }
    Err(io::Error::from(ErrorKind::AlreadyExists))
}

// The name with this number of a copy of the bytes behind the gate at a place.
fn copy_name(
    rt: &HostRuntime,
    journal: &str,
    gate: u64,
    number: u32,
) -> Result<String, AllocError> {
    let alloc = rt.alloc();
    if number == 1 {
        format!(in alloc; "{journal}.cut-{gate}")
    } else {
        format!(in alloc; "{journal}.cut-{gate}.{number}")
    }
}

// Copies a file from a place on to another file, and syncs that.
fn copy_from(file: &File, from: u64, copy: &File) -> io::Result<()> {
    let mut piece = [0u8; 4096];
    let mut done = 0u64;
    for _ in 0..u64::MAX {
        let count = read_at_again(file, from.saturating_add(done), &mut piece)?;
        if count == 0 {
            return copy.sync_all();
        }
        copy.write_all_at(&piece[..count], done)?;
        done = done.saturating_add(count as u64);
    }
    copy.sync_all()
}

/// Keeps the bytes behind the closed gate at a place of a journal in a file of their own, beside
/// it, and gives the path of that file. An error where they are not all on the disk then; no part
/// of a copy is left.
pub fn keep_tail(rt: &HostRuntime, journal: &str, file: &File, gate: u64) -> io::Result<String> {
    let (name, copy) = new_copy(rt, journal, gate)?;
    let kept = copy_from(file, gate.saturating_add(1), &copy).and_then(|()| sync_folder(
        rt,
        name.as_str(),
    ));
    match kept {
        Ok(()) => Ok(name),
        Err(cause) => {
            let _ = fs::remove_file(rt, name.as_str());
            Err(cause)
        }
    }
}
