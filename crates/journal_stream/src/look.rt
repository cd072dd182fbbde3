//! What is after a gate of a file that grows.
ghost use Rattle.std.specs.Prelude.{◌≡◌, ◌⊎◌, ◌<◌, ◌≤◌, ◌∷◌, ℕ, true, IsTrue, IfOk, IfErr, length, take};
ghost use Rattle.std.specs.Int.{to_be_bytes, w32};
ghost use Rattle.exam_edge.specs.Faults.{Rose};
ghost use Rattle.record_links.specs.Streaming.{IsGrown};
ghost use Rattle.journal_stream.specs.Look.{IsHead, IsReadFrom};
ghost use Rattle.journal_stream.specs.Tail.{Finds, IsFitting, IsGateOf};

use crate::GrowingFile;
use record_links::AskFault;
use std::alloc::{AllocError, Global};

/// The gate of a record that counts.
const OPEN: u8 = 1;

/// The length of the longest payload, in bytes.
const MAX_PAYLOAD: usize = 131_072;

/// What was found at a gate.
#[derive(Drop)]
pub enum Look {
    /// The payload of a settled record.
    Record(Vec<u8>),
    /// No record: the gate is closed.
    Closed,
    /// A record that may not be on the disk yet.
    Unsettled,
}

/// What the first bytes from a gate on begin.
#[derive(Clone, Copy)]
pub enum Head {
    /// No record: the gate is closed, or lacks.
    Closed,
    /// A payload of so many bytes.
    Payload(usize),
    /// Nothing that a journal has.
    Unknown,
}

/// What a gate and the four bytes after it begin, as far as they are there.
pub fn head_in(head: &[u8]) -> Head
    ensures { IsHead head.now result }
{
    if head.is_empty() || head[0] != OPEN {
        return Head::Closed;
    }
    if head.len() < 5 {
        return Head::Unknown;
    }
    let size = u32::from_be_bytes([head[1], head[2], head[3], head[4]]) as usize;
    if size == 0 || MAX_PAYLOAD < size {
        return Head::Unknown;
    }
    Head::Payload(size)
}

// Whether bytes begin with an open gate and the length of a payload of so many bytes.
fn has_head(bytes: &[u8], size: usize) -> bool
    requires few { size ≤ 131072 }
    requires long { 5 ≤ length bytes.now }
    ensures { result ≡ true → take 5 bytes.now ≡ 1 ∷ to_be_bytes w32 size }
{
    bytes[0] == OPEN && bytes[1..5] == (size as u32).to_be_bytes()[..]
}

// The record whose payload has so many bytes, where these bytes from its gate on have its frame and
// so many bytes more.
fn record_in(alloc: Global, bytes: &[u8], size: usize, more: usize) -> Result<Look, AllocError>
    requires some { 1 ≤ size }
    requires few { size ≤ 131072 }
    requires more { more ≤ 2 }
    ensures { IfOk result (IsReadFrom bytes.now more) }
{
    if bytes.len() < size + 5 + more || !has_head(bytes, size) {
        return Ok(Look::Unsettled);
    }
    let payload = bytes[5..5 + size].to_vec(alloc)?;
    Ok(Look::Record(payload))
}

// How many bytes are to be there after the payload of a record, unless it is known to be settled:
// the next gate, and a byte of the next record.
fn bytes_after(is_told: bool) -> usize
    ensures why { (is_told ≡ true) ⊎ (result ≡ 2) }
    ensures few { result ≤ 2 }
{
    if is_told { 0 } else { 2 }
}

// Reads the frame of a payload of so many bytes after the gate at a place into a buffer. It is that
// of a settled record where the record is known to be settled, or where the next record begins
// after its gate.
fn read_frame<F: GrowingFile>(
    alloc: Global,
    file: &mut F,
    at: u64,
    buffer: &mut [u8],
    size: usize,
    is_told: bool,
) -> Result<Look, AskFault>
    requires some { 1 ≤ size }
    requires size { size ≤ 131072 }
    ensures finds { IfOk result (λ look. IsTrue (F.tells file.old) → (number : ℕ)
        → IsGateOf (F.moved file.old) (F.settled file.old) number at
        → (is_told ≡ true → number < length (F.settled file.old))
        → Finds (F.settled file.new) number look) }
    ensures fits { IfOk result IsFitting }
    ensures grown { IsTrue (F.tells file.old)
        → IsGrown (F.settled file.old) (F.settled file.new) }
    ensures moved { F.moved file.new ≡ F.moved file.old }
    ensures tells { F.tells file.new ≡ F.tells file.old }
    ensures failed { IfErr result (λ e. e ≡ AskFault.Disk
        → Rose (F.faults file.old) (F.faults file.new)) }
    ensures grows { F.faults file.old ≤ F.faults file.new }
{
    let Ok(count) = file.read(at, buffer) else {
        return Err(AskFault::Disk);
    };
    match record_in(alloc, &buffer[..count], size, bytes_after(is_told)) {
        Ok(found) => Ok(found),
        Err(_) => Err(AskFault::Memory),
    }
}

// The same, with room for the next gate, and a byte after it.
fn read_record<F: GrowingFile>(
    alloc: Global,
    file: &mut F,
    at: u64,
    size: usize,
    is_told: bool,
) -> Result<Look, AskFault>
    requires some { 1 ≤ size }
    requires size { size ≤ 131072 }
    ensures finds { IfOk result (λ look. IsTrue (F.tells file.old) → (number : ℕ)
        → IsGateOf (F.moved file.old) (F.settled file.old) number at
        → (is_told ≡ true → number < length (F.settled file.old))
        → Finds (F.settled file.new) number look) }
    ensures fits { IfOk result IsFitting }
    ensures grown { IsTrue (F.tells file.old)
        → IsGrown (F.settled file.old) (F.settled file.new) }
    ensures moved { F.moved file.new ≡ F.moved file.old }
    ensures tells { F.tells file.new ≡ F.tells file.old }
    ensures failed { IfErr result (λ e. e ≡ AskFault.Disk
        → Rose (F.faults file.old) (F.faults file.new)) }
    ensures grows { F.faults file.old ≤ F.faults file.new }
{
    match vec![in alloc; 0u8; size + 7] {
        Ok(bytes) => {
            let mut bytes = bytes;
            read_frame(alloc, file, at, &mut bytes, size, is_told)
        }
        Err(_) => Err(AskFault::Memory),
    }
}

/// Looks at the gate at a place. Whether its record is known to be settled.
pub fn look_at<F: GrowingFile>(
    alloc: Global,
    file: &mut F,
    at: u64,
    is_told: bool,
) -> Result<Look, AskFault>
    ensures finds { IfOk result (λ look. IsTrue (F.tells file.old) → (number : ℕ)
        → IsGateOf (F.moved file.old) (F.settled file.old) number at
        → (is_told ≡ true → number < length (F.settled file.old))
        → Finds (F.settled file.new) number look) }
    ensures fits { IfOk result IsFitting }
    ensures grown { IsTrue (F.tells file.old)
        → IsGrown (F.settled file.old) (F.settled file.new) }
    ensures moved { F.moved file.new ≡ F.moved file.old }
    ensures tells { F.tells file.new ≡ F.tells file.old }
    ensures failed { IfErr result (λ e. e ≡ AskFault.Disk
        → Rose (F.faults file.old) (F.faults file.new)) }
    ensures grows { F.faults file.old ≤ F.faults file.new }
{
    let mut head = [0u8; 5];
    let Ok(count) = file.read(at, &mut head) else {
        return Err(AskFault::Disk);
    };
    match head_in(&head[..count]) {
        Head::Closed => Ok(Look::Closed),
        Head::Payload(size) => read_record(alloc, file, at, size, is_told),
        Head::Unknown => {
            file.refuse(at);
            Err(AskFault::Disk)
        }
    }
}
