//! Where the first record that counts is found.
ghost use Rattle.std.specs.Prelude.{◌≡◌, ◌≤◌, ◌+◌, IsTrue, IfOk, IfErr};
ghost use Rattle.std.specs.Option.{ForSome};
ghost use Rattle.exam_edge.specs.Faults.{Rose};
ghost use Rattle.record_links.specs.Streaming.{IsGrown};
ghost use Rattle.journal_stream.specs.First.{IsHeader, IsOldGate, IsOldHead, IsPassed};
ghost use Rattle.journal_stream.specs.Served.{first_of};

use crate::GrowingFile;
use crate::look::{Head, head_in};
use record_links::AskFault;

/// The first bytes of a journal of the second version.
const SECOND_HEADER: [u8; 8] = [b'S', b'H', b'A', b'D', b'O', b'W', b'J', b'2'];

/// The first bytes of a journal of the first version. One that was moved keeps them.
const FIRST_HEADER: [u8; 8] = [b'S', b'H', b'A', b'D', b'O', b'W', b'J', b'1'];

/// The byte of the payload that moves a journal: the records after it count, and those before it do
/// not.
const MARK: u8 = 8;

/// The place of the first gate of a file.
pub const FIRST: u64 = 8;

/// The greatest length of a journal, in bytes.
pub const LONGEST: u64 = 536_870_912;

/// What the first bytes of a file are.
#[derive(Clone, Copy)]
pub enum Header {
    /// The header of the first version.
    First,
    /// The header of the second version.
    Second,
    /// Another one.
    Other,
    /// None yet: header and gate are not there.
    Short,
}

/// What is after the gate of an old record.
#[derive(Clone, Copy)]
pub enum Old {
    /// The mark.
    Mark,
    /// An old record, whose payload has so many bytes.
    Payload(usize),
    /// Nothing that a journal has there.
    Unknown,
}

// The header that some bytes begin with, if a gate follows it.
fn header_in(bytes: &[u8]) -> Header
    ensures { IsHeader bytes.now result }
{
    if bytes.len() < 9 {
        return Header::Short;
    }
    if bytes[..8] == SECOND_HEADER[..] {
        return Header::Second;
    }
    if bytes[..8] == FIRST_HEADER[..] {
        return Header::First;
    }
    Header::Other
}

// What a gate and the five bytes after it begin, if they are there.
fn old_in(head: &[u8]) -> Old
    ensures { IsOldHead head.now result }
{
    if head.len() < 6 {
        return Old::Unknown;
    }
    match head_in(head) {
        Head::Payload(size) => {
            if size != 1 {
                return Old::Payload(size);
            }
            if head[5] == MARK {
                return Old::Mark;
            }
            Old::Payload(size)
        }
        _ => Old::Unknown,
    }
}

// The length of the payload after the gate at a place of a journal of the first version; none for
// the mark. A journal that was not moved has a closed gate there at last, and is refused.
fn pass_old<F: GrowingFile>(file: &mut F, at: u64) -> Result<Option<usize>, AskFault>
    ensures passes { IfOk result (λ found. IsTrue (F.tells file.old)
        → IsOldGate (F.moved file.old) at → IsPassed (F.moved file.old) at found) }
    ensures few { IfOk result (λ found. ForSome found (λ size. size ≤ 131072)) }
    ensures grown { IsTrue (F.tells file.old)
        → IsGrown (F.settled file.old) (F.settled file.new) }
    ensures moved { F.moved file.new ≡ F.moved file.old }
    ensures tells { F.tells file.new ≡ F.tells file.old }
    ensures failed { IfErr result (λ e. e ≡ AskFault.Disk
        → Rose (F.faults file.old) (F.faults file.new)) }
    ensures grows { F.faults file.old ≤ F.faults file.new }
{
    let mut head = [0u8; 6];
    let Ok(count) = file.read(at, &mut head) else {
        return Err(AskFault::Disk);
    };
    match old_in(&head[..count]) {
        Old::Mark => Ok(None),
        Old::Payload(size) => Ok(Some(size)),
        Old::Unknown => {
            file.refuse(at);
            Err(AskFault::Disk)
        }
    }
}

// The place of the gate after the mark of a journal of the first version.
fn find_mark<F: GrowingFile>(file: &mut F) -> Result<u64, AskFault>
    requires begins { IsTrue (F.tells file.old) → IsOldGate (F.moved file.old) 8 }
    ensures first { IfOk result (λ at. IsTrue (F.tells file.old)
        → at ≡ first_of (F.moved file.old)) }
    ensures past { IfOk result (λ at. 14 ≤ at) }
    ensures few { IfOk result (λ at. at ≤ 536870918) }
    ensures grown { IsTrue (F.tells file.old)
        → IsGrown (F.settled file.old) (F.settled file.new) }
    ensures moved { F.moved file.new ≡ F.moved file.old }
    ensures tells { F.tells file.new ≡ F.tells file.old }
    ensures failed { IfErr result (λ e. e ≡ AskFault.Disk
        → Rose (F.faults file.old) (F.faults file.new)) }
    ensures grows { F.faults file.old ≤ F.faults file.new }
{
    let mut at = FIRST;
    'old: while at <= LONGEST {
        match pass_old(file, at)? {
            Some(size) => at += 5 + size as u64,
            None => return Ok(at + 6),
        }
    }
    file.refuse(at);
    Err(AskFault::Disk)
}

/// The place of the gate of the first record that counts; none as long as the file has no whole
/// header and gate. A file with another header is refused, and so is a journal of the first version
/// that was not moved.
pub fn find_first<F: GrowingFile>(file: &mut F) -> Result<Option<u64>, AskFault>
    ensures first { IfOk result (λ found. ForSome found (λ at. IsTrue (F.tells file.old)
        → at ≡ first_of (F.moved file.old))) }
    ensures past { IfOk result (λ found. ForSome found (λ at. 8 ≤ at)) }
    ensures few { IfOk result (λ found. ForSome found (λ at. at ≤ 536870918)) }
    ensures grown { IsTrue (F.tells file.old)
        → IsGrown (F.settled file.old) (F.settled file.new) }
    ensures moved { F.moved file.new ≡ F.moved file.old }
    ensures tells { F.tells file.new ≡ F.tells file.old }
    ensures failed { IfErr result (λ e. e ≡ AskFault.Disk
        → Rose (F.faults file.old) (F.faults file.new)) }
    ensures grows { F.faults file.old ≤ F.faults file.new }
{
    let mut header = [0u8; 9];
    let Ok(count) = file.read(0, &mut header) else {
        return Err(AskFault::Disk);
    };
    match header_in(&header[..count]) {
        Header::Short => Ok(None),
        Header::Second => Ok(Some(FIRST)),
        Header::First => match find_mark(file) {
            Ok(at) => Ok(Some(at)),
            Err(fault) => Err(fault),
        },
        Header::Other => {
            file.refuse(0);
            Err(AskFault::Disk)
        }
    }
}
