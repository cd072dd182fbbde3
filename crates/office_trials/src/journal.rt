//! The journal: what is found after a call of the disk has failed, after a crash, and in a damaged
//! file. What is expected was worked out by hand from the format: header `SHADOWJ2`, then a gate at
//! place 8, and after each open gate a length of four bytes, the payload and the next gate.

ghost use Rattle.exam_edge.specs.MemoryDisk.{accounts_of};
ghost use Rattle.answer_journal.specs.Frames.{IsPayload};
ghost use Rattle.answer_journal.specs.Journal.{IsReady};
ghost use Rattle.answer_journal.specs.Standing.{IsAsLeft};

use crate::equal::expect_equal;
use crate::expected::expect_bytes;
use crate::outcome::disk_of;
use answer_journal::{Adopted, AppendFault, Frame, Journal, OpenFault, Payload};
use exam_edge::{Memory, MemoryDisk};
use std::alloc::Global;
use std::process::Abort;

pub(crate) const LIMIT: u64 = 100;

/// An answered record: session 0, step 0, response 1.
const ANSWER: [u8; 8] = [4, 0, 0, 0, 0, 0, 0, 1];

/// Header and a closed gate.
const EMPTY: [u8; 9] = [0x53, 0x48, 0x41, 0x44, 0x4f, 0x57, 0x4a, 0x32, 0];

/// Header, a closed gate, and the answered record whole after it: length, payload, closed gate.
const STAGED: [u8; 22] = [
    0x53, 0x48, 0x41, 0x44, 0x4f, 0x57, 0x4a, 0x32, 0, 0, 0, 0, 8, 4, 0, 0, 0, 0, 0, 0, 1, 0,
];

/// The same with the gate of the record open.
const ADDED: [u8; 22] = [
    0x53, 0x48, 0x41, 0x44, 0x4f, 0x57, 0x4a, 0x32, 1, 0, 0, 0, 8, 4, 0, 0, 0, 0, 0, 0, 1, 0,
];

/// Three records, with payloads of one, two and three bytes. Gates at 8, 14, 21 and 29.
const THREE: [u8; 30] = [
    0x53, 0x48, 0x41, 0x44, 0x4f, 0x57, 0x4a, 0x32, 1, 0, 0, 0, 1, 5, 1, 0, 0, 0, 2, 6, 7, 1, 0, 0,
    0, 3, 8, 9, 10, 0,
];

/// The same with two bytes after the gate that ends it.
const TRAILED: [u8; 32] = [
    0x53, 0x48, 0x41, 0x44, 0x4f, 0x57, 0x4a, 0x32, 1, 0, 0, 0, 1, 5, 1, 0, 0, 0, 2, 6, 7, 1, 0, 0,
    0, 3, 8, 9, 10, 0, 1, 1,
];

/// A journal of the first version that was moved: a payload of one byte, the mark, and one record
/// that counts. Gates at 8, 14, 20 and 27.
pub(crate) const MOVED: [u8; 28] = [
    0x53, 0x48, 0x41, 0x44, 0x4f, 0x57, 0x4a, 0x31, 1, 0, 0, 0, 1, 5, 1, 0, 0, 0, 1, 8, 1, 0, 0, 0,
    2, 6, 7, 0,
];

/// The same with two bytes after the gate that ends it.
const MOVED_TRAILED: [u8; 30] = [
    0x53, 0x48, 0x41, 0x44, 0x4f, 0x57, 0x4a, 0x31, 1, 0, 0, 0, 1, 5, 1, 0, 0, 0, 1, 8, 1, 0, 0, 0,
    2, 6, 7, 0, 1, 1,
];

/// A journal of the first version without a record that was moved. Gates at 8 and 14.
const MOVED_EMPTY: [u8; 15] = [
    0x53, 0x48, 0x41, 0x44, 0x4f, 0x57, 0x4a, 0x31, 1, 0, 0, 0, 1, 8, 0,
];

/// The same with the answered record whole after it.
const MOVED_STAGED: [u8; 28] = [
    0x53, 0x48, 0x41, 0x44, 0x4f, 0x57, 0x4a, 0x31, 1, 0, 0, 0, 1, 8, 0, 0, 0, 0, 8, 4, 0, 0, 0, 0,
    0, 0, 1, 0,
];

/// The same with the gate of the record open.
const MOVED_ADDED: [u8; 28] = [
    0x53, 0x48, 0x41, 0x44, 0x4f, 0x57, 0x4a, 0x31, 1, 0, 0, 0, 1, 8, 1, 0, 0, 0, 8, 4, 0, 0, 0, 0,
    0, 0, 1, 0,
];

/// The nine bytes of an empty journal, and each byte after them is 1.
const TORN: [u8; 22] = [
    0x53, 0x48, 0x41, 0x44, 0x4f, 0x57, 0x4a, 0x32, 0, 1, 1, 1, 1, 1, 1, 1, 1, 1, 1, 1, 1, 1,
];

/// How many records are found in a file, and how long it is then; or why it is no journal.
pub(crate) type Records = Result<(usize, u64), OpenFault>;

/// The disk after a file was opened, and what that gave.
pub(crate) fn open(alloc: Global, disk: MemoryDisk) -> (MemoryDisk, Records)
    requires { IsAsLeft (accounts_of disk) }
{
    match Journal::open(alloc, disk, LIMIT) {
        Ok((journal, payloads)) => {
            let length = journal.length();
            (journal.into_disk(), Ok((payloads.len(), length)))
        }
        Err((disk, fault)) => (disk, Err(fault)),
    }
}

/// In a file of these bytes so many records are found, and it is so long then; or this fault is.
pub(crate) fn expect_records<R: Abort>(rt: &R, alloc: Global, bytes: &[u8], expected: Records) {
    let (disk, records) = open(alloc, disk_of(rt, alloc, &[bytes], &[]));
    expect_equal(rt, &records, &expected);
}

/// A file that is opened by so many calls. From the call of the third number on the file is
/// changed, and then it has these bytes. So many records are found either way, and it is so long
/// then.
type Opening = (&'static [u8], u64, u64, &'static [u8], (usize, u64));

const OPENINGS: [Opening; 4] = [
    // A file of at most nine bytes: sync, length, cut, sync, write, sync.
    (&[], 6, 5, &EMPTY, (0, 9)),
    // A longer file of three records with bytes after its last gate: sync, length, header, each
    // gate, the last one twice, two for each record; then the bytes are put aside, the last open
    // gate and the closed one are read and written again, sync, cut, sync.
    (&TRAILED, 22, 21, &THREE, (3, 30)),
    // A longer file without such bytes: nothing is put aside.
    (&THREE, 21, 0, &THREE, (3, 30)),
    // A file of the first version that was moved, with bytes after its last gate: two payloads of
    // one byte are read to find the mark, and the mark's gate is read and written again too.
    (&MOVED_TRAILED, 22, 21, &MOVED, (1, 28)),
];

/// The file is opened with this call failing, which is one of the opening's calls or the next.
fn expect_opens<R: Abort>(
    rt: &R,
    alloc: Global,
    (file, calls, change, changed, records): &Opening,
    call: u64,
) {
    let bytes = if call < *change { file } else { changed };
    let expected = if call < *calls {
        Err(OpenFault::Disk)
    } else {
        Ok(*records)
    };
    let (disk, found) = open(alloc, disk_of(rt, alloc, &[file], &[call]));
    expect_equal(rt, &found, &expected);
    expect_bytes(rt, disk.bytes(), bytes);
    expect_records(rt, alloc, disk.bytes(), Ok(*records));
}

/// Each call of opening the file fails in turn.
fn expect_opens_at_each_call<R: Abort>(rt: &R, alloc: Global, row: &Opening) {
    for call in 0..row.1.saturating_add(1) {
        expect_opens(rt, alloc, row, call);
    }
}

#[test]
fn each_call_of_opening_fails(rt: HostRuntime) {
    for row in &OPENINGS {
        expect_opens_at_each_call(&rt, rt.alloc(), row);
    }
}

/// What became of a record: how adding it failed, and what mending gave then and once more where
/// that failed.
type Fate = (Option<AppendFault>, Option<Adopted>, Option<Adopted>);

/// The same, with the journal's length and the disk.
#[derive(Drop)]
struct Added {
    fate: Fate,
    length: u64,
    disk: MemoryDisk,
}

/// Adds a record, and resolves it where it is in doubt, unless it is to be left so.
fn add(journal: &mut Journal<MemoryDisk>, frame: &Frame, mends: bool) -> Fate
    requires { IsReady journal.old }
{
    let fault = journal.append(frame).err();
    let mut mended = None;
    let mut again = None;
    if mends && journal.in_doubt() {
        mended = journal.mend().ok();
        if journal.in_doubt() {
            again = journal.mend().ok();
        }
    }
    (fault, mended, again)
}

/// The same in the journal of a disk; what is on the disk then.
fn add_over<R: Abort>(rt: &R, alloc: Global, disk: MemoryDisk, frame: &Frame, mends: bool) -> Added
    requires { IsAsLeft (accounts_of disk) }
{
    match Journal::open(alloc, disk, LIMIT) {
        Ok((journal, _)) => {
            let mut journal = journal;
            let fate = add(&mut journal, frame, mends);
            let length = journal.length();
            Added {
                fate,
                length,
                disk: journal.into_disk(),
            }
        }
        Err(_) => panic!(rt; "not opened"),
    }
}

/// The frame of a payload.
fn frame_of(alloc: Global, payload: &[u8]) -> Result<Frame, Memory>
    requires { IsPayload payload.now }
{
    let mut bytes = Frame::room(alloc)?;
    bytes.extend_from_slice(payload)?;
    Frame::of(bytes)
}

/// Adds the answered record to the journal of a file, calls of these numbers failing.
fn after_adding<R: Abort>(rt: &R, alloc: Global, file: &[u8], fails: &[u64], mends: bool) -> Added {
    match frame_of(alloc, &ANSWER) {
        Ok(frame) => add_over(rt, alloc, disk_of(rt, alloc, &[file], fails), &frame, mends),
        Err(_) => panic!(rt; "no frame"),
    }
}

/// Calls that fail, and whether a record in doubt is resolved; then what became of the record, the
/// journal's length, the bytes on the disk, and how many records are found in them, with the
/// length.
type Adding = (&'static [u64], bool, Fate, u64, &'static [u8], (usize, u64));

const FAILED: Option<AppendFault> = Some(AppendFault::Disk);

const DROPPED: Option<Adopted> = Some(Adopted::Dropped);

/// Calls 0 to 5 open a new journal. Adding is calls 6 to 9: write, sync, open the gate, sync. Call
/// 10 is none of them.
const ADDINGS: [Adding; 15] = [
    // The gate is open after a failure only if the last call failed.
    (&[6], true, (FAILED, DROPPED, None), 9, &EMPTY, (0, 9)),
    (&[7], true, (FAILED, DROPPED, None), 9, &EMPTY, (0, 9)),
    (&[8], true, (FAILED, DROPPED, None), 9, &EMPTY, (0, 9)),
    (
        &[9],
        true,
        (FAILED, Some(Adopted::Kept), None),
        22,
        &ADDED,
        (1, 22),
    ),
    (&[10], true, (None, None, None), 22, &ADDED, (1, 22)),
    // After the sync of adding failed, mending is calls 8 to 12: read the gate, write it again,
    // sync, cut, sync. A record that it leaves in doubt is dropped by the next.
    (&[7, 8], true, (FAILED, None, DROPPED), 9, &EMPTY, (0, 9)),
    (&[7, 9], true, (FAILED, None, DROPPED), 9, &EMPTY, (0, 9)),
    (&[7, 10], true, (FAILED, None, DROPPED), 9, &EMPTY, (0, 9)),
    (&[7, 11], true, (FAILED, None, DROPPED), 9, &EMPTY, (0, 9)),
    (&[7, 12], true, (FAILED, None, DROPPED), 9, &EMPTY, (0, 9)),
    // Adding stopped after none, one, two, three and four of its calls. A record in doubt is not in
    // the journal.
    (&[6], false, (FAILED, None, None), 9, &EMPTY, (0, 9)),
    (&[7], false, (FAILED, None, None), 9, &STAGED, (0, 9)),
    (&[8], false, (FAILED, None, None), 9, &STAGED, (0, 9)),
    (&[9], false, (FAILED, None, None), 9, &ADDED, (1, 22)),
    (&[10], false, (None, None, None), 22, &ADDED, (1, 22)),
];

/// Calls 0 to 15 open the moved journal without a record: sync, length, header, the mark's gate,
/// its payload, the last gate twice, three gates read and written again, sync, cut, sync. Adding is
/// calls 16 to 19.
const MOVED_ADDINGS: [Adding; 6] = [
    (
        &[16],
        true,
        (FAILED, DROPPED, None),
        15,
        &MOVED_EMPTY,
        (0, 15),
    ),
    (
        &[17, 18],
        true,
        (FAILED, None, DROPPED),
        15,
        &MOVED_EMPTY,
        (0, 15),
    ),
    (
        &[19],
        true,
        (FAILED, Some(Adopted::Kept), None),
        28,
        &MOVED_ADDED,
        (1, 28),
    ),
    (
        &[18],
        false,
        (FAILED, None, None),
        15,
        &MOVED_STAGED,
        (0, 15),
    ),
    (
        &[19],
        false,
        (FAILED, None, None),
        15,
        &MOVED_ADDED,
        (1, 28),
    ),
    (&[20], false, (None, None, None), 28, &MOVED_ADDED, (1, 28)),
];

fn expect_added<R: Abort>(
    rt: &R,
    alloc: Global,
    file: &[u8],
    (fails, mends, fate, length, bytes, records): &Adding,
) {
    let added = after_adding(rt, alloc, file, fails, *mends);
    expect_equal(rt, &added.fate, fate);
    expect_equal(rt, &added.length, length);
    expect_bytes(rt, added.disk.bytes(), bytes);
    expect_records(rt, alloc, added.disk.bytes(), Ok(*records));
}

#[test]
fn each_call_of_adding_fails(rt: HostRuntime) {
    for row in &ADDINGS {
        expect_added(&rt, rt.alloc(), &[], row);
    }
}

#[test]
fn each_call_of_adding_to_a_moved_journal_fails(rt: HostRuntime) {
    for row in &MOVED_ADDINGS {
        expect_added(&rt, rt.alloc(), &MOVED_EMPTY, row);
    }
}

/// After the write a crash leaves the nine bytes from before, and of the record's range any length
/// and any bytes.
#[test]
fn a_crash_before_the_first_sync(rt: HostRuntime) {
    for length in 9..23usize {
        expect_records(&rt, rt.alloc(), &STAGED[..length], Ok((0, 9)));
        expect_records(&rt, rt.alloc(), &TORN[..length], Ok((0, 9)));
    }
}

/// After the gate was written a crash leaves the whole record after a gate of any value. Only 1
/// is open.
#[test]
fn a_crash_before_the_last_sync(rt: HostRuntime) {
    for gate in 0..256u16 {
        let mut bytes = STAGED;
        bytes[8] = gate as u8;
        let records = if gate == 1 { (1, 22) } else { (0, 9) };
        expect_records(&rt, rt.alloc(), &bytes, Ok(records));
    }
}

/// What is found of three records in the front of this length.
fn found_in_front(length: usize) -> Records {
    if length < 10 {
        Ok((0, 9))
    } else if length < 15 {
        Err(OpenFault::Cut(8))
    } else if length < 22 {
        Err(OpenFault::Cut(14))
    } else if length < 30 {
        Err(OpenFault::Cut(21))
    } else {
        Ok((3, 30))
    }
}

/// A file of at most nine bytes is an empty journal, and a longer one needs its whole records
/// and a gate after them.
#[test]
fn three_records_cut_to_each_length(rt: HostRuntime) {
    for length in 0..31usize {
        let expected = found_in_front(length);
        expect_records(&rt, rt.alloc(), &THREE[..length], expected);
    }
}

/// The three records with these values at these places.
fn altered(changes: &[(usize, u8)]) -> [u8; 30] {
    let mut bytes = THREE;
    for (at, value) in changes {
        if *at < 30 {
            bytes[*at] = *value;
        }
    }
    bytes
}

/// The gates of the three records and the last one, and how many records end there. A closed gate
/// ends the journal.
const GATES: [(usize, (usize, u64)); 4] = [
    (8, (0, 9)),
    (14, (1, 15)),
    (21, (2, 22)),
    (29, (3, 30)),
];

/// It does so whatever value it has.
fn expect_end_at_gate<R: Abort>(rt: &R, alloc: Global, (at, records): (usize, (usize, u64))) {
    for gate in &[0u8, 2, 3, 129, 255] {
        expect_records(rt, alloc, &altered(&[(at, *gate)]), Ok(records));
    }
}

#[test]
fn a_byte_of_each_gate_altered(rt: HostRuntime) {
    for gate in &GATES {
        expect_end_at_gate(&rt, rt.alloc(), *gate);
    }
}

/// Changes of the three records, each with the first fault that holds: frame by frame the length,
/// and the cut. An open gate at the end has no record after it.
const CHANGES: [(&[(usize, u8)], OpenFault); 5] = [
    (&[(29, 1)], OpenFault::Cut(29)),
    (&[(18, 0)], OpenFault::Length(14)),
    (&[(18, 0), (16, 2)], OpenFault::Cut(14)),
    (&[(18, 1), (16, 2)], OpenFault::Length(14)),
    (&[(18, 1), (16, 2), (12, 200)], OpenFault::Cut(8)),
];

#[test]
fn the_first_fault_of_the_frames(rt: HostRuntime) {
    for (changes, fault) in &CHANGES {
        expect_records(&rt, rt.alloc(), &altered(changes), Err(*fault));
    }
}

/// The limit comes first, and then the header.
#[test]
fn the_limit_and_the_header(rt: HostRuntime) {
    expect_records(&rt, rt.alloc(), &[0; 101], Err(OpenFault::TooLong(101)));
    expect_records(&rt, rt.alloc(), &[1; 100], Err(OpenFault::Header));
}

/// The payload of this number, and the place of its gate.
fn expect_payload<R: Abort>(rt: &R, payloads: &[Payload], which: usize, (at, bytes): (u64, &[u8])) {
    match payloads.get(which) {
        Some(payload) => {
            expect_equal(rt, &payload.at, &at);
            expect_bytes(rt, payload.bytes.as_slice(), bytes);
        }
        None => panic!(rt; "no such payload"),
    }
}

/// The three payloads in order, each with the place of its gate.
fn expect_three<R: Abort>(rt: &R, payloads: &[Payload]) {
    expect_equal(rt, &payloads.len(), &3);
    expect_payload(rt, payloads, 0, (8, &[5]));
    expect_payload(rt, payloads, 1, (14, &[6, 7]));
    expect_payload(rt, payloads, 2, (21, &[8, 9, 10]));
}

#[test]
fn payloads_and_places(rt: HostRuntime) {
    let disk = disk_of(&rt, rt.alloc(), &[&TRAILED], &[]);
    match Journal::open(rt.alloc(), disk, LIMIT) {
        Ok((journal, payloads)) => {
            let _disk = journal.into_disk();
            expect_three(&rt, &payloads);
        }
        Err(_) => panic!(rt; "the journal was not opened"),
    }
}

/// A file that was only walked over keeps the two bytes after its last gate.
#[test]
fn a_file_that_is_stopped_is_as_it_was(rt: HostRuntime) {
    match Journal::walk(disk_of(&rt, rt.alloc(), &[&TRAILED], &[]), LIMIT) {
        Ok(walk) => {
            let length = walk.length();
            expect_bytes(&rt, walk.stop().bytes(), &TRAILED);
            expect_equal(&rt, &length, &30);
        }
        Err(_) => panic!(rt; "the file was not tested"),
    }
}
