//! The journal of each version: which records of a file count. What is expected was worked out by
//! hand from the format. With the header `SHADOWJ2` each record counts; with `SHADOWJ1` those after
//! the first payload that is the one byte 8, and a file of more than nine bytes without such a
//! payload is refused.

ghost use Rattle.answer_journal.specs.Standing.{IsAsLeft};
ghost use Rattle.exam_edge.specs.MemoryDisk.{accounts_of};

use crate::equal::expect_equal;
use crate::expected::{expect_bytes, expect_parts};
use crate::files::{END, MORE, Parts, joined};
use crate::journal::{LIMIT, MOVED, Records, expect_records, open};
use crate::old_files::MARK;
use crate::outcome::disk_of;
use answer_journal::{Journal, OpenFault, Payload};
use exam_edge::MemoryDisk;
use std::alloc::Global;
use std::process::Abort;

const FIRST: &[u8] = b"SHADOWJ1";

const SECOND: &[u8] = b"SHADOWJ2";

/// An open gate and a record with a payload of one byte.
const ONE: &[u8] = &[1, 0, 0, 0, 1, 5];

/// The same with a payload of two bytes.
const TWO: &[u8] = &[1, 0, 0, 0, 2, 6, 7];

/// The same with a payload of three bytes.
const THREE: &[u8] = &[1, 0, 0, 0, 3, 8, 9, 10];

const VERSION: Records = Err(OpenFault::Version);

/// Files, and how many records of each count, with the length; or the fault.
const FILES: [(Parts<'static>, Records); 20] = [
    (&[SECOND, ONE, TWO, END], Ok((2, 22))),
    (&[FIRST, ONE, TWO, END], VERSION),
    (&[FIRST, END, &[7]], VERSION),
    (&[FIRST, ONE, MARK, TWO, END], Ok((1, 28))),
    (&[FIRST, MARK, END], Ok((0, 15))),
    (&[FIRST, MARK, THREE, TWO, END], Ok((2, 30))),
    // A mark after the first, and one in a journal of the second version, is a payload.
    (&[FIRST, MARK, MARK, TWO, END], Ok((2, 28))),
    (&[SECOND, MARK, TWO, END], Ok((2, 22))),
    // A longer payload that begins with the byte of the mark is none.
    (&[FIRST, &[1, 0, 0, 0, 2, 8, 8], END], VERSION),
    // The gate of the mark is closed, or the one before it, or the one after it.
    (&[FIRST, ONE, &[0, 0, 0, 0, 1, 8], TWO, END], VERSION),
    (&[FIRST, &[0, 0, 0, 0, 1, 5], MARK, TWO, END], VERSION),
    (
        &[FIRST, ONE, MARK, &[0, 0, 0, 0, 2, 6, 7], END],
        Ok((0, 21)),
    ),
    // Damage before the mark and after it. It is met before the version.
    (
        &[FIRST, &[1, 0, 0, 0, 0, 5], MARK, TWO, END],
        Err(OpenFault::Length(8)),
    ),
    (
        &[FIRST, &[1, 0, 2, 0, 1, 5], MARK, TWO, END],
        Err(OpenFault::Length(8)),
    ),
    (
        &[FIRST, &[1, 0, 0, 1, 0, 5], MARK, TWO, END],
        Err(OpenFault::Cut(8)),
    ),
    (
        &[FIRST, ONE, MARK, &[1, 0, 0, 0, 0, 6, 7], END],
        Err(OpenFault::Length(20)),
    ),
    (
        &[FIRST, ONE, MARK, &[1, 0, 0, 1, 0, 6, 7], END],
        Err(OpenFault::Cut(20)),
    ),
    (
        &[FIRST, ONE, &[1, 0, 0, 0, 0, 6, 7], END],
        Err(OpenFault::Length(14)),
    ),
    // No header.
    (&[b"SHADOWJ3", ONE, TWO, END], Err(OpenFault::Header)),
    (&[b"SHADOWj2", ONE, TWO, END], Err(OpenFault::Header)),
];

/// The file is opened so, and so it is with two bytes more.
fn expect_opens<R: Abort>(rt: &R, alloc: Global, file: Parts<'_>, records: Records) {
    let bytes = joined(rt, alloc, file);
    expect_records(rt, alloc, &bytes, records);
    expect_records(rt, alloc, &joined(rt, alloc, &[&bytes, MORE]), records);
}

#[test]
fn files_of_each_version(rt: HostRuntime) {
    for (file, records) in &FILES {
        expect_opens(&rt, rt.alloc(), file, *records);
    }
}

/// A file of at most nine bytes is an empty journal, and with one more a header counts.
#[test]
fn nine_bytes_of_the_first_version(rt: HostRuntime) {
    let alloc = rt.alloc();
    expect_records(&rt, alloc, &joined(&rt, alloc, &[FIRST, END]), Ok((0, 9)));
    expect_records(&rt, alloc, &joined(&rt, alloc, &[FIRST]), Ok((0, 9)));
    let longer = joined(&rt, alloc, &[SECOND, END, &[7]]);
    expect_records(&rt, alloc, &longer, Ok((0, 9)));
}

/// What is found of a moved journal in the front of this length.
fn found_in_front(length: usize) -> Records {
    if length < 10 {
        Ok((0, 9))
    } else if length < 15 {
        Err(OpenFault::Cut(8))
    } else if length < 21 {
        Err(OpenFault::Cut(14))
    } else if length < 28 {
        Err(OpenFault::Cut(20))
    } else {
        Ok((1, 28))
    }
}

#[test]
fn a_moved_journal_cut_to_each_length(rt: HostRuntime) {
    for length in 0..29usize {
        let expected = found_in_front(length);
        expect_records(&rt, rt.alloc(), &MOVED[..length], expected);
    }
}

/// The record after the mark counts where both bytes are those of a mark that counts: its gate and
/// its payload.
fn expect_moved_by<R: Abort>(rt: &R, alloc: Global, gate: u8, payload: u8) {
    let expected = if gate == 1 && payload == 8 {
        Ok((1, 28))
    } else {
        VERSION
    };
    let mark = [gate, 0, 0, 0, 1, payload];
    let file = joined(rt, alloc, &[FIRST, ONE, &mark, TWO, END]);
    expect_records(rt, alloc, &file, expected);
}

#[test]
fn each_byte_of_a_mark(rt: HostRuntime) {
    for byte in 0..256u16 {
        expect_moved_by(&rt, rt.alloc(), byte as u8, 8);
        expect_moved_by(&rt, rt.alloc(), 1, byte as u8);
    }
}

/// A journal of the first version that was not moved, and two bytes more.
const UNMOVED: Parts<'static> = &[FIRST, ONE, TWO, END, MORE];

/// It is refused after eight calls: sync, length, header, each gate, the last one twice, and the
/// payload of one byte. None of them changes it. The one of this number fails, or none does.
fn expect_refusal_untouched<R: Abort>(rt: &R, alloc: Global, call: u64) {
    let fault = if call < 8 {
        OpenFault::Disk
    } else {
        OpenFault::Version
    };
    let (disk, found) = open(alloc, disk_of(rt, alloc, UNMOVED, &[call]));
    expect_equal(rt, &found, &Err(fault));
    expect_parts(rt, alloc, disk.bytes(), UNMOVED);
    expect_equal(rt, &disk.aside().len(), &0);
}

#[test]
fn an_unmoved_journal_is_left_as_it_was(rt: HostRuntime) {
    for call in 0..10u64 {
        expect_refusal_untouched(&rt, rt.alloc(), call);
    }
}

/// The version of the header, the version of the records, and the length; the file is as it was.
fn expect_walk<R: Abort>(
    rt: &R,
    alloc: Global,
    file: Parts<'_>,
    (header, records, length): (u8, u8, u64),
) {
    match Journal::walk(disk_of(rt, alloc, file, &[]), LIMIT) {
        Ok(walk) => {
            expect_equal(rt, &walk.version(), &header);
            expect_equal(rt, &walk.record_version(), &records);
            expect_equal(rt, &walk.length(), &length);
            expect_parts(rt, alloc, walk.stop().bytes(), file);
        }
        Err(_) => panic!(rt; "the file was not tested"),
    }
}

#[test]
fn versions_of_a_walk(rt: HostRuntime) {
    let alloc = rt.alloc();
    expect_walk(&rt, alloc, UNMOVED, (1, 1, 22));
    expect_walk(&rt, alloc, &[FIRST, ONE, MARK, TWO, END], (1, 2, 28));
    expect_walk(&rt, alloc, &[SECOND, ONE, TWO, END, MORE], (2, 2, 22));
    expect_walk(&rt, alloc, &[FIRST, END], (2, 2, 9));
    expect_walk(&rt, alloc, &[FIRST, END, &[7]], (1, 1, 9));
}

/// The payload of this number, and the place of its gate.
fn expect_payload<R: Abort>(rt: &R, payloads: &[Payload], which: usize, (at, bytes): (u64, &[u8])) {
    match payloads.get(which) {
        Some(payload) => {
            expect_equal(rt, &payload.at, &at);
            expect_bytes(rt, payload.bytes.as_slice(), bytes);
        }
        None => panic!(rt; "no such payload"),
    }
}

/// Payloads of a file, each with the place of its gate.
type Payloads = &'static [(u64, &'static [u8])];

fn expect_payloads<R: Abort>(rt: &R, payloads: &[Payload], expected: Payloads) {
    expect_equal(rt, &payloads.len(), &expected.len());
    for which in 0..expected.len() {
        expect_payload(rt, payloads, which, expected[which]);
    }
}

/// Where the header has this version, and the first record that counts has its gate at this place,
/// these payloads count.
type Counting = (Parts<'static>, u8, u64, Payloads);

const COUNTINGS: [Counting; 4] = [
    (&[SECOND, ONE, MARK, END], 2, 8, &[(8, &[5]), (14, &[8])]),
    (
        &[FIRST, ONE, MARK, TWO, THREE, END],
        1,
        20,
        &[(20, &[6, 7]), (27, &[8, 9, 10])],
    ),
    (&[FIRST, MARK, MARK, END], 1, 14, &[(14, &[8])]),
    (&[FIRST, TWO, MARK, END], 1, 21, &[]),
];

/// An open journal has this version and this start.
fn expect_start<R: Abort>(rt: &R, journal: &Journal<MemoryDisk>, (version, start): (u8, u64)) {
    expect_equal(rt, &journal.version(), &version);
    expect_equal(rt, &journal.start(), &start);
}

/// The payloads that count, with their places.
fn count_over<R: Abort>(rt: &R, alloc: Global, disk: MemoryDisk, row: &Counting) -> MemoryDisk
    requires { IsAsLeft (accounts_of disk) }
{
    match Journal::open(alloc, disk, LIMIT) {
        Ok((journal, found)) => {
            expect_start(rt, &journal, (row.1, row.2));
            expect_payloads(rt, &found, row.3);
            journal.into_disk()
        }
        Err(_) => panic!(rt; "not opened"),
    }
}

#[test]
fn payloads_that_count(rt: HostRuntime) {
    let alloc = rt.alloc();
    for row in &COUNTINGS {
        let disk = count_over(&rt, alloc, disk_of(&rt, alloc, row.0, &[]), row);
        expect_parts(&rt, alloc, disk.bytes(), row.0);
    }
}
