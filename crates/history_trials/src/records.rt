//! The payloads of records in both versions of the journal: the worked ones, read and written
//! again, and each fault that they can have at its place.

ghost use Rattle.std.specs.Prelude.{IsTrue};
ghost use Rattle.std.specs.Option.{option_copied};
ghost use Rattle.exam_records.specs.Shape.{GoesWith, HasBands};

use crate::equal::expect_equal;
use crate::worked::{FIRST_BEST, Line, Shape, entry_of, record, tree_bytes};
use exam_records::{
    Entry, Record, RecordFault, decode, decode_old, encode, encode_old, encode_old_parts,
};
use proof_tree::Tree;
use std::alloc::Global;
use std::process::Abort;

/// The parts of a payload, in order.
type Parts = &'static [&'static [u8]];

/// Step 0 of session 0 is answered with response 1.
const ANSWERED: &[u8] = &[4, 0, 0, 0, 0, 0, 0, 1];

/// Session 0 starts for booking 70, with items 0 to 5 eligible: the last byte here is the first of
/// a set of items.
const STARTED: &[u8] = &[1, 0, 0, 0, 0, 0, 0, 0, 0, 0, 0, 0, 70, 0x3f];

/// The same without the number of bands and the sets, in the second version.
const STARTED_NOW: &[u8] = &[6, 0, 0, 0, 0, 0, 0, 0, 0, 0, 0, 0, 70];

/// The same start with a list of items that the examinee must not get.
const LISTED_NOW: &[u8] = &[9, 0, 0, 0, 0, 0, 0, 0, 0, 0, 0, 0, 70];

/// Item 2 is served at step 0 of session 0, from the form {1, 2, 3}.
const SERVED: &[u8] = &[3, 0, 0, 0, 0, 0, 0, 0, 2, 0x0e];

/// The other 63 bytes of a set of items. The set has none of their items.
const REST: &[u8] = &[0; 63];

/// The bytes of a payload.
fn joined<R: Abort>(rt: &R, alloc: Global, parts: &[&[u8]]) -> Vec<u8> {
    let mut bytes = Vec::new(alloc);
    for part in parts {
        bytes.extend_from_slice(part).expect(rt, "a payload");
    }
    bytes
}

/// The record's tree has these bytes; it has none where there are no bytes.
fn expect_tree<R: Abort>(rt: &R, alloc: Global, rec: &Record, bytes: &[u8]) {
    match &rec.tree {
        Some(tree) => {
            let found = proof_tree::encode(alloc, tree).expect(rt, "a tree");
            expect_equal(rt, &found.as_slice(), &bytes);
        }
        None => expect_equal(rt, &bytes.len(), &0),
    }
}

/// The record is spelled with these bytes.
fn expect_spelling<R: Abort>(rt: &R, alloc: Global, rec: &Record, bytes: &[u8])
    requires { GoesWith rec.now.entry rec.now.tree }
{
    let found = encode_old(alloc, 0, rec).expect(rt, "a payload");
    expect_equal(rt, &found.as_slice(), &bytes);
}

/// The tree goes with the entry.
fn goes_with(entry: &Entry, tree: Option<&Tree>) -> bool
    ensures { IsTrue result → GoesWith entry.now (option_copied tree.entry) }
{
    match (entry, tree) {
        (Entry::SetAside { nodes, .. } | Entry::Served { nodes, .. }, Some(tree)) => {
            usize::from(*nodes) == tree.nodes().len()
        }
        (Entry::SetAside { .. } | Entry::Served { .. }, None) => false,
        (_, tree) => tree.is_none(),
    }
}

/// The record has the entry and the tree of this line, and is spelled with these bytes.
fn expect_record<R: Abort>(rt: &R, alloc: Global, rec: &Record, line: &Line, bytes: &[u8])
    requires { GoesWith rec.now.entry rec.now.tree }
{
    expect_equal(rt, &rec.entry, &entry_of(line));
    expect_tree(rt, alloc, rec, tree_bytes(line));
    expect_spelling(rt, alloc, rec, bytes);
}

/// The bytes are read as the record of this line, and the record is spelled with them.
fn expect_reading<R: Abort>(rt: &R, alloc: Global, bytes: &[u8], line: &Line) {
    match decode_old(alloc, bytes) {
        Ok(rec) => expect_record(rt, alloc, &rec, line, bytes),
        Err(_) => panic!(rt; "no record"),
    }
}

/// Payloads with their lengths and their records.
const WORKED: [(Parts, usize, Line); 3] = [
    (&[ANSWERED], 8, Line::Answered(0, (0, 1), Shape::NoTree)),
    (&[STARTED, REST], 77, Line::Started(0, 70, 0x3f)),
    (
        &[SERVED, REST, &[1, 0, 1], FIRST_BEST],
        87,
        Line::Served(0, (0, 2), 0x0e, Shape::FirstBest),
    ),
];

fn expect_worked<R: Abort>(rt: &R, alloc: Global, parts: Parts, length: usize, line: &Line) {
    let bytes = joined(rt, alloc, parts);
    expect_equal(rt, &bytes.len(), &length);
    expect_reading(rt, alloc, &bytes, line);
}

#[test]
fn worked_records(rt: HostRuntime) {
    for (parts, length, line) in &WORKED {
        expect_worked(&rt, rt.alloc(), parts, *length, line);
    }
}

/// A record and the band whose set is written, with its payload.
const KEPT: [(Line, u8, Parts); 3] = [
    (Line::StartedInTwo(0, 70, [0x3f, 0x31]), 0, &[STARTED, REST]),
    (Line::StartedInTwo(0, 70, [0x31, 0x3f]), 1, &[STARTED, REST]),
    // Neither the step nor the band is written.
    (
        Line::SetAside(0, (1, 1), Shape::Open),
        1,
        &[&[2, 0, 0, 0, 0, 1, 0, 1, 0, 7]],
    ),
];

fn expect_kept<R: Abort>(rt: &R, alloc: Global, line: &Line, first: u8, parts: Parts) {
    let rec = record(rt, alloc, line);
    if first < 8 {
        let entry = &rec.entry;
        let tree = rec.tree.as_ref();
        if goes_with(entry, tree) {
            let found = encode_old_parts(alloc, first, entry, tree).expect(rt, "a payload");
            expect_equal(rt, &found.as_slice(), &joined(rt, alloc, parts).as_slice());
            return;
        }
    }
    panic!(rt; "no record");
}

#[test]
fn kept_of_two_bands(rt: HostRuntime) {
    for (line, first, parts) in &KEPT {
        expect_kept(&rt, rt.alloc(), line, *first, parts);
    }
}

/// Payloads, each with its fault.
const FAULTS: [(Parts, RecordFault); 7] = [
    (&[], RecordFault::Short),
    (&[&[4, 0, 0, 0, 0, 0, 0]], RecordFault::Short),
    (&[&[6]], RecordFault::Kind(0)),
    (&[&[9]], RecordFault::Kind(0)),
    (&[ANSWERED, &[0]], RecordFault::Extra(8)),
    // The mark, and the number of nodes.
    (
        &[SERVED, REST, &[2, 0, 1], FIRST_BEST],
        RecordFault::Field(73),
    ),
    (
        &[SERVED, REST, &[1, 0, 2], FIRST_BEST],
        RecordFault::Field(74),
    ),
];

fn expect_fault<R: Abort>(rt: &R, alloc: Global, parts: Parts, fault: RecordFault) {
    let bytes = joined(rt, alloc, parts);
    expect_equal(rt, &decode_old(alloc, &bytes).err(), &Some(fault));
}

#[test]
fn faults(rt: HostRuntime) {
    for (parts, fault) in &FAULTS {
        expect_fault(&rt, rt.alloc(), parts, *fault);
    }
}

/// Payloads of the second version with their lengths and their records.
const WORKED_NOW: [(Parts, usize, Line); 5] = [
    (&[ANSWERED], 8, Line::Answered(0, (0, 1), Shape::NoTree)),
    (
        &[STARTED_NOW, &[1, 0x3f], REST],
        78,
        Line::Started(0, 70, 0x3f),
    ),
    (
        &[STARTED_NOW, &[2, 0x3f], REST, &[0x31], REST],
        142,
        Line::StartedInTwo(0, 70, [0x3f, 0x31]),
    ),
    (
        &[LISTED_NOW, &[1, 0x3f], REST, &[0x04], REST, &[0x2a], REST],
        206,
        Line::StartedWithout(0, 70, 0x3f, (0x04, 0x2a)),
    ),
    (
        &[&[7, 0, 0, 0, 0, 0, 2, 1, 1, 0, 1, 0, 7]],
        13,
        Line::SetAside(0, (2, 1), Shape::Open),
    ),
];

/// The record has the entry and the tree of this line, and is spelled with these bytes.
fn expect_record_now<R: Abort>(rt: &R, alloc: Global, rec: &Record, line: &Line, bytes: &[u8])
    requires tree { GoesWith rec.now.entry rec.now.tree }
    requires bands { HasBands rec.now.entry }
{
    expect_equal(rt, &rec.entry, &entry_of(line));
    expect_tree(rt, alloc, rec, tree_bytes(line));
    let found = encode(alloc, rec).expect(rt, "a payload");
    expect_equal(rt, &found.as_slice(), &bytes);
}

fn expect_worked_now<R: Abort>(rt: &R, alloc: Global, parts: Parts, length: usize, line: &Line) {
    let bytes = joined(rt, alloc, parts);
    expect_equal(rt, &bytes.len(), &length);
    match decode(alloc, &bytes) {
        Ok(rec) => expect_record_now(rt, alloc, &rec, line, &bytes),
        Err(_) => panic!(rt; "no record"),
    }
}

#[test]
fn worked_records_now(rt: HostRuntime) {
    for (parts, length, line) in &WORKED_NOW {
        expect_worked_now(&rt, rt.alloc(), parts, *length, line);
    }
}

/// Payloads of the second version, each with its fault.
const FAULTS_NOW: [(Parts, RecordFault); 11] = [
    (&[&[6]], RecordFault::Short),
    (&[&[1]], RecordFault::Kind(0)),
    (&[&[8]], RecordFault::Kind(0)),
    (&[ANSWERED, &[0]], RecordFault::Extra(8)),
    // The number of bands, which is read before what is cut off.
    (&[STARTED_NOW, &[0]], RecordFault::Field(13)),
    (&[STARTED_NOW, &[9]], RecordFault::Field(13)),
    (&[STARTED_NOW, &[2, 0x3f], REST], RecordFault::Short),
    // An empty list, before what is cut off; a form that is cut off.
    (
        &[LISTED_NOW, &[1, 0x3f], REST, &[0], REST],
        RecordFault::Field(78),
    ),
    (
        &[LISTED_NOW, &[1, 0x3f], REST, &[4], REST],
        RecordFault::Short,
    ),
    (&[&[10]], RecordFault::Kind(0)),
    // The band.
    (&[&[7, 0, 0, 0, 0, 0, 2, 8]], RecordFault::Field(7)),
];

fn expect_fault_now<R: Abort>(rt: &R, alloc: Global, parts: Parts, fault: RecordFault) {
    let bytes = joined(rt, alloc, parts);
    expect_equal(rt, &decode(alloc, &bytes).err(), &Some(fault));
}

#[test]
fn faults_now(rt: HostRuntime) {
    for (parts, fault) in &FAULTS_NOW {
        expect_fault_now(&rt, rt.alloc(), parts, *fault);
    }
}
