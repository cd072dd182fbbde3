//! Migrations: what each file becomes, what is left where a call of the disk fails, and what a
//! crash leaves at each moment. Whatever is left, an audit finds the same history, and a second
//! migration ends well. What is expected was worked out by hand from the format.

use crate::audits::{Audited, expect_audit};
use crate::equal::expect_equal;
use crate::expected::{expect_bytes, expect_parts};
use crate::files::{
    CLOSE, EMPTY, END, HEADER, Parts, REST, SERVE, SERVED, START, TOO_HIGH, TRAILED, joined,
};
use crate::moves::{Answer, Migration, done, expect_answer, migrated};
use crate::old_files::{
    CLOSED_MOVED, MARK, MOVED, MOVED_IN_TWO, MOVED_TRAILED, OLD_CLOSED, OLD_HEADER, OLD_SERVED,
    OLD_SET_ASIDE, OLD_START, OLD_TRAILED,
};
use crate::outcome::{Call, Numbers, Reply, Step, WORKED};
use crate::rows::ONE_SERVED;
use answer_journal::OpenFault as JournalFault;
use exam_office::{MigrateFault, OpenFault, Summary};
use exam_records::RecordFault;
use history_model::{Counts, Illegal};
use std::alloc::Global;
use std::process::Abort;

const LIMIT: u64 = WORKED.journal;

/// A limit of the journal and a file; how many records a migration writes, how long the file is
/// then, and the file.
type Row = (u64, Parts<'static>, (u64, u64), Parts<'static>);

const TEN: Parts<'static> = &[OLD_HEADER, END, &[7]];

const NINE: Parts<'static> = &[OLD_HEADER, END];

const ROWS: [Row; 15] = [
    (LIMIT, OLD_SERVED, (2, 364), MOVED),
    (LIMIT, OLD_CLOSED, (3, 384), CLOSED_MOVED),
    // What follows the closed gate is cut.
    (LIMIT, OLD_TRAILED, (2, 364), MOVED),
    // Ten bytes are a journal of the first version without a record.
    (LIMIT, TEN, (0, 15), &[OLD_HEADER, MARK, END]),
    (64, TEN, (0, 15), &[OLD_HEADER, MARK, END]),
    // A second migration changes nothing, and leaves what follows the closed gate too.
    (LIMIT, MOVED, (0, 364), MOVED),
    (364, MOVED, (0, 364), MOVED),
    (LIMIT, MOVED_TRAILED, (0, 366), MOVED_TRAILED),
    // So it is with a journal of the second version, and a file of at most nine bytes.
    (LIMIT, SERVED, (0, 184), SERVED),
    (LIMIT, TRAILED, (0, 186), TRAILED),
    (LIMIT, EMPTY, (0, 9), EMPTY),
    (LIMIT, NINE, (0, 9), NINE),
    (LIMIT, &[], (0, 0), &[]),
    (LIMIT, &[&[1, 2, 3]], (0, 3), &[&[1, 2, 3]]),
    // The moved journal is as long as the limit.
    (364, OLD_TRAILED, (2, 364), MOVED),
];

fn under(journal: u64, file: Parts<'_>) -> Migration<'_> {
    Migration {
        numbers: Numbers { journal, ..WORKED },
        file,
        fails: &[],
    }
}

fn expect_move<R: Abort>(rt: &R, alloc: Global, (journal, file, (records, length), then): &Row) {
    let left = migrated(rt, alloc, &under(*journal, file));
    expect_equal(rt, &left.answer, &done(*records, *length));
    expect_parts(rt, alloc, &left.bytes, then);
}

#[test]
fn what_files_become(rt: HostRuntime) {
    for row in &ROWS {
        expect_move(&rt, rt.alloc(), row);
    }
}

/// A limit of the journal and a file that would have this length, above the limit.
const FULL: [(u64, Parts<'static>, u64); 3] = [
    (363, OLD_TRAILED, 364),
    (183, OLD_SERVED, 364),
    (383, OLD_CLOSED, 384),
];

/// Nothing is written or put aside.
fn expect_no_room<R: Abort>(rt: &R, alloc: Global, journal: u64, file: Parts<'_>, length: u64) {
    let left = migrated(rt, alloc, &under(journal, &*file));
    expect_equal(rt, &left.answer, &Err(MigrateFault::Full(length)));
    expect_equal(rt, &left.aside.len(), &0);
    expect_parts(rt, alloc, &left.bytes, file);
}

#[test]
fn files_without_room(rt: HostRuntime) {
    for (journal, file, length) in &FULL {
        expect_no_room(&rt, rt.alloc(), *journal, file, *length);
    }
}

/// Files, and the gate from which the bytes after it are put aside.
const TAILS: [(Parts<'static>, &[u64]); 6] = [
    (OLD_TRAILED, &[182]),
    (OLD_SERVED, &[]),
    (TEN, &[8]),
    (NINE, &[]),
    (MOVED_TRAILED, &[]),
    (TRAILED, &[]),
];

fn expect_aside<R: Abort>(rt: &R, alloc: Global, file: Parts<'_>, gates: &[u64]) {
    let left = migrated(rt, alloc, &under(LIMIT, file));
    expect_equal(rt, &left.aside.as_slice(), &gates);
}

/// What is cut is put aside before, and nothing else is.
#[test]
fn what_is_put_aside(rt: HostRuntime) {
    for (file, gates) in &TAILS {
        expect_aside(&rt, rt.alloc(), file, gates);
    }
}

/// Under a plan of two bands a start has a set for each.
#[test]
fn a_journal_moved_under_two_bands(rt: HostRuntime) {
    let migration = Migration {
        numbers: Numbers {
            points: &[2],
            ..WORKED
        },
        file: OLD_SERVED,
        fails: &[],
    };
    let left = migrated(&rt, rt.alloc(), &migration);
    expect_equal(&rt, &left.answer, &done(2, 428));
    expect_parts(&rt, rt.alloc(), &left.bytes, MOVED_IN_TWO);
}

/// What a record of a start has before its session, and after its booking.
type Around = (&'static [u8], &'static [u8]);

/// An open gate, the length 77 and the kind; items 0 to 5 are eligible.
const OLD_AROUND: Around = (&[1, 0, 0, 0, 77, 1], &[0x3f]);

/// The same by the second version, with the length 78 and one band.
const AROUND: Around = (&[1, 0, 0, 0, 78, 6], &[1, 0x3f]);

fn put_start<R: Abort>(rt: &R, bytes: &mut Vec<u8>, (before, after): Around, session: u32) {
    let booking = u64::from(session).saturating_add(70);
    for part in [
        before,
        &session.to_be_bytes(),
        &booking.to_be_bytes(),
        after,
        REST,
    ] {
        bytes.extend_from_slice(part).expect(rt, "a record");
    }
}

/// The records of 800 sessions, begun for bookings from 70 on.
fn starts<R: Abort>(rt: &R, alloc: Global, around: Around) -> Vec<u8> {
    let mut bytes = Vec::new(alloc);
    for session in 0..800 {
        put_start(rt, &mut bytes, around, session);
    }
    bytes
}

/// Of 800 records of 83 bytes the first 790 are written by one call, and the others by one more: so
/// there are 4,019 calls, five for each record and 19.
#[test]
fn many_records_are_written_at_once(rt: HostRuntime) {
    let old = starts(&rt, rt.alloc(), OLD_AROUND);
    let new = starts(&rt, rt.alloc(), AROUND);
    let left = migrated(&rt, rt.alloc(), &under(LIMIT, &[OLD_HEADER, &old, END]));
    expect_answer(&rt, &left, &done(800, 132_015), 4_019);
    expect_parts(
        &rt,
        rt.alloc(),
        &left.bytes,
        &[OLD_HEADER, &old, MARK, &new, END],
    );
}

/// A limit of the journal and a file, and why it is not moved.
type Refusal = (u64, Parts<'static>, OpenFault);

const REFUSALS: [Refusal; 14] = [
    (
        182,
        OLD_SERVED,
        OpenFault::Journal(JournalFault::TooLong(183)),
    ),
    (
        LIMIT,
        &[b"SHADOWJ3", END, &[7]],
        OpenFault::Journal(JournalFault::Header),
    ),
    (
        LIMIT,
        &[OLD_HEADER, OLD_START, REST],
        OpenFault::Journal(JournalFault::Cut(8)),
    ),
    (
        LIMIT,
        &[OLD_HEADER, OLD_START, REST, &[1, 0, 0, 0, 0], END],
        OpenFault::Journal(JournalFault::Length(90)),
    ),
    // A record of the second version in a journal that was not moved.
    (
        LIMIT,
        &[OLD_HEADER, START, REST, END],
        OpenFault::BadRecord(8, RecordFault::Kind(0)),
    ),
    (
        LIMIT,
        &[OLD_HEADER, OLD_START, REST, &[1, 0, 0, 0, 1, 6], END],
        OpenFault::BadRecord(90, RecordFault::Kind(0)),
    ),
    (
        LIMIT,
        &[OLD_HEADER, CLOSE, END],
        OpenFault::Illegal(8, Illegal::NoSession(0)),
    ),
    (
        LIMIT,
        &[OLD_HEADER, OLD_START, REST, SERVE, REST, TOO_HIGH, END],
        OpenFault::BadTree(90),
    ),
    (
        LIMIT,
        &[OLD_HEADER, OLD_START, REST, OLD_SET_ASIDE, END],
        OpenFault::BadTree(90),
    ),
    // The records are judged before the limit is tested.
    (
        200,
        &[OLD_HEADER, OLD_START, REST, SERVE, REST, TOO_HIGH, END],
        OpenFault::BadTree(90),
    ),
    // Records of the first version after the mark, and in a journal of the second version.
    (
        LIMIT,
        &[OLD_HEADER, OLD_START, REST, MARK, OLD_START, REST, END],
        OpenFault::BadRecord(96, RecordFault::Kind(0)),
    ),
    (
        LIMIT,
        &[HEADER, OLD_START, REST, END],
        OpenFault::BadRecord(8, RecordFault::Kind(0)),
    ),
    // A mark that moves nothing.
    (
        LIMIT,
        &[OLD_HEADER, OLD_START, REST, MARK, MARK, END],
        OpenFault::BadRecord(96, RecordFault::Kind(0)),
    ),
    (
        LIMIT,
        &[HEADER, MARK, END],
        OpenFault::BadRecord(8, RecordFault::Kind(0)),
    ),
];

/// The file is not moved, and left as it was.
fn expect_refusal<R: Abort>(
    rt: &R,
    alloc: Global,
    journal: u64,
    file: Parts<'_>,
    fault: OpenFault,
) {
    let left = migrated(rt, alloc, &under(journal, &*file));
    expect_equal(rt, &left.answer, &Err(MigrateFault::Open(fault)));
    expect_parts(rt, alloc, &left.bytes, file);
}

#[test]
fn files_that_are_not_moved(rt: HostRuntime) {
    for (journal, file, fault) in &REFUSALS {
        expect_refusal(&rt, rt.alloc(), *journal, file, *fault);
    }
}

/// A journal of the first version and what it becomes: how many records are written, how long the
/// file is then, and the place of the gate that is opened at the end.
struct Case {
    old: Parts<'static>,
    moved: Parts<'static>,
    records: u64,
    length: u64,
    gate: usize,
    /// What an audit finds: the summary of the history, and exposure counts.
    summary: Summary,
    counts: &'static [Step],
    /// How many calls of the disk move it.
    calls: u64,
    /// How much of the moved file there is where a call fails, from the call of this number on.
    fronts: &'static [(u64, usize)],
}

/// The exposure counts of an item that was not in a finished session.
const NO: Reply = Reply::Exposed(Some(Counts { alpha: 0, eps: 0 }));

/// Those of an item that was eligible in one, and of one that was shown there too.
const ELIGIBLE: Reply = Reply::Exposed(Some(Counts { alpha: 0, eps: 1 }));

const SHOWN: Reply = Reply::Exposed(Some(Counts { alpha: 1, eps: 1 }));

/// A migration walks over the file: sync, length, header, each gate, the last one twice, two for
/// each record. Then the last open gate and the closed one are read and written again, sync, cut,
/// sync; the mark is written; each record is read by two calls, and all of them are written by one;
/// the last gate is written, sync, the old closed gate is opened, sync.
const CASES: [Case; 2] = [
    // The walk is calls 0 to 10, and the mark is written by call 18.
    Case {
        old: OLD_SERVED,
        moved: MOVED,
        records: 2,
        length: 364,
        gate: 182,
        summary: ONE_SERVED,
        counts: &[(Call::Exposure(0), NO), (Call::Exposure(2), NO)],
        calls: 28,
        fronts: &[(0, 183), (19, 188), (24, 363), (25, 364)],
    },
    // The walk is calls 0 to 13, and the mark is written by call 21.
    Case {
        old: OLD_CLOSED,
        moved: CLOSED_MOVED,
        records: 3,
        length: 384,
        gate: 192,
        summary: ONE_CLOSED,
        counts: &[(Call::Exposure(0), ELIGIBLE), (Call::Exposure(2), SHOWN)],
        calls: 33,
        fronts: &[(0, 193), (22, 198), (29, 383), (30, 384)],
    },
];

/// The summary after session 0 was closed with its first item served.
const ONE_CLOSED: Summary = Summary {
    entries: 3,
    finished: 1,
    ..ONE_SERVED
};

/// How much of the moved file there is where this call fails.
fn front_at(case: &Case, call: u64) -> usize {
    let mut length = 0;
    for (from, front) in case.fronts {
        if *from <= call {
            length = *front;
        }
    }
    length
}

/// So much of the moved file, with this value at the gate that is opened at the end.
fn front_of<R: Abort>(rt: &R, alloc: Global, case: &Case, length: usize, gate: u8) -> Vec<u8> {
    let mut file = joined(rt, alloc, case.moved);
    file.truncate(length);
    if case.gate < file.len() {
        file[case.gate] = gate;
    }
    file
}

/// What a migration gives of a file that is left: it moves the records where the gate is closed.
fn then(case: &Case, file: &[u8]) -> Answer {
    if file.get(case.gate) == Some(&1) {
        done(0, case.length)
    } else {
        done(case.records, case.length)
    }
}

/// An audit finds the history in the file, and a migration ends well.
fn expect_history<R: Abort>(rt: &R, alloc: Global, case: &Case, file: &[u8]) {
    let audited = Audited {
        numbers: WORKED,
        bytes: file,
        counts: case.counts,
        summary: case.summary,
    };
    expect_audit(rt, alloc, &audited);
    let left = migrated(rt, alloc, &under(LIMIT, &[file]));
    expect_equal(rt, &left.answer, &then(case, file));
    expect_parts(rt, alloc, &left.bytes, case.moved);
}

/// The migration in which this call fails, or none where there is no such call.
fn expect_failure_at<R: Abort>(rt: &R, alloc: Global, case: &Case, call: u64) {
    let migration = Migration {
        numbers: WORKED,
        file: case.old,
        fails: &[call],
    };
    let left = migrated(rt, alloc, &migration);
    if call < case.calls {
        expect_answer(rt, &left, &Err(MigrateFault::Disk), call.saturating_add(1));
    } else {
        expect_answer(rt, &left, &done(case.records, case.length), case.calls);
    }
    let gate = if call.saturating_add(1) < case.calls {
        0
    } else {
        1
    };
    let expected = front_of(rt, alloc, case, front_at(case, call), gate);
    expect_bytes(rt, &left.bytes, &expected);
    expect_history(rt, alloc, case, &left.bytes);
}

fn expect_failure_at_each_call<R: Abort>(rt: &R, alloc: Global, case: &Case) {
    for call in 0..case.calls.saturating_add(1) {
        expect_failure_at(rt, alloc, case, call);
    }
}

#[test]
fn each_call_of_a_migration_fails(rt: HostRuntime) {
    for case in &CASES {
        expect_failure_at_each_call(&rt, rt.alloc(), case);
    }
}

/// Of what is written after the closed gate a crash leaves any length, and any bytes: those that
/// were written, or open gates.
fn expect_history_if_torn<R: Abort>(rt: &R, alloc: Global, case: &Case, length: usize) {
    expect_history(rt, alloc, case, &front_of(rt, alloc, case, length, 0));
    let mut file = front_of(rt, alloc, case, case.gate.saturating_add(1), 0);
    file.resize(length, 1).expect(rt, "a longer file");
    expect_history(rt, alloc, case, &file);
}

fn expect_history_at_each_length<R: Abort>(rt: &R, alloc: Global, case: &Case) {
    for length in case.gate.saturating_add(1)..(case.length as usize).saturating_add(1) {
        expect_history_if_torn(rt, alloc, case, length);
    }
}

/// Once all is written a crash leaves any value at the gate. Only 1 is open.
fn expect_history_at_each_gate<R: Abort>(rt: &R, alloc: Global, case: &Case) {
    for gate in 0..256u16 {
        let file = front_of(rt, alloc, case, case.length as usize, gate as u8);
        expect_history(rt, alloc, case, &file);
    }
}

#[test]
fn each_image_of_a_migration_is_the_history(rt: HostRuntime) {
    for case in &CASES {
        expect_history_at_each_length(&rt, rt.alloc(), case);
        expect_history_at_each_gate(&rt, rt.alloc(), case);
    }
}
