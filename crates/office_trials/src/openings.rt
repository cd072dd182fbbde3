//! Files that an office opens, and each fault of one.

use crate::equal::expect_equal;
use crate::expected::expect_parts;
use crate::files::{
    ANSWER, BEST, EMPTY, END, HEADER, MORE, Parts, REST, SERVE, SERVED, SET_ASIDE, START, TOO_HIGH,
    UNMARKED, joined,
};
use crate::old_files::{
    MARK, MOVED, MOVED_TRAILED, OLD_CLOSED, OLD_HEADER, OLD_SERVED, OLD_SET_ASIDE, OLD_START,
    OLD_TRAILED,
};
use crate::outcome::{Call, FIRST, NOTHING, Numbers, Reply, Step, Trial, WORKED, run};
use crate::rows::{ONE_SERVED, Row, expect_row};
use answer_journal::OpenFault as JournalFault;
use exam_office::{OpenFault, Refusal, Summary};
use exam_records::RecordFault;
use history_model::Illegal;
use std::alloc::Global;
use std::process::Abort;

/// Session 0 is looked at, and there is none; or its first item waits for an answer.
const NO_SESSION: &[Step] = &[(Call::Look(0), Reply::Refused(Refusal::NoSession(0)))];

const IS_SERVED: &[Step] = &[(Call::Look(0), Reply::At(FIRST))];

/// Limits of the journal and files that are opened; what session 0 shows, and what is found in the
/// end: the summary, how many calls of the disk were made, and the file.
type Opening = (
    u64,
    Parts<'static>,
    &'static [&'static [Step]],
    Summary,
    u64,
    Parts<'static>,
);

const LIMIT: u64 = WORKED.journal;

const OPENINGS: [Opening; 10] = [
    // A file of at most nine bytes becomes the empty journal.
    (LIMIT, &[], &[NO_SESSION], NOTHING, 6, EMPTY),
    (
        LIMIT,
        &[&[1, 2, 3, 4, 5, 6, 7, 8, 9]],
        &[NO_SESSION],
        NOTHING,
        6,
        EMPTY,
    ),
    (LIMIT, EMPTY, &[NO_SESSION], NOTHING, 6, EMPTY),
    // The tree shows a bound of 6,143, and 256 * 23 + 255 is 6,143. So the mark is believed.
    (LIMIT, SERVED, &[IS_SERVED], ONE_SERVED, 18, SERVED),
    // The journal is as long as its limit.
    (184, SERVED, &[], ONE_SERVED, 18, SERVED),
    // What a crash left after the last gate is put aside and cut. The last gate is read once, with
    // the four bytes after it.
    (
        LIMIT,
        &[
            HEADER,
            START,
            REST,
            SERVE,
            REST,
            BEST,
            END,
            &[0, 0, 0, 8, 4, 0],
        ],
        &[IS_SERVED],
        ONE_SERVED,
        18,
        SERVED,
    ),
    // A file of nine bytes is empty whatever its header is.
    (LIMIT, &[OLD_HEADER, END], &[NO_SESSION], NOTHING, 6, EMPTY),
    // A moved journal: sync, length, header, six gates, the last one twice, the mark's payload, two
    // for each record; three gates are read and written again, sync, cut, sync.
    (LIMIT, MOVED, &[IS_SERVED], ONE_SERVED, 24, MOVED),
    (LIMIT, MOVED_TRAILED, &[IS_SERVED], ONE_SERVED, 25, MOVED),
    // A payload before the mark is no record, and is not read as one. The first of these two is
    // read to find the mark, since it has one byte.
    (LIMIT, NO_RECORDS, &[IS_SERVED], ONE_SERVED, 25, NO_RECORDS),
];

/// A moved journal whose payloads before the mark are no records.
const NO_RECORDS: Parts<'static> = &[
    OLD_HEADER,
    &[1, 0, 0, 0, 1, 99],
    &[1, 0, 0, 0, 2, 8, 8],
    MARK,
    START,
    REST,
    SERVE,
    REST,
    BEST,
    END,
];

fn expect_opens<R: Abort>(
    rt: &R,
    alloc: Global,
    (journal, file, steps, summary, calls, left): &Opening,
) {
    let row = Row {
        trial: Trial {
            numbers: Numbers {
                journal: *journal,
                ..WORKED
            },
            file,
            fails: &[],
            steps,
        },
        summary: *summary,
        calls: *calls,
        faults: 0,
        left,
    };
    expect_row(rt, alloc, &row);
}

#[test]
fn files_that_are_opened(rt: HostRuntime) {
    expect_equal(&rt, &joined(&rt, rt.alloc(), EMPTY).len(), &9);
    for row in &OPENINGS {
        expect_opens(&rt, rt.alloc(), row);
    }
}

/// The file has this length and is refused with this fault at this limit of the journal, and left
/// as it was.
fn expect_refusal<R: Abort>(
    rt: &R,
    alloc: Global,
    file: Parts<'_>,
    length: usize,
    journal: u64,
    fault: OpenFault,
) {
    let trial = Trial {
        numbers: Numbers { journal, ..WORKED },
        file: &*file,
        fails: &[],
        steps: &[],
    };
    let outcome = run(rt, alloc, &trial);
    expect_equal(rt, &outcome.found.fault, &Some(fault));
    expect_equal(rt, &outcome.bytes.len(), &length);
    expect_parts(rt, alloc, &outcome.bytes, file);
}

/// The journal of the served session with another first byte: 184 bytes.
const BROKEN: Parts<'static> = &[&[0], b"HADOWJ2", START, REST, SERVE, REST, BEST, END];

/// The record of the served item after its length.
const ITEM: &[u8] = &[3, 0, 0, 0, 0, 0, 0, 0, 2, 0x0e];

/// Files, their lengths, limits of the journal and the first fault: that of a frame comes before
/// that of a record, and that of a record before that of the next.
const FAULTY: [(Parts<'static>, usize, u64, OpenFault); 16] = [
    (
        &[&[1; 10]],
        10,
        LIMIT,
        OpenFault::Journal(JournalFault::Header),
    ),
    // The journal with gates at 8, 91 and 183 is cut.
    (
        &[HEADER, &[1, 0]],
        10,
        LIMIT,
        OpenFault::Journal(JournalFault::Cut(8)),
    ),
    (
        &[HEADER, START, REST],
        91,
        LIMIT,
        OpenFault::Journal(JournalFault::Cut(8)),
    ),
    (
        &[HEADER, START, REST, &[1]],
        92,
        LIMIT,
        OpenFault::Journal(JournalFault::Cut(91)),
    ),
    (
        &[HEADER, START, REST, SERVE, REST, BEST],
        183,
        LIMIT,
        OpenFault::Journal(JournalFault::Cut(91)),
    ),
    // The second length is 0, or 131,073.
    (
        &[HEADER, START, REST, &[1, 0, 0, 0, 0], ITEM, REST, BEST, END],
        184,
        LIMIT,
        OpenFault::Journal(JournalFault::Length(91)),
    ),
    (
        &[HEADER, START, REST, &[1, 0, 2, 0, 1], ITEM, REST, BEST, END],
        184,
        LIMIT,
        OpenFault::Journal(JournalFault::Length(91)),
    ),
    // Two faults. Gates are at 8 and 14. The last gate, at 20, is cut off.
    (
        &[HEADER, &[1, 0, 0, 0, 1, 6], &[1, 0, 0, 0, 1, 6]],
        20,
        LIMIT,
        OpenFault::Journal(JournalFault::Cut(14)),
    ),
    // Gates at 8, 18 and 24; the second length is 0.
    (
        &[
            HEADER,
            &[1, 0, 0, 0, 5, 5, 0, 0, 0, 0],
            &[1, 0, 0, 0, 0, 6],
            END,
        ],
        25,
        LIMIT,
        OpenFault::Journal(JournalFault::Length(18)),
    ),
    (
        &[
            HEADER,
            &[1, 0, 0, 0, 5, 5, 0, 0, 0, 0],
            &[1, 0, 0, 0, 1, 6],
            END,
        ],
        25,
        LIMIT,
        OpenFault::Illegal(8, Illegal::NoSession(0)),
    ),
    (
        &[
            HEADER,
            &[1, 0, 0, 0, 1, 6],
            &[1, 0, 0, 0, 5, 5, 0, 0, 0, 0],
            END,
        ],
        25,
        LIMIT,
        OpenFault::BadRecord(8, RecordFault::Short),
    ),
    // Eligibility is set aside while an item waits for its answer; and at a later step, where the
    // tree doesn't show that there is no form.
    (
        &[HEADER, START, REST, SERVE, REST, BEST, SET_ASIDE, END],
        202,
        LIMIT,
        OpenFault::Illegal(183, Illegal::NotPending(FIRST)),
    ),
    (
        &[
            HEADER, START, REST, SERVE, REST, BEST, ANSWER, SET_ASIDE, END,
        ],
        215,
        LIMIT,
        OpenFault::BadTree(196),
    ),
    // The limit is tested before the header.
    (
        SERVED,
        184,
        183,
        OpenFault::Journal(JournalFault::TooLong(184)),
    ),
    (
        BROKEN,
        184,
        183,
        OpenFault::Journal(JournalFault::TooLong(184)),
    ),
    (BROKEN, 184, 184, OpenFault::Journal(JournalFault::Header)),
];

#[test]
fn files_at_fault(rt: HostRuntime) {
    for (file, length, journal, fault) in &FAULTY {
        expect_refusal(&rt, rt.alloc(), file, *length, *journal, *fault);
    }
}

/// Files of the first version, their lengths and the first fault: those of the frames come before
/// the version, and the version before those of the records.
const OLD: [(Parts<'static>, usize, OpenFault); 11] = [
    (OLD_SERVED, 183, OpenFault::Version),
    (OLD_TRAILED, 185, OpenFault::Version),
    (OLD_CLOSED, 193, OpenFault::Version),
    (&[OLD_HEADER, END, &[7]], 10, OpenFault::Version),
    (
        &[OLD_HEADER, &[1, 0, 0, 0, 1, 6], END],
        15,
        OpenFault::Version,
    ),
    // The mark of a journal after a closed gate.
    (
        &[
            OLD_HEADER,
            OLD_START,
            REST,
            &[0, 0, 0, 0, 1, 8],
            START,
            REST,
            END,
        ],
        180,
        OpenFault::Version,
    ),
    (
        &[OLD_HEADER, OLD_START, REST],
        90,
        OpenFault::Journal(JournalFault::Cut(8)),
    ),
    (
        &[OLD_HEADER, OLD_START, REST, &[1, 0, 0, 0, 0], END],
        96,
        OpenFault::Journal(JournalFault::Length(90)),
    ),
    // Records after the mark that are none, or may not follow.
    (
        &[OLD_HEADER, OLD_START, REST, MARK, OLD_START, REST, END],
        179,
        OpenFault::BadRecord(96, RecordFault::Kind(0)),
    ),
    (
        &[OLD_HEADER, OLD_START, REST, MARK, MARK, END],
        103,
        OpenFault::BadRecord(96, RecordFault::Kind(0)),
    ),
    (
        &[
            OLD_HEADER, OLD_START, REST, SERVE, REST, BEST, MARK, START, REST, SERVE, REST,
            TOO_HIGH, END,
        ],
        364,
        OpenFault::BadTree(271),
    ),
];

#[test]
fn files_of_the_first_version(rt: HostRuntime) {
    for (file, length, fault) in &OLD {
        expect_refusal(&rt, rt.alloc(), file, *length, LIMIT, *fault);
    }
}

/// A second record, how long the journal is with it, and the fault.
type Second = ([&'static [u8]; 3], usize, OpenFault);

/// Files whose second record is no record, or may not follow the first.
const SECONDS: [Second; 10] = [
    (
        [&[1, 0, 0, 0, 1], &[6], &[]],
        98,
        OpenFault::BadRecord(91, RecordFault::Short),
    ),
    // Kinds that only the first version has, and its mark.
    (
        [OLD_START, REST, &[]],
        174,
        OpenFault::BadRecord(91, RecordFault::Kind(0)),
    ),
    (
        [OLD_SET_ASIDE, &[], &[]],
        107,
        OpenFault::BadRecord(91, RecordFault::Kind(0)),
    ),
    (
        [MARK, &[], &[]],
        98,
        OpenFault::BadRecord(91, RecordFault::Kind(0)),
    ),
    (
        [&[1, 0, 0, 0, 7], &[4, 0, 0, 0, 0, 0, 0], &[]],
        104,
        OpenFault::BadRecord(91, RecordFault::Short),
    ),
    (
        [&[1, 0, 0, 0, 6], &[5, 0, 0, 0, 0, 0], &[]],
        103,
        OpenFault::BadRecord(91, RecordFault::Extra(5)),
    ),
    (
        [&[1, 0, 0, 0, 5], &[5, 0, 0, 0, 1], &[]],
        102,
        OpenFault::Illegal(91, Illegal::NoSession(1)),
    ),
    // Session 1 is started for the booking of session 0.
    (
        [
            &[1, 0, 0, 0, 78],
            &[6, 0, 0, 0, 1, 0, 0, 0, 0, 0, 0, 0, 70, 1, 0x3f],
            REST,
        ],
        175,
        OpenFault::Illegal(91, Illegal::Booked(0)),
    ),
    // Where a form isn't marked proved its tree has to be spent, and a tree without an open leaf
    // isn't.
    ([SERVE, REST, TOO_HIGH], 184, OpenFault::BadTree(91)),
    ([SERVE, REST, UNMARKED], 184, OpenFault::BadTree(91)),
];

/// The journal is refused, and so it is with two bytes more: what is after the last gate is cut
/// once each record was taken, and not before.
fn expect_refusal_of_second<R: Abort>(rt: &R, alloc: Global, (record, length, fault): &Second) {
    let [front, middle, rest] = *record;
    let file = [HEADER, START, REST, front, middle, rest, END];
    expect_refusal(rt, alloc, &file, *length, LIMIT, *fault);
    let longer = [HEADER, START, REST, front, middle, rest, END, MORE];
    let length = length.saturating_add(2);
    expect_refusal(rt, alloc, &longer, length, LIMIT, *fault);
}

#[test]
fn second_records_at_fault(rt: HostRuntime) {
    for second in &SECONDS {
        expect_refusal_of_second(&rt, rt.alloc(), second);
    }
}
