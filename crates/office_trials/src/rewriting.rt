//! Journals of whole sessions, written by the first version and moved back.

ghost use Rattle.std.specs.Prelude.{◌<◌};
ghost use Rattle.answer_journal.specs.Standing.{IsAsLeft};
ghost use Rattle.exam_edge.specs.MemoryDisk.{accounts_of};
ghost use Rattle.form_model.specs.Validity.{IsPlanFor};

use crate::equal::expect_equal;
use crate::expected::expect_parts;
use crate::files::HEADER;
use crate::moves::{Migration, done, migrated};
use crate::old_files::{MARK, OLD_HEADER};
use crate::outcome::{Call, Numbers, Reply, SESSION, Step, Trial, WORKED, disk_of, draft, run};
use answer_journal::{Journal, Payload};
use bank_tables::Bank;
use constraint_model::Spec;
use exam_edge::MemoryDisk;
use exam_records::{decode, encode_old};
use form_model::{Draft, Rate};
use history_model::{Exposure, Summary};
use journal_audit::audit;
use std::alloc::Global;
use std::process::Abort;
use trial_cases::bank_a;

/// The payload of the first version for one of the second, with the eligible set of this band.
fn old_payload<R: Abort>(rt: &R, alloc: Global, first: u8, payload: &[u8]) -> Vec<u8>
    requires { first < 8 }
{
    match decode(alloc, payload) {
        Ok(rec) => encode_old(alloc, first, &rec).expect(rt, "a payload"),
        Err(_) => panic!(rt; "no record"),
    }
}

/// Adds an open gate and the record of a payload.
fn put_record<R: Abort>(rt: &R, file: &mut Vec<u8>, payload: &[u8]) {
    file.push(1).expect(rt, "a gate");
    let count = u32::try_from(payload.len()).expect(rt, "a length");
    file.extend_from_slice(&count.to_be_bytes())
        .expect(rt, "a length");
    file.extend_from_slice(payload).expect(rt, "a payload");
}

/// The journal of the first version that has these records.
fn old_journal<R: Abort>(rt: &R, alloc: Global, first: u8, payloads: &[Payload]) -> Vec<u8>
    requires { first < 8 }
{
    let mut file = OLD_HEADER.to_vec(alloc).expect(rt, "a header");
    for payload in payloads {
        let old = old_payload(rt, alloc, first, &payload.bytes);
        put_record(rt, &mut file, &old);
    }
    file.push(0).expect(rt, "a gate");
    file
}

/// The payloads of a journal.
fn payloads_of<R: Abort>(rt: &R, alloc: Global, disk: MemoryDisk) -> Vec<Payload>
    requires { IsAsLeft (accounts_of disk) }
{
    match Journal::open(alloc, disk, WORKED.journal) {
        Ok((journal, payloads)) => {
            let _disk = journal.into_disk();
            payloads
        }
        Err(_) => panic!(rt; "not opened"),
    }
}

/// A plan, the band in which a session starts, and calls.
struct Whole {
    numbers: Numbers,
    first: u8,
    steps: &'static [&'static [Step]],
}

/// At this rate the items of a finished session are ineligible in those after it.
const RARE: Numbers = Numbers {
    rate: Rate {
        num: 1,
        den: 65_535,
    },
    ..WORKED
};

/// The worked session, whatever is served in it, and two more. Eligibility is set aside where too
/// few items are eligible.
const CALLS: &[Step] = &[
    (Call::Begin(71), Reply::Any),
    (Call::Serve(0), Reply::Any),
    (Call::Answer(0, 0, 1), Reply::Any),
    (Call::Serve(0), Reply::Any),
    (Call::Answer(0, 1, 0), Reply::Any),
    (Call::Serve(0), Reply::Any),
    (Call::Answer(0, 2, 1), Reply::Any),
    (Call::Begin(72), Reply::Any),
    (Call::Serve(1), Reply::Any),
    (Call::Answer(1, 0, 0), Reply::Any),
    (Call::Serve(1), Reply::Any),
    (Call::Answer(1, 1, 0), Reply::Any),
    (Call::Serve(1), Reply::Any),
    (Call::Answer(1, 2, 0), Reply::Any),
    (Call::Begin(73), Reply::Any),
    (Call::ServeAgain(2), Reply::Any),
    (Call::Serve(2), Reply::Any),
    (Call::Close(2), Reply::Any),
];

/// The prior is greatest at ability 1.
const WHOLES: [Whole; 5] = [
    Whole {
        numbers: WORKED,
        first: 0,
        steps: &[&SESSION],
    },
    Whole {
        numbers: RARE,
        first: 0,
        steps: &[CALLS],
    },
    Whole {
        numbers: Numbers {
            points: &[1],
            ..RARE
        },
        first: 1,
        steps: &[CALLS],
    },
    Whole {
        numbers: Numbers {
            points: &[2],
            ..RARE
        },
        first: 0,
        steps: &[CALLS],
    },
    Whole {
        numbers: Numbers {
            points: &[1, 2],
            ..RARE
        },
        first: 1,
        steps: &[CALLS],
    },
];

/// What an audit finds: the summary, and the exposure in all and in each band.
type Audit = (Summary, Exposure, Vec<Exposure>);

fn expect_same_exposure<R: Abort>(rt: &R, now: &Exposure, was: &Exposure) {
    expect_equal(rt, &now.finished, &was.finished);
    expect_equal(rt, &now.rows.as_slice(), &was.rows.as_slice());
}

fn expect_same_bands<R: Abort>(rt: &R, now: &[Exposure], was: &[Exposure]) {
    expect_equal(rt, &now.len(), &was.len());
    for (band, before) in now.iter().zip(was) {
        expect_same_exposure(rt, band, before);
    }
}

fn expect_same_audit<R: Abort>(rt: &R, now: &Audit, was: &Audit) {
    expect_equal(rt, &now.0, &was.0);
    expect_same_exposure(rt, &now.1, &was.1);
    expect_same_bands(rt, &now.2, &was.2);
}

fn audit_of<R: Abort>(rt: &R, alloc: Global, bank: &Bank, spec: &Spec, file: &[u8]) -> Audit
    requires { IsPlanFor bank.now spec.now }
{
    let mut disk = disk_of(rt, alloc, &[file], &[]);
    audit(alloc, bank, spec, &mut disk).expect(rt, "a history")
}

fn audit_by<R: Abort>(rt: &R, alloc: Global, bank: &Bank, draft: Draft, file: &[u8]) -> Audit {
    match Spec::of(alloc, bank, draft) {
        Ok(spec) => audit_of(rt, alloc, bank, &spec, file),
        Err(_) => panic!(rt; "no plan"),
    }
}

/// An audit of the file under the plan with these numbers.
fn audited<R: Abort>(rt: &R, alloc: Global, numbers: &Numbers, file: &[u8]) -> Audit {
    let bank = bank_a(alloc).expect(rt, "a bank");
    audit_by(rt, alloc, &bank, draft(rt, alloc, numbers), file)
}

/// An audit finds the same in each of the files.
fn expect_same_audits<R: Abort>(rt: &R, alloc: Global, numbers: &Numbers, files: [&[u8]; 2]) {
    let [now, was] = files;
    let before = audited(rt, alloc, numbers, was);
    expect_same_audit(rt, &audited(rt, alloc, numbers, now), &before);
}

/// A journal of the second version, and the same records by the first.
#[derive(Drop)]
struct Both {
    new: Vec<u8>,
    old: Vec<u8>,
    records: u64,
}

fn both_of<R: Abort>(rt: &R, alloc: Global, first: u8, new: Vec<u8>) -> Both {
    let payloads = payloads_of(rt, alloc, disk_of(rt, alloc, &[&new], &[]));
    if first >= 8 {
        panic!(rt; "no band");
    }
    let old = old_journal(rt, alloc, first, &payloads);
    let records = payloads.len() as u64;
    Both { new, old, records }
}

/// The journal of the first version is moved to the records of the other.
fn moves_back<R: Abort>(rt: &R, alloc: Global, numbers: &Numbers, both: &Both) -> Vec<u8> {
    let migration = Migration {
        numbers: *numbers,
        file: &[&both.old],
        fails: &[],
    };
    let left = migrated(rt, alloc, &migration);
    let length = left.bytes.len() as u64;
    expect_equal(rt, &left.answer, &done(both.records, length));
    let front = both
        .old
        .get(..both.old.len().saturating_sub(1))
        .expect(rt, "records");
    let rest = both.new.get(HEADER.len()..).expect(rt, "records");
    expect_parts(rt, alloc, &left.bytes, &[front, MARK, rest]);
    left.bytes
}

fn expect_moved_back<R: Abort>(rt: &R, alloc: Global, row: &Whole) {
    let trial = Trial {
        numbers: row.numbers,
        file: &[],
        fails: &[],
        steps: row.steps,
    };
    let both = both_of(rt, alloc, row.first, run(rt, alloc, &trial).bytes);
    let moved = moves_back(rt, alloc, &row.numbers, &both);
    expect_same_audits(rt, alloc, &row.numbers, [&both.old, &both.new]);
    expect_same_audits(rt, alloc, &row.numbers, [&moved, &both.new]);
}

#[test]
fn whole_sessions_are_moved(rt: HostRuntime) {
    for row in &WHOLES {
        expect_moved_back(&rt, rt.alloc(), row);
    }
}
