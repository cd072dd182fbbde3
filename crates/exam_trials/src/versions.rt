//! A journal of the first version: what refuses it, and how it is moved to the second.

use crate::bands::{BANK_UP, PLAN_UP};
use crate::equal::{expect_bytes, expect_equal};
use crate::journals::{expect_end, replayed};
use crate::outcome::{AUDIT, CALM, Given, MIGRATE, REPLAY, Ran, SERVE, bytes_of, outcome};
use std::alloc::AllocGlobal;
use std::process::Abort;
use std::sync::Wait;
use std::thread::Threads;
use trial_cases::{BANK_A, PLAN_A};

/// The front of the start of session 0 for booking 70, up to the first byte of its set.
const STARTED: &[u8] = b"\x01\0\0\0\x4d\x01\0\0\0\0\0\0\0\0\0\0\0\x46\x3f";

/// The front of the serving of item 2 at step 0, up to the first byte of its form.
const SERVED: &[u8] = b"\x01\0\0\0\x57\x03\0\0\0\0\0\0\0\x02\x0e";

/// Its form is proved by one node, and the tree is this; then a closed gate.
const PROVED: &[u8] = b"\x01\0\x01\x01\0\x01\0\x03\0\0\0\x01\x03\0\0";

/// The journal of a session of bank A that waits for its first response, as the first version has
/// it.
fn old_journal<R: Abort + AllocGlobal>(rt: &R) -> Vec<u8> {
    let mut journal = bytes_of(rt, rt.alloc(), b"SHADOWJ1");
    for piece in [STARTED, &[0; 63], SERVED, &[0; 63], PROVED] {
        journal.extend_from_slice(piece).expect(rt, "a journal");
    }
    journal
}

/// What the program does on these words and this plan over this journal; these calls of the disk
/// fail.
fn over<'x, R: Abort + AllocGlobal + Threads + Wait + Sync>(
    rt: &R,
    words: &[&str],
    plan: &str,
    journal: &'x [u8],
    disk: &'x [u64],
) -> Ran {
    let given = Given {
        journal,
        disk,
        ..CALM
    };
    outcome(rt, words, &[BANK_A, plan, "look 0\n"], &given)
}

/// Sessions are refused over a journal of the first version, which stays as it is.
#[test]
fn sessions_over_the_first_version(rt: HostRuntime) {
    let old = old_journal(&rt);
    expect_equal(&rt, &old.len(), &183);
    for words in [REPLAY.as_slice(), SERVE.as_slice()] {
        let ran = over(&rt, words, PLAN_A, &old, &[]);
        expect_end(&rt, &ran, 6, b"journal: version\n", &old);
    }
}

/// It is moved, and stays so. The old records and their closed gate are its front, and the gate is
/// open.
#[test]
fn a_journal_is_moved(rt: HostRuntime) {
    let old = old_journal(&rt);
    let before = over(&rt, &AUDIT, PLAN_A, &old, &[]);
    expect_equal(&rt, &before.status, &0);
    let moved = over(&rt, &MIGRATE, PLAN_A, &old, &[]);
    expect_bytes(&rt, &moved.text, b"migrated 2 records length 364\n");
    expect_equal(&rt, &moved.status, &0);
    let journal = moved.journal.as_slice();
    expect_equal(&rt, &journal.len(), &364);
    assert!(&rt; journal.get(..182) == old.get(..182));
    for gate in [182, 188, 271] {
        expect_equal(&rt, &journal.get(gate), &Some(&1));
    }
    expect_equal(&rt, &journal.last(), &Some(&0));
    let after = over(&rt, &AUDIT, PLAN_A, journal, &[]);
    expect_end(&rt, &after, 0, &before.text, journal);
    let again = over(&rt, &MIGRATE, PLAN_A, journal, &[]);
    expect_end(&rt, &again, 0, b"migrated 0 records length 364\n", journal);
    let shown = replayed(&rt, "look 0\n", journal);
    expect_end(&rt, &shown, 0, b"session 0 step 0 item 2 proved\n", journal);
}

/// Whether this call of the disk is one of that migration. If it fails, the journal keeps its
/// history, and can be moved after that.
fn fails<R: Abort + AllocGlobal + Threads + Wait + Sync>(
    rt: &R,
    call: u64,
    audited: &[u8],
) -> bool {
    let ran = over(rt, &MIGRATE, PLAN_A, &old_journal(rt), &[call]);
    if ran.status == 0 {
        return false;
    }
    expect_equal(rt, &ran.status, &9);
    expect_bytes(rt, &ran.text, b"disk failed\n");
    let found = over(rt, &AUDIT, PLAN_A, &ran.journal, &[]);
    expect_end(rt, &found, 0, audited, &ran.journal);
    let moved = over(rt, &MIGRATE, PLAN_A, &ran.journal, &[]);
    expect_equal(rt, &moved.status, &0);
    let found = over(rt, &AUDIT, PLAN_A, &moved.journal, &[]);
    expect_end(rt, &found, 0, audited, &moved.journal);
    true
}

#[test]
fn each_failing_call_of_a_migration(rt: HostRuntime) {
    let audited = over(&rt, &AUDIT, PLAN_A, &old_journal(&rt), &[]);
    for call in 0..40u64 {
        if !fails(&rt, call, &audited.text) {
            return;
        }
    }
    panic!(&rt; "a migration with more calls");
}

/// Journals that are not moved, each with the status and the text. One without a record that is of
/// the first version is moved: its mark and the closed gate are seven bytes.
const OTHERS: [(&str, u8, &str); 6] = [
    ("", 0, "migrated 0 records length 0\n"),
    ("SHADOWJ1\0", 0, "migrated 0 records length 9\n"),
    ("SHADOWJ2\0", 0, "migrated 0 records length 9\n"),
    ("no journal", 6, "journal: header\n"),
    (
        "SHADOWJ1\u{1}\0\0\0\u{1}\u{9}\0",
        6,
        "journal: record at 8\n",
    ),
    (
        "SHADOWJ2\u{1}\0\0\0\u{1}\u{8}\0",
        6,
        "journal: record at 8\n",
    ),
];

#[test]
fn journals_that_stay(rt: HostRuntime) {
    for (journal, status, text) in &OTHERS {
        let ran = over(&rt, &MIGRATE, PLAN_A, journal.as_bytes(), &[]);
        expect_end(&rt, &ran, *status, text.as_bytes(), journal.as_bytes());
    }
}

#[test]
fn a_journal_without_a_record_is_moved(rt: HostRuntime) {
    let ran = over(&rt, &MIGRATE, PLAN_A, b"SHADOWJ1\0\0", &[]);
    let moved = b"SHADOWJ1\x01\0\0\0\x01\x08\0";
    expect_end(&rt, &ran, 0, b"migrated 0 records length 15\n", moved);
}

/// The limit of the journal is tested before the first write.
#[test]
fn the_limit_of_a_migration(rt: HostRuntime) {
    let old = old_journal(&rt);
    let small = "length 3\nprior -10 0 -10\ncount 1 1 0-1\nenemies 2 5\njournal 363\n";
    let ran = over(&rt, &MIGRATE, small, &old, &[]);
    expect_end(&rt, &ran, 13, b"limit journal 364 of 363\n", &old);
    let enough = "length 3\nprior -10 0 -10\ncount 1 1 0-1\nenemies 2 5\njournal 364\n";
    let ran = over(&rt, &MIGRATE, enough, &old, &[]);
    expect_bytes(&rt, &ran.text, b"migrated 2 records length 364\n");
}

/// The journal of the first version that was written under a plan of two bands: of each part the
/// first bytes, and then so many zeros.
const OF_BANDS: [(&str, usize); 9] = [
    ("534841444f574a31010000004d010000000000000000000000463f", 63),
    ("01000000570300000000000000020e", 63),
    (
        "01000101000100030000004103000100000008040000000000000001000000570300000000000100010e",
        63,
    ),
    (
        "01000101000100030000004103000100000008040000000000010001000000570300000000000200030e",
        63,
    ),
    (
        "010001010001000300000041030001000000080400000000000200010000004d0100000001000000000000004731",
        63,
    ),
    ("010000004e03000000010000000531", 63),
    (
        "010001000601000000080400000001000001010000005703000000010001000432",
        63,
    ),
    (
        "010001010001000000000504030001000000080400000001000101010000005703000000010002000132",
        63,
    ),
    ("010001010001000000000504030000", 0),
];

fn journal_of_bands<R: Abort + AllocGlobal>(rt: &R) -> Vec<u8> {
    let mut journal = Vec::new(rt.alloc());
    for (front, zeros) in &OF_BANDS {
        let bytes = hex::decode(rt.alloc(), *front).expect(rt, "bytes");
        journal.extend_from_slice(&bytes).expect(rt, "a journal");
        for _ in 0..*zeros {
            journal.push(0).expect(rt, "a journal");
        }
    }
    journal
}

/// Its records get the sets of the other band, and an audit finds the same in both bands before and
/// after.
#[test]
fn a_journal_of_bands_is_moved(rt: HostRuntime) {
    let old = journal_of_bands(&rt);
    let texts = [BANK_UP, PLAN_UP, ""];
    let given = Given {
        journal: &old,
        ..CALM
    };
    let before = outcome(&rt, &AUDIT, &texts, &given);
    expect_equal(&rt, &before.status, &0);
    let moved = outcome(&rt, &MIGRATE, &texts, &given);
    expect_bytes(&rt, &moved.text, b"migrated 13 records length 1689\n");
    let journal = moved.journal.as_slice();
    expect_equal(&rt, &journal.len(), &1689);
    let after = outcome(&rt, &AUDIT, &texts, &Given { journal, ..CALM });
    expect_end(&rt, &after, 0, &before.text, journal);
}
