//! Each call that fails, in turn, and the run of the worked session in which none does.

use crate::equal::{expect_bytes, expect_equal};
use crate::outcome::{CALM, Given, REPLAY, Ran, outcome};
use crate::texts::{LINES_A, SCRIPT_A};
use std::alloc::AllocGlobal;
use std::process::Abort;
use std::sync::Wait;
use std::thread::Threads;
use trial_cases::{BANK_A, PLAN_A};

/// What the program does on the script of the worked session.
fn session<R: Abort + AllocGlobal + Threads + Wait + Sync>(rt: &R, given: &Given<'_>) -> Ran {
    outcome(rt, &REPLAY, &[BANK_A, PLAN_A, SCRIPT_A], given)
}

/// The run printed a beginning of the whole session's lines and then this line.
fn expect_front<R: Abort>(rt: &R, text: &[u8], line: &[u8]) {
    assert!(rt; text.ends_with(line));
    let lines = text.len().saturating_sub(line.len());
    assert!(rt; text.get(..lines) == LINES_A.as_bytes().get(..lines));
}

/// The run ended with this status, and printed a beginning of the lines and then this line.
fn expect_stop<R: Abort>(rt: &R, ran: &Ran, status: u8, line: &[u8]) {
    expect_equal(rt, &ran.status, &status);
    expect_front(rt, &ran.text, line);
}

/// The run is whole: the call that was to fail is one that no run of the session makes.
fn expect_whole<R: Abort + AllocGlobal + Threads + Wait + Sync>(rt: &R, given: &Given<'_>) {
    expect_equal(rt, &session(rt, given).status, &0);
}

/// The journal has these bytes.
fn expect_journal<R: Abort>(rt: &R, ran: &Ran, journal: &[u8]) {
    expect_bytes(rt, &ran.journal, journal);
}

/// If this call of the files fails, the run ends, and leaves no journal.
fn expect_failed_files<R: Abort + AllocGlobal + Threads + Wait + Sync>(rt: &R, call: u64) {
    let files: &[u64] = &[call];
    let ran = session(rt, &Given { files, ..CALM });
    expect_stop(rt, &ran, 7, b"files failed\n");
    expect_journal(rt, &ran, &[]);
}

/// Each text is read by two calls.
#[test]
fn each_failing_call_of_the_files(rt: HostRuntime) {
    for call in 0..6u64 {
        expect_failed_files(&rt, call);
    }
    expect_whole(
        &rt,
        &Given {
            files: &[6],
            ..CALM
        },
    );
}

/// If this call of the sink fails, the run ends.
fn expect_failed_sink<R: Abort + AllocGlobal + Threads + Wait + Sync>(rt: &R, call: u64) {
    let sink: &[u64] = &[call];
    expect_stop(rt, &session(rt, &Given { sink, ..CALM }), 8, b"");
}

/// Each of the four lines is printed by one call.
#[test]
fn each_failing_call_of_the_sink(rt: HostRuntime) {
    for call in 0..4u64 {
        expect_failed_sink(&rt, call);
    }
    expect_whole(&rt, &Given { sink: &[4], ..CALM });
}

/// What the request added stays where its line can't be printed.
#[test]
fn a_full_sink_keeps_the_journal(rt: HostRuntime) {
    let given = Given { sink: &[0], ..CALM };
    let ran = outcome(&rt, &REPLAY, &[BANK_A, PLAN_A, "begin 70\n"], &given);
    expect_equal(&rt, &ran.status, &8);
    expect_look(&rt, &ran.journal);
}

/// A look over this journal shows the first item, and leaves the journal as it was.
fn expect_look<R: Abort + AllocGlobal + Threads + Wait + Sync>(rt: &R, journal: &[u8]) {
    let kept = Given { journal, ..CALM };
    let again = outcome(rt, &REPLAY, &[BANK_A, PLAN_A, "look 0\n"], &kept);
    expect_bytes(rt, &again.text, b"session 0 step 0 item 2 proved\n");
    expect_journal(rt, &again, journal);
}

/// The script once more over this journal is whole, and leaves the journal of the whole session.
fn expect_second_run<R: Abort + AllocGlobal + Threads + Wait + Sync>(
    rt: &R,
    journal: &[u8],
    whole: &[u8],
) {
    let again = session(rt, &Given { journal, ..CALM });
    expect_equal(rt, &again.status, &0);
    assert!(rt; again.text.ends_with(b"session 0 complete\n"));
    expect_journal(rt, &again, whole);
}

/// If this call of the disk fails, the run ends, and a run over the journal that is left goes on.
fn expect_failed_disk<R: Abort + AllocGlobal + Threads + Wait + Sync>(
    rt: &R,
    call: u64,
    whole: &[u8],
) {
    let disk: &[u64] = &[call];
    let ran = session(rt, &Given { disk, ..CALM });
    expect_stop(rt, &ran, 9, b"disk failed\n");
    expect_second_run(rt, &ran.journal, whole);
}

/// Opening an empty file is six calls of the disk, and each of the seven entries is four.
#[test]
fn each_failing_call_of_the_disk(rt: HostRuntime) {
    let whole = session(&rt, &CALM);
    for call in 0..34u64 {
        expect_failed_disk(&rt, call, &whole.journal);
    }
    expect_whole(
        &rt,
        &Given {
            disk: &[34],
            ..CALM
        },
    );
}
