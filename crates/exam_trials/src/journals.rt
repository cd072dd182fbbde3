//! The journal of the worked session, cut or altered.

ghost use Rattle.std.specs.Prelude.{◌≤◌, length};

use crate::equal::{expect_bytes, expect_equal};
use crate::outcome::{CALM, Given, REPLAY, Ran, outcome};
use crate::texts::SCRIPT_A;
use std::alloc::AllocGlobal;
use std::process::Abort;
use std::sync::Wait;
use std::thread::Threads;
use trial_cases::{BANK_A, PLAN_A};

/// What the program does on this script over this journal.
pub fn replayed<R: Abort + AllocGlobal + Threads + Wait + Sync>(
    rt: &R,
    script: &str,
    journal: &[u8],
) -> Ran {
    let given = Given { journal, ..CALM };
    outcome(rt, &REPLAY, &[BANK_A, PLAN_A, script], &given)
}

/// The run ended with this status, printed this text and left this journal.
pub fn expect_end<R: Abort>(rt: &R, ran: &Ran, status: u8, text: &[u8], journal: &[u8]) {
    expect_bytes(rt, &ran.text, text);
    expect_equal(rt, &ran.status, &status);
    expect_bytes(rt, &ran.journal, journal);
}

/// The length of the payload after a gate: the four bytes there, the most significant first.
fn payload_length(journal: &[u8], gate: usize) -> usize {
    let mut length = 0usize;
    for byte in journal.iter().skip(gate).skip(1).take(4) {
        length = length.wrapping_mul(256).wrapping_add(usize::from(*byte));
    }
    length
}

/// The greatest place of a gate below a size. The first gate is at 8, and the next is after a
/// length of four bytes and the payload.
fn last_gate(journal: &[u8], size: usize) -> usize {
    let mut gate = 8usize;
    for _ in 0..size {
        let record = payload_length(journal, gate).saturating_add(5);
        let next = gate.saturating_add(record);
        if next >= size {
            break;
        }
        gate = next;
    }
    gate
}

/// The front of a journal is refused, and left as it was.
fn expect_cut<R: Abort + AllocGlobal + Threads + Wait + Sync>(rt: &R, whole: &[u8], size: usize)
    requires { size ≤ length whole.now }
{
    let gate = last_gate(whole, size);
    let text = format!(in rt.alloc(); "journal: cut at {gate}\n").expect(rt, "a line");
    let front = &whole[..size];
    expect_end(rt, &replayed(rt, "", front), 6, text.as_bytes(), front);
}

/// The front of a journal is the empty journal if it has at most nine bytes.
fn expect_end_of_front<R: Abort + AllocGlobal + Threads + Wait + Sync>(
    rt: &R,
    whole: &[u8],
    size: usize,
)
    requires { size ≤ length whole.now }
{
    if size <= 9 {
        expect_end(rt, &replayed(rt, "", &whole[..size]), 0, b"", b"SHADOWJ2\0");
    } else {
        expect_cut(rt, whole, size);
    }
}

#[test]
fn the_journal_cut_to_each_length(rt: HostRuntime) {
    let ran = replayed(&rt, SCRIPT_A, &[]);
    let whole = ran.journal.as_slice();
    for size in 0..whole.len() {
        expect_end_of_front(&rt, whole, size);
    }
    expect_end(&rt, &replayed(&rt, "", whole), 0, b"", whole);
}

/// A gate of any value but 1 is closed: nothing after it is a record, and it keeps its value.
#[test]
fn an_altered_gate_is_closed(rt: HostRuntime) {
    let mut ran = replayed(&rt, SCRIPT_A, &[]);
    if ran.journal.len() > 8 {
        ran.journal[8] = 0x81;
    }
    let ran = replayed(&rt, "look 0\n", &ran.journal);
    expect_end(&rt, &ran, 0, b"refused no-session 0\n", b"SHADOWJ2\x81");
}
