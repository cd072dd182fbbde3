//! Scripts: what is read of worked scripts, the first faulty line, the limit of the length, sources
//! that fail, and the texts of faults. What is expected is from the rules of the script.

use crate::equal::{expect_equal, expect_equal_at};
use crate::source::{bytes_of, source_of};
use history_model::Request;
use replay_cli::{ScriptFault, read_script};
use std::alloc::Global;
use std::process::Abort;
use trial_cases::set_of;

/// The requests that these bytes are read to, or the fault. The calls of their source that have
/// these numbers fail.
fn read<R: Abort>(
    rt: &R,
    alloc: Global,
    bytes: Vec<u8>,
    fails: &[u64],
) -> Result<Vec<Request>, ScriptFault> {
    read_script(alloc, &mut source_of(rt, alloc, bytes, fails))
}

/// A request of each kind without a list, some with the greatest numbers, some with the least.
fn each_kind() -> [Request; 7] {
    [
        Request::Begin(18_446_744_073_709_551_615),
        Request::Answer {
            session: 4_294_967_295,
            step: 65_535,
            response: 255,
            booking: None,
        },
        Request::Answer {
            session: 0,
            step: 0,
            response: 0,
            booking: Some(18_446_744_073_709_551_615),
        },
        Request::Close {
            session: 10,
            booking: None,
        },
        Request::Close {
            session: 10,
            booking: Some(0),
        },
        Request::Look(0),
        Request::Exposure,
    ]
}

/// Texts of these requests. The second is the first without the last line feed.
const SCRIPTS: [&str; 2] = [
    "begin 18446744073709551615\nanswer 4294967295 65535 255\nanswer 0 0 0 for 18446744073709551615\nclose 10\nclose 10 for 0\nlook 0\nexposure\n",
    "begin 18446744073709551615\nanswer 4294967295 65535 255\nanswer 0 0 0 for 18446744073709551615\nclose 10\nclose 10 for 0\nlook 0\nexposure",
];

fn expect_requests<R: Abort>(rt: &R, alloc: Global, text: &str, requests: &[Request]) {
    let found = read(rt, alloc, bytes_of(rt, alloc, text), &[]).expect(rt, "a script");
    expect_equal(rt, &found.as_slice(), &requests);
}

#[test]
fn each_kind_of_line_is_read(rt: HostRuntime) {
    for text in &SCRIPTS {
        expect_requests(&rt, rt.alloc(), text, &each_kind());
    }
    expect_requests(&rt, rt.alloc(), "", &[]);
}

/// Texts, each with the number of the first line that is out of form.
const OUT_OF_FORM: [(&str, u64); 49] = [
    ("answer 0 0\n", 1),
    ("\n", 1),
    ("exposure\n\n", 2),
    ("begin 1\n\nbegin 2\n", 2),
    ("begin 1\nbegin 2\nlook\nlook -1\n", 3),
    ("begin 18446744073709551616\n", 1),
    ("begin 1\nbegin 01\n", 2),
    ("answer 4294967296 0 0\n", 1),
    ("answer 0 65536 0\n", 1),
    ("answer 0 0 256\n", 1),
    ("answer 0 0 0 0\n", 1),
    ("answer 0 0 0 for\n", 1),
    ("answer 0 0 0 7\n", 1),
    ("answer 0 0 0 of 7\n", 1),
    ("answer 0 0 0 for 7 8\n", 1),
    ("answer 0 0 0 for 07\n", 1),
    ("answer 0 0 0 for 18446744073709551616\n", 1),
    ("answer 0 0 0  for 7\n", 1),
    ("answer 0 0 for 7\n", 1),
    ("close 0\nclose 0 for\n", 2),
    ("close 0 7\n", 1),
    ("close 0 For 7\n", 1),
    ("close 0 for -7\n", 1),
    ("look 0 for 7\n", 1),
    ("begin 1 for 7\n", 1),
    ("close 4294967296\n", 1),
    ("look 4294967296\n", 1),
    ("exposure 1\n", 1),
    ("begin  1\n", 1),
    (" begin 1\n", 1),
    ("begin 1 \n", 1),
    ("begin +1\n", 1),
    ("begin 1\r\n", 1),
    ("Begin 1\n", 1),
    ("# begin 1\n", 1),
    ("begin 1 without\n", 1),
    ("begin 1 without \n", 1),
    ("begin 1 without 0 1\n", 1),
    ("begin 1 without 0-1 2\n", 1),
    ("begin 1 without 2-2\n", 1),
    ("begin 1 without 2-1\n", 1),
    ("begin 1 without 3 1\n", 1),
    ("begin 1 without 0-3 2\n", 1),
    ("begin 1 without 512\n", 1),
    ("begin 1 without 510-512\n", 1),
    ("begin 1 without 02\n", 1),
    ("begin 1 without 2,4\n", 1),
    ("begin 1 Without 2\n", 1),
    (
        "begin 1 without 2\nbegin 18446744073709551616 without 2\n",
        2,
    ),
];

fn expect_out_of_form<R: Abort>(rt: &R, alloc: Global, text: &str, line: u64) {
    let found = read(rt, alloc, bytes_of(rt, alloc, text), &[]).err();
    expect_equal_at(rt, text, &found, &Some(ScriptFault::Line(line)));
}

#[test]
fn the_first_line_out_of_form_is_named(rt: HostRuntime) {
    for (text, line) in &OUT_OF_FORM {
        expect_out_of_form(&rt, rt.alloc(), text, *line);
    }
}

/// Lines of beginnings with a list, each with the booking and the items.
const LISTS: [(&str, u64, &[u16]); 5] = [
    ("begin 71 without 2\n", 71, &[2]),
    ("begin 0 without 0-1 5", 0, &[0, 1, 5]),
    ("begin 18446744073709551615 without 511\n", u64::MAX, &[511]),
    (
        "begin 7 without 63-64 66 127-130\n",
        7,
        &[63, 64, 66, 127, 128, 129, 130],
    ),
    ("begin 8 without 0 2 4-6\n", 8, &[0, 2, 4, 5, 6]),
];

fn expect_list<R: Abort>(rt: &R, alloc: Global, text: &str, booking: u64, items: &[u16]) {
    let expected = [Request::BeginWithout {
        booking,
        items: set_of(items),
    }];
    expect_requests(rt, alloc, text, &expected);
}

#[test]
fn a_line_with_a_list_is_read(rt: HostRuntime) {
    for (text, booking, items) in &LISTS {
        expect_list(&rt, rt.alloc(), text, *booking, items);
    }
}

/// So many bytes `x`, the calls of their source that fail, and the fault.
///
/// 10,000 bytes take four calls: three pieces of at most 4,096 bytes, and one that meets the end.
/// Each of these, if it fails, is a fault of the source.
const BYTES: [(usize, &[u64], ScriptFault); 6] = [
    (16_777_216, &[], ScriptFault::Line(1)),
    (16_777_217, &[], ScriptFault::TooLong),
    (10_000, &[0], ScriptFault::Source),
    (10_000, &[1], ScriptFault::Source),
    (10_000, &[2], ScriptFault::Source),
    (10_000, &[3], ScriptFault::Source),
];

fn expect_fault<R: Abort>(rt: &R, alloc: Global, count: usize, fails: &[u64], fault: ScriptFault) {
    let bytes = vec![in alloc; b'x'; count].expect(rt, "bytes");
    expect_equal(rt, &read(rt, alloc, bytes, fails).err(), &Some(fault));
}

#[test]
fn the_limit_is_exact_and_each_read_fails(rt: HostRuntime) {
    for (count, fails, fault) in &BYTES {
        expect_fault(&rt, rt.alloc(), *count, fails, *fault);
    }
}

/// Faults, each with its text.
const FAULTS: [(ScriptFault, &str); 4] = [
    (ScriptFault::TooLong, "script: too long\n"),
    (ScriptFault::Line(12), "script: line 12\n"),
    (ScriptFault::Source, "files failed\n"),
    (ScriptFault::Memory, "no memory\n"),
];

fn expect_text<R: Abort>(rt: &R, alloc: Global, fault: ScriptFault, text: &str) {
    let found = fault.text(alloc).expect(rt, "a text");
    expect_equal(rt, &found.as_str(), &text);
}

#[test]
fn a_fault_has_its_text(rt: HostRuntime) {
    for (fault, text) in &FAULTS {
        expect_text(&rt, rt.alloc(), *fault, text);
    }
}
