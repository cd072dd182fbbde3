//! The statuses with their texts.

use crate::journals::{expect_end, replayed};
use crate::outcome::{ASSEMBLE, CHECK, REPLAY, expect_front, expect_text};
use crate::texts::{BANK_E, BANK_ODD, SCRIPT_A};
use std::alloc::AllocGlobal;
use std::process::Abort;
use std::sync::Wait;
use std::thread::Threads;
use trial_cases::{BANK_A, PLAN_A};

/// Texts of a bank and a plan, each with the status and the front of what `assemble` prints.
const ASSEMBLED: [(&str, &str, u8, &str); 3] = [
    (BANK_A, PLAN_A, 0, "form 1 2 3\nobjective 23 proved nodes "),
    (
        BANK_E,
        "length 2\nprior 0\nbase-budget 1\nenemies 0 1\nenemies 1 2\nenemies 0 2\n",
        0,
        "form 0 3\nobjective 12 unproved nodes 1\ntree ",
    ),
    (
        BANK_ODD,
        "length 2\nprior 0\nquantity 0 3 3 0-3\n",
        11,
        "no form ",
    ),
];

#[test]
fn what_is_assembled(rt: HostRuntime) {
    for (bank, plan, status, front) in &ASSEMBLED {
        expect_front(&rt, &ASSEMBLE, &[bank, plan, ""], *status, front);
    }
}

#[test]
fn a_plan_without_a_form(rt: HostRuntime) {
    let none = "length 3\nprior -10 0 -10\ncount 3 3 0-1\nenemies 2 5\n";
    let texts = [BANK_A, none, SCRIPT_A];
    expect_text(&rt, &ASSEMBLE, &texts, 11, "no form 000501\n");
    expect_text(&rt, &REPLAY, &texts, 11, "no form 000501\n");
}

#[test]
fn a_base_budget_that_is_spent(rt: HostRuntime) {
    let short = "length 2\nprior 0\nbase-budget 1\nquantity 0 3 3 0-3\n";
    let texts = [BANK_ODD, short, "begin 1\n"];
    expect_front(&rt, &ASSEMBLE, &texts, 12, "no base form in 1 nodes ");
    expect_front(&rt, &REPLAY, &texts, 12, "no base form in 1 nodes ");
}

/// Words that ask for nothing.
const FAULTY: [[&str; 3]; 3] = [
    ["check", "bank", "-x"],
    ["check", "", "plan"],
    ["assemble", "bank", ""],
];

const USAGE: &str =
    "usage: shadowd check BANK PLAN | assemble BANK PLAN | replay BANK PLAN SCRIPT | serve BANK PLAN [AHEAD] | audit BANK PLAN | drill NUMBER SESSIONS | migrate BANK PLAN | series BANK PLAN K WEIGHTS | follow BANK PLAN | ship BANK PLAN\n";

#[test]
fn faulty_words(rt: HostRuntime) {
    let texts = [BANK_A, PLAN_A, SCRIPT_A];
    expect_text(&rt, &["replay", "a"], &texts, 2, USAGE);
    expect_text(
        &rt,
        &["series", "bank", "plan", "5", "0,1,0"],
        &texts,
        2,
        USAGE,
    );
    for words in &FAULTY {
        expect_text(&rt, words, &texts, 2, USAGE);
    }
}

/// A server with room for no prepared form, for more than 1,024, and for no number of them.
const NO_SERVERS: [[&str; 4]; 3] = [
    ["serve", "bank", "plan", "0"],
    ["serve", "bank", "plan", "1025"],
    ["serve", "bank", "plan", "x"],
];

#[test]
fn servers_with_no_number_of_forms(rt: HostRuntime) {
    let texts = [BANK_A, PLAN_A, SCRIPT_A];
    for words in &NO_SERVERS {
        expect_text(&rt, words, &texts, 2, USAGE);
    }
}

/// Texts of a bank and a plan, each with the status and the text that `check` prints.
const CHECKED: [(&str, &str, u8, &str); 3] = [
    ("", PLAN_A, 3, "bank: header column 0\n"),
    (
        BANK_A,
        "length 3\nprior -10 0 -10\nbudget 4\n",
        4,
        "plan: budget\n",
    ),
    (
        BANK_A,
        PLAN_A,
        0,
        "bank items 6 grid 3 quantities 0 stimuli 0
length 3
prior -10 0 -10
rate 1 1
key 0000000000000000000000000000000000000000000000000000000000000000
budget 2001
base-budget 4095
sessions 1000
journal 67108864
count 1 1 0-1
enemies 2 5
",
    ),
];

#[test]
fn what_check_prints(rt: HostRuntime) {
    for (bank, plan, status, text) in &CHECKED {
        expect_text(&rt, &CHECK, &[bank, plan, ""], *status, text);
    }
}

/// Texts of a plan and a script, each with the status and the text that `replay` prints over bank
/// A.
const REPLAYED: [(&str, &str, u8, &str); 4] = [
    (PLAN_A, "answer 0 0\n", 5, "script: line 1\n"),
    (PLAN_A, "", 0, ""),
    // A limit of the journal, and one of the sessions.
    (
        "length 3\nprior -10 0 -10\ncount 1 1 0-1\nenemies 2 5\njournal 91\n",
        "begin 70\n",
        13,
        "limit journal 92 of 91\n",
    ),
    (
        "length 3\nprior -10 0 -10\ncount 1 1 0-1\nenemies 2 5\nsessions 1\n",
        "begin 70\nbegin 71\n",
        13,
        "session 0 step 0 item 2 proved\nlimit sessions 1 of 1\n",
    ),
];

#[test]
fn what_replay_prints(rt: HostRuntime) {
    for (plan, script, status, text) in &REPLAYED {
        expect_text(&rt, &REPLAY, &[BANK_A, plan, script], *status, text);
    }
}

/// Files that are refused, each with the text of its fault. One of the first version is refused for
/// that only where nothing is wrong with its frames; then it may have no record, or one that no
/// version has. A mark is no record of the second version.
const NO_JOURNALS: [(&str, &str); 8] = [
    ("no journal", "journal: header\n"),
    ("SHADOWJ2\u{1}\0\0\0\u{1}\u{9}\0", "journal: record at 8\n"),
    ("SHADOWJ2\u{1}\0\0\0\u{1}\u{8}\0", "journal: record at 8\n"),
    ("SHADOWJ2\u{1}\0\0\0\0\0", "journal: length at 8\n"),
    ("SHADOWJ1\u{1}\0\0\0\u{1}\u{9}\0", "journal: version\n"),
    ("SHADOWJ1\0\0", "journal: version\n"),
    ("SHADOWJ1\u{1}\0\0\0\0\0", "journal: length at 8\n"),
    (
        "SHADOWJ1\u{1}\0\0\0\u{1}\u{8}\u{1}\0\0\0\u{1}\u{9}\0",
        "journal: record at 14\n",
    ),
];

/// A file that is refused is left as it was.
fn expect_refusal<R: Abort + AllocGlobal + Threads + Wait + Sync>(
    rt: &R,
    journal: &str,
    text: &str,
) {
    let ran = replayed(rt, SCRIPT_A, journal.as_bytes());
    expect_end(rt, &ran, 6, text.as_bytes(), journal.as_bytes());
}

#[test]
fn refused_journals(rt: HostRuntime) {
    for (journal, text) in &NO_JOURNALS {
        expect_refusal(&rt, journal, text);
    }
}
