//! The program over files, a sink and a disk in memory.

ghost use Rattle.answer_journal.specs.Standing.{IsAsLeft};
ghost use Rattle.exam_edge.specs.MemoryDisk.{accounts_of};

use crate::equal::{expect_bytes, expect_equal};
use exam_edge::{MemoryDisk, MemoryDoor, MemoryFiles, MemorySink, OpenGate};
use exam_program::{Tools, World, run};
use std::alloc::{AllocGlobal, Global};
use std::process::Abort;
use std::sync::Wait;
use std::thread::Threads;

pub const REPLAY: [&str; 4] = ["replay", "bank", "plan", "script"];

pub const CHECK: [&str; 3] = ["check", "bank", "plan"];

pub const AUDIT: [&str; 3] = ["audit", "bank", "plan"];

pub const MIGRATE: [&str; 3] = ["migrate", "bank", "plan"];

pub const ASSEMBLE: [&str; 3] = ["assemble", "bank", "plan"];

pub const SERVE: [&str; 3] = ["serve", "bank", "plan"];

pub const FOLLOW: [&str; 3] = ["follow", "bank", "plan"];

pub const SHIP: [&str; 3] = ["ship", "bank", "plan"];

/// The journal that the program finds, and the numbers of the calls that fail.
#[derive(Clone, Copy)]
pub struct Given<'a> {
    pub journal: &'a [u8],
    pub files: &'a [u64],
    pub sink: &'a [u64],
    pub disk: &'a [u64],
}

/// An empty journal's file, and no call that fails.
pub const CALM: Given<'static> = Given {
    journal: &[],
    files: &[],
    sink: &[],
    disk: &[],
};

/// The status, what is written, and the journal that is left.
#[derive(Drop)]
pub struct Ran {
    pub status: u8,
    pub text: Vec<u8>,
    pub journal: Vec<u8>,
}

fn text_of<R: Abort>(rt: &R, alloc: Global, text: &str) -> String {
    String::from_str(alloc, text).expect(rt, "a text")
}

pub fn words_of<R: Abort>(rt: &R, alloc: Global, words: &[&str]) -> Vec<String> {
    let mut given = Vec::new(alloc);
    for word in words {
        given.push(text_of(rt, alloc, word)).expect(rt, "a word");
    }
    given
}

pub fn bytes_of<R: Abort>(rt: &R, alloc: Global, bytes: &[u8]) -> Vec<u8> {
    bytes.to_vec(alloc).expect(rt, "bytes")
}

/// The numbers of calls that fail.
pub fn numbers_of<R: Abort>(rt: &R, alloc: Global, fails: &[u64]) -> Vec<u64> {
    fails.to_vec(alloc).expect(rt, "numbers")
}

/// The names of the files.
const NAMES: [&str; 3] = ["bank", "plan", "script"];

fn files_of<R: Abort>(rt: &R, alloc: Global, texts: &[&str; 3]) -> Vec<(String, Vec<u8>)> {
    let mut files = Vec::new(alloc);
    for i in 0..3usize {
        let text = bytes_of(rt, alloc, texts[i].as_bytes());
        files
            .push((text_of(rt, alloc, NAMES[i]), text))
            .expect(rt, "a file");
    }
    files
}

/// The files with these texts; these calls of them fail.
fn memory_files<R: Abort>(rt: &R, alloc: Global, texts: &[&str; 3], fails: &[u64]) -> MemoryFiles {
    MemoryFiles::of(files_of(rt, alloc, texts), numbers_of(rt, alloc, fails))
}

/// A sink of which these calls fail.
fn sink_of<R: Abort>(rt: &R, alloc: Global, fails: &[u64]) -> MemorySink {
    MemorySink::of(alloc, Vec::new(alloc), numbers_of(rt, alloc, fails))
}

/// A disk with this journal; these calls of it fail.
fn disk_of<R: Abort>(rt: &R, alloc: Global, journal: &[u8], fails: &[u64]) -> MemoryDisk
    ensures { IsAsLeft (accounts_of result) }
{
    let journal = bytes_of(rt, alloc, journal);
    MemoryDisk::of(alloc, journal, numbers_of(rt, alloc, fails))
}

pub fn tools_of<R: Abort>(
    rt: &R,
    alloc: Global,
    texts: &[&str; 3],
    given: &Given<'_>,
) -> Tools<MemoryFiles, MemorySink, MemoryDisk>
    ensures { IsAsLeft (accounts_of result.disk) }
{
    Tools {
        files: memory_files(rt, alloc, texts, given.files),
        out: sink_of(rt, alloc, given.sink),
        disk: disk_of(rt, alloc, given.journal, given.disk),
    }
}

/// The status that the program ended with, and copies of what it wrote and left.
fn ran_of<R: Abort>(rt: &R, alloc: Global, status: u8, out: &MemorySink, disk: &MemoryDisk) -> Ran {
    Ran {
        status,
        text: bytes_of(rt, alloc, out.bytes()),
        journal: bytes_of(rt, alloc, disk.bytes()),
    }
}

/// What the program does on these words and files, with no doors.
pub fn outcome<R: Abort + AllocGlobal + Threads + Wait + Sync>(
    rt: &R,
    words: &[&str],
    texts: &[&str; 3],
    given: &Given<'_>,
) -> Ran {
    let alloc = rt.alloc();
    let words = words_of(rt, alloc, words);
    let Tools { files, out, disk } = tools_of(rt, alloc, texts, given);
    let doors: Vec<MemoryDoor> = Vec::new(alloc);
    let world = World {
        files,
        out,
        disk,
        doors,
        gate: OpenGate,
        token: None,
    };
    let finish = run(rt, alloc, &words, world);
    ran_of(rt, alloc, finish.status, &finish.out, &finish.disk)
}

/// Over an empty journal, and where no call fails, the program ends with this status and prints
/// this text.
pub fn expect_text<R: Abort + AllocGlobal + Threads + Wait + Sync>(
    rt: &R,
    words: &[&str],
    texts: &[&str; 3],
    status: u8,
    text: &str,
) {
    let ran = outcome(rt, words, texts, &CALM);
    expect_bytes(rt, &ran.text, text.as_bytes());
    expect_equal(rt, &ran.status, &status);
}

/// Over an empty journal, and where no call fails, the program ends with this status and prints a
/// text that begins so.
pub fn expect_front<R: Abort + AllocGlobal + Threads + Wait + Sync>(
    rt: &R,
    words: &[&str],
    texts: &[&str; 3],
    status: u8,
    front: &str,
) {
    let ran = outcome(rt, words, texts, &CALM);
    assert!(rt; ran.text.starts_with(front.as_bytes()));
    expect_equal(rt, &ran.status, &status);
}

/// A run over this journal prints this.
fn expect_text_over<R: Abort + AllocGlobal + Threads + Wait + Sync>(
    rt: &R,
    journal: &[u8],
    texts: &[&str; 3],
    text: &str,
) {
    let ran = outcome(rt, &REPLAY, texts, &Given { journal, ..CALM });
    expect_bytes(rt, &ran.text, text.as_bytes());
    expect_equal(rt, &ran.status, &0);
}

/// A second run over the journal that the first left prints this.
pub fn expect_second_run<R: Abort + AllocGlobal + Threads + Wait + Sync>(
    rt: &R,
    first: &[&str; 3],
    second: &[&str; 3],
    text: &str,
) {
    let ran = outcome(rt, &REPLAY, first, &CALM);
    expect_text_over(rt, &ran.journal, second, text);
}

/// The audit of the journal that a replay left prints a text that begins and ends so, and leaves
/// the journal as it was.
pub fn expect_audit<R: Abort + AllocGlobal + Threads + Wait + Sync>(
    rt: &R,
    texts: &[&str; 3],
    ends: &[&str; 2],
) {
    let ran = outcome(rt, &REPLAY, texts, &CALM);
    let journal = ran.journal.as_slice();
    let found = outcome(rt, &AUDIT, texts, &Given { journal, ..CALM });
    expect_equal(rt, &found.status, &0);
    assert!(rt; found.text.starts_with(ends[0].as_bytes()));
    assert!(rt; found.text.ends_with(ends[1].as_bytes()));
    expect_bytes(rt, &found.journal, journal);
}
