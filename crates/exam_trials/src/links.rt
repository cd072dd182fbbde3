//! Records that a leader ships to a follower, over doors in memory: the seven of the worked
//! session.

ghost use Rattle.std.specs.Prelude.{◌≡◌, ◌≤◌, false, vec_len};
ghost use Rattle.std.specs.List.{All};
ghost use Rattle.exam_edge.specs.MemoryDoor.{out_of};

use crate::equal::{expect_bytes, expect_equal};
use crate::outcome::{
    CALM, FOLLOW, Given, REPLAY, SHIP, bytes_of, numbers_of, outcome, tools_of, words_of,
};
use crate::texts::SCRIPT_A;
use exam_edge::{MemoryDoor, MemoryLink, OpenGate};
use exam_program::{Tools, World, run};
use std::alloc::{AllocGlobal, Global};
use std::process::Abort;
use std::sync::Wait;
use std::thread::Threads;
use trial_cases::{BANK_A, PLAN_A};

/// An answer of session 0 at its last step again: a record, which may not follow, as number 7.
const REFUSED_7: [u8; 21] = [
    1, 0, 0, 0, 0, 0, 0, 0, 7, 0, 0, 0, 8, 4, 0, 0, 0, 0, 0, 2, 1,
];

/// The numbers of the session, as far as they do not depend on its trees.
const SEVEN: &str =
    "following 7\nentries 7 sessions 1 finished 1 proved 3 unproved 0 aside 0 nodes ";

/// What the program is given: a journal, the bytes of a link, and the numbers of the calls that
/// fail, of the disk, the door and the link.
#[derive(Clone, Copy)]
struct Trial<'j, 'l, 'f> {
    journal: &'j [u8],
    link: &'l [u8],
    disk: &'f [u64],
    door: &'f [u64],
    fails: &'f [u64],
}

/// An empty journal, a link without bytes, and no call that fails.
const QUIET: Trial<'static, 'static, 'static> = Trial {
    journal: &[],
    link: &[],
    disk: &[],
    door: &[],
    fails: &[],
};

/// The status, what was printed, the journal that is left, and what was written to the link.
#[derive(Drop)]
struct Left {
    status: u8,
    text: Vec<u8>,
    journal: Vec<u8>,
    written: Vec<u8>,
}

/// The haves from one count to another, one after another.
fn haves<R: Abort>(rt: &R, alloc: Global, from: u8, to: u8) -> Vec<u8> {
    let mut bytes = Vec::new(alloc);
    for count in 0..=7u8 {
        if from <= count && count <= to {
            bytes
                .extend_from_slice(&[2, 0, 0, 0, 0, 0, 0, 0, count])
                .expect(rt, "haves");
        }
    }
    bytes
}

/// A door with one link, which gives these bytes; these calls of them fail.
fn door_of<R: Abort>(rt: &R, alloc: Global, trial: &Trial<'_, '_, '_>) -> MemoryDoor
    ensures { out_of result ≡ false }
{
    let mut links = Vec::new(alloc);
    let bytes = bytes_of(rt, alloc, trial.link);
    links
        .push(MemoryLink::of(alloc, bytes, numbers_of(rt, alloc, trial.fails)))
        .expect(rt, "a link");
    MemoryDoor::of(alloc, links, numbers_of(rt, alloc, trial.door)).expect(rt, "a door")
}

/// That door alone.
fn doors_of<R: Abort>(rt: &R, alloc: Global, trial: &Trial<'_, '_, '_>) -> Vec<MemoryDoor>
    ensures few { vec_len result ≤ 1 }
    ensures home { All (λ d. out_of d ≡ false) result.items }
{
    let mut doors = Vec::new(alloc);
    doors.push(door_of(rt, alloc, trial)).expect(rt, "a door");
    doors
}

/// What was written to the first link that came back to the first door.
fn written_to<R: Abort>(rt: &R, alloc: Global, doors: &[MemoryDoor]) -> Vec<u8> {
    match doors.first() {
        Some(door) => match door.returned().first() {
            Some(link) => bytes_of(rt, alloc, link.bytes()),
            None => Vec::new(alloc),
        },
        None => Vec::new(alloc),
    }
}

/// What the program leaves that follows or ships over these doors.
fn left_by<'x, R: Abort + AllocGlobal + Threads + Wait + Sync>(
    rt: &R,
    words: &[&str],
    doors: Vec<MemoryDoor>,
    trial: &Trial<'x, '_, 'x>,
) -> Left
    requires few { vec_len doors ≤ 1 }
    requires home { All (λ d. out_of d ≡ false) doors.items }
{
    let alloc = rt.alloc();
    let words = words_of(rt, alloc, words);
    let given = Given {
        journal: trial.journal,
        disk: trial.disk,
        ..CALM
    };
    let Tools { files, out, disk } = tools_of(rt, alloc, &[BANK_A, PLAN_A, ""], &given);
    let world = World {
        files,
        out,
        disk,
        doors,
        gate: OpenGate,
        token: None,
    };
    let finish = run(rt, alloc, &words, world);
    Left {
        status: finish.status,
        text: bytes_of(rt, alloc, finish.out.bytes()),
        journal: bytes_of(rt, alloc, finish.disk.bytes()),
        written: written_to(rt, alloc, &finish.doors),
    }
}

/// The same over one door.
fn linked<'x, R: Abort + AllocGlobal + Threads + Wait + Sync>(
    rt: &R,
    words: &[&str],
    trial: &Trial<'x, '_, 'x>,
) -> Left {
    let doors = doors_of(rt, rt.alloc(), trial);
    left_by(rt, words, doors, trial)
}

/// The run ended with this status and this text.
fn expect_end<R: Abort>(rt: &R, left: &Left, status: u8, text: &str) {
    expect_bytes(rt, &left.text, text.as_bytes());
    expect_equal(rt, &left.status, &status);
}

/// The journal of the worked session.
fn leader<R: Abort + AllocGlobal + Threads + Wait + Sync>(rt: &R) -> Vec<u8> {
    outcome(rt, &REPLAY, &[BANK_A, PLAN_A, SCRIPT_A], &CALM).journal
}

/// What a leader with this journal writes for the haves from one count to all.
fn offers_from<R: Abort + AllocGlobal + Threads + Wait + Sync>(
    rt: &R,
    journal: &[u8],
    from: u8,
) -> Vec<u8> {
    let link = haves(rt, rt.alloc(), from, 7);
    let trial = Trial {
        journal,
        link: &link,
        ..QUIET
    };
    let left = linked(rt, &SHIP, &trial);
    expect_end(rt, &left, 0, "shipped 7\n");
    expect_bytes(rt, &left.journal, journal);
    left.written
}

#[test]
fn a_leader_is_followed(rt: HostRuntime) {
    let journal = leader(&rt);
    let offers = offers_from(&rt, &journal, 0);
    let trial = Trial {
        link: &offers,
        ..QUIET
    };
    let left = linked(&rt, &FOLLOW, &trial);
    expect_equal(&rt, &left.status, &0);
    assert!(&rt; left.text.starts_with(SEVEN.as_bytes()));
    expect_bytes(&rt, &left.written, &haves(&rt, rt.alloc(), 0, 7));
    expect_bytes(&rt, &left.journal, &journal);
}

/// A follower with all records ends so after a link with these bytes, and leaves its file as it is.
fn expect_following<R: Abort + AllocGlobal + Threads + Wait + Sync>(
    rt: &R,
    journal: &[u8],
    link: &[u8],
    status: u8,
    front: &str,
    times: u8,
) {
    let trial = Trial {
        journal,
        link,
        ..QUIET
    };
    let left = linked(rt, &FOLLOW, &trial);
    expect_equal(rt, &left.status, &status);
    assert!(rt; left.text.starts_with(front.as_bytes()));
    expect_bytes(rt, &left.journal, journal);
    // A have at the start, and one after each offer that was taken, all of seven records.
    let seven = haves(rt, rt.alloc(), 7, 7);
    let mut written = Vec::new(rt.alloc());
    for _ in 0..times {
        written.extend_from_slice(&seven).expect(rt, "haves");
    }
    expect_bytes(rt, &left.written, &written);
}

/// The offer of record 2, as a leader with this journal writes it.
fn offer_of_2<R: Abort + AllocGlobal + Threads + Wait + Sync>(rt: &R, journal: &[u8]) -> Vec<u8> {
    let mut link = haves(rt, rt.alloc(), 2, 2);
    link.extend_from_slice(&haves(rt, rt.alloc(), 7, 7))
        .expect(rt, "haves");
    let trial = Trial {
        journal,
        link: &link,
        ..QUIET
    };
    let mut offer = linked(rt, &SHIP, &trial).written;
    // The last byte is the end.
    expect_equal(rt, &offer.pop(), &Some(3));
    offer
}

/// A probe, and a message that is cut off, leave the file as it is.
fn expect_no_message<R: Abort + AllocGlobal + Threads + Wait + Sync>(
    rt: &R,
    journal: &[u8],
    offer: &[u8],
) {
    let probe = b"GET / HTTP/1.1\r\n\r\n";
    expect_following(rt, journal, probe, 20, "peer message\n", 1);
    assert!(rt; offer.len() > 12);
    expect_following(rt, journal, &offer[..12], 20, "peer message\n", 1);
}

#[test]
fn other_offers_leave_the_file(rt: HostRuntime) {
    let journal = leader(&rt);
    let mut offer = offer_of_2(&rt, &journal);
    expect_following(&rt, &journal, &offer, 0, SEVEN, 2);
    expect_no_message(&rt, &journal, &offer);
    assert!(&rt; offer.len() > 9);
    offer[8] = 9;
    expect_following(&rt, &journal, &offer, 0, SEVEN, 2);
    expect_following(&rt, &journal, &REFUSED_7, 21, "offer 7 refused\n", 1);
}

/// A follower of three records whose disk fails at a call of the fourth delivery goes on with so
/// many records.
fn expect_stop_at<R: Abort + AllocGlobal + Threads + Wait + Sync>(
    rt: &R,
    journal: &[u8],
    three: &[u8],
    call: u64,
    count: u8,
) {
    let fourth = offers_from(rt, journal, 3);
    let trial = Trial {
        journal: three,
        link: &fourth,
        disk: &[call],
        ..QUIET
    };
    let stopped = linked(rt, &FOLLOW, &trial);
    expect_end(rt, &stopped, 9, "disk failed\n");
    let rest = offers_from(rt, journal, count);
    let trial = Trial {
        journal: &stopped.journal,
        link: &rest,
        ..QUIET
    };
    let again = linked(rt, &FOLLOW, &trial);
    expect_equal(rt, &again.status, &0);
    expect_bytes(rt, &again.written, &haves(rt, rt.alloc(), count, 7));
    expect_bytes(rt, &again.journal, journal);
}

#[test]
fn a_stop_leaves_the_records_or_one_more(rt: HostRuntime) {
    let journal = leader(&rt);
    let offers = offers_from(&rt, &journal, 0);
    let rest = offers_from(&rt, &journal, 3);
    assert!(&rt; rest.len() <= offers.len());
    let trial = Trial {
        link: &offers[..offers.len() - rest.len()],
        ..QUIET
    };
    let three = linked(&rt, &FOLLOW, &trial);
    expect_equal(&rt, &three.status, &0);
    // Opening three records is 21 calls of the disk, and the delivery four.
    expect_stop_at(&rt, &journal, &three.journal, 21, 3);
    expect_stop_at(&rt, &journal, &three.journal, 22, 3);
    expect_stop_at(&rt, &journal, &three.journal, 23, 3);
    expect_stop_at(&rt, &journal, &three.journal, 24, 4);
}

const NOTHING: &str =
    "following 0\nentries 0 sessions 0 finished 0 proved 0 unproved 0 aside 0 nodes 0\n";

#[test]
fn no_door_is_one_without_links(rt: HostRuntime) {
    let followed = left_by(&rt, &FOLLOW, Vec::new(rt.alloc()), &QUIET);
    expect_end(&rt, &followed, 0, NOTHING);
    let shipped = left_by(&rt, &SHIP, Vec::new(rt.alloc()), &QUIET);
    expect_end(&rt, &shipped, 22, "no link\n");
}

/// Following and shipping nothing, where these calls fail, end with these statuses and texts.
fn expect_failure<'x, R: Abort + AllocGlobal + Threads + Wait + Sync>(
    rt: &R,
    trial: &Trial<'x, '_, 'x>,
    status: u8,
    text: &str,
) {
    expect_end(rt, &linked(rt, &FOLLOW, trial), status, text);
    expect_end(rt, &linked(rt, &SHIP, trial), status, text);
}

#[test]
fn a_fault_ends_the_run(rt: HostRuntime) {
    expect_failure(
        &rt,
        &Trial {
            disk: &[0],
            ..QUIET
        },
        9,
        "disk failed\n",
    );
    expect_failure(
        &rt,
        &Trial {
            door: &[0],
            ..QUIET
        },
        14,
        "door failed\n",
    );
    expect_failure(
        &rt,
        &Trial {
            fails: &[0],
            ..QUIET
        },
        19,
        "link failed\n",
    );
    // A have above the number of records.
    let one = haves(&rt, rt.alloc(), 1, 1);
    let trial = Trial {
        link: &one,
        ..QUIET
    };
    expect_end(&rt, &linked(&rt, &SHIP, &trial), 20, "peer message\n");
}
