//! The program with doors, and the call that waits for nobody.

ghost use Rattle.std.specs.Prelude.{◌≡◌, ◌≤◌, false, vec_len};
ghost use Rattle.std.specs.List.{All};
ghost use Rattle.exam_edge.specs.MemoryDoor.{out_of};

use crate::equal::{expect_bytes, expect_equal};
use crate::outcome::{CALM, Given, REPLAY, SERVE, bytes_of, numbers_of, tools_of, words_of};
use crate::texts::{LINES_A, SCRIPT_A};
use command_line::{Command, command_of};
use exam_edge::{MemoryDoor, MemoryLink, OpenGate};
use exam_program::{Tools, World, run, run_alone};
use std::alloc::{AllocGlobal, Global};
use std::process::Abort;
use std::sync::Wait;
use std::thread::Threads;
use trial_cases::{BANK_A, PLAN_A};

const FIRST: &str = "POST /sessions HTTP/1.1\r\nContent-Length: 14\r\n\r\n{\"booking\":70}";

const SECOND: &str = "POST /sessions HTTP/1.1\r\nContent-Length: 14\r\n\r\n{\"booking\":71}";

const IDLE: &str = "entries 0 sessions 0 finished 0 proved 0 unproved 0 aside 0 nodes 0\n";

/// The numbers of the calls that fail: of the disk, of each door, and of each link.
#[derive(Clone, Copy)]
struct Fails<'a> {
    disk: &'a [u64],
    door: &'a [u64],
    link: &'a [u64],
}

/// One link, which gives this text; these calls of it fail.
fn links_of<R: Abort>(rt: &R, alloc: Global, text: &str, fails: &[u64]) -> Vec<MemoryLink> {
    let text = bytes_of(rt, alloc, text.as_bytes());
    let mut links = Vec::new(alloc);
    links
        .push(MemoryLink::of(alloc, text, numbers_of(rt, alloc, fails)))
        .expect(rt, "a link");
    links
}

/// A door with one link, which gives this text; these calls of them fail.
fn door<R: Abort>(rt: &R, alloc: Global, text: &str, fails: &Fails<'_>) -> MemoryDoor
    ensures { out_of result ≡ false }
{
    let links = links_of(rt, alloc, text, fails.link);
    MemoryDoor::of(alloc, links, numbers_of(rt, alloc, fails.door)).expect(rt, "a door")
}

/// A door for each of these texts; these calls of each fail.
fn doors_of<R: Abort>(
    rt: &R,
    alloc: Global,
    texts: &[&str; 2],
    fails: &Fails<'_>,
) -> Vec<MemoryDoor>
    ensures few { vec_len result ≤ 2 }
    ensures home { All (λ d. out_of d ≡ false) result.items }
{
    let mut doors = Vec::new(alloc);
    doors
        .push(door(rt, alloc, texts[0], fails))
        .expect(rt, "a door");
    doors
        .push(door(rt, alloc, texts[1], fails))
        .expect(rt, "a door");
    doors
}

/// Serving bank A through these doors ends with this status and prints a text that begins so.
fn expect_serving<R: Abort + AllocGlobal + Threads + Wait + Sync>(
    rt: &R,
    doors: Vec<MemoryDoor>,
    given: &Given<'_>,
    status: u8,
    front: &str,
)
    requires few { vec_len doors ≤ 2 }
    requires home { All (λ d. out_of d ≡ false) doors.items }
{
    let alloc = rt.alloc();
    let words = words_of(rt, alloc, &SERVE);
    let Tools { files, out, disk } = tools_of(rt, alloc, &[BANK_A, PLAN_A, ""], given);
    let world = World {
        files,
        out,
        disk,
        doors,
        gate: OpenGate,
        token: None,
    };
    let finish = run(rt, alloc, &words, world);
    assert!(rt; finish.out.bytes().starts_with(front.as_bytes()));
    expect_equal(rt, &finish.status, &status);
}

#[test]
fn a_server_with_no_doors(rt: HostRuntime) {
    expect_serving(&rt, Vec::new(rt.alloc()), &CALM, 0, IDLE);
}

/// The summary where both sessions were begun.
const BOTH: &str = "entries 4 sessions 2 finished 0 proved 2 unproved 0 aside 0 nodes ";

/// Calls that fail, the status, and the front of what is printed.
type Row = (Fails<'static>, u8, &'static str);

const ROWS: [Row; 9] = [
    (
        Fails {
            disk: &[],
            door: &[],
            link: &[],
        },
        0,
        BOTH,
    ),
    // A door gives its link by the first call and none by the second; it has no third.
    (
        Fails {
            disk: &[],
            door: &[0],
            link: &[],
        },
        14,
        "door failed\n",
    ),
    (
        Fails {
            disk: &[],
            door: &[1],
            link: &[],
        },
        14,
        "door failed\n",
    ),
    (
        Fails {
            disk: &[],
            door: &[2],
            link: &[],
        },
        0,
        BOTH,
    ),
    // A link that fails ends its connection, and no more: the first call is a read and the second
    // a write.
    (
        Fails {
            disk: &[],
            door: &[],
            link: &[0],
        },
        0,
        IDLE,
    ),
    (
        Fails {
            disk: &[],
            door: &[],
            link: &[1],
        },
        0,
        BOTH,
    ),
    (
        Fails {
            disk: &[],
            door: &[],
            link: &[2],
        },
        0,
        BOTH,
    ),
    (
        Fails {
            disk: &[],
            door: &[],
            link: &[3],
        },
        0,
        BOTH,
    ),
    // The journal cannot be opened.
    (
        Fails {
            disk: &[0],
            door: &[],
            link: &[],
        },
        9,
        "disk failed\n",
    ),
];

/// Two doors, where these calls fail, end with this status and a text that begins so.
fn expect_end_of_two_doors<R: Abort + AllocGlobal + Threads + Wait + Sync>(
    rt: &R,
    (fails, status, front): &Row,
) {
    let given = Given {
        disk: fails.disk,
        ..CALM
    };
    let doors = doors_of(rt, rt.alloc(), &[FIRST, SECOND], fails);
    expect_serving(rt, doors, &given, *status, front);
}

#[test]
fn a_server_with_two_doors(rt: HostRuntime) {
    for row in &ROWS {
        expect_end_of_two_doors(&rt, row);
    }
}

/// The call that waits for nobody takes words that ask for no server, and neither to follow nor to
/// ship.
#[test]
fn a_session_of_bank_a_alone(rt: HostRuntime) {
    let alloc = rt.alloc();
    let words = words_of(&rt, alloc, &REPLAY);
    let tools = tools_of(&rt, alloc, &[BANK_A, PLAN_A, SCRIPT_A], &CALM);
    match command_of(alloc, &words) {
        Ok(Some(Command::Serve { .. })) => panic!(&rt; "a server"),
        Ok(Some(Command::Follow { .. })) => panic!(&rt; "a follower"),
        Ok(Some(Command::Ship { .. })) => panic!(&rt; "a shipper"),
        Ok(_) => {}
        Err(_) => panic!(&rt; "no command"),
    }
    let (status, tools, _) = run_alone(alloc, &words, tools);
    expect_bytes(&rt, tools.out.bytes(), LINES_A.as_bytes());
    expect_equal(&rt, &status, &0);
}
