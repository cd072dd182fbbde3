//! The worked rows of the work.

use crate::equal::expect_equal;
use crate::exchanges::START;
use crate::meeting::Meeting;
use crate::responses::{CREATED, SECOND_CREATED};
use crate::tally::Tally;
use crate::work::{Worked, serve_bank_a, two_doors};
use exam_edge::{Gate, MemoryDoor, OpenGate};
use exam_handler::Observer;
use exam_office::Summary;
use exam_serve::End;
use host_edge::HostDoor;
use std::alloc::Global;
use std::io::{Read, Write};
use std::net::{Ipv4Addr, Net, Shutdown, SocketAddr, TcpListener, TcpStream};
use std::process::Abort;
use std::sync::Wait;
use std::test::Fail;
use std::thread;
use std::thread::Threads;
use std::time::Duration;

const SECOND: &str = "POST /sessions HTTP/1.1\r\nContent-Length: 14\r\n\r\n{\"booking\":71}";

// The first link of this door got this text.
fn expect_text<R: Abort>(rt: &R, door: Option<&MemoryDoor>, text: &str) {
    let got = match door {
        Some(door) => door.returned().first(),
        None => None,
    };
    expect_equal(rt, &got.map(|link| link.bytes()), &Some(text.as_bytes()));
}

// The first links of two doors got these texts.
fn expect_texts<R: Abort>(rt: &R, doors: &[MemoryDoor], first: &str, second: &str) {
    expect_equal(rt, &doors.len(), &2);
    expect_text(rt, doors.first(), first);
    expect_text(rt, doors.get(1), second);
}

// The numbers of a history, without the nodes of its trees.
fn without_nodes(summary: &Summary) -> Summary {
    Summary {
        nodes: 0,
        ..*summary
    }
}

// The summary of two sessions that were started and served an item.
const OF_TWO: Summary = Summary {
    entries: 4,
    sessions: 2,
    finished: 0,
    proved: 2,
    unproved: 0,
    aside: 0,
    nodes: 0,
};

// Each link got the response of its booking's session. The two bookings are the two sessions of the
// journal.
fn expect_served<R: Abort>(rt: &R, worked: &Worked<MemoryDoor>) {
    expect_equal(rt, &worked.end, &End::Done);
    expect_equal(rt, &without_nodes(&worked.summary), &OF_TWO);
    if worked.sessions == (Some(1), Some(0)) {
        expect_texts(rt, &worked.doors, SECOND_CREATED, CREATED);
    } else {
        expect_equal(rt, &worked.sessions, &(Some(0), Some(1)));
        expect_texts(rt, &worked.doors, CREATED, SECOND_CREATED);
    }
}

// The summary of no entry.
const NOTHING: Summary = Summary {
    entries: 0,
    sessions: 0,
    finished: 0,
    proved: 0,
    unproved: 0,
    aside: 0,
    nodes: 0,
};

// The work ended, with no doors and no entry.
fn expect_idle<R: Abort>(rt: &R, worked: &Worked<MemoryDoor>) {
    expect_equal(rt, &worked.end, &End::Done);
    expect_equal(rt, &worked.doors.len(), &0);
    expect_equal(rt, &worked.summary, &NOTHING);
    expect_equal(rt, &worked.sessions, &(None, None));
}

#[test]
fn with_no_doors_nothing_is_done(rt: HostRuntime) -> Result<(), Fail> {
    let worked = serve_bank_a(&rt, rt.alloc(), Vec::new(rt.alloc()), &OpenGate, None)?;
    expect_idle(&rt, &worked);
    Ok(())
}

// Two doors with one connection each are answered.
fn expect_two_served<R: Abort + Threads + Wait + Sync, G: Gate + Observer + Sync>(
    rt: &R,
    alloc: Global,
    gate: &G,
) -> Result<(), Fail> {
    let doors = two_doors(alloc, START, SECOND)?;
    let worked = serve_bank_a(rt, alloc, doors, gate, None)?;
    expect_served(rt, &worked);
    Ok(())
}

#[test]
fn each_of_two_doors_is_answered(rt: HostRuntime) -> Result<(), Fail> {
    expect_two_served(&rt, rt.alloc(), &OpenGate)
}

// Workers that were served one after another would give up at the gate.
#[test]
fn two_doors_are_served_at_once(rt: HostRuntime) -> Result<(), Fail> {
    let meeting = Meeting::new();
    expect_two_served(&rt, rt.alloc(), &meeting)?;
    expect_equal(&rt, &meeting.given_up(), &0);
    Ok(())
}

// The observer sees the examination after each of the two responses. Whoever looks last sees the
// entries of both sessions: each was started, and was served an item.
#[test]
fn the_observer_sees_each_response(rt: HostRuntime) -> Result<(), Fail> {
    let tally = Tally::new();
    expect_two_served(&rt, rt.alloc(), &tally)?;
    expect_equal(&rt, &tally.seen(), &2);
    assert!(rt; tally.of_two() >= 1);
    Ok(())
}

// What a client gets who sends the start of a session, and no more after it.
fn got_at(rt: &HostRuntime, address: SocketAddr) -> Vec<u8> {
    let mut got = Vec::new(rt.alloc());
    let Ok(mut stream) = TcpStream::connect(rt, address) else {
        return got;
    };
    let _ = stream.write_all(START.as_bytes());
    let _ = stream.shutdown(Shutdown::Write);
    let _ = stream.read_to_end(&mut got);
    got
}

fn served_by<R: Threads + Wait + Sync>(
    rt: &R,
    host: HostRuntime,
    alloc: Global,
    listener: TcpListener,
) -> Result<Worked<HostDoor>, Fail> {
    let mut doors = Vec::new(alloc);
    doors.push(HostDoor::of(host, Some(listener), Duration::from_secs(60), Some(1)))?;
    serve_bank_a(rt, alloc, doors, &OpenGate, None)
}

// The door gives one connection. The client begins session 0.
fn expect_begun<R: Abort>(rt: &R, worked: &Worked<HostDoor>) {
    expect_equal(rt, &worked.end, &End::Done);
    expect_equal(rt, &worked.sessions, &(Some(0), None));
}

// The door gives one connection, and the client sends no more after its request, so that both end.
#[test]
fn a_client_on_the_loopback_address_is_answered(rt: HostRuntime) -> Result<(), Fail> {
    let listener = TcpListener::bind(&rt, (Ipv4Addr::LOCALHOST, 0))?;
    let address = listener.local_addr()?;
    let client = thread::spawn(&rt, move || got_at(&rt, address))?;
    expect_begun(&rt, &served_by(&rt, rt, rt.alloc(), listener)?);
    expect_equal(&rt, &client.join(&rt).as_slice(), &CREATED.as_bytes());
    Ok(())
}
