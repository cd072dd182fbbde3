//! Both sides of a link over memory, byte by byte.

use crate::{Followed, MemoryRecords, PeerFault, Replica, follow_link, ship_link};
use exam_edge::MemoryLink;
use std::alloc::{AllocError, Global};
use std::process::Abort;
use std::sync::Wait;

const OFFER_0: [u8; 16] = [1, 0, 0, 0, 0, 0, 0, 0, 0, 0, 0, 0, 3, 1, 2, 3];

const OFFER_1: [u8; 14] = [1, 0, 0, 0, 0, 0, 0, 0, 1, 0, 0, 0, 1, 9];

const OFFER_2: [u8; 15] = [1, 0, 0, 0, 0, 0, 0, 0, 2, 0, 0, 0, 2, 7, 7];

const REFUSED_3: [u8; 14] = [1, 0, 0, 0, 0, 0, 0, 0, 3, 0, 0, 0, 1, 255];

const HAVE_0: [u8; 9] = [2, 0, 0, 0, 0, 0, 0, 0, 0];

const HAVE_1: [u8; 9] = [2, 0, 0, 0, 0, 0, 0, 0, 1];

const HAVE_2: [u8; 9] = [2, 0, 0, 0, 0, 0, 0, 0, 2];

const HAVE_3: [u8; 9] = [2, 0, 0, 0, 0, 0, 0, 0, 3];

const HAVE_4: [u8; 9] = [2, 0, 0, 0, 0, 0, 0, 0, 4];

const END: [u8; 1] = [3];

// The bytes of some messages, one after another.
fn joined(alloc: Global, messages: &[&[u8]]) -> Result<Vec<u8>, AllocError> {
    let mut bytes = Vec::new(alloc);
    for message in messages {
        bytes.extend_from_slice(message)?;
    }
    Ok(bytes)
}

// A link with these messages to read, whose calls of these numbers fail.
fn link_of(alloc: Global, messages: &[&[u8]], fails: &[u64]) -> Result<MemoryLink, AllocError> {
    Ok(MemoryLink::of(alloc, joined(alloc, messages)?, fails.to_vec(alloc)?))
}

// A leader's three records, as a follower took them.
fn leader<R: Abort + Wait>(rt: &R, alloc: Global) -> Result<MemoryRecords, AllocError> {
    let mut records = MemoryRecords::new(alloc, 255, 3);
    let mut link = link_of(alloc, &[&OFFER_0, &OFFER_1, &OFFER_2], &[])?;
    let ended = follow_link(rt, alloc, &mut records, &mut link);
    assert!(rt; ended == Followed::Done(3));
    assert!(rt; link.bytes() == &joined(alloc, &[&HAVE_0, &HAVE_1, &HAVE_2, &HAVE_3])?[..]);
    Ok(records)
}

#[test]
fn what_is_shipped_is_followed(rt: HostRuntime) -> Result<(), AllocError> {
    let alloc = rt.alloc();
    let mut records = leader(&rt, alloc)?;
    let mut link = link_of(alloc, &[&HAVE_0, &HAVE_1, &HAVE_1, &HAVE_0, &HAVE_3], &[])?;
    assert!(rt; ship_link(alloc, &mut records, &mut link) == Followed::Done(3));
    let wanted = joined(alloc, &[&OFFER_0, &OFFER_1, &OFFER_1, &OFFER_0, &END])?;
    assert!(rt; link.bytes() == &wanted[..]);
    // A follower with one record, another offer of it, one that is not the next, and then the
    // others.
    let mut copy = MemoryRecords::new(alloc, 255, 3);
    let mut link = link_of(alloc, &[&OFFER_0, &END, &OFFER_1], &[])?;
    assert!(rt; follow_link(&rt, alloc, &mut copy, &mut link) == Followed::Done(1));
    assert!(rt; link.bytes() == &joined(alloc, &[&HAVE_0, &HAVE_1])?[..]);
    let mut link = link_of(alloc, &[&OFFER_0, &OFFER_2, &OFFER_1, &OFFER_2, &END], &[])?;
    assert!(rt; follow_link(&rt, alloc, &mut copy, &mut link) == Followed::Done(3));
    let wanted = joined(alloc, &[&HAVE_1, &HAVE_1, &HAVE_1, &HAVE_2, &HAVE_3])?;
    assert!(rt; link.bytes() == &wanted[..]);
    // What it has is what the leader has.
    let mut link = link_of(alloc, &[&HAVE_0, &HAVE_1, &HAVE_2, &HAVE_3], &[])?;
    assert!(rt; ship_link(alloc, &mut copy, &mut link) == Followed::Done(3));
    let wanted = joined(alloc, &[&OFFER_0, &OFFER_1, &OFFER_2, &END])?;
    assert!(rt; link.bytes() == &wanted[..]);
    Ok(())
}

// How a link of these messages ends at a follower of three records, and whether it answers so many
// haves of them.
fn ends<R: Abort + Wait>(
    rt: &R,
    alloc: Global,
    messages: &[&[u8]],
    haves: &[&[u8]],
    wanted: Followed,
) -> Result<(), AllocError> {
    let mut records = leader(rt, alloc)?;
    let mut link = link_of(alloc, messages, &[])?;
    let ended = follow_link(rt, alloc, &mut records, &mut link);
    assert!(rt; ended == wanted);
    assert!(rt; link.bytes() == &joined(alloc, haves)?[..]);
    assert!(rt; Replica::count(&records) == 3);
    Ok(())
}

#[test]
fn a_follower_refuses_what_no_shipper_sends(rt: HostRuntime) -> Result<(), AllocError> {
    let alloc = rt.alloc();
    let one: [&[u8]; 1] = [&HAVE_3];
    let two: [&[u8]; 2] = [&HAVE_3, &HAVE_3];
    // A request of HTTP, a have, and a kind that is none.
    ends(
        &rt,
        alloc,
        &[b"GET /health HTTP/1.0"],
        &one,
        Followed::Peer(PeerFault::Kind(71)),
    )?;
    ends(
        &rt,
        alloc,
        &[&OFFER_0, &HAVE_0],
        &two,
        Followed::Peer(PeerFault::Kind(2)),
    )?;
    ends(
        &rt,
        alloc,
        &[&[4]],
        &one,
        Followed::Peer(PeerFault::Kind(4)),
    )?;
    // A payload of no byte, and of 131,073.
    let none = [1, 0, 0, 0, 0, 0, 0, 0, 3, 0, 0, 0, 0];
    ends(
        &rt,
        alloc,
        &[&none],
        &one,
        Followed::Peer(PeerFault::Length(0)),
    )?;
    let many = [1, 0, 0, 0, 0, 0, 0, 0, 3, 0, 2, 0, 1];
    ends(
        &rt,
        alloc,
        &[&many],
        &one,
        Followed::Peer(PeerFault::Length(131_073)),
    )?;
    // Cut within the head, and within the payload.
    ends(&rt, alloc, &[&[1, 0]], &one, Followed::Peer(PeerFault::Cut))?;
    let cut = [1, 0, 0, 0, 0, 0, 0, 0, 3, 0, 0, 0, 2, 7];
    ends(
        &rt,
        alloc,
        &[&OFFER_1, &cut],
        &two,
        Followed::Peer(PeerFault::Cut),
    )?;
    // A record that may not follow, at its number and at another one; and one more than there is
    // room for.
    ends(&rt, alloc, &[&REFUSED_3], &one, Followed::Offer(3))?;
    let far = [1, 0, 0, 0, 0, 0, 0, 0, 9, 0, 0, 0, 1, 255];
    ends(&rt, alloc, &[&far], &two, Followed::Done(3))?;
    let full = [1, 0, 0, 0, 0, 0, 0, 0, 3, 0, 0, 0, 1, 5];
    ends(&rt, alloc, &[&full], &one, Followed::Full(4))?;
    Ok(())
}

// How a link of these messages ends at a leader of three records, after it wrote these.
fn ships<R: Abort + Wait>(
    rt: &R,
    alloc: Global,
    messages: &[&[u8]],
    offers: &[&[u8]],
    wanted: Followed,
) -> Result<(), AllocError> {
    let mut records = leader(rt, alloc)?;
    let mut link = link_of(alloc, messages, &[])?;
    let ended = ship_link(alloc, &mut records, &mut link);
    assert!(rt; ended == wanted);
    assert!(rt; link.bytes() == &joined(alloc, offers)?[..]);
    Ok(())
}

#[test]
fn a_shipper_refuses_what_no_follower_sends(rt: HostRuntime) -> Result<(), AllocError> {
    let alloc = rt.alloc();
    let one: [&[u8]; 1] = [&OFFER_0];
    ships(
        &rt,
        alloc,
        &[&HAVE_0, &HAVE_4],
        &one,
        Followed::Peer(PeerFault::Above(4)),
    )?;
    ships(
        &rt,
        alloc,
        &[&HAVE_0, &OFFER_1],
        &one,
        Followed::Peer(PeerFault::Kind(1)),
    )?;
    ships(
        &rt,
        alloc,
        &[&HAVE_0, &END],
        &one,
        Followed::Peer(PeerFault::Kind(3)),
    )?;
    ships(
        &rt,
        alloc,
        &[&HAVE_0, &[2, 0]],
        &one,
        Followed::Peer(PeerFault::Cut),
    )?;
    ships(&rt, alloc, &[&HAVE_0], &one, Followed::Peer(PeerFault::Cut))?;
    ships(&rt, alloc, &[], &[], Followed::Peer(PeerFault::Cut))?;
    // Seven haves below three, and then the one that was due.
    let same: [&[u8]; 8] = [
        &HAVE_0, &HAVE_0, &HAVE_0, &HAVE_0, &HAVE_0, &HAVE_0, &HAVE_0, &HAVE_3,
    ];
    let seven: [&[u8]; 7] = [
        &OFFER_0, &OFFER_0, &OFFER_0, &OFFER_0, &OFFER_0, &OFFER_0, &OFFER_0,
    ];
    ships(
        &rt,
        alloc,
        &same,
        &seven,
        Followed::Peer(PeerFault::TooManyHaves),
    )?;
    Ok(())
}

#[test]
fn a_link_that_fails_ends(rt: HostRuntime) -> Result<(), AllocError> {
    let alloc = rt.alloc();
    let mut records = leader(&rt, alloc)?;
    // The follower writes a have, reads, and writes the next one.
    for fails in [0u64, 1, 2] {
        let mut link = link_of(alloc, &[&OFFER_1, &END], &[fails])?;
        assert!(rt; follow_link(&rt, alloc, &mut records, &mut link) == Followed::Link);
    }
    // The shipper reads a have, and writes an offer; then it reads the have of all, and writes the
    // end.
    let mut link = link_of(alloc, &[&HAVE_1, &HAVE_3], &[0])?;
    assert!(rt; ship_link(alloc, &mut records, &mut link) == Followed::Link);
    assert!(rt; link.bytes().is_empty());
    let mut link = link_of(alloc, &[&HAVE_1, &HAVE_3], &[1])?;
    assert!(rt; ship_link(alloc, &mut records, &mut link) == Followed::Link);
    assert!(rt; link.bytes().is_empty());
    let mut link = link_of(alloc, &[&HAVE_1, &HAVE_3], &[2])?;
    assert!(rt; ship_link(alloc, &mut records, &mut link) == Followed::Link);
    assert!(rt; link.bytes() == &OFFER_1[..]);
    Ok(())
}
