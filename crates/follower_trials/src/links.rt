//! The seven records of the worked session, from a leader's journal to a follower's.

use crate::machines::{Left, Work, left_by};
use record_links::Followed;
use std::alloc::{AllocError, Global};
use std::process::Abort;
use std::sync::Wait;

/// An answer of session 0 at its last step again: a record, which may not follow, as number 7.
const REFUSED_7: [u8; 21] = [
    1, 0, 0, 0, 0, 0, 0, 0, 7, 0, 0, 0, 8, 4, 0, 0, 0, 0, 0, 2, 1,
];

/// A message of number 7 whose payload is no record.
const NO_RECORD_7: [u8; 14] = [1, 0, 0, 0, 0, 0, 0, 0, 7, 0, 0, 0, 1, 9];

// The haves from one count to another, one after another.
fn haves(alloc: Global, from: u8, to: u8) -> Result<Vec<u8>, AllocError> {
    let mut bytes = Vec::new(alloc);
    for count in 0..=7u8 {
        if from <= count && count <= to {
            bytes.extend_from_slice(&[2, 0, 0, 0, 0, 0, 0, 0, count])?;
        }
    }
    Ok(bytes)
}

// What a leader with this file writes for the haves from one count to all.
fn offers_from<R: Abort + Wait>(
    rt: &R,
    alloc: Global,
    file: &[u8],
    from: u8,
) -> Result<Vec<u8>, AllocError> {
    let shipped = left_by(rt, alloc, file, &[], Work::Ship(&haves(alloc, from, 7)?));
    assert!(rt; shipped.followed == Followed::Done(7));
    assert!(rt; &shipped.file[..] == file);
    Ok(shipped.written)
}

fn leader_file<R: Abort + Wait>(rt: &R, alloc: Global) -> Vec<u8> {
    left_by(rt, alloc, &[], &[], Work::Lead).file
}

#[test]
fn a_leader_is_followed(rt: HostRuntime) -> Result<(), AllocError> {
    let alloc = rt.alloc();
    let file = leader_file(&rt, alloc);
    let offers = offers_from(&rt, alloc, &file, 0)?;
    let followed = left_by(&rt, alloc, &[], &[], Work::Follow(&offers));
    assert!(rt; followed.followed == Followed::Done(7));
    assert!(rt; followed.written == haves(alloc, 0, 7)?);
    assert!(rt; followed.file == file);
    Ok(())
}

// How a link with these bytes ends at a follower with all records, which leaves its file as it is.
fn ends<R: Abort + Wait>(
    rt: &R,
    alloc: Global,
    file: &[u8],
    bytes: &[u8],
    wanted: Followed,
) -> Left {
    let left = left_by(rt, alloc, file, &[], Work::Follow(bytes));
    assert!(rt; left.followed == wanted);
    assert!(rt; &left.file[..] == file);
    left
}

#[test]
fn other_offers_leave_the_file(rt: HostRuntime) -> Result<(), AllocError> {
    let alloc = rt.alloc();
    let file = leader_file(&rt, alloc);
    let seven = haves(alloc, 7, 7)?;
    let mut twice = haves(alloc, 7, 7)?;
    twice.extend_from_slice(&seven)?;
    // The offer of record 2 again, and then the same as number 9; the end is cut off.
    let mut asked = haves(alloc, 2, 2)?;
    asked.extend_from_slice(&seven)?;
    let shipped = left_by(&rt, alloc, &file, &[], Work::Ship(&asked));
    let mut offer = shipped.written;
    assert!(rt; offer.len() > 9);
    let _ = offer.pop();
    assert!(rt; ends(&rt, alloc, &file, &offer, Followed::Done(7)).written == twice);
    offer[8] = 9;
    assert!(rt; ends(&rt, alloc, &file, &offer, Followed::Done(7)).written == twice);
    assert!(rt; ends(&rt, alloc, &file, &REFUSED_7, Followed::Offer(7)).written == seven);
    assert!(rt; ends(&rt, alloc, &file, &NO_RECORD_7, Followed::Offer(7)).written == seven);
    Ok(())
}

// A follower of three records stops at a call of the disk of the fourth delivery, with so many
// records on its disk.
fn expect_stop_at<R: Abort + Wait>(
    rt: &R,
    alloc: Global,
    file: &[u8],
    three: &[u8],
    call: u64,
    count: u8,
) -> Result<(), AllocError> {
    let fourth = offers_from(rt, alloc, file, 3)?;
    let stopped = left_by(rt, alloc, three, &[call], Work::Follow(&fourth));
    assert!(rt; stopped.followed == Followed::Disk);
    let rest = offers_from(rt, alloc, file, count)?;
    let again = left_by(rt, alloc, &stopped.file, &[], Work::Follow(&rest));
    assert!(rt; again.followed == Followed::Done(7));
    assert!(rt; again.written == haves(alloc, count, 7)?);
    assert!(rt; &again.file[..] == file);
    Ok(())
}

#[test]
fn a_stop_leaves_the_records_or_one_more(rt: HostRuntime) -> Result<(), AllocError> {
    let alloc = rt.alloc();
    let file = leader_file(&rt, alloc);
    let offers = offers_from(&rt, alloc, &file, 0)?;
    let rest = offers_from(&rt, alloc, &file, 3)?;
    assert!(rt; rest.len() <= offers.len());
    let first = &offers[..offers.len() - rest.len()];
    let three = left_by(&rt, alloc, &[], &[], Work::Follow(first));
    assert!(rt; three.followed == Followed::Done(3));
    // Opening three records is 21 calls, and the delivery four.
    for call in 21..25u64 {
        expect_stop_at(
            &rt,
            alloc,
            &file,
            &three.file,
            call,
            if call == 24 { 4 } else { 3 },
        )?;
    }
    Ok(())
}
