//! Whole exchanges: in any pieces, and over a link that fails.

use crate::equal::expect_equal;
use crate::exchanges::{
    A_BODY_TOO_LONG, A_HEAD_CUT_OFF, A_MESSAGE_OF_VERSION_1_0, BOOKINGS, EIGHT_MESSAGES, Exchange,
    LISTS, Whole, whole_of,
};
use crate::link_office::{Cutting, Heard, expect_heard, expect_text, serve_bytes};
use exam_http::Ended;
use std::alloc::Global;
use std::process::Abort;
use std::sync::Wait;
use std::test::Fail;

const BYTE_BY_BYTE: Cutting = Cutting { spread: 0, seed: 0 };

const CUTTINGS: [Option<Cutting>; 5] = [
    None,
    Some(BYTE_BY_BYTE),
    Some(Cutting { spread: 6, seed: 1 }),
    Some(Cutting {
        spread: 300,
        seed: 2,
    }),
    Some(Cutting {
        spread: 5000,
        seed: 3,
    }),
];

// The client gets the same bytes in whatever pieces they go.
fn expect_text_in_any_pieces<R: Wait + Sync + Abort>(
    rt: &R,
    alloc: Global,
    all: &Whole,
) -> Result<(), Fail> {
    for cutting in &CUTTINGS {
        expect_text(rt, alloc, &all.sent, *cutting, &all.text, all.ended)?;
    }
    Ok(())
}

fn expect_exchange<R: Wait + Sync + Abort>(
    rt: &R,
    alloc: Global,
    exchange: &Exchange,
) -> Result<(), Fail> {
    match whole_of(alloc, exchange) {
        Ok(all) => expect_text_in_any_pieces(rt, alloc, &all),
        Err(fail) => Err(fail),
    }
}

#[test]
fn exchanges_in_any_pieces(rt: HostRuntime) -> Result<(), Fail> {
    expect_exchange(&rt, rt.alloc(), &EIGHT_MESSAGES)?;
    expect_exchange(&rt, rt.alloc(), &LISTS)?;
    expect_exchange(&rt, rt.alloc(), &BOOKINGS)?;
    expect_exchange(&rt, rt.alloc(), &A_BODY_TOO_LONG)?;
    expect_exchange(&rt, rt.alloc(), &A_HEAD_CUT_OFF)?;
    expect_exchange(&rt, rt.alloc(), &A_MESSAGE_OF_VERSION_1_0)
}

// The length of the text that the client got, which is a beginning of the whole text. It is `None`
// if no call failed; the client then has the whole text.
fn length_of<R: Abort>(rt: &R, heard: &Heard, all: &Whole, call: u64) -> Option<usize> {
    if heard.ended != Ended::Link {
        expect_heard(rt, heard, &all.text, all.ended);
        return None;
    }
    let got = heard.link.bytes();
    assert!(rt; all.text.as_bytes().starts_with(got), "call {call}");
    Some(got.len())
}

// The same where this call of the link fails.
fn length_at<R: Wait + Sync + Abort>(
    rt: &R,
    alloc: Global,
    all: &Whole,
    cutting: Option<Cutting>,
    call: u64,
) -> Result<Option<usize>, Fail> {
    let heard = serve_bytes(rt, alloc, &all.sent, cutting, &[call])?;
    Ok(length_of(rt, &heard, all, call))
}

// Each call of the link fails once, until the link has no call of that number. Returns how many
// different beginnings there were.
fn beginnings<R: Wait + Sync + Abort>(
    rt: &R,
    alloc: Global,
    all: &Whole,
    cutting: Option<Cutting>,
) -> Result<usize, Fail> {
    let mut count = 0usize;
    let mut last = None;
    for call in 0..1000u64 {
        let length = length_at(rt, alloc, all, cutting, call)?;
        if length.is_none() {
            return Ok(count);
        }
        if length != last {
            count = count.saturating_add(1);
            last = length;
        }
    }
    Err(Fail::from("more calls than bytes"))
}

// With eight responses, each written at once, there are eight beginnings.
fn expect_eight_beginnings<R: Wait + Sync + Abort>(rt: &R, alloc: Global) -> Result<(), Fail> {
    let eight = whole_of(alloc, &EIGHT_MESSAGES)?;
    expect_equal(rt, &beginnings(rt, alloc, &eight, None)?, &8);
    Ok(())
}

// Byte by byte each beginning comes once, the whole text too, since the end of what was sent is
// found by one more call.
fn expect_each_beginning<R: Wait + Sync + Abort>(rt: &R, alloc: Global) -> Result<(), Fail> {
    let cut_off = whole_of(alloc, &A_HEAD_CUT_OFF)?;
    let found = beginnings(rt, alloc, &cut_off, Some(BYTE_BY_BYTE))?;
    expect_equal(rt, &found, &(cut_off.text.len() + 1));
    Ok(())
}

#[test]
fn each_call_of_the_link_fails(rt: HostRuntime) -> Result<(), Fail> {
    expect_eight_beginnings(&rt, rt.alloc())?;
    expect_each_beginning(&rt, rt.alloc())
}
