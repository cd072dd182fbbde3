//! Hostile messages.

use crate::equal::expect_equal;
use crate::exchanges::LAST;
use crate::link_office::{Cutting, expect_text};
use crate::responses::{BAD_BODY, BAD_HEAD, NO_COUNTS, NO_LENGTH, NO_ROUTE, TOO_LONG};
use exam_http::Ended;
use std::alloc::Global;
use std::process::Abort;
use std::sync::Wait;
use std::test::Fail;
use wire_http::WireFault;

// A message, its response, and how the connection ends. The response is empty if there is none.
// The connection goes on if `ended` is `Done`.
#[derive(Clone, Copy)]
struct Row<'a> {
    message: &'a str,
    response: &'static str,
    ended: Ended,
}

const ROWS: [Row<'static>; 6] = [
    Row {
        message: "POST /sessions HTTP/1.1\r\nContent-Length: 14\r\ncontent-length: 14\r\n\r\n{\"booking\":70}",
        response: BAD_HEAD,
        ended: Ended::BadInput(WireFault::BadHead),
    },
    Row {
        message: "POST /sessions HTTP/1.1\r\nContent-Length: +5\r\n\r\n{}   ",
        response: BAD_HEAD,
        ended: Ended::BadInput(WireFault::BadHead),
    },
    Row {
        message: "POST /sessions HTTP/1.1\r\nTransfer-Encoding: chunked\r\n\r\n",
        response: NO_LENGTH,
        ended: Ended::BadInput(WireFault::NoLength),
    },
    Row {
        message: "POST /sessions HTTP/1.1\r\nContent-Length: 14\r\n\r\n{\"booking\":70",
        response: "",
        ended: Ended::BadInput(WireFault::Cut),
    },
    Row {
        message: "POST /sessions HTTP/1.1\r\nContent-Length: 14\r\n\r\n{\"booking\":-1}",
        response: BAD_BODY,
        ended: Ended::Done,
    },
    Row {
        message: "GET /sessions/007 HTTP/1.1\r\n\r\n",
        response: NO_ROUTE,
        ended: Ended::Done,
    },
];

const CUT: Option<Cutting> = Some(Cutting {
    spread: 500,
    seed: 4,
});

fn joined(alloc: Global, first: &str, second: &str) -> Result<String, Fail> {
    Ok(format!(in alloc; "{first}{second}")?)
}

// A message after this one is answered only if the connection goes on.
fn expect_followed<R: Wait + Sync + Abort>(
    rt: &R,
    alloc: Global,
    row: &Row<'_>,
) -> Result<(), Fail> {
    let more = if row.ended == Ended::Done {
        NO_COUNTS
    } else {
        ""
    };
    let sent = joined(alloc, row.message, LAST)?;
    let text = joined(alloc, row.response, more)?;
    expect_text(rt, alloc, &sent, CUT, &text, row.ended)
}

// A message without a response is not followed by another, which would be read as its rest.
fn expect_row<R: Wait + Sync + Abort>(rt: &R, alloc: Global, row: &Row<'_>) -> Result<(), Fail> {
    expect_text(rt, alloc, row.message, None, row.response, row.ended)?;
    if row.response.is_empty() {
        return Ok(());
    }
    expect_followed(rt, alloc, row)
}

#[test]
fn hostile_messages(rt: HostRuntime) -> Result<(), Fail> {
    for row in &ROWS {
        expect_row(&rt, rt.alloc(), row)?;
    }
    Ok(())
}

// A head: its front, a text and how often it is repeated, its end and its length. The response
// follows, and how the connection ends.
struct Head {
    front: &'static str,
    repeated: &'static str,
    times: u16,
    end: &'static str,
    length: usize,
    response: &'static str,
    ended: Ended,
}

const HEADS: [Head; 2] = [
    // A field without an end.
    Head {
        front: "GET / HTTP/1.1\r\n",
        repeated: "a",
        times: 8176,
        end: "",
        length: 8192,
        response: TOO_LONG,
        ended: Ended::BadInput(WireFault::HeadTooLong),
    },
    // 65 fields, one more than a head may have.
    Head {
        front: "GET /exposure HTTP/1.1\r\n",
        repeated: "a: b\r\n",
        times: 65,
        end: "\r\n",
        length: 416,
        response: BAD_HEAD,
        ended: Ended::BadInput(WireFault::BadHead),
    },
];

fn message_of(alloc: Global, head: &Head) -> Result<String, Fail> {
    let mut message = String::from_str(alloc, head.front)?;
    for _ in 0..head.times {
        message.push_str(head.repeated)?;
    }
    message.push_str(head.end)?;
    Ok(message)
}

fn expect_head<R: Wait + Sync + Abort>(rt: &R, alloc: Global, head: &Head) -> Result<(), Fail> {
    let message = message_of(alloc, head)?;
    expect_equal(rt, &message.len(), &head.length);
    let row = Row {
        message: &message,
        response: head.response,
        ended: head.ended,
    };
    expect_row(rt, alloc, &row)
}

#[test]
fn heads_too_long(rt: HostRuntime) -> Result<(), Fail> {
    for head in &HEADS {
        expect_head(&rt, rt.alloc(), head)?;
    }
    Ok(())
}
