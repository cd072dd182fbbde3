//! Conversations with a server that has a token, and looks at the health of an examination.

use crate::exchanges::START;
use crate::link_office::{Heard, expect_heard, serve_with};
use crate::responses::{CREATED, DISK, HEALTHY, NO_METHOD, NO_ROUTE, UNAUTHORIZED};
use exam_http::Ended;
use std::alloc::Global;
use std::process::Abort;
use std::sync::Wait;
use std::test::Fail;

const TOKEN: &[u8] = b"sesame!";

// Messages to a server with the token, and their responses. Only the last one bears it on a route.
const ROWS: [(&str, &str); 14] = [
    (
        "POST /sessions HTTP/1.1\r\nContent-Length: 14\r\n\r\n{\"booking\":71}",
        UNAUTHORIZED,
    ),
    // One byte differs, the first and the last.
    (
        "POST /sessions HTTP/1.1\r\nAuthorization: Bearer Sesame!\r\n\
        Content-Length: 14\r\n\r\n{\"booking\":71}",
        UNAUTHORIZED,
    ),
    (
        "POST /sessions HTTP/1.1\r\nAuthorization: Bearer sesame?\r\n\
        Content-Length: 14\r\n\r\n{\"booking\":71}",
        UNAUTHORIZED,
    ),
    // A byte less, and one more.
    (
        "POST /sessions HTTP/1.1\r\nAuthorization: Bearer sesame\r\n\
        Content-Length: 14\r\n\r\n{\"booking\":71}",
        UNAUTHORIZED,
    ),
    (
        "POST /sessions HTTP/1.1\r\nAuthorization: Bearer sesame!!\r\n\
        Content-Length: 14\r\n\r\n{\"booking\":71}",
        UNAUTHORIZED,
    ),
    // Another scheme, two spaces, and the field twice.
    (
        "GET /exposure HTTP/1.1\r\nAuthorization: Basic sesame!\r\n\r\n",
        UNAUTHORIZED,
    ),
    (
        "GET /exposure HTTP/1.1\r\nAuthorization: Bearer  sesame!\r\n\r\n",
        UNAUTHORIZED,
    ),
    (
        "GET /exposure HTTP/1.1\r\nAuthorization: Bearer sesame!\r\n\
        authorization: Bearer sesame!\r\n\r\n",
        UNAUTHORIZED,
    ),
    // A path that is no route, and the health.
    ("GET /exam HTTP/1.1\r\n\r\n", UNAUTHORIZED),
    (
        "GET /exam HTTP/1.1\r\nAuthorization: Bearer sesame!\r\n\r\n",
        NO_ROUTE,
    ),
    ("GET /health HTTP/1.1\r\n\r\n", HEALTHY),
    ("DELETE /health HTTP/1.1\r\n\r\n", UNAUTHORIZED),
    (
        "DELETE /health HTTP/1.1\r\nAuthorization: Bearer sesame!\r\n\r\n",
        NO_METHOD,
    ),
    // No session was started before.
    (
        "POST /sessions HTTP/1.1\r\nauthorization: bEARER sesame!\r\n\
        Content-Length: 14\r\n\r\n{\"booking\":70}",
        CREATED,
    ),
];

// The messages, and the responses, one after another.
fn whole(alloc: Global) -> Result<(String, String), Fail> {
    let mut sent = String::new(alloc);
    let mut text = String::new(alloc);
    for (message, response) in &ROWS {
        sent.push_str(message)?;
        text.push_str(response)?;
    }
    Ok((sent, text))
}

// The client who sends these bytes gets this text, and then the connection ends.
fn expect_text<R: Wait + Sync + Abort>(
    rt: &R,
    alloc: Global,
    sent: &str,
    token: Option<&[u8]>,
    text: &str,
) -> Result<(), Fail> {
    match serve_with(rt, alloc, sent, token, &[])? {
        Some(heard) => {
            expect_heard(rt, &heard, text, Ended::Done);
            Ok(())
        }
        None => Err(Fail::from("not opened")),
    }
}

#[test]
fn messages_with_and_without_the_token(rt: HostRuntime) -> Result<(), Fail> {
    let (sent, text) = whole(rt.alloc())?;
    expect_text(&rt, rt.alloc(), &sent, Some(TOKEN), &text)
}

#[test]
fn a_server_without_a_token_asks_for_none(rt: HostRuntime) -> Result<(), Fail> {
    let sent = "GET /health HTTP/1.1\r\nAuthorization: Bearer other\r\n\r\n\
        POST /sessions HTTP/1.1\r\nAuthorization: Basic other\r\n\
        Content-Length: 14\r\n\r\n{\"booking\":70}";
    let text = format!(in rt.alloc(); "{HEALTHY}{CREATED}")?;
    expect_text(&rt, rt.alloc(), sent, None, &text)
}

// How many looks at the health follow the start of a session.
const LOOKS: usize = 12;

const LOOK: &str = "GET /health HTTP/1.1\r\n\r\n";

// A text, and others after it, each this often.
fn repeated(alloc: Global, first: &str, rows: &[(&str, usize)]) -> Result<String, Fail> {
    let mut text = String::from_str(alloc, first)?;
    for (part, times) in rows {
        push_repeated(&mut text, part, *times)?;
    }
    Ok(text)
}

fn push_repeated(text: &mut String, part: &str, times: usize) -> Result<(), Fail> {
    for _ in 0..times {
        text.push_str(part)?;
    }
    Ok(())
}

// How many responses tell that the disk failed, before another comes.
fn failed_in(heard: &Heard) -> usize {
    let mut rest = heard.link.bytes();
    for failed in 0..LOOKS {
        match rest.strip_prefix(DISK.as_bytes()) {
            Some(more) => rest = more,
            None => return failed,
        }
    }
    LOOKS
}

// What comes of a start and looks, where eight calls of the disk fail from this one on, or none if
// the office is not opened then.
fn heard_from<R: Wait + Sync>(rt: &R, alloc: Global, first: u64) -> Result<Option<Heard>, Fail> {
    let sent = repeated(alloc, START, &[(LOOK, LOOKS)])?;
    let mut fails = Vec::new(alloc);
    for call in 0..8u64 {
        fails.push(first.saturating_add(call))?;
    }
    serve_with(rt, alloc, &sent, None, &fails)
}

// The first call of a session's start fails, and the seven after it. The start and each look are
// refused until they are over. Then nothing was recorded.
fn expect_refusals_then_well<R: Wait + Sync + Abort>(
    rt: &R,
    alloc: Global,
    heard: &Heard,
) -> Result<(), Fail> {
    let failed = failed_in(heard);
    assert!(rt; 2 <= failed && failed <= 9, "{failed} responses");
    let text = repeated(
        alloc,
        "",
        &[
            (DISK, failed),
            (HEALTHY, (LOOKS + 1).saturating_sub(failed)),
        ],
    )?;
    expect_heard(rt, heard, &text, Ended::Done);
    Ok(())
}

#[test]
fn health_while_the_disk_fails_and_after(rt: HostRuntime) -> Result<(), Fail> {
    for first in 0..40u64 {
        if let Some(heard) = heard_from(&rt, rt.alloc(), first)? {
            return expect_refusals_then_well(&rt, rt.alloc(), &heard);
        }
    }
    Err(Fail::from("no office was opened"))
}
