//! The text of a response.
ghost use Rattle.std.specs.Prelude.{◌≡◌, ◌++◌, IfOk, OnOk};
ghost use Rattle.http.specs.StatusCode.{IsStatusCode};
ghost use Rattle.wire_http.specs.Responses.{phrase_of, status_line, challenge_text, type_text, fields_text, close_text, response};

use exam_edge::Memory;
use exam_text::push_number;
use http::StatusCode;
use std::alloc::{AllocError, Global};

fn phrase_of(status: u16) -> &'static str
    requires { IsStatusCode status }
    ensures { result.now ≡ phrase_of status }
{
    match StatusCode::from_u16(status) {
        Ok(code) => code.canonical_reason().unwrap_or(""),
        Err(_) => "",
    }
}

fn push_status_line(alloc: Global, out: &mut Vec<u8>, status: u16) -> Result<(), AllocError>
    requires { IsStatusCode status }
    ensures { OnOk result (out.new.items ≡ out.old.items ++ status_line status) }
{
    out.extend_from_slice(b"HTTP/1.1 ")?;
    push_number(alloc, out, u64::from(status))?;
    out.push(b' ')?;
    out.extend_from_slice(phrase_of(status).as_bytes())?;
    out.extend_from_slice(b"\r\n")?;
    Ok(())
}

fn push_challenge(out: &mut Vec<u8>, status: u16) -> Result<(), AllocError>
    ensures { OnOk result (out.new.items ≡ out.old.items ++ challenge_text status) }
{
    if status == 401 {
        out.extend_from_slice(b"WWW-Authenticate: Bearer\r\n")?;
    }
    Ok(())
}

fn push_close(out: &mut Vec<u8>, close: bool) -> Result<(), AllocError>
    ensures { OnOk result (out.new.items ≡ out.old.items ++ close_text close) }
{
    if close {
        out.extend_from_slice(b"Connection: close\r\n")?;
    }
    Ok(())
}

#[tactic(auto, unfolding(crate::specs::Responses::type_text))]
fn push_type(out: &mut Vec<u8>) -> Result<(), AllocError>
    ensures { OnOk result (out.new.items ≡ out.old.items ++ type_text) }
{
    out.extend_from_slice(b"Content-Type: application/json\r\nContent-Length: ")?;
    Ok(())
}

fn push_fields(alloc: Global, out: &mut Vec<u8>, size: usize, close: bool) -> Result<(), AllocError>
    ensures { OnOk result (out.new.items ≡ out.old.items ++ fields_text size close) }
{
    push_type(out)?;
    push_number(alloc, out, size as u64)?;
    out.extend_from_slice(b"\r\n")?;
    push_close(out, close)?;
    Ok(())
}

/// The response of this status, which has three digits, and this body, which is JSON. `close` adds
/// the field by which the client learns that the connection ends after it. With status 401 a field
/// has how a client may ask: by a bearer's token.
#[tactic(auto, unfolding(crate::specs::Responses::response))]
pub fn response_text(
    alloc: Global,
    status: u16,
    body: &[u8],
    close: bool,
) -> Result<Vec<u8>, Memory>
    requires { IsStatusCode status }
    // Promise: A response is the text of the stated form
    // - by the clause (`response`)
    ensures { IfOk result (λ text. text.items ≡ response status body.now close) }
{
    let mut out = Vec::new(alloc);
    push_status_line(alloc, &mut out, status)?;
    push_challenge(&mut out, status)?;
    push_fields(alloc, &mut out, body.len(), close)?;
    out.extend_from_slice(b"\r\n")?;
    out.extend_from_slice(body)?;
    Ok(out)
}
