//! The head of a message.
ghost use Rattle.std.specs.Prelude.{◌≡◌, ◌<◌, ◌==◌, All, IfOk, IfSome, length, map, position};
ghost use Rattle.httparse.specs.Spans.{IsWithin, IsHeaderWithin, span_bytes, header_bytes};
ghost use Rattle.wire_http.specs.Fields as fields;
ghost use Rattle.wire_http.specs.Heads.{Finds, path_of};

use crate::WireFault;
use crate::fields::{asks_to_close, authorization_of, body_length};
use http::Method;
use httparse::Status;
use httparse::spans::{EMPTY_HEADER_SPAN, HeaderSpan, RequestSpans, parse_request};
use std::alloc::{AllocError, Global};

/// What is kept of a head: nothing of it is a place in the bytes but its length.
#[derive(Drop)]
pub struct Head {
    /// Its length in bytes.
    pub len: usize,
    pub method: Method,
    pub path: Vec<u8>,
    /// The value of its only field Authorization, empty if it has none or several.
    pub authorization: Vec<u8>,
    /// The length of its body in bytes, or the fault of its fields.
    pub body_length: Result<usize, WireFault>,
    /// Whether it asks to close the connection.
    pub close: bool,
}

/// What is at the front of some bytes.
#[derive(Drop)]
pub enum Front {
    /// A head.
    Whole(Head),
    /// A part of one, or nothing yet.
    Part,
    /// No head, whatever follows.
    NoHead,
}

fn question_mark_at(target: &[u8]) -> Option<usize>
    ensures value { result ≡ position (λ b. b == 63) target.now }
    ensures within { IfSome result (λ k. k < length target.now) }
{
    target.iter().position(|b| *b == b'?')
}

fn path_of(target: &[u8]) -> &[u8]
    ensures { result.now ≡ path_of target.now }
{
    match question_mark_at(target) {
        Some(k) => &target[..k],
        None => target,
    }
}

fn head_of(
    alloc: Global,
    bytes: &[u8],
    found: &[HeaderSpan],
    spans: RequestSpans,
) -> Result<Head, AllocError>
    requires method { IsWithin (length bytes.now) spans.method }
    requires path { IsWithin (length bytes.now) spans.path }
    requires fields { All (IsHeaderWithin (length bytes.now)) found.now }
    ensures len { IfOk result (λ head. head.len ≡ spans.len) }
    ensures method { IfOk result (λ head. head.method ≡ span_bytes bytes.now spans.method) }
    ensures path { IfOk result (λ head. head.path.items
        ≡ path_of (span_bytes bytes.now spans.path)) }
    ensures authorization { IfOk result (λ head. head.authorization.items
        ≡ fields.authorization (map (header_bytes bytes.now) found.now)) }
    ensures body { IfOk result (λ head. head.body_length
        ≡ fields.body_length (span_bytes bytes.now spans.method)
        (map (header_bytes bytes.now) found.now)) }
    ensures close { IfOk result (λ head. head.close
        ≡ fields.asks_to_close spans.version (span_bytes bytes.now spans.method)
        (map (header_bytes bytes.now) found.now)) }
{
    let name = spans.method.of(bytes);
    let method = match Method::from_bytes(alloc, name) {
        Ok(method) => method,
        Err(_) => return Err(AllocError),
    };
    let path = path_of(spans.path.of(bytes)).to_vec(alloc)?;
    let authorization = authorization_of(bytes, found).to_vec(alloc)?;
    let body_length = body_length(bytes, name, found);
    let close = asks_to_close(bytes, spans.version, name, found);
    Ok(Head {
        len: spans.len,
        method,
        path,
        authorization,
        body_length,
        close,
    })
}

/// Finds the head at the front of the bytes.
pub fn find_head(alloc: Global, bytes: &[u8]) -> Result<Front, AllocError>
    ensures { IfOk result (Finds bytes.now) }
{
    let mut fields = [EMPTY_HEADER_SPAN; 64];
    match parse_request(bytes, &mut fields) {
        Ok(Status::Complete(spans)) => {
            let head = head_of(alloc, bytes, &fields[..spans.headers], spans)?;
            Ok(Front::Whole(head))
        }
        Ok(Status::Partial) => Ok(Front::Part),
        Err(_) => Ok(Front::NoHead),
    }
}
