//! The server of a journal, asked for its count of entries.

use host_edge::connect_within;
use serde_json::Value;
use std::alloc::Global;
use std::io::{Read, Write};
use std::net::TcpStream;
use std::time::Duration;
use std::{io, str};

/// For so many milliseconds the server is waited for at each step.
const LIMIT: u64 = 2000;

/// A response is read in so many pieces at most, each of at most so many bytes.
const PIECES: u32 = 16;

const PIECE: usize = 1024;

/// The request: the health, which needs no token.
const REQUEST: &str = "GET /health HTTP/1.1\r\nHost: shadowd\r\nConnection: close\r\n\r\n";

// The response to a request, read to its end, or as far as it is to be read.
fn response(rt: &HostRuntime, stream: &mut TcpStream) -> io::Result<Vec<u8>> {
    let mut bytes = Vec::new(rt.alloc());
    let mut piece = [0u8; PIECE];
    for _ in 0..PIECES {
        let count = stream.read(&mut piece)?;
        if count == 0 {
            return Ok(bytes);
        }
        bytes.extend_from_slice(&piece[..count])?;
    }
    Ok(bytes)
}

// The count of entries in a response, if it is that of a server that is well.
fn entries_in(alloc: Global, response: &str) -> Option<u64> {
    if !response.starts_with("HTTP/1.1 200 ") {
        return None;
    }
    let (_, body) = response.split_once("\r\n\r\n")?;
    let health = Value::from_str(alloc, body).ok()?;
    health.get("entries").and_then(Value::as_u64)
}

/// How many entries the server at an address has, each of which it has settled; none where it does
/// not say so.
pub fn count_entries(rt: &HostRuntime, address: &str) -> Option<u64> {
    let limit = Duration::from_millis(LIMIT);
    let mut stream = connect_within(rt, address, limit).ok()?;
    stream.set_read_timeout(Some(limit)).ok()?;
    stream.set_write_timeout(Some(limit)).ok()?;
    stream.write_all(REQUEST.as_bytes()).ok()?;
    let bytes = response(rt, &mut stream).ok()?;
    entries_in(rt.alloc(), str::from_utf8(&bytes).ok()?)
}
