//! Where the first message of a connection ends, as far as its bytes are there.

ghost use Rattle.std.specs.Prelude.{◌≤◌, All, IfSome, length};
ghost use Rattle.httparse.specs.Spans.{IsHeaderWithin};

use httparse::Status;
use httparse::spans::{EMPTY_HEADER_SPAN, HeaderSpan, parse_request};

// The most bytes that a head may have, and a body, and the most fields of a head.
const MOST_HEAD: usize = 8192;

const MOST_BODY: usize = 4096;

const MOST_FIELDS: usize = 64;

/// The most bytes of a message. So many bytes are one as a whole, or will be refused.
pub const MOST_MESSAGE: usize = MOST_HEAD + MOST_BODY;

// The number that a value writes, if it is 1 to 9 digits.
fn number_of(value: &[u8]) -> Option<usize> {
    if value.len() > 9 || !value.iter().all(|c| c.is_ascii_digit()) {
        return None;
    }
    match std::str::from_utf8(value) {
        Ok(word) => word.parse::<usize>().ok(),
        Err(_) => None,
    }
}

// How many bytes of a body are to be waited for: none after a head that will be refused for its
// fields. The fields are places in the bytes.
fn body_length(bytes: &[u8], fields: &[HeaderSpan]) -> usize
    requires { All (IsHeaderWithin (length bytes.now)) fields.now }
    ensures { result ≤ 4096 }
{
    let mut found: Option<usize> = None;
    for field in fields {
        if field
            .name
            .of(bytes)
            .eq_ignore_ascii_case(b"transfer-encoding")
        {
            return 0;
        }
        if field.name.of(bytes).eq_ignore_ascii_case(b"content-length") {
            if found.is_some() {
                return 0;
            }
            found = Some(number_of(field.value.of(bytes)).unwrap_or(0));
        }
    }
    body_within(found.unwrap_or(0))
}

// A length, or 0 where no body may be so long.
fn body_within(length: usize) -> usize
    ensures { result ≤ 4096 }
{
    if length > MOST_BODY { 0 } else { length }
}

/// How many of the first bytes of a connection are a message, if it is there as a whole, or bytes
/// for which the next reader refuses it. Whoever reads so many bytes needs no more of them. The
/// rules of the reader decide what they are; here is decided alone when it gets them.
pub fn message_end(bytes: &[u8]) -> Option<usize>
    ensures { IfSome result (λ end. end ≤ length bytes.now) }
{
    let seen = bytes.len().min(MOST_HEAD);
    let mut fields = [EMPTY_HEADER_SPAN; MOST_FIELDS];
    match parse_request(&bytes[..seen], &mut fields) {
        Ok(Status::Complete(spans)) => {
            let end = spans.len + body_length(&bytes[..seen], &fields[..spans.headers]);
            if end <= bytes.len() { Some(end) } else { None }
        }
        Ok(Status::Partial) if seen < MOST_HEAD => None,
        _ => Some(bytes.len()),
    }
}
