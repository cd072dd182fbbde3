//! What the fields of a head mean: the length of its body, and whether the connection is to be
//! closed.
ghost use Rattle.std.specs.Prelude.{◌≡◌, ◌⊎◌, true, [], All, map, length};
ghost use Rattle.std.specs.List.{list_any, list_all};
ghost use Rattle.std.specs.Char.{is_ascii_digit};
ghost use Rattle.std.specs.Str.{str_eq_ignore_ascii_case};
ghost use Rattle.httparse.specs.Spans.{IsHeaderWithin, header_bytes};
ghost use Rattle.wire_http.specs.Fields.{is_named, is_named_with, values_of, first_of, is_length};
ghost use Rattle.wire_http.specs.Fields as spec;

use crate::WireFault;
use httparse::spans::HeaderSpan;

// Whether two words are the same but for the case of their ASCII letters.
fn is_same_word(text: &[u8], word: &[u8]) -> bool
    ensures { result ≡ str_eq_ignore_ascii_case text.now word.now }
{
    text.eq_ignore_ascii_case(word)
}

// How many fields have this name, and the value of the first of them, which is empty if there is
// none.
fn count_and_first<'b>(bytes: &'b [u8], fields: &[HeaderSpan], name: &[u8]) -> (usize, &'b [u8])
    requires { All (IsHeaderWithin (length bytes.now)) fields.now }
    ensures count { result.0
        ≡ length (values_of name.now (map (header_bytes bytes.now) fields.now)) }
    ensures first { result.1.now
        ≡ first_of (values_of name.now (map (header_bytes bytes.now) fields.now)) }
{
    let mut count = 0;
    let mut first = &bytes[..0];
    for field in fields {
        if is_same_word(field.name.of(bytes), name) {
            if count == 0 {
                first = field.value.of(bytes);
            }
            count += 1;
        }
    }
    (count, first)
}

// Whether a field has this name.
fn has_named(bytes: &[u8], fields: &[HeaderSpan], name: &[u8]) -> bool
    requires { All (IsHeaderWithin (length bytes.now)) fields.now }
    ensures { result ≡ list_any (is_named name.now) (map (header_bytes bytes.now) fields.now) }
{
    for field in fields {
        if is_same_word(field.name.of(bytes), name) {
            return true;
        }
    }
    false
}

// Whether a field of this name has this word as its value.
fn has_named_with(bytes: &[u8], fields: &[HeaderSpan], name: &[u8], word: &[u8]) -> bool
    requires { All (IsHeaderWithin (length bytes.now)) fields.now }
    ensures { result ≡ list_any (is_named_with name.now word.now)
        (map (header_bytes bytes.now) fields.now) }
{
    for field in fields {
        if is_same_word(field.name.of(bytes), name) && is_same_word(field.value.of(bytes), word) {
            return true;
        }
    }
    false
}

fn is_all_digits(text: &[u8]) -> bool
    ensures { result ≡ list_all is_ascii_digit text.now }
{
    text.iter().all(|c| c.is_ascii_digit())
}

fn is_length(text: &[u8]) -> bool
    ensures { result ≡ is_length text.now }
{
    is_all_digits(text) && !text.is_empty() && text.len() <= 9
}

// The number that a length writes, 0 if there is none.
fn size_of(text: &[u8]) -> Result<usize, WireFault>
    requires { (text.now ≡ []) ⊎ (is_length text.now ≡ true) }
    ensures { result ≡ spec.size_of text.now }
{
    if text.is_empty() {
        return Ok(0);
    }
    match std::str::from_utf8(text) {
        Ok(word) => match word.parse::<usize>() {
            Ok(size) if size <= 4096 => Ok(size),
            _ => Err(WireFault::BodyTooLong),
        },
        Err(_) => Err(WireFault::BodyTooLong),
    }
}

/// The length in bytes of the body after a head of this method and these fields, or the first fault
/// of the fields. The fields are places in the bytes.
#[tactic(auto, unfolding(crate::specs::Fields::body_length))]
pub(crate) fn body_length(
    bytes: &[u8],
    method: &[u8],
    fields: &[HeaderSpan],
) -> Result<usize, WireFault>
    requires { All (IsHeaderWithin (length bytes.now)) fields.now }
    ensures { result ≡ spec.body_length method.now (map (header_bytes bytes.now) fields.now) }
{
    let (count, length) = count_and_first(bytes, fields, b"content-length");
    if count > 1 || (count == 1 && !is_length(length)) {
        return Err(WireFault::BadHead);
    }
    if has_named(bytes, fields, b"transfer-encoding")
        || (count == 0 && method == b"POST".as_slice())
    {
        return Err(WireFault::NoLength);
    }
    size_of(length)
}

/// The value of the only field Authorization, empty if there is none or there are several. The
/// fields are places in the bytes.
pub(crate) fn authorization_of<'b>(bytes: &'b [u8], fields: &[HeaderSpan]) -> &'b [u8]
    requires { All (IsHeaderWithin (length bytes.now)) fields.now }
    ensures { result.now ≡ spec.authorization (map (header_bytes bytes.now) fields.now) }
{
    let (count, first) = count_and_first(bytes, fields, b"authorization");
    if count == 1 { first } else { &bytes[..0] }
}

/// Whether the connection is to be closed after a message of this version, method and fields. The
/// fields are places in the bytes.
pub(crate) fn asks_to_close(bytes: &[u8], minor: u8, method: &[u8], fields: &[HeaderSpan]) -> bool
    requires { All (IsHeaderWithin (length bytes.now)) fields.now }
    ensures { result
        ≡ spec.asks_to_close minor method.now (map (header_bytes bytes.now) fields.now) }
{
    minor == 0
        || method == b"HEAD".as_slice()
        || has_named_with(bytes, fields, b"connection", b"close")
}
