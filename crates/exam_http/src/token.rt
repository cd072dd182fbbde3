//! The token of a server: which messages bear it.
ghost use Rattle.std.specs.Prelude.{◌≡◌, bytes_eq};
ghost use Rattle.std.specs.Option.{option_copied};
ghost use Rattle.exam_http.specs.Tokens.{bears, may_ask};

// Whether two texts are the same. Of texts of one length each byte is looked at, also after the
// first that differs: so the time of the comparison does not depend on how many bytes of a guess
// are right. No clause speaks of time.
fn is_same(text: &[u8], other: &[u8]) -> bool
    ensures { result ≡ bytes_eq text.now other.now }
{
    if text.len() != other.len() {
        return false;
    }
    let mut difference = 0u8;
    for k in 0..text.len() {
        difference |= text[k] ^ other[k];
    }
    difference == 0
}

// Whether the value of a field Authorization is `Bearer`, in any case of its letters, one space,
// and the token.
fn bears(token: &[u8], value: &[u8]) -> bool
    ensures { result ≡ bears token.now value.now }
{
    let (scheme, rest) = value.split_at(7usize.min(value.len()));
    scheme.eq_ignore_ascii_case(b"Bearer ") && is_same(rest, token)
}

/// Whether who sent this value of a field Authorization may ask: there is no token, or the value
/// bears it.
pub(crate) fn may_ask(token: Option<&[u8]>, value: &[u8]) -> bool
    ensures { result ≡ may_ask (option_copied token.entry) value.now }
{
    match token {
        None => true,
        Some(token) => bears(token, value),
    }
}
