//! The worked journals, part by part, as their format has them.

use std::alloc::Global;
use std::process::Abort;

/// What a file is made of, from its first byte on.
pub(crate) type Parts<'a> = &'a [&'a [u8]];

/// The first eight bytes of a journal.
pub(crate) const HEADER: &[u8] = b"SHADOWJ2";

/// The gate after the last record, which is closed.
pub(crate) const END: &[u8] = &[0];

/// Two bytes after the last gate.
pub(crate) const MORE: &[u8] = &[1, 1];

/// An open gate and the length 78. Session 0 is started for booking 70, in one band, with items 0
/// to 5 eligible: the last byte here is the first of a set of items.
pub(crate) const START: &[u8] = &[
    1, 0, 0, 0, 78, 6, 0, 0, 0, 0, 0, 0, 0, 0, 0, 0, 0, 70, 1, 0x3f,
];

/// The other 63 bytes of a set of items. No item of theirs is in the set.
pub(crate) const REST: &[u8] = &[0; 63];

/// An open gate and the length 87. Item 2 is served at step 0 of session 0, from the form {1, 2,
/// 3}.
pub(crate) const SERVE: &[u8] = &[1, 0, 0, 0, 87, 3, 0, 0, 0, 0, 0, 0, 0, 2, 0x0e];

/// The form is proved best, by a tree of one node. The tree shows that {1, 2, 3} is best at first:
/// side 3, the high side of the enemies, at 1 gives 6,143, which is 256 * 23 + 255.
pub(crate) const BEST: &[u8] = &[1, 0, 1, 1, 0, 1, 0, 3, 0, 0, 0, 1, 3, 0];

/// The same where the form is not marked proved.
pub(crate) const UNMARKED: &[u8] = &[0, 0, 1, 1, 0, 1, 0, 3, 0, 0, 0, 1, 3, 0];

/// The same as the best with the multiplier 4,096: it gives 8,960.
pub(crate) const TOO_HIGH: &[u8] = &[1, 0, 1, 1, 0, 1, 0, 3, 0, 0, 0x10, 0, 3, 0];

/// An open gate and the length 8. Step 0 of session 0 is answered with response 1.
pub(crate) const ANSWER: &[u8] = &[1, 0, 0, 0, 8, 4, 0, 0, 0, 0, 0, 0, 1];

/// An open gate and the length 13. Eligibility is set aside for session 0 at step 1 in band 0,
/// since there is no form; the tree is one open leaf.
pub(crate) const SET_ASIDE: &[u8] = &[1, 0, 0, 0, 13, 7, 0, 0, 0, 0, 0, 1, 0, 0, 0, 1, 0, 7];

/// An open gate and the length 5. Session 0 is closed.
pub(crate) const CLOSE: &[u8] = &[1, 0, 0, 0, 5, 5, 0, 0, 0, 0];

/// The journal of no record: 9 bytes.
pub(crate) const EMPTY: Parts<'static> = &[HEADER, END];

/// That of session 0, started for booking 70: 92 bytes, with gates at 8 and 91.
pub(crate) const STARTED: Parts<'static> = &[HEADER, START, REST, END];

/// That of session 0 after its first item was served: 184 bytes, with gates at 8, 91 and 183.
pub(crate) const SERVED: Parts<'static> = &[HEADER, START, REST, SERVE, REST, BEST, END];

/// The same after the item was answered: 197 bytes.
pub(crate) const ANSWERED: Parts<'static> = &[HEADER, START, REST, SERVE, REST, BEST, ANSWER, END];

/// The journal of session 0 after its first item was served and the session was closed: 194 bytes.
pub(crate) const CLOSED: Parts<'static> = &[HEADER, START, REST, SERVE, REST, BEST, CLOSE, END];

/// The journal of the served session and two bytes more.
pub(crate) const TRAILED: Parts<'static> = &[HEADER, START, REST, SERVE, REST, BEST, END, MORE];

/// The bytes of a file.
pub(crate) fn joined<R: Abort>(rt: &R, alloc: Global, parts: Parts<'_>) -> Vec<u8> {
    let mut bytes = Vec::new(alloc);
    for part in parts {
        bytes.extend_from_slice(part).expect(rt, "a file");
    }
    bytes
}
