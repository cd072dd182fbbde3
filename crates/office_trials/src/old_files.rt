//! Journals of the first version, part by part, and what a migration makes of them.

use crate::files::{BEST, CLOSE, END, MORE, Parts, REST, SERVE, START};

/// The first eight bytes of a journal of the first version.
pub(crate) const OLD_HEADER: &[u8] = b"SHADOWJ1";

/// An open gate and the length 77. Session 0 is started for booking 70, with items 0 to 5 eligible:
/// the last byte here is the first of a set of items.
pub(crate) const OLD_START: &[u8] = &[1, 0, 0, 0, 77, 1, 0, 0, 0, 0, 0, 0, 0, 0, 0, 0, 0, 70, 0x3f];

/// An open gate and the length 10. Eligibility is set aside for session 0, since there is no form;
/// the tree is one open leaf.
pub(crate) const OLD_SET_ASIDE: &[u8] = &[1, 0, 0, 0, 10, 2, 0, 0, 0, 0, 0, 0, 1, 0, 7];

/// An open gate, and the mark after which the records are of the second version.
pub(crate) const MARK: &[u8] = &[1, 0, 0, 0, 1, 8];

/// An open gate and the length 142. Session 0 is started for booking 70 in two bands, with items 0
/// to 5 eligible in each: the last byte here is the first of the set of the first band.
pub(crate) const TWO_BANDS: &[u8] = &[
    1, 0, 0, 0, 142, 6, 0, 0, 0, 0, 0, 0, 0, 0, 0, 0, 0, 70, 2, 0x3f,
];

/// The first byte of the set of the second band.
pub(crate) const SECOND_BAND: &[u8] = &[0x3f];

/// The journal of session 0 after its first item was served: 183 bytes, with gates at 8, 90 and
/// 182.
pub(crate) const OLD_SERVED: Parts<'static> = &[
    OLD_HEADER, OLD_START, REST, SERVE, REST, BEST, END,
];

/// The same and two bytes more.
pub(crate) const OLD_TRAILED: Parts<'static> = &[
    OLD_HEADER, OLD_START, REST, SERVE, REST, BEST, END, MORE,
];

/// The same journal once it was moved: 364 bytes, with gates at 188, 271 and 363 after the old
/// ones.
pub(crate) const MOVED: Parts<'static> = &[
    OLD_HEADER, OLD_START, REST, SERVE, REST, BEST, MARK, START, REST, SERVE, REST, BEST, END,
];

/// The same and two bytes more.
pub(crate) const MOVED_TRAILED: Parts<'static> = &[
    OLD_HEADER, OLD_START, REST, SERVE, REST, BEST, MARK, START, REST, SERVE, REST, BEST, END, MORE,
];

/// The same journal moved under a plan of two bands: 428 bytes.
pub(crate) const MOVED_IN_TWO: Parts<'static> = &[
    OLD_HEADER,
    OLD_START,
    REST,
    SERVE,
    REST,
    BEST,
    MARK,
    TWO_BANDS,
    REST,
    SECOND_BAND,
    REST,
    SERVE,
    REST,
    BEST,
    END,
];

/// The journal of session 0 after its first item was served and the session was closed: 193 bytes,
/// with gates at 8, 90, 182 and 192.
pub(crate) const OLD_CLOSED: Parts<'static> = &[
    OLD_HEADER, OLD_START, REST, SERVE, REST, BEST, CLOSE, END,
];

/// The same journal once it was moved: 384 bytes, with gates at 198, 281, 373 and 383 after the old
/// ones.
pub(crate) const CLOSED_MOVED: Parts<'static> = &[
    OLD_HEADER, OLD_START, REST, SERVE, REST, BEST, CLOSE, MARK, START, REST, SERVE, REST, BEST,
    CLOSE, END,
];
