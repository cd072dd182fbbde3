//! Comparisons.
//!
//! A function is dear to prove where it compares several values itself, so each comparison is a
//! call of a function here.

use std::fmt::Debug;
use std::process::Abort;

/// The values are the same.
pub(crate) fn expect_equal<R: Abort, T: PartialEq + Debug>(rt: &R, found: &T, expected: &T) {
    assert_eq!(rt; *found, *expected);
}
