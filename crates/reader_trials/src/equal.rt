//! Comparisons.
//!
//! A function is dear to prove where it compares several values itself. So a comparison is a call
//! of a function here, but for a few short ones.

use std::fmt::Debug;
use std::process::Abort;

/// The values are the same.
pub(crate) fn expect_equal<R: Abort, T: PartialEq + Debug>(rt: &R, found: &T, expected: &T) {
    assert_eq!(rt; *found, *expected);
}

/// The values are the same; where they are not, this text is shown beside them.
pub(crate) fn expect_equal_at<R: Abort, T: PartialEq + Debug>(
    rt: &R,
    text: &str,
    found: &T,
    expected: &T,
) {
    assert_eq!(rt; *found, *expected, "{text:?}");
}
