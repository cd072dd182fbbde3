//! Sources in memory.

use exam_edge::MemorySource;
use std::alloc::Global;
use std::process::Abort;

/// The bytes of a text.
pub(crate) fn bytes_of<R: Abort>(rt: &R, alloc: Global, text: &str) -> Vec<u8> {
    text.as_bytes().to_vec(alloc).expect(rt, "a text")
}

/// A source of these bytes, whose calls of these numbers fail, counted from 0.
pub(crate) fn source_of<R: Abort>(
    rt: &R,
    alloc: Global,
    bytes: Vec<u8>,
    fails: &[u64],
) -> MemorySource {
    MemorySource::of(bytes, fails.to_vec(alloc).expect(rt, "numbers"))
}
