//! The texts of drills, by their SHA-256 digests. These are of the files that
//! `tools/drill_texts.py` writes, which shares no text with the product.

use crate::equal::expect_bytes;
use bank_maker::{Made, make};
use exam_text::push_hex;
use sha2::{Digest, Sha256};
use std::alloc::Global;
use std::process::Abort;

/// The text has this digest.
fn expect_digest<R: Abort>(rt: &R, alloc: Global, text: &[u8], expected: &[u8]) {
    let mut found = Vec::new(alloc);
    push_hex(alloc, &mut found, Sha256::digest(text).as_slice()).expect(rt, "a digest");
    expect_bytes(rt, &found, expected);
}

/// The bank, the plan and the script have these digests.
fn expect_digests<R: Abort>(rt: &R, alloc: Global, made: &Made, digests: &[&[u8]; 3]) {
    expect_digest(rt, alloc, &made.bank, digests[0]);
    expect_digest(rt, alloc, &made.plan, digests[1]);
    expect_digest(rt, alloc, &made.script, digests[2]);
}

/// The digests of the texts of the drill of number 7 with two sessions.
const SEVEN: [&[u8]; 3] = [
    b"b8b7efa88670100a29846cc57af5033c909009628bc019f8563a2fb3c59b67aa",
    b"3a10f13101b39f7edf3f1067c7038d426a8282c1d5e8d4df51d3b4aee98f29bc",
    b"53bee78e4ead1abe44fedd79467b8da426619141181269b68fa1feceabfa572a",
];

#[test]
fn texts_of_seven(rt: HostRuntime) {
    let made = make(rt.alloc(), 7, 2).expect(&rt, "a drill");
    expect_digests(&rt, rt.alloc(), &made, &SEVEN);
}

/// Those of the greatest number, and of a second group of sessions.
const GREATEST: [&[u8]; 3] = [
    b"905ded1c604a7404872346f5b6fd3c8e160cd821ae30305e7abe5f0415274dfc",
    b"636089bc6550df2ef9af473494a814f24a777bc59d0dfdddc206eba45ebbd94a",
    b"c10bfeecad7887683db7cc3f3548d7dabd1b303333c2cc06e789fde588fd576c",
];

#[test]
fn texts_of_the_greatest_number(rt: HostRuntime) {
    let made = make(rt.alloc(), 4_294_967_295, 13).expect(&rt, "a drill");
    expect_digests(&rt, rt.alloc(), &made, &GREATEST);
}
