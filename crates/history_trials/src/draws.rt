//! The draw of eligible items: the inequality at its edge, and the words of ChaCha20 with the key
//! of zeros.

use crate::equal::expect_equal;
use eligibility_draw::{admits, draw, draw_band};
use exposure_counters::Counters;
use form_model::Rate;
use history_model::Counts;
use std::alloc::Global;
use std::process::Abort;
use trial_cases::set_of;

/// A word, a rate, the counts of an item, and whether the inequality admits the word.
type Edge = (u32, (u32, u32), (u32, u32), bool);

const EDGES: [Edge; 9] = [
    // 16 w < 2^34.
    (1_073_741_823, (1, 4), (4, 4), true),
    (1_073_741_824, (1, 4), (4, 4), false),
    // An item that was never shown.
    (HIGHEST, (1, 4), (0, 4), true),
    (HIGHEST, (1, 1), (3, 3), true),
    // 65,535 w < 2^32 n, where 65,535 * 65,537 is 2^32 - 1. On both sides there is a factor 65,536
    // besides.
    (65_537, (1, 65_535), (65_536, 65_536), true),
    (65_538, (1, 65_535), (65_536, 65_536), false),
    // At the highest word the left side is 65,535 below 2^32 * 65,535.
    (HIGHEST, (65_535, 65_535), (65_536, 65_536), true),
    (HIGHEST, (65_534, 65_535), (65_536, 65_536), false),
    (HIGHEST, (1, 65_535), (65_536, 65_536), false),
];

/// The highest word.
const HIGHEST: u32 = 4_294_967_295;

/// The inequality admits the word at these counts, or does not.
fn expect_edge<R: Abort>(rt: &R, (word, (num, den), (alpha, eps), admitted): &Edge) {
    let rate = Rate {
        num: *num,
        den: *den,
    };
    let counts = Counts {
        alpha: *alpha,
        eps: *eps,
    };
    expect_equal(rt, &admits(*word, rate, counts), admitted);
}

#[test]
fn words_at_the_edge(rt: HostRuntime) {
    for edge in &EDGES {
        expect_edge(&rt, edge);
    }
}

/// Counters of six items after four sessions in which each item was eligible and shown.
fn four_sessions<R: Abort>(rt: &R, alloc: Global) -> Counters {
    let all = set_of(&[0, 1, 2, 3, 4, 5]);
    let mut counters = Counters::new(alloc, 6).expect(rt, "counters");
    for _ in 0..4 {
        if counters.finished() >= 65_536 || !all.all_below(counters.items()) {
            panic!(rt; "no room");
        }
        counters.finish(&all, &all);
    }
    counters
}

/// The first six words of the stream of ChaCha20 with the key and nonce of zeros, from its
/// published test vector (RFC 8439), are ade0b876, 903df1a0, e56a5d40, 28bd8653, b819d2bd and
/// 1aed8da0; those below 2^31 are the fourth and the sixth.
#[test]
fn a_draw_at_one_half(rt: HostRuntime) {
    let counters = four_sessions(&rt, rt.alloc());
    let eligible = draw(&[0; 32], Rate { num: 1, den: 2 }, 0, &counters);
    expect_equal(&rt, &eligible, &set_of(&[3, 5]));
}

/// The words at the places 512 to 517 and 3,584 to 3,589 of that stream are a3df42f9, 391ab472,
/// f2bbab0e, 433d3896, 61ae6684, 8105b505 and 41f2aea2, 0de6ec85, 52e8a7ae, 48d37fed, 3cc05ccf,
/// fad9b5a0 (OpenSSL's chacha20 with block counters 32 and 224).
const ONE_HALF_IN_BANDS: [(u8, &[u16]); 3] = [(0, &[3, 5]), (1, &[1, 3, 4]), (7, &[0, 1, 2, 3, 4])];

fn expect_drawn<R: Abort>(rt: &R, counters: &Counters, band: u8, items: &[u16]) {
    if band < 8 {
        let eligible = draw_band(&[0; 32], Rate { num: 1, den: 2 }, 0, band, counters);
        expect_equal(rt, &eligible, &set_of(items));
    } else {
        panic!(rt; "no band");
    }
}

#[test]
fn draws_in_bands(rt: HostRuntime) {
    let counters = four_sessions(&rt, rt.alloc());
    for (band, items) in &ONE_HALF_IN_BANDS {
        expect_drawn(&rt, &counters, *band, items);
    }
}
