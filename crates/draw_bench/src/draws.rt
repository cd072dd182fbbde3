//! The draws that are timed.

ghost use Rattle.std.specs.Prelude.{◌≡◌, length, IfOk};

use bank_tables::ItemSet;
use eligibility_draw::draw_band;
use exposure_counters::{Counters, Memory};
use form_model::Rate;
use std::alloc::Global;

/// The key of the draws.
const KEY: [u8; 32] = [0x5a; 32];

/// The rate of one in four.
const RATE: Rate = Rate { num: 1, den: 4 };

/// The number of items.
pub const ITEMS: u16 = 512;

/// The number of bands.
pub const BANDS: u8 = 8;

/// Each second item, from the first or from the second on.
fn each_second(from: u16) -> ItemSet {
    let mut items = ItemSet::empty();
    for item in 0..ITEMS {
        if item % 2 == from {
            items = items.with(item);
        }
    }
    items
}

/// Counts of two finished sessions in which all items were eligible, and each was shown in one of
/// them.
pub fn counters(alloc: Global) -> Result<Counters, Memory>
    ensures { IfOk result (λ counters. length counters.counts ≡ 512) }
{
    let mut counters = Counters::new(alloc, ITEMS)?;
    let first = each_second(0);
    let second = each_second(1);
    let all = first.union(second);
    if first.all_below(ITEMS) && second.all_below(ITEMS) && all.all_below(ITEMS) {
        counters.finish(&first, &all);
        counters.finish(&second, &all);
    }
    Ok(counters)
}

/// How many items are eligible for a session, counted in each band.
pub fn eligible(counters: &Counters, session: u32) -> u32 {
    let mut count = 0u32;
    for band in 0..BANDS {
        let items = draw_band(&KEY, RATE, session, band, counters);
        count = count.wrapping_add(items.count());
    }
    count
}
