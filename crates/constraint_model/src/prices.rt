//! The prices that multipliers put on a row or stimulus and on its bounds (Lagrangian relaxation;
//! Geoffrion, 1974).

ghost use Rattle.std.specs.Prelude.{◌≡◌, ◌+◌, ◌*◌, ◌<◌, ◌≤◌, pos, slice_index, ◌*ℤ◌, ◌≤ℤ◌};
ghost use Rattle.certificate_model.specs.Ranges.{AreMultipliers, IsWithin};
ghost use Rattle.certificate_model.specs.Weights.{price, bounds_price};

/// The price of the row or stimulus with the low side.
pub fn price(sides: &[u32; 386], low_side: usize) -> i64
    requires sides { AreMultipliers (slice_index sides.now) }
    requires side { low_side + 1 < 386 }
    // Promise: The price of a row or stimulus, and that of its bounds
    // - of `prices::price`, `prices::bounds_price`
    ensures value { result ≡ price (slice_index sides.now) low_side }
    ensures within { IsWithin 16777216 result }
{
    sides[low_side] as i64 - sides[low_side + 1] as i64
}

/// A multiplier times a bound.
fn product(multiplier: u32, bound: u32) -> i64
    requires multiplier { multiplier ≤ 16777216 }
    requires bound { bound ≤ 33553920 }
    ensures value { result ≡ pos multiplier *ℤ pos bound }
    ensures low { pos 0 ≤ℤ result }
    ensures high { result ≤ℤ pos (16777216 * 33553920) }
{
    (multiplier as u64 * bound as u64) as i64
}

/// The price of the bounds, the lower and the upper, of the row or stimulus with the low side.
pub fn bounds_price(sides: &[u32; 386], low_side: usize, bounds: (u32, u32)) -> i64
    requires sides { AreMultipliers (slice_index sides.now) }
    requires side { low_side + 1 < 386 }
    requires low { bounds.0 ≤ 33553920 }
    requires high { bounds.1 ≤ 33553920 }
    ensures value { result ≡ bounds_price (slice_index sides.now) low_side bounds.0 bounds.1 }
    ensures within { IsWithin (16777216 * 33553920) result }
{
    let (low, high) = bounds;
    product(sides[low_side + 1], high) - product(sides[low_side], low)
}
