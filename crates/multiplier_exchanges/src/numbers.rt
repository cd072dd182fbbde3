//! Whole numbers in units of 2 to the -32nd.

/// One, in these units.
pub(crate) const ONE: i64 = 4_294_967_296;

/// The upper bound of a line that has none.
pub(crate) const FAR: i64 = 1_099_511_627_776;

/// The nearest number that fits.
#[inline]
fn narrowed(wide: i128) -> i64 {
    wide.clamp(-(1 << 62), 1 << 62) as i64
}

/// The product of two numbers, one of them in these units.
#[inline]
pub(crate) fn product(first: i64, second: i64) -> i64 {
    narrowed((first as i128).wrapping_mul(second as i128) >> 32)
}

/// The quotient of two numbers of one kind, in these units; 0 where there is none.
#[inline]
pub(crate) fn quotient(over: i64, under: i64) -> i64 {
    let raised = (over as i128).wrapping_mul(1 << 32);
    match raised.checked_div(under as i128) {
        Some(quotient) => narrowed(quotient),
        None => 0,
    }
}

/// The number at a place; 0 where there is none.
#[inline]
pub(crate) fn at(numbers: &[i64], place: usize) -> i64 {
    numbers.get(place).copied().unwrap_or(0)
}

/// Adds to the number at a place.
#[inline]
pub(crate) fn add_at(numbers: &mut [i64], place: usize, more: i64) {
    if let Some(number) = numbers.get_mut(place) {
        *number = number.wrapping_add(more);
    }
}
