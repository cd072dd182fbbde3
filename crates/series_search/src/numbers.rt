//! Numbers at places of lists, which may have none there.

/// The number at a place; 0 where there is none.
#[inline]
pub fn at(numbers: &[i64], place: usize) -> i64 {
    numbers.get(place).copied().unwrap_or(0)
}

/// Adds to the number at a place.
#[inline]
pub fn add_at(numbers: &mut [i64], place: usize, more: i64) {
    if let Some(number) = numbers.get_mut(place) {
        *number = number.wrapping_add(more);
    }
}

/// A number with a sign; the greatest one where it is greater.
#[inline]
pub fn signed(number: usize) -> i64 {
    i64::try_from(number).unwrap_or(i64::MAX)
}

/// A short number; the greatest one where it is longer.
pub fn short(number: usize) -> u16 {
    u16::try_from(number).unwrap_or(u16::MAX)
}
