//! The inverse of the basic columns on the tight lines, as rows of one length one after the other.

use crate::numbers::{ONE, add_at, at, product, quotient};
use proof_tree::Memory;

/// Takes numbers, each times a factor, off others.
#[inline]
fn take_off(row: &mut [i64], by: &[i64], factor: i64) {
    for (number, other) in row.iter_mut().zip(by.iter()) {
        *number = number.wrapping_sub(product(factor, *other));
    }
}

/// Divides numbers by another.
#[inline]
fn divide(row: &mut [i64], by: i64) {
    for number in row.iter_mut() {
        *number = quotient(*number, by);
    }
}

/// The row at a place, of rows of a length.
#[inline]
fn row_at(inverse: &[i64], size: usize, place: usize) -> &[i64] {
    let start = place.wrapping_mul(size);
    let end = start.wrapping_add(size);
    inverse.get(start..end).unwrap_or(&[])
}

/// The inverse after the column at a place is replaced by another one, `column` being that times
/// the inverse.
pub(crate) fn replace_column(
    inverse: &mut [i64],
    size: usize,
    place: usize,
    column: &[i64],
    spare: &mut Vec<i64>,
) -> Result<(), Memory> {
    spare.clear();
    spare.extend_from_slice(row_at(inverse, size, place))?;
    let pivot = at(column, place);
    let mut number = 0usize;
    for row in inverse.chunks_mut(size.max(1)) {
        let entry = at(column, number);
        if number == place {
            divide(row, pivot);
        } else if entry != 0 {
            take_off(row, spare.as_slice(), quotient(entry, pivot));
        }
        number = number.wrapping_add(1);
    }
    Ok(())
}

/// Replaces a line in a row of the inverse.
#[inline]
fn replace_in_row(row: &mut [i64], place: usize, line: &[i64]) {
    let factor = quotient(at(row, place), at(line, place));
    take_off(row, line, factor);
    if let Some(number) = row.get_mut(place) {
        *number = factor;
    }
}

/// The inverse after the line at a place is replaced by another one, `line` being the inverse times
/// that.
pub(crate) fn replace_line(inverse: &mut [i64], size: usize, place: usize, line: &[i64]) {
    for row in inverse.chunks_mut(size.max(1)) {
        replace_in_row(row, place, line);
    }
}

/// Adds a row with one number more, its part of the new line taken off.
#[inline]
fn push_longer(grown: &mut Vec<i64>, row: &[i64], line: &[i64], factor: i64) -> Result<(), Memory> {
    for (number, other) in row.iter().zip(line.iter()) {
        grown.push(number.wrapping_add(product(factor, *other)))?;
    }
    grown.push(factor.wrapping_neg())?;
    Ok(())
}

/// Adds the row of the new column.
fn push_last(grown: &mut Vec<i64>, line: &[i64], pivot: i64) -> Result<(), Memory> {
    for number in line {
        grown.push(quotient(*number, pivot).wrapping_neg())?;
    }
    grown.push(quotient(ONE, pivot))?;
    Ok(())
}

/// The inverse with one line and one column more; `column` and `line` are these times the inverse,
/// and `pivot` is their cell less what the others make up for.
pub(crate) fn grow(
    inverse: &[i64],
    size: usize,
    column: &[i64],
    line: &[i64],
    pivot: i64,
    grown: &mut Vec<i64>,
) -> Result<(), Memory> {
    grown.clear();
    let mut number = 0usize;
    for row in inverse.chunks(size.max(1)) {
        let factor = quotient(at(column, number), pivot);
        push_longer(grown, row, line, factor)?;
        number = number.wrapping_add(1);
    }
    push_last(grown, line, pivot)
}

/// Adds a row without the number at a place, where the last one moves to.
#[inline]
fn push_shorter(
    shrunk: &mut Vec<i64>,
    row: &[i64],
    by: &[i64],
    place: usize,
    factor: i64,
) -> Result<(), Memory> {
    let last = row.len().saturating_sub(1);
    for number in 0..last {
        let from = if number == place { last } else { number };
        let other = product(factor, at(by, from));
        shrunk.push(at(row, from).wrapping_sub(other))?;
    }
    Ok(())
}

/// The inverse without the row and the line at two places, where the last ones move to.
pub(crate) fn shrink(
    inverse: &[i64],
    size: usize,
    row: usize,
    line: usize,
    shrunk: &mut Vec<i64>,
) -> Result<(), Memory> {
    shrunk.clear();
    let by = row_at(inverse, size, row);
    let pivot = at(by, line);
    let last = size.saturating_sub(1);
    for number in 0..last {
        let from = if number == row { last } else { number };
        let known = row_at(inverse, size, from);
        let factor = quotient(at(known, line), pivot);
        push_shorter(shrunk, known, by, line, factor)?;
    }
    Ok(())
}

/// Adds a row, times a sign, to another one.
pub(crate) fn add_row(inverse: &mut [i64], size: usize, place: usize, other: usize, sign: i64) {
    let from = other.wrapping_mul(size);
    let to = place.wrapping_mul(size);
    for number in 0..size {
        let more = at(inverse, from.wrapping_add(number)).wrapping_mul(sign);
        add_at(inverse, to.wrapping_add(number), more);
    }
}
