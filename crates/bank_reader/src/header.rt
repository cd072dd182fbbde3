//! The header.

ghost use Rattle.std.specs.Prelude.{◌≡◌, ◌+◌, ◌*◌, ◌<◌, ◌≤◌, ◌++◌, bytes_eq, ◌/◌, ◌%◌, IfOk};
ghost use Rattle.std.specs.Fmt.{decimal};
ghost use Rattle.csv.specs.Records.{fields_of};
ghost use Rattle.exam_text.specs.First.{Gives};
ghost use Rattle.bank_reader.specs.Columns.{IsShape};
ghost use Rattle.bank_reader.specs.Reading.{leading_fixed, leading_quantities, leading_points, leading_loglik, header_of};
ghost use Rattle.bank_reader.specs.declared.fault.ReadFault.TheVariants.{Memory};

use crate::fault::ReadFault;
use crate::fields::text_at;
use crate::item::Shape;
use csv::ByteRecord;

fn is_decimal(text: &[u8], number: u32) -> bool
    requires { number ≤ 999 }
    ensures { result ≡ bytes_eq text.now (decimal number) }
{
    match exam_text::number(text, 999) {
        Some(n) => n == number as u64,
        None => false,
    }
}

/// Whether the text is these bytes and a number.
fn is_numbered(text: &[u8], front: &[u8], number: u32) -> bool
    requires { number ≤ 999 }
    ensures { result ≡ bytes_eq text.now (front.now ++ decimal number) }
{
    if text.len() < front.len() {
        return false;
    }
    let (head, rest) = text.split_at(front.len());
    head == front && is_decimal(rest, number)
}

fn leading_fixed(row: &ByteRecord) -> u32
    ensures { result ≡ leading_fixed (fields_of row.now) }
{
    if text_at(row, 0) != b"item".as_slice() {
        0
    } else if text_at(row, 1) != b"stimulus".as_slice() {
        1
    } else if text_at(row, 2) != b"categories".as_slice() {
        2
    } else {
        3
    }
}

#[tactic(auto, using(crate::proofs::Leads::lead_stops), unfolding(crate::specs::Reading::leading_quantities))]
fn leading_quantities(row: &ByteRecord, most: u32) -> u32
    requires { most ≤ 8 }
    ensures value { result ≡ leading_quantities (fields_of row.now) most }
    ensures most { result ≤ most }
{
    for k in 0..most {
        if !is_numbered(text_at(row, 3 + k as usize), b"q", k) {
            return k;
        }
    }
    most
}

#[tactic(auto, using(crate::proofs::Leads::lead_stops), unfolding(crate::specs::Reading::leading_points))]
fn leading_points(row: &ByteRecord, from: u32, most: u32) -> u32
    requires start { from ≤ 11 }
    requires few { most ≤ 61 }
    ensures value { result ≡ leading_points (fields_of row.now) from most }
    ensures most { result ≤ most }
{
    for k in 0..most {
        if !is_numbered(text_at(row, (from + k) as usize), b"i", k) {
            return k;
        }
    }
    most
}

#[tactic(auto, using(crate::proofs::Leads::lead_stops), unfolding(crate::specs::Reading::leading_loglik))]
fn leading_loglik(row: &ByteRecord, from: u32, grid: u32) -> u32
    requires start { from ≤ 72 }
    requires some { 1 ≤ grid }
    requires few { grid ≤ 61 }
    ensures value { result ≡ leading_loglik (fields_of row.now) from grid }
    ensures most { result ≤ 5 * grid }
{
    for k in 0..5 * grid {
        let front = [b'l', b'0' + (k / grid) as u8, b'_'];
        if !is_numbered(text_at(row, (from + k) as usize), &front, k % grid) {
            return k;
        }
    }
    5 * grid
}

/// The shape that the header gives, or its first fault.
#[tactic(auto, unfolding(crate::specs::Reading::header_of))]
pub fn header_of(row: &ByteRecord) -> Result<Shape, ReadFault>
    ensures value { Gives Memory (λ s. s) result (header_of (fields_of row.now)) }
    ensures shape { IfOk result (λ s. IsShape s) }
{
    let fixed = leading_fixed(row);
    if fixed < 3 {
        return Err(ReadFault::Header(fixed as u64));
    }
    let quantities = leading_quantities(row, 8);
    let grid = leading_points(row, 3 + quantities, 61);
    if grid == 0 {
        return Err(ReadFault::Header(3 + quantities as u64));
    }
    let first = 3 + quantities + grid;
    let logliks = leading_loglik(row, first, grid);
    let end = first + logliks;
    if row.len() == end as usize && logliks % grid == 0 && 2 <= logliks / grid {
        Ok(Shape {
            quantities,
            grid,
            responses: logliks / grid,
        })
    } else {
        Err(ReadFault::Header(end as u64))
    }
}
