//! The fields of a record.

ghost use Rattle.std.specs.Prelude.{◌≡◌, ◌+◌, ◌<◌, ◌^◌, Some, None};
ghost use Rattle.csv.specs.Records.{fields_of};
ghost use Rattle.exam_text.specs.First.{Gives};
ghost use Rattle.bank_reader.specs.Columns.{field};
ghost use Rattle.bank_reader.specs.Reading.{number_at, signed_at, numbers_at, signeds_at, not_empty_at};
ghost use Rattle.bank_reader.specs.declared.fault.ReadFault.TheVariants.{Memory};

use crate::fault::ReadFault;
use csv::ByteRecord;
use std::alloc::Global;

pub fn text_at(row: &ByteRecord, column: usize) -> &[u8]
    ensures { result.now ≡ field (fields_of row.now) column }
{
    match row.get(column) {
        Some(text) => text,
        None => b"",
    }
}

#[tactic(auto, unfolding(crate::specs::Reading::number_at))]
pub fn number_in(row: &ByteRecord, rec: u64, column: usize) -> Result<u32, ReadFault>
    ensures { Gives Memory (λ n. n) result (number_at rec column (fields_of row.now)) }
{
    match exam_text::number(text_at(row, column), 999_999_999) {
        Some(n) => Ok(n as u32),
        None => Err(ReadFault::Field(rec, column as u64)),
    }
}

#[tactic(auto, unfolding(crate::specs::Reading::signed_at))]
fn signed_in(row: &ByteRecord, rec: u64, column: usize) -> Result<i32, ReadFault>
    ensures { Gives Memory (λ n. n) result (signed_at rec column (fields_of row.now)) }
{
    match exam_text::signed(text_at(row, column)) {
        Some(n) => Ok(n),
        None => Err(ReadFault::Field(rec, column as u64)),
    }
}

pub fn numbers_in(
    alloc: Global,
    row: &ByteRecord,
    rec: u64,
    from: usize,
    count: usize,
) -> Result<Vec<u32>, ReadFault>
    requires { from + count < 2 ^ 63 }
    ensures { Gives Memory (λ v. v.items) result (numbers_at rec from count (fields_of row.now)) }
{
    let mut numbers = Vec::new(alloc);
    for i in 0..count {
        numbers.push(number_in(row, rec, from + i)?)?;
    }
    Ok(numbers)
}

pub fn signeds_in(
    alloc: Global,
    row: &ByteRecord,
    rec: u64,
    from: usize,
    count: usize,
) -> Result<Vec<i32>, ReadFault>
    requires { from + count < 2 ^ 63 }
    ensures { Gives Memory (λ v. v.items) result (signeds_at rec from count (fields_of row.now)) }
{
    let mut numbers = Vec::new(alloc);
    for i in 0..count {
        numbers.push(signed_in(row, rec, from + i)?)?;
    }
    Ok(numbers)
}

#[tactic(auto, using(exam_text::proofs::Firsts::found_at))]
pub fn not_empty_in(row: &ByteRecord, rec: u64, from: usize, count: usize) -> Option<ReadFault>
    requires { from + count < 2 ^ 63 }
    ensures { result ≡ not_empty_at rec from count (fields_of row.now) }
{
    for i in 0..count {
        if !text_at(row, from + i).is_empty() {
            return Some(ReadFault::Field(rec, (from + i) as u64));
        }
    }
    None
}
