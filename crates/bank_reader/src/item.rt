//! The item in a record.

ghost use Rattle.std.specs.Prelude.{◌≡◌, ◌+◌, ◌*◌, ◌<◌, ◌≤◌, map};
ghost use Rattle.csv.specs.Records.{fields_of};
ghost use Rattle.exam_text.specs.First.{Gives};
ghost use Rattle.bank_reader.specs.Columns.{IsShape, first_loglik};
ghost use Rattle.bank_reader.specs.Reading.{item_at, items_at};
ghost use Rattle.bank_reader.specs.declared.fault.ReadFault.TheVariants.{Memory};

use crate::fault::ReadFault;
use crate::fields::{not_empty_in, number_in, numbers_in, signeds_in};
use bank_tables::{ItemRow, List};
use csv::ByteRecord;
use std::alloc::Global;

/// How many columns of each kind a header has.
#[derive(Clone, Copy, Debug)]
pub struct Shape {
    pub quantities: u32,
    pub grid: u32,
    pub responses: u32,
}

impl Shape {
    fn first_loglik(&self) -> usize
        requires { IsShape self.now }
        ensures value { result ≡ first_loglik self.now }
        ensures small { result ≤ 72 }
    {
        3 + self.quantities as usize + self.grid as usize
    }

    /// How many of the columns belong to that many responses.
    fn columns(&self, responses: u32) -> usize
        requires shape { IsShape self.now }
        requires few { responses ≤ 5 }
        ensures value { result ≡ responses * self.now.grid }
        ensures small { result ≤ 305 }
    {
        responses as usize * self.grid as usize
    }
}

/// The item in a record.
#[tactic(auto, unfolding(crate::specs::Reading::item_at))]
pub fn item_in(
    alloc: Global,
    shape: &Shape,
    rec: u64,
    row: &ByteRecord,
) -> Result<ItemRow, ReadFault>
    requires shape { IsShape shape.now }
    requires counted { 0 < rec }
    ensures { Gives Memory (λ r. r) result (item_at shape.now rec (fields_of row.now)) }
{
    let first = shape.first_loglik();
    if row.len() != first + shape.columns(shape.responses) {
        return Err(ReadFault::Csv(rec));
    }
    if number_in(row, rec, 0)? as u64 != rec - 1 {
        return Err(ReadFault::Field(rec, 0));
    }
    let stimulus = number_in(row, rec, 1)?;
    let categories = number_in(row, rec, 2)?;
    let quantities = numbers_in(alloc, row, rec, 3, shape.quantities as usize)?;
    let info = numbers_in(
        alloc,
        row,
        rec,
        3 + shape.quantities as usize,
        shape.grid as usize,
    )?;
    let answered = categories.min(shape.responses);
    let given = shape.columns(answered);
    let loglik = signeds_in(alloc, row, rec, first, given)?;
    if let Some(fault) = not_empty_in(
        row,
        rec,
        first + given,
        shape.columns(shape.responses - answered),
    ) {
        return Err(fault);
    }
    Ok(ItemRow {
        stimulus,
        categories,
        quantities: List::of(quantities),
        info: List::of(info),
        loglik: List::of(loglik),
    })
}

/// The items in the records after the header.
#[tactic(auto, unfolding(crate::specs::Reading::items_at))]
pub fn items_in(
    alloc: Global,
    shape: &Shape,
    rows: &[ByteRecord],
) -> Result<Vec<ItemRow>, ReadFault>
    requires { IsShape shape.now }
    ensures { Gives Memory (λ v. v.items) result (items_at shape.now (map fields_of rows.now)) }
{
    let mut items = Vec::new(alloc);
    if rows.is_empty() {
        return Ok(items);
    }
    for i in 0..rows.len() - 1 {
        items.push(item_in(alloc, shape, i as u64 + 1, &rows[i + 1])?)?;
    }
    Ok(items)
}
