//! The bank of a made problem.

ghost use Rattle.std.specs.Prelude.{◌≤◌, ◌<◌, ◌*◌};

use crate::form::word_count;
use crate::plan::{Kind, kind_of};
use crate::size::Size;
use crate::vector::WORD_PRICE;
use bank_tables::{ItemRow, List, Rows};
use std::alloc::{AllocError, Global};

/// The number of rows on the number of words.
fn quantity_rows(size: &Size) -> u32 {
    let mut n = 0u32;
    for r in 0..size.rows {
        if let Kind::Quantity = kind_of(size, r) {
            n = n.saturating_add(1);
        }
    }
    n
}

/// The information of an item. With the price of its words it is greatest for the items of the best
/// form; alone it isn't, since the fewer words an item has the more information it has.
fn information(size: &Size, quantity_rows: u32, item: u16) -> u32
    requires { item ≤ 512 }
{
    let level = if size.is_best(item) { 700_000 } else { 698_000 };
    let noise = item as u32 * 7_919 % 1_000;
    let price = quantity_rows.saturating_mul(WORD_PRICE * word_count(item)) / 256;
    (level + noise).saturating_sub(price)
}

fn item_row(alloc: Global, size: &Size, info: u32, item: u16) -> Result<ItemRow, AllocError>
    requires { item ≤ 512 }
{
    Ok(ItemRow {
        stimulus: size.stimulus(item) as u32,
        categories: 2,
        quantities: List::of(vec![in alloc; word_count(item)]?),
        info: List::of(vec![in alloc; info]?),
        loglik: List::of(vec![in alloc; -1, -1]?),
    })
}

/// The rows of the bank: one grid point, one quantity.
pub fn rows(alloc: Global, size: &Size) -> Result<Rows, AllocError> {
    let quantity_rows = quantity_rows(size);
    let mut items = Vec::new(alloc);
    for i in 0..size.items {
        let info = information(size, quantity_rows, i);
        items.push(item_row(alloc, size, info, i)?)?;
    }
    Ok(Rows {
        grid: 1,
        quantities: 1,
        items: List::of(items),
    })
}
