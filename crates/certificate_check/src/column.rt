//! One quantity of every item, read once for rows in succession that sum it.

ghost use Rattle.std.specs.Prelude.{◌≡◌, ℕ, ◌<◌, ◌≤◌, cond, get_or};
ghost use Rattle.bank_tables.specs.Items.{has};
ghost use Rattle.bank_tables.specs.Tables.{Tables, size, quantity};
ghost use Rattle.certificate_check.specs.Columns.{IsColumn};

use bank_tables::{Bank, ItemSet};

/// Which quantity was read last, if any was, and its value for each item.
#[derive(Drop)]
pub struct Column {
    which: Option<u8>,
    pub values: [u32; 512],
}

/// A column that was not read yet.
pub fn no_column() -> Column
    ensures { (b : Tables) → IsColumn b result }
{
    Column {
        which: None,
        values: [0; 512],
    }
}

/// The values of a quantity.
fn values_of(bank: &Bank, which: u8) -> [u32; 512]
    requires { which < bank.now.quantities }
    ensures { (i : ℕ) → i < size bank.now → get_or result i 0 ≡ quantity bank.now i which }
{
    let mut values = [0u32; 512];
    for i in 0..bank.items() {
        values[i as usize] = bank.quantity(i, which);
    }
    values
}

/// Reads a quantity into the column, unless it is there.
pub fn read_column(bank: &Bank, which: u8, column: &mut Column)
    requires which { which < bank.now.quantities }
    requires column { IsColumn bank.now column.old }
    ensures column { IsColumn bank.now column.new }
    ensures values { (i : ℕ) → i < size bank.now →
        get_or column.new.values i 0 ≡ quantity bank.now i which }
{
    if column.which != Some(which) {
        column.values = values_of(bank, which);
        column.which = Some(which);
    }
}

/// The value of an item in the set, else 0.
pub fn value_in(values: &[u32; 512], set: &ItemSet, item: u16) -> u32
    requires item { item < 512 }
    requires high { get_or values.now item 0 ≤ 65535 }
    ensures part { result ≡ cond (has set.now item) (get_or values.now item 0) 0 }
    ensures few { result ≤ 65535 }
{
    if set.has(item) {
        values[item as usize]
    } else {
        0
    }
}
