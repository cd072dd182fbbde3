//! Sets of items by masks.

ghost use Rattle.std.specs.Prelude.{◌≡◌, ℕ, ◌≤◌};
ghost use Rattle.bank_tables.specs.Items.{has};
ghost use Rattle.form_enumeration.specs.Enumeration.{masked};

use bank_tables::ItemSet;

/// The items below a number whose bits are 1 in the mask.
pub fn masked(mask: u32, items: u16) -> ItemSet
    requires { items ≤ 16 }
    ensures { (i : ℕ) → has result i ≡ masked mask items i }
{
    let mut set = ItemSet::empty();
    for i in 0..items {
        if mask >> i & 1 == 1 {
            set = set.with(i);
        }
    }
    set
}
