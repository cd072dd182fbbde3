//! Sets of items.

ghost use Rattle.std.specs.Prelude.{◌≡◌, ℕ, ◌&&◌, nat_lt};
ghost use Rattle.bank_tables.specs.Items.{has, AreWords};
ghost use Rattle.form_model.proofs.Computed.{these};

use bank_tables::ItemSet;
use bank_tables::limits::ITEMS;

/// The set of these items; a number that no item has is left out.
pub fn set_of(items: &[u16]) -> ItemSet
    ensures members { (i : ℕ) → has result i ≡ (nat_lt i 512 && these items.now i) }
    ensures words { AreWords result }
{
    let mut set = ItemSet::empty();
    for item in items {
        if *item < ITEMS {
            set = set.with(*item);
        }
    }
    prove!(set.count() <= 512);
    set
}
