//! Laws of banks and of sets of items.

ghost use Rattle.std.specs.Prelude.{◌≡◌, ℕ, List, None};
ghost use Rattle.bank_tables.specs.Items.{has, AreWords};
ghost use Rattle.bank_tables.specs.Tables.{Tables};
ghost use Rattle.bank_tables.specs.Validity.{IsBank};
ghost use Rattle.bank_tables.specs.Faults.{bank_fault};

/// Rows without a fault are those of a bank, and the rows of a bank have none.
pub fn a_bank_has_no_fault()
    // Promise: Rows have no fault exactly where they are a bank (the bounds are stated without
    // tests)
    // - by `bank`, `faultless`
    ensures bank { (b : Tables) → bank_fault b ≡ None → IsBank b }
    ensures faultless { (b : Tables) → IsBank b → bank_fault b ≡ None }
{}

/// Sets with the same members are one value.
pub fn a_set_is_its_members()
    // Promise: Sets with the same members are one value
    // - by the clause (`AreWords`)
    ensures { (a b : List ℕ) → AreWords a → AreWords b → ((i : ℕ) → has a i ≡ has b i) → a ≡ b }
{}
