//! Sets of items in 64 bytes.

ghost use Rattle.std.specs.Prelude.{◌≡◌, ℕ, ◌+◌, ◌*◌, ◌<◌, ◌≤◌, ◌==◌, ◌||◌, ◌⊎◌, [], ◌++◌, get_or, slice_index, length, OnOk};
ghost use Rattle.std.specs.Int.{bit_at};
ghost use Rattle.bank_tables.specs.Items.{has, AreWords};
ghost use Rattle.bank_tables.specs.Sums.{any_below};
ghost use Rattle.exam_records.specs.Sets.{number_of, set_bytes, items_at, words_of, no_items};
ghost use Rattle.exam_records.specs.Reading.{set_at};

use crate::fault::RecordFault;
use bank_tables::ItemSet;
use std::alloc::AllocError;

/// Eight items from one on, a bit for each.
#[inline(always)]
fn eight_items(set: &ItemSet, first: u16) -> u8
    requires { first ≤ 504 }
    ensures { result ≡ number_of 8 (has set.now) first }
{
    let mut bits = 0;
    for place in 0..8u16 {
        if set.has(first + place) {
            bits += 1 << place;
        }
    }
    bits
}

/// The set of a band.
pub(crate) fn set_in(sets: &[ItemSet; 8], band: u8) -> ItemSet
    requires { band < 8 }
    ensures { result ≡ get_or sets.now band [] }
{
    sets[band as usize]
}

/// Eight bytes of the set, from item `64 * word` on. They are spelled out one by one, so that the
/// compiler knows the place of each bit in its word, and makes one move of a byte of it.
fn eight_bytes(set: &ItemSet, word: u16) -> [u8; 8]
    requires { word < 8 }
    ensures length { length result ≡ 8 }
    ensures bytes { (k : ℕ) → k < 8
        → slice_index result k ≡ number_of 8 (has set.now) (64 * word + 8 * k) }
{
    let first = 64 * word;
    [
        eight_items(set, first),
        eight_items(set, first + 8),
        eight_items(set, first + 16),
        eight_items(set, first + 24),
        eight_items(set, first + 32),
        eight_items(set, first + 40),
        eight_items(set, first + 48),
        eight_items(set, first + 56),
    ]
}

/// Writes the bytes of the set after what was written before.
pub(crate) fn push_set(out: &mut Vec<u8>, set: &ItemSet) -> Result<(), AllocError>
    ensures { OnOk result (out.new.items ≡ out.old.items ++ set_bytes (has set.now)) }
{
    for word in 0..8 {
        out.extend_from_slice(&eight_bytes(set, word))?;
    }
    Ok(())
}

/// What every set of items has: eight words of 64 bits, and so one value for its items.
pub(crate) fn is_set(set: &ItemSet)
    ensures { AreWords set.now }
{
    let _ = set.count();
}

/// No items.
pub(crate) fn no_items() -> ItemSet
    ensures { result ≡ no_items }
{
    let set = ItemSet::empty();
    is_set(&set);
    set
}

/// Whether the set has an item.
pub(crate) fn has_items(set: &ItemSet) -> bool
    ensures { result ≡ any_below 512 (has set.now) }
{
    set.first().is_some()
}

/// The set with those of eight items in it, from one on, whose bits are set.
fn with_eight(set: ItemSet, first: u16, bits: u8) -> ItemSet
    requires { first ≤ 504 }
    ensures eight { (place : ℕ) → place < 8 → has result (first + place)
        ≡ (has set (first + place) || (bit_at bits place == 1)) }
    ensures others { (i : ℕ) → (i < first) ⊎ (first + 8 ≤ i) → has result i ≡ has set i }
{
    let mut set = set;
    for place in 0..8u16 {
        if bits >> place & 1 == 1 {
            set = set.with(first + place);
        }
    }
    set
}

/// The items whose bits are set in 64 bytes.
fn items_of(bytes: &[u8], at: usize) -> ItemSet
    requires { at + 64 ≤ length bytes.now }
    ensures { result ≡ words_of (items_at bytes.now at) }
{
    let mut set = ItemSet::empty();
    for byte in 0..64u16 {
        let bits = bytes[at + byte as usize];
        if bits != 0 {
            set = with_eight(set, 8 * byte, bits);
        }
    }
    is_set(&set);
    set
}

/// The set of items in the 64 bytes from a place on.
#[tactic(auto, unfolding(crate::specs::Reading::set_at))]
pub(crate) fn set_of(bytes: &[u8], at: usize) -> Result<ItemSet, RecordFault>
    requires { at ≤ length bytes.now }
    ensures set { result ≡ set_at bytes.now at }
    ensures there { OnOk result (at + 64 ≤ length bytes.now) }
{
    if bytes.len() - at < 64 {
        return Err(RecordFault::Short);
    }
    Ok(items_of(bytes, at))
}
