//! A set of items in words.

ghost use Rattle.std.specs.Prelude.{◌≡◌, ℕ, ◌<◌, ◌≤◌, ◌&&◌, ◌||◌, map, IfSome, is_some, nat_le};
ghost use Rattle.bank_tables.specs.Items.{has};
ghost use Rattle.exam_text.specs.Runs.{is_set};
ghost use Rattle.spec_reader.specs.Sets.{in_set};

use bank_tables::ItemSet;
use exam_text::next_run;

/// The set with the items from low to high in it.
fn with_run(set: ItemSet, low: u16, high: u16) -> ItemSet
    requires order { low ≤ high }
    requires small { high ≤ 511 }
    ensures { (i : ℕ) → has result i ≡ (has set i || (nat_le low i && nat_le i high)) }
{
    let mut all = set;
    for item in low..high + 1 {
        all = all.with(item);
    }
    all
}

/// The set of items that the words write: one or more runs, ascending and apart. Two runs may be
/// next to each other. None where the words write no set.
#[tactic(auto, using(exam_text::proofs::Firsts::all_fails), unfolding(exam_text::specs::Runs::is_set, crate::specs::Sets::in_set))]
pub fn set_of(words: &[&[u8]]) -> Option<ItemSet>
    // Promise: Words are read as a set exactly where they are runs, ascending and apart, and the
    // set has their items; a set is printed as its maximal runs
    // - of `set_of`, `push_set`
    // - by `found`, `members`, the clause
    ensures found { is_some result ≡ is_set (map (λ w. w.now) words.now) }
    ensures members { IfSome result (λ s. (x : ℕ)
        → has s x ≡ in_set (map (λ w. w.now) words.now) x) }
{
    if words.is_empty() {
        return None;
    }
    let mut set = ItemSet::empty();
    let mut from = 0;
    for i in 0..words.len() {
        let Some(run) = next_run(words, from, i) else {
            return None;
        };
        set = with_run(set, run.low, run.high);
        from = run.high + 1;
    }
    Some(set)
}
