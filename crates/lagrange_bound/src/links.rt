//! The links of items to their stimuli: what free items of open stimuli weigh above the cap of a
//! vector.

ghost use Rattle.std.specs.Prelude.{◌≡◌, ℕ, ◌==◌, ◌<◌, ◌≤◌, IfSome, Some, slice_index, slice_set, ◌+ℤ◌, ◌-ℤ◌};
ghost use Rattle.std.specs.Option.{ForSome};
ghost use Rattle.bank_tables.specs.Sums.{sum_in_z};
ghost use Rattle.bank_tables.specs.Tables.{size, stimulus};
ghost use Rattle.certificate_model.specs.ProofTrees.{IsVector};
ghost use Rattle.certificate_model.specs.Ranges.{AreMultipliers, IsWithin, at};
ghost use Rattle.certificate_model.specs.Relaxed.{Multipliers, cap, excess_over, multiplier};
ghost use Rattle.lagrange_bound.specs.Links.{excess_on, is_linked_on, link_on};
ghost use Rattle.lagrange_bound.specs.Ranges.{excess_top, excesses_top, item_top};

use crate::cut::Cut;
use crate::weights::raise;
use bank_tables::Bank;
use bank_tables::sides::{CAP_HIGH, CAP_LOW};
use constraint_model::prices::price;

/// The cap of a vector, by the multipliers of its sides; None where it names neither side of the
/// cap.
pub fn cap_of(sides: &[u32; 386]) -> Option<i64>
    requires { AreMultipliers (slice_index sides.now) }
    ensures value { (v : Multipliers) → IsVector 0 v → slice_index sides.now ≡ multiplier v →
        result ≡ cap v }
    ensures within { IfSome result (IsWithin 16777216) }
{
    if sides[CAP_LOW as usize] == 0 && sides[CAP_HIGH as usize] == 0 {
        return None;
    }
    Some(price(sides, CAP_LOW as usize))
}

/// How far a weight is above the cap.
fn excess_over(cap: i64, weight: i64) -> i64
    requires cap { IsWithin 16777216 cap }
    requires weight { IsWithin item_top weight }
    ensures value { result ≡ excess_over (Some cap) weight }
    ensures within { IsWithin excess_top result }
{
    if cap < weight { weight - cap } else { 0 }
}

/// Whether an item is a free one of an open stimulus.
fn is_linked(bank: &Bank, cut: &Cut, item: u16) -> bool
    requires { item < size bank.now }
    ensures { result ≡ is_linked_on bank.now cut.now item }
{
    let stimulus = bank.stimulus(item);
    stimulus != 0 && (cut.free.has(item) && cut.opened.has(stimulus as u16))
}

/// How far the weight of an item is above the cap, where it is a free item of an open stimulus;
/// else 0.
fn link(bank: &Bank, cut: &Cut, cap: i64, weights: &[i64; 512], item: u16) -> i64
    requires cap { IsWithin 16777216 cap }
    requires item { item < size bank.now }
    requires weight { IsWithin item_top (at weights.now item) }
    ensures value { result ≡ link_on bank.now cut.now (Some cap) weights.now item }
    ensures within { IsWithin excess_top result }
{
    prove!(bank.items() <= 512);
    if is_linked(bank, cut, item) {
        excess_over(cap, weights[item as usize])
    } else {
        0
    }
}

/// The same of each item.
fn links(bank: &Bank, cut: &Cut, cap: i64, weights: &[i64; 512]) -> [i64; 512]
    requires cap { IsWithin 16777216 cap }
    requires weights { (i : ℕ) → i < size bank.now → IsWithin item_top (at weights.now i) }
    ensures value { (i : ℕ) → i < size bank.now →
        at result i ≡ link_on bank.now cut.now (Some cap) weights.now i }
    ensures within { (i : ℕ) → i < size bank.now → IsWithin excess_top (at result i) }
{
    let mut links = [0i64; 512];
    for i in 0..bank.items() {
        links[i as usize] = link(bank, cut, cap, weights, i);
    }
    links
}

/// Takes numbers off the weights of the first n items.
fn lower(weights: &mut [i64; 512], n: u16, by: &[i64; 512])
    requires few { n ≤ 512 }
    requires weights { (i : ℕ) → i < n → IsWithin item_top (at weights.old i) }
    requires by { (i : ℕ) → i < n → IsWithin excess_top (at by.now i) }
    ensures { (i : ℕ) → i < n → at weights.new i ≡ at weights.old i -ℤ at by.now i }
{
    for i in 0..n {
        raise(weights, i, -by[i as usize]);
    }
}

/// Adds a number to the sum of a stimulus.
fn add_to(sums: &mut [i64; 65], stimulus: u8, number: i64)
    requires stimulus { stimulus ≤ 64 }
    requires sum { IsWithin excesses_top (at sums.old stimulus) }
    requires number { IsWithin excess_top number }
    ensures { sums.new ≡ slice_set sums.old stimulus (at sums.old stimulus +ℤ number) }
{
    sums[stimulus as usize] += number;
}

/// The sum of some numbers over the items of each stimulus.
fn sums_by_stimulus(bank: &Bank, numbers: &[i64; 512]) -> [i64; 65]
    requires { (i : ℕ) → i < size bank.now → IsWithin excess_top (at numbers.now i) }
    ensures value { (s : ℕ) → s ≤ 64 →
        at result s ≡ sum_in_z (size bank.now) (λ i. stimulus bank.now i == s) (at numbers.now) }
    ensures within { (s : ℕ) → s ≤ 64 → IsWithin excesses_top (at result s) }
{
    let mut sums = [0i64; 65];
    for i in 0..bank.items() {
        add_to(&mut sums, bank.stimulus(i), numbers[i as usize]);
    }
    sums
}

/// Lowers the weights of free items of open stimuli to the cap, where there is one, and gives what
/// those of each stimulus had above it in all.
pub fn cap_weights(bank: &Bank, cut: &Cut, cap: Option<i64>, weights: &mut [i64; 512]) -> [i64; 65]
    requires cap { ForSome cap (IsWithin 16777216) }
    requires weights { (i : ℕ) → i < size bank.now → IsWithin item_top (at weights.old i) }
    ensures weights { (i : ℕ) → i < size bank.now →
        at weights.new i ≡ at weights.old i -ℤ link_on bank.now cut.now cap weights.old i }
    ensures within { (i : ℕ) → i < size bank.now → IsWithin item_top (at weights.new i) }
    ensures excesses { (s : ℕ) → s ≤ 64 →
        at result s ≡ excess_on bank.now cut.now cap weights.old s }
    ensures few { (s : ℕ) → s ≤ 64 → IsWithin excesses_top (at result s) }
{
    let Some(cap) = cap else {
        return [0i64; 65];
    };
    let links = links(bank, cut, cap, weights);
    lower(weights, bank.items(), &links);
    sums_by_stimulus(bank, &links)
}
