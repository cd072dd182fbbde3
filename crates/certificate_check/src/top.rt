//! The items of greatest weight.

ghost use Rattle.std.specs.Prelude.{◌≡◌, ℕ, ◌+◌, ◌*◌, ◌<◌, ◌≤◌, true, IfSome, get_or};
ghost use Rattle.bank_tables.specs.Items.{Set, has};
ghost use Rattle.bank_tables.specs.Sums.{count_in, sum_in_z};
ghost use Rattle.certificate_check.specs.Tops.{IsBest, AreLeaders, IsNextBest, IsTopOf};
ghost use Rattle.certificate_model.specs.Ranges.{IsWithin, at};
ghost use Rattle.certificate_check.specs.Weights.{item_top};

use bank_tables::ItemSet;

/// A block has so many items.
const BLOCK: u16 = 16;

/// The sum of the weights of the first n items that are in the set. The members alone are looked
/// at.
pub fn sum_of(weights: &[i64; 512], n: u16, items: &ItemSet) -> i64
    requires few { n ≤ 512 }
    requires within { (i : ℕ) → i < n → IsWithin item_top (at weights.now i) }
    ensures value { result ≡ sum_in_z n (has items.now) (at weights.now) }
    ensures within { IsWithin (512 * item_top) result }
{
    let mut sum = 0i64;
    let mut at = 0;
    while let Some(item) = items.first_from(at) {
        if item >= n {
            return sum;
        }
        sum += weights[item as usize];
        at = item + 1;
    }
    sum
}

/// Of two items, or none, the one of the greater weight.
fn heavier(weights: &[i64; 512], first: Option<u16>, second: Option<u16>) -> Option<u16>
    requires first { IfSome first (λ i. i < 512) }
    requires second { IfSome second (λ i. i < 512) }
    ensures item { IfSome result (λ i. i < 512) }
    ensures best { (from between to n : ℕ) (F T : Set) → from ≤ between → between ≤ to
        → IsBest from between n weights.now F T first → IsBest between to n weights.now F T second
        → IsBest from to n weights.now F T result }
{
    match first {
        None => second,
        Some(one) => match second {
            None => Some(one),
            Some(other) => {
                if weights[one as usize] < weights[other as usize] {
                    Some(other)
                } else {
                    Some(one)
                }
            }
        },
    }
}

/// Of the first n items one of the greatest weight in a block that is free and not taken.
fn leader(weights: &[i64; 512], n: u16, free: &ItemSet, taken: &ItemSet, block: u16) -> Option<u16>
    requires few { n ≤ 512 }
    requires block { block < 32 }
    ensures { IsBest (16 * block) (16 * block + 16) n weights.now (has free.now)
        (has taken.now) result }
{
    let first = BLOCK * block;
    if first >= n {
        return None;
    }
    let mut best: Option<u16> = None;
    for i in first..first + BLOCK {
        if i < n && free.has(i) && !taken.has(i) {
            best = match best {
                None => Some(i),
                Some(old) => {
                    if weights[old as usize] < weights[i as usize] {
                        Some(i)
                    } else {
                        Some(old)
                    }
                }
            };
        }
    }
    best
}

/// The leader of each block.
fn leaders_of(weights: &[i64; 512], n: u16, free: &ItemSet, taken: &ItemSet) -> [Option<u16>; 32]
    requires { n ≤ 512 }
    ensures { AreLeaders n weights.now (has free.now) (has taken.now) result }
{
    let mut leaders = [None; 32];
    for block in 0..32u16 {
        leaders[block as usize] = leader(weights, n, free, taken, block);
    }
    leaders
}

/// Of the leaders of the blocks of the first n items one of the greatest weight.
fn first_leader(weights: &[i64; 512], n: u16, leaders: &[Option<u16>; 32]) -> Option<u16>
    requires few { n ≤ 512 }
    requires items { (b : ℕ) → IfSome (get_or leaders.now b None) (λ i. i < 512) }
    ensures item { IfSome result (λ i. i < 512) }
    ensures best { (F T : Set) → AreLeaders n weights.now F T leaders.now
        → IsNextBest n weights.now F T result }
{
    let mut best: Option<u16> = None;
    for block in 0..n.div_ceil(BLOCK) {
        best = heavier(weights, best, leaders[block as usize]);
    }
    best
}

/// Of the first n items so many free ones of the greatest weight.
///
/// The items are in blocks, and each has a leader, so that a round looks at the leaders and at one
/// block.
pub fn top_of(weights: &[i64; 512], n: u16, free: &ItemSet, k: u32) -> ItemSet
    requires few { n ≤ 512 }
    requires enough { k ≤ count_in n (has free.now) (λ _. true) }
    ensures { IsTopOf n weights.now (has free.now) k (has result) }
{
    let mut top = ItemSet::empty();
    let mut leaders = leaders_of(weights, n, free, &top);
    for _round in 0..k {
        if let Some(best) = first_leader(weights, n, &leaders) {
            let block = best / BLOCK;
            top = top.with(best);
            leaders[block as usize] = leader(weights, n, free, &top, block);
        }
    }
    top
}
