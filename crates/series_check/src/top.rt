//! The items of greatest weight.

ghost use Rattle.std.specs.Prelude.{◌≡◌, ℕ, ◌*◌, ◌<◌, ◌≤◌, true, IfSome};
ghost use Rattle.bank_tables.specs.Items.{has};
ghost use Rattle.bank_tables.specs.Sums.{count_in, sum_in_z};
ghost use Rattle.certificate_check.specs.Tops.{IsNextBest, IsTopOf};
ghost use Rattle.certificate_model.specs.Ranges.{IsWithin, at};
ghost use Rattle.series_check.specs.Tops.{item_top, IsHeavier};

use bank_tables::ItemSet;

/// The sum of the weights of the first n items that are in the set.
pub fn sum_of(weights: &[i128; 512], n: u16, items: &ItemSet) -> i128
    requires few { n ≤ 512 }
    requires within { (i : ℕ) → i < n → IsWithin item_top (at weights.now i) }
    ensures value { result ≡ sum_in_z n (has items.now) (at weights.now) }
    ensures within { IsWithin (512 * item_top) result }
{
    let mut sum = 0i128;
    for i in 0..n {
        if items.has(i) {
            sum += weights[i as usize];
        }
    }
    sum
}

/// Of the first n items one of the greatest weight that is free and not taken.
fn best_of(weights: &[i128; 512], n: u16, free: &ItemSet, taken: &ItemSet) -> Option<u16>
    requires few { n ≤ 512 }
    ensures best { IsNextBest n weights.now (has free.now) (has taken.now) result }
    ensures item { IfSome result (λ i. i < 512) }
{
    let mut best: Option<u16> = None;
    for i in 0..n {
        if free.has(i) && !taken.has(i) {
            best = heavier(weights, best, i);
        }
    }
    best
}

/// Of an item, or none, and another the one of the greater weight.
fn heavier(weights: &[i128; 512], first: Option<u16>, second: u16) -> Option<u16>
    requires first { IfSome first (λ i. i < 512) }
    requires second { second < 512 }
    ensures { IsHeavier weights.now first second result }
{
    match first {
        None => Some(second),
        Some(one) => {
            if weights[one as usize] < weights[second as usize] {
                Some(second)
            } else {
                Some(one)
            }
        }
    }
}

/// Of the first n items so many free ones of the greatest weight.
pub fn top_of(weights: &[i128; 512], n: u16, free: &ItemSet, k: u32) -> ItemSet
    requires few { n ≤ 512 }
    requires enough { k ≤ count_in n (has free.now) (λ _. true) }
    ensures { IsTopOf n weights.now (has free.now) k (has result) }
{
    let mut top = ItemSet::empty();
    for _round in 0..k {
        if let Some(best) = best_of(weights, n, free, &top) {
            top = top.with(best);
        }
    }
    top
}
