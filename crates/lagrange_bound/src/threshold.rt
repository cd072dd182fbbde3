//! The sum of the greatest of some numbers: k times a threshold between them and the rest, and what
//! they exceed it by.

ghost use Rattle.std.specs.Prelude.{◌≡◌, ℕ, ◌+◌, ◌*◌, ◌<◌, ◌≤◌, pos, neg_ℤ, ◌+ℤ◌, ◌-ℤ◌, ◌*ℤ◌, ◌≤ℤ◌};
ghost use Rattle.bank_tables.specs.Sums.{total_z};
ghost use Rattle.lagrange_bound.specs.Fills.{at_least, excess, IsThreshold, IsSumOfGreatest};
ghost use Rattle.certificate_model.specs.Ranges.{IsWithin, at};
ghost use Rattle.lagrange_bound.specs.Ranges.{IsWeight, item_top};

/// The least weight.
const LEAST: i64 = -140_737_488_355_328;

/// How many of the first n numbers are the threshold or more.
fn count_at_least(weights: &[i64; 512], n: u16, threshold: i64) -> u32
    requires { n ≤ 512 }
    ensures count { result ≡ at_least n weights.now threshold }
    ensures few { result ≤ n }
{
    let mut count = 0;
    for i in 0..n {
        if threshold <= weights[i as usize] {
            count += 1;
        }
    }
    count
}

/// The greatest of the first n numbers, or the least weight where that is greater.
fn greatest(weights: &[i64; 512], n: u16) -> i64
    requires few { n ≤ 512 }
    requires weights { (i : ℕ) → i < n → IsWeight (at weights.now i) }
    ensures least { neg_ℤ (pos item_top) ≤ℤ result }
    ensures most { result ≤ℤ pos item_top }
    ensures above { (i : ℕ) → i < n → at weights.now i ≤ℤ result }
{
    let mut most = LEAST;
    for i in 0..n {
        if most < weights[i as usize] {
            most = weights[i as usize];
        }
    }
    most
}

/// A number from the least weight to the greatest number such that those below it are below the
/// least weight.
fn least(weights: &[i64; 512], n: u16, greatest: i64) -> i64
    requires few { n ≤ 512 }
    requires within { neg_ℤ (pos item_top) ≤ℤ greatest }
    requires high { greatest ≤ℤ pos item_top }
    ensures low { neg_ℤ (pos item_top) ≤ℤ result }
    ensures high { result ≤ℤ greatest }
    ensures below { (i : ℕ) → i < n → neg_ℤ (pos item_top) ≤ℤ at weights.now i →
        result ≤ℤ at weights.now i }
{
    let mut low = greatest;
    for i in 0..n {
        let weight = weights[i as usize];
        if LEAST <= weight && weight < low {
            low = weight;
        }
    }
    low
}

/// How far a number is below another, and one more.
fn gap_between(low: i64, high: i64) -> u64
    requires low { IsWithin item_top low }
    requires high { IsWithin item_top high }
    requires order { low ≤ℤ high }
    ensures { pos result ≡ (high -ℤ low) +ℤ pos 1 }
{
    (high - low) as u64 + 1
}

/// A threshold of the k greatest of the first n numbers, by halving the range from `low` on that
/// holds one.
fn threshold_from(weights: &[i64; 512], n: u16, k: u32, mut low: i64, mut gap: u64) -> i64
    requires n { n ≤ 512 }
    requires low { neg_ℤ (pos item_top) ≤ℤ low }
    requires some { 0 < gap }
    requires high { (low +ℤ pos gap) ≤ℤ pos (item_top + 1) }
    requires enough { k ≤ at_least n weights.now low }
    requires few { at_least n weights.now (low +ℤ pos gap) ≤ k }
    ensures { IsThreshold n weights.now k result }
{
    while gap > 1 {
        let half = gap / 2;
        let middle = low + half as i64;
        let count = count_at_least(weights, n, middle);
        if count == k {
            return middle;
        }
        if count < k {
            gap = half;
        } else {
            low = middle;
            gap -= half;
        }
    }
    low
}

/// A threshold of the k greatest of the first n numbers.
fn threshold(weights: &[i64; 512], n: u16, k: u32) -> i64
    requires few { n ≤ 512 }
    requires weights { (i : ℕ) → i < n → IsWeight (at weights.now i) }
    requires enough { k ≤ at_least n weights.now (neg_ℤ (pos item_top)) }
    ensures { IsThreshold n weights.now k result }
{
    let most = greatest(weights, n);
    let low = least(weights, n, most);
    threshold_from(weights, n, k, low, gap_between(low, most))
}

/// What the first n numbers exceed the threshold by.
fn excess_over(weights: &[i64; 512], n: u16, threshold: i64) -> i64
    requires few { n ≤ 512 }
    requires weights { (i : ℕ) → i < n → IsWeight (at weights.now i) }
    requires threshold { IsWithin item_top threshold }
    ensures value { result ≡ total_z n (λ i. excess threshold (at weights.now i)) }
    ensures within { IsWithin (512 * (item_top + item_top)) result }
{
    let mut sum = 0i64;
    for i in 0..n {
        sum += excess_of(weights[i as usize], threshold);
    }
    sum
}

/// What the number exceeds the threshold by.
fn excess_of(weight: i64, threshold: i64) -> i64
    requires weight { IsWeight weight }
    requires threshold { IsWithin item_top threshold }
    ensures value { result ≡ excess threshold weight }
    ensures within { IsWithin (item_top + item_top) result }
{
    if threshold < weight {
        weight - threshold
    } else {
        0
    }
}

/// The threshold k times.
fn times(k: u32, threshold: i64) -> i64
    requires k { k ≤ 512 }
    requires threshold { IsWithin item_top threshold }
    ensures value { result ≡ pos k *ℤ threshold }
    ensures within { IsWithin (512 * item_top) result }
{
    k as i64 * threshold
}

/// The sum of the k greatest of the first n numbers.
pub fn sum_of_greatest(weights: &[i64; 512], n: u16, k: u32) -> i64
    requires few { n ≤ 512 }
    requires weights { (i : ℕ) → i < n → IsWeight (at weights.now i) }
    requires number { k ≤ n }
    requires enough { k ≤ at_least n weights.now (neg_ℤ (pos item_top)) }
    ensures sum { IsSumOfGreatest n weights.now k result }
    ensures within { IsWithin (1536 * item_top) result }
{
    let threshold = threshold(weights, n, k);
    times(k, threshold) + excess_over(weights, n, threshold)
}
