//! The test of one item.

ghost use Rattle.std.specs.Prelude.{◌≡◌};
ghost use Rattle.history_model.specs.Draws.{is_admitted};

use form_model::Rate;
use history_model::Counts;

/// Whether an item of these counts is eligible at this word: always where it was never shown, and
/// otherwise where the word, as a part of 2^32, is below the probability
/// `num * eps / (den * alpha)`. No product wraps: each is below 2^96.
pub fn admits(word: u32, rate: Rate, counts: Counts) -> bool
    // Promise: An item is admitted exactly where its word is below 2^32 times its probability of
    // eligibility, in exact whole numbers, or where it was never shown
    // - by the clause (`is_admitted`)
    ensures { result ≡ is_admitted word rate counts }
{
    let word_part = u128::from(word) * u128::from(rate.den) * u128::from(counts.alpha);
    let probability_part = (1 << 32) * u128::from(rate.num) * u128::from(counts.eps);
    counts.alpha == 0 || word_part < probability_part
}
