//! The draw.

ghost use Rattle.std.specs.Prelude.{◌≡◌, ◌<◌, ℕ, length};
ghost use Rattle.bank_tables.specs.Items.{has};
ghost use Rattle.exposure_counters.specs.Tallies.{counts_at};
ghost use Rattle.history_model.specs.Draws.{drawn};

use crate::admission::admits;
use bank_tables::ItemSet;
use exposure_counters::Counters;
use form_model::Rate;
use rand_chacha::ChaCha20Rng;
use rand_core::SeedableRng;
use rand_core::utils::NextWord;

/// The items that are eligible for a session in a band, of those that the counters have; the
/// counters are those of the band. The word of an item is the one at the place `512 * band + item`
/// of the session's stream of ChaCha20 with the key (RFC 8439). Takes no memory.
#[tactic(auto, unfolding(history_model::specs::Draws::draw_word))]
pub fn draw_band(key: &[u8; 32], rate: Rate, session: u32, band: u8, counters: &Counters) -> ItemSet
    requires { band < 8 }
    // Promise: The draw in a band is the set of items that are admitted at the counts of that band.
    // The word of an item is the ChaCha20 word of the plan's key, with the session as the stream
    // and 512 times the band plus the item as the place. A plan without bands has the band 0 alone
    // - of `draw_band`, `draw`
    // - by the clause (`drawn`)
    ensures { (i : ℕ) → has result i
        ≡ drawn key.now rate session band (length counters.now.counts) (counts_at counters.now) i }
{
    let mut words = ChaCha20Rng::from_seed(*key);
    words.set_stream(u64::from(session));
    words.set_word_pos(512 * u128::from(band));
    let mut eligible = ItemSet::empty();
    for item in 0..counters.items() {
        if admits(words.next_word(), rate, counters.read(item)) {
            eligible = eligible.with(item);
        }
    }
    eligible
}

/// The items that are eligible for a session in the first band.
pub fn draw(key: &[u8; 32], rate: Rate, session: u32, counters: &Counters) -> ItemSet
    ensures { (i : ℕ) → has result i
        ≡ drawn key.now rate session 0 (length counters.now.counts) (counts_at counters.now) i }
{
    draw_band(key, rate, session, 0, counters)
}
