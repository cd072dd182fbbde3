//! The draws of all bands, and where they differ from the sets of a record.

ghost use Rattle.std.specs.Prelude.{◌≡◌, ◌<◌, ◌≤◌, ℕ, List, [], true, false, get_or, length, slice_get, Some, IfSome, IfNone};
ghost use Rattle.bank_tables.specs.Items.{has};
ghost use Rattle.bank_tables.specs.Tables.{Tables};
ghost use Rattle.form_model.specs.Plan.{Plan};
ghost use Rattle.exposure_counters.specs.Tallies.{Tally};
ghost use Rattle.history_model.specs.declared.entry.Entry.{Entry};
ghost use Rattle.history_model.specs.Draws.{AreDrawn, IsNotDrawn, SameItems};
ghost use Rattle.history_model.specs.Entries.{items_in};
ghost use Rattle.exam_session.specs.Kept.{drawn_at};

use bank_tables::ItemSet;
use eligibility_draw::draw_band;
use exposure_counters::Counters;
use form_model::Rate;
use history_model::Bands;

/// The draw for a session in each band, at the counts of each band.
pub(crate) fn draw_bands(key: &[u8; 32], rate: Rate, session: u32, counters: &[Counters]) -> Bands
    requires { length counters.now ≤ 8 }
    ensures count { result.count ≡ length counters.now }
    ensures eight { length result.sets ≡ 8 }
    ensures drawn { (band : ℕ) (tally : Tally) → slice_get counters.now band ≡ Some tally
        → SameItems (items_in result.sets band) (drawn_at key.now rate session band tally) }
    ensures past { (band : ℕ) → length counters.now ≤ band
        → SameItems (items_in result.sets band) (λ _. false) }
{
    let mut sets = [ItemSet::empty(); 8];
    for band in 0..counters.len() {
        sets[band] = draw_band(key, rate, session, band as u8, &counters[band]);
    }
    Bands {
        count: counters.len() as u8,
        sets,
    }
}

/// The items that are in one set of a band and not in the other, of some band.
fn differences(one: &[ItemSet; 8], other: &[ItemSet; 8]) -> ItemSet
    ensures lengths { (band : ℕ) → 8 ≤ band → get_or one.now band [] ≡ get_or other.now band [] }
    ensures same { (i : ℕ) → has result i ≡ false → (band : ℕ) → band < 8
        → items_in one.now band i ≡ items_in other.now band i }
    ensures differ { (i : ℕ) → has result i ≡ true
        → (band : ℕ) × (items_in one.now band i ≡ items_in other.now band i → ⊥) }
{
    let mut found = ItemSet::empty();
    for band in 0..8 {
        let more = one[band].minus(other[band]);
        let less = other[band].minus(one[band]);
        found = found.union(more.union(less));
    }
    found
}

/// The lowest item at which the set of some band differs from its draw; 0 where there isn't a set
/// for each draw.
pub(crate) fn first_difference(eligible: &Bands, drawn: &Bands) -> Option<u16>
    ensures differ { (b : Tables) (plan : Plan) (H : List Entry) (session : ℕ)
        → AreDrawn b plan H session drawn.now
        → IfSome result (IsNotDrawn b plan H session eligible.now) }
    ensures same { (b : Tables) (plan : Plan) (H : List Entry) (session : ℕ)
        → AreDrawn b plan H session drawn.now
        → IfNone result (AreDrawn b plan H session eligible.now) }
{
    if eligible.count != drawn.count {
        return Some(0);
    }
    differences(&eligible.sets, &drawn.sets).first()
}
