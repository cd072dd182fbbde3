//! The relaxed maximum of the pool: of the items of all forms together, each in one form.

ghost use Rattle.std.specs.Prelude.{◌≡◌, ℕ, ◌+◌, ◌*◌, ◌<◌, ◌≤◌, ◌*ℤ◌, ◌-ℤ◌, pos, true, slice_index};
ghost use Rattle.bank_tables.specs.Items.{has};
ghost use Rattle.bank_tables.specs.Tables.{size};
ghost use Rattle.certificate_model.specs.Ranges.{IsWithin, at};
ghost use Rattle.certificate_model.specs.Relaxed.{Multipliers};
ghost use Rattle.certificate_model.specs.Weights.{price};
ghost use Rattle.series_model.specs.Series.{IsSeriesProblem};
ghost use Rattle.series_model.specs.SeriesPools.{length_side};
ghost use Rattle.series_check.specs.Cuts.{problem_of, path_of};
ghost use Rattle.series_check.specs.Maximum.{IsSides, IsAnswer};
ghost use Rattle.series_check.specs.Pools.{share_top, rest_top, IsPart, IsPartNear, held_count, IsGreater, IsJoined, IsPoolTo, IsFilled};
ghost use Rattle.series_check.specs.Tops.{item_top, weight_top};

use crate::cut::SeriesCut;
use crate::gains::gains;
use crate::information::uses;
use crate::relaxed::weights;
use crate::rows::{rows_constant, scaled};
use crate::setting::Setting;
use crate::sides::form_sides;
use crate::standing::standing_on;
use crate::top::{sum_of, top_of};
use crate::used::{is_use_lost, placed};
use crate::value::are_apart;
use bank_tables::ItemSet;
use constraint_model::counts::size_in;

/// What each item counts in a form, the items that the form has or may have, and what the form adds
/// beside its items; or the same of several forms together, of each item the greatest count.
#[derive(Clone, Copy)]
pub struct Part {
    pub counts: [i128; 512],
    pub holds: ItemSet,
    pub rest: i128,
}

/// The price of the length of a form: the multiplier of the low side less that of the high side.
fn length_price(sides: &[u32; 2315], form: u8) -> i128
    requires { form < 4 }
    ensures value { result ≡ price (slice_index sides.now) (length_side form) }
    ensures within { IsWithin 4294967295 result }
{
    let side = 2304 + 2 * form as usize;
    sides[side] as i128 - sides[side + 1] as i128
}

/// The price of the length of a form times the length.
fn length_share(sides: &[u32; 2315], form: u8, length: u32) -> i128
    requires form { form < 4 }
    requires length { length ≤ 65535 }
    ensures value { result ≡ price (slice_index sides.now) (length_side form) *ℤ pos length }
    ensures within { IsWithin (4294967295 * 65535) result }
{
    let side = 2304 + 2 * form as usize;
    scaled(sides[side], sides[side + 1], length)
}

/// Each of the first n weights less a price.
fn counts_of(n: u16, weights: &[i128; 512], price: i128) -> [i128; 512]
    requires few { n ≤ 512 }
    requires within { (i : ℕ) → i < n → IsWithin weight_top (at weights.now i) }
    requires price { IsWithin 4294967295 price }
    ensures value { (i : ℕ) → i < n → at result i ≡ at weights.now i -ℤ price }
    ensures within { (i : ℕ) → i < n → IsWithin item_top (at result i) }
{
    let mut counts = [0i128; 512];
    for i in 0..n {
        counts[i as usize] = weights[i as usize] - price;
    }
    counts
}

/// What a form adds to the relaxed maximum of the pool.
fn part_of(setting: &Setting, cut: &SeriesCut, sides: &[u32; 2315], form: u8, ray: bool) -> Part
    requires problem { IsSeriesProblem (problem_of setting.now) }
    requires form { form < setting.now.forms }
    ensures part { (v : Multipliers) → IsSides v sides.now
        → IsPart (problem_of setting.now) (path_of cut.now) v ray form result }
    ensures near { IsPartNear (size setting.now.bank.now) share_top result }
{
    let standing = standing_on(setting, cut, form);
    let own = form_sides(sides, form);
    let price = length_price(sides, form);
    let weights = weights(setting, sides, &own, form, ray);
    let items = setting.bank.items();
    let lengths = length_share(sides, form, setting.spec.length());
    let rows = rows_constant(setting, &own);
    let stimuli = gains(setting, &standing, &own);
    let counts = counts_of(items, &weights, price);
    Part {
        counts,
        holds: standing.may_hold,
        rest: lengths + (rows + stimuli),
    }
}

/// What an item counts in a part, if it is there.
fn held_count(part: &Part, item: u16) -> Option<i128>
    requires { item < 512 }
    ensures { result ≡ held_count part.now item }
{
    if part.holds.has(item) {
        Some(part.counts[item as usize])
    } else {
        None
    }
}

/// The greater of two counts, of those that there are; else 0.
fn greater(first: Option<i128>, second: Option<i128>) -> i128
    ensures { IsGreater first second result }
{
    match first {
        None => match second {
            None => 0,
            Some(two) => two,
        },
        Some(one) => match second {
            None => one,
            Some(two) => { if one < two { two } else { one } }
        },
    }
}

/// Of each of the first n items the greater count.
fn greatest(n: u16, first: &Part, second: &Part) -> [i128; 512]
    requires few { n ≤ 512 }
    requires first { (i : ℕ) → i < n → IsWithin item_top (at first.now.counts i) }
    requires second { (i : ℕ) → i < n → IsWithin item_top (at second.now.counts i) }
    ensures value { (i : ℕ) → i < n
        → IsGreater (held_count first.now i) (held_count second.now i) (at result i) }
    ensures within { (i : ℕ) → i < n → IsWithin item_top (at result i) }
{
    let mut counts = [0i128; 512];
    for i in 0..n {
        let one = held_count(first, i);
        let two = held_count(second, i);
        counts[i as usize] = greater(one, two);
    }
    counts
}

/// Two parts together.
fn joined(n: u16, first: &Part, second: &Part) -> Part
    requires few { n ≤ 512 }
    requires first { IsPartNear n rest_top first.now }
    requires second { IsPartNear n share_top second.now }
    ensures { IsJoined n first.now second.now result }
{
    let counts = greatest(n, first, second);
    let holds = first.holds.union(second.holds);
    Part {
        counts,
        holds,
        rest: first.rest + second.rest,
    }
}

/// The parts of all forms together.
fn pool_of(setting: &Setting, cut: &SeriesCut, sides: &[u32; 2315], ray: bool) -> Part
    requires { IsSeriesProblem (problem_of setting.now) }
    ensures pool { (v : Multipliers) → IsSides v sides.now
        → IsPoolTo (problem_of setting.now) (path_of cut.now) v ray setting.now.forms result }
    ensures near { IsPartNear (size setting.now.bank.now) rest_top result }
{
    let items = setting.bank.items();
    let holds = ItemSet::empty();
    let rest = uses(setting, sides) as i128;
    let mut pool = Part {
        counts: [0i128; 512],
        holds,
        rest,
    };
    for f in 0..setting.forms {
        let part = part_of(setting, cut, sides, f, ray);
        pool = joined(items, &pool, &part);
    }
    pool
}

/// The relaxed maximum of a pool where the sure items are taken, and of the others those of the
/// greatest counts. There is none where the sure items are too many, or all that may be taken are
/// too few.
fn filled(setting: &Setting, pool: &Part, sure: &ItemSet) -> Option<i128>
    requires problem { IsSeriesProblem (problem_of setting.now) }
    requires near { IsPartNear (size setting.now.bank.now) rest_top pool.now }
    ensures { IsFilled setting.now.bank.now (setting.now.forms * setting.now.spec.now.length)
        pool.now (has sure.now) result }
{
    let items = setting.bank.items();
    let others = pool.holds.minus(*sure);
    let all = setting.forms as u32 * setting.spec.length();
    let taken = size_in(setting.bank, sure);
    let free = size_in(setting.bank, &others);
    if all < taken || taken + free < all {
        return None;
    }
    let top = top_of(&pool.counts, items, &others, all - taken);
    let first = sum_of(&pool.counts, items, sure);
    let second = sum_of(&pool.counts, items, &top);
    Some(pool.rest + (first + second))
}

/// The relaxed maximum of the pool; none where no items of all forms together go with the path.
pub fn pool_maximum(
    setting: &Setting,
    cut: &SeriesCut,
    sides: &[u32; 2315],
    ray: bool,
) -> Option<i128>
    requires { IsSeriesProblem (problem_of setting.now) }
    ensures { (v : Multipliers) → IsSides v sides.now
        → IsAnswer true (problem_of setting.now) (path_of cut.now) v ray result }
{
    if !are_apart(setting.forms, &cut.taken) {
        return None;
    }
    let placed = placed(setting, cut);
    if is_use_lost(setting, cut, &placed) {
        return None;
    }
    let pool = pool_of(setting, cut, sides, ray);
    let sure = placed.union(cut.used);
    filled(setting, &pool, &sure)
}
