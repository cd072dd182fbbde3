//! The leaves that close a path.

ghost use Rattle.std.specs.Prelude.{◌≡◌, ◌↔◌, ◌*◌, ◌<◌, ◌≤◌, Bool, true, IsTrue, Some, pos, slice_index};
ghost use Rattle.bank_tables.specs.Sums.{sum_in};
ghost use Rattle.certificate_model.specs.Relaxed.{Multipliers};
ghost use Rattle.series_model.specs.declared.node.SeriesNode.TheVariants.{Bound, Ray, Whole};
ghost use Rattle.series_model.specs.Series.{IsSeriesProblem};
ghost use Rattle.series_model.specs.SeriesTrees.{names_pool};
ghost use Rattle.series_model.specs.SeriesPools.{goal_of};
ghost use Rattle.series_model.specs.SeriesVerdicts.{IsSide, NamesOnlySides, MaximumIsBelow, ClosesByBound, IsWholePath, IsSettled, IsSound};
ghost use Rattle.series_check.specs.Cuts.{problem_of, path_of};
ghost use Rattle.series_check.specs.Maximum.{IsSides, IsAnswer};
ghost use Rattle.series_check.specs.Points.{points_at};

use crate::cut::SeriesCut;
use crate::information::{least_of_pool, points};
use crate::pool::pool_maximum;
use crate::relaxed::relaxed_maximum;
use crate::setting::Setting;
use crate::sides::sides_of;
use crate::standing::standing_on;
use crate::value::{is_series, value};
use series_tree::{SeriesTree, names_pool};

/// Whether a side below 256 is one of a form at a grid point.
fn is_point_side(setting: &Setting, side: u16) -> bool
    requires problem { IsSeriesProblem (problem_of setting.now) }
    requires last { side < 256 }
    ensures { (pool : Bool) → (IsTrue result ↔ IsSide (problem_of setting.now) pool side) }
{
    side / 64 < setting.forms as u16 && side % 64 < setting.bank.grid() as u16
}

/// Whether a side from 256 to 767 is one of the common use of an item; a vector of the pool may
/// name none.
fn is_use_side(setting: &Setting, pool: bool, side: u16) -> bool
    requires problem { IsSeriesProblem (problem_of setting.now) }
    requires first { 256 ≤ side }
    requires last { side < 768 }
    ensures { IsTrue result ↔ IsSide (problem_of setting.now) pool side }
{
    !pool && side - 256 < setting.bank.items()
}

/// Whether a side from 768 to 2,303 is one of a form's rows and stimuli.
fn is_row_side(setting: &Setting, side: u16) -> bool
    requires problem { IsSeriesProblem (problem_of setting.now) }
    requires first { 768 ≤ side }
    requires last { side < 2304 }
    ensures { (pool : Bool) → (IsTrue result ↔ IsSide (problem_of setting.now) pool side) }
{
    let rows = setting.spec.rows().len() + setting.bank.stimuli() as usize;
    let own = (side - 768) % 384;
    (side - 768) / 384 < setting.forms as u16 && (own as usize) < 2 * rows
}

/// Whether a side from 2,304 on is one of the length of a form, or the mark, which a vector of the
/// pool alone may name.
fn is_pool_side(setting: &Setting, pool: bool, side: u16) -> bool
    requires problem { IsSeriesProblem (problem_of setting.now) }
    requires first { 2304 ≤ side }
    ensures { IsTrue result ↔ IsSide (problem_of setting.now) pool side }
{
    pool && (side == 2314 || side - 2304 < 2 * setting.forms as u16)
}

/// Whether a side is one that a vector of the pool, or another, may name.
fn is_side(setting: &Setting, pool: bool, side: u16) -> bool
    requires { IsSeriesProblem (problem_of setting.now) }
    ensures { IsTrue result ↔ IsSide (problem_of setting.now) pool side }
{
    if side < 256 {
        is_point_side(setting, side)
    } else if side < 768 {
        is_use_side(setting, pool, side)
    } else if side < 2304 {
        is_row_side(setting, side)
    } else {
        is_pool_side(setting, pool, side)
    }
}

/// Whether each side that the vector names is one of these.
fn names_only_sides(setting: &Setting, pool: bool, vector: &[(u16, u32)]) -> bool
    requires problem { IsSeriesProblem (problem_of setting.now) }
    requires pool { pool ≡ names_pool vector.now }
    ensures { IsTrue result ↔ NamesOnlySides (problem_of setting.now) vector.now }
{
    for pair in vector {
        if !is_side(setting, pool, pair.0) {
            return false;
        }
    }
    true
}

/// The relaxed maximum by the rule of the pool, or of each form for itself.
fn maximum_by(
    setting: &Setting,
    cut: &SeriesCut,
    sides: &[u32; 2315],
    pool: bool,
    ray: bool,
) -> Option<i128>
    requires { IsSeriesProblem (problem_of setting.now) }
    ensures { (v : Multipliers) → IsSides v sides.now
        → IsAnswer pool (problem_of setting.now) (path_of cut.now) v ray result }
{
    if pool {
        pool_maximum(setting, cut, sides, ray)
    } else {
        relaxed_maximum(setting, cut, sides, ray)
    }
}

/// Whether the relaxed maximum is defined and below a number.
fn maximum_is_below(
    setting: &Setting,
    cut: &SeriesCut,
    sides: &[u32; 2315],
    pool: bool,
    ray: bool,
    top: i128,
) -> bool
    requires { IsSeriesProblem (problem_of setting.now) }
    ensures { (v : Multipliers) → IsSides v sides.now → pool ≡ names_pool v → (IsTrue result
        ↔ MaximumIsBelow (problem_of setting.now) (path_of cut.now) v ray top) }
{
    match maximum_by(setting, cut, sides, pool, ray) {
        Some(maximum) => maximum < top,
        None => false,
    }
}

/// What the relaxed maximum reaches where there is a series whose value is above the bar.
fn goal_above(setting: &Setting, bar: u64, sides: &[u32; 2315], pool: bool, points: u128) -> i128
    requires problem { IsSeriesProblem (problem_of setting.now) }
    requires points { points ≡ sum_in setting.now.forms (λ _. true)
        (points_at (problem_of setting.now) (slice_index sides.now)) }
    requires few { points ≤ 4 * (61 * 4294967295) }
    ensures { (v : Multipliers) → IsSides v sides.now → pool ≡ names_pool v
        → result ≡ pos (goal_of (problem_of setting.now) v bar) }
{
    if pool {
        least_of_pool(setting, sides, bar) as i128
    } else {
        (points * (bar as u128 + 1)) as i128
    }
}

/// Whether the relaxed maximum is too low for a series whose value is above the bar.
fn closes(setting: &Setting, bar: u64, cut: &SeriesCut, sides: &[u32; 2315], pool: bool) -> bool
    requires { IsSeriesProblem (problem_of setting.now) }
    ensures { (v : Multipliers) → IsSides v sides.now → pool ≡ names_pool v → (IsTrue result
        ↔ ClosesByBound (problem_of setting.now) (Some bar) (path_of cut.now) v) }
{
    let points = points(setting, sides);
    if points == 0 {
        return false;
    }
    let goal = goal_above(setting, bar, sides, pool, points);
    maximum_is_below(setting, cut, sides, pool, false, goal)
}

/// Whether a Bound leaf is sound.
pub fn bound_is_sound(
    setting: &Setting,
    bar: &Option<u64>,
    tree: &SeriesTree,
    cut: &SeriesCut,
    which: u8,
) -> bool
    requires { IsSeriesProblem (problem_of setting.now) }
    ensures { IsTrue result
        ↔ IsSound (problem_of setting.now) bar.now tree.now (path_of cut.now) (Bound which) }
{
    let vectors = tree.vectors();
    if which as usize >= vectors.len() {
        return false;
    }
    let vector = vectors[which as usize].pairs();
    let pool = names_pool(vector);
    if !names_only_sides(setting, pool, vector) {
        return false;
    }
    match bar {
        Some(bar) => closes(setting, *bar, cut, &sides_of(vector), pool),
        None => false,
    }
}

/// Whether a Ray leaf is sound.
pub fn ray_is_sound(
    setting: &Setting,
    bar: &Option<u64>,
    tree: &SeriesTree,
    cut: &SeriesCut,
    which: u8,
) -> bool
    requires { IsSeriesProblem (problem_of setting.now) }
    ensures { IsTrue result
        ↔ IsSound (problem_of setting.now) bar.now tree.now (path_of cut.now) (Ray which) }
{
    let vectors = tree.vectors();
    if which as usize >= vectors.len() {
        return false;
    }
    let vector = vectors[which as usize].pairs();
    let pool = names_pool(vector);
    if !names_only_sides(setting, pool, vector) {
        return false;
    }
    maximum_is_below(setting, cut, &sides_of(vector), pool, true, 0)
}

/// Whether no item is free in a form.
pub fn is_whole(setting: &Setting, cut: &SeriesCut) -> bool
    requires { IsSeriesProblem (problem_of setting.now) }
    ensures { IsTrue result ↔ IsWholePath (problem_of setting.now) (path_of cut.now) }
{
    for f in 0..setting.forms {
        if standing_on(setting, cut, f).free.first().is_some() {
            return false;
        }
    }
    true
}

/// Whether the sets left are no series, or have a value of at most the bar.
fn is_settled(setting: &Setting, bar: &Option<u64>, cut: &SeriesCut) -> bool
    requires { IsSeriesProblem (problem_of setting.now) }
    ensures { IsTrue result
        ↔ IsSettled (problem_of setting.now) bar.now (path_of cut.now).taken }
{
    if !is_series(setting, &cut.taken) {
        return true;
    }
    match bar {
        Some(bar) => value(setting, &cut.taken) <= *bar,
        None => false,
    }
}

/// Whether a Whole leaf is sound.
pub fn whole_is_sound(
    setting: &Setting,
    bar: &Option<u64>,
    tree: &SeriesTree,
    cut: &SeriesCut,
) -> bool
    requires { IsSeriesProblem (problem_of setting.now) }
    ensures { IsTrue result
        ↔ IsSound (problem_of setting.now) bar.now tree.now (path_of cut.now) Whole }
{
    is_whole(setting, cut) && is_settled(setting, bar, cut)
}
