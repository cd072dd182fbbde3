//! The relaxed maximum: an upper bound on the weighted information of each series on a path.

ghost use Rattle.std.specs.Prelude.{◌≡◌, ℕ, ◌+◌, ◌*◌, ◌<◌, ◌≤◌, ◌≤ℤ◌, pos, false, IfSome, slice_index};
ghost use Rattle.bank_tables.specs.Items.{has};
ghost use Rattle.bank_tables.specs.Tables.{size};
ghost use Rattle.form_model.specs.Forms.{size_in};
ghost use Rattle.certificate_model.specs.Ranges.{IsWithin, at};
ghost use Rattle.certificate_model.specs.Relaxed.{Multipliers};
ghost use Rattle.series_model.specs.Series.{IsSeriesProblem};
ghost use Rattle.series_check.specs.Cuts.{problem_of, one_form, path_of, form_path_of, IsStanding};
ghost use Rattle.series_check.specs.Maximum.{information_at, weight_at, maximum_top, IsValueOf, IsSides, IsFormAnswer, IsAnswer};
ghost use Rattle.series_check.specs.Tops.{item_top, weight_top};

use crate::cut::SeriesCut;
use crate::gains::gains;
use crate::information::{information, uses};
use crate::rows::{item_weight, rows_constant};
use crate::setting::Setting;
use crate::sides::form_sides;
use crate::standing::{Standing, standing_on};
use crate::top::{sum_of, top_of};
use constraint_model::counts::size_in;

/// What the points add to an item; nothing for a ray.
fn information_or_none(
    setting: &Setting,
    sides: &[u32; 2315],
    form: u8,
    ray: bool,
    item: u16,
) -> i128
    requires problem { IsSeriesProblem (problem_of setting.now) }
    requires form { form < 4 }
    requires item { item < size setting.now.bank.now }
    ensures value { result ≡ pos (information_at (problem_of setting.now) (slice_index sides.now)
        ray form item) }
    ensures high { result ≤ℤ pos (61 * (4294967295 * 1000000000)) }
{
    if ray {
        0
    } else {
        information(setting, sides, form, item) as i128
    }
}

/// What an item weighs in a form.
fn weight(
    setting: &Setting,
    sides: &[u32; 2315],
    own: &[u32; 384],
    form: u8,
    ray: bool,
    item: u16,
) -> i128
    requires problem { IsSeriesProblem (problem_of setting.now) }
    requires form { form < 4 }
    requires item { item < size setting.now.bank.now }
    ensures value { result ≡ weight_at (problem_of setting.now) (slice_index sides.now)
        (slice_index own.now) ray form item }
    ensures within { IsWithin weight_top result }
{
    let price = sides[256 + item as usize] as i128;
    let gain = information_or_none(setting, sides, form, ray, item) - price;
    gain + item_weight(setting, own, item)
}

/// What each item of the bank weighs in a form.
pub fn weights(
    setting: &Setting,
    sides: &[u32; 2315],
    own: &[u32; 384],
    form: u8,
    ray: bool,
) -> [i128; 512]
    requires problem { IsSeriesProblem (problem_of setting.now) }
    requires form { form < 4 }
    ensures value { (i : ℕ) → i < size setting.now.bank.now
        → at result i ≡ weight_at (problem_of setting.now) (slice_index sides.now)
        (slice_index own.now) ray form i }
    ensures within { (i : ℕ) → i < size setting.now.bank.now → IsWithin weight_top (at result i) }
{
    let mut weights = [0i128; 512];
    for i in 0..setting.bank.items() {
        weights[i as usize] = weight(setting, sides, own, form, ray, i);
    }
    weights
}

/// The constant, the weights of the items taken and of the greatest free ones, and what the stimuli
/// add.
fn form_value(
    setting: &Setting,
    standing: &Standing,
    own: &[u32; 384],
    weights: &[i128; 512],
    k: u32,
) -> i128
    requires problem { IsSeriesProblem (problem_of setting.now) }
    requires standing { IsStanding (one_form setting.now) standing.now }
    requires within { (i : ℕ) → i < size setting.now.bank.now
        → IsWithin item_top (at weights.now i) }
    requires enough { k ≤ size_in setting.now.bank.now (has standing.now.free) }
    requires fills { size_in setting.now.bank.now (has standing.now.taken) + k
        ≡ setting.now.spec.now.length }
    ensures within { IsWithin maximum_top result }
    ensures maximum { IsValueOf (one_form setting.now) (form_path_of standing.now)
        (slice_index own.now) (at weights.now) result }
{
    let items = setting.bank.items();
    let top = top_of(weights, items, &standing.free, k);
    let taken = sum_of(weights, items, &standing.taken);
    let free = sum_of(weights, items, &top);
    rows_constant(setting, own) + ((taken + free) + gains(setting, standing, own))
}

/// The relaxed maximum of one form; none where its length is impossible by counting.
fn form_maximum(
    setting: &Setting,
    cut: &SeriesCut,
    sides: &[u32; 2315],
    form: u8,
    ray: bool,
) -> Option<i128>
    requires problem { IsSeriesProblem (problem_of setting.now) }
    requires form { form < setting.now.forms }
    ensures within { IfSome result (λ r. IsWithin maximum_top r) }
    ensures maximum { (v : Multipliers) → IsSides v sides.now
        → IsFormAnswer (problem_of setting.now) (path_of cut.now) v ray form result }
{
    let standing = standing_on(setting, cut, form);
    let length = setting.spec.length();
    let taken = size_in(setting.bank, &standing.taken);
    let free = size_in(setting.bank, &standing.free);
    if length < taken || taken + free < length {
        return None;
    }
    let own = form_sides(sides, form);
    let weights = weights(setting, sides, &own, form, ray);
    Some(form_value(setting, &standing, &own, &weights, length - taken))
}

/// The relaxed maximum of all forms; none where the length of one is impossible by counting.
pub fn relaxed_maximum(
    setting: &Setting,
    cut: &SeriesCut,
    sides: &[u32; 2315],
    ray: bool,
) -> Option<i128>
    requires { IsSeriesProblem (problem_of setting.now) }
    ensures { (v : Multipliers) → IsSides v sides.now
        → IsAnswer false (problem_of setting.now) (path_of cut.now) v ray result }
{
    let mut sum = uses(setting, sides) as i128;
    for f in 0..setting.forms {
        match form_maximum(setting, cut, sides, f, ray) {
            Some(maximum) => sum += maximum,
            None => return None,
        }
    }
    Some(sum)
}
