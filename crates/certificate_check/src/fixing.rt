//! What a vector settles on a path for every form better than a goal (reduced cost fixing).

ghost use Rattle.std.specs.Prelude.{◌≡◌, ℕ, suc, ◌<◌, ◌≤◌, ◌&&◌, ◌||◌, cond, neg_ℤ, not, pos};
ghost use Rattle.std.specs.Int.{int_max};
ghost use Rattle.bank_tables.specs.Items.{has};
ghost use Rattle.bank_tables.specs.Sums.{any_below};
ghost use Rattle.bank_tables.specs.Tables.{size, stimulus};
ghost use Rattle.form_model.specs.Forms.{stimuli_of};
ghost use Rattle.form_model.specs.Plan.{bound_at};
ghost use Rattle.form_model.specs.Validity.{IsWellMade};
ghost use Rattle.certificate_model.specs.Fixing.{loss_with, is_too_dear, has_too_few, is_put_out, is_taken_in, is_settled_on, fills_room, margin, stimulus_margin};
ghost use Rattle.certificate_model.specs.Paths.{is_free, is_open};
ghost use Rattle.certificate_model.specs.ProofTrees.{IsVector};
ghost use Rattle.certificate_model.specs.Ranges.{IsWithin};
ghost use Rattle.certificate_model.specs.Verdicts.{NamesOnlySides, IsStimulusBranch};
ghost use Rattle.constraint_model.specs.Views.{problem_of};
ghost use Rattle.certificate_check.specs.Costs.{AreCosts, margin_top};
ghost use Rattle.certificate_check.specs.Cuts.{path_of, IsStanding};
ghost use Rattle.certificate_check.specs.Weights.{gain_top};
ghost use Rattle.certificate_check.specs.Fixes.{AreFixed, IsFixed, lacks_items};

use crate::candidate::has_members;
use crate::costs::{Costs, above_zero, below_zero, costs_of};
use crate::counting::items_of_each;
use crate::cut::Cut;
use crate::standing::Standing;
use bank_tables::{Bank, ItemSet};
use constraint_model::Problem;

/// The items taken in, the items put out, and the stimuli chosen.
#[derive(Clone, Copy)]
pub struct Fixed {
    pub taken: ItemSet,
    pub out: ItemSet,
    pub branched_on: ItemSet,
}

/// How far the margin of an item is below 0.
fn item_loss(problem: &Problem, standing: &Standing, costs: &Costs, item: u16) -> i64
    requires well_made { IsWellMade (problem_of problem.now) }
    requires standing { IsStanding (problem_of problem.now) standing.now }
    requires costs { AreCosts (problem_of problem.now) (path_of standing.now.cut) costs.now }
    requires item { item < size problem.now.bank.now }
    ensures value { result
        ≡ int_max (pos 0) (neg_ℤ (margin (problem_of problem.now) costs.now.vector.now item)) }
    ensures within { IsWithin margin_top result }
{
    below_zero(costs.margins[item as usize])
}

/// How far the margin of an item is above 0.
fn item_gain(problem: &Problem, standing: &Standing, costs: &Costs, item: u16) -> i64
    requires well_made { IsWellMade (problem_of problem.now) }
    requires standing { IsStanding (problem_of problem.now) standing.now }
    requires costs { AreCosts (problem_of problem.now) (path_of standing.now.cut) costs.now }
    requires item { item < size problem.now.bank.now }
    ensures { result
        ≡ int_max (pos 0) (margin (problem_of problem.now) costs.now.vector.now item) }
{
    above_zero(costs.margins[item as usize])
}

/// What an open stimulus adds if it is used.
fn use_at(problem: &Problem, standing: &Standing, costs: &Costs, which: u8) -> i64
    requires well_made { IsWellMade (problem_of problem.now) }
    requires standing { IsStanding (problem_of problem.now) standing.now }
    requires costs { AreCosts (problem_of problem.now) (path_of standing.now.cut) costs.now }
    requires branch { IsStimulusBranch (problem_of problem.now) (path_of standing.now.cut) which }
    ensures value { result ≡ stimulus_margin (problem_of problem.now) (path_of standing.now.cut)
        costs.now.vector.now which }
    ensures within { IsWithin gain_top result }
{
    costs.uses[which as usize - 1]
}

/// How far what an open stimulus adds if it is used is above 0.
fn use_gain(problem: &Problem, standing: &Standing, costs: &Costs, which: u8) -> i64
    requires well_made { IsWellMade (problem_of problem.now) }
    requires standing { IsStanding (problem_of problem.now) standing.now }
    requires costs { AreCosts (problem_of problem.now) (path_of standing.now.cut) costs.now }
    requires branch { IsStimulusBranch (problem_of problem.now) (path_of standing.now.cut) which }
    ensures { result ≡ int_max (pos 0) (stimulus_margin (problem_of problem.now)
        (path_of standing.now.cut) costs.now.vector.now which) }
{
    above_zero(use_at(problem, standing, costs, which))
}

/// How far what an open stimulus adds if it is used is below 0.
fn use_loss(problem: &Problem, standing: &Standing, costs: &Costs, which: u8) -> i64
    requires well_made { IsWellMade (problem_of problem.now) }
    requires standing { IsStanding (problem_of problem.now) standing.now }
    requires costs { AreCosts (problem_of problem.now) (path_of standing.now.cut) costs.now }
    requires branch { IsStimulusBranch (problem_of problem.now) (path_of standing.now.cut) which }
    ensures value { result ≡ int_max (pos 0) (neg_ℤ (stimulus_margin (problem_of problem.now)
        (path_of standing.now.cut) costs.now.vector.now which)) }
    ensures within { IsWithin gain_top result }
{
    below_zero(use_at(problem, standing, costs, which))
}

/// How far what a stimulus adds is below 0, if it is open.
fn stimulus_loss(problem: &Problem, standing: &Standing, costs: &Costs, which: u8) -> i64
    requires well_made { IsWellMade (problem_of problem.now) }
    requires standing { IsStanding (problem_of problem.now) standing.now }
    requires costs { AreCosts (problem_of problem.now) (path_of standing.now.cut) costs.now }
    ensures value { result ≡ cond (is_open (problem_of problem.now) (path_of standing.now.cut) which)
        (int_max (pos 0) (neg_ℤ (stimulus_margin (problem_of problem.now) (path_of standing.now.cut)
        costs.now.vector.now which))) (pos 0) }
    ensures within { IsWithin gain_top result }
{
    if !standing.opened.has(which as u16) {
        return 0;
    }
    use_loss(problem, standing, costs, which)
}

/// What a form loses if it has an item: the margin below 0, and that of its stimulus if it is open.
fn loss_with(problem: &Problem, standing: &Standing, costs: &Costs, item: u16) -> i64
    requires well_made { IsWellMade (problem_of problem.now) }
    requires standing { IsStanding (problem_of problem.now) standing.now }
    requires costs { AreCosts (problem_of problem.now) (path_of standing.now.cut) costs.now }
    requires item { item < size problem.now.bank.now }
    ensures { result
        ≡ loss_with (problem_of problem.now) (path_of standing.now.cut) costs.now.vector.now
        costs.now.goal item }
{
    item_loss(problem, standing, costs, item)
        + stimulus_loss(problem, standing, costs, problem.bank.stimulus(item))
}

/// Whether an item is free and costs too much to have.
fn is_too_dear(problem: &Problem, standing: &Standing, costs: &Costs, item: u16) -> bool
    requires well_made { IsWellMade (problem_of problem.now) }
    requires standing { IsStanding (problem_of problem.now) standing.now }
    requires costs { AreCosts (problem_of problem.now) (path_of standing.now.cut) costs.now }
    requires item { item < size problem.now.bank.now }
    ensures { result
        ≡ is_too_dear (problem_of problem.now) (path_of standing.now.cut) costs.now.vector.now
        costs.now.goal item }
{
    standing.free.has(item) && loss_with(problem, standing, costs, item) >= costs.room
}

/// The free items that cost too much to have.
fn too_dear(problem: &Problem, standing: &Standing, costs: &Costs) -> ItemSet
    requires well_made { IsWellMade (problem_of problem.now) }
    requires standing { IsStanding (problem_of problem.now) standing.now }
    requires costs { AreCosts (problem_of problem.now) (path_of standing.now.cut) costs.now }
    ensures { (i : ℕ) → has result i
        ≡ is_too_dear (problem_of problem.now) (path_of standing.now.cut) costs.now.vector.now
        costs.now.goal i }
{
    let mut found = ItemSet::empty();
    for i in 0..problem.bank.items() {
        if is_too_dear(problem, standing, costs, i) {
            found = found.with(i);
        }
    }
    found
}

/// The fewest items of a stimulus in a form that uses it.
fn low_bound(problem: &Problem, which: u8) -> u32
    requires well_made { IsWellMade (problem_of problem.now) }
    requires first { 0 < which }
    requires last { which ≤ stimuli_of problem.now.bank.now }
    ensures { result ≡ (bound_at (problem_of problem.now).plan which).low }
{
    problem.spec.bounds()[which as usize - 1].low
}

/// Whether a stimulus is open and has fewer items left than a form that uses it.
#[tactic(auto, unfolding(crate::specs::Fixes::lacks_items))]
fn has_too_few(problem: &Problem, standing: &Standing, left: &[u32; 65], which: u8) -> bool
    requires well_made { IsWellMade (problem_of problem.now) }
    requires standing { IsStanding (problem_of problem.now) standing.now }
    ensures { result
        ≡ lacks_items (problem_of problem.now) (path_of standing.now.cut) left.now which }
{
    if !standing.opened.has(which as u16) {
        return false;
    }
    left[which as usize] < low_bound(problem, which)
}

/// The open stimuli with fewer items left than a form that uses them.
fn too_few(problem: &Problem, standing: &Standing, left: &[u32; 65]) -> ItemSet
    requires well_made { IsWellMade (problem_of problem.now) }
    requires standing { IsStanding (problem_of problem.now) standing.now }
    ensures { (s : ℕ) → has result s
        ≡ lacks_items (problem_of problem.now) (path_of standing.now.cut) left.now s }
{
    let mut found = ItemSet::empty();
    for which in 0..65 {
        if has_too_few(problem, standing, left, which) {
            found = found.with(which as u16);
        }
    }
    found
}

/// The open stimuli with fewer items left than a form that uses them, where these items are too
/// dear.
fn too_few_left(problem: &Problem, standing: &Standing, costs: &Costs, dear: &ItemSet) -> ItemSet
    requires well_made { IsWellMade (problem_of problem.now) }
    requires standing { IsStanding (problem_of problem.now) standing.now }
    requires costs { AreCosts (problem_of problem.now) (path_of standing.now.cut) costs.now }
    requires dear { (i : ℕ) → has dear.now i
        ≡ is_too_dear (problem_of problem.now) (path_of standing.now.cut) costs.now.vector.now
        costs.now.goal i }
    ensures { (s : ℕ) → has result s
        ≡ has_too_few (problem_of problem.now) (path_of standing.now.cut) costs.now.vector.now
        costs.now.goal s }
{
    let left = items_of_each(problem.bank, &standing.free.minus(*dear));
    too_few(problem, standing, &left)
}

/// Whether a free item is too dear, or its stimulus has too few left.
fn is_put_out(
    problem: &Problem,
    standing: &Standing,
    dear: &ItemSet,
    few: &ItemSet,
    item: u16,
) -> bool
    requires standing { IsStanding (problem_of problem.now) standing.now }
    requires item { item < size problem.now.bank.now }
    ensures { result ≡ (is_free (problem_of problem.now) (path_of standing.now.cut) item
        && (has dear.now item || has few.now (stimulus problem.now.bank.now item))) }
{
    if !standing.free.has(item) {
        return false;
    }
    dear.has(item) || few.has(problem.bank.stimulus(item) as u16)
}

/// The free items that are too dear, or whose stimulus has too few left.
fn put_out(problem: &Problem, standing: &Standing, dear: &ItemSet, few: &ItemSet) -> ItemSet
    requires { IsStanding (problem_of problem.now) standing.now }
    ensures { (i : ℕ) → has result i ≡ (is_free (problem_of problem.now) (path_of standing.now.cut) i
        && (has dear.now i || has few.now (stimulus problem.now.bank.now i))) }
{
    let mut found = ItemSet::empty();
    for i in 0..problem.bank.items() {
        if is_put_out(problem, standing, dear, few, i) {
            found = found.with(i);
        }
    }
    found
}

/// Whether the stimulus of an item is not open, or costs too much to leave.
fn needs_stimulus(problem: &Problem, standing: &Standing, costs: &Costs, item: u16) -> bool
    requires well_made { IsWellMade (problem_of problem.now) }
    requires standing { IsStanding (problem_of problem.now) standing.now }
    requires costs { AreCosts (problem_of problem.now) (path_of standing.now.cut) costs.now }
    requires item { item < size problem.now.bank.now }
    ensures { result ≡ (not (is_open (problem_of problem.now) (path_of standing.now.cut)
        (stimulus problem.now.bank.now item))
        || fills_room (problem_of problem.now) (path_of standing.now.cut) costs.now.vector.now
        costs.now.goal
        (stimulus_margin (problem_of problem.now) (path_of standing.now.cut)
        costs.now.vector.now (stimulus problem.now.bank.now item))) }
{
    let which = problem.bank.stimulus(item);
    if !standing.opened.has(which as u16) {
        return true;
    }
    use_at(problem, standing, costs, which) >= costs.room
}

/// Whether a free item that is not put out costs too much to lack.
fn is_taken_in(
    problem: &Problem,
    standing: &Standing,
    costs: &Costs,
    out: &ItemSet,
    item: u16,
) -> bool
    requires well_made { IsWellMade (problem_of problem.now) }
    requires standing { IsStanding (problem_of problem.now) standing.now }
    requires costs { AreCosts (problem_of problem.now) (path_of standing.now.cut) costs.now }
    requires out { (i : ℕ) → has out.now i
        ≡ is_put_out (problem_of problem.now) (path_of standing.now.cut) costs.now.vector.now
        costs.now.goal i }
    requires item { item < size problem.now.bank.now }
    ensures { result
        ≡ is_taken_in (problem_of problem.now) (path_of standing.now.cut) costs.now.vector.now
        costs.now.goal item }
{
    if !standing.free.has(item) {
        return false;
    }
    if out.has(item) {
        return false;
    }
    if item_gain(problem, standing, costs, item) < costs.room {
        return false;
    }
    needs_stimulus(problem, standing, costs, item)
}

/// The free items that are not put out and cost too much to lack.
fn taken_in(problem: &Problem, standing: &Standing, costs: &Costs, out: &ItemSet) -> ItemSet
    requires well_made { IsWellMade (problem_of problem.now) }
    requires standing { IsStanding (problem_of problem.now) standing.now }
    requires costs { AreCosts (problem_of problem.now) (path_of standing.now.cut) costs.now }
    requires out { (i : ℕ) → has out.now i
        ≡ is_put_out (problem_of problem.now) (path_of standing.now.cut) costs.now.vector.now
        costs.now.goal i }
    ensures { (i : ℕ) → has result i
        ≡ is_taken_in (problem_of problem.now) (path_of standing.now.cut) costs.now.vector.now
        costs.now.goal i }
{
    let mut found = ItemSet::empty();
    for i in 0..problem.bank.items() {
        if is_taken_in(problem, standing, costs, out, i) {
            found = found.with(i);
        }
    }
    found
}

/// Whether it costs too much to leave an open stimulus, and not too much to use it.
fn is_worth_using(problem: &Problem, standing: &Standing, costs: &Costs, which: u8) -> bool
    requires well_made { IsWellMade (problem_of problem.now) }
    requires standing { IsStanding (problem_of problem.now) standing.now }
    requires costs { AreCosts (problem_of problem.now) (path_of standing.now.cut) costs.now }
    requires branch { IsStimulusBranch (problem_of problem.now) (path_of standing.now.cut) which }
    ensures { result
        ≡ (not (fills_room (problem_of problem.now) (path_of standing.now.cut) costs.now.vector.now
        costs.now.goal (int_max (pos 0) (neg_ℤ (stimulus_margin (problem_of problem.now)
        (path_of standing.now.cut) costs.now.vector.now which))))
        && fills_room (problem_of problem.now) (path_of standing.now.cut) costs.now.vector.now
        costs.now.goal (int_max (pos 0) (stimulus_margin (problem_of problem.now)
        (path_of standing.now.cut) costs.now.vector.now which))) }
{
    if use_loss(problem, standing, costs, which) >= costs.room {
        return false;
    }
    use_gain(problem, standing, costs, which) >= costs.room
}

/// Whether an open stimulus costs too much to leave, and not too much to use.
fn is_settled_on(
    problem: &Problem,
    standing: &Standing,
    costs: &Costs,
    few: &ItemSet,
    which: u8,
) -> bool
    requires well_made { IsWellMade (problem_of problem.now) }
    requires standing { IsStanding (problem_of problem.now) standing.now }
    requires costs { AreCosts (problem_of problem.now) (path_of standing.now.cut) costs.now }
    requires few { (s : ℕ) → has few.now s
        ≡ has_too_few (problem_of problem.now) (path_of standing.now.cut) costs.now.vector.now
        costs.now.goal s }
    ensures { result
        ≡ is_settled_on (problem_of problem.now) (path_of standing.now.cut) costs.now.vector.now
        costs.now.goal which }
{
    if !standing.opened.has(which as u16) {
        return false;
    }
    if few.has(which as u16) {
        return false;
    }
    is_worth_using(problem, standing, costs, which)
}

/// The open stimuli that cost too much to leave, and not too much to use.
fn settled_on(problem: &Problem, standing: &Standing, costs: &Costs, few: &ItemSet) -> ItemSet
    requires well_made { IsWellMade (problem_of problem.now) }
    requires standing { IsStanding (problem_of problem.now) standing.now }
    requires costs { AreCosts (problem_of problem.now) (path_of standing.now.cut) costs.now }
    requires few { (s : ℕ) → has few.now s
        ≡ has_too_few (problem_of problem.now) (path_of standing.now.cut) costs.now.vector.now
        costs.now.goal s }
    ensures { (s : ℕ) → has result s
        ≡ is_settled_on (problem_of problem.now) (path_of standing.now.cut) costs.now.vector.now
        costs.now.goal s }
{
    let mut found = ItemSet::empty();
    for which in 0..65 {
        if is_settled_on(problem, standing, costs, few, which) {
            found = found.with(which as u16);
        }
    }
    found
}

/// What these costs settle.
fn fixed_by(problem: &Problem, standing: &Standing, costs: &Costs) -> Fixed
    requires well_made { IsWellMade (problem_of problem.now) }
    requires standing { IsStanding (problem_of problem.now) standing.now }
    requires costs { AreCosts (problem_of problem.now) (path_of standing.now.cut) costs.now }
    ensures { AreFixed (problem_of problem.now) (path_of standing.now.cut) costs.now.vector.now
        costs.now.goal result }
{
    let dear = too_dear(problem, standing, costs);
    let few = too_few_left(problem, standing, costs, &dear);
    let out = put_out(problem, standing, &dear, &few);
    Fixed {
        taken: taken_in(problem, standing, costs, &out),
        out,
        branched_on: settled_on(problem, standing, costs, &few),
    }
}

/// The path with what is settled.
fn cut_with(cut: &Cut, fixed: &Fixed) -> Cut
    ensures taken { (i : ℕ) → has result.taken i ≡ (has fixed.now.taken i || has cut.now.taken i) }
    ensures out { (i : ℕ) → has result.out i ≡ (has fixed.now.out i || has cut.now.out i) }
    ensures branched_on { (s : ℕ) → has result.branched_on s
        ≡ (has fixed.now.branched_on s || has cut.now.branched_on s) }
{
    Cut {
        taken: fixed.taken.union(cut.taken),
        out: fixed.out.union(cut.out),
        branched_on: fixed.branched_on.union(cut.branched_on),
    }
}

/// Whether a set has a stimulus of the bank.
fn has_stimuli(bank: &Bank, stimuli: &ItemSet) -> bool
    ensures { result ≡ any_below (stimuli_of bank.now) (λ k. has stimuli.now (suc k)) }
{
    let mut found = false;
    for k in 0..bank.stimuli() {
        if stimuli.has(k as u16 + 1) {
            found = true;
        }
    }
    found
}

/// Whether something is settled.
fn settles(bank: &Bank, fixed: &Fixed) -> bool
    ensures { result ≡ (any_below (size bank.now) (λ i. has fixed.now.out i || has fixed.now.taken i)
        || any_below (stimuli_of bank.now) (λ k. has fixed.now.branched_on (suc k))) }
{
    let items = fixed.out.union(fixed.taken);
    if has_members(bank, &items) {
        return true;
    }
    has_stimuli(bank, &fixed.branched_on)
}

/// The path of the forms that are better than a goal, by a vector; None where it settles nothing.
pub fn fixed_cut(
    problem: &Problem,
    standing: &Standing,
    vector: &[(u16, u32)],
    goal: u32,
) -> Option<Cut>
    requires well_made { IsWellMade (problem_of problem.now) }
    requires standing { IsStanding (problem_of problem.now) standing.now }
    requires vector { IsVector 0 vector.now }
    requires sides { NamesOnlySides (problem_of problem.now) vector.now }
    ensures { IsFixed (problem_of problem.now) (path_of standing.now.cut) vector.now goal result }
{
    let costs = costs_of(problem, standing, vector, goal);
    let fixed = fixed_by(problem, standing, &costs);
    if !settles(problem.bank, &fixed) {
        return None;
    }
    Some(cut_with(&standing.cut, &fixed))
}
