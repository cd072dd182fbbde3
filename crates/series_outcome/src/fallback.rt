//! The fallback search: depth first, with counting and nothing else. It answers where what the
//! search gave fails a test.

ghost use Rattle.std.specs.Prelude.{◌≡◌, ℕ, ◌+◌, ◌*◌, ◌^◌, ◌≤◌, ◌<◌, OnOk, IfOk};
ghost use Rattle.bank_tables.specs.Tables.{size};
ghost use Rattle.form_model.specs.Validity.{IsBudget};
ghost use Rattle.series_model.specs.Series.{IsSeriesProblem, IsSeries, IsSeriesList, IsValue, forms_of};
ghost use Rattle.series_model.specs.SeriesTrees.{Certificate};
ghost use Rattle.series_model.specs.SeriesVerdicts.{IsFormBranch, IsWholePath, verdict_of};
ghost use Rattle.series_tree.specs.Shape.{open_leaves};
ghost use Rattle.series_check.specs.Answers.{IsJudged};
ghost use Rattle.series_check.specs.Cuts.{problem_of, path_of};
ghost use Rattle.series_outcome.specs.Assemblies.{IsShown, IsDecided, IsNoWorse};
ghost use Rattle.series_outcome.specs.Searches.{IsKnown, value_known, IsLeafOrNone, Adds};
ghost use Rattle.series_outcome.specs.Spending.{IsSpent};

use crate::counted::impossible;
use crate::known::{Known, better};
use crate::outcome::{Series, SeriesOutcome};
use bank_tables::{ItemSet, List};
use series_check::{SeriesCut, Setting, below_form, is_whole, root_cut, standing_on};
use series_tree::{Memory, SeriesNode, SeriesTree, has_open_leaf};
use std::alloc::Global;

/// What the search keeps: the best series known, the branches that the node budget leaves, and the
/// nodes so far.
#[derive(Drop)]
struct SearchState {
    best: Option<Known>,
    branches: u16,
    nodes: Vec<SeriesNode>,
}

/// The leaf that ends the path, if one does; a better series that is met is kept.
fn leaf(setting: &Setting, cut: &SeriesCut, best: &mut Option<Known>) -> Option<SeriesNode>
    requires problem { IsSeriesProblem (problem_of setting.now) }
    requires known { IsKnown (problem_of setting.now) best.old }
    ensures known { IsKnown (problem_of setting.now) best.new }
    ensures leaf { IsLeafOrNone (problem_of setting.now) (path_of cut.now)
        (value_known best.old) (value_known best.new) result }
{
    if let Some(which) = impossible(setting, cut) {
        return Some(SeriesNode::Count {
            form: which.form,
            row: which.row,
        });
    }
    if is_whole(setting, cut) {
        *best = better(setting, *best, &cut.taken);
        return Some(SeriesNode::Whole);
    }
    None
}

/// A free item of the first form that has one.
#[derive(Clone, Copy)]
struct FreeItem {
    form: u8,
    item: u16,
}

/// The lowest free item of the first form that has one.
fn free_item(setting: &Setting, cut: &SeriesCut) -> FreeItem
    requires problem { IsSeriesProblem (problem_of setting.now) }
    requires several { IsWholePath (problem_of setting.now) (path_of cut.now) → ⊥ }
    ensures branch { IsFormBranch (problem_of setting.now) (path_of cut.now)
        result.form result.item }
    ensures form { result.form < 4 }
    ensures item { result.item < 512 }
{
    for form in 0..setting.forms {
        if let Some(item) = standing_on(setting, cut, form).free.first() {
            return FreeItem { form, item };
        }
    }
    unreachable!()
}

/// Searches the subtree of a path. A branch is used up by each branch made; once none is left, what
/// is not settled is left Open.
fn search(setting: &Setting, cut: &SeriesCut, state: &mut SearchState) -> Result<(), Memory>
    requires problem { IsSeriesProblem (problem_of setting.now) }
    requires known { IsKnown (problem_of setting.now) state.old.best }
    ensures known { OnOk result (IsKnown (problem_of setting.now) state.new.best) }
    ensures adds { OnOk result (Adds (problem_of setting.now) (path_of cut.now)
        (value_known state.old.best) state.old.branches state.old.nodes.items
        (value_known state.new.best) state.new.branches state.new.nodes.items) }
{
    if let Some(end) = leaf(setting, cut, &mut state.best) {
        state.nodes.push(end)?;
        return Ok(());
    }
    if state.branches == 0 {
        state.nodes.push(SeriesNode::Open)?;
        return Ok(());
    }
    state.branches -= 1;
    let FreeItem { form, item } = free_item(setting, cut);
    state.nodes.push(SeriesNode::Branch { form, item })?;
    let left = below_form(cut, form, item, true);
    search(setting, &left, state)?;
    let right = below_form(cut, form, item, false);
    search(setting, &right, state)?;
    Ok(())
}

/// The sets of a known series, as a list.
fn list_of(alloc: Global, setting: &Setting, known: &Known) -> Result<List<ItemSet>, Memory>
    requires problem { IsSeriesProblem (problem_of setting.now) }
    requires series { IsSeries (problem_of setting.now) (forms_of known.now.sets) }
    ensures list { IfOk result (λ forms. IsSeriesList (problem_of setting.now) forms) }
    ensures value { IfOk result (λ forms. (V : ℕ)
        → IsValue (problem_of setting.now) (forms_of known.now.sets) V
        → IsValue (problem_of setting.now) (forms_of forms) V) }
{
    let sets = Vec::from_slice(alloc, &known.sets[..setting.forms as usize])?;
    Ok(List::of(sets))
}

/// The outcome that the nodes show with the best series known or none.
fn outcome_of(
    alloc: Global,
    setting: &Setting,
    best: Option<Known>,
    nodes: &[SeriesNode],
) -> Result<SeriesOutcome, Memory>
    requires problem { IsSeriesProblem (problem_of setting.now) }
    requires known { IsKnown (problem_of setting.now) best }
    ensures decided { IfOk result (λ outcome. open_leaves nodes.now ≡ 0 → IsDecided outcome) }
    ensures keeps { IfOk result (IsNoWorse (problem_of setting.now) (value_known best)) }
    ensures shown { IfOk result (λ outcome. (T : Certificate) (budget : ℕ)
        → IsJudged (problem_of setting.now) (value_known best) T
        (verdict_of (value_known best) (open_leaves nodes.now))
        → (0 < open_leaves nodes.now → IsSpent (problem_of setting.now) T budget)
        → IsShown (problem_of setting.now) T budget outcome) }
{
    let is_open = has_open_leaf(nodes);
    let Some(known) = best else {
        if is_open {
            return Ok(SeriesOutcome::NoneFound);
        }
        return Ok(SeriesOutcome::NoSeries);
    };
    let forms = list_of(alloc, setting, &known)?;
    Ok(SeriesOutcome::Found {
        forms,
        proved: !is_open,
    })
}

/// Searches depth first within a budget of nodes: at each node the Count leaf of the first
/// impossible row, else a Whole leaf where no item is free, else a branch on the lowest free item
/// of the first form that has one, or an Open leaf once the budget leaves no branch. It begins with
/// a series that is known, if one is, and gives none that is worse.
pub fn search_fallback(
    alloc: Global,
    setting: &Setting,
    known: Option<Known>,
    budget: u16,
) -> Result<Series, Memory>
    requires problem { IsSeriesProblem (problem_of setting.now) }
    requires known { IsKnown (problem_of setting.now) known }
    requires budget { IsBudget budget }
    // Promise: The fallback search gives an outcome that its tree shows so, whatever the bank and
    // the plan; the only error is lack of memory
    ensures shown { IfOk result (λ s. IsShown (problem_of setting.now) s.tree budget s.outcome) }
    // Promise: With a budget of nodes for a branch on each item in each form, it decides
    ensures decided { IfOk result (λ s. 2 ^ (setting.now.forms * size setting.now.bank.now + 1)
        ≤ budget + 1 → IsDecided s.outcome) }
    // Promise: If a series is known before it, its outcome is a series of at least that value
    ensures keeps { IfOk result (λ s. IsNoWorse (problem_of setting.now) (value_known known)
        s.outcome) }
{
    let mut state = SearchState {
        best: known,
        branches: (budget - 1) / 2,
        nodes: Vec::new(alloc),
    };
    search(setting, &root_cut(), &mut state)?;
    let SearchState { best, nodes, .. } = state;
    let outcome = outcome_of(alloc, setting, best, nodes.as_slice())?;
    let tree = SeriesTree::new(List::of(Vec::new(alloc)), List::of(nodes));
    Ok(Series { outcome, tree })
}
