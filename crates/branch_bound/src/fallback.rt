//! The fallback search: depth first, with counting, the plain bound and nothing else. It answers
//! where what the search gave fails a test.

ghost use Rattle.std.specs.Prelude.{◌≡◌, ℕ, ◌+◌, ◌*◌, ◌<◌, IsTrue, IsFalse, OnOk, IfOk, [], None, pos, false};
ghost use Rattle.std.specs.Option.{option_map};
ghost use Rattle.bank_tables.specs.Items.{has};
ghost use Rattle.bank_tables.specs.Validity.{HoldsItems};
ghost use Rattle.certificate_model.specs.Counting.{length_impossible};
ghost use Rattle.form_model.specs.Forms.{objective};
ghost use Rattle.certificate_model.specs.Paths.{Path};
ghost use Rattle.certificate_model.specs.ProofTrees.{ProofTree};
ghost use Rattle.certificate_model.specs.Relaxed.{IsRelaxedMaximum};
ghost use Rattle.certificate_model.specs.Spending.{open_leaves, IsSpent};
ghost use Rattle.form_model.specs.Validity.{IsBudget, IsWellMade};
ghost use Rattle.certificate_model.specs.Verdicts.{only_candidate, verdict_of, IsFormOrNone, IsVerdict, ClosesByBound};
ghost use Rattle.constraint_model.specs.Views.{problem_of};
ghost use Rattle.lagrange_bound.specs.Cuts.{IsCut, IsCutOf};
ghost use Rattle.branch_bound.specs.Assemblies.{IsAssembly};
ghost use Rattle.branch_bound.specs.Comparing.{IsAsGood};
ghost use Rattle.branch_bound.specs.Searches.{Adds, ExceedsForm, IsLeafOrNone};
ghost use Rattle.branch_bound.specs.Showing.{Shows};

use crate::branching::{branching, side};
use crate::comparison::{better, better_form};
use crate::exchanges::firm;
use crate::outcome::Outcome;
use bank_tables::{ItemSet, List};
use certificate_model::Node;
use constraint_model::{Problem, objective};
use lagrange_bound::{Cut, bound, impossible};
use proof_tree::{Memory, Tree, Vector, has_open_leaf};
use std::alloc::Global;

/// What the search keeps: the best form known, the branches that the node budget leaves, and the
/// nodes so far.
#[derive(Drop)]
struct SearchState {
    best: Option<ItemSet>,
    branches: u16,
    nodes: Vec<Node>,
}

/// The only set that may be a form on the path; None where more than one may.
fn only_candidate(problem: &Problem, cut: &Cut) -> Option<ItemSet>
    requires well_made { IsWellMade (problem_of problem.now) }
    requires taken { HoldsItems (problem_of problem.now).bank (has cut.now.taken) }
    ensures { (p : Path) → IsCutOf (problem_of problem.now) p cut.now →
        option_map has result ≡ only_candidate (problem_of problem.now) p }
{
    let Some(_lowest) = cut.free.first() else {
        return Some(cut.taken);
    };
    let length = problem.spec.length();
    if cut.taken.count() == length {
        return Some(cut.taken);
    }
    let may_hold = cut.taken.union(cut.free);
    if may_hold.count() == length {
        return Some(may_hold);
    }
    None
}

/// The greatest plain bound that leaves no room for a better form.
fn closing_value(problem: &Problem, form: &ItemSet) -> i64
    requires { IsWellMade (problem_of problem.now) }
    ensures { result ≡ pos (256 * objective (problem_of problem.now) (has form.now) + 255) }
{
    let worth = objective(problem, form);
    worth as i64 * 256 + 255
}

/// The relaxed maximum with no multipliers.
fn plain_bound(problem: &Problem, plain: &Vector, cut: &Cut) -> i64
    requires well_made { IsWellMade (problem_of problem.now) }
    requires cut { IsCut (problem_of problem.now) cut.now }
    requires possible { (p : Path) → IsCutOf (problem_of problem.now) p cut.now →
        IsFalse (length_impossible (problem_of problem.now) p) }
    requires plain { plain.now ≡ [] }
    ensures { (p : Path) → IsCutOf (problem_of problem.now) p cut.now →
        IsRelaxedMaximum (problem_of problem.now) p [] false result }
{
    bound(problem, cut, plain, false).unwrap()
}

/// Whether the plain bound leaves no room for a form better than the one known.
fn closes(problem: &Problem, plain: &Vector, cut: &Cut, best: &Option<ItemSet>) -> bool
    requires well_made { IsWellMade (problem_of problem.now) }
    requires cut { IsCut (problem_of problem.now) cut.now }
    requires possible { (p : Path) → IsCutOf (problem_of problem.now) p cut.now →
        IsFalse (length_impossible (problem_of problem.now) p) }
    requires plain { plain.now ≡ [] }
    ensures closed { (p : Path) → IsCutOf (problem_of problem.now) p cut.now → IsTrue result →
        ClosesByBound (problem_of problem.now) (option_map has best.now) p [] }
    ensures not_closed { (p : Path) → IsCutOf (problem_of problem.now) p cut.now →
        IsFalse result → ExceedsForm (problem_of problem.now) p (option_map has best.now) }
{
    match best {
        Some(form) => plain_bound(problem, plain, cut) <= closing_value(problem, form),
        None => false,
    }
}

/// The leaf that ends the path, if one does; a better form that is met is kept.
fn leaf(problem: &Problem, plain: &Vector, cut: &Cut, best: &mut Option<ItemSet>) -> Option<Node>
    requires well_made { IsWellMade (problem_of problem.now) }
    requires cut { IsCut (problem_of problem.now) cut.now }
    requires taken { HoldsItems (problem_of problem.now).bank (has cut.now.taken) }
    requires plain { plain.now ≡ [] }
    requires form { IsFormOrNone (problem_of problem.now) (option_map has best.old) }
    requires start { IsAsGood (problem_of problem.now) (problem_of problem.now).start
        (option_map has best.old) }
    ensures { (p : Path) → IsCutOf (problem_of problem.now) p cut.now →
        IsLeafOrNone (problem_of problem.now) p (option_map has best.old)
        (option_map has best.new) result }
{
    if let Some(row) = impossible(problem, cut) {
        return Some(Node::Count(row));
    }
    if let Some(items) = only_candidate(problem, cut) {
        *best = better(problem, *best, items);
        return Some(Node::Whole);
    }
    if closes(problem, plain, cut, best) {
        return Some(Node::Bound(0));
    }
    None
}

/// Searches the subtree of a path. A branch is used up by each branch made; once none is left, what
/// isn't settled is left Open.
fn search(
    problem: &Problem,
    plain: &Vector,
    cut: &Cut,
    state: &mut SearchState,
) -> Result<(), Memory>
    requires well_made { IsWellMade (problem_of problem.now) }
    requires cut { IsCut (problem_of problem.now) cut.now }
    requires taken { HoldsItems (problem_of problem.now).bank (has cut.now.taken) }
    requires plain { plain.now ≡ [] }
    requires form { IsFormOrNone (problem_of problem.now) (option_map has state.old.best) }
    requires start { IsAsGood (problem_of problem.now) (problem_of problem.now).start
        (option_map has state.old.best) }
    ensures { OnOk result ((p : Path) → IsCutOf (problem_of problem.now) p cut.now →
        Adds (problem_of problem.now) p
        (option_map has state.old.best) state.old.branches state.old.nodes.items
        (option_map has state.new.best) state.new.branches state.new.nodes.items) }
{
    if let Some(end) = leaf(problem, plain, cut, &mut state.best) {
        state.nodes.push(end)?;
        return Ok(());
    }
    if state.branches == 0 {
        state.nodes.push(Node::Open)?;
        return Ok(());
    }
    state.branches -= 1;
    let branch = branching(problem, cut);
    state.nodes.push(branch)?;
    let left = side(problem, cut, &branch, true);
    search(problem, plain, &left, state)?;
    let right = side(problem, cut, &branch, false);
    search(problem, plain, &right, state)?;
    Ok(())
}

/// The outcome that the nodes show with a form or none.
fn outcome_of(problem: &Problem, form: Option<ItemSet>, nodes: &[Node]) -> Outcome
    requires well_made { IsWellMade (problem_of problem.now) }
    requires form { IsFormOrNone (problem_of problem.now) (option_map has form) }
    ensures { (T : ProofTree) (budget : ℕ) →
        IsVerdict (problem_of problem.now) (option_map has form) T (verdict_of
        (option_map has form) (open_leaves nodes.now)) →
        (0 < open_leaves nodes.now → IsSpent (problem_of problem.now) T budget) →
        Shows (problem_of problem.now) (option_map has form) T budget result }
{
    if has_open_leaf(nodes) {
        match form {
            Some(items) => Outcome::Found {
                form: firm(problem, items),
                proved: false,
            },
            None => Outcome::NoneFound,
        }
    } else {
        match form {
            Some(items) => Outcome::Found {
                form: items,
                proved: true,
            },
            None => Outcome::NoForm,
        }
    }
}

/// A tree and the outcome that it shows.
#[derive(Drop)]
pub struct Fallback {
    pub tree: Tree,
    pub outcome: Outcome,
}

/// Searches depth first within a budget of nodes: at each node the Count leaf of the lowest
/// impossible row, else a Whole leaf where one set is left, else a Bound leaf where the plain bound
/// is too low, else a branch, or an Open leaf once the budget leaves no branch.
pub fn search_fallback(
    alloc: Global,
    problem: &Problem,
    hint: &Option<ItemSet>,
    budget: u16,
) -> Result<Fallback, Memory>
    requires well_made { IsWellMade (problem_of problem.now) }
    requires budget { IsBudget budget }
    ensures { IfOk result (λ s.
        IsAssembly (problem_of problem.now) (option_map has hint.now) budget s.tree s.outcome) }
{
    let plain = Vector::new(List::of(Vec::new(alloc)));
    let mut state = SearchState {
        best: better_form(problem, problem.start, *hint),
        branches: (budget - 1) / 2,
        nodes: Vec::new(alloc),
    };
    search(problem, &plain, &Cut::root(problem), &mut state)?;
    let SearchState { best, nodes, .. } = state;
    let outcome = outcome_of(problem, best, nodes.as_slice());
    let mut vectors = Vec::new(alloc);
    vectors.push(plain)?;
    let tree = Tree::new(List::of(vectors), List::of(nodes));
    Ok(Fallback { tree, outcome })
}
