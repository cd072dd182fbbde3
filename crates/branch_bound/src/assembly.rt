//! The assembly of a form.

ghost use Rattle.std.specs.Prelude.{◌≡◌, ◌+◌, ◌^◌, ◌≤◌, IfOk, IfSome};
ghost use Rattle.std.specs.Option.{option_map, option_copied};
ghost use Rattle.bank_tables.specs.Items.{has};
ghost use Rattle.certificate_model.specs.Paths.{root, undecided};
ghost use Rattle.form_model.specs.Validity.{IsBudget, IsWellMade};
ghost use Rattle.certificate_model.specs.Verdicts.{NamesOnlySides};
ghost use Rattle.constraint_model.specs.Views.{problem_of};
ghost use Rattle.branch_bound.specs.Assembled.{KeepsPromise};
ghost use Rattle.branch_bound.specs.Assemblies.{IsAssembly, IsTrueOutcome, IsDecided};

use crate::acceptance::outcome_shown;
use crate::fallback::search_fallback;
use crate::outcome::Outcome;
use bank_tables::ItemSet;
use constraint_model::Problem;
use form_search::{Searched, search};
use proof_tree::{Memory, Tree, Vector};
use std::alloc::Global;
use std::marker::Model;

/// An outcome, with the problem, the hint, the node budget and the tree that shows it. By its type,
/// and so of every value: the tree shows the outcome by the rules that the separate checker tests;
/// a form is firm, and no worse than the start and the hint where these are forms, and without a
/// form neither is one; and no path of the tree goes on past a row that is impossible by counting.
#[derive(Debug, Drop)]
pub struct Assembled<'a> {
    problem: Problem<'a>,
    hint: Option<ItemSet>,
    tree: Tree,
    budget: u16,
    outcome: Outcome,
    used_fallback: bool,
}

impl<'a> Model for Assembled<'a> {
    ghost use Rattle.branch_bound.specs.Assembled.{Assembly, KeepsPromise};

    ghost Value = { Assembly };

    ghost view = { λ a. record {
      problem = a.problem;
      hint = a.hint;
      tree = a.tree;
      budget = a.budget;
      outcome = a.outcome;
      used_fallback = a.used_fallback;
    } };

    ghost invariant = { λ a. KeepsPromise (record {
      problem = a.problem;
      hint = a.hint;
      tree = a.tree;
      budget = a.budget;
      outcome = a.outcome;
      used_fallback = a.used_fallback;
    }) };
}

impl<'a> Assembled<'a> {
    /// The problem.
    pub fn problem(&self) -> &Problem<'a>
        ensures { result.now ≡ self.now.problem }
    {
        &self.problem
    }

    /// The tree.
    pub fn tree(&self) -> &Tree
        ensures { result.now ≡ self.now.tree }
    {
        &self.tree
    }

    /// Hands over the tree, without a copy.
    pub fn into_tree(self) -> Tree
        // Promise: An assembly hands over the tree that it lends
        ensures { result ≡ self.entry.tree }
    {
        self.tree
    }

    /// The outcome.
    pub fn outcome(&self) -> Outcome
        // Promise: An assembly keeps the promise of its outcome and its tree by its type
        // - of `Assembled::outcome`, `Assembled::tree`
        // - by `outcome`, `promise`, `is_true`
        ensures outcome { result ≡ self.now.outcome }
        ensures promise { KeepsPromise self.now }
        ensures is_true { IsTrueOutcome (problem_of self.now.problem) result }
    {
        self.outcome
    }

    /// Whether the fallback search made the tree, since what the search gave failed a test. The
    /// search is written so that this never happens, and a benchmark counts how often it did.
    // Promise: Whether the fallback search made the tree, by the assembler's own account
    // - by none: no clause covers it
    pub fn used_fallback(&self) -> bool
        ensures { result ≡ self.now.used_fallback }
    {
        self.used_fallback
    }
}

/// A tree, the outcome that it shows, and whether the fallback search made it.
#[derive(Drop)]
struct Made {
    tree: Tree,
    outcome: Outcome,
    used_fallback: bool,
}

/// Searches by the fallback search.
fn made_by_fallback(
    alloc: Global,
    problem: &Problem,
    hint: &Option<ItemSet>,
    budget: u16,
) -> Result<Made, Memory>
    requires well_made { IsWellMade (problem_of problem.now) }
    requires budget { IsBudget budget }
    ensures { IfOk result (λ made.
        IsAssembly (problem_of problem.now) (option_map has hint.now) budget made.tree
        made.outcome) }
{
    let fallback = search_fallback(alloc, problem, hint, budget)?;
    Ok(Made {
        tree: fallback.tree,
        outcome: fallback.outcome,
        used_fallback: true,
    })
}

/// Searches, and where what the search gave fails a test falls back. The search may begin with the
/// warm vector.
fn make(
    alloc: Global,
    problem: &Problem,
    hint: &Option<ItemSet>,
    budget: u16,
    warm: Option<&Vector>,
) -> Result<Made, Memory>
    requires well_made { IsWellMade (problem_of problem.now) }
    requires budget { IsBudget budget }
    ensures { IfOk result (λ made.
        IsAssembly (problem_of problem.now) (option_map has hint.now) budget made.tree
        made.outcome) }
{
    let Searched { form, tree } = search(alloc, problem, hint.as_ref(), budget, warm)?;
    if let Some(tree) = tree {
        if let Some(outcome) = outcome_shown(problem, hint, budget, form, &tree) {
            return Ok(Made {
                tree,
                outcome,
                used_fallback: false,
            });
        }
    }
    made_by_fallback(alloc, problem, hint, budget)
}

/// Assembles a form of the problem within a budget of nodes, which is odd and at most 4,095; the
/// hint may be a form.
pub fn assemble<'a>(
    alloc: Global,
    problem: Problem<'a>,
    hint: Option<&ItemSet>,
    budget: u16,
) -> Result<Assembled<'a>, Memory>
    requires well_made { IsWellMade (problem_of problem) }
    requires budget { IsBudget budget }
    // Promise: The problem and the budget are those it was called with
    // - of `assemble`, `Assembled::problem`
    // - by `problem`, `budget`
    ensures problem { IfOk result (λ a. a.problem ≡ problem.entry) }
    ensures budget { IfOk result (λ a. a.budget ≡ budget) }
    ensures hint { IfOk result (λ a. a.hint ≡ option_copied hint.entry) }
    // Promise: The outcome is shown by its tree: a proved form by Optimal; an unproved one by
    // Partial, and the tree spends the budget; no form by NoForm; none found by Partial without a
    // form, and the tree spends the budget
    // - by `assembly` (`IsAssembly`)
    // Promise: A found form is one that no exchange of one item improves. It is no worse than the
    // start and the hint, where these are forms; if one of them is a form, a form is found
    // - of `assemble`, `Assembled::outcome`
    // - by `assembly` (`firm`, `start`, `hint`), `promise`
    // Promise: Where a row is impossible by counting on a path of the tree, the path ends in the
    // Count leaf of the lowest such row
    // - by `assembly` (`pruned`)
    ensures assembly { IfOk result (λ a.
        IsAssembly (problem_of problem.entry) (option_map has
        (option_copied hint.entry)) budget a.tree a.outcome) }
    // Promise: Proved means best over all sets of items; no form means that no set is one
    ensures is_true { IfOk result (λ a. IsTrueOutcome (problem_of problem.entry) a.outcome) }
    // Promise: With 2^(u+1) - 1 nodes, u being the free items and open stimuli at the root, it
    // decides
    ensures decided { IfOk result (λ a.
        2 ^ (undecided (problem_of problem.entry) (root
        (problem_of problem.entry)) + 1) ≤ budget + 1 → IsDecided a.outcome) }
{
    let asked = Problem { ..problem };
    assemble_from(alloc, asked, hint, budget, None)
}

/// The same, with a vector of multipliers that the search may begin with, as the first one of the
/// tree of a like problem. Its sides are those of the plan's rows and the bank's stimuli, or the
/// two of the cap. The vector changes nothing in what is promised.
// Promise: Whether a search begins with the vector
// - by none: no clause covers it
pub fn assemble_from<'a>(
    alloc: Global,
    problem: Problem<'a>,
    hint: Option<&ItemSet>,
    budget: u16,
    warm: Option<&Vector>,
) -> Result<Assembled<'a>, Memory>
    requires well_made { IsWellMade (problem_of problem) }
    requires budget { IsBudget budget }
    // Promise: A vector of multipliers that the search may begin with changes nothing in this. Each
    // side that it names has to be one of the plan's, or of the cap
    // - by `sides`; the others are those of the function without a vector
    requires sides { IfSome (option_copied warm) (NamesOnlySides (problem_of problem)) }
    ensures problem { IfOk result (λ a. a.problem ≡ problem.entry) }
    ensures budget { IfOk result (λ a. a.budget ≡ budget) }
    ensures hint { IfOk result (λ a. a.hint ≡ option_copied hint.entry) }
    ensures assembly { IfOk result (λ a.
        IsAssembly (problem_of problem.entry) (option_map has
        (option_copied hint.entry)) budget a.tree a.outcome) }
    ensures is_true { IfOk result (λ a. IsTrueOutcome (problem_of problem.entry) a.outcome) }
    ensures decided { IfOk result (λ a.
        2 ^ (undecided (problem_of problem.entry) (root
        (problem_of problem.entry)) + 1) ≤ budget + 1 → IsDecided a.outcome) }
{
    // The parts are moved one by one: no proof is generated where a parameter that holds references
    // is moved as a whole.
    let asked = Problem { ..problem };
    let known = hint.copied();
    let made = make(alloc, &asked, &known, budget, warm)?;
    Ok(Assembled {
        problem: asked,
        hint: known,
        tree: made.tree,
        budget,
        outcome: made.outcome,
        used_fallback: made.used_fallback,
    })
}

/// Assembles a form by the fallback search alone, with all that `assemble` promises: for tests, and
/// for a caller who distrusts the search.
pub fn assemble_by_fallback<'a>(
    alloc: Global,
    problem: Problem<'a>,
    hint: Option<&ItemSet>,
    budget: u16,
) -> Result<Assembled<'a>, Memory>
    requires well_made { IsWellMade (problem_of problem) }
    requires budget { IsBudget budget }
    // Promise: The fallback search alone keeps each promise of `assemble`
    // - by `problem`, `budget`, `hint`, `assembly`, `is_true`, `decided`
    ensures problem { IfOk result (λ a. a.problem ≡ problem.entry) }
    ensures budget { IfOk result (λ a. a.budget ≡ budget) }
    ensures hint { IfOk result (λ a. a.hint ≡ option_copied hint.entry) }
    ensures assembly { IfOk result (λ a.
        IsAssembly (problem_of problem.entry) (option_map has
        (option_copied hint.entry)) budget a.tree a.outcome) }
    ensures is_true { IfOk result (λ a. IsTrueOutcome (problem_of problem.entry) a.outcome) }
    ensures decided { IfOk result (λ a.
        2 ^ (undecided (problem_of problem.entry) (root
        (problem_of problem.entry)) + 1) ≤ budget + 1 → IsDecided a.outcome) }
{
    let asked = Problem { ..problem };
    let known = hint.copied();
    let made = made_by_fallback(alloc, &asked, &known, budget)?;
    Ok(Assembled {
        problem: asked,
        hint: known,
        tree: made.tree,
        budget,
        outcome: made.outcome,
        used_fallback: made.used_fallback,
    })
}
