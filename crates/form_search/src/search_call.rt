//! The search.

ghost use Rattle.std.specs.Prelude.{IfOk, IfSome};
ghost use Rattle.bank_tables.specs.Items.{has};
ghost use Rattle.form_model.specs.Forms.{Form};
ghost use Rattle.form_model.specs.Validity.{IsBudget, IsWellMade};
ghost use Rattle.constraint_model.specs.Views.{problem_of};
ghost use Rattle.lagrange_bound.specs.Cuts.{IsCut};

use crate::incumbent::Incumbent;
use crate::pool::{Pool, empty_vector};
use crate::repair::nearby_form;
use crate::root::steps_at_root;
use crate::steps::Stepped;
use crate::sweep::{Limits, Sweep};
use crate::table::Table;
use crate::vertex_sweep::sweeps_by_exchanges;
use bank_tables::{ItemSet, List};
use certificate_model::Node;
use constraint_model::Problem;
use lagrange_bound::Cut;
use proof_tree::{Memory, Tree, Vector};
use search_paths::tested_form;
use std::alloc::Global;

/// The part of the root's gap that the steps of the last sweep aim below what closes.
const MARGIN: i64 = 16;

/// Branches that are tried at a path, in the first sweeps.
const FIRST_PROBES: usize = 2;

/// The same in the last sweep.
const LAST_PROBES: usize = 4;

/// The most sweeps that may begin anew.
const MOST_SWEEPS: u32 = 8;

/// The result of a search: a form, if it met one, and a tree, if what it built is one.
#[derive(Drop)]
pub struct Searched {
    pub form: Option<ItemSet>,
    pub tree: Option<Tree>,
}

/// The better of the start and the hint, where they are forms; else a form near to the hint, if one
/// is found. No item is exchanged yet, since the start is often the best form still.
fn known(
    alloc: Global,
    problem: &Problem,
    table: &Table,
    hint: Option<&ItemSet>,
) -> Result<Incumbent, Memory>
    requires { IsWellMade (problem_of problem.now) }
{
    let mut incumbent = Incumbent::none();
    if let Some(items) = &problem.start {
        let _ = incumbent.take(problem, items);
    }
    if let Some(items) = hint {
        let _ = incumbent.take(problem, items);
        if incumbent.form.is_none() {
            let begun = items.minus(problem.barred).union(problem.given);
            let near = nearby_form(alloc, table, &empty_vector(alloc), &begun)?;
            incumbent.offer(problem, table, &near);
        }
    }
    Ok(incumbent)
}

/// Whether a leaf names a vector.
fn names_vector(nodes: &[Node]) -> bool {
    for node in nodes {
        if matches!(node, Node::Bound(_) | Node::Ray(_)) {
            return true;
        }
    }
    false
}

/// The tree of some nodes, without vectors where no leaf names one.
fn tree_with(alloc: Global, nodes: Vec<Node>, pool: &Pool) -> Result<Option<Tree>, Memory> {
    let vectors = if names_vector(&nodes) {
        pool.copied_vectors(alloc)?
    } else {
        Vec::new(alloc)
    };
    Ok(Tree::of(List::of(vectors), List::of(nodes)))
}

/// The tree of a sweep.
fn tree_of(alloc: Global, sweep: Sweep) -> Result<Option<Tree>, Memory> {
    if !sweep.is_whole {
        return Ok(None);
    }
    tree_with(alloc, sweep.nodes, &sweep.pool)
}

/// The tree of sweeps by exchanges, if one is whole within the budget.
fn tree_by_exchanges(
    alloc: Global,
    problem: &Problem,
    table: &Table,
    incumbent: &mut Incumbent,
    root: &Cut,
    budget: u16,
) -> Result<Option<Tree>, Memory>
    requires well_made { IsWellMade (problem_of problem.now) }
    requires root { IsCut (problem_of problem.now) root.now }
{
    let branches = (budget as u32).saturating_sub(1) / 2;
    match sweeps_by_exchanges(alloc, problem, table, incumbent, root, branches)? {
        Some(sweep) => tree_with(alloc, sweep.nodes, &sweep.pool),
        None => Ok(None),
    }
}

/// Sweeps until one is whole, and no better form was met while it grew large. None where a whole
/// one has spent the budget, or no sweep is so.
fn first_sweeps(
    alloc: Global,
    problem: &Problem,
    table: &Table,
    incumbent: &mut Incumbent,
    at_root: &Stepped,
    limits: Limits,
) -> Result<Option<Sweep>, Memory>
    requires { IsWellMade (problem_of problem.now) }
{
    for _ in 0..MOST_SWEEPS {
        let sweep = Sweep::over(alloc, problem, table, incumbent, at_root, limits)?;
        if sweep.is_whole && sweep.is_spent {
            return Ok(None);
        }
        if sweep.is_whole && !sweep.is_late(incumbent) {
            return Ok(Some(sweep));
        }
    }
    Ok(None)
}

/// The tree of the first sweeps, if the budget is not spent. Else one more sweep tries more
/// branches at each path.
fn sweeps(
    alloc: Global,
    problem: &Problem,
    table: &Table,
    incumbent: &mut Incumbent,
    at_root: &Stepped,
    budget: u16,
) -> Result<Option<Tree>, Memory>
    requires { IsWellMade (problem_of problem.now) }
{
    let branches = (budget as u32).saturating_sub(1) / 2;
    let mut limits = Limits {
        branches,
        restarts: true,
        margin: 0,
        probes: FIRST_PROBES,
    };
    if let Some(sweep) = first_sweeps(alloc, problem, table, incumbent, at_root, limits)? {
        return tree_of(alloc, sweep);
    }
    limits.restarts = false;
    limits.probes = LAST_PROBES;
    limits.margin = at_root.bound.saturating_sub(incumbent.top()).max(0) / MARGIN;
    let sweep = Sweep::over(alloc, problem, table, incumbent, at_root, limits)?;
    tree_of(alloc, sweep)
}

/// The tree of the warm vector alone, where that closes the root.
fn tree_of_warm(
    alloc: Global,
    table: &Table,
    incumbent: &Incumbent,
    root: &Cut,
    warm: Option<&Vector>,
) -> Result<Option<Tree>, Memory> {
    let Some(known) = warm else {
        return Ok(None);
    };
    let mut pool = Pool::new(alloc);
    let vector = known.again(alloc)?;
    match pool.closed_by(alloc, table, incumbent, root, vector, false)? {
        Some(leaf) => tree_with(alloc, vec![in alloc; leaf]?, &pool),
        None => Ok(None),
    }
}

/// The tree where steps at the root begin the search: one node if they close it; else that of
/// exchanges, where these may be made, or of sweeps by steps.
fn tree_by_steps(
    alloc: Global,
    problem: &Problem,
    table: &Table,
    incumbent: &mut Incumbent,
    root: &Cut,
    budget: u16,
    warm: Option<&Vector>,
    may_exchange: bool,
) -> Result<Option<Tree>, Memory>
    requires well_made { IsWellMade (problem_of problem.now) }
    requires root { IsCut (problem_of problem.now) root.now }
{
    incumbent.exchange(problem, table);
    let stepped = steps_at_root(alloc, problem, table, incumbent, root, warm)?;
    if stepped.bound > incumbent.top() && may_exchange {
        let tree = tree_by_exchanges(alloc, problem, table, incumbent, root, budget)?;
        if tree.is_some() {
            return Ok(tree);
        }
    }
    sweeps(alloc, problem, table, incumbent, &stepped, budget)
}

/// The tree of the warm vector alone, else that of exchanges.
fn exact_tree(
    alloc: Global,
    problem: &Problem,
    table: &Table,
    incumbent: &mut Incumbent,
    root: &Cut,
    budget: u16,
    warm: Option<&Vector>,
) -> Result<Option<Tree>, Memory>
    requires well_made { IsWellMade (problem_of problem.now) }
    requires root { IsCut (problem_of problem.now) root.now }
{
    let tree = tree_of_warm(alloc, table, incumbent, root, warm)?;
    if tree.is_some() {
        return Ok(tree);
    }
    tree_by_exchanges(alloc, problem, table, incumbent, root, budget)
}

/// The tree of a search: it begins without steps where items are linked and a form is known.
fn tree_of_search(
    alloc: Global,
    problem: &Problem,
    table: &Table,
    incumbent: &mut Incumbent,
    budget: u16,
    warm: Option<&Vector>,
) -> Result<Option<Tree>, Memory>
    requires { IsWellMade (problem_of problem.now) }
{
    let root = Cut::root(problem);
    let begins_exact = table.has_links() && incumbent.form.is_some();
    if begins_exact {
        let tree = exact_tree(alloc, problem, table, incumbent, &root, budget, warm)?;
        if tree.is_some() {
            return Ok(tree);
        }
    }
    let may_exchange = !begins_exact && !table.is_of_passages();
    tree_by_steps(
        alloc,
        problem,
        table,
        incumbent,
        &root,
        budget,
        warm,
        may_exchange,
    )
}

/// Looks for a form of the problem, and for a tree within a budget of nodes, which is odd and at
/// most 4,095, that shows it best, or that no set is a form, or that spends the budget; the hint
/// may be a form. The tree is to be tested. Where the warm vector, if there is one, closes the
/// root, the tree is one node.
pub fn search(
    alloc: Global,
    problem: &Problem,
    hint: Option<&ItemSet>,
    budget: u16,
    warm: Option<&Vector>,
) -> Result<Searched, Memory>
    requires well_made { IsWellMade (problem_of problem.now) }
    requires budget { IsBudget budget }
    // Promise: A form that the search returns is a form. Nothing is promised of its tree, since it
    // is tested
    ensures form { IfOk result (λ s. IfSome s.form (λ x. Form (problem_of problem.now) (has x))) }
{
    let table = Table::of(alloc, problem)?;
    let mut incumbent = known(alloc, problem, &table, hint)?;
    let tree = tree_of_search(alloc, problem, &table, &mut incumbent, budget, warm)?;
    Ok(Searched {
        form: tested_form(problem, &incumbent.form),
        tree,
    })
}
