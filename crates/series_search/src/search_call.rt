//! The search.

use crate::anneal::anneal;
use crate::draws::Draws;
use crate::forms::Best;
use crate::kinds::Kinds;
use crate::model::Model;
use crate::multipliers::Multipliers;
use crate::path::{Path, all_items};
use crate::priced::Priced;
use crate::rule::Room;
use crate::sweep::{Models, Sweep};
use crate::table::Table;
use bank_tables::{Bank, ItemSet, List};
use constraint_model::Spec;
use series_tree::{Memory, SeriesNode, SeriesTree, SeriesVector};
use std::alloc::Global;

/// Up to so many items of all forms the forms are branched on first.
const FEW_ITEMS: i64 = 40;

/// Nodes of a sweep after which a better series lets another sweep begin.
const MANY_NODES: usize = 50;

/// Sweeps of one kind, at most.
const SWEEPS: u32 = 4;

/// Branches of a sweep that only looks for better series, at most; of one with links.
const SCOUTED: u32 = 2_047;

const LINKED: u32 = 400;

/// The seed of all draws.
const SEED: u64 = 20_260_101;

/// Exchanges at the root, at most.
const ROOT_EXCHANGES: u32 = 10_000;

/// A number that no series exceeds, and the tree that is to show it.
#[derive(Drop)]
pub struct Bounded {
    pub value: u64,
    pub tree: SeriesTree,
}

/// The result of a search, of which nothing is believed: forms, that with the lowest item first, if
/// a series was met; a tree, if what was built is one; and a bound.
#[derive(Drop)]
pub struct Searched {
    pub forms: Option<List<ItemSet>>,
    pub tree: Option<SeriesTree>,
    pub bound: Option<Bounded>,
}

/// A bound of all series, and the vector that shows it.
#[derive(Drop)]
struct Root {
    value: i64,
    pairs: Vec<(u16, u32)>,
}

/// The bound of some multipliers at the root.
fn bound_of(
    alloc: Global,
    table: &Table,
    multipliers: &Multipliers,
    top: i64,
) -> Result<Root, Memory> {
    let mut room = Room::new(alloc);
    let path = Path::root(table);
    let mut priced = Priced::of(alloc, table, multipliers)?;
    if table.has_thresholds() {
        priced.set_threshold(table, &path, &mut room)?;
    }
    let value = match priced.maximum(table, &path, &mut room)? {
        Some(maximum) if !priced.is_ray => priced.least_value(table, maximum, top),
        _ => top,
    };
    Ok(Root {
        value,
        pairs: multipliers.pairs(alloc, table, priced.threshold)?,
    })
}

/// The lesser of two bounds.
fn lesser(first: Root, second: Root) -> Root {
    if second.value < first.value {
        second
    } else {
        first
    }
}

/// The bound of the relaxation of the pool at the root, for values from a goal on.
fn root_bound(alloc: Global, table: &Table, goal: i64, top: i64) -> Result<Root, Memory> {
    let mut model = Model::of(alloc, table, true, table.has_thresholds(), goal, top)?;
    let mut vertex = model.first(alloc, table, &Path::root(table))?;
    let none = Best::none();
    let _ = model.run(table, &none, &mut vertex, ROOT_EXCHANGES)?;
    let multipliers = model.multipliers_of(alloc, table, &vertex)?;
    bound_of(alloc, table, &multipliers, top)
}

/// The tree of some vectors and nodes, if they are one.
fn tree_of(
    alloc: Global,
    vectors: Vec<Vec<(u16, u32)>>,
    nodes: Vec<SeriesNode>,
) -> Result<Option<SeriesTree>, Memory> {
    let mut made = Vec::new(alloc);
    for pairs in vectors.as_slice() {
        let pairs = Vec::from_slice(alloc, pairs.as_slice())?;
        let Some(vector) = SeriesVector::of(List::of(pairs)) else {
            return Ok(None);
        };
        made.push(vector)?;
    }
    Ok(SeriesTree::of(List::of(made), List::of(nodes)))
}

/// The tree of a sweep, if no path of it waits.
fn tree_of_sweep(alloc: Global, sweep: &Sweep) -> Result<Option<SeriesTree>, Memory> {
    if !sweep.is_whole() {
        return Ok(None);
    }
    let mut vectors = Vec::new(alloc);
    for priced in sweep.kept.vectors.as_slice() {
        vectors.push(Vec::from_slice(alloc, priced.pairs.as_slice())?)?;
    }
    let nodes = Vec::from_slice(alloc, sweep.nodes.as_slice())?;
    tree_of(alloc, vectors, nodes)
}

/// Sweeps of one kind, until one doesn't grow large and meet a better series.
fn sweeps(
    alloc: Global,
    table: &Table,
    best: &mut Best,
    draws: &mut Draws,
    is_pool: bool,
    top: i64,
    branches: u32,
) -> Result<Option<Sweep>, Memory> {
    let mut last = None;
    for _ in 0..SWEEPS {
        let known = best.value;
        let goal = known.saturating_add(1);
        let models = Models::of(alloc, table, table.has_thresholds(), goal, top)?;
        let mut sweep = Sweep::new(alloc, table, models, is_pool, branches)?;
        sweep.grow(alloc, table, best, draws)?;
        let is_large = sweep.nodes.len() > MANY_NODES;
        last = Some(sweep);
        if best.value == known || !is_large {
            break;
        }
    }
    Ok(last)
}

/// Looks for a better series of one form with items linked to their stimuli. What such a relaxation
/// shows no vector without a threshold can, so its tree is left.
fn scout_links(
    alloc: Global,
    table: &Table,
    best: &mut Best,
    draws: &mut Draws,
    top: i64,
) -> Result<(), Memory> {
    if table.forms > 1 || table.bounds.is_empty() || table.has_thresholds() {
        return Ok(());
    }
    let goal = best.value.saturating_add(1);
    let models = Models::of(alloc, table, true, goal, top)?;
    let mut sweep = Sweep::scout(alloc, table, models, true, LINKED)?;
    sweep.grow(alloc, table, best, draws)
}

/// Looks for a better series with the relaxation of the forms. No vectors are kept, so it may close
/// more paths than a tree has vectors for.
fn scout_forms(
    alloc: Global,
    table: &Table,
    best: &mut Best,
    draws: &mut Draws,
    top: i64,
) -> Result<(), Memory> {
    let goal = best.value.saturating_add(1);
    let models = Models::of(alloc, table, table.has_thresholds(), goal, top)?;
    let mut sweep = Sweep::scout(alloc, table, models, false, SCOUTED)?;
    sweep.grow(alloc, table, best, draws)
}

/// Whether a sweep shows what it is to show.
fn is_done(sweep: &Option<Sweep>) -> bool {
    match sweep {
        Some(sweep) => sweep.is_whole() && !sweep.is_spent,
        None => false,
    }
}

/// The sweep of the kind that suits the bank; if it spends the budget, that of the other kind, if
/// there is one, after a better series was looked for.
fn best_sweep(
    alloc: Global,
    table: &Table,
    best: &mut Best,
    draws: &mut Draws,
    top: i64,
    branches: u32,
) -> Result<Option<Sweep>, Memory> {
    let has_forms = Model::has_forms(table);
    let forms_first = has_forms && table.pool_length() <= FEW_ITEMS;
    let sweep = sweeps(alloc, table, best, draws, !forms_first, top, branches)?;
    if is_done(&sweep) || !has_forms {
        return Ok(sweep);
    }
    scout_forms(alloc, table, best, draws, top)?;
    let other = sweeps(alloc, table, best, draws, forms_first, top, branches)?;
    Ok(if is_done(&other) || forms_first {
        other
    } else {
        sweep
    })
}

/// The bound of a root, if that is one.
fn shown_bound(alloc: Global, root: Root) -> Result<Option<Bounded>, Memory> {
    let Ok(value) = u64::try_from(root.value) else {
        return Ok(None);
    };
    let mut vectors = Vec::new(alloc);
    vectors.push(root.pairs)?;
    let nodes = vec![in alloc; SeriesNode::Bound(0)]?;
    let tree = tree_of(alloc, vectors, nodes)?;
    Ok(tree.map(|tree| Bounded { value, tree }))
}

/// The bound of all series at the root, after annealing has looked for a good one.
fn annealed(
    alloc: Global,
    table: &Table,
    best: &mut Best,
    draws: &mut Draws,
) -> Result<Root, Memory> {
    let top = table.top(alloc)?;
    let first = root_bound(alloc, table, 0, top)?;
    anneal(alloc, table, best, &all_items(table), first.value, draws)?;
    let goal = best.value.saturating_add(1);
    let second = root_bound(alloc, table, goal, first.value.max(goal))?;
    Ok(lesser(first, second))
}

/// The forms, the tree of a sweep, and the bound of the root.
fn gathered(
    alloc: Global,
    table: &Table,
    best: &Best,
    sweep: &Option<Sweep>,
    root: Root,
) -> Result<Searched, Memory> {
    let tree = match sweep {
        Some(sweep) => tree_of_sweep(alloc, sweep)?,
        None => None,
    };
    let forms = match best.known() {
        Some(_) => Some(List::of(best.in_order(alloc, table)?)),
        None => None,
    };
    Ok(Searched {
        forms,
        tree,
        bound: shown_bound(alloc, root)?,
    })
}

/// Looks for a series of so many forms of a plan, 1 to 4, whose least weighted information is as
/// great as can be, and for a tree within a budget of nodes, which is odd and at most 4,095, that
/// shows it best, or that there is no series, or that spends the budget. `weights` has one number
/// for each grid point, and trees have the given kinds alone. All is to be tested.
// Promise: A series, a tree and a bound, each if one was found
// - by none
pub fn search(
    alloc: Global,
    bank: &Bank,
    spec: &Spec,
    weights: &[u32],
    forms: u8,
    budget: u16,
    kinds: Kinds,
) -> Result<Searched, Memory> {
    let table = Table::of(alloc, bank, spec, weights, (forms as usize).min(4), kinds)?;
    let mut draws = Draws::of(SEED);
    let mut best = Best::none();
    let root = annealed(alloc, &table, &mut best, &mut draws)?;
    scout_links(alloc, &table, &mut best, &mut draws, root.value)?;
    let branches = (budget as u32).saturating_sub(1) / 2;
    let sweep = best_sweep(alloc, &table, &mut best, &mut draws, root.value, branches)?;
    gathered(alloc, &table, &best, &sweep, root)
}
