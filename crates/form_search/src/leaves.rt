//! The leaves of a tree that need no steps.

ghost use Rattle.form_model.specs.Validity.{IsWellMade};
ghost use Rattle.constraint_model.specs.Views.{problem_of};

use crate::incumbent::Incumbent;
use crate::pool::Pool;
use crate::table::Table;
use bank_tables::ItemSet;
use certificate_model::Node;
use constraint_model::Problem;
use lagrange_bound::Cut;
use proof_tree::Memory;
use std::alloc::Global;

/// The only set that may be a form on the path; None where more than one may.
pub fn only_candidate(table: &Table, cut: &Cut) -> Option<ItemSet> {
    if cut.free.count() == 0 || cut.taken.count() == table.length {
        return Some(cut.taken);
    }
    let both = cut.taken.union(cut.free);
    if both.count() == table.length {
        Some(both)
    } else {
        None
    }
}

/// The leaf at a path that is settled by its one set of items.
pub fn settled_by_set(
    problem: &Problem,
    table: &Table,
    incumbent: &mut Incumbent,
    cut: &Cut,
) -> Option<Node>
    requires { IsWellMade (problem_of problem.now) }
{
    let items = only_candidate(table, cut)?;
    incumbent.offer(problem, table, &items);
    Some(Node::Whole)
}

/// The leaf at a path that is settled by its one set of items, or by a vector that is there.
pub fn settled(
    alloc: Global,
    problem: &Problem,
    table: &Table,
    pool: &mut Pool,
    incumbent: &mut Incumbent,
    cut: &Cut,
) -> Result<Option<Node>, Memory>
    requires { IsWellMade (problem_of problem.now) }
{
    if let Some(leaf) = settled_by_set(problem, table, incumbent, cut) {
        return Ok(Some(leaf));
    }
    if let Some(leaf) = pool.closing(table, incumbent, cut) {
        return Ok(Some(leaf));
    }
    pool.closing_plain(alloc, table, incumbent, cut)
}
