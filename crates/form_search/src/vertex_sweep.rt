//! A sweep by exchanges: a tree made depth first, where each path begins with the vertex that its
//! branch led to.

ghost use Rattle.form_model.specs.Validity.{IsWellMade};
ghost use Rattle.constraint_model.specs.Views.{problem_of};
ghost use Rattle.lagrange_bound.specs.Cuts.{IsCut};

use crate::dive::dive;
use crate::incumbent::Incumbent;
use crate::leaves::{settled, settled_by_set};
use crate::pool::Pool;
use crate::repair::nearby_form;
use crate::table::Table;
use crate::tally::is_ruled_out;
use crate::vertex_branching::best_branch;
use crate::vertices::{Solver, sets_of, target_of};
use bank_tables::limits::NODES;
use certificate_model::Node;
use constraint_model::Problem;
use lagrange_bound::{Cut, impossible};
use multiplier_exchanges::{Reached, Vertex};
use proof_tree::Memory;
use search_paths::{Sides, Waiting, next_path, push_below, wait};
use std::alloc::Global;

/// Exchanges at the root, at most.
const ROOT_EXCHANGES: u32 = 2000;

/// Nodes after which the first sweep may begin anew.
const FIRST_RESTART: usize = 24;

/// How far below what closes the root the exchanges there go: one unit of a bound.
const ROOT_MARGIN: i64 = 256;

/// The part of the bound that is a great gap.
const FAR: i64 = 128;

/// What a sweep has made so far.
#[derive(Drop)]
pub struct VertexSweep {
    pub nodes: Vec<Node>,
    pub pool: Pool,
    /// The vertices of the paths that wait, in their order.
    vertices: Vec<Vertex>,
    /// Branches that the budget still allows.
    branches: u32,
    /// Whether a leaf is Open.
    pub is_spent: bool,
    /// Whether no path waits for its subtree.
    pub is_whole: bool,
}

/// Whether there is no form, or the best is so far below the bound that a better one is worth a
/// search.
fn is_far(vertex: &Vertex, incumbent: &Incumbent) -> bool {
    match incumbent.form {
        Some(_) => {
            let gap = vertex.bound().saturating_sub(target_of(incumbent));
            gap > vertex.bound() / FAR
        }
        None => true,
    }
}

/// The vertex of the root, and a first form or a better one where the root isn't closed.
fn vertex_of_root(
    alloc: Global,
    problem: &Problem,
    table: &Table,
    solver: &mut Solver,
    incumbent: &mut Incumbent,
    root: &Cut,
) -> Result<Vertex, Memory>
    requires { IsWellMade (problem_of problem.now) }
{
    let mut vertex = Vertex::first(alloc, &solver.relaxation, &sets_of(root))?;
    let target = target_of(incumbent).saturating_sub(ROOT_MARGIN);
    match solver.run(&mut vertex, target, ROOT_EXCHANGES)? {
        Reached::Target | Reached::Ray => {}
        Reached::Best | Reached::Limit => {
            offer_form(alloc, problem, table, solver, incumbent, &vertex)?;
        }
    }
    Ok(vertex)
}

/// Offers forms that are found from the vertex of the root.
fn offer_form(
    alloc: Global,
    problem: &Problem,
    table: &Table,
    solver: &mut Solver,
    incumbent: &mut Incumbent,
    vertex: &Vertex,
) -> Result<(), Memory>
    requires { IsWellMade (problem_of problem.now) }
{
    let known = incumbent.objective;
    dive(alloc, problem, table, solver, incumbent, vertex)?;
    if incumbent.objective == known && is_far(vertex, incumbent) {
        let vector = solver.vector(alloc, vertex)?;
        let items = nearby_form(alloc, table, &vector, &problem.given)?;
        incumbent.offer(problem, table, &items);
    }
    Ok(())
}

impl VertexSweep {
    /// The branch at a path, or Open where the budget allows none.
    fn branch_or_open(
        &mut self,
        alloc: Global,
        problem: &Problem,
        table: &Table,
        solver: &mut Solver,
        incumbent: &Incumbent,
        cut: &Cut,
        vertex: &Vertex,
    ) -> Result<Node, Memory>
        requires well_made { IsWellMade (problem_of problem.now) }
        requires cut { IsCut (problem_of problem.now) cut.now }
    {
        if self.branches == 0 {
            self.is_spent = true;
            return Ok(Node::Open);
        }
        self.branches = self.branches.saturating_sub(1);
        match best_branch(alloc, problem, table, solver, incumbent, vertex, cut)? {
            Some(branch) => {
                let node = branch.node;
                self.vertices.push(branch.other)?;
                self.vertices.push(branch.first)?;
                Ok(node)
            }
            None => {
                self.is_spent = true;
                Ok(Node::Open)
            }
        }
    }

    /// The leaf at a path that needs no exchanges. At the root no vector is there, and the empty
    /// one isn't tried.
    fn settled_at(
        &mut self,
        alloc: Global,
        problem: &Problem,
        table: &Table,
        incumbent: &mut Incumbent,
        cut: &Cut,
    ) -> Result<Option<Node>, Memory>
        requires { IsWellMade (problem_of problem.now) }
    {
        if self.nodes.is_empty() {
            return Ok(settled_by_set(problem, table, incumbent, cut));
        }
        settled(alloc, problem, table, &mut self.pool, incumbent, cut)
    }

    /// The node at a path: the leaf of the lowest row that is impossible by counting, or another
    /// leaf, or a branch.
    fn node_at(
        &mut self,
        alloc: Global,
        problem: &Problem,
        table: &Table,
        solver: &mut Solver,
        incumbent: &mut Incumbent,
        cut: &Cut,
        vertex: &mut Vertex,
    ) -> Result<Node, Memory>
        requires well_made { IsWellMade (problem_of problem.now) }
        requires cut { IsCut (problem_of problem.now) cut.now }
    {
        if is_ruled_out(table, cut) {
            if let Some(row) = impossible(problem, cut) {
                return Ok(Node::Count(row));
            }
        }
        if let Some(leaf) = self.settled_at(alloc, problem, table, incumbent, cut)? {
            return Ok(leaf);
        }
        if self.is_spent {
            return Ok(Node::Open);
        }
        let pool = &mut self.pool;
        if let Some(leaf) = solver.leaf(alloc, problem, table, pool, incumbent, cut, vertex)? {
            return Ok(leaf);
        }
        self.branch_or_open(alloc, problem, table, solver, incumbent, cut, vertex)
    }

    /// A sweep with no nodes yet, and the root's vertex.
    fn new(alloc: Global, at_root: &Vertex, branches: u32) -> Result<VertexSweep, Memory> {
        let mut vertices = Vec::new(alloc);
        vertices.push(at_root.again(alloc)?)?;
        Ok(VertexSweep {
            nodes: Vec::new(alloc),
            pool: Pool::new(alloc),
            vertices,
            branches,
            is_spent: false,
            is_whole: false,
        })
    }

    /// A sweep over the paths from the root on. It ends early where it has so many nodes and met a
    /// better form.
    pub fn over(
        alloc: Global,
        problem: &Problem,
        table: &Table,
        solver: &mut Solver,
        incumbent: &mut Incumbent,
        root: &Cut,
        at_root: &Vertex,
        branches: u32,
        restart: usize,
    ) -> Result<VertexSweep, Memory>
        requires well_made { IsWellMade (problem_of problem.now) }
        requires root { IsCut (problem_of problem.now) root.now }
    {
        let mut sweep = VertexSweep::new(alloc, at_root, branches)?;
        sweep.grow(alloc, problem, table, solver, incumbent, root, restart)?;
        Ok(sweep)
    }

    /// Adds the node of a path, whose vertex is the last; None where there is no vertex.
    fn add_node(
        &mut self,
        alloc: Global,
        problem: &Problem,
        table: &Table,
        solver: &mut Solver,
        incumbent: &mut Incumbent,
        cut: &Cut,
    ) -> Result<Option<Node>, Memory>
        requires well_made { IsWellMade (problem_of problem.now) }
        requires cut { IsCut (problem_of problem.now) cut.now }
    {
        let Some(mut vertex) = self.vertices.pop() else {
            return Ok(None);
        };
        let node = self.node_at(alloc, problem, table, solver, incumbent, cut, &mut vertex)?;
        self.nodes.push(node)?;
        Ok(Some(node))
    }

    /// Adds the nodes of the paths from the root on. A sweep that ends early is not whole.
    fn grow(
        &mut self,
        alloc: Global,
        problem: &Problem,
        table: &Table,
        solver: &mut Solver,
        incumbent: &mut Incumbent,
        root: &Cut,
        restart: usize,
    ) -> Result<(), Memory>
        requires well_made { IsWellMade (problem_of problem.now) }
        requires root { IsCut (problem_of problem.now) root.now }
    {
        let begun = incumbent.objective;
        let mut waiting = Vec::new(alloc);
        let first = Waiting {
            cut: *root,
            depth: 0,
            hand: 0,
        };
        wait(problem, &mut waiting, first)?;
        for _ in 0..NODES {
            let Some(place) = next_path(problem, &mut waiting) else {
                break;
            };
            let cut = &place.cut;
            let Some(node) = self.add_node(alloc, problem, table, solver, incumbent, cut)? else {
                return Ok(());
            };
            let hands = Sides { first: 0, other: 0 };
            push_below(problem, &mut waiting, &place, &node, hands)?;
            if self.nodes.len() >= restart && incumbent.objective > begun {
                break;
            }
        }
        self.is_whole = waiting.is_empty();
        Ok(())
    }
}

/// Sweeps from the vertex of the root, until one is whole; None where that one has spent its
/// branches, or none is.
pub fn sweeps_by_exchanges(
    alloc: Global,
    problem: &Problem,
    table: &Table,
    incumbent: &mut Incumbent,
    root: &Cut,
    branches: u32,
) -> Result<Option<VertexSweep>, Memory>
    requires well_made { IsWellMade (problem_of problem.now) }
    requires root { IsCut (problem_of problem.now) root.now }
{
    let mut solver = Solver::of(alloc, problem, root)?;
    let vertex = vertex_of_root(alloc, problem, table, &mut solver, incumbent, root)?;
    vertex_sweeps(
        alloc,
        problem,
        table,
        &mut solver,
        incumbent,
        root,
        &vertex,
        branches,
    )
}

/// Sweeps until one is whole; each may have twice as many nodes before it begins anew as the one
/// before.
fn vertex_sweeps(
    alloc: Global,
    problem: &Problem,
    table: &Table,
    solver: &mut Solver,
    incumbent: &mut Incumbent,
    root: &Cut,
    at_root: &Vertex,
    branches: u32,
) -> Result<Option<VertexSweep>, Memory>
    requires well_made { IsWellMade (problem_of problem.now) }
    requires root { IsCut (problem_of problem.now) root.now }
{
    let mut restart = FIRST_RESTART;
    for _ in 0..8 {
        let sweep = VertexSweep::over(
            alloc, problem, table, solver, incumbent, root, at_root, branches, restart,
        )?;
        if sweep.is_whole {
            return Ok(if sweep.is_spent { None } else { Some(sweep) });
        }
        restart = restart.saturating_mul(2);
    }
    Ok(None)
}
