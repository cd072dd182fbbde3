//! The search's use of exchanges from vertex to vertex.

ghost use Rattle.form_model.specs.Validity.{IsWellMade};
ghost use Rattle.constraint_model.specs.Views.{problem_of};

use crate::incumbent::Incumbent;
use crate::pool::Pool;
use crate::table::Table;
use certificate_model::Node;
use constraint_model::Problem;
use lagrange_bound::Cut;
use multiplier_exchanges::{PathSets, Reached, Relaxation, Vertex, Workspace, vector_towards};
use multiplier_steps::{Aim, climb};
use proof_tree::{Memory, Vector};
use std::alloc::Global;

/// Exchanges at a path, at most.
const MOST_EXCHANGES: u32 = 500;

/// Exchanges beyond those that close a path, so that its vector closes other paths too.
const MORE_EXCHANGES: u32 = 2;

/// Steps from a vector that rounding kept from closing a path, at most.
const MOST_STEPS: u32 = 40;

/// The lengths at which the direction of a ray is tried, of which each is 16 times the one before.
const RAY_LENGTHS: u32 = 4;

/// The least of them.
const FIRST_LENGTH: i64 = 1_048_576;

/// The relaxation of a problem, and room for exchanges.
#[derive(Drop)]
pub struct Solver {
    pub relaxation: Relaxation,
    pub room: Workspace,
}

/// The sets of a path.
pub fn sets_of(cut: &Cut) -> PathSets {
    PathSets {
        taken: cut.taken,
        free: cut.free,
        chosen: cut.chosen,
        opened: cut.opened,
    }
}

/// The greatest bound of a vertex at which no form is better than the incumbent; the least number
/// without one.
pub fn target_of(incumbent: &Incumbent) -> i64 {
    match incumbent.form {
        Some(_) => incumbent.top().wrapping_mul(256),
        None => i64::MIN,
    }
}

impl Solver {
    /// The solver of a problem.
    pub fn of(alloc: Global, problem: &Problem, root: &Cut) -> Result<Solver, Memory> {
        Ok(Solver {
            relaxation: Relaxation::of(alloc, problem, &sets_of(root))?,
            room: Workspace::new(alloc),
        })
    }

    /// The vector of a vertex.
    pub fn vector(&mut self, alloc: Global, vertex: &Vertex) -> Result<Vector, Memory> {
        vertex.vector(alloc, &self.relaxation, &mut self.room)
    }

    /// At most so many exchanges, until the bound is at most the target.
    pub fn run(&mut self, vertex: &mut Vertex, target: i64, most: u32) -> Result<Reached, Memory> {
        vertex.run(&self.relaxation, target, most, &mut self.room)
    }

    /// The leaf of the vector of a vertex, if that closes the path.
    fn leaf_of(
        &mut self,
        alloc: Global,
        table: &Table,
        pool: &mut Pool,
        incumbent: &Incumbent,
        cut: &Cut,
        vertex: &Vertex,
    ) -> Result<Option<Node>, Memory> {
        let vector = self.vector(alloc, vertex)?;
        pool.closed_by(alloc, table, incumbent, cut, vector, false)
    }

    /// The leaf of the vector of a vertex whose bound closes the path; where the rounding to whole
    /// multipliers lost that, of some steps from there.
    fn leaf_near(
        &mut self,
        alloc: Global,
        problem: &Problem,
        table: &Table,
        pool: &mut Pool,
        incumbent: &Incumbent,
        cut: &Cut,
        vertex: &Vertex,
    ) -> Result<Option<Node>, Memory>
        requires { IsWellMade (problem_of problem.now) }
    {
        let leaf = self.leaf_of(alloc, table, pool, incumbent, cut, vertex)?;
        if leaf.is_some() || incumbent.form.is_none() {
            return Ok(leaf);
        }
        let aim = Aim {
            ray: false,
            target: Some(incumbent.top()),
            steps: MOST_STEPS,
        };
        let from = self.vector(alloc, vertex)?;
        let near = climb(alloc, problem, cut, &from, aim)?;
        pool.closed_by(alloc, table, incumbent, cut, near.vector, false)
    }

    /// The leaf of a vertex of a bound that closes the path; where rounding lost it, of the best
    /// vertex.
    fn leaf_at_target(
        &mut self,
        alloc: Global,
        problem: &Problem,
        table: &Table,
        pool: &mut Pool,
        incumbent: &Incumbent,
        cut: &Cut,
        vertex: &mut Vertex,
    ) -> Result<Option<Node>, Memory>
        requires { IsWellMade (problem_of problem.now) }
    {
        let before = self.vector(alloc, vertex)?;
        let _ = self.run(vertex, i64::MIN, MORE_EXCHANGES)?;
        if let Some(leaf) = self.leaf_of(alloc, table, pool, incumbent, cut, vertex)? {
            return Ok(Some(leaf));
        }
        if let Some(leaf) = pool.closed_by(alloc, table, incumbent, cut, before, false)? {
            return Ok(Some(leaf));
        }
        let _ = self.run(vertex, i64::MIN, MOST_EXCHANGES)?;
        self.leaf_near(alloc, problem, table, pool, incumbent, cut, vertex)
    }

    /// The leaf of the best vertex, whose items are offered where none is taken in part.
    fn leaf_at_best(
        &mut self,
        alloc: Global,
        problem: &Problem,
        table: &Table,
        pool: &mut Pool,
        incumbent: &mut Incumbent,
        cut: &Cut,
        vertex: &Vertex,
    ) -> Result<Option<Node>, Memory>
        requires { IsWellMade (problem_of problem.now) }
    {
        if vertex.is_whole() {
            let items = vertex.items(&self.relaxation, &cut.taken);
            incumbent.offer(problem, table, &items);
        }
        if vertex.bound() <= target_of(incumbent) {
            self.leaf_near(alloc, problem, table, pool, incumbent, cut, vertex)
        } else {
            Ok(None)
        }
    }

    /// The leaf of a vector in the direction of a ray, or of that direction alone.
    fn leaf_towards(
        &mut self,
        alloc: Global,
        table: &Table,
        pool: &mut Pool,
        incumbent: &Incumbent,
        cut: &Cut,
        vertex: &Vertex,
        alone: bool,
    ) -> Result<Option<Node>, Memory> {
        let mut length = FIRST_LENGTH;
        for _ in 0..RAY_LENGTHS {
            let (relaxation, room) = (&self.relaxation, &mut self.room);
            let vector = vector_towards(alloc, relaxation, vertex, room, length, alone)?;
            let leaf = pool.closed_by(alloc, table, incumbent, cut, vector, alone)?;
            if leaf.is_some() {
                return Ok(leaf);
            }
            length = length.wrapping_mul(16);
        }
        Ok(None)
    }

    /// The leaf of a ray: of a Bound where a form is known and the multipliers are great enough,
    /// else of a Ray.
    fn leaf_by_ray(
        &mut self,
        alloc: Global,
        table: &Table,
        pool: &mut Pool,
        incumbent: &Incumbent,
        cut: &Cut,
        vertex: &Vertex,
    ) -> Result<Option<Node>, Memory> {
        if incumbent.form.is_some() {
            let leaf = self.leaf_towards(alloc, table, pool, incumbent, cut, vertex, false)?;
            if leaf.is_some() {
                return Ok(leaf);
            }
        }
        self.leaf_towards(alloc, table, pool, incumbent, cut, vertex, true)
    }

    /// The leaf at a path after exchanges there, if a vector closes it.
    pub fn leaf(
        &mut self,
        alloc: Global,
        problem: &Problem,
        table: &Table,
        pool: &mut Pool,
        incumbent: &mut Incumbent,
        cut: &Cut,
        vertex: &mut Vertex,
    ) -> Result<Option<Node>, Memory>
        requires { IsWellMade (problem_of problem.now) }
    {
        match self.run(vertex, target_of(incumbent), MOST_EXCHANGES)? {
            Reached::Target => {
                self.leaf_at_target(alloc, problem, table, pool, incumbent, cut, vertex)
            }
            Reached::Best => {
                self.leaf_at_best(alloc, problem, table, pool, incumbent, cut, vertex)
            }
            Reached::Ray => self.leaf_by_ray(alloc, table, pool, incumbent, cut, vertex),
            Reached::Limit => Ok(None),
        }
    }
}
