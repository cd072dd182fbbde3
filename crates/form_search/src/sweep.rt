//! A sweep: a tree made depth first.

ghost use Rattle.form_model.specs.Validity.{IsWellMade};
ghost use Rattle.constraint_model.specs.Views.{problem_of};
ghost use Rattle.lagrange_bound.specs.Cuts.{IsCut};

use crate::branching::{Choice, choices};
use crate::incumbent::Incumbent;
use crate::leaves::settled;
use crate::pool::{Pool, empty_vector};
use crate::priced::Priced;
use crate::probing::{Hand, best_probed};
use crate::steps::{Stepped, take_form};
use crate::table::Table;
use crate::tally::is_ruled_out;
use bank_tables::limits::NODES;
use certificate_model::Node;
use constraint_model::Problem;
use lagrange_bound::{Cut, impossible};
use multiplier_steps::{Aim, Ascent, climb};
use proof_tree::{Memory, Vector};
use search_paths::{Sides, Waiting, next_path, push_below, wait};
use std::alloc::Global;

/// Steps on each side of a branch that is tried.
const PROBE_STEPS: u32 = 8;

/// How far a sweep may go.
#[derive(Clone, Copy)]
pub struct Limits {
    /// Branches, at most.
    pub branches: u32,
    /// Whether it ends early where one that begins anew would be smaller.
    pub restarts: bool,
    /// How far below what closes a path the steps aim, so that a vector closes other paths too.
    pub margin: i64,
    /// Branches that are tried at a path, at most.
    pub probes: usize,
}

/// What a sweep has made so far.
#[derive(Drop)]
pub struct Sweep {
    pub nodes: Vec<Node>,
    pub pool: Pool,
    /// The vectors that the steps on the sides of branches begin with.
    hands: Vec<Hand>,
    /// Branches that the limits still allow.
    branches: u32,
    /// Whether a leaf is Open.
    pub is_spent: bool,
    /// Whether no path waits for its subtree.
    pub is_whole: bool,
    /// The objective of the incumbent as the sweep began.
    begun: u64,
    limits: Limits,
}

impl Sweep {
    /// A sweep without vectors: `begin` gives it the root's, and then `grow` its nodes.
    fn new(alloc: Global, incumbent: &Incumbent, limits: Limits) -> Sweep {
        Sweep {
            nodes: Vec::new(alloc),
            pool: Pool::new(alloc),
            hands: Vec::new(alloc),
            branches: limits.branches,
            is_spent: false,
            is_whole: false,
            begun: incumbent.objective,
            limits,
        }
    }

    /// Begins with the root's vector.
    fn begin(&mut self, alloc: Global, table: &Table, root: &Vector) -> Result<(), Memory> {
        if !root.pairs().is_empty() && self.pool.has_room() {
            let priced = Priced::of(alloc, table, root.again(alloc)?, false)?;
            let _ = self.pool.store(priced)?;
        }
        self.hands.push(Hand {
            vector: root.again(alloc)?,
            bound: i64::MAX,
        })?;
        Ok(())
    }

    /// What steps aim at: somewhat less than what closes a path, as the limits have it.
    fn aim(&self, incumbent: &Incumbent, steps: u32) -> Aim {
        Aim {
            ray: incumbent.form.is_none(),
            target: Some(incumbent.top().wrapping_sub(self.limits.margin)),
            steps,
        }
    }

    /// Steps at a path, fewer where there is no room for a vector, or where its branch was tried or
    /// it is deep.
    fn steps(
        &self,
        alloc: Global,
        problem: &Problem,
        incumbent: &Incumbent,
        place: &Waiting,
    ) -> Result<Ascent, Memory>
        requires { IsWellMade (problem_of problem.now) }
    {
        let Some(from) = self.hands.get(place.hand) else {
            let aim = self.aim(incumbent, 10);
            return climb(alloc, problem, &place.cut, &empty_vector(alloc), aim);
        };
        let steps = if !self.pool.has_room() {
            10
        } else if place.depth < 6 && from.bound == i64::MAX {
            40
        } else {
            25
        };
        let aim = self.aim(incumbent, steps);
        climb(alloc, problem, &place.cut, &from.vector, aim)
    }

    /// The leaf of the vector that a path begins with, if that closes it by the steps that tried
    /// its branch.
    fn closed_before(
        &mut self,
        alloc: Global,
        table: &Table,
        incumbent: &Incumbent,
        place: &Waiting,
    ) -> Result<Option<Node>, Memory> {
        let target = incumbent.top().wrapping_sub(self.limits.margin);
        let vector = match self.hands.get(place.hand) {
            Some(hand) if hand.bound <= target => hand.vector.again(alloc)?,
            _ => return Ok(None),
        };
        let ray = incumbent.form.is_none();
        let cut = &place.cut;
        self.pool
            .closed_by(alloc, table, incumbent, cut, vector, ray)
    }

    /// Hands over what the steps on the sides of a branch begin with.
    fn hand_over(&mut self, first: Hand, other: Hand) -> Result<(), Memory> {
        self.hands.push(first)?;
        self.hands.push(other)?;
        Ok(())
    }

    /// A branch that isn't tried: both sides begin with the vector of the path.
    fn untried(
        &mut self,
        alloc: Global,
        choices: &[Choice],
        vector: Vector,
    ) -> Result<Node, Memory> {
        let first = Hand {
            vector: vector.again(alloc)?,
            bound: i64::MAX,
        };
        let other = Hand {
            vector,
            bound: i64::MAX,
        };
        self.hand_over(first, other)?;
        match choices.first() {
            Some(choice) => Ok(choice.node),
            None => Ok(Node::Open),
        }
    }

    /// The branch at a path after steps there, or Open where the limits allow none.
    fn branch_or_open(
        &mut self,
        alloc: Global,
        problem: &Problem,
        table: &Table,
        incumbent: &mut Incumbent,
        place: &Waiting,
        stepped: Stepped,
    ) -> Result<Node, Memory>
        requires well_made { IsWellMade (problem_of problem.now) }
        requires cut { IsCut (problem_of problem.now) place.now.cut }
    {
        if self.branches == 0 {
            self.is_spent = true;
            return Ok(Node::Open);
        }
        self.branches = self.branches.saturating_sub(1);
        let (cut, probes) = (&place.cut, self.limits.probes);
        let choices = choices(alloc, table, cut, &stepped, probes)?;
        let (pool, tried) = (&self.pool, choices.as_slice());
        let aim = self.aim(incumbent, PROBE_STEPS);
        let best = if pool.has_room() {
            best_probed(
                alloc, problem, table, pool, incumbent, cut, tried, &stepped, aim,
            )?
        } else {
            None
        };
        match best {
            Some(probe) => {
                let (node, first, other) = probe.into_parts();
                self.hand_over(first, other)?;
                Ok(node)
            }
            None => self.untried(alloc, choices.as_slice(), stepped.vector),
        }
    }

    /// The leaf of the vector that steps led to, if that closes the path.
    fn leaf_after_steps(
        &mut self,
        alloc: Global,
        table: &Table,
        incumbent: &Incumbent,
        cut: &Cut,
        ascent: &Ascent,
    ) -> Result<Option<Node>, Memory> {
        if ascent.bound > incumbent.top() {
            return Ok(None);
        }
        let vector = ascent.vector.again(alloc)?;
        let ray = incumbent.form.is_none();
        self.pool
            .closed_by(alloc, table, incumbent, cut, vector, ray)
    }

    /// The node at a path that no vector of the pool closes, after steps there.
    fn node_after_steps(
        &mut self,
        alloc: Global,
        problem: &Problem,
        table: &Table,
        incumbent: &mut Incumbent,
        place: &Waiting,
    ) -> Result<Node, Memory>
        requires well_made { IsWellMade (problem_of problem.now) }
        requires cut { IsCut (problem_of problem.now) place.now.cut }
    {
        if let Some(leaf) = self.closed_before(alloc, table, incumbent, place)? {
            return Ok(leaf);
        }
        let ascent = self.steps(alloc, problem, incumbent, place)?;
        take_form(problem, table, incumbent, &ascent);
        let cut = &place.cut;
        if let Some(leaf) = self.leaf_after_steps(alloc, table, incumbent, cut, &ascent)? {
            return Ok(leaf);
        }
        self.branch_or_open(alloc, problem, table, incumbent, place, Stepped::of(ascent))
    }

    /// The node at a path where no row is impossible by counting.
    fn possible_node(
        &mut self,
        alloc: Global,
        problem: &Problem,
        table: &Table,
        incumbent: &mut Incumbent,
        at_root: &Stepped,
        place: &Waiting,
    ) -> Result<Node, Memory>
        requires well_made { IsWellMade (problem_of problem.now) }
        requires cut { IsCut (problem_of problem.now) place.now.cut }
    {
        if let Some(leaf) = settled(alloc, problem, table, &mut self.pool, incumbent, &place.cut)? {
            return Ok(leaf);
        }
        if self.is_spent {
            return Ok(Node::Open);
        }
        if place.depth == 0 && incumbent.form.is_some() {
            let again = at_root.again(alloc)?;
            return self.branch_or_open(alloc, problem, table, incumbent, place, again);
        }
        self.node_after_steps(alloc, problem, table, incumbent, place)
    }

    /// The node at a path: the leaf of the lowest row that is impossible by counting, where there
    /// is one.
    fn node_at(
        &mut self,
        alloc: Global,
        problem: &Problem,
        table: &Table,
        incumbent: &mut Incumbent,
        at_root: &Stepped,
        place: &Waiting,
    ) -> Result<Node, Memory>
        requires well_made { IsWellMade (problem_of problem.now) }
        requires cut { IsCut (problem_of problem.now) place.now.cut }
    {
        if is_ruled_out(table, &place.cut) {
            if let Some(row) = impossible(problem, &place.cut) {
                return Ok(Node::Count(row));
            }
        }
        self.possible_node(alloc, problem, table, incumbent, at_root, place)
    }

    /// Whether a sweep that begins anew would be smaller: a better form was met, and there are 32,
    /// 64, 128, .. nodes.
    fn is_stale(&self, incumbent: &Incumbent) -> bool {
        let count = self.nodes.len();
        count >= 32 && count.is_power_of_two() && incumbent.objective > self.begun
    }

    /// Whether a better form was met while it grew to many nodes: a sweep that begins anew would be
    /// smaller.
    pub fn is_late(&self, incumbent: &Incumbent) -> bool {
        self.nodes.len() > 48 && incumbent.objective > self.begun
    }

    /// A sweep over the paths from the root on.
    pub fn over(
        alloc: Global,
        problem: &Problem,
        table: &Table,
        incumbent: &mut Incumbent,
        at_root: &Stepped,
        limits: Limits,
    ) -> Result<Sweep, Memory>
        requires { IsWellMade (problem_of problem.now) }
    {
        let mut sweep = Sweep::new(alloc, incumbent, limits);
        sweep.begin(alloc, table, &at_root.vector)?;
        sweep.grow(alloc, problem, table, incumbent, at_root)?;
        Ok(sweep)
    }

    /// Adds the nodes of the paths from the root on.
    fn grow(
        &mut self,
        alloc: Global,
        problem: &Problem,
        table: &Table,
        incumbent: &mut Incumbent,
        at_root: &Stepped,
    ) -> Result<(), Memory>
        requires { IsWellMade (problem_of problem.now) }
    {
        let mut waiting = Vec::new(alloc);
        let first = Waiting {
            cut: Cut::root(problem),
            depth: 0,
            hand: 0,
        };
        wait(problem, &mut waiting, first)?;
        for _ in 0..NODES {
            let Some(place) = next_path(problem, &mut waiting) else {
                break;
            };
            let node = self.node_at(alloc, problem, table, incumbent, at_root, &place)?;
            self.nodes.push(node)?;
            let last = self.hands.len().saturating_sub(1);
            let hands = Sides {
                first: last.saturating_sub(1),
                other: last,
            };
            push_below(problem, &mut waiting, &place, &node, hands)?;
            if self.limits.restarts && self.is_stale(incumbent) {
                break;
            }
        }
        self.is_whole = waiting.is_empty();
        Ok(())
    }
}
