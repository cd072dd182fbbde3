//! Strong branching: the branches that seem best are tried by some steps on both sides (Applegate,
//! Bixby, Chvátal and Cook, Finding Cuts in the TSP, 1995).

ghost use Rattle.form_model.specs.Validity.{IsWellMade};
ghost use Rattle.constraint_model.specs.Views.{problem_of};
ghost use Rattle.lagrange_bound.specs.Cuts.{IsCut};

use crate::branching::Choice;
use crate::incumbent::Incumbent;
use crate::pool::{Pool, empty_vector};
use crate::steps::{Stepped, take_form};
use crate::table::Table;
use crate::tally::is_ruled_out;
use certificate_model::Node;
use constraint_model::Problem;
use lagrange_bound::Cut;
use multiplier_steps::{Aim, climb};
use proof_tree::{Memory, Vector};
use search_paths::below;
use std::alloc::Global;

/// How much the side that gains least counts against the other.
const LEAST_COUNTS: i64 = 6;

/// The vector that the steps on a side of a branch begin with, and its bound there: the greatest
/// number where no steps were made there, the least where none are needed.
#[derive(Drop)]
pub struct Hand {
    pub vector: Vector,
    pub bound: i64,
}

/// A branch that was tried, and how good it is.
#[derive(Drop)]
pub struct Probe {
    node: Node,
    score: i64,
    first: Hand,
    other: Hand,
}

impl Probe {
    /// The branch, and what the steps on its sides begin with.
    pub fn into_parts(self) -> (Node, Hand, Hand) {
        let Probe {
            node,
            score: _,
            first,
            other,
        } = self;
        (node, first, other)
    }
}

/// The result of some steps on a side of a branch. No steps are made if a row is impossible by
/// counting, or if a vector of the pool closes the side.
fn side_of(
    alloc: Global,
    problem: &Problem,
    table: &Table,
    pool: &Pool,
    incumbent: &mut Incumbent,
    side: &Cut,
    from: &Vector,
    aim: Aim,
) -> Result<Hand, Memory>
    requires { IsWellMade (problem_of problem.now) }
{
    if is_ruled_out(table, side) || pool.has_closing(table, incumbent, side) {
        return Ok(Hand {
            vector: empty_vector(alloc),
            bound: i64::MIN,
        });
    }
    let ascent = climb(alloc, problem, side, from, aim)?;
    take_form(problem, table, incumbent, &ascent);
    let Stepped {
        vector,
        shares: _,
        stimulus_shares: _,
        choice: _,
        bound,
    } = Stepped::of(ascent);
    Ok(Hand { vector, bound })
}

/// How far a side brings the bound down, at most to where the path closes.
fn gain_of(hand: &Hand, bound: i64, most: i64) -> i64 {
    bound.saturating_sub(hand.bound).min(most).max(0)
}

/// How good a branch is whose sides gain so much.
fn score_of(gain: i64, other: i64) -> i64 {
    gain.min(other)
        .saturating_mul(LEAST_COUNTS)
        .saturating_add(gain.max(other))
}

/// A branch, tried by steps on both sides; None where it is found to be no better than a score.
fn probe_of(
    alloc: Global,
    problem: &Problem,
    table: &Table,
    pool: &Pool,
    incumbent: &mut Incumbent,
    cut: &Cut,
    node: Node,
    stepped: &Stepped,
    aim: Aim,
    least: i64,
) -> Result<Option<Probe>, Memory>
    requires well_made { IsWellMade (problem_of problem.now) }
    requires cut { IsCut (problem_of problem.now) cut.now }
{
    let from = &stepped.vector;
    let most = stepped.bound.saturating_sub(incumbent.top()).max(0);
    let side = below(problem, cut, &node, true);
    let first = side_of(alloc, problem, table, pool, incumbent, &side, from, aim)?;
    let gain = gain_of(&first, stepped.bound, most);
    if score_of(gain, most) <= least {
        return Ok(None);
    }
    let side = below(problem, cut, &node, false);
    let other = side_of(alloc, problem, table, pool, incumbent, &side, from, aim)?;
    let score = score_of(gain, gain_of(&other, stepped.bound, most));
    if score <= least {
        return Ok(None);
    }
    Ok(Some(Probe {
        node,
        score,
        first,
        other,
    }))
}

/// The branch that brings the bound down most, of those that seem best; none is tried once both
/// sides of one close.
pub fn best_probed(
    alloc: Global,
    problem: &Problem,
    table: &Table,
    pool: &Pool,
    incumbent: &mut Incumbent,
    cut: &Cut,
    choices: &[Choice],
    stepped: &Stepped,
    aim: Aim,
) -> Result<Option<Probe>, Memory>
    requires well_made { IsWellMade (problem_of problem.now) }
    requires cut { IsCut (problem_of problem.now) cut.now }
{
    let mut best = None;
    let mut least = -1i64;
    for choice in choices {
        let most = stepped.bound.saturating_sub(incumbent.top()).max(0);
        if least >= score_of(most, most) {
            break;
        }
        let node = choice.node;
        if let Some(probe) = probe_of(
            alloc, problem, table, pool, incumbent, cut, node, stepped, aim, least,
        )? {
            least = probe.score;
            best = Some(probe);
        }
    }
    Ok(best)
}
