//! A series tree.

ghost use Rattle.std.specs.Prelude.{◌≡◌, ◌↔◌, ◌≤◌, ◌<◌, ℕ, nat_le, IsTrue, IsSome, IfSome, All, length, slice_index_or, sum_by, []};
ghost use Rattle.std.specs.List.{list_all};
ghost use Rattle.series_model.specs.SeriesTrees.{names_pool, is_moderate, AreTrees, AreVectors, Ascends};
ghost use Rattle.series_tree.specs.Shape.{IsTree, IsNode};
ghost use Rattle.series_model.specs.SeriesTrees.{children};

use crate::vector::SeriesVector;
use bank_tables::List;
use bank_tables::limits::{MULTIPLIER, PAIRS, VECTORS};
use series_model::SeriesNode;
use std::marker::Model;

/// Sides are below this number.
pub const SIDES: u16 = 2_315;

/// The sides of the pool begin here.
pub const POOL_SIDES: u16 = 2_304;

/// The most pairs of one vector.
pub const SERIES_VECTOR_PAIRS: u16 = 2_304;

/// A series tree (branch and bound; Land and Doig, An Automatic Method of Solving Discrete
/// Programming Problems, 1960): at most 255 vectors with sides below 2,315, of at most 2,304 pairs
/// each and 12,288 in all, and at most 4,095 nodes, which are one binary tree in preorder. Only a
/// vector that names a side from 2,304 on has a multiplier above 16,777,216. A node names a form
/// below 4, an item below 512, or a row of at most 192.
#[derive(Debug, Drop)]
pub struct SeriesTree {
    vectors: List<SeriesVector>,
    nodes: List<SeriesNode>,
}

impl Model for SeriesTree {
    ghost use Rattle.series_model.specs.SeriesTrees.{Certificate};
    ghost use Rattle.series_tree.specs.Shape.{IsTree};

    ghost Value = { Certificate };

    ghost view = { λ t. record { vectors = t.vectors; nodes = t.nodes } };

    ghost invariant = { λ t. IsTree (record { vectors = t.vectors; nodes = t.nodes }) };
}

fn sides_are_low(pairs: &[(u16, u32)]) -> bool
    ensures { IsTrue result ↔ All (λ pair. pair.0 < 2315) pairs.now }
{
    pairs.iter().all(|pair| pair.0 < SIDES)
}

/// Whether the vector names a side of the pool.
pub fn names_pool(pairs: &[(u16, u32)]) -> bool
    ensures { result ≡ names_pool pairs.now }
{
    pairs.iter().any(|pair| POOL_SIDES <= pair.0)
}

/// Whether no multiplier is above 2 ^ 24.
fn are_small(pairs: &[(u16, u32)]) -> bool
    ensures { result ≡ list_all (λ pair. nat_le pair.1 16777216) pairs.now }
{
    pairs.iter().all(|pair| pair.1 <= MULTIPLIER)
}

/// Whether the vector names a side of the pool, or no multiplier is above 2 ^ 24.
pub(crate) fn is_moderate(pairs: &[(u16, u32)]) -> bool
    ensures { result ≡ is_moderate pairs.now }
{
    names_pool(pairs) || are_small(pairs)
}

fn have_low_sides(vectors: &[SeriesVector]) -> bool
    ensures sides { IsTrue result
        ↔ ((v : ℕ) → v < length vectors.now
        → All (λ pair. pair.0 < 2315) (slice_index_or vectors.now v [])) }
    ensures vectors { IsTrue result → (v : ℕ) → v < length vectors.now
        → Ascends 0 (slice_index_or vectors.now v []) }
{
    for vector in vectors {
        if !sides_are_low(vector.pairs()) {
            return false;
        }
    }
    true
}

fn are_moderate(vectors: &[SeriesVector]) -> bool
    ensures { IsTrue result
        ↔ ((v : ℕ) → v < length vectors.now
        → IsTrue (is_moderate (slice_index_or vectors.now v []))) }
{
    for vector in vectors {
        if !is_moderate(vector.pairs()) {
            return false;
        }
    }
    true
}

fn are_short(vectors: &[SeriesVector]) -> bool
    ensures { IsTrue result
        ↔ ((v : ℕ) → v < length vectors.now → length (slice_index_or vectors.now v []) ≤ 2304) }
{
    for vector in vectors {
        if vector.pairs().len() > SERIES_VECTOR_PAIRS as usize {
            return false;
        }
    }
    true
}

fn have_few_pairs(vectors: &[SeriesVector]) -> bool
    ensures { IsTrue result ↔ (sum_by length vectors.now ≤ 12288) }
{
    let mut room = PAIRS as usize;
    for vector in vectors {
        let pairs = vector.pairs().len();
        if room < pairs {
            return false;
        }
        room -= pairs;
    }
    true
}

fn are_vectors(vectors: &[SeriesVector]) -> bool
    ensures { IsTrue result ↔ AreVectors vectors.now }
{
    vectors.len() <= VECTORS as usize
        && have_low_sides(vectors)
        && are_moderate(vectors)
        && are_short(vectors)
        && have_few_pairs(vectors)
}

/// How many subtrees follow a node.
pub(crate) fn children(node: &SeriesNode) -> usize
    ensures { result ≡ children node.now }
{
    match node {
        SeriesNode::Branch { .. } | SeriesNode::Use { .. } | SeriesNode::Twin { .. } => 2,
        SeriesNode::Bound(_)
        | SeriesNode::Ray(_)
        | SeriesNode::Count { .. }
        | SeriesNode::Whole
        | SeriesNode::Open => 0,
    }
}

fn are_one_tree(nodes: &[SeriesNode]) -> bool
    ensures { IsTrue result ↔ AreTrees 1 nodes.now }
{
    let mut waiting = 1;
    for node in nodes {
        if waiting == 0 {
            return false;
        }
        waiting = waiting - 1 + children(node);
    }
    waiting == 0
}

fn is_node(node: &SeriesNode) -> bool
    ensures { IsTrue result ↔ IsNode node.now }
{
    match node {
        SeriesNode::Branch { form, item } | SeriesNode::Twin { form, item } => {
            *form < 4 && *item < 512
        }
        SeriesNode::Use { item } => *item < 512,
        SeriesNode::Bound(vector) | SeriesNode::Ray(vector) => u16::from(*vector) < 256,
        SeriesNode::Count { form, row } => *form < 4 && *row <= 192,
        SeriesNode::Whole | SeriesNode::Open => true,
    }
}

fn are_nodes(nodes: &[SeriesNode]) -> bool
    ensures { IsTrue result ↔ All IsNode nodes.now }
{
    for node in nodes {
        if !is_node(node) {
            return false;
        }
    }
    true
}

impl SeriesTree {
    /// The tree of these vectors and nodes.
    pub fn new(vectors: List<SeriesVector>, nodes: List<SeriesNode>) -> SeriesTree
        requires { IsTree (record { vectors = vectors; nodes = nodes }) }
        ensures { result ≡ record { vectors = vectors; nodes = nodes } }
    {
        SeriesTree { vectors, nodes }
    }

    /// The tree of these vectors and nodes; None exactly where they are none.
    pub fn of(vectors: List<SeriesVector>, nodes: List<SeriesNode>) -> Option<SeriesTree>
        // Promise: Vectors and nodes are a series tree exactly where they keep the rules
        // - of `SeriesTree::of`, `SeriesTree::new`, `SeriesTree::vectors`, `SeriesTree::nodes`
        // - by `some`, `tree`
        ensures some { IsSome result ↔ IsTree (record { vectors = vectors; nodes = nodes }) }
        ensures tree { IfSome result (λ t. t ≡ record { vectors = vectors; nodes = nodes }) }
    {
        if are_vectors(vectors.as_slice())
            && nodes.as_slice().len() <= 4095
            && are_one_tree(nodes.as_slice())
            && are_nodes(nodes.as_slice())
        {
            Some(SeriesTree { vectors, nodes })
        } else {
            None
        }
    }

    /// Its vectors.
    pub fn vectors(&self) -> &[SeriesVector]
        ensures vectors { result.now ≡ self.now.vectors }
        ensures tree { IsTree self.now }
    {
        self.vectors.as_slice()
    }

    /// Its nodes in preorder.
    pub fn nodes(&self) -> &[SeriesNode]
        ensures nodes { result.now ≡ self.now.nodes }
        ensures tree { IsTree self.now }
    {
        self.nodes.as_slice()
    }
}
