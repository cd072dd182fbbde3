//! A proof tree.

ghost use Rattle.std.specs.Prelude.{◌≡◌, ◌↔◌, ◌≤◌, ◌<◌, ℕ, IsTrue, IsSome, IfSome, All, length, slice_index_or, sum_by, []};
ghost use Rattle.certificate_model.specs.ProofTrees.{AreTrees, AreVectors, IsVector};
ghost use Rattle.proof_tree.specs.Shape.{IsTree, IsNode, children};

use crate::vector::Vector;
use bank_tables::List;
use bank_tables::limits::{PAIRS, VECTOR_PAIRS, VECTORS};
use certificate_model::Node;
use std::marker::Model;

/// A proof tree (branch and bound; Land and Doig, An Automatic Method of Solving Discrete
/// Programming Problems, 1960): at most 255 vectors with sides below 386, of at most 384 pairs each
/// and 12,288 in all, and at most 4,095 nodes, which are one binary tree in preorder, the side with
/// the item or stimulus first. A node names an item below 512, a stimulus from 1 to 64, or a row of
/// at most 192.
#[derive(Debug, Drop)]
pub struct Tree {
    vectors: List<Vector>,
    nodes: List<Node>,
}

impl Model for Tree {
    ghost use Rattle.certificate_model.specs.ProofTrees.{ProofTree};
    ghost use Rattle.proof_tree.specs.Shape.{IsTree};

    ghost Value = { ProofTree };

    ghost view = { λ t. record { vectors = t.vectors; nodes = t.nodes } };

    ghost invariant = { λ t. IsTree (record { vectors = t.vectors; nodes = t.nodes }) };
}

fn sides_are_low(pairs: &[(u16, u32)]) -> bool
    ensures { IsTrue result ↔ All (λ pair. pair.0 < 386) pairs.now }
{
    pairs.iter().all(|pair| pair.0 < 386)
}

fn have_low_sides(vectors: &[Vector]) -> bool
    ensures sides { IsTrue result
        ↔ ((v : ℕ) → v < length vectors.now
        → All (λ pair. pair.0 < 386) (slice_index_or vectors.now v [])) }
    ensures vectors { IsTrue result → (v : ℕ) → v < length vectors.now
        → IsVector 0 (slice_index_or vectors.now v []) }
{
    for vector in vectors {
        if !sides_are_low(vector.pairs()) {
            return false;
        }
    }
    true
}

fn are_short(vectors: &[Vector]) -> bool
    ensures { IsTrue result
        ↔ ((v : ℕ) → v < length vectors.now → length (slice_index_or vectors.now v []) ≤ 384) }
{
    for vector in vectors {
        if vector.pairs().len() > VECTOR_PAIRS as usize {
            return false;
        }
    }
    true
}

fn have_few_pairs(vectors: &[Vector]) -> bool
    ensures { IsTrue result ↔ (sum_by length vectors.now ≤ 12288) }
{
    let mut room = PAIRS as usize;
    for vector in vectors {
        let pairs = vector.pairs().len();
        if room < pairs {
            return false;
        }
        room -= pairs;
    }
    true
}

fn are_vectors(vectors: &[Vector]) -> bool
    ensures { IsTrue result ↔ AreVectors vectors.now }
{
    vectors.len() <= VECTORS as usize
        && have_low_sides(vectors)
        && are_short(vectors)
        && have_few_pairs(vectors)
}

/// How many subtrees follow a node.
pub(crate) fn children(node: &Node) -> usize
    ensures { result ≡ children node.now }
{
    match node {
        Node::BranchItem(_) | Node::BranchStimulus(_) => 2,
        Node::Fix(_, _) => 1,
        Node::Bound(_) | Node::Ray(_) | Node::Count(_) | Node::Whole | Node::Open => 0,
    }
}

fn are_one_tree(nodes: &[Node]) -> bool
    ensures { IsTrue result ↔ AreTrees 1 nodes.now }
{
    let mut waiting = 1;
    for node in nodes {
        if waiting == 0 {
            return false;
        }
        waiting = waiting - 1 + children(node);
    }
    waiting == 0
}

fn is_node(node: &Node) -> bool
    ensures { IsTrue result ↔ IsNode node.now }
{
    match node {
        Node::BranchItem(item) => *item < 512,
        Node::BranchStimulus(stimulus) => 0 < *stimulus && *stimulus <= 64,
        Node::Bound(vector) | Node::Ray(vector) => u16::from(*vector) < 256,
        Node::Fix(vector, goal) => u16::from(*vector) < 256 && u64::from(*goal) < 4_294_967_296,
        Node::Count(row) => *row <= 192,
        Node::Whole | Node::Open => true,
    }
}

fn are_nodes(nodes: &[Node]) -> bool
    ensures { IsTrue result ↔ All IsNode nodes.now }
{
    for node in nodes {
        if !is_node(node) {
            return false;
        }
    }
    true
}

impl Tree {
    /// The tree of these vectors and nodes.
    pub fn new(vectors: List<Vector>, nodes: List<Node>) -> Tree
        requires { IsTree (record { vectors = vectors; nodes = nodes }) }
        ensures { result ≡ record { vectors = vectors; nodes = nodes } }
    {
        Tree { vectors, nodes }
    }

    /// The tree of these vectors and nodes; None exactly where they are none.
    pub fn of(vectors: List<Vector>, nodes: List<Node>) -> Option<Tree>
        // Promise: Vectors and nodes are a tree exactly where they keep the rules
        // - of `Tree::of`, `Tree::new`, `Tree::vectors`, `Tree::nodes`
        // - by `some`, `tree`
        ensures some { IsSome result ↔ IsTree (record { vectors = vectors; nodes = nodes }) }
        ensures tree { IfSome result (λ t. t ≡ record { vectors = vectors; nodes = nodes }) }
    {
        if are_vectors(vectors.as_slice())
            && nodes.as_slice().len() <= 4095
            && are_one_tree(nodes.as_slice())
            && are_nodes(nodes.as_slice())
        {
            Some(Tree { vectors, nodes })
        } else {
            None
        }
    }

    /// Its vectors.
    pub fn vectors(&self) -> &[Vector]
        ensures vectors { result.now ≡ self.now.vectors }
        ensures tree { IsTree self.now }
    {
        self.vectors.as_slice()
    }

    /// Its nodes in preorder.
    pub fn nodes(&self) -> &[Node]
        ensures nodes { result.now ≡ self.now.nodes }
        ensures tree { IsTree self.now }
    {
        self.nodes.as_slice()
    }
}
