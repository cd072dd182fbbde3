//! Reading a proof tree.

ghost use Rattle.std.specs.Prelude.{◌≡◌, ◌+◌, ◌≤◌, ◌<◌, length, IfOk, OnOk, Ok};
ghost use Rattle.std.specs.Int.{w16, w32};
ghost use Rattle.exam_text.specs.First.{Gives};
ghost use Rattle.certificate_model.specs.ProofTrees.{ProofTree};
ghost use Rattle.proof_tree.specs.Shape.{IsTree};
ghost use Rattle.proof_tree.specs.Spelling.{bytes_of, BeginsWith};
ghost use Rattle.proof_tree.specs.declared.fault.TreeFault.TheVariants.{Memory};
ghost use Rattle.proof_tree.specs.Reading.{number_at, byte_at, pair_at, pairs_at, multipliers_at, vectors_at, item_branch_at, stimulus_branch_at, bound_at, ray_at, count_at, fix_at, node_of_kind, node_at, nodes_at, read};

use crate::fault::TreeFault;
use crate::tree::{Tree, children};
use crate::vector::Vector;
use bank_tables::List;
use bank_tables::limits::{MULTIPLIER, PAIRS, VECTOR_PAIRS};
use certificate_model::Node;
use std::alloc::Global;

fn byte_of(bytes: &[u8], at: usize) -> Result<u8, TreeFault>
    ensures byte { result ≡ byte_at bytes.now at }
    ensures there { OnOk result (at + 1 ≤ length bytes.now) }
{
    if at < bytes.len() {
        Ok(bytes[at])
    } else {
        Err(TreeFault::Short)
    }
}

fn u16_of(bytes: &[u8], at: usize) -> Result<u16, TreeFault>
    requires { at ≤ length bytes.now }
    ensures number { result ≡ number_at w16 bytes.now at }
    ensures there { OnOk result (at + 2 ≤ length bytes.now) }
{
    let (_, rest) = bytes.split_at(at);
    if rest.len() < 2 {
        return Err(TreeFault::Short);
    }
    let (front, _) = rest.split_at(2);
    Ok(u16::from_be_bytes([front[0], front[1]]))
}

fn u32_of(bytes: &[u8], at: usize) -> Result<u32, TreeFault>
    requires { at ≤ length bytes.now }
    ensures number { result ≡ number_at w32 bytes.now at }
    ensures there { OnOk result (at + 4 ≤ length bytes.now) }
{
    let (_, rest) = bytes.split_at(at);
    if rest.len() < 4 {
        return Err(TreeFault::Short);
    }
    let (front, _) = rest.split_at(4);
    Ok(u32::from_be_bytes([front[0], front[1], front[2], front[3]]))
}

#[tactic(auto, unfolding(crate::specs::Reading::pair_at))]
fn pair_of(bytes: &[u8], at: usize, low: u16) -> Result<(u16, u32), TreeFault>
    requires { at ≤ length bytes.now }
    ensures pair { result ≡ pair_at bytes.now at low }
    ensures low_side { IfOk result (λ pair. pair.0 < 386) }
    ensures there { OnOk result (at + 6 ≤ length bytes.now) }
{
    let side = u16_of(bytes, at)?;
    if side < low || 386 <= side {
        return Err(TreeFault::BadVector(at as u64));
    }
    let multiplier = u32_of(bytes, at + 2)?;
    if multiplier == 0 || MULTIPLIER < multiplier {
        return Err(TreeFault::BadVector((at + 2) as u64));
    }
    Ok((side, multiplier))
}

#[tactic(auto, unfolding(crate::specs::Reading::item_branch_at))]
fn item_branch(bytes: &[u8], at: usize) -> Result<(Node, usize), TreeFault>
    requires { at < length bytes.now }
    ensures node { result ≡ item_branch_at bytes.now at }
    ensures there { IfOk result (λ node. node.1 ≤ length bytes.now) }
{
    let item = u16_of(bytes, at + 1)?;
    if 512 <= item {
        return Err(TreeFault::BadKind(at as u64));
    }
    Ok((Node::BranchItem(item), at + 3))
}

#[tactic(auto, unfolding(crate::specs::Reading::stimulus_branch_at))]
fn stimulus_branch(bytes: &[u8], at: usize) -> Result<(Node, usize), TreeFault>
    requires { at < length bytes.now }
    ensures node { result ≡ stimulus_branch_at bytes.now at }
    ensures there { IfOk result (λ node. node.1 ≤ length bytes.now) }
{
    let stimulus = byte_of(bytes, at + 1)?;
    if stimulus == 0 || 64 < stimulus {
        return Err(TreeFault::BadKind(at as u64));
    }
    Ok((Node::BranchStimulus(stimulus), at + 2))
}

#[tactic(auto, unfolding(crate::specs::Reading::bound_at))]
fn bound(bytes: &[u8], at: usize) -> Result<(Node, usize), TreeFault>
    requires { at < length bytes.now }
    ensures node { result ≡ bound_at bytes.now at }
    ensures there { IfOk result (λ node. node.1 ≤ length bytes.now) }
{
    let vector = byte_of(bytes, at + 1)?;
    Ok((Node::Bound(vector), at + 2))
}

#[tactic(auto, unfolding(crate::specs::Reading::ray_at))]
fn ray(bytes: &[u8], at: usize) -> Result<(Node, usize), TreeFault>
    requires { at < length bytes.now }
    ensures node { result ≡ ray_at bytes.now at }
    ensures there { IfOk result (λ node. node.1 ≤ length bytes.now) }
{
    let vector = byte_of(bytes, at + 1)?;
    Ok((Node::Ray(vector), at + 2))
}

#[tactic(auto, unfolding(crate::specs::Reading::count_at))]
fn count(bytes: &[u8], at: usize) -> Result<(Node, usize), TreeFault>
    requires { at < length bytes.now }
    ensures node { result ≡ count_at bytes.now at }
    ensures there { IfOk result (λ node. node.1 ≤ length bytes.now) }
{
    let row = byte_of(bytes, at + 1)?;
    if 192 < row {
        return Err(TreeFault::BadKind(at as u64));
    }
    Ok((Node::Count(row), at + 2))
}

#[tactic(auto, unfolding(crate::specs::Reading::fix_at))]
fn fix(bytes: &[u8], at: usize) -> Result<(Node, usize), TreeFault>
    requires { at < length bytes.now }
    ensures node { result ≡ fix_at bytes.now at }
    ensures there { IfOk result (λ node. node.1 ≤ length bytes.now) }
{
    let vector = byte_of(bytes, at + 1)?;
    let goal = u32_of(bytes, at + 2)?;
    Ok((Node::Fix(vector, goal), at + 6))
}

#[tactic(auto, unfolding(crate::specs::Reading::node_of_kind))]
fn node_of_kind(kind: u8, bytes: &[u8], at: usize) -> Result<(Node, usize), TreeFault>
    requires { at < length bytes.now }
    ensures node { result ≡ node_of_kind kind bytes.now at }
    ensures there { IfOk result (λ node. node.1 ≤ length bytes.now) }
{
    match kind {
        1 => item_branch(bytes, at),
        2 => stimulus_branch(bytes, at),
        3 => bound(bytes, at),
        4 => ray(bytes, at),
        5 => count(bytes, at),
        6 => Ok((Node::Whole, at + 1)),
        7 => Ok((Node::Open, at + 1)),
        8 => fix(bytes, at),
        _ => Err(TreeFault::BadKind(at as u64)),
    }
}

#[tactic(auto, unfolding(crate::specs::Reading::node_at))]
fn node_of(bytes: &[u8], at: usize) -> Result<(Node, usize), TreeFault>
    requires { at < length bytes.now }
    ensures node { result ≡ node_at bytes.now at }
    ensures there { IfOk result (λ node. node.1 ≤ length bytes.now) }
{
    node_of_kind(bytes[at], bytes, at)
}

/// So many pairs, and the place after them.
fn pairs_of(
    alloc: Global,
    count: u16,
    bytes: &[u8],
    at: usize,
) -> Result<(Vec<(u16, u32)>, usize), TreeFault>
    requires { at ≤ length bytes.now }
    ensures pairs { Gives Memory (λ x. (x.0.items, x.1)) result (pairs_at count bytes.now at 0) }
    ensures there { IfOk result (λ x. x.1 ≤ length bytes.now) }
{
    let mut pairs = Vec::new(alloc);
    let mut low = 0;
    let mut at = at;
    for _ in 0..count {
        let pair = pair_of(bytes, at, low)?;
        pairs.push(pair)?;
        low = pair.0 + 1;
        at += 6;
    }
    Ok((pairs, at))
}

/// A vector of at most `room` pairs, and the place after it.
#[tactic(auto, unfolding(crate::specs::Reading::multipliers_at))]
fn vector_of(
    alloc: Global,
    room: u16,
    bytes: &[u8],
    at: usize,
) -> Result<(Vector, usize), TreeFault>
    requires { at ≤ length bytes.now }
    ensures vector { Gives Memory (λ x. x) result (multipliers_at room bytes.now at) }
    ensures there { IfOk result (λ x. x.1 ≤ length bytes.now) }
    ensures few { IfOk result (λ x. length x.0 ≤ room) }
{
    let count = u16_of(bytes, at)?;
    if VECTOR_PAIRS < count || room < count {
        return Err(TreeFault::BadVector(at as u64));
    }
    let (pairs, next) = pairs_of(alloc, count, bytes, at + 2)?;
    Ok((Vector::new(List::of(pairs)), next))
}

/// So many vectors, and the place after them.
fn vectors_of(
    alloc: Global,
    count: u8,
    bytes: &[u8],
    at: usize,
) -> Result<(Vec<Vector>, usize), TreeFault>
    requires { at ≤ length bytes.now }
    ensures vectors { Gives Memory (λ x. (x.0.items, x.1)) result
        (vectors_at 12288 count bytes.now at) }
    ensures there { IfOk result (λ x. x.1 ≤ length bytes.now) }
{
    let mut vectors = Vec::new(alloc);
    let mut room = PAIRS;
    let mut at = at;
    for _ in 0..count {
        let (vector, next) = vector_of(alloc, room, bytes, at)?;
        room -= vector.pairs().len() as u16;
        vectors.push(vector)?;
        at = next;
    }
    Ok((vectors, at))
}

/// The nodes of one tree, and the place after them.
fn nodes_of(alloc: Global, bytes: &[u8], at: usize) -> Result<(Vec<Node>, usize), TreeFault>
    requires { at ≤ length bytes.now }
    ensures { Gives Memory (λ x. (x.0.items, x.1)) result (nodes_at 4095 1 bytes.now at) }
{
    let mut nodes = Vec::new(alloc);
    let mut room: usize = 4095;
    let mut waiting = 1;
    let mut at = at;
    while waiting > 0 {
        if at == bytes.len() {
            return Err(TreeFault::Unfinished(at as u64));
        }
        if room == 0 {
            return Err(TreeFault::TooLong(at as u64));
        }
        let (node, next) = node_of(bytes, at)?;
        waiting = waiting - 1 + children(&node);
        nodes.push(node)?;
        room -= 1;
        at = next;
    }
    Ok((nodes, at))
}

#[tactic(auto, unfolding(crate::specs::Reading::read))]
fn tree_of(alloc: Global, bytes: &[u8]) -> Result<(Tree, usize), TreeFault>
    ensures { Gives Memory (λ x. x) result (read bytes.now) }
{
    let count = byte_of(bytes, 0)?;
    let (vectors, next) = vectors_of(alloc, count, bytes, 1)?;
    let (nodes, next) = nodes_of(alloc, bytes, next)?;
    Ok((Tree::new(List::of(vectors), List::of(nodes)), next))
}

/// The tree that the bytes begin with, and how many bytes it takes; what follows isn't looked at.
pub fn decode(alloc: Global, bytes: &[u8]) -> Result<(Tree, usize), TreeFault>
    // What is read is the one spelling of the tree.
    // Promise: If `decode` succeeds, the input begins with the tree's one encoding, and the count
    // is its length
    ensures found { IfOk result (λ x. IsTree x.0 × BeginsWith bytes.now x.0
        × (x.1 ≡ length (bytes_of x.0))) }
    // What is spelled so is read, whatever follows, unless memory runs out.
    // Promise: What is encoded is read, whatever follows, unless memory runs out
    ensures only { (T : ProofTree) → IsTree T → BeginsWith bytes.now T
        → Gives Memory (λ x. x) result (Ok (T, length (bytes_of T))) }
    // Which fault it is, and where.
    // Promise: Each fault comes exactly where reading from left to right meets it, with the place
    // of the field or node
    ensures exact { Gives Memory (λ x. x) result (read bytes.now) }
{
    tree_of(alloc, bytes)
}
