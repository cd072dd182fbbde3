//! Proof trees in bytes: each fault at its place, and the worked trees.

use crate::equal::expect_equal;
use bank_tables::List;
use proof_tree::{Node, Tree, TreeFault, Vector, decode, encode};
use std::alloc::Global;
use std::process::Abort;

/// Bytes of no tree, each with its fault.
const NO_TREES: [(&[u8], TreeFault); 28] = [
    (&[], TreeFault::Short),
    (&[0], TreeFault::Unfinished(1)),
    (&[0, 9], TreeFault::BadKind(1)),
    (&[0, 0], TreeFault::BadKind(1)),
    (&[0, 1, 0], TreeFault::Short),
    (&[1], TreeFault::Short),
    (&[33], TreeFault::Short),
    // 385 pairs.
    (&[1, 1, 0x81], TreeFault::BadVector(1)),
    // No pair where one should begin, and half a pair.
    (&[1, 0, 1], TreeFault::Short),
    (&[1, 0, 1, 0, 1], TreeFault::Short),
    (&[1, 0, 1, 0, 1, 0, 0, 0], TreeFault::Short),
    // Side 386, also where the multiplier is missing.
    (&[1, 0, 1, 1, 0x82, 0, 0, 0, 1], TreeFault::BadVector(3)),
    (&[1, 0, 1, 1, 0x82], TreeFault::BadVector(3)),
    // Multipliers 0 and 16,777,217.
    (&[1, 0, 1, 0, 1, 0, 0, 0, 0], TreeFault::BadVector(5)),
    (&[1, 0, 1, 0, 1, 1, 0, 0, 1], TreeFault::BadVector(5)),
    // A side twice, and one below the side before.
    (
        &[1, 0, 2, 0, 1, 0, 0, 0, 1, 0, 1, 0, 0, 0, 1, 7],
        TreeFault::BadVector(9),
    ),
    (
        &[1, 0, 2, 0, 1, 0, 0, 0, 1, 0, 0, 0, 0, 0, 1, 7],
        TreeFault::BadVector(9),
    ),
    // A fix without its vector, one whose goal is cut off, and one with nothing below it.
    (&[0, 8], TreeFault::Short),
    (&[0, 8, 0, 0, 0, 0], TreeFault::Short),
    (&[0, 8, 0, 0, 0, 0, 1], TreeFault::Unfinished(7)),
    // Item 512, stimuli 0 and 65, row 193.
    (&[0, 1, 2, 0], TreeFault::BadKind(1)),
    (&[0, 2, 0], TreeFault::BadKind(1)),
    (&[0, 2, 65], TreeFault::BadKind(1)),
    (&[0, 5, 193], TreeFault::BadKind(1)),
    // After a branch: the second node.
    (&[0, 2, 1, 6, 5, 193], TreeFault::BadKind(4)),
    (&[0, 2, 1, 6], TreeFault::Unfinished(4)),
    (&[0, 2, 1, 6, 3], TreeFault::Short),
    // A ray without its vector.
    (&[1, 0, 1, 0, 1, 0, 0, 0, 1, 4], TreeFault::Short),
];

/// These bytes have this fault.
fn expect_fault<R: Abort>(rt: &R, alloc: Global, bytes: &[u8], fault: TreeFault) {
    expect_equal(rt, &decode(alloc, bytes).err(), &Some(fault));
}

#[test]
fn faults(rt: HostRuntime) {
    for (bytes, fault) in &NO_TREES {
        expect_fault(&rt, rt.alloc(), bytes, *fault);
    }
}

/// The bytes begin with a tree of so many vectors, which takes so many bytes.
fn expect_tree<R: Abort>(rt: &R, alloc: Global, bytes: &[u8], expected: usize, vectors: usize) {
    let (tree, used) = decode(alloc, bytes).expect(rt, "a tree");
    expect_equal(rt, &used, &expected);
    expect_equal(rt, &tree.vectors().len(), &vectors);
}

/// The tree is spelled with these bytes.
fn expect_spelling<R: Abort>(rt: &R, alloc: Global, tree: &Tree, bytes: &[u8]) {
    let found = encode(alloc, tree).expect(rt, "the bytes");
    expect_equal(rt, &found.as_slice(), &bytes);
}

/// Adds a vector of 384 pairs, with the multiplier 1 on each side.
fn push_vector<R: Abort>(rt: &R, bytes: &mut Vec<u8>) {
    push(rt, bytes, &[1, 0x80]);
    for side in 0..384u16 {
        let [high, low] = side.to_be_bytes();
        push(rt, bytes, &[high, low, 0, 0, 0, 1]);
    }
}

fn push<R: Abort>(rt: &R, bytes: &mut Vec<u8>, more: &[u8]) {
    bytes.extend_from_slice(more).expect(rt, "bytes");
}

/// 33 vectors: 32 of 384 pairs, which are all that a tree may have, and then these bytes.
fn many_pairs<R: Abort>(rt: &R, alloc: Global, last: &[u8]) -> Vec<u8> {
    let mut bytes = Vec::new(alloc);
    push(rt, &mut bytes, &[33]);
    for _ in 0..32 {
        push_vector(rt, &mut bytes);
    }
    push(rt, &mut bytes, last);
    bytes
}

#[test]
fn most_pairs(rt: HostRuntime) {
    let alloc = rt.alloc();
    // A vector of no pair, and one node.
    expect_tree(&rt, alloc, &many_pairs(&rt, alloc, &[0, 0, 7]), 73_796, 33);
    // The 12,289th pair.
    let fault = TreeFault::BadVector(73_793);
    expect_fault(&rt, alloc, &many_pairs(&rt, alloc, &[0, 1]), fault);
}

/// A byte, so many times two bytes, and then these bytes.
fn repeated<R: Abort>(
    rt: &R,
    alloc: Global,
    first: u8,
    (times, two): (u16, [u8; 2]),
    last: &[u8],
) -> Vec<u8> {
    let mut bytes = Vec::new(alloc);
    push(rt, &mut bytes, &[first]);
    for _ in 0..times {
        push(rt, &mut bytes, &two);
    }
    push(rt, &mut bytes, last);
    bytes
}

#[test]
fn most_vectors(rt: HostRuntime) {
    let alloc = rt.alloc();
    let bytes = repeated(&rt, alloc, 255, (255, [0, 0]), &[7]);
    expect_tree(&rt, alloc, &bytes, 512, 255);
}

/// A tree of 4,095 branches and then these bytes has this fault.
fn expect_fault_of_branches<R: Abort>(rt: &R, alloc: Global, last: &[u8], fault: TreeFault) {
    let bytes = repeated(rt, alloc, 0, (4095, [2, 1]), last);
    expect_fault(rt, alloc, &bytes, fault);
}

#[test]
fn most_nodes(rt: HostRuntime) {
    expect_fault_of_branches(&rt, rt.alloc(), &[], TreeFault::Unfinished(8191));
    expect_fault_of_branches(&rt, rt.alloc(), &[7], TreeFault::TooLong(8191));
}

/// One vector of one pair, side 1 with multiplier 1, and one node, a ray of it.
const RAY: [u8; 11] = [1, 0, 1, 0, 1, 0, 0, 0, 1, 4, 0];

/// The tree is that of `RAY`.
fn expect_ray<R: Abort>(rt: &R, tree: &Tree) {
    let [vector] = tree.vectors() else {
        panic!(rt; "another number of vectors");
    };
    expect_equal(rt, &vector.pairs(), &[(1, 1)].as_slice());
    expect_equal(rt, &tree.nodes(), &[Node::Ray(0)].as_slice());
}

#[test]
fn eleven_bytes(rt: HostRuntime) {
    let (tree, used) = decode(rt.alloc(), &RAY).expect(&rt, "a tree");
    expect_equal(&rt, &used, &11);
    expect_ray(&rt, &tree);
    expect_spelling(&rt, rt.alloc(), &tree, &RAY);
}

/// The pairs of the made vector: the lowest and the highest side and multiplier.
const PAIRS: [(u16, u32); 2] = [(0, 1), (385, 16_777_216)];

/// The nodes of the made tree: one of each kind but two.
const NODES: [Node; 5] = [
    Node::BranchItem(511),
    Node::BranchStimulus(64),
    Node::Bound(255),
    Node::Count(192),
    Node::Open,
];

/// The vector of these pairs; None where they are no vector.
fn vector_of<R: Abort>(rt: &R, alloc: Global, pairs: &[(u16, u32)]) -> Option<Vector> {
    Vector::of(List::of(pairs.to_vec(alloc).expect(rt, "pairs")))
}

/// The tree of these vectors and nodes; None where they are no tree.
fn tree_of<R: Abort>(rt: &R, alloc: Global, vectors: Vec<Vector>, nodes: &[Node]) -> Option<Tree> {
    let nodes = nodes.to_vec(alloc).expect(rt, "nodes");
    Tree::of(List::of(vectors), List::of(nodes))
}

fn made<R: Abort>(rt: &R, alloc: Global) -> Tree {
    let vector = vector_of(rt, alloc, &PAIRS).expect(rt, "a vector");
    let vectors = vec![in alloc; vector].expect(rt, "vectors");
    tree_of(rt, alloc, vectors, &NODES).expect(rt, "a tree")
}

/// The bytes of the made tree.
const MADE: [u8; 25] = [
    1, 0, 2, 0, 0, 0, 0, 0, 1, 1, 0x81, 1, 0, 0, 0, 1, 1, 0xff, 2, 64, 3, 255, 5, 192, 7,
];

/// The same and two bytes more, which aren't read.
const MADE_AND_MORE: [u8; 27] = [
    1, 0, 2, 0, 0, 0, 0, 0, 1, 1, 0x81, 1, 0, 0, 0, 1, 1, 0xff, 2, 64, 3, 255, 5, 192, 7, 9, 9,
];

#[test]
fn made_tree(rt: HostRuntime) {
    expect_spelling(&rt, rt.alloc(), &made(&rt, rt.alloc()), &MADE);
}

/// `MADE_AND_MORE` begins with the made tree. The tree takes 25 bytes.
#[test]
fn made_tree_is_read_again(rt: HostRuntime) {
    let (again, used) = decode(rt.alloc(), &MADE_AND_MORE).expect(&rt, "a tree");
    expect_equal(&rt, &used, &25);
    expect_equal(&rt, &again.nodes(), &NODES.as_slice());
}

/// These nodes are no tree.
fn expect_no_tree<R: Abort>(rt: &R, alloc: Global, nodes: &[Node]) {
    assert!(rt; tree_of(rt, alloc, Vec::new(alloc), nodes).is_none());
}

#[test]
fn no_tree(rt: HostRuntime) {
    let alloc = rt.alloc();
    assert!(rt; vector_of(&rt, alloc, &[(3, 1), (3, 1)]).is_none());
    expect_no_tree(&rt, alloc, &[Node::Open, Node::Open]);
    expect_no_tree(&rt, alloc, &[Node::BranchItem(0), Node::Open]);
}
