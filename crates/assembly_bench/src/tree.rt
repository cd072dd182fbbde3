//! A made tree.

ghost use Rattle.std.specs.Prelude.{◌<◌, ◌*◌};

use crate::form::best_with;
use crate::size::Size;
use crate::vector::vectors;
use bank_tables::List;
use proof_tree::{Node, Tree};
use std::alloc::{AllocError, Global};

/// The number of vectors.
const VECTORS: u8 = 32;

/// A subtree that is still to be written: how many branches it has, and how many are above it.
#[derive(Clone, Copy)]
struct Subtree {
    branches: u16,
    depth: u16,
}

/// What is branched on in turn: items without a stimulus and stimuli, none of the best form.
fn branches(alloc: Global, size: &Size) -> Result<Vec<Node>, AllocError> {
    let mut branches = Vec::new(alloc);
    for i in 0..size.items {
        if i % 3 == 2 && !size.is_best(i) {
            branches.push(Node::BranchItem(i))?;
        }
        if i % 4 == 3 && i / 4 < size.stimuli as u16 && best_with(size, (i / 4 + 1) as u8) == 0 {
            branches.push(Node::BranchStimulus((i / 4 + 1) as u8))?;
        }
    }
    Ok(branches)
}

/// The two subtrees below a branch: a quarter of the branches is on the left.
fn below(subtree: Subtree) -> (Subtree, Subtree)
    requires { 0 < subtree.branches }
{
    let rest = subtree.branches - 1;
    let left = rest / 4;
    let depth = subtree.depth.saturating_add(1);
    (
        Subtree {
            branches: left,
            depth,
        },
        Subtree {
            branches: rest - left,
            depth,
        },
    )
}

/// Adds a branch, whose two subtrees are then to be written.
fn add_branch(
    nodes: &mut Vec<Node>,
    waiting: &mut Vec<Subtree>,
    branch: Node,
    subtree: Subtree,
) -> Result<(), AllocError>
    requires { 0 < subtree.branches }
{
    let (left, right) = below(subtree);
    nodes.push(branch)?;
    waiting.push(right)?;
    waiting.push(left)?;
    Ok(())
}

/// The nodes of a tree in preorder; each leaf is a Bound leaf, of the vectors in turn.
fn nodes(alloc: Global, order: &[Node], count: u16) -> Result<Vec<Node>, AllocError> {
    let mut nodes = Vec::new(alloc);
    let mut waiting = vec![in alloc;
        Subtree {
            branches: count / 2,
            depth: 0
        },
    ]?;
    for n in 0..count {
        let Some(subtree) = waiting.pop() else {
            return Ok(nodes);
        };
        match order.get(subtree.depth as usize) {
            Some(branch) if subtree.branches > 0 => {
                add_branch(&mut nodes, &mut waiting, *branch, subtree)?;
            }
            _ => nodes.push(Node::Bound((n % VECTORS as u16) as u8))?,
        }
    }
    Ok(nodes)
}

/// A tree with at most so many nodes, all sound, each leaf a Bound leaf; with `open` the last one
/// is Open. None where no such tree can be made.
pub fn tree(
    alloc: Global,
    size: &Size,
    count: u16,
    open: bool,
) -> Result<Option<Tree>, AllocError> {
    let order = branches(alloc, size)?;
    let mut nodes = nodes(alloc, &order, count)?;
    if open {
        let _ = nodes.pop();
        nodes.push(Node::Open)?;
    }
    let Some(vectors) = vectors(alloc, size, VECTORS)? else {
        return Ok(None);
    };
    Ok(Tree::of(vectors, List::of(nodes)))
}
