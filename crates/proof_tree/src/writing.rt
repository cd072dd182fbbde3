//! Writing a proof tree.

ghost use Rattle.std.specs.Prelude.{◌≡◌, ◌≤◌, ◌++◌, length, All, OnOk, IfOk};
ghost use Rattle.std.specs.List.{flat_map};
ghost use Rattle.proof_tree.specs.Spelling.{pair_bytes, vector_bytes, node_bytes, bytes_of};

use crate::tree::Tree;
use crate::vector::Vector;
use certificate_model::Node;
use std::alloc::{AllocError, Global};

fn push_pairs(out: &mut Vec<u8>, pairs: &[(u16, u32)]) -> Result<(), AllocError>
    ensures { OnOk result (out.new.items ≡ out.old.items ++ flat_map pair_bytes pairs.now) }
{
    for pair in pairs {
        out.extend_from_slice(&pair.0.to_be_bytes())?;
        out.extend_from_slice(&pair.1.to_be_bytes())?;
    }
    Ok(())
}

fn push_vector(out: &mut Vec<u8>, vector: &Vector) -> Result<(), AllocError>
    requires { length vector.now ≤ 384 }
    ensures { OnOk result (out.new.items ≡ out.old.items ++ vector_bytes vector.now) }
{
    let pairs = vector.pairs();
    out.extend_from_slice(&(pairs.len() as u16).to_be_bytes())?;
    push_pairs(out, pairs)
}

fn push_vectors(out: &mut Vec<u8>, vectors: &[Vector]) -> Result<(), AllocError>
    requires { All (λ v. length v ≤ 384) vectors.now }
    ensures { OnOk result (out.new.items ≡ out.old.items ++ flat_map vector_bytes vectors.now) }
{
    for vector in vectors {
        push_vector(out, vector)?;
    }
    Ok(())
}

fn push_node(out: &mut Vec<u8>, node: &Node) -> Result<(), AllocError>
    ensures { OnOk result (out.new.items ≡ out.old.items ++ node_bytes node.now) }
{
    match node {
        Node::BranchItem(item) => {
            out.push(1)?;
            out.extend_from_slice(&item.to_be_bytes())
        }
        Node::BranchStimulus(stimulus) => out.extend_from_slice(&[2, *stimulus]),
        Node::Bound(vector) => out.extend_from_slice(&[3, *vector]),
        Node::Ray(vector) => out.extend_from_slice(&[4, *vector]),
        Node::Count(row) => out.extend_from_slice(&[5, *row]),
        Node::Whole => out.extend_from_slice(&[6]),
        Node::Open => out.extend_from_slice(&[7]),
        Node::Fix(vector, goal) => {
            out.extend_from_slice(&[8, *vector])?;
            out.extend_from_slice(&goal.to_be_bytes())
        }
    }
}

fn push_nodes(out: &mut Vec<u8>, nodes: &[Node]) -> Result<(), AllocError>
    ensures { OnOk result (out.new.items ≡ out.old.items ++ flat_map node_bytes nodes.now) }
{
    for node in nodes {
        push_node(out, node)?;
    }
    Ok(())
}

/// The one spelling of the tree.
#[tactic(auto, unfolding(crate::specs::Spelling::bytes_of))]
pub fn encode(alloc: Global, tree: &Tree) -> Result<Vec<u8>, AllocError>
    // Promise: The bytes written are the tree's one encoding, of a bounded length
    // - by `spelling`, `few`
    ensures spelling { IfOk result (λ bytes. bytes.items ≡ bytes_of tree.now) }
    ensures few { IfOk result (λ bytes. length bytes.items ≤ 98809) }
{
    let vectors = tree.vectors();
    let mut out = Vec::new(alloc);
    out.push(vectors.len() as u8)?;
    push_vectors(&mut out, vectors)?;
    push_nodes(&mut out, tree.nodes())?;
    Ok(out)
}
