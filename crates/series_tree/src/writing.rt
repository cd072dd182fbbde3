//! Writing a series tree.

ghost use Rattle.std.specs.Prelude.{◌≡◌, ◌≤◌, ◌++◌, ◌∷◌, length, All, OnOk, IfOk};
ghost use Rattle.std.specs.Int.{w16, to_be_bytes};
ghost use Rattle.std.specs.List.{flat_map};
ghost use Rattle.proof_tree.specs.Spelling.{pair_bytes, vector_bytes};
ghost use Rattle.series_tree.specs.Spelling.{node_bytes, bytes_of};

use crate::tree::SeriesTree;
use crate::vector::SeriesVector;
use series_model::SeriesNode;
use std::alloc::{AllocError, Global};

fn push_pairs(out: &mut Vec<u8>, pairs: &[(u16, u32)]) -> Result<(), AllocError>
    ensures { OnOk result (out.new.items ≡ out.old.items ++ flat_map pair_bytes pairs.now) }
{
    for pair in pairs {
        out.extend_from_slice(&pair.0.to_be_bytes())?;
        out.extend_from_slice(&pair.1.to_be_bytes())?;
    }
    Ok(())
}

fn push_vector(out: &mut Vec<u8>, vector: &SeriesVector) -> Result<(), AllocError>
    requires { length vector.now ≤ 2304 }
    ensures { OnOk result (out.new.items ≡ out.old.items ++ vector_bytes vector.now) }
{
    let pairs = vector.pairs();
    out.extend_from_slice(&(pairs.len() as u16).to_be_bytes())?;
    push_pairs(out, pairs)
}

fn push_vectors(out: &mut Vec<u8>, vectors: &[SeriesVector]) -> Result<(), AllocError>
    requires { All (λ v. length v ≤ 2304) vectors.now }
    ensures { OnOk result (out.new.items ≡ out.old.items ++ flat_map vector_bytes vectors.now) }
{
    for vector in vectors {
        push_vector(out, vector)?;
    }
    Ok(())
}

/// The kind of a node, a form and an item.
fn push_form_item(out: &mut Vec<u8>, kind: u8, form: u8, item: u16) -> Result<(), AllocError>
    ensures { OnOk result
        (out.new.items ≡ out.old.items ++ kind ∷ form ∷ to_be_bytes w16 item) }
{
    out.extend_from_slice(&[kind, form])?;
    out.extend_from_slice(&item.to_be_bytes())
}

fn push_node(out: &mut Vec<u8>, node: &SeriesNode) -> Result<(), AllocError>
    ensures { OnOk result (out.new.items ≡ out.old.items ++ node_bytes node.now) }
{
    match node {
        SeriesNode::Branch { form, item } => push_form_item(out, 1, *form, *item),
        SeriesNode::Bound(vector) => out.extend_from_slice(&[2, *vector]),
        SeriesNode::Ray(vector) => out.extend_from_slice(&[3, *vector]),
        SeriesNode::Count { form, row } => out.extend_from_slice(&[4, *form, *row]),
        SeriesNode::Whole => out.extend_from_slice(&[5]),
        SeriesNode::Open => out.extend_from_slice(&[6]),
        SeriesNode::Use { item } => {
            out.push(7)?;
            out.extend_from_slice(&item.to_be_bytes())
        }
        SeriesNode::Twin { form, item } => push_form_item(out, 8, *form, *item),
    }
}

fn push_nodes(out: &mut Vec<u8>, nodes: &[SeriesNode]) -> Result<(), AllocError>
    ensures { OnOk result (out.new.items ≡ out.old.items ++ flat_map node_bytes nodes.now) }
{
    for node in nodes {
        push_node(out, node)?;
    }
    Ok(())
}

/// The one spelling of the tree; at most 90,619 bytes.
#[tactic(auto, unfolding(crate::specs::Spelling::bytes_of))]
pub fn encode_series(alloc: Global, tree: &SeriesTree) -> Result<Vec<u8>, AllocError>
    // Promise: The bytes written are the tree's one encoding, of a bounded length
    // - by `spelling`, `few`
    ensures spelling { IfOk result (λ bytes. bytes.items ≡ bytes_of tree.now) }
    ensures few { IfOk result (λ bytes. length bytes.items ≤ 90619) }
{
    let vectors = tree.vectors();
    let mut out = Vec::new(alloc);
    out.push(vectors.len() as u8)?;
    push_vectors(&mut out, vectors)?;
    push_nodes(&mut out, tree.nodes())?;
    Ok(out)
}
