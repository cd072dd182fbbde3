//! The weights of the grid points, as one word.

ghost use Rattle.std.specs.Prelude.{◌≡◌, ◌==◌, IfOk, map, true};
ghost use Rattle.std.specs.Option.{unwrap_or};
ghost use Rattle.command_line.specs.Weights.{is_weight, weight_of, are_weights, weights_of};

use std::alloc::{AllocError, Global};

/// Whether the text writes a weight.
fn is_weight(text: &[u8]) -> bool
    ensures { result ≡ is_weight text.now }
{
    exam_text::number(text, 1000).is_some()
}

/// The weight that a text writes.
fn weight_of(text: &[u8]) -> u32
    ensures { result ≡ weight_of text.now }
{
    exam_text::number(text, 1000).unwrap_or(0) as u32
}

/// Whether a word is weights: numbers from 0 to 1,000, parted by commas.
pub(crate) fn are_weights(word: &str) -> bool
    ensures { result ≡ are_weights word.now }
{
    word.as_bytes()
        .split(|b| *b == b',')
        .all(|part| is_weight(part))
}

/// The weights that a word writes, in order.
pub fn weights_of(alloc: Global, word: &str) -> Result<Vec<u32>, AllocError>
    requires { are_weights word.now ≡ true }
    // Promise: The weights that a word writes are read in order, each from 0 to 1,000; the only
    // error is lack of memory
    // - by the clause (`are_weights`)
    ensures { IfOk result (λ weights. weights.items ≡ weights_of word.now) }
{
    word.as_bytes()
        .split(|b| *b == b',')
        .map(|part| weight_of(part))
        .collect(alloc)
}
