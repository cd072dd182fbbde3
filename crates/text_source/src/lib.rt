//! A whole text from a source, with a limit of its length: what the readers of bank, plan and
//! script texts begin with.
//!
//! Upward it promises the bytes of the source to its end, `TooLong` exactly by their number, and
//! `Source` only where the source counted a fault. It gives the bytes no meaning.
#![tactic(auto)]

ghost use Rattle.std.specs.Prelude.{◌≡◌, ℕ, ◌≤◌, ◌<◌, ◌^◌, List, [], IsTrue, IfOk, IfErr, length};
ghost use Rattle.exam_edge.specs.Faults.{Rose};
ghost use Rattle.exam_edge.specs.Lent.{IsLent};

use exam_edge::{Failed, Source};
use std::alloc::Global;

/// Why there is no text.
#[derive(Clone, Copy, Debug, PartialEq, Eq)]
pub enum TextFault {
    /// A call of the source failed.
    Source,
    /// The source has more bytes than the limit.
    TooLong,
    /// Out of memory.
    Memory,
}

/// The whole text of a source, where it has at most `limit` bytes. After a fault the source may
/// have lost bytes at its front.
pub fn text_of<S: Source>(alloc: Global, source: &mut S, limit: usize) -> Result<Vec<u8>, TextFault>
    requires { limit < 2 ^ 32 }
    // Promise: The text is the source's bytes to its end, at most `limit` of them
    // - by `text`, `within`, `whole`
    ensures text { IfOk result (λ text. IsTrue (S.tells source.old)
        → text.items ≡ S.left source.old) }
    ensures within { IfOk result (λ text. length text.items ≤ limit) }
    ensures whole { IfOk result (λ _. IsTrue (S.tells source.old) → S.left source.new ≡ []) }
    // Promise: `TooLong` comes exactly by the number of bytes. `Source` comes only where the source
    // counted a fault in this call; a fault is never taken for the end
    // - by `too_long`, `within`, `failed`
    ensures too_long { IfErr result (λ e. e ≡ TextFault.TooLong → IsTrue (S.tells source.old)
        → limit < length (S.left source.old)) }
    ensures failed { IfErr result (λ e. e ≡ TextFault.Source
        → Rose (S.faults source.old) (S.faults source.new)) }

    // A text and `TooLong` are answers only where there is something to read.
    // Promise: A text comes only from a source that can be read at all
    // - by `there`, `there_too_long`
    ensures there { IfOk result (λ _. IsTrue (S.tells source.old) → IsTrue (S.there source.old)) }
    ensures there_too_long { IfErr result (λ e. e ≡ TextFault.TooLong
        → IsTrue (S.tells source.old) → IsTrue (S.there source.old)) }
    ensures has { IsTrue (S.tells source.old)
        → (name : List ℕ) → S.has source.new name ≡ S.has source.old name }
    ensures beside { IsTrue (S.tells source.old)
        → (name : List ℕ) → S.beside source.new name ≡ S.beside source.old name }
    ensures frame { IsLent S.tells S.identity S.faults source.old source.new }
{
    let mut text = Vec::new(alloc);
    let mut piece = [0u8; 4096];
    'text: loop {
        let count = match source.read(&mut piece) {
            Ok(count) => count,
            Err(Failed) => return Err(TextFault::Source),
        };
        if count == 0 {
            return Ok(text);
        }
        if limit - text.len() < count {
            return Err(TextFault::TooLong);
        }
        if text.extend_from_slice(&piece[..count]).is_err() {
            return Err(TextFault::Memory);
        }
    }
}
