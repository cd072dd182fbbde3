//! The line that names a drill.

ghost use Rattle.std.specs.Prelude.{◌≡◌, IfOk, string_bytes};
ghost use Rattle.exam_drill.specs.Texts.{drill_text};

use exam_edge::Memory;
use std::alloc::Global;

/// The line that names a drill, with its line feed: `drill NUMBER sessions S`. `Memory` is lack of
/// memory.
#[tactic(auto, unfolding(crate::specs::Texts::drill_text))]
pub fn drill_line(alloc: Global, number: u32, sessions: u32) -> Result<String, Memory>
    // Promise: The line that names a drill has its number and its number of sessions
    // - by the clause (`drill_text`)
    ensures { IfOk result (λ line. string_bytes line ≡ drill_text number sessions) }
{
    format!(in alloc; "drill {number} sessions {sessions}\n")
}
