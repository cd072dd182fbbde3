//! The line of a migration.

ghost use Rattle.std.specs.Prelude.{◌≡◌, IfOk, string_bytes};
ghost use Rattle.exam_lines.specs.Texts.{migrated_text};

use exam_edge::Memory;
use std::alloc::Global;

/// How many records a migration wrote, and the length of the journal now, in bytes, with the line
/// feed: `migrated R records length L`. `Memory` is lack of memory.
#[tactic(auto, unfolding(crate::specs::Texts::migrated_text))]
pub fn migrated_line(alloc: Global, records: u64, length: u64) -> Result<String, Memory>
    // Promise: The line of a migration has how many records were written, and the length of the
    // journal then
    // - by the clause (`migrated_text`)
    ensures { IfOk result (λ line. string_bytes line ≡ migrated_text records length) }
{
    format!(in alloc; "migrated {records} records length {length}\n")
}
