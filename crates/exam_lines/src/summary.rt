//! The line of a summary.

ghost use Rattle.std.specs.Prelude.{◌≡◌, IfOk, string_bytes};
ghost use Rattle.exam_lines.specs.Texts.{sessions_part, forms_part, summary_text};

use exam_edge::Memory;
use history_model::Summary;
use std::alloc::Global;

/// What a summary has of entries and sessions.
#[tactic(auto, unfolding(crate::specs::Texts::sessions_part))]
fn sessions_part(alloc: Global, summary: &Summary) -> Result<String, Memory>
    ensures { IfOk result (λ part. string_bytes part ≡ sessions_part summary.now) }
{
    let entries = summary.entries;
    let sessions = summary.sessions;
    let finished = summary.finished;
    format!(in alloc; "entries {entries} sessions {sessions} finished {finished}")
}

/// What a summary has of assembled forms and their trees.
#[tactic(auto, unfolding(crate::specs::Texts::forms_part))]
fn forms_part(alloc: Global, summary: &Summary) -> Result<String, Memory>
    ensures { IfOk result (λ part. string_bytes part ≡ forms_part summary.now) }
{
    let proved = summary.proved;
    let unproved = summary.unproved;
    let aside = summary.aside;
    let nodes = summary.nodes;
    format!(in alloc; " proved {proved} unproved {unproved} aside {aside} nodes {nodes}")
}

/// The line of a summary, with its line feed:
/// `entries E sessions S finished F proved P unproved U aside A nodes N`. `Memory` is lack of
/// memory.
#[tactic(auto, unfolding(crate::specs::Texts::summary_text))]
pub fn summary_line(alloc: Global, summary: &Summary) -> Result<String, Memory>
    // Promise: The line of a summary has each of its seven numbers after its name, in the stated
    // order, and the line feed
    // - by the clause (`summary_text`)
    ensures { IfOk result (λ line. string_bytes line ≡ summary_text summary.now) }
{
    let mut line = sessions_part(alloc, summary)?;
    line.push_str(forms_part(alloc, summary)?.as_str())?;
    line.push_str("\n")?;
    Ok(line)
}
