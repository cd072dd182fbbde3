//! The lines of replies.

ghost use Rattle.std.specs.Fmt.{decimal};
ghost use Rattle.std.specs.Prelude.{◌≡◌, ◌++◌, ◌<◌, length, IfOk, OnOk, string_bytes};
ghost use Rattle.replay_cli.specs.Replies.{mark_word, place_line, counts_line, counts_lines, exposure_lines, line_with, line_without, refusal_line, line_of};

use exam_edge::Memory;
use history_model::{Counts, Exposure, Place, Refusal, Reply, refusal_word};
use std::alloc::Global;

fn mark_word(proved: bool) -> &'static str
    ensures { result.now ≡ mark_word proved }
{
    if proved { "proved" } else { "unproved" }
}

#[tactic(auto, unfolding(crate::specs::Replies::place_line))]
fn place_line(alloc: Global, session: u32, place: Place) -> Result<String, Memory>
    ensures { IfOk result (λ line. string_bytes line ≡ place_line session place) }
{
    match place {
        Place::Waiting { step, item, proved } => {
            let mark = mark_word(proved);
            format!(in alloc; "session {session} step {step} item {item} {mark}\n")
        }
        Place::Pending(step) => format!(in alloc; "session {session} pending {step}\n"),
        Place::Complete => format!(in alloc; "session {session} complete\n"),
        Place::Closed => format!(in alloc; "session {session} closed\n"),
    }
}

#[tactic(auto, unfolding(crate::specs::Replies::counts_line))]
fn counts_line(alloc: Global, item: usize, counts: Counts) -> Result<String, Memory>
    ensures { IfOk result (λ line. string_bytes line ≡ counts_line item counts) }
{
    let Counts { alpha, eps } = counts;
    format!(in alloc; "item {item} shown {alpha} eligible {eps}\n")
}

fn push_counts_lines(alloc: Global, out: &mut String, rows: &[Counts]) -> Result<(), Memory>
    ensures { OnOk result (string_bytes out.new
        ≡ string_bytes out.old ++ counts_lines (length rows.now) rows.now) }
{
    for i in 0..rows.len() {
        let line = counts_line(alloc, i, rows[i])?;
        out.push_str(line.as_str())?;
    }
    Ok(())
}

#[tactic(auto, unfolding(crate::specs::Replies::exposure_lines))]
fn exposure_lines(alloc: Global, exposure: &Exposure) -> Result<String, Memory>
    ensures { IfOk result (λ lines. string_bytes lines ≡ exposure_lines exposure.now) }
{
    let finished = exposure.finished;
    let mut out = format!(in alloc; "exposure finished {finished}\n")?;
    push_counts_lines(alloc, &mut out, exposure.rows.as_slice())?;
    Ok(out)
}

fn line_with_number(alloc: Global, refusal: Refusal, value: u32) -> Result<String, Memory>
    ensures { IfOk result (λ line. string_bytes line ≡ line_with refusal (decimal value)) }
{
    let word = refusal_word(refusal);
    format!(in alloc; "refused {word} {value}\n")
}

fn line_with_word(alloc: Global, refusal: Refusal, value: &str) -> Result<String, Memory>
    ensures { IfOk result (λ line. string_bytes line ≡ line_with refusal value.now) }
{
    let word = refusal_word(refusal);
    format!(in alloc; "refused {word} {value}\n")
}

fn line_without(alloc: Global, refusal: Refusal) -> Result<String, Memory>
    ensures { IfOk result (λ line. string_bytes line ≡ line_without refusal) }
{
    let word = refusal_word(refusal);
    format!(in alloc; "refused {word}\n")
}

#[tactic(auto, unfolding(crate::specs::Replies::refusal_line))]
fn refusal_line(alloc: Global, refusal: Refusal) -> Result<String, Memory>
    ensures { IfOk result (λ line. string_bytes line ≡ refusal_line refusal) }
{
    match refusal {
        Refusal::NoSession(count) => line_with_number(alloc, refusal, count),
        Refusal::WrongStep(step) => line_with_number(alloc, refusal, u32::from(step)),
        Refusal::Other(response) => line_with_number(alloc, refusal, u32::from(response)),
        Refusal::BadResponse(categories) => line_with_number(alloc, refusal, u32::from(categories)),
        Refusal::IsClosed(Place::Complete) => line_with_word(alloc, refusal, "complete"),
        Refusal::IsClosed(Place::Closed) => line_with_word(alloc, refusal, "closed"),
        Refusal::OtherList(session) => line_with_number(alloc, refusal, session),
        Refusal::NoItem(count) => line_with_number(alloc, refusal, u32::from(count)),
        Refusal::NoForm | Refusal::NoneFound => line_without(alloc, refusal),
        Refusal::OtherBooking => line_without(alloc, refusal),
        _ => Ok(String::new(alloc)),
    }
}

/// The text of a reply: one line, or for an exposure a first line and then one for each item. Each
/// line has its line feed. The text is empty for `Stale`, for a refusal that ends a replay
/// (`SessionsFull`, `JournalFull`, `Disk`, `Memory`), and for an `IsClosed` whose place is neither
/// `Complete` nor `Closed`.
#[tactic(auto, unfolding(crate::specs::Replies::line_of))]
pub fn reply_line(alloc: Global, reply: &Reply) -> Result<Vec<u8>, Memory>
    // Promise: The text of a reply is the stated one: the place of a session, the exposure counts
    // with a line for each item, or why the request was refused
    // - by the clause (`line_of`)
    ensures { IfOk result (λ line. line.items ≡ line_of reply.now) }
{
    let line = match reply {
        Reply::At { session, place, .. } => place_line(alloc, *session, *place)?,
        Reply::Exposure(exposure) => exposure_lines(alloc, exposure)?,
        Reply::Refused(refusal) => refusal_line(alloc, *refusal)?,
    };
    Ok(line.into_bytes())
}
