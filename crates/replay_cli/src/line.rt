//! The line of a request.

ghost use Rattle.std.specs.Prelude.{◌≡◌, IfOk};
ghost use Rattle.history_model.specs.declared.request.Request.TheVariants.{BeginWithout};
ghost use Rattle.replay_cli.specs.Scripts.{request_line};

use bank_tables::ItemSet;
use exam_edge::Memory;
use history_model::Request;
use spec_reader::push_set;
use std::alloc::Global;

/// The line of a beginning with a list.
#[tactic(auto, using(crate::proofs::RequestTexts::without_text))]
fn without_line(alloc: Global, booking: u64, items: &ItemSet) -> Result<Vec<u8>, Memory>
    ensures { IfOk result (λ line. line.items ≡ request_line (BeginWithout booking items.now)) }
{
    let mut line = format!(in alloc; "begin {booking} without")?.into_bytes();
    push_set(alloc, &mut line, items)?;
    Ok(line)
}

/// The line of a request in a script, without its line feed.
#[tactic(auto, using(crate::proofs::RequestTexts::request_texts))]
pub fn request_line(alloc: Global, request: &Request) -> Result<Vec<u8>, Memory>
    // Promise: The line that is printed of a request is the stated one
    ensures { IfOk result (λ line. line.items ≡ request_line request.now) }
{
    let line = match request {
        Request::Begin(booking) => format!(in alloc; "begin {booking}")?,
        Request::BeginWithout { booking, items } => return without_line(alloc, *booking, items),
        Request::Answer {
            session,
            step,
            response,
            booking: None,
        } => format!(in alloc; "answer {session} {step} {response}")?,
        Request::Answer {
            session,
            step,
            response,
            booking: Some(booking),
        } => format!(in alloc; "answer {session} {step} {response} for {booking}")?,
        Request::Close {
            session,
            booking: None,
        } => format!(in alloc; "close {session}")?,
        Request::Close {
            session,
            booking: Some(booking),
        } => format!(in alloc; "close {session} for {booking}")?,
        Request::Look(session) => format!(in alloc; "look {session}")?,
        Request::Exposure => String::from_str(alloc, "exposure")?,
    };
    Ok(line.into_bytes())
}
