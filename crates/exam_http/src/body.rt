//! The bodies of responses, as JSON values.
ghost use Rattle.std.specs.Prelude.{◌≡◌, IfOk, map};
ghost use Rattle.serde_json.specs.Data.{string};
ghost use Rattle.serde_json.specs.View.{view};
ghost use Rattle.history_model.specs.declared.place.Place.TheVariants as place;
ghost use Rattle.exam_http.specs.Replies.{whole_number, error_body, error_body_with, state_body, place_body, counts_body, exposure_body, health_body, end_word, refusal_body, reply_body};

use exam_handler::Health;
use history_model::{Counts, Exposure, Place, Refusal, Reply, refusal_word};
use serde_json::{Value, json};
use std::alloc::{AllocError, Global};

/// The body of an error of this name.
pub(crate) fn error_value(alloc: Global, name: &str) -> Result<Value, AllocError>
    ensures { IfOk result (λ v. view v ≡ error_body name.now) }
{
    json!(in alloc; {"error": name})
}

fn error_with_number(alloc: Global, name: &str, value: u64) -> Result<Value, AllocError>
    ensures { IfOk result (λ v. view v ≡ error_body_with name.now (whole_number value)) }
{
    json!(in alloc; {"error": name, "value": value})
}

fn error_with_word(alloc: Global, name: &str, value: &str) -> Result<Value, AllocError>
    ensures { IfOk result (λ v. view v ≡ error_body_with name.now (string value.now)) }
{
    json!(in alloc; {"error": name, "value": value})
}

fn state_value(alloc: Global, session: u64, word: &str) -> Result<Value, AllocError>
    ensures { IfOk result (λ v. view v ≡ state_body session word.now) }
{
    json!(in alloc; {"session": session, "state": word})
}

fn pending_value(alloc: Global, session: u64, step: u64) -> Result<Value, AllocError>
    ensures { IfOk result (λ v. view v ≡ place_body session (place.Pending step)) }
{
    json!(in alloc; {"session": session, "state": "pending", "step": step})
}

fn waiting_value(
    alloc: Global,
    session: u64,
    step: u64,
    item: u64,
    proved: bool,
) -> Result<Value, AllocError>
    ensures { IfOk result (λ v. view v ≡ place_body session (place.Waiting step item proved)) }
{
    json!(in alloc; {
        "item": item,
        "proved": proved,
        "session": session,
        "state": "waiting",
        "step": step
    })
}

fn place_value(alloc: Global, session: u64, place: Place) -> Result<Value, AllocError>
    ensures { IfOk result (λ v. view v ≡ place_body session place) }
{
    match place {
        Place::Pending(step) => pending_value(alloc, session, u64::from(step)),
        Place::Waiting { step, item, proved } => {
            waiting_value(alloc, session, u64::from(step), u64::from(item), proved)
        }
        Place::Complete => state_value(alloc, session, "complete"),
        Place::Closed => state_value(alloc, session, "closed"),
    }
}

fn counts_value(alloc: Global, counts: Counts) -> Result<Value, AllocError>
    ensures { IfOk result (λ v. view v ≡ counts_body counts) }
{
    json!(in alloc; [counts.alpha, counts.eps])
}

fn rows_of(alloc: Global, counts: &[Counts]) -> Result<Vec<Value>, AllocError>
    ensures { IfOk result (λ v. map view v.items ≡ map counts_body counts.now) }
{
    let mut rows = Vec::new(alloc);
    for row in counts {
        rows.push(counts_value(alloc, *row)?)?;
    }
    Ok(rows)
}

fn exposure_value(alloc: Global, exposure: &Exposure) -> Result<Value, AllocError>
    ensures { IfOk result (λ v. view v ≡ exposure_body exposure.now) }
{
    let rows = Value::Array(rows_of(alloc, exposure.rows.as_slice())?);
    json!(in alloc; {"finished": exposure.finished, "rows": rows})
}

/// The body of an examination's health, with so many busy workers.
pub(crate) fn health_value(alloc: Global, busy: u32, health: &Health) -> Result<Value, AllocError>
    ensures { IfOk result (λ v. view v ≡ health_body busy health.now) }
{
    json!(in alloc; {
        "busy": busy,
        "entries": health.entries,
        "open": health.open,
        "room": health.room
    })
}

fn end_word(place: Place) -> &'static str
    ensures { result.now ≡ end_word place }
{
    match place {
        Place::Complete => "complete",
        _ => "closed",
    }
}

fn refusal_value(alloc: Global, refusal: Refusal) -> Result<Value, AllocError>
    ensures { IfOk result (λ v. view v ≡ refusal_body refusal) }
{
    let word = refusal_word(refusal);
    match refusal {
        Refusal::NoSession(sessions) => error_with_number(alloc, word, u64::from(sessions)),
        Refusal::WrongStep(step) => error_with_number(alloc, word, u64::from(step)),
        Refusal::Other(response) => error_with_number(alloc, word, u64::from(response)),
        Refusal::BadResponse(categories) => error_with_number(alloc, word, u64::from(categories)),
        Refusal::IsClosed(place) => error_with_word(alloc, word, end_word(place)),
        Refusal::Stale(_, _) => error_value(alloc, word),
        Refusal::OtherList(session) => error_with_number(alloc, word, u64::from(session)),
        Refusal::NoItem(items) => error_with_number(alloc, word, u64::from(items)),
        Refusal::SessionsFull(sessions) => error_with_number(alloc, word, u64::from(sessions)),
        Refusal::JournalFull(length) => error_with_number(alloc, word, length),
        Refusal::NoForm | Refusal::NoneFound | Refusal::OtherBooking => error_value(alloc, word),
        Refusal::Disk => error_value(alloc, word),
        Refusal::Memory => error_value(alloc, word),
    }
}

/// The body of a reply.
#[tactic(auto, unfolding(crate::specs::Replies::reply_body))]
pub(crate) fn reply_value(alloc: Global, reply: &Reply) -> Result<Value, AllocError>
    ensures { IfOk result (λ v. view v ≡ reply_body reply.now) }
{
    match reply {
        Reply::At { session, place, .. } => place_value(alloc, u64::from(*session), *place),
        Reply::Exposure(exposure) => exposure_value(alloc, exposure),
        Reply::Refused(refusal) => refusal_value(alloc, *refusal),
    }
}
