//! The texts of responses.
ghost use Rattle.std.specs.Prelude.{◌≡◌, IfOk, false};
ghost use Rattle.http.specs.StatusCode.{IsStatusCode};
ghost use Rattle.serde_json.specs.View.{view};
ghost use Rattle.serde_json.specs.Written.{compact_text, has_float};
ghost use Rattle.wire_http.specs.Responses.{response};
ghost use Rattle.exam_http.specs.Replies.{error_body, reply_text, health_text, IsHealthText, message_fault_text, wire_fault_text};

use crate::MessageFault;
use crate::body::{error_value, health_value, reply_value};
use crate::status::{fault_name, fault_status, reply_status};
use exam_handler::Health;
use history_model::{Refusal, Reply};
use serde_json::Value;
use std::alloc::{AllocError, Global};
use wire_http::{WireFault, response_text};

// The response of this status whose body is a value that has no float.
fn text_of(alloc: Global, status: u16, value: &Value, close: bool) -> Result<Vec<u8>, AllocError>
    requires status { IsStatusCode status }
    requires whole { has_float (view value.now) ≡ false }
    ensures { IfOk result (λ text. text.items
        ≡ response status (compact_text (view value.now)) close) }
{
    let body = value.to_string(alloc)?;
    response_text(alloc, status, body.as_bytes(), close)
}

/// The response of a reply.
#[tactic(auto, using(crate::proofs::Bodies::reply_whole))]
pub(crate) fn reply_text(alloc: Global, reply: &Reply, close: bool) -> Result<Vec<u8>, AllocError>
    ensures { IfOk result (λ text. text.items ≡ reply_text reply.now close) }
{
    let value = reply_value(alloc, reply)?;
    text_of(alloc, reply_status(reply), &value, close)
}

fn health_text(
    alloc: Global,
    busy: u32,
    health: &Health,
    close: bool,
) -> Result<Vec<u8>, AllocError>
    ensures { IfOk result (λ text. text.items ≡ health_text busy health.now close) }
{
    let value = health_value(alloc, busy, health)?;
    text_of(alloc, 200, &value, close)
}

/// The response of a look at the health, with so many busy workers.
pub(crate) fn found_text(
    alloc: Global,
    busy: u32,
    found: Result<Health, Refusal>,
    close: bool,
) -> Result<Vec<u8>, AllocError>
    ensures { IfOk result (λ text. IsHealthText found close text.items) }
{
    match found {
        Ok(health) => health_text(alloc, busy, &health, close),
        Err(refusal) => reply_text(alloc, &Reply::Refused(refusal), close),
    }
}

fn error_text(alloc: Global, status: u16, name: &str, close: bool) -> Result<Vec<u8>, AllocError>
    requires { IsStatusCode status }
    ensures { IfOk result (λ text. text.items
        ≡ response status (compact_text (error_body name.now)) close) }
{
    let value = error_value(alloc, name)?;
    text_of(alloc, status, &value, close)
}

/// The response to a message that asks for nothing.
pub(crate) fn message_fault_text(
    alloc: Global,
    fault: MessageFault,
    close: bool,
) -> Result<Vec<u8>, AllocError>
    ensures { IfOk result (λ text. text.items ≡ message_fault_text fault close) }
{
    error_text(alloc, fault_status(fault), fault_name(fault), close)
}

/// The response to bytes that begin with no message: nothing where they end within one.
pub(crate) fn wire_fault_text(alloc: Global, fault: WireFault) -> Result<Vec<u8>, AllocError>
    ensures { IfOk result (λ text. text.items ≡ wire_fault_text fault) }
{
    match fault {
        WireFault::BadHead => error_text(alloc, 400, "bad-head", true),
        WireFault::HeadTooLong | WireFault::BodyTooLong => error_text(alloc, 413, "too-long", true),
        WireFault::NoLength => error_text(alloc, 411, "no-length", true),
        WireFault::Cut | WireFault::Link | WireFault::Memory => Ok(Vec::new(alloc)),
    }
}
