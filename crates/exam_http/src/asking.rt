//! What a message asks.
ghost use Rattle.std.specs.Prelude.{◌≡◌, ◌≤◌, ℕ, List, [], IfOk, IfSome};
ghost use Rattle.std.specs.Option.{option_copied};
ghost use Rattle.serde_json.specs.View.{view, items_view};
ghost use Rattle.exam_http.specs.Asks.{IsJson, number_member, number_in, IsSetIn, IsSetOf, AreItems, AsksBegin, BeginOf, booking_member, answer_of, IsClosing, IsSaidBy, IsParsedBy, AsksOn, AsksBy, Asks, view_of};
ghost use Rattle.exam_http.specs.Tokens.{is_for_all};
ghost use Rattle.exam_http.specs.Table.{table};

use crate::route::{method_of, route_of};
use crate::terms::Terms;
use crate::token::may_ask;
use crate::{Asked, MessageFault, Route};
use bank_tables::ItemSet;
use history_model::Request;
use serde_json::Value;
use std::alloc::{AllocError, Global};
use wire_http::Message;

// The value of a body, or none where it is no JSON.
fn value_of(alloc: Global, body: &[u8]) -> Result<Option<Value>, AllocError>
    ensures { IfOk result (λ value. IsJson body.now (view_of value)) }
{
    match Value::from_slice(alloc, body) {
        Ok(value) => Ok(Some(value)),
        Err(e) => {
            if e.is_memory() {
                return Err(AllocError);
            }
            Ok(None)
        }
    }
}

// The number that the member of this name is, if it is at most so much.
fn number_member(value: &Value, name: &str, most: u64) -> Result<u64, MessageFault>
    ensures value { result ≡ number_member (view value.now) name.now most }
    ensures most { IfOk result (λ n. n ≤ most) }
{
    match value.get(name).and_then(Value::as_u64) {
        Some(n) if n <= most => Ok(n),
        _ => Err(MessageFault::BadBody),
    }
}

// No items.
fn no_items() -> ItemSet
    ensures { AreItems result [] }
{
    let set = ItemSet::empty();
    let _ = set.count();
    set
}

// The item that an element is, if it is a number of at most 511, in digits alone.
fn item_of(element: &Value) -> Option<u16>
    ensures value { result ≡ number_in 511 (view element.now) }
    ensures small { IfSome result (λ item. item ≤ 511) }
{
    match element.as_u64() {
        Some(n) if n <= 511 => Some(n as u16),
        _ => None,
    }
}

// The set of the items that the elements of an array are, if each is a number of at most 511, in
// digits alone.
fn items_in(elements: &[Value]) -> Option<ItemSet>
    ensures { IsSetIn (items_view elements.now) result }
{
    let mut set = ItemSet::empty();
    for element in elements {
        match item_of(element) {
            None => return None,
            Some(item) => set = set.with(item),
        }
    }
    let _ = set.count();
    Some(set)
}

// The set of the items of the list that a body has, or no items where it has no list.
fn list_member(value: &Value) -> Result<ItemSet, MessageFault>
    ensures { IsSetOf (view value.now) result }
{
    match value.get("without") {
        None => Ok(no_items()),
        Some(list) => match list.as_array() {
            None => Err(MessageFault::BadBody),
            Some(elements) => match items_in(elements.as_slice()) {
                None => Err(MessageFault::BadBody),
                Some(items) => Ok(items),
            },
        },
    }
}

// The beginning of a session for a booking whose examinee must not get these items.
fn begin_with(booking: u64, items: ItemSet) -> Request
    ensures { (list : List ℕ) → AreItems items list → AsksBegin booking list result }
{
    match items.first() {
        Some(_) => Request::BeginWithout { booking, items },
        None => Request::Begin(booking),
    }
}

// What a value asks of the beginning of a session.
fn begin_of(value: &Value) -> Result<Asked, MessageFault>
    ensures { BeginOf (view value.now) result }
{
    match number_member(value, "booking", u64::MAX) {
        Err(fault) => Err(fault),
        Ok(booking) => match list_member(value) {
            Err(fault) => Err(fault),
            Ok(items) => Ok(Asked::Request(begin_with(booking, items))),
        },
    }
}

#[tactic(auto, unfolding(crate::specs::Asks::answer_of))]
fn answer_of(session: u32, value: &Value) -> Result<Asked, MessageFault>
    ensures { result ≡ answer_of session (view value.now) }
{
    match number_member(value, "step", 65_535) {
        Err(fault) => Err(fault),
        Ok(step) => match number_member(value, "response", 255) {
            Err(fault) => Err(fault),
            Ok(response) => match booking_member(value) {
                Err(fault) => Err(fault),
                Ok(booking) => Ok(Asked::Request(Request::Answer {
                    session,
                    step: step as u16,
                    response: response as u8,
                    booking,
                })),
            },
        },
    }
}

// The booking that a value names, if it has that member.
fn booking_member(value: &Value) -> Result<Option<u64>, MessageFault>
    ensures { result ≡ booking_member (view value.now) }
{
    match value.get("booking") {
        None => Ok(None),
        Some(_) => match number_member(value, "booking", u64::MAX) {
            Err(fault) => Err(fault),
            Ok(booking) => Ok(Some(booking)),
        },
    }
}

// What a body asks of the closing of a session.
fn parse_close(
    alloc: Global,
    session: u32,
    body: &[u8],
) -> Result<Result<Asked, MessageFault>, AllocError>
    ensures { IfOk result (IsClosing session body.now) }
{
    match value_of(alloc, body) {
        Err(e) => Err(e),
        Ok(None) => Ok(Ok(Asked::Request(Request::Close {
            session,
            booking: None,
        }))),
        Ok(Some(value)) => match booking_member(&value) {
            Err(fault) => Ok(Err(fault)),
            Ok(booking) => Ok(Ok(Asked::Request(Request::Close { session, booking }))),
        },
    }
}

fn parse_begin(alloc: Global, body: &[u8]) -> Result<Result<Asked, MessageFault>, AllocError>
    ensures { IfOk result (IsSaidBy BeginOf body.now) }
{
    match value_of(alloc, body) {
        Err(e) => Err(e),
        Ok(None) => Ok(Err(MessageFault::BadJson)),
        Ok(Some(value)) => Ok(begin_of(&value)),
    }
}

fn parse_answer(
    alloc: Global,
    session: u32,
    body: &[u8],
) -> Result<Result<Asked, MessageFault>, AllocError>
    ensures { IfOk result (IsParsedBy (answer_of session) body.now) }
{
    match value_of(alloc, body) {
        Err(e) => Err(e),
        Ok(None) => Ok(Err(MessageFault::BadJson)),
        Ok(Some(value)) => Ok(answer_of(session, &value)),
    }
}

// What a body asks on a route.
fn asked_on(
    alloc: Global,
    route: Route,
    body: &[u8],
) -> Result<Result<Asked, MessageFault>, AllocError>
    ensures { IfOk result (AsksOn route body.now) }
{
    match route {
        Route::Sessions => parse_begin(alloc, body),
        Route::Session(session) => Ok(Ok(Asked::Request(Request::Look(session)))),
        Route::Answers(session) => parse_answer(alloc, session, body),
        Route::Close(session) => parse_close(alloc, session, body),
        Route::Exposure => Ok(Ok(Asked::Request(Request::Exposure))),
        Route::Health => Ok(Ok(Asked::Health)),
    }
}

// What a method and a body ask, where the path names this route, or none.
fn asked_by(
    alloc: Global,
    route: Option<Route>,
    method: &[u8],
    body: &[u8],
) -> Result<Result<Asked, MessageFault>, AllocError>
    ensures { IfOk result (AsksBy route method.now body.now) }
{
    match route {
        None => Ok(Err(MessageFault::NoRoute)),
        Some(route) => {
            if method != method_of(route) {
                return Ok(Err(MessageFault::NoMethod));
            }
            asked_on(alloc, route, body)
        }
    }
}

// Whether everyone may ask by this method on this route.
fn is_for_all(route: Option<Route>, method: &[u8]) -> bool
    ensures { result ≡ is_for_all route method.now }
{
    match route {
        Some(Route::Health) => method == method_of(Route::Health),
        _ => false,
    }
}

/// What a message asks, or why it asks nothing: first of all because it does not bear the token.
pub(crate) fn asked_of(
    alloc: Global,
    terms: &Terms,
    message: &Message,
) -> Result<Result<Asked, MessageFault>, AllocError>
    requires { terms.now.router ≡ table }
    ensures { IfOk result (Asks (option_copied terms.now.token) message.now) }
{
    let route = route_of(&terms.router, &message.path);
    let method = message.method.as_str().as_bytes();
    if !may_ask(terms.token, &message.authorization) && !is_for_all(route, method) {
        return Ok(Err(MessageFault::Unauthorized));
    }
    asked_by(alloc, route, method, &message.body)
}
