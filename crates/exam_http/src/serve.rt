//! One connection.
ghost use Rattle.std.specs.Prelude.{◌≡◌, ◌≢◌, ◌++◌, ◌⊎◌, List, ℕ, IsTrue, IfOk, OnErr, OnOk};
ghost use Rattle.std.specs.Option.{option_copied};
ghost use Rattle.exam_edge.specs.Allowing.{MayWrite, StillAllows};
ghost use Rattle.exam_edge.specs.Faults.{Rose};
ghost use Rattle.exam_edge.specs.Lent.{IsLent, FailsOnly};
ghost use Rattle.wire_http.specs.Messages.{bytes_of};
ghost use Rattle.exam_http.specs.Replies.{wire_fault_text};
ghost use Rattle.exam_http.specs.Serving.{AllowsNext, AllowsResponse, AllowsServed, Begins, IsResponse, Becomes, Refuses, IsAfter, IsServed, LeadsTo};
ghost use Rattle.exam_http.specs.Table.{table};

use crate::asking::asked_of;
use crate::ended::AfterMessage;
use crate::route::router;
use crate::terms::Terms;
use crate::texts::{found_text, message_fault_text, reply_text, wire_fault_text};
use crate::{Asked, Ended, Handler};
use exam_edge::{Failed, Link};
use std::alloc::{AllocError, Global};
use std::sync::Wait;
use std::sync::atomic::{AtomicU32, Ordering};
use wire_http::{Kept, Message, WireFault, read_request};

// Writes a whole text.
fn write_all<K: Link>(link: &mut K, text: &[u8]) -> Result<(), Failed>
    requires { IsTrue (K.tells link.old)
        → MayWrite (K.allows link.old) (K.written link.old) text.now }
    ensures whole { OnOk result (IsTrue (K.tells link.old)
        → K.written link.new ≡ K.written link.old ++ text.now) }
    ensures part { OnErr result (IsTrue (K.tells link.old) → (part : List ℕ)
        × Begins part text.now × (K.written link.new ≡ K.written link.old ++ part)) }
    ensures left { IsTrue (K.tells link.old) → K.left link.new ≡ K.left link.old }
    ensures failed { FailsOnly K.faults link.old link.new result }
    ensures allows { StillAllows K.allows link.old link.new }
    ensures frame { IsLent K.tells K.identity K.faults link.old link.new }
{
    let mut done = 0;
    'pieces: while done < text.len() {
        match link.write(text.split_at(done).1) {
            Ok(count) => done += count,
            Err(Failed) => return Err(Failed),
        }
    }
    Ok(())
}

// Does what a message asks, and returns the response. When memory runs out, it may have been done
// or not.
fn respond<R: Wait + Sync, H: Handler>(
    rt: &R,
    alloc: Global,
    terms: &Terms,
    handler: &mut H,
    message: &Message,
) -> Result<Vec<u8>, AllocError>
    requires { terms.now.router ≡ table }
    ensures response { IfOk result (λ text.
        IsResponse (option_copied terms.now.token) H.does H.probes handler.old message.now text.items handler.new) }
    ensures memory { OnErr result ((handler.new ≡ handler.old)
        ⊎ ((text : List ℕ) × IsResponse (option_copied terms.now.token) H.does H.probes handler.old message.now text handler.new)) }
{
    let asked = match asked_of(alloc, terms, message) {
        Ok(asked) => asked,
        Err(e) => return Err(e),
    };
    match asked {
        Ok(Asked::Request(request)) => {
            let reply = handler.handle(rt, alloc, &request);
            reply_text(alloc, &reply, message.close)
        }
        Ok(Asked::Health) => {
            let found = handler.probe(rt);
            let busy = terms.busy.load(Ordering::SeqCst);
            found_text(alloc, busy, found, message.close)
        }
        Err(fault) => message_fault_text(alloc, fault, message.close),
    }
}

// Does what a message asks, writes the response, and then lets the handler use idle time.
fn answer<R: Wait + Sync, H: Handler, K: Link>(
    rt: &R,
    alloc: Global,
    terms: &Terms,
    handler: &mut H,
    link: &mut K,
    message: &Message,
) -> AfterMessage
    requires router { terms.now.router ≡ table }
    requires allowed { IsTrue (K.tells link.old)
        → AllowsResponse (option_copied terms.now.token) H.does H.probes
        (K.allows link.old) handler.old message.now (K.written link.old) }
    ensures leads { LeadsTo H.does H.probes H.idles handler.old handler.new }
    ensures becomes { IsTrue (K.tells link.old) → (text : List ℕ)
        × (K.written link.new ≡ K.written link.old ++ text)
        × Becomes (option_copied terms.now.token) H.does H.probes H.idles handler.old message.now text handler.new result }
    ensures left { IsTrue (K.tells link.old) → K.left link.new ≡ K.left link.old }
    ensures failed { result ≡ AfterMessage.Over Ended.Link
        → Rose (K.faults link.old) (K.faults link.new) }
    ensures allows { StillAllows K.allows link.old link.new }
    ensures frame { IsLent K.tells K.identity K.faults link.old link.new }
{
    match respond(rt, alloc, terms, handler, message) {
        Err(_) => AfterMessage::Over(Ended::Memory),
        Ok(text) => match write_all(link, &text) {
            Err(Failed) => AfterMessage::Over(Ended::Link),
            Ok(()) => {
                handler.idle(rt, alloc);
                if message.close {
                    AfterMessage::Over(Ended::Done)
                } else {
                    AfterMessage::Answered
                }
            }
        },
    }
}

// Writes the response of a fault.
fn refuse<K: Link>(alloc: Global, link: &mut K, fault: WireFault) -> AfterMessage
    requires { IsTrue (K.tells link.old)
        → MayWrite (K.allows link.old) (K.written link.old) (wire_fault_text fault) }
    ensures refuses { IsTrue (K.tells link.old) → (text : List ℕ)
        × (K.written link.new ≡ K.written link.old ++ text) × Refuses fault text result }
    ensures left { IsTrue (K.tells link.old) → K.left link.new ≡ K.left link.old }
    ensures over { result ≢ AfterMessage.Answered }
    ensures failed { result ≡ AfterMessage.Over Ended.Link
        → Rose (K.faults link.old) (K.faults link.new) }
    ensures allows { StillAllows K.allows link.old link.new }
    ensures frame { IsLent K.tells K.identity K.faults link.old link.new }
{
    match wire_fault_text(alloc, fault) {
        Err(_) => AfterMessage::Over(Ended::Memory),
        Ok(text) => match write_all(link, &text) {
            Err(Failed) => AfterMessage::Over(Ended::Link),
            Ok(()) => AfterMessage::Over(Ended::BadInput(fault)),
        },
    }
}

#[tactic(auto, using(crate::proofs::AfterMessages::nothing_leads))]
// Reads one message and answers it.
fn serve_message<R: Wait + Sync, H: Handler, K: Link>(
    rt: &R,
    alloc: Global,
    terms: &Terms,
    handler: &mut H,
    link: &mut K,
    kept: &mut Kept,
) -> AfterMessage
    requires router { terms.now.router ≡ table }
    requires allowed { IsTrue (K.tells link.old)
        → AllowsNext (option_copied terms.now.token) H.does H.probes (K.allows link.old)
        handler.old (bytes_of kept.old ++ K.left link.old) (K.written link.old) }
    ensures leads { LeadsTo H.does H.probes H.idles handler.old handler.new }
    ensures after { IsTrue (K.tells link.old) → (text : List ℕ)
        × (K.written link.new ≡ K.written link.old ++ text)
        × IsAfter (option_copied terms.now.token) H.does H.probes H.idles handler.old (bytes_of kept.old ++ K.left link.old) text
        (bytes_of kept.new ++ K.left link.new) handler.new result }
    ensures failed { result ≡ AfterMessage.Over Ended.Link
        → Rose (K.faults link.old) (K.faults link.new) }
    ensures allows { StillAllows K.allows link.old link.new }
    ensures frame { IsLent K.tells K.identity K.faults link.old link.new }
{
    match read_request(alloc, link, kept) {
        Ok(Some(message)) => answer(rt, alloc, terms, handler, link, &message),
        Ok(None) => AfterMessage::Over(Ended::Done),
        Err(WireFault::Link) => AfterMessage::Over(Ended::Link),
        Err(WireFault::Memory) => AfterMessage::Over(Ended::Memory),
        Err(fault) => refuse(alloc, link, fault),
    }
}

// Serves what was kept of a connection and what its link still gives.
fn serve_all<R: Wait + Sync, H: Handler, K: Link>(
    rt: &R,
    alloc: Global,
    terms: &Terms,
    handler: &mut H,
    link: &mut K,
    kept: &mut Kept,
) -> Ended
    requires router { terms.now.router ≡ table }
    requires allowed { IsTrue (K.tells link.old)
        → AllowsServed (option_copied terms.now.token) H.does H.probes H.idles (K.allows link.old)
        handler.old (bytes_of kept.old ++ K.left link.old) (K.written link.old) }
    ensures leads { LeadsTo H.does H.probes H.idles handler.old handler.new }
    ensures served { IsTrue (K.tells link.old) → (text : List ℕ)
        × (K.written link.new ≡ K.written link.old ++ text)
        × IsServed (option_copied terms.now.token) H.does H.probes H.idles handler.old (bytes_of kept.old ++ K.left link.old) text
        handler.new result }
    ensures failed { result ≡ Ended.Link → Rose (K.faults link.old) (K.faults link.new) }
    ensures frame { IsLent K.tells K.identity K.faults link.old link.new }
{
    'messages: for _ in rt.forever() {
        match serve_message(rt, alloc, terms, handler, link, kept) {
            AfterMessage::Answered => {}
            AfterMessage::Over(ended) => return ended,
        }
    }
    unreachable!()
}

/// Serves one connection to its end: what each message asks is done, and its response written, in
/// order; then the response of a fault, if there is one. If the link fails or memory runs out, the
/// last response may be cut off. Where there is a token, a message that does not bear it is
/// refused, and does nothing, but for a look at the health. `busy` is how many workers serve a
/// connection now. Whatever the link tells of its bytes, nothing but requests, looks at the health
/// and idle time changes the handler.
// Promise: At each moment, also of a connection that never ends, what was written is responses to
// the messages of the connection's bytes, in order, and a beginning of the next: of a link it is
// asked to allow no more
// - by the condition (`AllowsServed`)
pub fn serve_connection<R: Wait + Sync, H: Handler, K: Link>(
    rt: &R,
    alloc: Global,
    handler: &mut H,
    link: &mut K,
    token: Option<&[u8]>,
    busy: &AtomicU32,
) -> Ended
    // At each moment, also of a connection that never ends, what was written is the responses to
    // the messages that came, in order, and a beginning of the next response: a link need allow
    // nothing else.
    requires { IsTrue (K.tells link.old)
        → AllowsServed (option_copied token) H.does H.probes H.idles (K.allows link.old)
        handler.old (K.left link.old) (K.written link.old) }
    // Promise: Only requests, looks at the health and idle time change the handler, also where the
    // connection does not report its bytes
    // - by `leads` (`LeadsTo`)
    ensures leads { LeadsTo H.does H.probes H.idles handler.old handler.new }
    // Promise: The responses written are those to the messages of the connection's bytes, in order,
    // by whatever handler; `Done` and `BadInput` come exactly by the bytes; if the connection
    // fails, what was written is a beginning of them
    // - by `served` (`IsServed`)
    // Promise: A message that may ask, on this route and with a booking, asks for a session with a
    // list exactly where its last member `without` has numbers. These are an array, one or more,
    // each in digits alone and at most 511. The list is the set of these items. Without such a
    // member, or with an empty array, it asks for one without a list; with any other value it asks
    // nothing
    // - by `served` (`Asks`, `BeginOf`)
    // Promise: The booking of an answer is that of its body's last member `booking`, in digits
    // alone and below 2^64. A body without it names none, and one with any other value asks
    // nothing. A close has the same rule; of a body that is no JSON it names none
    // - by `served` (`Asks`, `booking_member`, `IsClosing`)
    // Promise: Where the server has a token, a message that does not bear it asks nothing, but for
    // the health. Without a token no message is refused for the lack of one
    // - of `serve_connection`, `laws::nothing_without_the_token`,
    //   `laws::without_a_token_all_may_ask`
    // - by `served` (`Asks`), the clause
    ensures served { IsTrue (K.tells link.old) → (text : List ℕ)
        × (K.written link.new ≡ K.written link.old ++ text)
        × IsServed (option_copied token.entry) H.does H.probes H.idles handler.old
        (K.left link.old) text handler.new result }
    // Promise: `Link` comes only where the connection's count of faults rose
    ensures failed { result ≡ Ended.Link → Rose (K.faults link.old) (K.faults link.new) }
    ensures frame { IsLent K.tells K.identity K.faults link.old link.new }
{
    let router = match router(alloc) {
        Ok(router) => router,
        Err(_) => return Ended::Memory,
    };
    let terms = Terms {
        router,
        token,
        busy,
    };
    let mut kept = Kept::new(alloc);
    serve_all(rt, alloc, &terms, handler, link, &mut kept)
}
