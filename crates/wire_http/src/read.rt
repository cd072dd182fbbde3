//! One message of a connection.
ghost use Rattle.std.specs.Prelude.{◌≡◌, ◌≤◌, ◌<◌, ◌⊎◌, ◌++◌, [], IsTrue, IfOk, OnOk, IfSome, IfErr, IfNone, length};
ghost use Rattle.exam_edge.specs.Allowing.{StillAllows};
ghost use Rattle.exam_edge.specs.Faults.{Rose};
ghost use Rattle.exam_edge.specs.Lent.{IsLent};
ghost use Rattle.wire_http.specs.Heads.{StartsWithHead};
ghost use Rattle.wire_http.specs.Messages.{bytes_of, IsMessage, IsFault, IsFree};

use crate::head::{Front, Head, find_head};
use crate::{Kept, Message, WireFault};
use exam_edge::Link;
use std::alloc::Global;

// The head at the front of what was kept and what the link gives, or none if neither has a byte.
fn next_head<K: Link>(
    alloc: Global,
    link: &mut K,
    kept: &mut Kept,
) -> Result<Option<Head>, WireFault>
    ensures head { IfOk result (λ found. IfSome found (StartsWithHead (bytes_of kept.new))) }
    ensures left { IfOk result (λ _. IsTrue (K.tells link.old)
        → bytes_of kept.new ++ K.left link.new ≡ bytes_of kept.old ++ K.left link.old) }
    ensures none { IfOk result (λ found. IfNone found (IsTrue (K.tells link.old)
        → bytes_of kept.old ++ K.left link.old ≡ [])) }
    ensures fault { IfErr result (λ e. IsTrue (K.tells link.old)
        → IsFree e ⊎ IsFault (bytes_of kept.old ++ K.left link.old) e) }
    ensures failed { IfErr result (λ e. e ≡ WireFault.Link
        → Rose (K.faults link.old) (K.faults link.new)) }
    ensures written { IsTrue (K.tells link.old) → K.written link.new ≡ K.written link.old }
    ensures allows { StillAllows K.allows link.old link.new }
    ensures frame { IsLent K.tells K.identity K.faults link.old link.new }
{
    'pieces: loop {
        let seen = kept.as_slice().len().min(8192);
        match find_head(alloc, &kept.as_slice()[..seen]) {
            Err(_) => return Err(WireFault::Memory),
            Ok(Front::Whole(head)) => return Ok(Some(head)),
            Ok(Front::NoHead) => return Err(WireFault::BadHead),
            Ok(Front::Part) => {
                if seen == 8192 {
                    return Err(WireFault::HeadTooLong);
                }
                if !kept.receive(link)? {
                    if seen == 0 {
                        return Ok(None);
                    }
                    return Err(WireFault::Cut);
                }
            }
        }
    }
}

// Reads until so many bytes are kept.
fn fill<K: Link>(link: &mut K, kept: &mut Kept, count: usize) -> Result<(), WireFault>
    ensures enough { OnOk result (count ≤ length (bytes_of kept.new)) }
    ensures left { OnOk result (IsTrue (K.tells link.old)
        → bytes_of kept.new ++ K.left link.new ≡ bytes_of kept.old ++ K.left link.old) }
    ensures fault { IfErr result (λ e. IsTrue (K.tells link.old) → IsFree e
        ⊎ ((e ≡ WireFault.Cut) × (length (bytes_of kept.old ++ K.left link.old) < count))) }
    ensures failed { IfErr result (λ e. e ≡ WireFault.Link
        → Rose (K.faults link.old) (K.faults link.new)) }
    ensures written { IsTrue (K.tells link.old) → K.written link.new ≡ K.written link.old }
    ensures allows { StillAllows K.allows link.old link.new }
    ensures frame { IsLent K.tells K.identity K.faults link.old link.new }
{
    'pieces: while kept.as_slice().len() < count {
        if !kept.receive(link)? {
            return Err(WireFault::Cut);
        }
    }
    Ok(())
}

// The message whose head is at the front of what is kept.
fn message_of<K: Link>(
    alloc: Global,
    link: &mut K,
    kept: &mut Kept,
    head: Head,
) -> Result<Message, WireFault>
    requires { StartsWithHead (bytes_of kept.old) head }
    ensures message { IfOk result (λ m. IsTrue (K.tells link.old)
        → IsMessage (bytes_of kept.old ++ K.left link.old) m
        (bytes_of kept.new ++ K.left link.new)) }
    ensures fault { IfErr result (λ e. IsTrue (K.tells link.old)
        → IsFree e ⊎ IsFault (bytes_of kept.old ++ K.left link.old) e) }
    ensures failed { IfErr result (λ e. e ≡ WireFault.Link
        → Rose (K.faults link.old) (K.faults link.new)) }
    ensures written { IsTrue (K.tells link.old) → K.written link.new ≡ K.written link.old }
    ensures allows { StillAllows K.allows link.old link.new }
    ensures frame { IsLent K.tells K.identity K.faults link.old link.new }
{
    let Head {
        len,
        method,
        path,
        authorization,
        body_length,
        close,
    } = head;
    let end = len + body_length?;
    fill(link, kept, end)?;
    let body = kept.take(alloc, len, end)?;
    Ok(Message {
        method,
        path,
        authorization,
        body,
        close,
    })
}

/// The message at the front of what was kept and what the link still gives, which then keep what
/// follows it. None if neither has a byte. Each fault is one of these bytes, but for `Link`, where
/// the link failed, and `Memory`. After a fault the connection is not to be read again.
pub fn read_request<K: Link>(
    alloc: Global,
    link: &mut K,
    kept: &mut Kept,
) -> Result<Option<Message>, WireFault>
    // Promise: The message that is given is at the front of the connection's bytes, however they
    // are cut; the rest follows
    // - by `message` (`IsMessage`)
    ensures message { IfOk result (λ found. IfSome found (λ m. IsTrue (K.tells link.old)
        → IsMessage (bytes_of kept.old ++ K.left link.old) m
        (bytes_of kept.new ++ K.left link.new))) }
    // Promise: None comes exactly where the connection ends before the first byte of a message
    ensures none { IfOk result (λ found. IfNone found (IsTrue (K.tells link.old)
        → bytes_of kept.old ++ K.left link.old ≡ [])) }
    // Promise: A fault comes by the rules of the format: a bad head, a head or a body too long, no
    // length, or an end within a message
    // - by `fault` (`IsFault`)
    ensures fault { IfErr result (λ e. IsTrue (K.tells link.old)
        → IsFree e ⊎ IsFault (bytes_of kept.old ++ K.left link.old) e) }
    // Promise: `Link` comes only where the connection's count of faults rose; nothing is written
    // - by `failed`, `written`
    ensures failed { IfErr result (λ e. e ≡ WireFault.Link
        → Rose (K.faults link.old) (K.faults link.new)) }
    ensures written { IsTrue (K.tells link.old) → K.written link.new ≡ K.written link.old }
    ensures allows { StillAllows K.allows link.old link.new }
    ensures frame { IsLent K.tells K.identity K.faults link.old link.new }
{
    match next_head(alloc, link, kept)? {
        Some(head) => Ok(Some(message_of(alloc, link, kept, head)?)),
        None => Ok(None),
    }
}
