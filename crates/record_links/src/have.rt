//! The next message of a follower.
ghost use Rattle.std.specs.Prelude.{◌≡◌, ◌++◌, IsTrue, IfOk, IfErr};
ghost use Rattle.exam_edge.specs.Faults.{Rose};
ghost use Rattle.exam_edge.specs.Lent.{IsLent};
ghost use Rattle.record_links.specs.Messages.{bytes_of, IsHave, IsNoHave, IsFault};

use crate::PeerFault;
use crate::fault::MessageFault;
use crate::kept::Kept;
use crate::offer::{kind_of, number_of};
use exam_edge::Link;
use std::alloc::Global;

/// The count in the have at the front of what was kept and what the link still gives, which then
/// have what follows it.
pub(crate) fn next_have<K: Link>(
    alloc: Global,
    link: &mut K,
    kept: &mut Kept,
) -> Result<u64, MessageFault>
    ensures have { IfOk result (λ count. IsTrue (K.tells link.old)
        → IsHave (bytes_of kept.old ++ K.left link.old) count
        (bytes_of kept.new ++ K.left link.new)) }
    ensures fault { IfErr result (λ e. IsTrue (K.tells link.old)
        → IsFault (IsNoHave (bytes_of kept.old ++ K.left link.old)) e) }
    ensures failed { IfErr result (λ e. e ≡ MessageFault.Link
        → Rose (K.faults link.old) (K.faults link.new)) }
    ensures written { IsTrue (K.tells link.old) → K.written link.new ≡ K.written link.old }
    ensures frame { IsLent K.tells K.identity K.faults link.old link.new }
{
    if !kept.fill(link, 1)? {
        return Err(MessageFault::Peer(PeerFault::Cut));
    }
    let kind = kind_of(kept.as_slice());
    if kind != 2 {
        return Err(MessageFault::Peer(PeerFault::Kind(kind)));
    }
    if !kept.fill(link, 9)? {
        return Err(MessageFault::Peer(PeerFault::Cut));
    }
    let count = number_of(kept.as_slice());
    let _ = kept.take(alloc, 9, 9)?;
    Ok(count)
}
