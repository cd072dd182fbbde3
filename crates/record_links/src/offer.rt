//! The next message of a shipper.
ghost use Rattle.std.specs.Prelude.{◌≡◌, ◌≤◌, ◌++◌, IsTrue, IfOk, IfErr, length};
ghost use Rattle.exam_edge.specs.Faults.{Rose};
ghost use Rattle.exam_edge.specs.Lent.{IsLent};
ghost use Rattle.record_links.specs.Messages.{bytes_of, kind_in, number_in, size_in, IsNext, IsFitting, IsFault, IsNoOffer};

use crate::PeerFault;
use crate::fault::MessageFault;
use crate::kept::Kept;
use exam_edge::Link;
use std::alloc::Global;

/// A message of a shipper.
#[derive(Drop)]
pub(crate) enum ShipperMessage {
    /// A record with its number.
    Offer { number: u64, payload: Vec<u8> },
    /// The end, by a message or by the end of the link.
    End,
}

/// The kind of the message at the front of some bytes.
pub(crate) fn kind_of(bytes: &[u8]) -> u8
    requires { 1 ≤ length bytes.now }
    ensures { result ≡ kind_in bytes.now }
{
    bytes[0]
}

/// The number in the first nine bytes of an offer or a have.
pub(crate) fn number_of(bytes: &[u8]) -> u64
    requires { 9 ≤ length bytes.now }
    ensures { result ≡ number_in bytes.now }
{
    u64::from_be_bytes([
        bytes[1], bytes[2], bytes[3], bytes[4], bytes[5], bytes[6], bytes[7], bytes[8],
    ])
}

// The length of the payload in the head of an offer.
fn size_of(bytes: &[u8]) -> u32
    requires { 13 ≤ length bytes.now }
    ensures { result ≡ size_in bytes.now }
{
    u32::from_be_bytes([bytes[9], bytes[10], bytes[11], bytes[12]])
}

/// The message at the front of what was kept and what the link still gives, which then have what
/// follows it.
pub(crate) fn next_offer<K: Link>(
    alloc: Global,
    link: &mut K,
    kept: &mut Kept,
) -> Result<ShipperMessage, MessageFault>
    ensures next { IfOk result (λ message. IsTrue (K.tells link.old)
        → IsNext (bytes_of kept.old ++ K.left link.old) message
        (bytes_of kept.new ++ K.left link.new)) }
    // Whether the link tells its bytes or not.
    ensures fits { IfOk result IsFitting }
    ensures fault { IfErr result (λ e. IsTrue (K.tells link.old)
        → IsFault (IsNoOffer (bytes_of kept.old ++ K.left link.old)) e) }
    ensures failed { IfErr result (λ e. e ≡ MessageFault.Link
        → Rose (K.faults link.old) (K.faults link.new)) }
    ensures written { IsTrue (K.tells link.old) → K.written link.new ≡ K.written link.old }
    ensures frame { IsLent K.tells K.identity K.faults link.old link.new }
{
    if !kept.fill(link, 1)? {
        return Ok(ShipperMessage::End);
    }
    let kind = kind_of(kept.as_slice());
    if kind == 3 {
        return Ok(ShipperMessage::End);
    }
    if kind != 1 {
        return Err(MessageFault::Peer(PeerFault::Kind(kind)));
    }
    if !kept.fill(link, 13)? {
        return Err(MessageFault::Peer(PeerFault::Cut));
    }
    let number = number_of(kept.as_slice());
    let size = size_of(kept.as_slice());
    if size == 0 || size > 131_072 {
        return Err(MessageFault::Peer(PeerFault::Length(size)));
    }
    let end = 13 + size as usize;
    if !kept.fill(link, end)? {
        return Err(MessageFault::Peer(PeerFault::Cut));
    }
    let payload = kept.take(alloc, 13, end)?;
    Ok(ShipperMessage::Offer { number, payload })
}
