//! How messages are written.
ghost use Rattle.std.specs.Prelude.{◌≡◌, ◌++◌, List, ℕ, IsTrue, IfOk, OnErr, OnOk};
ghost use Rattle.exam_edge.specs.Allowing.{AllowsAll};
ghost use Rattle.exam_edge.specs.Lent.{IsLent, FailsOnly};
ghost use Rattle.record_links.specs.Messages.{IsCutOff, IsPayload, have_text, offer_text};

use exam_edge::{Failed, Link};
use std::alloc::{AllocError, Global};

/// Writes a whole text. `Failed` where the link's count of faults rose; a part of the text was
/// written then.
pub(crate) fn write_all<K: Link>(link: &mut K, text: &[u8]) -> Result<(), Failed>
    requires { AllowsAll K.tells K.allows }
    ensures whole { OnOk result (IsTrue (K.tells link.old)
        → K.written link.new ≡ K.written link.old ++ text.now) }
    ensures part { OnErr result (IsTrue (K.tells link.old) → (part : List ℕ)
        × IsCutOff part text.now × (K.written link.new ≡ K.written link.old ++ part)) }
    ensures left { IsTrue (K.tells link.old) → K.left link.new ≡ K.left link.old }
    ensures failed { FailsOnly K.faults link.old link.new result }
    ensures frame { IsLent K.tells K.identity K.faults link.old link.new }
{
    let mut done = 0;
    'pieces: while done < text.len() {
        match link.write(text.split_at(done).1) {
            Ok(count) => done += count,
            Err(Failed) => return Err(Failed),
        }
    }
    Ok(())
}

// The bytes of a have.
fn have_bytes(count: u64) -> [u8; 9]
    ensures { result ≡ have_text count }
{
    let [a, b, c, d, e, f, g, h] = count.to_be_bytes();
    [2, a, b, c, d, e, f, g, h]
}

/// Writes a have.
pub(crate) fn write_have<K: Link>(link: &mut K, count: u64) -> Result<(), Failed>
    requires { AllowsAll K.tells K.allows }
    ensures whole { OnOk result (IsTrue (K.tells link.old)
        → K.written link.new ≡ K.written link.old ++ have_text count) }
    ensures part { OnErr result (IsTrue (K.tells link.old) → (part : List ℕ)
        × IsCutOff part (have_text count) × (K.written link.new ≡ K.written link.old ++ part)) }
    ensures left { IsTrue (K.tells link.old) → K.left link.new ≡ K.left link.old }
    ensures failed { FailsOnly K.faults link.old link.new result }
    ensures frame { IsLent K.tells K.identity K.faults link.old link.new }
{
    write_all(link, &have_bytes(count))
}

/// The bytes of an offer.
pub(crate) fn offer_bytes(alloc: Global, number: u64, payload: &[u8]) -> Result<Vec<u8>, AllocError>
    requires { IsPayload payload.now }
    ensures { IfOk result (λ bytes. bytes.items ≡ offer_text number payload.now) }
{
    let mut bytes = vec![in alloc; 1u8; 1]?;
    bytes.extend_from_slice(&number.to_be_bytes())?;
    bytes.extend_from_slice(&(payload.len() as u32).to_be_bytes())?;
    bytes.extend_from_slice(payload)?;
    Ok(bytes)
}
