//! Bytes that were read beyond a message.
ghost use Rattle.std.specs.Prelude.{◌≡◌, ◌≤◌, ◌<◌, ◌++◌, [], IsTrue, IsFalse, IfOk, IfErr, OnOk, length, drop, slice_range};
ghost use Rattle.exam_edge.specs.Faults.{Rose};
ghost use Rattle.exam_edge.specs.Lent.{IsLent};
ghost use Rattle.record_links.specs.Messages.{bytes_of, IsFree};

use crate::fault::MessageFault;
use exam_edge::{Failed, Link};
use std::alloc::{AllocError, Global};

/// Bytes of a link that were read and belong to no message yet.
#[derive(Drop)]
pub(crate) struct Kept {
    bytes: Vec<u8>,
}

impl Kept {
    /// No bytes yet. It takes no memory.
    pub(crate) fn new(alloc: Global) -> Kept
        ensures { bytes_of result ≡ [] }
    {
        Kept {
            bytes: Vec::new(alloc),
        }
    }

    pub(crate) fn as_slice(&self) -> &[u8]
        ensures { result.now ≡ bytes_of self.now }
    {
        &self.bytes
    }

    // Reads once more, and answers whether bytes came.
    fn receive<K: Link>(&mut self, link: &mut K) -> Result<bool, MessageFault>
        ensures bytes { IfOk result (λ _. IsTrue (K.tells link.old)
            → bytes_of self.new ++ K.left link.new ≡ bytes_of self.old ++ K.left link.old) }
        ensures some { IfOk result (λ came. IsTrue came
            → length (bytes_of self.old) < length (bytes_of self.new)) }
        ensures same { IfOk result (λ came. IsFalse came → bytes_of self.new ≡ bytes_of self.old) }
        ensures end { IfOk result (λ came. IsFalse came
            → IsTrue (K.tells link.old) → K.left link.old ≡ []) }
        ensures failed { IfErr result (λ e. e ≡ MessageFault.Link
            → Rose (K.faults link.old) (K.faults link.new)) }
        ensures free { IfErr result IsFree }
        ensures written { IsTrue (K.tells link.old) → K.written link.new ≡ K.written link.old }
        ensures frame { IsLent K.tells K.identity K.faults link.old link.new }
    {
        let mut piece = [0u8; 4096];
        match link.read(&mut piece) {
            Err(Failed) => Err(MessageFault::Link),
            Ok(0) => Ok(false),
            Ok(count) => match self.bytes.extend_from_slice(&piece[..count]) {
                Ok(()) => Ok(true),
                Err(_) => Err(MessageFault::Memory),
            },
        }
    }

    /// Takes the bytes before `end` away, and returns those from `start` on.
    pub(crate) fn take(
        &mut self,
        alloc: Global,
        start: usize,
        end: usize,
    ) -> Result<Vec<u8>, AllocError>
        requires order { start ≤ end }
        requires within { end ≤ length (bytes_of self.old) }
        ensures taken { IfOk result (λ taken. taken.items
            ≡ slice_range (bytes_of self.old) start end) }
        ensures left { IfOk result (λ _. bytes_of self.new ≡ drop end (bytes_of self.old)) }
    {
        let taken = self.bytes[start..end].to_vec(alloc)?;
        self.bytes = self.bytes[end..].to_vec(alloc)?;
        Ok(taken)
    }

    /// Reads until so many bytes are kept, or the link ends, and answers whether so many are kept.
    pub(crate) fn fill<K: Link>(&mut self, link: &mut K, count: usize) -> Result<bool, MessageFault>
        ensures enough { IfOk result (λ all. IsTrue all → count ≤ length (bytes_of self.new)) }
        ensures short { IfOk result (λ all. IsFalse all → (length (bytes_of self.new) < count)
            × (IsTrue (K.tells link.old) → K.left link.new ≡ [])) }
        ensures left { OnOk result (IsTrue (K.tells link.old)
            → bytes_of self.new ++ K.left link.new ≡ bytes_of self.old ++ K.left link.old) }
        ensures failed { IfErr result (λ e. e ≡ MessageFault.Link
            → Rose (K.faults link.old) (K.faults link.new)) }
        ensures free { IfErr result IsFree }
        ensures written { IsTrue (K.tells link.old) → K.written link.new ≡ K.written link.old }
        ensures frame { IsLent K.tells K.identity K.faults link.old link.new }
    {
        'pieces: while self.bytes.len() < count {
            if !self.receive(link)? {
                return Ok(false);
            }
        }
        Ok(true)
    }
}
