//! Bytes that were read beyond a message.
ghost use Rattle.std.specs.Prelude.{◌≡◌, ◌≤◌, ◌<◌, ◌++◌, [], IsTrue, IsFalse, IfOk, IfErr, length, drop, slice_range};
ghost use Rattle.exam_edge.specs.Allowing.{StillAllows};
ghost use Rattle.exam_edge.specs.Faults.{Rose};
ghost use Rattle.exam_edge.specs.Lent.{IsLent};
ghost use Rattle.wire_http.specs.Messages.{bytes_of, IsFree};

use crate::WireFault;
use exam_edge::{Failed, Link};
use std::alloc::{AllocError, Global};

/// Bytes of a connection that were read and belong to no message yet.
#[derive(Drop)]
pub struct Kept {
    bytes: Vec<u8>,
    // Whether messages have used all bytes since the link was last let know.
    used_up: bool,
}

impl Kept {
    /// No bytes yet. It takes no memory.
    pub fn new(alloc: Global) -> Kept
        // Promise: Nothing is kept at first
        ensures { bytes_of result ≡ [] }
    {
        Kept {
            bytes: Vec::new(alloc),
            used_up: false,
        }
    }

    pub(crate) fn as_slice(&self) -> &[u8]
        ensures { result.now ≡ bytes_of self.now }
    {
        &self.bytes
    }

    // Lets the link know when messages have used all its bytes, by a read into an empty buffer: it
    // may rest then.
    fn rest<K: Link>(&mut self, link: &mut K) -> Result<(), WireFault>
        ensures bytes { bytes_of self.new ≡ bytes_of self.old }
        ensures left { IsTrue (K.tells link.old) → K.left link.new ≡ K.left link.old }
        ensures failed { IfErr result (λ e.
            (e ≡ WireFault.Link) × Rose (K.faults link.old) (K.faults link.new)) }
        ensures written { IsTrue (K.tells link.old) → K.written link.new ≡ K.written link.old }
        ensures allows { StillAllows K.allows link.old link.new }
        ensures frame { IsLent K.tells K.identity K.faults link.old link.new }
    {
        if !self.used_up {
            return Ok(());
        }
        self.used_up = false;
        if link.read(&mut []).is_err() {
            return Err(WireFault::Link);
        }
        Ok(())
    }

    // Reads once more, and answers whether bytes came.
    fn read_piece<K: Link>(&mut self, link: &mut K) -> Result<bool, WireFault>
        ensures bytes { IfOk result (λ _. IsTrue (K.tells link.old)
            → bytes_of self.new ++ K.left link.new ≡ bytes_of self.old ++ K.left link.old) }
        ensures some { IfOk result (λ came. IsTrue came
            → length (bytes_of self.old) < length (bytes_of self.new)) }
        ensures same { IfOk result (λ came. IsFalse came → bytes_of self.new ≡ bytes_of self.old) }
        ensures end { IfOk result (λ came. IsFalse came
            → IsTrue (K.tells link.old) → K.left link.old ≡ []) }
        ensures failed { IfErr result (λ e. e ≡ WireFault.Link
            → Rose (K.faults link.old) (K.faults link.new)) }
        ensures free { IfErr result IsFree }
        ensures written { IsTrue (K.tells link.old) → K.written link.new ≡ K.written link.old }
        ensures allows { StillAllows K.allows link.old link.new }
        ensures frame { IsLent K.tells K.identity K.faults link.old link.new }
    {
        let mut piece = [0u8; 4096];
        match link.read(&mut piece) {
            Err(Failed) => Err(WireFault::Link),
            Ok(0) => Ok(false),
            Ok(count) => match self.bytes.extend_from_slice(&piece[..count]) {
                Ok(()) => Ok(true),
                Err(_) => Err(WireFault::Memory),
            },
        }
    }

    /// Reads once more, and answers whether bytes came.
    pub(crate) fn receive<K: Link>(&mut self, link: &mut K) -> Result<bool, WireFault>
        ensures bytes { IfOk result (λ _. IsTrue (K.tells link.old)
            → bytes_of self.new ++ K.left link.new ≡ bytes_of self.old ++ K.left link.old) }
        ensures some { IfOk result (λ came. IsTrue came
            → length (bytes_of self.old) < length (bytes_of self.new)) }
        ensures same { IfOk result (λ came. IsFalse came → bytes_of self.new ≡ bytes_of self.old) }
        ensures end { IfOk result (λ came. IsFalse came
            → IsTrue (K.tells link.old) → K.left link.old ≡ []) }
        ensures failed { IfErr result (λ e. e ≡ WireFault.Link
            → Rose (K.faults link.old) (K.faults link.new)) }
        ensures free { IfErr result IsFree }
        ensures written { IsTrue (K.tells link.old) → K.written link.new ≡ K.written link.old }
        ensures allows { StillAllows K.allows link.old link.new }
        ensures frame { IsLent K.tells K.identity K.faults link.old link.new }
    {
        self.rest(link)?;
        self.read_piece(link)
    }

    /// Takes the bytes before `end` away, and returns those from `start` on.
    pub(crate) fn take(
        &mut self,
        alloc: Global,
        start: usize,
        end: usize,
    ) -> Result<Vec<u8>, AllocError>
        requires order { start ≤ end }
        requires within { end ≤ length (bytes_of self.old) }
        ensures taken { IfOk result (λ taken. taken.items
            ≡ slice_range (bytes_of self.old) start end) }
        ensures left { IfOk result (λ _. bytes_of self.new ≡ drop end (bytes_of self.old)) }
    {
        let taken = self.bytes[start..end].to_vec(alloc)?;
        self.bytes = self.bytes[end..].to_vec(alloc)?;
        self.used_up = self.bytes.is_empty();
        Ok(taken)
    }
}
