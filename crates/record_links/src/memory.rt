//! Records in memory.
ghost use Rattle.std.specs.Prelude.{◌≡◌, ◌≢◌, ◌<◌, ◌⊎◌, refl, true, ℕ, List, [], ◌∷◌, ◌++◌, Some, IfOk, OnOk, OnErr, length, get_or, slice_get, map};
ghost use Rattle.std.proofs.Common.{◌∙◌};
ghost use Rattle.record_links.specs.Messages.{IsPayload};

use crate::{LogFault, RecordLog, Replica, TakeFault};
use std::alloc::{AllocError, Global};

/// Records in memory: a replica, and a log to ship from. No record of it begins with one certain
/// byte, and it has at most as many as its limit. A stop leaves what it has: none is ever in doubt.
#[derive(Drop)]
pub struct MemoryRecords {
    payloads: Vec<Vec<u8>>,
    refused: u8,
    limit: u64,
    ghost fit: { (k : ℕ) (payload : List ℕ)
        → slice_get (map (λ v. v.items) payloads.items) k ≡ Some payload → IsPayload payload },
}

impl MemoryRecords {
    ghost use Rattle.record_links.specs.Memory.{payloads_of};

    /// No records, of which none will begin with this byte, and which will be at most so many. It
    /// takes no memory.
    pub fn new(alloc: Global, refused: u8, limit: u64) -> MemoryRecords
        // Promise: Records in memory are none at first
        ensures { payloads_of result ≡ [] }
    {
        MemoryRecords {
            payloads: Vec::new(alloc),
            refused,
            limit,
        }
    }

    // Adds a record at the end.
    fn add(&mut self, alloc: Global, payload: &[u8]) -> Result<(), AllocError>
        requires { IsPayload payload.now }
        ensures added { OnOk result
            (payloads_of self.new ≡ payloads_of self.old ++ payload.now ∷ []) }
        ensures kept { OnErr result (payloads_of self.new ≡ payloads_of self.old) }
        ensures refused { self.new.refused ≡ self.old.refused }
        ensures limit { self.new.limit ≡ self.old.limit }
    {
        let copy = payload.to_vec(alloc)?;
        self.payloads.push(copy)?;
        Ok(())
    }

    // How many records there are.
    fn number(&self) -> u64
        ensures { result ≡ length (payloads_of self.now) }
    {
        self.payloads.len() as u64
    }

    // A copy of the payload of a record.
    fn copy_of(&self, alloc: Global, number: usize) -> Result<Vec<u8>, AllocError>
        requires { number < length (payloads_of self.now) }
        ensures { IfOk result (λ copy. slice_get (payloads_of self.now) number ≡ Some copy.items) }
    {
        self.payloads[number].to_vec(alloc)
    }
}

impl Replica for MemoryRecords {
    ghost use Rattle.record_links.specs.Memory.{payloads_of};
    ghost use Rattle.record_links.specs.Replicas.{sure};

    ghost held = { λ s. sure (payloads_of s) };

    ghost may_follow = { λ s _ payload. get_or payload 0 0 ≢ s.refused };

    ghost size = { λ _ records. length records };

    ghost limit = { λ s. s.limit };

    ghost may_leave = { λ s t left. (left ≡ payloads_of s) ⊎ (left ≡ payloads_of t) };

    ghost faults = { λ _. 0 };

    ghost is_later = { λ s t. (t.refused ≡ s.refused) × (t.limit ≡ s.limit) };

    ghost later_itself = { λ s. (refl, refl) };

    ghost later_still = { λ s t u e f. (f.0 ∙ e.0, f.1 ∙ e.1) };

    fn count(&self) -> u64 {
        self.number()
    }

    fn take(&mut self, alloc: Global, number: u64, payload: &[u8]) -> Result<u64, TakeFault> {
        let count = self.number();
        if number != count {
            return Ok(count);
        }
        if payload[0] == self.refused {
            return Err(TakeFault::Refused);
        }
        if count >= self.limit {
            return Err(TakeFault::Full(count + 1));
        }
        match self.add(alloc, payload) {
            Ok(()) => Ok(count + 1),
            Err(_) => Err(TakeFault::Memory),
        }
    }
}

impl RecordLog for MemoryRecords {
    ghost use Rattle.record_links.specs.Memory.{payloads_of};

    ghost tells = { λ _. true };

    ghost records = { payloads_of };

    ghost faults = { λ _. 0 };

    ghost is_later = { λ s t. (t.refused ≡ s.refused) × (t.limit ≡ s.limit) };

    ghost later_itself = { λ s. (refl, refl) };

    ghost later_still = { λ s t u e f. (f.0 ∙ e.0, f.1 ∙ e.1) };

    fn count(&self) -> u64 {
        self.number()
    }

    fn record(&mut self, alloc: Global, number: u64) -> Result<Vec<u8>, LogFault> {
        match self.copy_of(alloc, number as usize) {
            Ok(payload) => Ok(payload),
            Err(_) => Err(LogFault::Memory),
        }
    }
}
