//! The desk.

ghost use Rattle.std.specs.Prelude.{◌≡◌, ◌<◌, ◌≤◌, [], ◌∷◌, is_some, length, map, IfOk, IfSome, OnErr, OnOk};
ghost use Rattle.exam_hall.specs.Prepared.{IsPrepared};
ghost use Rattle.lru.specs.LruCache.{lru_cache, put_entries};
ghost use Rattle.prepare_desk.specs.Desks.{IsReadyFor, is_key, left_at, made_of, put_for, ready_at, without};

use crate::key::Key;
use bank_tables::{Bank, ItemSet};
use branch_bound::Assembled;
use constraint_model::Spec;
use exam_edge::Memory;
use lru::LruCache;
use std::alloc::Global;
use std::marker::Model;
use std::num::NonZeroUsize;
use turn_lock::Kept;

/// What results on a desk are assembled for: the bank, the plan and the base form of a hall.
#[derive(Drop)]
pub struct Purpose<'a> {
    bank: &'a Bank,
    spec: &'a Spec,
    base: ItemSet,
}

impl<'a> Model for Purpose<'a> {
    ghost use Rattle.prepare_desk.specs.Desks.{DeskPurpose};

    ghost Value = { DeskPurpose };

    ghost view = { λ p. record { bank = p.bank.now; plan = p.spec.now; base = p.base } };
}

/// What is ready for an answer.
#[derive(Drop)]
pub enum Ready<'a> {
    /// The result of an assembly.
    Made(Assembled<'a>),
    /// That of the answer to the same item with this response: both lead to one problem.
    SameAs(u8),
}

/// Results by the answers that they are for, at most as many as it has room for.
#[derive(Drop)]
pub struct Desk<'a> {
    purpose: Purpose<'a>,
    results: LruCache<Key, Ready<'a>>,
}

impl<'a> Model for Desk<'a> {
    ghost use Rattle.prepare_desk.specs.Desks.{DeskKnown, AreReadyFor};

    ghost Value = { DeskKnown };

    ghost view = { λ d. record {
      purpose = d.purpose;
      results = d.results.entries;
      room = d.results.cap;
    } };

    ghost invariant = { λ d. AreReadyFor d.purpose d.results.entries };
}

impl<'a> Desk<'a> {
    /// An empty desk for a bank, a plan and a base form, with room for so many results, at least
    /// one. It takes no memory for them before there are results.
    pub fn new(
        alloc: Global,
        bank: &'a Bank,
        spec: &'a Spec,
        base: ItemSet,
        room: u32,
    ) -> Result<Desk<'a>, Memory>
        // Promise: A desk is made for a bank, a plan and a base form, with room for so many
        // results, and has none at first. No call changes what it is for
        // - of `Desk::new`, `Desk::take`, `Desk::put`
        // - by `purpose`, `none`, `room`
        ensures purpose { IfOk result (λ d. d.purpose
            ≡ record { bank = bank.now; plan = spec.now; base = base }) }
        ensures none { IfOk result (λ d. d.results ≡ []) }
        ensures room { 0 < room → IfOk result (λ d. d.room ≡ room) }
    {
        let room = match NonZeroUsize::new(room as usize) {
            Some(room) => room,
            None => NonZeroUsize::MIN,
        };
        match LruCache::sparse(alloc, room) {
            Ok(results) => Ok(Desk {
                purpose: Purpose { bank, spec, base },
                results,
            }),
            Err(_) => Err(Memory),
        }
    }

    /// Takes the result of an assembly out.
    fn take_made(&mut self, key: Key) -> Option<Assembled<'a>>
        ensures made { result ≡ made_of (put_for self.old.results key) }
        ensures left { self.new ≡ record self.old { results = without self.old.results key } }
        ensures prepared { IfSome result (IsPrepared self.old.purpose.bank
            self.old.purpose.plan self.old.purpose.base) }
    {
        match self.results.pop(&key) {
            Some(Ready::Made(made)) => Some(made),
            Some(Ready::SameAs(_)) => None,
            None => None,
        }
    }

    /// Takes out what is ready for an answer, and the result that it is. There is none unless it
    /// was put, and not displaced since.
    pub fn take(&mut self, key: Key) -> Option<Assembled<'a>>
        // Promise: What is taken out is the result that was put for the answer, or that of the
        // response whose problem is the same. The desk has all others afterwards
        // - by `ready` (`ready_at`), `left` (`left_at`)
        ensures ready { result ≡ ready_at self.old.results key }
        ensures left { self.new ≡ record self.old { results = left_at self.old.results key } }
        // Promise: What is taken out of a desk was assembled for its bank and plan, within the
        // plan's budget, with its base as the hint
        // - by `prepared` (`IsPrepared`)
        ensures prepared { IfSome result (IsPrepared self.old.purpose.bank
            self.old.purpose.plan self.old.purpose.base) }
    {
        match self.results.pop(&key) {
            Some(Ready::Made(made)) => Some(made),
            Some(Ready::SameAs(response)) => self.take_made(Key {
                session: key.session,
                step: key.step,
                response,
            }),
            None => None,
        }
    }

    /// Whether something was put for an answer, and is on the desk.
    pub fn has(&self, key: Key) -> bool
        // Promise: Whether something was put for an answer, and is on the desk
        // - by the clause (`put_for`)
        ensures { result ≡ is_some (put_for self.now.results key) }
    {
        self.results.contains(&key)
    }

    /// Puts what is ready for an answer. If there is no room, what was put longest ago is
    /// displaced. `Memory` is lack of memory: the desk is as it was.
    // Promise: If memory runs out while a result is put, the desk is as it was
    // - by `same`
    pub fn put(&mut self, key: Key, ready: Ready<'a>) -> Result<(), Memory>
        requires { IsReadyFor self.old.purpose ready }
        ensures purpose { self.new.purpose ≡ self.old.purpose }
        // Promise: What is put is on the desk afterwards. If there was no room, what was put
        // longest ago is not
        // - by `put` (`put_entries`)
        ensures put { OnOk result (self.new ≡ record self.old {
          results =
              put_entries is_key (lru_cache self.old.results self.old.room) key ready.entry;
        }) }
        ensures same { OnErr result (self.new ≡ self.old) }
    {
        match self.results.put(key, ready) {
            Ok(_) => Ok(()),
            Err(_) => Err(Memory),
        }
    }

    /// The answers that something is ready for, that of the result put last first. They are no more
    /// than the desk has room for.
    pub fn keys(&self, alloc: Global) -> Result<Vec<Key>, Memory>
        // Promise: The answers that something is ready for are listed, that of the result put last
        // first. They are no more than the desk has room for
        // - by `keys`, `few`
        ensures keys { IfOk result (λ keys. keys.items ≡ map (λ r. r.0) self.now.results) }
        ensures few { length self.now.results ≤ self.now.room }
    {
        let _ = self.results.len();
        match self.results.iter().map(|entry| *entry.0).collect(alloc) {
            Ok(keys) => Ok(keys),
            Err(_) => Err(Memory),
        }
    }
}

/// All that is known of a desk under a lock is what its results are assembled for.
impl<'a> Kept for Desk<'a> {
    ghost use Rattle.std.specs.Prelude.{[], ◌∷◌};

    type Entry = Purpose<'a>;

    ghost history = { λ desk. desk.purpose ∷ [] };

    fn history_len(&self) -> u64 {
        1
    }
}
