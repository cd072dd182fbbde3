//! The settled records of a journal's file, as a log that grows.
ghost use Rattle.std.specs.Prelude.{◌≡◌, ◌⊎◌, ◌<◌, ◌≤◌, ◌+◌, None, Some, true, false, IsTrue, IfOk, IfErr, length, slice_get};
ghost use Rattle.std.specs.Option.{ForSome};
ghost use Rattle.exam_edge.specs.Faults.{Rose};
ghost use Rattle.record_links.specs.Streaming.{Gives, IsAnswer, IsGrown};
ghost use Rattle.journal_stream.specs.Tail.{Finds, IsFitting, number_after};

use crate::first::{FIRST, LONGEST, find_first};
use crate::look::{Look, look_at};
use crate::{GrowingFile, Waited};
use record_links::{AskFault, Asked, GrowingLog};
use std::alloc::Global;
use std::marker::Model;

/// The settled records of a journal's file, with the place of the one that is read next. A record
/// counts as settled where a later one begins after its gate, since its server writes there only
/// once it is; or where the server says so by its count.
pub struct JournalTail<F: GrowingFile> {
    file: F,
    /// The place of the gate of the first record that counts, once it is found.
    found: Option<u64>,
    /// That place, once a server has opened the journal for sure: no record is read before.
    start: Option<u64>,
    /// The number of the record that is read next, and the place of its gate.
    number: u64,
    at: u64,
    /// The place of the gate of the record before it, if that is known.
    last: Option<u64>,
    /// So many records are settled for sure.
    told: u64,
    /// Whether the record that is read next is there, and not known to be settled.
    unsettled: bool,
}

impl<F: GrowingFile> Model for JournalTail<F> {
    ghost use Rattle.std.specs.Prelude.{◌≡◌, ◌<◌, ◌≤◌, ◌+◌, ◌-◌, ◌^◌, None, IsTrue, is_some, length};
    ghost use Rattle.std.specs.Option.{ForSome};
    ghost use Rattle.journal_stream.specs.Served.{first_of};
    ghost use Rattle.journal_stream.specs.Tail.{TailState, IsGateOf};

    ghost Value = { TailState F };

    ghost view = { λ t. record {
      file = t.file;
      found = t.found;
      begun = is_some t.start;
      number = t.number;
      at = t.at;
      told = t.told;
    } };

    ghost invariant = { λ t. (t.at < 2 ^ 61) × (t.number ≤ t.at)
        × (t.start ≡ None → t.number ≡ 0)
        × (IsTrue (F.tells t.file) → t.told ≤ length (F.settled t.file))
        × ForSome t.found (λ place. (8 ≤ place) × (place ≤ 536870918)
        × (IsTrue (F.tells t.file) → place ≡ first_of (F.moved t.file)))
        × ForSome t.start (λ place. (place ≤ 536870918)
        × (IsTrue (F.tells t.file) → (place ≡ first_of (F.moved t.file))
        × IsGateOf (F.moved t.file) (F.settled t.file) t.number t.at))
        × ForSome t.last (λ place. (place < 2 ^ 61) × (t.number ≤ place + 1)
        × (IsTrue (F.tells t.file)
        → IsGateOf (F.moved t.file) (F.settled t.file) (t.number - 1) place)) };
}

impl<F: GrowingFile> JournalTail<F> {
    ghost use Rattle.std.specs.Prelude.{◌≡◌};

    /// The records of a file, of which none was read yet.
    pub fn new(file: F) -> JournalTail<F>
        // Promise: The records of a file are its settled ones, as
        // [`GrowingLog`](#both-sides-of-a-link-of-records-record_links) states: what is given of a
        // number is that settled record, or nothing yet, or there are fewer
        // - of `JournalTail::new`, `JournalTail::into_file`
        ensures { result.file ≡ file }
    {
        JournalTail {
            file,
            found: None,
            start: None,
            number: 0,
            at: FIRST,
            last: None,
            told: 0,
            unsettled: false,
        }
    }

    /// The file, as the records have it now.
    pub fn into_file(self) -> F
        ensures { result ≡ self.file }
    {
        let JournalTail {
            file,
            found: _,
            start: _,
            number: _,
            at: _,
            last: _,
            told: _,
            unsettled: _,
        } = self;
        file
    }

    // The place of the first gate, once it is found. If it is, a record may be there that is not
    // known to be settled.
    #[tactic(auto, using(crate::proofs::Placed::gate_on, crate::proofs::Placed::longer))]
    fn find(&mut self) -> Result<Option<u64>, AskFault>
        ensures found { IfOk result (λ found. self.new.found ≡ found) }
        ensures begun { self.new.begun ≡ self.old.begun }
        ensures number { self.new.number ≡ self.old.number }
        ensures told { self.new.told ≡ self.old.told }
        ensures grown { IsTrue (F.tells self.old.file)
            → IsGrown (F.settled self.old.file) (F.settled self.new.file) }
        ensures moved { F.moved self.new.file ≡ F.moved self.old.file }
        ensures tells { F.tells self.new.file ≡ F.tells self.old.file }
        ensures failed { IfErr result (λ e. e ≡ AskFault.Disk
            → Rose (F.faults self.old.file) (F.faults self.new.file)) }
        ensures grows { F.faults self.old.file ≤ F.faults self.new.file }
    {
        match self.found {
            Some(place) => {
                self.unsettled = true;
                Ok(Some(place))
            }
            None => {
                let found = find_first(&mut self.file)?;
                self.found = found;
                self.unsettled = found.is_some();
                Ok(found)
            }
        }
    }

    // Begins at the first gate, which was found, of a journal that a server has opened for sure.
    fn start_at(&mut self, place: u64)
        requires waits { self.old.begun ≡ false }
        requires found { self.old.found ≡ Some place }
        requires sure { (place ≡ 8) ⊎ (0 < self.old.told) }
        ensures begun { self.new.begun ≡ true }
        ensures number { self.new.number ≡ self.old.number }
        ensures told { self.new.told ≡ self.old.told }
        ensures file { self.new.file ≡ self.old.file }
    {
        self.at = place;
        self.start = Some(place);
    }

    // Whether the first gate is known, and a server has opened the journal for sure. The header
    // alone shows it, but of a journal that was moved: there it is shown once a record is settled
    // for sure.
    fn begin(&mut self) -> Result<bool, AskFault>
        ensures begun { IfOk result (λ is. is ≡ self.new.begun) }
        ensures number { self.new.number ≡ self.old.number }
        ensures told { self.new.told ≡ self.old.told }
        ensures grown { IsTrue (F.tells self.old.file)
            → IsGrown (F.settled self.old.file) (F.settled self.new.file) }
        ensures moved { F.moved self.new.file ≡ F.moved self.old.file }
        ensures tells { F.tells self.new.file ≡ F.tells self.old.file }
        ensures failed { IfErr result (λ e. e ≡ AskFault.Disk
            → Rose (F.faults self.old.file) (F.faults self.new.file)) }
        ensures grows { F.faults self.old.file ≤ F.faults self.new.file }
    {
        if self.start.is_some() {
            return Ok(true);
        }
        match self.find()? {
            Some(place) if place == FIRST => {
                self.start_at(place);
                Ok(true)
            }
            Some(place) if 0 < self.told => {
                self.start_at(place);
                Ok(true)
            }
            _ => Ok(false),
        }
    }

    // Goes on after the next record, which is settled.
    fn advance(&mut self, payload: &[u8])
        requires at { self.old.at ≤ 536870912 }
        requires begun { self.old.begun ≡ true }
        requires few { length payload.now ≤ 131072 }
        requires record { IsTrue (F.tells self.old.file)
            → slice_get (F.settled self.old.file) self.old.number ≡ Some payload.now }
        ensures number { self.new.number ≡ self.old.number + 1 }
        ensures file { self.new.file ≡ self.old.file }
    {
        self.last = Some(self.at);
        self.at += 5 + payload.len() as u64;
        self.number += 1;
    }

    // Looks at the next record, and goes on after it where it is settled. Nothing is known before
    // the first gate is.
    #[tactic(auto, using(crate::proofs::Placed::gate_on, crate::proofs::Placed::longer))]
    fn step(&mut self, alloc: Global) -> Result<Look, AskFault>
        ensures finds { IfOk result (λ found. IsTrue (F.tells self.old.file)
            → Finds (F.settled self.new.file) self.old.number found) }
        ensures fits { IfOk result IsFitting }
        ensures number { IfOk result
            (λ found. self.new.number ≡ number_after self.old.number found) }
        ensures grown { IsTrue (F.tells self.old.file)
            → IsGrown (F.settled self.old.file) (F.settled self.new.file) }
        ensures moved { F.moved self.new.file ≡ F.moved self.old.file }
        ensures tells { F.tells self.new.file ≡ F.tells self.old.file }
        ensures failed { IfErr result (λ e. e ≡ AskFault.Disk
            → Rose (F.faults self.old.file) (F.faults self.new.file)) }
        ensures grows { F.faults self.old.file ≤ F.faults self.new.file }
    {
        if !self.begin()? {
            return Ok(Look::Unsettled);
        }
        if LONGEST < self.at {
            self.file.refuse(self.at);
            return Err(AskFault::Disk);
        }
        let is_told = self.number < self.told;
        let found = look_at(alloc, &mut self.file, self.at, is_told)?;
        self.unsettled = matches!(&found, Look::Unsettled);
        if let Look::Record(payload) = &found {
            self.advance(payload);
        }
        Ok(found)
    }

    // Goes back, where the next record is past the one of a number: by one record, where that is
    // enough and its place is known; else to the first one.
    fn go_back(&mut self, number: u64)
        ensures number { self.new.number ≤ number }
        ensures file { self.new.file ≡ self.old.file }
    {
        if self.number <= number {
            return;
        }
        match self.last.take() {
            Some(last) if number + 1 == self.number => {
                self.number = number;
                self.at = last;
            }
            _ => {
                self.number = 0;
                self.at = self.start.unwrap_or(FIRST);
            }
        }
    }

    // Goes on to the record of a number, if each before it is settled. Otherwise the answer to that
    // number.
    fn go_to(&mut self, alloc: Global, number: u64) -> Result<Option<Asked>, AskFault>
        ensures gives { IfOk result (λ found. ForSome found (λ asked.
            IsTrue (F.tells self.old.file)
            → Gives (F.settled self.new.file) number asked)) }
        ensures fits { IfOk result (λ found. ForSome found IsAnswer) }
        ensures there { IfOk result (λ found. found ≡ None → self.new.number ≡ number) }
        ensures grown { IsTrue (F.tells self.old.file)
            → IsGrown (F.settled self.old.file) (F.settled self.new.file) }
        ensures moved { F.moved self.new.file ≡ F.moved self.old.file }
        ensures tells { F.tells self.new.file ≡ F.tells self.old.file }
        ensures failed { IfErr result (λ e. e ≡ AskFault.Disk
            → Rose (F.faults self.old.file) (F.faults self.new.file)) }
        ensures grows { F.faults self.old.file ≤ F.faults self.new.file }
    {
        self.go_back(number);
        'records: while self.number < number {
            match self.step(alloc)? {
                Look::Record(_) => {}
                Look::Closed => return Ok(Some(Asked::Above)),
                Look::Unsettled => return Ok(Some(Asked::NotYet)),
            }
        }
        Ok(None)
    }
}

impl<F: GrowingFile> GrowingLog for JournalTail<F> {
    ghost tells = { λ t. F.tells t.file };

    ghost records = { λ t. F.settled t.file };

    ghost faults = { λ t. F.faults t.file };

    fn ask(&mut self, alloc: Global, number: u64) -> Result<Asked, AskFault> {
        self.file.note(number);
        if let Some(asked) = self.go_to(alloc, number)? {
            return Ok(asked);
        }
        match self.step(alloc)? {
            Look::Record(payload) => Ok(Asked::Record(payload)),
            _ => Ok(Asked::NotYet),
        }
    }

    fn wait(&mut self) -> bool {
        let Waited { told, is_long } = self.file.wait(self.unsettled);
        if self.told < told {
            self.told = told;
        }
        is_long
    }
}
