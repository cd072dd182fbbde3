//! How a book grows.

ghost use Rattle.std.specs.Prelude.{◌≡◌, ◌+◌, ◌<◌, max, [], ◌∷◌, ◌++◌, OnOk, OnErr};
ghost use Rattle.history_model.specs.Legality.{Legal};

use crate::book::Book;
use crate::bookings::note_booking;
use crate::counting::count_entry;
use crate::seats::{make_spare, note_seat};
use crate::totals::totals_with;
use exposure_counters::Memory;
use history_model::Entry;
use std::alloc::Global;

/// As many entries as a book may have, far beyond what any disk holds.
const ENTRIES: u64 = 1 << 47;

impl<'a> Book<'a> {
    /// Makes room for one entry, where there is none: in the lists with an element for each
    /// session, and for the seat of the next one, only while the plan allows a further one.
    pub fn reserve(&mut self, alloc: Global) -> Result<(), Memory>
        ensures bank { self.new.bank ≡ self.old.bank }
        ensures plan { self.new.plan ≡ self.old.plan }
        ensures entries { self.new.entries ≡ self.old.entries }
        ensures room { OnOk result (self.new.room ≡ max 1 self.old.room) }
        ensures memory { OnErr result (self.new.room ≡ self.old.room) }
        // Where there is room, nothing fails.
        ensures needed { OnErr result (self.old.room ≡ 0) }
    {
        if self.room > 0 {
            return Ok(());
        }
        if self.entries.count() >= ENTRIES {
            return Err(Memory);
        }
        if self.seats.len() >= self.spec.sessions() as usize {
            self.room = 1;
            return Ok(());
        }
        self.seats.reserve(1)?;
        self.bookings.reserve()?;
        make_spare(&mut self.spare, alloc, self.spec)?;
        self.room = 1;
        Ok(())
    }

    /// Appends an entry that is legal after those of the book, where there is room for one. Takes
    /// no memory.
    pub fn apply(&mut self, entry: Entry)
        requires legal { Legal self.old.bank self.old.plan self.old.entries entry }
        requires room { 0 < self.old.room }
        ensures bank { self.new.bank ≡ self.old.bank }
        ensures plan { self.new.plan ≡ self.old.plan }
        ensures entries { self.new.entries ≡ self.old.entries ++ entry ∷ [] }
        ensures room { self.new.room + 1 ≡ self.old.room }
    {
        count_entry(
            self.bank,
            self.spec,
            self.seats.as_slice(),
            &mut self.counters,
            self.band_counters.as_mut_slice(),
            &entry,
        );
        note_seat(self.bank, &mut self.seats, &mut self.spare, &entry);
        note_booking(&mut self.bookings, &entry);
        self.totals = totals_with(self.totals, &entry);
        self.entries.push(&entry);
        self.room -= 1;
    }
}
