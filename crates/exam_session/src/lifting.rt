//! Records of the first version of the journal, as those of today.

ghost use Rattle.std.specs.Prelude.{◌≡◌, [], get_or, Option};
ghost use Rattle.certificate_model.specs.ProofTrees.{ProofTree};
ghost use Rattle.serving_model.specs.Seats.{first_band};
ghost use Rattle.history_model.specs.Lifting.{AreLifted, IsLifted};
ghost use Rattle.exam_records.specs.Shape.{AreEligible, GoesWith, HasBands, HasNoList, IsRecord};
ghost use Rattle.exam_records.specs.Spelling.{old_entry_bytes, old_payload_of};

use crate::book::Book;
use bank_tables::ItemSet;
use exam_records::{Record, is_in_range};
use history_model::{Bands, Entry};

/// The first of eight sets.
fn first_set(sets: &[ItemSet; 8]) -> ItemSet
    ensures { result ≡ get_or sets.now 0 [] }
{
    sets[0]
}

impl<'a> Book<'a> {
    /// The sets of a start: in the band where each session begins that of the record, and in each
    /// other band the draw.
    fn lift_sets(&self, session: u32, old: &Bands) -> Bands
        ensures lifted { AreLifted self.now.bank self.now.plan self.now.entries session old.now
            result }
        ensures eligible { AreEligible result }
        // the one set is the very same
        ensures first { get_or result.sets (first_band self.now.bank self.now.plan) []
            ≡ get_or old.now.sets 0 [] }
    {
        let _ = &self.bank;
        let first = self.first_band();
        let mut new = self.drawn_for(session);
        new.sets[first as usize] = first_set(&old.sets);
        new
    }

    fn lift_entry(&self, old: &Entry) -> Entry
        ensures lifted { IsLifted self.now.bank self.now.plan self.now.entries old.now result }
        ensures spelling { old_entry_bytes (first_band self.now.bank self.now.plan) result
            ≡ old_entry_bytes 0 old.now }
        ensures goes_with { (tree : Option ProofTree) → GoesWith old.now tree
            → GoesWith result tree }
        ensures bands { HasBands old.now → HasBands result }
        ensures unlisted { HasNoList result }
    {
        match *old {
            Entry::Started {
                session,
                booking,
                eligible,
                ..
            } => Entry::Started {
                session,
                booking,
                eligible: self.lift_sets(session, &eligible),
                without: None,
            },
            Entry::SetAside {
                session,
                cause,
                nodes,
                ..
            } => match self.problem(session) {
                Some(problem) => Entry::SetAside {
                    session,
                    step: problem.step,
                    band: self.spec.band(problem.theta),
                    cause,
                    nodes,
                },
                None => *old,
            },
            Entry::Served { .. } | Entry::Answered { .. } | Entry::Closed { .. } => *old,
        }
    }

    /// A record of the first version as one of today, after the entries of the book: a start gets
    /// its draw in the bands that the record has no set of, and a setting aside the step and the
    /// band of its session, if the session waits for an item. Every other record stays as it is,
    /// and none gets a list. Takes no memory.
    pub fn lift(&self, old: Record) -> Record
        // Promise: What the first version leaves out of a record is added from the book: the draws
        // of the other bands, the step, and the band of the estimate. The record keeps its tree and
        // its bytes, gets no list, and takes no memory
        // - by `entry` (`IsLifted`), `tree`, `spelling`, `is_record`, `unlisted`
        ensures entry { IsLifted self.now.bank self.now.plan self.now.entries old.entry
            result.entry }
        ensures tree { result.tree ≡ old.tree }
        // The bytes of the first version stay the same.
        ensures spelling { old_payload_of (first_band self.now.bank self.now.plan) result
            ≡ old_payload_of 0 old }
        ensures is_record { IsRecord old → IsRecord result }
        ensures unlisted { HasNoList result.entry }
    {
        let entry = self.lift_entry(&old.entry);
        is_in_range(&entry);
        Record {
            entry,
            tree: old.tree,
        }
    }
}
