//! The counters.

ghost use Rattle.std.specs.Prelude.{◌≡◌, ◌+◌, ◌<◌, ◌≤◌, ℕ, [], ◌∷◌, ◌++◌, List, length, get_or, IfOk, IsTrue, if◌then◌else◌};
ghost use Rattle.bank_tables.specs.Items.{has};
ghost use Rattle.exposure_counters.specs.Tallies.{no_counts, counts_at, counted, FinishedSession, IsTallyOf};

use crate::Memory;
use bank_tables::ItemSet;
use history_model::Counts;
use std::alloc::Global;
use std::marker::Model;

/// The exposure counts of the items of a bank, and the number of finished sessions, at most 65,536.
#[derive(Debug, Drop)]
pub struct Counters {
    counts: Vec<Counts>,
    finished: u32,
}

impl Model for Counters {
    ghost use Rattle.exposure_counters.specs.Tallies.{Tally, IsTally};

    ghost Value = { Tally };

    ghost view = { λ c. record { counts = c.counts.items; finished = c.finished } };

    ghost invariant = { λ c. IsTally (record { counts = c.counts.items; finished = c.finished }) };
}

fn one_if(test: bool) -> u32
    ensures { result ≡ (if test then 1 else 0) }
{
    if test { 1 } else { 0 }
}

/// Counts one session more for each item below the length of the list.
fn count_session(counts: &mut [Counts], shown: &ItemSet, eligible: &ItemSet)
    requires few { length counts.old ≤ 512 }
    requires alpha { (i : ℕ) → (get_or counts.old i no_counts).alpha ≤ 65536 }
    requires eps { (i : ℕ) → (get_or counts.old i no_counts).eps ≤ 65536 }
    ensures { (i : ℕ) → i < length counts.old
        → get_or counts.new i no_counts
        ≡ counted (get_or counts.old i no_counts) (has shown.now i) (has eligible.now i) }
{
    for i in 0..counts.len() {
        let item = i as u16;
        let Counts { alpha, eps } = counts[i];
        counts[i] = Counts {
            alpha: alpha + one_if(shown.has(item)),
            eps: eps + one_if(eligible.has(item)),
        };
    }
}

impl Counters {
    /// Counters of so many items, all zero.
    pub fn new(alloc: Global, items: u16) -> Result<Counters, Memory>
        requires { items ≤ 512 }
        ensures items { IfOk result (λ c. length c.counts ≡ items) }
        // Promise: After any sessions that were finished the counters hold the counts of these
        // sessions
        // - of `Counters::new`, `Counters::finish`
        // - by `none`, `counts`, `finished`, `sessions`
        ensures none { IfOk result (λ c. IsTallyOf [] c) }
    {
        let none = Counts { alpha: 0, eps: 0 };
        let counts = vec![in alloc; none; items as usize]?;
        Ok(Counters {
            counts,
            finished: 0,
        })
    }

    /// Adds one to alpha of each item shown, to eps of each item eligible, and to the number of
    /// sessions.
    fn add_session(&mut self, shown: &ItemSet, eligible: &ItemSet)
        requires shown { (i : ℕ) → IsTrue (has shown.now i) → i < length self.old.counts }
        requires eligible { (i : ℕ) → IsTrue (has eligible.now i) → i < length self.old.counts }
        requires few { self.old.finished < 65536 }
        ensures items { length self.new.counts ≡ length self.old.counts }
        ensures counts { (i : ℕ)
            → counts_at self.new i
            ≡ counted (counts_at self.old i) (has shown.now i) (has eligible.now i) }
        ensures finished { self.new.finished ≡ self.old.finished + 1 }
    {
        count_session(&mut self.counts, shown, eligible);
        self.finished += 1;
    }

    /// Counts one finished session: the items shown in it, and the items that were eligible (all,
    /// where eligibility was set aside).
    #[tactic(auto, using(crate::proofs::TallyLaws::one_more))]
    pub fn finish(&mut self, shown: &ItemSet, eligible: &ItemSet)
        requires shown { (i : ℕ) → IsTrue (has shown.now i) → i < length self.old.counts }
        requires eligible { (i : ℕ) → IsTrue (has eligible.now i) → i < length self.old.counts }
        requires few { self.old.finished < 65536 }
        ensures items { length self.new.counts ≡ length self.old.counts }
        ensures counts { (i : ℕ)
            → counts_at self.new i
            ≡ counted (counts_at self.old i) (has shown.now i) (has eligible.now i) }
        ensures finished { self.new.finished ≡ self.old.finished + 1 }
        // counters of a list of sessions are then those of the list with this one at its end
        ensures sessions { (sessions : List FinishedSession) → IsTallyOf sessions self.old
            → IsTallyOf (sessions
            ++ record { shown = has shown.now; eligible = has eligible.now } ∷ []) self.new }
    {
        self.add_session(shown, eligible);
    }

    /// The number of items, at most 512.
    pub fn items(&self) -> u16
        ensures items { result ≡ length self.now.counts }
        ensures few { result ≤ 512 }
    {
        self.counts.len() as u16
    }

    /// The counts of an item.
    pub fn read(&self, item: u16) -> Counts
        requires { item < length self.now.counts }
        // Promise: The counts of an item, the number of items and the number of finished sessions
        // can be read
        // - of `Counters::read`, `Counters::items`, `Counters::finished`
        // - by `counts`, `items`, `finished`
        ensures counts { result ≡ counts_at self.now item }
        ensures alpha { result.alpha ≤ self.now.finished }
        ensures eps { result.eps ≤ self.now.finished }
    {
        self.counts[item as usize]
    }

    /// The number of finished sessions.
    pub fn finished(&self) -> u32
        ensures finished { result ≡ self.now.finished }
        ensures few { result ≤ 65536 }
    {
        self.finished
    }
}
