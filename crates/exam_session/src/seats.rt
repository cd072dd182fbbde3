//! What an entry changes in the seats of a book.

ghost use Rattle.std.specs.Prelude.{◌≡◌, ◌+◌, ◌<◌, ◌≤◌, [], ◌∷◌, ◌++◌, List, length, IsTrue, IsFalse, IsSome, IfSome, OnOk, None, if◌then◌else◌};
ghost use Rattle.std.specs.Option.{option_copied};
ghost use Rattle.std.specs.Vec.{vec_len, vec_capacity};
ghost use Rattle.bank_tables.specs.Tables.{Tables};
ghost use Rattle.form_model.specs.Plan.{Plan};
ghost use Rattle.history_model.specs.declared.entry.Entry.{Entry};
ghost use Rattle.history_model.specs.Entries.{session_of, starts};
ghost use Rattle.history_model.specs.Legality.{Legal, LegalRun};
ghost use Rattle.exam_session.specs.KeptSeats.{IsSpare, IsSeated, AreKept, HaveSums, HasRoomFor, TakesStart, StartsSeat};

use crate::kept_seat::KeptSeat;
use bank_tables::Bank;
use constraint_model::Spec;
use exposure_counters::Memory;
use history_model::{Bands, Entry, Without};
use std::alloc::Global;

/// The session that an entry is of.
pub(crate) fn session_of(entry: &Entry) -> u32
    ensures { result ≡ session_of entry.now }
{
    match *entry {
        Entry::Started { session, .. }
        | Entry::SetAside { session, .. }
        | Entry::Served { session, .. }
        | Entry::Answered { session, .. }
        | Entry::Closed { session } => session,
    }
}

/// Makes the seat for the next session, where there is none.
pub(crate) fn make_spare(
    spare: &mut Option<KeptSeat>,
    alloc: Global,
    spec: &Spec,
) -> Result<(), Memory>
    requires some { 0 < length spec.now.prior }
    requires few { length spec.now.prior ≤ 61 }
    requires spare { IfSome spare.old (IsSpare spec.now) }
    ensures spare { IfSome spare.new (IsSpare spec.now) }
    ensures there { OnOk result (IsSome spare.new) }
{
    if spare.is_none() {
        *spare = Some(KeptSeat::new(alloc, spec)?);
    }
    Ok(())
}

/// Adds the spare seat as that of a session that starts.
fn start_seat(
    seats: &mut Vec<KeptSeat>,
    spare: &mut Option<KeptSeat>,
    eligible: &Bands,
    without: Option<&Without>,
)
    requires room { vec_len seats.old < vec_capacity seats.old }
    requires spare { IsSome spare.old }
    requires takes { IfSome spare.old (TakesStart eligible.now (option_copied without)) }
    ensures seats { IfSome spare.old
        (StartsSeat seats.old.items eligible.now (option_copied without.entry) seats.new.items) }
    ensures none { spare.new ≡ None }
    ensures number { vec_len seats.new ≡ vec_len seats.old + 1 }
    ensures capacity { vec_capacity seats.new ≡ vec_capacity seats.old }
{
    match spare.take() {
        Some(kept) => {
            let mut seat = kept;
            seat.start(eligible, without);
            seats.push_reserved(seat);
        }
        None => unreachable!(),
    }
}

/// Changes the seat of an entry's session.
fn change_seat(bank: &Bank, seats: &mut [KeptSeat], entry: &Entry)
    requires { IsSeated bank.now seats.old entry.now }
    ensures seats { (b : Tables) (plan : Plan) (H : List Entry) → IsFalse (starts entry.now)
        → LegalRun b plan H → Legal b plan H entry.now → AreKept plan H seats.old
        → AreKept plan (H ++ entry.now ∷ []) seats.new }
    ensures sums { (plan : Plan) → HaveSums bank.now plan seats.old
        → HaveSums bank.now plan seats.new }
{
    let session = session_of(entry) as usize;
    seats[session].note(bank, entry);
}

/// Notes an entry in the seats: a start adds the spare one, any other entry changes that of its
/// session.
pub(crate) fn note_seat(
    bank: &Bank,
    seats: &mut Vec<KeptSeat>,
    spare: &mut Option<KeptSeat>,
    entry: &Entry,
)
    requires room { IsTrue (starts entry.now) → vec_len seats.old < vec_capacity seats.old }
    requires spare { IsTrue (starts entry.now) → IsSome spare.old }
    requires takes { IsTrue (starts entry.now) → IfSome spare.old (HasRoomFor entry.now) }
    requires seated { IsFalse (starts entry.now) → IsSeated bank.now seats.old.items entry.now }
    ensures seats { (b : Tables) (plan : Plan) (H : List Entry) → LegalRun b plan H
        → Legal b plan H entry.now → IfSome spare.old (IsSpare plan)
        → AreKept plan H seats.old.items → AreKept plan (H ++ entry.now ∷ []) seats.new.items }
    ensures sums { (plan : Plan) → bank.now.grid ≡ length plan.prior
        → IfSome spare.old (IsSpare plan) → HaveSums bank.now plan seats.old.items
        → HaveSums bank.now plan seats.new.items }
    ensures spare { (plan : Plan) → IfSome spare.old (IsSpare plan)
        → IfSome spare.new (IsSpare plan) }
    ensures number { vec_len seats.new ≡ vec_len seats.old + (if starts entry.now then 1 else 0) }
    ensures capacity { vec_capacity seats.new ≡ vec_capacity seats.old }
{
    match *entry {
        Entry::Started {
            eligible,
            without,
            ..
        } => start_seat(seats, spare, &eligible, without.as_ref()),
        _ => change_seat(bank, seats.as_mut_slice(), entry),
    }
}
