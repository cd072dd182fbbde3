//! The bookings of a book, and the order of its sessions by them.

ghost use Rattle.std.specs.Prelude.{◌≡◌, ◌+◌, ◌<◌, ◌≤◌, [], ◌∷◌, ◌++◌, List, IsTrue, OnOk, if◌then◌else◌};
ghost use Rattle.std.specs.Vec.{vec_len};
ghost use Rattle.bank_tables.specs.Tables.{Tables};
ghost use Rattle.form_model.specs.Plan.{Plan};
ghost use Rattle.history_model.specs.declared.entry.Entry.{Entry};
ghost use Rattle.history_model.specs.Entries.{starts};
ghost use Rattle.history_model.specs.Legality.{Legal, LegalRun};
ghost use Rattle.exam_session.specs.Bookings.{booking_of, session_with, IsRising, IsPlaceFor, AreBookings, places};

use exposure_counters::Memory;
use history_model::Entry;
use std::alloc::Global;

/// The booking of each session, and the sessions in ascending order of them.
#[derive(Drop)]
pub(crate) struct Bookings {
    pub(crate) each: Vec<u64>,
    pub(crate) order: Vec<u32>,
}

impl Bookings {
    /// No bookings.
    pub(crate) fn new(alloc: Global) -> Bookings
        ensures each { result.each.items ≡ [] }
        ensures order { result.order.items ≡ [] }
        ensures len { vec_len result.each ≡ 0 }
    {
        Bookings {
            each: Vec::new(alloc),
            order: Vec::new(alloc),
        }
    }

    /// Makes room for the booking of one session more.
    pub(crate) fn reserve(&mut self) -> Result<(), Memory>
        requires { vec_len self.old.order ≡ vec_len self.old.each }
        ensures each { self.new.each.items ≡ self.old.each.items }
        ensures order { self.new.order.items ≡ self.old.order.items }
        ensures len { vec_len self.new.each ≡ vec_len self.old.each }
        ensures ok { OnOk result (vec_len self.new.each + 1 ≤ places self.new) }
        ensures capacity { places self.old ≤ places self.new }
    {
        self.each.reserve(1)?;
        self.order.reserve(1)?;
        Ok(())
    }
}

/// The booking of a session.
fn booking_of(bookings: &[u64], session: u32) -> u64
    ensures { result ≡ booking_of bookings.now session }
{
    match bookings.get(session as usize) {
        Some(booking) => *booking,
        None => 0,
    }
}

/// The place of a booking among sessions in ascending order of theirs: the bookings before it are
/// lower, and those from it on are not. It is found by halves.
fn place_for(bookings: &[u64], order: &[u32], booking: u64) -> usize
    requires { IsRising bookings.now order.now }
    ensures { IsPlaceFor bookings.now order.now booking result }
{
    order.partition_point(|session| booking_of(bookings, *session) < booking)
}

/// The session of a booking; none where it has none.
pub(crate) fn session_with(bookings: &[u64], order: &[u32], booking: u64) -> Option<u32>
    requires { IsRising bookings.now order.now }
    ensures { result ≡ session_with bookings.now order.now booking }
{
    match order.get(place_for(bookings, order, booking)) {
        Some(session) if booking_of(bookings, *session) == booking => Some(*session),
        _ => None,
    }
}

/// Notes the booking of a start.
pub(crate) fn note_booking(bookings: &mut Bookings, entry: &Entry)
    requires rising { IsRising bookings.old.each.items bookings.old.order.items }
    requires same { vec_len bookings.old.order ≡ vec_len bookings.old.each }
    requires room { IsTrue (starts entry.now) → vec_len bookings.old.each < places bookings.old }
    ensures bookings { (b : Tables) (plan : Plan) (H : List Entry) → LegalRun b plan H
        → Legal b plan H entry.now
        → AreBookings H bookings.old.each.items bookings.old.order.items
        → AreBookings (H ++ entry.now ∷ []) bookings.new.each.items bookings.new.order.items }
    ensures number { vec_len bookings.new.each ≡ vec_len bookings.old.each
        + (if starts entry.now then 1 else 0) }
    ensures capacity { places bookings.new ≡ places bookings.old }
{
    if let Entry::Started {
        session,
        booking,
        ..
    } = *entry
    {
        let place = place_for(bookings.each.as_slice(), bookings.order.as_slice(), booking);
        bookings.each.push_reserved(booking);
        match bookings.order.insert(place, session) {
            Ok(()) => {}
            Err(_) => unreachable!(),
        }
    }
}
