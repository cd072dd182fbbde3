//! The parts of a turn, each a function over the lock's table and one seat.

ghost use Rattle.std.specs.Prelude.{◌≡◌, ◌<◌, ℕ, ◌%◌, [], ◌∷◌, Some, None, true, false};
ghost use Rattle.turn_lock.specs.Histories.{ArePlacesIn, StartsWith};
ghost use Rattle.turn_lock.specs.Passes.{KnowsAll};
ghost use Rattle.turn_lock.specs.Seats.{known_of, IsSeatOf, IsLockTable, IsIdle, Waits, Carries, raised_view, ended_view};
ghost use Rattle.turn_lock.specs.Plays.{Draws, IsTaken, IsServed, Looks, LooksOn};

use crate::kept::Kept;
use crate::kinds::{Draw, Leave, LockRule, Raise, Reach, Serve};
use crate::view::View;
use atomic_table::{Seat, Shared, Table};
use std::alloc::Global;
use std::snapshot::Snapshot;
use std::sync::Wait;

/// The lock's table as its callers share it.
pub(crate) type LockTable<V> = Shared<Option<V>, View<<V as Kept>::Entry>, Snapshot<V>, LockRule>;

/// A caller's seat at it.
pub(crate) type LockSeat<V> = Seat<Option<V>, View<<V as Kept>::Entry>>;

// Draws a ticket, and gives its number.
pub(crate) fn draw<V: Kept>(table: &LockTable<V>, seat: &mut LockSeat<V>) -> u64
    requires of { IsSeatOf seat.old.table_id table.now.table_id }
    requires idle { IsIdle seat.old.me.0 }
    ensures of { seat.new.table_id ≡ seat.old.table_id }
    ensures drawn { Draws seat.old.me result seat.new.me }
{
    table.fetch_add::<Draw>(seat, 0, 1)
}

// Looks once whether the ticket is served. If so, the value is out with the seat.
fn look<V: Kept>(table: &LockTable<V>, seat: &mut LockSeat<V>, ticket: u64) -> bool
    requires of { IsSeatOf seat.old.table_id table.now.table_id }
    requires waits { Waits seat.old.me ticket }
    ensures of { seat.new.table_id ≡ seat.old.table_id }
    ensures looked { Looks V.history seat.old.me result seat.new.me }
{
    table.load::<Serve>(seat, 1) == ticket
}

// Waits until the ticket is served. The value is then out with the seat.
pub(crate) fn await_turn<V: Kept, R: Wait>(
    table: &LockTable<V>,
    rt: &R,
    seat: &mut LockSeat<V>,
    ticket: u64,
)
    requires of { IsSeatOf seat.old.table_id table.now.table_id }
    requires waits { Waits seat.old.me ticket }
    ensures of { seat.new.table_id ≡ seat.old.table_id }
    ensures taken { (x : V) × IsTaken V.history seat.old.me x seat.new.me }
{
    for _ in rt.forever() {
        if look(table, seat, ticket) {
            return;
        }
        rest(table, rt, ticket);
    }
    unreachable!()
}

// Looks once whether the ticket is served, and leaves the value at home.
fn look_on<V: Kept>(table: &LockTable<V>, seat: &mut LockSeat<V>, ticket: u64) -> bool
    requires of { IsSeatOf seat.old.table_id table.now.table_id }
    requires waits { Waits seat.old.me ticket }
    ensures of { (seat.new.table_id ≡ seat.old.table_id) × (seat.new.id ≡ seat.old.id) }
    ensures looked { LooksOn seat.old.me result seat.new.me }
{
    table.load::<Reach>(seat, 1) == ticket
}

// Waits until the ticket is served, and leaves the value at home.
pub(crate) fn await_last<V: Kept, R: Wait>(
    table: &LockTable<V>,
    rt: &R,
    seat: &mut LockSeat<V>,
    ticket: u64,
)
    requires of { IsSeatOf seat.old.table_id table.now.table_id }
    requires waits { Waits seat.old.me ticket }
    ensures of { (seat.new.table_id ≡ seat.old.table_id) × (seat.new.id ≡ seat.old.id) }
    ensures served { IsServed seat.old.me seat.new.me }
{
    for _ in rt.forever() {
        if look_on(table, seat, ticket) {
            return;
        }
        rest(table, rt, ticket);
    }
    unreachable!()
}

// Sleeps until a turn ends, unless the ticket is served already. It may return at any time: this
// saves processor time, and no clause rests on it.
fn rest<V: Kept, R: Wait>(table: &LockTable<V>, rt: &R, ticket: u64)
    requires { IsLockTable table.now.table_id }
{
    let found = table.peek(1);
    if found != ticket {
        table.park(rt, 1, (found % (1 << 32)) as u32);
    }
}

// Takes the value out of the slot.
pub(crate) fn take<V: Kept>(table: &LockTable<V>, seat: &mut LockSeat<V>) -> V
    requires of { IsSeatOf seat.old.table_id table.now.table_id }
    requires has { (x : V) × Carries seat.old.me x }
    ensures of { seat.new.table_id ≡ seat.old.table_id }
    ensures was { Carries seat.old.me result }
    ensures empty { seat.new.me ≡ (seat.old.me.0, (0, None) ∷ []) }
{
    table.exchange(seat, 0, None).unwrap()
}

// Puts the value back into the slot, which is still out with the seat, and stores the length of its
// history.
pub(crate) fn give_back<V: Kept>(table: &LockTable<V>, seat: &mut LockSeat<V>, value: V)
    requires of { IsSeatOf seat.old.table_id table.now.table_id }
    requires empty { (seat.old.me.1 ≡ (0, None) ∷ []) × (seat.old.me.0.out ≡ true) }
    requires grown { StartsWith (V.history value) seat.old.me.0.seen }
    ensures of { seat.new.table_id ≡ seat.old.table_id }
    ensures view { seat.new.me.0 ≡ raised_view seat.old.me.0 (V.history value) }
    ensures back { Carries seat.new.me value }
    ensures within { ArePlacesIn seat.new.me.0.mine seat.new.me.0.seen }
{
    let count = value.history_len();
    put(table, seat, value);
    table.store::<Raise>(seat, 2, count);
}

// Puts the value into the empty slot.
fn put<V: Kept>(table: &LockTable<V>, seat: &mut LockSeat<V>, value: V)
    requires of { IsSeatOf seat.old.table_id table.now.table_id }
    requires empty { seat.old.me.1 ≡ (0, None) ∷ [] }
    ensures of { seat.new.table_id ≡ seat.old.table_id }
    ensures view { seat.new.me.0 ≡ seat.old.me.0 }
    ensures full { Carries seat.new.me value }
{
    match table.exchange(seat, 0, Some(value)) {
        None => {}
        Some(_) => unreachable!(),
    }
}

// Serves the next ticket.
pub(crate) fn leave<V: Kept>(table: &LockTable<V>, seat: &mut LockSeat<V>)
    requires of { IsSeatOf seat.old.table_id table.now.table_id }
    requires turn { seat.old.me.0.out ≡ true }
    requires back { (x : V) × Carries seat.old.me x × (V.history x ≡ seat.old.me.0.seen) }
    ensures of { seat.new.table_id ≡ seat.old.table_id }
    ensures over { seat.new.me ≡ (ended_view seat.old.me.0, []) }
{
    let served = table.fetch_add::<Leave>(seat, 1, 1);
    wake(table, served.wrapping_add(1));
}

// Wakes those that wait, unless the ticket that is now served is not drawn yet: nobody waits then,
// and whoever draws it finds it served. This saves a call of the system, and no clause rests on it.
fn wake<V: Kept>(table: &LockTable<V>, serving: u64)
    requires { IsLockTable table.now.table_id }
{
    if table.peek(0) != serving {
        table.wake_all(1);
    }
}

// Ends the lock, and keeps the value that is at home: the seat's ticket is served.
pub(crate) fn keep<V: Kept>(
    table: Table<Option<V>, View<V::Entry>, Snapshot<V>, LockRule, Global>,
    seat: LockSeat<V>,
) -> V
    requires of { IsSeatOf seat.table_id table.shared.table_id }
    requires has { (t : ℕ) × (seat.me.0.ticket ≡ Some t) }
    requires served { (seat.me.0.served ≡ true) × (seat.me.0.out ≡ false) }
    ensures begins { StartsWith (V.history result) seat.me.0.seen }
    ensures all { KnowsAll (V.history result) (known_of seat.table_id seat.me.0) }
{
    let mut closed = table.close_with(seat);
    let value = closed.take(0).unwrap();
    closed.free();
    value
}
