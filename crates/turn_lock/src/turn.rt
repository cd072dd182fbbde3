//! The lock.

ghost use Rattle.std.specs.Prelude.{◌≡◌, ◌<◌, ◌+◌, List, length, IfOk, IfErr};
ghost use Rattle.turn_lock.specs.Histories.{StartsWith};
ghost use Rattle.turn_lock.specs.Passes.{KnowsAll, LockId, TakesTurn, TakesIn, new_pass};
ghost use Rattle.turn_lock.specs.Seats.{IsLockTable};

use crate::kept::{Kept, Move};
use crate::kinds::{Learn, LockRule, Part, Unite};
use crate::pass::Pass;
use crate::steps::{await_last, await_turn, draw, give_back, keep, leave, take};
use crate::view::View;
use atomic_table::{Refused, Table};
use std::alloc::{AllocFailed, Global};
use std::marker::Model;
use std::snapshot::Snapshot;
use std::sync::Wait;

/// A value that callers use in turns, each with a pass of this lock. Contracts see which lock it
/// is. Threads may share it if the value may go from one to another. It can't be dropped: `close`
/// ends it, and gives the value back.
pub struct Turn<V: Kept> {
    table: Table<Option<V>, View<V::Entry>, Snapshot<V>, LockRule, Global>,
}

impl<V: Kept> Model for Turn<V> {
    ghost Value = { LockId };

    ghost view = { λ t. t.table.shared.table_id };

    ghost invariant = { λ t. IsLockTable t.table.shared.table_id };
}

impl<V: Kept> Turn<V> {
    /// A lock with the value in it, and its first pass, which has seen the whole history. Out of
    /// memory, the value is given back as it was.
    pub fn new(alloc: Global, value: V) -> Result<(Turn<V>, Pass<V>), V>
        // Promise: A new lock's pass has seen the value's whole history. If memory runs out the
        // value is handed back as it was
        // - by `made`, `same`
        ensures made { IfOk result (λ r. r.1 ≡ new_pass r.0 0 (length (V.history value)) (V.history value)) }
        ensures same { IfErr result (λ v. v ≡ value) }
    {
        let about = Snapshot::of(&value);
        let count = value.history_len();
        let mut slots = Vec::new(alloc);
        if let Err(AllocFailed { value }) = slots.push(Some(value)) {
            slots.destroy_empty();
            return Err(value.unwrap());
        }
        match Table::new(alloc, &[0, 0, count], slots, &about) {
            Ok((table, seat)) => Ok((
                Turn { table },
                Pass {
                    seat,
                    number: 0,
                    splits: 0,
                },
            )),
            Err(Refused { mut slots }) => {
                let value = slots.pop().unwrap().unwrap();
                slots.destroy_empty();
                Err(value)
            }
        }
    }

    /// Waits for the pass's turn, and makes the move on the value, once. The history that the move
    /// finds begins with all that the pass has seen. Afterwards the pass has seen the whole
    /// history, and what the move added is its own.
    pub fn turn<M: Move<V>, R: Wait>(&self, rt: &R, pass: &mut Pass<V>, step: &mut M) -> M::Answer
        requires of { pass.old.turn ≡ self.now }
        requires needs { M.needs step.old pass.old.seen }
        // Promise: A move is made once, on a value whose history begins with all that the caller's
        // pass has seen, and adds at most two entries. After it the pass has seen the whole
        // history, and the new entries are its own
        // - by `turn` (`TakesTurn`)
        ensures turn { (before : List V.Entry) × TakesTurn pass.old pass.new before
            × M.makes step.old before pass.new.seen step.new result }
    {
        let table = &self.table.shared;
        let ticket = draw(table, &mut pass.seat);
        await_turn(table, rt, &mut pass.seat, ticket);
        let mut value = take(table, &mut pass.seat);
        let answer = step.make(&mut value);
        give_back(table, &mut pass.seat, value);
        leave(table, &mut pass.seat);
        answer
    }

    /// A new pass, which has seen as much as the first one. It takes no memory. Only the first pass
    /// is split, at most 65,535 times, so that no more passes than that and one wait at once.
    pub fn split(&self, pass: &mut Pass<V>) -> Pass<V>
        requires of { pass.old.turn ≡ self.now }
        requires first { (pass.old.number ≡ 0) × (pass.old.splits < 65535) }
        // Promise: A split pass has seen as much, has no own entries, and has a new number
        // - by `pass`, `new`
        ensures pass { pass.new ≡ record pass.old { splits = pass.old.splits + 1 } }
        ensures new { result ≡ new_pass self.now (pass.old.splits + 1) pass.old.start
            pass.old.seen }
    {
        let seat = self.table.shared.split_seat::<Part>(&mut pass.seat);
        pass.splits += 1;
        Pass {
            seat,
            number: pass.splits,
            splits: 0,
        }
    }

    /// Joins another pass into this one, which has then seen the longer of what the two have seen,
    /// and has both their places for its own. It keeps its number and its fronts.
    pub fn join(&self, pass: &mut Pass<V>, other: Pass<V>)
        requires of { (pass.old.turn ≡ self.now) × (other.turn ≡ self.now) }
        // Promise: Of what two passes have seen one begins the other, and no entry is the own of
        // both; the joined pass has the longer
        // - by `joined` (`TakesIn`)
        ensures joined { TakesIn pass.old other pass.new }
    {
        let Pass {
            seat,
            number: _,
            splits: _,
        } = other;
        self.table.shared.join_seat::<Unite>(&mut pass.seat, seat);
        self.table.shared.load::<Learn>(&mut pass.seat, 0);
    }

    /// Waits for a last turn, ends the lock, and gives the value that is found then. Its history
    /// begins with all that the pass has seen. If the pass is the first one, and each pass that was
    /// split from it was joined into it, it has seen the whole history, and each entry since the
    /// lock was made is its own. Else nothing is promised of entries that only other passes have
    /// seen.
    pub fn close<R: Wait>(self, rt: &R, pass: Pass<V>) -> V
        requires of { pass.turn ≡ self }
        // Promise: The history of the value at the end begins with all that the closing pass has
        // seen
        ensures begins { StartsWith (V.history result) pass.seen }
        // Promise: If the closing pass is the first one, and as many passes were joined into it as
        // were split from it, it has seen the whole history, and each entry since the lock was made
        // is its own
        // - by `all` (`KnowsAll`)
        ensures all { KnowsAll (V.history result) pass }
    {
        let Turn { table } = self;
        let Pass {
            mut seat,
            number: _,
            splits: _,
        } = pass;
        let ticket = draw(&table.shared, &mut seat);
        await_last(&table.shared, rt, &mut seat, ticket);
        keep(table, seat)
    }
}
