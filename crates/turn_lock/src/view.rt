//! What a pass knows, as plain data. No value of these types is ever made: they are the views of a
//! table's seats.

use std::collections::LinkedList;

/// What two passes had seen, and which places were their own, before one was joined into the other.
pub struct BeforeJoin<E> {
    pub seen: LinkedList<E>,
    pub other_seen: LinkedList<E>,
    pub mine: LinkedList<u64>,
    pub other_mine: LinkedList<u64>,
}

/// What a pass knows.
pub struct View<E> {
    /// False once the pass was joined into another.
    pub live: bool,
    /// The number of the pass.
    pub number: u64,
    /// How often it was split.
    pub splits: u64,
    /// The length of the history when the lock was made.
    pub start: u64,
    /// How many passes were joined into it, with those that were joined into these.
    pub joined: u64,
    /// The beginning of the history that it has seen.
    pub seen: LinkedList<E>,
    /// The places of its own entries.
    pub mine: LinkedList<u64>,
    /// The length of `seen` after each of its turns.
    pub fronts: LinkedList<u64>,
    /// The ticket that it waits with, or is served by.
    pub ticket: Option<u64>,
    /// Its ticket is the one that is served.
    pub served: bool,
    /// The value is out with it.
    pub out: bool,
    /// The last join into it.
    pub join: Option<BeforeJoin<E>>,
}
