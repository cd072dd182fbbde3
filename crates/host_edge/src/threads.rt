//! Which objects may move to another thread.

use crate::{
    Closing, HostDisk, HostDoor, HostFiles, HostLink, HostSink, LineCopier, Lines, Reserve,
    ReserveKeeper,
};

fn may_move<T: Send>() {}

// It compiles only while each of these types may move.
fn objects_may_move() {
    may_move::<Closing>();
    may_move::<Lines>();
    may_move::<LineCopier>();
    may_move::<Reserve>();
    may_move::<ReserveKeeper>();
    may_move::<HostFiles>();
    may_move::<HostSink>();
    may_move::<HostDisk>();
    may_move::<HostLink>();
    may_move::<HostDoor>();
}
