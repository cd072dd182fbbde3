//! What may move to another thread, and what threads may share.

use crate::{Mark, Office};
use exam_edge::Disk;
use turn_lock::{Pass, Turn};

fn may_move<T: Send>() {}

fn may_be_shared<T: Sync>() {}

// It compiles only while an office may move if its disk may, and threads may share a lock with an
// office in it.
fn offices_may_move<'a, D: Disk + Send>() {
    may_move::<Mark>();
    may_move::<Office<'a, D>>();
    may_move::<Pass<Office<'a, D>>>();
    may_be_shared::<Turn<Office<'a, D>>>();
}
