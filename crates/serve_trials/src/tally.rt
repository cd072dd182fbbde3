//! An observer that counts.

use exam_edge::{Gate, Point};
use exam_handler::{Health, Observer};
use std::sync::atomic::{AtomicU32, Ordering};

/// It counts how often it is told how the examination is, and how often that is of two open
/// sessions with four entries. As a gate it holds nobody.
#[derive(Drop)]
pub(crate) struct Tally {
    seen: AtomicU32,
    of_two: AtomicU32,
}

impl Tally {
    pub(crate) fn new() -> Tally {
        Tally {
            seen: AtomicU32::new(0),
            of_two: AtomicU32::new(0),
        }
    }

    /// How often it was told.
    pub(crate) fn seen(&self) -> u32 {
        self.seen.load(Ordering::SeqCst)
    }

    /// How often of two open sessions with four entries.
    pub(crate) fn of_two(&self) -> u32 {
        self.of_two.load(Ordering::SeqCst)
    }
}

impl Gate for Tally {
    fn pass(&self, _point: Point, _caller: u32) {}
}

impl Observer for Tally {
    fn see(&self, health: &Health) {
        self.seen.fetch_add(1, Ordering::SeqCst);
        if health.entries == 4 && health.sessions == 2 && health.open == 2 {
            self.of_two.fetch_add(1, Ordering::SeqCst);
        }
    }
}
