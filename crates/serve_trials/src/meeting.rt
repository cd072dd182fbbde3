//! A gate at which two callers meet.

use exam_edge::{Gate, Point};
use exam_handler::{Health, Observer};
use std::sync::atomic::{AtomicU32, Ordering};
use std::thread;

// How many turns a caller waits for the other, before it gives up.
const TURNS: u32 = 2_000_000;

/// It holds each caller before its assembly until two callers have reached it, for at most so many
/// turns.
#[derive(Drop)]
pub(crate) struct Meeting {
    arrived: AtomicU32,
    given_up: AtomicU32,
}

impl Meeting {
    pub(crate) fn new() -> Meeting {
        Meeting {
            arrived: AtomicU32::new(0),
            given_up: AtomicU32::new(0),
        }
    }

    /// How many callers gave up.
    pub(crate) fn given_up(&self) -> u32 {
        self.given_up.load(Ordering::SeqCst)
    }
}

impl Gate for Meeting {
    fn pass(&self, point: Point, _caller: u32) {
        if point == Point::AfterAssembly {
            return;
        }
        self.arrived.fetch_add(1, Ordering::SeqCst);
        for _ in 0..TURNS {
            if self.arrived.load(Ordering::SeqCst) >= 2 {
                return;
            }
            thread::yield_now();
        }
        self.given_up.fetch_add(1, Ordering::SeqCst);
    }
}

impl Observer for Meeting {
    fn see(&self, _health: &Health) {}
}
