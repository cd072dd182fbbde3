//! A gate that counts assemblies.

use exam_edge::{Gate, Point};
use exam_handler::{Health, Observer};
use std::sync::atomic::{AtomicU32, Ordering};

/// It counts the assemblies that begin, and holds nobody.
#[derive(Drop)]
pub(crate) struct Assemblies {
    begun: AtomicU32,
}

impl Assemblies {
    pub(crate) fn new() -> Assemblies {
        Assemblies {
            begun: AtomicU32::new(0),
        }
    }

    /// How many assemblies have begun.
    pub(crate) fn begun(&self) -> u32 {
        self.begun.load(Ordering::SeqCst)
    }
}

impl Gate for Assemblies {
    fn pass(&self, point: Point, _caller: u32) {
        if point == Point::BeforeAssembly {
            self.begun.fetch_add(1, Ordering::SeqCst);
        }
    }
}

impl Observer for Assemblies {
    fn see(&self, _health: &Health) {}
}
