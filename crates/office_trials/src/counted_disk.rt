//! A disk whose calls are counted.

ghost use Rattle.std.specs.Prelude.{◌≡◌};

use exam_edge::{Disk, Failed};

/// How many calls were made, and how many of them failed. Both counts stay at their last value.
#[derive(Clone, Copy)]
pub(crate) struct Count {
    pub calls: u64,
    pub faults: u64,
}

impl Count {
    fn add(&mut self, failed: bool) {
        self.calls = self.calls.saturating_add(1);
        if failed {
            self.faults = self.faults.saturating_add(1);
        }
    }
}

/// A disk, and the count of its calls.
#[derive(Drop)]
pub(crate) struct CountedDisk<D: Disk> {
    pub disk: D,
    pub count: Count,
}

impl<D: Disk> CountedDisk<D> {
    /// Before its first call.
    pub(crate) fn of(disk: D) -> CountedDisk<D>
        ensures { result.disk ≡ disk }
    {
        CountedDisk {
            disk,
            count: Count {
                calls: 0,
                faults: 0,
            },
        }
    }
}

impl<D: Disk> Disk for CountedDisk<D> {
    ghost tells = { λ d. D.tells d.disk };

    ghost content = { λ d. D.content d.disk };

    ghost accounts = { λ d. D.accounts d.disk };

    ghost may_become = { D.may_become };

    ghost aside = { λ d. D.aside d.disk };

    ghost faults = { λ d. D.faults d.disk };

    ghost identity = { λ d. D.identity d.disk };

    ghost is_image = { λ d found. D.is_image d.disk found };

    fn len(&mut self) -> Result<u64, Failed> {
        let answer = self.disk.len();
        self.count.add(answer.is_err());
        answer
    }

    fn read(&mut self, at: u64, buffer: &mut [u8]) -> Result<usize, Failed> {
        let answer = self.disk.read(at, buffer);
        self.count.add(answer.is_err());
        answer
    }

    fn write_at(&mut self, at: u64, bytes: &[u8]) -> Result<(), Failed> {
        let answer = self.disk.write_at(at, bytes);
        self.count.add(answer.is_err());
        answer
    }

    fn renew(&mut self, at: u64, bytes: &[u8]) -> Result<(), Failed> {
        let answer = self.disk.renew(at, bytes);
        self.count.add(answer.is_err());
        answer
    }

    fn cut(&mut self, length: u64) -> Result<(), Failed> {
        let answer = self.disk.cut(length);
        self.count.add(answer.is_err());
        answer
    }

    fn sync(&mut self) -> Result<(), Failed> {
        let answer = self.disk.sync();
        self.count.add(answer.is_err());
        answer
    }

    fn put_aside(&mut self, gate: u64) -> Result<(), Failed> {
        let answer = self.disk.put_aside(gate);
        self.count.add(answer.is_err());
        answer
    }
}
