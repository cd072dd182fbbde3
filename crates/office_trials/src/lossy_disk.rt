//! A disk in memory whose syncs that fail drop what they were to bring to the device.

ghost use Rattle.exam_edge.specs.Faults.{Rose};
ghost use Rattle.exam_edge.specs.ImageLaws.{is_its_image};
ghost use Rattle.std.specs.Prelude.{◌≡◌, ◌≤◌, [], false, OnErr};

use exam_edge::{Disk, Failed};
use std::alloc::Global;

/// What a read gives, what is on the device, and what a sync is to bring there: the ranges written
/// since the last one, each from its first place to the one after its last, and whether the length
/// was changed. A sync that fails forgets both, as a host does: the next one succeeds without them.
#[derive(Drop)]
pub(crate) struct LossyDisk {
    pub shown: Vec<u8>,
    pub device: Vec<u8>,
    ranges: Vec<(usize, usize)>,
    is_of_new_length: bool,
    fails: Vec<u64>,
    calls: u64,
    faults: u64,
}

// Writes bytes at a place, over what is there and after the end. Bytes between the end and the
// place are 0.
fn put(file: &mut Vec<u8>, at: usize, bytes: &[u8]) -> Option<()> {
    let end = at.checked_add(bytes.len())?;
    if file.len() < end {
        file.resize(end, 0).ok()?;
    }
    if file.len() < end {
        return None;
    }
    file[at..end].copy_from_slice(bytes);
    Some(())
}

// Brings the ranges to the device.
fn settle(device: &mut Vec<u8>, shown: &[u8], ranges: &[(usize, usize)]) {
    for range in ranges {
        let (from, to) = *range;
        if from <= to && to <= shown.len() {
            let _done = put(device, from, &shown[from..to]);
        }
    }
}

impl LossyDisk {
    /// A file that is on the device. Its calls that have these numbers fail.
    pub(crate) fn of(alloc: Global, shown: Vec<u8>, device: Vec<u8>, fails: Vec<u64>) -> LossyDisk {
        LossyDisk {
            shown,
            device,
            ranges: Vec::new(alloc),
            is_of_new_length: false,
            fails,
            calls: 0,
            faults: 0,
        }
    }

    fn count_fault(&mut self) -> Failed
        ensures grows { self.old.faults ≤ self.new.faults }
        ensures rose { Rose self.old.faults self.new.faults }
    {
        self.faults = self.faults.saturating_add(1);
        Failed
    }

    // Counts a call, which fails by its number.
    fn begin_call(&mut self) -> Result<(), Failed>
        ensures grows { self.old.faults ≤ self.new.faults }
        ensures failed { OnErr result (Rose self.old.faults self.new.faults) }
    {
        let call = self.calls;
        self.calls = call.saturating_add(1);
        if self.fails.contains(&call) {
            return Err(self.count_fault());
        }
        Ok(())
    }
}

impl LossyDisk {
    // Writes bytes and notes their range.
    fn put(&mut self, at: u64, bytes: &[u8]) -> Option<()>
        ensures { self.new.faults ≡ self.old.faults }
    {
        let from = at as usize;
        let was = self.shown.len();
        put(&mut self.shown, from, bytes)?;
        self.is_of_new_length = self.is_of_new_length || was < self.shown.len();
        self.ranges
            .push((from, from.saturating_add(bytes.len())))
            .ok()
    }

    // Brings to the device what it is to get.
    fn settle(&mut self)
        ensures { self.new.faults ≡ self.old.faults }
    {
        if self.is_of_new_length {
            self.device.truncate(self.shown.len());
            let _longer = self.device.resize(self.shown.len(), 0);
        }
        settle(&mut self.device, &self.shown, &self.ranges);
    }

    // Forgets what the device was to get.
    fn forget(&mut self)
        ensures { self.new.faults ≡ self.old.faults }
    {
        self.ranges.clear();
        self.is_of_new_length = false;
    }
}

impl Disk for LossyDisk {
    ghost tells = { λ d. false };

    ghost content = { λ d. [] };

    ghost accounts = { λ d. [] };

    ghost may_become = { λ before file. Unit {0} };

    ghost aside = { λ d. [] };

    ghost faults = { λ d. d.faults };

    ghost identity = { λ d. 0 };

    ghost is_image = { λ d told. is_its_image [] };

    fn len(&mut self) -> Result<u64, Failed> {
        self.begin_call()?;
        Ok(self.shown.len() as u64)
    }

    fn read(&mut self, at: u64, buffer: &mut [u8]) -> Result<usize, Failed> {
        self.begin_call()?;
        let at = at as usize;
        if self.shown.len() <= at {
            return Ok(0);
        }
        let rest = &self.shown[at..];
        let count = rest.len().min(buffer.len());
        buffer[..count].copy_from_slice(&rest[..count]);
        Ok(count)
    }

    fn write_at(&mut self, at: u64, bytes: &[u8]) -> Result<(), Failed> {
        self.begin_call()?;
        match self.put(at, bytes) {
            Some(()) => Ok(()),
            None => Err(self.count_fault()),
        }
    }

    fn renew(&mut self, at: u64, bytes: &[u8]) -> Result<(), Failed> {
        self.begin_call()?;
        match self.put(at, bytes) {
            Some(()) => Ok(()),
            None => Err(self.count_fault()),
        }
    }

    fn cut(&mut self, length: u64) -> Result<(), Failed> {
        self.begin_call()?;
        self.shown.truncate(length as usize);
        self.is_of_new_length = true;
        Ok(())
    }

    fn sync(&mut self) -> Result<(), Failed> {
        match self.begin_call() {
            Ok(()) => {
                self.settle();
                self.forget();
                Ok(())
            }
            Err(failed) => {
                self.forget();
                Err(failed)
            }
        }
    }

    fn put_aside(&mut self, _gate: u64) -> Result<(), Failed> {
        self.begin_call()
    }
}
