//! A journal in memory.

ghost use Rattle.std.specs.Prelude.{◌≡◌, None};
ghost use Rattle.stream_trials.specs.Journals.{payloads_of, is_whole};
ghost use Rattle.stream_trials.specs.Whole.{whole_is_served};

use exam_edge::Failed;
use journal_stream::{GrowingFile, Waited};

/// The file of a journal in memory, with the payloads of its records, all of which its server has
/// settled. It reports its file if the bytes are those of the records, and any bytes may be given.
#[derive(Drop)]
pub struct MemoryJournal {
    records: Vec<Vec<u8>>,
    content: Vec<u8>,
    faults: u64,
}

impl MemoryJournal {
    /// A journal of these payloads and these bytes; no call has failed yet.
    pub fn of(records: Vec<Vec<u8>>, content: Vec<u8>) -> MemoryJournal
        ensures records { result.records ≡ records }
        ensures content { result.content ≡ content }
    {
        MemoryJournal {
            records,
            content,
            faults: 0,
        }
    }
}

impl GrowingFile for MemoryJournal {
    ghost tells = { is_whole };

    ghost moved = { λ _. None };

    ghost settled = { payloads_of };

    ghost content = { λ j. j.content.items };

    ghost faults = { λ j. j.faults };

    ghost served = { whole_is_served };

    fn read(&mut self, at: u64, buffer: &mut [u8]) -> Result<usize, Failed> {
        let from = (at as usize).min(self.content.len());
        let rest = &self.content[from..];
        let count = rest.len().min(buffer.len());
        buffer[..count].copy_from_slice(&rest[..count]);
        Ok(count)
    }

    fn refuse(&mut self, _at: u64) -> Failed {
        self.faults = self.faults.saturating_add(1);
        Failed
    }

    fn note(&mut self, _count: u64) {}

    fn wait(&mut self, _is_unsettled: bool) -> Waited {
        Waited {
            told: self.records.len() as u64,
            is_long: false,
        }
    }
}
