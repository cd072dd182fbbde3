//! The records of a journal in memory, as a stream reads them.

ghost use Rattle.std.specs.Prelude.{IfOk, IsTrue};
ghost use Rattle.stream_trials.specs.Journals.{is_whole};

use crate::MemoryJournal;
use journal_stream::JournalTail;
use record_links::{Asked, GrowingLog};
use std::alloc::{AllocError, Global};

/// A journal of two records, of the payloads `3 4` and `5`.
const TWO: [u8; 22] = [
    83, 72, 65, 68, 79, 87, 74, 50, 1, 0, 0, 0, 2, 3, 4, 1, 0, 0, 0, 1, 5, 0,
];

fn journal_of_two(alloc: Global) -> Result<MemoryJournal, AllocError>
    ensures { IfOk result (λ journal. IsTrue (is_whole journal)) }
{
    let mut records = Vec::new(alloc);
    records.push([3u8, 4].to_vec(alloc)?)?;
    records.push([5u8].to_vec(alloc)?)?;
    Ok(MemoryJournal::of(records, TWO.to_vec(alloc)?))
}

// Whether the record of this number is there, and has this payload.
fn has(alloc: Global, log: &mut JournalTail<MemoryJournal>, number: u64, wanted: &[u8]) -> bool {
    match log.ask(alloc, number) {
        Ok(Asked::Record(payload)) => &payload[..] == wanted,
        _ => false,
    }
}

// Whether the record of this number is not known to be settled yet.
fn has_not(alloc: Global, log: &mut JournalTail<MemoryJournal>, number: u64) -> bool {
    matches!(log.ask(alloc, number), Ok(Asked::NotYet))
}

#[test]
fn the_last_record_waits_for_the_servers_count(rt: HostRuntime) -> Result<(), AllocError> {
    let alloc = rt.alloc();
    let journal = journal_of_two(alloc)?;
    let mut log = JournalTail::new(journal);
    assert!(rt; has(alloc, &mut log, 0, &[3, 4]));
    assert!(rt; has_not(alloc, &mut log, 1));
    assert!(rt; !log.wait());
    assert!(rt; has(alloc, &mut log, 1, &[5]));
    assert!(rt; has(alloc, &mut log, 0, &[3, 4]));
    assert!(rt; has_not(alloc, &mut log, 2));
    let _ = log.into_file();
    Ok(())
}
