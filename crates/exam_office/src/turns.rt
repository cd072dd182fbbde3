//! An office under a turn lock.

use crate::noted::Noted;
use crate::office::Office;
use exam_edge::Disk;
use turn_lock::Kept;

/// The history of an office is its list of marks, each with what the office was opened with:
/// nothing else is known of an office under a lock.
impl<'a, D: Disk> Kept for Office<'a, D> {
    ghost use Rattle.exam_office.specs.Noting.{noted, opened_with};

    type Entry = Noted<'a, D>;

    ghost history = { λ office. noted (opened_with office) office.marks };

    fn history_len(&self) -> u64 {
        self.marks.count()
    }
}
