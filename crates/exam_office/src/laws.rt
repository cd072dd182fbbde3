//! What the definitions imply, for every file, bank and plan.

ghost use Rattle.exam_office.specs.Laws.{OneHistory, StandsForLegalRun, StandingIsOpened, StandingIsRead, EachMomentStands, SettledMomentStands, MayBeCommittedNow, AskedIsAnswered, MigrateIsComplete};
ghost use Rattle.bank_tables.specs.Tables.{Tables};
ghost use Rattle.form_model.specs.Plan.{Plan};
ghost use Rattle.exam_office.specs.Allowing.{HistoriesGoOn};

use exam_edge::Disk;

/// A file represents at most one history.
// Promise: A file represents at most one history, which is a legal run, and such a file is never
// refused for its bytes
// - of `laws::one_history`, `laws::stands_for_legal_run`, `laws::standing_is_opened`
// - by `OneHistory`, `StandsForLegalRun`, `StandingIsOpened`
pub fn one_history()
    ensures { OneHistory }
{}

/// A disk may allow just that a file comes of another whose history it represents, with or without
/// further entries. Then it allows what an office asks at its opening.
pub fn histories_go_on()
    ensures { (b : Tables) (plan : Plan) → HistoriesGoOn b plan }
{}

/// The history that a file represents is a legal run.
pub fn stands_for_legal_run()
    ensures { StandsForLegalRun }
{}

/// A file within the limit that represents a history by records of the second version is refused
/// only if memory runs out, or by a fault of the disk.
pub fn standing_is_opened()
    ensures { StandingIsOpened }
{}

/// Of a file of either version within the limit that represents a history, the history is read,
/// unless memory runs out or the disk fails.
pub fn standing_is_read()
    ensures { StandingIsRead }
{}

/// At each moment since an office was opened, each file that a crash may leave represents the
/// history of the office's marks at some moment, or that with the one entry in doubt then. While it
/// was opened, such a file represents the history that was found, or is one that a crash might have
/// left before.
pub fn each_moment_stands()
    ensures { EachMomentStands }
{}

/// If the disk was settled when it was handed in, each such file represents the history found also
/// while the office was opened.
// Promise: If the disk was settled when it was handed in, each such file represents the history
// that was found also while the office was opened
// - by `SettledMomentStands`
pub fn settled_moment_stands()
    ensures { SettledMomentStands }
{}

/// What was assembled within the plan's budget for a session that waits for its item may be
/// committed.
pub fn may_be_committed()
    ensures { MayBeCommittedNow }
{}

/// A request that isn't refused is answered: where its session is, the counts, or out of memory;
/// unless the disk counts a fault, or the next record is above the journal's limit.
// Promise: A request that is not refused is answered, unless it is out of memory, the disk counts a
// fault, the journal is full, or no form without the items of its list is known
// - by `AskedIsAnswered`
pub fn asked_is_answered<D: Disk>()
    ensures { AskedIsAnswered D }
{}

/// A file within the limit that represents a history is not migrated only if memory runs out, by a
/// fault of the disk, or because it would be too long once its records are moved.
pub fn migrate_is_complete()
    // Promise: A file within the limit that represents a history is migrated, or would be too long,
    // or memory or the disk fails. Either version of such a file is read without a refusal
    // - of `laws::migrate_is_complete`, `laws::standing_is_read`
    // - by the clause (`MigrateIsComplete`, `StandingIsRead`)
    ensures { MigrateIsComplete }
{}
