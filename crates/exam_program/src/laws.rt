//! What the definitions imply, for all words and all files.

ghost use Rattle.exam_program.specs.Laws.{PrintedTreeIsReadBack, OneTreeOfText, OnePlanOfText, CheckIsComplete, AssembleIsComplete, ReplayIsComplete, ServeIsComplete, FollowIsComplete, ShipIsComplete, AuditIsComplete, MigrateIsComplete, SeriesIsComplete, DrillIsComplete, SettledHistoryIsKept, SettledReplayIsOnTheWay, CompleteSessionsMeet, CompleteServedSessionsMeet, ListsAreKept, ServedListsAreKept};

/// A tree that is printed can be read: its digits give its bytes, and these give the tree.
// Promise: A tree that is printed can be read: its digits give its bytes, and these give the tree
// and no other
// - of `laws::a_printed_tree_is_read_back`, `laws::one_tree_of_a_text`
// - by `PrintedTreeIsReadBack`, `OneTreeOfText`
pub fn a_printed_tree_is_read_back()
    ensures { PrintedTreeIsReadBack }
{}

/// No other tree is printed so.
pub fn one_tree_of_a_text()
    ensures { OneTreeOfText }
{}

/// A text is read as one plan.
// Promise: A text is read as one plan, down to the words of its sets
// - by `OnePlanOfText`
pub fn one_plan_of_a_text()
    ensures { OnePlanOfText }
{}

/// `check` over accepted texts and files that never failed ends with status 0, or 10.
// Promise: Of accepted texts, in a run with no call that fails, `check` ends with 0 or 10. So does
// `assemble` of a plan with a base
// - of `laws::check_is_complete`, `laws::assemble_is_complete`
// - by `CheckIsComplete`, `AssembleIsComplete`
pub fn check_is_complete()
    ensures { CheckIsComplete }
{}

/// So does `assemble` of a plan with a base.
pub fn assemble_is_complete()
    ensures { AssembleIsComplete }
{}

/// `replay` of a plan with a base, a script in its form and a journal of the plan, of the second
/// version or moved to it, ends so too, if no limit of the plan is met.
// Promise: So does `replay` of a plan with a base and a script in its form, if its journal is sound
// and no request meets a limit of the plan. A sound journal is within its limit and represents a
// history by records of the second version
// - by `ReplayIsComplete`, `MeetsLimit`
pub fn replay_is_complete()
    ensures { ReplayIsComplete }
{}

/// `serve` of a plan with a base over such a journal serves connections, or ends with status 10.
// Promise: In such a run `serve` of a plan with a base over a sound journal serves connections, or
// ends with 10. `follow` and `ship` of such a plan over such a journal open it, or end with 10
// - of `laws::serve_is_complete`, `laws::follow_is_complete`, `laws::ship_is_complete`
// - by `ServeIsComplete`, `FollowIsComplete`, `ShipIsComplete`
pub fn serve_is_complete()
    ensures { ServeIsComplete }
{}

/// `follow` of a plan with a base over such a journal opens it, or ends with status 10.
pub fn follow_is_complete()
    ensures { FollowIsComplete }
{}

/// And so does `ship`.
pub fn ship_is_complete()
    ensures { ShipIsComplete }
{}

/// `audit` over a journal of the plan, of either version, ends so too.
// Promise: So does `audit` over a journal that is sound but for its version
// - by `AuditIsComplete`
pub fn audit_is_complete()
    ensures { AuditIsComplete }
{}

/// And so does `migrate`, if the journal is within the limit once it is moved.
pub fn migrate_is_complete()
    // Promise: Over accepted texts, with no call that fails, `migrate` of a journal within the
    // limit that represents a history ends with 0, with 13 where the journal would be too long, or
    // with 10
    // - by the clause (`MigrateIsComplete`)
    ensures { MigrateIsComplete }
{}

/// `series` by weights of the grid's points prints a series, or shows that there is none, or has
/// spent the base budget.
pub fn series_is_complete()
    // Promise: Over accepted texts, with weights of the grid's points and no call that fails,
    // `series` prints a series, or that there is none, or that the base budget was spent, or ends
    // with 10
    // - by the clause (`SeriesIsComplete`)
    ensures { SeriesIsComplete }
{}

/// A drill ends with status 0 or 10.
pub fn drill_is_complete()
    ensures { DrillIsComplete }
{}

/// On a disk that was settled, a file that keeps its history represents it, and so does each file
/// that a crash may leave, now or at a moment since.
pub fn settled_history_is_kept()
    ensures { SettledHistoryIsKept }
{}

/// And at each moment of a replay over such a disk, each such file represents a history on the way
/// of the script.
// Promise: If the disk was settled before, then what a crash might have left before is the file
// that was found. So each file of these rows represents a history on the way, and where the disk
// fails at opening the history that was found
// - of `laws::settled_replay_is_on_the_way`, `laws::settled_history_is_kept`
// - by `SettledReplayIsOnTheWay`, `SettledHistoryIsKept` (`WasSettled`, `IsHistoryKept`)
pub fn settled_replay_is_on_the_way()
    ensures { SettledReplayIsOnTheWay }
{}

/// The items shown in each complete session of a replay meet the plan.
// Promise: The items shown in each complete session meet the plan
// - by `CompleteSessionsMeet`
pub fn complete_sessions_meet()
    ensures { CompleteSessionsMeet }
{}

/// And so do those of each complete session that a server leaves.
// Promise: The items shown in each complete session that a server leaves meet the plan
// - by `CompleteServedSessionsMeet`
pub fn complete_served_sessions_meet()
    ensures { CompleteServedSessionsMeet }
{}

/// No item of the list with which a session was started is shown in it, whatever a replay did.
// Promise: No item of the list with which a session was started is shown in it, in the history that
// a replay or a server leads to
// - of `laws::lists_are_kept`, `laws::served_lists_are_kept`
// - by `ListsAreKept`, `ServedListsAreKept`
pub fn lists_are_kept()
    ensures { ListsAreKept }
{}

/// And so it is in the history that a server leaves.
pub fn served_lists_are_kept()
    ensures { ServedListsAreKept }
{}
