//! What the headline's definitions have to do with those of the crates below, for every replay and
//! every connection.

ghost use Rattle.exam_headline.specs.Laws.{FileHoldsHistory, ReplayIsUnderWay};
ghost use Rattle.exam_headline.specs.Laws.{CutOffMayBeWritten, FairIsEnough};

use exam_edge::Door;

/// A file that represents a history holds it.
pub fn file_holds_history()
    // Promise: A file that represents a history holds it. Its payloads that count begin with the
    // bytes of the entries, in order, and the history is legal
    // - by the clause (`FileHoldsHistory`, `HoldsHistory`, `Frames`)
    ensures { FileHoldsHistory }
{}

/// A replay that `exam_program` has under way is under way as the headline states it.
// Promise: If the disk reports its content, then at each moment since the journal was opened each
// file that a crash may leave holds a legal history. It is what requests of the script led to, or
// that with the first entries of the next
// - by `IsUnderWay`, `AreMoments`, `HoldsOnTheWay`
// Promise: A place in a reply is that of the session that the request asks for. It has the booking
// that an answer or a closing names, or the list that a begin brings
// - of `laws::replay_is_under_way`, `laws::cut_off_may_be_written`
// - by `IsAsAsked`, `Tells`
pub fn replay_is_under_way()
    // Promise: A replay that is under way is so in these words. The first requests of its script
    // are done, and the lines are those of their replies. Each request added at most three entries,
    // which are good. Each reply is true of the legal history after its request
    // - by the clause (`ReplayIsUnderWay`, `AreDone`, `AreEntriesOf`, `AreWell`, `Tells`)
    ensures { ReplayIsUnderWay }
{}

/// What a connection that its link cuts off may have had written is what the headline states.
pub fn cut_off_may_be_written()
    // Promise: What a server may have written when a link is cut off, at any byte, is responses to
    // the first messages, and a beginning of the next one. Each reply is true of a legal history
    // that begins with that of the reply before it
    // - by the clause (`CutOffMayBeWritten`, `MayBeWritten`, `IsTrueReply`)
    ensures { CutOffMayBeWritten }
{}

/// Links that allow what the headline asks of them allow what a server asks.
pub fn fair_is_enough<L: Door>()
    // Promise: Links that allow what may be written in these words allow what a server asks of them
    // - by the clause (`FairIsEnough`, `AreFair`)
    ensures { FairIsEnough L.Link.tells L.Link.left L.Link.written L.Link.allows L.tells L.coming }
{}
