//! What the definitions mean: functions that do nothing, and whose clauses are laws.

ghost use Rattle.exam_drill.specs.Lengths.{FramesAreShort, JournalsAreShort};

/// A frame has at most 98,890 bytes, and one of a record without a proof tree at most 659.
// Promise: A frame has at most 98,890 bytes, and one of a record without a proof tree at most 659
// - by `FramesAreShort` (`most_of`)
pub fn frames_are_short()
    ensures { FramesAreShort }
{}

/// By a plan of one band the journal of an examination has at most eight bytes, and for each
/// session that the plan allows the frames of a session: with a tree one for each item of the test
/// and one for eligibility set aside, and without one for each answer, one for the start and one
/// for the closing.
// Promise: By a plan of one band, a journal has the header's eight bytes and for each session that
// the plan allows at most the frames of a session. These are with a tree one for each item and one
// more, and without one those of the answers, the start and the closing
// - by `JournalsAreShort` (`most_of_session`)
pub fn journals_are_short()
    ensures { JournalsAreShort }
{}
