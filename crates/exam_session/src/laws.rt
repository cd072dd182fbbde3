//! What the definitions imply for the records of the first version of the journal, which a book
//! lifts.

ghost use Rattle.exam_session.specs.Laws.{LegalHasBands, MayIsLifted, LiftedIsOne};

/// The bands of a legal entry are at most eight, and its list isn't empty.
pub fn a_legal_entry_has_bands()
    ensures { LegalHasBands }
{}

/// What the first version keeps of an entry that may follow is lifted to that entry, if it has no
/// list.
// Promise: What the first version keeps of an entry without a list that may follow is lifted to
// that entry, and to no other; the bands of a legal entry are at most eight, and its list is not
// empty
// - of `laws::an_entry_is_lifted_to_itself`, `laws::lifting_gives_one_entry`,
//   `laws::a_legal_entry_has_bands`
// - by `MayIsLifted`, `LiftedIsOne`, `LegalHasBands`
pub fn an_entry_is_lifted_to_itself()
    ensures { MayIsLifted }
{}

/// It is lifted to no other entry.
pub fn lifting_gives_one_entry()
    ensures { LiftedIsOne }
{}
