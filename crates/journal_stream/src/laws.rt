//! What the definitions mean: a function that does nothing, and whose clauses are laws.
ghost use Rattle.std.specs.Prelude.{◌≡◌, ℕ, List, [], ◌∷◌, ◌++◌, None, Some};
ghost use Rattle.std.specs.List.{AllByRecursion};
ghost use Rattle.exam_edge.specs.Images.{Account, IsImage, latest};
ghost use Rattle.answer_journal.specs.Frames.{IsPayload, front, shadowj1};
ghost use Rattle.answer_journal.specs.Standing.{IsAtRest, IsInDoubt, IsStaged, moved_records, payload_list};
ghost use Rattle.answer_journal.specs.Versions.{after_mark, counted, header, second};
ghost use Rattle.journal_stream.specs.Served.{IsServed, moved_of};

/// What a read gives of a journal whose records are of the second version, moved or not, is the
/// file of its settled records: at rest, with a record staged behind its closed gate, and with a
/// record in doubt, whichever of the files that a crash may leave it is. One record more leaves the
/// old payloads as they are. Of a journal that is being moved nothing is settled.
pub fn a_journal_is_served()
    // Promise: A journal of version 2, moved or not, is such a file of its settled records: at
    // rest, with a record staged, or with one in doubt. It is so whichever of the files that a
    // crash may leave is read
    // - by `rest`, `staged`, `doubt` (`IsServed`)
    ensures rest { (version : ℕ) (ps : List (List ℕ)) (content : List ℕ)
        (accounts : List Account) (size : ℕ)
        → IsAtRest (header version) content accounts size
        → counted version (payload_list (header version) content) ≡ second ps
        → IsServed (moved_of version (payload_list (header version) content)) ps content }
    ensures staged { (version : ℕ) (all ps : List (List ℕ)) (payload content : List ℕ)
        (accounts : List Account) (size : ℕ)
        → IsStaged (header version) all payload content accounts size
        → counted version all ≡ second ps → IsServed (moved_of version all) ps content }
    ensures doubt { (version : ℕ) (all ps : List (List ℕ)) (payload content : List ℕ)
        (accounts : List Account) (size with_it : ℕ)
        → IsInDoubt (header version) all payload accounts size with_it
        → counted version all ≡ second ps → IsImage (latest accounts) content
        → IsServed (moved_of version all) ps content }
    // Promise: One record more leaves its old payloads; of a journal that is being moved nothing is
    // settled
    // - by `kept`, `moving`
    ensures kept { (version : ℕ) (all ps : List (List ℕ)) (payload : List ℕ)
        → counted version all ≡ second ps
        → moved_of version (all ++ payload ∷ []) ≡ moved_of version all }
    ensures moving { (old records : List (List ℕ)) (content : List ℕ)
        → AllByRecursion IsPayload old → AllByRecursion IsPayload records
        → after_mark old ≡ None
        → content ≡ front shadowj1 old ++ 1 ∷ (moved_records records ++ 0 ∷ [])
        → IsServed (Some old) [] content }
{}
