//! What the bytes of records promise, for all records and all bytes, in both versions of the
//! journal.

ghost use Rattle.std.specs.Prelude.{◌≡◌, ◌≢◌, ℕ, ◌+◌, ◌/◌, ◌%◌, ◌<◌, ◌≤◌, ◌⊎◌, ◌∷◌, [], ◌++◌, List, length, take, slice_index, Ok, Err, if◌then◌else◌};
ghost use Rattle.std.specs.Int.{bit_at};
ghost use Rattle.bank_tables.specs.Items.{Set};
ghost use Rattle.exam_records.specs.declared.fault.RecordFault.TheVariants.{Kind, Extra};
ghost use Rattle.history_model.specs.Judging.{Record};
ghost use Rattle.exam_records.specs.Shape.{HasBands, IsRecord};
ghost use Rattle.exam_records.specs.Old.{old_record, IsOldRecord};
ghost use Rattle.exam_records.specs.Sets.{set_bytes};
ghost use Rattle.exam_records.specs.Spelling.{entry_bytes, payload_of, old_entry_bytes, old_payload_of, more_bytes};
ghost use Rattle.exam_records.specs.Reading.{record_of, old_record_of};
ghost use Rattle.exam_records.specs.Cuts.{IsCutOff};

/// What is written is read again, as far as that version of the journal keeps it.
pub fn written_is_read()
    // Promise: Written and read again is what the first version keeps of the record; what is read
    // was encoded so; two records with the same encoding have the same kept
    // - of `laws::written_is_read`, `laws::one_spelling`, `laws::no_two_records`
    // - by the clause
    ensures read { (r : Record) → IsRecord r → record_of (payload_of r) ≡ Ok r }
    ensures old_read { (first : ℕ) (r : Record) → first < 8 → IsRecord r
        → old_record_of (old_payload_of first r) ≡ Ok (old_record first r) }
    ensures old_all { (r : Record) → IsOldRecord r → old_record_of (old_payload_of 0 r) ≡ Ok r }
{}

/// What is read was spelled so: a record has one spelling.
pub fn one_spelling()
    ensures spelled { (payload : List ℕ) (r : Record)
        → ((i : ℕ) → slice_index payload i < 256)
        → record_of payload ≡ Ok r → IsRecord r × (payload ≡ payload_of r) }
    ensures old_spelled { (payload : List ℕ) (r : Record)
        → ((i : ℕ) → slice_index payload i < 256)
        → old_record_of payload ≡ Ok r → IsOldRecord r × (payload ≡ old_payload_of 0 r) }
{}

/// No two records have the same spelling, as far as that version keeps them.
pub fn no_two_records()
    ensures one { (r s : Record) → IsRecord r → IsRecord s → payload_of r ≡ payload_of s → r ≡ s }
    ensures old_one { (first : ℕ) (r s : Record) → first < 8 → IsRecord r → IsRecord s
        → old_payload_of first r ≡ old_payload_of first s
        → old_record first r ≡ old_record first s }
{}

/// What the first version keeps of a record is a record, and has the same spelling.
pub fn kept_is_spelled()
    // Promise: What the first version keeps of a record is a record of its own, with the same
    // encoding
    // - by `is_old`, `spelling`
    ensures is_old { (first : ℕ) (r : Record) → first < 8 → IsRecord r
        → IsOldRecord (old_record first r) }
    ensures spelling { (first : ℕ) (r : Record)
        → old_payload_of 0 (old_record first r) ≡ old_payload_of first r }
{}

/// Bytes after a record are reported as Extra, with the place where the record ends.
pub fn more_is_told()
    // Promise: Bytes after a record are a fault, with the place where it ends. A payload that is
    // cut off anywhere is Short before the tree, and has the tree's Short or Unfinished within it
    // - of `laws::more_is_told`, `laws::cut_off_is_told`
    // - by the clause
    ensures more { (r : Record) (rest : List ℕ) → IsRecord r → 0 < length rest
        → record_of (payload_of r ++ rest) ≡ Err (Extra (length (payload_of r))) }
    ensures old_more { (first : ℕ) (r : Record) (rest : List ℕ) → first < 8 → IsRecord r
        → 0 < length rest → old_record_of (old_payload_of first r ++ rest)
        ≡ Err (Extra (length (old_payload_of first r))) }
{}

/// A payload that is cut off is reported: as Short before the tree, and in the tree as its own
/// Short or Unfinished.
pub fn cut_off_is_told()
    ensures cut { (r : Record) (k : ℕ) → IsRecord r → k < length (payload_of r)
        → IsCutOff (length (entry_bytes r.entry)) k (record_of (take k (payload_of r))) }
    ensures old_cut { (first : ℕ) (r : Record) (k : ℕ) → first < 8 → IsRecord r
        → k < length (old_payload_of first r)
        → IsCutOff (length (old_entry_bytes first r.entry)) k
        (old_record_of (take k (old_payload_of first r))) }
{}

/// The first byte shows which versions may read a payload: kinds 3 to 5 are the same in both, 6, 7
/// and 9 are of the second alone, and 1 and 2 of the first alone. No kind is 8.
pub fn kind_shows_version()
    // Promise: The first byte of a payload shows which versions may read it; the records of three
    // kinds are the same in both
    // - by `none`, `old_none`, `both`
    ensures none { (kind : ℕ) (rest : List ℕ) → (kind < 3) ⊎ ((kind ≡ 8) ⊎ (9 < kind))
        → record_of (kind ∷ rest) ≡ Err (Kind 0) }
    ensures old_none { (kind : ℕ) (rest : List ℕ) → (kind < 1) ⊎ (5 < kind)
        → old_record_of (kind ∷ rest) ≡ Err (Kind 0) }
    ensures both { (kind : ℕ) (rest : List ℕ) → 3 ≤ kind → kind ≤ 5
        → record_of (kind ∷ rest) ≡ old_record_of (kind ∷ rest) }
{}

/// The second version of a record is longer than the first by the bytes that its entry has more.
pub fn longer_by()
    // Promise: A record is longer in the second version by 64 bytes for each band but one and one
    // byte at a start, by three at a setting aside, and else not at all. A start with a list has
    // 128 bytes more
    ensures { (first : ℕ) (r : Record) → HasBands r.entry
        → length (payload_of r) ≡ length (old_payload_of first r) + more_bytes r.entry }
{}

/// The single byte 08, by which a file is moved from one version to the other, is no record.
pub fn mark_is_no_record()
    // Promise: The mark that moves a journal is no record of either version
    // - by `mark`, `old_mark`
    ensures mark { (r : Record) → payload_of r ≢ 8 ∷ [] }
    ensures old_mark { (first : ℕ) (r : Record) → old_payload_of first r ≢ 8 ∷ [] }
{}

/// A set of items is 64 bytes, and item i is bit i mod 8 (bit 0 the least) of byte i div 8.
pub fn a_bit_for_each_item()
    // Promise: A set of items is 64 bytes, and item i is bit i mod 8 of byte i div 8
    // - by `length`, `bits`
    ensures length { (X : Set) → length (set_bytes X) ≡ 64 }
    ensures bits { (X : Set) (i : ℕ) → i < 512 → bit_at (slice_index (set_bytes X) (i / 8)) (i % 8)
        ≡ (if X i then 1 else 0) }
{}
