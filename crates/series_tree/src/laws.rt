//! What the bytes of a tree promise, for all trees and all bytes.

ghost use Rattle.std.specs.Prelude.{◌≡◌, ℕ, ◌<◌, ◌++◌, List, length, take, slice_index, Ok};
ghost use Rattle.hex.specs.Hex.{encode_lower, decode_of};
ghost use Rattle.series_model.specs.SeriesTrees.{Certificate};
ghost use Rattle.series_tree.specs.Shape.{IsTree};
ghost use Rattle.series_tree.specs.Spelling.{bytes_of, BeginsWith};
ghost use Rattle.series_tree.specs.Reading.{read};
ghost use Rattle.proof_tree.specs.Cuts.{IsCutOff};

/// What is written is read again, whatever follows.
pub fn written_is_read()
    // Promise: Written and read again is the same tree, for every tree and whatever follows
    ensures { (T : Certificate) (rest : List ℕ) → IsTree T
        → read (bytes_of T ++ rest) ≡ Ok (T, length (bytes_of T)) }
{}

/// What is read was spelled so: a tree has one spelling.
pub fn one_spelling()
    // Promise: What is read was encoded so; so no tree has two encodings
    ensures { (bytes : List ℕ) (T : Certificate) (used : ℕ) → ((i : ℕ) → slice_index bytes i < 256)
        → read bytes ≡ Ok (T, used) → IsTree T × BeginsWith bytes T × (used ≡ length (bytes_of T)) }
{}

/// No spelling of a tree begins that of another.
pub fn no_spelling_begins_another()
    // Promise: No tree's encoding is a prefix of another's
    ensures { (T U : Certificate) (x y : List ℕ) → IsTree T → IsTree U
        → bytes_of T ++ x ≡ bytes_of U ++ y → T ≡ U }
{}

/// A tree that is cut off anywhere is reported as such: Short within a field, Unfinished between
/// two nodes.
pub fn cut_off_is_told()
    // Promise: A tree that is cut off anywhere is Short within a field, or Unfinished between two
    // nodes, and has no other fault
    ensures { (T : Certificate) (k : ℕ) → IsTree T → k < length (bytes_of T)
        → IsCutOff k (read (take k (bytes_of T))) }
{}

/// A tree's bytes in hexadecimal digits are read back as its bytes, so that a printed tree is one
/// that can be read.
pub fn text_is_read()
    // Promise: A tree's bytes written in hexadecimal are read back to those bytes
    ensures { (T : Certificate) → IsTree T → decode_of (encode_lower (bytes_of T)) ≡ Ok (bytes_of T) }
{}
