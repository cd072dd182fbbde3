//! Laws of the words of texts: what is read is what is printed, and the first fault is the first.

ghost use Rattle.std.specs.Prelude.{◌≡◌, ℕ, ◌∷◌, ◌<◌, ◌≤◌, ◌^◌, List, Option, Some, None, ℤ};
ghost use Rattle.std.specs.Fmt.{decimal, signed_decimal};
ghost use Rattle.exam_text.specs.First.{IsFirst, first_below};
ghost use Rattle.exam_text.specs.Numbers.{number_of, signed_of, magnitude};
ghost use Rattle.exam_text.specs.Words.{words_of, lines_of, spaced, text_of_lines, NoneHas};
ghost use Rattle.exam_text.specs.Runs.{IsRun, run_of, run_word};
ghost use Rattle.exam_text.specs.declared.run.Run.{Run};

/// A text is read as a number exactly where it is what is printed of one.
pub fn a_number_is_what_is_printed()
    ensures read { (most n : ℕ) (text : List ℕ) → most < 2 ^ 64 → number_of most text ≡ Some n
        → (n ≤ most) × (text ≡ decimal n) }
    ensures printed { (most n : ℕ) → most < 2 ^ 64 → n ≤ most
        → number_of most (decimal n) ≡ Some n }
{}

/// The same of signed numbers.
pub fn a_signed_number_is_what_is_printed()
    ensures read { (most : ℕ) (z : ℤ) (text : List ℕ) → most < 2 ^ 63 → signed_of most text ≡ Some z
        → (magnitude z ≤ most) × (text ≡ signed_decimal z) }
    ensures printed { (most : ℕ) (z : ℤ) → most < 2 ^ 63 → magnitude z ≤ most
        → signed_of most (signed_decimal z) ≡ Some z }
{}

/// The same of runs of items.
pub fn a_run_is_what_is_printed()
    ensures read { (r : Run) (text : List ℕ) → run_of text ≡ Some r → IsRun r
        × (text ≡ run_word r) }
    ensures printed { (r : Run) → IsRun r → run_of (run_word r) ≡ Some r }
{}

/// Words without spaces, written with a space between each two, are the words of that line.
pub fn a_line_is_read_as_its_words()
    ensures { (w : List ℕ) (ws : List (List ℕ)) → NoneHas 32 (w ∷ ws)
        → words_of (spaced (w ∷ ws)) ≡ w ∷ ws }
{}

/// Lines without line feeds, written with a line feed after each, are the lines of that text.
pub fn a_text_is_read_as_its_lines()
    ensures { (lines : List (List ℕ)) → NoneHas 10 lines → lines_of (text_of_lines lines) ≡ lines }
{}

/// The first fault of tests in a stated order is the fault of the lowest number that has one.
pub fn the_first_fault_is_the_lowest<F>()
    // Promise: The first fault of tests in a given order is that of the lowest number that has one;
    // there is none exactly where each test passes
    // - by `lowest`, `first`, `none`, `all`
    ensures lowest { (n : ℕ) (f : ℕ → Option F) (fault : F) → first_below n f ≡ Some fault
        → IsFirst n f fault }
    ensures first { (n : ℕ) (f : ℕ → Option F) (fault : F) → IsFirst n f fault
        → first_below n f ≡ Some fault }
    ensures none { (n : ℕ) (f : ℕ → Option F) → first_below n f ≡ None → (i : ℕ) → i < n
        → f i ≡ None }
    ensures all { (n : ℕ) (f : ℕ → Option F) → ((i : ℕ) → i < n → f i ≡ None)
        → first_below n f ≡ None }
{}
