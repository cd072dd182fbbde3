//! Laws of the bank text: the reading function `bank_of` gives what the grammar defines.

ghost use Rattle.std.specs.Prelude.{◌≡◌, ℕ, List, Ok, Err};
ghost use Rattle.bank_tables.specs.Tables.{Tables};
ghost use Rattle.bank_reader.specs.Grammar.{IsBankText, IsTextFault};
ghost use Rattle.bank_reader.specs.Reading.{bank_of};
ghost use Rattle.bank_reader.specs.declared.fault.ReadFault.{ReadFault};

/// A text is read as a bank exactly where the grammar has it as the text of that bank.
pub fn a_bank_text_is_read()
    // Promise: The reading function that other crates cite gives a bank exactly of a text of the
    // grammar, and a fault exactly where the text has it
    // - of `laws::a_bank_text_is_read`, `laws::a_refused_text_has_its_fault`,
    //   `laws::a_text_describes_one_bank`
    // - by `read`, `again`
    ensures read { (text : List ℕ) (b : Tables) → bank_of text ≡ Ok b → IsBankText text b }
    ensures again { (text : List ℕ) (b : Tables) → IsBankText text b → bank_of text ≡ Ok b }
{}

/// A text is refused for its first fault.
pub fn a_refused_text_has_its_fault()
    ensures { (text : List ℕ) (fault : ReadFault) → bank_of text ≡ Err fault
        → IsTextFault text fault }
{}

/// A text is the text of at most one bank.
pub fn a_text_describes_one_bank()
    ensures { (text : List ℕ) (a b : Tables) → IsBankText text a → IsBankText text b → a ≡ b }
{}
