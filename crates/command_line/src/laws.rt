//! What the table of commands implies.

ghost use Rattle.std.specs.Prelude.{◌≡◌, ℕ, List, Some};
ghost use Rattle.command_line.specs.Commands.{Command, IsCommand, command_of, words_of};

/// A command is asked for by its words, and by no others.
pub fn a_command_is_asked_for_by_its_words()
    // Promise: A command is asked for by its words, and by no others
    // - by `asked`, `answered` (`words_of`, `IsCommand`)
    ensures asked { (words : List (List ℕ)) (command : Command)
        → command_of words ≡ Some command → IsCommand command × (words ≡ words_of command) }
    ensures answered { (command : Command)
        → IsCommand command → command_of (words_of command) ≡ Some command }
{}
