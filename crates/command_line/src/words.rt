//! The words of a command line, read by `clap`.

ghost use Rattle.std.specs.Prelude.{◌≡◌, ◌==◌, false, IfErr, IfOk, map, string_bytes};
ghost use Rattle.std.specs.List.{list_any};
ghost use Rattle.std.specs.Option.{option_map};
ghost use Rattle.clap.specs.Values.{kind_of};
ghost use Rattle.clap.specs.Matches.{found_of};
ghost use Rattle.command_line.specs.Commands.{AreInRange, is_no_name, table, command_of, said};
ghost use Rattle.command_line.specs.Words.{words_in};

use crate::command::{Command, in_table};
use clap::error::ErrorKind;
use clap::{Arg, ArgAction, ArgMatches, Error};
use exam_edge::Memory;
use std::alloc::Global;

fn is_no_name(word: &str) -> bool
    ensures { result ≡ is_no_name word.now }
{
    let bytes = word.as_bytes();
    bytes.is_empty() || bytes[0] == b'-'
}

fn has_no_name(words: &[String]) -> bool
    ensures { result ≡ list_any (λ w. is_no_name (string_bytes w)) words.now }
{
    words.iter().any(|word| is_no_name(word.as_str()))
}

/// The words as clap reads them: one argument takes all of them.
fn read<'a>(alloc: Global, words: &'a [String]) -> Result<ArgMatches<'a>, Error>
    requires { list_any (λ w. is_no_name (string_bytes w)) words.now ≡ false }
    ensures ok { IfOk result (λ m. words_in (found_of m)
        ≡ map (λ w. string_bytes w) words.entry.now) }
    ensures err { IfErr result (λ e. kind_of e ≡ ErrorKind.OutOfMemory) }
{
    let all = Arg::new(alloc, "words").action(ArgAction::Append);
    let line = clap::Command::new(alloc, "shadowd")
        .no_binary_name(true)
        .disable_help_flag(true)
        .arg(all)?;
    line.try_get_matches_from(words)
}

/// The command of the words that clap read. It has no entry of them if there are none.
#[tactic(auto, unfolding(crate::specs::Commands::table))]
fn asked<'a>(matches: &ArgMatches<'a>) -> Option<Command<'a>>
    ensures command { option_map said result ≡ table (words_in (found_of matches.now)) }
    ensures range { AreInRange (option_map said result) }
{
    in_table(matches.get_strs("words")?)
}

/// The command that the words ask for. None if they aren't in the table of commands, or one of them
/// is empty or begins with a hyphen. `Memory` is lack of memory.
#[tactic(auto, using(crate::proofs::Walking::any_mapped), unfolding(crate::specs::Commands::command_of))]
pub fn command_of<'a>(alloc: Global, words: &'a [String]) -> Result<Option<Command<'a>>, Memory>
    // Promise: The words ask for exactly the command that the table has for them, with the names of
    // its files, or its numbers. No word that is empty or begins with a hyphen is taken, and no
    // AHEAD but a number from 1 to 1,024. Out of memory is the only error
    // - by the clause (`table`, `is_no_name`, `drill_of`, `server_of`)
    ensures command { IfOk result (λ command. option_map said command
        ≡ command_of (map (λ w. string_bytes w) words.entry.now)) }
    // the numbers of a drill are in their ranges
    ensures range { IfOk result (λ command. AreInRange (option_map said command)) }
{
    if has_no_name(words) {
        return Ok(None);
    }
    match read(alloc, words) {
        Ok(matches) => Ok(asked(&matches)),
        Err(error) if error.kind() == ErrorKind::OutOfMemory => Err(Memory),
        Err(_) => Ok(None),
    }
}
