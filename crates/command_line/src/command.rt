//! The commands, and the table of their words.

ghost use Rattle.std.specs.Prelude.{◌≡◌, map, MatchBool};
ghost use Rattle.std.specs.Option.{option_map};
ghost use Rattle.command_line.specs.Commands.{AreInRange, UsesDoors, drill_of, of_three, of_two, series_of, server_of, table, said};

use crate::weights::are_weights;

/// What the words ask for.
#[derive(Clone, Copy, Debug)]
pub enum Command<'a> {
    /// Read the bank and the plan, and print what was understood.
    Check {
        bank: &'a str,
        plan: &'a str,
    },
    /// Assemble a form of the whole problem, and print it with its tree.
    Assemble {
        bank: &'a str,
        plan: &'a str,
    },
    /// Serve the sessions of a script over the journal.
    Replay {
        bank: &'a str,
        plan: &'a str,
        script: &'a str,
    },
    /// Serve the sessions of connections over the journal, with room for so many forms that are
    /// prepared before their answers come, 1 to 1,024, or with none.
    Serve {
        bank: &'a str,
        plan: &'a str,
        ahead: Option<u32>,
    },
    /// Judge every record of the journal, and print what it has.
    Audit {
        bank: &'a str,
        plan: &'a str,
    },
    /// Make a bank, a plan and a script of 1 to 200 sessions from a number, and do the script over
    /// a disk in memory.
    Drill {
        number: u32,
        sessions: u32,
    },
    /// Move the journal to the second version.
    Migrate {
        bank: &'a str,
        plan: &'a str,
    },
    /// Assemble 1 to 4 forms of one plan without common items, by weights of the grid points, and
    /// print them with their tree.
    Series {
        bank: &'a str,
        plan: &'a str,
        forms: u8,
        weights: &'a str,
    },
    /// Take the records that a leader ships into the journal.
    Follow {
        bank: &'a str,
        plan: &'a str,
    },
    /// Ship the records of the journal to a follower.
    Ship {
        bank: &'a str,
        plan: &'a str,
    },
}

impl Command<'_> {
    /// Whether it takes links of the doors: to serve, to follow or to ship. Each other command
    /// waits for nobody.
    pub fn uses_doors(&self) -> bool
        // Promise: Whether a command takes links of the doors: to serve, to follow or to ship
        // - by the clause (`UsesDoors`)
        ensures { MatchBool result (UsesDoors (said self.now)) (UsesDoors (said self.now) → ⊥) }
    {
        match self {
            Command::Serve { .. } | Command::Follow { .. } | Command::Ship { .. } => true,
            Command::Check { .. }
            | Command::Assemble { .. }
            | Command::Replay { .. }
            | Command::Audit { .. }
            | Command::Drill { .. }
            | Command::Migrate { .. }
            | Command::Series { .. } => false,
        }
    }
}

#[tactic(auto, unfolding(crate::specs::Commands::drill_of))]
fn drill_of<'a>(number: &str, sessions: &str) -> Option<Command<'a>>
    ensures command { option_map said result ≡ drill_of number.now sessions.now }
    ensures range { AreInRange (option_map said result) }
{
    let number = exam_text::number(number.as_bytes(), 4_294_967_295)?;
    let sessions = exam_text::number(sessions.as_bytes(), 200)?;
    if sessions == 0 {
        return None;
    }
    Some(Command::Drill {
        number: number as u32,
        sessions: sessions as u32,
    })
}

/// A series, where its words are a number of forms and weights.
#[tactic(auto, unfolding(crate::specs::Commands::series_of))]
fn series_of<'a>(bank: &'a str, plan: &'a str, forms: &str, weights: &'a str) -> Option<Command<'a>>
    ensures command { option_map said result
        ≡ series_of bank.now plan.now forms.now weights.now }
    ensures range { AreInRange (option_map said result) }
{
    let forms = exam_text::number(forms.as_bytes(), 4)?;
    if forms == 0 || !are_weights(weights) {
        return None;
    }
    Some(Command::Series {
        bank,
        plan,
        forms: forms as u8,
        weights,
    })
}

/// A server that prepares forms, where its last word is a number of them.
#[tactic(auto, unfolding(crate::specs::Commands::server_of))]
fn server_of<'a>(bank: &'a str, plan: &'a str, ahead: &str) -> Option<Command<'a>>
    ensures command { option_map said result ≡ server_of bank.now plan.now ahead.now }
    ensures range { AreInRange (option_map said result) }
{
    let ahead = exam_text::number(ahead.as_bytes(), 1024)?;
    if ahead == 0 {
        return None;
    }
    Some(Command::Serve {
        bank,
        plan,
        ahead: Some(ahead as u32),
    })
}

#[tactic(auto, unfolding(crate::specs::Commands::of_two))]
fn of_two<'a>(word: &str, first: &'a str, second: &'a str) -> Option<Command<'a>>
    ensures command { option_map said result ≡ of_two word.now first.now second.now }
    ensures range { AreInRange (option_map said result) }
{
    match word {
        "check" => Some(Command::Check {
            bank: first,
            plan: second,
        }),
        "assemble" => Some(Command::Assemble {
            bank: first,
            plan: second,
        }),
        "serve" => Some(Command::Serve {
            bank: first,
            plan: second,
            ahead: None,
        }),
        "audit" => Some(Command::Audit {
            bank: first,
            plan: second,
        }),
        "drill" => drill_of(first, second),
        "migrate" => Some(Command::Migrate {
            bank: first,
            plan: second,
        }),
        "follow" => Some(Command::Follow {
            bank: first,
            plan: second,
        }),
        "ship" => Some(Command::Ship {
            bank: first,
            plan: second,
        }),
        _ => None,
    }
}

#[tactic(auto, unfolding(crate::specs::Commands::of_three))]
fn of_three<'a>(word: &str, bank: &'a str, plan: &'a str, last: &'a str) -> Option<Command<'a>>
    ensures command { option_map said result
        ≡ of_three word.now bank.now plan.now last.now }
    ensures range { AreInRange (option_map said result) }
{
    match word {
        "replay" => Some(Command::Replay {
            bank,
            plan,
            script: last,
        }),
        "serve" => server_of(bank, plan, last),
        _ => None,
    }
}

/// The command that the table has for the words.
#[tactic(auto, unfolding(crate::specs::Commands::table))]
pub(crate) fn in_table<'a>(words: &[&'a str]) -> Option<Command<'a>>
    ensures command { option_map said result ≡ table (map (λ w. w.now) words.now) }
    ensures range { AreInRange (option_map said result) }
{
    match words {
        [word, first, second] => of_two(*word, *first, *second),
        [word, bank, plan, last] => of_three(*word, *bank, *plan, *last),
        [word, bank, plan, forms, weights] if *word == "series" => {
            series_of(*bank, *plan, *forms, *weights)
        }
        _ => None,
    }
}
