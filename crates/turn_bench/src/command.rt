//! What the words ask for.

/// What is timed.
#[derive(Clone, Copy)]
pub struct Command {
    /// How many callers there are.
    pub callers: u16,
    /// How many turns each of them takes.
    pub turns: u32,
    /// How often each lock is timed.
    pub rounds: u32,
    /// Whether no times are printed.
    pub quiet: bool,
}

impl Command {
    /// The command of the words after the program's name, if they are one: at least one caller.
    pub fn of(words: &[String]) -> Option<Command> {
        let quiet = match words.len() {
            3 => false,
            4 if words[3].as_str() == "quiet" => true,
            _ => return None,
        };
        let callers = words[0].as_str().parse::<u16>().ok()?;
        if callers == 0 {
            return None;
        }
        Some(Command {
            callers,
            turns: words[1].as_str().parse::<u32>().ok()?,
            rounds: words[2].as_str().parse::<u32>().ok()?,
            quiet,
        })
    }
}
