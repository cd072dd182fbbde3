//! What the words ask for.

/// What is timed.
#[derive(Clone, Copy)]
pub struct Command {
    /// For how many sessions there are draws in a round.
    pub sessions: u32,
    /// How often they are timed.
    pub rounds: u32,
    /// Whether no times are printed.
    pub quiet: bool,
}

impl Command {
    /// The command of the words after the program's name, if they are one.
    pub fn of(words: &[String]) -> Option<Command> {
        let quiet = match words.len() {
            2 => false,
            3 if words[2].as_str() == "quiet" => true,
            _ => return None,
        };
        Some(Command {
            sessions: words[0].as_str().parse::<u32>().ok()?,
            rounds: words[1].as_str().parse::<u32>().ok()?,
            quiet,
        })
    }
}
