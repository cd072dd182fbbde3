//! Why a text is no script.

ghost use Rattle.std.specs.Prelude.{◌≡◌, IfOk, string_bytes};
ghost use Rattle.replay_cli.specs.Texts.{script_text};
ghost use Rattle.replay_cli.specs.declared.script_fault.ScriptFault.TheVariants.{Memory};

use std::alloc::{AllocError, AllocFailed, Global};

/// Why a text is no script; of several faulty lines the first.
#[derive(Clone, Copy, Debug, PartialEq, Eq)]
pub enum ScriptFault {
    /// The source failed, and has counted that.
    Source,
    /// The text has more than 16,777,216 bytes.
    TooLong,
    /// This line is no request's. Lines count from 1.
    Line(u64),
    /// Out of memory.
    Memory,
}

impl From<AllocError> for ScriptFault {
    ghost from_gives = { λ _ e. e ≡ Memory };

    fn from(_e: AllocError) -> ScriptFault {
        ScriptFault::Memory
    }
}

impl<T: Drop> From<AllocFailed<T>> for ScriptFault {
    ghost from_gives = { λ _ e. e ≡ Memory };

    fn from(_e: AllocFailed<T>) -> ScriptFault {
        ScriptFault::Memory
    }
}

impl ScriptFault {
    /// The line that reports to a user what is wrong with a script, with its line feed.
    #[tactic(auto, unfolding(crate::specs::Texts::script_text, exam_text::specs::Texts::files_failed, exam_text::specs::Texts::no_memory))]
    pub fn text(self, alloc: Global) -> Result<String, AllocError>
        // Promise: The line that is printed of a fault is the stated one
        // - by the clause (`script_text`)
        ensures { IfOk result (λ line. string_bytes line ≡ script_text self) }
    {
        match self {
            ScriptFault::Source => String::from_str(alloc, "files failed\n"),
            ScriptFault::TooLong => String::from_str(alloc, "script: too long\n"),
            ScriptFault::Line(line) => format!(in alloc; "script: line {line}\n"),
            ScriptFault::Memory => String::from_str(alloc, "no memory\n"),
        }
    }
}
