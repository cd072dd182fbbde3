//! The variables of an environment.

ghost use Rattle.std.specs.Prelude.{◌≡◌, Bool, List, ℕ, Option, None, IsTrue, MatchResult, false, string_bytes};
ghost use Rattle.std.specs.Option.{option_map};
ghost use Rattle.shadowd.specs.declared.variables.NoText.TheVariants as none;

use std::alloc::AllocError;
use std::env;
use std::env::VarError;

/// Why a variable gives no text.
#[derive(Clone, Copy, Debug, PartialEq, Eq)]
pub enum NoText {
    /// Its value is not UTF-8.
    Bytes,
    /// Out of memory.
    Memory,
}

impl From<AllocError> for NoText {
    ghost use Rattle.shadowd.specs.declared.variables.NoText.TheVariants.{Memory};

    ghost from_gives = { λ _ e. e ≡ Memory };

    fn from(_e: AllocError) -> NoText {
        NoText::Memory
    }
}

/// Variables, by their names.
pub trait Variables {
    /// Whether contracts know the values, each of which is a text then.
    ghost tells: { Self → Bool };

    /// The value of the variable with this name, if it is set.
    ghost value: { Self → List ℕ → Option (List ℕ) };

    /// The value of a variable, if it is set.
    fn get(&self, name: &str) -> Result<Option<String>, NoText>
        ensures { IsTrue (tells self.now) → MatchResult result
            (λ text. option_map (λ t. string_bytes t) text ≡ value self.now name.now)
            (λ fault. fault ≡ none.Memory) };
}

/// The variables of the process. Contracts do not know them.
#[derive(Drop)]
pub struct HostVariables<'r> {
    /// The host.
    pub rt: &'r HostRuntime,
}

impl<'r> Variables for HostVariables<'r> {
    ghost use Rattle.std.specs.Prelude.{None, false};

    ghost tells = { λ _. false };

    ghost value = { λ _ _. None };

    fn get(&self, name: &str) -> Result<Option<String>, NoText> {
        match env::var(self.rt, name) {
            Ok(text) => Ok(Some(text)),
            Err(VarError::NotPresent) => Ok(None),
            Err(VarError::NotUnicode) => Err(NoText::Bytes),
            Err(VarError::OutOfMemory) => Err(NoText::Memory),
        }
    }
}
