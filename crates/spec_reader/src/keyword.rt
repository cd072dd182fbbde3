//! The first word of a line.

ghost use Rattle.std.specs.Prelude.{◌≡◌};
ghost use Rattle.spec_reader.specs.Keywords.{setting_of, constraint_of, keyword_of, fits_setting, fits_constraint, fits_count};

/// The lines that may occur only once.
#[derive(Clone, Copy, PartialEq, Eq)]
pub enum Setting {
    Length,
    Prior,
    Rate,
    Key,
    Bands,
    Budget,
    BaseBudget,
    Sessions,
    Journal,
    Base,
}

/// The lines that give a row, or the bounds of a stimulus.
#[derive(Clone, Copy, PartialEq, Eq)]
pub enum Constraint {
    Count,
    Quantity,
    Enemies,
    Stimuli,
    Stimulus,
}

/// The kinds of line.
#[derive(Clone, Copy, PartialEq, Eq)]
pub enum Keyword {
    Setting(Setting),
    Constraint(Constraint),
}

#[tactic(auto, unfolding(crate::specs::Keywords::setting_of))]
fn setting_of(word: &[u8]) -> Option<Setting>
    ensures { result ≡ setting_of word.now }
{
    if word == b"length".as_slice() {
        Some(Setting::Length)
    } else if word == b"prior".as_slice() {
        Some(Setting::Prior)
    } else if word == b"rate".as_slice() {
        Some(Setting::Rate)
    } else if word == b"key".as_slice() {
        Some(Setting::Key)
    } else if word == b"bands".as_slice() {
        Some(Setting::Bands)
    } else if word == b"budget".as_slice() {
        Some(Setting::Budget)
    } else if word == b"base-budget".as_slice() {
        Some(Setting::BaseBudget)
    } else if word == b"sessions".as_slice() {
        Some(Setting::Sessions)
    } else if word == b"journal".as_slice() {
        Some(Setting::Journal)
    } else if word == b"base".as_slice() {
        Some(Setting::Base)
    } else {
        None
    }
}

#[tactic(auto, unfolding(crate::specs::Keywords::constraint_of))]
fn constraint_of(word: &[u8]) -> Option<Constraint>
    ensures { result ≡ constraint_of word.now }
{
    if word == b"count".as_slice() {
        Some(Constraint::Count)
    } else if word == b"quantity".as_slice() {
        Some(Constraint::Quantity)
    } else if word == b"enemies".as_slice() {
        Some(Constraint::Enemies)
    } else if word == b"stimuli".as_slice() {
        Some(Constraint::Stimuli)
    } else if word == b"stimulus".as_slice() {
        Some(Constraint::Stimulus)
    } else {
        None
    }
}

/// The kind of line that a first word names.
#[tactic(auto, unfolding(crate::specs::Keywords::keyword_of))]
pub fn keyword_of(word: &[u8]) -> Option<Keyword>
    ensures { result ≡ keyword_of word.now }
{
    match setting_of(word) {
        Some(setting) => Some(Keyword::Setting(setting)),
        None => match constraint_of(word) {
            Some(constraint) => Some(Keyword::Constraint(constraint)),
            None => None,
        },
    }
}

fn fits_setting(setting: Setting, count: usize) -> bool
    ensures { result ≡ fits_setting setting count }
{
    match setting {
        Setting::Length
        | Setting::Key
        | Setting::Budget
        | Setting::BaseBudget
        | Setting::Sessions
        | Setting::Journal => count == 2,
        Setting::Rate => count == 3,
        Setting::Prior | Setting::Bands | Setting::Base => 2 <= count,
    }
}

fn fits_constraint(constraint: Constraint, count: usize) -> bool
    ensures { result ≡ fits_constraint constraint count }
{
    match constraint {
        Constraint::Count => 4 <= count,
        Constraint::Quantity => 5 <= count,
        Constraint::Enemies => 2 <= count,
        Constraint::Stimuli => count == 3,
        Constraint::Stimulus => count == 4,
    }
}

/// Whether a line of this kind has so many words.
pub fn fits_count(keyword: Keyword, count: usize) -> bool
    ensures { result ≡ fits_count keyword count }
{
    match keyword {
        Keyword::Setting(setting) => fits_setting(setting, count),
        Keyword::Constraint(constraint) => fits_constraint(constraint, count),
    }
}
