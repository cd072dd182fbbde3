//! What the environment sets.

ghost use Rattle.std.specs.Prelude.{◌≡◌, ◌≤◌, ◌^◌, ◌-◌, ◌==◌, [], nat_le, ◌&&◌, IfOk, IsTrue, Some, None, codes, string_bytes, if◌then◌else◌};
ghost use Rattle.std.specs.Option.{option_map};
ghost use Rattle.shadowd.specs.Environment.{AreSettings, IsNumberOr, Writes, makes_by, token_of, value_or};

use crate::variables::{NoText, Variables};
use host_edge::Lines;
use std::alloc::{AllocError, Global};

/// Where the journal is, how `serve` and `follow` listen, and where `ship` finds its follower.
#[derive(Drop)]
pub struct Settings {
    /// The path of the journal's file.
    pub journal: String,
    /// The address and port to listen at.
    pub listen: String,
    /// The address and port of the follower that records are shipped to.
    pub follower: String,
    /// How many connections are served at a time.
    pub workers: u8,
    /// How many seconds a connection waits for the first byte of a message.
    pub idle: u64,
    /// How many connections each worker serves before the program ends, if it is to end.
    pub connections: Option<u64>,
    /// Whether a journal that is not there is made.
    pub make: bool,
    /// How many bytes are kept beside the journal for a disk that is full.
    pub reserve: u64,
    /// The path of the socket by which a server is asked to end, empty if there is none.
    pub end: String,
    /// What each message to a server has to bear, if anything: 1 to 1,024 bytes, each from 33 to
    /// 126.
    pub token: Option<Vec<u8>>,
}

/// Why there are no settings.
#[derive(Clone, Copy, Debug, PartialEq, Eq)]
pub enum SettingsFault {
    /// A token that no message can bear.
    Token,
    /// Out of memory.
    Memory,
}

impl From<AllocError> for SettingsFault {
    ghost use Rattle.shadowd.specs.declared.settings.SettingsFault.TheVariants.{Memory};

    ghost from_gives = { λ _ e. e ≡ Memory };

    fn from(_e: AllocError) -> SettingsFault {
        SettingsFault::Memory
    }
}

// The value of a variable, else this. A value that isn't UTF-8 counts as empty: it names no file
// and no address.
fn value_or<V: Variables>(
    alloc: Global,
    variables: &V,
    name: &str,
    default: &str,
) -> Result<String, AllocError>
    ensures { IsTrue (V.tells variables.now) → IfOk result (λ text.
        string_bytes text ≡ value_or (V.value variables.now name.now) default.now) }
{
    match variables.get(name) {
        Ok(Some(value)) => Ok(value),
        Ok(None) => String::from_str(alloc, default),
        Err(NoText::Bytes) => Ok(String::new(alloc)),
        Err(NoText::Memory) => Err(AllocError),
    }
}

// A number that a variable may have, and what stands for it.
#[derive(Drop)]
struct Bounds {
    least: u64,
    most: u64,
    default: u64,
}

const WORKERS: Bounds = Bounds {
    least: 1,
    most: 16,
    default: 4,
};

// Seconds: up to a day, else five minutes.
const IDLE: Bounds = Bounds {
    least: 1,
    most: 86_400,
    default: 300,
};

// Bytes: up to a gibibyte, else none.
const RESERVE: Bounds = Bounds {
    least: 0,
    most: 1_073_741_824,
    default: 0,
};

// The number of a variable, where it is within these bounds. Any other value counts as not set.
fn number_in(text: &str, bounds: &Bounds) -> Option<u64>
    ensures { Writes bounds.now.least bounds.now.most text.now result }
{
    let (least, most) = (bounds.least, bounds.most);
    match text.parse::<u64>() {
        Ok(number) => number_within(number, least, most),
        Err(_) => None,
    }
}

// The number, where it is within these bounds.
fn number_within(number: u64, least: u64, most: u64) -> Option<u64>
    ensures found { result ≡ (if (nat_le least number && nat_le number most) then Some number else None) }
{
    if least <= number && number <= most {
        Some(number)
    } else {
        None
    }
}

// Writes a line on a value that counts as not set.
fn tell_unset(lines: &Lines, name: &str, text: &str, bounds: &Bounds) {
    let (least, most) = (bounds.least, bounds.most);
    lines.tell(format_args!(
        "{name}={text} counts as not set: it is no number from {least} to {most}"
    ));
}

// The number of a variable, else what stands for it. If `tells`, a value that counts as not set has
// a line on standard error.
fn number_or<V: Variables>(
    rt: &HostRuntime,
    lines: &Lines,
    variables: &V,
    name: &str,
    bounds: &Bounds,
    tells: bool,
) -> Result<u64, AllocError>
    requires { (bounds.now.least ≤ bounds.now.default) × (bounds.now.default ≤ bounds.now.most) }
    ensures range { IfOk result (λ n. (bounds.now.least ≤ n) × (n ≤ bounds.now.most)) }
    ensures number { IsTrue (V.tells variables.now) → IfOk result (λ n.
        IsNumberOr bounds.now.least bounds.now.most bounds.now.default
        (value_or (V.value variables.now name.now) []) n) }
{
    let text = value_or(rt.alloc(), variables, name, "")?;
    let found = number_in(text.as_str(), bounds);
    if tells && found.is_none() && !text.is_empty() {
        tell_unset(lines, name, text.as_str(), bounds);
    }
    Ok(found.unwrap_or(bounds.default))
}

// The number of connections of a worker, if there is one.
fn connections_of<V: Variables>(
    rt: &HostRuntime,
    lines: &Lines,
    variables: &V,
    tells: bool,
) -> Result<Option<u64>, AllocError>
    ensures { IsTrue (V.tells variables.now) → IfOk result (λ found. Writes 0 (2 ^ 64 - 1)
        (value_or (V.value variables.now (codes "SHADOWD_CONNECTIONS")) []) found) }
{
    let any = Bounds {
        least: 0,
        most: u64::MAX,
        default: 0,
    };
    let text = value_or(rt.alloc(), variables, "SHADOWD_CONNECTIONS", "")?;
    let found = number_in(text.as_str(), &any);
    if tells && found.is_none() && !text.is_empty() {
        tell_unset(lines, "SHADOWD_CONNECTIONS", text.as_str(), &any);
    }
    Ok(found)
}

// Writes a line on a value that counts as no, and is none.
fn tell_no(lines: &Lines, text: &str) {
    if !text.is_empty() && text != "yes" && text != "no" {
        lines.tell(format_args!("SHADOWD_MAKE={text} counts as no: it is neither yes nor no"));
    }
}

// Whether a value makes a journal that is not there: an empty one, or yes.
fn makes_by(text: &str) -> bool
    ensures { result ≡ makes_by text.now }
{
    text.is_empty() || text == "yes"
}

// Whether a journal that is not there is made. A value that is neither yes nor no counts as no: an
// error of typing is not to do what was to be forbidden. If `tells`, it has a line on standard
// error.
fn make_of<V: Variables>(lines: &Lines, variables: &V, tells: bool) -> Result<bool, AllocError>
    ensures { IsTrue (V.tells variables.now) → IfOk result (λ make. make
        ≡ makes_by (value_or (V.value variables.now (codes "SHADOWD_MAKE")) [])) }
{
    match variables.get("SHADOWD_MAKE") {
        Ok(Some(text)) => {
            if tells {
                tell_no(lines, text.as_str());
            }
            Ok(makes_by(text.as_str()))
        }
        Ok(None) => Ok(true),
        Err(NoText::Bytes) => {
            if tells {
                lines.tell("SHADOWD_MAKE counts as no: it is no text");
            }
            Ok(false)
        }
        Err(NoText::Memory) => Err(AllocError),
    }
}

// Whether a message can bear a token: a field carries each of its bytes, and it is not too long.
fn is_fit(token: &str) -> bool {
    token.len() <= 1024 && token.as_bytes().iter().all(|b| 33 <= *b && *b <= 126)
}

// The token of SHADOWD_TOKEN. There is none where it is not set, or empty. No other value counts as
// not set: a server is not to run without the token that was asked for.
fn token_of<V: Variables>(variables: &V) -> Result<Option<Vec<u8>>, SettingsFault>
    ensures { IsTrue (V.tells variables.now) → IfOk result (λ token. option_map (λ t. t.items) token
        ≡ token_of (value_or (V.value variables.now (codes "SHADOWD_TOKEN")) [])) }
{
    match variables.get("SHADOWD_TOKEN") {
        Ok(Some(token)) if token.is_empty() => Ok(None),
        Ok(Some(token)) if is_fit(token.as_str()) => Ok(Some(token.into_bytes())),
        Ok(Some(_)) => Err(SettingsFault::Token),
        Ok(None) => Ok(None),
        Err(NoText::Bytes) => Err(SettingsFault::Token),
        Err(NoText::Memory) => Err(SettingsFault::Memory),
    }
}

impl Settings {
    /// The values of SHADOWD_JOURNAL, SHADOWD_LISTEN, SHADOWD_FOLLOWER, SHADOWD_WORKERS,
    /// SHADOWD_IDLE, SHADOWD_CONNECTIONS, SHADOWD_MAKE, SHADOWD_RESERVE and SHADOWD_END, or what
    /// stands for them. To serve, a number that counts as not set has a line on standard error, and
    /// there is the token of SHADOWD_TOKEN. For a command that may make a journal, a SHADOWD_MAKE
    /// that is neither yes nor no has its line.
    pub fn of<V: Variables>(
        rt: &HostRuntime,
        lines: &Lines,
        variables: &V,
        serves: bool,
        makes: bool,
    ) -> Result<Settings, SettingsFault>
        ensures { IsTrue (V.tells variables.now)
            → IfOk result (λ s. AreSettings (V.value variables.now) serves s) }
    {
        let alloc = rt.alloc();
        Ok(Settings {
            journal: value_or(alloc, variables, "SHADOWD_JOURNAL", "shadowd.journal")?,
            listen: value_or(alloc, variables, "SHADOWD_LISTEN", "127.0.0.1:4710")?,
            follower: value_or(alloc, variables, "SHADOWD_FOLLOWER", "127.0.0.1:4711")?,
            workers: number_or(rt, lines, variables, "SHADOWD_WORKERS", &WORKERS, serves)? as u8,
            idle: number_or(rt, lines, variables, "SHADOWD_IDLE", &IDLE, serves)?,
            connections: connections_of(rt, lines, variables, serves)?,
            make: make_of(lines, variables, makes)?,
            reserve: number_or(rt, lines, variables, "SHADOWD_RESERVE", &RESERVE, serves)?,
            end: value_or(alloc, variables, "SHADOWD_END", "")?,
            token: if serves { token_of(variables)? } else { None },
        })
    }
}
