//! A run of items, as a word of a set of items.

ghost use Rattle.std.specs.Prelude.{◌≡◌, ◌+◌, ◌<◌, ◌≤◌, ◌++◌, length, Some, None, IfSome, OnOk, map, is_some};
ghost use Rattle.exam_text.specs.Runs.{IsRun, dash_at, run_between, run_of, run_word, behind, fits};
ghost use Rattle.exam_text.specs.Words.{word};
ghost use Rattle.exam_text.specs.Numbers.{number_of};

use crate::numbers::{number, push_number};
use crate::words::word_at;
use std::alloc::{AllocError, Global};

/// The items from `low` to `high`, both of them too.
#[derive(Clone, Copy, Debug, PartialEq, Eq)]
pub struct Run {
    pub low: u16,
    pub high: u16,
}

fn dash_at(text: &[u8]) -> Option<usize>
    ensures value { result ≡ dash_at text.now }
    ensures within { IfSome result (λ k. k < length text.now) }
{
    text.iter().position(|b| *b == b'-')
}

fn item(text: &[u8]) -> Option<u16>
    ensures value { result ≡ number_of 511 text.now }
    ensures small { IfSome result (λ n. n ≤ 511) }
{
    match number(text, 511) {
        Some(n) => Some(n as u16),
        None => None,
    }
}

fn run_between(low: Option<u16>, high: Option<u16>) -> Option<Run>
    requires { IfSome high (λ n. n ≤ 511) }
    ensures value { result ≡ run_between low high }
    ensures run { IfSome result IsRun }
{
    match (low, high) {
        (Some(low), Some(high)) if low < high => Some(Run { low, high }),
        _ => None,
    }
}

/// The run that a word writes: an item's number up to 511, or two with a dash between them, the
/// second greater.
#[tactic(auto, unfolding(crate::specs::Runs::run_of))]
pub fn run_of(text: &[u8]) -> Option<Run>
    // Promise: A run of items is read exactly where it is what is printed of one
    // - of `run_of`, `laws::a_run_is_what_is_printed`
    // - by `value`, `run`, `read`, `printed`
    ensures value { result ≡ run_of text.now }
    ensures run { IfSome result IsRun }
{
    match dash_at(text) {
        None => match item(text) {
            Some(n) => Some(Run { low: n, high: n }),
            None => None,
        },
        Some(k) => {
            let (low, rest) = text.split_at(k);
            run_between(item(low), item(rest.split_at(1).1))
        }
    }
}

/// The run of word `i` of a set of items, if it begins at `from` or later. `from` is the item after
/// the run of the word before; it is 0 for the first word.
pub fn next_run(words: &[&[u8]], from: u16, i: usize) -> Option<Run>
    requires within { i < length words.now }
    requires next { from ≡ behind (map (λ w. w.now) words.now) i }
    // Promise: The next run of a set begins after the run before it, and no run overlaps another
    // - by `fits`, `value`, `run`
    ensures fits { is_some result ≡ fits (map (λ w. w.now) words.now) i }
    ensures value { IfSome result (λ r. run_of (word (map (λ w. w.now) words.now) i) ≡ Some r) }
    ensures run { IfSome result IsRun }
{
    match run_of(word_at(words, i)) {
        Some(run) if from <= run.low => Some(run),
        _ => None,
    }
}

/// Writes the run at the end, as its word.
pub fn push_run(alloc: Global, out: &mut Vec<u8>, run: Run) -> Result<(), AllocError>
    ensures { OnOk result (out.new.items ≡ out.old.items ++ run_word run) }
{
    push_number(alloc, out, run.low as u64)?;
    if run.low != run.high {
        out.push(b'-')?;
        push_number(alloc, out, run.high as u64)?;
    }
    Ok(())
}
