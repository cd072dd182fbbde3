//! What the words ask for.

use crate::size::Size;
use bank_tables::ItemSet;

/// A session to be served.
#[derive(Clone, Copy)]
pub struct Order<'a> {
    /// The name of the bank's file.
    pub bank: &'a str,
    /// The name of the plan's file.
    pub plan: &'a str,
    /// The response of each step, a digit each.
    pub responses: &'a str,
    /// The items that aren't eligible.
    pub left_out: ItemSet,
    /// Whether what rebuilds a step is printed too.
    pub trees: bool,
    /// Whether the search of a step begins with the first vector of the tree of the step before.
    pub warm: bool,
}

/// A made problem and tree, on which the checker is timed.
#[derive(Clone, Copy)]
pub struct Trial {
    /// The sizes of the problem.
    pub size: Size,
    /// The nodes of the tree, an odd number.
    pub nodes: u16,
    /// Whether no times are printed.
    pub quiet: bool,
}

/// What the words after the program's name ask for.
#[derive(Clone, Copy)]
pub enum Command<'a> {
    /// To time the checker.
    Check(Trial),
    /// To time the steps of a session.
    Steps(Order<'a>),
}

/// The word at a place, if it is a number.
fn number_at(words: &[String], at: usize) -> Option<u16> {
    words.get(at)?.as_str().parse::<u16>().ok()
}

fn size_of(words: &[String]) -> Option<Size> {
    let items = number_at(words, 1)?;
    let rows = number_at(words, 2)?;
    let stimuli = number_at(words, 3)?;
    Size::of(items, rows, stimuli)
}

fn check_of(words: &[String]) -> Option<Command<'_>> {
    let quiet = match words.len() {
        5 => false,
        6 if words[5].as_str() == "quiet" => true,
        _ => return None,
    };
    let size = size_of(words)?;
    let nodes = number_at(words, 4)?;
    if nodes % 2 == 0 || nodes > 4_095 {
        return None;
    }
    Some(Command::Check(Trial { size, nodes, quiet }))
}

/// The items of a list parted by commas.
fn items_of(text: &str) -> Option<ItemSet> {
    let mut items = ItemSet::empty();
    for word in text.split(',') {
        let item = word.parse::<u16>().ok()?;
        if item >= 512 {
            return None;
        }
        items = items.with(item);
    }
    Some(items)
}

/// The items that are left out by the words after `trees`.
fn left_out_of(words: &[String]) -> Option<ItemSet> {
    match words.len() {
        4 | 5 => Some(ItemSet::empty()),
        7 if words[5].as_str() == "without" => items_of(words[6].as_str()),
        _ => None,
    }
}

fn steps_of(words: &[String], warm: bool) -> Option<Command<'_>> {
    let left_out = left_out_of(words)?;
    let trees = words.len() > 4;
    if words.len() < 4 || trees && words[4].as_str() != "trees" {
        return None;
    }
    Some(Command::Steps(Order {
        bank: words[1].as_str(),
        plan: words[2].as_str(),
        responses: words[3].as_str(),
        left_out,
        trees,
        warm,
    }))
}

impl<'a> Command<'a> {
    /// The command of these words, if they are one.
    pub fn of(words: &'a [String]) -> Option<Command<'a>> {
        match words.first()?.as_str() {
            "check" => check_of(words),
            "steps" => steps_of(words, false),
            "warm" => steps_of(words, true),
            _ => None,
        }
    }
}
