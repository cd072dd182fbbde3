//! What a line of a plan means.

ghost use Rattle.std.specs.Prelude.{◌≡◌, ◌<◌, ◌≤◌, ◌&&◌, true, length, map, Some, None, IfOk};
ghost use Rattle.bank_tables.specs.Items.{has};
ghost use Rattle.exam_text.specs.First.{Gives};
ghost use Rattle.hex.specs.Hex.{encode_lower};
ghost use Rattle.exam_text.specs.Words.{word, none_empty};
ghost use Rattle.spec_reader.specs.Keywords.{fits_setting, fits_constraint, fits_count};
ghost use Rattle.spec_reader.specs.Rules.{said, number_in, signeds_in, points_in, key_of, key_in, set_in, setting_said, constraint_said, rule_said, line_of};
ghost use Rattle.spec_reader.specs.declared.keyword.Constraint.TheVariants as constraint;
ghost use Rattle.spec_reader.specs.declared.line_fault.LineFault.TheVariants.{Memory};

use crate::keyword::{Constraint, Keyword, Setting, fits_count, keyword_of};
use crate::line_fault::{Kind, LineFault};
use crate::sets::set_of;
use bank_tables::ItemSet;
use exam_text::{none_empty, word_at};
use std::alloc::Global;

/// What a line means.
#[derive(Drop)]
pub enum Rule {
    Length(u32),
    Prior(Vec<i32>),
    Rate(u32, u32),
    Key([u8; 32]),
    Bands(Vec<u8>),
    Budget(u32),
    BaseBudget(u32),
    Sessions(u32),
    Journal(u32),
    Count(u32, u32, ItemSet),
    Quantity(u8, u32, u32, ItemSet),
    Enemies(ItemSet),
    Stimuli(u32, u32),
    Stimulus(u8, u32, u32),
    Base(ItemSet),
}

fn number_in(at: u64, most: u32, i: usize, words: &[&[u8]]) -> Result<u32, LineFault>
    requires { i < length words.now }
    ensures value { Gives Memory (λ n. n) result
        (number_in at most i (map (λ w. w.now) words.now)) }
    ensures most { IfOk result (λ n. n ≤ most) }
{
    match exam_text::number(word_at(words, i), most as u64) {
        Some(n) => Ok(n as u32),
        None => Err(LineFault::Line(at, Kind::Number)),
    }
}

fn signeds_in(alloc: Global, at: u64, words: &[&[u8]]) -> Result<Vec<i32>, LineFault>
    requires { 0 < length words.now }
    ensures { Gives Memory (λ v. v.items) result (signeds_in at (map (λ w. w.now) words.now)) }
{
    let mut values = Vec::new(alloc);
    for i in 0..words.len() - 1 {
        match exam_text::signed(word_at(words, i + 1)) {
            Some(value) => values.push(value)?,
            None => return Err(LineFault::Line(at, Kind::Number)),
        }
    }
    Ok(values)
}

fn points_in(alloc: Global, at: u64, words: &[&[u8]]) -> Result<Vec<u8>, LineFault>
    requires { 0 < length words.now }
    ensures { Gives Memory (λ v. v.items) result (points_in at (map (λ w. w.now) words.now)) }
{
    let mut values = Vec::new(alloc);
    for i in 0..words.len() - 1 {
        match exam_text::number(word_at(words, i + 1), 255) {
            Some(value) => values.push(value as u8)?,
            None => return Err(LineFault::Line(at, Kind::Number)),
        }
    }
    Ok(values)
}

/// The key of these bytes, which the word writes.
fn key_from(word: &[u8], bytes: &[u8]) -> [u8; 32]
    requires count { length bytes.now ≡ 32 }
    requires word { word.now ≡ encode_lower bytes.now }
    ensures { key_of word.now ≡ Some result }
{
    let mut key = [0u8; 32];
    key.copy_from_slice(bytes);
    key
}

fn key_of(word: &[u8]) -> Option<[u8; 32]>
    ensures { result ≡ key_of word.now }
{
    match exam_text::read_key(word) {
        Some(key) => Some(key_from(word, &key)),
        None => None,
    }
}

fn key_in(at: u64, words: &[&[u8]]) -> Result<[u8; 32], LineFault>
    requires { 1 < length words.now }
    ensures { Gives Memory (λ k. k) result (key_in at (map (λ w. w.now) words.now)) }
{
    match key_of(word_at(words, 1)) {
        Some(key) => Ok(key),
        None => Err(LineFault::Line(at, Kind::Number)),
    }
}

fn set_in(at: u64, from: usize, words: &[&[u8]]) -> Result<ItemSet, LineFault>
    requires { from ≤ length words.now }
    ensures { Gives Memory (λ s. has s) result (set_in at from (map (λ w. w.now) words.now)) }
{
    match set_of(words.split_at(from).1) {
        Some(set) => Ok(set),
        None => Err(LineFault::Line(at, Kind::Set)),
    }
}

const MOST: u32 = 999_999_999;

#[tactic(auto, unfolding(crate::specs::Rules::setting_said))]
fn setting_in(alloc: Global, at: u64, setting: Setting, words: &[&[u8]]) -> Result<Rule, LineFault>
    requires { fits_setting setting (length words.now) ≡ true }
    ensures { Gives Memory said result (setting_said at setting (map (λ w. w.now) words.now)) }
{
    match setting {
        Setting::Length => Ok(Rule::Length(number_in(at, MOST, 1, words)?)),
        Setting::Prior => Ok(Rule::Prior(signeds_in(alloc, at, words)?)),
        Setting::Rate => {
            let num = number_in(at, MOST, 1, words)?;
            let den = number_in(at, MOST, 2, words)?;
            Ok(Rule::Rate(num, den))
        }
        Setting::Key => Ok(Rule::Key(key_in(at, words)?)),
        Setting::Bands => Ok(Rule::Bands(points_in(alloc, at, words)?)),
        Setting::Budget => Ok(Rule::Budget(number_in(at, MOST, 1, words)?)),
        Setting::BaseBudget => Ok(Rule::BaseBudget(number_in(at, MOST, 1, words)?)),
        Setting::Sessions => Ok(Rule::Sessions(number_in(at, MOST, 1, words)?)),
        Setting::Journal => Ok(Rule::Journal(number_in(at, MOST, 1, words)?)),
        Setting::Base => Ok(Rule::Base(set_in(at, 1, words)?)),
    }
}

#[tactic(auto, unfolding(crate::specs::Rules::constraint_said))]
fn count_in(at: u64, words: &[&[u8]]) -> Result<Rule, LineFault>
    requires { 4 ≤ length words.now }
    ensures { Gives Memory said result
        (constraint_said at constraint.Count (map (λ w. w.now) words.now)) }
{
    let low = number_in(at, MOST, 1, words)?;
    let high = number_in(at, MOST, 2, words)?;
    let set = set_in(at, 3, words)?;
    Ok(Rule::Count(low, high, set))
}

#[tactic(auto, unfolding(crate::specs::Rules::constraint_said))]
fn quantity_in(at: u64, words: &[&[u8]]) -> Result<Rule, LineFault>
    requires { 5 ≤ length words.now }
    ensures { Gives Memory said result
        (constraint_said at constraint.Quantity (map (λ w. w.now) words.now)) }
{
    let which = number_in(at, 255, 1, words)?;
    let low = number_in(at, MOST, 2, words)?;
    let high = number_in(at, MOST, 3, words)?;
    let set = set_in(at, 4, words)?;
    Ok(Rule::Quantity(which as u8, low, high, set))
}

#[tactic(auto, unfolding(crate::specs::Rules::constraint_said))]
fn stimulus_in(at: u64, words: &[&[u8]]) -> Result<Rule, LineFault>
    requires { 4 ≤ length words.now }
    ensures { Gives Memory said result
        (constraint_said at constraint.Stimulus (map (λ w. w.now) words.now)) }
{
    let stimulus = number_in(at, 255, 1, words)?;
    let low = number_in(at, MOST, 2, words)?;
    let high = number_in(at, MOST, 3, words)?;
    Ok(Rule::Stimulus(stimulus as u8, low, high))
}

#[tactic(auto, unfolding(crate::specs::Rules::constraint_said))]
fn constraint_in(at: u64, constraint: Constraint, words: &[&[u8]]) -> Result<Rule, LineFault>
    requires { fits_constraint constraint (length words.now) ≡ true }
    ensures { Gives Memory said result
        (constraint_said at constraint (map (λ w. w.now) words.now)) }
{
    match constraint {
        Constraint::Count => count_in(at, words),
        Constraint::Quantity => quantity_in(at, words),
        Constraint::Enemies => Ok(Rule::Enemies(set_in(at, 1, words)?)),
        Constraint::Stimuli => {
            let low = number_in(at, MOST, 1, words)?;
            let high = number_in(at, MOST, 2, words)?;
            Ok(Rule::Stimuli(low, high))
        }
        Constraint::Stimulus => stimulus_in(at, words),
    }
}

fn rule_in(alloc: Global, at: u64, keyword: Keyword, words: &[&[u8]]) -> Result<Rule, LineFault>
    requires { fits_count keyword (length words.now) ≡ true }
    ensures { Gives Memory said result (rule_said at keyword (map (λ w. w.now) words.now)) }
{
    match keyword {
        Keyword::Setting(setting) => setting_in(alloc, at, setting, words),
        Keyword::Constraint(constraint) => constraint_in(at, constraint, words),
    }
}

/// What a line of these words means, or its first fault.
#[tactic(auto, unfolding(crate::specs::Rules::line_of))]
pub fn line_in(alloc: Global, at: u64, words: &[&[u8]]) -> Result<Rule, LineFault>
    requires { 0 < length words.now }
    ensures { Gives Memory said result (line_of at (map (λ w. w.now) words.now)) }
{
    let Some(keyword) = keyword_of(word_at(words, 0)) else {
        return Err(LineFault::Line(at, Kind::Word));
    };
    if !(fits_count(keyword, words.len()) && none_empty(words)) {
        return Err(LineFault::Line(at, Kind::Shape));
    }
    rule_in(alloc, at, keyword, words)
}
