//! The rules of a plan, line by line.

ghost use Rattle.std.specs.Prelude.{◌≡◌, ◌<◌, ◌+◌, map, Some, None};
ghost use Rattle.std.specs.List.{list_any};
ghost use Rattle.exam_text.specs.First.{Gives};
ghost use Rattle.exam_text.specs.Words.{lines_of};
ghost use Rattle.spec_reader.specs.Rules.{said};
ghost use Rattle.spec_reader.specs.Lines.{is_skipped, mark_of, is_mark, has_mark, stands, next_rule, rules_of, missing};
ghost use Rattle.spec_reader.specs.declared.line_fault.LineFault.TheVariants.{Memory};

use crate::line_fault::LineFault;
use crate::plan_fault::Name;
use crate::rule::{Rule, line_in};
use exam_text::{lines_of, word_at, words_of};
use std::alloc::Global;

fn is_skipped(line: &[u8]) -> bool
    ensures { result ≡ is_skipped line.now }
{
    line.is_empty() || line[0] == b'#'
}

fn mark_of(rule: &Rule) -> Option<u32>
    ensures { result ≡ mark_of (said rule.now) }
{
    match rule {
        Rule::Length(_) => Some(0),
        Rule::Prior(_) => Some(1),
        Rule::Rate(_, _) => Some(2),
        Rule::Key(_) => Some(3),
        Rule::Bands(_) => Some(4),
        Rule::Budget(_) => Some(5),
        Rule::BaseBudget(_) => Some(6),
        Rule::Sessions(_) => Some(7),
        Rule::Journal(_) => Some(8),
        Rule::Base(_) => Some(9),
        Rule::Stimulus(s, _, _) => Some(10 + *s as u32),
        Rule::Count(_, _, _)
        | Rule::Quantity(_, _, _, _)
        | Rule::Enemies(_)
        | Rule::Stimuli(_, _) => None,
    }
}

fn is_marked(mark: u32, rule: &Rule) -> bool
    ensures { result ≡ is_mark mark (mark_of (said rule.now)) }
{
    match mark_of(rule) {
        Some(other) => other == mark,
        None => false,
    }
}

fn has_rule(mark: u32, rules: &[Rule]) -> bool
    ensures { result ≡ list_any (λ r. is_mark mark (mark_of (said r))) rules.now }
{
    rules.iter().any(|rule| is_marked(mark, rule))
}

fn has_mark(mark: u32, rules: &[Rule]) -> bool
    ensures { result ≡ has_mark mark (map said rules.now) }
{
    has_rule(mark, rules)
}

fn stands(mark: Option<u32>, rules: &[Rule]) -> bool
    ensures { result ≡ stands mark (map said rules.now) }
{
    match mark {
        Some(mark) => has_mark(mark, rules),
        None => false,
    }
}

#[tactic(auto, unfolding(crate::specs::Lines::next_rule))]
fn next_rule(alloc: Global, at: u64, line: &[u8], rules: &mut Vec<Rule>) -> Result<(), LineFault>
    ensures { Gives Memory (λ _. map said rules.new.items) result
        (next_rule at line.now (map said rules.old.items)) }
{
    if is_skipped(line) {
        return Ok(());
    }
    let words = words_of(alloc, line)?;
    let rule = line_in(alloc, at, &words)?;
    if stands(mark_of(&rule), rules) {
        return Err(LineFault::Twice(at));
    }
    rules.push(rule)?;
    Ok(())
}

/// The rules of lines.
#[tactic(auto, unfolding(crate::specs::Lines::rules_of))]
fn rules_of(alloc: Global, lines: &[&[u8]]) -> Result<Vec<Rule>, LineFault>
    ensures { Gives Memory (λ v. map said v.items) result (rules_of (map (λ w. w.now) lines.now)) }
{
    let mut rules = Vec::new(alloc);
    for i in 0..lines.len() {
        next_rule(alloc, i as u64 + 1, word_at(lines, i), &mut rules)?;
    }
    Ok(rules)
}

/// The rules of a text in the order of their lines.
pub fn rules_in(alloc: Global, text: &[u8]) -> Result<Vec<Rule>, LineFault>
    ensures { Gives Memory (λ v. map said v.items) result (rules_of (lines_of text.now)) }
{
    let lines = lines_of(alloc, text)?;
    rules_of(alloc, &lines)
}

/// The first line that is missing.
#[tactic(auto, unfolding(crate::specs::Lines::missing))]
pub fn missing(rules: &[Rule]) -> Option<Name>
    ensures { result ≡ missing (map said rules.now) }
{
    if !has_mark(0, rules) {
        return Some(Name::Length);
    }
    if !has_mark(1, rules) {
        return Some(Name::Prior);
    }
    if has_mark(2, rules) && !has_mark(3, rules) {
        return Some(Name::Key);
    }
    None
}
