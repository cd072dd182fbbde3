//! The draft that the lines of a plan fill, line by line.

ghost use Rattle.std.specs.Prelude.{◌≡◌, OnOk, IfOk, map};
ghost use Rattle.spec_reader.specs.Rules.{said};
ghost use Rattle.spec_reader.specs.Plans.{plan_said, blank, with_rule, drafted};

use crate::bounds::{any_bounds, with_bound};
use crate::rule::Rule;
use bank_tables::List;
use form_model::{Draft, Rate, Row};
use std::alloc::{AllocError, Global};

/// The draft without a line: the defaults.
fn blank(alloc: Global, stimuli: u8) -> Result<Draft, AllocError>
    ensures { IfOk result (λ draft. plan_said draft ≡ blank stimuli) }
{
    Ok(Draft {
        length: 0,
        prior: List::of(Vec::new(alloc)),
        rows: List::of(Vec::new(alloc)),
        bounds: any_bounds(alloc, stimuli)?,
        rate: Rate { num: 1, den: 1 },
        key: [0; 32],
        bands: List::of(Vec::new(alloc)),
        budget: 2_001,
        base_budget: 4_095,
        sessions: 1_000,
        journal: 67_108_864,
        base: None,
    })
}

/// One more line.
#[tactic(auto, unfolding(crate::specs::Plans::with_rule))]
fn fill(draft: &mut Draft, alloc: Global, rule: &Rule) -> Result<(), AllocError>
    ensures { OnOk result
        (plan_said draft.new ≡ with_rule (plan_said draft.old) (said rule.now)) }
{
    match rule {
        Rule::Length(n) => draft.length = *n,
        Rule::Prior(values) => draft.prior = List::of(values.as_slice().to_vec(alloc)?),
        Rule::Rate(num, den) => {
            draft.rate = Rate {
                num: *num,
                den: *den,
            };
        }
        Rule::Key(key) => draft.key = *key,
        Rule::Bands(points) => draft.bands = List::of(points.as_slice().to_vec(alloc)?),
        Rule::Budget(n) => draft.budget = *n,
        Rule::BaseBudget(n) => draft.base_budget = *n,
        Rule::Sessions(n) => draft.sessions = *n,
        Rule::Journal(n) => draft.journal = *n as u64,
        Rule::Count(low, high, set) => draft.rows.push(Row::Count {
            set: *set,
            low: *low,
            high: *high,
        })?,
        Rule::Quantity(which, low, high, set) => draft.rows.push(Row::Quantity {
            which: *which,
            set: *set,
            low: *low,
            high: *high,
        })?,
        Rule::Enemies(set) => draft.rows.push(Row::Enemies { set: *set })?,
        Rule::Stimuli(low, high) => draft.rows.push(Row::Stimuli {
            low: *low,
            high: *high,
        })?,
        Rule::Stimulus(s, low, high) => {
            draft.bounds = with_bound(alloc, draft.bounds.as_slice(), *s, *low, *high)?;
        }
        Rule::Base(set) => draft.base = Some(*set),
    }
    Ok(())
}

/// The draft that these lines mean, to be tested against an item bank with so many stimuli.
pub fn draft_of(alloc: Global, rules: &[Rule], stimuli: u8) -> Result<Draft, AllocError>
    ensures { IfOk result (λ draft. plan_said draft ≡ drafted stimuli (map said rules.now)) }
{
    let mut draft = blank(alloc, stimuli)?;
    for rule in rules {
        fill(&mut draft, alloc, rule)?;
    }
    Ok(draft)
}
