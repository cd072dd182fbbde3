//! The plan of a text.

ghost use Rattle.std.specs.Prelude.{◌≡◌, ℕ, ◌⊎◌, ◌<◌, ◌≤◌, List, [], length, map, Some, None, IsTrue, IfOk, IfErr};
ghost use Rattle.exam_edge.specs.Faults.{Rose};
ghost use Rattle.exam_edge.specs.Lent.{IsLent};
ghost use Rattle.form_model.specs.Plan.{Plan};
ghost use Rattle.form_model.specs.Forms.{stimuli_of};
ghost use Rattle.form_model.specs.Validity.{IsPlanFor};
ghost use Rattle.spec_reader.specs.Rules.{said};
ghost use Rattle.spec_reader.specs.Reading.{rule_at, number_fault, numbers_fault, IsPlanText, early_fault, IsFirstFault, IsPlanFault, IsOfText, most_bytes, IsReadFault};
ghost use Rattle.spec_reader.specs.declared.plan_fault.PlanFault.TheVariants as fault;

use crate::drafting::draft_of;
use crate::plan_fault::PlanFault;
use crate::rule::Rule;
use crate::rules::{missing, rules_in};
use bank_tables::Bank;
use constraint_model::{Spec, SpecFault, front_fault};
use exam_edge::Source;
use form_model::Draft;
use std::alloc::Global;
use text_source::{TextFault, text_of};

fn number_fault(rule: &Rule, stimuli: u8) -> Option<SpecFault>
    ensures { result ≡ number_fault stimuli (said rule.now) }
{
    match rule {
        Rule::Stimulus(s, _, _) => {
            if *s == 0 || *s > stimuli {
                Some(SpecFault::BadStimulus(*s))
            } else {
                None
            }
        }
        _ => None,
    }
}

fn fault_at(rules: &[Rule], stimuli: u8, i: usize) -> Option<SpecFault>
    requires { i < length rules.now }
    ensures { result ≡ number_fault stimuli (rule_at (map said rules.now) i) }
{
    number_fault(&rules[i], stimuli)
}

/// The first line that bounds a stimulus that is not in the bank.
#[tactic(auto, unfolding(crate::specs::Reading::numbers_fault))]
fn numbers_fault(rules: &[Rule], stimuli: u8) -> Option<SpecFault>
    ensures { result ≡ numbers_fault stimuli (map said rules.now) }
{
    for i in 0..rules.len() {
        if let Some(fault) = fault_at(rules, stimuli, i) {
            return Some(fault);
        }
    }
    None
}

fn early_fault(bank: &Bank, rules: &[Rule], draft: &Draft) -> Option<SpecFault>
    ensures { result ≡ early_fault bank.now (map said rules.now) draft.now }
{
    if let Some(fault) = front_fault(bank, draft) {
        return Some(fault);
    }
    numbers_fault(rules, bank.stimuli())
}

/// The plan that the rules mean, or its first fault.
fn spec_of(bank: &Bank, rules: &[Rule], draft: Draft) -> Result<Spec, SpecFault>
    ensures same { IfOk result (λ spec. spec ≡ draft) }
    ensures valid { IfOk result (λ spec. IsPlanFor bank.now spec) }
    ensures stimuli { IfOk result (λ _. numbers_fault (stimuli_of bank.now) (map said rules.now)
        ≡ None) }
    ensures fault { IfErr result (IsFirstFault bank.now (map said rules.now) draft) }
{
    match early_fault(bank, rules, &draft) {
        Some(fault) => Err(fault),
        None => Spec::of_tested(bank, draft),
    }
}

/// The plan of a text, or its first fault.
fn plan_in(alloc: Global, bank: &Bank, text: &[u8]) -> Result<Spec, PlanFault>
    ensures found { IfOk result (IsPlanText bank.now text.now) }
    ensures valid { IfOk result (IsPlanFor bank.now) }
    ensures fault { IfErr result (λ e. (e ≡ fault.Memory) ⊎ IsPlanFault bank.now text.now e) }
{
    let rules = rules_in(alloc, text)?;
    if let Some(name) = missing(&rules) {
        return Err(PlanFault::Missing(name));
    }
    let draft = draft_of(alloc, &rules, bank.stimuli())?;
    match spec_of(bank, &rules, draft) {
        Ok(spec) => Ok(spec),
        Err(fault) => Err(PlanFault::Spec(fault)),
    }
}

/// The plan that the text of a source means for an item bank, valid for it. The text has at most
/// 1,048,576 bytes, and is read to its end. Of several faults the first is given: the first faulty
/// line, then what is missing, then the faults of the plan. `Source` is given only where the
/// source's count of faults rose.
pub fn read_plan<S: Source>(alloc: Global, bank: &Bank, source: &mut S) -> Result<Spec, PlanFault>
    // Promise: A plan text is read as the plan that its lines describe, and that plan is valid for
    // the bank
    // - by `found`, `valid`
    ensures found { IfOk result (λ spec. IsTrue (S.tells source.old)
        → IsPlanText bank.now (S.left source.old) spec) }
    // Promise: `TooLong` comes exactly by the number of bytes
    // - by `within`, `fault`
    ensures within { IfOk result (λ _. IsTrue (S.tells source.old)
        → length (S.left source.old) ≤ most_bytes) }
    // Promise: After `Ok` the text was read to its end. `Source` comes only where the source's
    // count of faults rose in this call
    // - by `whole`, `failed`
    ensures whole { IfOk result (λ _. IsTrue (S.tells source.old) → S.left source.new ≡ []) }
    ensures valid { IfOk result (IsPlanFor bank.now) }
    // Promise: A refusal names the first fault of the text. The order is: the first faulty line
    // with its kind, the first line that is missing, the first fault of the plan that the lines
    // describe. A stimulus that the bank does not have comes after the rows and before the bounds
    // - by `fault` (`IsReadFault`, `IsPlanFault`)
    ensures fault { IfErr result (λ e. IsTrue (S.tells source.old)
        → IsReadFault bank.now (S.left source.old) e) }
    // The text of a plan that is valid for the bank is read.
    // Promise: A text of at most 1,048,576 bytes that describes a valid plan is read; only a source
    // that failed, or out of memory, prevents it
    ensures only { IfErr result (λ e. IsTrue (S.tells source.old)
        → length (S.left source.old) ≤ most_bytes
        → (plan : Plan) → IsPlanText bank.now (S.left source.old) plan → IsPlanFor bank.now plan
        → (e ≡ fault.Memory) ⊎ (e ≡ fault.Source)) }
    ensures failed { IfErr result (λ e. e ≡ fault.Source
        → Rose (S.faults source.old) (S.faults source.new)) }

    // A plan, and what refuses a text, are answers only where there is something to read.
    // Promise: A plan, or a fault of the text, comes only from a source that can be read at all;
    // which names have files stays as it was
    // - by `there`, `there_refused`, `has`
    ensures there { IfOk result (λ _. IsTrue (S.tells source.old) → IsTrue (S.there source.old)) }
    ensures there_refused { IfErr result (λ e. IsOfText e
        → IsTrue (S.tells source.old) → IsTrue (S.there source.old)) }
    ensures has { IsTrue (S.tells source.old) → (name : List ℕ)
        → S.has source.new name ≡ S.has source.old name }
    ensures beside { IsTrue (S.tells source.old) → (name : List ℕ)
        → S.beside source.new name ≡ S.beside source.old name }
    ensures frame { IsLent S.tells S.identity S.faults source.old source.new }
{
    match text_of(alloc, source, 1_048_576) {
        Ok(text) => plan_in(alloc, bank, &text),
        Err(TextFault::Source) => Err(PlanFault::Source),
        Err(TextFault::TooLong) => Err(PlanFault::TooLong),
        Err(TextFault::Memory) => Err(PlanFault::Memory),
    }
}
