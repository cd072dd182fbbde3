//! What the faults of drafts imply, for every bank and every draft.

ghost use Rattle.constraint_model.specs.Laws.{PlanOrFault, NoFaultIsPlan, PlanHasNoFault, OneFault};

/// A draft without a fault is a plan for the bank, and a plan has none: each draft is a plan, or it
/// has a fault.
pub fn a_plan_has_no_fault()
    // Promise: A draft without a fault is a plan, a plan has none, and a draft has at most one
    // first fault
    // - of `laws::a_plan_has_no_fault`, `laws::one_fault`
    // - by `one_stands`, `plan`, `faultless`, `OneFault`
    ensures one_stands { PlanOrFault }
    ensures plan { NoFaultIsPlan }
    ensures faultless { PlanHasNoFault }
{}

/// A draft has at most one first fault.
pub fn one_fault()
    ensures { OneFault }
{}
