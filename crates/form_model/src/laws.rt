//! What the definitions imply, for every problem and set of items.

ghost use Rattle.form_model.specs.Ability.{ModeIsModeOf};
ghost use Rattle.form_model.specs.Laws.{BestIsFirm, SomeMode, OneMode, OneBreach};

/// No exchange of one item betters a best form.
// Promise: No exchange of one item improves a best form
// - by `BestIsFirm`
pub fn best_is_firm()
    ensures { BestIsFirm }
{}

/// A grid with points has a posterior mode.
// Promise: A grid with points has one posterior mode, and the function `mode_of` gives it
// - of `laws::some_mode`, `laws::one_mode`, `laws::mode_is_mode_of`
// - by `SomeMode`, `OneMode`, `ModeIsModeOf`
pub fn some_mode()
    ensures { SomeMode }
{}

/// It has only one.
pub fn one_mode()
    ensures { OneMode }
{}

/// The mode is a function of the tables, the prior and the answers.
pub fn mode_is_mode_of()
    ensures { ModeIsModeOf }
{}

/// A set of items has at most one first breach.
// Promise: A set has at most one first breach
// - by `OneBreach`
pub fn one_breach()
    ensures { OneBreach }
{}
