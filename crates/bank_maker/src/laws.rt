//! What the definitions mean: functions that do nothing, and whose clauses are laws.

ghost use Rattle.std.specs.Prelude.{◌≡◌, ℕ, ◌≤◌, [], ◌∷◌, length, None};
ghost use Rattle.history_model.specs.declared.request.Request.TheVariants.{Begin, Answer, Close};
ghost use Rattle.bank_reader.specs.Grammar.{IsBankText};
ghost use Rattle.replay_cli.specs.Scripts.{IsScript};
ghost use Rattle.replay_cli.specs.Reading.{most_bytes};
ghost use Rattle.bank_maker.specs.Draws.{draw, state_after};
ghost use Rattle.bank_maker.specs.Items.{drawn, items, draws_of_items};
ghost use Rattle.bank_maker.specs.Drills.{bank_of_drill, tables_of_drill, plan_of_drill, script_of_drill, requests_of_drill};
ghost use Rattle.bank_maker.specs.Plans.{base_quantity, plan};
ghost use Rattle.bank_maker.specs.Scripts.{acts, requests_from};
ghost use Rattle.bank_maker.specs.Exams.{IsPlanOfDrill};
ghost use Rattle.form_model.specs.Plan.{Plan};
ghost use Rattle.spec_reader.specs.Plans.{plan_said};
ghost use Rattle.spec_reader.specs.Reading.{IsPlanText, most_bytes as most_of_plan};

/// Worked values of the drill of number 7, which `tools/drill_texts.py` computes from the rules
/// alone.
pub fn drill_of_seven()
    // Promise: The definitions have the values that were computed outside
    // - by `draws`, `first_item`, `last_item`, `base`, `script`
    ensures draws { draw 7 0 ∷ draw 7 1 ∷ draw 7 2 ∷ []
        ≡ 1059165278 ∷ 2052263231 ∷ 1946856753 ∷ [] }
    ensures first_item { drawn 7 0 ≡ record { peak = 6; height = 505; quantity = 53 } }
    ensures last_item { drawn 7 119 ≡ record { peak = 5; height = 828; quantity = 81 } }
    ensures base { base_quantity (items 7) ≡ 1357 }
    ensures script { requests_from (state_after 7 draws_of_items) (acts 1)
        ≡ Begin 1 ∷ Answer 0 0 1 None ∷ Answer 0 1 0 None ∷ Answer 0 2 1 None
        ∷ Answer 0 3 0 None ∷ Answer 0 4 0 None ∷ Answer 0 5 0 None
        ∷ Answer 0 6 1 None ∷ Answer 0 7 1 None ∷ Answer 0 8 0 None
        ∷ Answer 0 9 0 None ∷ Close 0 None ∷ [] }
{}

/// The script of a drill is a script of its requests, and is short enough to be read.
pub fn a_script_is_read()
    // Promise: The script is one of the stated requests, by the grammar of scripts, and is not too
    // long to be read
    // - by `script` (`IsScript`, `requests_of_drill`), `short`
    ensures script { (number sessions : ℕ) → sessions ≤ 200
        → IsScript (script_of_drill number sessions) (requests_of_drill number sessions) }
    ensures short { (number sessions : ℕ) → sessions ≤ 200
        → length (script_of_drill number sessions) ≤ most_bytes }
{}

/// The bank text of a drill is the text of its bank, by the grammar of bank texts.
pub fn a_bank_is_read()
    // Promise: The bank text is that of a stated bank, by the grammar of bank texts: so it is read
    // - by the clause (`IsBankText`, `tables_of_drill`)
    ensures { (number : ℕ) → IsBankText (bank_of_drill number) (tables_of_drill number) }
{}

/// The plan text of a drill is a text of a plan that is valid for the drill's bank, and is short
/// enough to be read. Each plan that it is a text of has the stated numbers, sets and base form.
pub fn a_plan_is_read()
    // Promise: The plan text is a text of a plan that is valid for the stated bank and whose base
    // form meets it, and is not too long to be read. Each plan that it is a text of is the stated
    // one
    // - by `plan` (`IsPlanOfDrill`, `IsPlanFor`), `short`, `one`
    ensures plan { (number sessions : ℕ) → 1 ≤ sessions → sessions ≤ 200
        → (p : Plan) × IsPlanOfDrill number sessions p }
    ensures short { (number sessions : ℕ) → 1 ≤ sessions → sessions ≤ 200
        → length (plan_of_drill number sessions) ≤ most_of_plan }
    ensures one { (number sessions : ℕ) (p : Plan) → 1 ≤ sessions → sessions ≤ 200
        → IsPlanText (tables_of_drill number) (plan_of_drill number sessions) p
        → plan_said p ≡ plan number sessions (items number) }
{}
