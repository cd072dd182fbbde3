//! Laws of the plan text: the grammar is what is read, and what is printed is read again.

ghost use Rattle.std.specs.Prelude.{◌≡◌, ◌⊎◌, ◌≤◌, ℕ, List, [], Ok, length};
ghost use Rattle.exam_text.specs.Keys.{IsKey};
ghost use Rattle.exam_text.specs.Words.{lines_of};
ghost use Rattle.bank_tables.specs.Items.{Set};
ghost use Rattle.spec_reader.specs.Sets.{runs_of};
ghost use Rattle.spec_reader.specs.Rules.{Said, line_of};
ghost use Rattle.spec_reader.specs.Lines.{rules_of};
ghost use Rattle.spec_reader.specs.Grammar.{Says, SayBehind, AreRuns, IsSet, in_runs, ArePrinted, AreFresh};
ghost use Rattle.spec_reader.specs.Canonical.{line_text, canonical_rules, canonical};
ghost use Rattle.spec_reader.specs.Reading.{IsPlanText, IsPlanFault, IsReadFault, IsOfText, most_bytes};
ghost use Rattle.spec_reader.specs.declared.plan_fault.PlanFault.{PlanFault};
ghost use Rattle.spec_reader.specs.declared.plan_fault.PlanFault.TheVariants as outside;
ghost use Rattle.bank_tables.specs.Tables.{Tables};
ghost use Rattle.bank_tables.specs.Validity.{IsBank};
ghost use Rattle.form_model.specs.Validity.{IsPlanFor};
ghost use Rattle.spec_reader.specs.Plans.{plan_said, drafted};
ghost use Rattle.form_model.specs.Plan.{Plan};
ghost use Rattle.std.specs.List.{flat_map};

/// The words of a line that the grammar has are read as what they mean.
pub fn a_line_of_the_grammar_is_read()
    // Promise: Each line of the grammar is read as what it describes, and so are lines one after
    // the other
    // - of `laws::a_line_of_the_grammar_is_read`, `laws::lines_of_the_grammar_are_read`
    ensures { (at : ℕ) (words : List (List ℕ)) (rule : Said) → Says words rule
        → line_of at words ≡ Ok rule }
{}

/// Lines that the grammar has are read as the rules that they mean.
pub fn lines_of_the_grammar_are_read()
    ensures { (lines : List (List ℕ)) (rules : List Said) → SayBehind [] lines rules
        → rules_of lines ≡ Ok rules }
{}

/// The words of a line that are read as a rule are words that the grammar has for this rule.
pub fn a_line_that_is_read_is_of_the_grammar()
    // Promise: A line that is read as a rule is a line of the grammar for this rule, and so are
    // lines one after the other
    // - of `laws::a_line_that_is_read_is_of_the_grammar`,
    //   `laws::lines_that_are_read_are_of_the_grammar`
    ensures { (at : ℕ) (words : List (List ℕ)) (rule : Said) → line_of at words ≡ Ok rule
        → Says words rule }
{}

/// Lines that are read as rules are lines that the grammar has for these rules.
pub fn lines_that_are_read_are_of_the_grammar()
    ensures { (lines : List (List ℕ)) (rules : List Said) → rules_of lines ≡ Ok rules
        → SayBehind [] lines rules }
{}

/// The runs that a set is written as are runs of the grammar, and their items are those of the set.
pub fn a_set_is_its_maximal_runs()
    // Promise: A set is written as its maximal runs: runs of the grammar whose items are those of
    // the set
    ensures { (X : Set) → IsSet X → AreRuns (runs_of X) × ((x : ℕ) → X x ≡ in_runs (runs_of X) x) }
{}

/// Lines that were printed are read as the rules that they were printed from.
pub fn printed_lines_are_read_again()
    // Promise: Printed lines are read again, and the canonical lines describe the plan
    // - of `laws::printed_lines_are_read_again`, `laws::canonical_lines_say_the_plan`
    ensures { (rules : List Said) → ArePrinted rules → AreFresh [] rules
        → rules_of (lines_of (flat_map line_text rules)) ≡ Ok rules }
{}

/// The lines of a canonical text mean the plan that they were printed from.
pub fn canonical_lines_say_the_plan()
    ensures { (plan : Plan) → drafted (length plan.bounds) (canonical_rules (plan_said plan))
        ≡ plan_said plan }
{}

/// The canonical text of a plan, which is what `print_plan` prints, means that plan for its bank,
/// and isn't too long to be read.
pub fn a_printed_plan_is_a_text_of_it()
    // Promise: The canonical text of a valid plan describes that plan and is not too long to be
    // read
    // - by `text`, `short`
    ensures text { (b : Tables) (plan : Plan) → IsBank b → IsPlanFor b plan → IsKey plan.key
        → IsPlanText b (canonical plan) plan }
    ensures short { (b : Tables) (plan : Plan) → IsBank b → IsPlanFor b plan → IsKey plan.key
        → length (canonical plan) ≤ most_bytes }
{}

/// A text means one plan: two plans that it means have the same numbers, and sets with the same
/// items.
// Promise: A text describes one plan, and a text of a valid plan has no fault
// - of `laws::a_text_says_one_plan`, `laws::a_text_of_a_plan_is_read`
// - by `no_fault`, `only`
pub fn a_text_says_one_plan()
    ensures { (b : Tables) (text : List ℕ) (p q : Plan) → IsPlanText b text p → IsPlanText b text q
        → plan_said p ≡ plan_said q }
{}

/// A text of a plan that is valid for the bank is read: it has no fault, so that only lack of
/// memory or a failed source keeps it from being read.
pub fn a_text_of_a_plan_is_read()
    ensures no_fault { (b : Tables) (text : List ℕ) (plan : Plan) (fault : PlanFault)
        → IsPlanText b text plan → IsPlanFor b plan → IsPlanFault b text fault → ⊥ }
    ensures only { (b : Tables) (bytes : List ℕ) (plan : Plan) (fault : PlanFault)
        → length bytes ≤ most_bytes → IsPlanText b bytes plan → IsPlanFor b plan
        → IsReadFault b bytes fault → (fault ≡ outside.Memory) ⊎ (fault ≡ outside.Source) }
{}

/// A text has at most one first fault.
pub fn a_text_has_one_fault()
    // Promise: A text has at most one first fault
    ensures { (b : Tables) (bytes : List ℕ) (f g : PlanFault) → IsOfText f → IsOfText g
        → IsReadFault b bytes f → IsReadFault b bytes g → f ≡ g }
{}

/// The key of the plan that a text means has 32 bytes.
pub fn a_text_has_a_key()
    // Promise: A text's plan has a key of 32 bytes, so a plan that was read is printed as a text of
    // the same plan
    // - of `laws::a_text_has_a_key`, `laws::a_read_plan_prints_a_text_of_it`
    ensures { (b : Tables) (text : List ℕ) (plan : Plan) → IsPlanText b text plan → IsKey plan.key }
{}

/// A plan that was read from a text is printed as a text of the same plan: the premise on the key
/// is met by reading.
pub fn a_read_plan_prints_a_text_of_it()
    ensures { (b : Tables) (text : List ℕ) (plan : Plan) → IsBank b → IsPlanFor b plan
        → IsPlanText b text plan → IsPlanText b (canonical plan) plan }
{}

/// What is printed reads back: the canonical text of a plan is read as a plan of the same numbers
/// and sets, which prints as the same bytes, and it has no fault, so that only lack of memory or a
/// failed source keeps it from being read.
pub fn a_printed_plan_reads_back()
    // Promise: What is printed is read back to the same numbers, rows and sets; printed again it
    // gives the same bytes
    // - by `same`, `again`, `only`
    ensures same { (b : Tables) (plan read : Plan) → IsBank b → IsPlanFor b plan → IsKey plan.key
        → IsPlanText b (canonical plan) read → plan_said read ≡ plan_said plan }
    ensures again { (b : Tables) (plan read : Plan) → IsBank b → IsPlanFor b plan → IsKey plan.key
        → IsPlanText b (canonical plan) read → canonical read ≡ canonical plan }
    ensures only { (b : Tables) (plan : Plan) (fault : PlanFault) → IsBank b → IsPlanFor b plan
        → IsKey plan.key → IsReadFault b (canonical plan) fault → (fault ≡ outside.Memory)
        ⊎ (fault ≡ outside.Source) }
{}
