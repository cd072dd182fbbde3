//! What the definitions mean: functions that do nothing, and whose clauses are laws.

ghost use Rattle.std.specs.Prelude.{◌≡◌, ℕ, ◌⊎◌, ◌++◌, ◌∷◌, List, codes};
ghost use Rattle.std.specs.Fmt.{decimal};
ghost use Rattle.std.specs.List.{All, flat_map};
ghost use Rattle.bank_tables.specs.Items.{has};
ghost use Rattle.exam_text.specs.Runs.{run_word};
ghost use Rattle.history_model.specs.declared.request.Request.{Request};
ghost use Rattle.history_model.specs.declared.request.Request.TheVariants.{Begin, BeginWithout};
ghost use Rattle.replay_cli.specs.Scripts.{IsInRange, request_line, text_of_requests, IsScript, IsFirstFaultyLine};
ghost use Rattle.spec_reader.specs.Sets.{runs_of};

/// A text is a script of one list of requests, or it has one first faulty line, and never both.
pub fn a_text_has_one_reading()
    // Promise: A text is a script of one list of requests, or has one first faulty line, and never
    // both. So the answer follows from the bytes
    // - by `some`, `list`, `line`, `not_both`
    ensures some { (text : List ℕ) → ((requests : List Request) × IsScript text requests)
        ⊎ ((n : ℕ) × IsFirstFaultyLine text n) }
    ensures list { (text : List ℕ) (requests others : List Request)
        → IsScript text requests → IsScript text others → requests ≡ others }
    ensures line { (text : List ℕ) (n m : ℕ)
        → IsFirstFaultyLine text n → IsFirstFaultyLine text m → n ≡ m }
    ensures not_both { (text : List ℕ) (requests : List Request) (n : ℕ)
        → IsScript text requests → IsFirstFaultyLine text n → ⊥ }
{}

/// The text of requests is a script of them.
pub fn printed_requests_are_a_script()
    // Promise: What is printed of requests is a script of them
    // - by the clause (`text_of_requests`)
    ensures { (requests : List Request) → All IsInRange requests
        → IsScript (text_of_requests requests) requests }
{}

/// A line is that of one request. So the line of a beginning without a list is read as it was
/// before there were lists, and a list has one spelling.
pub fn a_line_is_one_request()
    // Promise: The line of a request is that of no other request. So `begin B` is read as it was
    // before there were lists, `answer S K R` and `close S` as before a booking could be named, and
    // a list has one spelling: its maximal runs, as the canonical text of a plan spells a set
    // - by `one`, `begin`, `list`
    ensures one { (request other : Request) → IsInRange request → IsInRange other
        → request_line request ≡ request_line other → request ≡ other }
    ensures begin { (booking : ℕ) → request_line (Begin booking)
        ≡ codes "begin " ++ decimal booking }
    ensures list { (booking : ℕ) (items : List ℕ) → request_line (BeginWithout booking items)
        ≡ codes "begin " ++ (decimal booking ++ (codes " without"
        ++ flat_map (λ run. 32 ∷ run_word run) (runs_of (has items)))) }
{}
