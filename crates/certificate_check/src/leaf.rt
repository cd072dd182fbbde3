//! The leaves that close a path by a relaxed maximum.

ghost use Rattle.std.specs.Prelude.{◌≡◌, ◌+◌, ◌*◌, ◌<◌, ◌↔◌, IsTrue, false, pos};
ghost use Rattle.std.specs.Option.{option_map};
ghost use Rattle.bank_tables.specs.Items.{has};
ghost use Rattle.form_model.specs.Forms.{objective};
ghost use Rattle.certificate_model.specs.declared.node.Node.TheVariants.{Bound, Ray};
ghost use Rattle.certificate_model.specs.ProofTrees.{IsVector};
ghost use Rattle.form_model.specs.Validity.{IsWellMade};
ghost use Rattle.certificate_model.specs.Verdicts.{NamesOnlySides, MaximumIsAtMost, ClosesByBound};
ghost use Rattle.constraint_model.specs.Views.{problem_of};
ghost use Rattle.certificate_check.specs.Answers.{IsNodeAnswer};
ghost use Rattle.certificate_check.specs.Cuts.{path_of, IsStanding};

use crate::relaxed::relaxed_maximum;
use crate::standing::Standing;
use bank_tables::ItemSet;
use certificate_model::Reason;
use constraint_model::{Problem, names_only_sides, objective};
use proof_tree::Tree;

/// Whether the relaxed maximum is defined and at most this number.
pub fn maximum_is_at_most(
    problem: &Problem,
    standing: &Standing,
    vector: &[(u16, u32)],
    ray: bool,
    top: i64,
) -> bool
    requires well_made { IsWellMade (problem_of problem.now) }
    requires standing { IsStanding (problem_of problem.now) standing.now }
    requires vector { IsVector 0 vector.now }
    requires sides { NamesOnlySides (problem_of problem.now) vector.now }
    ensures { IsTrue result
        ↔ MaximumIsAtMost (problem_of problem.now) (path_of standing.now.cut) vector.now ray top }
{
    match relaxed_maximum(problem, standing, vector, ray) {
        Some(maximum) => maximum <= top,
        None => false,
    }
}

/// The greatest relaxed maximum at which no form is better than the set.
pub fn closing_value(problem: &Problem, items: &ItemSet) -> i64
    requires { IsWellMade (problem_of problem.now) }
    ensures { result ≡ pos (256 * objective (problem_of problem.now) (has items.now) + 255) }
{
    (256 * objective(problem, items) + 255) as i64
}

/// Whether the relaxed maximum is too low for a form better than the form at hand.
fn closes(
    problem: &Problem,
    form: &Option<ItemSet>,
    standing: &Standing,
    vector: &[(u16, u32)],
) -> bool
    requires well_made { IsWellMade (problem_of problem.now) }
    requires standing { IsStanding (problem_of problem.now) standing.now }
    requires vector { IsVector 0 vector.now }
    requires sides { NamesOnlySides (problem_of problem.now) vector.now }
    ensures { IsTrue result
        ↔ ClosesByBound (problem_of problem.now) (option_map has form.now)
        (path_of standing.now.cut) vector.now }
{
    match form {
        Some(best) => {
            maximum_is_at_most(
                problem,
                standing,
                vector,
                false,
                closing_value(problem, best),
            )
        }
        None => false,
    }
}

/// Why a Bound leaf is unsound.
pub fn bound_fault(
    problem: &Problem,
    form: &Option<ItemSet>,
    tree: &Tree,
    standing: &Standing,
    which: u8,
) -> Option<Reason>
    requires well_made { IsWellMade (problem_of problem.now) }
    requires standing { IsStanding (problem_of problem.now) standing.now }
    ensures { IsNodeAnswer (problem_of problem.now) (option_map has form.now) tree.now
        (path_of standing.now.cut) (Bound which) result }
{
    let vectors = tree.vectors();
    if which as usize >= vectors.len() {
        return Some(Reason::NoVector);
    }
    let vector = vectors[which as usize].pairs();
    if !names_only_sides(problem, vector) {
        return Some(Reason::NoSide);
    }
    if closes(problem, form, standing, vector) {
        None
    } else {
        Some(Reason::NotClosed)
    }
}

/// Why a Ray leaf is unsound.
pub fn ray_fault(
    problem: &Problem,
    form: &Option<ItemSet>,
    tree: &Tree,
    standing: &Standing,
    which: u8,
) -> Option<Reason>
    requires well_made { IsWellMade (problem_of problem.now) }
    requires standing { IsStanding (problem_of problem.now) standing.now }
    ensures { IsNodeAnswer (problem_of problem.now) (option_map has form.now) tree.now
        (path_of standing.now.cut) (Ray which) result }
{
    let vectors = tree.vectors();
    if which as usize >= vectors.len() {
        return Some(Reason::NoVector);
    }
    let vector = vectors[which as usize].pairs();
    if !names_only_sides(problem, vector) {
        return Some(Reason::NoSide);
    }
    if maximum_is_at_most(problem, standing, vector, true, -1) {
        None
    } else {
        Some(Reason::NotNegative)
    }
}
