//! What the definitions imply, for every problem, path, vector, tree and set of items.

ghost use Rattle.certificate_model.specs.Laws.{WeakDuality, FixKeeps, NoCapNoLinks, RayIsNotNegative, CountingIsSound, OptimalIsBest, NoFormIsNone, OneVerdict, PartialCountsOpen, PartialIsSmall, FewOpen, ClosedFormIsMaximum, BetteringKeeps, SomeMaximum, OneMaximum, MaximumMeansPossible};

/// No form on a path exceeds the relaxed maximum there, whatever the multipliers (weak duality of
/// Lagrangian relaxation; Geoffrion, Lagrangean Relaxation for Integer Programming, 1974).
// Promise: No form on a path exceeds the relaxed maximum there, whatever the multipliers
// - by `WeakDuality`
pub fn weak_duality()
    ensures { WeakDuality }
{}

/// A form on a path that is better than a goal is on the path that a vector fixes for this goal
/// (reduced cost fixing; Nemhauser and Wolsey, Integer and Combinatorial Optimization, 1988).
// Promise: A form on a path that is better than a goal is on the path that a vector fixes for this
// goal
// - by `FixKeeps`
pub fn fix_keeps()
    ensures { FixKeeps }
{}

/// To a vector that names neither side of the cap the cap changes nothing.
// Promise: A vector without a cap has the Lagrangian without links, so a tree without caps keeps
// its verdict
// - by `NoCapNoLinks`
pub fn no_cap_no_links()
    ensures { NoCapNoLinks }
{}

/// A ray whose relaxed maximum is below 0 leaves no form on its path.
// Promise: A ray's relaxed maximum is not negative where a form is on the path
// - by `RayIsNotNegative`
pub fn ray_is_not_negative()
    ensures { RayIsNotNegative }
{}

/// A row that is impossible by counting leaves no form on its path.
// Promise: A row that is impossible by counting leaves no form on the path
// - by `CountingIsSound`
pub fn counting_is_sound()
    ensures { CountingIsSound }
{}

/// A tree whose verdict is Optimal shows that its form is best over all sets of items.
// Promise: A tree with the verdict Optimal shows that its form is best over all sets of items
// - by `OptimalIsBest`
pub fn optimal_is_best()
    ensures { OptimalIsBest }
{}

/// A tree whose verdict is NoForm shows that no set of items is a form.
// Promise: A tree with the verdict NoForm shows that no set of items is a form
// - by `NoFormIsNone`
pub fn no_form_verdict_is_right()
    ensures { NoFormIsNone }
{}

/// A tree has at most one verdict.
// Promise: A tree has at most one verdict
// - by `OneVerdict`
pub fn one_verdict()
    ensures { OneVerdict }
{}

/// A Partial verdict gives the number of Open leaves, and there are some.
// Promise: A Partial verdict has the number of Open leaves. Such a tree has fewer than 2^(u+1) - 1
// nodes, u being the free items and open stimuli at the root
// - of `laws::partial_counts_open`, `laws::partial_is_small`
// - by `PartialCountsOpen`, `PartialIsSmall`
pub fn partial_counts_open()
    ensures { PartialCountsOpen }
{}

/// A tree whose verdict is Partial is smaller than a full binary tree over the free items and open
/// stimuli of the root: so a search with that many nodes ends with a proof.
pub fn partial_is_small()
    ensures { PartialIsSmall }
{}

/// A spent tree, searched depth first, leaves few leaves Open.
// Promise: A spent tree has at most u + 1 Open leaves
// - by `FewOpen`
pub fn few_open()
    ensures { FewOpen }
{}

/// The relaxed maximum is had by the greatest reduced weights: no other relaxed pair has a greater
/// Lagrangian.
// Promise: The greatest reduced weights give the relaxed maximum
// - by `ClosedFormIsMaximum`
pub fn closed_form_is_maximum()
    ensures { ClosedFormIsMaximum }
{}

/// A greater objective keeps sound nodes sound: a form may be bettered after the search.
// Promise: A better form leaves a Partial verdict as it is
// - by `BetteringKeeps`
pub fn bettering_keeps()
    ensures { BetteringKeeps }
{}

/// Where the length is possible by counting there is a relaxed maximum.
// Promise: There is a relaxed maximum exactly where the length is possible, and it is one number
// - of `laws::some_maximum`, `laws::one_maximum`, `laws::maximum_means_possible`
// - by `SomeMaximum`, `OneMaximum`, `MaximumMeansPossible`
pub fn some_maximum()
    ensures { SomeMaximum }
{}

/// It is one number.
pub fn one_maximum()
    ensures { OneMaximum }
{}

/// Elsewhere there is none.
pub fn maximum_means_possible()
    ensures { MaximumMeansPossible }
{}
