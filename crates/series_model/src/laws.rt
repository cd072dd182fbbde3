//! What the definitions imply, for every series problem, path, vector, tree and list of sets.

ghost use Rattle.series_model.specs.SeriesLaws.{SeriesDuality, SeriesRay, PoolDuality, PoolRay, SeriesCounting, SeriesUses, OptimalIsBestSeries, OptimalIsAtMost, NoSeriesIsNone, OneFormIsBest};

/// No series on a path has a value above the relaxed maximum there over the sum of the multipliers
/// of the points, whatever the multipliers (weak duality of Lagrangian relaxation; Geoffrion,
/// Lagrangean Relaxation for Integer Programming, 1974).
pub fn series_duality()
    // Promise: The value of a series on a path, times the multipliers of the points, is at most the
    // relaxed maximum there, whatever the multipliers
    ensures { SeriesDuality }
{}

/// A ray whose relaxed maximum is below 0 leaves no series on its path.
pub fn series_ray()
    // Promise: A ray whose relaxed maximum is below 0 leaves no series on its path
    ensures { SeriesRay }
{}

/// No series on a path has a value above a number U where the relaxed maximum of the pool is below
/// the least that the weighted information of such a series can be.
pub fn pool_duality()
    // Promise: A series with a value above a number reaches the goal of the pool for it, and the
    // relaxed maximum of the pool is at least that
    ensures { PoolDuality }
{}

/// A ray whose relaxed maximum of the pool is below 0 leaves no series on its path.
pub fn pool_ray()
    // Promise: A ray whose relaxed maximum of the pool is below 0 leaves no series on its path
    ensures { PoolRay }
{}

/// A row of a form that is impossible by counting leaves no series on the path.
pub fn series_counting()
    // Promise: A row of a form that is impossible by counting leaves no series on its path
    ensures { SeriesCounting }
{}

/// A used item that is in no form and free in none leaves no series on the path; nor do more items
/// in forms and used than the forms have.
pub fn series_uses()
    // Promise: A used item that no form can have leaves no series on its path; nor do more items in
    // forms and used than the forms have
    ensures { SeriesUses }
{}

/// A tree whose verdict is Optimal shows that its series is best over all lists of sets of items.
pub fn optimal_is_best_series()
    // Promise: A tree whose verdict is Optimal shows that its series is best
    ensures { OptimalIsBestSeries }
{}

/// With a number in place of the value it shows that no series has a value above that number.
pub fn optimal_is_at_most()
    // Promise: With a number in place of the value, it shows that no series has a value above that
    // number
    ensures { OptimalIsAtMost }
{}

/// A tree whose verdict is NoSeries shows that no list of sets is a series.
pub fn no_series_verdict_is_right()
    // Promise: A tree whose verdict is NoSeries shows that there is no series
    ensures { NoSeriesIsNone }
{}

/// With one form and one weight of 1 the best series is a best form of the whole problem.
pub fn one_form_is_best()
    // Promise: With one form and one weight of 1, the best series is a best form of the whole
    // problem, and its value that form's objective
    ensures { OneFormIsBest }
{}
