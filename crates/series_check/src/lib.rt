//! The separate checker of series trees: small, and apart from every searcher. Upward it promises
//! that its verdict is the one by definition, that `Optimal` means that no series has a value above
//! that of the series, or above the number given, and that `NoSeries` means that there is no
//! series. It takes no memory, never searches, and calls no code of what makes the trees.
#![tactic(auto)]

mod checker;
mod counting;
mod cut;
mod gains;
mod information;
mod leaf;
mod node;
mod pool;
mod relaxed;
mod rows;
mod setting;
mod sides;
mod standing;
mod top;
mod twins;
mod used;
mod value;
mod walk;

pub use checker::check_series;
pub use counting::is_impossible;
pub use cut::{SeriesCut, below_form, root_cut};
pub use leaf::is_whole;
pub use node::{is_sound, paths_below};
pub use series_model::SeriesVerdict;
pub use setting::Setting;
pub use standing::{Standing, standing_on};
pub use value::{is_series, value as series_value};
