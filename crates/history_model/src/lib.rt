//! What a reader must believe about examinations: the entries of a history, and in specs/ what
//! follows from them for its sessions: place, seat, problem, exposure counts, the eligibility draw,
//! which entry is legal, which record may follow, and why one may not; what a request refuses and
//! does; and a history in numbers. Upward it promises the laws over them; it knows no file and no
//! thread, and has no code but plain types, laws and the words for refusals.
#![tactic(auto)]

mod claim;
mod counts;
mod entry;
mod illegal;
pub mod laws;
mod place;
mod refusal;
mod request;
mod summary;
mod words;

pub use claim::Claim;
pub use counts::Counts;
pub use entry::{Bands, Cause, Entry, Without};
pub use illegal::Illegal;
pub use place::Place;
pub use refusal::Refusal;
pub use request::{Exposure, Reply, Request};
pub use summary::Summary;
pub use words::refusal_word;
