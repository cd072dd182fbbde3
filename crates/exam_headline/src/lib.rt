//! What a reader of the headline must believe about a run: what a file of the journal holds, what a
//! request adds to a history, what its reply shows, and what a link may get. Upward it promises by
//! laws that what `exam_program` and `exam_serve` state is so in these words; it computes nothing.
#![tactic(auto)]

pub mod laws;
