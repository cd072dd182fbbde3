//! A book of many examinations: the list of their entries, and the seats, bookings and exposure
//! counts that follow from it. Upward it promises by its type that each entry is legal after those
//! before it, that what it reports is what the entries give, and that `judge` lets a record follow
//! exactly where it may, its proof tree included, and otherwise names the first reason. `lift`
//! makes of a record of the first version of the journal the one of today. The book writes no
//! journal and assembles no form. Only `new` and `reserve` take memory.
#![tactic(auto)]

mod apply;
mod bands;
mod book;
mod bookings;
mod claims;
mod counting;
mod drawing;
mod flags;
mod judge;
mod kept_seat;
pub mod laws;
mod lifting;
mod listing;
mod seats;
mod totals;

pub use book::Book;
pub use exam_records::{Bands, Cause, Entry, Record, Without};
pub use exposure_counters::{Counters, Memory};
pub use history_model::{Illegal, Place, Summary};
pub use listing::{is_list, whole_without};
