//! The payload of a journal record: an entry of a history, with the proof tree that shows what a
//! served form or a set-aside session rests on. Upward it promises that a record has one spelling
//! in bytes, that what is written is read again, and where each fault of a payload is; it never
//! judges whether an entry is legal or what a tree shows. The second version of the journal has all
//! of a record. The first has one eligible set of a start, and no step and band of a setting aside.
#![tactic(auto)]

mod fault;
pub mod laws;
mod reading;
mod record;
mod sets;
mod spellable;
mod writing;

pub use fault::RecordFault;
pub use history_model::{Bands, Cause, Entry, Without};
pub use proof_tree::Memory;
pub use reading::{decode, decode_old};
pub use record::Record;
pub use spellable::{are_sets, is_in_range};
pub use writing::{
    encode, encode_old, encode_old_parts, encode_parts, growth, push_old_record, push_record,
};
