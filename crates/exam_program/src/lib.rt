//! The program as a library: what the words ask for, the texts of the files, the assembly of a
//! form, the requests of a script over the journal, the work of a server, the lines and the
//! statuses. Upward it promises, in the contract of the call `run`, what is printed and with which
//! status, for all words and all files; it opens no file of the host itself. `run_alone` does the
//! work of each command, and waits for nobody.
#![tactic(auto)]

mod auditing;
mod base;
mod drilling;
mod following;
mod halt;
mod item_sets;
pub mod laws;
mod lines;
mod link_ends;
mod linking;
mod migrating;
mod output;
mod program;
mod reading;
mod reasons;
mod replay;
mod report;
mod series;
mod serving;
mod shipping;
mod tree_texts;
mod work;
mod world;

pub use halt::Halt;
pub use program::{run, run_alone};
pub use reasons::{halt_words, place_of};
pub use world::{Finish, Tools, World};
