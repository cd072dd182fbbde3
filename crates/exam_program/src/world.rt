//! What the program is run on, and what it hands back.

use crate::halt::Halt;

/// What a command that waits for nobody needs: files to read, a sink to print to, and the disk of
/// the journal.
#[derive(Drop)]
pub struct Tools<F, O, D> {
    pub files: F,
    pub out: O,
    pub disk: D,
}

/// The outside: files, sink and disk, the doors that connections come from, the gate that may hold
/// a caller and observes the examination, and the token that messages have to bear, if there is
/// one.
#[derive(Drop)]
pub struct World<F, O, D, L, G> {
    pub files: F,
    pub out: O,
    pub disk: D,
    pub doors: Vec<L>,
    pub gate: G,
    pub token: Option<Vec<u8>>,
}

/// The outside as the program leaves it, with the status to end with, and the halt if the run ended
/// by one.
#[derive(Drop)]
pub struct Finish<F, O, D, L> {
    pub status: u8,
    pub halt: Option<Halt>,
    pub files: F,
    pub out: O,
    pub disk: D,
    pub doors: Vec<L>,
}
