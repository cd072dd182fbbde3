//! Exchanges until the bound is low enough, or the best there is.

use crate::relaxation::Relaxation;
use crate::vertex::Vertex;
use crate::workspace::Workspace;
use proof_tree::Memory;

/// Exchanges after which the inverse is refreshed.
const FRESH: u32 = 60;

/// Where exchanges ended.
#[derive(Clone, Copy, Debug, PartialEq, Eq)]
pub enum Reached {
    /// The bound is at most what was asked for.
    Target,
    /// The bound is the best there is on the path.
    Best,
    /// There were as many exchanges as were allowed.
    Limit,
    /// The path has no form; the direction shows it.
    Ray,
}

impl Vertex {
    /// At most so many exchanges, until the bound is at most the target. A ray is believed only of
    /// a fresh inverse.
    // Promise: Exchanges, at most so many, and where they ended
    // - of `Vertex::run`, `Vertex::bound`
    // - by none
    pub fn run(
        &mut self,
        relaxation: &Relaxation,
        target: i64,
        limit: u32,
        room: &mut Workspace,
    ) -> Result<Reached, Memory> {
        for _ in 0..limit {
            self.compute_values(relaxation, room)?;
            if self.bound <= target {
                return Ok(Reached::Target);
            }
            let Some(leaver) = self.leaver(relaxation, room)? else {
                return Ok(Reached::Best);
            };
            let is_ray = !self.exchange(relaxation, &leaver, room)?;
            if is_ray && self.age == 0 {
                return Ok(Reached::Ray);
            }
            if is_ray || self.age >= FRESH {
                self.refresh(relaxation, room)?;
            }
        }
        self.compute_values(relaxation, room)?;
        if self.bound <= target {
            Ok(Reached::Target)
        } else {
            Ok(Reached::Limit)
        }
    }
}
