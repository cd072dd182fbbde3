//! The vectors of a tree.

use crate::forms::Best;
use crate::multipliers::Multipliers;
use crate::path::Path;
use crate::priced::Priced;
use crate::rule::Room;
use crate::table::Table;
use bank_tables::limits::{PAIRS, VECTORS};
use series_tree::{Memory, SeriesNode};
use std::alloc::Global;

/// Vectors that are tried at a path, the newest first.
const TRIED: usize = 255;

/// The vectors that leaves name.
#[derive(Drop)]
pub struct Kept {
    pub vectors: Vec<Priced>,
    pairs: usize,
    pub room: Room,
}

impl Kept {
    /// No vectors.
    pub fn none(alloc: Global) -> Kept {
        Kept {
            vectors: Vec::new(alloc),
            pairs: 0,
            room: Room::new(alloc),
        }
    }

    /// Whether there is no room for one vector more, or for none as long as the last one.
    pub fn is_full(&self) -> bool {
        let last = match self.vectors.last() {
            Some(priced) => priced.pairs.len(),
            None => 0,
        };
        let more = self.pairs.saturating_add(last);
        self.vectors.len() >= VECTORS as usize || more > PAIRS as usize
    }

    /// Whether a vector closes a path.
    fn closes(
        room: &mut Room,
        table: &Table,
        priced: &Priced,
        best: &Best,
        path: &Path,
    ) -> Result<bool, Memory> {
        let limit = match best.known() {
            _ if priced.is_ray => 0,
            Some(value) => priced.goal(table, value),
            None => return Ok(false),
        };
        Ok(match priced.maximum(table, path, room)? {
            Some(maximum) => maximum < limit,
            None => false,
        })
    }

    /// The leaf of a vector by its number.
    fn leaf_of(priced: &Priced, number: usize) -> Option<SeriesNode> {
        let number = u8::try_from(number).ok()?;
        Some(if priced.is_ray {
            SeriesNode::Ray(number)
        } else {
            SeriesNode::Bound(number)
        })
    }

    /// The leaf of a vector that is kept already, if one closes a path.
    pub fn closed(
        &mut self,
        table: &Table,
        best: &Best,
        path: &Path,
    ) -> Result<Option<SeriesNode>, Memory> {
        let mut number = self.vectors.len();
        for priced in self.vectors.iter().rev().take(TRIED) {
            number = number.saturating_sub(1);
            if Kept::closes(&mut self.room, table, priced, best, path)? {
                return Ok(Kept::leaf_of(priced, number));
            }
        }
        Ok(None)
    }

    /// Keeps a vector if it closes a path and there is room for it; its leaf.
    pub fn keep(
        &mut self,
        alloc: Global,
        table: &Table,
        best: &Best,
        path: &Path,
        priced: Priced,
        multipliers: &Multipliers,
    ) -> Result<Option<SeriesNode>, Memory> {
        let pairs = multipliers.pairs(alloc, table, priced.threshold)?;
        let all = self.pairs.saturating_add(pairs.len());
        let number = self.vectors.len();
        if number >= VECTORS as usize || all > PAIRS as usize {
            return Ok(None);
        }
        if !Kept::closes(&mut self.room, table, &priced, best, path)? {
            return Ok(None);
        }
        let mut kept = priced;
        kept.pairs = pairs;
        let leaf = Kept::leaf_of(&kept, number);
        self.vectors.push(kept)?;
        self.pairs = all;
        Ok(leaf)
    }
}
