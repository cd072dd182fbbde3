//! Leaves that exchanges find.

use crate::forms::Best;
use crate::known::Kept;
use crate::model::Model;
use crate::multipliers::Multipliers;
use crate::numbers::add_at;
use crate::path::Path;
use crate::priced::Priced;
use crate::table::Table;
use multiplier_exchanges::{Reached, Vertex};
use series_tree::{Memory, SeriesNode};
use std::alloc::Global;

/// Exchanges at a path, at most.
const MOST_EXCHANGES: u32 = 2_000;

/// The lengths at which the direction of a ray is tried, each 16 times the one before, and the
/// least of them.
const RAY_LENGTHS: u32 = 6;

const FIRST_LENGTH: i64 = 1_048_576;

/// The target of exchanges: what closes a path; the least number without a series.
fn target_of(model: &Model, table: &Table, best: &Best) -> i64 {
    match best.known() {
        Some(value) => model.target(table, value.saturating_add(1)),
        None => i64::MIN,
    }
}

impl Model {
    /// At most so many exchanges towards what closes a path.
    pub fn run(
        &mut self,
        table: &Table,
        best: &Best,
        vertex: &mut Vertex,
        most: u32,
    ) -> Result<Reached, Memory> {
        let target = target_of(self, table, best);
        vertex.run(&self.relaxation, target, most, &mut self.room)
    }

    /// Exchanges to the best vertex.
    fn run_on(&mut self, vertex: &mut Vertex) -> Result<Reached, Memory> {
        vertex.run(&self.relaxation, i64::MIN, MOST_EXCHANGES, &mut self.room)
    }

    /// How far a vertex is above what closes a path.
    pub fn gap(&self, table: &Table, best: &Best, vertex: &Vertex) -> i64 {
        match best.known() {
            Some(_) => vertex
                .bound()
                .saturating_sub(target_of(self, table, best))
                .max(1),
            None => i64::MAX / 8,
        }
    }

    /// The multipliers of a vertex.
    pub fn multipliers_of(
        &mut self,
        alloc: Global,
        table: &Table,
        vertex: &Vertex,
    ) -> Result<Multipliers, Memory> {
        let prices = vertex.prices(&self.relaxation, &mut self.room)?;
        let prices = Vec::from_slice(alloc, prices)?;
        self.multipliers(alloc, table, prices.as_slice())
    }

    /// The multipliers at a length from a vertex in the direction of a ray, or of that direction
    /// alone.
    fn multipliers_towards(
        &mut self,
        alloc: Global,
        table: &Table,
        vertex: &Vertex,
        length: i64,
        alone: bool,
    ) -> Result<Multipliers, Memory> {
        let (relaxation, room) = (&self.relaxation, &mut self.room);
        let prices = vertex.prices_towards(relaxation, room, length, alone)?;
        let prices = Vec::from_slice(alloc, prices)?;
        self.multipliers(alloc, table, prices.as_slice())
    }

    /// The leaf of a vertex, if its vector closes a path.
    fn leaf_of(
        &mut self,
        alloc: Global,
        table: &Table,
        kept: &mut Kept,
        best: &Best,
        path: &Path,
        vertex: &Vertex,
    ) -> Result<Option<SeriesNode>, Memory> {
        let multipliers = self.multipliers_of(alloc, table, vertex)?;
        leaf_by(alloc, table, kept, best, path, &multipliers)
    }

    /// The leaf of a ray: of its direction alone, or of some way in that direction.
    fn leaf_of_ray(
        &mut self,
        alloc: Global,
        table: &Table,
        kept: &mut Kept,
        best: &Best,
        path: &Path,
        vertex: &Vertex,
    ) -> Result<Option<SeriesNode>, Memory> {
        let alone = self.multipliers_towards(alloc, table, vertex, FIRST_LENGTH, true)?;
        if let Some(leaf) = leaf_by(alloc, table, kept, best, path, &alone)? {
            return Ok(Some(leaf));
        }
        let mut length = FIRST_LENGTH;
        for _ in 0..RAY_LENGTHS {
            let near = self.multipliers_towards(alloc, table, vertex, length, false)?;
            if let Some(leaf) = leaf_by(alloc, table, kept, best, path, &near)? {
                return Ok(Some(leaf));
            }
            length = length.saturating_mul(16);
        }
        Ok(None)
    }

    /// Whether exchanges from a vertex close its path.
    pub fn closes(
        &mut self,
        table: &Table,
        best: &Best,
        vertex: &mut Vertex,
    ) -> Result<bool, Memory> {
        Ok(match self.run(table, best, vertex, MOST_EXCHANGES)? {
            Reached::Target | Reached::Ray => true,
            Reached::Best | Reached::Limit => false,
        })
    }

    /// The leaf at a path that exchanges find from a vertex.
    pub fn leaf(
        &mut self,
        alloc: Global,
        table: &Table,
        kept: &mut Kept,
        best: &Best,
        path: &Path,
        vertex: &mut Vertex,
    ) -> Result<Option<SeriesNode>, Memory> {
        match self.run(table, best, vertex, MOST_EXCHANGES)? {
            Reached::Ray => self.leaf_of_ray(alloc, table, kept, best, path, vertex),
            Reached::Best | Reached::Limit => Ok(None),
            Reached::Target => {
                if let Some(leaf) = self.leaf_of(alloc, table, kept, best, path, vertex)? {
                    return Ok(Some(leaf));
                }
                match self.run_on(vertex)? {
                    Reached::Ray => self.leaf_of_ray(alloc, table, kept, best, path, vertex),
                    _ => self.leaf_of(alloc, table, kept, best, path, vertex),
                }
            }
        }
    }
}

/// The leaf at a path with too few items for all forms: a multiplier of 1 on the common use of each
/// shows it.
pub fn shortage(
    alloc: Global,
    table: &Table,
    kept: &mut Kept,
    best: &Best,
    path: &Path,
) -> Result<Option<SeriesNode>, Memory> {
    let present = path.present();
    if table.forms < 2 || present.count() as i64 >= table.pool_length() {
        return Ok(None);
    }
    let mut multipliers = Multipliers::none(alloc, table, false)?;
    for item in 0..table.items {
        if present.has(item) {
            add_at(&mut multipliers.uses, item as usize, 1);
        }
    }
    leaf_by(alloc, table, kept, best, path, &multipliers)
}

/// The leaf of some multipliers, if their vector closes a path.
pub fn leaf_by(
    alloc: Global,
    table: &Table,
    kept: &mut Kept,
    best: &Best,
    path: &Path,
    multipliers: &Multipliers,
) -> Result<Option<SeriesNode>, Memory> {
    let mut priced = Priced::of(alloc, table, multipliers)?;
    if priced.is_pool && table.has_thresholds() {
        priced.set_threshold(table, path, &mut kept.room)?;
    }
    kept.keep(alloc, table, best, path, priced, multipliers)
}
