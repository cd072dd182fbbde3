//! The vectors of a tree, and which of them closes a path.

use crate::incumbent::Incumbent;
use crate::priced::Priced;
use crate::table::Table;
use bank_tables::List;
use bank_tables::limits::{PAIRS, VECTOR_PAIRS, VECTORS};
use certificate_model::Node;
use lagrange_bound::Cut;
use proof_tree::{Memory, Vector};
use std::alloc::Global;

/// The vectors of a tree.
#[derive(Drop)]
pub struct Pool {
    vectors: Vec<Priced>,
    /// How many pairs they have in all.
    pairs: usize,
    /// The empty vector, once it was tried, until it closes a path.
    plain: Option<Priced>,
    /// Whether the empty vector is one of the vectors.
    has_plain: bool,
    /// The place of the vector that closed a path last.
    last: usize,
}

/// The vector with no multipliers.
pub fn empty_vector(alloc: Global) -> Vector {
    Vector::new(List::of(Vec::new(alloc)))
}

/// How many items a path still needs.
pub fn wanted(table: &Table, cut: &Cut) -> u32 {
    table.length.saturating_sub(cut.taken.count())
}

/// Whether a vector closes the path: no form there is better than the incumbent, or, by a ray,
/// there is none.
fn closes(priced: &Priced, table: &Table, incumbent: &Incumbent, cut: &Cut) -> bool {
    if !priced.ray && incumbent.form.is_none() {
        return false;
    }
    let top = if priced.ray { -1 } else { incumbent.top() };
    match priced.bound_on(cut, wanted(table, cut)) {
        Some(bound) => bound <= top,
        None => false,
    }
}

/// The leaf of a vector at a place.
fn leaf_with(ray: bool, place: usize) -> Option<Node> {
    let place = u8::try_from(place).ok()?;
    if ray {
        Some(Node::Ray(place))
    } else {
        Some(Node::Bound(place))
    }
}

impl Pool {
    /// No vectors; the place of the empty one is kept.
    pub fn new(alloc: Global) -> Pool {
        Pool {
            vectors: Vec::new(alloc),
            pairs: 0,
            plain: None,
            has_plain: false,
            last: 0,
        }
    }

    /// Whether there is room for a vector with any pairs, the place of the empty one aside.
    pub fn has_room(&self) -> bool {
        let kept = if self.has_plain { 0 } else { 1 };
        self.vectors.len().saturating_add(kept) < VECTORS as usize
            && self.pairs <= (PAIRS - VECTOR_PAIRS) as usize
    }

    /// Adds a vector, and gives its leaf.
    pub fn store(&mut self, priced: Priced) -> Result<Option<Node>, Memory> {
        let place = self.vectors.len();
        let leaf = leaf_with(priced.ray, place);
        self.pairs = self.pairs.saturating_add(priced.vector.pairs().len());
        self.vectors.push(priced)?;
        self.last = place;
        Ok(leaf)
    }

    /// The leaf of the vector at a place, if that closes the path.
    fn leaf_at(
        &self,
        table: &Table,
        incumbent: &Incumbent,
        cut: &Cut,
        place: usize,
    ) -> Option<Node> {
        let priced = self.vectors.get(place)?;
        if closes(priced, table, incumbent, cut) {
            leaf_with(priced.ray, place)
        } else {
            None
        }
    }

    /// The leaf of a vector that closes the path: the one that closed last is tried first, then the
    /// newest.
    pub fn closing(&mut self, table: &Table, incumbent: &Incumbent, cut: &Cut) -> Option<Node> {
        if let Some(leaf) = self.leaf_at(table, incumbent, cut, self.last) {
            return Some(leaf);
        }
        let count = self.vectors.len();
        for back in 0..count {
            let place = count.saturating_sub(back).saturating_sub(1);
            if let Some(leaf) = self.leaf_at(table, incumbent, cut, place) {
                self.last = place;
                return Some(leaf);
            }
        }
        None
    }

    /// Whether a vector closes the path.
    pub fn has_closing(&self, table: &Table, incumbent: &Incumbent, cut: &Cut) -> bool {
        self.vectors
            .as_slice()
            .iter()
            .any(|priced| closes(priced, table, incumbent, cut))
    }

    /// The leaf of a vector, if that closes the path and there is room for it.
    pub fn closed_by(
        &mut self,
        alloc: Global,
        table: &Table,
        incumbent: &Incumbent,
        cut: &Cut,
        vector: Vector,
        ray: bool,
    ) -> Result<Option<Node>, Memory> {
        if !self.has_room() {
            return Ok(None);
        }
        let priced = Priced::of(alloc, table, vector, ray)?;
        if closes(&priced, table, incumbent, cut) {
            self.store(priced)
        } else {
            Ok(None)
        }
    }

    /// Whether the empty vector closes the path and isn't among the others yet.
    fn plain_closes(
        &mut self,
        alloc: Global,
        table: &Table,
        incumbent: &Incumbent,
        cut: &Cut,
    ) -> Result<bool, Memory> {
        if self.has_plain {
            return Ok(false);
        }
        if self.plain.is_none() {
            self.plain = Some(Priced::of(alloc, table, empty_vector(alloc), false)?);
        }
        Ok(match &self.plain {
            Some(plain) => closes(plain, table, incumbent, cut),
            None => false,
        })
    }

    /// The leaf of the empty vector, if that closes the path and isn't among the others yet.
    pub fn closing_plain(
        &mut self,
        alloc: Global,
        table: &Table,
        incumbent: &Incumbent,
        cut: &Cut,
    ) -> Result<Option<Node>, Memory> {
        if !self.plain_closes(alloc, table, incumbent, cut)? {
            return Ok(None);
        }
        self.has_plain = true;
        match self.plain.take() {
            Some(plain) => self.store(plain),
            None => Ok(None),
        }
    }

    /// The vectors once more.
    pub fn copied_vectors(&self, alloc: Global) -> Result<Vec<Vector>, Memory> {
        let mut vectors = Vec::new(alloc);
        for priced in self.vectors.as_slice() {
            vectors.push(priced.vector.again(alloc)?)?;
        }
        Ok(vectors)
    }
}
