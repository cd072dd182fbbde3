//! The values of the basic columns.

use crate::numbers::{ONE, add_at, product};
use crate::relaxation::Relaxation;
use crate::vertex::{Stand, Tight, Vertex};
use crate::workspace::Workspace;
use proof_tree::Memory;

/// The sum of the products of two lists of numbers.
#[inline]
pub(crate) fn sum_of_products(first: &[i64], second: &[i64]) -> i64 {
    let mut sum = 0i64;
    for (one, other) in first.iter().zip(second.iter()) {
        sum = sum.wrapping_add(one.wrapping_mul(*other));
    }
    sum
}

impl Vertex {
    /// What a tight line still needs beyond the columns that stand at 1.
    fn need(&self, relaxation: &Relaxation, tight: &Tight) -> i64 {
        let place = tight.line as usize;
        let sum = self.sums.get(place).copied().unwrap_or(0);
        match relaxation.lines.get(place) {
            Some(line) if tight.is_high => line.high.wrapping_sub(sum),
            Some(line) => line.low.wrapping_sub(sum),
            None => 0,
        }
    }

    /// What each tight line still needs.
    fn compute_needs(&self, relaxation: &Relaxation, room: &mut Workspace) -> Result<(), Memory> {
        room.needs.clear();
        for tight in self.tight.as_slice() {
            room.needs.push(self.need(relaxation, tight))?;
        }
        Ok(())
    }

    /// The row of the inverse of the basic column at a place.
    #[inline]
    pub(crate) fn inverse_row(&self, place: usize) -> &[i64] {
        let size = self.tight.len();
        let start = place.wrapping_mul(size);
        let end = start.wrapping_add(size);
        self.inverse.as_slice().get(start..end).unwrap_or(&[])
    }

    /// The values of the basic columns, and the bound.
    pub(crate) fn compute_values(
        &mut self,
        relaxation: &Relaxation,
        room: &mut Workspace,
    ) -> Result<(), Memory> {
        self.compute_needs(relaxation, room)?;
        self.values.clear();
        let mut bound = relaxation.given.wrapping_add(self.standing);
        for place in 0..self.basic.len() {
            let value = sum_of_products(self.inverse_row(place), room.needs.as_slice())
                >> relaxation.fine.min(16);
            let column = self.basic.get(place).copied().unwrap_or(0);
            bound = bound.wrapping_add(product(self.whole_gain(relaxation, column), value));
            self.values.push(value)?;
        }
        self.bound = bound;
        Ok(())
    }

    /// Adds what a basic column adds to the sum of each line.
    #[inline]
    fn add_basic(&self, relaxation: &Relaxation, sums: &mut [i64], column: u16, value: i64) {
        for cell in relaxation.column_cells(column) {
            let more = cell.amount.wrapping_mul(value);
            add_at(sums, cell.place as usize, more);
        }
    }

    /// The same with the items that follow it.
    fn add_basic_all(&self, relaxation: &Relaxation, sums: &mut [i64], column: u16, value: i64) {
        self.add_basic(relaxation, sums, column, value);
        for item in relaxation.linked(column) {
            if self.stand(*item) == Stand::One {
                self.add_basic(relaxation, sums, *item, value);
            }
        }
    }

    /// The sum of each line over the columns that stand at 1.
    fn standing_sums(&self, sums: &mut Vec<i64>) -> Result<(), Memory> {
        sums.clear();
        for sum in self.sums.as_slice() {
            sums.push(sum.wrapping_mul(ONE))?;
        }
        Ok(())
    }

    /// The sum of each line over all columns.
    pub(crate) fn compute_sums(
        &self,
        relaxation: &Relaxation,
        sums: &mut Vec<i64>,
    ) -> Result<(), Memory> {
        self.standing_sums(sums)?;
        for (column, value) in self.basic.iter().zip(self.values.iter()) {
            self.add_basic_all(relaxation, sums, *column, *value);
        }
        Ok(())
    }
}
