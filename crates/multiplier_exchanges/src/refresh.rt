//! The inverse, the multipliers and the weights once more, without the errors of rounding that
//! exchanges gather.

use crate::numbers::{ONE, add_at, at, product};
use crate::relaxation::{Cell, Relaxation};
use crate::vertex::{Stand, Vertex, stand_by};
use crate::workspace::Workspace;
use proof_tree::Memory;

/// Adds numbers, each times a factor in units, to others.
#[inline]
fn add_product(sums: &mut [i64], numbers: &[i64], factor: i64) {
    for (sum, number) in sums.iter_mut().zip(numbers.iter()) {
        *sum = sum.wrapping_add(product(factor, *number));
    }
}

/// Takes numbers, each times an amount, off others.
#[inline]
fn take_off(sums: &mut [i64], numbers: &[i64], amount: i64, fine: u32) {
    for (sum, number) in sums.iter_mut().zip(numbers.iter()) {
        *sum = sum.wrapping_sub(number.wrapping_mul(amount) >> fine.min(16));
    }
}

/// The row of a square at a place.
#[inline]
fn row_of(square: &mut [i64], size: usize, place: usize) -> &mut [i64] {
    let start = place.wrapping_mul(size);
    let end = start.wrapping_add(size);
    square.get_mut(start..end).unwrap_or(&mut [])
}

impl Vertex {
    /// The place of each tight line; the number of the lines where it isn't tight.
    fn places(&self, lines: usize, places: &mut Vec<i64>) -> Result<(), Memory> {
        places.clear();
        places.resize(lines, -1)?;
        let mut number = 0i64;
        for tight in self.tight.as_slice() {
            if let Some(place) = places.get_mut(tight.line as usize) {
                *place = number;
            }
            number = number.wrapping_add(1);
        }
        Ok(())
    }

    /// Takes a basic column times its row of the inverse off the square.
    fn take_column(
        &self,
        cells: &[Cell],
        place: usize,
        places: &[i64],
        square: &mut [i64],
        fine: u32,
    ) {
        let size = self.tight.len();
        for cell in cells {
            if let Ok(line) = usize::try_from(at(places, cell.place as usize)) {
                if line < size || places.len() < cell.place as usize {
                    let row = row_of(square, size, line);
                    take_off(row, self.inverse_row(place), cell.amount, fine);
                }
            }
        }
    }

    /// How far the columns times the inverse are from one.
    fn errors(&self, relaxation: &Relaxation, room: &mut Workspace) -> Result<(), Memory> {
        let size = self.tight.len();
        self.places(relaxation.lines.len(), &mut room.sums)?;
        room.spare.clear();
        room.spare.resize(size.wrapping_mul(size), 0)?;
        for place in 0..size {
            let diagonal = place.wrapping_mul(size).wrapping_add(place);
            add_at(&mut room.spare, diagonal, ONE);
        }
        Ok(())
    }

    /// The errors of the inverse.
    fn compute_errors(&self, relaxation: &Relaxation, room: &mut Workspace) -> Result<(), Memory> {
        self.errors(relaxation, room)?;
        for place in 0..self.basic.len() {
            let column = self.basic.get(place).copied().unwrap_or(0);
            let cells = relaxation.column_cells(column);
            let (sums, spare) = (room.sums.as_slice(), &mut room.spare);
            self.take_column(cells, place, sums, spare, relaxation.fine);
            self.take_followers(relaxation, column, place, room);
        }
        Ok(())
    }

    /// The same of the items that follow a column.
    fn take_followers(
        &self,
        relaxation: &Relaxation,
        column: u16,
        place: usize,
        room: &mut Workspace,
    ) {
        for item in relaxation.linked(column) {
            if self.stand(*item) == Stand::One {
                let cells = relaxation.column_cells(*item);
                let (sums, spare) = (room.sums.as_slice(), &mut room.spare);
                self.take_column(cells, place, sums, spare, relaxation.fine);
            }
        }
    }

    /// The correction of a row of the inverse: the row times the errors.
    fn correct(row: &[i64], size: usize, errors: &[i64], sums: &mut [i64]) {
        for place in 0..size {
            let start = place.wrapping_mul(size);
            let end = start.wrapping_add(size);
            let error = errors.get(start..end).unwrap_or(&[]);
            add_product(sums, error, at(row, place));
        }
    }

    /// One step of Newton's for the inverse (Schulz, Iterative Berechnung der reziproken Matrix,
    /// 1933).
    fn correct_inverse(&mut self, room: &mut Workspace) -> Result<(), Memory> {
        let size = self.tight.len();
        room.column.clear();
        room.column.extend_from_slice(self.inverse.as_slice())?;
        for place in 0..size {
            let start = place.wrapping_mul(size);
            let end = start.wrapping_add(size);
            let row = room.column.as_slice().get(start..end).unwrap_or(&[]);
            let sums = row_of(&mut self.inverse, size, place);
            Vertex::correct(row, size, room.spare.as_slice(), sums);
        }
        Ok(())
    }

    /// The multipliers of the tight lines, by the gains of the basic columns.
    fn compute_prices(
        &mut self,
        relaxation: &Relaxation,
        room: &mut Workspace,
    ) -> Result<(), Memory> {
        room.line.clear();
        room.line.resize(self.tight.len(), 0)?;
        for place in 0..self.basic.len() {
            let column = self.basic.get(place).copied().unwrap_or(0);
            let gain = self.whole_gain(relaxation, column).wrapping_neg();
            add_product(&mut room.line, self.inverse_row(place), gain);
        }
        for (tight, price) in self.tight.iter_mut().zip(room.line.iter()) {
            tight.price = *price;
        }
        Ok(())
    }

    /// The weight of a column, by the multipliers.
    fn weight_of(&self, relaxation: &Relaxation, column: u16, prices: &[i64]) -> i64 {
        let mut weight = relaxation.gain(column);
        for cell in relaxation.column_cells(column) {
            let price = at(prices, cell.place as usize);
            let more = price.wrapping_mul(cell.amount) >> relaxation.fine.min(16);
            weight = weight.wrapping_add(more);
        }
        weight
    }

    /// The weight of a basic column by the multipliers, which is to be 0; that of a stimulus with
    /// those of the items that follow it.
    fn residue(&self, relaxation: &Relaxation, column: u16, prices: &[i64]) -> i64 {
        let mut weight = self.weight_of(relaxation, column, prices);
        for item in relaxation.linked(column) {
            if self.stand(*item) == Stand::One {
                let more = self.weight_of(relaxation, *item, prices);
                weight = weight.wrapping_add(more);
            }
        }
        weight
    }

    /// The residues of all basic columns.
    fn compute_residues(
        &self,
        relaxation: &Relaxation,
        room: &mut Workspace,
    ) -> Result<(), Memory> {
        room.needs.clear();
        for column in self.basic.as_slice() {
            let residue = self.residue(relaxation, *column, room.sums.as_slice());
            room.needs.push(residue)?;
        }
        Ok(())
    }

    /// Takes a row of the inverse, times a residue, off the multipliers of the lines.
    fn take_residue(&self, place: usize, residue: i64, prices: &mut [i64]) {
        for (tight, number) in self.tight.iter().zip(self.inverse_row(place).iter()) {
            let less = product(residue, *number).wrapping_neg();
            add_at(prices, tight.line as usize, less);
        }
    }

    /// The multiplier of each line, corrected by what the weights of the basic columns lack to be
    /// 0.
    pub(crate) fn exact_prices(
        &self,
        relaxation: &Relaxation,
        room: &mut Workspace,
    ) -> Result<(), Memory> {
        self.line_prices(relaxation.lines.len(), &mut room.sums)?;
        self.compute_residues(relaxation, room)?;
        for place in 0..self.basic.len() {
            let residue = at(room.needs.as_slice(), place);
            if residue != 0 {
                self.take_residue(place, residue, &mut room.sums);
            }
        }
        Ok(())
    }

    /// Keeps the multipliers of the tight lines.
    fn keep_prices(&mut self, prices: &[i64]) {
        for tight in self.tight.iter_mut() {
            tight.price = at(prices, tight.line as usize);
        }
    }

    /// The multiplier of each line.
    pub(crate) fn line_prices(&self, lines: usize, prices: &mut Vec<i64>) -> Result<(), Memory> {
        prices.clear();
        prices.resize(lines, 0)?;
        for tight in self.tight.as_slice() {
            add_at(prices, tight.line as usize, tight.price);
        }
        Ok(())
    }

    /// The weights of the columns that aren't basic, and where they stand.
    fn compute_weights(
        &mut self,
        relaxation: &Relaxation,
        room: &mut Workspace,
    ) -> Result<(), Memory> {
        self.exact_prices(relaxation, room)?;
        self.keep_prices(room.sums.as_slice());
        let count = u16::try_from(self.columns.len()).unwrap_or(0);
        for column in 0..count {
            if self.stand(column) != Stand::Basic || relaxation.is_stimulus(column) {
                let weight = self.weight_of(relaxation, column, room.sums.as_slice());
                if let Some(known) = self.columns.get_mut(column as usize) {
                    known.weight = weight;
                }
                self.stand_anew(relaxation, column);
            }
        }
        Ok(())
    }

    /// Lets a column stand where its weight shows, unless it is basic or follows a basic one.
    fn stand_anew(&mut self, relaxation: &Relaxation, column: u16) {
        if self.stand(column) != Stand::Basic && !self.follows_basic(relaxation, column) {
            let stand = stand_by(self.hold(column), self.weight(relaxation, column));
            self.stand_at(relaxation, column, stand);
        }
    }

    /// Refreshes the inverse, the multipliers and the weights.
    pub(crate) fn refresh(
        &mut self,
        relaxation: &Relaxation,
        room: &mut Workspace,
    ) -> Result<(), Memory> {
        self.compute_errors(relaxation, room)?;
        self.correct_inverse(room)?;
        self.compute_prices(relaxation, room)?;
        self.compute_weights(relaxation, room)?;
        self.age = 0;
        Ok(())
    }
}
