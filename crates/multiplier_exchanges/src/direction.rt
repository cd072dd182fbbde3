//! The direction of an exchange.

use crate::leaving::{Leaver, Part};
use crate::numbers::{ONE, add_at, at};
use crate::relaxation::{Cell, Relaxation};
use crate::vertex::Vertex;
use crate::workspace::Direction;
use proof_tree::Memory;

/// Adds numbers, each times a factor, to others.
#[inline]
fn add_times(sums: &mut [i64], numbers: &[i64], factor: i64, fine: u32) {
    for (sum, number) in sums.iter_mut().zip(numbers.iter()) {
        *sum = sum.wrapping_add(number.wrapping_mul(factor) >> fine.min(16));
    }
}

/// Adds the cells of a line, times a factor, to the entries of the columns.
#[inline]
fn add_line(entries: &mut [i64], cells: &[Cell], factor: i64, fine: u32) {
    for cell in cells {
        let more = cell.amount.wrapping_mul(factor) >> fine.min(16);
        add_at(entries, cell.place as usize, more);
    }
}

/// The amount of a cell at a place among some; 0 where there is none.
#[inline]
pub(crate) fn amount_at(cells: &[Cell], place: u16) -> i64 {
    for cell in cells {
        if cell.place == place {
            return cell.amount;
        }
    }
    0
}

/// Turns the sign of each number.
pub(crate) fn turn(numbers: &mut [i64], sign: i64) {
    for number in numbers.iter_mut() {
        *number = number.wrapping_mul(sign);
    }
}

impl Vertex {
    /// The inverse times a line: how the multipliers of the tight lines make up for one on it.
    pub(crate) fn line_by_inverse(
        &self,
        relaxation: &Relaxation,
        line: u16,
        made: &mut Vec<i64>,
    ) -> Result<(), Memory> {
        made.clear();
        made.resize(self.tight.len(), 0)?;
        for place in 0..self.basic.len() {
            let column = self.basic.get(place).copied().unwrap_or(0);
            let amount = self.amount(relaxation, column, line);
            if amount != 0 {
                add_times(made, self.inverse_row(place), amount, relaxation.fine);
            }
        }
        Ok(())
    }

    /// The prices of a direction.
    fn point(
        &self,
        relaxation: &Relaxation,
        leaver: &Leaver,
        direction: &mut Direction,
    ) -> Result<(), Memory> {
        match leaver.part {
            Part::Column(place) => {
                direction.line = None;
                direction.prices.clear();
                direction.prices.extend_from_slice(self.inverse_row(place))?;
                turn(&mut direction.prices, leaver.sign);
            }
            Part::Line(line) => {
                direction.line = Some((line, leaver.sign));
                self.line_by_inverse(relaxation, line, &mut direction.prices)?;
                turn(&mut direction.prices, leaver.sign.wrapping_neg());
            }
        }
        Ok(())
    }

    /// The direction in which a column or line leaves.
    pub(crate) fn compute_direction(
        &self,
        relaxation: &Relaxation,
        leaver: &Leaver,
        direction: &mut Direction,
    ) -> Result<(), Memory> {
        self.point(relaxation, leaver, direction)?;
        direction.entries.clear();
        direction.entries.resize(self.columns.len(), 0)?;
        if let Some((line, sign)) = direction.line {
            let cells = relaxation.line_cells(line);
            let whole = sign.wrapping_mul(ONE);
            add_line(&mut direction.entries, cells, whole, relaxation.fine);
        }
        for place in 0..self.tight.len() {
            let price = at(direction.prices.as_slice(), place);
            if let Some(tight) = self.tight.get(place) {
                if price != 0 {
                    let cells = relaxation.line_cells(tight.line);
                    add_line(&mut direction.entries, cells, price, relaxation.fine);
                }
            }
        }
        Ok(())
    }
}
