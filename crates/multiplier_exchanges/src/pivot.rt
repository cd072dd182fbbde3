//! The exchange of what leaves for what enters.

use crate::breaks::{Break, Enterer, Leaving, search_line};
use crate::inverse::{add_row, grow, replace_column, replace_line, shrink};
use crate::leaving::{Leaver, Part};
use crate::numbers::{ONE, at, product, quotient};
use crate::relaxation::Relaxation;
use crate::values::sum_of_products;
use crate::vertex::{Hold, Stand, Tight, Vertex, stand_by};
use crate::workspace::{Direction, Workspace};
use proof_tree::Memory;
use std::mem;

/// How far it is until a number reaches 0, which changes by an entry.
fn way(number: i64, entry: i64) -> i64 {
    quotient(number, entry).saturating_abs()
}

impl Vertex {
    /// How far it is to the break that enters.
    fn step_to(&self, relaxation: &Relaxation, enterer: Enterer, direction: &Direction) -> i64 {
        match enterer {
            Enterer::Column(column) => {
                let entry = self.entry(relaxation, direction, column);
                way(self.weight(relaxation, column), entry)
            }
            Enterer::Line(place) => {
                let entry = at(direction.prices.as_slice(), place);
                match self.tight.get(place) {
                    Some(known) => way(known.price, entry),
                    None => 0,
                }
            }
        }
    }

    /// Moves the multipliers of the tight lines.
    fn move_prices(&mut self, direction: &Direction, step: i64) {
        for (tight, price) in self.tight.iter_mut().zip(direction.prices.iter()) {
            tight.price = tight.price.wrapping_add(product(step, *price));
        }
    }

    /// Moves the reduced weights of the items, and of the stimuli, also of basic ones.
    fn move_weights(&mut self, relaxation: &Relaxation, direction: &Direction, step: i64) {
        let mut number = 0u16;
        for (column, entry) in self.columns.iter_mut().zip(direction.entries.iter()) {
            if *entry != 0 && (column.stand != Stand::Basic || relaxation.is_stimulus(number)) {
                column.weight = column.weight.wrapping_add(product(step, *entry));
            }
            number = number.wrapping_add(1);
        }
    }

    /// The entry of a column; that of a stimulus with those of the items that follow it.
    pub(crate) fn entry(&self, relaxation: &Relaxation, direction: &Direction, column: u16) -> i64 {
        let mut entry = at(direction.entries.as_slice(), column as usize);
        for item in relaxation.linked(column) {
            if self.stand(*item) == Stand::One {
                entry = entry.wrapping_add(at(direction.entries.as_slice(), *item as usize));
            }
        }
        entry
    }

    /// Lets what is passed change sides.
    fn pass(&mut self, relaxation: &Relaxation, enterer: Enterer) {
        match enterer {
            Enterer::Column(column) => {
                let stand = if self.stand(column) == Stand::Zero {
                    Stand::One
                } else {
                    Stand::Zero
                };
                self.stand_at(relaxation, column, stand);
            }
            Enterer::Line(place) => {
                if let Some(tight) = self.tight.get_mut(place) {
                    tight.is_high = !tight.is_high;
                }
            }
        }
    }

    /// Lets all that is passed change sides.
    fn pass_all(&mut self, relaxation: &Relaxation, breaks: &[Break]) {
        for known in breaks {
            self.pass(relaxation, known.enterer);
        }
    }

    /// A column times the inverse.
    fn column_by_inverse(
        &self,
        relaxation: &Relaxation,
        column: u16,
        room: &mut Workspace,
    ) -> Result<(), Memory> {
        room.needs.clear();
        for tight in self.tight.as_slice() {
            let amount = self.amount(relaxation, column, tight.line);
            room.needs.push(amount)?;
        }
        let (needs, made) = (room.needs.as_slice(), &mut room.column);
        self.times_inverse(needs, made, relaxation.fine)
    }

    /// Some numbers times the inverse.
    fn times_inverse(&self, numbers: &[i64], made: &mut Vec<i64>, fine: u32) -> Result<(), Memory> {
        made.clear();
        for place in 0..self.basic.len() {
            let sum = sum_of_products(self.inverse_row(place), numbers);
            made.push(sum >> fine.min(16))?;
        }
        Ok(())
    }

    /// The cell of a line and a column, less what the tight lines make up for.
    fn pivot_of(&self, relaxation: &Relaxation, line: u16, column: u16, room: &Workspace) -> i64 {
        let cell = self.amount(relaxation, column, line);
        let mut pivot = cell.wrapping_mul(ONE);
        for (number, amount) in room.line.iter().zip(room.needs.iter()) {
            pivot = pivot.wrapping_sub(number.wrapping_mul(*amount));
        }
        pivot >> relaxation.fine.min(16)
    }

    /// Lets a column that was basic stand, at the bound that the sign of its weight shows, also
    /// where that is 0.
    fn leave(&mut self, relaxation: &Relaxation, column: u16, step: i64, sign: i64) {
        let others = self
            .weight(relaxation, column)
            .wrapping_sub(self.own_weight(column));
        if let Some(known) = self.columns.get_mut(column as usize) {
            known.weight = step.wrapping_mul(sign).wrapping_sub(others);
        }
        let stand = stand_by(self.hold(column), sign);
        self.stand_at(relaxation, column, stand);
    }

    /// The reduced weight of a column without those of the items that follow it.
    fn own_weight(&self, column: u16) -> i64 {
        match self.columns.get(column as usize) {
            Some(known) => known.weight,
            None => 0,
        }
    }

    /// Makes a column basic, whose row of the inverse is at a place. An item that followed a basic
    /// stimulus is told from it.
    fn enter(&mut self, relaxation: &Relaxation, column: u16, place: usize) {
        if self.stand(column) == Stand::One && self.follows_basic(relaxation, column) {
            self.add_row_of_stimulus(relaxation, column, place, 1);
        }
        self.stand_at(relaxation, column, Stand::Basic);
        if !relaxation.is_stimulus(column) {
            if let Some(known) = self.columns.get_mut(column as usize) {
                known.weight = 0;
            }
        }
    }

    /// Adds the row of the inverse of an item's basic stimulus, times a sign, to the row at a
    /// place.
    fn add_row_of_stimulus(
        &mut self,
        relaxation: &Relaxation,
        column: u16,
        place: usize,
        sign: i64,
    ) {
        let Some(stimulus) = relaxation.link(column) else {
            return;
        };
        let Some(other) = self.place(stimulus) else {
            return;
        };
        let size = self.tight.len();
        add_row(&mut self.inverse, size, place, other, sign);
    }

    /// What leaves, if it is a column.
    fn leaving(&self, leaver: &Leaver) -> Option<Leaving> {
        let Part::Column(place) = leaver.part else {
            return None;
        };
        let column = self.basic.get(place).copied()?;
        let hold = self.hold(column);
        Some(Leaving {
            column,
            is_one: stand_by(hold, leaver.sign) == Stand::One,
            is_held: hold != Hold::Free,
        })
    }

    /// Lets a linked item that leaves follow its stimulus from now on, or takes that back.
    fn follow(&mut self, relaxation: &Relaxation, leaver: &Leaver, leaving: &Leaving, is: bool) {
        let Part::Column(place) = leaver.part else {
            return;
        };
        if !leaving.is_one || relaxation.link(leaving.column).is_none() {
            return;
        }
        let (stand, sign) = if is {
            (Stand::One, -1)
        } else {
            (Stand::Basic, 1)
        };
        self.stand_at(relaxation, leaving.column, stand);
        if self.follows_basic(relaxation, leaving.column) {
            self.add_row_of_stimulus(relaxation, leaving.column, place, sign);
        }
    }

    /// Notes whether a line is tight.
    fn note_tight(&mut self, line: u16, is_tight: bool) {
        if let Some(slot) = self.is_tight.get_mut(line as usize) {
            *slot = is_tight;
        }
    }

    /// A column enters for another one.
    fn column_for_column(
        &mut self,
        relaxation: &Relaxation,
        place: usize,
        column: u16,
        step: i64,
        sign: i64,
        room: &mut Workspace,
    ) -> Result<(), Memory> {
        self.column_by_inverse(relaxation, column, room)?;
        let size = self.tight.len();
        replace_column(
            &mut self.inverse,
            size,
            place,
            &room.column,
            &mut room.spare,
        )?;
        if let Some(slot) = self.basic.get_mut(place) {
            let leaves = mem::replace(slot, column);
            if leaves == column {
                return Ok(());
            }
            self.leave(relaxation, leaves, step, sign);
        }
        self.enter(relaxation, column, place);
        Ok(())
    }

    /// A column enters for a line.
    fn column_for_line(
        &mut self,
        relaxation: &Relaxation,
        tight: Tight,
        column: u16,
        room: &mut Workspace,
    ) -> Result<(), Memory> {
        self.column_by_inverse(relaxation, column, room)?;
        self.line_by_inverse(relaxation, tight.line, &mut room.line)?;
        let pivot = self.pivot_of(relaxation, tight.line, column, room);
        let size = self.tight.len();
        let (old, new) = (&self.inverse, &mut room.spare);
        grow(old, size, &room.column, &room.line, pivot, new)?;
        mem::swap(&mut self.inverse, &mut room.spare);
        self.note_tight(tight.line, true);
        self.tight.push(tight)?;
        self.basic.push(column)?;
        self.enter(relaxation, column, size);
        Ok(())
    }

    /// Takes a column out of the basic ones.
    fn leave_basic(&mut self, relaxation: &Relaxation, place: usize, step: i64, sign: i64) {
        if place < self.basic.len() {
            let column = self.basic.swap_remove(place);
            self.leave(relaxation, column, step, sign);
        }
    }

    /// Takes a line out of the tight ones.
    fn leave_tight(&mut self, place: usize) {
        if place < self.tight.len() {
            let tight = self.tight.swap_remove(place);
            self.note_tight(tight.line, false);
        }
    }

    /// A line enters for a column.
    fn line_for_column(
        &mut self,
        relaxation: &Relaxation,
        place: usize,
        line: usize,
        step: i64,
        sign: i64,
        room: &mut Workspace,
    ) -> Result<(), Memory> {
        shrink(
            &self.inverse,
            self.tight.len(),
            place,
            line,
            &mut room.spare,
        )?;
        mem::swap(&mut self.inverse, &mut room.spare);
        self.leave_basic(relaxation, place, step, sign);
        self.leave_tight(line);
        Ok(())
    }

    /// A line enters for another one.
    fn line_for_line(
        &mut self,
        relaxation: &Relaxation,
        tight: Tight,
        place: usize,
        room: &mut Workspace,
    ) -> Result<(), Memory> {
        self.line_by_inverse(relaxation, tight.line, &mut room.line)?;
        replace_line(&mut self.inverse, self.tight.len(), place, &room.line);
        self.note_tight(tight.line, true);
        if let Some(slot) = self.tight.get_mut(place) {
            let old = mem::replace(slot, tight);
            self.note_tight(old.line, false);
        }
        Ok(())
    }

    /// Exchanges what leaves for what enters, after a step of a length.
    fn pivot(
        &mut self,
        relaxation: &Relaxation,
        leaver: &Leaver,
        enterer: Enterer,
        step: i64,
        room: &mut Workspace,
    ) -> Result<(), Memory> {
        let sign = leaver.sign;
        let price = step.wrapping_mul(sign);
        match leaver.part {
            Part::Column(place) => match enterer {
                Enterer::Column(column) => {
                    self.column_for_column(relaxation, place, column, step, sign, room)
                }
                Enterer::Line(line) => self.line_for_column(
                    relaxation, place, line, step, sign, room,
                ),
            },
            Part::Line(line) => {
                let is_high = sign < 0;
                let tight = Tight {
                    line,
                    is_high,
                    price,
                };
                match enterer {
                    Enterer::Column(column) => self.column_for_line(
                        relaxation, tight, column, room,
                    ),
                    Enterer::Line(place) => self.line_for_line(relaxation, tight, place, room),
                }
            }
        }
    }

    /// An exchange; false where nothing can enter: then the direction is a ray.
    pub(crate) fn exchange(
        &mut self,
        relaxation: &Relaxation,
        leaver: &Leaver,
        room: &mut Workspace,
    ) -> Result<bool, Memory> {
        let leaving = self.leaving(leaver);
        if let Some(known) = &leaving {
            self.follow(relaxation, leaver, known, true);
        }
        self.compute_direction(relaxation, leaver, &mut room.direction)?;
        self.compute_breaks(relaxation, &leaving, leaver.out, room)?;
        let found = search_line(&mut room.breaks, leaver.out);
        let Some(last) = found.last else {
            if let Some(known) = &leaving {
                self.follow(relaxation, leaver, known, false);
            }
            return Ok(false);
        };
        let Some(entering) = room.breaks.get(last).copied() else {
            return Ok(false);
        };
        self.pass_all(
            relaxation,
            room.breaks.as_slice().get(..last).unwrap_or(&[]),
        );
        let step = self.step_to(relaxation, entering.enterer, &room.direction);
        self.move_prices(&room.direction, step);
        self.move_weights(relaxation, &room.direction, step);
        self.pivot(relaxation, leaver, entering.enterer, step, room)?;
        self.age = self.age.saturating_add(1);
        Ok(true)
    }
}
