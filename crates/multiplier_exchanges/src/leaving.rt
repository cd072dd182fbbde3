//! What is out of its bounds most.

use crate::numbers::{FAR, ONE};
use crate::relaxation::{Line, Relaxation};
use crate::vertex::{Hold, Stand, Vertex};
use crate::workspace::Workspace;
use proof_tree::Memory;

/// A column is out of its bounds by more than this.
const LEAST_COLUMN: i64 = 16_384;

/// A line is out of its bounds by more than this.
const LEAST_LINE: i64 = 262_144;

/// What leaves: the basic column at a place, or a line that isn't tight.
#[derive(Clone, Copy)]
pub(crate) enum Part {
    Column(usize),
    Line(u16),
}

/// What leaves, the sign of its reduced weight or multiplier to come, and how far it is out.
#[derive(Clone, Copy)]
pub(crate) struct Leaver {
    pub part: Part,
    pub sign: i64,
    pub out: i64,
}

/// How far a value is from where the path lets its column be, and on which side; `most` is 1 or,
/// for a linked item, how far its stimulus is taken.
fn column_out(hold: Hold, value: i64, most: i64) -> (i64, i64) {
    let (low, high) = match hold {
        Hold::Free => (0, most),
        Hold::Zero => (0, 0),
        Hold::One => (most, most),
    };
    if value > high {
        (value.wrapping_sub(high), 1)
    } else {
        (low.wrapping_sub(value), -1)
    }
}

/// How far a sum is from the bounds of its line, and on which side.
#[inline]
fn line_out(line: &Line, sum: i64) -> (i64, i64) {
    let under = line.low.wrapping_mul(ONE).wrapping_sub(sum);
    if line.high >= FAR || under > 0 {
        return (under, 1);
    }
    (sum.wrapping_sub(line.high.wrapping_mul(ONE)), -1)
}

impl Vertex {
    /// How far a column may be taken.
    fn most(&self, relaxation: &Relaxation, column: u16) -> i64 {
        let Some(stimulus) = relaxation.link(column) else {
            return ONE;
        };
        match self.stand(stimulus) {
            Stand::One => ONE,
            Stand::Zero => 0,
            Stand::Basic => match self.place(stimulus) {
                Some(place) => self.value(place),
                None => 0,
            },
        }
    }

    /// The place of a basic column.
    pub(crate) fn place(&self, column: u16) -> Option<usize> {
        self.basic.iter().position(|basic| *basic == column)
    }

    /// The basic column that is out of its bounds most.
    fn leaving_column(&self, relaxation: &Relaxation) -> Option<Leaver> {
        let mut best = None;
        let mut most = LEAST_COLUMN;
        let mut place = 0usize;
        for (column, value) in self.basic.iter().zip(self.values.iter()) {
            let limit = self.most(relaxation, *column);
            let (out, sign) = column_out(self.hold(*column), *value, limit);
            if out > most {
                most = out;
                let part = Part::Column(place);
                best = Some(Leaver { part, sign, out });
            }
            place = place.wrapping_add(1);
        }
        best
    }

    /// The line that is out of its bounds most, as it is measured, where that is more than `least`.
    fn leaving_line(&self, relaxation: &Relaxation, sums: &[i64], least: i64) -> Option<Leaver> {
        let mut best = None;
        let mut most = least;
        let mut number = 0u16;
        for (line, sum) in relaxation.lines.iter().zip(sums.iter()) {
            let (out, sign) = line_out(line, *sum);
            let out = out >> relaxation.fine.min(16);
            if out > LEAST_LINE && self.is_tight.get(number as usize).copied() == Some(false) {
                let measured = out.checked_div(line.scale).unwrap_or(0);
                if measured > most {
                    most = measured;
                    let part = Part::Line(number);
                    best = Some(Leaver { part, sign, out });
                }
            }
            number = number.wrapping_add(1);
        }
        best
    }

    /// What leaves; None at the best bound.
    pub(crate) fn leaver(
        &self,
        relaxation: &Relaxation,
        room: &mut Workspace,
    ) -> Result<Option<Leaver>, Memory> {
        self.compute_sums(relaxation, &mut room.sums)?;
        let column = self.leaving_column(relaxation);
        let least = match &column {
            Some(leaver) => leaver.out,
            None => 0,
        };
        match self.leaving_line(relaxation, room.sums.as_slice(), least) {
            Some(leaver) => Ok(Some(leaver)),
            None => Ok(column),
        }
    }
}
