//! What the free items add to the rows, and which of them are chosen.

use crate::constraints::Line;
use std::alloc::{AllocError, Global};

/// What a free item adds to a line.
#[derive(Clone, Copy)]
pub(crate) struct Entry {
    /// The item, by its place among the free ones.
    pub item: u16,
    /// The line, by its place.
    pub line: u16,
    /// The place of the item's next entry.
    pub next: u32,
    pub coefficient: i64,
}

/// The whole of an item in a choice.
pub(crate) const WHOLE: u16 = 256;

/// A choice of free items, some of them in part, and what they add to the lines.
#[derive(Drop)]
pub(crate) struct Selection {
    /// What the free items add to the lines, line by line.
    pub entries: Vec<Entry>,
    /// The place of the first entry of each item.
    heads: Vec<u32>,
    /// The part of each item that is chosen, at most 256.
    pub parts: Vec<u16>,
    /// Whether each is among the heaviest of no stimulus.
    marks: Vec<bool>,
}

/// Adds a change of the price of a line to the weights of its items.
#[inline]
pub(crate) fn reweigh(weights: &mut [i64], entries: &[Entry], change: i64) {
    for entry in entries {
        if let Some(weight) = weights.get_mut(entry.item as usize) {
            *weight = weight.wrapping_add(change.wrapping_mul(entry.coefficient));
        }
    }
}

/// Adds an item's entries, times a part, to the activities of the lines.
#[inline]
fn count_in(lines: &mut [Line], entries: &[Entry], head: u32, part: i64) {
    let mut at = head;
    for _ in 0..256 {
        let Some(entry) = entries.get(at as usize) else {
            return;
        };
        if let Some(line) = lines.get_mut(entry.line as usize) {
            let change = part.wrapping_mul(entry.coefficient);
            line.activity = line.activity.wrapping_add(change);
        }
        at = entry.next;
    }
}

impl Selection {
    /// None chosen of so many items, which add nothing to any line yet.
    pub(crate) fn none(alloc: Global, items: usize) -> Result<Selection, AllocError> {
        Ok(Selection {
            entries: Vec::with_capacity(alloc, items.wrapping_mul(4))?,
            heads: Vec::from_elem(alloc, u32::MAX, items)?,
            parts: Vec::from_elem(alloc, 0, items)?,
            marks: Vec::from_elem(alloc, false, items)?,
        })
    }

    /// Adds what an item adds to a line.
    #[inline]
    pub(crate) fn add_entry(
        &mut self,
        item: u16,
        line: u16,
        coefficient: i64,
    ) -> Result<(), AllocError> {
        let at = u32::try_from(self.entries.len()).unwrap_or(u32::MAX);
        if let Some(head) = self.heads.get_mut(item as usize) {
            let next = *head;
            *head = at;
            self.entries.push(Entry {
                item,
                line,
                next,
                coefficient,
            })?;
        }
        Ok(())
    }

    /// Whether an item is among the heaviest of no stimulus.
    #[inline]
    pub(crate) fn is_marked(&self, item: usize) -> bool {
        self.marks.get(item).copied().unwrap_or(true)
    }

    /// Notes whether it is.
    #[inline]
    pub(crate) fn mark(&mut self, item: usize, is_top: bool) {
        if let Some(mark) = self.marks.get_mut(item) {
            *mark = is_top;
        }
    }

    /// Chooses a part of an item.
    #[inline]
    pub(crate) fn choose(&mut self, lines: &mut [Line], item: usize, part: u16) {
        if let Some(slot) = self.parts.get_mut(item) {
            if *slot != part {
                let change = (part as i64).wrapping_sub(*slot as i64);
                *slot = part;
                if let Some(head) = self.heads.get(item) {
                    count_in(lines, &self.entries, *head, change);
                }
            }
        }
    }
}
