//! The best series so far.

use crate::path::Sums;
use crate::table::Table;
use bank_tables::ItemSet;
use series_tree::Memory;
use std::alloc::Global;

/// A series and its value; none with value -1.
#[derive(Clone, Copy)]
pub struct Best {
    pub forms: [ItemSet; 4],
    pub value: i64,
}

/// Whether a set of items is a form of the plan.
fn is_form(table: &Table, items: &ItemSet) -> bool {
    items.count() as i64 == table.length && Sums::of(table, items).meets(table)
}

impl Best {
    /// No series.
    pub fn none() -> Best {
        Best {
            forms: [ItemSet::empty(); 4],
            value: -1,
        }
    }

    /// The value that no series is to exceed, if a series is there.
    pub fn known(&self) -> Option<i64> {
        if self.value < 0 {
            None
        } else {
            Some(self.value)
        }
    }

    /// Takes a series if its value is greater.
    pub fn offer(&mut self, table: &Table, forms: &[ItemSet; 4]) {
        let mut value = i64::MAX;
        let mut all = ItemSet::empty();
        for form in forms.iter().take(table.forms) {
            if all.meet(*form).first().is_some() {
                return;
            }
            all = all.union(*form);
            value = value.min(table.least(form));
        }
        if value > self.value
            && forms
                .iter()
                .take(table.forms)
                .all(|form| is_form(table, form))
        {
            self.forms = *forms;
            self.value = value;
        }
    }

    /// The forms, that with the lowest item first.
    pub fn in_order(&self, alloc: Global, table: &Table) -> Result<Vec<ItemSet>, Memory> {
        let mut forms = Vec::new(alloc);
        for form in self.forms.iter().take(table.forms) {
            forms.push(*form)?;
        }
        forms.sort_unstable_by_key(|form| form.first().unwrap_or(512));
        Ok(forms)
    }
}
