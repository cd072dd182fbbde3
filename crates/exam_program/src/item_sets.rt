//! The sets of items of a plan.

ghost use Rattle.std.specs.Prelude.{IfSome};
ghost use Rattle.bank_tables.specs.Items.{AreWords};
ghost use Rattle.exam_program.specs.ItemSets.{HasItemSets, set_of};

use bank_tables::ItemSet;
use constraint_model::{Row, Spec};

/// What is true of a set by its type.
fn is_item_set(set: &ItemSet)
    ensures { AreWords set.now }
{
    let _ = set.count();
}

fn has_item_set(row: &Row)
    ensures { IfSome (set_of row.now) AreWords }
{
    match row {
        Row::Count { set, .. } | Row::Quantity { set, .. } | Row::Enemies { set } => {
            is_item_set(set);
        }
        Row::Stimuli { .. } => {}
    }
}

fn base_is_item_set(base: &Option<ItemSet>)
    ensures { IfSome base.now AreWords }
{
    if let Some(set) = base {
        is_item_set(set);
    }
}

/// What is true of a plan by the type of its sets: each is 8 words of 64 bits.
pub(crate) fn has_item_sets(spec: &Spec)
    ensures { HasItemSets spec.now }
{
    let rows = spec.rows();
    for row in rows {
        has_item_set(row);
    }
    base_is_item_set(&spec.base());
}
