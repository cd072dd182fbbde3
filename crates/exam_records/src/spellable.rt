//! What every record has that goes with its tree: a spelling.

ghost use Rattle.std.specs.Prelude.{◌≡◌, ◌<◌, ℕ, [], get_or, length};
ghost use Rattle.std.specs.Option.{option_copied};
ghost use Rattle.bank_tables.specs.Items.{AreWords};
ghost use Rattle.exam_records.specs.Shape.{GoesWith, HasBands, AreListSets, IsInRange, IsTreeOrNone, IsRecord};

use crate::sets::is_set;
use bank_tables::ItemSet;
use history_model::{Entry, Without};
use proof_tree::Tree;

/// What eight sets are by their type, for a caller's proof: each is one of items. It does nothing.
pub fn are_sets(sets: &[ItemSet; 8])
    ensures eight { length sets.now ≡ 8 }
    ensures each { (band : ℕ) → band < 8 → AreWords (get_or sets.now band []) }
{
    for set in sets {
        is_set(set);
    }
}

/// The two sets of a list are of items.
fn are_list_sets(without: &Option<Without>)
    ensures { AreListSets without.now }
{
    if let Some(list) = without {
        is_set(&list.items);
        is_set(&list.form);
    }
}

/// What every entry is by its type, for a caller's proof: its numbers fit the bytes that they are
/// written in, and its sets are of items. It does nothing.
pub fn is_in_range(entry: &Entry)
    // Promise: Each entry has numbers that fit their bytes, and sets of items, by its type
    // - of `is_in_range`, `are_sets`
    // - by the clause (`IsInRange`), `eight`, `each`
    ensures { IsInRange entry.now }
{
    match entry {
        Entry::Started {
            session,
            booking,
            eligible,
            without,
        } => {
            let _numbers = (*session, *booking);
            are_sets(&eligible.sets);
            are_list_sets(without);
        }
        Entry::SetAside { session, step, .. } => {
            let _numbers = (*session, *step);
        }
        Entry::Served {
            session,
            step,
            item,
            form,
            ..
        } => {
            let _numbers = (*session, *step, *item);
            is_set(form);
        }
        Entry::Answered {
            session,
            step,
            response,
        } => {
            let _numbers = (*session, *step, *response);
        }
        Entry::Closed { session } => {
            let _number = *session;
        }
    }
}

/// A tree has a spelling.
fn is_tree(tree: Option<&Tree>)
    ensures { IsTreeOrNone (option_copied tree.entry) }
{
    if let Some(tree) = tree {
        let _ = tree.nodes();
    }
}

/// An entry and the tree that goes with it have a spelling, if its bands are few and its list isn't
/// empty.
pub(crate) fn is_record(entry: &Entry, tree: Option<&Tree>)
    requires { GoesWith entry.now (option_copied tree) }
    ensures is_record { HasBands entry.now
        → IsRecord (record { entry = entry.now; tree = option_copied tree.entry }) }
    ensures tree { IsTreeOrNone (option_copied tree.entry) }
{
    is_in_range(entry);
    is_tree(tree);
}
