//! The items of a form, and its mark.

ghost use Rattle.std.specs.Prelude.{◌≡◌, ◌++◌, OnOk};
ghost use Rattle.bank_tables.specs.Items.{has};
ghost use Rattle.form_lines.specs.Texts.{items_text, mark_text, form_line};

use bank_tables::ItemSet;
use exam_text::push_number;
use std::alloc::{AllocError, Global};

/// The word of a mark: whether a form or a series is proved best.
pub fn mark_text(proved: bool) -> &'static str
    // Promise: A mark, and the items of a form, are written as stated
    // - of `mark_text`, `push_items`
    ensures { result.now ≡ mark_text proved }
{
    if proved { "proved" } else { "unproved" }
}

/// Writes the items of a form below a number, ascending, a space before each.
pub fn push_items(
    alloc: Global,
    out: &mut Vec<u8>,
    items: u16,
    form: &ItemSet,
) -> Result<(), AllocError>
    ensures { OnOk result (out.new.items ≡ out.old.items ++ items_text items (has form.now)) }
{
    for item in 0..items {
        if form.has(item) {
            out.push(b' ')?;
            push_number(alloc, out, item as u64)?;
        }
    }
    Ok(())
}

/// Writes the line of a form.
#[tactic(auto, unfolding(crate::specs::Texts::form_line))]
pub(crate) fn push_form(
    alloc: Global,
    out: &mut Vec<u8>,
    items: u16,
    form: &ItemSet,
) -> Result<(), AllocError>
    ensures { OnOk result (out.new.items ≡ out.old.items ++ form_line items (has form.now)) }
{
    out.extend_from_slice(b"form")?;
    push_items(alloc, out, items, form)?;
    out.push(b'\n')?;
    Ok(())
}
