//! The bank of a text.

ghost use Rattle.std.specs.Prelude.{◌≡◌, ℕ, ◌≤◌, ◌⊎◌, List, map, get_or, length, [], IsTrue, IfOk, IfErr};
ghost use Rattle.csv.specs.Records.{fields_of};
ghost use Rattle.exam_text.specs.First.{Gives};
ghost use Rattle.exam_edge.specs.Faults.{Rose};
ghost use Rattle.exam_edge.specs.Lent.{IsLent};
ghost use Rattle.bank_tables.specs.Tables.{Tables};
ghost use Rattle.bank_reader.specs.Columns.{IsShape};
ghost use Rattle.bank_reader.specs.Grammar.{IsBankText, IsTextFault, records_of, longest};
ghost use Rattle.bank_reader.specs.Reading.{header_of, rows_of, bank_of, Reads};
ghost use Rattle.bank_reader.specs.declared.fault.ReadFault.TheVariants as fault;
ghost use Rattle.bank_reader.specs.declared.fault.ReadFault.TheVariants.{Memory, Header};

use crate::fault::ReadFault;
use crate::header::header_of;
use crate::item::{Shape, items_in};
use crate::records::rows;
use bank_tables::{Bank, List, Rows};
use csv::ByteRecord;
use exam_edge::Source;
use std::alloc::Global;
use text_source::text_of;

/// The most bytes that a bank text has.
const LONGEST: usize = 4_194_304;

fn shape_of(rows: &[ByteRecord]) -> Result<Shape, ReadFault>
    ensures value { Gives Memory (λ s. s) result
        (header_of (get_or (map fields_of rows.now) 0 [])) }
    ensures shape { IfOk result (λ s. IsShape s) }
{
    if rows.is_empty() {
        return Err(ReadFault::Header(0));
    }
    header_of(&rows[0])
}

#[tactic(auto, unfolding(crate::specs::Reading::rows_of))]
fn rows_of(alloc: Global, rows: &[ByteRecord]) -> Result<Rows, ReadFault>
    ensures { Gives Memory (λ r. r) result (rows_of (map fields_of rows.now)) }
{
    let shape = shape_of(rows)?;
    let items = items_in(alloc, &shape, rows)?;
    Ok(Rows {
        grid: shape.grid,
        quantities: shape.quantities,
        items: List::of(items),
    })
}

fn rows_in(alloc: Global, text: &[u8]) -> Result<Rows, ReadFault>
    ensures { Gives Memory (λ r. r) result (rows_of (records_of text.now)) }
{
    let rows = rows(alloc, text)?;
    rows_of(alloc, &rows)
}

#[tactic(auto, unfolding(crate::specs::Reading::bank_of))]
fn bank_in(alloc: Global, text: &[u8]) -> Result<Bank, ReadFault>
    requires { length text.now ≤ longest }
    ensures { Gives Memory (λ b. b) result (bank_of text.now) }
{
    let rows = rows_in(alloc, text)?;
    match Bank::of(alloc, rows) {
        Ok(bank) => Ok(bank),
        Err(fault) => Err(ReadFault::Bank(fault)),
    }
}

fn read_whole<S: Source>(alloc: Global, source: &mut S) -> Result<Bank, ReadFault>
    ensures reads { IsTrue (S.tells source.old) → Reads (S.left source.old) result }
    ensures whole { IfOk result (λ _. IsTrue (S.tells source.old) → S.left source.new ≡ []) }
    ensures failed { IfErr result (λ e. e ≡ fault.Source
        → Rose (S.faults source.old) (S.faults source.new)) }
    ensures there { IfOk result (λ _. IsTrue (S.tells source.old) → IsTrue (S.there source.old)) }
    ensures there_refused { IfErr result (λ e. IsTrue (S.tells source.old)
        → (e ≡ Memory) ⊎ (e ≡ fault.Source) ⊎ IsTrue (S.there source.old)) }
    ensures has { IsTrue (S.tells source.old) → (name : List ℕ)
        → S.has source.new name ≡ S.has source.old name }
    ensures beside { IsTrue (S.tells source.old) → (name : List ℕ)
        → S.beside source.new name ≡ S.beside source.old name }
    ensures frame { IsLent S.tells S.identity S.faults source.old source.new }
{
    let text = text_of(alloc, source, LONGEST)?;
    bank_in(alloc, &text)
}

/// The item bank that the text of a source is, read to its end; or the first fault, from the front
/// of the text on.
///
/// The text is CSV as in RFC 4180. The header's columns are `item`, `stimulus`, `categories`; `q0`
/// on, up to 8 quantities; `i0` on, the information at 1 to 61 grid points; then for each of 2 to 5
/// responses r and each grid point g the log-likelihood `l`r`_`g. Each record after it is an item,
/// from 0 on; the log-likelihoods of responses that the item does not have are empty.
pub fn read_bank<S: Source>(alloc: Global, source: &mut S) -> Result<Bank, ReadFault>
    // What is read is a bank text, and a bank text is read.
    // Promise: What is read is a bank text by a grammar on its bytes, and the bank is the one that
    // the text describes
    ensures found { IfOk result (λ b. IsTrue (S.tells source.old)
        → IsBankText (S.left source.old) b) }
    // Promise: A text that follows the grammar and the bounds is refused only if memory runs out or
    // the source has a fault
    ensures only { IfErr result (λ e. IsTrue (S.tells source.old)
        → (b : Tables) → IsBankText (S.left source.old) b → (e ≡ Memory) ⊎ (e ≡ fault.Source)) }
    // Promise: A refusal names the first fault of the text. The first test is of its length. The
    // next is of the header: the fault is the column where it fits no valid header. Then comes the
    // first record that is no item, by its number of fields or by its first wrong column. The
    // bounds are last
    ensures fault { IfErr result (λ e. IsTrue (S.tells source.old)
        → (e ≡ Memory) ⊎ (e ≡ fault.Source) ⊎ IsTextFault (S.left source.old) e) }
    // Each text has one answer.
    // Promise: Each text has one answer
    ensures exact { IsTrue (S.tells source.old) → Reads (S.left source.old) result }
    // Promise: After `Ok` the source was read to its end. `Source` comes only where its count rose
    // in this call
    // - by `whole`, `failed`
    ensures whole { IfOk result (λ _. IsTrue (S.tells source.old) → S.left source.new ≡ []) }
    ensures failed { IfErr result (λ e. e ≡ fault.Source
        → Rose (S.faults source.old) (S.faults source.new)) }

    // A bank, and what refuses a text, are answers only where there is something to read.
    // Promise: A bank, or a fault of the text, comes only from a source that can be read at all;
    // which names have files stays as it was
    // - by `there`, `there_refused`, `has`
    ensures there { IfOk result (λ _. IsTrue (S.tells source.old) → IsTrue (S.there source.old)) }
    ensures there_refused { IfErr result (λ e. IsTrue (S.tells source.old)
        → (e ≡ Memory) ⊎ (e ≡ fault.Source) ⊎ IsTrue (S.there source.old)) }
    ensures has { IsTrue (S.tells source.old) → (name : List ℕ)
        → S.has source.new name ≡ S.has source.old name }
    ensures beside { IsTrue (S.tells source.old) → (name : List ℕ)
        → S.beside source.new name ≡ S.beside source.old name }
    ensures frame { IsLent S.tells S.identity S.faults source.old source.new }
{
    read_whole(alloc, source)
}
