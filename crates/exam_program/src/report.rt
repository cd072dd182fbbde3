//! How a command ends: the text of its halt, and the status.

ghost use Rattle.std.specs.Prelude.{◌≡◌, ℕ, ◌≤◌, ◌⊎◌, List, IfOk, IfErr, string_bytes};
ghost use Rattle.exam_edge.specs.Faults.{Rose};
ghost use Rattle.exam_program.specs.Outcomes.{Ends, Halts, PrintsBefore, PrintsBeforeText, EndsBy};
ghost use Rattle.exam_program.specs.Outside.{Outside};
ghost use Rattle.exam_program.specs.Runs.{IsLastWritten};
ghost use Rattle.exam_text.specs.Texts.{no_memory};

use crate::halt::Halt;
use crate::lines::{journal_limit, journal_text, sessions_limit};
use crate::output::put;
use crate::tree_texts::{no_base_form_text, no_form_text};
use exam_edge::Sink;
use form_lines::{no_series_text, none_found_text};
use std::alloc::{AllocError, Global};

/// Prints the last text, and gives the status to end with: 8 where the sink fails.
pub(crate) fn print<O: Sink>(out: &mut O, text: &[u8], status: u8) -> u8
    ensures answers { (words : List (List ℕ)) (o : Outside) (first : List ℕ)
        → PrintsBefore words o (O.tells out.old) first (O.written out.old) status text.now
        → Ends words o (O.tells out.old) first (O.written out.new) result }
    ensures printed { IsLastWritten (O.tells out.old) (O.written out.old)
        (O.written out.new) status text.now result }
    ensures status { (result ≡ status)
        ⊎ ((result ≡ 8) × Rose (O.faults out.old) (O.faults out.new)) }
    ensures grows { O.faults out.old ≤ O.faults out.new }
    ensures tells { O.tells out.new ≡ O.tells out.old }
{
    match put(out, text) {
        Ok(()) => status,
        Err(_) => 8,
    }
}

/// Prints the last text, if there was memory for it, and gives the status to end with.
#[tactic(auto, unfolding(exam_text::specs::Texts::no_memory))]
pub(crate) fn print_text<O: Sink>(out: &mut O, text: Result<String, AllocError>, status: u8) -> u8
    ensures answers { (words : List (List ℕ)) (o : Outside) (first line : List ℕ)
        → IfOk text (λ t. string_bytes t ≡ line)
        → PrintsBeforeText words o (O.tells out.old) first (O.written out.old) status line
        → Ends words o (O.tells out.old) first (O.written out.new) result }
    ensures printed { IfOk text
        (λ t. IsLastWritten (O.tells out.old) (O.written out.old) (O.written out.new)
        status (string_bytes t) result) }
    ensures unprinted { IfErr text
        (λ _. IsLastWritten (O.tells out.old) (O.written out.old) (O.written out.new)
        10 no_memory result) }
    ensures status { ((result ≡ status) ⊎ (result ≡ 10))
        ⊎ ((result ≡ 8) × Rose (O.faults out.old) (O.faults out.new)) }
    ensures grows { O.faults out.old ≤ O.faults out.new }
    ensures tells { O.tells out.new ≡ O.tells out.old }
{
    match text {
        Ok(text) => print(out, text.as_bytes(), status),
        Err(_) => print(out, b"no memory\n", 10),
    }
}

/// The same for a text in bytes.
#[tactic(auto, unfolding(exam_text::specs::Texts::no_memory))]
fn print_bytes<O: Sink>(out: &mut O, text: Result<Vec<u8>, AllocError>, status: u8) -> u8
    ensures answers { (words : List (List ℕ)) (o : Outside) (first line : List ℕ)
        → IfOk text (λ t. t.items ≡ line)
        → PrintsBeforeText words o (O.tells out.old) first (O.written out.old) status line
        → Ends words o (O.tells out.old) first (O.written out.new) result }
    ensures status { ((result ≡ status) ⊎ (result ≡ 10))
        ⊎ ((result ≡ 8) × Rose (O.faults out.old) (O.faults out.new)) }
    ensures grows { O.faults out.old ≤ O.faults out.new }
    ensures tells { O.tells out.new ≡ O.tells out.old }
{
    match text {
        Ok(text) => print(out, text.as_slice(), status),
        Err(_) => print(out, b"no memory\n", 10),
    }
}

/// Ends a command that met a fault: it makes the text of the halt, and prints it.
#[tactic(auto, unfolding(crate::specs::Texts::disk_failed, exam_text::specs::Texts::files_failed, exam_text::specs::Texts::no_memory, form_lines::specs::Texts::weights_refused))]
pub(crate) fn report<O: Sink>(alloc: Global, out: &mut O, halt: &Halt) -> u8
    ensures answers { (words : List (List ℕ)) (o : Outside) (first : List ℕ)
        → Halts words o (O.tells out.old) first (O.written out.old) halt.now
        → Ends words o (O.tells out.old) first (O.written out.new) result }
    ensures status { EndsBy halt.now result
        ⊎ ((result ≡ 8) × Rose (O.faults out.old) (O.faults out.new)) }
    ensures grows { O.faults out.old ≤ O.faults out.new }
    ensures tells { O.tells out.new ≡ O.tells out.old }
{
    match halt {
        Halt::Bank(fault) => print_text(out, fault.text(alloc), 3),
        Halt::Plan(fault) => print_text(out, fault.text(alloc), 4),
        Halt::Script(fault) => print_text(out, fault.text(alloc), 5),
        Halt::Journal(fault) => print_text(out, journal_text(alloc, *fault), 6),
        Halt::Sessions { count, most } => print_text(out, sessions_limit(alloc, *count, *most), 13),
        Halt::JournalFull { size, most } => print_text(out, journal_limit(alloc, *size, *most), 13),
        Halt::NoForm(tree) => print_bytes(out, no_form_text(alloc, tree), 11),
        Halt::NoBaseForm { budget, tree } => {
            print_bytes(out, no_base_form_text(alloc, *budget, tree), 12)
        }
        Halt::Weights => print(out, b"series: weights\n", 16),
        Halt::NoSeries(tree) => print_bytes(out, no_series_text(alloc, tree), 17),
        Halt::NoSeriesFound { budget, tree } => {
            print_bytes(out, none_found_text(alloc, *budget, tree), 18)
        }
        Halt::Files => print(out, b"files failed\n", 7),
        Halt::Disk => print(out, b"disk failed\n", 9),
        Halt::Memory => print(out, b"no memory\n", 10),
        Halt::Sink => 8,
    }
}
