//! The command `series`: forms of one plan without common items.

ghost use Rattle.std.specs.Prelude.{◌≡◌, ℕ, ◌<◌, ◌≤◌, List, Some, OnOk, IsTrue, IfOk, IfErr};
ghost use Rattle.bank_tables.specs.Tables.{Tables};
ghost use Rattle.exam_edge.specs.Faults.{Rose};
ghost use Rattle.command_line.specs.Commands.{Series, command_of};
ghost use Rattle.command_line.specs.Weights.{are_weights, weights_of};
ghost use Rattle.form_model.specs.Plan.{Plan};
ghost use Rattle.form_model.specs.Validity.{IsPlanFor};
ghost use Rattle.form_lines.specs.Answers.{IsEnd};
ghost use Rattle.exam_program.specs.Halts.{IsOfNoDisk};
ghost use Rattle.exam_program.specs.Outcomes.{Prints, Halts};
ghost use Rattle.exam_program.specs.Outside.{DiskSeen, outside, IsUntouched};
ghost use Rattle.exam_program.specs.Series.{TellsSeriesOf, HaltsAtSeries};

use crate::halt::Halt;
use crate::output::put_text;
use crate::reading::{Exam, exam_in};
use command_line::weights_of;
use exam_edge::{Files, Sink};
use form_lines::{SeriesEnd, series_lines};
use std::alloc::Global;

/// Why there is no series to print, as the program ends with it.
fn halt_of_series(end: SeriesEnd) -> Halt
    ensures { (b : Tables) (p : Plan) (forms : ℕ) (weights : List ℕ) → IsEnd b p weights forms end
        → HaltsAtSeries b p forms weights result }
{
    match end {
        SeriesEnd::Weights => Halt::Weights,
        SeriesEnd::NoSeries(tree) => Halt::NoSeries(tree),
        SeriesEnd::NoneFound { budget, tree } => Halt::NoSeriesFound { budget, tree },
        SeriesEnd::Memory => Halt::Memory,
    }
}

/// The text of a series of so many forms, by the weights that a word writes.
fn text_of_series(alloc: Global, exam: &Exam, forms: u8, weights: &str) -> Result<Vec<u8>, Halt>
    requires plan { IsPlanFor exam.now.bank exam.now.spec }
    requires some_forms { 0 < forms }
    requires few_forms { forms ≤ 4 }
    requires weights { IsTrue (are_weights weights.now) }
    ensures text { IfOk result (λ text. TellsSeriesOf exam.now.bank exam.now.spec forms
        (weights_of weights.now) text.items) }
    ensures halts { IfErr result
        (HaltsAtSeries exam.now.bank exam.now.spec forms (weights_of weights.now)) }
{
    let weights = weights_of(alloc, weights)?;
    match series_lines(alloc, &exam.bank, &exam.spec, forms, &weights) {
        Ok(text) => Ok(text),
        Err(end) => Err(halt_of_series(end)),
    }
}

/// Reads a bank and a plan, assembles a series of so many forms by the weights that a word writes,
/// and prints it with its tree.
pub(crate) fn series<F: Files, O: Sink>(
    alloc: Global,
    files: &mut F,
    out: &mut O,
    bank: &str,
    plan: &str,
    forms: u8,
    weights: &str,
) -> Result<(), Halt>
    requires some_forms { 0 < forms }
    requires few_forms { forms ≤ 4 }
    requires weights { IsTrue (are_weights weights.now) }
    ensures ok { OnOk result (IsTrue (F.tells files.old) → (words : List (List ℕ)) (disk : DiskSeen)
        → command_of words ≡ Some (Series bank.now plan.now forms weights.now) → IsUntouched disk
        → Prints words (outside (F.has files.old) (F.content files.old) (F.faults files.old)
        (F.faults files.new) disk)
        (O.tells out.old) (O.written out.old) (O.written out.new) 0) }
    ensures err { IfErr result (λ halt. IsTrue (F.tells files.old)
        → (words : List (List ℕ)) (disk : DiskSeen)
        → command_of words ≡ Some (Series bank.now plan.now forms weights.now) → IsUntouched disk
        → Halts words (outside (F.has files.old) (F.content files.old) (F.faults files.old)
        (F.faults files.new) disk)
        (O.tells out.old) (O.written out.old) (O.written out.new) halt) }
    ensures files { result ≡ Err Halt.Files → Rose (F.faults files.old) (F.faults files.new) }
    ensures sink { result ≡ Err Halt.Sink → Rose (O.faults out.old) (O.faults out.new) }
    ensures alone { IfErr result IsOfNoDisk }
    ensures files_grow { F.faults files.old ≤ F.faults files.new }
    ensures sink_grows { O.faults out.old ≤ O.faults out.new }
    ensures files_tell { F.tells files.new ≡ F.tells files.old }
    ensures sink_tells { O.tells out.new ≡ O.tells out.old }
{
    let exam = match exam_in(alloc, files, bank, plan) {
        Ok(exam) => exam,
        Err(halt) => return Err(halt),
    };
    match text_of_series(alloc, &exam, forms, weights) {
        Ok(text) => put_text(out, Some(text)),
        Err(halt) => Err(halt),
    }
}
