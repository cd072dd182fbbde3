//! Texts, and writing to a sink.

ghost use Rattle.std.specs.Prelude.{◌≡◌, ℕ, ◌≤◌, ◌++◌, List, OnOk, OnErr, IfSome, IfErr};
ghost use Rattle.exam_edge.specs.Faults.{Rose};
ghost use Rattle.exam_edge.specs.Lent.{IsLent, FailsOnly};
ghost use Rattle.exam_program.specs.Drilling.{IsOfDrill};
ghost use Rattle.exam_program.specs.Halts.{IsBeforeJournal, IsOfNoDisk};
ghost use Rattle.exam_program.specs.Stopping.{IsUnprinted};
ghost use Rattle.exam_program.specs.Writing.{IsWritten, WritesPart};

use crate::halt::Halt;
use exam_edge::{Failed, Sink};
use std::alloc::Global;

/// Writes a whole piece. After `Failed` a part of it may be written, and not the whole.
pub(crate) fn put<O: Sink>(out: &mut O, piece: &[u8]) -> Result<(), Failed>
    ensures ok { OnOk result
        (IsWritten (O.tells out.old) (O.written out.old) (O.written out.new) piece.now) }
    ensures err { OnErr result
        (WritesPart (O.tells out.old) (O.written out.old) (O.written out.new) piece.now) }
    ensures failed { FailsOnly O.faults out.old out.new result }
    ensures frame { IsLent O.tells O.identity O.faults out.old out.new }
{
    let mut done = 0;
    'piece: while done < piece.len() {
        match out.write(piece.split_at(done).1) {
            Ok(count) => done += count,
            Err(e) => return Err(e),
        }
    }
    Ok(())
}

/// One text after another, if there is memory for it.
pub(crate) fn joined(alloc: Global, first: &[u8], second: &[u8]) -> Option<Vec<u8>>
    ensures { IfSome result (λ text. text.items ≡ first.now ++ second.now) }
{
    let mut text = Vec::new(alloc);
    text.extend_from_slice(first).ok()?;
    text.extend_from_slice(second).ok()?;
    Some(text)
}

/// Writes a whole text, if there was memory for it.
pub(crate) fn put_text<O: Sink>(out: &mut O, text: Option<Vec<u8>>) -> Result<(), Halt>
    ensures ok { (line : List ℕ) → IfSome text (λ t. t.items ≡ line)
        → OnOk result (IsWritten (O.tells out.old) (O.written out.old) (O.written out.new) line) }
    ensures err { (line : List ℕ) → IfSome text (λ t. t.items ≡ line)
        → IfErr result (IsUnprinted (O.tells out.old) (O.written out.old)
        (O.written out.new) line) }
    ensures no_files { result ≡ Err Halt.Files → ⊥ }
    ensures no_disk { result ≡ Err Halt.Disk → ⊥ }
    ensures late { IfErr result (λ halt. IsBeforeJournal halt → ⊥) }
    ensures alone { IfErr result IsOfNoDisk }
    ensures of_drill { IfErr result IsOfDrill }
    ensures failed { result ≡ Err Halt.Sink → Rose (O.faults out.old) (O.faults out.new) }
    ensures grows { O.faults out.old ≤ O.faults out.new }
    ensures tells { O.tells out.new ≡ O.tells out.old }
{
    match text {
        Some(text) => match put(out, &text) {
            Ok(()) => Ok(()),
            Err(_) => Err(Halt::Sink),
        },
        None => Err(Halt::Memory),
    }
}
