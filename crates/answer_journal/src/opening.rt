//! How a file is opened: what is read first, and what is written then.

ghost use Rattle.std.specs.Prelude.{◌≡◌, ◌≢◌, ◌≤◌, ◌<◌, ◌+◌, ◌-◌, ◌^◌, ◌⊎◌, length, Some, None};
ghost use Rattle.std.specs.Prelude.{◌++◌, IsTrue, IfOk, IfErr, OnOk, OnErr};
ghost use Rattle.exam_edge.specs.Faults.{Rose};
ghost use Rattle.exam_edge.specs.Lent.{IsLent, FailsOnly};
ghost use Rattle.exam_edge.specs.Images.{AtEachMoment, Grows, IsClean, IsImage, IsSettled, IsWithin, dropped, latest, renewed};
ghost use Rattle.answer_journal.specs.Frames.{shadowj2, payloads};
ghost use Rattle.answer_journal.specs.Versions.{header, contents, counted_in};
ghost use Rattle.answer_journal.specs.Opening.{AllowsSame, AreGatesSettled, IsExtent, PutsTailAside};
ghost use Rattle.answer_journal.specs.Opening.{gate_of_tail, last_gate, tail_gates};
ghost use Rattle.answer_journal.specs.OpenFault.{IsWalkAnswer, fault_in};
ghost use Rattle.answer_journal.specs.Standing.{payload_list, IsAsLeft, IsAtRest, IsBeingMade, IsBeingSwitched};
ghost use Rattle.answer_journal.specs.Standing.{IsImageOrGives, IsSettledOrInterrupted, opened_file};
ghost use Rattle.answer_journal.specs.Reading.{IsRead};

use crate::OpenFault;
use crate::durable::{cut_durably, renew_byte, write_durably};
use crate::frames::EMPTY_JOURNAL;
use crate::gates::test_frames;
use exam_edge::{Disk, Failed};

/// The length of a file in bytes, the place of its first closed gate, the version that its header
/// names, the place of the first gate whose record counts, and how many records before that do not
/// count. A file of at most nine bytes is to have the header of the second version, and directly
/// after it the closed gate.
#[derive(Clone, Copy)]
pub struct Extent {
    pub size: u64,
    pub end: u64,
    pub version: u8,
    pub start: u64,
    pub skipped: u64,
}

impl Extent {
    /// The place of the gate of the mark that moved the file; of the first gate, where none did.
    pub fn mark_gate(&self) -> u64
        requires { 8 ≤ self.now.start }
        ensures moved { 14 ≤ self.now.start → result ≡ self.now.start - 6 }
        ensures unmoved { self.now.start < 14 → result ≡ 8 }
    {
        if self.start < 14 { 8 } else { self.start - 6 }
    }
}

/// Syncs and tests a file, and writes nothing: its extent.
pub fn test_file<D: Disk>(disk: &mut D, limit: u64) -> Result<Extent, OpenFault>
    requires limit { limit ≤ 536870912 }
    requires left { IsTrue (D.tells disk.old) → IsAsLeft (D.accounts disk.old) }
    ensures within { IfOk result (λ extent. extent.size ≤ limit) }
    ensures extent { IfOk result (λ extent. IsExtent (D.tells disk.new)
        (D.content disk.new) (D.accounts disk.new) extent) }
    ensures settled { OnOk result (IsTrue (D.tells disk.old)
        → IsClean (latest (D.accounts disk.old))
        → IsSettled (D.content disk.old) (D.accounts disk.new)) }
    ensures switching { OnOk result (IsTrue (D.tells disk.old)
        → IsBeingSwitched (D.accounts disk.old) → IsBeingSwitched (D.accounts disk.new)) }
    ensures gives { OnOk result (IsTrue (D.tells disk.old)
        → contents (D.content disk.old) ≡ Some (counted_in (D.content disk.old))) }
    ensures sound { OnOk result (IsTrue (D.tells disk.old)
        → fault_in limit (D.content disk.old) ≡ None) }
    ensures why { IfErr result (λ e. IsTrue (D.tells disk.old)
        → IsWalkAnswer limit (D.content disk.old) e) }
    ensures cause { IfErr result
        (λ e. e ≡ OpenFault.Disk → Rose (D.faults disk.old) (D.faults disk.new)) }
    ensures no_memory { IfErr result (λ e. e ≢ OpenFault.Memory) }
    ensures content { IsTrue (D.tells disk.old) → D.content disk.new ≡ D.content disk.old }
    ensures crash { IsTrue (D.tells disk.old)
        → Grows (dropped (latest (D.accounts disk.old))) (D.accounts disk.old)
        (D.accounts disk.new) }
    ensures aside { IsTrue (D.tells disk.old) → D.aside disk.new ≡ D.aside disk.old }
    ensures frame { IsLent D.tells D.identity D.faults disk.old disk.new }
{
    match disk.sync() {
        Ok(()) => {}
        Err(_) => return Err(OpenFault::Disk),
    }
    let size = match disk.len() {
        Ok(size) => size,
        Err(_) => return Err(OpenFault::Disk),
    };
    if limit < size {
        return Err(OpenFault::TooLong(size));
    }
    if size <= 9 {
        return Ok(Extent {
            size,
            end: 8,
            version: 2,
            start: 8,
            skipped: 0,
        });
    }
    match test_frames(disk, size) {
        Ok((version, gates)) => Ok(Extent {
            size,
            end: gates.end,
            version,
            start: gates.start,
            skipped: gates.skipped,
        }),
        Err(e) => Err(e),
    }
}

// Cuts a file of at most nine bytes to its own length, since it may be longer on the disk, and
// syncs: then only the bytes of a header may be suspect.
fn settle_short<D: Disk>(disk: &mut D, extent: Extent) -> Result<(), Failed>
    requires short { extent.size ≤ 9 }
    requires extent { IsExtent (D.tells disk.old) (D.content disk.old)
        (D.accounts disk.old) extent }
    ensures left { OnOk result (IsTrue (D.tells disk.old)
        → IsSettled (D.content disk.old) (D.accounts disk.new)
        ⊎ IsBeingMade (D.accounts disk.new)) }
    ensures content { OnOk result (IsTrue (D.tells disk.old)
        → D.content disk.new ≡ D.content disk.old) }
    ensures moments { IsTrue (D.tells disk.old)
        → AtEachMoment (D.accounts disk.old) (D.accounts disk.new)
        (IsImage (latest (D.accounts disk.old))) }
    ensures aside { IsTrue (D.tells disk.old) → D.aside disk.new ≡ D.aside disk.old }
    ensures failed { FailsOnly D.faults disk.old disk.new result }
    ensures frame { IsLent D.tells D.identity D.faults disk.old disk.new }
{
    cut_durably(disk, extent.size)?;
    Ok(())
}

// Makes a file of at most nine bytes an empty journal of the second version.
fn write_header<D: Disk>(disk: &mut D) -> Result<(), Failed>
    requires short { IsTrue (D.tells disk.old) → length (D.content disk.old) ≤ 9 }
    requires left { IsTrue (D.tells disk.old)
        → IsSettled (D.content disk.old) (D.accounts disk.old)
        ⊎ IsBeingMade (D.accounts disk.old) }
    requires comes { IsTrue (D.tells disk.old)
        → AllowsSame D.may_become (payloads shadowj2) (D.content disk.old) }
    ensures rest { OnOk result (IsTrue (D.tells disk.old)
        → IsAtRest shadowj2 (D.content disk.new) (D.accounts disk.new) 9) }
    ensures keeps { OnOk result (IsTrue (D.tells disk.old)
        → payloads shadowj2 (D.content disk.old)
        ≡ Some (payload_list shadowj2 (D.content disk.new))) }
    ensures content { OnOk result (IsTrue (D.tells disk.old)
        → D.content disk.new ≡ opened_file (D.content disk.old) 9) }
    ensures moments { IsTrue (D.tells disk.old)
        → AtEachMoment (D.accounts disk.old) (D.accounts disk.new)
        (λ file. payloads shadowj2 file ≡ payloads shadowj2 (D.content disk.old)) }
    ensures aside { IsTrue (D.tells disk.old) → D.aside disk.new ≡ D.aside disk.old }
    ensures failed { FailsOnly D.faults disk.old disk.new result }
    ensures frame { IsLent D.tells D.identity D.faults disk.old disk.new }
{
    write_durably(disk, 0, &EMPTY_JOURNAL)?;
    Ok(())
}

/// Puts aside what follows the first closed gate of a file of this extent and is to be cut, where
/// anything does. The file stays as it is.
pub fn put_tail_aside<D: Disk>(disk: &mut D, extent: Extent) -> Result<(), Failed>
    ensures content { IsTrue (D.tells disk.old) → D.content disk.new ≡ D.content disk.old }
    ensures accounts { IsTrue (D.tells disk.old) → D.accounts disk.new ≡ D.accounts disk.old }
    ensures aside { OnOk result (IsTrue (D.tells disk.old) → D.aside disk.new
        ≡ D.aside disk.old ++ gate_of_tail extent.size extent.end) }
    ensures kept { OnErr result (IsTrue (D.tells disk.old)
        → D.aside disk.new ≡ D.aside disk.old) }
    ensures failed { FailsOnly D.faults disk.old disk.new result }
    ensures frame { IsLent D.tells D.identity D.faults disk.old disk.new }
{
    if extent.end < extent.size.saturating_sub(1) {
        disk.put_aside(extent.end)
    } else {
        Ok(())
    }
}

// Writes the gate of the mark again as it reads, where one moved the file.
fn renew_mark<D: Disk>(disk: &mut D, extent: Extent) -> Result<(), Failed>
    ensures content { IsTrue (D.tells disk.old) → D.content disk.new ≡ D.content disk.old }
    ensures crash { IsTrue (D.tells disk.old)
        → Grows (latest (D.accounts disk.old)) (D.accounts disk.old) (D.accounts disk.new) }
    ensures cleared { OnOk result (IsTrue (D.tells disk.old) → 14 ≤ extent.start
        → extent.start - 6 < length (D.content disk.old) → IsWithin (latest (D.accounts disk.new))
        (renewed (extent.start - 6) 1 (latest (D.accounts disk.old)))) }
    ensures aside { IsTrue (D.tells disk.old) → D.aside disk.new ≡ D.aside disk.old }
    ensures failed { FailsOnly D.faults disk.old disk.new result }
    ensures frame { IsLent D.tells D.identity D.faults disk.old disk.new }
{
    if extent.start < 14 {
        return Ok(());
    }
    renew_byte(disk, extent.start - 6)?;
    Ok(())
}

/// Writes the gate of the mark again as it reads, where one moved the file, and syncs.
pub fn settle_mark<D: Disk>(disk: &mut D, extent: Extent) -> Result<(), Failed>
    requires extent { IsExtent (D.tells disk.old) (D.content disk.old)
        (D.accounts disk.old) extent }
    // If that gate was being opened, it is on the disk now.
    ensures settled { OnOk result (IsTrue (D.tells disk.old) → extent.version ≡ 1
        → 0 < extent.skipped → IsBeingSwitched (D.accounts disk.old)
        → IsSettled (D.content disk.new) (D.accounts disk.new)) }
    ensures left { IsTrue (D.tells disk.old)
        → IsSettledOrInterrupted (D.content disk.new) (D.accounts disk.new) }
    ensures content { IsTrue (D.tells disk.old) → D.content disk.new ≡ D.content disk.old }
    ensures moments { IsTrue (D.tells disk.old)
        → AtEachMoment (D.accounts disk.old) (D.accounts disk.new)
        (IsImage (latest (D.accounts disk.old))) }
    ensures aside { IsTrue (D.tells disk.old) → D.aside disk.new ≡ D.aside disk.old }
    ensures failed { FailsOnly D.faults disk.old disk.new result }
    ensures frame { IsLent D.tells D.identity D.faults disk.old disk.new }
{
    renew_mark(disk, extent)?;
    disk.sync()?;
    Ok(())
}

// Writes the gate of the mark, the last open gate and the first closed one again as they read, and
// syncs: one of them may be only in the host's memory, where the last writer of the file ended
// after a sync that failed.
fn settle_gates<D: Disk>(disk: &mut D, extent: Extent, last: u64) -> Result<(), Failed>
    requires long { 9 < extent.size }
    requires extent { IsExtent (D.tells disk.old) (D.content disk.old)
        (D.accounts disk.old) extent }
    requires last { IsTrue (D.tells disk.old)
        → last ≡ last_gate (payload_list (header extent.version) (D.content disk.old)) }
    ensures gates { OnOk result (IsTrue (D.tells disk.old)
        → AreGatesSettled (header extent.version) (D.content disk.old) (D.accounts disk.new)
        extent.end) }
    ensures content { IsTrue (D.tells disk.old) → D.content disk.new ≡ D.content disk.old }
    ensures moments { IsTrue (D.tells disk.old)
        → AtEachMoment (D.accounts disk.old) (D.accounts disk.new)
        (IsImage (latest (D.accounts disk.old))) }
    ensures aside { IsTrue (D.tells disk.old) → D.aside disk.new ≡ D.aside disk.old }
    ensures failed { FailsOnly D.faults disk.old disk.new result }
    ensures frame { IsLent D.tells D.identity D.faults disk.old disk.new }
{
    renew_mark(disk, extent)?;
    renew_byte(disk, last)?;
    renew_byte(disk, extent.end)?;
    disk.sync()?;
    Ok(())
}

// Cuts a file of more than nine bytes after its first closed gate, also where nothing follows:
// bytes of a cut that was not synced may do so on the disk.
fn cut_file<D: Disk>(disk: &mut D, extent: Extent) -> Result<(), Failed>
    requires few { extent.end + 1 < 2 ^ 64 }
    requires long { IsTrue (D.tells disk.old) → 9 < length (D.content disk.old) }
    requires read { IsTrue (D.tells disk.old) → IsRead (header extent.version) (D.content disk.old)
        (payload_list (header extent.version) (D.content disk.old)) extent.end }
    requires gates { IsTrue (D.tells disk.old)
        → AreGatesSettled (header extent.version) (D.content disk.old) (D.accounts disk.old)
        extent.end }
    requires comes { IsTrue (D.tells disk.old)
        → AllowsSame D.may_become (payloads (header extent.version)) (D.content disk.old) }
    ensures rest { OnOk result (IsTrue (D.tells disk.old)
        → IsAtRest (header extent.version) (D.content disk.new) (D.accounts disk.new)
        (extent.end + 1)) }
    ensures keeps { OnOk result (IsTrue (D.tells disk.old)
        → payloads (header extent.version) (D.content disk.old)
        ≡ Some (payload_list (header extent.version) (D.content disk.new))) }
    ensures content { OnOk result (IsTrue (D.tells disk.old)
        → D.content disk.new ≡ opened_file (D.content disk.old) (extent.end + 1)) }
    ensures moments { IsTrue (D.tells disk.old)
        → AtEachMoment (D.accounts disk.old) (D.accounts disk.new)
        (λ file. payloads (header extent.version) file
        ≡ payloads (header extent.version) (D.content disk.old)) }
    ensures aside { IsTrue (D.tells disk.old) → D.aside disk.new ≡ D.aside disk.old }
    ensures failed { FailsOnly D.faults disk.old disk.new result }
    ensures frame { IsLent D.tells D.identity D.faults disk.old disk.new }
{
    cut_durably(disk, extent.end + 1)?;
    Ok(())
}

/// Makes a file of this extent a journal, all of it on the disk: it ends with its first closed
/// gate. The last open gate is at `last`.
pub fn finish_file<D: Disk>(disk: &mut D, extent: Extent, last: u64) -> Result<(), Failed>
    requires extent { IsExtent (D.tells disk.old) (D.content disk.old)
        (D.accounts disk.old) extent }
    requires last { IsTrue (D.tells disk.old)
        → last ≡ last_gate (payload_list (header extent.version) (D.content disk.old)) }
    requires comes { IsTrue (D.tells disk.old)
        → AllowsSame D.may_become (payloads (header extent.version)) (D.content disk.old) }
    ensures rest { OnOk result (IsTrue (D.tells disk.old)
        → IsAtRest (header extent.version) (D.content disk.new) (D.accounts disk.new)
        (extent.end + 1)) }
    ensures keeps { OnOk result (IsTrue (D.tells disk.old)
        → payloads (header extent.version) (D.content disk.old)
        ≡ Some (payload_list (header extent.version) (D.content disk.new))) }
    ensures content { OnOk result (IsTrue (D.tells disk.old)
        → D.content disk.new ≡ opened_file (D.content disk.old) (extent.end + 1)) }
    ensures moments { IsTrue (D.tells disk.old)
        → AtEachMoment (D.accounts disk.old) (D.accounts disk.new)
        (IsImageOrGives (header extent.version) (latest (D.accounts disk.old))
        (D.content disk.old)) }
    // What is cut was put aside before, and nothing else was.
    ensures aside { OnOk result (IsTrue (D.tells disk.old) → D.aside disk.new
        ≡ D.aside disk.old ++ tail_gates (D.content disk.old)) }
    ensures aside_err { OnErr result (IsTrue (D.tells disk.old)
        → PutsTailAside (D.content disk.old) (D.content disk.new)
        (D.accounts disk.old) (D.accounts disk.new) (D.aside disk.old) (D.aside disk.new)) }
    ensures failed { FailsOnly D.faults disk.old disk.new result }
    ensures frame { IsLent D.tells D.identity D.faults disk.old disk.new }
{
    if extent.size <= 9 {
        settle_short(disk, extent)?;
        write_header(disk)
    } else {
        put_tail_aside(disk, extent)?;
        settle_gates(disk, extent, last)?;
        cut_file(disk, extent)
    }
}
