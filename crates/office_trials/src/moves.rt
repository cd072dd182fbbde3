//! A migration over a disk in memory, and what becomes of the file.

ghost use Rattle.answer_journal.specs.Standing.{IsAsLeft};
ghost use Rattle.exam_edge.specs.MemoryDisk.{accounts_of};
ghost use Rattle.form_model.specs.Validity.{IsPlanFor};

use crate::counted_disk::{Count, CountedDisk};
use crate::equal::expect_equal;
use crate::files::Parts;
use crate::outcome::{Numbers, disk_of, draft};
use bank_tables::Bank;
use constraint_model::Spec;
use exam_edge::MemoryDisk;
use exam_office::{MigrateFault, Moved, migrate};
use form_model::Draft;
use std::alloc::Global;
use std::process::Abort;
use trial_cases::bank_a;

/// What a migration gives.
pub(crate) type Answer = Result<Moved, MigrateFault>;

/// So many records were written, and the file has this length.
pub(crate) fn done(records: u64, length: u64) -> Answer {
    Ok(Moved { records, length })
}

/// A file of these parts is moved under the worked plan with these numbers. Calls of the disk fail
/// that have the numbers of `fails`, counted from 0.
#[derive(Clone, Copy)]
pub(crate) struct Migration<'a> {
    pub numbers: Numbers,
    pub file: Parts<'a>,
    pub fails: &'a [u64],
}

/// What a migration gave; and the bytes of the disk then, the gates from which bytes were put
/// aside, and the count of the disk's calls.
#[derive(Drop)]
pub(crate) struct Left {
    pub answer: Answer,
    pub bytes: Vec<u8>,
    pub aside: Vec<u64>,
    pub count: Count,
}

fn left_of<R: Abort>(rt: &R, alloc: Global, answer: Answer, disk: CountedDisk<MemoryDisk>) -> Left {
    Left {
        answer,
        bytes: disk.disk.bytes().to_vec(alloc).expect(rt, "the file"),
        aside: disk.disk.aside().to_vec(alloc).expect(rt, "gates"),
        count: disk.count,
    }
}

fn left_over<R: Abort>(
    rt: &R,
    alloc: Global,
    bank: &Bank,
    spec: &Spec,
    disk: CountedDisk<MemoryDisk>,
) -> Left
    requires plan { IsPlanFor bank.now spec.now }
    requires left { IsAsLeft (accounts_of disk.disk) }
{
    match migrate(alloc, bank, spec, disk) {
        Ok((moved, disk)) => left_of(rt, alloc, Ok(moved), disk),
        Err((disk, fault)) => left_of(rt, alloc, Err(fault), disk),
    }
}

fn left_on<R: Abort>(
    rt: &R,
    alloc: Global,
    bank: &Bank,
    spec: &Spec,
    migration: &Migration<'_>,
) -> Left
    requires { IsPlanFor bank.now spec.now }
{
    let disk = disk_of(rt, alloc, migration.file, migration.fails);
    left_over(rt, alloc, bank, spec, CountedDisk::of(disk))
}

fn left_by<R: Abort>(
    rt: &R,
    alloc: Global,
    bank: &Bank,
    draft: Draft,
    migration: &Migration<'_>,
) -> Left {
    match Spec::of(alloc, bank, draft) {
        Ok(spec) => left_on(rt, alloc, bank, &spec, migration),
        Err(_) => panic!(rt; "no plan"),
    }
}

/// What becomes of a migration.
pub(crate) fn migrated<R: Abort>(rt: &R, alloc: Global, migration: &Migration<'_>) -> Left {
    let bank = bank_a(alloc).expect(rt, "a bank");
    left_by(
        rt,
        alloc,
        &bank,
        draft(rt, alloc, &migration.numbers),
        migration,
    )
}

/// The migration gave this answer, by so many calls of the disk.
pub(crate) fn expect_answer<R: Abort>(rt: &R, left: &Left, answer: &Answer, calls: u64) {
    expect_equal(rt, &left.answer, answer);
    expect_equal(rt, &left.count.calls, &calls);
}
