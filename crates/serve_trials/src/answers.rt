//! What an office of one thread answers to some requests on bank A.

ghost use Rattle.std.specs.Prelude.{IfOk};
ghost use Rattle.answer_journal.specs.Standing.{IsAsLeft};
ghost use Rattle.exam_edge.specs.MemoryDisk.{accounts_of};
ghost use Rattle.form_model.specs.Validity.{IsPlanFor};

use crate::office::{Numbers, opened, planned};
use crate::requests::{Ask, Told, request_of, told};
use bank_tables::Bank;
use constraint_model::Spec;
use exam_edge::MemoryDisk;
use exam_office::{Alone, Office, Reply};
use std::alloc::Global;
use std::test::Fail;

/// What an office answered: the replies, the exposure counts that were asked for, and the length of
/// the journal.
#[derive(Drop)]
pub(crate) struct Answered {
    pub(crate) replies: Vec<Told>,
    pub(crate) counts: Vec<(u32, u32)>,
    pub(crate) length: usize,
}

fn note_counts(counts: &mut Vec<(u32, u32)>, reply: &Reply) -> Result<(), Fail> {
    if let Reply::Exposure(exposure) = reply {
        for row in exposure.rows.as_slice() {
            counts.push((row.alpha, row.eps))?;
        }
    }
    Ok(())
}

fn note(answered: &mut Answered, reply: &Reply) -> Result<(), Fail> {
    answered.replies.push(told(reply))?;
    note_counts(&mut answered.counts, reply)
}

fn ask_all(
    alloc: Global,
    alone: &mut Alone<MemoryDisk>,
    requests: &[Ask],
    answered: &mut Answered,
) -> Result<(), Fail> {
    for request in requests {
        note(answered, &alone.ask(alloc, &request_of(request)))?;
    }
    Ok(())
}

fn answers_in(
    alloc: Global,
    office: Office<MemoryDisk>,
    requests: &[Ask],
) -> Result<Answered, Fail> {
    let mut alone = Alone { office };
    let mut answered = Answered {
        replies: Vec::new(alloc),
        counts: Vec::new(alloc),
        length: 0,
    };
    let asked = ask_all(alloc, &mut alone, requests, &mut answered);
    let Alone { office } = alone;
    answered.length = office.into_disk().bytes().len();
    match asked {
        Ok(()) => Ok(answered),
        Err(fail) => Err(fail),
    }
}

/// A disk with an empty file, of which these calls fail.
pub(crate) fn disk_of(alloc: Global, fails: &[u64]) -> Result<MemoryDisk, Fail>
    ensures { IfOk result (λ disk. IsAsLeft (accounts_of disk)) }
{
    let fails = fails.to_vec(alloc)?;
    Ok(MemoryDisk::of(alloc, Vec::new(alloc), fails))
}

fn answers_on(
    alloc: Global,
    bank: &Bank,
    spec: &Spec,
    disk: MemoryDisk,
    requests: &[Ask],
) -> Result<Answered, Fail>
    requires plan { IsPlanFor bank.now spec.now }
    requires left { IsAsLeft (accounts_of disk) }
{
    match opened(alloc, bank, spec, disk) {
        Ok(office) => answers_in(alloc, office, requests),
        Err(fail) => Err(fail),
    }
}

// What owns a bank is a function of its own, since one that also owns a disk is dear to prove.
fn answers_over(
    alloc: Global,
    bank: &Bank,
    spec: &Spec,
    fails: &[u64],
    requests: &[Ask],
) -> Result<Answered, Fail>
    requires { IsPlanFor bank.now spec.now }
{
    match disk_of(alloc, fails) {
        Ok(disk) => answers_on(alloc, bank, spec, disk, requests),
        Err(fail) => Err(fail),
    }
}

/// The answers over an empty journal, where these calls of the disk fail.
pub(crate) fn answers(
    alloc: Global,
    numbers: &Numbers,
    fails: &[u64],
    requests: &[Ask],
) -> Result<Answered, Fail> {
    match planned(alloc, numbers) {
        Ok((bank, spec)) => answers_over(alloc, &bank, &spec, fails, requests),
        Err(fail) => Err(fail),
    }
}
