//! An office on bank A, whose plan is plan A with a base form.

ghost use Rattle.std.specs.Prelude.{IfOk};
ghost use Rattle.answer_journal.specs.Standing.{IsAsLeft};
ghost use Rattle.exam_edge.specs.MemoryDisk.{accounts_of};
ghost use Rattle.form_model.specs.Validity.{IsPlanFor};

use bank_tables::Bank;
use constraint_model::{Draft, Rate, Spec};
use exam_edge::MemoryDisk;
use exam_office::Office;
use std::alloc::{AllocError, Global};
use std::test::Fail;
use trial_cases::{bank_a, draft_a, set_of};

/// The numbers in which a plan of the trials differs from plan A.
#[derive(Clone, Copy)]
pub(crate) struct Numbers {
    pub(crate) rate: Rate,
    /// The most bytes of the journal.
    pub(crate) journal: u64,
}

/// The numbers of plan A.
pub(crate) const EVEN: Numbers = Numbers {
    rate: Rate { num: 1, den: 1 },
    journal: 67_108_864,
};

/// At this rate the items shown in session 0 are ineligible in session 1.
pub(crate) const RARE: Numbers = Numbers {
    rate: Rate {
        num: 1,
        den: 65_535,
    },
    ..EVEN
};

// Plan A with these numbers, and a base form.
fn draft(alloc: Global, numbers: &Numbers) -> Result<Draft, AllocError> {
    let mut draft = draft_a(alloc)?;
    draft.rate = numbers.rate;
    draft.journal = numbers.journal;
    draft.base = Some(set_of(&[1, 2, 3]));
    Ok(draft)
}

fn planned_over(alloc: Global, bank: Bank, draft: Draft) -> Result<(Bank, Spec), Fail>
    ensures { IfOk result (λ r. IsPlanFor r.0 r.1) }
{
    match Spec::of(alloc, &bank, draft) {
        Ok(spec) => Ok((bank, spec)),
        Err(_) => Err(Fail::from("no plan")),
    }
}

/// Bank A, and the plan of these numbers.
pub(crate) fn planned(alloc: Global, numbers: &Numbers) -> Result<(Bank, Spec), Fail>
    ensures { IfOk result (λ r. IsPlanFor r.0 r.1) }
{
    let draft = draft(alloc, numbers)?;
    planned_over(alloc, bank_a(alloc)?, draft)
}

/// A disk with an empty file.
pub(crate) fn empty_disk(alloc: Global) -> MemoryDisk
    ensures { IsAsLeft (accounts_of result) }
{
    MemoryDisk::of(alloc, Vec::new(alloc), Vec::new(alloc))
}

/// A disk with the file of another, as the host has it after a restart.
pub(crate) fn restarted(alloc: Global, disk: &MemoryDisk) -> Result<MemoryDisk, Fail>
    ensures { IfOk result (λ again. IsAsLeft (accounts_of again)) }
{
    let bytes = disk.bytes().to_vec(alloc)?;
    Ok(MemoryDisk::of(alloc, bytes, Vec::new(alloc)))
}

/// The office over this disk.
pub(crate) fn opened<'a>(
    alloc: Global,
    bank: &'a Bank,
    spec: &'a Spec,
    disk: MemoryDisk,
) -> Result<Office<'a, MemoryDisk>, Fail>
    requires plan { IsPlanFor bank.now spec.now }
    requires left { IsAsLeft (accounts_of disk) }
{
    let Some(base) = spec.base() else {
        return Err(Fail::from("no base"));
    };
    match Office::open(alloc, bank, spec, base, disk) {
        Ok(office) => Ok(office),
        Err(_) => Err(Fail::from("not opened")),
    }
}
