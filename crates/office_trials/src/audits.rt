//! An audit of a journal finds what an office found in it.

ghost use Rattle.form_model.specs.Validity.{IsPlanFor};

use crate::equal::expect_equal;
use crate::expected::expect_bytes;
use crate::outcome::{Call, Numbers, Reply, Step, disk_of, draft};
use bank_tables::Bank;
use constraint_model::Spec;
use exam_office::Summary;
use form_model::Draft;
use history_model::{Counts, Exposure};
use journal_audit::audit;
use std::alloc::Global;
use std::process::Abort;
use trial_cases::bank_a;

/// What a journal has, and what an audit finds in it.
#[derive(Clone, Copy)]
pub(crate) struct Audited<'a> {
    pub numbers: Numbers,
    pub bytes: &'a [u8],
    /// Calls with their replies. Those that look at exposure counts are compared.
    pub counts: &'a [Step],
    pub summary: Summary,
}

/// The counts of an item; none if there is no such item.
fn counts_of(exposure: &Exposure, item: usize) -> Option<Counts> {
    exposure.rows.as_slice().get(item).copied()
}

/// If the call looks at the exposure counts of an item, they are those of the reply.
fn expect_counts<R: Abort>(rt: &R, exposure: &Exposure, (call, reply): &Step) {
    if let Call::Exposure(item) = *call {
        assert!(rt; Reply::Exposed(counts_of(exposure, item)) == *reply);
    }
}

fn expect_all_counts<R: Abort>(rt: &R, exposure: &Exposure, counts: &[Step]) {
    for step in counts {
        expect_counts(rt, exposure, step);
    }
}

/// The only band has the counts of the whole history.
fn expect_one_band<R: Abort>(rt: &R, bands: &[Exposure], expected: &Audited<'_>) {
    expect_equal(rt, &bands.len(), &1);
    for band in bands {
        expect_equal(rt, &band.finished, &expected.summary.finished);
        expect_all_counts(rt, band, expected.counts);
    }
}

/// The audit of a plan of one band finds this in the journal, and leaves the file as it was.
fn expect_found_over<R: Abort>(
    rt: &R,
    alloc: Global,
    bank: &Bank,
    spec: &Spec,
    expected: &Audited<'_>,
)
    requires { IsPlanFor bank.now spec.now }
{
    let mut disk = disk_of(rt, alloc, &[expected.bytes], &[]);
    let (summary, exposure, bands) = audit(alloc, bank, spec, &mut disk).expect(rt, "a history");
    expect_equal(rt, &summary, &expected.summary);
    expect_equal(rt, &exposure.finished, &expected.summary.finished);
    expect_all_counts(rt, &exposure, expected.counts);
    expect_one_band(rt, &bands, expected);
    expect_bytes(rt, disk.bytes(), expected.bytes);
}

fn expect_found_by<R: Abort>(
    rt: &R,
    alloc: Global,
    bank: &Bank,
    draft: Draft,
    expected: &Audited<'_>,
) {
    match Spec::of(alloc, bank, draft) {
        Ok(spec) => expect_found_over(rt, alloc, bank, &spec, expected),
        Err(_) => panic!(rt; "no plan"),
    }
}

/// An audit of the journal finds this.
pub(crate) fn expect_audit<R: Abort>(rt: &R, alloc: Global, expected: &Audited<'_>) {
    let bank = bank_a(alloc).expect(rt, "a bank");
    expect_found_by(
        rt,
        alloc,
        &bank,
        draft(rt, alloc, &expected.numbers),
        expected,
    );
}
