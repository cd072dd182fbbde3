//! What an audit finds, from the counts of a book.

ghost use Rattle.std.specs.Prelude.{◌≡◌, ◌<◌, IfOk};
ghost use Rattle.form_model.specs.Plan.{bands_of};
ghost use Rattle.history_model.specs.Requests.{IsExposureOf};
ghost use Rattle.history_model.specs.Summaries.{summary};
ghost use Rattle.journal_audit.specs.Audit.{IsBandExposureOf, AreBandExposuresOf};

use bank_tables::List;
use exam_edge::Memory;
use exam_session::Book;
use exposure_counters::Counters;
use history_model::{Counts, Exposure, Summary};
use std::alloc::Global;

/// The counts of each item, in order.
#[tactic(auto, using(exam_office::proofs::Reported::row_more, exam_office::proofs::Reported::rows_end))]
fn rows_of(alloc: Global, counters: &Counters) -> Result<List<Counts>, Memory>
    ensures { IfOk result (λ rows. rows ≡ counters.now.counts) }
{
    let mut rows = Vec::new(alloc);
    for item in 0..counters.items() {
        rows.push(counters.read(item))?;
    }
    Ok(List::of(rows))
}

/// The exposure that counters have.
fn exposure_at(alloc: Global, counters: &Counters) -> Result<Exposure, Memory>
    ensures finished { IfOk result (λ exposure. exposure.finished ≡ counters.now.finished) }
    ensures rows { IfOk result (λ exposure. exposure.rows ≡ counters.now.counts) }
{
    Ok(Exposure {
        finished: counters.finished(),
        rows: rows_of(alloc, counters)?,
    })
}

/// The number of finished sessions, and the exposure counts of each item of the bank.
#[tactic(auto, using(exam_office::proofs::Reported::exposed))]
fn exposure_of(alloc: Global, book: &Book) -> Result<Exposure, Memory>
    ensures { IfOk result
        (IsExposureOf book.now.bank book.now.plan book.now.entries) }
{
    exposure_at(alloc, book.counters())
}

/// The number of finished sessions that visited a band, and the exposure counts there of each item
/// of the bank.
#[tactic(auto, using(crate::proofs::BandReports::exposed_in_band))]
fn band_exposure_of(alloc: Global, book: &Book, band: u8) -> Result<Exposure, Memory>
    requires { band < bands_of book.now.plan }
    ensures { IfOk result
        (IsBandExposureOf book.now.bank book.now.plan book.now.entries band) }
{
    exposure_at(alloc, book.band_counters(band))
}

/// The exposure in each band of the plan, in order.
fn band_exposures_of(alloc: Global, book: &Book) -> Result<Vec<Exposure>, Memory>
    ensures { IfOk result (λ bands.
        AreBandExposuresOf book.now.bank book.now.plan book.now.entries bands.items) }
{
    let number = book.spec().bands().len() + 1;
    let mut bands = Vec::new(alloc);
    for band in 0..number {
        bands.push(band_exposure_of(alloc, book, band as u8)?)?;
    }
    Ok(bands)
}

/// The numbers of a history, and its exposure, in all and in each band of the plan.
pub fn report_of(alloc: Global, book: &Book) -> Result<(Summary, Exposure, Vec<Exposure>), Memory>
    ensures total { IfOk result (λ found. found.0 ≡ summary book.now.plan book.now.entries) }
    ensures exposed { IfOk result (λ found.
        IsExposureOf book.now.bank book.now.plan book.now.entries found.1) }
    ensures exposed_by_band { IfOk result (λ found.
        AreBandExposuresOf book.now.bank book.now.plan book.now.entries found.2.items) }
{
    let exposure = exposure_of(alloc, book)?;
    let bands = band_exposures_of(alloc, book)?;
    Ok((book.summary(), exposure, bands))
}
