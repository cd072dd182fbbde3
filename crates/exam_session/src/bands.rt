//! The bands of a plan's abilities: where sessions begin, and where a session was.

ghost use Rattle.std.specs.Prelude.{◌≡◌, ◌+◌, ◌<◌, ◌≤◌, [], false, get_or, length, take};
ghost use Rattle.bank_tables.specs.Tables.{Tables};
ghost use Rattle.form_model.specs.Plan.{bands_of};
ghost use Rattle.serving_model.specs.Seats.{answers, IsSeat, first_band};
ghost use Rattle.form_model.specs.Validity.{IsPlanFor};
ghost use Rattle.ability_grid.specs.Running.{IsSumsOf};
ghost use Rattle.exam_session.specs.Visits.{BeginsIn, NotesVisit, AreVisits};

use ability_grid::Sums;
use bank_tables::{Bank, ItemSet};
use constraint_model::Spec;
use serving_model::Seat;
use shadow_select::number_at;

/// The band in which each session begins.
pub(crate) fn first_band(spec: &Spec) -> u8
    requires some { 0 < length spec.now.prior }
    requires few { length spec.now.prior ≤ 61 }
    ensures band { (b : Tables) → b.grid ≡ length spec.now.prior → result ≡ first_band b spec.now }
    ensures of_plan { result < bands_of spec.now }
    ensures few { result < 8 }
{
    spec.band(Sums::of_prior(spec.prior()).mode())
}

/// Where a session was: the items shown in each band, and whether it visited the band.
#[derive(Clone, Copy)]
pub(crate) struct BandVisits {
    pub(crate) shown: [ItemSet; 8],
    pub(crate) there: [bool; 8],
}

impl BandVisits {
    /// The items shown in a band.
    pub(crate) fn shown_in(&self, band: u8) -> ItemSet
        requires { band < 8 }
        ensures { result ≡ get_or self.now.shown band [] }
    {
        self.shown[band as usize]
    }

    /// Whether the session visited a band.
    pub(crate) fn was_in(&self, band: u8) -> bool
        requires { band < 8 }
        ensures { result ≡ get_or self.now.there band false }
    {
        self.there[band as usize]
    }
}

/// A session that begins in a band, before any item is shown.
fn visits_from(band: u8) -> BandVisits
    requires { band < 8 }
    ensures { BeginsIn result band }
{
    let mut there = [false; 8];
    there[band as usize] = true;
    BandVisits {
        shown: [ItemSet::empty(); 8],
        there,
    }
}

/// Notes an item that is shown in a band.
fn visit(visits: &mut BandVisits, band: u8, item: u16)
    requires band { band < 8 }
    requires item { item < 512 }
    ensures { NotesVisit visits.old visits.new band item }
{
    let at = band as usize;
    visits.shown[at] = visits.shown[at].with(item);
    visits.there[at] = true;
}

/// Adds the answer to the item shown at a place, if there is one.
fn add_answer(bank: &Bank, spec: &Spec, seat: &Seat, k: usize, sums: &mut Sums)
    requires plan { IsPlanFor bank.now spec.now }
    requires seat { IsSeat bank.now spec.now seat.now }
    requires within { k < length seat.now.shown }
    requires sums { IsSumsOf bank.now spec.now.prior (take k (answers seat.now)) sums.old }
    ensures { IsSumsOf bank.now spec.now.prior (take (k + 1) (answers seat.now)) sums.new }
{
    prove!(bank.items() <= 512);
    let item = number_at(&seat.shown, k);
    if let Some(response) = seat.responses.get(k) {
        sums.add(bank, item, response as u8);
    }
}

/// The bands of a seat, found by adding its answers one by one to the sums of the prior.
pub(crate) fn visits_of(bank: &Bank, spec: &Spec, seat: &Seat) -> BandVisits
    requires plan { IsPlanFor bank.now spec.now }
    requires seat { IsSeat bank.now spec.now seat.now }
    ensures { AreVisits bank.now spec.now seat.now result }
{
    prove!(bank.items() <= 512);
    let mut sums = Sums::of_prior(spec.prior());
    let mut found = visits_from(spec.band(sums.mode()));
    for k in 0..seat.shown.len() {
        visit(
            &mut found,
            spec.band(sums.mode()),
            number_at(&seat.shown, k),
        );
        add_answer(bank, spec, seat, k, &mut sums);
    }
    found
}
