//! A session's seat in as few bytes as its content needs.

ghost use Rattle.std.specs.Prelude.{◌≡◌, ◌+◌, ◌<◌, ◌≤◌, ◌++◌, length, take, get_or, slice_get, IfOk};
ghost use Rattle.std.specs.Option.{option_copied};
ghost use Rattle.std.specs.Vec.{vec_len, vec_capacity};
ghost use Rattle.bank_tables.specs.Tables.{Tables};
ghost use Rattle.form_model.specs.Plan.{Plan};
ghost use Rattle.serving_model.specs.Seats.{answers, band_at, is_aside_in};
ghost use Rattle.ability_grid.specs.Running.{IsSumsOf};
ghost use Rattle.history_model.specs.Entries.{session_of};
ghost use Rattle.history_model.specs.Laws.{seat_with, seat_place};
ghost use Rattle.exam_records.specs.Sets.{no_items};
ghost use Rattle.exam_session.specs.KeptSeats.{filled, seat_kept, started_seat, IsSpare, IsShort, HasRoomFor, TakesStart, TakesAnswer, HasSums, KeepsRoom};

use crate::flags::{all_flags, has_flag, with_flag};
use ability_grid::{KeptSums, Sums};
use bank_tables::{Bank, ItemSet, Short};
use constraint_model::Spec;
use exam_records::are_sets;
use exposure_counters::Memory;
use history_model::{Bands, Entry, Place, Without};
use serving_model::Seat;
use std::alloc::Global;

/// The content of a `Seat`, in lists that have room for the items of a test and the bands of the
/// plan and no more, and the sums of the plan's prior and its answers.
#[derive(Drop)]
pub(crate) struct KeptSeat {
    pub(crate) shown: Vec<u16>,
    pub(crate) responses: Vec<u8>,
    pub(crate) sums: KeptSums,
    /// The eligible set of each band.
    pub(crate) eligible: Vec<ItemSet>,
    /// The set of the items withheld, if there is a list of them. A start without one gives its
    /// room back.
    pub(crate) without: Vec<ItemSet>,
    pub(crate) form: Option<ItemSet>,
    /// A bit for each band in which eligibility is set aside.
    pub(crate) aside: u8,
    pub(crate) proved: bool,
    pub(crate) closed: bool,
}

/// The items of a list.
fn items_of(list: &[u16]) -> Short
    requires { length list.now ≤ 512 }
    ensures { result ≡ list.now }
{
    let mut items = Short::empty();
    for item in list {
        items.push(*item);
    }
    items
}

/// The responses of a list.
fn responses_of(list: &[u8]) -> Short
    requires { length list.now ≤ 512 }
    ensures { result ≡ list.now }
{
    let mut responses = Short::empty();
    for response in list {
        responses.push(u16::from(*response));
    }
    responses
}

/// No items.
fn no_items() -> ItemSet
    ensures { result ≡ no_items }
{
    let none = ItemSet::empty();
    let _ = none.count();
    none
}

/// The set at a place; no items past the end of the list.
fn set_at(sets: &[ItemSet], place: usize) -> ItemSet
    ensures { result ≡ get_or sets.now place no_items }
{
    match sets.get(place) {
        Some(set) => *set,
        None => no_items(),
    }
}

/// The sets of the eight bands; no items past the end of the list.
fn filled(sets: &[ItemSet]) -> [ItemSet; 8]
    ensures { result ≡ filled sets.now }
{
    [
        set_at(sets, 0),
        set_at(sets, 1),
        set_at(sets, 2),
        set_at(sets, 3),
        set_at(sets, 4),
        set_at(sets, 5),
        set_at(sets, 6),
        set_at(sets, 7),
    ]
}

/// Adds the eligible set of each band.
fn push_bands(sets: &mut Vec<ItemSet>, eligible: &Bands)
    requires few { eligible.now.count ≤ 8 }
    requires room { vec_len sets.old + eligible.now.count ≤ vec_capacity sets.old }
    ensures sets { sets.new.items ≡ sets.old.items ++ take eligible.now.count eligible.now.sets }
    ensures capacity { vec_capacity sets.new ≡ vec_capacity sets.old }
{
    for band in 0..eligible.count {
        sets.push_reserved(eligible.sets[band as usize]);
    }
}

impl KeptSeat {
    /// The seat before its session is started, with room for the items of a test and for a list.
    pub(crate) fn new(alloc: Global, spec: &Spec) -> Result<KeptSeat, Memory>
        requires some { 0 < length spec.now.prior }
        requires few { length spec.now.prior ≤ 61 }
        ensures { IfOk result (IsSpare spec.now) }
    {
        let items = spec.length() as usize;
        Ok(KeptSeat {
            shown: Vec::with_capacity(alloc, items)?,
            responses: Vec::with_capacity(alloc, items)?,
            sums: KeptSums::of_prior(alloc, spec.prior())?,
            eligible: Vec::with_capacity(alloc, spec.bands().len() + 1)?,
            without: Vec::with_capacity(alloc, 1)?,
            form: None,
            aside: 0,
            proved: false,
            closed: false,
        })
    }

    /// The seat.
    pub(crate) fn seat(&self) -> Seat
        requires { IsShort self.now }
        ensures { result ≡ seat_kept self.now }
    {
        Seat {
            shown: items_of(self.shown.as_slice()),
            responses: responses_of(self.responses.as_slice()),
            eligible: filled(self.eligible.as_slice()),
            aside: all_flags(self.aside),
            without: self.without.first().copied(),
            form: self.form,
            proved: self.proved,
            closed: self.closed,
        }
    }

    /// The sums of the plan's prior and the seat's answers.
    pub(crate) fn sums(&self) -> Sums
        ensures { (b : Tables) (plan : Plan) → HasSums b plan self.now
            → IsSumsOf b plan.prior (answers (seat_kept self.now)) result }
    {
        self.sums.sums()
    }

    /// The place of the seat.
    pub(crate) fn place(&self, spec: &Spec) -> Place
        requires { IsShort self.now }
        ensures { result ≡ seat_place spec.now (seat_kept self.now) }
    {
        if self.closed {
            return Place::Closed;
        }
        let step = self.responses.len();
        if step >= spec.length() as usize {
            return Place::Complete;
        }
        match self.shown.get(step) {
            Some(item) => Place::Waiting {
                step: step as u16,
                item: *item,
                proved: self.proved,
            },
            None => Place::Pending(step as u16),
        }
    }

    /// The response to the item of a step.
    pub(crate) fn response(&self, step: u16) -> Option<u8>
        ensures { result ≡ slice_get self.now.responses.items step }
    {
        self.responses.get(step as usize).copied()
    }

    /// Whether eligibility is set aside in the band of the estimate.
    pub(crate) fn is_aside(&self, spec: &Spec) -> bool
        ensures { (b : Tables) → HasSums b spec.now self.now → result
            ≡ is_aside_in (seat_kept self.now) (band_at b spec.now (seat_kept self.now)
            (length (answers (seat_kept self.now)))) }
    {
        has_flag(self.aside, spec.band(self.sums.sums().mode()))
    }

    /// Notes the sets of a session that starts. Without a list it gives back the room for one.
    pub(crate) fn start(&mut self, eligible: &Bands, without: Option<&Without>)
        requires { TakesStart eligible.now (option_copied without) self.old }
        ensures seat { seat_kept self.new
            ≡ started_seat (seat_kept self.old) eligible.now (option_copied without.entry) }
        ensures room { KeepsRoom self.old self.new }
        ensures sums { self.new.sums ≡ self.old.sums }
    {
        are_sets(&eligible.sets);
        push_bands(&mut self.eligible, eligible);
        match without {
            Some(list) => {
                self.form = Some(list.form);
                self.without.push_reserved(list.items);
            }
            None => self.without = Vec::new(*self.without.allocator()),
        }
    }

    /// Notes an entry of the seat's session.
    pub(crate) fn note(&mut self, bank: &Bank, entry: &Entry)
        requires room { HasRoomFor entry.now self.old }
        requires answered { length self.old.responses.items ≤ length self.old.shown.items }
        requires answer { TakesAnswer bank.now entry.now self.old }
        ensures seat { seat_kept self.new
            ≡ seat_with (session_of entry.now) (seat_kept self.old) entry.now }
        ensures room { KeepsRoom self.old self.new }
        ensures sums { (plan : Plan) → HasSums bank.now plan self.old
            → HasSums bank.now plan self.new }
    {
        match *entry {
            Entry::Started {
                eligible,
                without,
                ..
            } => self.start(&eligible, without.as_ref()),
            Entry::SetAside { band, .. } => self.aside = with_flag(self.aside, band),
            Entry::Served {
                item,
                form,
                proved,
                ..
            } => {
                self.shown.push_reserved(item);
                self.form = Some(form);
                self.proved = proved;
            }
            Entry::Answered { response, .. } => {
                let item = self.shown[self.responses.len()];
                self.sums.add(bank, item, response);
                self.responses.push_reserved(response);
            }
            Entry::Closed { .. } => self.closed = true,
        }
    }
}
