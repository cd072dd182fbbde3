//! Starts and closings.

ghost use Rattle.std.specs.Prelude.{◌≡◌, true, Some, None, IsTrue, IfOk, IfErr, OnOk};
ghost use Rattle.bank_tables.specs.Items.{has, AreWords};
ghost use Rattle.exam_edge.specs.Lent.{IsLent};
ghost use Rattle.exam_edge.specs.Images.{AllImages, AtEachMoment, latest};
ghost use Rattle.history_model.specs.declared.entry.Entry.TheVariants.{Closed};
ghost use Rattle.history_model.specs.Entries.{holder, is_started, list_of};
ghost use Rattle.history_model.specs.Lists.{IsListFor};
ghost use Rattle.history_model.specs.Places.{place};
ghost use Rattle.history_model.specs.Refusals.{is_list, has_list};
ghost use Rattle.answer_journal.specs.Journal.{tells_of, accounts_of, faults_of, identity_of};
ghost use Rattle.exam_office.specs.Files.{StandsSecond};
ghost use Rattle.exam_office.specs.Marks.{history};
ghost use Rattle.exam_office.specs.Writing.{IsSameOffice};
ghost use Rattle.exam_office.specs.Calls.{refuse, add, Calls, FindsStart, FindsStartWithout, FindsClosing, IsWitness, IsStartWithout, IsStartFound, IsStartWithoutFound, IsFreshly, IsFreshlyBy, IsLeft, refused_with};

use crate::begun::Begun;
use crate::office::Office;
use bank_tables::{Bank, ItemSet};
use exam_edge::Disk;
use exam_session::is_list;
use history_model::{Entry, Place, Refusal, Without};
use std::alloc::Global;

/// What is true of a set by its type.
fn is_item_set(set: &ItemSet)
    ensures { AreWords set.now }
{
    let _ = set.count();
}

/// Whether the set is a list for the bank.
fn is_list_for(bank: &Bank, items: &ItemSet) -> bool
    ensures words { result ≡ is_list bank.now items.now }
    ensures list { IsTrue result → IsListFor bank.now (has items.now) }
{
    is_item_set(items);
    is_list(bank, items)
}

impl<'a, D: Disk> Office<'a, D> {
    /// The session of a booking, or the entry that starts one, or why none may be started.
    fn find_start(&self, booking: u64) -> Result<(u32, Option<Entry>), Refusal>
        ensures found { IfOk result (λ start. IsStartFound self.now.bank self.now.plan
            (history self.now.marks) booking start.0 start.1) }
        ensures refused { IfErr result (λ refusal. FindsStart self.now.bank self.now.plan booking
            (history self.now.marks) (refuse refusal)) }
    {
        if let Some(session) = self.book.booked(booking) {
            return Ok((session, None));
        }
        let session = self.book.sessions();
        if session >= self.spec.sessions() {
            return Err(Refusal::SessionsFull(session));
        }
        let eligible = self.book.drawn();
        let entry = Entry::Started {
            session,
            booking,
            eligible,
            without: None,
        };
        Ok((session, Some(entry)))
    }

    /// A session for a booking: the one that it has, else a new one.
    pub fn begin(&mut self, alloc: Global, booking: u64) -> Result<Begun, Refusal>
        ensures same { IsSameOffice self.old self.new }
        // Promise: A writing call first settles an entry in doubt, then tests the history that it
        // finds, and adds no entry or one of its own. Each refusal is the first that applies there;
        // then come out of memory, a full journal and the disk, each with its cause
        // - of `Office::begin`, `Office::begin_without`, `Office::answer`, `Office::commit`,
        //   `Office::close`
        // - by `call` (`Calls`), `same`, `frame`
        ensures call { Calls (FindsStart self.old.bank self.old.plan booking) self.old self.new
            (refused_with result) }
        ensures session { IfOk result (λ begun. holder (history self.new.marks) booking
            ≡ Some begun.session) }
        ensures fresh { IfOk result (λ begun. IsFreshly self.old self.new booking begun.fresh) }
        // Promise: After `Ok` each file that a crash may leave represents the whole history by
        // records of the second version
        // - of `Office::begin`, `Office::begin_without`, `Office::answer`, `Office::commit`,
        //   `Office::close`
        ensures images { OnOk result (IsTrue (tells_of self.old.journal)
            → AllImages (StandsSecond self.old.bank self.old.plan (history self.new.marks))
            (latest (accounts_of self.new.journal))) }
        // Promise: At every moment of a call each file that a crash may leave represents the
        // history before or that with the entry in doubt, or either of them with the entry that the
        // call finds to be added
        // - of `Office::begin`, `Office::begin_without`, `Office::answer`, `Office::commit`,
        //   `Office::close`
        // - by `moments` (`IsLeft`)
        ensures moments { IsTrue (tells_of self.old.journal)
            → AtEachMoment (accounts_of self.old.journal) (accounts_of self.new.journal)
            (IsLeft self.old.bank self.old.plan (FindsStart self.old.bank self.old.plan booking)
            (history self.old.marks) self.old.doubt) }
        ensures frame { IsLent tells_of identity_of faults_of self.old.journal self.new.journal }
    {
        match self.settle() {
            Ok(()) => {}
            Err(refusal) => return Err(refusal),
        }
        match self.find_start(booking) {
            Err(refusal) => Err(refusal),
            Ok((session, None)) => Ok(Begun {
                session,
                fresh: false,
            }),
            Ok((session, Some(entry))) => match self.write(alloc, &entry, None) {
                Ok(()) => Ok(Begun {
                    session,
                    fresh: true,
                }),
                Err(refusal) => Err(refusal),
            },
        }
    }

    /// Whether a session was started with this list of items.
    fn was_started_without(&self, session: u32, items: &ItemSet) -> bool
        requires { is_started (history self.now.marks) session ≡ true }
        ensures { result ≡ has_list items.now (list_of (history self.now.marks) session) }
    {
        let Some(seat) = self.book.seat(session) else {
            unreachable!()
        };
        match seat.without {
            Some(list) => list == *items,
            None => false,
        }
    }

    /// The session of a booking with a list, or the entry that starts one, or why none may be
    /// started.
    fn find_start_without(
        &self,
        booking: u64,
        items: &ItemSet,
        witness: &Result<ItemSet, Refusal>,
    ) -> Result<(u32, Option<Entry>), Refusal>
        requires { IsListFor self.now.bank (has items.now)
            → IsWitness self.now.bank self.now.plan items.now witness.now }
        ensures found { IfOk result (λ start. IsStartWithoutFound self.now.bank self.now.plan
            (history self.now.marks) booking items.now witness.now start.0 start.1) }
        ensures refused { IfErr result (λ refusal. FindsStartWithout self.now.bank self.now.plan
            booking items.now witness.now (history self.now.marks) (refuse refusal)) }
    {
        if let Some(session) = self.book.booked(booking) {
            if self.was_started_without(session, items) {
                return Ok((session, None));
            }
            return Err(Refusal::OtherList(session));
        }
        if !is_list_for(self.bank, items) {
            return Err(Refusal::NoItem(self.bank.items()));
        }
        let session = self.book.sessions();
        if session >= self.spec.sessions() {
            return Err(Refusal::SessionsFull(session));
        }
        let form = match witness {
            Ok(form) => *form,
            Err(refusal) => return Err(*refusal),
        };
        let entry = Entry::Started {
            session,
            booking,
            eligible: self.book.drawn(),
            without: Some(Without {
                items: *items,
                form,
            }),
        };
        Ok((session, Some(entry)))
    }

    /// A session for a booking whose examinee must not get the items of a list: the one that it
    /// has, if that was started with this list, else a new one. `witness` is what a search for a
    /// form without the items found (`seek_witness`); it counts only where a session is to be
    /// started.
    ///
    /// Refused, in this order, with `OtherList` if the booking has a session with another list or
    /// none, with `NoItem` if the list has no items or one that the bank hasn't, with
    /// `SessionsFull`, and with the refusal of the witness.
    pub fn begin_without(
        &mut self,
        alloc: Global,
        booking: u64,
        items: &ItemSet,
        witness: Result<ItemSet, Refusal>,
    ) -> Result<Begun, Refusal>
        requires { IsListFor self.old.bank (has items.now)
            → IsWitness self.old.bank self.old.plan items.now witness }
        ensures same { IsSameOffice self.old self.new }
        // Promise: A booking with a list of items that its examinee must not get has its session
        // only if that was started with the same list. Else it is refused with that session
        // - by `call` (`FindsStartWithout`), `session`
        // Promise: The next refusals of such a booking are of a list that has no items or one that
        // the bank has not, and of the number of sessions. The last ones are why no form without
        // the items is known, and want of memory for the search
        // - by `call` (`FindsStartWithout`)
        // Promise: A session that is started with a list has the list, and the form that the search
        // found
        // - by `call` (`FindsStartWithout`), `session`, `fresh`
        ensures call { Calls
            (FindsStartWithout self.old.bank self.old.plan booking items.now witness) self.old
            self.new (refused_with result) }
        ensures session { IfOk result (λ begun. holder (history self.new.marks) booking
            ≡ Some begun.session) }
        ensures fresh { IfOk result (λ begun. IsFreshlyBy self.old self.new
            (IsStartWithout booking items.now witness) begun.fresh) }
        ensures images { OnOk result (IsTrue (tells_of self.old.journal)
            → AllImages (StandsSecond self.old.bank self.old.plan (history self.new.marks))
            (latest (accounts_of self.new.journal))) }
        ensures moments { IsTrue (tells_of self.old.journal)
            → AtEachMoment (accounts_of self.old.journal) (accounts_of self.new.journal)
            (IsLeft self.old.bank self.old.plan
            (FindsStartWithout self.old.bank self.old.plan booking items.now witness)
            (history self.old.marks) self.old.doubt) }
        ensures frame { IsLent tells_of identity_of faults_of self.old.journal self.new.journal }
    {
        match self.settle() {
            Ok(()) => {}
            Err(refusal) => return Err(refusal),
        }
        match self.find_start_without(booking, items, &witness) {
            Err(refusal) => Err(refusal),
            Ok((session, None)) => Ok(Begun {
                session,
                fresh: false,
            }),
            Ok((session, Some(entry))) => match self.write(alloc, &entry, None) {
                Ok(()) => Ok(Begun {
                    session,
                    fresh: true,
                }),
                Err(refusal) => Err(refusal),
            },
        }
    }

    /// Why a session may not be closed; none where it may.
    fn find_closing(&self, session: u32, booking: Option<u64>) -> Result<(), Refusal>
        ensures found { OnOk result (FindsClosing self.now.bank self.now.plan session booking
            (history self.now.marks) (add (Closed session))) }
        ensures refused { IfErr result (λ refusal. FindsClosing self.now.bank self.now.plan
            session booking (history self.now.marks) (refuse refusal)) }
    {
        let Some(place) = self.book.place(session) else {
            return Err(Refusal::NoSession(self.book.sessions()));
        };
        if self.is_of_another(session, booking) {
            return Err(Refusal::OtherBooking);
        }
        match place {
            Place::Pending(_) | Place::Waiting { .. } => Ok(()),
            Place::Complete | Place::Closed => Err(Refusal::IsClosed(place)),
        }
    }

    /// Closes a session before its end.
    ///
    /// Refused, in this order, with `NoSession`, with `OtherBooking` if a booking is named and the
    /// session is not that booking's, and with `IsClosed`.
    pub fn close(
        &mut self,
        alloc: Global,
        session: u32,
        booking: Option<u64>,
    ) -> Result<Place, Refusal>
        ensures same { IsSameOffice self.old self.new }
        ensures call { Calls (FindsClosing self.old.bank self.old.plan session booking) self.old
            self.new (refused_with result) }
        ensures at { IfOk result (λ at. place self.new.plan (history self.new.marks) session
            ≡ Some at) }
        ensures images { OnOk result (IsTrue (tells_of self.old.journal)
            → AllImages (StandsSecond self.old.bank self.old.plan (history self.new.marks))
            (latest (accounts_of self.new.journal))) }
        ensures moments { IsTrue (tells_of self.old.journal)
            → AtEachMoment (accounts_of self.old.journal) (accounts_of self.new.journal)
            (IsLeft self.old.bank self.old.plan
            (FindsClosing self.old.bank self.old.plan session booking)
            (history self.old.marks) self.old.doubt) }
        ensures frame { IsLent tells_of identity_of faults_of self.old.journal self.new.journal }
    {
        match self.settle() {
            Ok(()) => {}
            Err(refusal) => return Err(refusal),
        }
        match self.find_closing(session, booking) {
            Err(refusal) => Err(refusal),
            Ok(()) => {
                let entry = Entry::Closed { session };
                match self.write(alloc, &entry, None) {
                    Ok(()) => self.look(session),
                    Err(refusal) => Err(refusal),
                }
            }
        }
    }
}
