//! Answers, and the place of a session.

ghost use Rattle.std.specs.Prelude.{◌≡◌, Some, None, IsTrue, IfOk, IfErr, OnOk};
ghost use Rattle.exam_edge.specs.Lent.{IsLent};
ghost use Rattle.exam_edge.specs.Images.{AllImages, AtEachMoment, latest};
ghost use Rattle.history_model.specs.Places.{place};
ghost use Rattle.history_model.specs.declared.request.Request.TheVariants.{Answer, Look};
ghost use Rattle.answer_journal.specs.Journal.{tells_of, accounts_of, faults_of, identity_of};
ghost use Rattle.exam_office.specs.Files.{StandsSecond};
ghost use Rattle.exam_office.specs.Marks.{history};
ghost use Rattle.history_model.specs.Refusals.{is_of_another, refusal_of};
ghost use Rattle.exam_office.specs.Writing.{IsSameOffice};
ghost use Rattle.exam_office.specs.Calls.{Calls, FindsAnswer, IsLeft, refused_with, IsAnswerFound};

use crate::office::Office;
use exam_edge::Disk;
use history_model::{Entry, Place, Refusal};
use std::alloc::Global;

impl<'a, D: Disk> Office<'a, D> {
    /// The place of a session.
    pub fn look(&self, session: u32) -> Result<Place, Refusal>
        // Promise: Where a session is, its problem, the exposure counts and the summary are those
        // of the history
        // - of `Office::look`, `Office::problem`, `Office::exposure`, `Office::summary`
        // - by `at`, `refused`, `problem`, `well_made`, `none`, `exposure`, `memory`
        ensures at { IfOk result (λ at. place self.now.plan (history self.now.marks) session
            ≡ Some at) }
        ensures refused { IfErr result (λ refusal. refusal_of self.now.bank self.now.plan
            (history self.now.marks) (Look session) ≡ Some refusal) }
    {
        match self.book.place(session) {
            Some(place) => Ok(place),
            None => Err(Refusal::NoSession(self.book.sessions())),
        }
    }

    /// Whether the session is not that of the booking that a request names, if it names one.
    pub(crate) fn is_of_another(&self, session: u32, booking: Option<u64>) -> bool
        ensures { result ≡ is_of_another (history self.now.marks) session booking }
    {
        let Some(booking) = booking else {
            return false;
        };
        match self.book.booked(booking) {
            Some(other) => other != session,
            None => true,
        }
    }

    /// Whether an answer is recorded already, or why it is refused.
    fn find_answer(
        &self,
        session: u32,
        step: u16,
        response: u8,
        booking: Option<u64>,
    ) -> Result<bool, Refusal>
        ensures found { IfOk result (λ is_recorded. IsAnswerFound self.now.bank self.now.plan
            (history self.now.marks) session step response booking is_recorded) }
        ensures refused { IfErr result (λ refusal. refusal_of self.now.bank self.now.plan
            (history self.now.marks) (Answer session step response booking) ≡ Some refusal) }
    {
        let Some(place) = self.book.place(session) else {
            return Err(Refusal::NoSession(self.book.sessions()));
        };
        if self.is_of_another(session, booking) {
            return Err(Refusal::OtherBooking);
        }
        if let Some(given) = self.book.recorded(session, step) {
            if given == response {
                return Ok(true);
            }
            return Err(Refusal::Other(given));
        }
        match place {
            Place::Pending(at) => Err(Refusal::WrongStep(at)),
            Place::Waiting { step: at, item, .. } => {
                if at != step {
                    return Err(Refusal::WrongStep(at));
                }
                let categories = self.bank.categories(item);
                if response < categories {
                    Ok(false)
                } else {
                    Err(Refusal::BadResponse(categories))
                }
            }
            Place::Complete | Place::Closed => Err(Refusal::IsClosed(place)),
        }
    }

    /// Records an answer. One that is recorded already adds nothing, and gives the place of now.
    ///
    /// Refused, in this order, with `NoSession`, with `OtherBooking` if a booking is named and the
    /// session is not that booking's, with `Other` if the step has another response, and with
    /// `IsClosed`, `WrongStep` or `BadResponse`.
    pub fn answer(
        &mut self,
        alloc: Global,
        session: u32,
        step: u16,
        response: u8,
        booking: Option<u64>,
    ) -> Result<Place, Refusal>
        ensures same { IsSameOffice self.old self.new }
        // Promise: An answer or a closing that names a booking is refused with `OtherBooking`
        // exactly where its session is there and is not that of this booking. So this refusal comes
        // before that of the step, of a response and of a closed session. The history is the one
        // that the call finds once the entry in doubt is resolved, and the call adds no entry of
        // its own
        // - of `Office::answer`, `Office::close`
        // - by `call` (`FindsAnswer`, `FindsClosing`, `is_of_another`, `unless_other`)
        ensures call { Calls
            (FindsAnswer self.old.bank self.old.plan session step response booking) self.old
            self.new (refused_with result) }
        // Promise: The place in the reply is that of the history after the call. A booking gives
        // its session, and `fresh` is true exactly where this call started it
        // - of `Office::answer`, `Office::commit`, `Office::close`, `Office::begin`,
        //   `Office::begin_without`
        // - by `at`, `session`, `fresh`
        ensures at { IfOk result (λ at. place self.new.plan (history self.new.marks) session
            ≡ Some at) }
        ensures images { OnOk result (IsTrue (tells_of self.old.journal)
            → AllImages (StandsSecond self.old.bank self.old.plan (history self.new.marks))
            (latest (accounts_of self.new.journal))) }
        ensures moments { IsTrue (tells_of self.old.journal)
            → AtEachMoment (accounts_of self.old.journal) (accounts_of self.new.journal)
            (IsLeft self.old.bank self.old.plan
            (FindsAnswer self.old.bank self.old.plan session step response booking)
            (history self.old.marks) self.old.doubt) }
        ensures frame { IsLent tells_of identity_of faults_of self.old.journal self.new.journal }
    {
        match self.settle() {
            Ok(()) => {}
            Err(refusal) => return Err(refusal),
        }
        match self.find_answer(session, step, response, booking) {
            Err(refusal) => Err(refusal),
            Ok(true) => self.look(session),
            Ok(false) => {
                let entry = Entry::Answered {
                    session,
                    step,
                    response,
                };
                match self.write(alloc, &entry, None) {
                    Ok(()) => self.look(session),
                    Err(refusal) => Err(refusal),
                }
            }
        }
    }
}
