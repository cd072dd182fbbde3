//! What the definitions imply, for every bank, plan, history and record.

ghost use Rattle.history_model.specs.Ahead.{AheadStays, AnsweredThere};
ghost use Rattle.history_model.specs.Lifting.{LiftedMayFollow};
ghost use Rattle.history_model.specs.Laws.{MayIsLegal, BackedIsLegalRun, OneProblem, OneReason, NoReasonIfMay, EachIsLegal, SessionsAreNumbered, SessionsAreFew, FinishedAreFew, StepsAreInOrder, SeatBeforeStart, SeatGoesOn, SeatIsSeat, EligibleIsOfBank, OnlyBandsOfPlan, AsideIsOfEstimate, PlaceIsOfSeat, PendingIsOfSeat, CountsGoOn, BandCountsGoOn, VisitedGoesOn, FinishedGoesOn, OneBandIsAll, LastFormStays, LastFormStaysInBand, CompleteMeets, FormOnceAside, FormWhereAside, HolderStays, ResponseStays, ClosedStays, SessionsGrow, BeginningIsLegal, CompleteStays, ProblemStays, SameProblem, EachMayFollow, ListHasForm, NoneShownOfList, NoneServedOfList, NoneOpenOfList, ListIsLegal, ListStays, ListByWords, PlaceHasList, NamedHasBooking};

/// What may follow, by its tree, is legal: a form marked proved is best, and eligibility is set
/// aside for the stated cause.
// Promise: What may follow a history, its proof tree included, is legal: a form marked proved is
// best, and eligibility is set aside only for the stated cause
// - of `laws::may_is_legal`, `laws::backed_is_legal_run`
// - by `MayIsLegal`, `BackedIsLegalRun`
pub fn may_is_legal()
    ensures { MayIsLegal }
{}

/// Records each of which may follow those before it are a legal run.
pub fn backed_is_legal_run()
    ensures { BackedIsLegalRun }
{}

/// A session whose step is to be served has one problem.
// Promise: A session that waits for an item has one problem
// - by `OneProblem`
pub fn one_problem()
    ensures { OneProblem }
{}

/// A record has at most one reason why it may not follow.
// Promise: A record has at most one reason why it may not follow, and none if it may
// - of `laws::one_reason`, `laws::no_reason_if_may`
// - by `OneReason`, `NoReasonIfMay`
pub fn one_reason()
    ensures { OneReason }
{}

/// A record that may follow has none.
pub fn no_reason_if_may()
    ensures { NoReasonIfMay }
{}

/// The entries before an entry of a legal run are a legal run, and the entry is legal after them.
// Promise: Each entry of a legal run is legal after those before it
// - by `EachIsLegal`
pub fn each_is_legal()
    ensures { EachIsLegal }
{}

/// The sessions of a legal run are numbered from 0 to their number less 1.
// Promise: The sessions of a legal run are numbered from 0, they are at most the plan's limit, and
// its steps come in order
// - of `laws::sessions_are_numbered`, `laws::sessions_are_few`, `laws::finished_are_few`,
//   `laws::steps_are_in_order`
// - by `SessionsAreNumbered`, `StepsAreInOrder`
pub fn sessions_are_numbered()
    ensures { SessionsAreNumbered }
{}

/// They are at most as many as the plan allows.
pub fn sessions_are_few()
    ensures { SessionsAreFew }
{}

/// At most as many sessions are finished as were started.
pub fn finished_are_few()
    ensures { FinishedAreFew }
{}

/// The Served and the Answered entries of a session of a legal run are in the order of their steps,
/// from 0 on.
pub fn steps_are_in_order()
    ensures { StepsAreInOrder }
{}

/// A session that isn't started has an empty seat.
pub fn seat_before_start()
    ensures { SeatBeforeStart }
{}

/// One legal entry more changes the seat of its session by its content, and no other seat.
pub fn seat_goes_on()
    ensures { SeatGoesOn }
{}

/// Each seat of a legal run keeps what a caller knows of one.
// Promise: Each seat keeps what is known of one; a session's place is that of its seat; an entry
// changes the seat of its session as stated
// - of `laws::seat_is_seat`, `laws::place_is_of_seat`, `laws::pending_is_of_seat`,
//   `laws::seat_goes_on`, `laws::seat_before_start`, `laws::eligible_is_of_bank`
// - by `SeatIsSeat`, `PlaceIsOfSeat`, `SeatGoesOn`
pub fn seat_is_seat()
    ensures { SeatIsSeat }
{}

/// The eligible items of each session of a legal run are items of the bank.
pub fn eligible_is_of_bank()
    ensures { EligibleIsOfBank }
{}

/// In a band that the plan hasn't no item is eligible, and eligibility isn't set aside.
pub fn only_bands_of_plan()
    ensures { OnlyBandsOfPlan }
{}

/// Eligibility is set aside at the step that the session has come to, in the band of the estimate
/// at that step.
// Promise: Eligibility is set aside at the session's step and in the band of the estimate at that
// step. In a band that the plan has not, no item is eligible and eligibility is not set aside
// - of `laws::aside_is_of_estimate`, `laws::only_bands_of_plan`
// - by `AsideIsOfEstimate`, `OnlyBandsOfPlan`
pub fn aside_is_of_estimate()
    ensures { AsideIsOfEstimate }
{}

/// The place of a session of a legal run is that of its seat.
pub fn place_is_of_seat()
    ensures { PlaceIsOfSeat }
{}

/// One whose step is to be served has a seat that waits for an item.
pub fn pending_is_of_seat()
    ensures { PendingIsOfSeat }
{}

/// One legal entry more changes the exposure counts only where it finishes its session, and then by
/// that session's seat.
// Promise: An entry changes the exposure counts exactly where it ends a session, by that session's
// seat; so it is in each band, and with the sessions that visited it
// - of `laws::counts_go_on`, `laws::finished_goes_on`, `laws::band_counts_go_on`,
//   `laws::visited_goes_on`
// - by `CountsGoOn`, `FinishedGoesOn`, `BandCountsGoOn`, `VisitedGoesOn`
pub fn counts_go_on()
    ensures { CountsGoOn }
{}

/// So it is in each band.
pub fn band_counts_go_on()
    ensures { BandCountsGoOn }
{}

/// So it is with the number of finished sessions that visited a band.
pub fn visited_goes_on()
    ensures { VisitedGoesOn }
{}

/// So it is with the number of finished sessions.
pub fn finished_goes_on()
    ensures { FinishedGoesOn }
{}

/// Without points there is one band, and the counts there are those in all.
// Promise: Where a plan has no points there is one band: its counts are those in all, and each
// finished session visited it
// - by `OneBandIsAll`
pub fn one_band_is_all()
    ensures { OneBandIsAll }
{}

/// The form last served from, or that of the list before the first item, stays a form of the
/// problem that the session has once eligibility is set aside in the band of its estimate: so a
/// session that has begun never lacks one then.
// Promise: Along a legal run the form last served from, or that of the list before the first item,
// stays a form of the problem that the session has once eligibility is set aside, at any estimate
// - by `LastFormStays`
pub fn last_form_stays()
    ensures { LastFormStays }
{}

/// It stays a form of the session's problem as it is, where the estimate is in the band of the step
/// before.
// Promise: While the estimate is in the band of the step before, it stays a form of the session's
// problem as it is
// - by `LastFormStaysInBand`
pub fn last_form_stays_in_band()
    ensures { LastFormStaysInBand }
{}

/// The items shown in a complete session of a legal run meet the plan.
// Promise: The items shown in a complete session of a legal run meet the plan
// - by `CompleteMeets`
pub fn complete_meets()
    ensures { CompleteMeets }
{}

/// With eligibility set aside in the band of the estimate, the form last served from is a form of
/// the session's problem; before the first item, that of the list is one, or without a list each
/// set that meets the plan.
// Promise: Once eligibility is set aside, a session always has a form. The form before is one.
// Before the first item the form of the list is one, or, without a list, each set that meets the
// plan
// - of `laws::form_once_aside`, `laws::form_where_aside`
// - by `FormOnceAside`, `FormWhereAside`
pub fn form_once_aside()
    ensures { FormOnceAside }
{}

/// So a session for which eligibility is set aside in the band of its estimate never lacks a form.
pub fn form_where_aside()
    ensures { FormWhereAside }
{}

/// A session with a list never lacks a form once eligibility is set aside, at step 0 too: its seat
/// has one.
// Promise: A session of a legal run that begins with a list of items that its examinee must not get
// has a form once eligibility is set aside, at step 0 too. The list has items, all of the bank, and
// a form of the whole problem without them. The session keeps its list in each longer history
// - of `laws::list_has_form`, `laws::list_is_legal`, `laws::list_stays`
// - by `ListHasForm`, `ListIsLegal`, `ListStays`
pub fn list_has_form()
    ensures { ListHasForm }
{}

/// No item shown in a session is on its list of items that its examinee must not get.
// Promise: No item of its list is shown in a session of a legal run, nor is one in a form that an
// item is served from, whether eligibility is set aside or not
// - of `laws::none_shown_of_list`, `laws::none_served_of_list`
// - by `NoneShownOfList`, `NoneServedOfList`
pub fn none_shown_of_list()
    ensures { NoneShownOfList }
{}

/// No form that an item is served from has an item of the list, also where eligibility is set
/// aside.
pub fn none_served_of_list()
    ensures { NoneServedOfList }
{}

/// An item of the list doesn't count as eligible for the session.
// Promise: An item of its list does not count as eligible for a session, in any band and in all
// - by `NoneOpenOfList`
pub fn none_open_of_list()
    ensures { NoneOpenOfList }
{}

/// The list of a session of a legal run has items, all of the bank, and a form of the whole problem
/// without them.
pub fn list_is_legal()
    ensures { ListIsLegal }
{}

/// A session keeps its list in every longer history.
pub fn list_stays()
    ensures { ListStays }
{}

/// The test of the words of a set is whether the set is a list for the bank: it has items, all of
/// the bank.
pub fn list_by_words()
    ensures { ListByWords }
{}

/// A place as the reply to a request with a list is that of the booking's session, which was
/// started with that list.
// Promise: A place as the reply to a request with a list is that of the booking's session, which
// was started with that list. The test of the words of a set is whether the set is a list for the
// bank
// - of `laws::place_has_list`, `laws::list_by_words`
// - by `PlaceHasList`, `ListByWords`
pub fn place_has_list()
    ensures { PlaceHasList }
{}

/// A booking keeps its session in every longer history.
// Promise: In a longer history a booking keeps its session, an answered step its response, a closed
// or complete session its end; the number of sessions never falls; a beginning of a legal run is
// one
// - of `laws::holder_stays`, `laws::response_stays`, `laws::closed_stays`, `laws::complete_stays`,
//   `laws::sessions_grow`, `laws::beginning_is_legal`
// - by `HolderStays`, `ResponseStays`, `ClosedStays`, `CompleteStays`
pub fn holder_stays()
    ensures { HolderStays }
{}

/// An answered step keeps its response.
pub fn response_stays()
    ensures { ResponseStays }
{}

/// A closed session stays closed.
pub fn closed_stays()
    ensures { ClosedStays }
{}

/// The number of sessions never falls.
pub fn sessions_grow()
    ensures { SessionsGrow }
{}

/// The beginning of a legal run is one.
pub fn beginning_is_legal()
    ensures { BeginningIsLegal }
{}

/// A complete session stays complete along a legal run.
pub fn complete_stays()
    ensures { CompleteStays }
{}

/// While a session waits for the item of one step, with eligibility set aside or not as before in
/// the band of its estimate, its problem stays the same, whatever is done in other sessions.
// Promise: While a session waits for the item of one step, its problem stays the same, whatever is
// done in other sessions
// - of `laws::problem_stays`, `laws::same_problem`
// - by `ProblemStays`, `SameProblem`
pub fn problem_stays()
    ensures { ProblemStays }
{}

/// Two problems of one step of a session, with the same flag, are one.
pub fn same_problem()
    ensures { SameProblem }
{}

/// Each record of a backed run may follow those before it.
// Promise: Each record of a backed run may follow those before it
// - by `EachMayFollow`
pub fn each_may_follow()
    ensures { EachMayFollow }
{}

/// A record of the first version of the journal that is lifted may follow wherever the old one may.
// Promise: A record of the first version of the journal that is lifted may follow wherever the old
// one may
// - by `LiftedMayFollow`
pub fn lifted_may_follow()
    ensures { LiftedMayFollow }
{}

/// A problem that was made before an answer came is the session's problem once that answer is
/// recorded, whatever was done in other sessions meanwhile, if eligibility is set aside in its band
/// or not as it was then.
pub fn ahead_stays()
    // Promise: Once a session has a response recorded and is to be served at the next step, the
    // problem that was made of that response before it came is the session's problem. Whatever
    // other sessions did does not matter, if eligibility is set aside in its band exactly where it
    // is in that problem
    // - by the clause (`AheadStays`, `IsAhead`)
    ensures { AheadStays }
{}

/// The response of an answer in a legal run is the one that is recorded for its step.
pub fn answered_there()
    // Promise: The response of an answer in a legal run is the one recorded for its step
    // - by the clause (`AnsweredThere`)
    ensures { AnsweredThere }
{}

/// An answer or a closing that names a booking, and is not refused, is of the session that was
/// started for this booking.
pub fn named_has_booking()
    // Promise: An answer or a closing that names a booking, and is not refused, is of the session
    // that was started for this booking. This holds after every history, legal or not
    // - by the clause (`NamedHasBooking`)
    ensures { NamedHasBooking }
{}
