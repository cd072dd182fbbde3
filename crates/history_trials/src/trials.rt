//! Books, the records that they take, and questions about them.

ghost use Rattle.form_model.specs.Validity.{IsPlanFor};

use crate::equal::expect_equal;
use crate::worked::{Line, Shape, items_of, record, sets_of};
use bank_tables::{Bank, List, Short};
use constraint_model::{Draft, Spec};
use exam_records::Record;
use exam_session::{Book, Counters, Illegal, Place};
use form_model::Rate;
use history_model::Counts;
use history_model::laws::may_is_legal;
use serving_model::Seat;
use std::alloc::Global;
use std::process::Abort;
use trial_cases::{bank_a, draft_a, draft_of, item, rows_of};

/// A bank and its plan.
#[derive(Clone, Copy)]
pub(crate) enum Setting {
    /// Bank A and its worked plan, in which each item is always eligible. A step has this budget of
    /// nodes.
    Worked(u32),
    /// Bank A with other log-likelihoods of response 1 to item 5, which speak for the third point.
    /// The worked plan with two bands, of which the second begins at that point; of 65,535 sessions
    /// one is to see an item. A step has a budget of one node.
    TwoBands,
    /// Three items, of which response 1 to one of the first two moves the estimate from the first
    /// point to the second; a test of two items, with a band for each point; else as before.
    BandOfPoints,
    /// A bank of one item, and a test of it for so many sessions. Each session is started, served
    /// its item and answered.
    One(u32),
}

/// A question about a book, with its expected answer.
#[derive(Clone, Copy)]
pub(crate) enum Question {
    /// Why this record may not follow; None where it may.
    Reason(Line, Option<Illegal>),
    Entries(u64),
    Sessions(u32),
    Finished(u32),
    /// The session of a booking.
    Booked(u64, Option<u32>),
    /// The place of a session.
    At(u32, Option<Place>),
    /// The seat of a session. The session is not closed, and its eligibility is not set aside. The
    /// fields are: the two items shown, the response to the first, the eligible items as bits, and
    /// the form as bits. The form is proved best.
    Seat(u32, [u16; 2], u16, u8, u8),
    /// The exposure counts of an item; None where there is no such item.
    Exposure(u16, Option<Counts>),
    /// In a band the number of finished sessions that visited it, and alpha and eps of the first
    /// items.
    Band(u8, u32, &'static [(u32, u32)]),
    /// Whether eligibility is set aside for a session in the band of its estimate.
    IsAside(u32, bool),
}

/// The records that a book takes, and what it is asked then.
pub(crate) type Trial = (Setting, &'static [Line], &'static [Question]);

/// Takes a record that has to follow.
fn follow<R: Abort>(rt: &R, alloc: Global, book: &mut Book, rec: &Record) {
    book.reserve(alloc).expect(rt, "room");
    if let Err(_) = book.judge(rec) {
        panic!(rt; "refused");
    }
    may_is_legal();
    book.apply(rec.entry);
}

/// The same of the record of a line.
fn take<R: Abort>(rt: &R, alloc: Global, book: &mut Book, line: &Line) {
    follow(rt, alloc, book, &record(rt, alloc, line));
}

/// Takes records each of which has to follow.
fn take_all<R: Abort>(rt: &R, alloc: Global, book: &mut Book, lines: &[Line]) {
    for line in lines {
        take(rt, alloc, book, line);
    }
}

/// The booking of a session: all are different, and higher and lower ones alternate.
fn booking_of(session: u32) -> u64 {
    u64::from(session) * 7_919 % 10_007
}

/// The book takes a whole session of one item: its start, its serving and its answer.
fn take_session<R: Abort>(rt: &R, alloc: Global, book: &mut Book, session: u32) {
    let booking = booking_of(session);
    take(rt, alloc, book, &Line::Started(session, booking, 1));
    take(
        rt,
        alloc,
        book,
        &Line::Served(session, (0, 0), 1, Shape::Whole),
    );
    take(
        rt,
        alloc,
        book,
        &Line::Answered(session, (0, 1), Shape::NoTree),
    );
}

fn take_sessions<R: Abort>(rt: &R, alloc: Global, book: &mut Book, sessions: u32) {
    for session in 0..sessions {
        take_session(rt, alloc, book, session);
    }
}

/// The exposure counts of an item; None where there is no such item.
fn counts_of(counters: &Counters, item: u16) -> Option<Counts> {
    if item < counters.items() {
        Some(counters.read(item))
    } else {
        None
    }
}

/// The counters have so many sessions, and these counts of the first items.
fn expect_counts<R: Abort>(rt: &R, counters: &Counters, visited: u32, counts: &[(u32, u32)]) {
    expect_equal(rt, &counters.finished(), &visited);
    let mut item = 0;
    for (alpha, eps) in counts {
        let counts = Counts {
            alpha: *alpha,
            eps: *eps,
        };
        expect_equal(rt, &counts_of(counters, item), &Some(counts));
        item = item.saturating_add(1);
    }
}

fn expect_band<R: Abort>(rt: &R, book: &Book, band: u8, visited: u32, counts: &[(u32, u32)]) {
    if usize::from(band) < book.spec().bands().len() + 1 {
        expect_counts(rt, book.band_counters(band), visited, counts);
    } else {
        panic!(rt; "no band");
    }
}

/// A short list of these numbers.
fn short(numbers: &[u16]) -> Short {
    let mut list = Short::empty();
    for number in numbers {
        if list.len() < 512 {
            list.push(*number);
        }
    }
    list
}

fn seat_of(shown: &[u16], response: u16, eligible: u8, form: u8) -> Seat {
    Seat {
        shown: short(shown),
        responses: short(&[response]),
        eligible: sets_of([eligible, 0]),
        aside: [false; 8],
        without: None,
        form: Some(items_of(form)),
        proved: true,
        closed: false,
    }
}

fn expect_seat<R: Abort>(rt: &R, book: &Book, session: u32, seat: Seat) {
    expect_equal(rt, &book.seat(session), &Some(seat));
}

/// The record of a line may not follow for this reason; with None it may.
fn expect_reason<R: Abort>(
    rt: &R,
    alloc: Global,
    book: &Book,
    line: &Line,
    reason: &Option<Illegal>,
) {
    let rec = record(rt, alloc, line);
    expect_equal(rt, &book.judge(&rec).err(), reason);
}

fn expect_answer<R: Abort>(rt: &R, alloc: Global, book: &Book, question: &Question) {
    match question {
        Question::Reason(line, reason) => expect_reason(rt, alloc, book, line, reason),
        Question::Entries(number) => expect_equal(rt, &book.entries(), number),
        Question::Sessions(number) => expect_equal(rt, &book.sessions(), number),
        Question::Finished(number) => expect_equal(rt, &book.counters().finished(), number),
        Question::Booked(booking, session) => expect_equal(rt, &book.booked(*booking), session),
        Question::At(session, place) => expect_equal(rt, &book.place(*session), place),
        Question::Seat(session, shown, response, eligible, form) => {
            expect_seat(
                rt,
                book,
                *session,
                seat_of(shown, *response, *eligible, *form),
            );
        }
        Question::Exposure(item, counts) => {
            expect_equal(rt, &counts_of(book.counters(), *item), counts);
        }
        Question::Band(band, visited, counts) => expect_band(rt, book, *band, *visited, counts),
        Question::IsAside(session, aside) => expect_equal(rt, &book.is_aside(*session), aside),
    }
}

fn expect_answers<R: Abort>(rt: &R, alloc: Global, book: &Book, questions: &[Question]) {
    for question in questions {
        expect_answer(rt, alloc, book, question);
    }
}

/// The book takes the sessions of its setting, then the records. Then it has the expected answers.
fn expect_trial_of_book<R: Abort>(rt: &R, alloc: Global, book: &mut Book, trial: &Trial) {
    let (setting, lines, questions) = trial;
    if let Setting::One(sessions) = setting {
        take_sessions(rt, alloc, book, *sessions);
    }
    take_all(rt, alloc, book, lines);
    expect_answers(rt, alloc, book, questions);
}

/// The same of a new book. What owns a bank is a function of its own, since one that also makes a
/// book of it is dear to prove.
fn expect_trial_in<R: Abort>(rt: &R, alloc: Global, bank: &Bank, spec: &Spec, trial: &Trial)
    requires { IsPlanFor bank.now spec.now }
{
    match Book::new(alloc, bank, spec) {
        Ok(book) => {
            let mut book = book;
            expect_trial_of_book(rt, alloc, &mut book, trial);
        }
        Err(_) => panic!(rt; "out of memory"),
    }
}

/// The same over a bank and the plan of a draft.
fn expect_trial_over<R: Abort>(rt: &R, alloc: Global, bank: &Bank, draft: Draft, trial: &Trial) {
    match Spec::of(alloc, bank, draft) {
        Ok(spec) => expect_trial_in(rt, alloc, bank, &spec, trial),
        Err(_) => panic!(rt; "no plan"),
    }
}

/// A bank of one item of two categories.
fn bank_of_one<R: Abort>(rt: &R, alloc: Global) -> Bank {
    let made = item(alloc, 0, &[], &[1], &[-1, -1]).expect(rt, "an item");
    let items = vec![in alloc; made].expect(rt, "items");
    Bank::of(alloc, rows_of(1, 0, items)).expect(rt, "a bank")
}

/// A bank of items without stimulus, by their information and log-likelihoods.
fn bank_of_items<R: Abort>(rt: &R, alloc: Global, grid: u32, lines: &[(&[u32], &[i32])]) -> Bank {
    let mut items = Vec::new(alloc);
    for (info, loglik) in lines {
        let made = item(alloc, 0, &[], info, loglik).expect(rt, "an item");
        items.push(made).expect(rt, "items");
    }
    Bank::of(alloc, rows_of(grid, 0, items)).expect(rt, "a bank")
}

/// The same log-likelihood of each response at each of three points.
const FLAT: &[i32] = &[-7, -7, -7, -7, -7, -7];

/// Bank A, with other log-likelihoods of response 1 to item 5.
const LINES_OF_TWO_BANDS: &[(&[u32], &[i32])] = &[
    (&[9, 5, 1], FLAT),
    (&[7, 8, 2], FLAT),
    (&[4, 9, 3], &[-7, -7, -7, -30, -15, -1]),
    (&[2, 6, 8], FLAT),
    (&[1, 4, 9], &[0, -1, -20, -7, -7, -7]),
    (&[3, 7, 5], &[-7, -7, -7, -30, -15, -1]),
];

/// Three items and two points.
const LINES_OF_POINTS: &[(&[u32], &[i32])] = &[
    (&[9, 1], &[-1, -1, -9, -1]),
    (&[8, 5], &[-1, -1, -9, -1]),
    (&[7, 4], &[-1, -1, -1, -1]),
];

fn bank_for<R: Abort>(rt: &R, alloc: Global, setting: Setting) -> Bank {
    match setting {
        Setting::Worked(_) => bank_a(alloc).expect(rt, "bank A"),
        Setting::TwoBands => bank_of_items(rt, alloc, 3, LINES_OF_TWO_BANDS),
        Setting::BandOfPoints => bank_of_items(rt, alloc, 2, LINES_OF_POINTS),
        Setting::One(_) => bank_of_one(rt, alloc),
    }
}

fn worked_draft<R: Abort>(rt: &R, alloc: Global, budget: u32) -> Draft {
    let mut draft = draft_a(alloc).expect(rt, "a draft");
    draft.budget = budget;
    draft
}

/// A test of two items, with a budget of one node.
fn draft_of_points<R: Abort>(rt: &R, alloc: Global) -> Draft {
    let mut draft = draft_of(alloc, 2, &[0, -1], &[], &[]).expect(rt, "a draft");
    draft.budget = 1;
    draft
}

/// The draft with two bands, of which the second begins at a point. Of 65,535 sessions one is to
/// see an item.
fn in_bands<R: Abort>(rt: &R, alloc: Global, mut draft: Draft, point: u8) -> Draft {
    draft.bands = List::of([point].to_vec(alloc).expect(rt, "bands"));
    draft.rate = Rate {
        num: 1,
        den: 65_535,
    };
    draft
}

/// A test of one item, for so many sessions.
fn draft_of_one<R: Abort>(rt: &R, alloc: Global, sessions: u32) -> Draft {
    let mut draft = draft_of(alloc, 1, &[0], &[], &[]).expect(rt, "a draft");
    draft.sessions = sessions;
    draft
}

fn draft_for<R: Abort>(rt: &R, alloc: Global, setting: Setting) -> Draft {
    match setting {
        Setting::Worked(budget) => worked_draft(rt, alloc, budget),
        Setting::TwoBands => in_bands(rt, alloc, worked_draft(rt, alloc, 1), 2),
        Setting::BandOfPoints => in_bands(rt, alloc, draft_of_points(rt, alloc), 1),
        Setting::One(sessions) => draft_of_one(rt, alloc, sessions),
    }
}

/// A new book has the expected answers.
pub(crate) fn expect_trial<R: Abort>(rt: &R, alloc: Global, trial: &Trial) {
    let (setting, _, _) = trial;
    let bank = bank_for(rt, alloc, *setting);
    expect_trial_over(rt, alloc, &bank, draft_for(rt, alloc, *setting), trial);
}
