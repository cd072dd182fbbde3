//! Books of examinations: each reason why a record may not follow, the counts of two sessions, and
//! ten thousand sessions in one book.

use crate::trials::{Question, Setting, Trial, expect_trial};
use crate::worked::{Line, Shape};
use certificate_model::{Reason, Verdict};
use constraint_model::Breach;
use exam_session::{Illegal, Place};
use history_model::Counts;

/// The worked plan.
const WORKED: Setting = Setting::Worked(2_001);

/// The eligible items are all of them.
const EACH: u8 = 0x3f;

/// Session 0 is started.
const BEGUN: &[Line] = &[Line::Started(0, 70, EACH)];

/// The same, and its first item is served.
const SERVED: &[Line] = &[
    Line::Started(0, 70, EACH),
    Line::Served(0, (0, 2), 0x0e, Shape::FirstBest),
];

/// Session 0 is started, and eligibility is set aside.
const ASIDE: &[Line] = &[
    Line::Started(0, 70, EACH),
    Line::SetAside(0, (0, 0), Shape::Open),
];

/// Session 0 is started and closed.
const OVER: &[Line] = &[Line::Started(0, 70, EACH), Line::Closed(0)];

/// What session 0 waits for after its first serving.
const WAITING: Place = Place::Waiting {
    step: 0,
    item: 2,
    proved: true,
};

/// Those of one kind of record are in the order of their reasons.
const REASONS: [Trial; 5] = [
    // The book has another number of sessions.
    (
        WORKED,
        &[],
        &[Question::Reason(Line::Started(1, 70, EACH), Some(Illegal::NotNumber(0)))],
    ),
    (WORKED, BEGUN, AFTER_START),
    (WORKED, SERVED, AFTER_SERVING),
    (
        WORKED,
        OVER,
        &[Question::Reason(Line::Closed(0), Some(Illegal::Ended(Place::Closed)))],
    ),
    // A budget of one node.
    (Setting::Worked(1), ASIDE, AFTER_SETTING_ASIDE),
];

const AFTER_START: &[Question] = &[
    // A start: the booking has a session, and item 3 is missing or item 6 is more.
    Question::Reason(Line::Started(1, 70, EACH), Some(Illegal::Booked(0))),
    Question::Reason(Line::Started(1, 71, 0x37), Some(Illegal::NotDrawn(3))),
    Question::Reason(Line::Started(1, 71, 0x7f), Some(Illegal::NotDrawn(6))),
    // A set for each of two bands, where the plan has one.
    Question::Reason(
        Line::StartedInTwo(1, 71, [EACH, EACH]),
        Some(Illegal::NotDrawn(0)),
    ),
    // A list: after the draw an empty one, one with an item beyond the bank, and one whose form has
    // an item of it, or two of the row that needs exactly one of 0 and 1. Without item 2 there is
    // the form {1, 3, 5}.
    Question::Reason(
        Line::StartedWithout(1, 71, 0x37, (0, 0x2a)),
        Some(Illegal::NotDrawn(3)),
    ),
    Question::Reason(
        Line::StartedWithout(1, 71, EACH, (0, 0x2a)),
        Some(Illegal::NoItem(6)),
    ),
    Question::Reason(
        Line::StartedWithout(1, 71, EACH, (0x40, 0x2a)),
        Some(Illegal::NoItem(6)),
    ),
    Question::Reason(
        Line::StartedWithout(1, 71, EACH, (0x04, 0x0e)),
        Some(Illegal::NotWithout(Breach::Barred(2))),
    ),
    Question::Reason(
        Line::StartedWithout(1, 71, EACH, (0x04, 0x0b)),
        Some(Illegal::NotWithout(Breach::Row(0, 2))),
    ),
    Question::Reason(Line::StartedWithout(1, 71, EACH, (0x04, 0x2a)), None),
    // A serving. Of the items 0, 1 and 2 two are of the row that needs exactly one of 0 and 1.
    Question::Reason(
        Line::Served(0, (0, 2), 0x07, Shape::FirstBest),
        Some(Illegal::NotForm(Breach::Row(0, 2))),
    ),
    Question::Reason(
        Line::Served(0, (0, 1), 0x0e, Shape::FirstBest),
        Some(Illegal::NotItem(2)),
    ),
    Question::Reason(
        Line::Served(0, (0, 2), 0x0e, Shape::NoTree),
        Some(Illegal::NotSpent(1)),
    ),
    Question::Reason(
        Line::Served(0, (0, 2), 0x0e, Shape::TooHigh),
        Some(Illegal::Tree(Verdict::Bad(0, Reason::NotClosed))),
    ),
    // An answer, also one with a tree.
    Question::Reason(
        Line::Answered(0, (0, 1), Shape::FirstBest),
        Some(Illegal::NotSpent(0)),
    ),
    Question::Reason(
        Line::Answered(0, (0, 1), Shape::NoTree),
        Some(Illegal::NotWaiting(Place::Pending(0))),
    ),
];

const AFTER_SERVING: &[Question] = &[
    Question::Reason(Line::Started(2, 71, EACH), Some(Illegal::NotNumber(1))),
    Question::Reason(Line::Started(1, 70, EACH), Some(Illegal::Booked(0))),
    Question::Reason(
        Line::Answered(0, (1, 0), Shape::NoTree),
        Some(Illegal::NotWaiting(WAITING)),
    ),
    Question::Reason(
        Line::Answered(0, (0, 2), Shape::NoTree),
        Some(Illegal::BadResponse(2)),
    ),
    Question::Reason(Line::Closed(5), Some(Illegal::NoSession(1))),
    Question::Reason(Line::Closed(0), None),
];

/// The last question is about a second setting aside.
const AFTER_SETTING_ASIDE: &[Question] = &[
    Question::Reason(
        Line::SetAside(1, (0, 0), Shape::Open),
        Some(Illegal::NoSession(1)),
    ),
    Question::Reason(
        Line::Served(0, (1, 2), 0x0e, Shape::FirstBest),
        Some(Illegal::NotPending(Place::Pending(0))),
    ),
    Question::Reason(
        Line::SetAside(0, (0, 0), Shape::Open),
        Some(Illegal::IsAside),
    ),
];

#[test]
fn reasons(rt: HostRuntime) {
    for trial in &REASONS {
        expect_trial(&rt, rt.alloc(), trial);
    }
}

/// Session 0 was served two items and waits for the second answer, session 1 for the first.
const TWO_SESSIONS: &[Line] = &[
    Line::Started(0, 70, EACH),
    Line::Served(0, (0, 2), 0x0e, Shape::FirstBest),
    Line::Started(1, 71, EACH),
    Line::Served(1, (0, 2), 0x0e, Shape::FirstBest),
    Line::Answered(0, (0, 1), Shape::NoTree),
    Line::Served(0, (1, 4), 0x16, Shape::SecondBest),
];

/// The same, and session 1 is closed then.
const ONE_CLOSED: &[Line] = &[
    Line::Started(0, 70, EACH),
    Line::Served(0, (0, 2), 0x0e, Shape::FirstBest),
    Line::Started(1, 71, EACH),
    Line::Served(1, (0, 2), 0x0e, Shape::FirstBest),
    Line::Answered(0, (0, 1), Shape::NoTree),
    Line::Served(0, (1, 4), 0x16, Shape::SecondBest),
    Line::Closed(1),
];

/// The counts of an item that was neither eligible nor shown in a finished session.
const NEVER: Option<Counts> = Some(Counts { alpha: 0, eps: 0 });

/// The counts of an item that was eligible in one, and shown in none.
const ELIGIBLE: Option<Counts> = Some(Counts { alpha: 0, eps: 1 });

/// The counts of an item that was shown in one.
const SHOWN: Option<Counts> = Some(Counts { alpha: 1, eps: 1 });

/// Answers after two sessions, of which none is finished. Session 0 waits for the answer to item 4.
const OF_TWO: &[Question] = &[
    Question::Entries(6),
    Question::Sessions(2),
    Question::Finished(0),
    Question::Booked(71, Some(1)),
    Question::Booked(72, None),
    Question::At(
        0,
        Some(Place::Waiting {
            step: 1,
            item: 4,
            proved: true,
        }),
    ),
    Question::At(2, None),
    Question::Seat(0, [2, 4], 1, EACH, 0x16),
    Question::Exposure(0, NEVER),
    Question::Exposure(1, NEVER),
    Question::Exposure(2, NEVER),
    Question::Exposure(3, NEVER),
    Question::Exposure(4, NEVER),
    Question::Exposure(5, NEVER),
    Question::Exposure(6, None),
];

/// The closed session counts: each item was eligible in it, and item 2 was shown.
const OF_ONE_CLOSED: &[Question] = &[
    Question::Exposure(0, ELIGIBLE),
    Question::Exposure(1, ELIGIBLE),
    Question::Exposure(2, SHOWN),
    Question::Exposure(3, ELIGIBLE),
    Question::Exposure(4, ELIGIBLE),
    Question::Exposure(5, ELIGIBLE),
    Question::Exposure(6, None),
];

#[test]
fn two_sessions(rt: HostRuntime) {
    expect_trial(&rt, rt.alloc(), &(WORKED, TWO_SESSIONS, OF_TWO));
    expect_trial(&rt, rt.alloc(), &(WORKED, ONE_CLOSED, OF_ONE_CLOSED));
}

/// Session 1 begins without item 2.
const LISTED: &[Line] = &[
    Line::Started(0, 70, EACH),
    Line::Served(0, (0, 2), 0x0e, Shape::FirstBest),
    Line::StartedWithout(1, 71, EACH, (0x04, 0x2a)),
];

/// The form of session 0 has item 2, and is none for session 1. The best without it is {1, 3, 5}.
const OF_LISTED: &[Question] = &[
    Question::Sessions(2),
    Question::Booked(71, Some(1)),
    Question::At(1, Some(Place::Pending(0))),
    Question::Reason(
        Line::Served(1, (0, 2), 0x0e, Shape::FirstBest),
        Some(Illegal::NotForm(Breach::Barred(2))),
    ),
    Question::Reason(Line::Served(1, (0, 1), 0x2a, Shape::Plain), None),
];

/// The same, and session 1 is served item 1 and closed.
const LISTED_CLOSED: &[Line] = &[
    Line::Started(0, 70, EACH),
    Line::Served(0, (0, 2), 0x0e, Shape::FirstBest),
    Line::StartedWithout(1, 71, EACH, (0x04, 0x2a)),
    Line::Served(1, (0, 1), 0x2a, Shape::Plain),
    Line::Closed(1),
];

/// Item 2 was not eligible in the closed session.
const OF_LISTED_CLOSED: &[Question] = &[
    Question::Finished(1),
    Question::Exposure(0, ELIGIBLE),
    Question::Exposure(1, SHOWN),
    Question::Exposure(2, NEVER),
    Question::Exposure(3, ELIGIBLE),
    Question::Exposure(4, ELIGIBLE),
    Question::Exposure(5, ELIGIBLE),
];

#[test]
fn without_an_item(rt: HostRuntime) {
    expect_trial(&rt, rt.alloc(), &(WORKED, LISTED, OF_LISTED));
    expect_trial(&rt, rt.alloc(), &(WORKED, LISTED_CLOSED, OF_LISTED_CLOSED));
}

/// The counts of an item that was eligible and shown in ten thousand sessions.
const IN_EACH: Option<Counts> = Some(Counts {
    alpha: 10_000,
    eps: 10_000,
});

const OF_MANY: &[Question] = &[
    Question::Entries(30_000),
    Question::Booked(7_308, Some(5_000)),
    Question::Exposure(0, IN_EACH),
    Question::Exposure(1, None),
];

#[test]
fn ten_thousand_sessions(rt: HostRuntime) {
    expect_trial(&rt, rt.alloc(), &(Setting::One(10_000), &[], OF_MANY));
}
