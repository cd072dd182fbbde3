//! Whole sessions, the exposure counts after them, and what an audit finds in their journals.

use crate::audits::{Audited, expect_audit};
use crate::equal::expect_equal;
use crate::expected::{expect_bytes, expect_calls, expect_summary};
use crate::outcome::{
    BEGUN, Call, FIRST, Numbers, Outcome, Reply, SECOND, SESSION, Step, Trial, WORKED, run,
};
use exam_office::{Begun, Place, Refusal, Summary};
use form_model::Rate;
use history_model::Counts;
use std::alloc::Global;
use std::process::Abort;

/// The counts of an item that was neither eligible nor shown.
const NO: Reply = Reply::Exposed(Some(Counts { alpha: 0, eps: 0 }));

/// Those of an item that was eligible in one session, and shown in none.
const ELIGIBLE: Reply = Reply::Exposed(Some(Counts { alpha: 0, eps: 1 }));

/// Those of an item that was eligible in one session, and shown there.
const SHOWN: Reply = Reply::Exposed(Some(Counts { alpha: 1, eps: 1 }));

/// Those of an item that was shown in one session of three or two in which it was eligible, or in
/// both.
const ONCE_OF_THREE: Reply = Reply::Exposed(Some(Counts { alpha: 1, eps: 3 }));

const ONCE_OF_TWO: Reply = Reply::Exposed(Some(Counts { alpha: 1, eps: 2 }));

const TWICE: Reply = Reply::Exposed(Some(Counts { alpha: 2, eps: 2 }));

/// There are six items.
const NO_ITEM: Step = (Call::Exposure(6), Reply::Exposed(None));

/// Two sessions, of which the second is served its first item, and the first its second.
const TWO_SERVED: [Step; 6] = [
    (Call::Begin(1), BEGUN),
    (Call::Serve(0), Reply::At(FIRST)),
    (Call::Begin(2), SECOND_BEGUN),
    (Call::Serve(1), Reply::At(FIRST)),
    (Call::Answer(0, 0, 1), Reply::At(Place::Pending(1))),
    (Call::Serve(0), Reply::At(SECOND)),
];

/// The same, and the second is closed.
pub(crate) const TWO_SESSIONS: [Step; 7] = [
    (Call::Begin(1), BEGUN),
    (Call::Serve(0), Reply::At(FIRST)),
    (Call::Begin(2), SECOND_BEGUN),
    (Call::Serve(1), Reply::At(FIRST)),
    (Call::Answer(0, 0, 1), Reply::At(Place::Pending(1))),
    (Call::Serve(0), Reply::At(SECOND)),
    (Call::Close(1), Reply::At(Place::Closed)),
];

const SECOND_BEGUN: Reply = Reply::Begun(Begun {
    session: 1,
    fresh: true,
});

/// The items of the second session at the rare rate.
const ITEM_5: Reply = Reply::At(Place::Waiting {
    step: 0,
    item: 5,
    proved: true,
});

const ITEM_3: Reply = Reply::At(Place::Waiting {
    step: 1,
    item: 3,
    proved: true,
});

const ITEM_0: Reply = Reply::At(Place::Waiting {
    step: 2,
    item: 0,
    proved: true,
});

/// A second and a third session. Eligibility is set aside in the third: what was assembled without
/// a form is stale then.
const TWO_MORE: [Step; 11] = [
    (Call::Begin(71), SECOND_BEGUN),
    (Call::Serve(1), ITEM_5),
    (Call::Answer(1, 0, 0), Reply::At(Place::Pending(1))),
    (Call::Serve(1), ITEM_3),
    (Call::Answer(1, 1, 0), Reply::At(Place::Pending(2))),
    (Call::Serve(1), ITEM_0),
    (Call::Answer(1, 2, 0), Reply::At(Place::Complete)),
    (Call::Begin(72), THIRD_BEGUN),
    (Call::ServeAgain(2), IS_ASIDE),
    (Call::Serve(2), Reply::At(FIRST)),
    (Call::Close(2), Reply::At(Place::Closed)),
];

const THIRD_BEGUN: Reply = Reply::Begun(Begun {
    session: 2,
    fresh: true,
});

const IS_ASIDE: Reply = Reply::Refused(Refusal::Stale(Place::Pending(0), true));

/// At this rate the items of the first session are ineligible in the second, and in the third too
/// few are eligible.
const RARE: Numbers = Numbers {
    rate: Rate {
        num: 1,
        den: 65_535,
    },
    ..WORKED
};

/// What is found after the worked session.
const AFTER_ONE: &[Step] = &[
    (Call::Look(0), Reply::At(Place::Complete)),
    (Call::Exposure(0), ELIGIBLE),
    (Call::Exposure(1), SHOWN),
    (Call::Exposure(2), SHOWN),
    (Call::Exposure(3), ELIGIBLE),
    (Call::Exposure(4), SHOWN),
    (Call::Exposure(5), ELIGIBLE),
    NO_ITEM,
];

/// What is found where no session is finished.
const NONE_FINISHED: &[Step] = &[
    (Call::Exposure(0), NO),
    (Call::Exposure(1), NO),
    (Call::Exposure(2), NO),
    (Call::Exposure(3), NO),
    (Call::Exposure(4), NO),
    (Call::Exposure(5), NO),
    NO_ITEM,
];

/// What is found once the second session was closed.
const ONE_CLOSED: &[Step] = &[
    (Call::Exposure(0), ELIGIBLE),
    (Call::Exposure(1), ELIGIBLE),
    (Call::Exposure(2), SHOWN),
    (Call::Exposure(3), ELIGIBLE),
    (Call::Exposure(4), ELIGIBLE),
    (Call::Exposure(5), ELIGIBLE),
    NO_ITEM,
];

/// What is found after three sessions.
const AFTER_THREE: &[Step] = &[
    (Call::Exposure(0), ONCE_OF_THREE),
    (Call::Exposure(1), ONCE_OF_TWO),
    (Call::Exposure(2), TWICE),
    (Call::Exposure(3), ONCE_OF_THREE),
    (Call::Exposure(4), ONCE_OF_TWO),
    (Call::Exposure(5), ONCE_OF_THREE),
    NO_ITEM,
];

/// Calls, of which the last ones look at the exposure counts of each item, and what is found after
/// them: the counts, the summary without the nodes, and how many calls of the disk were made.
/// Opening an empty file is six calls of the disk, and each entry is four.
struct Whole {
    numbers: Numbers,
    steps: &'static [&'static [Step]],
    counts: &'static [Step],
    summary: Summary,
    calls: u64,
}

const WHOLES: [Whole; 4] = [
    // Items 2, 4 and 1 are served, and each item was eligible.
    Whole {
        numbers: WORKED,
        steps: &[&SESSION, AFTER_ONE],
        counts: AFTER_ONE,
        summary: Summary {
            entries: 7,
            sessions: 1,
            finished: 1,
            proved: 3,
            unproved: 0,
            aside: 0,
            nodes: 0,
        },
        calls: 34,
    },
    // An item that was shown counts once its session is closed, also without an answer.
    Whole {
        numbers: WORKED,
        steps: &[&TWO_SERVED, NONE_FINISHED],
        counts: NONE_FINISHED,
        summary: Summary {
            entries: 6,
            sessions: 2,
            finished: 0,
            proved: 3,
            unproved: 0,
            aside: 0,
            nodes: 0,
        },
        calls: 30,
    },
    Whole {
        numbers: WORKED,
        steps: &[&TWO_SESSIONS, ONE_CLOSED],
        counts: ONE_CLOSED,
        summary: Summary {
            entries: 7,
            sessions: 2,
            finished: 1,
            proved: 3,
            unproved: 0,
            aside: 0,
            nodes: 0,
        },
        calls: 34,
    },
    // Eligibility is set aside.
    Whole {
        numbers: RARE,
        steps: &[&SESSION, &TWO_MORE, AFTER_THREE],
        counts: AFTER_THREE,
        summary: Summary {
            entries: 18,
            sessions: 3,
            finished: 3,
            proved: 7,
            unproved: 0,
            aside: 1,
            nodes: 0,
        },
        calls: 78,
    },
];

/// How many nodes its trees have is the assembler's matter.
fn without_nodes(summary: &Summary) -> Summary {
    Summary {
        nodes: 0,
        ..*summary
    }
}

/// The file opens as the same history.
fn expect_same_opening<R: Abort>(rt: &R, alloc: Global, row: &Whole, was: &Outcome) {
    let trial = Trial {
        numbers: row.numbers,
        file: &[&was.bytes],
        fails: &[],
        steps: &[row.counts],
    };
    let now = run(rt, alloc, &trial);
    expect_summary(rt, &now, &was.found.summary);
    expect_bytes(rt, &now.bytes, &was.bytes);
}

/// An audit of the file finds the same summary and counts.
fn expect_same_audit<R: Abort>(rt: &R, alloc: Global, row: &Whole, was: &Outcome) {
    let expected = Audited {
        numbers: row.numbers,
        bytes: &was.bytes,
        counts: row.counts,
        summary: was.found.summary,
    };
    expect_audit(rt, alloc, &expected);
}

/// The calls end with what their row has. The file opens as the same history, which an audit
/// finds too.
fn expect_whole<R: Abort>(rt: &R, alloc: Global, row: &Whole) {
    let trial = Trial {
        numbers: row.numbers,
        file: &[],
        fails: &[],
        steps: row.steps,
    };
    let whole = run(rt, alloc, &trial);
    expect_equal(rt, &without_nodes(&whole.found.summary), &row.summary);
    expect_calls(rt, &whole, row.calls, 0);
    expect_same_opening(rt, alloc, row, &whole);
    expect_same_audit(rt, alloc, row, &whole);
}

#[test]
fn whole_sessions(rt: HostRuntime) {
    for row in &WHOLES {
        expect_whole(&rt, rt.alloc(), row);
    }
}
