//! The line of each kind of reply. What is expected is the format's.

use crate::equal::expect_equal_at;
use bank_tables::List;
use history_model::{Counts, Exposure, Place, Refusal, Reply};
use replay_cli::reply_line;
use std::alloc::Global;
use std::process::Abort;

/// The reply is printed as this line.
fn expect_line<R: Abort>(rt: &R, alloc: Global, reply: &Reply, line: &str) {
    let found = reply_line(alloc, reply).expect(rt, "a line");
    expect_equal_at(rt, line, &found.as_slice(), &line.as_bytes());
}

/// A reply without exposure counts.
#[derive(Clone, Copy)]
enum Short {
    At(u32, Place),
    Refused(Refusal),
}

/// Replies, each with its line. A reply that a replay never prints has an empty one.
const REPLIES: [(Short, &str); 23] = [
    (
        Short::At(
            0,
            Place::Waiting {
                step: 0,
                item: 2,
                proved: true,
            },
        ),
        "session 0 step 0 item 2 proved\n",
    ),
    (
        Short::At(
            0,
            Place::Waiting {
                step: 0,
                item: 0,
                proved: false,
            },
        ),
        "session 0 step 0 item 0 unproved\n",
    ),
    (
        Short::At(
            70,
            Place::Waiting {
                step: 19,
                item: 110,
                proved: true,
            },
        ),
        "session 70 step 19 item 110 proved\n",
    ),
    (Short::At(0, Place::Complete), "session 0 complete\n"),
    (Short::At(2, Place::Closed), "session 2 closed\n"),
    (Short::At(3, Place::Pending(1)), "session 3 pending 1\n"),
    (
        Short::Refused(Refusal::NoSession(2)),
        "refused no-session 2\n",
    ),
    (
        Short::Refused(Refusal::WrongStep(1)),
        "refused wrong-step 1\n",
    ),
    (Short::Refused(Refusal::Other(1)), "refused other 1\n"),
    (
        Short::Refused(Refusal::BadResponse(2)),
        "refused bad-response 2\n",
    ),
    (
        Short::Refused(Refusal::IsClosed(Place::Complete)),
        "refused is-closed complete\n",
    ),
    (
        Short::Refused(Refusal::IsClosed(Place::Closed)),
        "refused is-closed closed\n",
    ),
    (
        Short::Refused(Refusal::OtherList(1)),
        "refused other-list 1\n",
    ),
    (Short::Refused(Refusal::NoItem(6)), "refused no-item 6\n"),
    (Short::Refused(Refusal::NoForm), "refused no-form\n"),
    (Short::Refused(Refusal::NoneFound), "refused none-found\n"),
    (
        Short::Refused(Refusal::OtherBooking),
        "refused other-booking\n",
    ),
    (Short::Refused(Refusal::IsClosed(Place::Pending(1))), ""),
    (Short::Refused(Refusal::Stale(Place::Complete, true)), ""),
    (Short::Refused(Refusal::SessionsFull(1)), ""),
    (Short::Refused(Refusal::JournalFull(91)), ""),
    (Short::Refused(Refusal::Disk), ""),
    (Short::Refused(Refusal::Memory), ""),
];

/// The reply.
fn reply_of(reply: Short) -> Reply {
    match reply {
        Short::At(session, place) => Reply::At {
            session,
            place,
            fresh: false,
        },
        Short::Refused(refusal) => Reply::Refused(refusal),
    }
}

#[test]
fn places_and_refusals_have_their_lines(rt: HostRuntime) {
    for (reply, line) in &REPLIES {
        expect_line(&rt, rt.alloc(), &reply_of(*reply), line);
    }
}

/// The counts of six items.
const COUNTS: [Counts; 6] = [
    Counts { alpha: 1, eps: 3 },
    Counts { alpha: 1, eps: 2 },
    Counts { alpha: 2, eps: 2 },
    Counts { alpha: 1, eps: 3 },
    Counts { alpha: 1, eps: 2 },
    Counts { alpha: 1, eps: 3 },
];

#[test]
fn exposure_has_a_line_for_each_item(rt: HostRuntime) {
    let rows = COUNTS.to_vec(rt.alloc()).expect(&rt, "counts");
    let exposure = Exposure {
        finished: 3,
        rows: List::of(rows),
    };
    let expected =
        "exposure finished 3\nitem 0 shown 1 eligible 3\nitem 1 shown 1 eligible 2\nitem 2 shown 2 eligible 2\nitem 3 shown 1 eligible 3\nitem 4 shown 1 eligible 2\nitem 5 shown 1 eligible 3\n";
    expect_line(&rt, rt.alloc(), &Reply::Exposure(exposure), expected);
}
