//! Requests of one caller on bank A: the replies are those of an office of one thread, which were
//! worked out by hand.

ghost use Rattle.form_model.specs.Validity.{IsPlanFor};
ghost use Rattle.exam_hall.specs.Known.{IsOf};

use crate::equal::expect_equal;
use crate::halls::{ask_all, hall_on};
use crate::office::{EVEN, Numbers, RARE, planned};
use crate::requests::{
    Ask, FIRST, FIRST_ANSWER, FIRST_ANSWER_FOR_70, FIRST_ANSWER_FOR_ANOTHER, LATER_FIRST,
    LATER_FIRST_ANSWER, LATER_SECOND, LATER_SECOND_ANSWER, LATER_THIRD, LATER_THIRD_ANSWER,
    OTHER_ANSWER, SECOND, SECOND_ANSWER, THIRD, THIRD_ANSWER, Told,
};
use bank_tables::Bank;
use constraint_model::Spec;
use exam_edge::{MemoryDisk, OpenGate};
use exam_hall::Hall;
use exam_office::{Office, Place, Refusal};
use std::alloc::Global;
use std::process::Abort;
use std::sync::Wait;
use std::test::Fail;
use turn_lock::Pass;

// Requests, and their replies.
struct Case {
    numbers: Numbers,
    requests: &'static [Ask],
    replies: &'static [Told],
}

const CASES: [Case; 3] = [
    // One session to its end. The same answer again, and the same booking again, add nothing.
    // Three requests are refused.
    Case {
        numbers: EVEN,
        requests: &[
            Ask::Begin(70),
            FIRST_ANSWER,
            FIRST_ANSWER,
            OTHER_ANSWER,
            SECOND_ANSWER,
            Ask::Look(0),
            Ask::Begin(70),
            THIRD_ANSWER,
            Ask::Close(0),
            Ask::Look(1),
            Ask::Exposure,
        ],
        replies: &[
            Ok((0, FIRST, true)),
            Ok((0, SECOND, false)),
            Ok((0, SECOND, false)),
            Err(Refusal::Other(1)),
            Ok((0, THIRD, false)),
            Ok((0, THIRD, false)),
            Ok((0, THIRD, false)),
            Ok((0, Place::Complete, false)),
            Err(Refusal::IsClosed(Place::Complete)),
            Err(Refusal::NoSession(1)),
            Ok((1, Place::Complete, false)),
        ],
    },
    // Answers and closings that name a booking. Booking 71 has no session, then session 1. No
    // session 2 is there, whatever the booking. What is recorded is given again to its own booking
    // alone.
    Case {
        numbers: EVEN,
        requests: &[
            Ask::Begin(70),
            FIRST_ANSWER_FOR_ANOTHER,
            Ask::Begin(71),
            FIRST_ANSWER_FOR_ANOTHER,
            Ask::CloseFor(0, 71),
            Ask::CloseFor(2, 71),
            Ask::Look(0),
            FIRST_ANSWER_FOR_70,
            FIRST_ANSWER_FOR_70,
            FIRST_ANSWER_FOR_ANOTHER,
            Ask::CloseFor(1, 71),
            Ask::Exposure,
        ],
        replies: &[
            Ok((0, FIRST, true)),
            Err(Refusal::OtherBooking),
            Ok((1, FIRST, true)),
            Err(Refusal::OtherBooking),
            Err(Refusal::OtherBooking),
            Err(Refusal::NoSession(2)),
            Ok((0, FIRST, false)),
            Ok((0, SECOND, false)),
            Ok((0, SECOND, false)),
            Err(Refusal::OtherBooking),
            Ok((1, Place::Closed, false)),
            Ok((1, Place::Complete, false)),
        ],
    },
    // The items shown in session 0 are ineligible in session 1, and in session 2 eligibility is set
    // aside, so that its first item takes two assemblies.
    Case {
        numbers: RARE,
        requests: &[
            Ask::Begin(70),
            FIRST_ANSWER,
            SECOND_ANSWER,
            THIRD_ANSWER,
            Ask::Begin(71),
            LATER_FIRST_ANSWER,
            LATER_SECOND_ANSWER,
            LATER_THIRD_ANSWER,
            Ask::Begin(72),
            Ask::Close(2),
        ],
        replies: &[
            Ok((0, FIRST, true)),
            Ok((0, SECOND, false)),
            Ok((0, THIRD, false)),
            Ok((0, Place::Complete, false)),
            Ok((1, LATER_FIRST, true)),
            Ok((1, LATER_SECOND, false)),
            Ok((1, LATER_THIRD, false)),
            Ok((1, Place::Complete, false)),
            Ok((2, FIRST, true)),
            Ok((2, Place::Closed, false)),
        ],
    },
];

fn replies_in<'a, R: Wait + Sync>(
    rt: &R,
    alloc: Global,
    hall: Hall<'a, MemoryDisk>,
    pass: Pass<Office<'a, MemoryDisk>>,
    requests: &[Ask],
) -> Vec<Told>
    requires { IsOf pass hall }
{
    let (pass, replies) = ask_all(rt, alloc, &hall, &OpenGate, pass, requests);
    let _ = hall.close(rt, pass).into_disk();
    replies
}

fn replies_over<'a, R: Wait + Sync>(
    rt: &R,
    alloc: Global,
    bank: &'a Bank,
    spec: &'a Spec,
    requests: &[Ask],
) -> Result<Vec<Told>, Fail>
    requires { IsPlanFor bank.now spec.now }
{
    match hall_on(alloc, bank, spec) {
        Ok((hall, pass)) => Ok(replies_in(rt, alloc, hall, pass, requests)),
        Err(fail) => Err(fail),
    }
}

fn replies_of<R: Wait + Sync>(rt: &R, alloc: Global, case: &Case) -> Result<Vec<Told>, Fail> {
    match planned(alloc, &case.numbers) {
        Ok((bank, spec)) => replies_over(rt, alloc, &bank, &spec, case.requests),
        Err(fail) => Err(fail),
    }
}

fn expect_replies<R: Abort + Wait + Sync>(rt: &R, alloc: Global, case: &Case) -> Result<(), Fail> {
    let replies = replies_of(rt, alloc, case)?;
    expect_equal(rt, &replies.as_slice(), &case.replies);
    Ok(())
}

#[test]
fn sessions(rt: HostRuntime) -> Result<(), Fail> {
    for case in &CASES {
        expect_replies(&rt, rt.alloc(), case)?;
    }
    Ok(())
}
