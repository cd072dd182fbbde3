//! Texts that describe no plan, each with its first fault, and a source that fails. What is
//! expected is from the rules of the plan text.

use crate::equal::expect_equal_at;
use crate::plan::{Worked, bank_of, read};
use crate::source::bytes_of;
use constraint_model::{Breach, SpecFault};
use spec_reader::{Kind, Name, PlanFault};
use std::alloc::Global;
use std::process::Abort;
use trial_cases::PLAN_A;

/// A text over a bank, the calls of its source that fail, and the fault.
type Refused = (Worked, &'static str, &'static [u64], PlanFault);

/// Texts with a faulty line, with a line twice, without a line that is needed, and with lines that
/// make no plan.
const REFUSED: [Refused; 46] = [
    (
        Worked::Q,
        "length 2\nwidth 3\n",
        &[],
        PlanFault::Line(2, Kind::Word),
    ),
    (
        Worked::Q,
        " length 2\n",
        &[],
        PlanFault::Line(1, Kind::Word),
    ),
    (
        Worked::Q,
        "length  2\n",
        &[],
        PlanFault::Line(1, Kind::Shape),
    ),
    (
        Worked::Q,
        "length 2 \n",
        &[],
        PlanFault::Line(1, Kind::Shape),
    ),
    (
        Worked::Q,
        "count 1 1\n",
        &[],
        PlanFault::Line(1, Kind::Shape),
    ),
    (
        Worked::Q,
        "length 02\n",
        &[],
        PlanFault::Line(1, Kind::Number),
    ),
    (
        Worked::Q,
        "length 1000000000\n",
        &[],
        PlanFault::Line(1, Kind::Number),
    ),
    (
        Worked::Q,
        "prior -0\n",
        &[],
        PlanFault::Line(1, Kind::Number),
    ),
    (
        Worked::Q,
        "quantity 256 0 1 0\n",
        &[],
        PlanFault::Line(1, Kind::Number),
    ),
    (
        Worked::Q,
        "stimulus 256 1 2\n",
        &[],
        PlanFault::Line(1, Kind::Number),
    ),
    (
        Worked::Q,
        "key 0000000000000000000000000000000000000000000000000000000000000A00\n",
        &[],
        PlanFault::Line(1, Kind::Number),
    ),
    (Worked::A, "bands\n", &[], PlanFault::Line(1, Kind::Shape)),
    (
        Worked::A,
        "bands 1  2\n",
        &[],
        PlanFault::Line(1, Kind::Shape),
    ),
    (
        Worked::A,
        "bands 1 x\n",
        &[],
        PlanFault::Line(1, Kind::Number),
    ),
    (
        Worked::A,
        "bands 01\n",
        &[],
        PlanFault::Line(1, Kind::Number),
    ),
    (
        Worked::A,
        "bands 1 256\n",
        &[],
        PlanFault::Line(1, Kind::Number),
    ),
    (
        Worked::Q,
        "count x 1 9-1\n",
        &[],
        PlanFault::Line(1, Kind::Number),
    ),
    (
        Worked::Q,
        "enemies 3 2\n",
        &[],
        PlanFault::Line(1, Kind::Set),
    ),
    (
        Worked::Q,
        "enemies 1-2 2\n",
        &[],
        PlanFault::Line(1, Kind::Set),
    ),
    (
        Worked::Q,
        "enemies 1-1\n",
        &[],
        PlanFault::Line(1, Kind::Set),
    ),
    (
        Worked::Q,
        "enemies 512\n",
        &[],
        PlanFault::Line(1, Kind::Set),
    ),
    (
        Worked::Q,
        "# a\n\nlength x\n",
        &[],
        PlanFault::Line(3, Kind::Number),
    ),
    (
        Worked::Q,
        "length 2\nprior 0\nprior 0\n",
        &[],
        PlanFault::Twice(3),
    ),
    (
        Worked::Q,
        "length 2\nlength x\n",
        &[],
        PlanFault::Line(2, Kind::Number),
    ),
    (
        Worked::Q,
        "stimulus 1 1 2\nstimulus 2 1 2\nstimulus 1 1 3\n",
        &[],
        PlanFault::Twice(3),
    ),
    (Worked::A, "bands 1\nbands 2\n", &[], PlanFault::Twice(2)),
    (Worked::Q, "", &[], PlanFault::Missing(Name::Length)),
    (
        Worked::Q,
        "prior 0\n",
        &[],
        PlanFault::Missing(Name::Length),
    ),
    (
        Worked::Q,
        "length 2\n",
        &[],
        PlanFault::Missing(Name::Prior),
    ),
    (
        Worked::Q,
        "length 0\nprior 0\nrate 1 2\n",
        &[],
        PlanFault::Missing(Name::Key),
    ),
    // Lines that make no plan. Some have several faults; the first in the order of `SpecFault` is
    // the answer.
    (
        Worked::A,
        "length 7\nprior 0 0\n",
        &[],
        PlanFault::Spec(SpecFault::Length),
    ),
    (
        Worked::A,
        "length 3\nprior 0 0\nstimulus 1 1 1\n",
        &[],
        PlanFault::Spec(SpecFault::BadPrior),
    ),
    (
        Worked::A,
        "stimulus 1 0 0\nlength 3\nprior 0 0 0\ncount 2 1 0\n",
        &[],
        PlanFault::Spec(SpecFault::RowBounds(0)),
    ),
    (
        Worked::A,
        "length 3\nprior 0 0 0\nstimulus 9 1 2\nstimulus 0 1 2\nrate 0 1\nkey 0000000000000000000000000000000000000000000000000000000000000000\n",
        &[],
        PlanFault::Spec(SpecFault::BadStimulus(9)),
    ),
    (
        Worked::A,
        "length 3\nprior -10 0 -10\ncount 1 1 0-1\nenemies 2 5\nbudget 4\n",
        &[],
        PlanFault::Spec(SpecFault::BadBudget),
    ),
    (
        Worked::A,
        "length 3\nprior 0 0 0\nrate 3 2\nkey 0000000000000000000000000000000000000000000000000000000000000000\nbands 0\n",
        &[],
        PlanFault::Spec(SpecFault::BadRate),
    ),
    (
        Worked::A,
        "length 3\nprior 0 0 0\nbudget 4\nbands 2 1\n",
        &[],
        PlanFault::Spec(SpecFault::BadBands),
    ),
    (
        Worked::A,
        "length 3\nprior 0 0 0\nbands 1 1\n",
        &[],
        PlanFault::Spec(SpecFault::BadBands),
    ),
    (
        Worked::A,
        "length 3\nprior 0 0 0\nbands 0 1\n",
        &[],
        PlanFault::Spec(SpecFault::BadBands),
    ),
    (
        Worked::A,
        "length 3\nprior 0 0 0\nbands 1 3\n",
        &[],
        PlanFault::Spec(SpecFault::BadBands),
    ),
    (
        Worked::Q,
        "length 2\nprior 0\nbands 1\n",
        &[],
        PlanFault::Spec(SpecFault::BadBands),
    ),
    (
        Worked::A,
        "length 3\nprior 0 0 0\nsessions 0\n",
        &[],
        PlanFault::Spec(SpecFault::BadLimit),
    ),
    (
        Worked::A,
        "length 3\nprior 0 0 0\nbase 0-3\n",
        &[],
        PlanFault::Spec(SpecFault::BadBase(Breach::Length(4))),
    ),
    // Of several faulty stimuli the first is the answer.
    (
        Worked::S,
        "length 4\nprior 0 -1\nstimulus 1 0 3\n",
        &[],
        PlanFault::Spec(SpecFault::BadStimulus(1)),
    ),
    (
        Worked::S,
        "length 4\nprior 0 -1\nstimulus 1 0 3\nstimulus 2 1 3\n",
        &[],
        PlanFault::Spec(SpecFault::BadStimulus(2)),
    ),
    // The first call of the source fails.
    (Worked::A, PLAN_A, &[0], PlanFault::Source),
];

fn expect_refusal<R: Abort>(rt: &R, alloc: Global, (over, text, fails, fault): &Refused) {
    let bank = bank_of(rt, alloc, *over);
    let found = read(rt, alloc, &bank, bytes_of(rt, alloc, text), fails).err();
    expect_equal_at(rt, text, &found, &Some(*fault));
}

#[test]
fn texts_of_no_plan(rt: HostRuntime) {
    for refused in &REFUSED {
        expect_refusal(&rt, rt.alloc(), refused);
    }
}
