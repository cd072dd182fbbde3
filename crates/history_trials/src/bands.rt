//! Books of plans with two bands: where a session goes, what is counted of it there, and what is
//! eligible for the next one.

use crate::trials::{Question, Setting, Trial, expect_trial};
use crate::worked::{Line, Shape};
use exam_session::Illegal;
use history_model::Counts;

/// Each of six items.
const EACH: u8 = 0x3f;

/// Item by item, alpha and eps where nothing was counted.
const NOTHING: &[(u32, u32)] = &[(0, 0), (0, 0), (0, 0), (0, 0), (0, 0), (0, 0)];

/// Session 0 gives response 0 to items 2, 1 and 3, and stays in the first band.
const STAYED: &[Line] = &[
    Line::StartedInTwo(0, 70, [EACH, EACH]),
    Line::Served(0, (0, 2), 0x0e, Shape::FirstBest),
    Line::Answered(0, (0, 0), Shape::NoTree),
    Line::Served(0, (1, 1), 0x0e, Shape::FirstBest),
    Line::Answered(0, (1, 0), Shape::NoTree),
    Line::Served(0, (2, 3), 0x0e, Shape::FirstBest),
    Line::Answered(0, (2, 0), Shape::NoTree),
];

/// Items 1, 2 and 3 are ineligible in the first band for session 1, and no item is in the second.
const AFTER_ONE: &[Question] = &[
    Question::Finished(1),
    Question::Band(0, 1, &[(0, 1), (1, 1), (1, 1), (1, 1), (0, 1), (0, 1)]),
    Question::Band(1, 0, NOTHING),
    Question::Reason(Line::StartedInTwo(1, 71, [0x31, EACH]), None),
    // One band of two; an item more in the first band, one less in the second, and both: the lower
    // of the two items.
    Question::Reason(Line::Started(1, 71, 0x31), Some(Illegal::NotDrawn(0))),
    Question::Reason(
        Line::StartedInTwo(1, 71, [0x35, EACH]),
        Some(Illegal::NotDrawn(2)),
    ),
    Question::Reason(
        Line::StartedInTwo(1, 71, [0x31, 0x3d]),
        Some(Illegal::NotDrawn(1)),
    ),
    Question::Reason(
        Line::StartedInTwo(1, 71, [0x39, 0x2f]),
        Some(Illegal::NotDrawn(3)),
    ),
];

/// Session 1 is served item 5 in the first band. Response 1 moves its estimate to the second, where
/// it is served items 4 and
/// 1. It is closed while item 1 waits for an answer.
const BOTH: &[Line] = &[
    Line::StartedInTwo(0, 70, [EACH, EACH]),
    Line::Served(0, (0, 2), 0x0e, Shape::FirstBest),
    Line::Answered(0, (0, 0), Shape::NoTree),
    Line::Served(0, (1, 1), 0x0e, Shape::FirstBest),
    Line::Answered(0, (1, 0), Shape::NoTree),
    Line::Served(0, (2, 3), 0x0e, Shape::FirstBest),
    Line::Answered(0, (2, 0), Shape::NoTree),
    Line::StartedInTwo(1, 71, [0x31, EACH]),
    Line::Served(1, (0, 5), 0x31, Shape::Whole),
    Line::Answered(1, (0, 1), Shape::NoTree),
    Line::Served(1, (1, 4), 0x32, Shape::SecondBest),
    Line::Answered(1, (1, 1), Shape::NoTree),
    Line::Served(1, (2, 1), 0x32, Shape::SecondBest),
    Line::Closed(1),
];

/// Item 1 counts in both bands, and twice in all.
const AFTER_BOTH: &[Question] = &[
    Question::Finished(2),
    Question::Band(0, 2, &[(0, 2), (1, 1), (1, 1), (1, 1), (0, 2), (1, 2)]),
    Question::Band(1, 1, &[(0, 1), (1, 1), (0, 1), (0, 1), (1, 1), (0, 1)]),
    Question::Exposure(0, Some(Counts { alpha: 0, eps: 2 })),
    Question::Exposure(1, Some(Counts { alpha: 2, eps: 2 })),
];

/// Three sessions of two items each: the first item in the first band, the second in the other.
/// Items 0, 1; then 1, 2; then 0, 1, where eligibility is set aside in each band.
const THREE: &[Line] = &[
    Line::StartedInTwo(0, 70, [7, 7]),
    Line::Served(0, (0, 0), 3, Shape::Plain),
    Line::Answered(0, (0, 1), Shape::NoTree),
    Line::Served(0, (1, 1), 3, Shape::Plain),
    Line::Answered(0, (1, 0), Shape::NoTree),
    Line::StartedInTwo(1, 71, [6, 5]),
    Line::Served(1, (0, 1), 6, Shape::Whole),
    Line::Answered(1, (0, 1), Shape::NoTree),
    Line::Served(1, (1, 2), 6, Shape::Plain),
    Line::Answered(1, (1, 0), Shape::NoTree),
    Line::StartedInTwo(2, 72, [4, 1]),
    Line::SetAside(2, (0, 0), Shape::Count),
    Line::Served(2, (0, 0), 3, Shape::Plain),
    Line::Answered(2, (0, 1), Shape::NoTree),
    Line::SetAside(2, (1, 1), Shape::Count),
    Line::Served(2, (1, 1), 3, Shape::Plain),
    Line::Answered(2, (1, 0), Shape::NoTree),
];

const AFTER_THREE: &[Question] = &[
    Question::Entries(17),
    Question::Finished(3),
    Question::Band(0, 3, &[(2, 2), (1, 3), (0, 3)]),
    Question::Band(1, 3, &[(0, 3), (2, 2), (1, 3)]),
    Question::Exposure(0, Some(Counts { alpha: 2, eps: 3 })),
    Question::Exposure(1, Some(Counts { alpha: 3, eps: 3 })),
    Question::Exposure(2, Some(Counts { alpha: 1, eps: 3 })),
];

/// Session 0 is begun.
const BEGUN: &[Line] = &[Line::StartedInTwo(0, 70, [7, 7])];

/// It waits for an item at step 0 in the first band.
const IN_FIRST: &[Question] = &[
    Question::IsAside(0, false),
    Question::Reason(
        Line::SetAside(0, (1, 0), Shape::Open),
        Some(Illegal::NotStep(0)),
    ),
    Question::Reason(
        Line::SetAside(0, (0, 1), Shape::Open),
        Some(Illegal::NotBand(0)),
    ),
    Question::Reason(Line::SetAside(0, (0, 0), Shape::Open), None),
    Question::IsAside(1, false),
];

/// Eligibility is set aside for it there.
const FIRST_ASIDE: &[Line] = &[
    Line::StartedInTwo(0, 70, [7, 7]),
    Line::SetAside(0, (0, 0), Shape::Open),
];

/// IsAside comes before the step and the band.
const ASIDE_IN_FIRST: &[Question] = &[
    Question::IsAside(0, true),
    Question::Reason(
        Line::SetAside(0, (0, 0), Shape::Open),
        Some(Illegal::IsAside),
    ),
    Question::Reason(
        Line::SetAside(0, (1, 1), Shape::Open),
        Some(Illegal::IsAside),
    ),
];

/// Then its first response moves the estimate to the second band.
const MOVED: &[Line] = &[
    Line::StartedInTwo(0, 70, [7, 7]),
    Line::SetAside(0, (0, 0), Shape::Open),
    Line::Served(0, (0, 0), 3, Shape::Plain),
    Line::Answered(0, (0, 1), Shape::NoTree),
];

/// Eligibility is set aside in the first band, and not in the second. There the tree is the next
/// thing: nothing is left open, since the last form is the best.
const IN_SECOND: &[Question] = &[
    Question::IsAside(0, false),
    Question::Reason(
        Line::SetAside(0, (0, 1), Shape::Open),
        Some(Illegal::NotStep(1)),
    ),
    Question::Reason(
        Line::SetAside(0, (1, 0), Shape::Open),
        Some(Illegal::NotBand(1)),
    ),
    Question::Reason(
        Line::SetAside(0, (1, 1), Shape::Open),
        Some(Illegal::NotSpent(1)),
    ),
];

const TRIALS: [Trial; 6] = [
    (Setting::TwoBands, STAYED, AFTER_ONE),
    (Setting::TwoBands, BOTH, AFTER_BOTH),
    (Setting::BandOfPoints, THREE, AFTER_THREE),
    (Setting::BandOfPoints, BEGUN, IN_FIRST),
    (Setting::BandOfPoints, FIRST_ASIDE, ASIDE_IN_FIRST),
    (Setting::BandOfPoints, MOVED, IN_SECOND),
];

#[test]
fn two_bands(rt: HostRuntime) {
    for trial in &TRIALS {
        expect_trial(&rt, rt.alloc(), trial);
    }
}
