//! Verdicts on proof trees, each reason once, and parts of what a spent tree is, broken once. What
//! is expected was worked out by hand.

ghost use Rattle.bank_tables.specs.Items.{has};
ghost use Rattle.bank_tables.specs.Validity.{HoldsItems};
ghost use Rattle.form_model.specs.Validity.{IsWellMade};
ghost use Rattle.constraint_model.specs.Views.{problem_of};

use crate::equal::expect_equal;
use crate::settings::Setting;
use crate::trials::{Question, Trial, expect_trials};
use bank_tables::ItemSet;
use certificate_check::{Reason, Verdict, check, spent};
use constraint_model::Problem;
use proof_tree::{Tree, decode};
use std::alloc::Global;
use std::process::Abort;

/// The set of these bits; None where there is no bit.
fn set_of_bits(bits: u8) -> Option<ItemSet> {
    if bits == 0 {
        return None;
    }
    let mut items = ItemSet::empty();
    for item in 0..8u16 {
        if bits >> item & 1 == 1 {
            items = items.with(item);
        }
    }
    Some(items)
}

/// The verdict on a tree with the form of these bits.
fn judged(problem: &Problem<'_>, form: u8, tree: &Tree) -> Verdict
    requires { IsWellMade (problem_of problem.now) }
{
    let form = set_of_bits(form);
    check(problem, form.as_ref(), tree)
}

/// The tree of these bytes has this verdict with the form of these bits.
pub(crate) fn expect_verdict<R: Abort>(
    rt: &R,
    alloc: Global,
    problem: &Problem<'_>,
    form: u8,
    bytes: &[u8],
    verdict: Verdict,
)
    requires { IsWellMade (problem_of problem.now) }
{
    let (tree, _) = decode(alloc, bytes).expect(rt, "a tree");
    expect_equal(rt, &judged(problem, form, &tree), &verdict);
}

/// The problem of a session that was last served from this form.
fn with_start<'a>(problem: &Problem<'a>, form: &ItemSet) -> Problem<'a>
    requires well_made { IsWellMade (problem_of problem.now) }
    requires items { HoldsItems problem.now.bank.now (has form.now) }
    ensures { IsWellMade (problem_of result) }
{
    Problem {
        start: Some(*form),
        ..*problem
    }
}

/// Whether a tree spends a budget. If there is a bit, the form of these bits was served before.
fn is_spent<R: Abort>(rt: &R, problem: &Problem<'_>, start: u8, tree: &Tree, budget: u16) -> bool
    requires { IsWellMade (problem_of problem.now) }
{
    let Some(start) = set_of_bits(start) else {
        return spent(problem, tree, budget);
    };
    if !start.all_below(problem.bank.items()) {
        panic!(rt; "no start");
    }
    spent(&with_start(problem, &start), tree, budget)
}

/// The tree of these bytes spends the budget, or does not.
pub(crate) fn expect_spent<R: Abort>(
    rt: &R,
    alloc: Global,
    problem: &Problem<'_>,
    start: u8,
    bytes: &[u8],
    budget: u16,
    expected: bool,
)
    requires { IsWellMade (problem_of problem.now) }
{
    let (tree, _) = decode(alloc, bytes).expect(rt, "a tree");
    expect_equal(rt, &is_spent(rt, problem, start, &tree, budget), &expected);
}

/// Three items: one of 0 and 1, and not both 2 and 5.
const PLAIN: Setting = Setting::Plain(1);

/// Trees with the form {3, 4, 5}, of 13. The multiplier 768 is on side 0, the low one of the
/// passage, whose items then weigh 12, 4 and 4 units of 256 while it weighs -9.
const CAPPED: [Trial; 8] = [
    // The cap of 4 units leaves the passage 8 of item 0, so -1: the maximum is 5 + 4 + 4, the
    // form's value.
    (
        Setting::Passage,
        &[1, 0, 2, 0, 0, 0, 0, 3, 0, 1, 0x80, 0, 0, 4, 0, 3, 0],
        Question::Verdict(0x38, Verdict::Optimal),
    ),
    // Without the cap it is 12 + 5 + 4.
    (
        Setting::Passage,
        &[1, 0, 1, 0, 0, 0, 0, 3, 0, 3, 0],
        Question::Verdict(0x38, Verdict::Bad(0, Reason::NotClosed)),
    ),
    // The cap as 2,024 less 1,000.
    (
        Setting::Passage,
        &[
            1, 0, 3, 0, 0, 0, 0, 3, 0, 1, 0x80, 0, 0, 7, 0xe8, 1, 0x81, 0, 0, 3, 0xe8, 3, 0,
        ],
        Question::Verdict(0x38, Verdict::Optimal),
    ),
    // Its sides exchanged, so -4 units: the passage has 32 of its items, and is worth 23.
    (
        Setting::Passage,
        &[1, 0, 2, 0, 0, 0, 0, 3, 0, 1, 0x81, 0, 0, 4, 0, 3, 0],
        Question::Verdict(0x38, Verdict::Bad(0, Reason::NotClosed)),
    ),
    // A cap of 2 units: the passage has 14 of its items, and is worth 5.
    (
        Setting::Passage,
        &[1, 0, 2, 0, 0, 0, 0, 3, 0, 1, 0x80, 0, 0, 2, 0, 3, 0],
        Question::Verdict(0x38, Verdict::Bad(0, Reason::NotClosed)),
    ),
    // Where the passage is chosen there is no cap, and the maximum is 12 + 5 + 4 - 9; where it is
    // dropped it is 13.
    (
        Setting::Passage,
        &[
            1, 0, 2, 0, 0, 0, 0, 3, 0, 1, 0x80, 0, 0, 2, 0, 2, 1, 3, 0, 3, 0,
        ],
        Question::Verdict(0x38, Verdict::Optimal),
    ),
    // The plan has sides 0 and 1.
    (
        Setting::Passage,
        &[1, 0, 1, 0, 2, 0, 0, 0, 1, 3, 0],
        Question::Verdict(0x38, Verdict::Bad(0, Reason::NoSide)),
    ),
    (
        Setting::Passage,
        &[1, 0, 1, 1, 0x7f, 0, 0, 0, 1, 3, 0],
        Question::Verdict(0x38, Verdict::Bad(0, Reason::NoSide)),
    ),
];

/// The form {1, 2, 3}, of 23, which is best.
const BEST: u8 = 0x0e;

/// Items 1, 2 and 3 in: one set is left, of 23.
const LEFT: &[u8] = &[0, 1, 0, 1, 1, 0, 2, 1, 0, 3, 6, 7, 7, 7];

/// Trees over the plain bank: first those of one node, then those with branches.
const VERDICTS: [Trial; 14] = [
    (PLAIN, &[0, 7], Question::Verdict(BEST, Verdict::Partial(1))),
    (
        PLAIN,
        &[0, 6],
        Question::Verdict(BEST, Verdict::Bad(0, Reason::NotWhole)),
    ),
    (
        PLAIN,
        &[0, 3, 0],
        Question::Verdict(BEST, Verdict::Bad(0, Reason::NoVector)),
    ),
    (
        PLAIN,
        &[0, 5, 0],
        Question::Verdict(BEST, Verdict::Bad(0, Reason::RowPossible)),
    ),
    // The high side of the enemies at 1 gives 6,143, which is 256 * 23 + 255; at 4,096 it gives
    // 8,960.
    (
        PLAIN,
        &[1, 0, 1, 0, 3, 0, 0, 0, 1, 3, 0],
        Question::Verdict(BEST, Verdict::Optimal),
    ),
    (
        PLAIN,
        &[1, 0, 1, 0, 3, 0, 0, 0x10, 0, 3, 0],
        Question::Verdict(BEST, Verdict::Bad(0, Reason::NotClosed)),
    ),
    // Two rows have sides 0 to 3.
    (
        PLAIN,
        &[1, 0, 1, 0, 4, 0, 0, 0, 1, 3, 0],
        Question::Verdict(BEST, Verdict::Bad(0, Reason::NoSide)),
    ),
    // As a ray it gives 1.
    (
        PLAIN,
        &[1, 0, 1, 0, 3, 0, 0, 0, 1, 4, 0],
        Question::Verdict(BEST, Verdict::Bad(0, Reason::NotNegative)),
    ),
    (
        PLAIN,
        &[0, 7],
        Question::Verdict(0x26, Verdict::Bad(0, Reason::NotForm)),
    ),
    (PLAIN, LEFT, Question::Verdict(BEST, Verdict::Partial(3))),
    // The set {1, 3, 4} has 18.
    (
        PLAIN,
        LEFT,
        Question::Verdict(0x1a, Verdict::Bad(3, Reason::Better)),
    ),
    (
        PLAIN,
        LEFT,
        Question::Verdict(0, Verdict::Bad(3, Reason::Better)),
    ),
    (
        PLAIN,
        &[0, 1, 0, 1, 1, 0, 2, 1, 0, 3, 7, 7, 7, 7],
        Question::Verdict(BEST, Verdict::Bad(3, Reason::OpenWhole)),
    ),
    // A branch on an item twice.
    (
        PLAIN,
        &[0, 1, 0, 1, 7, 1, 0, 1, 7, 7],
        Question::Verdict(BEST, Verdict::Bad(2, Reason::Determined)),
    ),
];

/// Trees that fix items by the high side of the enemies at 1 and a cap of 1,791, the weight of item
/// 5. The margins are -511, 257, 512, -255, -767 and 0, and the bound is 1 + 3 * 1,791 + 257 + 512,
///    which is 256 * 23 + 255.
const FIXES: [Trial; 6] = [
    // Goal 23 leaves no room: all items are out, and the length is impossible.
    (
        PLAIN,
        &[
            1, 0, 2, 0, 3, 0, 0, 0, 1, 1, 0x80, 0, 0, 6, 0xff, 8, 0, 0, 0, 0, 23, 5, 0,
        ],
        Question::Verdict(BEST, Verdict::Optimal),
    ),
    // Goal 22 leaves 256: items 1 and 2 are in, 0 and 4 out. With item 5 the enemies meet, and
    // without it one set is left.
    (
        PLAIN,
        &[
            1, 0, 2, 0, 3, 0, 0, 0, 1, 1, 0x80, 0, 0, 6, 0xff, 8, 0, 0, 0, 0, 22, 1, 0, 5, 5, 2, 6,
        ],
        Question::Verdict(BEST, Verdict::Optimal),
    ),
    // Item 0 is settled.
    (
        PLAIN,
        &[
            1, 0, 2, 0, 3, 0, 0, 0, 1, 1, 0x80, 0, 0, 6, 0xff, 8, 0, 0, 0, 0, 22, 1, 0, 0, 7, 7,
        ],
        Question::Verdict(BEST, Verdict::Bad(1, Reason::Determined)),
    ),
    // The form does not reach 24.
    (
        PLAIN,
        &[
            1, 0, 2, 0, 3, 0, 0, 0, 1, 1, 0x80, 0, 0, 6, 0xff, 8, 0, 0, 0, 0, 24, 5, 0,
        ],
        Question::Verdict(BEST, Verdict::Bad(0, Reason::NotClosed)),
    ),
    // There is no vector 1.
    (
        PLAIN,
        &[
            1, 0, 2, 0, 3, 0, 0, 0, 1, 1, 0x80, 0, 0, 6, 0xff, 8, 1, 0, 0, 0, 23, 5, 0,
        ],
        Question::Verdict(BEST, Verdict::Bad(0, Reason::NoVector)),
    ),
    // Without the cap the bound is the sum of all weights, and nothing is settled.
    (
        PLAIN,
        &[1, 0, 1, 0, 3, 0, 0, 0, 1, 8, 0, 0, 0, 0, 23, 6],
        Question::Verdict(BEST, Verdict::Bad(0, Reason::FixesNothing)),
    ),
];

const NO_FORM: [Trial; 2] = [
    // The ray gives 15 - 20.
    (
        Setting::Quantity,
        &[1, 0, 1, 0, 1, 0, 0, 0, 1, 4, 0],
        Question::Verdict(0, Verdict::NoForm),
    ),
    // Three of two items: the row after the length is impossible by counting.
    (
        Setting::Plain(3),
        &[0, 5, 1],
        Question::Verdict(0, Verdict::NoForm),
    ),
];

/// Items 3 and 4 branched on.
const BRANCHES: &[u8] = &[0, 1, 0, 3, 1, 0, 4, 7, 7, 7];

/// Trees with a budget, and whether they spend it. In the last five a form was served before. The
/// plain bound at the root is 256 * 24, with item 3 in 256 * 23, and with items 3 and 4
/// in 256 * 19.
const SPENT: [Trial; 12] = [
    (PLAIN, BRANCHES, Question::Spent(0, 5, true)),
    // Another number of nodes.
    (PLAIN, BRANCHES, Question::Spent(0, 7, false)),
    // No Open leaf.
    (PLAIN, &[0, 6], Question::Spent(0, 1, false)),
    // A branch after an Open leaf.
    (
        PLAIN,
        &[0, 1, 0, 3, 7, 1, 0, 4, 7, 7],
        Question::Spent(0, 5, false),
    ),
    // A branch on an item that is in.
    (
        PLAIN,
        &[0, 1, 0, 3, 1, 0, 3, 7, 7, 7],
        Question::Spent(0, 5, false),
    ),
    // Items 0 and 1 in: a row is impossible at an Open leaf, and at a branch.
    (
        PLAIN,
        &[0, 1, 0, 0, 1, 0, 1, 7, 7, 7],
        Question::Spent(0, 5, false),
    ),
    (
        PLAIN,
        &[0, 1, 0, 0, 1, 0, 1, 1, 0, 2, 7, 7, 7, 7],
        Question::Spent(0, 7, false),
    ),
    // The start {1, 2, 3} has 23.
    (PLAIN, &[0, 7], Question::Spent(BEST, 1, true)),
    (PLAIN, BRANCHES, Question::Spent(BEST, 5, false)),
    // {1, 3, 4} has 18, and {0, 2, 3} has 20: the bound with items 3 and 4 in leaves no room above
    // it.
    (PLAIN, BRANCHES, Question::Spent(0x1a, 5, true)),
    (PLAIN, BRANCHES, Question::Spent(0x0d, 5, false)),
    // {1, 2, 5} has 24, but it is no form.
    (PLAIN, BRANCHES, Question::Spent(0x26, 5, true)),
];

#[test]
fn verdicts(rt: HostRuntime) {
    expect_trials(&rt, rt.alloc(), &CAPPED);
    expect_trials(&rt, rt.alloc(), &VERDICTS);
    expect_trials(&rt, rt.alloc(), &FIXES);
    expect_trials(&rt, rt.alloc(), &NO_FORM);
}

#[test]
fn spent_trees(rt: HostRuntime) {
    expect_trials(&rt, rt.alloc(), &SPENT);
}
