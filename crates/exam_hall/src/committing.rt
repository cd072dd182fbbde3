//! The turn of a commit.

ghost use Rattle.std.specs.Prelude.{◌≡◌, Some};
ghost use Rattle.history_model.specs.Places.{place};
ghost use Rattle.exam_office.specs.Commits.{MayBeCommitted};
ghost use Rattle.exam_office.specs.Marks.{history};
ghost use Rattle.exam_hall.specs.Lasting.{committable_later};
ghost use Rattle.exam_hall.specs.Rounds.{IsGoodFor, IsCommittable, Commits};
ghost use Rattle.exam_hall.specs.Turns.{Ended, IsRoundAt};

use branch_bound::Assembled;
use constraint_model::Problem;
use exam_edge::Disk;
use exam_office::{Office, Place, Refusal};
use std::alloc::Global;
use turn_lock::Move as TurnMove;

/// What one assembly with its commit did.
#[derive(Clone, Copy)]
pub enum Round<'a> {
    /// The session is at this place.
    Placed(Place),
    /// It still waits for the item of the same step, with this problem.
    Again(Problem<'a>),
    /// The next entry was not added.
    Failed(Refusal),
}

/// Commits what was assembled, and looks where its session is then.
#[derive(Drop)]
pub(crate) struct Commit<'a> {
    pub(crate) alloc: Global,
    pub(crate) assembled: Assembled<'a>,
}

/// Where the session of a problem is, and its next problem where it still waits for the item of the
/// same step.
fn round_at<'a, D: Disk>(office: &Office<'a, D>, asked: &Problem<'a>, at: Place) -> Round<'a>
    requires { place office.now.plan (history office.now.marks) asked.now.session ≡ Some at }
    ensures { IsRoundAt office.now.bank office.now.plan (history office.now.marks) asked.now at
        result }
{
    match office.problem(asked.session) {
        Some(next) => {
            if next.step == asked.step {
                Round::Again(next)
            } else {
                Round::Placed(at)
            }
        }
        None => Round::Placed(at),
    }
}

fn commit_to<'a, D: Disk>(
    office: &mut Office<'a, D>,
    alloc: Global,
    assembled: &Assembled<'a>,
) -> Round<'a>
    requires may { MayBeCommitted office.old.bank office.old.plan office.old.base
        (history office.old.marks) assembled.now }
    requires good { IsGoodFor office.old.base assembled.now }
    ensures { Ended assembled.now office.old office.new result }
{
    office.keeps();
    let found = office.commit(alloc, assembled);
    office.keeps();
    match found {
        Ok(at) => round_at(office, assembled.problem(), at),
        Err(refusal) => match refusal {
            Refusal::Stale(at, _) => round_at(office, assembled.problem(), at),
            _ => Round::Failed(refusal),
        },
    }
}

impl<'a, D: Disk> TurnMove<Office<'a, D>> for Commit<'a> {
    type Answer = Round<'a>;

    ghost needs = { λ m seen. IsCommittable seen m.assembled };

    ghost makes = { λ m before after _ round. Commits m.assembled before after round };

    fn make(&mut self, value: &mut Office<'a, D>) -> Round<'a> {
        let round = commit_to(value, self.alloc, &self.assembled);
        value.keeps();
        round
    }

    ghost lasts = { λ m seen rest h. committable_later m.assembled seen rest h };
}
