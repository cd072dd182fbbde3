//! The turns of a look at the health.

ghost use Rattle.exam_hall.specs.Probes.{Probed, Probing, Watching};

use exam_edge::Disk;
use exam_handler::Health;
use exam_office::{Office, Refusal};
use turn_lock::Move as TurnMove;

/// Resolves the entry in doubt, if there is one, and looks how the examination is.
#[derive(Drop)]
pub(crate) struct Probe;

/// Only looks how the examination is.
#[derive(Drop)]
pub(crate) struct Watch;

fn look_at<'a, D: Disk>(office: &mut Office<'a, D>) -> Result<Health, Refusal>
    ensures { Probed office.old office.new result }
{
    office.keeps();
    office.probe()
}

impl<'a, D: Disk> TurnMove<Office<'a, D>> for Probe {
    type Answer = Result<Health, Refusal>;

    ghost needs = { λ _ _. Unit {0} };

    ghost makes = { λ _ before after _ result. Probing before after result };

    fn make(&mut self, value: &mut Office<'a, D>) -> Result<Health, Refusal> {
        let found = look_at(value);
        value.keeps();
        found
    }

    ghost lasts = { λ _ _ _ h. h };
}

impl<'a, D: Disk> TurnMove<Office<'a, D>> for Watch {
    type Answer = Health;

    ghost needs = { λ _ _. Unit {0} };

    ghost makes = { λ _ before after _ found. Watching before after found };

    fn make(&mut self, value: &mut Office<'a, D>) -> Health {
        value.keeps();
        value.health()
    }

    ghost lasts = { λ _ _ _ h. h };
}
