//! Forms that are ready on a desk that one caller has for itself.

ghost use Rattle.std.specs.Prelude.{◌≡◌};
ghost use Rattle.exam_hall.specs.Known.{IsOf};
ghost use Rattle.prepare_desk.specs.Desks.{purpose_of};

use crate::assemblies::Assemblies;
use crate::prepared::{Outcome, Row, Step, Tried};
use crate::requests::{request_of, told};
use exam_edge::MemoryDisk;
use exam_hall::Hall;
use exam_office::Office;
use prepare_desk::Desk;
use std::alloc::Global;
use std::sync::Wait;
use std::test::Fail;
use turn_lock::Pass;

// What comes of one step.
fn row_of<'a, R: Wait>(
    rt: &R,
    alloc: Global,
    hall: &Hall<'a, MemoryDisk>,
    gate: &Assemblies,
    pass: &mut Pass<Office<'a, MemoryDisk>>,
    desk: &mut Desk<'a>,
    step: &Step,
) -> Row
    requires of { IsOf pass.old hall.now }
    requires purpose { desk.old.purpose ≡ purpose_of hall.now }
    ensures of { IsOf pass.new hall.now }
    ensures purpose { desk.new.purpose ≡ desk.old.purpose }
{
    let outcome = match step {
        Step::Ask(ask) => {
            let reply = desk.handle(rt, alloc, hall, gate, pass, &request_of(ask));
            Outcome::Reply(told(&reply))
        }
        Step::Prepare(session) => match desk.prepare(rt, alloc, hall, gate, pass, *session) {
            Ok(forms) => Outcome::Prepared(forms),
            Err(_) => Outcome::NoMemory,
        },
    };
    (outcome, gate.begun())
}

// What comes of four steps of a caller with this desk.
fn rows_with<'a, R: Wait>(
    rt: &R,
    alloc: Global,
    hall: &Hall<'a, MemoryDisk>,
    pass: &mut Pass<Office<'a, MemoryDisk>>,
    desk: &mut Desk<'a>,
    steps: &[Step; 4],
) -> [Row; 4]
    requires of { IsOf pass.old hall.now }
    requires purpose { desk.old.purpose ≡ purpose_of hall.now }
    ensures of { IsOf pass.new hall.now }
{
    let gate = Assemblies::new();
    let [begin, second, third, last] = steps;
    let begun = row_of(rt, alloc, hall, &gate, pass, desk, begin);
    let second = row_of(rt, alloc, hall, &gate, pass, desk, second);
    let third = row_of(rt, alloc, hall, &gate, pass, desk, third);
    let last = row_of(rt, alloc, hall, &gate, pass, desk, last);
    [begun, second, third, last]
}

// What comes of the steps in a hall with this desk, and the answers that something is ready for at
// the end. The hall is closed then.
pub(crate) fn tried_with_own<'a, R: Wait>(
    rt: &R,
    alloc: Global,
    hall: Hall<'a, MemoryDisk>,
    pass: Pass<Office<'a, MemoryDisk>>,
    desk: Desk<'a>,
    steps: &[Step; 4],
) -> Result<Tried, Fail>
    requires of { IsOf pass hall }
    requires purpose { desk.purpose ≡ purpose_of hall }
{
    let (mut pass, mut desk) = (pass, desk);
    let rows = rows_with(rt, alloc, &hall, &mut pass, &mut desk, steps);
    let _ = hall.close(rt, pass).into_disk();
    match desk.keys(alloc) {
        Ok(left) => Ok((rows, left)),
        Err(_) => Err(Fail::from("no memory for the keys")),
    }
}
