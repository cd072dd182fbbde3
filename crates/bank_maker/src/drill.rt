//! The texts of a drill.

ghost use Rattle.std.specs.Prelude.{◌≤◌, IfOk};
ghost use Rattle.bank_maker.specs.Drills.{IsDrill};

use crate::act::acts_of;
use crate::bank::bank_text;
use crate::draws::Draws;
use crate::item::draw_items;
use crate::plan::plan_text;
use crate::script::script_text;
use exam_edge::Memory;
use std::alloc::Global;

/// The three texts of a drill.
#[derive(Debug, Drop)]
pub struct Made {
    /// The bank text, with a header and a record for each of 120 items.
    pub bank: Vec<u8>,
    /// The plan text, in its canonical form.
    pub plan: Vec<u8>,
    /// The script, a line for each request.
    pub script: Vec<u8>,
}

/// Makes the texts of a drill of so many sessions from a number. `Memory` is lack of memory.
pub fn make(alloc: Global, number: u32, sessions: u32) -> Result<Made, Memory>
    requires some { 1 ≤ sessions }
    requires few { sessions ≤ 200 }
    // Promise: The bank text has a header and a record for each of 120 items. The peak, height and
    // quantity of item i are draws 3i, 3i + 1 and 3i + 2 of the number's generator
    // - by the clause (`IsDrill`, `bank_of_drill`)
    // Promise: The plan text is the canonical text of the stated plan: its lengths, prior, rate,
    // key, limits, rows, bounds and base form
    // - by the clause (`plan_of_drill`)
    // Promise: The script has the sessions in groups of ten. Each answer takes the next draw for
    // its response, and the last session is closed at step 10
    // - by the clause (`script_of_drill`)
    ensures { IfOk result (λ made. IsDrill number sessions made) }
{
    let mut draws = Draws::new(number);
    let items = draw_items(alloc, &mut draws)?;
    let bank = bank_text(alloc, &items)?;
    let plan = plan_text(alloc, number, sessions, &items)?;
    let acts = acts_of(alloc, sessions)?;
    let script = script_text(alloc, &mut draws, &acts)?;
    Ok(Made { bank, plan, script })
}
