//! Why a command ends before its work is done.

ghost use Rattle.std.specs.Prelude.{◌≡◌};
ghost use Rattle.exam_program.specs.declared.halt.Halt.TheVariants.{Memory};

use bank_reader::ReadFault;
use exam_office::OpenFault;
use proof_tree::Tree;
use replay_cli::ScriptFault;
use series_tree::SeriesTree;
use spec_reader::PlanFault;
use std::alloc::AllocError;

/// The first fault that is met, with the facts that it has. `report` makes its text.
#[derive(Drop)]
pub enum Halt {
    /// The bank text is refused.
    Bank(ReadFault),
    /// The plan text is refused.
    Plan(PlanFault),
    /// The script text is refused.
    Script(ScriptFault),
    /// No set of items is a form of the whole problem: the tree that shows it.
    NoForm(Tree),
    /// No form of the whole problem was found within the base budget, in nodes: the tree that
    /// spends it.
    NoBaseForm { budget: u32, tree: Tree },
    /// The journal's file represents no history of this bank and plan, is too long, or is of a
    /// version that this command does not take.
    Journal(OpenFault),
    /// A request would start one session more than the plan allows; the number of sessions, and the
    /// plan's limit.
    Sessions { count: u32, most: u32 },
    /// The journal would be longer than the plan allows: the length that it would have, and the
    /// plan's limit, in bytes.
    JournalFull { size: u64, most: u64 },
    /// The weights of a series are not those of the grid's points.
    Weights,
    /// There is no series: the tree that shows it.
    NoSeries(SeriesTree),
    /// No series was found within the base budget, in nodes: the tree that spends it.
    NoSeriesFound { budget: u32, tree: SeriesTree },
    /// A call of the files failed.
    Files,
    /// A call of the sink failed.
    Sink,
    /// A call of the disk failed.
    Disk,
    /// Out of memory.
    Memory,
}

impl From<AllocError> for Halt {
    ghost from_gives = { λ _ e. e ≡ Memory };

    fn from(_: AllocError) -> Halt {
        Halt::Memory
    }
}
