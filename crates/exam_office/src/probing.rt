//! How an examination is, and a look at it.

ghost use Rattle.std.specs.Prelude.{◌≡◌, IfErr};
ghost use Rattle.exam_handler.specs.Handling.{IsProbeRefusal};
ghost use Rattle.exam_office.specs.Health.{IsProbed, health};

use crate::office::Office;
use exam_edge::Disk;
use exam_handler::Health;
use history_model::Refusal;
use history_model::laws::finished_are_few;

impl<'a, D: Disk> Office<'a, D> {
    /// How the examination is, without the entry in doubt, if there is one. It takes no memory.
    pub fn health(&self) -> Health
        // Promise: The health of an office that resolves nothing is by its history alone
        // - by the clause (`health`)
        ensures { result ≡ health self.now.plan self.now.marks }
    {
        finished_are_few();
        let sessions = self.book.sessions();
        let finished = self.book.counters().finished();
        let length = self.journal.length();
        Health {
            entries: self.book.entries(),
            sessions,
            open: sessions - finished,
            sessions_left: self.spec.sessions() - sessions,
            length,
            room: self.spec.journal() - length,
        }
    }

    /// Resolves the entry in doubt, if there is one, and answers how the examination is then.
    /// Refused where the disk failed again, or where there is no room for a mark.
    pub fn probe(&mut self) -> Result<Health, Refusal>
        // Promise: A look at the health first resolves an entry in doubt, and then gives the number
        // of entries, of sessions and of open ones, the journal's length, and what the plan's
        // limits leave. After `Ok` each file that a crash may leave represents the history. At
        // every moment before it represents that, or the history with the entry in doubt
        // - by `probed` (`IsProbed`), `refusal`
        ensures probed { IsProbed self.old result self.new }
        ensures refusal { IfErr result IsProbeRefusal }
    {
        match self.settle() {
            Ok(()) => Ok(self.health()),
            Err(refusal) => Err(refusal),
        }
    }
}
