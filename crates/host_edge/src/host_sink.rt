//! Standard output.

ghost use Rattle.std.specs.Prelude.{◌≡◌, ◌≤◌, ◌<◌, [], None, false, is_ok, length, IfOk, OnErr};
ghost use Rattle.exam_edge.specs.Faults.{Rose};
ghost use Rattle.host_edge.specs.FaultCount.{count_of, cause_of, IsCounted};
ghost use Rattle.host_edge.specs.HostSink.{faults_of};

use crate::again::{flush_again, write_again};
use crate::fault_count::FaultCount;
use exam_edge::{Failed, Sink};
use std::io;
use std::io::Stdout;

/// Standard output, flushed at each write. It does not report what was written.
#[derive(Drop)]
pub struct HostSink {
    out: Stdout,
    faults: FaultCount,
}

// Writes bytes, which then have left the program.
fn write_flushed(out: &mut Stdout, piece: &[u8]) -> io::Result<usize> {
    let count = write_again(out, piece)?;
    flush_again(out)?;
    Ok(count)
}

impl HostSink {
    /// The sink over standard output; no call has failed yet.
    pub fn of(out: Stdout) -> HostSink
        ensures count { count_of (faults_of result) ≡ 0 }
        ensures cause { cause_of (faults_of result) ≡ None }
    {
        HostSink {
            out,
            faults: FaultCount::none(),
        }
    }

    /// Why the last call that failed did.
    pub fn cause(&self) -> Option<io::Error>
        ensures { result ≡ cause_of (faults_of self.now) }
    {
        self.faults.cause()
    }
}

impl Sink for HostSink {
    ghost tells = { λ s. false };

    ghost written = { λ s. [] };

    ghost faults = { λ s. count_of (faults_of s) };

    ghost identity = { λ s. 0 };

    fn write(&mut self, piece: &[u8]) -> Result<usize, Failed>
        ensures count { IfOk result (λ k. k ≤ length piece.now) }
        ensures some { IfOk result (λ k. 0 < length piece.now → 0 < k) }
        ensures counted { IsCounted (is_ok result) (faults_of self.old) (faults_of self.new) }
        ensures grows { count_of (faults_of self.old) ≤ count_of (faults_of self.new) }
        ensures failed { OnErr result
            (Rose (count_of (faults_of self.old)) (count_of (faults_of self.new))) }
    {
        if piece.is_empty() {
            return Ok(0);
        }
        let given = write_flushed(&mut self.out, piece);
        self.faults.answer_count(given, 1, piece.len())
    }
}
