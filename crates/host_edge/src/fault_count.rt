//! How often an object of the host failed, and why.

ghost use Rattle.std.specs.Prelude.{◌≡◌, ◌≤◌, Ok, Err, Some, None, is_ok, false, IsErr, IfOk, IfErr, OnErr};
ghost use Rattle.exam_edge.specs.Faults.{Rose};
ghost use Rattle.host_edge.specs.FaultCount.{count_of, cause_of, IsCounted};

use exam_edge::Failed;
use std::io;
use std::io::ErrorKind;

/// How many calls of an object have failed, a count that stays at its last value, and why the last
/// of them did.
#[derive(Drop)]
pub struct FaultCount {
    count: u64,
    cause: Option<io::Error>,
}

impl FaultCount {
    /// Before the first call.
    pub fn none() -> FaultCount
        ensures count { count_of result ≡ 0 }
        ensures cause { cause_of result ≡ None }
    {
        FaultCount {
            count: 0,
            cause: None,
        }
    }

    /// Why the last call that failed did.
    pub fn cause(&self) -> Option<io::Error>
        ensures { result ≡ cause_of self.now }
    {
        self.cause
    }

    /// Counts a call that failed.
    pub fn count_fault(&mut self, cause: io::Error) -> Failed
        ensures counted { IsCounted false self.old self.new }
        ensures grows { count_of self.old ≤ count_of self.new }
        ensures rose { Rose (count_of self.old) (count_of self.new) }
        ensures cause { cause_of self.new ≡ Some cause }
    {
        self.count = self.count.saturating_add(1);
        self.cause = Some(cause);
        Failed
    }

    /// The answer of a call of which the system gave this: the same, or a fault that is counted.
    pub fn answer<T: Drop>(&mut self, given: io::Result<T>) -> Result<T, Failed>
        ensures done { IfOk given (λ x. result ≡ Ok x) }
        ensures failed { IfErr given (λ e. IsErr result × (cause_of self.new ≡ Some e)) }
        ensures counted { IsCounted (is_ok result) self.old self.new }
        ensures grows { count_of self.old ≤ count_of self.new }
        ensures rose { OnErr result (Rose (count_of self.old) (count_of self.new)) }
    {
        match given {
            Ok(x) => Ok(x),
            Err(cause) => Err(self.count_fault(cause)),
        }
    }

    /// The answer of a call that moved so many bytes: fewer than `least` and more than `most` are a
    /// fault too.
    pub fn answer_count(
        &mut self,
        given: io::Result<usize>,
        least: usize,
        most: usize,
    ) -> Result<usize, Failed>
        ensures done { IfOk given (λ k. least ≤ k → k ≤ most → result ≡ Ok k) }
        ensures failed { IfErr given (λ e. IsErr result × (cause_of self.new ≡ Some e)) }
        ensures same { IfOk result (λ k. (given ≡ Ok k) × (least ≤ k) × (k ≤ most)) }
        ensures counted { IsCounted (is_ok result) self.old self.new }
        ensures grows { count_of self.old ≤ count_of self.new }
        ensures rose { OnErr result (Rose (count_of self.old) (count_of self.new)) }
    {
        match given {
            Ok(count) if least <= count && count <= most => Ok(count),
            Ok(_) => Err(self.count_fault(io::Error::from(ErrorKind::InvalidData))),
            Err(cause) => Err(self.count_fault(cause)),
        }
    }
}
