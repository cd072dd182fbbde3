//! What the operator of a server is told.

use exam_edge::{Gate, Point};
use exam_handler::{Health, Observer};
use host_edge::Lines;
use std::alloc::{AllocError, Global};
use std::sync::Arc;
use std::sync::atomic::{AtomicU64, Ordering};
use std::time::Instant;

/// What was seen so far, as threads share it. Each number only rises.
#[derive(Drop)]
struct Seen {
    /// 1 once the journal was read.
    begun: AtomicU64,
    entries: AtomicU64,
    sessions: AtomicU64,
    /// The level of the sessions that has its line, in hundredths of the plan's limit.
    sessions_level: AtomicU64,
    /// The same of the length of the journal.
    length_level: AtomicU64,
}

/// Watches a server's examination for its operator, who is told by lines on standard error. As a
/// gate it holds nobody.
#[derive(Drop)]
pub struct Watch {
    rt: HostRuntime,
    lines: Lines,
    start: Option<Instant>,
    journal: String,
    address: Option<String>,
    seen: Arc<Seen, Global>,
}

// How often a number is tried to be raised while other threads raise it, too.
const TRIES: u32 = 1_000_000;

// Raises a number to this one. Whether it was lower, and this call raised it.
fn raises(number: &AtomicU64, to: u64) -> bool {
    for _ in 0..TRIES {
        let now = number.load(Ordering::SeqCst);
        if to <= now {
            return false;
        }
        let raised = number.compare_exchange(now, to, Ordering::SeqCst, Ordering::SeqCst);
        if raised.is_ok() {
            return true;
        }
    }
    false
}

// The level that a part of a limit has reached, in hundredths of it: 0, 80 or 95. The rest is what
// the limit leaves.
fn level_of(part: u64, rest: u64) -> u64 {
    let limit = part.saturating_add(rest);
    let hundredths = part.saturating_mul(100);
    if part > 0 && hundredths >= limit.saturating_mul(95) {
        95
    } else if part > 0 && hundredths >= limit.saturating_mul(80) {
        80
    } else {
        0
    }
}

impl Watch {
    /// A watch over the server of this journal's file, which listens at this address, if it could
    /// be had. It measures from now on.
    pub fn new(
        rt: &HostRuntime,
        lines: Lines,
        journal: String,
        address: Option<String>,
    ) -> Result<Watch, AllocError> {
        let seen = Seen {
            begun: AtomicU64::new(0),
            entries: AtomicU64::new(0),
            sessions: AtomicU64::new(0),
            sessions_level: AtomicU64::new(0),
            length_level: AtomicU64::new(0),
        };
        Ok(Watch {
            rt: rt.clone()?,
            lines,
            start: Instant::now(rt).ok(),
            journal,
            address,
            seen: Arc::new(rt.alloc(), seen)?,
        })
    }

    /// The same watch, for one owner more. An error where it has too many.
    pub fn share(&self) -> Result<Watch, AllocError> {
        Ok(Watch {
            rt: self.rt.clone()?,
            lines: self.lines.share()?,
            start: self.start,
            journal: self.journal.clone()?,
            address: self.address.clone()?,
            seen: Arc::try_clone(&self.seen)?,
        })
    }

    // Writes that the journal was read, and where the server listens.
    fn tell_begin(&self, health: &Health) {
        let (journal, entries, sessions) = (self.journal.as_str(), health.entries, health.sessions);
        match self.start.and_then(|start| start.elapsed(&self.rt).ok()) {
            Some(time) => {
                let (seconds, millis) = (time.as_secs(), time.subsec_millis());
                self.lines.tell_of(
                    journal,
                    format_args!(
                        "{entries} entries, {sessions} sessions, read {seconds}.{millis:03} seconds after the start"
                    ),
                )
            }
            None => self.lines.tell_of(
                journal,
                format_args!("{entries} entries, {sessions} sessions, read"),
            ),
        }
        if let Some(address) = &self.address {
            self.lines
                .tell(format_args!("listening on {address}, journal {journal}"));
        }
    }

    // Writes the level of the sessions where it is a new one.
    fn tell_sessions(&self, health: &Health) {
        let (sessions, left) = (health.sessions, health.sessions_left);
        let level = level_of(u64::from(sessions), u64::from(left));
        if raises(&self.seen.sessions_level, level) {
            self.lines.tell(format_args!(
                "{level} of 100 of the plan's sessions: {sessions} have started, and {left} may still start"
            ));
        }
    }

    // The same of the length of the journal.
    fn tell_length(&self, health: &Health) {
        let (length, room) = (health.length, health.room);
        let level = level_of(length, room);
        if raises(&self.seen.length_level, level) {
            self.lines.tell(format_args!(
                "{level} of 100 of the plan's journal: it has {length} bytes, and room for {room} more"
            ));
        }
    }

    /// Writes the numbers that were seen in the end, if the journal was read.
    pub fn tell_end(&self) {
        if self.seen.begun.load(Ordering::SeqCst) == 0 {
            return;
        }
        let journal = self.journal.as_str();
        let entries = self.seen.entries.load(Ordering::SeqCst);
        let sessions = self.seen.sessions.load(Ordering::SeqCst);
        self.lines.tell_of(
            journal,
            format_args!("{entries} entries, {sessions} sessions at the end"),
        );
    }
}

impl Gate for Watch {
    fn pass(&self, _point: Point, _caller: u32) {}
}

impl Observer for Watch {
    fn see(&self, health: &Health) {
        if raises(&self.seen.begun, 1) {
            self.tell_begin(health);
        }
        raises(&self.seen.entries, health.entries);
        raises(&self.seen.sessions, u64::from(health.sessions));
        self.tell_sessions(health);
        self.tell_length(health);
    }
}
