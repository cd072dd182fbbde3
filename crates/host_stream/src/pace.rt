//! How a stream waits.

/// How many milliseconds one wait takes.
pub const PAUSE: u64 = 5;

// So many waits pass before the server is asked for its count: 50 milliseconds; and then from one
// question to the next: 200; or, where it did not answer, 2 seconds.
const FIRST: u32 = 10;

const NEXT: u32 = 40;

const NO_ANSWER: u32 = 400;

// So many waits pass from one look at the file's path to the next: a second.
const LOOK: u32 = 200;

// So many waits are long: 20 seconds.
const LONG: u32 = 4000;

/// The waits since the follower asked for a record.
#[derive(Clone, Copy, Debug, PartialEq, Eq, Drop)]
pub struct Pace {
    waits: u32,
    question: u32,
}

impl Pace {
    /// Before the first wait.
    pub fn new() -> Pace {
        Pace {
            waits: 0,
            question: FIRST,
        }
    }

    /// One wait more: whether it is the last one of a long time. Then the next one is the first.
    pub fn count(&mut self) -> bool {
        self.waits = self.waits.saturating_add(1);
        let is_long = LONG <= self.waits;
        if is_long {
            *self = Pace::new();
        }
        is_long
    }

    /// Whether the server is to be asked.
    pub fn is_question_due(&self) -> bool {
        self.question <= self.waits
    }

    /// The server was asked. Whether it answered.
    pub fn asked(&mut self, answered: bool) {
        let pause = if answered { NEXT } else { NO_ANSWER };
        self.question = self.waits.saturating_add(pause);
    }

    /// Whether the file's path is to be looked at: once each second.
    pub fn is_look_due(&self) -> bool {
        self.waits % LOOK == LOOK - 1
    }
}
