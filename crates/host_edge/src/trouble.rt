//! Errors of a listener that pass.

use crate::Lines;
use std::io;
use std::io::ErrorKind;

/// Writes a line on a worker that ends, since its door failed.
pub fn tell_end(lines: &Lines, cause: &io::Error) {
    lines.tell(format_args!("a worker ends: {cause}"));
}

/// Writes a line on an end that is asked for.
pub fn tell_asked(lines: &Lines) {
    lines.tell("asked to end");
}

/// Whether a listener has an error that passes, of which standard error has a line.
#[derive(Drop)]
pub struct Trouble {
    is_told: bool,
}

impl Trouble {
    /// No error.
    pub fn none() -> Trouble {
        Trouble { is_told: false }
    }

    /// Writes a line on the first error. A connection that ended before it was accepted has none.
    pub fn begin(&mut self, lines: &Lines, cause: &io::Error) {
        let is_of_connection = matches!(
            cause.kind(),
            ErrorKind::Interrupted | ErrorKind::ConnectionAborted | ErrorKind::ConnectionReset
        );
        if !self.is_told && !is_of_connection {
            lines.tell(format_args!("connections have to wait: {cause}"));
            self.is_told = true;
        }
    }

    /// Writes a line when connections are accepted again.
    pub fn end(&mut self, lines: &Lines) {
        if self.is_told {
            lines.tell("connections are accepted again");
            self.is_told = false;
        }
    }
}
