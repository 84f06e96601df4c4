//! Where the lines of a log go.
ghost use Rattle.service_log.specs.Lines.{IsLogLine};

use std::io::Write;

/// What takes the lines of a log, from any thread.
pub trait LogLines {
    /// Writes a line of a log, which ends by itself, at once. What can't be written is lost, and nothing else changes.
    fn log_line(&self, line: &str)
        // No other text goes there: the line tells a state, a program, what became of a journal or of a ticket, how many lines
        // were left out, or why a report can't be used, of a service at a moment.
        requires line { IsLogLine line.now };
}

impl LogLines for HostRuntime {
    /// Writes the line on the process's standard error.
    fn log_line(&self, line: &str) {
        let mut err = self.stderr();
        let _sent = err.write_all(line.as_bytes());
    }
}
