//! How many lines a log writes of one service.
ghost use Rattle.std.specs.Prelude.{◌≡◌, ◌≤◌};
ghost use Rattle.service_log.specs.Quotas.{most_lines, taken, after_take};

/// How many lines are written in a second at most.
const MOST_LINES: u64 = 100;

/// How many lines were written in a second, and how many were left out since a line was written.
#[derive(Clone, Copy, Debug, PartialEq, Eq)]
pub(crate) struct Quota {
    /// The second, by moments in milliseconds.
    second: u64,
    /// How many lines were written in it.
    written: u64,
    /// How many lines were left out since the last one that was written.
    left_out: u64,
}

impl Quota {
    /// No line was written or left out.
    pub(crate) const NONE: Quota = Quota {
        second: 0,
        written: 0,
        left_out: 0,
    };

    /// Takes the place of a line at a moment in milliseconds. Answers how many lines were left out before it, where it may be
    /// written; and None where it is to be left out, since 100 lines were written in its second.
    pub(crate) fn take(&mut self, moment: u64) -> Option<u64>
        ensures taken { result ≡ taken self.old moment }
        ensures after { self.new ≡ after_take self.old moment }
    {
        let second = moment / 1_000;
        if second != self.second {
            self.second = second;
            self.written = 0;
        }
        if self.written >= MOST_LINES {
            self.left_out = self.left_out.saturating_add(1);
            return None;
        }
        self.written += 1;
        let left_out = self.left_out;
        self.left_out = 0;
        Some(left_out)
    }
}
