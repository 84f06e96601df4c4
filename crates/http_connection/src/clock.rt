//! The clock.
ghost use Rattle.std.specs.Prelude.{ℕ};

/// Tells the moment.
pub trait Clock {
    // how a state is related to the moment that is read and the state after it
    ghost ticks: { Self → ℕ → Self → Type 0 };

    /// The moment, in milliseconds.
    fn now_ms(&mut self) -> u64
        ensures { ticks self.old result self.new };
}
