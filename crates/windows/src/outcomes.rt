//! What a window keeps of a note's outcome.

/// What a window over the last notes keeps of a note. Its moment is not needed.
#[derive(Clone, Copy, Debug, PartialEq, Eq)]
pub struct Outcome {
    /// Whether the verdict is a failure.
    pub failed: bool,
    /// Whether the call took longer than the threshold.
    pub slow: bool,
}
