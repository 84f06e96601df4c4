//! What a step leads to.

/// What a step that doesn't trap leads to.
#[derive(Clone, Copy)]
pub(crate) enum Progress {
    /// The next state, in which the machine now is.
    Goes,
    /// The end, with this answer. The machine stays as it was.
    Answers(u64),
}
