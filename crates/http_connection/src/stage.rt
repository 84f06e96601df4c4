//! How a connection stands.

/// How a connection stands.
#[derive(Clone, Copy)]
pub enum Stage {
    /// Messages are read and answered.
    Open,
    /// The last message was answered: nothing is read behind it, and the rest of its answer is written.
    Last,
    /// There was no memory for the answer to a message.
    Lost,
}
