//! How serving ends.

/// How serving an input ended.
#[derive(Clone, Copy, Debug, PartialEq, Eq)]
pub enum Ended {
    /// The input ended between messages.
    Closed,
    /// No further message is answered behind the last one: it was refused, is one of HTTP/1.0, or asked for the end
    /// of the connection. No further read is made behind it. Bytes that came with it, ahead of the next message, are dropped.
    Finished,
    /// The input ended within a message: nothing is answered or done for it.
    Truncated,
    /// A read failed, where no whole message was there. One that was interrupted failed too.
    ReadFailed,
    /// A write failed, or took nothing. One that was interrupted failed too.
    WriteFailed,
    /// Memory ran out.
    OutOfMemory,
}
