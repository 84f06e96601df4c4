//! How long a connection may take, by what it is about.
use http_connection::Phase;

/// For how many milliseconds a connection may stay idle between messages. It is above the minute that clients of HTTP
/// keep idle connections open for, so that mostly the client closes first.
const MOST_IDLE: u64 = 75_000;

/// Within how many milliseconds a message is to be whole, from its first byte on.
const MOST_FOR_A_MESSAGE: u64 = 20_000;

/// Within how many milliseconds an answer is to be taken.
const MOST_FOR_AN_ANSWER: u64 = 20_000;

/// For how many milliseconds a connection stays open behind its last answer, while its other side still sends.
pub(crate) const MOST_LINGERING: u64 = 2_000;

/// For how many milliseconds a connection may be about the same.
pub(crate) fn patience(phase: Phase) -> u64 {
    match phase {
        Phase::Idle => MOST_IDLE,
        Phase::Message => MOST_FOR_A_MESSAGE,
        Phase::Answer => MOST_FOR_AN_ANSWER,
    }
}

/// When a connection is to be closed that becomes idle at a moment, both in milliseconds of the system's clock.
pub(crate) fn idle_deadline(now: u64) -> u64 {
    now.saturating_add(MOST_IDLE)
}
