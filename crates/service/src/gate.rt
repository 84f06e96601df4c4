//! What is called while a service is asked, and no lock is held.
use crate::log::News;
use book::Reading;

/// What is called while a service is asked, and no lock is held: in the middle of a report, where a test may hold it until
/// another one was answered; and behind a call, where a service's log is told of changes.
pub trait Gate {
    /// Called once the outcome was judged under this ticket, and before the finish.
    fn between(&self, ticket: u64);

    /// Told what the service of this number was answered, or did for its upkeep, at a moment in milliseconds. Answers whether
    /// it wants to see how the service stands; a gate that keeps no log doesn't.
    fn told(&self, _service: usize, _moment: u64, _news: News) -> bool {
        false
    }

    /// Shown how the service of this number stands at a moment in milliseconds, where it wanted to see it.
    fn shown(&self, _service: usize, _moment: u64, _reading: &Reading) {}

    /// Told that this body of a report on a call of the service of this number can't be used, at a moment in milliseconds.
    fn refused(&self, _service: usize, _moment: u64, _body: &[u8]) {}
}

/// A gate that holds nobody, and tells nobody anything.
#[derive(Clone, Copy, Debug)]
pub struct OpenGate;

impl Gate for OpenGate {
    fn between(&self, _ticket: u64) {}
}
