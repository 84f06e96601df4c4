//! What a seat is answered, as plain data.
use book::{Fate, Reply, State};
use bpf_profile::{Layout, Verdict};
use refusals::RefusalNumber;

/// What a seat is answered.
#[derive(Clone, Copy)]
pub enum Answer {
    /// A ticket of version 1, in CLOSED.
    Permitted(u64),
    /// A ticket, and the version that judges under it.
    PermittedBy(u64, u64, State),
    /// The default classifier, as version 1, judged.
    Finished(Fate, Verdict, State),
    /// The default classifier, as this version, judged.
    FinishedBy(u64, Fate, Verdict, State),
    /// The program that ignores every outcome, as this version, judged.
    IgnoredBy(u64, State),
    Released(State),
    /// A version, and the budget of its program.
    Installed(u64, u32),
    /// A state, and the number of its period.
    Moved(State, u64),
    Refused(RefusalNumber),
}

/// The default classifier, as version 1, saw a success in CLOSED.
pub const SUCCESS: Answer = Answer::Finished(Fate::Recorded, Verdict::Success, State::Closed);

/// The default classifier, as version 1, saw a failure in CLOSED.
pub const FAILURE: Answer = Answer::Finished(Fate::Recorded, Verdict::Failure, State::Closed);

/// The breaker permits no call.
pub const NOT_PERMITTED: Answer = Answer::Refused(RefusalNumber::CallNotPermitted);

/// The ticket has ended.
pub const SPENT: Answer = Answer::Refused(RefusalNumber::TicketSpent);

/// The ticket was never issued.
pub const NO_TICKET: Answer = Answer::Refused(RefusalNumber::NoTicket);

/// The journal is full.
pub const FULL: Answer = Answer::Refused(RefusalNumber::JournalFull);

/// The reply that an answer stands for.
pub fn reply(answer: Answer) -> Reply {
    match answer {
        Answer::Permitted(ticket) => permitted(ticket, 1, State::Closed),
        Answer::PermittedBy(ticket, version, state) => permitted(ticket, version, state),
        Answer::Finished(fate, verdict, state) => judged(1, fate, verdict, 6, state),
        Answer::FinishedBy(version, fate, verdict, state) => {
            judged(version, fate, verdict, 6, state)
        }
        Answer::IgnoredBy(version, state) => {
            judged(version, Fate::Ignored, Verdict::Ignored, 2, state)
        }
        Answer::Released(state) => Reply::Released { state },
        Answer::Installed(version, budget) => Reply::Installed {
            version,
            budget,
            layout: Layout::One,
        },
        Answer::Moved(state, period) => Reply::Moved { state, period },
        Answer::Refused(number) => Reply::Refused(number),
    }
}

fn permitted(ticket: u64, version: u64, state: State) -> Reply {
    Reply::Permitted {
        ticket,
        version,
        state,
    }
}

fn judged(version: u64, fate: Fate, verdict: Verdict, steps: u32, state: State) -> Reply {
    Reply::Finished {
        fate,
        verdict,
        steps,
        version,
        state,
    }
}
