//! Entries of a journal, as plain data.
use crate::answers::{Answer, reply};
use crate::asking::response;
use crate::wishes::Wish;
use book::{Entry, Event, Reply};
use packed_outcomes::PackedOutcome;

/// An entry: its number, its seat, and what that asked for, at which moment, with its answer.
pub type Entered = (u64, u32, Wish, u64, Answer);

/// Whether entries are these.
pub fn are_entries(entries: &[Entry], wanted: &[Entered]) -> bool {
    if entries.len() != wanted.len() {
        return false;
    }
    for (entry, entered) in entries.iter().zip(wanted) {
        if !is_entered(entry, *entered) {
            return false;
        }
    }
    true
}

fn is_entered(entry: &Entry, entered: Entered) -> bool {
    let (number, seat, wish, moment, answer) = entered;
    entry.number() == number && is_entry(entry, seat, wish, moment, reply(answer))
}

/// Whether an entry is that of a call: its seat, what it asked for, its moment and its reply.
pub fn is_entry(entry: &Entry, seat: u32, wish: Wish, moment: u64, reply: Reply) -> bool {
    entry.seat() == seat
        && entry.moment() == moment
        && entry.reply() == reply
        && is_event(entry.event(), wish)
}

/// A call, with its answer.
#[derive(Clone, Copy, Drop)]
pub struct Made {
    pub wish: Wish,
    pub moment: u64,
    pub reply: Reply,
}

/// Whether the entries of a seat, among those that were handed out and those behind them, are its own calls, in its order, at
/// raised moments, with the replies that it got.
pub fn are_calls(handed_out: &[Entry], behind: &[Entry], seat: u32, made: &[Made]) -> bool {
    let mut next: usize = 0;
    let mut greatest = 0;
    for entry in handed_out.iter().chain(behind) {
        if entry.seat() == seat {
            if !is_made(entry, seat, greatest, made.get(next)) {
                return false;
            }
            next = next.saturating_add(1);
        }
        greatest = entry.moment();
    }
    next == made.len()
}

/// Whether an entry behind others with this greatest moment is that of a call.
fn is_made(entry: &Entry, seat: u32, greatest: u64, made: Option<&Made>) -> bool {
    match made {
        Some(call) => is_entry(
            entry,
            seat,
            call.wish,
            call.moment.max(greatest),
            call.reply,
        ),
        None => false,
    }
}

/// Whether an event is the one that was asked for.
fn is_event(event: &Event, wish: Wish) -> bool {
    match wish {
        Wish::Acquire => matches!(event, Event::Acquire),
        Wish::Report(ticket, status) => match event {
            Event::Finish(judged, finished) => {
                *finished == ticket && is_outcome(judged.outcome(), status)
            }
            _ => false,
        },
        Wish::Release(ticket) => match event {
            Event::Release(released) => *released == ticket,
            _ => false,
        },
        Wish::InstallIgnoring => match event {
            Event::Install(program) => program.budget() == 2,
            _ => false,
        },
        Wish::InstallDefault => match event {
            Event::Install(program) => program.budget() == 6,
            _ => false,
        },
        Wish::Move(state) => match event {
            Event::Move(moved) => *moved == state,
            _ => false,
        },
        Wish::Reset => matches!(event, Event::Reset),
    }
}

/// Whether an outcome is that of a response with this status.
fn is_outcome(outcome: &PackedOutcome, status: u16) -> bool {
    match response(status) {
        Some(record) => outcome.unpack() == record,
        None => false,
    }
}
