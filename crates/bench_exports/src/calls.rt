//! Calls through a book.
use book::{Book, Config, ConfigParts, Event, Fate, Reply, SlidingWindowType};
use bpf_run::judge;
use helpers::Record;
use packed_outcomes::PackedOutcome;
use std::alloc::Global;
use verifier::default_classifier;

/// Milliseconds between two calls: each call of a time window is in a second of its own.
const BETWEEN_CALLS: u64 = 1000;

/// A book with a window of so many seconds or so many calls, room for 10,000 open tickets, the
/// documented defaults in all else, and the default classifier.
fn opened(alloc: Global, counts_seconds: bool, window_size: u32) -> Option<Book> {
    let parts = ConfigParts {
        sliding_window_type: if counts_seconds {
            SlidingWindowType::TimeBased
        } else {
            SlidingWindowType::CountBased
        },
        sliding_window_size: u64::from(window_size),
        max_concurrent_calls: 10_000,
        ..ConfigParts::DEFAULT
    };
    let Ok(config) = Config::new(parts) else {
        return None;
    };
    let Ok(classifier) = default_classifier(alloc) else {
        return None;
    };
    match Book::open(alloc, config, classifier) {
        Ok(book) => Some(book),
        Err(_) => None,
    }
}

/// Asks for so many tickets that are never reported. Answers whether each was given.
fn hold(book: &mut Book, open_tickets: u32) -> bool {
    for _ in 0..open_tickets {
        let Reply::Permitted { .. } = book.apply(1, 0, Event::Acquire) else {
            return false;
        };
    }
    true
}

/// Makes a call: asks for a ticket, and reports the outcome under it, which is packed first. Answers whether it was recorded.
fn call(alloc: Global, book: &mut Book, outcome: &Record, moment: u64) -> bool {
    let Reply::Permitted { ticket, .. } = book.apply(1, moment, Event::Acquire) else {
        return false;
    };
    let Ok(program) = book.look(ticket) else {
        return false;
    };
    let Ok(outcome) = PackedOutcome::pack(alloc, outcome) else {
        return false;
    };
    let judged = judge(program, outcome);
    match book.apply(1, moment, Event::Finish(judged, ticket)) {
        Reply::Finished { fate, .. } => fate == Fate::Recorded,
        _ => false,
    }
}

/// Makes so many calls, one second after another, on a fresh book while so many other tickets are
/// open, and answers how many were recorded: all of them. The book's window has a size in seconds
/// where `counts_seconds` is not 0, else in calls. A call makes two entries and an open ticket one,
/// and a journal has room for 65,536. It is 0 where memory ran out or the size is out of range.
#[unsafe(no_mangle)]
pub extern "C" fn bench_exports_call(
    alloc: Global,
    calls: u32,
    counts_seconds: u8,
    window_size: u32,
    open_tickets: u32,
) -> u64 {
    let Some(mut book) = opened(alloc, counts_seconds != 0, window_size) else {
        return 0;
    };
    let Some(outcome) = Record::from_parts([0; 192], [0; 16], &[]) else {
        return 0;
    };
    if !hold(&mut book, open_tickets) {
        return 0;
    }
    let mut recorded = 0u64;
    for second in 0..calls {
        if call(
            alloc,
            &mut book,
            &outcome,
            u64::from(second).wrapping_mul(BETWEEN_CALLS),
        ) {
            recorded = recorded.wrapping_add(1);
        }
    }
    recorded
}
