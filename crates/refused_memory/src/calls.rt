//! Calls a book in every way that may want memory. A call that is refused for want of it must change
//! nothing, and the same call given again must answer as though it had never been refused.
use crate::counting::{Refusals, TRIES, wrong};
use book::{Book, Config, ConfigParts, Entry, Event, Reply, State};
use bpf_profile::Layout;
use bpf_run::judge;
use helpers::Record;
use packed_outcomes::PackedOutcome;
use refusals::RefusalNumber;
use std::alloc::{AllocError, Global};
use std::io;
use std::io::Write;
use std::sync::Arc;
use verifier::{Verified, default_classifier, verify};

/// Each outcome is ignored.
const IGNORING: [u8; 16] = [0xb7, 0, 0, 0, 2, 0, 0, 0, 0x95, 0, 0, 0, 0, 0, 0, 0];

/// An event, before it has memory of its own.
#[derive(Clone, Copy, Debug)]
enum Call {
    Acquire,
    Finish(u64),
    Release(u64),
    Install,
    Move(State),
    Reset,
}

/// What the calls are, in their order.
const CALLS: [Call; 12] = [
    Call::Acquire,
    Call::Acquire,
    Call::Finish(1),
    Call::Install,
    Call::Acquire,
    Call::Release(2),
    Call::Finish(3),
    Call::Finish(3),
    Call::Move(State::ForcedOpen),
    Call::Acquire,
    Call::Reset,
    Call::Release(9),
];

/// The program of a ticket's version, or the refusal; one that wants memory is tried again.
fn looked(
    refusals: &mut Refusals,
    book: &Book,
    ticket: u64,
) -> io::Result<Result<Arc<Verified>, RefusalNumber>> {
    for _ in 0..TRIES {
        match book.look(ticket) {
            Err(RefusalNumber::ServiceOutOfMemory) => refusals.count(),
            answer => return Ok(answer),
        }
    }
    Err(wrong())
}

fn ignoring(alloc: Global) -> Result<Arc<Verified>, AllocError> {
    match verify(alloc, &IGNORING, Layout::One) {
        Ok(program) => Ok(Arc::new(alloc, program)?),
        Err(_) => Err(AllocError),
    }
}

/// The program that is installed; without memory it is made again.
fn installed(refusals: &mut Refusals, alloc: Global) -> io::Result<Arc<Verified>> {
    for _ in 0..TRIES {
        match ignoring(alloc) {
            Ok(program) => return Ok(program),
            Err(_) => refusals.count(),
        }
    }
    Err(wrong())
}

/// The outcome that is reported, which takes memory; without memory it is packed again.
fn packed(refusals: &mut Refusals, alloc: Global) -> io::Result<PackedOutcome> {
    let Some(outcome) = Record::from_parts([0; 192], [7; 16], b"tag") else {
        return Err(wrong());
    };
    for _ in 0..TRIES {
        match PackedOutcome::pack(alloc, &outcome) {
            Ok(outcome) => return Ok(outcome),
            Err(_) => refusals.count(),
        }
    }
    Err(wrong())
}

/// The event of a call, or the reply of the look before it.
fn event(
    refusals: &mut Refusals,
    alloc: Global,
    book: &Book,
    call: Call,
) -> io::Result<Result<Event, RefusalNumber>> {
    Ok(match call {
        Call::Acquire => Ok(Event::Acquire),
        Call::Finish(ticket) => match looked(refusals, book, ticket)? {
            Ok(program) => {
                let outcome = packed(refusals, alloc)?;
                Ok(Event::Finish(judge(program, outcome), ticket))
            }
            Err(number) => Err(number),
        },
        Call::Release(ticket) => Ok(Event::Release(ticket)),
        Call::Install => Ok(Event::Install(installed(refusals, alloc)?)),
        Call::Move(state) => Ok(Event::Move(state)),
        Call::Reset => Ok(Event::Reset),
    })
}

/// Whether the last entry, where there is one, was taken at a moment.
fn last_at(book: &Book, moment: u64) -> bool {
    match book.entries(book.last_number()).last() {
        Some(entry) => entry.moment() == moment,
        None => false,
    }
}

/// The reply to a call at a moment. Where it is refused for want of memory, the readings are as before,
/// and it is made again a millisecond earlier, which shows that the greatest moment is as before too.
fn reply(
    refusals: &mut Refusals,
    alloc: Global,
    book: &mut Book,
    moment: u64,
    call: Call,
) -> io::Result<Reply> {
    for earlier in 0..TRIES {
        let at = moment.saturating_sub(u64::from(earlier));
        let event = match event(refusals, alloc, book, call)? {
            Ok(event) => event,
            Err(number) => return Ok(Reply::Refused(number)),
        };
        let before = (book.read(0), book.last_number());
        match book.apply(7, at, event) {
            Reply::Refused(RefusalNumber::ServiceOutOfMemory) => {
                refusals.count();
                if (book.read(0), book.last_number()) != before {
                    return Err(wrong());
                }
            }
            reply => {
                if !last_at(book, at) {
                    return Err(wrong());
                }
                return Ok(reply);
            }
        }
    }
    Err(wrong())
}

/// A book with the default classifier, or nothing without memory.
fn opening(alloc: Global, config: Config) -> Option<Book> {
    let classifier = default_classifier(alloc).ok()?;
    Book::open(alloc, config, classifier).ok()
}

fn opened(refusals: &mut Refusals, alloc: Global) -> io::Result<Book> {
    let Ok(config) = Config::new(ConfigParts::DEFAULT) else {
        return Err(wrong());
    };
    for _ in 0..TRIES {
        match opening(alloc, config) {
            Some(book) => return Ok(book),
            None => refusals.count(),
        }
    }
    Err(wrong())
}

/// A page of the journal; one that wants memory is tried again.
fn page(refusals: &mut Refusals, book: &Book, from: u64) -> io::Result<Vec<Entry>> {
    for _ in 0..TRIES {
        match book.page(from) {
            Ok(entries) => return Ok(entries),
            Err(RefusalNumber::ServiceOutOfMemory) => refusals.count(),
            Err(_) => return Err(wrong()),
        }
    }
    Err(wrong())
}

/// What a cut hands out. Where it is refused for want of memory, nothing has changed.
fn cut(refusals: &mut Refusals, book: &mut Book) -> io::Result<Vec<Entry>> {
    for _ in 0..TRIES {
        let before = (book.read(0), book.last_number(), book.entries(0).len());
        match book.cut() {
            Ok(entries) => return Ok(entries),
            Err(RefusalNumber::ServiceOutOfMemory) => {
                refusals.count();
                if (book.read(0), book.last_number(), book.entries(0).len()) != before {
                    return Err(wrong());
                }
            }
            Err(_) => return Err(wrong()),
        }
    }
    Err(wrong())
}

fn show(entries: &[Entry], out: &mut impl Write) -> io::Result<()> {
    for entry in entries {
        writeln!(out, "entry {} {:?}", entry.number(), entry.reply())?;
    }
    Ok(())
}

/// Makes calls a second apart, and prints what is answered to each.
fn make_calls(
    refusals: &mut Refusals,
    alloc: Global,
    book: &mut Book,
    calls: &[Call],
    out: &mut impl Write,
) -> io::Result<()> {
    let mut moment = 1000u64;
    for call in calls {
        moment = moment.saturating_add(1000);
        let reply = reply(refusals, alloc, book, moment, *call)?;
        writeln!(out, "{call:?} {reply:?}")?;
    }
    Ok(())
}

/// What a roll up to a number hands out. Where it is refused for want of memory, nothing has changed.
fn roll(refusals: &mut Refusals, book: &mut Book, last: u64) -> io::Result<Vec<Entry>> {
    for _ in 0..TRIES {
        let before = (book.read(0), book.last_number(), book.entries(0).len());
        match book.roll(last) {
            Ok(entries) => return Ok(entries),
            Err(RefusalNumber::ServiceOutOfMemory) => {
                refusals.count();
                if (book.read(0), book.last_number(), book.entries(0).len()) != before {
                    return Err(wrong());
                }
            }
            Err(_) => return Err(wrong()),
        }
    }
    Err(wrong())
}

/// Prints a page, what a roll and a cut hand out, and how the book reads behind them.
fn show_journal(refusals: &mut Refusals, book: &mut Book, out: &mut impl Write) -> io::Result<()> {
    show(page(refusals, book, 3)?.as_slice(), out)?;
    let rolled = roll(refusals, book, 4)?;
    writeln!(out, "roll {}", rolled.len())?;
    show(rolled.as_slice(), out)?;
    let handed_out = cut(refusals, book)?;
    writeln!(out, "cut {}", handed_out.len())?;
    show(handed_out.as_slice(), out)?;
    writeln!(out, "{:?}", book.read(0))
}

/// Prints what a book is asked, and what it answers.
pub(crate) fn ask_a_book(
    refusals: &mut Refusals,
    alloc: Global,
    out: &mut impl Write,
) -> io::Result<()> {
    let mut book = opened(refusals, alloc)?;
    make_calls(refusals, alloc, &mut book, &CALLS, out)?;
    show_journal(refusals, &mut book, out)
}
