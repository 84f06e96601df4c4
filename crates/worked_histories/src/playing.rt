//! How a history is gone through by whoever calls a service's book. Each call goes the way that a front takes, by `service::ask`.
//! What they say of their caller is that it still fits its place: they show what comes of a step, and stop at the first one that
//! isn't met.
use crate::answers::{Answer, SUCCESS, reply};
use crate::asking::{outcome_of, request_of, shared_program};
use crate::entries::{Entered, are_entries};
use crate::readings::{Shown, reading};
use crate::steps::{Handed, Step};
use crate::wishes::Wish;
use book::{Apply, Entry, Event, Reading, Reply};
use bpf_run::judge;
use service::{BookCalls, ONLY_SEAT, OpenGate, Request, Response, Upkeep, ask};
use std::alloc::Global;

/// More pages than a journal has.
const MANY_PAGES: u32 = 1_000;

/// What came of a step that isn't met.
#[derive(Clone, Copy, Debug)]
pub enum Found {
    Reply(Reply),
    Reading(Reading),
    /// How many entries came, and the number and the moment of the last one; with none both are 0.
    Entries(usize, u64, u64),
    /// How many entries there are, page by page.
    Count(u64),
    /// A refusal of a program, or want of memory.
    Other,
}

/// The first step that isn't met, counted from 0.
#[derive(Clone, Copy, Debug)]
pub struct Missed {
    pub step: usize,
    pub found: Found,
}

/// Goes through the steps of a history of a fresh book, in the hands of its only caller.
pub fn play<P, B: BookCalls<P>>(
    alloc: Global,
    book: &mut B,
    place: &P,
    steps: &[Step<'_>],
) -> Result<(), Missed>
    requires fits { B.fits place.now book.old }
    ensures fits { B.fits place.now book.new }
{
    let mut greatest = 0;
    for (step, row) in steps.iter().enumerate() {
        match take(alloc, book, place, *row, greatest) {
            Ok(moment) => greatest = moment,
            Err(found) => return Err(Missed { step, found }),
        }
    }
    Ok(())
}

/// Takes a step after entries whose greatest moment is this, and answers the greatest one after it.
fn take<P, B: BookCalls<P>>(
    alloc: Global,
    book: &mut B,
    place: &P,
    step: Step<'_>,
    greatest: u64,
) -> Result<u64, Found>
    requires fits { B.fits place.now book.old }
    ensures fits { B.fits place.now book.new }
{
    match step {
        Step::Call(moment, wish, answer) => {
            return call(alloc, book, place, moment, wish, answer, greatest);
        }
        Step::Calls(first, last) => return make_calls(alloc, book, place, first, last, greatest),
        Step::Strange(moment, ticket, answer) => {
            return report_as_stranger(alloc, book, place, moment, ticket, answer, greatest);
        }
        Step::Versions(first, last) => install_versions(alloc, book, place, first, last)?,
        Step::Count(from, count) => has_count(alloc, book, place, from, count)?,
        _ => make(alloc, book, place, step)?,
    }
    Ok(greatest)
}

/// Asks for what one step says, which is answered so.
fn make<P, B: BookCalls<P>>(
    alloc: Global,
    book: &mut B,
    place: &P,
    step: Step<'_>,
) -> Result<(), Found>
    requires fits { B.fits place.now book.old }
    ensures fits { B.fits place.now book.new }
{
    let (moment, request) = asked(alloc, step).ok_or(Found::Other)?;
    let answer = ask(alloc, book, place, Upkeep::NONE, moment, request, &OpenGate);
    is_answered(&answer, step)
}

/// Makes a call, which is answered so, and answers the greatest moment after it. An entry that it makes is the only one behind
/// those before it, at the raised moment.
fn call<P, B: BookCalls<P>>(
    alloc: Global,
    book: &mut B,
    place: &P,
    moment: u64,
    wish: Wish,
    answer: Answer,
    greatest: u64,
) -> Result<u64, Found>
    requires fits { B.fits place.now book.old }
    ensures fits { B.fits place.now book.new }
{
    let next = last_number(alloc, book, place).saturating_add(1);
    make(alloc, book, place, Step::Call(moment, wish, answer))?;
    if last_number(alloc, book, place) < next {
        return Ok(greatest);
    }
    let raised = moment.max(greatest);
    let entered = (next, ONLY_SEAT, wish, raised, answer);
    make(alloc, book, place, Step::Page(next, &[entered]))?;
    Ok(raised)
}

/// Makes calls with the tickets from one number to another, each reported as a success. Answers the greatest moment after them.
fn make_calls<P, B: BookCalls<P>>(
    alloc: Global,
    book: &mut B,
    place: &P,
    first: u64,
    last: u64,
    greatest: u64,
) -> Result<u64, Found>
    requires fits { B.fits place.now book.old }
    ensures fits { B.fits place.now book.new }
{
    for ticket in first..=last {
        let permitted = Answer::Permitted(ticket);
        make(
            alloc,
            book,
            place,
            Step::Call(ticket, Wish::Acquire, permitted),
        )?;
        let report = Wish::Report(ticket, 200);
        make(alloc, book, place, Step::Call(ticket, report, SUCCESS))?;
    }
    Ok(greatest.max(last))
}

/// Reports under a ticket what the program that ignores every outcome makes of a response, whichever judges the ticket. That
/// is answered so. Answers the greatest moment after it.
fn report_as_stranger<P, B: BookCalls<P>>(
    alloc: Global,
    book: &mut B,
    place: &P,
    moment: u64,
    ticket: u64,
    answer: Answer,
    greatest: u64,
) -> Result<u64, Found>
    requires fits { B.fits place.now book.old }
    ensures fits { B.fits place.now book.new }
{
    let before = last_number(alloc, book, place);
    let event = finish_of_stranger(alloc, ticket).ok_or(Found::Other)?;
    let found = book.call(place, Apply(moment, event));
    if found != reply(answer) {
        return Err(Found::Reply(found));
    }
    if last_number(alloc, book, place) == before {
        return Ok(greatest);
    }
    Ok(greatest.max(moment))
}

/// What the program that ignores every outcome makes of a response. None is want of memory.
fn finish_of_stranger(alloc: Global, ticket: u64) -> Option<Event> {
    let outcome = outcome_of(alloc, 200)?;
    let program = shared_program(alloc, true)?;
    Some(Event::Finish(judge(program, outcome), ticket))
}

/// Installs the program that ignores every outcome as each version from the first to the last.
fn install_versions<P, B: BookCalls<P>>(
    alloc: Global,
    book: &mut B,
    place: &P,
    first: u64,
    last: u64,
) -> Result<(), Found>
    requires fits { B.fits place.now book.old }
    ensures fits { B.fits place.now book.new }
{
    for version in first..=last {
        let installed = Answer::Installed(version, 2);
        make(
            alloc,
            book,
            place,
            Step::Call(0, Wish::InstallIgnoring, installed),
        )?;
    }
    Ok(())
}

/// The number of the last entry.
fn last_number<P, B: BookCalls<P>>(alloc: Global, book: &mut B, place: &P) -> u64
    requires fits { B.fits place.now book.old }
    ensures fits { B.fits place.now book.new }
{
    match ask(
        alloc,
        book,
        place,
        Upkeep::NONE,
        0,
        Request::Read,
        &OpenGate,
    ) {
        Response::Reading(reading) => reading.entries,
        _ => 0,
    }
}

/// How many entries the page from a number on has, and the number of the last one.
fn page<P, B: BookCalls<P>>(alloc: Global, book: &mut B, place: &P, from: u64) -> (usize, u64)
    requires fits { B.fits place.now book.old }
    ensures fits { B.fits place.now book.new }
{
    match ask(
        alloc,
        book,
        place,
        Upkeep::NONE,
        0,
        Request::Page(from),
        &OpenGate,
    ) {
        Response::Page { entries, .. } => {
            let (count, number, _) = counted(&entries);
            (count, number)
        }
        _ => (0, 0),
    }
}

/// There are so many entries from a number on, page by page.
fn has_count<P, B: BookCalls<P>>(
    alloc: Global,
    book: &mut B,
    place: &P,
    from: u64,
    wanted: u64,
) -> Result<(), Found>
    requires fits { B.fits place.now book.old }
    ensures fits { B.fits place.now book.new }
{
    let mut next = from;
    let mut count: u64 = 0;
    for _ in 0..MANY_PAGES {
        let (size, last) = page(alloc, book, place, next);
        if size == 0 {
            break;
        }
        count = count.saturating_add(size as u64);
        next = last.saturating_add(1);
    }
    if count == wanted {
        return Ok(());
    }
    Err(Found::Count(count))
}

/// What a step asks for, and at which moment. None where it stands for more than one request, or for want of memory.
pub fn asked(alloc: Global, step: Step<'_>) -> Option<(u64, Request)> {
    match step {
        Step::Call(moment, wish, _) => Some((moment, request_of(alloc, wish)?)),
        Step::Stands(moment, _) => Some((moment, Request::Read)),
        Step::LastNumber(_) => Some((0, Request::Read)),
        Step::Page(from, _) => Some((0, Request::Page(from))),
        Step::Cut(_) => Some((0, Request::Cut)),
        Step::Roll(last, _) => Some((0, Request::Roll(last))),
        _ => None,
    }
}

/// What comes of a step is what is wanted.
pub fn is_answered(response: &Response, step: Step<'_>) -> Result<(), Found> {
    let is_wanted = match step {
        Step::Call(_, _, answer) => is_reply(response, answer),
        Step::Stands(_, parts) => is_reading(response, parts),
        Step::LastNumber(number) => is_last(response, number),
        Step::Page(from, wanted) => is_page(response, from, wanted),
        Step::Cut(handed) => is_handed(response, handed),
        Step::Roll(_, handed) => is_handed(response, handed),
        _ => false,
    };
    if is_wanted {
        return Ok(());
    }
    Err(shown(response))
}

fn shown(response: &Response) -> Found {
    match response {
        Response::Reply(reply) => Found::Reply(*reply),
        Response::ProgramRefused(_) => Found::Other,
        Response::Reading(reading) => Found::Reading(*reading),
        Response::Page { entries, .. } => found_entries(entries),
        Response::HandedOut(entries) => found_entries(entries),
    }
}

fn found_entries(entries: &[Entry]) -> Found {
    let (count, number, moment) = counted(entries);
    Found::Entries(count, number, moment)
}

fn is_reply(response: &Response, answer: Answer) -> bool {
    match response {
        Response::Reply(found) => *found == reply(answer),
        _ => false,
    }
}

fn is_reading(response: &Response, parts: &[Shown]) -> bool {
    match response {
        Response::Reading(found) => *found == reading(parts),
        _ => false,
    }
}

fn is_last(response: &Response, number: u64) -> bool {
    match response {
        Response::Reading(found) => found.entries == number,
        _ => false,
    }
}

fn is_page(response: &Response, number: u64, wanted: &[Entered]) -> bool {
    match response {
        Response::Page { from, entries } => *from == number && are_entries(entries, wanted),
        _ => false,
    }
}

fn is_handed(response: &Response, handed: Handed<'_>) -> bool {
    match response {
        Response::HandedOut(entries) => are_handed(entries, handed),
        Response::Reply(found) => is_refused(*found, handed),
        _ => false,
    }
}

fn are_handed(entries: &[Entry], handed: Handed<'_>) -> bool {
    match handed {
        Handed::These(wanted) => are_entries(entries, wanted),
        Handed::Many(count, number, moment) => counted(entries) == (count, number, moment),
        Handed::Nothing(_) => false,
    }
}

fn is_refused(found: Reply, handed: Handed<'_>) -> bool {
    match handed {
        Handed::Nothing(number) => found == Reply::Refused(number),
        _ => false,
    }
}

/// How many entries there are, and the number and the moment of the last one.
fn counted(entries: &[Entry]) -> (usize, u64, u64) {
    match entries.last() {
        Some(last) => (entries.len(), last.number(), last.moment()),
        None => (0, 0, 0),
    }
}
