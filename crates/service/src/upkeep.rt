//! What a service does for its own upkeep, before it makes a call that it is asked for.
ghost use Rattle.std.specs.Prelude.{◌≡◌, ℕ, List};
ghost use Rattle.service_profile.specs.declared.replies.Reply.{Reply};
ghost use Rattle.service_profile.specs.Calls.{applies, replies};
ghost use Rattle.service_profile.specs.Events.{acquires};
ghost use Rattle.service.specs.Upkept.{HasMadeRoom, HasReleased, HasShown, IsKeptBy, IsLogged, IsMadeWithRoom, IsShownTo, IsUpkept, overdue, upkeep_at};

use crate::calls::BookCalls;
use crate::gate::Gate;
use crate::heard::Heard;
use crate::log::{Log, News};
use book::{Apply, Call, Event, Read, Reading, Reply, Roll};

/// What becomes of a journal that is full.
#[derive(Clone, Copy, Debug, PartialEq, Eq)]
pub enum Journal {
    /// Each entry is held until somebody takes it by a cut or a roll. Where the journal is full, an event is refused with
    /// `JournalFull`.
    Keep,
    /// The last entries are held, at least 32,768 of them. Where an event would meet a full journal, the older half is
    /// rolled out of it first, and nobody gets it.
    Last,
}

/// What a service does for its own upkeep.
#[derive(Clone, Copy, Debug, PartialEq, Eq)]
pub struct Upkeep {
    /// What becomes of a full journal.
    pub journal: Journal,
    /// How old an open ticket may get, in milliseconds since its acquire: before an acquire, tickets that are that old are
    /// released, the oldest first, at most 100. 0 lets a ticket get any age.
    pub max_ticket_age: u64,
    /// Whether a log is told what changes. Where it wants to see how the service stands, a reading behind a call shows it.
    pub log: Log,
}

impl Upkeep {
    /// None: the service does what it is asked for, and nothing else.
    pub const NONE: Upkeep = Upkeep {
        journal: Journal::Keep,
        max_ticket_age: 0,
        log: Log::Silent,
    };
}

/// What the service at a place does for its upkeep, by what all of them do, in their order. One behind the last does
/// nothing of its own.
pub fn upkeep_at(upkeeps: &[Upkeep], place: usize) -> Upkeep
    ensures { result ≡ upkeep_at upkeeps.now place }
{
    match upkeeps.get(place) {
        Some(upkeep) => *upkeep,
        None => Upkeep::NONE,
    }
}

/// How many entries stay in a journal whose older half is rolled out.
const STAY: u64 = 32_768;

/// How many tickets are released at most before an acquire.
const MOST_RELEASES: u64 = 100;

/// Tells a log what was answered or done; where it wants to see how the service stands, a reading shows it. It stands apart,
/// so that a call with no log stays short.
#[inline(never)]
fn tell_changes<P, B: BookCalls<P>, G: Gate>(
    book: &mut B,
    place: &P,
    service: usize,
    moment: u64,
    news: News,
    gate: &G,
)
    requires fits { B.fits place.now book.old }
    ensures told { HasShown (B.calls place.now) book.old book.new }
    ensures fits { B.fits place.now book.new }
{
    if gate.told(service, moment, news) {
        let shown = book.call(place, Read(moment));
        gate.shown(service, moment, &shown);
    }
}

/// Tells a log, where there is one, what it hears of the answer of a call.
#[inline(always)]
fn tell<P, B: BookCalls<P>, C: Heard, G: Gate>(
    book: &mut B,
    place: &P,
    log: Log,
    moment: u64,
    answer: &C::Answer,
    gate: &G,
)
    requires fits { B.fits place.now book.old }
    ensures told { IsShownTo log (B.calls place.now) book.old book.new }
    ensures fits { B.fits place.now book.new }
{
    if let Log::Changes(service) = log
        && let Some(news) = C::heard(answer)
    {
        tell_changes(book, place, service, moment, news, gate);
    }
}

/// Tells a log, where there is one, what a service did for its upkeep. It is shown nothing.
fn tell_upkeep<G: Gate>(log: Log, moment: u64, news: News, gate: &G) {
    if let Log::Changes(service) = log {
        let _wants = gate.told(service, moment, news);
    }
}

/// Tells a log, where there is one, that a ticket was released for a service's upkeep, where this reply says so.
fn tell_release<G: Gate>(log: Log, moment: u64, ticket: u64, reply: Reply, gate: &G) {
    if let Reply::Released { .. } = reply {
        tell_upkeep(log, moment, News::Released(ticket), gate);
    }
}

/// Rolls the older half out of a journal: all but its last 32,768 entries. What is rolled out is dropped. Where the roll is
/// refused, for want of memory or since a number is worn out, nothing changes.
fn make_room<P, B: BookCalls<P>, G: Gate>(book: &mut B, place: &P, log: Log, moment: u64, gate: &G)
    requires fits { B.fits place.now book.old }
    ensures room { HasMadeRoom (B.calls place.now) book.old book.new }
    ensures fits { B.fits place.now book.new }
{
    let last = book.call(place, Read(0)).entries.saturating_sub(STAY);
    if book.call(place, Roll(last)).is_ok() {
        tell_upkeep(log, moment, News::Dropped(last), gate);
    }
}

/// Makes a call; where its answer is that the journal is full, makes room and then makes the call again. It stands apart, so
/// that a call without it stays short.
#[inline(never)]
fn call_with_room<P, B: BookCalls<P>, C: Call, G: Gate>(
    book: &mut B,
    place: &P,
    log: Log,
    moment: u64,
    call: C,
    gate: &G,
) -> C::Answer
    requires fits { B.fits place.now book.old }
    ensures called { IsMadeWithRoom (B.calls place.now) book.old (C.called call) (C.answered result) book.new }
    ensures fits { B.fits place.now book.new }
{
    let again = call.again();
    let answer = book.call(place, call);
    if !C::says_full(&answer) {
        return answer;
    }
    let Some(call) = again else {
        return answer;
    };
    make_room(book, place, log, moment, gate);
    book.call(place, call)
}

/// Makes a call where this becomes of a full journal.
#[inline(always)]
fn kept<P, B: BookCalls<P>, C: Call, G: Gate>(
    book: &mut B,
    place: &P,
    upkeep: Upkeep,
    moment: u64,
    call: C,
    gate: &G,
) -> C::Answer
    requires fits { B.fits place.now book.old }
    ensures called { IsKeptBy upkeep.journal (B.calls place.now) book.old (C.called call) (C.answered result) book.new }
    ensures fits { B.fits place.now book.new }
{
    match upkeep.journal {
        Journal::Keep => book.call(place, call),
        Journal::Last => call_with_room(book, place, upkeep.log, moment, call, gate),
    }
}

/// Makes a call at a moment where the service does this for its upkeep, and tells its log of the answer.
#[inline(always)]
pub(crate) fn call<P, B: BookCalls<P>, C: Heard, G: Gate>(
    book: &mut B,
    place: &P,
    upkeep: Upkeep,
    moment: u64,
    call: C,
    gate: &G,
) -> C::Answer
    requires fits { B.fits place.now book.old }
    ensures called { IsLogged upkeep.log (B.calls place.now) (IsKeptBy upkeep.journal (B.calls place.now)) book.old (C.called call) (C.answered result) book.new }
    ensures fits { B.fits place.now book.new }
{
    let answer = kept(book, place, upkeep, moment, call, gate);
    tell::<P, B, C, G>(book, place, upkeep.log, moment, &answer, gate);
    answer
}

/// The number of the open ticket that was issued first, where that was this long before a moment, or longer.
fn overdue(age: u64, moment: u64, shown: &Reading) -> Option<u64>
    ensures { result ≡ overdue age moment shown.now }
{
    let oldest = shown.oldest_ticket?;
    if age <= moment.saturating_sub(oldest.moment) {
        Some(oldest.number)
    } else {
        None
    }
}

/// Releases the tickets that are this old at a moment, the oldest first, at most 100. An entry tells of each.
#[inline(never)]
fn release_overdue<P, B: BookCalls<P>, G: Gate>(
    book: &mut B,
    place: &P,
    upkeep: Upkeep,
    moment: u64,
    gate: &G,
)
    requires fits { B.fits place.now book.old }
    ensures released { (replies : List Reply) × HasReleased (B.calls place.now) upkeep.max_ticket_age moment book.old replies book.new }
    ensures fits { B.fits place.now book.new }
{
    for _release in 0..MOST_RELEASES {
        let shown = book.call(place, Read(moment));
        let Some(ticket) = overdue(upkeep.max_ticket_age, moment, &shown) else {
            return;
        };
        let reply = book.call(place, Apply(moment, Event::Release(ticket)));
        tell_release(upkeep.log, moment, ticket, reply, gate);
    }
}

/// Asks for a ticket at a moment, once tickets that are too old are released.
#[inline(always)]
pub(crate) fn acquire<P, B: BookCalls<P>, G: Gate>(
    book: &mut B,
    place: &P,
    upkeep: Upkeep,
    moment: u64,
    gate: &G,
) -> Reply
    requires fits { B.fits place.now book.old }
    ensures called { IsUpkept upkeep (B.calls place.now) book.old (applies moment acquires) (replies result) book.new }
    ensures fits { B.fits place.now book.new }
{
    if upkeep.max_ticket_age > 0 {
        release_overdue(book, place, upkeep, moment, gate);
    }
    call(
        book,
        place,
        upkeep,
        moment,
        Apply(moment, Event::Acquire),
        gate,
    )
}
