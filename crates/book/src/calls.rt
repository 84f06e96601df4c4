//! The calls of a book, each as a value of a type of its own: so whatever keeps a book, itself, behind a lock or in a
//! slot, has one function that makes any of them.
ghost use Rattle.std.specs.Prelude.{◌≡◌, ℕ, None, IfSome};
ghost use Rattle.std.specs.Arc.{arc_value};
ghost use Rattle.book.specs.Counts.{HasRoomFor, IsFull, IsTurnedAway, cuts_by};
ghost use Rattle.book.specs.Full.{IsMadeOnce, says_full};
ghost use Rattle.book.specs.Good.{IsGood};
ghost use Rattle.book.specs.Accepted.{seen};
ghost use Rattle.service_profile.specs.Answers.{map_ok};
ghost use Rattle.service_profile.specs.Calls.{CallData, CallAnswer, IsCalled, applies, looks, reads, pages, cuts, rolls, replies, finds, shows, hands};

use crate::books::Book;
use crate::events::{Entry, Event};
use refusals::RefusalNumber;
use service_profile::{Reading, Reply};
use std::sync::Arc;
use verifier::Verified;

/// A seat makes an event only while its count is below this.
const FULL_COUNT: u64 = u64::MAX - 7;

/// What an event is answered where its seat can count no further entry.
const TURNED_AWAY: Reply = Reply::Refused(RefusalNumber::JournalFull);

/// A call of a service's book. Contracts see what is called, and what it is answered, as the data of the documented
/// machine's calls.
pub trait Call: Drop {
    /// What the call is answered.
    type Answer: Drop;

    // what is called
    ghost called: { Self → CallData };

    // what it is answered
    ghost answered: { Self.Answer → CallAnswer };

    /// Makes the call by the seat of a number.
    fn make(self, book: &mut Book, seat: u32) -> Self::Answer
        // The answer is the documented machine's, and the history after it is the documented one.
        ensures called { IsCalled seat book.old (called self) (answered result) book.new }
        ensures good_before { IsGood book.old }
        ensures good_after { IsGood book.new };

    /// What an event is answered that isn't made, since its seat can count no further entry: `JournalFull`. None where the
    /// call is no event, and so makes no entry.
    fn turned_away(&self) -> Option<Self::Answer>
        ensures turned { IfSome result (λ answer. IsTurnedAway (called self.now) (answered answer)) }
        ensures other { result ≡ None → (count : ℕ) → HasRoomFor count (called self.now) };

    /// What a seat that counts so many entries is answered in place of the call, where its count has no room for an entry
    /// that the call may make. None where the call is to be made.
    final fn answer_at_count(&self, count: u64) -> Option<Self::Answer>
        ensures full { IfSome result (λ answer. IsFull count × IsTurnedAway (called self.now) (answered answer)) }
        ensures room { result ≡ None → HasRoomFor count (called self.now) }
    {
        if count < FULL_COUNT {
            return None;
        }
        self.turned_away()
    }

    /// How many cuts a call with this answer has made: one, or none.
    fn cuts(answer: &Self::Answer) -> u64
        ensures { (call : Self) → result ≡ cuts_by (called call) (answered answer.now) };

    /// The same call once more, for whoever makes room in a full journal and then calls again. None where that is of no use:
    /// for a finish, which no full journal refuses while its ticket is open, and for what is no event; and for an install
    /// whose program can have no more owners.
    fn again(&self) -> Option<Self>
        ensures same { IfSome result (λ call. called call ≡ called self.now) }
        ensures once { result ≡ None → IsMadeOnce (called self.now) };

    /// Whether this answer says that the journal is full.
    fn says_full(answer: &Self::Answer) -> bool
        ensures { result ≡ says_full (answered answer.now) };
}

/// Applies an event at a moment, in milliseconds.
#[derive(Drop)]
pub struct Apply(pub u64, pub Event);

impl Call for Apply {
    type Answer = Reply;

    ghost called = { λ call. applies call.0 (seen call.1) };

    ghost answered = { replies };

    fn make(self, book: &mut Book, seat: u32) -> Reply {
        let Apply(moment, event) = self;
        book.apply(seat, moment, event)
    }

    fn turned_away(&self) -> Option<Reply> {
        Some(TURNED_AWAY)
    }

    fn cuts(_answer: &Reply) -> u64 {
        0
    }

    fn again(&self) -> Option<Apply> {
        let event = match &self.1 {
            Event::Acquire => Event::Acquire,
            Event::Finish(_, _) => return None,
            Event::Release(ticket) => Event::Release(*ticket),
            Event::Install(program) => Event::Install(Arc::try_clone(program).ok()?),
            Event::Move(state) => Event::Move(*state),
            Event::Reset => Event::Reset,
        };
        Some(Apply(self.0, event))
    }

    fn says_full(answer: &Reply) -> bool {
        matches!(*answer, Reply::Refused(RefusalNumber::JournalFull))
    }
}

/// Finds the program that judges under a ticket.
#[derive(Drop)]
pub struct Look(pub u64);

impl Call for Look {
    type Answer = Result<Arc<Verified>, RefusalNumber>;

    ghost called = { λ call. looks call.0 };

    ghost answered = { λ found. finds (map_ok arc_value found) };

    fn make(self, book: &mut Book, _seat: u32) -> Result<Arc<Verified>, RefusalNumber> {
        book.look(self.0)
    }

    fn turned_away(&self) -> Option<Result<Arc<Verified>, RefusalNumber>> {
        None
    }

    fn cuts(_answer: &Result<Arc<Verified>, RefusalNumber>) -> u64 {
        0
    }

    fn again(&self) -> Option<Look> {
        None
    }

    fn says_full(_answer: &Result<Arc<Verified>, RefusalNumber>) -> bool {
        false
    }
}

/// Reads how the service stands at a moment, in milliseconds.
#[derive(Drop)]
pub struct Read(pub u64);

impl Call for Read {
    type Answer = Reading;

    ghost called = { λ call. reads call.0 };

    ghost answered = { shows };

    fn make(self, book: &mut Book, _seat: u32) -> Reading {
        book.read(self.0)
    }

    fn turned_away(&self) -> Option<Reading> {
        None
    }

    fn cuts(_answer: &Reading) -> u64 {
        0
    }

    fn again(&self) -> Option<Read> {
        None
    }

    fn says_full(_answer: &Reading) -> bool {
        false
    }
}

/// Copies at most 100 entries of the journal, from a number on.
#[derive(Drop)]
pub struct Page(pub u64);

impl Call for Page {
    type Answer = Result<Vec<Entry>, RefusalNumber>;

    ghost called = { λ call. pages call.0 };

    ghost answered = { λ found. hands (map_ok (λ entries. entries.items) found) };

    fn make(self, book: &mut Book, _seat: u32) -> Result<Vec<Entry>, RefusalNumber> {
        book.page(self.0)
    }

    fn turned_away(&self) -> Option<Result<Vec<Entry>, RefusalNumber>> {
        None
    }

    fn cuts(_answer: &Result<Vec<Entry>, RefusalNumber>) -> u64 {
        0
    }

    fn again(&self) -> Option<Page> {
        None
    }

    fn says_full(_answer: &Result<Vec<Entry>, RefusalNumber>) -> bool {
        false
    }
}

/// Hands out all entries; the book opens anew.
#[derive(Drop)]
pub struct Cut;

impl Call for Cut {
    type Answer = Result<Vec<Entry>, RefusalNumber>;

    ghost called = { λ _. cuts };

    ghost answered = { λ found. hands (map_ok (λ entries. entries.items) found) };

    fn make(self, book: &mut Book, _seat: u32) -> Result<Vec<Entry>, RefusalNumber> {
        book.cut()
    }

    fn turned_away(&self) -> Option<Result<Vec<Entry>, RefusalNumber>> {
        None
    }

    fn cuts(answer: &Result<Vec<Entry>, RefusalNumber>) -> u64 {
        match answer {
            Ok(_) => 1,
            Err(_) => 0,
        }
    }

    fn again(&self) -> Option<Cut> {
        None
    }

    fn says_full(_answer: &Result<Vec<Entry>, RefusalNumber>) -> bool {
        false
    }
}

/// Hands out the entries up to a number; the book goes on.
#[derive(Drop)]
pub struct Roll(pub u64);

impl Call for Roll {
    type Answer = Result<Vec<Entry>, RefusalNumber>;

    ghost called = { λ call. rolls call.0 };

    ghost answered = { λ found. hands (map_ok (λ entries. entries.items) found) };

    fn make(self, book: &mut Book, _seat: u32) -> Result<Vec<Entry>, RefusalNumber> {
        book.roll(self.0)
    }

    fn turned_away(&self) -> Option<Result<Vec<Entry>, RefusalNumber>> {
        None
    }

    fn cuts(_answer: &Result<Vec<Entry>, RefusalNumber>) -> u64 {
        0
    }

    fn again(&self) -> Option<Roll> {
        None
    }

    fn says_full(_answer: &Result<Vec<Entry>, RefusalNumber>) -> bool {
        false
    }
}
