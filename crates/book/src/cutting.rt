//! The cut of a book: its entries are handed out, and it opens anew.
ghost use Rattle.std.specs.Prelude.{◌≡◌, ◌||◌, false, IfOk, []};
ghost use Rattle.service_profile.specs.Answers.{IsCut, is_past_the_limit, is_worn_out, reopened, map_ok};
ghost use Rattle.service_profile.specs.Events.{history_of};
ghost use Rattle.service_profile.specs.Histories.{IsLegal, past_of};
ghost use Rattle.book.specs.Accepted.{IsSafeProgram};
ghost use Rattle.book.specs.Sound.{IsSound};

use crate::books::{Book, Start};
use crate::events::Entry;
use refusals::RefusalNumber;
use service_profile::GREATEST_NUMBER;
use std::alloc::AllocError;
use std::mem;
use std::sync::Arc;

fn is_past_the_limit(number: u64) -> bool
    ensures { result ≡ is_past_the_limit number }
{
    number > GREATEST_NUMBER
}

/// Whether one of the numbers that would come next is past the limit.
fn are_worn_out(line: u64, ticket: u64, period: u64, version: u64) -> bool
    ensures { result ≡ (is_past_the_limit line || (is_past_the_limit ticket || (is_past_the_limit period || is_past_the_limit version))) }
{
    is_past_the_limit(line)
        || is_past_the_limit(ticket)
        || is_past_the_limit(period)
        || is_past_the_limit(version)
}

impl Book {
    /// Whether a number that would go on is past its limit.
    pub(crate) fn is_worn_out(&self) -> bool
        ensures { result ≡ is_worn_out (past_of self.now) }
    {
        are_worn_out(
            self.start.line + self.rolled + self.entries.len() as u64,
            self.service.next_ticket(),
            self.service.standing().period + 1,
            self.service.current_version() + 1,
        )
    }

    /// The book that goes on from this one. Errors are want of memory.
    fn reopened(&self) -> Result<Book, AllocError>
        requires { is_worn_out (past_of self.now) ≡ false }
        ensures opened { IfOk result (λ book. book ≡ history_of (reopened (past_of self.now)) []) }
        ensures legal { IfOk result IsLegal }
        ensures sound { IfOk result (λ book. IsSound IsSafeProgram (past_of book)) }
    {
        let start = Start {
            program: Arc::try_clone(self.service.current_program())?,
            version: self.service.current_version(),
            period: self.service.standing().period + 1,
            ticket: self.service.next_ticket(),
            line: self.start.line + self.rolled + self.entries.len() as u64,
            moment: self.moment,
        };
        Book::begin(*self.entries.allocator(), self.service.config, start)
    }

    /// Hands out all entries, and opens anew: with the configuration, the program of new tickets under
    /// its number as the only version, in CLOSED and a new period since the greatest moment. That moment
    /// and all numbers go on. The refusal is `JournalFull` where a number that would go on is past 2^63,
    /// then `TicketsOpen` where a ticket is open, `ServiceOutOfMemory` without memory; it changes nothing.
    pub fn cut(&mut self) -> Result<Vec<Entry>, RefusalNumber>
        ensures cut { IsCut self.old (map_ok (λ entries. entries.items) result) self.new }
        ensures legal_before { IsLegal self.old }
        ensures sound_before { IsSound IsSafeProgram (past_of self.old) }
        ensures legal_after { IsLegal self.new }
        ensures sound_after { IsSound IsSafeProgram (past_of self.new) }
    {
        if self.is_worn_out() {
            return Err(RefusalNumber::JournalFull);
        }
        if self.service.open_count() > 0 {
            return Err(RefusalNumber::TicketsOpen);
        }
        match self.reopened() {
            Ok(book) => {
                let Book { entries, .. } = mem::replace(self, book);
                Ok(entries)
            }
            Err(_) => Err(RefusalNumber::ServiceOutOfMemory),
        }
    }
}
