//! A roll of a book: entries are handed out, programs that nobody needs any more are dropped, and all else goes
//! on as it is.
ghost use Rattle.std.specs.Prelude.{◌≡◌, ◌-◌, ◌<◌, ◌≤◌, length, min, suc, take, drop, OnErr, IfOk, OnOk};
ghost use Rattle.service_profile.specs.Answers.{IsRolled, map_ok};
ghost use Rattle.service_profile.specs.Histories.{IsLegal, past_of};
ghost use Rattle.book.specs.Accepted.{IsSafeProgram};
ghost use Rattle.book.specs.Sound.{IsSound};

use crate::books::Book;
use crate::events::Entry;
use refusals::RefusalNumber;
use std::alloc::AllocError;
use std::mem;

/// Takes the first entries out, so many. An error, want of memory for a list of those that stay, leaves
/// everything as it was.
fn split(entries: &mut Vec<Entry>, count: usize) -> Result<Vec<Entry>, AllocError>
    requires { count ≤ length entries.old.items }
    ensures handed { IfOk result (λ handed. handed.items ≡ take count entries.old.items) }
    ensures stays { OnOk result (entries.new.items ≡ drop count entries.old.items) }
    ensures err { OnErr result (entries.new ≡ entries.old) }
    ensures some { OnErr result (count < length entries.old.items) }
{
    let staying = if count < entries.len() {
        entries.split_off(count)?
    } else {
        Vec::new(*entries.allocator())
    };
    Ok(mem::replace(entries, staying))
}

impl Book {
    /// Hands out the entries up to a number that are held, and drops the programs of versions before the
    /// least that an open ticket or a new one has, so that there is room for others. All else goes on as it
    /// is: state, period, notes, tickets, and all numbers, those of versions too. The refusal is
    /// `JournalFull` where a number that would go on is past 2^63, `ServiceOutOfMemory` where there is no
    /// memory for a list of the entries that stay; it changes nothing. A number that was passed before hands
    /// out nothing.
    pub fn roll(&mut self, last: u64) -> Result<Vec<Entry>, RefusalNumber>
        ensures rolled { IsRolled self.old last (map_ok (λ entries. entries.items) result) self.new }
        ensures legal_before { IsLegal self.old }
        ensures sound_before { IsSound IsSafeProgram (past_of self.old) }
        ensures legal_after { IsLegal self.new }
        ensures sound_after { IsSound IsSafeProgram (past_of self.new) }
    {
        if self.is_worn_out() {
            return Err(RefusalNumber::JournalFull);
        }
        let passed = last.saturating_sub(self.start.line + self.rolled - 1);
        let count = passed.min(self.entries.len() as u64);
        match split(&mut self.entries, count as usize) {
            Ok(handed) => {
                self.handed = self.handed.and(&handed);
                self.rolled += count;
                self.service.drop_unneeded();
                Ok(handed)
            }
            Err(_) => Err(RefusalNumber::ServiceOutOfMemory),
        }
    }
}
