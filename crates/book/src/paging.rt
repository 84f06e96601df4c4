//! Pages of the journal: copies of entries.
ghost use Rattle.std.specs.Prelude.{◌≡◌, ◌<◌, length, take, IfOk};
ghost use Rattle.service_profile.specs.Limits.{most_page_entries};
ghost use Rattle.service_profile.specs.Answers.{IsPage, map_ok};
ghost use Rattle.service_profile.specs.Histories.{IsLegal, past_of};
ghost use Rattle.book.specs.Accepted.{IsSafeProgram};
ghost use Rattle.book.specs.Sound.{IsSound};

use crate::books::Book;
use crate::events::Entry;
use refusals::RefusalNumber;
use service_profile::MOST_PAGE_ENTRIES;
use std::alloc::{AllocError, Global};

/// Copies of all entries, in their order.
fn copies(alloc: Global, entries: &[Entry]) -> Result<Vec<Entry>, AllocError>
    ensures { IfOk result (λ copies. copies.items ≡ entries.now) }
{
    let mut copies = Vec::with_capacity(alloc, entries.len())?;
    for entry in entries {
        copies.push(entry.try_clone()?)?;
    }
    Ok(copies)
}

/// The first entries, so many at most.
#[tactic(auto, using(std::proofs::lemmas::List::take_min))]
fn first(entries: &[Entry]) -> &[Entry]
    ensures { result.now ≡ take most_page_entries entries.now }
{
    &entries[..MOST_PAGE_ENTRIES.min(entries.len())]
}

impl Book {
    /// Copies of at most 100 entries from a number on that are held. It counts as a read, and nothing
    /// changes. The refusal is `ServiceOutOfMemory`, where there is no memory for the copies.
    pub fn page(&self, from: u64) -> Result<Vec<Entry>, RefusalNumber>
        ensures page { IsPage self.now from (map_ok (λ entries. entries.items) result) }
        ensures legal { IsLegal self.now }
        ensures sound { IsSound IsSafeProgram (past_of self.now) }
    {
        let page = first(self.entries(from));
        if page.is_empty() {
            return Ok(Vec::new(*self.entries.allocator()));
        }
        match copies(*self.entries.allocator(), page) {
            Ok(entries) => Ok(entries),
            Err(_) => Err(RefusalNumber::ServiceOutOfMemory),
        }
    }
}
