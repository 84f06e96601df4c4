//! The book of a service.
ghost use Rattle.std.specs.Prelude.{◌≡◌, suc, ◌<◌, ◌≤◌, ◌+◌, ◌^◌, ℕ, length, map, ◌-◌, ◌⊎◌, [], OnOk, OnSome, IfOk, Ok, Err};
ghost use Rattle.std.specs.Arc.{arc_value};
ghost use Rattle.std.specs.Vec.{vec_len, vec_capacity};
ghost use Rattle.service_profile.specs.Answers.{IsApplied, IsLooked, reading, lines_from, map_ok};
ghost use Rattle.service_profile.specs.Openings.{IsOpening};
ghost use Rattle.service_profile.specs.FirstOpening.{first_opening, first_opening_from};
ghost use Rattle.service_profile.specs.Limits.{greatest_number};
ghost use Rattle.service_profile.specs.Events.{history_of};
ghost use Rattle.book.specs.Books.{opening_of};
ghost use Rattle.service_profile.specs.Histories.{IsLegal, past_of, situation_of, next_line};
ghost use Rattle.book.specs.Accepted.{seen, IsSafeProgram};
ghost use Rattle.book.specs.Sound.{IsSound};

use crate::changes::{follow, know_config, know_event, know_program, owner_of};
use crate::events::{Entry, Event};
use crate::machine::{decide, is_entered};
use crate::parts::Parts;
use ghost_list::GhostList;
use refusals::RefusalNumber;
use service_profile::{Config, Reading, Reply};
use std::alloc::{AllocError, Global};
use std::marker::Model;
use std::sync::Arc;
use verifier::Verified;

/// How a book opened: its first program, and the numbers and the moment that it goes on from.
#[derive(Drop)]
pub(crate) struct Start {
    pub program: Arc<Verified>,
    pub version: u64,
    pub period: u64,
    pub ticket: u64,
    pub line: u64,
    pub moment: u64,
}

/// The book of a service. Contracts see its opening and the list of its entries, a legal history at all
/// times. Beside these it holds what follows from the history.
#[derive(Drop)]
pub struct Book {
    pub(crate) start: Start,
    pub(crate) service: Parts,
    pub(crate) moment: u64,
    /// How many entries were handed out since it opened.
    pub(crate) rolled: u64,
    /// These entries, for proofs alone.
    pub(crate) handed: GhostList<Vec<Entry>>,
    /// The entries that are held.
    pub(crate) entries: Vec<Entry>,
}

impl Model for Book {
    ghost use Rattle.std.specs.Prelude.{◌≡◌, length};
    ghost use Rattle.service_profile.specs.Events.{History};

    ghost Value = { History };

    ghost use Rattle.book.specs.Books.{opening_of, all_lines, lines_handed, journal, rolled_of, IsBook};

    ghost view = { λ b. journal (opening_of b.service.config b.start) (all_lines b.handed.items b.entries.items) (rolled_of b.rolled b.service b.start) };

    ghost invariant = { λ b. IsBook (opening_of b.service.config b.start) b.service b.moment (all_lines b.handed.items b.entries.items) (rolled_of b.rolled b.service b.start) × (b.rolled ≡ length (lines_handed b.handed.items)) };
}

impl Book {
    /// Opens a book in CLOSED, with this program as version 1 and no entry. Errors are want of memory.
    pub fn open(alloc: Global, config: Config, program: Verified) -> Result<Book, AllocError>
        ensures opened { IfOk result (λ book. book ≡ history_of (first_opening config program) []) }
        ensures legal { IfOk result IsLegal }
        ensures sound { IfOk result (λ book. IsSound IsSafeProgram (past_of book)) }
    {
        Book::open_from(alloc, config, program, 1)
    }

    /// The same, whose first ticket has a number of its own, from 1 to 2^63. A ticket of a number below it counts as
    /// issued and ended.
    pub fn open_from(
        alloc: Global,
        config: Config,
        program: Verified,
        first_ticket: u64,
    ) -> Result<Book, AllocError>
        requires least { 1 ≤ first_ticket }
        requires most { first_ticket ≤ greatest_number }
        ensures opened { IfOk result (λ book. book ≡ history_of (first_opening_from first_ticket config program) []) }
        ensures legal { IfOk result IsLegal }
        ensures sound { IfOk result (λ book. IsSound IsSafeProgram (past_of book)) }
    {
        // What is known of a configuration and of a verified program is kept by the book.
        know_config(&config);
        know_program(&program);
        let start = Start {
            program: Arc::new(alloc, program)?,
            version: 1,
            period: 1,
            ticket: first_ticket,
            line: 1,
            moment: 0,
        };
        Book::begin(alloc, config, start)
    }

    /// A book that opens so, in CLOSED with no entry. Errors are want of memory.
    pub(crate) fn begin(alloc: Global, config: Config, start: Start) -> Result<Book, AllocError>
        requires opening { IsOpening (opening_of config start) }
        requires program { IsSafeProgram (arc_value start.program) }
        ensures opened { IfOk result (λ book. book ≡ history_of (opening_of config start) []) }
        ensures legal { IfOk result IsLegal }
        ensures sound { IfOk result (λ book. IsSound IsSafeProgram (past_of book)) }
    {
        Ok(Book {
            service: Parts::new(alloc, config, &start)?,
            moment: start.moment,
            rolled: 0,
            handed: GhostList::new(),
            entries: Vec::new(alloc),
            start,
        })
    }

    /// Takes an event of a seat, and answers it. The moment, in milliseconds, is raised to the greatest
    /// that the book has seen. The refusals `CallNotPermitted`, `BulkheadFull`, `NoTicket` and
    /// `TicketSpent` make an entry, as each success does; `Stranger`, `VersionsFull` and `JournalFull`
    /// change nothing, nor does `ServiceOutOfMemory`.
    pub fn apply(&mut self, seat: u32, moment: u64, event: Event) -> Reply
        ensures applied { IsApplied self.old seat moment (seen event) result self.new }
        ensures legal_before { IsLegal self.old }
        ensures sound_before { IsSound IsSafeProgram (past_of self.old) }
        ensures legal_after { IsLegal self.new }
        ensures sound_after { IsSound IsSafeProgram (past_of self.new) }
    {
        let moment = moment.max(self.moment);
        let plan = decide(&self.service, self.entries.len(), moment, &event);
        let reply = plan.decision.reply;
        if !is_entered(reply) {
            return reply;
        }
        know_event(&event);
        if follow(&mut self.entries, &mut self.service, &event, plan).is_err() {
            return Reply::Refused(RefusalNumber::ServiceOutOfMemory);
        }
        let number = self.start.line + self.rolled + self.entries.len() as u64;
        let entry = Entry::new(number, seat, event, moment, reply);
        self.moment = moment;
        self.entries.push_reserved(entry);
        reply
    }

    /// The program that judges under an open ticket: that of the ticket's version. The refusal is `NoTicket`
    /// where the ticket was never issued, `TicketSpent` where it has ended, `ServiceOutOfMemory` where the
    /// program can have no more owners. Nothing is entered.
    pub fn look(&self, ticket: u64) -> Result<Arc<Verified>, RefusalNumber>
        ensures looked { IsLooked self.now ticket (map_ok arc_value result) }
        ensures legal { IsLegal self.now }
        ensures sound { IsSound IsSafeProgram (past_of self.now) }
    {
        match self.service.look(ticket) {
            Ok(program) => owner_of(program),
            Err(number) => Err(number),
        }
    }

    /// How the service stands at a moment, in milliseconds, which is raised to the greatest that the book
    /// has seen, for this answer alone. It takes no memory.
    pub fn read(&self, moment: u64) -> Reading
        ensures reading { result ≡ reading (past_of self.now) moment }
        ensures legal { IsLegal self.now }
        ensures sound { IsSound IsSafeProgram (past_of self.now) }
    {
        let service = &self.service;
        let metrics = service.metrics(moment.max(self.moment));
        Reading {
            state: metrics.state,
            period: metrics.period,
            version: service.current_version(),
            budget: service.current_program().budget(),
            total: metrics.total,
            failed: metrics.failed,
            slow: metrics.slow,
            failure_rate: metrics.failure_rate,
            slow_rate: metrics.slow_rate,
            open_tickets: service.open_count() as u64,
            free: service.free_places(),
            not_permitted: service.refused,
            entries: self.last_number(),
            oldest_ticket: service.oldest_ticket(),
        }
    }

    /// The entries from a number on that are held.
    pub fn entries(&self, from: u64) -> &[Entry]
        ensures entries { result.now ≡ lines_from self.now from }
        ensures legal { IsLegal self.now }
        ensures sound { IsSound IsSafeProgram (past_of self.now) }
    {
        let passed = from.saturating_sub(self.start.line + self.rolled);
        let first = passed.min(self.entries.len() as u64) as usize;
        &self.entries[first..]
    }

    /// The number of the last entry, 0 before the first.
    pub fn last_number(&self) -> u64
        ensures number { suc result ≡ next_line (past_of self.now) }
        ensures legal { IsLegal self.now }
        ensures sound { IsSound IsSafeProgram (past_of self.now) }
    {
        self.start.line + self.rolled + self.entries.len() as u64 - 1
    }
}
