//! The parts of a service, and what the book asks of them. Contracts speak of a situation that the parts stand
//! for.
ghost use Rattle.std.specs.Prelude.{◌≡◌, ◌+◌, ◌-◌, ◌≤◌, ◌++◌, ◌∷◌, [], ℕ, length, nat_le, slice_get, Some, IfOk};
ghost use Rattle.std.specs.Arc.{arc_value};
ghost use Rattle.std.specs.Option.{option_map};
ghost use Rattle.breaker.specs.Calls.{metrics_of};
ghost use Rattle.service_profile.specs.Answers.{looked, map_ok};
ghost use Rattle.service_profile.specs.Events.{nothing_rolled};
ghost use Rattle.service_profile.specs.Histories.{opened, situation_of};
ghost use Rattle.service_profile.specs.Machine.{Situation, current_version, is_open, permission_in, permissions_held, program_from};
ghost use Rattle.service_profile.specs.Openings.{IsOpening};
ghost use Rattle.service_profile.specs.Rates.{after_notes};
ghost use Rattle.windows.specs.Notes.{AreNotAfter};
ghost use Rattle.book.specs.Books.{opening_of};
ghost use Rattle.book.specs.Following.{without_unneeded};
ghost use Rattle.book.specs.Situations.{HasSituation, StandsFor, breaker_of};

use crate::books::Start;
use breaker::laws::few_notes_leave_room;
use breaker::{Breaker, Metrics};
use bulkhead::Bulkhead;
use refusals::RefusalNumber;
use registry::Registry;
use service_profile::{Config, Note, OpenTicket, Permission, Standing};
use std::alloc::{AllocError, Global};
use std::sync::Arc;
use verifier::Verified;

/// A service's configuration, its breaker, its bulkhead, and its versions and tickets.
#[derive(Drop)]
pub(crate) struct Parts {
    pub config: Config,
    pub(crate) breaker: Breaker,
    pub(crate) bulkhead: Bulkhead,
    pub(crate) registry: Registry,
    /// How many calls were refused in this period.
    pub refused: u64,
}

/// A bulkhead of a configuration, with all places free.
fn bulkhead_of(config: &Config) -> Bulkhead
    ensures { result ≡ record { places = config.now.max_concurrent_calls; taken = 0 } }
{
    Bulkhead::new(config.parts().max_concurrent_calls as u32)
}

impl Parts {
    /// The parts of a book that opens so, in CLOSED with no entry. Errors are want of memory.
    pub(crate) fn new(alloc: Global, config: Config, start: &Start) -> Result<Parts, AllocError>
        requires { IsOpening (opening_of config start.now) }
        ensures config { IfOk result (λ service. service.config ≡ config) }
        ensures stands { IfOk result (λ service. StandsFor service 0 (situation_of (opened nothing_rolled (opening_of config start.now)))) }
        ensures refused { IfOk result (λ service. service.refused ≡ 0) }
    {
        let program = Arc::try_clone(&start.program)?;
        let breaker = Breaker::new(alloc, config, start.period, start.moment)?;
        let registry = Registry::new(alloc, program, start.version, start.ticket)?;
        Ok(Parts {
            config,
            breaker,
            bulkhead: bulkhead_of(&config),
            registry,
            refused: 0,
        })
    }

    /// Where the breaker stands.
    pub(crate) fn standing(&self) -> Standing
        ensures { (held : ℕ) (s : Situation) → StandsFor self.now held s → result ≡ s.standing }
    {
        self.breaker.standing()
    }

    /// What the breaker says to a call at a moment.
    pub(crate) fn permission(&self, moment: u64) -> Permission
        requires { HasSituation self.now }
        ensures { (held : ℕ) (s : Situation) → StandsFor self.now held s → result ≡ permission_in s.standing.state s.config s.standing (length s.notes) (permissions_held s.standing.period s.open_tickets) moment }
    {
        self.breaker.permission(moment)
    }

    /// Where the breaker stands after a note, whose moment is not before that of another.
    pub(crate) fn after_note(&self, note: Note) -> Standing
        requires { HasSituation self.now }
        ensures { (held : ℕ) (s : Situation) → StandsFor self.now held s → AreNotAfter note.moment s.notes → result ≡ after_notes s.config note.moment s.standing (s.notes ++ note ∷ []) }
    {
        few_notes_leave_room();
        self.breaker.after_note(note)
    }

    /// How the breaker stands, and what it counts at a moment that is not before that of a note.
    pub(crate) fn metrics(&self, moment: u64) -> Metrics
        ensures { (held : ℕ) (s : Situation) → StandsFor self.now held s → AreNotAfter moment s.notes → result ≡ metrics_of moment (breaker_of s) }
    {
        self.breaker.metrics(moment)
    }

    /// How many tickets are open.
    pub(crate) fn open_count(&self) -> usize
        ensures { (held : ℕ) (s : Situation) → StandsFor self.now held s → result ≡ length s.open_tickets }
    {
        self.registry.open_count()
    }

    /// The open ticket that was issued first, where any is open.
    pub(crate) fn oldest_ticket(&self) -> Option<OpenTicket>
        ensures { (held : ℕ) (s : Situation) → StandsFor self.now held s → result ≡ slice_get s.open_tickets 0 }
    {
        self.registry.oldest_ticket()
    }

    /// Whether the bulkhead has no place left.
    pub(crate) fn is_taken(&self) -> bool
        ensures { (held : ℕ) (s : Situation) → StandsFor self.now held s → result ≡ nat_le s.config.max_concurrent_calls (length s.open_tickets) }
    {
        self.bulkhead.free() == 0
    }

    /// How many places of the bulkhead are free.
    pub(crate) fn free_places(&self) -> u64
        ensures { (held : ℕ) (s : Situation) → StandsFor self.now held s → result ≡ s.config.max_concurrent_calls - length s.open_tickets }
    {
        u64::from(self.bulkhead.free())
    }

    /// The number of the next ticket.
    pub(crate) fn next_ticket(&self) -> u64
        ensures { (held : ℕ) (s : Situation) → StandsFor self.now held s → result ≡ s.next_ticket }
    {
        self.registry.next_ticket()
    }

    /// Whether the ticket of a number is open.
    pub(crate) fn is_open(&self, ticket: u64) -> bool
        ensures { (held : ℕ) (s : Situation) → StandsFor self.now held s → result ≡ is_open s.open_tickets ticket }
    {
        self.registry.is_open(ticket)
    }

    /// The program that judges under a ticket.
    pub(crate) fn look(&self, ticket: u64) -> Result<&Arc<Verified>, RefusalNumber>
        ensures { (held : ℕ) (s : Situation) → StandsFor self.now held s → map_ok (λ p. arc_value p.now) result ≡ looked s ticket }
    {
        self.registry.look(ticket)
    }

    /// The program of a version that was not dropped.
    pub(crate) fn program(&self, version: u64) -> Option<&Arc<Verified>>
        ensures { (held : ℕ) (s : Situation) → StandsFor self.now held s → s.first_version + s.dropped ≤ version → option_map (λ p. arc_value p.now) result ≡ program_from s.first_version s.programs version }
    {
        self.registry.program(version)
    }

    /// How many versions are held.
    pub(crate) fn version_count(&self) -> usize
        ensures { (held : ℕ) (s : Situation) → StandsFor self.now held s → result ≡ length s.programs - s.dropped }
    {
        self.registry.version_count()
    }

    /// The version of the next program.
    pub(crate) fn next_version(&self) -> u64
        ensures { (held : ℕ) (s : Situation) → StandsFor self.now held s → result ≡ s.first_version + length s.programs }
    {
        self.registry.next_version()
    }

    /// The version of new tickets.
    pub(crate) fn current_version(&self) -> u64
        ensures { (held : ℕ) (s : Situation) → StandsFor self.now held s → result ≡ current_version s }
    {
        self.registry.current_version()
    }

    /// The program of new tickets.
    pub(crate) fn current_program(&self) -> &Arc<Verified>
        ensures { (held : ℕ) (s : Situation) → StandsFor self.now held s → Some (arc_value result.now) ≡ program_from s.first_version s.programs (current_version s) }
    {
        self.registry.current_program()
    }

    /// Drops the programs of versions before the least that an open ticket or a new one has.
    pub(crate) fn drop_unneeded(&mut self)
        ensures config { self.new.config ≡ self.old.config }
        ensures refused { self.new.refused ≡ self.old.refused }
        ensures stands { (held : ℕ) (s : Situation) → StandsFor self.old held s → StandsFor self.new held (without_unneeded s) }
    {
        self.registry.drop_unneeded();
    }
}
