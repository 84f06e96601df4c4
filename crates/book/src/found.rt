//! A service as an event finds it: its parts as they are, and its breaker where it stands at the event's moment.
ghost use Rattle.std.specs.Prelude.{◌≡◌, ◌+◌, ◌-◌, ◌≤◌, ◌<◌, ◌^◌, ◌++◌, ◌∷◌, [], ℕ, length, nat_le};
ghost use Rattle.std.specs.Arc.{arc_value};
ghost use Rattle.std.specs.Option.{option_map};
ghost use Rattle.service_profile.specs.Machine.{Situation, at_moment, current_version, permission_in, permissions_held, program_from};
ghost use Rattle.service_profile.specs.Rates.{after_notes};
ghost use Rattle.windows.specs.Notes.{AreNotAfter};
ghost use Rattle.book.specs.Situations.{HasSituation, StandsFor};
ghost use Rattle.book.specs.Finding.{IsFoundAs, HasFound, found_standing, ticket_in};

use crate::parts::Parts;
use refusals::RefusalNumber;
use service_profile::{ConfigParts, Note, OpenTicket, Permission, Standing};
use std::sync::Arc;
use verifier::Verified;

/// A service as an event finds it. A stay in HALF_OPEN that has lasted as long as it may ends before the event is taken, so
/// that the breaker then stands in OPEN, in a new period with no notes; all else is as the service has it. Nothing is
/// changed: what is decided goes on from where the breaker stands here.
#[derive(Drop)]
pub(crate) struct FoundService<'a> {
    pub service: &'a Parts,
    /// Where the breaker stands once its stay has ended; None where no stay ends.
    pub after_stay: Option<Standing>,
}

impl Parts {
    /// The service as an event at a moment finds it.
    pub(crate) fn at_moment(&self, moment: u64) -> FoundService<'_>
        requires { HasSituation self.now }
        ensures found { (held : ℕ) (s : Situation) → StandsFor self.now held s → IsFoundAs result held (at_moment s moment) }
        ensures situation { HasFound result }
    {
        FoundService {
            service: self,
            after_stay: self.breaker.after_stay(moment),
        }
    }
}

impl FoundService<'_> {
    /// The configuration's values.
    pub(crate) fn parts(&self) -> ConfigParts
        ensures { (held : ℕ) (s : Situation) → IsFoundAs self.now held s → result ≡ s.config }
    {
        self.service.config.parts()
    }

    /// Where the breaker stands.
    pub(crate) fn standing(&self) -> Standing
        ensures stands { (held : ℕ) (s : Situation) → IsFoundAs self.now held s → result ≡ s.standing }
        ensures standing { result ≡ found_standing self.now }
    {
        match self.after_stay {
            Some(standing) => standing,
            None => self.service.breaker.standing(),
        }
    }

    /// What the breaker says to a call at a moment.
    pub(crate) fn permission(&self, moment: u64) -> Permission
        requires { HasFound self.now }
        ensures { (held : ℕ) (s : Situation) → IsFoundAs self.now held s → result ≡ permission_in s.standing.state s.config s.standing (length s.notes) (permissions_held s.standing.period s.open_tickets) moment }
    {
        match self.after_stay {
            Some(standing) => self
                .service
                .breaker
                .permission_in_new_period(standing, moment),
            None => self.service.permission(moment),
        }
    }

    /// Where the breaker stands after a note, whose moment is not before that of another. In OPEN a note leads nowhere.
    pub(crate) fn after_note(&self, note: Note) -> Standing
        requires { HasFound self.now }
        ensures { (held : ℕ) (s : Situation) → IsFoundAs self.now held s → AreNotAfter note.moment s.notes → result ≡ after_notes s.config note.moment s.standing (s.notes ++ note ∷ []) }
    {
        match self.after_stay {
            Some(standing) => standing,
            None => self.service.after_note(note),
        }
    }

    /// Whether the bulkhead has no place left.
    pub(crate) fn is_taken(&self) -> bool
        ensures { (held : ℕ) (s : Situation) → IsFoundAs self.now held s → result ≡ nat_le s.config.max_concurrent_calls (length s.open_tickets) }
    {
        self.service.is_taken()
    }

    /// The number of the next ticket.
    pub(crate) fn next_ticket(&self) -> u64
        ensures { (held : ℕ) (s : Situation) → IsFoundAs self.now held s → result ≡ s.next_ticket }
    {
        self.service.next_ticket()
    }

    /// The open ticket of a number, or why it is not open.
    pub(crate) fn ticket(&self, number: u64) -> Result<OpenTicket, RefusalNumber>
        ensures { (held : ℕ) (s : Situation) → IsFoundAs self.now held s → result ≡ ticket_in s number }
    {
        self.service.registry.ticket(number)
    }

    /// The program of a version that was not dropped.
    pub(crate) fn program(&self, version: u64) -> Option<&Arc<Verified>>
        ensures { (held : ℕ) (s : Situation) → IsFoundAs self.now held s → s.first_version + s.dropped ≤ version → option_map (λ p. arc_value p.now) result ≡ program_from s.first_version s.programs version }
    {
        self.service.program(version)
    }

    /// How many versions are held.
    pub(crate) fn version_count(&self) -> usize
        ensures { (held : ℕ) (s : Situation) → IsFoundAs self.now held s → result ≡ length s.programs - s.dropped }
    {
        self.service.version_count()
    }

    /// The version of the next program.
    pub(crate) fn next_version(&self) -> u64
        ensures { (held : ℕ) (s : Situation) → IsFoundAs self.now held s → result ≡ s.first_version + length s.programs }
    {
        self.service.next_version()
    }

    /// The version of new tickets.
    pub(crate) fn current_version(&self) -> u64
        ensures { (held : ℕ) (s : Situation) → IsFoundAs self.now held s → result ≡ current_version s }
    {
        self.service.current_version()
    }
}
