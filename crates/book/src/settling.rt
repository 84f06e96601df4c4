//! How a service goes on after a decision. Room is made before anything changes.
ghost use Rattle.std.specs.Prelude.{◌≡◌, ◌+◌, ◌<◌, ◌≤◌, ◌^◌, ℕ, length, Some, IfSome, OnOk, OnErr, OnSome};
ghost use Rattle.std.specs.Arc.{arc_value};
ghost use Rattle.std.specs.Option.{option_map};
ghost use Rattle.registry.specs.Registries.{next_version};
ghost use Rattle.service_profile.specs.Limits.{most_versions};
ghost use Rattle.service_profile.specs.Machine.{Situation};
ghost use Rattle.windows.specs.Notes.{AreNotAfter};
ghost use Rattle.book.specs.Following.{admitted, changed_by, followed, installed_in, refused_after, settled, standing_so, without};
ghost use Rattle.book.specs.Situations.{AreEffects, CanFollow, HasSituation, IsLater, IsOrderly, KeepsVersions, Leads, StandsFor};

use crate::parts::Parts;
use crate::plans::Effects;
use breaker::laws::few_notes_leave_room;
use service_profile::{Note, Standing};
use std::alloc::AllocError;
use std::sync::Arc;
use verifier::Verified;

/// How many calls were refused in the present period, after a decision.
fn refused_after(before: Standing, next: Standing, refused: u64, refuses_call: bool) -> u64
    requires { refused + 1 < 2 ^ 64 }
    ensures { result ≡ refused_after before next refused refuses_call }
{
    let earlier = if next.period == before.period {
        refused
    } else {
        0
    };
    if refuses_call { earlier + 1 } else { earlier }
}

impl Parts {
    /// Ends a ticket, where it is open, and gives back its permission and its place.
    fn end(&mut self, ticket: u64)
        requires { HasSituation self.old }
        ensures kept { KeepsVersions self.old self.new }
        ensures standing { self.new.breaker.standing ≡ self.old.breaker.standing }
        ensures stands { (held : ℕ) (s : Situation) → StandsFor self.old held s → StandsFor self.new held (without s (Some ticket)) }
    {
        // That numbers ascend makes one ticket end, and no other.
        let _open = self.registry.open_count();
        if let Ok(ended) = self.registry.end(ticket) {
            self.bulkhead.leave();
            self.breaker.give_back(ended.period);
        }
    }

    /// Ends the ticket that a decision ends, where there is one.
    fn end_some(&mut self, ended: Option<u64>)
        requires { HasSituation self.old }
        ensures kept { KeepsVersions self.old self.new }
        ensures standing { self.new.breaker.standing ≡ self.old.breaker.standing }
        ensures stands { (held : ℕ) (s : Situation) → StandsFor self.old held s → StandsFor self.new held (without s ended) }
    {
        if let Some(ticket) = ended {
            self.end(ticket);
        }
    }

    /// Stands where a decision leads, with its note where there is one.
    fn stand(&mut self, next: Standing, note: Option<Note>)
        requires situation { HasSituation self.old }
        requires leads { Leads self.old next }
        ensures kept { KeepsVersions self.old self.new }
        ensures stands { (held : ℕ) (s : Situation) → StandsFor self.old held s → IsOrderly s → IsLater s.standing next → IfSome note (λ n. AreNotAfter n.moment s.notes) → StandsFor self.new held (standing_so s next note) }
    {
        few_notes_leave_room();
        self.breaker.follow(next, note);
    }

    /// Goes on where no call is permitted.
    fn settle(&mut self, next: Standing, effects: Effects)
        requires situation { HasSituation self.old }
        requires leads { Leads self.old next }
        ensures kept { KeepsVersions self.old self.new }
        ensures stands { (held : ℕ) (s : Situation) → StandsFor self.old held s → IsOrderly s → AreEffects s next effects → StandsFor self.new held (settled s next effects) }
    {
        self.end_some(effects.ended);
        self.stand(next, effects.note);
    }

    /// Goes on where a call is permitted at a moment: a ticket is issued, and takes a permission and a place. An error,
    /// want of memory, leaves everything as it was.
    fn admit(&mut self, next: Standing, moment: u64) -> Result<(), AllocError>
        requires situation { HasSituation self.old }
        requires leads { Leads self.old next }
        ensures kept { KeepsVersions self.old self.new }
        ensures stands { OnOk result ((held : ℕ) (s : Situation) → StandsFor self.old held s → IsOrderly s → IsLater s.standing next → length s.open_tickets < s.config.max_concurrent_calls → StandsFor self.new held (admitted s next moment)) }
        ensures unchanged { OnErr result ((held : ℕ) (s : Situation) → StandsFor self.old held s → StandsFor self.new held s) }
    {
        self.registry.issue(next.period, moment)?;
        few_notes_leave_room();
        self.breaker.follow(next, None);
        self.breaker.take_permission();
        self.bulkhead.enter();
        Ok(())
    }

    /// Goes on as a decision says, but for the program that gets a version.
    fn change(&mut self, next: Standing, effects: Effects) -> Result<(), AllocError>
        requires situation { HasSituation self.old }
        requires leads { Leads self.old next }
        ensures kept { KeepsVersions self.old self.new }
        ensures stands { OnOk result ((held : ℕ) (s : Situation) → StandsFor self.old held s → IsOrderly s → AreEffects s next effects → StandsFor self.new held (changed_by effects.issued s next effects)) }
        ensures unchanged { OnErr result ((held : ℕ) (s : Situation) → StandsFor self.old held s → StandsFor self.new held s) }
    {
        match effects.issued {
            Some(ticket) => self.admit(next, ticket.moment),
            None => {
                self.settle(next, effects);
                Ok(())
            }
        }
    }

    /// Makes room for the program that gets a version, where there is one. An error, want of memory, leaves
    /// everything as it was.
    fn make_room(&mut self, installed: &Option<Arc<Verified>>) -> Result<(), AllocError>
        ensures config { self.new.config ≡ self.old.config }
        ensures refused { self.new.refused ≡ self.old.refused }
        ensures standing { self.new.breaker.standing ≡ self.old.breaker.standing }
        ensures stands { (held : ℕ) (s : Situation) → StandsFor self.old held s → StandsFor self.new held s }
        ensures room { OnOk result (OnSome installed.now (0 < self.new.registry.program_room)) }
    {
        match installed {
            Some(_) => self.registry.make_program_room(),
            None => Ok(()),
        }
    }

    /// Gives a program the next version, where there is one.
    fn hold(&mut self, installed: Option<Arc<Verified>>)
        requires room { OnSome installed (0 < self.old.registry.program_room) }
        requires few { OnSome installed (length self.old.registry.programs < most_versions) }
        requires version { next_version self.old.registry + 1 < 2 ^ 64 }
        ensures config { self.new.config ≡ self.old.config }
        ensures refused { self.new.refused ≡ self.old.refused }
        ensures stands { (held : ℕ) (s : Situation) → StandsFor self.old held s → StandsFor self.new held (installed_in s (option_map arc_value installed)) }
    {
        if let Some(program) = installed {
            self.registry.hold(program);
        }
    }

    /// Goes on as a decision says, with the program that gets a version. An error, want of memory, leaves
    /// everything as it was.
    pub(crate) fn follow(
        &mut self,
        next: Standing,
        effects: Effects,
        installed: Option<Arc<Verified>>,
    ) -> Result<(), AllocError>
        requires situation { CanFollow self.old next effects (option_map arc_value installed) }
        requires refused { self.old.refused + 1 < 2 ^ 64 }
        ensures config { self.new.config ≡ self.old.config }
        ensures stands { OnOk result ((held : ℕ) (s : Situation) → StandsFor self.old held s → IsOrderly s → AreEffects s next effects → StandsFor self.new (held + 1) (followed s next effects (option_map arc_value installed))) }
        ensures refused { OnOk result ((held : ℕ) (s : Situation) → StandsFor self.old held s → self.new.refused ≡ refused_after s.standing next self.old.refused effects.refuses_call) }
        ensures unchanged { OnErr result ((held : ℕ) (s : Situation) → StandsFor self.old held s → StandsFor self.new held s) }
        ensures refused_unchanged { OnErr result (self.new.refused ≡ self.old.refused) }
    {
        let before = self.standing();
        self.make_room(&installed)?;
        self.change(next, effects)?;
        self.hold(installed);
        self.refused = refused_after(before, next, self.refused, effects.refuses_call);
        Ok(())
    }
}
