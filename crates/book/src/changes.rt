//! What a plan changes, and what is known of what comes in.
ghost use Rattle.std.specs.Prelude.{◌≡◌, ◌<◌, ◌+◌, ◌^◌, ◌⊎◌, ℕ, None, Ok, Err, OnOk, OnErr, IfOk};
ghost use Rattle.std.specs.Arc.{arc_value};
ghost use Rattle.std.specs.Option.{option_map};
ghost use Rattle.std.specs.Vec.{vec_len, vec_capacity};
ghost use Rattle.service_profile.specs.declared.replies.Reply.{Reply};
ghost use Rattle.service_profile.specs.Answers.{map_ok};
ghost use Rattle.service_profile.specs.Configuration.{bad_field};
ghost use Rattle.service_profile.specs.Histories.{install_by};
ghost use Rattle.service_profile.specs.Machine.{Situation};
ghost use Rattle.book.specs.Effects.{is_some};
ghost use Rattle.book.specs.Following.{followed, refused_after};
ghost use Rattle.book.specs.Accepted.{IsSafeProgram, IsJudged, IsEvent, seen};
ghost use Rattle.book.specs.Situations.{AreEffects, CanFollow, IsOrderly, StandsFor};

use crate::events::{Entry, Event};
use crate::parts::Parts;
use crate::plans::Plan;
use bpf_run::Judged;
use refusals::RefusalNumber;
use service_profile::Config;
use std::alloc::AllocError;
use std::sync::Arc;
use verifier::Verified;

/// The event's program, for the registry to own beside the entry, where it gets a version.
fn installed_program(event: &Event, installs: bool) -> Result<Option<Arc<Verified>>, AllocError>
    ensures { (reply : Reply) → installs ≡ is_some (install_by (seen event.now) reply) → IfOk result (λ installed. option_map arc_value installed ≡ install_by (seen event.now) reply) }
{
    match event {
        Event::Install(program) if installs => Ok(Some(Arc::try_clone(program)?)),
        _ => Ok(None),
    }
}

/// Reads off a configuration that each value is in its range.
pub(crate) fn know_config(config: &Config)
    ensures { bad_field config.now ≡ None }
{
    let _parts = config.parts();
}

/// Reads off a verified program that it is safe.
pub(crate) fn know_program(program: &Verified)
    ensures { IsSafeProgram program.now }
{
    let _budget = program.budget();
    let _bytes = program.bytes();
}

/// Reads off judged work that its verdict is the meaning's, on an outcome's record.
pub(crate) fn know_work(judged: &Judged)
    ensures { IsJudged IsSafeProgram judged.now }
{
    know_program(judged.program());
    let _duration = judged.outcome().duration();
}

/// Reads off an event that a program which it installs is safe, and that work which it brings was judged.
pub(crate) fn know_event(event: &Event)
    ensures { IsEvent IsSafeProgram (seen event.now) }
{
    match event {
        Event::Install(program) => know_program(program),
        Event::Finish(judged, _) => know_work(judged),
        _ => {}
    }
}

/// Goes on as a plan says, and makes room for its entry. An error, want of memory, leaves everything as it
/// was.
pub(crate) fn follow(
    entries: &mut Vec<Entry>,
    service: &mut Parts,
    event: &Event,
    plan: Plan,
) -> Result<(), AllocError>
    requires situation { CanFollow service.old plan.decision.next plan.effects (install_by (seen event.now) plan.decision.reply) }
    requires installs { plan.effects.installs ≡ is_some (install_by (seen event.now) plan.decision.reply) }
    requires refused { service.old.refused + 1 < 2 ^ 64 }
    ensures entries { entries.new.items ≡ entries.old.items }
    ensures room { OnOk result (vec_len entries.new < vec_capacity entries.new) }
    ensures config { service.new.config ≡ service.old.config }
    ensures stands { OnOk result ((held : ℕ) (s : Situation) → StandsFor service.old held s → IsOrderly s → AreEffects s plan.decision.next plan.effects → StandsFor service.new (held + 1) (followed s plan.decision.next plan.effects (install_by (seen event.now) plan.decision.reply))) }
    ensures refused { OnOk result ((held : ℕ) (s : Situation) → StandsFor service.old held s → service.new.refused ≡ refused_after s.standing plan.decision.next service.old.refused plan.effects.refuses_call) }
    ensures unchanged { OnErr result ((held : ℕ) (s : Situation) → StandsFor service.old held s → StandsFor service.new held s) }
    ensures refused_unchanged { OnErr result (service.new.refused ≡ service.old.refused) }
{
    entries.reserve(1)?;
    let installed = installed_program(event, plan.effects.installs)?;
    service.follow(plan.decision.next, plan.effects, installed)?;
    Ok(())
}

/// One more owner of a program.
pub(crate) fn owner_of(program: &Arc<Verified>) -> Result<Arc<Verified>, RefusalNumber>
    ensures { (map_ok arc_value result ≡ Ok (arc_value program.now)) ⊎ (map_ok arc_value result ≡ Err RefusalNumber.ServiceOutOfMemory) }
{
    match Arc::try_clone(program) {
        Ok(program) => Ok(program),
        Err(_) => Err(RefusalNumber::ServiceOutOfMemory),
    }
}
