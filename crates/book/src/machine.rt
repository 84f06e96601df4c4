//! What is decided of an event before anything changes: the reply, where the breaker stands then, and the
//! effects. Each step is the documented machine's, in any situation that the service's parts stand for.
ghost use Rattle.std.specs.Prelude.{◌≡◌, ◌+◌, ◌<◌, ◌≤◌, ◌^◌, ℕ, true, Some};
ghost use Rattle.service_profile.specs.Events.{EventData, acquires, finishes, releases, installs, moves, resets};
ghost use Rattle.service_profile.specs.Machine.{Situation, judgement_of, acquired, same_program, fate_of, note_of, concluded, finished, finished_by, finished_under, released, installed, moved_to, is_full, decided, decision, is_entered, is_entered_refusal, meant};
ghost use Rattle.windows.specs.Notes.{AreNotAfter};
ghost use Rattle.book.specs.Effects.{permitted_plan, planned, released_plan, reported_plan};
ghost use Rattle.book.specs.Accepted.{seen};
ghost use Rattle.book.specs.Situations.{HasSituation, StandsFor};
ghost use Rattle.book.specs.Finding.{IsFoundAs, HasFound};

use crate::changes::{know_program, know_work};
use crate::events::Event;
use crate::found::FoundService;
use crate::parts::Parts;
use crate::plans::{Effects, Plan};
use bpf_profile::Verdict;
use bpf_run::Judged;
use packed_outcomes::PackedOutcome;
use refusals::RefusalNumber;
use service_profile::{
    ConfigParts, Decision, Fate, MOST_ENTRIES, MOST_VERSIONS, Note, OpenTicket, Reply, Standing,
    State,
};
use verifier::Verified;

/// A permitted call, under a new ticket.
fn permitted(standing: Standing, ticket: OpenTicket) -> Plan
    ensures { result ≡ permitted_plan standing ticket }
{
    let mut effects = Effects::NONE;
    effects.issued = Some(ticket);
    Plan {
        decision: Decision {
            reply: Reply::Permitted {
                ticket: ticket.number,
                version: ticket.version,
                state: standing.state,
            },
            next: standing,
        },
        effects,
    }
}

/// The breaker is asked first, then the bulkhead.
fn acquired(found: &FoundService<'_>, moment: u64) -> Plan
    requires { HasFound found.now }
    ensures { (held : ℕ) (s : Situation) → IsFoundAs found.now held s → result ≡ planned s.config moment acquires (acquired s moment) }
{
    let permission = found.permission(moment);
    if !permission.given {
        return Plan::refused(permission.standing, RefusalNumber::CallNotPermitted);
    }
    if found.is_taken() {
        return Plan::refused(permission.standing, RefusalNumber::BulkheadFull);
    }
    let ticket = OpenTicket {
        number: found.next_ticket(),
        version: found.current_version(),
        period: permission.standing.period,
        moment,
    };
    permitted(permission.standing, ticket)
}

/// The note of a verdict.
fn note_of(config: &ConfigParts, moment: u64, verdict: Verdict, outcome: &PackedOutcome) -> Note
    ensures { result ≡ note_of config.now moment verdict outcome.now }
{
    let failed = match verdict {
        Verdict::Failure => true,
        _ => false,
    };
    Note {
        moment,
        failed,
        slow: outcome.duration() > config.slow_call_duration_threshold,
    }
}

/// A verdict under a ticket, with where the breaker stands after it.
fn reported(
    ticket: OpenTicket,
    judged: &Judged,
    fate: Fate,
    note: Option<Note>,
    next: Standing,
) -> Plan
    ensures { result ≡ reported_plan ticket judged.now.verdict judged.now.steps fate note next }
{
    let mut effects = Effects::NONE;
    effects.ended = Some(ticket.number);
    effects.note = note;
    Plan {
        decision: Decision {
            reply: Reply::Finished {
                fate,
                verdict: judged.verdict(),
                steps: judged.steps(),
                version: ticket.version,
                state: next.state,
            },
            next,
        },
        effects,
    }
}

/// The answer under a ticket to work that its program judged.
fn concluded(found: &FoundService<'_>, moment: u64, ticket: OpenTicket, judged: &Judged) -> Plan
    requires { HasFound found.now }
    ensures { (held : ℕ) (s : Situation) → IsFoundAs found.now held s → AreNotAfter moment s.notes → result ≡ planned s.config moment (finishes judged.now ticket.number) (concluded s moment ticket judged.now.outcome (judgement_of judged.now)) }
{
    let standing = found.standing();
    let verdict = judged.verdict();
    let fate = standing.fate_of(ticket.period, verdict);
    match fate {
        Fate::Recorded => {
            let parts = found.parts();
            let note = note_of(&parts, moment, verdict, judged.outcome());
            let next = found.after_note(note);
            reported(ticket, judged, fate, Some(note), next)
        }
        _ => reported(ticket, judged, fate, None, standing),
    }
}

/// Whether two programs have the same bytes, and so the same slots, and the same layout.
fn same_program(left: &Verified, right: &Verified) -> bool
    ensures same { result ≡ same_program left.now right.now }
    ensures slots { result ≡ true → left.now.slots ≡ right.now.slots }
    ensures layout { result ≡ true → left.now.layout ≡ right.now.layout }
{
    left.bytes() == right.bytes() && left.layout().number() == right.layout().number()
}

/// The answer under a ticket whose version has this program.
fn finished_by(
    found: &FoundService<'_>,
    moment: u64,
    ticket: OpenTicket,
    judged: &Judged,
    program: &Verified,
) -> Plan
    requires { HasFound found.now }
    ensures { (held : ℕ) (s : Situation) → IsFoundAs found.now held s → AreNotAfter moment s.notes → result ≡ planned s.config moment (finishes judged.now ticket.number) (finished_by meant s moment ticket judged.now (Some program.now)) }
{
    // That the program is safe and the record is one makes the verdict the only one.
    know_program(program);
    know_work(judged);
    if !same_program(judged.program(), program) {
        return Plan::refused(found.standing(), RefusalNumber::Stranger);
    }
    concluded(found, moment, ticket, judged)
}

/// The answer under an open ticket, whose version was not dropped.
fn finished_under(
    found: &FoundService<'_>,
    moment: u64,
    judged: &Judged,
    ticket: OpenTicket,
) -> Plan
    requires { HasFound found.now }
    ensures { (held : ℕ) (s : Situation) → IsFoundAs found.now held s → AreNotAfter moment s.notes → s.first_version + s.dropped ≤ ticket.version → result ≡ planned s.config moment (finishes judged.now ticket.number) (finished_under meant s moment judged.now (Some ticket)) }
{
    match found.program(ticket.version) {
        Some(program) => finished_by(found, moment, ticket, judged, program),
        None => Plan::refused(found.standing(), RefusalNumber::Stranger),
    }
}

/// The answer to an outcome under a ticket.
fn finished(found: &FoundService<'_>, moment: u64, judged: &Judged, ticket: u64) -> Plan
    requires { HasFound found.now }
    ensures { (held : ℕ) (s : Situation) → IsFoundAs found.now held s → AreNotAfter moment s.notes → result ≡ planned s.config moment (finishes judged.now ticket) (finished meant s moment judged.now ticket) }
{
    match found.ticket(ticket) {
        Ok(open) => finished_under(found, moment, judged, open),
        Err(number) => Plan::refused(found.standing(), number),
    }
}

/// The end of an open ticket with no outcome.
fn ended(standing: Standing, ticket: u64) -> Plan
    ensures { result ≡ released_plan standing ticket }
{
    let mut effects = Effects::NONE;
    effects.ended = Some(ticket);
    Plan {
        decision: Decision {
            reply: Reply::Released {
                state: standing.state,
            },
            next: standing,
        },
        effects,
    }
}

/// The answer to the end of a ticket with no outcome.
fn released(found: &FoundService<'_>, ticket: u64) -> Plan
    ensures { (moment : ℕ) (held : ℕ) (s : Situation) → IsFoundAs found.now held s → result ≡ planned s.config moment (releases ticket) (released s ticket) }
{
    let standing = found.standing();
    match found.ticket(ticket) {
        Ok(_) => ended(standing, ticket),
        Err(number) => Plan::refused(standing, number),
    }
}

/// The answer to a program.
fn installed(found: &FoundService<'_>, program: &Verified) -> Plan
    ensures { (moment : ℕ) (held : ℕ) (s : Situation) → IsFoundAs found.now held s → result ≡ planned s.config moment (installs program.now) (installed s program.now) }
{
    let standing = found.standing();
    if found.version_count() >= MOST_VERSIONS {
        return Plan::refused(standing, RefusalNumber::VersionsFull);
    }
    let mut effects = Effects::NONE;
    effects.installs = true;
    Plan {
        decision: Decision {
            reply: Reply::Installed {
                version: found.next_version(),
                budget: program.budget(),
                layout: program.layout(),
            },
            next: standing,
        },
        effects,
    }
}

/// The answer to a move, which every state allows, or to a reset.
fn moved_to(found: &FoundService<'_>, moment: u64, state: State) -> Plan
    requires { HasFound found.now }
    ensures moves { (held : ℕ) (s : Situation) → IsFoundAs found.now held s → result ≡ planned s.config moment (moves state) (moved_to s moment state) }
    ensures resets { (held : ℕ) (s : Situation) → IsFoundAs found.now held s → result ≡ planned s.config moment resets (moved_to s moment state) }
{
    let next = found.standing().moved(state, moment);
    Plan {
        decision: Decision {
            reply: Reply::Moved {
                state,
                period: next.period,
            },
            next,
        },
        effects: Effects::NONE,
    }
}

/// Whether the journal has no entry left for the event.
fn is_full(service: &Parts, held: usize, event: &Event) -> bool
    requires situation { HasSituation service.now }
    requires held { held < 2 ^ 32 }
    ensures { (s : Situation) → StandsFor service.now held s → result ≡ is_full s (seen event.now) }
{
    let used = held + service.open_count();
    match event {
        Event::Acquire => used > MOST_ENTRIES - 2,
        Event::Finish(_, ticket) | Event::Release(ticket) => {
            used > MOST_ENTRIES - 1 && !service.is_open(*ticket)
        }
        Event::Install(_) | Event::Move(_) | Event::Reset => used > MOST_ENTRIES - 1,
    }
}

/// What is decided where the journal has room.
fn decided(found: &FoundService<'_>, moment: u64, event: &Event) -> Plan
    requires { HasFound found.now }
    ensures { (held : ℕ) (s : Situation) → IsFoundAs found.now held s → AreNotAfter moment s.notes → result ≡ planned s.config moment (seen event.now) (decided meant s moment (seen event.now)) }
{
    match event {
        Event::Acquire => acquired(found, moment),
        Event::Finish(judged, ticket) => finished(found, moment, judged, *ticket),
        Event::Release(ticket) => released(found, *ticket),
        Event::Install(program) => installed(found, program),
        Event::Move(state) => moved_to(found, moment, *state),
        Event::Reset => moved_to(found, moment, State::Closed),
    }
}

/// What is decided of an event where the journal holds so many entries, by any situation that the parts
/// stand for. The moment is not before that of a note. It takes no memory, and changes nothing.
pub(crate) fn decide(service: &Parts, held: usize, moment: u64, event: &Event) -> Plan
    requires situation { HasSituation service.now }
    requires held { held < 2 ^ 32 }
    ensures { (s : Situation) → StandsFor service.now held s → AreNotAfter moment s.notes → result ≡ planned s.config moment (seen event.now) (decision s moment (seen event.now)) }
{
    if is_full(service, held, event) {
        return Plan::refused(service.standing(), RefusalNumber::JournalFull);
    }
    decided(&service.at_moment(moment), moment, event)
}

fn is_entered_refusal(number: RefusalNumber) -> bool
    ensures { result ≡ is_entered_refusal number }
{
    match number {
        RefusalNumber::CallNotPermitted
        | RefusalNumber::BulkheadFull
        | RefusalNumber::NoTicket
        | RefusalNumber::TicketSpent => true,
        _ => false,
    }
}

/// Whether a reply stands in the journal.
pub(crate) fn is_entered(reply: Reply) -> bool
    ensures { result ≡ is_entered reply }
{
    match reply {
        Reply::Refused(number) => is_entered_refusal(number),
        _ => true,
    }
}
