//! Laws of circuit breakers, tickets and journals in the words of those who use them. They speak of every
//! history, and of each line that the machine may write after it.
ghost use Rattle.std.specs.Prelude.{◌≡◌, ◌≤◌, ◌<◌, ◌-◌, ◌⊎◌, ℕ, suc, List, ◌∷◌, slice_get, Some, true};
ghost use Rattle.std.specs.List.{flat_map};
ghost use Rattle.bpf_profile.specs.declared.machine.Verdict.{Verdict};
ghost use Rattle.bpf_profile.specs.Outcomes.{Outcome};
ghost use Rattle.refusals.specs.declared.RefusalNumber.TheVariants as refusal;
ghost use Rattle.service_profile.specs.declared.replies.Reply.TheVariants as reply;
ghost use Rattle.service_profile.specs.declared.states.State.{State};
ghost use Rattle.service_profile.specs.declared.states.State.TheVariants as state;
ghost use Rattle.service_profile.specs.Events.{EntryData, EventData, History, acquires};
ghost use Rattle.service_profile.specs.Machine.{Situation, decision};
ghost use Rattle.service_profile.specs.Histories.{past_of, passed, ended, is_listed, Follows, IsLegal};
ghost use Rattle.service_profile.specs.Standings.{moved};
ghost use Rattle.book.specs.Laws.{IsService};
ghost use Rattle.service_laws.specs.Promises.{IsReasonToOpen, NoneTwice, numbers_issued, AreCutInTurn, lines_of_all, first_lines, Finishes, AreOfTheTicket, StayIsOver, decision_without_stays};

use book::Acceptance;

/// In OPEN no call is permitted before the wait is over: a line that permits one comes at least the wait's
/// milliseconds after the moment since which the breaker stands in OPEN.
pub fn open_permits_no_call_before_its_wait_is_over()
    ensures { (history : History) (line : EntryData) (ticket version : ℕ) (reached : State) → Follows (past_of history) line → (past_of history).standing.state ≡ state.Open → line.reply ≡ reply.Permitted ticket version reached → history.opening.config.wait_duration_in_open_state ≤ line.moment - (past_of history).standing.since }
{}

/// A line leaves the breaker as it stands, or begins a later period: then the breaker stands so since the
/// line's moment.
pub fn periods_begin_at_a_lines_moment()
    ensures { (history : History) (line : EntryData) → Follows (past_of history) line → ((passed (past_of history) line).standing ≡ (past_of history).standing) ⊎ (((passed (past_of history) line).standing.since ≡ line.moment) × ((past_of history).standing.period < (passed (past_of history) line).standing.period)) }
{}

/// A breaker comes from CLOSED to OPEN for a reason alone: a line makes a note with which there are as many
/// notes in the window as the minimum asks for, and failures or slow calls reach their threshold; or an
/// operator moves it to OPEN.
pub fn closed_opens_for_a_reason_alone()
    ensures { (history : History) (line : EntryData) → Follows (past_of history) line → (past_of history).standing.state ≡ state.Closed → (passed (past_of history) line).standing.state ≡ state.Open → IsReasonToOpen (past_of history) line }
{}

/// And wherever there is such a reason in CLOSED, the breaker comes to OPEN, in the next period and since
/// the line's moment.
pub fn closed_opens_for_each_reason()
    ensures { (history : History) (line : EntryData) → Follows (past_of history) line → (past_of history).standing.state ≡ state.Closed → IsReasonToOpen (past_of history) line → (passed (past_of history) line).standing ≡ moved state.Open line.moment (past_of history).standing }
{}

/// Each ticket ends at most once: the list of the numbers of the tickets that ended since the opening of a legal
/// history has no number twice (`since_an_opening`), and neither has that over all openings, where each further history is
/// opened by the cut of the one before it (`over_cuts`).
pub fn tickets_end_at_most_once()
    ensures since_an_opening { (history : History) → IsLegal history → NoneTwice (ended (past_of history).stages) }
    ensures over_cuts { (first : History) (further : List History) → IsLegal first → AreCutInTurn first further → NoneTwice (flat_map (λ (history : History). ended (past_of history).stages) (first ∷ further)) }
{}

/// Each number is given to one ticket alone, since the opening of a legal history (`since_an_opening`) and over all
/// openings (`over_cuts`).
pub fn ticket_numbers_are_given_once()
    ensures since_an_opening { (history : History) → IsLegal history → NoneTwice (numbers_issued (past_of history).stages) }
    ensures over_cuts { (first : History) (further : List History) → IsLegal first → AreCutInTurn first further → NoneTwice (flat_map (λ (history : History). numbers_issued (past_of history).stages) (first ∷ further)) }
{}

/// Moments never go back: of two lines of a legal history the later one has no smaller moment, and none has a
/// smaller one than the opening.
pub fn moments_never_go_back()
    ensures lines { (history : History) (earlier later : ℕ) (first second : EntryData) → IsLegal history → slice_get history.lines earlier ≡ Some first → slice_get history.lines later ≡ Some second → earlier ≤ later → first.moment ≤ second.moment }
    ensures opening { (history : History) (place : ℕ) (line : EntryData) → IsLegal history → slice_get history.lines place ≡ Some line → history.opening.moment ≤ line.moment }
{}

/// The numbers of entries are 1, 2, 3 and so on, over all openings: where a first history begins with number 1,
/// and each further one is opened by the cut of the one before it, all their lines, one history behind another,
/// are numbered in order, with no number left out and none given twice.
pub fn numbers_go_on_over_cuts()
    ensures { (first : History) (further : List History) (place : ℕ) (line : EntryData) → first.opening.line ≡ 1 → IsLegal first → AreCutInTurn first further → slice_get (lines_of_all (first ∷ further)) place ≡ Some line → line.number ≡ suc place }
{}

/// A verdict never depends on a program that was installed after its ticket: what a finish answers is the
/// verdict, after so many steps, of the program that was the newest when an earlier line issued the ticket, and
/// the version is that program's. Whatever was installed since plays no part.
pub fn verdicts_are_of_the_program_at_the_ticket<A: Acceptance>()
    ensures { (history : History) (place ticket : ℕ) (outcome : Outcome) (v : Verdict) (steps version : ℕ) → IsService A.accepts history → Finishes history place ticket outcome v steps version → AreOfTheTicket history place ticket outcome v steps version }
{
    A::accepted_are_safe();
}

/// So later programs change no verdict: take two histories with the same opening and the same first lines, of
/// which rolls have taken out as much, and in which anything may happen behind those lines. Where both finish a
/// ticket that was issued in them, with the same outcome, both answer the same verdict, the same steps and the
/// same version.
pub fn later_programs_change_no_verdict<A: Acceptance>()
    ensures { (one other : History) (common place elsewhere ticket : ℕ) (outcome : Outcome) (v w : Verdict) (steps count version label : ℕ) → IsService A.accepts one → IsService A.accepts other → first_lines common one ≡ first_lines common other → is_listed (numbers_issued (past_of (first_lines common one)).stages) ticket ≡ true → Finishes one place ticket outcome v steps version → Finishes other elsewhere ticket outcome w count label → (v ≡ w) × (steps ≡ count) × (version ≡ label) }
{
    A::accepted_are_safe();
}

/// A longest stay in HALF_OPEN ends: the first line that comes when it is over leaves the breaker in a later period, which
/// began at the line's moment (`periods_begin_at_a_lines_moment`).
pub fn stay_ends_with_the_next_line()
    ensures { (history : History) (line : EntryData) → Follows (past_of history) line → StayIsOver (past_of history) line.moment → (past_of history).standing.period < (passed (past_of history) line).standing.period }
{}

/// The event is taken behind the end of the stay, in OPEN: a call that is asked for then is refused, where there is a wait
/// in OPEN at all.
pub fn call_that_ends_a_stay_is_refused()
    ensures { (history : History) (line : EntryData) → Follows (past_of history) line → StayIsOver (past_of history) line.moment → 0 < (past_of history).opening.config.wait_duration_in_open_state → line.event ≡ acquires → line.reply ≡ reply.Refused refusal.CallNotPermitted }
{}

/// Where a configuration has no longest stay in HALF_OPEN, which is written 0, each event is decided as if no stay ever
/// ended by itself, in every situation and at every moment.
pub fn stays_without_end_change_nothing()
    ensures { (situation : Situation) (moment : ℕ) (event : EventData) → situation.config.max_wait_duration_in_half_open_state ≡ 0 → decision situation moment event ≡ decision_without_stays situation moment event }
{}
