//! Laws of the documented machine, of its histories, and of all that workers and operators may do in
//! any order.
ghost use Rattle.std.specs.Prelude.{◌≡◌, ◌≢◌, ◌≤◌, ◌<◌, ◌+◌, ◌⊎◌, ◌↔◌, ◌++◌, ℕ, suc, List, [], map, length, drop, Some, None, Ok, true, false, slice_get};
ghost use Rattle.std.specs.List.{AllByRecursion};
ghost use Rattle.bpf_profile.specs.declared.machine.Verdict.TheVariants as verdict;
ghost use Rattle.bpf_profile.specs.Layouts.{context_size};
ghost use Rattle.bpf_profile.specs.Meaning.{Judges};
ghost use Rattle.bpf_profile.specs.Outcomes.{Outcome, IsOutcome};
ghost use Rattle.bpf_profile.specs.Programs.{VerifiedProgram};
ghost use Rattle.refusals.specs.declared.RefusalNumber.TheVariants as refusal;
ghost use Rattle.service_profile.specs.declared.replies.Fate.{Fate};
ghost use Rattle.service_profile.specs.declared.replies.Reply.TheVariants as reply;
ghost use Rattle.service_profile.specs.declared.states.State.{State};
ghost use Rattle.service_profile.specs.Events.{EntryData, EventData, Opening, Rolled, History, history_of, installs, rolled_to};
ghost use Rattle.service_profile.specs.Histories.{Stage, past_of, next_line, situation_of, programs_of, issued, open_of, ended, notes_of, is_listed, note_by, Follows, IsLegal};
ghost use Rattle.service_profile.specs.Calls.{CallAnswer};
ghost use Rattle.book.specs.Interleavings.{Driven, AreCalled, acts_of, Hands, World, Given, answered, Act, AreSteps, IsCourse, IsWorld, begun};
ghost use Rattle.book.specs.Memory.{lacks_memory, HaveMemory};
ghost use Rattle.book.specs.Full.{half_a_journal};
ghost use Rattle.book.specs.Laws.{IsService, HasMeantNote};
ghost use Rattle.book.specs.Rolling.{IsFurther, with_rolled, versions_needed, endless_answer, Ask, heard, history_after, without_rolls, NeverFull, PagesAreHeld, pieces};
ghost use Rattle.service_profile.specs.Limits.{most_versions};
ghost use Rattle.service_profile.specs.Machine.{Judging, carried, meant, refused, is_open, permissions_held};
ghost use Rattle.service_profile.specs.Answers.{answer, held_lines, cut, rolled_up_to, IsRolled};
ghost use Rattle.book.specs.Accepted.{IsSafeProgram};
ghost use Rattle.service_profile.specs.Openings.{IsOpening};
ghost use Rattle.service_profile.specs.MeantVerdicts.{IsMeantLine};
ghost use Rattle.book.specs.Sound.{IsSound};
ghost use Rattle.service_profile.specs.Standings.{is_half_open};
ghost use Rattle.service_profile.specs.Verdicts.{judgement};

use crate::acceptance::Acceptance;
use service_profile::ConfigParts;

/// The verdict that the machine takes for an accepted program and a record is the meaning's. As in all laws here, any
/// programs may be accepted, as long as they are safe ([`Acceptance`]); what `verify` accepts is one choice.
pub fn judgements_are_the_meaning<A: Acceptance>()
    ensures { (program : VerifiedProgram) (outcome : Outcome) → A.accepts program → IsOutcome (context_size program.layout) outcome → Judges (context_size program.layout) program.slots outcome (judgement program outcome).verdict (judgement program outcome).steps }
{
    A::accepted_are_safe();
}

/// The headline, the half about answers: for every list of atomic steps of workers and operators on a service, from a
/// good opening on, what the steps may give on the verdicts that judged work carries is just what the documented
/// machine may give on the verdicts that the meaning gives for the version of each ticket. On the meaning's verdicts
/// each step gives, and leaves, what the clause of its call says (`Book::apply`, `look`, `read`, `page`, `cut`,
/// `roll`), by the very relations that these clauses cite; want of memory is a case of them. So what the code does is
/// said by the calls' clauses, and this law says that they hold in any order, for any actors, and that to take the
/// verdict off the work that is brought, as the code does, comes to the same. `judge`, `read`, and a step that is
/// refused with no entry want no memory. Work that a step brings was judged: by the program of a look, or by another one
/// that is accepted.
pub fn interleavings_are_documented<A: Acceptance>()
    ensures { (opening : Opening) (acts : List Act) (given : List Given) (after : World) → IsOpening opening → A.accepts opening.program → AreSteps A.accepts acts → IsCourse carried (begun opening) acts given after ↔ IsCourse meant (begun opening) acts given after }
{
    A::accepted_are_safe();
}

/// The headline, the half about programs: after every such list the history is legal, every program that
/// was installed ends on every outcome's record within its budget and never does what it must not, each
/// finished call carries the meaning's verdict for the version of its ticket, and so does all work that
/// was judged.
pub fn interleavings_are_legal<A: Acceptance>()
    ensures { (opening : Opening) (acts : List Act) (given : List Given) (after : World) → IsOpening opening → A.accepts opening.program → AreSteps A.accepts acts → IsCourse meant (begun opening) acts given after → IsWorld A.accepts after }
{
    A::accepted_are_safe();
}

/// The link between the two: what a book answers to a list of calls, each as the clause of its call says (`IsCalled`, which
/// is the clause of `Call::make`), is a course of the documented machine, with these calls as its steps and these
/// answers as what they give. So the two laws above speak of it.
pub fn calls_are_a_course()
    ensures { (opening : Opening) (asked : List Driven) (given : List CallAnswer) (after : History) → AreCalled (history_of opening []) asked given after → (hands : ℕ → Hands) × IsCourse meant (begun opening) (acts_of asked) (map answered given) (record { history = after; hands = hands }) }
{}

/// Neither half is empty: whatever verdicts are taken, every list of steps can be taken to its end from every
/// world, and no step of it has to be refused for want of memory.
pub fn interleavings_go_on()
    ensures { (judging : Judging) (world : World) (acts : List Act) → (given : List Given) × (after : World) × IsCourse judging world acts given after × HaveMemory given }
{}

/// What steps give is settled, but for want of memory: by which steps are refused for it. Two times that a list of
/// steps is taken from the same world, and the same of them are refused for want of memory, all others give the
/// same, and the world is the same in the end. So a step that isn't refused for want of memory gives what the
/// machine answers, whatever else is refused.
pub fn answers_are_settled()
    ensures { (judging : Judging) (world : World) (acts : List Act) (given other : List Given) (after end : World) → IsCourse judging world acts given after → IsCourse judging world acts other end → map lacks_memory given ≡ map lacks_memory other → (given ≡ other) × (after ≡ end) }
{}

/// Every legal history of a service is sound: its programs are safe, its verdicts are the meaning's, and its limits are
/// kept.
pub fn legal_histories_are_sound<A: Acceptance>()
    ensures { (history : History) → IsService A.accepts history → IsSound A.accepts (past_of history) }
{
    A::accepted_are_safe();
}

/// The numbers of entries go up by one.
pub fn numbers_go_up_by_one()
    ensures { (history : History) (place : ℕ) (line : EntryData) → IsLegal history → slice_get history.lines place ≡ Some line → line.number ≡ history.opening.line + place }
{}

/// A ticket that has ended is not open.
pub fn spent_tickets_are_not_open()
    ensures { (stages : List Stage) (number : ℕ) → is_listed (ended stages) number ≡ true → is_open (open_of stages) number ≡ false }
{}

/// There are never more open tickets than the bulkhead has places.
pub fn bulkhead_is_never_overfull<A: Acceptance>()
    ensures { (history : History) → IsService A.accepts history → length (open_of (past_of history).stages) ≤ history.opening.config.max_concurrent_calls }
{
    A::accepted_are_safe();
}

/// In HALF_OPEN the permissions that are held and the notes are never more than the permitted number.
pub fn half_open_is_never_overfull<A: Acceptance>()
    ensures { (history : History) → IsService A.accepts history → is_half_open (past_of history).standing.state ≡ true → permissions_held (past_of history).standing.period (open_of (past_of history).stages) + length (notes_of (past_of history)) ≤ history.opening.config.permitted_number_of_calls_in_half_open_state }
{
    A::accepted_are_safe();
}

/// A verdict that is ignored makes no note.
pub fn ignored_verdicts_make_no_note<A: Acceptance>()
    ensures { (history : History) (line : EntryData) (fate : Fate) (steps version : ℕ) (state : State) → IsService A.accepts history → Follows (past_of history) line → line.reply ≡ reply.Finished fate verdict.Ignored steps version state → note_by history.opening.config line.moment line.event line.reply ≡ None }
{
    A::accepted_are_safe();
}

/// Every program that was installed is accepted and safe: on every outcome's record it ends within its
/// budget, and never does what it must not.
pub fn installed_programs_are_safe<A: Acceptance>()
    ensures { (history : History) → IsService A.accepts history → AllByRecursion (λ program. A.accepts program × IsSafeProgram program) (programs_of (past_of history)) }
{
    A::accepted_are_safe();
}

/// Each finished call carries the verdict and the steps that the meaning gives on its record for the
/// program of the version with which its ticket was issued, whatever was installed since.
pub fn verdicts_are_the_meaning<A: Acceptance>()
    ensures { (history : History) → IsService A.accepts history → AllByRecursion (λ stage. IsMeantLine (past_of history).opening.version (programs_of (past_of history)) (issued (past_of history).stages) stage.line) (past_of history).stages }
{
    A::accepted_are_safe();
}

/// The notes that are read off the replies of a history are those of the verdicts that the meaning gives.
pub fn notes_are_of_the_meaning<A: Acceptance>()
    ensures { (history : History) → IsService A.accepts history → AllByRecursion (HasMeantNote (past_of history)) (past_of history).stages }
{
    A::accepted_are_safe();
}

/// A cut leaves a good opening, with an accepted program.
pub fn cuts_leave_good_openings<A: Acceptance>()
    ensures { (history : History) (opening : Opening) → IsService A.accepts history → cut (past_of history) ≡ Ok opening → IsOpening opening × A.accepts opening.program }
{
    A::accepted_are_safe();
}

/// A roll leaves a history legal, and leaves all that it says but how much was taken out of it.
pub fn rolls_leave_histories_legal()
    ensures { (history : History) (rolled : Rolled) → IsLegal history → IsFurther history.rolled rolled → IsLegal (rolled_to rolled history) × (past_of (rolled_to rolled history) ≡ with_rolled rolled (past_of history)) }
{}

/// Rolling is invisible: whatever is asked after a legal history, with rolls anywhere in the list, each
/// reply, look, reading and page is what it is without the rolls, and so are all lines in the end. The
/// premises are that without the rolls no event meets a full journal or a full list of versions, and that each
/// page begins with an entry that is held, or behind all of them.
pub fn rolling_is_invisible()
    ensures { (history : History) (asked : List Ask) → IsLegal history → NeverFull history (without_rolls asked) → PagesAreHeld history asked → (heard history asked ≡ heard history (without_rolls asked)) × ((history_after history asked).lines ≡ (history_after history (without_rolls asked)).lines) }
{}

/// The same without a premise on full journals: each reply is `JournalFull`, or what a journal without end
/// answers. How many versions are held is that of the history, for which `rolls_leave_room_for_versions` says
/// when there is room.
pub fn replies_are_full_or_those_of_an_endless_journal()
    ensures { (history : History) (moment : ℕ) (event : EventData) → (answer history moment event ≡ refused (past_of history).standing refusal.JournalFull) ⊎ (answer history moment event ≡ endless_answer history moment event) }
{}

/// The pieces that rolls hand out, one behind another, and what is held in the end are the journal: all
/// lines that had not been handed out before, each once and in order.
pub fn pieces_are_the_journal()
    ensures { (history : History) (asked : List Ask) → history.rolled.lines ≤ length history.lines → pieces history asked ++ held_lines (history_after history asked) ≡ drop history.rolled.lines (history_after history asked).lines }
{}

/// Behind a roll that leaves at most half a journal, 32,768 entries, no event is answered `JournalFull`, however many
/// tickets are open. `IsRolled` is what the clause of `Book::roll` says of the history that it leaves.
pub fn rolled_journals_have_room()
    ensures { (history after : History) (last moment : ℕ) (lines : List EntryData) (event : EventData) → IsLegal history → IsSound IsSafeProgram (past_of history) → history.rolled.lines ≤ length history.lines → next_line (past_of history) ≤ suc last + half_a_journal → IsRolled history last (Ok lines) after → (answer after moment event).reply ≢ reply.Refused refusal.JournalFull }
{}

/// After a roll an install is not answered `VersionsFull`, however many programs were installed before, unless
/// there are 256 versions from the least that an open ticket has up to the last.
pub fn rolls_leave_room_for_versions()
    ensures { (history : History) (last moment : ℕ) (program : VerifiedProgram) → IsLegal history → versions_needed (situation_of (past_of history)) < most_versions → (answer (rolled_up_to history last) moment (installs program)).reply ≢ reply.Refused refusal.VersionsFull }
{}

/// Where no ticket is open, a roll leaves one program, that of new tickets.
pub fn quiet_rolls_leave_one_version()
    ensures { (history : History) (last : ℕ) → IsLegal history → (situation_of (past_of history)).open_tickets ≡ [] → history.rolled.programs < length (programs_of (past_of history)) → length (programs_of (past_of (rolled_up_to history last))) ≡ suc (rolled_up_to history last).rolled.programs }
{}
