//! What is heard on fresh services.
ghost use Rattle.service_profile.specs.Configured.{default_parts};
ghost use Rattle.worked_examples.specs.Services.{IsHeardOn, IsHeardFromTicket};
ghost use Rattle.worked_examples.specs.Rows.{ten_seconds, note_passes_out, note_passed_out, two_permitted, ignored_call_frees, ignored_call_freed, ticket_goes_stale, ticket_went_stale, one_place, full_bulkhead_refuses, full_bulkhead_refused, states_are_forced, states_were_forced, book_is_cut, book_was_cut, last_ticket_is_issued, last_ticket_was_issued, ticket_is_released, ticket_was_released};
ghost use Rattle.worked_examples.specs.Breakers.{of_two_calls, breaker_opens, breaker_opened, slow_over_a_second, calls_are_slow, calls_were_slow, journal_is_rolled, journal_was_rolled};
ghost use Rattle.worked_examples.specs.Classifiers.{further_byte_is_read, further_byte_was_read, helper_is_called, helper_was_called, stack_is_used, stack_was_used};
ghost use Rattle.worked_examples.specs.Stays.{half_a_second, stay_ends, stay_ended, stay_ends_at_a_move, stay_ended_at_a_move};

/// A time-based window of ten seconds shows a note of second 1 in second 10, and no longer in second 11.
pub fn note_passes_out_of_the_window()
    ensures { IsHeardOn ten_seconds note_passes_out note_passed_out }
{}

/// In HALF_OPEN with two permitted calls, a third call is refused until an ignored verdict gives its
/// permission back; each ticket is judged by the version that was current when it was issued; the second
/// recorded verdict closes the breaker.
pub fn ignored_verdict_gives_its_permission_back()
    ensures { IsHeardOn two_permitted ignored_call_frees ignored_call_freed }
{}

/// A verdict whose ticket is of an earlier period is stale, and makes no note.
pub fn verdict_of_an_earlier_period_is_stale()
    ensures { IsHeardOn default_parts ticket_goes_stale ticket_went_stale }
{}

/// The bulkhead is asked after the breaker: its refusal leaves a transition to HALF_OPEN, and takes no
/// permission.
pub fn full_bulkhead_refuses_after_the_breaker()
    ensures { IsHeardOn one_place full_bulkhead_refuses full_bulkhead_refused }
{}

/// DISABLED permits and counts nothing, FORCED_OPEN permits nothing, and a reset leads to CLOSED.
pub fn operators_force_states()
    ensures { IsHeardOn default_parts states_are_forced states_were_forced }
{}

/// A cut is refused while a ticket is open, then hands out all entries; numbers and the greatest moment
/// go on, and an ended ticket of an earlier opening stays ended.
pub fn cut_hands_out_all_and_goes_on()
    ensures { IsHeardOn default_parts book_is_cut book_was_cut }
{}

/// A book whose next ticket is the greatest, 2^63, is cut. Once that ticket is issued, a cut is refused
/// before the open ticket is looked at, and changes nothing.
pub fn worn_out_book_is_not_cut()
    ensures { IsHeardFromTicket 9223372036854775808 last_ticket_is_issued last_ticket_was_issued }
{}

/// A release ends its ticket; another one is refused because the ticket has ended, and one of a ticket
/// that was never issued because there is none.
pub fn release_ends_its_ticket()
    ensures { IsHeardOn default_parts ticket_is_released ticket_was_released }
{}

/// Where a stay in HALF_OPEN is limited, the first event after its end is taken in OPEN.
pub fn stay_in_half_open_ends()
    ensures { IsHeardOn half_a_second stay_ends stay_ended }
{}

/// The transition at a stay's end and the one that is asked for start a period each.
pub fn stay_ends_before_a_move()
    ensures { IsHeardOn half_a_second stay_ends_at_a_move stay_ended_at_a_move }
{}

/// Two calls of which one fails reach the threshold of 50 percent and open the breaker; a call before the wait is over is
/// refused, the one at its end is permitted in HALF_OPEN, and its success closes the breaker.
pub fn breaker_opens_half_opens_and_closes()
    ensures { IsHeardOn of_two_calls breaker_opens breaker_opened }
{}

/// A call that took longer than the threshold is slow, one that took just as long is not; the rates are shown once the
/// minimum of notes is there.
pub fn call_over_the_threshold_is_slow()
    ensures { IsHeardOn slow_over_a_second calls_are_slow calls_were_slow }
{}

/// A roll hands out the entries up to a number, which no page has any more; notes, tickets and the count of entries go on.
pub fn roll_hands_out_and_goes_on()
    ensures { IsHeardOn default_parts journal_is_rolled journal_was_rolled }
{}

/// A classifier of layout 2 reads a byte behind those that layout 1 shows, and its 1 is a failure.
pub fn program_of_layout_two_reads_further()
    ensures { IsHeardOn default_parts further_byte_is_read further_byte_was_read }
{}

/// A helper function answers a fact of the outcome, and the answer 2 is an ignored verdict.
pub fn helper_answers_a_fact()
    ensures { IsHeardOn default_parts helper_is_called helper_was_called }
{}

/// A classifier loads from the stack what it stored there.
pub fn stack_keeps_what_is_stored()
    ensures { IsHeardOn default_parts stack_is_used stack_was_used }
{}
