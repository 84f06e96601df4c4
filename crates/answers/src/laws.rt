//! Rows of the texts, written out, and a law of statuses.
ghost use Rattle.std.specs.Prelude.{◌≡◌, ℕ, None, true, codes};
ghost use Rattle.bpf_profile.specs.declared.machine.Verdict.TheVariants as verdict;
ghost use Rattle.refusals.specs.declared.RefusalNumber.TheVariants as refusal;
ghost use Rattle.service_profile.specs.declared.replies.Fate.TheVariants as fate;
ghost use Rattle.service_profile.specs.declared.replies.Reply.TheVariants as reply;
ghost use Rattle.service_profile.specs.declared.states.State.TheVariants as state;
ghost use Rattle.service_profile.specs.Events.{EventData};
ghost use Rattle.service_profile.specs.Machine.{Situation, decision};
ghost use Rattle.answers.specs.Answered.{has_status};
ghost use Rattle.answers.specs.Responses.{body};
ghost use Rattle.service.specs.Asked.{replies, shows};

/// The body of the reply to a call that is permitted.
pub fn permission_is_written_so()
    ensures { body (replies (reply.Permitted 1 1 state.Closed)) ≡ codes "{\"state\":\"CLOSED\",\"ticket\":1,\"version\":1}" }
{}

/// The body of the reply to a report whose verdict was recorded.
pub fn recorded_outcome_is_written_so()
    ensures { body (replies (reply.Finished fate.Recorded verdict.Failure 6 1 state.Open)) ≡ codes "{\"fate\":\"recorded\",\"state\":\"OPEN\",\"steps\":6,\"verdict\":\"failure\",\"version\":1}" }
{}

/// The body of the reply to a call that the breaker refuses.
pub fn refusal_is_written_so()
    ensures { body (replies (reply.Refused refusal.CallNotPermitted)) ≡ codes "{\"error\":31,\"name\":\"CallNotPermitted\"}" }
{}

/// The body of the reading of a service that was moved to HALF_OPEN, and has no rates.
pub fn reading_is_written_so()
    ensures { body (shows (record { state = state.HalfOpen; period = 2; version = 1; budget = 6; total = 0; failed = 0; slow = 0; failure_rate = None; slow_rate = None; open_tickets = 0; free = 25; not_permitted = 0; entries = 3; oldest_ticket = None })) ≡ codes "{\"budget\":6,\"entries\":3,\"failed\":0,\"failureRate\":-1,\"free\":25,\"notPermitted\":0,\"open\":0,\"period\":2,\"slow\":0,\"slowRate\":-1,\"state\":\"HALF_OPEN\",\"total\":0,\"version\":1}" }
{}

/// Whatever the documented machine replies, HTTP has a status for it.
#[tactic(auto, using(crate::proofs::Statuses::decision_has))]
pub fn replies_have_statuses()
    ensures { (situation : Situation) (moment : ℕ) (event : EventData) → has_status (decision situation moment event).reply ≡ true }
{}
