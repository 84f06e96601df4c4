//! What a service's own upkeep comes to, as laws of the definitions. The functions here do nothing: their contracts are the laws.
ghost use Rattle.std.specs.Prelude.{◌≡◌, ◌≢◌, ℕ, ◌≤◌, ◌<◌, ◌^◌, [], length, List, Ok};
ghost use Rattle.std.specs.List.{AllByRecursion};
ghost use Rattle.refusals.specs.declared.RefusalNumber.TheVariants as refusal;
ghost use Rattle.service_profile.specs.declared.replies.Reply.{Reply};
ghost use Rattle.service_profile.specs.declared.replies.Reply.TheVariants as reply;
ghost use Rattle.service_profile.specs.Calls.{IsCalled, applies, replies};
ghost use Rattle.service_profile.specs.Events.{EntryData, EventData, History};
ghost use Rattle.book.specs.Good.{IsGood};
ghost use Rattle.service.specs.Upkept.{HasReleased, IsRolledOut, most_releases, old_tickets};

/// Where a book's last entries are kept (`Journal::Last`), an event that met a full journal doesn't meet one again behind the
/// roll that made room, however many tickets are open. Where that roll was refused, for want of memory or since a number is
/// worn out, it may. The premise on the entries that were handed out holds of each book.
pub fn no_event_meets_a_full_journal()
    ensures { (seat : ℕ) (history full roomy after : History) (moment : ℕ) (event : EventData) (lines : List EntryData) → IsGood history → history.rolled.lines ≤ length history.lines → IsCalled seat history (applies moment event) (replies (reply.Refused refusal.JournalFull)) full → IsRolledOut (IsCalled seat) (Ok lines) full roomy → IsCalled seat roomy (applies moment event) (replies (reply.Refused refusal.JournalFull)) after → ⊥ }
{}

/// Where tickets of an age are released before an acquire (`Upkeep::max_ticket_age`), and there are at most 100 of them, no
/// open ticket is that old when the acquire is decided, unless a release was refused for want of memory.
pub fn no_old_ticket_stays_open()
    ensures { (seat age moment : ℕ) (history after : History) (answers : List Reply) → moment < 2 ^ 64 → seat < 2 ^ 32 → IsGood history → length (old_tickets age moment history) ≤ most_releases → HasReleased (IsCalled seat) age moment history answers after → AllByRecursion (λ r. r ≢ reply.Refused refusal.ServiceOutOfMemory) answers → old_tickets age moment after ≡ [] }
{}
