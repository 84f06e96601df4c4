//! Laws of breakers.
ghost use Rattle.std.specs.Prelude.{◌<◌, ◌-◌, ◌^◌, List, length};
ghost use Rattle.breaker.specs.Situations.{HeldBreaker, Keeps, HasRoom};
ghost use Rattle.service_profile.specs.declared.notes.Note.{Note as ANote};

/// A breaker with few notes in its period has room for one more.
pub fn few_notes_leave_room()
    ensures { (breaker : HeldBreaker) (notes : List ANote) → Keeps breaker notes → length notes < 2 ^ 64 - 8 → HasRoom breaker }
{}
