//! What follows from the definitions alone.
ghost use Rattle.std.specs.Prelude.{◌≡◌, ◌⊎◌, ◌++◌, ℕ, List, Option, None};
ghost use Rattle.refusals.specs.declared.RefusalNumber.{RefusalNumber};
ghost use Rattle.http_messages.specs.declared.front.Fault.{Fault};
ghost use Rattle.http_messages.specs.declared.front.Front.{Front};
ghost use Rattle.http_messages.specs.Fronts.{IsFront};
ghost use Rattle.http_messages.specs.Lengths.{length_from, length_texts, IsLengthOf};
ghost use Rattle.http_messages.specs.Messages.{Message, AreMessages, IsInput, Ending, IsEnding, refused, final, no_head};
ghost use Rattle.http_messages.specs.Readings.{said, AreBothSaid, IsUndecided, IsOtherEnding, IsReadTo, AreBothAllowed};

/// The first bytes of an input say one thing: which head they have, why the message is refused, or that more bytes are
/// wanted. Only where the bytes that are searched end within a request target, and no continuation of them is a head,
/// may they say two: the refusal `BadHead`, and that more bytes are wanted, or, from 8,192 bytes on, `HeadTooLarge`.
pub fn fronts_say_one_thing()
    ensures { (bytes : List ℕ) (one other : Front) → IsFront bytes one → IsFront bytes other
        → (said bytes one ≡ said bytes other) ⊎ AreBothSaid bytes (said bytes one) (said bytes other) }
{}

/// An input has one reading: its bytes determine its messages, and how it ends. Only where what is left
/// behind the messages ends within a request target, and no continuation of it is a head, are two endings
/// allowed.
pub fn inputs_have_one_reading()
    ensures { (input : List ℕ) (messages others : List Message) (one other : Ending)
        → IsInput input messages one → IsInput input others other
        → (messages ≡ others) × ((one ≡ other) ⊎ ((rest : List ℕ) × AreMessages input messages rest × AreBothAllowed rest one other)) }
{}

/// A message that is refused is refused whatever follows, and one that ends the connection ends it: an ending behind
/// which no further read is made is the ending of each longer input too, behind the same messages.
pub fn endings_stay()
    ensures refused { (input more : List ℕ) (messages : List Message) (fault : Fault)
        → IsInput input messages (refused fault) → IsInput (input ++ more) messages (refused fault) }
    ensures last { (input more : List ℕ) (messages : List Message) (message : Message)
        → IsInput input messages (final message) → IsInput (input ++ more) messages (final message) }
{}

/// How the bytes of an input come, and how much of it is read, changes nothing: two parts of it that were each read up
/// to an ending have the same messages and end alike. Only where what is left behind the messages ends within a request
/// target, and no continuation of it is a head, are two endings allowed.
pub fn parts_have_one_reading()
    ensures { (input part left piece rest : List ℕ) (messages others : List Message) (one other : Ending)
        → input ≡ part ++ left → IsInput part messages one → IsReadTo one left
        → input ≡ piece ++ rest → IsInput piece others other → IsReadTo other rest
        → (messages ≡ others) × ((one ≡ other) ⊎ ((behind : List ℕ) × AreMessages input messages behind × AreBothAllowed behind one other)) }
{}

/// Where the rest of an input ends within a request target, and no continuation of it is a head, two endings are
/// allowed: the refusal `BadHead`, and the end within a message, or, from 8,192 bytes on, the refusal `HeadTooLarge`.
pub fn undecided_inputs_have_two_endings()
    ensures bad_head { (rest : List ℕ) → IsUndecided rest → IsEnding rest (refused (no_head RefusalNumber.BadHead)) }
    ensures other { (rest : List ℕ) (ending : Ending) → IsUndecided rest → IsOtherEnding rest ending → IsEnding rest ending }
{}

/// The length of a body, as fields give it, is the number that each field Content-Length writes in decimal
/// digits, or none where there is no such field. Where one writes no number below 2^64, or two write
/// different ones, and only there, the fields are refused.
pub fn lengths_are_spelled()
    ensures read { (fields : List (List ℕ × List ℕ)) → IsLengthOf (length_texts fields) (length_from None fields) }
    ensures only { (fields : List (List ℕ × List ℕ)) (length : Option (Option ℕ)) → IsLengthOf (length_texts fields) length → length_from None fields ≡ length }
{}
