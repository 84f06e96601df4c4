//! Laws of the assembler's text.
ghost use Rattle.std.specs.Prelude.{◌≡◌, ◌↔◌, ◌+◌, ◌++◌, ◌∷◌, ℕ, List, [], map, IsTrue, IsOk, IsSome, Ok, Err, codes};
ghost use Rattle.std.specs.List.{flat_map};
ghost use Rattle.std.specs.Str.Parse.{digits_value};
ghost use Rattle.refusals.specs.declared.RefusalNumber.{RefusalNumber};
ghost use Rattle.refusals.specs.declared.RefusalNumber.TheVariants.{BadTextLength};
ghost use Rattle.bpf_profile.specs.declared.slot.Slot.{Slot};
ghost use Rattle.bpf_profile.specs.Spelling.{IsProgram};
ghost use Rattle.bpf_asm.specs.Assembly.{Assembles, assembly_of, fault, small_letters, statement_on};
ghost use Rattle.bpf_asm.specs.Faults.{lines_in, slots_on, IsFaultless, IsFirstFault};
ghost use Rattle.bpf_asm.specs.Canonical.{text_of};
ghost use Rattle.bpf_asm.specs.Names.{word_named};
ghost use Rattle.bpf_asm.specs.Tokens.{content_of, ends_run, tokens_of};
ghost use Rattle.bpf_asm.specs.Writing.{IsBlank, IsNumeral, IsWritten, closes};
ghost use Rattle.bpf_asm.specs.declared.tokens.Token.{Token};

/// A word has one name.
pub fn names_are_unique()
    ensures { (s t : List ℕ) → word_named s ≡ word_named t → IsSome (word_named s) → s ≡ t }
{}

/// A line is read as the tokens that it writes, with blanks anywhere between them, before its comment and
/// the carriage return at its end; and as no others.
pub fn written_tokens_are_read()
    ensures { (line : List ℕ) (tokens : List Token) → (tokens_of line ≡ tokens) ↔ IsWritten line tokens }
{}

/// What follows a semicolon in its line doesn't matter.
pub fn comments_do_not_matter()
    ensures { (line comment other : List ℕ) → statement_on (line ++ (59 ∷ comment)) ≡ statement_on (line ++ (59 ∷ other)) }
{}

/// Blanks behind or before another blank or a mark don't matter, nor does one at a line's start or end.
pub fn blanks_do_not_matter()
    ensures behind { (left right : List ℕ) (blank end : ℕ) → IsBlank blank → IsTrue (ends_run end) → statement_on (left ++ (end ∷ (blank ∷ right))) ≡ statement_on (left ++ (end ∷ right)) }
    ensures before { (left right : List ℕ) (blank end : ℕ) → IsBlank blank → IsTrue (ends_run end) → statement_on (left ++ (blank ∷ (end ∷ right))) ≡ statement_on (left ++ (end ∷ right)) }
    ensures at_the_start { (line : List ℕ) (blank : ℕ) → IsBlank blank → statement_on (blank ∷ line) ≡ statement_on line }
    // A blank at the end is as good as a carriage return there.
    ensures at_the_end { (line : List ℕ) (blank : ℕ) → IsBlank blank → statement_on (line ++ (blank ∷ [])) ≡ statement_on (line ++ (13 ∷ [])) }
{}

/// The base in which a number is written doesn't matter, behind a blank or a mark and before what closes
/// it.
pub fn bases_do_not_matter()
    ensures { (left right hexadecimal decimal : List ℕ) (end : ℕ) → IsTrue (ends_run end) → IsTrue (closes (content_of right)) → IsNumeral 16 hexadecimal → IsNumeral 10 decimal → digits_value 16 hexadecimal ≡ digits_value 10 decimal
        → statement_on (left ++ (end ∷ ((codes "0x" ++ hexadecimal) ++ right))) ≡ statement_on (left ++ (end ∷ (decimal ++ right))) }
{}

/// Texts whose lines are read alike are assembled alike, and so are texts that differ in the case of
/// their letters alone.
pub fn texts_read_alike_assemble_alike()
    ensures lines { (text other : List ℕ) → map statement_on (lines_in text) ≡ map statement_on (lines_in other) → assembly_of text ≡ assembly_of other }
    ensures letters { (text other : List ℕ) → small_letters text ≡ small_letters other → assembly_of text ≡ assembly_of other }
{}

/// A text stands for one program at most.
pub fn meaning_is_unique()
    ensures { (text : List ℕ) (s t : List Slot) → Assembles text s → Assembles text t → s ≡ t }
{}

/// A text without a first fault stands for the program that is read of it, and a text that stands for
/// a program has no fault.
pub fn faultless_is_assembled()
    ensures reads { (text : List ℕ) (slots : List Slot) → assembly_of text ≡ Ok slots → Assembles text slots }
    ensures faultless { (text : List ℕ) (slots : List Slot) → Assembles text slots → assembly_of text ≡ Ok slots }
{}

/// What a text stands for is a program of the profile.
pub fn meaning_is_a_program()
    ensures { (text : List ℕ) (slots : List Slot) → Assembles text slots → IsProgram slots }
{}

/// An error is the first fault of a text. Its line, counted from 1, is the least that has a fault, and
/// its kind is that line's; the line is 0 exactly where no line has a fault and none has an instruction.
/// There is no error exactly where no line has a fault and some line has an instruction.
pub fn error_is_the_first_fault()
    ensures at_a_line { (text : List ℕ) (place : ℕ) (kind : RefusalNumber) → (assembly_of text ≡ Err (fault (place + 1) kind)) ↔ IsFirstFault (lines_in text) place kind }
    ensures at_no_line { (text : List ℕ) (kind : RefusalNumber) → (assembly_of text ≡ Err (fault 0 kind)) ↔ ((kind ≡ BadTextLength) × IsFaultless (lines_in text) × (flat_map slots_on (lines_in text) ≡ [])) }
    ensures none { (text : List ℕ) → IsOk (assembly_of text) ↔ (IsFaultless (lines_in text) × (¬ (flat_map slots_on (lines_in text) ≡ []))) }
{}

/// The canonical text of a program stands for that program and for no other.
pub fn canonical_text_returns()
    ensures { (slots other : List Slot) → IsProgram slots → (Assembles (text_of slots) other ↔ (other ≡ slots)) }
{}
