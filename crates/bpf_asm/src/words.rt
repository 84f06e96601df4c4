//! The words that instructions are written with, from a word to its name and back.
ghost use Rattle.std.specs.Prelude.{◌≡◌, ◌++◌, Some, if◌then◌else◌, codes};
ghost use Rattle.std.specs.Str.{bytes_eq};
ghost use Rattle.bpf_asm.specs.Names.{operation_name, comparison_name, width_name, size_name, bits_name, order_name, load_name, word_stem, word_end, word_name, operation_named, comparison_named, extended_named, convert_named, load_named, store_named, single_named, width_of, stem_of, extended_word, stem_named, word_named};
ghost use Rattle.bpf_asm.specs.Assembly.{small_letters};

use bpf_profile::{ByteOrder, Comparison, Extension, Operation, Size, Width};

/// What the first word of a line names.
#[derive(Clone, Copy)]
pub(crate) enum Word {
    Arithmetic(Operation, Width),
    Negate(Width),
    MoveSigned(Width, Size),
    Convert(ByteOrder, Size),
    LoadImmediate,
    Load(Size, Extension),
    /// Stores a number.
    Store(Size),
    /// Stores a register.
    StoreRegister(Size),
    Jump(Width),
    Branch(Comparison, Width),
    Call,
    Exit,
}

pub(crate) fn operation_name(operation: Operation) -> &'static str
    ensures { result.now ≡ operation_name operation }
{
    match operation {
        Operation::Add => "add",
        Operation::Subtract => "sub",
        Operation::Multiply => "mul",
        Operation::Divide => "div",
        Operation::SignedDivide => "sdiv",
        Operation::Or => "or",
        Operation::And => "and",
        Operation::ShiftLeft => "lsh",
        Operation::ShiftRight => "rsh",
        Operation::Modulo => "mod",
        Operation::SignedModulo => "smod",
        Operation::Xor => "xor",
        Operation::Move => "mov",
        Operation::ArithmeticShiftRight => "arsh",
    }
}

pub(crate) fn comparison_name(comparison: Comparison) -> &'static str
    ensures { result.now ≡ comparison_name comparison }
{
    match comparison {
        Comparison::Equal => "jeq",
        Comparison::Greater => "jgt",
        Comparison::GreaterOrEqual => "jge",
        Comparison::BitsSet => "jset",
        Comparison::NotEqual => "jne",
        Comparison::SignedGreater => "jsgt",
        Comparison::SignedGreaterOrEqual => "jsge",
        Comparison::Less => "jlt",
        Comparison::LessOrEqual => "jle",
        Comparison::SignedLess => "jslt",
        Comparison::SignedLessOrEqual => "jsle",
    }
}

pub(crate) fn width_name(width: Width) -> &'static str
    ensures { result.now ≡ width_name width }
{
    match width {
        Width::Bits32 => "32",
        Width::Bits64 => "",
    }
}

pub(crate) fn size_name(size: Size) -> &'static str
    ensures { result.now ≡ size_name size }
{
    match size {
        Size::Byte => "b",
        Size::HalfWord => "h",
        Size::Word => "w",
        Size::DoubleWord => "dw",
    }
}

pub(crate) fn bits_name(size: Size) -> &'static str
    ensures { result.now ≡ bits_name size }
{
    match size {
        Size::Byte => "8",
        Size::HalfWord => "16",
        Size::Word => "32",
        Size::DoubleWord => "64",
    }
}

pub(crate) fn order_name(order: ByteOrder) -> &'static str
    ensures { result.now ≡ order_name order }
{
    match order {
        ByteOrder::Little => "le",
        ByteOrder::Big => "be",
        ByteOrder::Swap => "swap",
    }
}

pub(crate) fn load_name(extension: Extension) -> &'static str
    ensures { result.now ≡ load_name extension }
{
    match extension {
        Extension::Zero => "ldx",
        Extension::Sign => "ldxs",
    }
}

/// The name of a move with sign extension, without its width.
fn extended_name(size: Size) -> &'static str
    ensures { result.now ≡ codes "movs" ++ size_name size }
{
    match size {
        Size::Byte => "movsb",
        Size::HalfWord => "movsh",
        Size::Word => "movsw",
        Size::DoubleWord => "movsdw",
    }
}

/// What the name of a word begins with.
pub(crate) fn word_stem(word: Word) -> &'static str
    ensures { result.now ≡ word_stem word }
{
    match word {
        Word::Arithmetic(operation, _) => operation_name(operation),
        Word::Negate(_) => "neg",
        Word::MoveSigned(_, size) => extended_name(size),
        Word::Convert(order, _) => order_name(order),
        Word::LoadImmediate => "lddw",
        Word::Load(_, extension) => load_name(extension),
        Word::Store(_) => "st",
        Word::StoreRegister(_) => "stx",
        Word::Jump(_) => "ja",
        Word::Branch(comparison, _) => comparison_name(comparison),
        Word::Call => "call",
        Word::Exit => "exit",
    }
}

/// What stands behind the stem of a word's name.
pub(crate) fn word_end(word: Word) -> &'static str
    ensures { result.now ≡ word_end word }
{
    match word {
        Word::Arithmetic(_, width)
        | Word::Negate(width)
        | Word::MoveSigned(width, _)
        | Word::Jump(width)
        | Word::Branch(_, width) => width_name(width),
        Word::Load(size, _) | Word::Store(size) | Word::StoreRegister(size) => size_name(size),
        Word::Convert(_, size) => bits_name(size),
        Word::LoadImmediate | Word::Call | Word::Exit => "",
    }
}

/// Whether a name is this text, capitals being as good as small letters.
pub(crate) fn is_text(name: &[u8], text: &str) -> bool
    ensures { result ≡ bytes_eq (small_letters name.now) (small_letters text.now) }
{
    name.eq_ignore_ascii_case(text.as_bytes())
}

/// Whether a name is that of a word, capitals being as good as small letters.
fn is_named(name: &[u8], word: Word) -> bool
    ensures { result ≡ bytes_eq (small_letters name.now) (small_letters (word_name word)) }
{
    let stem = word_stem(word);
    let Some((front, back)) = name.split_at_checked(stem.len()) else {
        return false;
    };
    if is_text(front, stem) {
        is_text(back, word_end(word))
    } else {
        false
    }
}

/// The operation, if this is its name, and else what was found before.
fn operation_or(name: &[u8], operation: Operation, found: Option<Operation>) -> Option<Operation>
    ensures { result ≡ if bytes_eq (small_letters name.now) (small_letters (operation_name operation)) then Some operation else found }
{
    if is_text(name, operation_name(operation)) {
        Some(operation)
    } else {
        found
    }
}

#[tactic(auto, unfolding(crate::specs::Names::operation_named))]
fn operation_named(name: &[u8]) -> Option<Operation>
    ensures { result ≡ operation_named (small_letters name.now) }
{
    let found = operation_or(name, Operation::ArithmeticShiftRight, None);
    let found = operation_or(name, Operation::Move, found);
    let found = operation_or(name, Operation::Xor, found);
    let found = operation_or(name, Operation::SignedModulo, found);
    let found = operation_or(name, Operation::Modulo, found);
    let found = operation_or(name, Operation::ShiftRight, found);
    let found = operation_or(name, Operation::ShiftLeft, found);
    let found = operation_or(name, Operation::And, found);
    let found = operation_or(name, Operation::Or, found);
    let found = operation_or(name, Operation::SignedDivide, found);
    let found = operation_or(name, Operation::Divide, found);
    let found = operation_or(name, Operation::Multiply, found);
    let found = operation_or(name, Operation::Subtract, found);
    operation_or(name, Operation::Add, found)
}

/// The comparison, if this is its name, and else what was found before.
fn comparison_or(
    name: &[u8],
    comparison: Comparison,
    found: Option<Comparison>,
) -> Option<Comparison>
    ensures { result ≡ if bytes_eq (small_letters name.now) (small_letters (comparison_name comparison)) then Some comparison else found }
{
    if is_text(name, comparison_name(comparison)) {
        Some(comparison)
    } else {
        found
    }
}

#[tactic(auto, unfolding(crate::specs::Names::comparison_named))]
fn comparison_named(name: &[u8]) -> Option<Comparison>
    ensures { result ≡ comparison_named (small_letters name.now) }
{
    let found = comparison_or(name, Comparison::SignedLessOrEqual, None);
    let found = comparison_or(name, Comparison::SignedLess, found);
    let found = comparison_or(name, Comparison::LessOrEqual, found);
    let found = comparison_or(name, Comparison::Less, found);
    let found = comparison_or(name, Comparison::SignedGreaterOrEqual, found);
    let found = comparison_or(name, Comparison::SignedGreater, found);
    let found = comparison_or(name, Comparison::NotEqual, found);
    let found = comparison_or(name, Comparison::BitsSet, found);
    let found = comparison_or(name, Comparison::GreaterOrEqual, found);
    let found = comparison_or(name, Comparison::Greater, found);
    comparison_or(name, Comparison::Equal, found)
}

#[tactic(auto, unfolding(crate::specs::Names::extended_named))]
fn extended_named(name: &[u8]) -> Option<Size>
    ensures { result ≡ extended_named (small_letters name.now) }
{
    if is_text(name, "movsb") {
        return Some(Size::Byte);
    }
    if is_text(name, "movsh") {
        return Some(Size::HalfWord);
    }
    if is_text(name, "movsw") {
        return Some(Size::Word);
    }
    None
}

/// The word, if this is its name, and else what was found before.
fn word_or(name: &[u8], word: Word, found: Option<Word>) -> Option<Word>
    ensures { result ≡ if bytes_eq (small_letters name.now) (small_letters (word_name word)) then Some word else found }
{
    if is_named(name, word) {
        Some(word)
    } else {
        found
    }
}

fn convert_named(order: ByteOrder, name: &[u8]) -> Option<Word>
    ensures { result ≡ convert_named order (small_letters name.now) }
{
    let found = word_or(name, Word::Convert(order, Size::DoubleWord), None);
    let found = word_or(name, Word::Convert(order, Size::Word), found);
    word_or(name, Word::Convert(order, Size::HalfWord), found)
}

#[tactic(auto, unfolding(crate::specs::Names::load_named))]
fn load_named(name: &[u8]) -> Option<Word>
    ensures { result ≡ load_named (small_letters name.now) }
{
    let found = word_or(name, Word::Load(Size::Word, Extension::Sign), None);
    let found = word_or(name, Word::Load(Size::HalfWord, Extension::Sign), found);
    let found = word_or(name, Word::Load(Size::Byte, Extension::Sign), found);
    let found = word_or(name, Word::Load(Size::DoubleWord, Extension::Zero), found);
    let found = word_or(name, Word::Load(Size::Word, Extension::Zero), found);
    let found = word_or(name, Word::Load(Size::HalfWord, Extension::Zero), found);
    word_or(name, Word::Load(Size::Byte, Extension::Zero), found)
}

#[tactic(auto, unfolding(crate::specs::Names::store_named))]
fn store_named(name: &[u8]) -> Option<Word>
    ensures { result ≡ store_named (small_letters name.now) }
{
    let found = word_or(name, Word::StoreRegister(Size::DoubleWord), None);
    let found = word_or(name, Word::StoreRegister(Size::Word), found);
    let found = word_or(name, Word::StoreRegister(Size::HalfWord), found);
    let found = word_or(name, Word::StoreRegister(Size::Byte), found);
    let found = word_or(name, Word::Store(Size::DoubleWord), found);
    let found = word_or(name, Word::Store(Size::Word), found);
    let found = word_or(name, Word::Store(Size::HalfWord), found);
    word_or(name, Word::Store(Size::Byte), found)
}

#[tactic(auto, unfolding(crate::specs::Names::single_named))]
fn single_named(name: &[u8]) -> Option<Word>
    ensures { result ≡ single_named (small_letters name.now) }
{
    let found = word_or(name, Word::Negate(Width::Bits32), None);
    let found = word_or(name, Word::Negate(Width::Bits64), found);
    let found = word_or(name, Word::Jump(Width::Bits32), found);
    let found = word_or(name, Word::Jump(Width::Bits64), found);
    let found = word_or(name, Word::LoadImmediate, found);
    let found = word_or(name, Word::Exit, found);
    word_or(name, Word::Call, found)
}

/// A name without the 32 at its end, and the width that this says.
fn stem_and_width(name: &[u8]) -> (&[u8], Width)
    ensures stem { small_letters result.0.now ≡ stem_of (small_letters name.now) }
    ensures width { result.1 ≡ width_of (small_letters name.now) }
{
    match name.strip_suffix(b"32") {
        Some(stem) => (stem, Width::Bits32),
        None => (name, Width::Bits64),
    }
}

/// A move that extends has more bits than it extends.
fn extended_word(width: Width, size: Size) -> Option<Word>
    ensures { result ≡ extended_word width size }
{
    match (width, size) {
        (Width::Bits32, Size::Word) => None,
        _ => Some(Word::MoveSigned(width, size)),
    }
}

/// The words with a form for each width.
#[tactic(auto, unfolding(crate::specs::Names::stem_named))]
fn stem_named(width: Width, stem: &[u8]) -> Option<Word>
    ensures { result ≡ stem_named width (small_letters stem.now) }
{
    if let Some(operation) = operation_named(stem) {
        return Some(Word::Arithmetic(operation, width));
    }
    if let Some(comparison) = comparison_named(stem) {
        return Some(Word::Branch(comparison, width));
    }
    extended_word(width, extended_named(stem)?)
}

/// The word that a name names, capitals being as good as small letters.
#[tactic(auto, unfolding(crate::specs::Names::word_named))]
pub(crate) fn word_named(name: &[u8]) -> Option<Word>
    ensures { result ≡ word_named (small_letters name.now) }
{
    if let Some(word) = single_named(name) {
        return Some(word);
    }
    if let Some(word) = convert_named(ByteOrder::Little, name) {
        return Some(word);
    }
    if let Some(word) = convert_named(ByteOrder::Big, name) {
        return Some(word);
    }
    if let Some(word) = convert_named(ByteOrder::Swap, name) {
        return Some(word);
    }
    if let Some(word) = load_named(name) {
        return Some(word);
    }
    if let Some(word) = store_named(name) {
        return Some(word);
    }
    let (stem, width) = stem_and_width(name);
    stem_named(width, stem)
}
