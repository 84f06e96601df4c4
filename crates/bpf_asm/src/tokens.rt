//! A line of text as tokens.
ghost use Rattle.std.specs.Prelude.{◌≡◌, ◌<◌, ◌≤◌, ◌+◌, ◌*◌, ◌++◌, ◌∷◌, ◌==◌, [], take, option_and_then, option_to_list, Some, None, if◌then◌else◌, codes};
ghost use Rattle.std.specs.Str.{bytes_eq};
ghost use Rattle.std.specs.List.{position};
ghost use Rattle.bpf_asm.specs.Tokens.{bounded, numeral, number_of, register_named, token_of, run_tokens, mark_of, ends_run, tokens_after, without_return, content_of, tokens_of};
ghost use Rattle.bpf_asm.specs.Assembly.{small_letters};

use crate::words::{Word, is_text, word_named};
use arrayvec::ArrayVec;
use bpf_profile::Register;

/// A word, a register, a number or a mark.
#[derive(Clone, Copy, Default)]
pub(crate) enum Token {
    Word(Word),
    Register(Register),
    /// None stands for each number from 2^64 on.
    Number(Option<u64>),
    /// Characters that are none of these.
    #[default]
    Unknown,
    Comma,
    Open,
    Close,
    Plus,
    Minus,
}

/// The number that one digit or more write.
#[tactic(auto, unfolding(crate::specs::Tokens::numeral))]
fn numeral(radix: u32, digits: &[u8]) -> Option<Option<u64>>
    requires low { 2 ≤ radix }
    requires high { radix ≤ 16 }
    ensures { result ≡ numeral radix digits.now }
{
    if digits.is_empty() {
        return None;
    }
    let mut number = Some(0u64);
    for digit in digits {
        let digit = char::from(*digit).to_digit(radix)?;
        number = with_digit(number, radix, digit);
    }
    Some(number)
}

/// A number with one digit more.
fn with_digit(number: Option<u64>, radix: u32, digit: u32) -> Option<u64>
    ensures { result ≡ option_and_then (λ n. bounded (n * radix + digit)) number }
{
    number?
        .checked_mul(u64::from(radix))?
        .checked_add(u64::from(digit))
}

/// Hexadecimal behind 0x or 0X, and else decimal.
fn number_of(run: &[u8]) -> Option<Option<u64>>
    ensures { result ≡ number_of (small_letters run.now) }
{
    if let Some(digits) = run.strip_prefix(b"0x") {
        return numeral(16, digits);
    }
    if let Some(digits) = run.strip_prefix(b"0X") {
        return numeral(16, digits);
    }
    numeral(10, run)
}

/// The register of one digit, if this is its name, and else what was found before.
fn register_or(name: &[u8], digit: u8, found: Option<Register>) -> Option<Register>
    requires { digit < 10 }
    ensures { result ≡ if bytes_eq (small_letters name.now) (small_letters (114 ∷ (48 + digit) ∷ [])) then Some digit else found }
{
    if name.eq_ignore_ascii_case(&[b'r', b'0' + digit]) {
        Some(Register::new(digit))
    } else {
        found
    }
}

/// The register of two digits.
fn last_register(name: &[u8]) -> Option<Register>
    ensures { result ≡ if bytes_eq (small_letters name.now) (codes "r10") then Some 10 else None }
{
    if is_text(name, "r10") {
        Some(Register::new(10))
    } else {
        None
    }
}

/// The register of a name (RFC 9669, section 2).
#[tactic(auto, unfolding(crate::specs::Tokens::register_named))]
fn register_named(name: &[u8]) -> Option<Register>
    ensures { result ≡ register_named (small_letters name.now) }
{
    let found = last_register(name);
    let found = register_or(name, 9, found);
    let found = register_or(name, 8, found);
    let found = register_or(name, 7, found);
    let found = register_or(name, 6, found);
    let found = register_or(name, 5, found);
    let found = register_or(name, 4, found);
    let found = register_or(name, 3, found);
    let found = register_or(name, 2, found);
    let found = register_or(name, 1, found);
    register_or(name, 0, found)
}

/// What a run of characters is.
#[tactic(auto, unfolding(crate::specs::Tokens::token_of))]
fn token_of(run: &[u8]) -> Token
    ensures { result ≡ token_of (small_letters run.now) }
{
    if let Some(number) = number_of(run) {
        return Token::Number(number);
    }
    if let Some(register) = register_named(run) {
        return Token::Register(register);
    }
    match word_named(run) {
        Some(word) => Token::Word(word),
        None => Token::Unknown,
    }
}

/// A character that is a token of its own.
#[tactic(auto, unfolding(crate::specs::Tokens::mark_of))]
fn mark_of(character: u8) -> Option<Token>
    ensures { result ≡ mark_of character }
{
    match character {
        b',' => Some(Token::Comma),
        b'[' => Some(Token::Open),
        b']' => Some(Token::Close),
        b'+' => Some(Token::Plus),
        b'-' => Some(Token::Minus),
        _ => None,
    }
}

/// Whether a run of characters ends here: blanks, tabs and marks end one.
#[tactic(auto, unfolding(crate::specs::Tokens::ends_run))]
fn ends_run(character: u8) -> bool
    ensures { result ≡ ends_run character }
{
    character == b' ' || character == b'\t' || mark_of(character).is_some()
}

/// The first tokens of a line. A word and three arguments have 18 at most, and a line with more is no
/// statement, whatever its other tokens are.
pub(crate) type Tokens = ArrayVec<Token, 19>;

/// Appends a token, if there is room.
fn push_token(tokens: &mut Tokens, token: Token)
    ensures { take 19 tokens.new.items ≡ take 19 (tokens.old.items ++ (token ∷ [])) }
{
    if !tokens.is_full() {
        tokens.push(token);
    }
}

/// Appends the token of a run, if there is one.
#[tactic(auto, unfolding(crate::specs::Tokens::run_tokens))]
fn push_run(tokens: &mut Tokens, run: &[u8])
    ensures { take 19 tokens.new.items ≡ take 19 (tokens.old.items ++ run_tokens (small_letters run.now)) }
{
    if !run.is_empty() {
        push_token(tokens, token_of(run));
    }
}

/// Appends the token of a run that has ended, and the mark that ended it.
fn push_ended(tokens: &mut Tokens, run: &[u8], end: u8)
    ensures { take 19 tokens.new.items ≡ take 19 (tokens.old.items ++ (run_tokens (small_letters run.now) ++ option_to_list (mark_of end))) }
{
    push_run(tokens, run);
    if let Some(mark) = mark_of(end) {
        push_token(tokens, mark);
    }
}

/// A line without the carriage return at its end.
fn without_return(line: &[u8]) -> &[u8]
    ensures { result.now ≡ without_return line.now }
{
    match line.strip_suffix(b"\r") {
        Some(rest) => rest,
        None => line,
    }
}

/// The first place of a character.
pub(crate) fn place_of(character: u8, text: &[u8]) -> Option<usize>
    ensures { result ≡ position (λ c. c == character) text.now }
{
    text.iter().position(|other| *other == character)
}

/// A line without its end and its comment.
fn content_of(line: &[u8]) -> &[u8]
    ensures { result.now ≡ content_of line.now }
{
    let line = without_return(line);
    match place_of(b';', line) {
        Some(end) => &line[..end],
        None => line,
    }
}

/// The first tokens of a line, in which capitals stand for small letters.
pub(crate) fn read_tokens(line: &[u8]) -> Tokens
    ensures { take 19 result.items ≡ take 19 (tokens_of (small_letters line.now)) }
{
    let mut tokens = Tokens::new();
    let content = content_of(line);
    let mut start = 0;
    for (place, character) in content.iter().enumerate() {
        if ends_run(*character) {
            push_ended(&mut tokens, &content[start..place], *character);
            start = place + 1;
        }
    }
    push_run(&mut tokens, &content[start..]);
    tokens
}
