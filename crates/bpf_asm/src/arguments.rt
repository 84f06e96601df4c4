//! The arguments behind a line's word.
ghost use Rattle.std.specs.Prelude.{◌≡◌, Some, None, MatchOption};
ghost use Rattle.std.specs.List.{position};
ghost use Rattle.bpf_asm.specs.Arguments.{argument_of, is_comma, cut, third_of, second_of, first_of, arguments_of};

use crate::tokens::Token;
use bpf_profile::Register;

#[derive(Clone, Copy)]
pub(crate) enum Sign {
    Absent,
    Plus,
    Minus,
}

/// A number as it is written.
#[derive(Clone, Copy)]
pub(crate) struct Numeral {
    pub(crate) sign: Sign,
    /// None stands for each number from 2^64 on.
    pub(crate) magnitude: Option<u64>,
}

#[derive(Clone, Copy)]
pub(crate) enum Argument {
    Register(Register),
    Number(Numeral),
    /// A register and an offset between brackets.
    Place(Register, Numeral),
}

/// The arguments of a line, of which no word has more than three.
#[derive(Clone, Copy)]
pub(crate) enum Arguments {
    Zero,
    One(Argument),
    Two(Argument, Argument),
    Three(Argument, Argument, Argument),
}

fn signed_by(sign: Sign, magnitude: Option<u64>) -> Numeral
    ensures sign { result.sign ≡ sign }
    ensures magnitude { result.magnitude ≡ magnitude }
{
    Numeral { sign, magnitude }
}

fn argument_of(tokens: &[Token]) -> Option<Argument>
    ensures { result ≡ argument_of tokens.now }
{
    match tokens {
        [Token::Register(register)] => Some(Argument::Register(*register)),
        [Token::Number(n)] => Some(Argument::Number(signed_by(Sign::Absent, *n))),
        [Token::Plus, Token::Number(n)] => Some(Argument::Number(signed_by(Sign::Plus, *n))),
        [Token::Minus, Token::Number(n)] => Some(Argument::Number(signed_by(Sign::Minus, *n))),
        [
            Token::Open,
            Token::Register(base),
            Token::Number(n),
            Token::Close,
        ] => Some(Argument::Place(*base, signed_by(Sign::Absent, *n))),
        [
            Token::Open,
            Token::Register(base),
            Token::Plus,
            Token::Number(n),
            Token::Close,
        ] => Some(Argument::Place(*base, signed_by(Sign::Plus, *n))),
        [
            Token::Open,
            Token::Register(base),
            Token::Minus,
            Token::Number(n),
            Token::Close,
        ] => Some(Argument::Place(*base, signed_by(Sign::Minus, *n))),
        _ => None,
    }
}

/// The place of the first comma.
fn comma(tokens: &[Token]) -> Option<usize>
    ensures { result ≡ position is_comma tokens.now }
{
    tokens
        .iter()
        .position(|token| matches!(token, Token::Comma))
}

/// What stands before the first comma, and what stands behind it.
fn cut(tokens: &[Token]) -> (&[Token], Option<&[Token]>)
    ensures before { result.0.now ≡ (cut tokens.now).0 }
    ensures behind { MatchOption result.1 ((cut tokens.now).1 ≡ None) (λ rest. (cut tokens.now).1 ≡ Some rest.now) }
{
    match comma(tokens) {
        Some(place) => (&tokens[..place], Some(&tokens[place + 1..])),
        None => (tokens, None),
    }
}

/// Two arguments and what follows the second comma.
fn third_of(first: Argument, second: Argument, tokens: &[Token]) -> Option<Arguments>
    ensures { result ≡ third_of first second (cut tokens.now) }
{
    let (third, rest) = cut(tokens);
    if rest.is_some() {
        return None;
    }
    Some(Arguments::Three(first, second, argument_of(third)?))
}

/// One argument and what follows the first comma.
fn second_of(first: Argument, tokens: &[Token]) -> Option<Arguments>
    ensures { result ≡ second_of first (cut tokens.now) }
{
    let (second, rest) = cut(tokens);
    let second = argument_of(second)?;
    match rest {
        Some(rest) => third_of(first, second, rest),
        None => Some(Arguments::Two(first, second)),
    }
}

/// The arguments of a line; None where one is malformed or there are more than three.
pub(crate) fn arguments_of(tokens: &[Token]) -> Option<Arguments>
    ensures { result ≡ arguments_of tokens.now }
{
    if tokens.is_empty() {
        return Some(Arguments::Zero);
    }
    let (first, rest) = cut(tokens);
    let first = argument_of(first)?;
    match rest {
        Some(rest) => second_of(first, rest),
        None => Some(Arguments::One(first)),
    }
}
