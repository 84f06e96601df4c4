//! Values by hand: over the flat domain, what RFC 9669 and the doc comments say of single words, of any,
//! and of pointers.
mod addresses;
mod arithmetic;
mod branches;
mod files;
mod values;

use abs_domain::Flat;
use abs_regs::AbsVal;

const UNSET: AbsVal<Flat> = AbsVal::Unset;

/// A number of which nothing is known.
const ANY: AbsVal<Flat> = AbsVal::Number(Flat::Any);

const EIGHT: AbsVal<Flat> = AbsVal::Number(Flat::One(8));

/// 16 bytes below the end of the stack.
const STACK: AbsVal<Flat> = AbsVal::Stack(MINUS_16);

/// Byte 24 of the context.
const CONTEXT: AbsVal<Flat> = AbsVal::Context(Flat::One(24));

/// -16 as a word.
const MINUS_16: u64 = 0xffff_ffff_ffff_fff0;

/// -8 as a word.
const MINUS_8: u64 = 0xffff_ffff_ffff_fff8;

/// The number that is one word.
fn number(word: u64) -> AbsVal<Flat> {
    AbsVal::Number(Flat::One(word))
}
