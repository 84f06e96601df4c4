//! What the analysis knows of a register, in words.
use abs_domain::{Bounds, Domain};
use abs_regs::AbsVal;
use bpf_profile::Register;
use std::alloc::AllocError;

/// Returns the greatest of 8, 4, 2 and 1 of which all words of a value are known to be multiples.
fn factor<D: Domain>(number: D) -> u64 {
    if number.low_zeros(3) {
        8
    } else if number.low_zeros(2) {
        4
    } else if number.low_zeros(1) {
        2
    } else {
        1
    }
}

/// Appends that several words are multiples of a number, where it is known of more than 1.
fn push_factor<D: Domain>(text: &mut String, number: D) -> Result<(), AllocError> {
    match factor(number) {
        1 => Ok(()),
        factor => write!(text, ", a multiple of {factor}"),
    }
}

/// Appends a single word, which is also read as signed.
fn push_word(text: &mut String, word: u64) -> Result<(), AllocError> {
    let signed = word.cast_signed();
    if signed < 0 {
        write!(text, "{word} (signed: {signed})")
    } else {
        write!(text, "{word}")
    }
}

/// Appends what is known of a number.
fn push_number<D: Domain>(text: &mut String, number: D) -> Result<(), AllocError> {
    let Bounds { low, high } = number.bounds();
    if low == high {
        text.push_str(" is the number ")?;
        return push_word(text, low);
    }
    text.push_str(" is a number")?;
    if 0 < low || high < u64::MAX {
        write!(text, " from {low} to {high}")?;
    }
    push_factor(text, number)
}

/// Appends what is known of a pointer's place in the context.
fn push_place<D: Domain>(text: &mut String, place: D) -> Result<(), AllocError> {
    text.push_str(" points to the context, at ")?;
    let Bounds { low, high } = place.bounds();
    if low == high {
        let place = low.cast_signed();
        return write!(text, "{place}");
    }
    if high < 1 << 63 {
        write!(text, "{low} to {high}")?;
    } else {
        text.push_str("a place that is not known")?;
    }
    push_factor(text, place)
}

/// Appends a line on what is known of a register.
pub(crate) fn push_register<D: Domain>(
    text: &mut String,
    register: Register,
    value: AbsVal<D>,
) -> Result<(), AllocError> {
    let index = register.index();
    write!(text, "r{index}")?;
    match value {
        AbsVal::Unset => text.push_str(" may be unset")?,
        AbsVal::Number(number) => push_number(text, number)?,
        AbsVal::Stack(offset) => {
            let place = offset.cast_signed();
            write!(text, " points to the stack, at {place}")?;
        }
        AbsVal::Context(place) => push_place(text, place)?,
    }
    text.push('\n')
}
