//! What conditional jumps tell (RFC 9669, section 4.3).
ghost use Rattle.std.specs.Prelude.{◌<◌};

use super::{ANY, CONTEXT, EIGHT, STACK, UNSET};
use crate::checks::{is_true_at, is_value, same};
use abs_domain::Flat;
use abs_regs::{AbsVal, RegFile};
use bpf_profile::{Comparison, Operand, Register, Width};
use refusals::RefusalNumber;
use std::process::Abort;

type Pair = (AbsVal<Flat>, AbsVal<Flat>);

const WIDTHS: [Width; 2] = [Width::Bits32, Width::Bits64];

/// What is known of R2 and R3, and of no other register but those of the entry.
fn having(pair: Pair) -> RegFile<Flat> {
    RegFile::entry()
        .with(Register::new(2), pair.0)
        .with(Register::new(3), pair.1)
}

/// What is left of R2 and R3 where a comparison of R2 with the operand holds, or where it doesn't.
fn branched(
    comparison: Comparison,
    width: Width,
    holds: bool,
    before: Pair,
    right: &Operand,
) -> Result<Pair, RefusalNumber> {
    let two = Register::new(2);
    let mut registers = having(before);
    registers.branch(comparison, width, holds, two, right)?;
    Ok((registers.get(two), registers.get(Register::new(3))))
}

/// Checks what is left of R2 and R3, or why they aren't compared.
fn is_branched(
    rt: &impl Abort,
    found: Result<Pair, RefusalNumber>,
    wanted: Result<Pair, RefusalNumber>,
) {
    same(rt, found, wanted);
}

/// The register of a number, as an operand.
fn register(number: u8) -> Operand
    requires { number < 11 }
{
    Operand::Register(Register::new(number))
}

/// A comparison, its width, whether it holds, and what is known of R2 and R3 before and after.
type Told = (Comparison, Width, bool, Pair, Pair);

/// Checks what comparisons of R2 with R3 tell.
fn are_told(rt: &impl Abort, rows: &[Told]) {
    for row in rows {
        let (comparison, width, holds, before, after) = *row;
        let found = branched(comparison, width, holds, before, &register(3));
        is_branched(rt, found, Ok(after));
    }
}

const FIRST_ANY: Pair = (ANY, EIGHT);

const SECOND_ANY: Pair = (EIGHT, ANY);

const EIGHTS: Pair = (EIGHT, EIGHT);

#[test]
fn equal_registers_become_one_number(rt: HostRuntime) {
    are_told(
        &rt,
        &[
            (Comparison::Equal, Width::Bits64, true, FIRST_ANY, EIGHTS),
            (Comparison::Equal, Width::Bits64, true, SECOND_ANY, EIGHTS),
            (
                Comparison::NotEqual,
                Width::Bits64,
                false,
                FIRST_ANY,
                EIGHTS,
            ),
            (
                Comparison::NotEqual,
                Width::Bits64,
                false,
                SECOND_ANY,
                EIGHTS,
            ),
            // Nothing is learnt, and each register keeps its own.
            (
                Comparison::Equal,
                Width::Bits64,
                false,
                FIRST_ANY,
                FIRST_ANY,
            ),
            (
                Comparison::NotEqual,
                Width::Bits64,
                true,
                FIRST_ANY,
                FIRST_ANY,
            ),
            (
                Comparison::NotEqual,
                Width::Bits64,
                true,
                SECOND_ANY,
                SECOND_ANY,
            ),
            (
                Comparison::GreaterOrEqual,
                Width::Bits64,
                true,
                FIRST_ANY,
                FIRST_ANY,
            ),
            (
                Comparison::BitsSet,
                Width::Bits64,
                true,
                FIRST_ANY,
                FIRST_ANY,
            ),
            // Any word may have more than 32 bits.
            (Comparison::Equal, Width::Bits32, true, FIRST_ANY, FIRST_ANY),
        ],
    );
}

/// Checks what a comparison of any number in R2 with a word tells. R3 is compared with nothing.
fn tells_of_word(
    rt: &impl Abort,
    comparison: Comparison,
    holds: bool,
    word: u64,
    three: AbsVal<Flat>,
    after: AbsVal<Flat>,
) {
    let right = Operand::Immediate(word);
    let found = branched(comparison, Width::Bits64, holds, (ANY, three), &right);
    is_branched(rt, found, Ok((after, three)));
}

/// A comparison, whether it holds, a word, and what is then known of any number.
type ToldOfOne = (Comparison, bool, u64, AbsVal<Flat>);

/// Checks what comparisons with words tell, whatever is in R3.
fn are_told_of_one(rt: &impl Abort, rows: &[ToldOfOne]) {
    for row in rows {
        let (comparison, holds, word, after) = *row;
        tells_of_word(rt, comparison, holds, word, ANY, after);
        tells_of_word(rt, comparison, holds, word, STACK, after);
    }
}

const SEVEN: AbsVal<Flat> = AbsVal::Number(Flat::One(7));

const MOST: AbsVal<Flat> = AbsVal::Number(Flat::One(u64::MAX));

#[test]
fn a_register_equal_to_a_word_becomes_it(rt: HostRuntime) {
    are_told_of_one(
        &rt,
        &[
            (Comparison::Equal, true, 7, SEVEN),
            (Comparison::Equal, true, u64::MAX, MOST),
            (Comparison::NotEqual, false, 7, SEVEN),
            (Comparison::Equal, false, 7, ANY),
            (Comparison::NotEqual, true, 7, ANY),
            (Comparison::Less, true, 7, ANY),
        ],
    );
}

/// Checks that a comparison of R2 with itself tells nothing.
fn tells_nothing(rt: &impl Abort, comparison: Comparison, width: Width, holds: bool, before: Pair) {
    let found = branched(comparison, width, holds, before, &register(2));
    is_branched(rt, found, Ok(before));
}

/// Checks that a comparison of R2 with itself tells nothing, at either width and on either way.
fn never_tells(rt: &impl Abort, comparison: Comparison, before: Pair) {
    tells_nothing(rt, comparison, Width::Bits32, true, before);
    tells_nothing(rt, comparison, Width::Bits32, false, before);
    tells_nothing(rt, comparison, Width::Bits64, true, before);
    tells_nothing(rt, comparison, Width::Bits64, false, before);
}

#[test]
fn of_a_register_and_itself_nothing_is_learnt(rt: HostRuntime) {
    for before in &[FIRST_ANY, SECOND_ANY, (EIGHT, STACK)] {
        never_tells(&rt, Comparison::Equal, *before);
        never_tells(&rt, Comparison::Less, *before);
        never_tells(&rt, Comparison::BitsSet, *before);
    }
}

/// Checks that the same is known of these registers.
fn are_alike(rt: &impl Abort, one: RegFile<Flat>, other: RegFile<Flat>, numbers: &[u8]) {
    for number in numbers {
        assert!(rt; *number < 11);
        let register = Register::new(*number);
        is_value(rt, one.get(register), other.get(register));
    }
}

#[test]
fn other_registers_stay(rt: HostRuntime) {
    let registers = having((ANY, EIGHT));
    let mut after = registers;
    let two = Register::new(2);
    match after.branch(Comparison::Equal, Width::Bits64, true, two, &register(3)) {
        Ok(()) => are_alike(&rt, after, registers, &[0, 1, 4, 5, 6, 7, 8, 9, 10]),
        Err(refusal) => is_true_at(&rt, false, &refusal),
    }
}

/// Checks that a comparison of R2 with an operand is refused.
fn is_refused(
    rt: &impl Abort,
    comparison: Comparison,
    width: Width,
    holds: bool,
    before: Pair,
    right: &Operand,
    refusal: RefusalNumber,
) {
    let found = branched(comparison, width, holds, before, right);
    is_branched(rt, found, Err(refusal));
}

/// Checks that a comparison of R2 with R3 is refused, at either width and on either way.
fn never_compares(rt: &impl Abort, comparison: Comparison, before: Pair, refusal: RefusalNumber) {
    let right = &register(3);
    for width in &WIDTHS {
        is_refused(rt, comparison, *width, true, before, right, refusal);
        is_refused(rt, comparison, *width, false, before, right, refusal);
    }
}

/// What is known of R2 and R3, and why they aren't compared.
type Refused = (AbsVal<Flat>, AbsVal<Flat>, RefusalNumber);

/// Checks that R2 and R3 aren't compared.
fn are_not_compared(rt: &impl Abort, rows: &[Refused]) {
    for row in rows {
        let (two, three, refusal) = *row;
        never_compares(rt, Comparison::Equal, (two, three), refusal);
        never_compares(rt, Comparison::SignedLess, (two, three), refusal);
    }
}

/// Checks that a value is compared neither with a word nor with itself.
fn is_not_compared(rt: &impl Abort, value: AbsVal<Flat>, refusal: RefusalNumber) {
    let before = (value, EIGHT);
    let (word, two) = (&Operand::Immediate(0), &register(2));
    for width in &WIDTHS {
        is_refused(rt, Comparison::Equal, *width, true, before, word, refusal);
        is_refused(rt, Comparison::Equal, *width, true, before, two, refusal);
    }
}

const UNSET_REGISTER: RefusalNumber = RefusalNumber::UnsetRegister;

const USED: RefusalNumber = RefusalNumber::PointerUsed;

#[test]
fn comparisons_take_numbers_alone(rt: HostRuntime) {
    let rt = &rt;
    are_not_compared(
        rt,
        &[
            (UNSET, EIGHT, UNSET_REGISTER),
            (EIGHT, UNSET, UNSET_REGISTER),
            // An unset register is refused before a pointer, on either side.
            (UNSET, STACK, UNSET_REGISTER),
            (STACK, UNSET, UNSET_REGISTER),
            (CONTEXT, UNSET, UNSET_REGISTER),
            (UNSET, UNSET, UNSET_REGISTER),
            (STACK, EIGHT, USED),
            (EIGHT, STACK, USED),
            (CONTEXT, ANY, USED),
            (ANY, CONTEXT, USED),
            (STACK, STACK, USED),
            (STACK, CONTEXT, USED),
        ],
    );
    is_not_compared(rt, UNSET, UNSET_REGISTER);
    is_not_compared(rt, STACK, USED);
    is_not_compared(rt, CONTEXT, USED);
}
