//! Loads (RFC 9669, sections 5.1 and 5.2).
use super::{
    ANY, BEFORE_START, CONTEXT, CONTEXT_SIZE, EIGHT, END, MINUS_1, MINUS_8, STACK, START, UNSET,
    makes, sample_with, stored_before, with,
};
use crate::checks::{is_true, is_true_at};
use abs_domain::Flat;
use abs_regs::AbsVal;
use abs_states::AbsState;
use bpf_profile::{Extension, Instruction, Register, Size};
use refusals::RefusalNumber;
use std::alloc::Global;
use std::process::Abort;

/// A load of R2 through R4.
fn load(size: Size, extension: Extension, offset: u64) -> Instruction {
    Instruction::Load {
        size,
        extension,
        destination: Register::new(2),
        base: Register::new(4),
        offset,
    }
}

/// The sample with this value in R4.
fn based(rt: &impl Abort, alloc: Global, base: AbsVal<Flat>) -> AbsState<Flat> {
    sample_with(rt, alloc, Register::new(4), base)
}

/// The sample with the end of the stack in R4, in the cell before it a value, and in the cell before that
/// a word of four bytes.
fn stored(rt: &impl Abort, alloc: Global, value: AbsVal<Flat>) -> AbsState<Flat> {
    let state = based(rt, alloc, AbsVal::Stack(0));
    let state = stored_before(rt, alloc, &state, 8, value, Size::DoubleWord);
    stored_before(rt, alloc, &state, 16, EIGHT, Size::Word)
}

/// A base, a size, an offset, and why a load of these is refused.
type Refused = (AbsVal<Flat>, Size, u64, RefusalNumber);

/// Checks why loads are refused.
fn are_refused(rt: &impl Abort, alloc: Global, rows: &[Refused]) {
    for row in rows {
        let (base, size, offset, refusal) = *row;
        let instruction = load(size, Extension::Zero, offset);
        let found = makes(
            rt,
            alloc,
            &based(rt, alloc, base),
            CONTEXT_SIZE,
            &instruction,
            &Err(refusal),
        );
        is_true_at(rt, found, row);
    }
}

#[test]
fn addresses_are_refused(rt: HostRuntime) {
    let alloc = rt.alloc();
    are_refused(
        &rt,
        alloc,
        &[
            (UNSET, Size::Word, 1, RefusalNumber::UnsetRegister),
            (EIGHT, Size::Word, 1, RefusalNumber::NotPointer),
            (ANY, Size::Byte, 0, RefusalNumber::NotPointer),
            // Alignment is asked before bounds, on the context and on the stack.
            (
                AbsVal::Context(Flat::One(0)),
                Size::Word,
                129,
                RefusalNumber::Misaligned,
            ),
            (
                AbsVal::Context(Flat::One(0)),
                Size::DoubleWord,
                124,
                RefusalNumber::Misaligned,
            ),
            (CONTEXT, Size::DoubleWord, 2, RefusalNumber::Misaligned),
            (
                AbsVal::Context(Flat::Any),
                Size::HalfWord,
                0,
                RefusalNumber::Misaligned,
            ),
            (
                AbsVal::Context(Flat::One(0)),
                Size::Byte,
                128,
                RefusalNumber::OutOfBounds,
            ),
            (
                AbsVal::Context(Flat::One(0)),
                Size::DoubleWord,
                128,
                RefusalNumber::OutOfBounds,
            ),
            (
                AbsVal::Context(Flat::One(0)),
                Size::Byte,
                MINUS_1,
                RefusalNumber::OutOfBounds,
            ),
            (CONTEXT, Size::Byte, 104, RefusalNumber::OutOfBounds),
            (END, Size::Word, 2, RefusalNumber::Misaligned),
            (BEFORE_START, Size::HalfWord, 0, RefusalNumber::Misaligned),
            (STACK, Size::DoubleWord, 12, RefusalNumber::Misaligned),
            (END, Size::Byte, 0, RefusalNumber::OutOfBounds),
            (STACK, Size::Word, 16, RefusalNumber::OutOfBounds),
            (START, Size::DoubleWord, MINUS_8, RefusalNumber::OutOfBounds),
            (START, Size::Byte, MINUS_1, RefusalNumber::OutOfBounds),
            (STACK, Size::DoubleWord, 8, RefusalNumber::UnsetStack),
            (START, Size::Byte, 0, RefusalNumber::UnsetStack),
            (START, Size::Byte, 511, RefusalNumber::UnsetStack),
        ],
    );
}

/// A base, a size, how the word is extended, and an offset.
type OfLoad = (AbsVal<Flat>, Size, Extension, u64);

/// Checks that loads make any number.
fn make_any_number(rt: &impl Abort, alloc: Global, rows: &[OfLoad]) {
    for row in rows {
        let (base, size, extension, offset) = *row;
        let state = based(rt, alloc, base);
        let wanted = Ok(with(rt, alloc, &state, Register::new(2), ANY));
        let instruction = load(size, extension, offset);
        let found = makes(rt, alloc, &state, CONTEXT_SIZE, &instruction, &wanted);
        is_true_at(rt, found, row);
    }
}

/// -24 as a word.
const MINUS_24: u64 = 0xffff_ffff_ffff_ffe8;

#[test]
fn numbers_are_loaded_from_the_context(rt: HostRuntime) {
    let alloc = rt.alloc();
    make_any_number(
        &rt,
        alloc,
        &[
            (
                AbsVal::Context(Flat::One(0)),
                Size::DoubleWord,
                Extension::Zero,
                0,
            ),
            (
                AbsVal::Context(Flat::One(0)),
                Size::DoubleWord,
                Extension::Zero,
                120,
            ),
            (
                AbsVal::Context(Flat::One(0)),
                Size::Word,
                Extension::Sign,
                124,
            ),
            (
                AbsVal::Context(Flat::One(0)),
                Size::HalfWord,
                Extension::Sign,
                126,
            ),
            (
                AbsVal::Context(Flat::One(0)),
                Size::Byte,
                Extension::Zero,
                127,
            ),
            (CONTEXT, Size::Byte, Extension::Sign, 103),
            (CONTEXT, Size::DoubleWord, Extension::Zero, MINUS_24),
            (
                AbsVal::Context(Flat::One(MINUS_8)),
                Size::Word,
                Extension::Zero,
                8,
            ),
        ],
    );
}

/// The bytes of a context, an offset, and whether it is inside.
type OfContext = (u64, u64, bool);

/// Checks which bytes contexts have.
fn have_bytes(rt: &impl Abort, alloc: Global, rows: &[OfContext]) {
    let state = based(rt, alloc, AbsVal::Context(Flat::One(0)));
    let loaded = Ok(with(rt, alloc, &state, Register::new(2), ANY));
    let outside = Err(RefusalNumber::OutOfBounds);
    for row in rows {
        let (context_size, offset, is_inside) = *row;
        let wanted = if is_inside { &loaded } else { &outside };
        let instruction = load(Size::Byte, Extension::Zero, offset);
        let found = makes(rt, alloc, &state, context_size, &instruction, wanted);
        is_true_at(rt, found, row);
    }
}

#[test]
fn the_context_has_so_many_bytes(rt: HostRuntime) {
    let alloc = rt.alloc();
    have_bytes(
        &rt,
        alloc,
        &[
            (128, 127, true),
            (128, 128, false),
            (192, 128, true),
            (192, 191, true),
            (192, 192, false),
            (0, 0, false),
        ],
    );
}

/// Checks what is loaded where a value was stored.
fn loads(
    rt: &impl Abort,
    alloc: Global,
    kept: AbsVal<Flat>,
    size: Size,
    offset: u64,
    loaded: Result<AbsVal<Flat>, RefusalNumber>,
) {
    let state = stored(rt, alloc, kept);
    let wanted = match loaded {
        Ok(value) => Ok(with(rt, alloc, &state, Register::new(2), value)),
        Err(refusal) => Err(refusal),
    };
    let instruction = load(size, Extension::Sign, offset);
    let found = makes(rt, alloc, &state, CONTEXT_SIZE, &instruction, &wanted);
    is_true_at(rt, found, (&kept, &size, &offset));
}

/// A value, a size, an offset, and what is loaded where the value was stored.
type Loaded = (AbsVal<Flat>, Size, u64, Result<AbsVal<Flat>, RefusalNumber>);

/// Checks what is loaded.
fn are_loaded(rt: &impl Abort, alloc: Global, rows: &[Loaded]) {
    for row in rows {
        let (kept, size, offset, loaded) = *row;
        loads(rt, alloc, kept, size, offset, loaded);
    }
}

const USED: Result<AbsVal<Flat>, RefusalNumber> = Err(RefusalNumber::PointerUsed);

const UNSET_BYTE: Result<AbsVal<Flat>, RefusalNumber> = Err(RefusalNumber::UnsetStack);

/// -4 as a word.
const MINUS_4: u64 = 0xffff_ffff_ffff_fffc;

/// -12 as a word.
const MINUS_12: u64 = 0xffff_ffff_ffff_fff4;

/// -13 as a word.
const MINUS_13: u64 = 0xffff_ffff_ffff_fff3;

/// -16 as a word.
const MINUS_16: u64 = 0xffff_ffff_ffff_fff0;

/// -20 as a word.
const MINUS_20: u64 = 0xffff_ffff_ffff_ffec;

#[test]
fn values_are_loaded_from_the_stack(rt: HostRuntime) {
    let alloc = rt.alloc();
    are_loaded(
        &rt,
        alloc,
        &[
            (EIGHT, Size::DoubleWord, MINUS_8, Ok(EIGHT)),
            (EIGHT, Size::Word, MINUS_4, Ok(ANY)),
            (EIGHT, Size::Byte, MINUS_1, Ok(ANY)),
            (ANY, Size::DoubleWord, MINUS_8, Ok(ANY)),
            (STACK, Size::DoubleWord, MINUS_8, Ok(STACK)),
            (CONTEXT, Size::DoubleWord, MINUS_8, Ok(CONTEXT)),
            (STACK, Size::Word, MINUS_8, USED),
            (STACK, Size::Byte, MINUS_1, USED),
            (CONTEXT, Size::HalfWord, MINUS_4, USED),
            // Of the cell before four bytes are set.
            (EIGHT, Size::Word, MINUS_16, Ok(ANY)),
            (EIGHT, Size::Byte, MINUS_13, Ok(ANY)),
            (EIGHT, Size::Byte, MINUS_12, UNSET_BYTE),
            (EIGHT, Size::DoubleWord, MINUS_16, UNSET_BYTE),
            (EIGHT, Size::Word, MINUS_20, UNSET_BYTE),
        ],
    );
}

#[test]
fn a_load_may_replace_its_base(rt: HostRuntime) {
    let rt = &rt;
    let alloc = rt.alloc();
    let four = Register::new(4);
    let instruction = Instruction::Load {
        size: Size::DoubleWord,
        extension: Extension::Zero,
        destination: four,
        base: four,
        offset: MINUS_8,
    };
    let state = stored(rt, alloc, CONTEXT);
    let wanted = Ok(with(rt, alloc, &state, four, CONTEXT));
    is_true(
        rt,
        makes(rt, alloc, &state, CONTEXT_SIZE, &instruction, &wanted),
    );
}
