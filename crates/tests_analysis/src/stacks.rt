//! What is known of the stack behind stores, loads and joins, worked out by hand, over the flat
//! domain.
ghost use Rattle.std.specs.Prelude.{◌≤◌, ◌+◌};

use crate::checks::{is_found, is_refusal, same_at};
use abs_domain::Flat;
use abs_regs::{AbsVal, Address};
use bpf_profile::{Extension, Size};
use refusals::RefusalNumber;
use stack_track::{Cell, StackState};
use std::alloc::Global;
use std::fmt::Debug;
use std::process::Abort;

/// The bytes of a context.
const CONTEXT: u64 = 128;

const SIZES: [Size; 4] = [Size::Byte, Size::HalfWord, Size::Word, Size::DoubleWord];

const ANY: AbsVal<Flat> = AbsVal::Number(Flat::Any);

type Loaded = Result<AbsVal<Flat>, RefusalNumber>;

/// The offset that lies so many bytes before the stack's end.
fn before(bytes: u64) -> u64 {
    0u64.wrapping_sub(bytes)
}

fn number(word: u64) -> AbsVal<Flat> {
    AbsVal::Number(Flat::One(word))
}

fn load(state: &StackState<Flat>, bytes_before: u64, size: Size) -> Loaded {
    let address = Address::Stack(before(bytes_before));
    state.load(CONTEXT, address, Extension::Zero, size)
}

fn load_context(state: &StackState<Flat>, context_size: u64, offset: Flat, size: Size) -> Loaded {
    let address = Address::Context(offset);
    state.load(context_size, address, Extension::Sign, size)
}

/// The stack before the first instruction.
fn at_entry(rt: &impl Abort, alloc: Global) -> StackState<Flat> {
    StackState::entry(alloc).expect(rt, "memory for a stack")
}

/// The same stack once more.
fn copy(rt: &impl Abort, alloc: Global, state: &StackState<Flat>) -> StackState<Flat> {
    let mut copied = at_entry(rt, alloc);
    copied.copy_from(state);
    copied
}

/// What a store of this value makes of a stack; the stack stays where it is refused.
fn store(
    mut state: StackState<Flat>,
    bytes_before: u64,
    value: AbsVal<Flat>,
    size: Size,
) -> StackState<Flat> {
    let _refused = state.store(Address::Stack(before(bytes_before)), value, size);
    state
}

/// Why a store of this value is refused, if it is.
fn refusal_of_store(
    rt: &impl Abort,
    alloc: Global,
    state: &StackState<Flat>,
    address: Address<Flat>,
    value: AbsVal<Flat>,
    size: Size,
) -> Option<RefusalNumber> {
    copy(rt, alloc, state).store(address, value, size).err()
}

/// The list of the cells in the text of a state.
fn cells_of<'a>(rt: &impl Abort, text: &'a str) -> &'a str {
    let (_, cells) = text.split_once('[').expect(rt, "a list of cells");
    let (cells, _) = cells.split_once(']').expect(rt, "the end of the list");
    cells
}

/// Checks a cell in a list of 64.
fn is_listed(rt: &impl Abort, cells: &str, index: usize, wanted: &str) {
    same_at(rt, cells.split(", ").count(), 64, &cells);
    same_at(rt, cells.split(", ").nth(index), Some(wanted), &index);
}

/// The text that shows a value.
fn text_of<T: Debug>(rt: &impl Abort, alloc: Global, value: &T) -> String {
    format!(in alloc; "{value:?}").expect(rt, "memory for a text")
}

/// Checks what is known of a cell, the first one's index being 0: the text of the state has each cell's.
fn has_cell(
    rt: &impl Abort,
    alloc: Global,
    state: &StackState<Flat>,
    index: usize,
    wanted: Cell<Flat>,
) {
    let text = text_of(rt, alloc, state);
    let wanted = text_of(rt, alloc, &wanted);
    is_listed(rt, cells_of(rt, &text), index, &wanted);
}

/// A stack of which only the last cell is known, as this one.
fn last_cell(rt: &impl Abort, alloc: Global, cell: Cell<Flat>) -> StackState<Flat> {
    match cell {
        Cell::Kept(value) => store(at_entry(rt, alloc), 8, value, Size::DoubleWord),
        Cell::Bytes(mask) => {
            let mut state = at_entry(rt, alloc);
            for place in 0..8u64 {
                if mask >> place & 1 == 1 {
                    state = store(state, 8 - place, number(0), Size::Byte);
                }
            }
            state
        }
    }
}

/// Checks what is loaded of a seven that was stored in some size.
fn is_loaded(rt: &impl Abort, alloc: Global, size: Size, read: Size, wanted: Loaded) {
    let state = store(at_entry(rt, alloc), 16, number(7), size);
    is_found(rt, load(&state, 16, read), wanted);
}

/// Checks what each size loads of a seven that was stored in some size.
fn are_loaded(rt: &impl Abort, alloc: Global, size: Size, wanted: [Loaded; 4]) {
    is_loaded(rt, alloc, size, Size::Byte, wanted[0]);
    is_loaded(rt, alloc, size, Size::HalfWord, wanted[1]);
    is_loaded(rt, alloc, size, Size::Word, wanted[2]);
    is_loaded(rt, alloc, size, Size::DoubleWord, wanted[3]);
}

/// Checks that a store sets nothing beside its own bytes.
fn bytes_beside_are_unset(rt: &impl Abort, alloc: Global, size: Size) {
    let unset = Err(RefusalNumber::UnsetStack);
    let state = store(at_entry(rt, alloc), 16, number(7), size);
    is_found(rt, load(&state, 8, Size::Byte), unset);
    is_found(rt, load(&state, 17, Size::Byte), unset);
}

#[test]
fn numbers_load_in_each_size(rt: HostRuntime) {
    let rt = &rt;
    let alloc = rt.alloc();
    let any = Ok(ANY);
    let seven = Ok(number(7));
    let unset = Err(RefusalNumber::UnsetStack);
    are_loaded(rt, alloc, Size::Byte, [any, unset, unset, unset]);
    are_loaded(rt, alloc, Size::HalfWord, [any, any, unset, unset]);
    are_loaded(rt, alloc, Size::Word, [any, any, any, unset]);
    are_loaded(rt, alloc, Size::DoubleWord, [any, any, any, seven]);
    bytes_beside_are_unset(rt, alloc, Size::Byte);
    bytes_beside_are_unset(rt, alloc, Size::HalfWord);
    bytes_beside_are_unset(rt, alloc, Size::Word);
    bytes_beside_are_unset(rt, alloc, Size::DoubleWord);
}

/// Checks that of a pointer in the last cell no part is loaded, and that no part of one is stored.
fn has_no_part(
    rt: &impl Abort,
    alloc: Global,
    pointer: AbsVal<Flat>,
    bytes_before: u64,
    size: Size,
) {
    let used = RefusalNumber::PointerUsed;
    let state = store(at_entry(rt, alloc), 8, pointer, Size::DoubleWord);
    is_found(rt, load(&state, bytes_before, size), Err(used));
    let address = Address::Stack(before(bytes_before));
    let refused = refusal_of_store(rt, alloc, &state, address, pointer, size);
    is_refusal(rt, refused, Some(used));
}

/// Checks that a pointer is stored and loaded whole, or not at all.
fn is_loaded_whole(rt: &impl Abort, alloc: Global, pointer: AbsVal<Flat>) {
    let state = store(at_entry(rt, alloc), 8, pointer, Size::DoubleWord);
    is_found(rt, load(&state, 8, Size::DoubleWord), Ok(pointer));
    has_no_part(rt, alloc, pointer, 8, Size::Word);
    has_no_part(rt, alloc, pointer, 4, Size::Word);
    has_no_part(rt, alloc, pointer, 2, Size::HalfWord);
    has_no_part(rt, alloc, pointer, 1, Size::Byte);
}

#[test]
fn pointers_load_whole(rt: HostRuntime) {
    let alloc = rt.alloc();
    is_loaded_whole(&rt, alloc, AbsVal::Stack(before(24)));
    is_loaded_whole(&rt, alloc, AbsVal::Context(Flat::One(4)));
}

/// Checks why nothing is loaded from an offset of the stack at the entry, and that nothing is stored there
/// for the same reason, unless it is that nothing was.
fn is_refused(rt: &impl Abort, alloc: Global, offset: u64, size: Size, expected: RefusalNumber) {
    let state: StackState<Flat> = at_entry(rt, alloc);
    let found = state.load(CONTEXT, Address::Stack(offset), Extension::Zero, size);
    is_found(rt, found, Err(expected));
    let stored = if expected == RefusalNumber::UnsetStack {
        None
    } else {
        Some(expected)
    };
    let refused = refusal_of_store(rt, alloc, &state, Address::Stack(offset), number(1), size);
    is_refusal(rt, refused, stored);
}

/// Checks why each size is refused at an offset.
fn are_refused(rt: &impl Abort, alloc: Global, offset: u64, refusals: &[RefusalNumber; 4]) {
    is_refused(rt, alloc, offset, Size::Byte, refusals[0]);
    is_refused(rt, alloc, offset, Size::HalfWord, refusals[1]);
    is_refused(rt, alloc, offset, Size::Word, refusals[2]);
    is_refused(rt, alloc, offset, Size::DoubleWord, refusals[3]);
}

/// Checks why each size is refused at offsets that lie so many bytes before the stack's end.
fn are_refused_before(rt: &impl Abort, alloc: Global, rows: &[(u64, [RefusalNumber; 4])]) {
    for row in rows {
        are_refused(rt, alloc, before(row.0), &row.1);
    }
}

const NOT_SET: RefusalNumber = RefusalNumber::UnsetStack;

const IS_OUTSIDE: RefusalNumber = RefusalNumber::OutOfBounds;

const IS_MISALIGNED: RefusalNumber = RefusalNumber::Misaligned;

/// Each size lies outside.
const ALL_OUTSIDE: [RefusalNumber; 4] = [IS_OUTSIDE, IS_OUTSIDE, IS_OUTSIDE, IS_OUTSIDE];

/// A byte lies outside, and each other size is asked for its alignment before.
const ALL_BUT_ONE: [RefusalNumber; 4] = [IS_OUTSIDE, IS_MISALIGNED, IS_MISALIGNED, IS_MISALIGNED];

#[test]
fn offsets_are_aligned_and_inside(rt: HostRuntime) {
    let rt = &rt;
    let alloc = rt.alloc();
    are_refused_before(
        rt,
        alloc,
        &[
            (520, ALL_OUTSIDE),
            (513, ALL_BUT_ONE),
            (512, [NOT_SET, NOT_SET, NOT_SET, NOT_SET]),
            (4, [NOT_SET, NOT_SET, NOT_SET, IS_MISALIGNED]),
            (2, [NOT_SET, NOT_SET, IS_MISALIGNED, IS_MISALIGNED]),
            (1, [NOT_SET, IS_MISALIGNED, IS_MISALIGNED, IS_MISALIGNED]),
        ],
    );
    are_refused(rt, alloc, 0, &ALL_OUTSIDE);
    are_refused(rt, alloc, 1, &ALL_BUT_ONE);
    are_refused(rt, alloc, 1 << 63, &ALL_OUTSIDE);
}

/// The bytes of a context, an offset, a size, and what is loaded.
type OfContext = (u64, Flat, Size, Loaded);

/// Checks what is loaded from contexts.
fn are_loaded_of_context(rt: &impl Abort, alloc: Global, rows: &[OfContext]) {
    let state = at_entry(rt, alloc);
    for row in rows {
        let (context_size, offset, size, expected) = *row;
        let found = load_context(&state, context_size, offset, size);
        is_found(rt, found, expected);
    }
}

/// A load that is refused, since it goes past the end.
const OUTSIDE: Loaded = Err(RefusalNumber::OutOfBounds);

/// A load that is refused for its offset.
const MISALIGNED: Loaded = Err(RefusalNumber::Misaligned);

#[test]
fn the_context_is_aligned_inside_and_read_only(rt: HostRuntime) {
    let rt = &rt;
    let alloc = rt.alloc();
    are_loaded_of_context(
        rt,
        alloc,
        &[
            (CONTEXT, Flat::One(0), Size::DoubleWord, Ok(ANY)),
            (CONTEXT, Flat::One(120), Size::DoubleWord, Ok(ANY)),
            (CONTEXT, Flat::One(124), Size::DoubleWord, MISALIGNED),
            (CONTEXT, Flat::One(127), Size::Byte, Ok(ANY)),
            (CONTEXT, Flat::One(128), Size::Byte, OUTSIDE),
            (CONTEXT, Flat::One(129), Size::HalfWord, MISALIGNED),
            (CONTEXT, Flat::One(u64::MAX), Size::Byte, OUTSIDE),
            (CONTEXT, Flat::Any, Size::Word, MISALIGNED),
            (124, Flat::One(120), Size::Word, Ok(ANY)),
            (124, Flat::One(120), Size::DoubleWord, OUTSIDE),
            (3, Flat::One(0), Size::Word, OUTSIDE),
            (0, Flat::One(0), Size::Byte, OUTSIDE),
            (u64::MAX, Flat::One(u64::MAX), Size::Byte, OUTSIDE),
        ],
    );
    let offset = Address::Context(Flat::One(1));
    let written = refusal_of_store(
        rt,
        alloc,
        &at_entry(rt, alloc),
        offset,
        AbsVal::Unset,
        Size::Word,
    );
    is_refusal(rt, written, Some(RefusalNumber::ContextWrite));
}

/// Checks why an unset value is not stored at an offset.
fn unset_is_not_stored(
    rt: &impl Abort,
    alloc: Global,
    size: Size,
    offset: u64,
    wanted: RefusalNumber,
) {
    let state: StackState<Flat> = at_entry(rt, alloc);
    let refused = refusal_of_store(
        rt,
        alloc,
        &state,
        Address::Stack(offset),
        AbsVal::Unset,
        size,
    );
    is_refusal(rt, refused, Some(wanted));
}

#[test]
fn unset_values_are_not_stored(rt: HostRuntime) {
    let alloc = rt.alloc();
    for size in &SIZES {
        unset_is_not_stored(&rt, alloc, *size, before(8), RefusalNumber::UnsetRegister);
        unset_is_not_stored(&rt, alloc, *size, 8, RefusalNumber::OutOfBounds);
    }
}

/// Checks what is left of a value in the last cell once one byte of it is stored.
fn part_is_kept(rt: &impl Abort, alloc: Global, old: AbsVal<Flat>, mask: u8) {
    let kept = store(at_entry(rt, alloc), 8, old, Size::DoubleWord);
    let state = store(kept, 6, number(1), Size::Byte);
    has_cell(rt, alloc, &state, 63, Cell::Bytes(mask));
    has_cell(rt, alloc, &state, 62, Cell::Bytes(0));
}

/// The stack with zeros stored, once the bytes of its last cell that are set by then are checked.
fn zeros_are_stored(
    rt: &impl Abort,
    alloc: Global,
    state: StackState<Flat>,
    bytes_before: u64,
    size: Size,
    mask: u8,
) -> StackState<Flat> {
    let state = store(state, bytes_before, number(0), size);
    has_cell(rt, alloc, &state, 63, Cell::Bytes(mask));
    state
}

#[test]
fn parts_keep_the_bytes_that_were_set(rt: HostRuntime) {
    let rt = &rt;
    let alloc = rt.alloc();
    part_is_kept(rt, alloc, number(5), 255);
    part_is_kept(rt, alloc, AbsVal::Stack(before(8)), 4);
    part_is_kept(rt, alloc, AbsVal::Context(Flat::One(0)), 4);
    let state = at_entry(rt, alloc);
    let state = zeros_are_stored(rt, alloc, state, 8, Size::Byte, 0x01);
    let state = zeros_are_stored(rt, alloc, state, 6, Size::HalfWord, 0x0d);
    let state = zeros_are_stored(rt, alloc, state, 4, Size::Word, 0xfd);
    let state = zeros_are_stored(rt, alloc, state, 7, Size::Byte, 0xff);
    is_found(rt, load(&state, 8, Size::DoubleWord), Ok(ANY));
    let whole = store(state, 8, number(9), Size::DoubleWord);
    has_cell(rt, alloc, &whole, 63, Cell::Kept(number(9)));
}

/// Checks the join of two stacks of which the last cell is known.
fn is_joined(rt: &impl Abort, alloc: Global, a: Cell<Flat>, b: Cell<Flat>, joined: Cell<Flat>) {
    let mut state = last_cell(rt, alloc, a);
    state.join(&last_cell(rt, alloc, b));
    has_cell(rt, alloc, &state, 63, joined);
}

/// Two cells, and what is known where either may be.
type Joined = (Cell<Flat>, Cell<Flat>, Cell<Flat>);

/// Checks the joins of cells.
fn are_joined(rt: &impl Abort, alloc: Global, rows: &[Joined]) {
    for row in rows {
        let (a, b, joined) = *row;
        is_joined(rt, alloc, a, b, joined);
        is_joined(rt, alloc, b, a, joined);
    }
}

/// A pointer to the last cell.
const LAST: Cell<Flat> = Cell::Kept(AbsVal::Stack(0xffff_ffff_ffff_fff8));

/// A pointer to the cell before it.
const BEFORE_IT: Cell<Flat> = Cell::Kept(AbsVal::Stack(0xffff_ffff_ffff_fff0));

/// Byte 4 of the context.
const BYTE_4: Cell<Flat> = Cell::Kept(AbsVal::Context(Flat::One(4)));

const START_OF_CONTEXT: Cell<Flat> = Cell::Kept(AbsVal::Context(Flat::One(0)));

const ANY_OF_CONTEXT: Cell<Flat> = Cell::Kept(AbsVal::Context(Flat::Any));

const FIVE: Cell<Flat> = Cell::Kept(AbsVal::Number(Flat::One(5)));

const SIX: Cell<Flat> = Cell::Kept(AbsVal::Number(Flat::One(6)));

/// No byte is set.
const NONE: Cell<Flat> = Cell::Bytes(0);

#[test]
fn cells_are_joined_by_kind(rt: HostRuntime) {
    let alloc = rt.alloc();
    are_joined(
        &rt,
        rt.alloc(),
        &[
            (Cell::Bytes(12), Cell::Bytes(10), Cell::Bytes(8)),
            (Cell::Bytes(12), FIVE, Cell::Bytes(12)),
            (Cell::Bytes(12), LAST, NONE),
            (Cell::Bytes(12), BYTE_4, NONE),
            (FIVE, FIVE, FIVE),
            (FIVE, SIX, Cell::Kept(ANY)),
            (FIVE, LAST, NONE),
            (FIVE, BYTE_4, NONE),
            (LAST, LAST, LAST),
            (LAST, BEFORE_IT, NONE),
            (LAST, BYTE_4, NONE),
            (BYTE_4, BYTE_4, BYTE_4),
            (BYTE_4, START_OF_CONTEXT, ANY_OF_CONTEXT),
        ],
    );
}

/// The join of two stacks.
fn joined(mut state: StackState<Flat>, other: &StackState<Flat>) -> StackState<Flat> {
    state.join(other);
    state
}

#[test]
fn stacks_are_joined_cell_by_cell(rt: HostRuntime) {
    let rt = &rt;
    let alloc = rt.alloc();
    let one = store(at_entry(rt, alloc), 8, number(1), Size::DoubleWord);
    let both = store(copy(rt, alloc, &one), 512, number(2), Size::Word);
    let state = joined(copy(rt, alloc, &both), &one);
    has_cell(rt, alloc, &state, 63, Cell::Kept(number(1)));
    has_cell(rt, alloc, &state, 0, Cell::Bytes(0));
    let again = joined(both, &store(one, 510, number(3), Size::HalfWord));
    has_cell(rt, alloc, &again, 0, Cell::Bytes(12));
    has_cell(rt, alloc, &again, 1, Cell::Bytes(0));
}

/// Checks whether each byte of a stretch is set.
fn stretch_is_set(rt: &impl Abort, state: &StackState<Flat>, place: u64, count: u64, wanted: bool)
    requires { place + count ≤ 512 }
{
    let found = state.stretch_is_set(place, count);
    same_at(rt, found, wanted, (&place, &count));
}

/// Checks the bytes around a stretch from place 6 to 18.
fn is_set_from_6_to_18(rt: &impl Abort, written: &StackState<Flat>) {
    stretch_is_set(rt, written, 6, 13, true);
    stretch_is_set(rt, written, 5, 1, false);
    stretch_is_set(rt, written, 5, 3, false);
    stretch_is_set(rt, written, 18, 1, true);
    stretch_is_set(rt, written, 18, 2, false);
    stretch_is_set(rt, written, 6, 0, true);
    stretch_is_set(rt, written, 5, 0, true);
    stretch_is_set(rt, written, 511, 1, false);
}

#[test]
fn stretches_cross_cells(rt: HostRuntime) {
    let rt = &rt;
    let alloc = rt.alloc();
    let state = store(at_entry(rt, alloc), 504, number(1), Size::DoubleWord);
    let mut written = copy(rt, alloc, &state);
    written.write_stretch(6, 13);
    has_cell(rt, alloc, &written, 0, Cell::Bytes(0xc0));
    has_cell(rt, alloc, &written, 1, Cell::Bytes(0xff));
    has_cell(rt, alloc, &written, 2, Cell::Bytes(0x07));
    is_set_from_6_to_18(rt, &written);
    stretch_is_set(rt, &state, 8, 8, true);
    let mut all = state;
    all.write_stretch(0, 512);
    stretch_is_set(rt, &all, 0, 512, true);
}
