//! Byte orders, and moves with sign extension.
use crate::programs::{EDGES, both_give, joined, patterned, slot, wide};
use bpf_profile::{ByteOrder, Size, Width};
use bpf_words::{converted, moved_signed};
use std::alloc::Global;
use std::process::Abort;

/// Words of which each byte differs.
const MIXED: [u64; 2] = [0x0102_0384_8586_8788, 0xf1e2_d3c4_b5a6_9788];

/// Checks what both machines make of a word by an operation, where `load` is the register that has it first.
fn gives(rt: &impl Abort, alloc: Global, load: u8, word: u64, operation: [u8; 8], given: u64) {
    let first = joined(rt, alloc, &[&wide(load, word), &operation]);
    both_give(rt, alloc, &first, 2, &patterned(rt), given);
}

/// Sizes with their bits.
const SIZES: [(u32, Size); 3] = [
    (16, Size::HalfWord),
    (32, Size::Word),
    (64, Size::DoubleWord),
];

/// Checks a byte order of this opcode at each size.
fn converts(rt: &impl Abort, alloc: Global, opcode: u8, order: ByteOrder) {
    for (bits, size) in &SIZES {
        let operation = slot(opcode, 1, 0, *bits);
        for word in &MIXED {
            let result = converted(order, *size, *word);
            gives(rt, alloc, 1, *word, operation, result);
        }
    }
}

#[test]
fn byte_orders(rt: HostRuntime) {
    converts(&rt, rt.alloc(), 0xd4, ByteOrder::Little);
    converts(&rt, rt.alloc(), 0xdc, ByteOrder::Big);
    converts(&rt, rt.alloc(), 0xd7, ByteOrder::Swap);
}

/// The opcode of a move of R2 to R1, its offset, its width and its size.
type Moved = (u8, u8, Width, Size);

/// Checks moves of each of the edges.
fn are_moved(rt: &impl Abort, alloc: Global, rows: &[Moved]) {
    for row in rows {
        let (opcode, bits, width, size) = *row;
        let operation = slot(opcode, 0x21, bits, 0);
        for word in &EDGES {
            let result = moved_signed(width, size, *word);
            gives(rt, alloc, 2, *word, operation, result);
        }
    }
}

#[test]
fn moves_with_sign_extension(rt: HostRuntime) {
    are_moved(
        &rt,
        rt.alloc(),
        &[
            (0xbf, 8, Width::Bits64, Size::Byte),
            (0xbf, 16, Width::Bits64, Size::HalfWord),
            (0xbf, 32, Width::Bits64, Size::Word),
            (0xbc, 8, Width::Bits32, Size::Byte),
            (0xbc, 16, Width::Bits32, Size::HalfWord),
        ],
    );
}

#[test]
fn wide_immediates_and_copied_pointers(rt: HostRuntime) {
    let alloc = rt.alloc();
    let outcome = patterned(&rt);
    for word in &EDGES {
        both_give(&rt, alloc, &wide(1, *word), 1, &outcome, *word);
    }
    // mov r6, r1 / mov r7, r10 / ldxb r1, [r6+1]: a copy of the context's pointer is one.
    let first = [
        slot(0xbf, 0x16, 0, 0),
        slot(0xbf, 0xa7, 0, 0),
        slot(0x71, 0x61, 1, 0),
    ];
    both_give(&rt, alloc, first.as_flattened(), 3, &outcome, 37);
}
