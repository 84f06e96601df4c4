//! Loads from the contexts of both layouts, of every size and with both extensions.
use crate::programs::{both_give_in, patterned, slot};
use bpf_profile::{Extension, Layout, Size};
use bpf_words::extended;
use helpers::Record;
use std::alloc::Global;
use std::process::Abort;

/// Each load: its opcode, its size, and what it fills the register with.
pub(crate) const LOADS: [(u8, Size, Extension); 7] = [
    (0x71, Size::Byte, Extension::Zero),
    (0x69, Size::HalfWord, Extension::Zero),
    (0x61, Size::Word, Extension::Zero),
    (0x79, Size::DoubleWord, Extension::Zero),
    (0x91, Size::Byte, Extension::Sign),
    (0x89, Size::HalfWord, Extension::Sign),
    (0x81, Size::Word, Extension::Sign),
];

/// The number that stands at a place of the patterned outcome's context.
pub(crate) fn number_at(place: u64, size: Size) -> u64 {
    let mut number = 0u64;
    for k in 0..size.bytes() {
        let byte = place.wrapping_add(k).wrapping_mul(37) % 256;
        number |= byte << (k * 8);
    }
    number
}

/// Checks the loads of an opcode at every place of a context.
fn are_loaded(
    rt: &impl Abort,
    alloc: Global,
    layout: Layout,
    outcome: &Record,
    opcode: u8,
    size: Size,
    extension: Extension,
) {
    for offset in 0..192u8 {
        let place = u64::from(offset);
        if place < layout.context_size() && place % size.bytes() == 0 {
            let result = extended(extension, size, number_at(place, size));
            let load = slot(opcode, 0x11, offset, 0);
            both_give_in(rt, alloc, &load, 1, layout, outcome, result);
        }
    }
}

/// Checks every load at every place of a context.
fn all_are_loaded(rt: &impl Abort, alloc: Global, layout: Layout) {
    let outcome = patterned(rt);
    for (opcode, size, extension) in &LOADS {
        are_loaded(rt, alloc, layout, &outcome, *opcode, *size, *extension);
    }
}

#[test]
fn loads_at_every_place(rt: HostRuntime) {
    all_are_loaded(&rt, rt.alloc(), Layout::One);
}

#[test]
fn loads_at_every_place_of_the_longer_context(rt: HostRuntime) {
    all_are_loaded(&rt, rt.alloc(), Layout::Two);
}
