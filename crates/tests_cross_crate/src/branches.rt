//! What conditional jumps tell of registers that hold ranges.
use crate::checks::same;
use abs_domain::{Bounds, Domain};
use abs_regs::{AbsVal, RegFile};
use bpf_profile::{Comparison, Operand, Register, Width};
use ranges::Range;
use std::process::Abort;

/// The bounds of R2, between two words before, where a comparison of it holds.
fn left(
    rt: &impl Abort,
    comparison: Comparison,
    width: Width,
    before: (u64, u64),
    right: &Operand,
) -> Bounds {
    let two = Register::new(2);
    let range = Range::constant(before.0).join(Range::constant(before.1));
    let mut registers = RegFile::entry().with(two, AbsVal::Number(range));
    registers
        .branch(comparison, width, true, two, right)
        .expect(rt, "numbers");
    registers.get(two).number().expect(rt, "a number").bounds()
}

/// A comparison of 32 bits takes as many bits of its immediate.
#[test]
fn halves_of_immediates_count(rt: HostRuntime) {
    let before = (0xffff_fff0, 0xffff_ffff);
    let immediate = Operand::Immediate(0xffff_ffff_ffff_fff8);
    let half = left(&rt, Comparison::Equal, Width::Bits32, before, &immediate);
    let (low, high) = (0xffff_fff8, 0xffff_fff8);
    same(&rt, half, Bounds { low, high });
}

/// A register with itself tells nothing.
#[test]
fn registers_tell_nothing_of_themselves(rt: HostRuntime) {
    let itself = Operand::Register(Register::new(2));
    let found = left(&rt, Comparison::Greater, Width::Bits64, (3, 9), &itself);
    same(&rt, found, Bounds { low: 3, high: 9 });
}
