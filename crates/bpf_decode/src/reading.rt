//! Bytes read as slots, and the first fault of the slots.
ghost use Rattle.std.specs.Prelude.{◌≡◌, ◌≤◌, ◌/◌, ◌<◌, ◌+◌, [], length, slice_get, IfSome, IfOk, IfErr, OnOk, false};
ghost use Rattle.std.specs.Vec.{vec_capacity};
ghost use Rattle.bpf_profile.specs.Limits.{most_slots};
ghost use Rattle.bpf_profile.specs.Slots.{instruction_of};
ghost use Rattle.bpf_profile.specs.Spelling.{is_wide};
ghost use Rattle.bpf_profile.specs.SpellingFaults.{is_bad_length, slot_at, slots_at, fault_from};
ghost use Rattle.bpf_decode.specs.Faults.{found_fault};
ghost use Rattle.bpf_decode.specs.Kept.{AreInstructions};

use crate::error::DecodeError;
use bpf_profile::{Instruction, MOST_SLOTS, Slot};
use byteorder::{ByteOrder, LittleEndian};
use refusals::RefusalNumber;
use std::alloc::{AllocError, Global};

/// How many bytes a slot has.
pub(crate) const SLOT_BYTES: usize = 8;

/// The opcode of a wide immediate (RFC 9669, section 5.4).
const WIDE_IMMEDIATE: u8 = 0x18;

/// Whether a length in bytes is 0, no multiple of eight, or more than 4,096 slots.
pub(crate) fn has_bad_length(count: usize) -> bool
    ensures { result ≡ is_bad_length count }
{
    count == 0 || count % SLOT_BYTES != 0 || count > SLOT_BYTES * MOST_SLOTS
}

/// The slot that eight bytes are read as (RFC 9669, sections 3.1 and 3.2).
fn slot_at(bytes: &[u8; SLOT_BYTES]) -> Slot
    ensures { result ≡ slot_at bytes.now }
{
    let [op, registers, ..] = *bytes;
    let off = LittleEndian::read_u16(&bytes[2..]);
    let imm = LittleEndian::read_u32(&bytes[4..]);
    if op == 0 && registers == 0 && off == 0 {
        return Slot::Tail { imm };
    }
    Slot::Ins {
        op,
        dst: registers % 16,
        src: registers / 16,
        off,
        imm,
    }
}

/// The slots of a byte sequence, eight bytes each. Bytes after the last whole slot are ignored.
pub(crate) fn slots_of(alloc: Global, bytes: &[u8]) -> Result<Vec<Slot>, AllocError>
    ensures { IfOk result (λ v. v.items ≡ slots_at (length bytes.now / 8) bytes.now) }
{
    let (chunks, _) = bytes.as_chunks::<SLOT_BYTES>();
    let mut slots = Vec::with_capacity(alloc, chunks.len())?;
    for chunk in chunks {
        slots.push_reserved(slot_at(chunk));
    }
    Ok(slots)
}

/// Whether the slot is the first of a wide immediate.
fn begins_wide(slot: Slot) -> bool
    ensures { result ≡ is_wide slot }
{
    matches!(
        slot,
        Slot::Ins {
            op: WIDE_IMMEDIATE,
            ..
        }
    )
}

/// The instruction at an index, or the fault of the slot there.
pub(crate) fn instruction_at(slots: &[Slot], place: usize) -> Result<Instruction, RefusalNumber>
    requires { place < length slots.now }
    ensures { IfSome (slice_get slots.now place) (λ slot. result ≡ instruction_of slot (slice_get slots.now (place + 1))) }
{
    let next = slots.get(place + 1).copied();
    slots[place].instruction(next)
}

/// Reads the slots, up to the first fault, which is answered with its index. The second slot of a wide
/// immediate isn't looked at again: a first slot with no tail behind it is a fault.
pub(crate) fn read_slots(
    slots: &[Slot],
    instructions: &mut Vec<Option<Instruction>>,
) -> Result<(), DecodeError>
    requires few { length slots.now ≤ most_slots }
    requires empty { instructions.old.items ≡ [] }
    requires room { length slots.now ≤ vec_capacity instructions.old }
    ensures fault { found_fault result ≡ fault_from 0 false slots.now }
    ensures slot { IfErr result (λ e. e.slot < most_slots) }
    ensures read { OnOk result (AreInstructions slots.now instructions.new.items) }
{
    let mut is_second = false;
    for (place, slot) in slots.iter().enumerate() {
        if is_second {
            is_second = false;
            instructions.push_reserved(None);
            continue;
        }
        match instruction_at(slots, place) {
            Ok(instruction) => instructions.push_reserved(Some(instruction)),
            Err(number) => {
                return Err(DecodeError {
                    slot: place as u32,
                    number,
                });
            }
        }
        is_second = begins_wide(*slot);
    }
    Ok(())
}
