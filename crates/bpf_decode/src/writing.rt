//! Slots as bytes.
ghost use Rattle.std.specs.Prelude.{◌≡◌};
ghost use Rattle.bpf_profile.specs.Spelling.{slot_bytes, IsSlot};

use crate::reading::SLOT_BYTES;
use bpf_profile::Slot;
use byteorder::{ByteOrder, LittleEndian};

/// The eight bytes of a slot (RFC 9669, sections 3.1 and 3.2).
pub(crate) fn slot_bytes(slot: Slot) -> [u8; SLOT_BYTES]
    requires { IsSlot slot }
    ensures { result ≡ slot_bytes slot }
{
    let mut bytes = [0u8; SLOT_BYTES];
    match slot {
        Slot::Ins {
            op,
            dst,
            src,
            off,
            imm,
        } => {
            bytes[0] = op;
            bytes[1] = dst + 16 * src;
            LittleEndian::write_u16(&mut bytes[2..], off);
            LittleEndian::write_u32(&mut bytes[4..], imm);
        }
        Slot::Tail { imm } => LittleEndian::write_u32(&mut bytes[4..], imm),
    }
    bytes
}
