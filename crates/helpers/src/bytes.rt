//! Byte buffers.
ghost use Rattle.std.specs.Prelude.{◌≡◌, ◌≤◌, ◌<◌, ◌^◌, length};
ghost use Rattle.std.specs.List.{AllByRecursion};
ghost use Rattle.bpf_profile.specs.Outcomes.{AreBytes};
ghost use Rattle.helpers.specs.Padded.{padded};

/// Writes bytes at a buffer's start and fills the rest with zeros.
pub fn write_padded(bytes: &[u8], room: &mut [u8])
    requires { length bytes.now ≤ length room.old }
    ensures { room.new ≡ padded (length room.old) bytes.now }
{
    let (front, rest) = room.split_at_mut(bytes.len());
    front.copy_from_slice(bytes);
    rest.fill(0);
}

/// Tells a proof that each of these bytes is below 2^8, as their type says. It does nothing else.
pub fn show_bytes(bytes: &[u8])
    ensures { AreBytes bytes.now }
{}

/// Tells a proof that each of these words is below 2^64, as their type says. It does nothing else.
pub fn show_words(words: &[u64])
    ensures { AllByRecursion (λ word. word < 2 ^ 64) words.now }
{}
