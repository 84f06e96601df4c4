//! Bytes written in hexadecimal.
ghost use Rattle.std.specs.Prelude.{◌≡◌, length, Some, None, MatchOption};
ghost use Rattle.texts.specs.Outcomes.{hex_bytes};
ghost use Rattle.helpers.specs.Padded.{padded};

/// Decodes hexadecimal into a buffer and fills the rest of it with zeros. Returns the number of bytes
/// decoded; None where the text has an odd length, a character that is no digit, or more bytes than the
/// buffer, whose content is then unspecified.
pub fn read_padded(text: &str, room: &mut [u8]) -> Option<usize>
    ensures { MatchOption (hex_bytes (length room.old) text.now)
        (result ≡ None)
        (λ bytes. (result ≡ Some (length bytes)) × (room.new ≡ padded (length room.old) bytes)) }
{
    let count = text.len() / 2;
    if count > room.len() {
        return None;
    }
    room.fill(0);
    match hex::decode_to_slice(text, &mut room[..count]) {
        Ok(()) => Some(count),
        Err(_) => None,
    }
}
