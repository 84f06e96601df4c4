//! Names of services.
ghost use Rattle.std.specs.Prelude.{◌≡◌};
ghost use Rattle.std.specs.List.{list_all};
ghost use Rattle.service_file.specs.Files.{is_name_byte, is_name, is_count};

use service_profile::Range;

/// How many services a file may have, how many workers, and how many bytes a name.
pub const COUNTS: Range = Range { least: 1, most: 64 };

/// Whether it is a small letter, a digit, a hyphen or an underscore.
fn is_name_byte(byte: u8) -> bool
    ensures { result ≡ is_name_byte byte }
{
    matches!(byte, b'a'..=b'z' | b'0'..=b'9' | b'-' | b'_')
}

/// Whether each byte may stand in a name.
fn are_name_bytes(bytes: &[u8]) -> bool
    ensures { result ≡ list_all is_name_byte bytes.now }
{
    bytes.iter().all(|byte| is_name_byte(*byte))
}

/// Whether a service may have this name: 1 to 64 small letters, digits, hyphens and underscores.
pub(crate) fn is_name(name: &str) -> bool
    ensures { result ≡ is_name name.now }
{
    let bytes = name.as_bytes();
    is_count(bytes.len() as u64) && are_name_bytes(bytes)
}

/// Whether it is 1 to 64.
pub(crate) fn is_count(count: u64) -> bool
    ensures { result ≡ is_count count }
{
    COUNTS.contains(count)
}
