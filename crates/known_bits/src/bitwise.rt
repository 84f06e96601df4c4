//! Words as sets of bits.
ghost use Rattle.std.specs.Prelude.{◌≡◌};
ghost use Rattle.known_bits.specs.KnownBitsTable.{without};

/// The ones of the first that are 0 in the second.
pub(crate) fn without(a: u64, b: u64) -> u64
    ensures { result ≡ without a b }
{
    a & !b
}
