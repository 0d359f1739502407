//! Sums as far as 64 bits go.
ghost use Rattle.std.specs.Prelude.{◌≡◌, ◌-◌, ◌^◌, min};

/// A number, as far as 64 bits go.
pub(crate) fn in_64_bits(number: u128) -> u64
    ensures { result ≡ min number (2 ^ 64 - 1) }
{
    number.min(0xFFFF_FFFF_FFFF_FFFF) as u64
}
