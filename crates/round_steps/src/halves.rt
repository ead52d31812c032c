//! Ticks as two numbers of 64 bits, for those who have no number of 128.
ghost use Rattle.std.specs.Prelude.{◌≡◌, ◌*◌, ◌+◌, ◌^◌};

/// A number of ticks: `high` times 2^64, and `low`.
#[repr(C)]
#[derive(Clone, Copy, Debug, PartialEq, Eq)]
pub struct Halves {
    pub high: u64,
    pub low: u64,
}

/// The halves of a number.
pub fn halves_of(ticks: u128) -> Halves
    ensures { ticks ≡ result.high * 2 ^ 64 + result.low }
{
    Halves {
        high: (ticks / 18_446_744_073_709_551_616) as u64,
        low: (ticks % 18_446_744_073_709_551_616) as u64,
    }
}
