//! Greatest common divisors and least common multiples.
ghost use Rattle.std.specs.Prelude.{◌≤◌, ◌<◌, ◌^◌};
ghost use Rattle.std.specs.Int.{IsGcd};
ghost use Rattle.rate_scale.specs.Multiples.{IsLcm};

/// The greatest common divisor, by Euclid's algorithm.
pub fn gcd(a: u128, b: u128) -> u128
    ensures { IsGcd a b result }
{
    let mut x = a;
    let mut y = b;
    while y != 0 {
        let rest = x % y;
        x = y;
        y = rest;
    }
    x
}

/// The least common multiple of a scale and one more period.
pub fn lcm(scale: u128, period: u128) -> u128
    requires some_scale { 1 ≤ scale }
    requires scale_fits { scale ≤ 2 ^ 94 }
    requires some_period { 1 ≤ period }
    requires period_fits { period < 2 ^ 32 }
    ensures value { IsLcm scale period result }
    ensures some { 1 ≤ result }
{
    scale / gcd(scale, period) * period
}
