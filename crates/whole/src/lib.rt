// Whole numbers: the one rounding, and the laws of signed sums that everything above cites.

#![tactic(auto)]

ghost use Rattle.std.specs.Prelude.{◌≡◌, ◌+◌, ◌/◌, ◌^◌, ◌<◌, nat_abs};
ghost use Rattle.whole.specs.Nearest.{nearest};

// a / n to the nearest whole number, a half up.
fn half_up(a: u64, n: u64) -> u64
    requires { (0 < n) × (a + n < 2 ^ 63) }
    ensures { result ≡ (a + n / 2) / n }
{
    (a + n / 2) / n
}

// The whole number nearest x / n, a half away from zero: the size is rounded, a half up, and has the sign of x.
pub fn nearest_of(x: i64, n: u64) -> i64
    requires { (0 < n) × (nat_abs x + n < 2 ^ 63) }
    ensures { result ≡ nearest x n }
{
    let size = half_up(x.unsigned_abs(), n) as i64;
    if x < 0 { -size } else { size }
}
