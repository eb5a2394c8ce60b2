// The count of a float: the whole number nearest its exact value, from its bits, as document 01 has it, and so not by `round`.

#![tactic(auto)]

ghost use Rattle.std.specs.Prelude.{◌≡◌, ◌+◌, ◌/◌, ◌%◌, ◌^◌, ◌≤◌, ◌<◌, pos, nat_abs, T};
ghost use Rattle.std.specs.Float.{binary64};
ghost use Rattle.std.specs.Float.Ieee.{of_bits};
ghost use Rattle.limits.specs.Limits.{is_countable};
ghost use Rattle.count.specs.Count.{count};

const SIGN: u64 = 1 << 63;

const LEAD: u64 = 1 << 52;

// q / 2^(h + 1) to the nearest whole number, a half up.
fn halved(q: u64, h: u64) -> i64
    requires digits { q < 2 ^ 53 }
    requires shift { h < 64 }
    ensures { (result ≡ pos ((q / 2 ^ h + 1) / 2)) × (nat_abs result ≤ 2 ^ 52) }
{
    (((q >> h) + 1) / 2) as i64
}

// The 53 digits of the float with the bits b, the first of which no bit holds.
fn digits_of(b: u64) -> u64
    ensures { result ≡ 2 ^ 52 + b % 2 ^ 52 }
{
    LEAD + b % LEAD
}

// The places after the point of a float with this exponent, less one; 63 where that is more, which are enough for its 53 digits.
fn places_of(field: u64) -> u64
    requires { field < 1075 }
    ensures { (result < 64) × (1011 ≤ field → result + field ≡ 1074) × (field < 1011 → result ≡ 63) }
{
    (1074 - field).min(63)
}

// The float with the bits b, below 2^52 in size: the size is rounded, a half up, and gets the sign.
fn nearest_of_bits(b: u64) -> i64
    requires { b % 2 ^ 63 / 2 ^ 52 < 1075 }
    ensures { result ≡ count (of_bits binary64 b) }
{
    let h = places_of(b % SIGN / LEAD);
    let size = halved(digits_of(b), h);
    if b < SIGN { size } else { -size }
}

pub fn nearest_count(x: f64) -> i64
    requires { T (is_countable x) }
    ensures { result ≡ count x }
{
    nearest_of_bits(x.to_bits())
}
