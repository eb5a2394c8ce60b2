// Doodson numbers (001, note to Table 6.2; document 01, "Doodson numbers"): six multipliers in six decimal digits.

#![tactic(auto)]

ghost use Rattle.std.specs.Prelude.{◌≡◌, true, ◌+◌, ◌*◌, ◌≤◌, pos, nat_abs, ◌+ℤ◌, ◌-ℤ◌};
ghost use Rattle.doodson.specs.Doodson.{digit_in, multipliers_in, multipliers_written, first, other, writable, read_doodson, write_doodson};
ghost use Rattle.refusals.specs.Numbers.{tells};

use arguments::Multipliers;
use refusals::Refusal;

// A number's digit in a base, with k digits after it.
fn digit<const BASE: u32>(number: u32, k: u32) -> u32
    requires base { (2 ≤ BASE) × (BASE ≤ 16) }
    requires place { k ≤ 5 }
    ensures { (result ≡ digit_in BASE number k) × (result ≤ 15) }
{
    number / BASE.pow(k) % BASE
}

// The multiplier that a digit other than the first writes.
fn multiplier_of(digit: u32) -> i32
    requires { digit ≤ 15 }
    ensures { result ≡ pos digit -ℤ pos 5 }
{
    digit as i32 - 5
}

// The multipliers that a number's last six digits in a base write.
pub fn multipliers_written<const BASE: u32>(number: u32) -> Multipliers
    requires { (2 ≤ BASE) × (BASE ≤ 16) }
    ensures { result ≡ multipliers_written BASE number }
{
    Multipliers {
        tau: digit::<BASE>(number, 5) as i32,
        s: multiplier_of(digit::<BASE>(number, 4)),
        h: multiplier_of(digit::<BASE>(number, 3)),
        p: multiplier_of(digit::<BASE>(number, 2)),
        np: multiplier_of(digit::<BASE>(number, 1)),
        ps: multiplier_of(digit::<BASE>(number, 0)),
    }
}

// The multipliers in a number's last six digits.
pub fn multipliers_in(number: u32) -> Multipliers
    ensures { result ≡ multipliers_in number }
{
    multipliers_written::<10>(number)
}

// Given: a Doodson number.
// Answered: its six multipliers.
// Refused: 10, a number above 999,999.
#[tactic(auto, unfolding(crate::specs::Doodson::read_doodson))]
pub fn multipliers_of(number: u32) -> Result<Multipliers, Refusal>
    ensures { tells result ≡ read_doodson number }
{
    if limits::is_doodson(number) {
        Ok(multipliers_in(number))
    } else {
        Err(Refusal::NotDoodson)
    }
}

// Whether a first multiplier has a digit.
fn has_first_digit(n: i32) -> bool
    ensures { result ≡ first n }
{
    (0..=9).contains(&n)
}

// Whether another multiplier has one.
fn has_digit(n: i32) -> bool
    ensures { result ≡ other n }
{
    (-5..=4).contains(&n)
}

// Whether a number can write the multipliers.
fn is_writable(n: Multipliers) -> bool
    ensures { result ≡ writable n }
{
    has_first_digit(n.tau)
        & has_digit(n.s)
        & has_digit(n.h)
        & has_digit(n.p)
        & has_digit(n.np)
        & has_digit(n.ps)
}

// A number with the digit of one more multiplier after it.
fn appended(front: u32, n: i32) -> u32
    requires room { front ≤ 99999 }
    requires digit { other n ≡ true }
    ensures { (result ≡ front * 10 + nat_abs (n +ℤ pos 5)) × (result ≤ front * 10 + 9) }
{
    front * 10 + (n + 5) as u32
}

// Given: six multipliers.
// Answered: the Doodson number that writes them.
// Refused: 10, a first multiplier outside 0..9 or another outside -5..4.
#[tactic(auto, using(crate::proofs::Digits::writable_each, crate::proofs::Digits::first_small, crate::proofs::Digits::first_parts), unfolding(crate::specs::Doodson::write_doodson, crate::specs::Doodson::number_of))]
pub fn number_of(n: Multipliers) -> Result<u32, Refusal>
    ensures { tells result ≡ write_doodson n }
{
    if !is_writable(n) {
        return Err(Refusal::NotDoodson);
    }
    let two = appended(n.tau as u32, n.s);
    let three = appended(two, n.h);
    let four = appended(three, n.p);
    let five = appended(four, n.np);
    Ok(appended(five, n.ps))
}
