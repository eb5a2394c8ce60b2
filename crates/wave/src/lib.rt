// The sine and the cosine of a phase, a turn being 2^32, in units of 2^-30 (01, "Phase, sine and cosine").

#![tactic(auto)]

ghost use Rattle.std.specs.Prelude.{◌≡◌, ◌+◌, ◌*◌, ◌/◌, ◌^◌, ◌≤◌, slice_index, EachIndex};
ghost use Rattle.wave.specs.Wave.{angle, square, step, steps, sine_divisors, cosine_divisors, sin, cos};

// An eighth of a turn, 2^29.
const EIGHTH: u32 = 536870912;

// 1 and a half in units of 2^-32, in which the angle and its square are.
const ONE: u64 = 4294967296;

const HALF: u64 = 2147483648;

// What the steps of the sine and of the cosine divide by, one after the other.
const SINE_DIVISORS: [u64; 5] = [110, 72, 42, 20, 6];

const COSINE_DIVISORS: [u64; 6] = [132, 90, 56, 30, 12, 2];

// The sine and the cosine of one phase.
#[derive(Clone, Copy, Debug, PartialEq, Eq)]
pub struct Wave {
    pub sine: i64,
    pub cosine: i64,
}

// x, the angle in units of 2^-32.
fn angle_of(a: u32) -> u64
    requires { a ≤ 2 ^ 29 }
    ensures { (result ≡ angle a) × (result ≤ 7 * 2 ^ 29) }
{
    (a as u64 * 13493037705 + 1073741824) / 2147483648
}

// y, its square.
fn square_of(x: u64) -> u64
    requires { x ≤ 7 * 2 ^ 29 }
    ensures { (result ≡ square x) × (result ≤ 7 * 2 ^ 29) }
{
    (x * x + HALF) / ONE
}

// h, one step on.
fn step_of(y: u64, h: u64, d: u64) -> u64
    requires { (y ≤ 7 * 2 ^ 29) × (h ≤ 2 ^ 32) × (1 ≤ d) × (d ≤ 132) }
    ensures { (result ≡ step y h d) × (result ≤ 2 ^ 32) }
{
    ONE - (y * h + HALF * d) / (ONE * d)
}

// h, from 1 on, after a step for each divisor.
fn steps_of(y: u64, divisors: &[u64]) -> u64
    requires small { y ≤ 7 * 2 ^ 29 }
    requires divisors { EachIndex divisors.now (λ k. (1 ≤ slice_index divisors.now k) × (slice_index divisors.now k ≤ 132)) }
    ensures { (result ≡ steps y (2 ^ 32) divisors.now) × (result ≤ 2 ^ 32) }
{
    let mut h = ONE;
    for d in divisors {
        h = step_of(y, h, *d);
    }
    h
}

// S(a), from the angle's x and y.
fn eighth_sine_of(x: u64, y: u64) -> u32
    requires { (x ≤ 7 * 2 ^ 29) × (y ≤ 7 * 2 ^ 29) }
    ensures { (result ≡ ((x * steps y (2 ^ 32) sine_divisors + 2 ^ 31) / 2 ^ 32 + 2) / 4) × (result ≤ 2 ^ 30) }
{
    let g = (x * steps_of(y, &SINE_DIVISORS) + HALF) / ONE;
    ((g + 2) / 4) as u32
}

// C(a), from the angle's y.
fn eighth_cosine_of(y: u64) -> u32
    requires { y ≤ 7 * 2 ^ 29 }
    ensures { (result ≡ (steps y (2 ^ 32) cosine_divisors + 2) / 4) × (result ≤ 2 ^ 30) }
{
    ((steps_of(y, &COSINE_DIVISORS) + 2) / 4) as u32
}

// The sine and the cosine of a phase, laid out as 01 has them: the eighth e and the rest b, the fold, S(a) and C(a), and what each eighth makes of them.
// The cosine is the sine two eighths further on, where a is the same.
pub fn wave_of(phase: u32) -> Wave
    ensures { (result.sine ≡ sin phase) × (result.cosine ≡ cos phase) }
{
    let e = phase / EIGHTH;
    let b = phase % EIGHTH;
    let a = if e % 2 == 0 { b } else { EIGHTH - b };
    let x = angle_of(a);
    let y = square_of(x);
    let s = eighth_sine_of(x, y) as i64;
    let c = eighth_cosine_of(y) as i64;
    let (sine, cosine) = match e {
        0 => (s, c),
        1 => (c, s),
        2 => (c, -s),
        3 => (s, -c),
        4 => (-s, -c),
        5 => (-c, -s),
        6 => (-c, s),
        7.. => (-s, c),
    };
    Wave { sine, cosine }
}
