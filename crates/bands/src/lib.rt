// A line of a band (001, eqs. 5; document 01, "Step two"; document 02, T-01 and T-02): what it adds to C20, C21, S21, C22 and S22, its amplitudes and its
// waves being given, and the five corrections that lines add up to.

#![tactic(auto)]

ghost use Rattle.std.specs.Prelude.{◌≡◌, ◌+ℤ◌, ◌*ℤ◌};
ghost use Rattle.bands.specs.Bands.{plus_line};
ghost use Rattle.bands.specs.Inner.{Room, LineRoom, Bounded, rounded_of};

#[derive(Clone, Copy, Debug, PartialEq, Eq)]
pub enum Band {
    Diurnal,
    LongPeriod,
    Semidiurnal,
}

// Its in-phase and its out-of-phase amplitude are in counts.
#[derive(Clone, Copy, Debug, PartialEq, Eq)]
pub struct Line {
    pub band: Band,
    pub ip: i64,
    pub op: i64,
}

// Amplitudes times waves, added up over lines: counts times 2^30.
#[derive(Clone, Copy, Debug, PartialEq, Eq)]
pub struct Sums {
    pub c20: i64,
    pub c21: i64,
    pub s21: i64,
    pub c22: i64,
    pub s22: i64,
}

// The sums of no lines.
pub const NOTHING: Sums = Sums {
    c20: 0,
    c21: 0,
    s21: 0,
    c22: 0,
    s22: 0,
};

// The five corrections, in counts. One type for sums and corrections would be no plainer: a call could then take sums, of another unit, for corrections.
#[derive(Clone, Copy, Debug, PartialEq, Eq)]
pub struct Corrections {
    pub c20: i64,
    pub c21: i64,
    pub s21: i64,
    pub c22: i64,
    pub s22: i64,
}

// A sum and a*cosine + b*sine.
fn plus_wave(sum: i64, a: i64, cosine: i64, b: i64, sine: i64) -> i64
    requires { Room sum a cosine b sine }
    ensures { result ≡ sum +ℤ (a *ℤ cosine +ℤ b *ℤ sine) }
{
    sum + (a * cosine + b * sine)
}

// The five sums with a line's terms added.
pub fn with_line(sums: Sums, line: Line, cosine: i64, sine: i64) -> Sums
    requires { LineRoom sums line cosine sine }
    ensures { result ≡ plus_line sums line cosine sine }
{
    let ip = line.ip;
    let op = line.op;
    let minus_ip = -ip;
    let minus_op = -op;
    let band = line.band;
    let mut next = sums;
    match band {
        Band::Diurnal => {
            next.c21 = plus_wave(sums.c21, op, cosine, ip, sine);
            next.s21 = plus_wave(sums.s21, ip, cosine, minus_op, sine);
        }
        Band::LongPeriod => {
            next.c20 = plus_wave(sums.c20, ip, cosine, minus_op, sine);
        }
        Band::Semidiurnal => {
            next.c22 = plus_wave(sums.c22, ip, cosine, minus_op, sine);
            next.s22 = plus_wave(sums.s22, minus_op, cosine, minus_ip, sine);
        }
    }
    next
}

// Each correction is the nearest of its sum.
pub fn rounded_of(sums: Sums) -> Corrections
    requires { Bounded sums }
    ensures { result ≡ rounded_of sums }
{
    Corrections {
        c20: whole::nearest_of(sums.c20, 1073741824),
        c21: whole::nearest_of(sums.c21, 1073741824),
        s21: whole::nearest_of(sums.s21, 1073741824),
        c22: whole::nearest_of(sums.c22, 1073741824),
        s22: whole::nearest_of(sums.s22, 1073741824),
    }
}
