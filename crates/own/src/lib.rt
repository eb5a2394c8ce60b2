// Tide lines of an operator's own (document 02, T-01): a lent list of records, tested one by one, and the five sums that they add up to.

#![tactic(auto)]

ghost use Rattle.std.specs.Prelude.{◌≡◌, true};
ghost use Rattle.bands.specs.Inner.{Bounded};
ghost use Rattle.own.specs.Own.{band_of, in_range, line_of};
ghost use Rattle.own.specs.Inner.{with_record, Totals};

use arguments::{Multipliers, Phases};
use bands::{Band, Line, Sums};
use refusals::Refusal;

// A line as an operator lends it: its six multipliers and its two amplitudes, in tenths of 10^-12. C passes it as it stands.
#[repr(C)]
#[derive(Clone, Copy, Debug, PartialEq, Eq)]
pub struct OwnLine {
    pub multipliers: Multipliers,
    pub ip: i64,
    pub op: i64,
}

// The band that the first multiplier names.
fn band_of(tau: i32) -> Band
    ensures { result ≡ band_of tau }
{
    match tau {
        0 => Band::LongPeriod,
        1 => Band::Diurnal,
        _ => Band::Semidiurnal,
    }
}

// Whether a record's values are in range.
fn is_in_range(line: OwnLine) -> bool
    ensures { result ≡ in_range line }
{
    let m = line.multipliers;
    limits::is_first_multiplier(m.tau)
        & limits::is_multiplier(m.s)
        & limits::is_multiplier(m.h)
        & limits::is_multiplier(m.p)
        & limits::is_multiplier(m.np)
        & limits::is_multiplier(m.ps)
        & limits::is_amplitude(line.ip)
        & limits::is_amplitude(line.op)
}

// A record as a line of its band, in counts.
fn line_of(line: OwnLine) -> Line
    requires { in_range line ≡ true }
    ensures { result ≡ line_of line }
{
    let ip = line.ip * 100;
    let op = line.op * 100;
    Line {
        band: band_of(line.multipliers.tau),
        ip,
        op,
    }
}

// Sums with one record more. Refused: 13, a value out of range.
fn with_record(sums: Sums, line: OwnLine, phases: Phases) -> Result<Sums, Refusal>
    requires { Bounded sums }
    ensures { result ≡ with_record phases sums line }
{
    if !is_in_range(line) {
        return Err(Refusal::RecordValue);
    }
    let wave = wave::wave_of(arguments::phase_of(line.multipliers, phases));
    Ok(bands::with_line(sums, line_of(line), wave.cosine, wave.sine))
}

// The records of a list added up, whole, at six phases. Refused: 12, more than 64 records; 13, a value out of range.
pub fn sums_of(lines: &[OwnLine], phases: Phases) -> Result<Sums, Refusal>
    ensures { Totals phases lines.now result }
{
    if !limits::is_record_count(lines.len()) {
        return Err(Refusal::RecordCount);
    }
    let mut sums = bands::NOTHING;
    for line in lines {
        sums = with_record(sums, *line, phases)?;
    }
    Ok(sums)
}
