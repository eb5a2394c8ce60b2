// The 49 printed lines (001, Tables 6.2; document 01, "Step two"): diurnal, long period, semidiurnal.

#![tactic(auto)]

ghost use Rattle.std.specs.Prelude.{◌≡◌, ◌≤◌, ◌<◌, nat_abs};
ghost use Rattle.refusals.specs.Numbers.{tells};
ghost use Rattle.lines.specs.Lines.{line_at, band_at, in_model, multipliers_at, printed_line, find_line};
ghost use Rattle.lines.specs.Inner.{number_in, row_of};

use arguments::Multipliers;
use bands::{Band, Line};
use choices::LoveModel;
use refusals::Refusal;

// The printed lines by three lists, and not by one of rows, so that step two's loops over all lines have each amplitude as a constant: of rows (tried) the
// compiler loads them, and the loops take a third longer.

// Doodson numbers, a decimal digit written as a hexadecimal one, so that reading a digit takes no division: with decimal numbers an hour takes a quarter
// longer to set.
static DIGITS: [u32; 49] = [
    0x135645, 0x135655, 0x137455, 0x145545, 0x145555, 0x153655, 0x155455, 0x155655, 0x155665,
    0x157455, 0x162556, 0x163545, 0x163555, 0x164556, 0x165545, 0x165555, 0x165565, 0x165575,
    0x166554, 0x167555, 0x173655, 0x175455, 0x175465, 0x183555, 0x185555, 0x185565, 0x055565,
    0x055575, 0x056554, 0x057555, 0x057565, 0x058554, 0x063655, 0x065445, 0x065455, 0x065465,
    0x065655, 0x073555, 0x075355, 0x075555, 0x075565, 0x075575, 0x083655, 0x085455, 0x085465,
    0x093555, 0x095355, 0x245655, 0x255555,
];

// The two amplitudes, in tenths of 10^-12: elastic and anelastic, ip and op, a semidiurnal one twice.
static FIRST: [i16; 49] = [
    -1, -7, -1, -12, -66, 1, 4, 13, 2, 3, -19, 5, -433, 20, -88, 4720, 683, -16, -208, -50, -5,
    -21, -4, -2, -7, -4, 166, -1, -12, -55, 1, -3, -3, 1, -12, 1, 1, 0, 0, 6, 2, 0, 1, 4, 2, 1, 1,
    -3, -12,
];

static SECOND: [i16; 49] = [
    -1, -7, -1, -13, -67, 1, 4, 13, 3, 3, -19, 5, -432, 20, -88, 4710, 682, -16, -204, -50, -5,
    -21, -4, -2, -6, -4, -67, 1, 8, 43, -1, 2, 7, -2, 37, -2, -2, 6, 3, 63, 26, 2, 2, 11, 5, 2, 1,
    -3, -12,
];

// The row of printed line i.
pub fn row(i: usize) -> (u32, i16, i16)
    requires { i < 49 }
    ensures { result ≡ row_of (line_at i) }
{
    (DIGITS[i], FIRST[i], SECOND[i])
}

// The number that the digits write.
fn number_in(digits: u32) -> u32
    ensures { result ≡ number_in digits }
{
    digits / 1048576 % 16 * 100000
        + digits / 65536 % 16 * 10000
        + digits / 4096 % 16 * 1000
        + digits / 256 % 16 * 100
        + digits / 16 % 16 * 10
        + digits % 16
}

// The multipliers of printed line i.
pub fn multipliers_at(i: usize) -> Multipliers
    requires { i < 49 }
    ensures { result ≡ multipliers_at i }
{
    doodson::multipliers_written::<16>(row(i).0)
}

// The band of a line, by its index.
fn band_at(i: usize) -> Band
    ensures { result ≡ band_at i }
{
    match i {
        0..26 => Band::Diurnal,
        26..47 => Band::LongPeriod,
        47.. => Band::Semidiurnal,
    }
}

// A line of a band in a Love model, from its two printed amplitudes: in counts, a and b.
fn line_in(band: Band, love: LoveModel, first: i64, second: i64) -> Line
    requires { (nat_abs first ≤ 4720) × (nat_abs second ≤ 4720) }
    ensures { result ≡ in_model band love first second }
{
    let a = first * 100;
    let b = second * 100;
    let (ip, op) = match (band, love) {
        (Band::Diurnal, LoveModel::Elastic) => (a, 0),
        (Band::Diurnal, LoveModel::Anelastic) => (b, 0),
        (Band::LongPeriod, LoveModel::Elastic) => (0, 0),
        (Band::LongPeriod, LoveModel::Anelastic) => (a, b),
        (Band::Semidiurnal, _) => (a, 0),
    };
    Line { band, ip, op }
}

// Printed line i in a Love model.
pub fn printed_line(love: LoveModel, i: usize) -> Line
    requires { i < 49 }
    ensures { result ≡ printed_line love i }
{
    let (_, first, second) = row(i);
    line_in(band_at(i), love, i64::from(first), i64::from(second))
}

// A printed line's index, 0..48, and its two amplitudes.
#[derive(Clone, Copy, Debug, PartialEq, Eq)]
pub struct Found {
    pub index: usize,
    pub first: i64,
    pub second: i64,
}

// Given: a Doodson number.
// Answered: the printed line that has it.
// Refused: 10, a number above 999,999; 11, no printed line has it.
pub fn find_line(number: u32) -> Result<Found, Refusal>
    ensures { tells result ≡ find_line number }
{
    if !limits::is_doodson(number) {
        return Err(Refusal::NotDoodson);
    }
    for index in 0..49 {
        let (digits, first, second) = row(index);
        if number_in(digits) == number {
            return Ok(Found {
                index,
                first: i64::from(first),
                second: i64::from(second),
            });
        }
    }
    Err(Refusal::NoSuchLine)
}
