// The bounds of documents 01 and 02, each named once: a test of a number. A direction's tolerance and a digit's range stand with their rules.
// Each has a function of its own: a generic one would be handed the same number at every call, and would be no plainer.

#![tactic(auto)]

ghost use Rattle.std.specs.Prelude.{◌≡◌};
ghost use Rattle.limits.specs.Limits.{is_degree, is_entry, is_distance, is_ratio, is_countable, is_doodson, is_line_count, is_tide_count, is_place_count, is_multiplier, is_row_total, is_sheet_degree, is_coefficient, is_record_count, is_first_multiplier, is_amplitude, is_selection, is_pole_offset};

const LEAST_DEGREE: u32 = 4;

const LARGEST_DEGREE: u32 = 60;

const LARGEST_ENTRY: i64 = 1 << 60;

// In metres.
const LEAST_DISTANCE: f64 = 100000000.0;

const LARGEST_DISTANCE: f64 = 1000000000000.0;

const LARGEST_RATIO: f64 = 1000000.0;

// 2^52
const COUNTABLE: f64 = 4503599627370496.0;

const LARGEST_DOODSON: u32 = 999999;

// The lines, tides and places that a sheet has at most.
const LINES: usize = 128;

const TIDES: usize = 32;

const PLACES: usize = 90;

const LARGEST_MULTIPLIER: u32 = 13;

// In millionths.
const LARGEST_ROW_TOTAL: u64 = 4000000;

const LARGEST_SHEET_DEGREE: usize = 12;

const LARGEST_COEFFICIENT: u64 = 1 << 24;

// The records that a list of own lines has at most.
const RECORDS: usize = 64;

const LARGEST_FIRST_MULTIPLIER: i32 = 2;

// In tenths of 10^-12.
const LARGEST_AMPLITUDE: u64 = 100000;

// The first bit of a selection that stands for no line.
const BIT_49: u64 = 1 << 49;

// In micro-arcseconds.
const LARGEST_POLE_OFFSET: u64 = 1000000;

pub fn is_degree(n: u32) -> bool
    ensures { result ≡ is_degree n }
{
    (LEAST_DEGREE..=LARGEST_DEGREE).contains(&n)
}

// By the range and not by the size, which takes half as long again where a field's entries are tested one by one.
pub fn is_entry(z: i64) -> bool
    ensures { result ≡ is_entry z }
{
    (-LARGEST_ENTRY..=LARGEST_ENTRY).contains(&z)
}

pub fn is_distance(r: f64) -> bool
    ensures { result ≡ is_distance r }
{
    (LEAST_DISTANCE..=LARGEST_DISTANCE).contains(&r)
}

// No range of std leaves its start out.
pub fn is_ratio(x: f64) -> bool
    ensures { result ≡ is_ratio x }
{
    (0.0 < x) & (x <= LARGEST_RATIO)
}

// No NaN is. No range of std leaves its start out.
pub fn is_countable(x: f64) -> bool
    ensures { result ≡ is_countable x }
{
    (-COUNTABLE < x) & (x < COUNTABLE)
}

pub fn is_doodson(number: u32) -> bool
    ensures { result ≡ is_doodson number }
{
    number <= LARGEST_DOODSON
}

pub fn is_line_count(n: usize) -> bool
    ensures { result ≡ is_line_count n }
{
    (1..=LINES).contains(&n)
}

pub fn is_tide_count(n: usize) -> bool
    ensures { result ≡ is_tide_count n }
{
    (1..=TIDES).contains(&n)
}

pub fn is_place_count(n: usize) -> bool
    ensures { result ≡ is_place_count n }
{
    n <= PLACES
}

pub fn is_multiplier(k: i32) -> bool
    ensures { result ≡ is_multiplier k }
{
    k.unsigned_abs() <= LARGEST_MULTIPLIER
}

pub fn is_row_total(w: u64) -> bool
    ensures { result ≡ is_row_total w }
{
    w <= LARGEST_ROW_TOTAL
}

pub fn is_sheet_degree(n: usize) -> bool
    ensures { result ≡ is_sheet_degree n }
{
    (1..=LARGEST_SHEET_DEGREE).contains(&n)
}

pub fn is_coefficient(z: i64) -> bool
    ensures { result ≡ is_coefficient z }
{
    z.unsigned_abs() <= LARGEST_COEFFICIENT
}

pub fn is_record_count(n: usize) -> bool
    ensures { result ≡ is_record_count n }
{
    n <= RECORDS
}

pub fn is_first_multiplier(k: i32) -> bool
    ensures { result ≡ is_first_multiplier k }
{
    (0..=LARGEST_FIRST_MULTIPLIER).contains(&k)
}

pub fn is_amplitude(a: i64) -> bool
    ensures { result ≡ is_amplitude a }
{
    a.unsigned_abs() <= LARGEST_AMPLITUDE
}

pub fn is_selection(selection: u64) -> bool
    ensures { result ≡ is_selection selection }
{
    selection < BIT_49
}

pub fn is_pole_offset(offset: i64) -> bool
    ensures { result ≡ is_pole_offset offset }
{
    offset.unsigned_abs() <= LARGEST_POLE_OFFSET
}
