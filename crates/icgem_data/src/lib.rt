// The coefficient lines of a gravity field file (document 02, T-10), read in one pass.

#![tactic(auto)]

ghost use Rattle.std.specs.Prelude.{◌≡◌, true, false, ◌&&◌, ◌^◌, ◌≤◌, ◌<◌, ltb, length, drop, set};
ghost use Rattle.whole.specs.Nearest.{signed};
ghost use Rattle.field.specs.Field.{place};
ghost use Rattle.icgem_decimal.specs.Decimal.{is_whole, value_of};
ghost use Rattle.icgem_names.specs.Names.{gfc};
ghost use Rattle.icgem_words.specs.Inner.{part};
ghost use Rattle.icgem_words.specs.Words.{words, same_word};
ghost use Rattle.icgem_data.specs.Inner.{FiveWords, CountTaken, PlaceTaken, NumbersTaken, paired, LineTaken, LineKept, LinesRead};

use icgem_decimal::{Decimal, WholeError};
use icgem_words::Span;

// The size of the largest entry.
const LARGEST: u64 = 1 << 60;

// How many entries a list of degree 60 has.
const ENTRIES: usize = 1891;

// The first five words of a line.
#[derive(Clone, Copy)]
struct Five {
    key: Span,
    degree: Span,
    order: Span,
    c: Span,
    s: Span,
}

fn five_words(line: &[u8]) -> Five
    ensures { FiveWords line.now result.key.from result.key.to result.degree.from result.degree.to result.order.from result.order.to result.c.from result.c.to result.s.from result.s.to }
{
    let key = icgem_words::next_word(line, 0);
    let degree = icgem_words::next_word(line, key.to);
    let order = icgem_words::next_word(line, degree.to);
    let c = icgem_words::next_word(line, order.to);
    let s = icgem_words::next_word(line, c.to);
    Five {
        key,
        degree,
        order,
        c,
        s,
    }
}

#[tactic(auto, unfolding(whole::specs::Nearest::signed))]
fn with_sign(negative: bool, size: u64) -> i64
    requires { size ≤ 2 ^ 60 }
    ensures { result ≡ signed negative size }
{
    let count = size as i64;
    if negative { -count } else { count }
}

// A decimal's count, where it is an entry.
fn count_of(decimal: Decimal) -> Option<i64>
    ensures { CountTaken decimal result }
{
    match decimal.size {
        Some(size) if size <= LARGEST => Some(with_sign(decimal.negative, size)),
        _ => None,
    }
}

// The place of a degree and an order in a field's lists.
#[tactic(auto, unfolding(field::specs::Field::place))]
fn index_of(degree: usize, order: usize) -> usize
    requires degree_bound { degree ≤ 60 }
    requires order_le_degree { order ≤ degree }
    ensures { result ≡ place degree order }
{
    degree * (degree + 1) / 2 + order
}

// The place of a degree and an order, past every list where the degree is above 60; none where they are no numbers, the order is
// above the degree, or the degree above the file's.
fn place_of(degree: &[u8], order: &[u8], most: &[u8]) -> Option<usize>
    requires { is_whole most.now ≡ true }
    ensures { PlaceTaken degree.now order.now most.now result }
{
    let n = icgem_decimal::whole_number(degree);
    let m = icgem_decimal::whole_number(order);
    if matches!(n, Err(WholeError::NotWhole)) || matches!(m, Err(WholeError::NotWhole)) {
        return None;
    }
    if icgem_decimal::at_most(order, degree) && icgem_decimal::at_most(degree, most) {
        match (n, m) {
            (Ok(n), Ok(m)) if n <= 60 => Some(index_of(n as usize, m as usize)),
            _ => Some(ENTRIES),
        }
    } else {
        None
    }
}

// A coefficient line: the place of its counts, and they, where both are entries.
#[derive(Clone, Copy, Debug, PartialEq, Eq)]
pub struct Coefficients {
    pub place: usize,
    pub counts: Option<(i64, i64)>,
}

fn numbers_of(degree: &[u8], order: &[u8], c: &[u8], s: &[u8], most: &[u8]) -> Option<Coefficients>
    requires c_len_bound { length c.now ≤ 131072 }
    requires s_len_bound { length s.now ≤ 131072 }
    requires most_value { is_whole most.now ≡ true }
    ensures { NumbersTaken degree.now order.now c.now s.now most.now result }
{
    let place = place_of(degree, order, most)?;
    let c = icgem_decimal::in_units(c, 15)?;
    let s = icgem_decimal::in_units(s, 15)?;
    Some(Coefficients {
        place,
        counts: count_of(c).zip(count_of(s)),
    })
}

// Whether a line's first word is "gfc" and 0, 2 or 4 error columns stand behind its fifth.
fn is_headed(line: &[u8], key: Span, after: usize) -> bool
    requires to_in_bounds { key.to ≤ length line.now }
    requires after_in_bounds { after ≤ length line.now }
    ensures { result ≡ (same_word (part key.from key.to line.now) gfc && paired (length (words (drop after line.now)))) }
{
    icgem_words::same_word(key.of(line), b"gfc")
        && matches!(icgem_words::count_words(line, after), 0 | 2 | 4)
}

// None where the line is no coefficient line of a file of this degree.
pub fn line_of(line: &[u8], degree: &[u8]) -> Option<Coefficients>
    requires line_len_bound { length line.now ≤ 131072 }
    requires degree_value { is_whole degree.now ≡ true }
    ensures { LineTaken (value_of degree.now) line.now result }
{
    let w = five_words(line);
    if is_headed(line, w.key, w.s.to) {
        numbers_of(
            w.degree.of(line),
            w.order.of(line),
            w.c.of(line),
            w.s.of(line),
            degree,
        )
    } else {
        None
    }
}

// Sets an entry; one past the list's end is none. Tried: `get_mut`; the proof did not close, since nothing ties the list behind the call to the entry.
fn store(list: &mut [i64], at: usize, value: i64)
    ensures { list.new ≡ set list.old at value }
{
    if at < list.len() {
        list[at] = value;
    }
}

// The lines of a pass: how many they are, and whether all their counts are entries.
#[derive(Clone, Copy, Debug, PartialEq, Eq)]
pub struct Lines {
    pub inside: bool,
    pub count: usize,
}

// One line more, which starts at a place of its text. The lists go one by one, as read_lines is lent them.
fn keep_line(
    line: &[u8],
    at: usize,
    degree: &[u8],
    before: Lines,
    starts: &mut [u32],
    c: &mut [i64],
    s: &mut [i64],
) -> Option<Lines>
    requires line_len_bound_1 { length line.now ≤ 131072 }
    requires line_len_bound_2 { at ≤ 131072 }
    requires line_len_bound_3 { is_whole degree.now ≡ true }
    requires count_in_bounds_1 { before.count < length starts.old }
    requires count_in_bounds_2 { length c.old ≤ 1891 }
    requires count_in_bounds_3 { length s.old ≤ 1891 }
    ensures { LineKept (value_of degree.now) line.now at before starts.old c.old s.old result starts.new c.new s.new }
{
    let kept = line_of(line, degree)?;
    starts[before.count] = at as u32;
    let count = before.count + 1;
    match kept.counts {
        Some((x, y)) if before.inside => {
            store(c, kept.place, x);
            store(s, kept.place, y);
            Some(Lines {
                inside: true,
                count,
            })
        }
        _ => Some(Lines {
            inside: false,
            count,
        }),
    }
}

// Reads the coefficient lines from a place on: where each starts, and its counts into the two lists of a field. None where a line with
// a word is no coefficient line. A formed line has five words, the first of three bytes, and a line end, so eight bytes.
pub fn read_lines(
    text: &[u8],
    from: usize,
    degree: &[u8],
    starts: &mut [u32],
    c: &mut [i64],
    s: &mut [i64],
) -> Option<Lines>
    requires text_len_bound_1 { length text.now ≤ 131072 }
    requires text_len_bound_2 { from ≤ length text.now }
    requires text_len_bound_3 { is_whole degree.now ≡ true }
    requires in_bounds_1 { 16384 ≤ length starts.old }
    requires in_bounds_2 { length c.old ≤ 1891 }
    requires in_bounds_3 { length s.old ≤ 1891 }
    ensures { LinesRead text.now from (value_of degree.now) starts.old c.old s.old result starts.new c.new s.new }
{
    let mut lines = Lines {
        inside: true,
        count: 0,
    };
    let mut at = from;
    // A line's end gives the next one's place, and `split` gives no places.
    while at < text.len() {
        let start = at;
        let end = icgem_words::line_end(text, at);
        let line = &text[start..end];
        at = end + 1;
        if icgem_words::next_word(line, 0).is_empty() {
            continue;
        }
        lines = keep_line(line, start, degree, lines, starts, c, s)?;
    }
    Some(lines)
}
