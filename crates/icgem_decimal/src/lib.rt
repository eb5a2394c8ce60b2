// Whole numbers and decimals of a gravity field file, taken exactly.

#![tactic(auto)]

ghost use Rattle.std.specs.Prelude.{◌≡◌, ◌+◌, ◌-◌, ◌*◌, ◌^◌, ◌<◌, ◌≤◌, ℕ, min, true, false, ◌++◌, [], length, take, ◌==◌, ◌||◌, nat_le, slice_index, is_some, IfSome};
ghost use Rattle.std.specs.Ordering.{nat_cmp};
ghost use Rattle.icgem_decimal.specs.Decimal.{is_letter, is_dot, all_digits, is_whole, is_minus, unsigned, is_exponent, is_mantissa, mantissa, value_of, Held, WholeTaken, Taken};
ghost use Rattle.icgem_decimal.specs.Inner.{rounded, half, before, after, in_places, padded, Parted};

use std::cmp::Ordering;

// Why a word has no whole number that fits.
#[derive(Clone, Copy, Debug, PartialEq, Eq)]
pub enum WholeError {
    NotWhole,
    // 2^64 or more.
    TooLarge,
}

// A decimal in whole units, with no size where that is 2^64 or more.
#[derive(Clone, Copy, Debug, PartialEq, Eq)]
pub struct Decimal {
    pub negative: bool,
    pub size: Option<u64>,
}

fn all_digits(text: &[u8]) -> bool
    ensures { result ≡ all_digits text.now }
{
    text.iter().all(|b| b.is_ascii_digit())
}

// Whether two texts, one after the other, are digits and nothing else, one at least.
fn is_whole(a: &[u8], b: &[u8]) -> bool
    ensures { result ≡ is_whole (a.now ++ b.now) }
{
    0 < a.len() + b.len() && all_digits(a) && all_digits(b)
}

// Times 10^k. 10^20 is past 2^64, so that twenty turns are enough for every number.
fn raised(n: u64, k: usize) -> Option<u64>
    ensures { Held result (n * 10 ^ k) }
{
    let mut product = n;
    for _ in 0..k.min(20) {
        product = product.checked_mul(10)?;
    }
    Some(product)
}

// The digits of two texts, one after the other: those before a dot and those behind it.
#[derive(Clone, Copy)]
struct Numeral<'a> {
    whole: &'a [u8],
    fraction: &'a [u8],
    ghost are_digits: { all_digits (whole.now ++ fraction.now) ≡ true },
}

impl<'a> Numeral<'a> {
    // None where there is no digit, or anything else.
    fn of(whole: &'a [u8], fraction: &'a [u8]) -> Option<Self>
        ensures whole { is_whole (whole.now ++ fraction.now) ≡ is_some result }
        ensures parts { IfSome result (λ d. (d.whole.now ≡ whole.now) × (d.fraction.now ≡ fraction.now)) }
    {
        if is_whole(whole, fraction) {
            Some(Self { whole, fraction })
        } else {
            None
        }
    }

    fn len(self) -> usize
        ensures { result ≡ length self.entry.whole.now + length self.entry.fraction.now }
    {
        self.whole.len() + self.fraction.len()
    }

    fn byte_at(self, i: usize) -> u8
        requires { i < length self.whole.now + length self.fraction.now }
        ensures value { result ≡ slice_index (self.entry.whole.now ++ self.entry.fraction.now) i }
        ensures digit { (48 ≤ result) × (result ≤ 57) }
    {
        if i < self.whole.len() {
            self.whole[i]
        } else {
            self.fraction[i - self.whole.len()]
        }
    }

    // The number of the first digits, by their places, since they lie in two texts.
    fn first(self, count: usize) -> Option<u64>
        requires { count ≤ length self.whole.now + length self.fraction.now }
        ensures { Held result (value_of (take count (self.entry.whole.now ++ self.entry.fraction.now))) }
    {
        let mut n: u64 = 0;
        for i in 0..count {
            n = n
                .checked_mul(10)?
                .checked_add(u64::from(self.byte_at(i) - b'0'))?;
        }
        Some(n)
    }

    // The number of the first digits, and one more where the digit after them is 5 or more.
    fn cut(self, count: usize) -> Option<u64>
        requires { count < length self.whole.now + length self.fraction.now }
        ensures { Held result (value_of (take count (self.entry.whole.now ++ self.entry.fraction.now)) + half (slice_index (self.entry.whole.now ++ self.entry.fraction.now) count)) }
    {
        self.first(count)?
            .checked_add(u64::from(b'5' <= self.byte_at(count)))
    }

    // Times 10^up over 10^down, rounded.
    fn scaled(self, up: usize, down: usize) -> Option<u64>
        ensures { Held result (rounded (value_of (self.entry.whole.now ++ self.entry.fraction.now) * 10 ^ up) (10 ^ down)) }
    {
        if down <= up {
            return raised(self.first(self.len())?, up - down);
        }
        match self.len().checked_sub(down - up) {
            Some(count) => self.cut(count),
            None => Some(0),
        }
    }

    // In units of 10^-places, with an exponent. One of a million or more decides alone, there being fewer digits.
    fn in_places(self, exponent: Exponent, places: usize) -> Option<u64>
        requires len_bound { length self.whole.now + length self.fraction.now ≤ 131072 }
        requires places_bound { places ≤ 15 }
        ensures { (size : ℕ) → exponent.size ≡ min size 1000000
            → Held result (in_places places self.entry.whole.now self.entry.fraction.now exponent.negative size) }
    {
        let dropped = self.fraction.len();
        if exponent.negative {
            self.scaled(places, dropped + exponent.size)
        } else {
            self.scaled(places + exponent.size, dropped)
        }
    }

    // The number, or a million where it is more.
    fn capped(self) -> usize
        ensures { result ≡ min (value_of (self.entry.whole.now ++ self.entry.fraction.now)) 1000000 }
    {
        let mut n: usize = 0;
        for i in 0..self.len() {
            n = (10 * n + usize::from(self.byte_at(i) - b'0')).min(1000000);
        }
        n
    }
}

// A word's whole number: digits and nothing else.
pub fn whole_number(word: &[u8]) -> Result<u64, WholeError>
    ensures { WholeTaken word.now result }
{
    let numeral = Numeral::of(&[], word).ok_or(WholeError::NotWhole)?;
    numeral.first(numeral.len()).ok_or(WholeError::TooLarge)
}

fn is_letter(b: u8) -> bool
    ensures { result ≡ is_letter b }
{
    matches!(b, b'E' | b'e' | b'D' | b'd')
}

fn is_dot(b: u8) -> bool
    ensures { result ≡ is_dot b }
{
    b == b'.'
}

// What stands before the first byte that parts a text, and what stands behind it.
fn parted<F: Fn(u8) -> bool>(text: &[u8], parts: F) -> (&[u8], Option<&[u8]>)
    requires { F.IsAlwaysCallable parts }
    ensures { Parted (F.post parts) text.now result.0.now result.1 }
{
    let end = icgem_words::run_end(text, 0, parts);
    if end < text.len() {
        (&text[..end], Some(&text[end + 1..]))
    } else {
        (text, None)
    }
}

fn is_minus(text: &[u8]) -> bool
    ensures { result ≡ is_minus text.now }
{
    text.first() == Some(&b'-')
}

fn is_sign(b: u8) -> bool
    ensures { result ≡ (b == 43 || b == 45) }
{
    matches!(b, b'+' | b'-')
}

fn without_sign(text: &[u8]) -> &[u8]
    ensures { result.now ≡ unsigned text.now }
{
    match text {
        [sign, rest @ ..] if is_sign(*sign) => rest,
        _ => text,
    }
}

// Ten's power, its size a million where it is more.
#[derive(Clone, Copy)]
struct Exponent {
    negative: bool,
    size: usize,
    ghost capped: { size ≤ 1000000 },
}

// What stands behind a word's letter, where that is a whole number after its sign, or zero where there is no letter.
fn exponent_of(word: &[u8]) -> Option<Exponent>
    ensures exponent { is_exponent word.now ≡ is_some result }
    ensures parts { IfSome result (λ e. (e.negative ≡ is_minus (after is_letter word.now)) × (e.size ≡ min (value_of (unsigned (after is_letter word.now))) 1000000)) }
{
    let Some(text) = parted(word, is_letter).1 else {
        return Some(Exponent {
            negative: false,
            size: 0,
        });
    };
    let numeral = Numeral::of(&[], without_sign(text))?;
    Some(Exponent {
        negative: is_minus(text),
        size: numeral.capped(),
    })
}

// The digits before a word's letter, with a dot or none among them.
fn numeral_of(word: &[u8]) -> Option<Numeral<'_>>
    ensures mantissa { is_mantissa word.now ≡ is_some result }
    ensures parts { IfSome result (λ d. (d.whole.now ≡ before is_dot (mantissa word.now)) × (d.fraction.now ≡ after is_dot (mantissa word.now))) }
{
    let (whole, fraction) = parted(without_sign(parted(word, is_letter).0), is_dot);
    Numeral::of(whole, fraction.unwrap_or(&[]))
}

// A word's decimal in units of 10^-places, rounded once.
pub fn in_units(word: &[u8], places: usize) -> Option<Decimal>
    requires places_bound { places ≤ 15 }
    requires word_len_bound { length word.now ≤ 131072 }
    ensures { Taken places word.now result }
{
    let numeral = numeral_of(word)?;
    let exponent = exponent_of(word)?;
    Some(Decimal {
        negative: is_minus(word),
        size: numeral.in_places(exponent, places),
    })
}

// A digit of a text that zeros before it make n digits long.
fn padded_at(text: &[u8], n: usize, i: usize) -> u8
    requires text_len_bound { length text.now ≤ n }
    requires i_lt_n { i < n }
    ensures { result ≡ slice_index (padded n text.now) i }
{
    let zeros = n - text.len();
    if i < zeros { b'0' } else { text[i - zeros] }
}

// The order of two whole numbers of any length: the first digit that differs decides.
pub fn compare(a: &[u8], b: &[u8]) -> Ordering
    requires a_value { is_whole a.now ≡ true }
    requires b_value { is_whole b.now ≡ true }
    ensures { result ≡ nat_cmp (value_of a.now) (value_of b.now) }
{
    let n = a.len().max(b.len());
    for i in 0..n {
        let order = padded_at(a, n, i).cmp(&padded_at(b, n, i));
        if order.is_ne() {
            return order;
        }
    }
    Ordering::Equal
}

pub fn at_most(a: &[u8], b: &[u8]) -> bool
    requires a_value { is_whole a.now ≡ true }
    requires b_value { is_whole b.now ≡ true }
    ensures { result ≡ nat_le (value_of a.now) (value_of b.now) }
{
    compare(a, b).is_le()
}

pub fn same_number(a: &[u8], b: &[u8]) -> bool
    requires a_value { is_whole a.now ≡ true }
    requires b_value { is_whole b.now ≡ true }
    ensures { result ≡ (value_of a.now == value_of b.now) }
{
    compare(a, b).is_eq()
}
