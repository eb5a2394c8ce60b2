// The header of a gravity field file (document 02, T-10), read from its text.

#![tactic(auto)]

ghost use Rattle.std.specs.Prelude.{◌≡◌, ◌≤◌, ◌<◌, true, length, option_copied, slice_get, IfSome, MatchOption};
ghost use Rattle.icgem_decimal.specs.Decimal.{is_whole};
ghost use Rattle.icgem_file.specs.File.{system_said};
ghost use Rattle.icgem_file.specs.Header.{keyed};
ghost use Rattle.icgem_words.specs.Words.{words, same_word};
ghost use Rattle.icgem_header.specs.Inner.{LineFound, LineSingle, EntryRead, RequiredRead, ConstantRead, ConstantTaken, NumbersRead, WordsRead, EntriesFound};
ghost use Rattle.icgem_header.specs.Read.{tells_system, HeaderRead};

use choices::PermanentSystem;
use icgem_decimal::{Decimal, WholeError};
use refusals::Refusal;

// A header that is not as it should be.
#[derive(Clone, Copy, Debug, PartialEq, Eq)]
pub struct Malformed;

impl From<Malformed> for Refusal {
    ghost use Rattle.std.specs.Prelude.{◌≡◌};
    ghost use Rattle.refusals.specs.declared.Refusal.TheVariants.{FileForm};

    ghost from_gives = { λ malformed why. why ≡ FileForm };

    fn from(_malformed: Malformed) -> Refusal {
        Refusal::FileForm
    }
}

// A text cut at a line: what stands before it, its bytes, and what stands after its end.
#[derive(Clone, Copy)]
struct Cut<'a> {
    before: &'a [u8],
    line: &'a [u8],
    after: &'a [u8],
}

// The entries whose values are numbers: the degree's word, m3/s2 and millimetres.
#[derive(Clone, Copy)]
struct Numbers<'a> {
    degree: &'a [u8],
    constant: u64,
    radius: u64,
}

// The lines of data, the degree's word, m3/s2, millimetres, and the system, where one of the three is named.
#[derive(Clone, Copy)]
pub struct Header<'a> {
    pub data: &'a [u8],
    pub degree: &'a [u8],
    pub constant: u64,
    pub radius: u64,
    pub system: Option<PermanentSystem>,
}

fn is_keyed(line: &[u8], key: &[u8]) -> bool
    ensures { result ≡ keyed key.now (words line.now) }
{
    // Most lines are shorter, or begin otherwise.
    if line.len() < key.len() {
        return false;
    }
    let from = icgem_words::run_end(line, 0, |b| !icgem_words::is_blank(b));
    line[from..].starts_with(key)
        && icgem_words::same_word(icgem_words::next_word(line, 0).of(line), key)
}

// The first line whose first word is the key.
fn find_line<'a>(text: &'a [u8], key: &[u8]) -> Option<Cut<'a>>
    requires { 0 < length key.now }
    ensures { LineFound key.now text.now result }
{
    let mut at = 0;
    // A step is a line, whose length is not known before.
    while at < text.len() {
        let end = icgem_words::line_end(text, at);
        let line = &text[at..end];
        let next = (end + 1).min(text.len());
        if is_keyed(line, key) {
            return Some(Cut {
                before: &text[..at],
                line,
                after: &text[next..],
            });
        }
        at = next;
    }
    None
}

// The same of a line that stands once at most.
fn single_line<'a>(text: &'a [u8], key: &[u8]) -> Result<Option<Cut<'a>>, Malformed>
    requires { 0 < length key.now }
    ensures { LineSingle key.now text.now result }
{
    let Some(cut) = find_line(text, key) else {
        return Ok(None);
    };
    match find_line(cut.after, key) {
        None => Ok(Some(cut)),
        Some(_) => Err(Malformed),
    }
}

fn second_word(line: &[u8]) -> Option<&[u8]>
    ensures word { option_copied result ≡ slice_get (words line.now) 1 }
    ensures short { IfSome result (λ word. length word.now ≤ length line.now) }
{
    let first = icgem_words::next_word(line, 0);
    let second = icgem_words::next_word(line, first.to);
    if second.is_empty() {
        None
    } else {
        Some(second.of(line))
    }
}

// The value of an entry that may stand once, with a value.
fn entry_of<'a>(entries: &'a [u8], key: &[u8]) -> Result<Option<&'a [u8]>, Malformed>
    requires { 0 < length key.now }
    ensures { EntryRead key.now entries.now result }
{
    let line = single_line(entries, key)?;
    match line {
        None => Ok(None),
        Some(cut) => Ok(Some(second_word(cut.line).ok_or(Malformed)?)),
    }
}

// The value of an entry that stands once.
fn required<'a>(entries: &'a [u8], key: &[u8]) -> Result<&'a [u8], Malformed>
    requires { 0 < length key.now }
    ensures { RequiredRead key.now entries.now result }
{
    entry_of(entries, key)?.ok_or(Malformed)
}

// The gravity constant's value: one of its two names is used.
fn constant_word(entries: &[u8]) -> Result<&[u8], Malformed>
    ensures { ConstantRead entries.now result }
{
    let long = entry_of(entries, b"earth_gravity_constant")?;
    let plain = entry_of(entries, b"gravity_constant")?;
    match (long, plain) {
        (Some(word), None) => Ok(word),
        (None, Some(word)) => Ok(word),
        _ => Err(Malformed),
    }
}

// A constant: -0 is taken too.
fn constant_of(word: &[u8], places: usize) -> Result<u64, Malformed>
    requires places_most { places ≤ 15 }
    requires word_most { length word.now ≤ 131072 }
    ensures { ConstantTaken places word.now result }
{
    let Decimal { negative, size } = icgem_decimal::in_units(word, places).ok_or(Malformed)?;
    let size = size.ok_or(Malformed)?;
    let below_zero = negative & (0 < size);
    if below_zero { Err(Malformed) } else { Ok(size) }
}

// One of any size.
fn is_whole(word: &[u8]) -> bool
    ensures { result ≡ is_whole word.now }
{
    !matches!(icgem_decimal::whole_number(word), Err(WholeError::NotWhole))
}

fn numbers_of(entries: &[u8]) -> Result<Numbers, Malformed>
    requires { length entries.now ≤ 131072 }
    ensures { NumbersRead entries.now result }
{
    let constant = constant_word(entries)?;
    let radius = required(entries, b"radius")?;
    let degree = required(entries, b"max_degree")?;
    if !is_whole(degree) {
        return Err(Malformed);
    }
    let constant = constant_of(constant, 0)?;
    let radius = constant_of(radius, 3)?;
    Ok(Numbers {
        degree,
        constant,
        radius,
    })
}

#[tactic(auto, unfolding(icgem_file::specs::File::system_said, icgem_names::specs::Names::system_name, text::specs::Text::ascii))]
fn system_of(word: &[u8]) -> Option<PermanentSystem>
    ensures { tells_system result ≡ system_said word.now }
{
    // A match on byte strings leaves a goal for each byte.
    if icgem_words::same_word(word, b"tide_free") {
        Some(PermanentSystem::TideFree)
    } else if icgem_words::same_word(word, b"zero_tide") {
        Some(PermanentSystem::Zero)
    } else if icgem_words::same_word(word, b"mean_tide") {
        Some(PermanentSystem::Mean)
    } else {
        None
    }
}

// Whether an entry's value is a word, where the entry is there.
fn may_be(value: Option<&[u8]>, word: &[u8]) -> bool
    ensures { MatchOption value.entry (result ≡ true) (λ value. result ≡ same_word value.now word.now) }
{
    value.is_none_or(|value| icgem_words::same_word(value, word))
}

// The system that is named, where the entries whose values are words are as they should be.
fn system_in(entries: &[u8]) -> Result<Option<PermanentSystem>, Malformed>
    ensures { WordsRead entries.now result }
{
    let product = required(entries, b"product_type")?;
    entry_of(entries, b"modelname")?;
    entry_of(entries, b"errors")?;
    let norm = entry_of(entries, b"norm")?;
    let system = entry_of(entries, b"tide_system")?;
    if icgem_words::same_word(product, b"gravity_field") && may_be(norm, b"fully_normalized") {
        Ok(system.and_then(system_of))
    } else {
        Err(Malformed)
    }
}

// The entries begin after begin_of_head, or with the head where it has no such line.
fn entries_in(head: &[u8]) -> Result<&[u8], Malformed>
    ensures { EntriesFound head.now result }
{
    let begin = single_line(head, b"begin_of_head")?;
    match begin {
        None => Ok(head),
        Some(cut) => Ok(cut.after),
    }
}

// Given: the text of a file, of 128 KiB at most.
// Answered: where its data begin, and what its entries say, where its header is as it should be.
pub fn header_of(text: &[u8]) -> Result<Header, Malformed>
    requires { length text.now ≤ 131072 }
    ensures { HeaderRead text.now result }
{
    let end = find_line(text, b"end_of_head").ok_or(Malformed)?;
    let entries = entries_in(end.before)?;
    let system = system_in(entries)?;
    let Numbers {
        degree,
        constant,
        radius,
    } = numbers_of(entries)?;
    Ok(Header {
        data: end.after,
        degree,
        constant,
        radius,
        system,
    })
}
