// A gravity field file read (document 02, T-10): from lent bytes into two lent lists.

#![tactic(auto)]

ghost use Rattle.std.specs.Prelude.{◌≡◌, ◌≤◌, true, length};
ghost use Rattle.icgem_decimal.specs.Decimal.{is_whole, value_of};
ghost use Rattle.icgem_file.specs.File.{file_head, read_file};
ghost use Rattle.icgem_words.specs.Words.{worded};
ghost use Rattle.refusals.specs.Numbers.{tells};
ghost use Rattle.icgem_read.specs.Inner.{DegreeRead, DataRead, FilePassed};
ghost use Rattle.icgem_read.specs.Told.{Reads};

use icgem_file::FileHead;
use refusals::Refusal;

// 128 KiB
const LONGEST: usize = 131072;

// The entries of a field of degree 60.
const ENTRIES: usize = 1891;

// The coefficient lines that a file has at most, of eight bytes each.
const LINES: usize = 16384;

// The degree that a word writes, where it is one of a field.
fn degree_of(word: &[u8]) -> Option<u32>
    requires { is_whole word.now ≡ true }
    ensures { DegreeRead (value_of word.now) result }
{
    let number = icgem_decimal::whole_number(word).ok()?;
    let degree = u32::try_from(number).ok()?;
    limits::is_degree(degree).then_some(degree)
}

// The degree, and the coefficient lines' counts in two lists: 17, 18, 19.
fn read_data(
    text: &[u8],
    degree: &[u8],
    c: &mut [i64; ENTRIES],
    s: &mut [i64; ENTRIES],
) -> Result<u32, Refusal>
    requires text_short { length text.now ≤ 131072 }
    requires degree_whole { is_whole degree.now ≡ true }
    ensures { DataRead (value_of degree.now) (worded text.now) c.old s.old result c.new s.new }
{
    let mut starts = [0u32; LINES];
    let mut spare = [0u32; LINES];
    let lines = icgem_data::read_lines(text, 0, degree, &mut starts, c, s).ok_or(
        Refusal::FileForm,
    )?;
    if icgem_repeats::repeats(text, &mut starts[..lines.count], &mut spare) {
        return Err(Refusal::TwinPlaces);
    }
    let degree = degree_of(degree).ok_or(Refusal::FileRange)?;
    if lines.inside {
        Ok(degree)
    } else {
        Err(Refusal::FileRange)
    }
}

// Goes through a file, and puts its counts into two lists.
fn pass(text: &[u8], c: &mut [i64; ENTRIES], s: &mut [i64; ENTRIES]) -> Result<FileHead, Refusal>
    ensures { FilePassed text.now c.old s.old result c.new s.new }
{
    if LONGEST < text.len() {
        return Err(Refusal::FileForm);
    }
    let header = icgem_header::header_of(text)?;
    let degree = read_data(header.data, header.degree, c, s)?;
    let system = header.system.ok_or(Refusal::NoSuchSystem)?;
    Ok(FileHead {
        degree,
        constant: header.constant,
        radius: header.radius,
        system,
    })
}

// Given: the bytes of a file.
// Answered: its degree, gravity constant, radius and permanent system.
// Refused: 17, then 18, then 19, then 20, each looking at the whole file.
pub fn file_head(text: &[u8]) -> Result<FileHead, Refusal>
    ensures { tells result ≡ file_head text.now }
{
    let mut c = [0i64; ENTRIES];
    let mut s = [0i64; ENTRIES];
    pass(text, &mut c, &mut s)
}

// Given: the bytes of a file, and two lists.
// Done: every entry of both lists is set from the file, zero where it has no line.
// Answered: its degree, gravity constant, radius and permanent system.
// Refused: as file_head, then 1, lists that do not fit the file's degree.
pub fn read_field(text: &[u8], c: &mut [i64], s: &mut [i64]) -> Result<FileHead, Refusal>
    ensures { Reads (read_file text.now c.old s.old) (tells result) c.new s.new }
{
    let mut new_c = [0i64; ENTRIES];
    let mut new_s = [0i64; ENTRIES];
    let head = pass(text, &mut new_c, &mut new_s)?;
    field::shape_tested(head.degree, c.len(), s.len())?;
    c.copy_from_slice(&new_c[..c.len()]);
    s.copy_from_slice(&new_s[..s.len()]);
    Ok(head)
}
