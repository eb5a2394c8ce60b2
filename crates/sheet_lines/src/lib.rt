// The lines and the rows of a model sheet, tested (document 01, refusal 8).

#![tactic(auto)]

ghost use Rattle.std.specs.Prelude.{◌≡◌, ◌<◌};
ghost use Rattle.whole.specs.Sum.{weight_to, all_to};
ghost use Rattle.sheet.specs.Sheet.{line_count, tide_count, admittance};
ghost use Rattle.sheet.specs.Accepted.{line_valid, row_valid};

use sheet::Sheet;

// Every multiplier of every line, in one pass over their bytes.
// Speed: one flag in place of `all`, which would leave the loop early: without a branch the compiler tests several bytes at a time.
pub fn are_lines(sheet: &Sheet<'_>) -> bool
    ensures { result ≡ all_to (line_valid sheet.now.bytes.now) (line_count sheet.now.bytes.now) }
{
    let mut good = true;
    for i in 0..6 * sheet.layout.lines {
        good &= limits::is_multiplier(words::signed_byte_at(sheet.bytes, 2 + i));
    }
    good
}

// The absolute admittances of row k, added up: fewer than 2^16 times 2^31.
fn row_total(sheet: &Sheet<'_>, k: usize) -> u64
    requires { k < tide_count sheet.now.bytes.now }
    ensures { result ≡ weight_to (admittance sheet.now.bytes.now k) (line_count sheet.now.bytes.now) }
{
    let at = sheet.row_start(k);
    let mut sum = 0;
    for f in 0..sheet.layout.lines {
        sum += u64::from(words::size_at(sheet.bytes, at + 4 * f));
    }
    sum
}

pub fn are_rows(sheet: &Sheet<'_>) -> bool
    ensures { result ≡ all_to (row_valid sheet.now.bytes.now) (tide_count sheet.now.bytes.now) }
{
    let mut good = true;
    for k in 0..sheet.layout.tides {
        good &= limits::is_row_total(row_total(sheet, k));
    }
    good
}
