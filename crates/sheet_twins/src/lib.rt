// Twin lines of a model sheet (document 02, T-09, refusal 16): two lines with the same six multipliers.
// A line in range is one number, its key, so that two lines are compared at once.

#![tactic(auto)]

ghost use Rattle.std.specs.Prelude.{true, not, ◌≡◌, ◌+◌, ◌≤◌, ◌<◌, nat_abs, length};
ghost use Rattle.whole.specs.Sum.{all_to};
ghost use Rattle.sheet.specs.Sheet.{line_count};
ghost use Rattle.sheet.specs.Accepted.{line_valid, untwinned};
ghost use Rattle.sheet_twins.specs.Inner.{digit, key, Keyed, none_after};

use sheet::Sheet;

// What stands after the last line's key: no line has it.
const NO_KEY: u32 = 4294967295;

// A multiplier in range as a digit of base 27.
fn digit(k: i32) -> u32
    requires { nat_abs k ≤ 13 }
    ensures { result ≡ digit k }
{
    (k + 13).unsigned_abs()
}

// The number that line f's six digits write, below 27^6: lines that differ have different keys.
fn key_at(sheet: &Sheet<'_>, f: usize) -> u32
    requires { (f < line_count sheet.now.bytes.now) × (line_valid sheet.now.bytes.now f ≡ true) }
    ensures { result ≡ key sheet.now.bytes.now f }
{
    let at = 2 + 6 * f;
    let mut key = 0;
    for i in 0..6 {
        key = 27 * key + digit(words::signed_byte_at(sheet.bytes, at + i));
    }
    key
}

// Each line's key. There is room for 128, and for the rest of an eight after them.
fn keys_of(sheet: &Sheet<'_>) -> [u32; 136]
    requires { (line_count sheet.now.bytes.now ≤ 128) × (all_to (line_valid sheet.now.bytes.now) (line_count sheet.now.bytes.now) ≡ true) }
    ensures { Keyed sheet.now.bytes.now (line_count sheet.now.bytes.now) result }
{
    let mut keys = [NO_KEY; 136];
    for f in 0..sheet.layout.lines {
        keys[f] = key_at(sheet, f);
    }
    keys
}

// Whether key f is among those after it, as many as count.
// Speed: one flag in place of `contains`, which would leave the loop early: without a branch the compiler compares several at a time.
fn is_among(keys: &[u32; 136], f: usize, count: usize) -> bool
    requires { (length keys.now ≡ 136) × (f + 1 + count ≤ 136) }
    ensures { not result ≡ none_after keys.now f count }
{
    let key = keys[f];
    let mut found = false;
    for j in 0..count {
        found |= keys[f + 1 + j] == key;
    }
    found
}

// Whether no two lines are twins, of lines in range. Each is compared with those after it, to whole eights, which leave no rest to take one by one.
pub fn are_untwinned(sheet: &Sheet<'_>) -> bool
    requires { (line_count sheet.now.bytes.now ≤ 128) × (all_to (line_valid sheet.now.bytes.now) (line_count sheet.now.bytes.now) ≡ true) }
    ensures { result ≡ untwinned sheet.now.bytes.now }
{
    let keys = keys_of(sheet);
    let lines = sheet.layout.lines;
    let mut found = false;
    for f in 0..lines {
        found |= is_among(&keys, f, (lines - f + 6) / 8 * 8);
    }
    !found
}
