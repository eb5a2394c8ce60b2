// The field (document 01, "Units and the field"): two lent lists of signed counts, what refuses them, and the one writer to them.

#![tactic(auto)]

ghost use Rattle.std.specs.Prelude.{◌≡◌, ◌+◌, ◌%◌, ◌^◌, ◌<◌, ◌≤◌, true, length, pos, if◌then◌else◌, slice_index_or, unsigned_abs};
ghost use Rattle.std.specs.List.{list_all};
ghost use Rattle.limits.specs.Limits.{is_entry};
ghost use Rattle.refusals.specs.Numbers.{answer_number};
ghost use Rattle.field.specs.Added.{corrected};
ghost use Rattle.field.specs.Field.{size, every_in_range, shaped_by, field_refusal};
ghost use Rattle.field.specs.Inner.{Ready, added_from};

use refusals::Refusal;

// Whether every entry is in range.
fn every_in_range(list: &[i64]) -> bool
    ensures { result ≡ list_all is_entry list.now }
{
    list.iter().all(|entry| limits::is_entry(*entry))
}

// x modulo 2^64: no instruction once compiled.
fn bits_of(x: i64) -> u64
    ensures { (result + 2 ^ 60) % 2 ^ 64 < 2 ^ 61 → unsigned_abs x ≤ 2 ^ 60 }
{
    x.cast_unsigned()
}

// Whether every entry, raised by 2^60, is below 2^61, by the bits of all together: one pass without a branch.
fn are_small(list: &[i64]) -> bool
    ensures { result ≡ true → every_in_range list.now ≡ true }
{
    let mut any: u64 = 0;
    for entry in list {
        let raised = bits_of(*entry).wrapping_add(1152921504606846976);
        any |= raised;
    }
    any < 2305843009213693952
}

// The quick test first; where it says no, each entry's own.
#[tactic(auto, using(crate::proofs::Entries::every_listed))]
fn all_in_range(list: &[i64]) -> bool
    ensures { result ≡ every_in_range list.now }
{
    are_small(list) || every_in_range(list)
}

// The entries of a list of degree n.
pub fn size_of(n: u32) -> usize
    requires { n ≤ 60 }
    ensures { result ≡ size n }
{
    let k = n as usize;
    (k + 1) * (k + 2) / 2
}

// Whether lists of these lengths are a field of degree n.
fn is_shaped(n: u32, c: usize, s: usize) -> bool
    ensures { result ≡ shaped_by n c s }
{
    if limits::is_degree(n) {
        let entries = size_of(n);
        (c == entries) & (s == entries)
    } else {
        false
    }
}

// Refusal 1, by the lists' lengths.
pub fn shape_tested(n: u32, c: usize, s: usize) -> Result<(), Refusal>
    ensures { answer_number result ≡ (if shaped_by n c s then 0 else 1) }
{
    if is_shaped(n, c, s) {
        Ok(())
    } else {
        Err(Refusal::FieldShape)
    }
}

// Refusals 1 and 2.
pub fn tested(n: u32, c: &[i64], s: &[i64]) -> Result<(), Refusal>
    ensures { answer_number result ≡ field_refusal n c.now s.now }
{
    shape_tested(n, c.len(), s.len())?;
    if all_in_range(c) & all_in_range(s) {
        Ok(())
    } else {
        Err(Refusal::FieldRange)
    }
}

// Corrects one entry.
pub fn correct(list: &mut [i64], at: usize, by: i64)
    requires at_in_bounds { at < length list.old }
    requires pos_bound { unsigned_abs (slice_index_or list.old at (pos 0)) ≤ 2 ^ 60 }
    requires by_bound { unsigned_abs by ≤ 2 ^ 60 }
    ensures { list.new ≡ corrected list.old at by }
{
    list[at] += by;
}

// Corrects the entries that stand one after the other from a place on.
pub fn add_run(list: &mut [i64], from: usize, by: &[i64])
    requires { Ready list.old from by.now }
    ensures { list.new ≡ added_from from by.now list.old }
{
    for (k, d) in by.iter().enumerate() {
        correct(list, from + k, *d);
    }
}
