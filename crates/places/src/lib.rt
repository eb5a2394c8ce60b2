// The correction of each place of a sheet (002; document 01, "Model sheet and ocean tide"), and where it stands in a list.

#![tactic(auto)]

ghost use Rattle.std.specs.Prelude.{◌≡◌, ◌+◌, ◌*◌, ◌^◌, ◌<◌, nat_abs, ◌+ℤ◌, ◌*ℤ◌};
ghost use Rattle.sheet.specs.Sheet.{place_count};
ghost use Rattle.places.specs.Places.{skipped, index_of};
ghost use Rattle.places.specs.Inner.{Summed, Corrects};

use choices::Frame;
use sheet::{Accepted, Column};
use tides::{Factor, Tides};

// What a place's C and S gain, in counts.
#[derive(Clone, Copy, Debug, PartialEq, Eq)]
pub struct Correction {
    pub c: i64,
    pub s: i64,
}

// A place's two sums over the tides, in 2^-30 counts: no correction, which is in counts.
#[derive(Clone, Copy)]
pub struct PlaceSums {
    pub c: i64,
    pub s: i64,
}

// A running sum with one tide more: its factors times its cos and sin counts.
fn plus_tide(sum: i64, factor: Factor, cos: i64, sin: i64) -> i64
    requires { nat_abs sum + nat_abs factor.cosine * nat_abs cos + nat_abs factor.sine * nat_abs sin < 2 ^ 63 }
    ensures { result ≡ sum +ℤ (factor.cosine *ℤ cos +ℤ factor.sine *ℤ sin) }
{
    sum + factor.cosine * cos + factor.sine * sin
}

// Both sums of place j in one pass over its words, not rounded.
fn place_sums(tides: &Tides<'_>, j: usize) -> PlaceSums
    requires { j < place_count tides.now.accepted.sheet.bytes.now }
    ensures { Summed tides.now.accepted.sheet.bytes.now tides.now.factors j result }
{
    let sheet = &tides.accepted.sheet;
    let mut c = 0;
    let mut s = 0;
    for k in 0..sheet.layout.tides {
        let factor = tides.factors[k];
        let c_cos = sheet.coefficient_at(j, k, Column::CCos);
        let s_cos = sheet.coefficient_at(j, k, Column::SCos);
        let c_sin = sheet.coefficient_at(j, k, Column::CSin);
        let s_sin = sheet.coefficient_at(j, k, Column::SSin);
        c = plus_tide(c, factor, c_cos, c_sin);
        s = plus_tide(s, factor, s_cos, s_sin);
    }
    PlaceSums { c, s }
}

// Degree 1 in the centre-of-mass frame, and nothing else.
#[tactic(auto, unfolding(crate::specs::Places::skipped))]
fn is_skipped(frame: Frame, degree: usize) -> bool
    ensures { result ≡ skipped frame degree }
{
    matches!(frame, Frame::CentreOfMass) && degree == 1
}

// The correction of place j.
pub fn correction_of(tides: &Tides<'_>, j: usize, frame: Frame) -> Correction
    requires { j < place_count tides.now.accepted.sheet.bytes.now }
    ensures { Corrects tides.now.accepted.sheet.bytes.now frame tides.now.factors j result }
{
    if is_skipped(frame, tides.accepted.sheet.degree_at(j)) {
        return Correction { c: 0, s: 0 };
    }
    let sums = place_sums(tides, j);
    Correction {
        c: whole::nearest_of(sums.c, 1073741824),
        s: whole::nearest_of(sums.s, 1073741824),
    }
}

// Where place j stands in a list.
pub fn index_of(accepted: &Accepted<'_>, j: usize) -> usize
    requires { j < place_count accepted.now.sheet.bytes.now }
    ensures { result ≡ index_of accepted.now.sheet.bytes.now j }
{
    let degree = accepted.sheet.degree_at(j);
    degree * (degree + 1) / 2 + accepted.sheet.order_at(j)
}
