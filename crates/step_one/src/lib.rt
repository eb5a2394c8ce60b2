// Solid tide, step one (001, eqs. 1 to 7; document 01, "Step one"): what the Moon and the Sun add to a field.

#![tactic(auto)]

ghost use Rattle.std.specs.Prelude.{◌≡◌, T};
ghost use Rattle.refusals.specs.Numbers.{tells};
ghost use Rattle.step_one.specs.StepOne.{floats, all_countable, counts_c, counts_s, without_permanent, measured, corrections};
ghost use Rattle.step_one.specs.Inner.{Small};

use bodies::{Body, Direction, see};
use choices::LoveModel;
use constants::{loves_3, loves_of};
use count::nearest_count;
use limits::is_countable;
use permanent::permanent_part;
use potential::{shared_of, terms_of};
use refusals::Refusal;
use response::{Changes, changes_of};

// The counts to add to C and S at 20, 21, 22, 30, 31, 32, 33, 40, 41, 42.
#[derive(Clone, Copy, Debug, PartialEq, Eq)]
pub struct Corrections {
    pub c: [i64; 10],
    pub s: [i64; 10],
}

#[tactic(auto, unfolding(crate::specs::StepOne::all_countable))]
fn are_countable(xs: [f64; 10]) -> bool
    ensures { result ≡ all_countable xs }
{
    xs.iter().all(|x| is_countable(*x))
}

fn counts_c(xs: [f64; 10]) -> [i64; 10]
    requires { T (all_countable xs) }
    ensures { result ≡ counts_c xs }
{
    xs.map(|x| nearest_count(x))
}

// At order 0 only C is used. Speed: written out, since with `counts_c` called for S too a field of degree 4 takes a tenth longer.
fn counts_s(xs: [f64; 10]) -> [i64; 10]
    requires { T (all_countable xs) }
    ensures { result ≡ counts_s xs }
{
    [
        0,
        nearest_count(xs[1]),
        nearest_count(xs[2]),
        0,
        nearest_count(xs[4]),
        nearest_count(xs[5]),
        nearest_count(xs[6]),
        0,
        nearest_count(xs[8]),
        nearest_count(xs[9]),
    ]
}

// The counts of C with the permanent part taken off C20.
fn without_permanent(mut by: [i64; 10], love: LoveModel) -> [i64; 10]
    requires { Small 52 by }
    ensures { result ≡ without_permanent love by }
{
    by[0] -= permanent_part(love);
    by
}

// Refusal 6, or the counts.
fn measure(f: Changes, love: LoveModel) -> Result<Corrections, Refusal>
    ensures { tells result ≡ measured f love }
{
    if !(are_countable(f.c) & are_countable(f.s)) {
        return Err(Refusal::StepOneRange);
    }
    Ok(Corrections {
        c: without_permanent(counts_c(f.c), love),
        s: counts_s(f.s),
    })
}

// The Moon at m and the Sun at s.
#[tactic(auto, unfolding(crate::specs::StepOne::floats))]
fn floats_of(moon: Body, m: Direction, sun: Body, s: Direction, love: LoveModel) -> Changes
    ensures { result ≡ floats moon m sun s love }
{
    let x = shared_of(terms_of(moon.ratio, m), terms_of(sun.ratio, s));
    changes_of(loves_of(love), loves_3(), x)
}

// Given: the Moon, the Sun, the Love model. Answered: the counts to add, the permanent part taken off C20.
// Refused: the Moon's 3, 4, 5, then the Sun's, then 6.
#[tactic(auto, unfolding(crate::specs::StepOne::corrections))]
pub fn corrections_of(moon: Body, sun: Body, love: LoveModel) -> Result<Corrections, Refusal>
    ensures { tells result ≡ corrections moon sun love }
{
    let m = see(moon)?;
    let s = see(sun)?;
    measure(floats_of(moon, m, sun, s, love), love)
}
