// The tide-generating potential of the Moon and the Sun (001, eqs. 1 and 2; document 01, "Step one"): P and Q of each degree and order.

#![tactic(auto)]

ghost use Rattle.std.specs.Prelude.{◌≡◌};
ghost use Rattle.potential.specs.Potential.{times, terms, divided, shared};
ghost use Rattle.potential.specs.Inner.{strengths, paired};

use bodies::Direction;
use constants::{PerTerm, norms_of};
use doubles::Complex;
use powers::powers_of;

// t of each degree and order.
fn strengths_of(ratio: f64, d: Direction, n: PerTerm<f64>) -> PerTerm<f64>
    ensures { result ≡ strengths ratio d n }
{
    let w = d.w;
    let q = 6378136.3 / d.r;
    let q3 = q * q * q;
    let q4 = q3 * q;
    let weight2 = ratio * q3;
    let weight3 = ratio * q4;
    let w2 = w * w;
    PerTerm {
        t20: n.t20 * ((3.0 * w2 - 1.0) / 2.0) * weight2,
        t21: n.t21 * (3.0 * w) * weight2,
        t22: n.t22 * 3.0 * weight2,
        t30: n.t30 * ((5.0 * w2 - 3.0) * w / 2.0) * weight3,
        t31: n.t31 * ((15.0 * w2 - 3.0) / 2.0) * weight3,
        t32: n.t32 * (15.0 * w) * weight3,
        t33: n.t33 * 15.0 * weight3,
    }
}

// A power times t.
fn times(t: f64, power: Complex) -> Complex
    ensures { result ≡ times t power.re power.im }
{
    Complex {
        re: t * power.re,
        im: t * power.im,
    }
}

fn paired_of(t: PerTerm<f64>, power: [Complex; 4]) -> PerTerm<Complex>
    ensures { result ≡ paired t power }
{
    PerTerm {
        t20: times(t.t20, power[0]),
        t21: times(t.t21, power[1]),
        t22: times(t.t22, power[2]),
        t30: times(t.t30, power[0]),
        t31: times(t.t31, power[1]),
        t32: times(t.t32, power[2]),
        t33: times(t.t33, power[3]),
    }
}

// P and Q of one body, as P + iQ.
pub fn terms_of(ratio: f64, d: Direction) -> PerTerm<Complex>
    ensures { result ≡ terms ratio d }
{
    let t = strengths_of(ratio, d, norms_of());
    paired_of(t, powers_of(d.u, d.v))
}

fn divided(moon: Complex, sun: Complex, by: f64) -> Complex
    ensures { result ≡ divided moon sun by }
{
    Complex {
        re: (moon.re + sun.re) / by,
        im: (moon.im + sun.im) / by,
    }
}

// Both bodies' terms, added and divided by 2n + 1.
pub fn shared_of(moon: PerTerm<Complex>, sun: PerTerm<Complex>) -> PerTerm<Complex>
    ensures { result ≡ shared moon sun }
{
    PerTerm {
        t20: divided(moon.t20, sun.t20, 5.0),
        t21: divided(moon.t21, sun.t21, 5.0),
        t22: divided(moon.t22, sun.t22, 5.0),
        t30: divided(moon.t30, sun.t30, 7.0),
        t31: divided(moon.t31, sun.t31, 7.0),
        t32: divided(moon.t32, sun.t32, 7.0),
        t33: divided(moon.t33, sun.t33, 7.0),
    }
}
