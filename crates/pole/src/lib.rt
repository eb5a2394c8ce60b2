// The solid pole tide (001, "Solid Earth Pole Tide"; document 02, T-05): what the pole's offsets xp and yp from its mean add to C21 and S21.

#![tactic(auto)]

ghost use Rattle.std.specs.Prelude.{true, ◌≡◌, pos, ◌+ℤ◌, ◌*ℤ◌};
ghost use Rattle.limits.specs.Limits.{is_pole_offset};
ghost use Rattle.pole.specs.Pole.{offsets_refusal, corrections};
ghost use Rattle.refusals.specs.Numbers.{answer_number};
ghost use Rattle.whole.specs.Nearest.{nearest};

use choices::LoveModel;
use refusals::Refusal;

// In counts.
#[derive(Clone, Copy, Debug, PartialEq, Eq)]
pub struct Corrections {
    pub c21: i64,
    pub s21: i64,
}

// Refused: 15, an offset outside -1,000,000..1,000,000 micro-arcseconds.
pub fn tested(xp: i64, yp: i64) -> Result<(), Refusal>
    ensures { answer_number result ≡ offsets_refusal xp yp }
{
    if limits::is_pole_offset(xp) & limits::is_pole_offset(yp) {
        Ok(())
    } else {
        Err(Refusal::PoleOffset)
    }
}

// What an offset x adds.
fn elastic(x: i64) -> i64
    requires { is_pole_offset x ≡ true }
    ensures { result ≡ nearest (pos 1290 *ℤ x) 1000 }
{
    whole::nearest_of(1290 * x, 1000)
}

// What an offset x adds, and y by the imaginary part of the Love number.
fn anelastic(x: i64, y: i64) -> i64
    requires x_value { is_pole_offset x ≡ true }
    requires y_value { is_pole_offset y ≡ true }
    ensures { result ≡ nearest (pos 1348 *ℤ (pos 10000 *ℤ x +ℤ pos 112 *ℤ y)) 10000000 }
{
    whole::nearest_of(1348 * (10000 * x + 112 * y), 10000000)
}

// The signs stand inside what is rounded.
pub fn corrections_of(xp: i64, yp: i64, love: LoveModel) -> Corrections
    requires { offsets_refusal xp yp ≡ 0 }
    ensures { result ≡ corrections xp yp love }
{
    let minus_xp = -xp;
    let minus_yp = -yp;
    match love {
        LoveModel::Elastic => Corrections {
            c21: elastic(minus_xp),
            s21: elastic(yp),
        },
        LoveModel::Anelastic => Corrections {
            c21: anelastic(minus_xp, minus_yp),
            s21: anelastic(yp, minus_xp),
        },
    }
}
