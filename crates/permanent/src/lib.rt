// The permanent tide of C20 (001, "Treatment of the Permanent Tide"; document 01, "Permanent systems").

#![tactic(auto)]

ghost use Rattle.std.specs.Prelude.{◌≡◌};
ghost use Rattle.permanent.specs.Systems.{permanent_part, above_tide_free, moved_c20};
ghost use Rattle.refusals.specs.Numbers.{tells};

use choices::{LoveModel, PermanentSystem};
use refusals::Refusal;

// What a mean C20 has more than a zero one, in counts: A0*H0, the tide itself.
const MEAN_ABOVE_ZERO: i64 = -13914129;

// The permanent part of C20, in counts: A0*H0*k20.
pub fn permanent_part(love: LoveModel) -> i64
    ensures { result ≡ permanent_part love }
{
    match love {
        LoveModel::Elastic => -4108147,
        LoveModel::Anelastic => -4200675,
    }
}

// What a C20 of a system has more than a tide-free one.
fn above_tide_free(system: PermanentSystem, love: LoveModel) -> i64
    ensures { result ≡ above_tide_free system love }
{
    match system {
        PermanentSystem::TideFree => 0,
        PermanentSystem::Zero => permanent_part(love),
        PermanentSystem::Mean => permanent_part(love) + MEAN_ABOVE_ZERO,
    }
}

// Given: one C20 in counts, the system it is in, the system wanted, the Love model.
// Answered: the C20 in the system wanted, which may lie outside the range of an entry by the distance moved.
// Refused: 2, a C20 outside -2^60..2^60.
pub fn move_c20(
    c20: i64,
    from: PermanentSystem,
    to: PermanentSystem,
    love: LoveModel,
) -> Result<i64, Refusal>
    ensures { tells result ≡ moved_c20 c20 from to love }
{
    if limits::is_entry(c20) {
        Ok(c20 - above_tide_free(from, love) + above_tide_free(to, love))
    } else {
        Err(Refusal::FieldRange)
    }
}
