// What crosses from C beside the numbers of the choices: the bodies.

#![tactic(auto)]

ghost use Rattle.std.specs.Prelude.{◌≡◌};
ghost use Rattle.choices.specs.Numbers.{told};
ghost use Rattle.crossing.specs.Bodies.{body_of};

use bodies::{Body, Place};
use choices::NoSuchChoice;

// Kind 0: x, y, z in metres; kind 1: a direction's u, v, w. The distance r is in metres, the ratio the mass to the Earth's.
// The kind is a number and no enum, since C lends the struct as it stands.
#[repr(C)]
#[derive(Clone, Copy, Debug)]
pub struct GivenBody {
    pub kind: u32,
    pub ratio: f64,
    pub x: f64,
    pub y: f64,
    pub z: f64,
    pub r: f64,
}

impl TryFrom<GivenBody> for Body {
    type Error = NoSuchChoice;

    ghost try_from_gives = { λ given r. told r ≡ body_of given };

    #[tactic(auto, using(choices::proofs::Choices::past_the_cases), unfolding(choices::specs::Numbers::chosen))]
    fn try_from(given: GivenBody) -> Result<Body, NoSuchChoice> {
        let place = match given.kind {
            0 => Place::Rectangular(given.x, given.y, given.z, given.r),
            1 => Place::Directional(given.x, given.y, given.z, given.r),
            _ => return Err(NoSuchChoice),
        };
        Ok(Body {
            ratio: given.ratio,
            place,
        })
    }
}
