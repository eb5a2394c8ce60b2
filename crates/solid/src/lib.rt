// The solid tide (document 02, T-06): the corrections of both its steps, as one.

#![tactic(auto)]

ghost use Rattle.std.specs.Prelude.{[], ◌∷◌, ◌≡◌};
ghost use Rattle.solid.specs.Solid.{plus, with_lines};
ghost use Rattle.solid.specs.Inner.{ThreeSmall, Room};

use step_one::Corrections;

// Ten counts, the first three with one more correction each.
fn with_three(mut by: [i64; 10], first: i64, second: i64, third: i64) -> [i64; 10]
    requires { ThreeSmall by first second third }
    ensures { result ≡ plus by (first ∷ second ∷ third ∷ []) }
{
    by[0] += first;
    by[1] += second;
    by[2] += third;
    by
}

// Step one's counts of its ten places with step two's corrections, which are of the first three: 20, 21 and 22.
pub fn with_lines(one: Corrections, two: bands::Corrections) -> Corrections
    requires { Room one two }
    ensures { result ≡ with_lines one two }
{
    Corrections {
        c: with_three(one.c, two.c20, two.c21, two.c22),
        s: with_three(one.s, 0, two.s21, two.s22),
    }
}
