// The six Doodson arguments: tau, s, h, p, N' (np here) and ps; the phase of a line, and arguments moved.

#![tactic(auto)]

ghost use Rattle.std.specs.Prelude.{◌≡◌, ◌^◌, pos, ◌*ℤ◌};
ghost use Rattle.arguments.specs.Phase.{modulo, phase, multiplier_of, moved_by, moved_phases, listed, unlisted, argument_of};
ghost use Rattle.choices.specs.Numbers.{told};

use choices::NoSuchChoice;

// The name of an argument.
#[derive(Clone, Copy, Debug, PartialEq, Eq)]
pub enum Argument {
    Tau,
    S,
    H,
    P,
    Np,
    Ps,
}

impl TryFrom<u32> for Argument {
    type Error = NoSuchChoice;

    ghost try_from_gives = { λ number r. told r ≡ argument_of number };

    #[tactic(auto, using(choices::proofs::Choices::past_the_cases), unfolding(choices::specs::Numbers::chosen))]
    fn try_from(number: u32) -> Result<Argument, NoSuchChoice> {
        match number {
            0 => Ok(Argument::Tau),
            1 => Ok(Argument::S),
            2 => Ok(Argument::H),
            3 => Ok(Argument::P),
            4 => Ok(Argument::Np),
            5 => Ok(Argument::Ps),
            _ => Err(NoSuchChoice),
        }
    }
}

// The arguments as phases, a turn being 2^32; C passes them as they stand. A type of its own beside `Multipliers`, since C's calls take no generic struct.
#[repr(C)]
#[derive(Clone, Copy, Debug, PartialEq, Eq)]
pub struct Phases {
    pub tau: u32,
    pub s: u32,
    pub h: u32,
    pub p: u32,
    pub np: u32,
    pub ps: u32,
}

// A line's multipliers of the arguments; C passes those of a line of its own as they stand.
#[repr(C)]
#[derive(Clone, Copy, Debug, PartialEq, Eq)]
pub struct Multipliers {
    pub tau: i32,
    pub s: i32,
    pub h: i32,
    pub p: i32,
    pub np: i32,
    pub ps: i32,
}

// In the order of the arguments.
impl From<[i32; 6]> for Multipliers {
    ghost from_gives = { λ list m. m ≡ unlisted list };

    fn from(list: [i32; 6]) -> Multipliers {
        let [tau, s, h, p, np, ps] = list;
        Multipliers {
            tau,
            s,
            h,
            p,
            np,
            ps,
        }
    }
}

impl From<Multipliers> for [i32; 6] {
    ghost from_gives = { λ m list. list ≡ listed m };

    fn from(m: Multipliers) -> [i32; 6] {
        [m.tau, m.s, m.h, m.p, m.np, m.ps]
    }
}

// k times the phase a, modulo a turn.
fn multiple(k: i32, a: u32) -> u32
    ensures { result ≡ modulo (k *ℤ pos a) (2 ^ 32) }
{
    k.cast_unsigned().wrapping_mul(a)
}

// The phase of the line with multipliers m, at the arguments b.
pub fn phase_of(m: Multipliers, b: Phases) -> u32
    ensures { result ≡ phase m b }
{
    multiple(m.tau, b.tau)
        .wrapping_add(multiple(m.s, b.s))
        .wrapping_add(multiple(m.h, b.h))
        .wrapping_add(multiple(m.p, b.p))
        .wrapping_add(multiple(m.np, b.np))
        .wrapping_add(multiple(m.ps, b.ps))
}

// A line's multiplier of an argument.
#[tactic(auto, unfolding(crate::specs::Phase::multiplier_of))]
pub fn multiplier_of(m: Multipliers, argument: Argument) -> i32
    ensures { result ≡ multiplier_of m argument }
{
    match argument {
        Argument::Tau => m.tau,
        Argument::S => m.s,
        Argument::H => m.h,
        Argument::P => m.p,
        Argument::Np => m.np,
        Argument::Ps => m.ps,
    }
}

// A phase moved by a signed amount, wrapping round the turn.
fn moved_by(phase: u32, amount: i32) -> u32
    ensures { result ≡ moved_by phase amount }
{
    phase.wrapping_add_signed(amount)
}

// The phases with one of them moved.
#[tactic(auto, unfolding(crate::specs::Phase::moved_phases))]
pub fn moved_phases(b: Phases, argument: Argument, amount: i32) -> Phases
    ensures { result ≡ moved_phases b argument amount }
{
    match argument {
        Argument::Tau => Phases {
            tau: moved_by(b.tau, amount),
            ..b
        },
        Argument::S => Phases {
            s: moved_by(b.s, amount),
            ..b
        },
        Argument::H => Phases {
            h: moved_by(b.h, amount),
            ..b
        },
        Argument::P => Phases {
            p: moved_by(b.p, amount),
            ..b
        },
        Argument::Np => Phases {
            np: moved_by(b.np, amount),
            ..b
        },
        Argument::Ps => Phases {
            ps: moved_by(b.ps, amount),
            ..b
        },
    }
}
