// The hour record (document 02, T-08): six phases, and the waves of the printed lines that were worked out from them.

#![tactic(auto)]

ghost use Rattle.std.specs.Prelude.{◌≡◌, length};
ghost use Rattle.wave.specs.Wave.{sin, cos};
ghost use Rattle.hour.specs.Hour.{hour_at, start_hour, renewed, moved_hour};
ghost use Rattle.hour.specs.Inner.{is_renewed};

use arguments::{Argument, Multipliers, Phases};

// The cosines and the sines are in units of 2^-30, in the order of the printed lines; C passes the record as it stands.
#[repr(C)]
#[derive(Clone, Copy)]
pub struct Hour {
    pub phases: Phases,
    pub cosines: [i32; 49],
    pub sines: [i32; 49],
}

// Whether the line with these multipliers is among all, or among those that have an argument.
fn is_renewed(having: Option<Argument>, m: Multipliers) -> bool
    ensures { result ≡ is_renewed having m }
{
    match having {
        None => true,
        Some(argument) => arguments::multiplier_of(m, argument) != 0,
    }
}

// Works the waves of lines out afresh, of all or of those that have an argument; the other lines keep what is held of them.
fn renew_waves(
    phases: Phases,
    having: Option<Argument>,
    cosines: &mut [i32; 49],
    sines: &mut [i32; 49],
)
    requires { (length cosines.old ≡ 49) × (length sines.old ≡ 49) }
    ensures { (cosines.new ≡ renewed (is_renewed having) cos phases cosines.old) × (sines.new ≡ renewed (is_renewed having) sin phases sines.old) }
{
    for i in 0..49 {
        let m = lines::multipliers_at(i);
        if is_renewed(having, m) {
            let wave = wave::wave_of(arguments::phase_of(m, phases));
            cosines[i] = wave.cosine as i32;
            sines[i] = wave.sine as i32;
        }
    }
}

// The record of given phases.
pub fn set_to(phases: Phases) -> Hour
    ensures { result ≡ hour_at phases }
{
    let mut cosines = [0i32; 49];
    let mut sines = [0i32; 49];
    renew_waves(phases, None, &mut cosines, &mut sines);
    Hour {
        phases,
        cosines,
        sines,
    }
}

// The record that every other one begins from.
pub fn start() -> Hour
    ensures { result ≡ start_hour }
{
    set_to(Phases {
        tau: 0,
        s: 0,
        h: 0,
        p: 0,
        np: 0,
        ps: 0,
    })
}

// A record with one phase moved.
pub fn moved(hour: Hour, argument: Argument, amount: i32) -> Hour
    ensures { result ≡ moved_hour hour argument amount }
{
    let before = hour.phases;
    let phases = arguments::moved_phases(before, argument, amount);
    let mut cosines = hour.cosines;
    let mut sines = hour.sines;
    renew_waves(phases, Some(argument), &mut cosines, &mut sines);
    Hour {
        phases,
        cosines,
        sines,
    }
}
