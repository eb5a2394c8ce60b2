// Step two of the solid tide (001, Tables 6.2; document 01, "Step two"; document 02, T-04 and T-08): what the printed lines that a selection names add
// to degree two, over the waves that an hour record holds.

#![tactic(auto)]

ghost use Rattle.std.specs.Prelude.{◌≡◌, ◌+◌, ◌<◌};
ghost use Rattle.bands.specs.Inner.{sums_of, Bounded, Small};
ghost use Rattle.selection.specs.Selection.{names as names_line};
ghost use Rattle.step_two.specs.Inner.{up_to, Running};
ghost use Rattle.step_two.specs.StepTwo.{kept_corrections};

use bands::{Corrections, Sums};
use choices::LoveModel;
use hour::Hour;

// Whether a selection names line i. That of all lines is told by itself, so that the compiler makes loops for it that test no bit and have every
// amplitude as a constant.
fn is_named(selection: u64, i: usize) -> bool
    requires { i < 49 }
    ensures { result ≡ names_line selection i }
{
    if selection == profiles::all_lines() {
        true
    } else {
        selection::names(selection, i)
    }
}

// The five sums with those of line i added, over the waves that an hour holds, if a selection names it. Bits above 48 stand for nothing.
fn with_printed(sums: Sums, hour: &Hour, love: LoveModel, selection: u64, i: usize) -> Sums
    requires { (i < 49) × Running love selection hour.now.cosines hour.now.sines i sums }
    ensures { Running love selection hour.now.cosines hour.now.sines (i + 1) result }
{
    if is_named(selection, i) {
        let line = lines::printed_line(love, i);
        bands::with_line(
            sums,
            line,
            i64::from(hour.cosines[i]),
            i64::from(hour.sines[i]),
        )
    } else {
        sums
    }
}

// The five sums of the lines that a selection names. A loop goes through each band, whose rule the compiler then chooses once.
fn sums_of(hour: &Hour, love: LoveModel, selection: u64) -> Sums
    ensures { (result ≡ sums_of (up_to love selection hour.now.cosines hour.now.sines 49)) × Bounded result }
{
    let mut sums = bands::NOTHING;
    for i in 0..26 {
        sums = with_printed(sums, hour, love, selection, i);
    }
    for i in 26..47 {
        sums = with_printed(sums, hour, love, selection, i);
    }
    for i in 47..49 {
        sums = with_printed(sums, hour, love, selection, i);
    }
    sums
}

// The corrections of C20, C21, S21, C22 and S22, each the nearest of one whole sum.
pub fn corrections_of(hour: Hour, love: LoveModel, selection: u64) -> Corrections
    ensures { (result ≡ kept_corrections hour love selection) × Small result }
{
    bands::rounded_of(sums_of(&hour, love, selection))
}
