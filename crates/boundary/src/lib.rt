// The unit's calls for C: the functions of include/surfgimlet.h, each over the public call of its name.
// Closed choices come as numbers; one that names no case is answered by 100, before anything else is looked at.

#![tactic(auto)]

ghost use Rattle.std.specs.Prelude.{◌≡◌};
ghost use Rattle.arguments.specs.Phase.{unlisted};
ghost use Rattle.doodson.specs.Doodson.{write_doodson};
ghost use Rattle.hour.specs.Hour.{hour_at, start_hour};
ghost use Rattle.icgem_file.specs.File.{file_head, read_file};
ghost use Rattle.leaving.specs.Leaving.{found, head_numbers, numbers_of, Leaves, GivesAndLeaves};
ghost use Rattle.lines.specs.Lines.{find_line};
ghost use Rattle.refusals.specs.Outcome.{Gives};
ghost use Rattle.surfgimlet.specs.Calls.{own_lines};
ghost use Rattle.profiles.specs.Profiles.{all_lines, major_lines};
ghost use Rattle.selection.specs.Selection.{lines_named};
ghost use Rattle.boundary.specs.Calls.{version_number, solid_given, hour_given, pole_given, ocean_given, move_given, LeavesField, LeavesBytes, write_given, multipliers_given};

use arguments::{Argument, Multipliers, Phases};
use bodies::Body;
use choices::{Frame, LoveModel, PermanentSystem};
use crossing::GivenBody;
use hour::Hour;
use own::OwnLine;

const NO_SUCH_CHOICE: u32 = 100;

const MAJOR: u32 = 4;

const MINOR: u32 = 2;

const PATCH: u32 = 0;

// The version as one number, which SURFGIMLET_VERSION of the header equals.
#[unsafe(no_mangle)]
pub extern "C" fn surfgimlet_version() -> u32
    ensures { result ≡ version_number 4 2 0 }
{
    1000000 * MAJOR + 1000 * MINOR + PATCH
}

// Solid tide. Refused: 100, then as surfgimlet::solid_tide.
#[tactic(auto, using(crate::proofs::Given::told_and_left), unfolding(crate::specs::Calls::solid_given, refusals::specs::Outcome::told_unless))]
#[unsafe(no_mangle)]
pub extern "C" fn surfgimlet_solid_tide(
    n: u32,
    c: &mut [i64],
    s: &mut [i64],
    moon: GivenBody,
    sun: GivenBody,
    love: u32,
    hour: Hour,
    selection: u64,
    lines: &mut u32,
) -> u32
    ensures { GivesAndLeaves (solid_given n c.old s.old moon sun love hour selection) (lines_named selection) result c.new s.new lines.old lines.new }
{
    let Ok(love) = LoveModel::try_from(love) else {
        return NO_SUCH_CHOICE;
    };
    let Ok(moon) = Body::try_from(moon) else {
        return NO_SUCH_CHOICE;
    };
    let Ok(sun) = Body::try_from(sun) else {
        return NO_SUCH_CHOICE;
    };
    let told = surfgimlet::solid_tide(n, c, s, moon, sun, love, hour, selection);
    leaving::leave(told, lines)
}

// The hour of all phases zero.
#[unsafe(no_mangle)]
pub extern "C" fn surfgimlet_start_hour() -> Hour
    ensures { result ≡ start_hour }
{
    surfgimlet::start_hour()
}

// The hour of given phases.
#[unsafe(no_mangle)]
pub extern "C" fn surfgimlet_set_hour(phases: Phases) -> Hour
    ensures { result ≡ hour_at phases }
{
    surfgimlet::set_hour(phases)
}

// An hour with one phase moved. Refused: 100, left in the lent number, and then the hour is answered that was given.
#[unsafe(no_mangle)]
pub extern "C" fn surfgimlet_move_hour(
    hour: Hour,
    argument: u32,
    amount: i32,
    answer: &mut u32,
) -> Hour
    ensures { Leaves (hour_given hour argument amount) hour answer.new result }
{
    let Ok(argument) = Argument::try_from(argument) else {
        *answer = NO_SUCH_CHOICE;
        return hour;
    };
    *answer = 0;
    surfgimlet::move_hour(hour, argument, amount)
}

// The selection of all printed lines.
#[unsafe(no_mangle)]
pub extern "C" fn surfgimlet_all_lines() -> u64
    ensures { result ≡ all_lines }
{
    surfgimlet::all_lines()
}

// The selection of the lines of at least ten tenths.
#[unsafe(no_mangle)]
pub extern "C" fn surfgimlet_major_lines() -> u64
    ensures { result ≡ major_lines }
{
    surfgimlet::major_lines()
}

// Tide lines of an operator's own. Refused as surfgimlet::own_lines.
#[unsafe(no_mangle)]
pub extern "C" fn surfgimlet_own_lines(
    n: u32,
    c: &mut [i64],
    s: &mut [i64],
    lines: &[OwnLine],
    phases: Phases,
) -> u32
    ensures { Gives (own_lines n c.old s.old lines.now phases) result c.new s.new }
{
    refusals::answer_number(surfgimlet::own_lines(n, c, s, lines, phases))
}

// The solid pole tide. Refused: 100, then as surfgimlet::pole_tide.
#[tactic(auto, unfolding(crate::specs::Calls::pole_given))]
#[unsafe(no_mangle)]
pub extern "C" fn surfgimlet_pole_tide(
    n: u32,
    c: &mut [i64],
    s: &mut [i64],
    xp: i64,
    yp: i64,
    love: u32,
) -> u32
    ensures { Gives (pole_given n c.old s.old xp yp love) result c.new s.new }
{
    let Ok(love) = LoveModel::try_from(love) else {
        return NO_SUCH_CHOICE;
    };
    refusals::answer_number(surfgimlet::pole_tide(n, c, s, xp, yp, love))
}

// The ocean tide of a model sheet. Refused: 100, then as surfgimlet::ocean_tide.
#[tactic(auto, unfolding(crate::specs::Calls::ocean_given))]
#[unsafe(no_mangle)]
pub extern "C" fn surfgimlet_ocean_tide(
    n: u32,
    c: &mut [i64],
    s: &mut [i64],
    sheet: &[u8],
    phases: Phases,
    frame: u32,
) -> u32
    ensures { Gives (ocean_given n c.old s.old sheet.now phases frame) result c.new s.new }
{
    let Ok(frame) = Frame::try_from(frame) else {
        return NO_SUCH_CHOICE;
    };
    refusals::answer_number(surfgimlet::ocean_tide(n, c, s, sheet, phases, frame))
}

// One C20 to another permanent system. Refused: 100, then as surfgimlet::move_c20.
#[tactic(auto, unfolding(crate::specs::Calls::move_given))]
#[unsafe(no_mangle)]
pub extern "C" fn surfgimlet_move_c20(
    c20: i64,
    from: u32,
    to: u32,
    love: u32,
    moved: &mut i64,
) -> u32
    ensures { Leaves (move_given c20 from to love) moved.old result moved.new }
{
    let Ok(from) = PermanentSystem::try_from(from) else {
        return NO_SUCH_CHOICE;
    };
    let Ok(to) = PermanentSystem::try_from(to) else {
        return NO_SUCH_CHOICE;
    };
    let Ok(love) = LoveModel::try_from(love) else {
        return NO_SUCH_CHOICE;
    };
    leaving::leave(surfgimlet::move_c20(c20, from, to, love), moved)
}

// What a file says. Refused as surfgimlet::file_head.
#[unsafe(no_mangle)]
pub extern "C" fn surfgimlet_file_head(
    text: &[u8],
    degree: &mut u32,
    constant: &mut u64,
    radius: &mut u64,
    system: &mut u32,
) -> u32
    ensures { Leaves (numbers_of (file_head text.now)) (head_numbers degree.old constant.old radius.old system.old) result (head_numbers degree.new constant.new radius.new system.new) }
{
    leaving::leave_head(
        surfgimlet::file_head(text),
        degree,
        constant,
        radius,
        system,
    )
}

// A file read. Refused as surfgimlet::read_field.
#[unsafe(no_mangle)]
pub extern "C" fn surfgimlet_read_field(
    text: &[u8],
    c: &mut [i64],
    s: &mut [i64],
    degree: &mut u32,
    constant: &mut u64,
    radius: &mut u64,
    system: &mut u32,
) -> u32
    ensures { LeavesField (read_file text.now c.old s.old) c.new s.new (head_numbers degree.old constant.old radius.old system.old) result (head_numbers degree.new constant.new radius.new system.new) }
{
    let told = surfgimlet::read_field(text, c, s);
    leaving::leave_head(told, degree, constant, radius, system)
}

// A field written as text. Refused: 100, then as surfgimlet::write_field.
#[tactic(auto, using(crate::proofs::Given::writes_and_leaves), unfolding(crate::specs::Calls::write_given, refusals::specs::Outcome::told_unless))]
#[unsafe(no_mangle)]
pub extern "C" fn surfgimlet_write_field(
    n: u32,
    c: &[i64],
    s: &[i64],
    constant: u64,
    radius: u64,
    system: u32,
    out: &mut [u8],
    written: &mut usize,
) -> u32
    ensures { LeavesBytes (write_given n c.now s.now constant radius system out.old) out.new written.old result written.new }
{
    let Ok(system) = PermanentSystem::try_from(system) else {
        return NO_SUCH_CHOICE;
    };
    let told = surfgimlet::write_field(n, c, s, constant, radius, system, out);
    leaving::leave(told, written)
}

// A Doodson number's multipliers. Refused as surfgimlet::multipliers_of.
#[unsafe(no_mangle)]
pub extern "C" fn surfgimlet_multipliers_of(number: u32, multipliers: &mut [i32; 6]) -> u32
    ensures { Leaves (multipliers_given number) multipliers.old result multipliers.new }
{
    leaving::leave_multipliers(surfgimlet::multipliers_of(number), multipliers)
}

// The Doodson number of six multipliers. Refused as surfgimlet::number_of.
#[unsafe(no_mangle)]
pub extern "C" fn surfgimlet_number_of(multipliers: &[i32; 6], number: &mut u32) -> u32
    ensures { Leaves (write_doodson (unlisted multipliers.now)) number.old result number.new }
{
    let multipliers = Multipliers::from(*multipliers);
    leaving::leave(surfgimlet::number_of(multipliers), number)
}

// A printed line by its Doodson number. Refused as surfgimlet::find_line.
#[unsafe(no_mangle)]
pub extern "C" fn surfgimlet_find_line(
    number: u32,
    index: &mut usize,
    first: &mut i64,
    second: &mut i64,
) -> u32
    ensures { Leaves (find_line number) (found index.old first.old second.old) result (found index.new first.new second.new) }
{
    leaving::leave_line(surfgimlet::find_line(number), index, first, second)
}
