// Surfgimlet: tide corrections to the coefficients of a gravity field, and the permanent tide of C20. These are all its calls.
// A field of degree n is two lent lists of counts of 10^-15, C and S, of (n+1)(n+2)/2 entries, place (n,m) at n(n+1)/2+m.
// The degree and the lists come one by one, as C lends them.
// A call over a field tests, works out and adds. It answers Ok, or the Refusal with every entry of both lists as it was.

#![tactic(auto)]

ghost use Rattle.std.specs.Prelude.{◌≡◌};
ghost use Rattle.bands.specs.Bands.{for_c, for_s};
ghost use Rattle.doodson.specs.Doodson.{read_doodson, write_doodson};
ghost use Rattle.field.specs.Added.{added_at};
ghost use Rattle.hour.specs.Hour.{hour_at, start_hour, moved_hour};
ghost use Rattle.icgem_file.specs.File.{file_head, read_file};
ghost use Rattle.icgem_read.specs.Told.{Reads};
ghost use Rattle.icgem_write.specs.Outcome.{Writes};
ghost use Rattle.lines.specs.Lines.{find_line};
ghost use Rattle.permanent.specs.Systems.{moved_c20};
ghost use Rattle.refusals.specs.Numbers.{answer_number, tells};
ghost use Rattle.refusals.specs.Outcome.{Gives, GivesValue};
ghost use Rattle.profiles.specs.Profiles.{all_lines, major_lines};
ghost use Rattle.selection.specs.Selection.{lines_named};
ghost use Rattle.surfgimlet.specs.Calls.{places_c, places_s, solid_tide, own_lines, pole_tide, ocean_tide};
ghost use Rattle.surfgimlet.specs.Inner.{FiveReady};

use arguments::{Argument, Multipliers, Phases};
use bands::Corrections;
use bodies::Body;
use choices::{Frame, LoveModel, PermanentSystem};
use hour::Hour;
use icgem_file::FileHead;
use lines::Found;
use own::OwnLine;
use refusals::Refusal;

// The places (2,0) and (2,1); those that follow are the next ones in the list.
const PLACE_20: usize = 3;

const PLACE_21: usize = 4;

// Adds the corrections of C20, C21, C22 and of S21, S22.
fn add_five(c: &mut [i64], s: &mut [i64], d: Corrections)
    requires { FiveReady c.old s.old d }
    ensures { (c.new ≡ added_at places_c (for_c d) c.old) × (s.new ≡ added_at places_s (for_s d) s.old) }
{
    let in_c = [d.c20, d.c21, d.c22];
    let in_s = [d.s21, d.s22];
    field::add_run(c, PLACE_20, &in_c);
    field::add_run(s, PLACE_21, &in_s);
}

// Solid tide (001, eqs. 1 to 7 and Tables 6.2; document 01, "Step one" and "Step two"; document 02, T-04, T-06 and T-08).
// Given: a field, the Moon, the Sun, the Love model, an hour whose kept waves are read, a selection whose bit i names printed line i.
// Done: the corrections of both steps are added as one: of degree 2, 3 and 4 what the bodies raise, the permanent part of C20 left out,
// and to C20, C21, S21, C22 and S22 what the lines named, and no others, add.
// Answered: how many lines are named.
// Refused: 1, 2, then 14, a bit above 48, then the Moon's 3, 4, 5, then the Sun's 3, 4, 5, then 6.
pub fn solid_tide(
    n: u32,
    c: &mut [i64],
    s: &mut [i64],
    moon: Body,
    sun: Body,
    love: LoveModel,
    hour: Hour,
    selection: u64,
) -> Result<u32, Refusal>
    ensures { GivesValue (solid_tide n c.old s.old moon sun love hour selection) (lines_named selection) (tells result) c.new s.new }
{
    // The bodies first: with their numbers out of the way the field's test is a third faster.
    let seen = step_one::corrections_of(moon, sun, love);
    field::tested(n, c, s).and(selection::tested(selection))?;
    let one = seen?;
    let two = step_two::corrections_of(hour, love, selection);
    let both = solid::with_lines(one, two);
    field::add_run(c, PLACE_20, &both.c);
    field::add_run(s, PLACE_20, &both.s);
    Ok(selection::lines_named(selection))
}

// The hour that others begin from (document 02, T-08): all phases zero, with the waves of the printed lines at them.
pub fn start_hour() -> Hour
    ensures { result ≡ start_hour }
{
    hour::start()
}

// Any hour with all its phases replaced: nothing of it stays, so that none is given.
pub fn set_hour(phases: Phases) -> Hour
    ensures { result ≡ hour_at phases }
{
    hour::set_to(phases)
}

// An hour with one phase moved, wrapping round the turn. Lines that have the argument get their waves afresh; the others keep those that are held.
pub fn move_hour(hour: Hour, argument: Argument, amount: i32) -> Hour
    ensures { result ≡ moved_hour hour argument amount }
{
    hour::moved(hour, argument, amount)
}

// The selection of all 49 printed lines.
pub fn all_lines() -> u64
    ensures { result ≡ all_lines }
{
    profiles::all_lines()
}

// The selection of the printed lines that have an anelastic amplitude, ip or op, of at least ten tenths.
pub fn major_lines() -> u64
    ensures { result ≡ major_lines }
{
    profiles::major_lines()
}

// Tide lines of an operator's own (document 02, T-01).
// Given: a field, a list of line records, six phases.
// Done: the corrections of C20, C21, S21, C22 and S22 are added, each the nearest of its whole sum.
// Refused: 1, 2, then 12, more than 64 records, then 13, a value of a record out of range.
pub fn own_lines(
    n: u32,
    c: &mut [i64],
    s: &mut [i64],
    lines: &[OwnLine],
    phases: Phases,
) -> Result<(), Refusal>
    ensures { Gives (own_lines n c.old s.old lines.now phases) (answer_number result) c.new s.new }
{
    let sums = field::tested(n, c, s).and(own::sums_of(lines, phases))?;
    add_five(c, s, bands::rounded_of(sums));
    Ok(())
}

// Solid pole tide (001, "Solid Earth Pole Tide"; document 02, T-05).
// Given: a field, the pole's offsets xp and yp from its mean in micro-arcseconds, yp towards 90 degrees west, the Love model.
// Done: the corrections of C21 and S21 are added.
// Refused: 1, 2, then 15, an offset outside -1,000,000..1,000,000.
pub fn pole_tide(
    n: u32,
    c: &mut [i64],
    s: &mut [i64],
    xp: i64,
    yp: i64,
    love: LoveModel,
) -> Result<(), Refusal>
    ensures { Gives (pole_tide n c.old s.old xp yp love) (answer_number result) c.new s.new }
{
    field::tested(n, c, s).and(pole::tested(xp, yp))?;
    let d = pole::corrections_of(xp, yp, love);
    field::correct(c, PLACE_21, d.c21);
    field::correct(s, PLACE_21, d.s21);
    Ok(())
}

// Ocean tide (002; document 01, "Model sheet and ocean tide").
// Given: a field, a model sheet's bytes, six phases, the frame.
// Done: the sheet's corrections are added at its places, degree 1 skipped in the centre-of-mass frame.
// Refused: 1, 2, then the sheet's 7, 8, 16, 9.
pub fn ocean_tide(
    n: u32,
    c: &mut [i64],
    s: &mut [i64],
    sheet: &[u8],
    phases: Phases,
    frame: Frame,
) -> Result<(), Refusal>
    ensures { Gives (ocean_tide n c.old s.old sheet.now phases frame) (answer_number result) c.new s.new }
{
    let sheet = field::tested(n, c, s).and(accept::tested(sheet, n))?;
    ocean::add_tide(c, s, &sheet, phases, frame);
    Ok(())
}

// The permanent tide of one C20 (document 01, "Permanent systems").
// Given: a C20 in counts, the system it is in, the system wanted, the Love model.
// Answered: the moved C20.
// Refused: 2.
pub fn move_c20(
    c20: i64,
    from: PermanentSystem,
    to: PermanentSystem,
    love: LoveModel,
) -> Result<i64, Refusal>
    ensures { tells result ≡ moved_c20 c20 from to love }
{
    permanent::move_c20(c20, from, to, love)
}

// What a gravity field file says beside its coefficients (document 02, T-10).
// Given: the bytes of a file.
// Answered: its degree, gravity constant in m3/s2, radius in millimetres and permanent system, each decimal exact and rounded once.
// Refused: 17, then 18, then 19, then 20, each looking at the whole file.
pub fn file_head(text: &[u8]) -> Result<FileHead, Refusal>
    ensures { tells result ≡ file_head text.now }
{
    icgem_read::file_head(text)
}

// A gravity field file read (document 02, T-10).
// Given: the bytes of a file, and two lists.
// Done: every entry of both lists is set, S at order 0 too: to the count of its line, or to zero where the file has none.
// Answered: as file_head.
// Refused: as file_head, then 1, lists that do not fit the file's degree.
pub fn read_field(text: &[u8], c: &mut [i64], s: &mut [i64]) -> Result<FileHead, Refusal>
    ensures { Reads (read_file text.now c.old s.old) (tells result) c.new s.new }
{
    icgem_read::read_field(text, c, s)
}

// A field written as the text of a gravity field file (document 02, T-10).
// Given: a field, its gravity constant in m3/s2, its radius in millimetres, its permanent system, an output of bytes.
// Done: the text stands at the output's start, coefficients with 15 decimals; every byte after it stays.
// Answered: how many bytes were written, 54*(9 + (n+1)(n+2)/2).
// Refused: 1, 2, then 21, an output of fewer bytes than the text has.
pub fn write_field(
    n: u32,
    c: &[i64],
    s: &[i64],
    constant: u64,
    radius: u64,
    system: PermanentSystem,
    out: &mut [u8],
) -> Result<usize, Refusal>
    ensures { Writes n c.now s.now constant radius system out.old (tells result) out.new }
{
    icgem_write::write_field(n, c, s, constant, radius, system, out)
}

// A Doodson number's six multipliers (document 01, "Doodson numbers"). Refused: 10.
pub fn multipliers_of(number: u32) -> Result<Multipliers, Refusal>
    ensures { tells result ≡ read_doodson number }
{
    doodson::multipliers_of(number)
}

// The Doodson number that writes six multipliers. Refused: 10.
pub fn number_of(n: Multipliers) -> Result<u32, Refusal>
    ensures { tells result ≡ write_doodson n }
{
    doodson::number_of(n)
}

// A printed line by its Doodson number: its index 0..48 and its two printed amplitudes. Refused: 10, then 11.
pub fn find_line(number: u32) -> Result<Found, Refusal>
    ensures { tells result ≡ find_line number }
{
    lines::find_line(number)
}
