// Runs the unit's calls on stored cases: a byte for the call, and what the call takes. A line each: the answer's number, 0 where the call is
// accepted, and what it answers; of a call over a field, then every entry of both lists as they are afterwards.

#![tactic(auto)]

use arguments::{Argument, Multipliers};
use bodies::{Body, Place};
use choices::{Frame, LoveModel, PermanentSystem};
use hour::Hour;
use refusals::Refusal;
use replay::{read_f64, read_i32, read_i64, read_u8, read_u32, write_next, write_number};
use std::io::StdinLock;

// Room for the longest list of a case, which is of degree 60.
const ROOM: usize = 2048;

// An answer's number, and where the call is accepted what it tells.
fn write_told<T: Copy, F: FnOnce(T)>(rt: &HostRuntime, told: Result<T, Refusal>, write: F)
    requires { F.IsAlwaysCallable write }
{
    match told {
        Ok(value) => {
            write_number(rt, 0);
            write(value);
        }
        Err(why) => write_number(rt, u32::from(why)),
    }
}

fn write_small(rt: &HostRuntime, x: i32) {
    write_next(rt, i64::from(x));
}

fn write_small_numbers(rt: &HostRuntime, numbers: &[i32]) {
    for x in numbers {
        write_small(rt, *x);
    }
}

fn read_multipliers(input: &mut StdinLock) -> Multipliers {
    let mut list = [0i32; 6];
    for multiplier in list.iter_mut() {
        *multiplier = read_i32(input);
    }
    Multipliers::from(list)
}

fn read_system(input: &mut StdinLock) -> PermanentSystem {
    PermanentSystem::try_from(u32::from(read_u8(input))).unwrap_or(PermanentSystem::Mean)
}

fn read_love(input: &mut StdinLock) -> LoveModel {
    LoveModel::try_from(u32::from(read_u8(input))).unwrap_or(LoveModel::Anelastic)
}

fn read_frame(input: &mut StdinLock) -> Frame {
    Frame::try_from(u32::from(read_u8(input))).unwrap_or(Frame::CentreOfMass)
}

fn read_argument(input: &mut StdinLock) -> Argument {
    Argument::try_from(u32::from(read_u8(input))).unwrap_or(Argument::Ps)
}

fn read_place(input: &mut StdinLock) -> Place {
    let kind = read_u8(input);
    let one = read_f64(input);
    let two = read_f64(input);
    let three = read_f64(input);
    let distance = read_f64(input);
    if kind == 0 {
        Place::Rectangular(one, two, three, distance)
    } else {
        Place::Directional(one, two, three, distance)
    }
}

fn read_body(input: &mut StdinLock) -> Body {
    let ratio = read_f64(input);
    let place = read_place(input);
    Body { ratio, place }
}

fn read_values(input: &mut StdinLock) -> [i32; 49] {
    let mut values = [0i32; 49];
    for value in values.iter_mut() {
        *value = read_i32(input);
    }
    values
}

// An hour written by hand.
fn read_written(input: &mut StdinLock) -> Hour {
    let phases = replay::read_phases(input);
    let cosines = read_values(input);
    let sines = read_values(input);
    Hour {
        phases,
        cosines,
        sines,
    }
}

fn read_moved(input: &mut StdinLock, hour: Hour) -> Hour {
    let argument = read_argument(input);
    let amount = read_i32(input);
    surfgimlet::move_hour(hour, argument, amount)
}

fn read_step(input: &mut StdinLock, hour: Hour) -> Hour {
    match read_u8(input) {
        0 => surfgimlet::set_hour(replay::read_phases(input)),
        1 => read_moved(input, hour),
        _ => read_written(input),
    }
}

// An hour: how many steps lead to it from the start, and each of them.
fn read_hour(input: &mut StdinLock) -> Hour {
    let mut hour = surfgimlet::start_hour();
    for _ in 0..read_u32(input) {
        hour = read_step(input, hour);
    }
    hour
}

fn hour(rt: &HostRuntime, input: &mut StdinLock) {
    let hour = read_hour(input);
    let b = hour.phases;
    write_number(rt, 0);
    for phase in [b.tau, b.s, b.h, b.p, b.np, b.ps] {
        write_next(rt, i64::from(phase));
    }
    write_small_numbers(rt, &hour.cosines);
    write_small_numbers(rt, &hour.sines);
}

fn multipliers_of(rt: &HostRuntime, input: &mut StdinLock) {
    let told = surfgimlet::multipliers_of(read_u32(input));
    write_told(rt, told, |m| write_small_numbers(rt, &<[i32; 6]>::from(m)));
}

fn number_of(rt: &HostRuntime, input: &mut StdinLock) {
    let told = surfgimlet::number_of(read_multipliers(input));
    write_told(rt, told, |number| write_next(rt, i64::from(number)));
}

fn find_line(rt: &HostRuntime, input: &mut StdinLock) {
    let told = surfgimlet::find_line(read_u32(input));
    write_told(rt, told, |line| {
        replay::write_index(rt, line.index);
        write_next(rt, line.first);
        write_next(rt, line.second);
    });
}

fn move_c20(rt: &HostRuntime, input: &mut StdinLock) {
    let c20 = read_i64(input);
    let from = read_system(input);
    let to = read_system(input);
    let love = read_love(input);
    let told = surfgimlet::move_c20(c20, from, to, love);
    write_told(rt, told, |moved| write_next(rt, moved));
}

fn solid_tide(rt: &HostRuntime, input: &mut StdinLock, n: u32, c: &mut [i64], s: &mut [i64]) {
    let love = read_love(input);
    let moon = read_body(input);
    let sun = read_body(input);
    let hour = read_hour(input);
    let selection = replay::read_u64(input);
    let told = surfgimlet::solid_tide(n, c, s, moon, sun, love, hour, selection);
    write_told(rt, told, |lines| write_next(rt, i64::from(lines)));
}

fn ocean_tide(rt: &HostRuntime, input: &mut StdinLock, n: u32, c: &mut [i64], s: &mut [i64]) {
    let frame = read_frame(input);
    let phases = replay::read_phases(input);
    let mut sheet = [0u8; 65536];
    let count = replay::read_bytes(input, &mut sheet);
    let told = surfgimlet::ocean_tide(n, c, s, &sheet[..count], phases, frame);
    write_number(rt, refusals::answer_number(told));
}

fn pole_tide(rt: &HostRuntime, input: &mut StdinLock, n: u32, c: &mut [i64], s: &mut [i64]) {
    let love = read_love(input);
    let xp = read_i64(input);
    let yp = read_i64(input);
    let told = surfgimlet::pole_tide(n, c, s, xp, yp, love);
    write_number(rt, refusals::answer_number(told));
}

// A call over lists of these lengths.
fn over_lists<F: FnOnce(&HostRuntime, &mut StdinLock, u32, &mut [i64], &mut [i64])>(
    rt: &HostRuntime,
    input: &mut StdinLock,
    n: u32,
    c: &mut [i64],
    s: &mut [i64],
    call: F,
)
    requires { F.IsAlwaysCallable call }
{
    replay::read_entries(input, c);
    replay::read_entries(input, s);
    call(rt, input, n, c, s);
    replay::write_entries(rt, c);
    replay::write_entries(rt, s);
}

// A call over a field: its degree, the lengths of its lists, and their entries come before what the call takes besides.
fn over_field<F: FnOnce(&HostRuntime, &mut StdinLock, u32, &mut [i64], &mut [i64])>(
    rt: &HostRuntime,
    input: &mut StdinLock,
    call: F,
)
    requires { F.IsAlwaysCallable call }
{
    let n = read_u32(input);
    let mut c = [0i64; ROOM];
    let mut s = [0i64; ROOM];
    let c_length = replay::read_count(input, &c);
    let s_length = replay::read_count(input, &s);
    over_lists(rt, input, n, &mut c[..c_length], &mut s[..s_length], call);
}

fn run_case(rt: &HostRuntime, input: &mut StdinLock) {
    match read_u8(input) {
        0 => multipliers_of(rt, input),
        1 => number_of(rt, input),
        2 => find_line(rt, input),
        3 => move_c20(rt, input),
        4 => over_field(rt, input, solid_tide),
        5 => over_field(rt, input, ocean_tide),
        7 => hour(rt, input),
        _ => over_field(rt, input, pole_tide),
    }
    replay::end_line(rt);
}

fn main(rt: HostRuntime) {
    let mut stdin = rt.reader();
    let input = &mut stdin;
    for _ in 0..read_u32(input) {
        run_case(&rt, input);
    }
}
