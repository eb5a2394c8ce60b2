// Stored cases: numbers read from standard input, little-endian, and lines of decimal numbers written to standard output.
// Past the input's end every number read is 0. Whether all was written is not asked: what reads the output tells of what is missing there.

#![tactic(auto)]

ghost use Rattle.std.specs.Prelude.{◌≡◌, ◌≤◌, length, take};

use arguments::Phases;
use std::io::{Print, Read, StdinLock};
use std::num::f64_from_bits_with_nan;

// Reads until the bytes are full, the input ends or a read fails. Answered: how many were read.
// A loop of its own, since std's `read_exact` doesn't tell how many it read before the input's end.
pub fn read_full(input: &mut StdinLock, bytes: &mut [u8]) -> usize
    ensures { (result ≤ length bytes.new) × (result ≡ length (take result bytes.new)) }
{
    let mut done = 0;
    while done < bytes.len() {
        match input.read(&mut bytes[done..]) {
            Ok(0) | Err(_) => break,
            Ok(read) => done += read,
        }
    }
    done
}

fn read_array<const N: usize>(input: &mut StdinLock) -> [u8; N] {
    let mut bytes = [0u8; N];
    read_full(input, &mut bytes);
    bytes
}

pub fn read_u8(input: &mut StdinLock) -> u8 {
    u8::from_le_bytes(read_array(input))
}

pub fn read_u32(input: &mut StdinLock) -> u32 {
    u32::from_le_bytes(read_array(input))
}

// Its two halves one after the other, each of which ends where the input does: a terminal's may go on after its end.
pub fn read_u64(input: &mut StdinLock) -> u64 {
    let low = u64::from(read_u32(input));
    let high = u64::from(read_u32(input));
    high << 32 | low
}

pub fn read_i32(input: &mut StdinLock) -> i32 {
    i32::from_le_bytes(read_array(input))
}

pub fn read_i64(input: &mut StdinLock) -> i64 {
    read_u64(input).cast_signed()
}

pub fn read_f64(input: &mut StdinLock) -> f64 {
    f64_from_bits_with_nan(read_u64(input))
}

pub fn read_phases(input: &mut StdinLock) -> Phases {
    Phases {
        tau: read_u32(input),
        s: read_u32(input),
        h: read_u32(input),
        p: read_u32(input),
        np: read_u32(input),
        ps: read_u32(input),
    }
}

// How many entries of a list there are, of those that it has room for.
pub fn read_count(input: &mut StdinLock, list: &[i64]) -> usize
    ensures { (result ≤ length list.now) × (result ≡ length (take result list.now)) }
{
    list.len().min(read_u32(input) as usize)
}

// Every entry of a list.
pub fn read_entries(input: &mut StdinLock, list: &mut [i64]) {
    for entry in list.iter_mut() {
        *entry = read_i64(input);
    }
}

// Bytes after their number. Answered: that number.
pub fn read_bytes(input: &mut StdinLock, bytes: &mut [u8]) -> usize
    ensures { (result ≤ length bytes.new) × (result ≡ length (take result bytes.new)) }
{
    let count = bytes.len().min(read_u32(input) as usize);
    read_full(input, &mut bytes[..count]);
    count
}

pub fn write_number(rt: &HostRuntime, n: u32) {
    print!(rt; "{n}").ok();
}

// A space and a number.
pub fn write_next(rt: &HostRuntime, x: i64) {
    print!(rt; " {x}").ok();
}

// A space and an index.
pub fn write_index(rt: &HostRuntime, i: usize) {
    print!(rt; " {i}").ok();
}

pub fn end_line(rt: &HostRuntime) {
    println!(rt; "").ok();
}

// Every entry of a list.
pub fn write_entries(rt: &HostRuntime, list: &[i64]) {
    for x in list {
        write_next(rt, *x);
    }
}
