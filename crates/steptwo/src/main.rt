// The program `steptwo` (document 01, "Cases"): 24 bytes of standard input, six little-endian phases, give the listing; any other
// number of bytes gives the line `refused`. 25 bytes are read at most, which is enough to tell.

#![tactic(auto)]

use std::io::{Eprint, Print};

fn main(rt: HostRuntime) {
    let mut input = [0u8; 25];
    let read = replay::read_full(&mut rt.reader(), &mut input);
    let mut text = [0u8; 256];
    let length = listing::listing(&input[..read], &mut text);
    if rt.write_all(&text[..length]).is_err() {
        // The status is 0 all the same, so a line on standard error has to tell.
        eprintln!(rt; "steptwo: the output could not be written").ok();
    }
}
