// Shows what the desk program cannot: the image and the output after each call of a script, and what a listener hands out. tests/PROBE.md has the
// script's form.
#![tactic(auto)]

mod buffer;
mod probe;
mod script;

use probe::Probe;
use std::io;

// At most so many bytes of a script are read.
const SCRIPT_ROOM: usize = 65536;

// These lines `vectors` has too, over its own room and its own steps: a function for both would take a room, a maker and the steps, and be as long.
fn main(rt: HostRuntime) -> io::Result<()> {
    let mut text = [0u8; SCRIPT_ROOM];
    let (n, read) = intake::read_full(&mut rt.stdin(), &mut text);
    let mut probe = Probe::new(rt.stdout());
    probe.run(&text[..n]);
    read.and(probe.finish())
}
