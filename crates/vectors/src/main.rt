// Worked cases of the customer's rules, run: frames, an image and what is asked of it. The cases stand in `stdin`, whose first lines say what its
// words do; `stdout` has what documents 01 and 02 say of them, a line for each line.
#![tactic(auto)]

mod answers;
mod cells;
mod images;
mod line;
mod script;
mod steps;

use std::io;
use steps::Bench;

// More than the cases take. What lay past it would not be read, and the output would be short of `stdout`.
const CASES_ROOM: usize = 262144;

// These lines the probe has too, over its own room and its own steps: a function for both would take a room, a maker and the steps, and be as long.
fn main(rt: HostRuntime) -> io::Result<()> {
    let mut text = [0u8; CASES_ROOM];
    let (n, read) = intake::read_full(&mut rt.stdin(), &mut text);
    let mut bench = Bench::new(rt.stdout());
    bench.lines(&text[..n]);
    read.and(bench.finish())
}
