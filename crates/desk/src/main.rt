// The desk program: serves the frames that stand on standard input, and prints a line for each.
#![tactic(auto)]

ghost use Rattle.std.specs.Prelude.{◌≡◌, IfSome, OnOk};
ghost use Rattle.std.specs.Io.KnownBytes.{Appends};
ghost use Rattle.desk_run.specs.Desk.{Lent, desk_image, desk_text};

use desk_run::INPUT_ROOM;
use image::IMAGE_LENGTH;
use std::io;
use std::io::{Read, Write};

// The text of some two hundred lines goes out at once.
const TEXT_ROOM: usize = 65536;

fn main(rt: HostRuntime) -> io::Result<()> {
    serve(&mut rt.stdin(), &mut rt.stdout())
}

// Of a reader and a writer whose bytes are known, and where neither fails: the text of all that is read is written, and nothing else. Input that cannot be
// read counts as ended there, and the failure is handed on behind the text.
fn serve<R: Read, W: Write>(input: &mut R, output: &mut W) -> io::Result<()>
    ensures { OnOk result (IfSome (R.remaining input.old)
        (λ xs. Appends (W.contents output.old) (W.contents output.new) (desk_text xs))) }
{
    let mut buffer = [0u8; INPUT_ROOM];
    let (n, read) = intake::read_full(input, &mut buffer);
    let mut m = [0u8; IMAGE_LENGTH];
    let mut text = [0u8; TEXT_ROOM];
    read.and(print_all(output, &buffer[..n], &mut m, &mut text))
}

// The text goes out in portions as large as it has room for, to the input's end: the image is the one that the whole input leaves, and what a writer
// whose bytes are known was given is the desk's text. Where a portion cannot be written nobody is there to read the rest, and serving it does no harm;
// the first failure is handed on. A portion is written before it is asked whether another follows, so that the test stands inside the loop.
fn print_all<W: Write>(
    output: &mut W,
    input: &[u8],
    m: &mut [u8],
    text: &mut [u8],
) -> io::Result<()>
    requires { Lent m.old text.old }
    ensures image { m.new ≡ desk_image input.now m.old }
    ensures text { OnOk result
        (Appends (W.contents output.old) (W.contents output.new) (desk_text input.now)) }
{
    let mut written = Ok(());
    let mut portion = desk_run::start(input, m, text);
    loop {
        written = written.and(output.write_all(&text[..portion.len]));
        if input.len() <= portion.from {
            return written;
        }
        portion = desk_run::run(input, portion.from, m, text);
    }
}
