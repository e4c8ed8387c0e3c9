// Frames served, taken apart and built.
ghost use Rattle.std.specs.Prelude.{◌≡◌, ◌<◌};

use crate::images;
use output::Refusal;
use page::Page;
use rules::Switch;
use std::io::Stdout;

// What outputs are full of beforehand.
const FILLER: u8 = 0xEE;

// More than a frame, a reply or a line of the desk program takes.
const ROOM: usize = 4096;

// The desk program's own line, without its end.
fn desk(page: &mut Page<Stdout>, frame: &[u8], image: &mut [u8]) {
    let mut text = [0u8; ROOM];
    let portion = desk_run::run(frame, 0, image, &mut text);
    if let Some((_, line)) = text[..portion.len].split_last() {
        page.text(line);
    }
}

// By the promise of serving alone: what the block's promise says of a sealed call is put to use here.
fn serve_sealed(frame: &[u8], image: &mut [u8], out: &mut [u8]) -> Result<usize, Refusal>
    ensures { image.new ≡ image.old }
{
    izk::serve(frame, Switch::Sealed, image, out)
}

// What the desk program would print if it were sealed.
fn sealed(page: &mut Page<Stdout>, frame: &[u8], image: &mut [u8]) {
    let mut reply = [0u8; ROOM];
    let answer = serve_sealed(frame, image, &mut reply);
    page.print(page::number(&answer));
    if let Ok(n) = answer
        && let Some(reply) = reply.get(..n)
        && let Some(text) = reply.strip_suffix(b"\r\n")
    {
        page.text(b" ");
        page.text(text);
    }
}

// Serves a frame, and prints the number and the reply as the desk program does. The switch has two positions, and its two cases are all there is to choose.
pub(crate) fn line(page: &mut Page<Stdout>, frame: &[u8], switch: Switch, image: &mut [u8]) {
    match switch {
        Switch::Unsealed => desk(page, frame, image),
        Switch::Sealed => sealed(page, frame, image),
    }
}

// The frame of these contents, its checksum added; no bytes where they have none.
fn framed<'a>(bytes: &[u8], room: &'a mut [u8]) -> &'a [u8] {
    let n = izk::build(bytes, room).unwrap_or(0);
    room.get(..n).unwrap_or(&[])
}

// The frame of these contents is laid over a buffer from an offset on.
pub(crate) fn join(bytes: &[u8], at: usize, buffer: &mut [u8]) {
    let mut room = [0u8; ROOM];
    images::put(buffer, at, framed(bytes, &mut room));
}

// The frame is built from its contents, so that its checksum is right.
pub(crate) fn contents(page: &mut Page<Stdout>, bytes: &[u8], switch: Switch, image: &mut [u8]) {
    let mut room = [0u8; ROOM];
    line(page, framed(bytes, &mut room), switch, image);
}

// Each behind a space, in two digits. They are handed on in one piece, since the system is called for each.
pub(crate) fn print_bytes(page: &mut Page<Stdout>, bytes: &[u8]) {
    for b in bytes {
        page.text(&[b' ', digit(b >> 4), digit(b & 15)]);
    }
}

// In hexadecimal, and in small letters.
fn digit(half: u8) -> u8
    requires { half < 16 }
{
    if half < 10 {
        b'0' + half
    } else {
        b'a' + (half - 10)
    }
}

// The number, the length, how many bytes of the output behind that length are as they were, and the written bytes in hexadecimal. A refusal writes none.
fn show(page: &mut Page<Stdout>, answer: Result<usize, Refusal>, out: &[u8]) {
    page.print(page::number(&answer));
    let n = page::length(&answer);
    let (written, behind) = out.split_at(n.min(out.len()));
    page.next(n);
    page.next(behind.iter().take_while(|b| **b == FILLER).count());
    print_bytes(page, written);
}

// What fills an output of so many bytes, and what it then holds.
pub(crate) fn answer<F: FnOnce(&mut [u8]) -> Result<usize, Refusal>>(
    page: &mut Page<Stdout>,
    room: usize,
    fill: F,
)
    requires { F.IsAlwaysCallable fill }
{
    let mut space = [FILLER; 400];
    if let Some(out) = space.get_mut(..room) {
        let answer = fill(out);
        show(page, answer, out);
    }
}
