// Frames off a noisy line (document 02, request 1): a listener takes one byte at a time and says when a frame is there. It refuses nothing.
#![tactic(auto)]

mod step;

ghost use Rattle.std.specs.Prelude.{◌≡◌};
ghost use Rattle.listener.specs.Listening.{listened, idle};

use step::Effect;

// The bytes gathered, how many of them count, and whether it is gathering; nothing else is kept between two bytes. Who has the line holds one of these for
// it, and lends it with each byte. Document 02 names these three, so the bytes gathered are no type of their own.
#[derive(Clone, Copy)]
pub struct Listener {
    pub room: [u8; 269],
    pub count: usize,
    pub gathering: bool,
}

// The record after a byte, and whether a frame is there now.
#[derive(Clone, Copy)]
pub struct Listened {
    pub listener: Listener,
    pub there: bool,
}

// Takes one byte of the line; true where it ends a frame, which then is the first `count` bytes of the room, until the next 3Ah. Every record is taken,
// whatever stands in it.
pub fn listen(l: &mut Listener, byte: u8) -> bool
    ensures { record { listener = l.new; there = result } ≡ listened l.old byte }
{
    let before = l.room[step::before_at(l.count)];
    match step::step_of(before, l.count, l.gathering, byte) {
        Effect::Passes => false,
        Effect::Drops => {
            l.count = 0;
            l.gathering = false;
            false
        }
        Effect::Gathers { at, ends } => {
            l.room[at] = byte;
            l.count = at + 1;
            l.gathering = !ends;
            ends
        }
    }
}

// The same for a record that is handed over and handed back.
pub fn listen_by_value(l: Listener, byte: u8) -> Listened
    ensures { result ≡ listened l byte }
{
    let mut listener = l;
    let there = listen(&mut listener, byte);
    Listened { listener, there }
}

// A record that waits for a frame's first byte.
#[tactic(auto, unfolding(crate::specs::Listening::idle, laws::specs::Bytes::zeros))]
pub fn idle() -> Listener
    ensures { result ≡ idle }
{
    Listener {
        room: [0; 269],
        count: 0,
        gathering: false,
    }
}
