// The form of the cases. A line is steps with a semicolon between them; what stands between two bars is no step but text. A step is a word, of
// which the first letter counts, then a number with a colon, then bytes: in decimal, or characters in quotes. Each of the three may be missing.
// Bytes are counted from 1, as document 01 counts those of a body, and `@17` repeats the byte before it until the next is byte 17.
ghost use Rattle.std.specs.Prelude.{◌<◌, ◌≤◌, length, IfSome};
ghost use Rattle.vectors.specs.declared.script.TheConstants.{ROOM};

// How many bytes of one step there is room for. What has none is not laid, and waits.
const ROOM: usize = 299;

// A text or a step, what it stops at, and what is left behind that.
#[derive(Clone, Copy)]
pub struct Piece<'a> {
    pub bytes: &'a [u8],
    pub stop: u8,
    pub left: &'a [u8],
}

// The first text or step; nothing where none stops.
pub(crate) fn first_piece(s: &[u8], text: bool) -> Option<Piece<'_>>
    ensures { IfSome result (λ piece. length piece.left.now < length s.now) }
{
    let n = s.iter().position(|c| match *c {
        b'|' | b'\n' => true,
        b';' => !text,
        _ => false,
    })?;
    let (bytes, rest) = s.split_at(n);
    let (stop, left) = rest.split_first()?;
    Some(Piece {
        bytes,
        stop: *stop,
        left,
    })
}

// A step as far as it is read: its word's letter, the number with a colon, and its bytes, the room's first `len`; those behind are 0. There is no heap, so a
// step has the room of the longest. Then the value of the digits since, if there were any, whether they stand behind an @, and whether a quote is open: two
// flags, since either can be so without the other.
#[derive(Clone, Copy)]
pub struct Step {
    pub letter: Option<u8>,
    pub number: u32,
    room: [u8; ROOM],
    len: usize,
    digits: Option<u32>,
    until: bool,
    quoted: bool,
    ghost within: { len ≤ ROOM },
}

impl Step {
    pub(crate) fn read(s: &[u8]) -> Step {
        let mut step = Step {
            letter: None,
            number: 0,
            room: [0; ROOM],
            len: 0,
            digits: None,
            until: false,
            quoted: false,
        };
        for c in s {
            step.add(*c);
        }
        step.end_digits();
        step
    }

    pub(crate) fn bytes(&self) -> &[u8] {
        &self.room[..self.len]
    }

    // The number as a place or a length. `as`, since there is no From of a u32, and a TryFrom would have a failure that never comes.
    pub(crate) fn place(&self) -> usize {
        self.number as usize
    }

    // The first two of its bytes, 0 where there are fewer.
    pub(crate) fn first_two(&self) -> (u8, u8) {
        (self.room[0], self.room[1])
    }

    // One more character. A number that has no digits is 0, as the form has it: what may be missing there is told apart nowhere.
    fn add(&mut self, c: u8) {
        if self.quoted {
            self.add_quoted(c);
            return;
        }
        match c {
            b'"' => self.quoted = true,
            b'0'..=b'9' => {
                let digits = self.digits.unwrap_or(0);
                self.digits = Some(10 * (digits % 10000) + u32::from(c - b'0'));
            }
            b' ' => self.end_digits(),
            b':' => self.number = self.digits.take().unwrap_or(0),
            b'@' => self.until = true,
            // A NUL is no word, and leaves a step without one.
            0 => {}
            _ => {
                if self.letter.is_none() {
                    self.letter = Some(c);
                }
            }
        }
    }

    // One within quotes.
    fn add_quoted(&mut self, c: u8) {
        if c == b'"' {
            self.quoted = false;
        } else {
            self.digits = Some(u32::from(c));
            self.end_digits();
        }
    }

    // The end of digits, if there were any. What could not be laid waits with its @, and further digits go behind it.
    fn end_digits(&mut self) {
        if let Some(n) = self.digits
            && self.lay(n)
        {
            self.digits = None;
            self.until = false;
        }
    }

    // A byte, or behind an @ the number of the byte that comes next: whether there was a place for it. A byte is the remainder by 256, which `as` leaves as
    // it is: a TryFrom would have a failure that never comes, and so would one that widens.
    fn lay(&mut self, n: u32) -> bool {
        if !self.until {
            return self.fill(self.len + 1, (n % 256) as u8);
        }
        let last = self.bytes().last().copied().unwrap_or(0);
        match (n as usize).checked_sub(1) {
            Some(len) => self.fill(len, last),
            None => false,
        }
    }

    // The bytes up to this length are b, where those that are there leave them and there is room: whether it was so.
    fn fill(&mut self, len: usize, b: u8) -> bool {
        let fits = self.len <= len && len <= ROOM;
        if fits {
            self.room[self.len..len].fill(b);
            self.len = len;
        }
        fits
    }
}
