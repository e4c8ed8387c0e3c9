// A script's records.
ghost use Rattle.std.specs.Prelude.{◌≡◌, ◌+◌, ◌*◌, ◌<◌, length, IfSome};

// A record: its letter, the bytes behind that, without their number where they are counted, and what is left of the script.
#[derive(Clone, Copy)]
pub struct Record<'a> {
    pub letter: u8,
    pub bytes: &'a [u8],
    pub left: &'a [u8],
}

impl Record<'_> {
    // M of its bytes from an offset on. Each letter's record has those that are asked of it; 0 stands for what one has not.
    pub(crate) fn array<const M: usize>(&self, from: usize) -> [u8; M] {
        let rest = self.bytes.get(from..).unwrap_or(&[]);
        rest.first_chunk::<M>().copied().unwrap_or([0; M])
    }
}

// The first record; nothing where a letter begins none, or where the script's end cuts it short.
pub(crate) fn first_record(script: &[u8]) -> Option<Record<'_>>
    ensures { IfSome result (λ first. length first.left.now < length script.now) }
{
    let (letter, rest) = script.split_first()?;
    let (n, rest) = match *letter {
        b'D' | b'U' | b'X' => (0, rest),
        b'F' | b'W' | b'Y' => (1, rest),
        b'L' | b'O' | b'Q' => (3, rest),
        b'H' | b'P' => (4, rest),
        b'A' => (8, rest),
        b'R' => (9, rest),
        b'B' | b'C' | b'K' | b'N' | b'S' | b'T' | b'V' => {
            let (n, rest) = rest.split_first_chunk::<2>()?;
            (usize::from(u16::from_be_bytes(*n)), rest)
        }
        _ => return None,
    };
    let (bytes, left) = rest.split_at_checked(n)?;
    Some(Record {
        letter: *letter,
        bytes,
        left,
    })
}

// A number of three bytes, high byte first as in every number.
pub(crate) fn three(high: u8, middle: u8, low: u8) -> usize
    ensures below { result < 16777216 }
    ensures value { result ≡ 65536 * high + (256 * middle + low) }
{
    usize::from_be_bytes([0, 0, 0, 0, 0, high, middle, low])
}
