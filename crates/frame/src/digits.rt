// Characters and bytes.
ghost use Rattle.std.specs.Prelude.{◌≡◌, true, ◌*◌, ◌%◌, ◌<◌, ◌≤◌, length};
ghost use Rattle.frame.specs.Digits.{char_of};
ghost use Rattle.frame.specs.Read.{reads_digits, Decoded};

pub(crate) fn char_of(h: u8) -> u8
    requires { h < 16 }
    ensures { result ≡ char_of h }
{
    if h < 10 { b'0' + h } else { b'A' + (h - 10) }
}

// Digits are told, read and added up in one pass: by the table a digit stands for a number below 16, and no other character does. Nothing is left early,
// so that a long frame costs no guess at its end; and the total is taken on the way, since a pass over what was just stored took longer than the rest of
// a short frame's decoding. The table is handed in, so that its list stays a name in the proof; and the array is written by index, since of an `iter_mut`
// that is zipped with the pairs a proof keeps nothing of what was written.
fn decode_by(s: &[u8], table: &[u8; 256], work: &mut [u8]) -> Option<u8>
    requires { (length s.now ≤ 2 * length work.old) × (length s.now % 2 ≡ 0) × (reads_digits table.now ≡ true) }
    ensures { Decoded s.now work.old result work.new }
{
    let (pairs, _) = s.as_chunks::<2>();
    let mut seen = 0u8;
    let mut total = 0u8;
    for (k, pair) in pairs.iter().enumerate() {
        let h = table[usize::from(pair[0])];
        let l = table[usize::from(pair[1])];
        seen = seen | h | l;
        let b = (h << 4) | l;
        // as technicians add by hand (request 4): a carry past 8 bits is dropped at each byte
        total = total.wrapping_add(b);
        work[k] = b;
    }
    if seen < 16 { Some(total) } else { None }
}

// The total of the bytes that the characters stand for, which then lie over the first bytes of `work`, if all of them are digits.
pub(crate) fn decode(s: &[u8], work: &mut [u8]) -> Option<u8>
    requires { (length s.now ≤ 2 * length work.old) × (length s.now % 2 ≡ 0) }
    ensures { Decoded s.now work.old result work.new }
{
    decode_by(
        s,
        b"\xff\xff\xff\xff\xff\xff\xff\xff\xff\xff\xff\xff\xff\xff\xff\xff\
          \xff\xff\xff\xff\xff\xff\xff\xff\xff\xff\xff\xff\xff\xff\xff\xff\
          \xff\xff\xff\xff\xff\xff\xff\xff\xff\xff\xff\xff\xff\xff\xff\xff\
          \x00\x01\x02\x03\x04\x05\x06\x07\x08\x09\xff\xff\xff\xff\xff\xff\
          \xff\x0A\x0B\x0C\x0D\x0E\x0F\xff\xff\xff\xff\xff\xff\xff\xff\xff\
          \xff\xff\xff\xff\xff\xff\xff\xff\xff\xff\xff\xff\xff\xff\xff\xff\
          \xff\x0a\x0b\x0c\x0d\x0e\x0f\xff\xff\xff\xff\xff\xff\xff\xff\xff\
          \xff\xff\xff\xff\xff\xff\xff\xff\xff\xff\xff\xff\xff\xff\xff\xff\
          \xff\xff\xff\xff\xff\xff\xff\xff\xff\xff\xff\xff\xff\xff\xff\xff\
          \xff\xff\xff\xff\xff\xff\xff\xff\xff\xff\xff\xff\xff\xff\xff\xff\
          \xff\xff\xff\xff\xff\xff\xff\xff\xff\xff\xff\xff\xff\xff\xff\xff\
          \xff\xff\xff\xff\xff\xff\xff\xff\xff\xff\xff\xff\xff\xff\xff\xff\
          \xff\xff\xff\xff\xff\xff\xff\xff\xff\xff\xff\xff\xff\xff\xff\xff\
          \xff\xff\xff\xff\xff\xff\xff\xff\xff\xff\xff\xff\xff\xff\xff\xff\
          \xff\xff\xff\xff\xff\xff\xff\xff\xff\xff\xff\xff\xff\xff\xff\xff\
          \xff\xff\xff\xff\xff\xff\xff\xff\xff\xff\xff\xff\xff\xff\xff\xff",
        work,
    )
}
