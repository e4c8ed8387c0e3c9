// A word of the image, and the bit that a part has in its table's word.
ghost use Rattle.std.specs.Prelude.{◌≡◌, ◌+◌, ◌/◌, ◌%◌, ◌<◌, ◌≤◌, length, eqb};
ghost use Rattle.laws.specs.Bytes.{lay, two, word_at};
ghost use Rattle.laws.specs.Bits.{bit, with_bit};

// High byte first.
pub fn word_at(m: &[u8], start: usize) -> u16
    requires { start + 2 ≤ length m.now }
    ensures { result ≡ word_at m.now start }
{
    u16::from_be_bytes([m[start], m[start + 1]])
}

pub fn put_word(m: &mut [u8], start: usize, w: u16)
    requires { start + 2 ≤ length m.old }
    ensures { m.new ≡ lay m.old start (two w) }
{
    m[start..start + 2].copy_from_slice(&w.to_be_bytes());
}

// Bits count from 0: part p of a table has bit p - 1.
pub fn set_bit(w: u16, k: u16) -> u16
    requires { k < 16 }
    ensures { result ≡ with_bit w k }
{
    w | (1u16 << k)
}

pub fn has_bit(w: u16, k: u16) -> bool
    requires { k < 16 }
    ensures { result ≡ eqb (bit w k) 1 }
{
    w & (1u16 << k) != 0
}
