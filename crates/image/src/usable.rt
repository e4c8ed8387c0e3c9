// When an image is usable. A byte that no rule names is not judged. A test goes through all its bytes, also once one has failed, so that the
// compiler can take several at a time: `all` of an iterator would end early. Each asks for the bytes that it reads, of an image of either version,
// and goes by places: the eight counts stand 64 bytes apart, and a word is read by its place as everywhere.
ghost use Rattle.std.specs.Prelude.{◌≡◌, ◌≤◌, length};
ghost use Rattle.laws.specs.Checks.{every};
ghost use Rattle.image.specs.Usable.{mark_ok, count_ok, word_ok, usable};

use crate::cell::Cell;
use crate::version::{ADDRESS_OFFSET, Version};
use crate::word::word_at;

// The letters IZK, and the version. Byte by byte: `m[..5] == [..]` was tried and took three times as long, since it calls the library's scan at each frame,
// and a pattern twice. Bracketed as the definition is, so that the two compute alike.
fn mark_ok(m: &[u8], version: Version) -> bool
    requires { 5 ≤ length m.now }
    ensures { result ≡ mark_ok version m.now }
{
    (m[0] == b'I')
        & ((m[1] == b'Z') & ((m[2] == b'K') & ((m[3] == 0) & (m[4] == version.number()))))
}

fn counts_ok(m: &[u8]) -> bool
    requires { 1225 ≤ length m.now }
    ensures { result ≡ every (count_ok m.now) 8 }
{
    let mut ok = true;
    for e in 0..8usize {
        ok = (m[Cell::ERRORS_OFFSET + Cell::ERRORS_SIZE * e] <= 21) & ok;
    }
    ok
}

fn words_ok(m: &[u8]) -> bool
    requires { 49 ≤ length m.now }
    ensures { result ≡ every (word_ok m.now) 16 }
{
    let mut ok = true;
    for k in 0..16usize {
        let w = word_at(m, Cell::WORDS_OFFSET + Cell::WORD_SIZE * k);
        ok = (w <= 2047) & ok;
    }
    ok
}

pub fn is_usable(m: &[u8], version: Version) -> bool
    ensures { result ≡ usable version m.now }
{
    m.len() == version.length()
        && mark_ok(m, version)
        && m[ADDRESS_OFFSET] != 0
        && counts_ok(m)
        && words_ok(m)
}
