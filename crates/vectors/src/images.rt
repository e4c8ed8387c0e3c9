// What is in an image, and what is judged and asked of it.
ghost use Rattle.std.specs.Prelude.{◌≡◌, ◌≢◌};
ghost use Rattle.laws.specs.Checks.{first_failing};
ghost use Rattle.image.specs.Version.{current};
ghost use Rattle.tables.specs.Quantity.{table_bytes, quantity_checks, answered};
ghost use Rattle.survey.specs.File.{file_checks};
ghost use Rattle.survey.specs.Described.{Says};

use image::{Cell, Version};
use page::Page;
use std::io::Stdout;

// Where they fit, else not at all.
pub(crate) fn put(image: &mut [u8], at: usize, bytes: &[u8]) {
    if let Some(rest) = image.get_mut(at..)
        && let Some(place) = rest.get_mut(..bytes.len())
    {
        place.copy_from_slice(bytes);
    }
}

// n bytes from `from` on, or as many as there are, so that no caller has a slice of n to give.
pub(crate) fn get(page: &mut Page<Stdout>, image: &[u8], from: usize, n: u8) {
    let rest = image.get(from..).unwrap_or(&[]);
    let mut bytes = rest.iter().take(usize::from(n));
    if let Some(first) = bytes.next() {
        page.print(*first);
    }
    for b in bytes {
        page.next(*b);
    }
}

// The offset and the value of each byte from `from` on that is not 0. Where more stands before them, the first has its space too; that stays a flag, since
// it decides nothing else.
pub(crate) fn list(page: &mut Page<Stdout>, image: &[u8], from: usize, mut more: bool) {
    let rest = image.get(from..).unwrap_or(&[]);
    for (i, b) in (from..image.len()).zip(rest) {
        if *b != 0 {
            if more {
                page.text(b" ");
            }
            page.print(format_args!("{i}={b}"));
            more = true;
        }
    }
}

fn version_of(number: u8) -> Option<Version> {
    match number {
        1 => Some(Version::V1),
        2 => Some(Version::V2),
        _ => None,
    }
}

// In the version that is asked, else in the block's own.
pub(crate) fn usable(page: &mut Page<Stdout>, image: &[u8], number: u8) {
    let version = version_of(number).unwrap_or(Version::CURRENT);
    page.print(u8::from(image::is_usable(image, version)));
}

// To the version of this number, into another buffer.
pub(crate) fn moved(page: &mut Page<Stdout>, image: &[u8], number: u8, target: &mut [u8]) {
    if let Some(version) = version_of(number) {
        page.print(page::number(&versions::move_to(version, image, target)));
    }
}

pub(crate) fn held(page: &mut Page<Stdout>, image: &[u8], table: u32) {
    let answer = izk::held_parts(image, table);
    let (parts, missing) = page::held(&answer);
    page.print(page::number(&answer));
    page.next(parts);
    page.next(missing);
}

// By the promise of the question alone, with what the two that report say of any result: what it says of this table's number and of this very level,
// neither of them cut, is put to use here.
fn volume_at(m: &[u8], table: u32, asked: u32) -> (u8, u16)
    ensures number_value { result.0 ≡ first_failing (quantity_checks current m.now table asked) }
    ensures value { result.0 ≡ 0 → record { number = result.0; volume = result.1 } ≡ answered (table_bytes m.now table) asked }
    ensures volume_value { result.0 ≢ 0 → result.1 ≡ 0 }
{
    let answer = tables::quantity_at(m, table, asked);
    (page::number(&answer), tables::reported_volume(&answer))
}

// By a table whose number is one byte, or two with the high byte first.
pub(crate) fn quantity(page: &mut Page<Stdout>, image: &[u8], level: u32, bytes: &[u8]) {
    let table = match bytes {
        [] => 0,
        [number] => u32::from(*number),
        [high, low, ..] => u32::from(u16::from_be_bytes([*high, *low])),
    };
    let (number, volume) = volume_at(image, table, level);
    page.print(number);
    page.next(volume);
}

// By the promise of the checker alone: what it says of these very bytes is put to use here.
fn number_of(bytes: &[u8]) -> u8
    ensures value { result ≡ first_failing (file_checks bytes.now) }
    ensures says { Says bytes.now result }
{
    page::number(&survey::check_file(bytes))
}

// As a table file.
pub(crate) fn file(page: &mut Page<Stdout>, bytes: &[u8]) {
    page.print(number_of(bytes));
}

// The sum of an item's bytes, of which it has 65,536 at most.
pub(crate) fn total(page: &mut Page<Stdout>, item: &[u8]) {
    if item.len() <= 65536 {
        page.print(storing::sum(item));
    }
}

// As command 59 leaves the word: the part's bit is set in it, and read back.
fn write(m: &mut [u8], table: u8, part: u8) -> bool {
    let Some(Cell::Part(k, p)) = Cell::part(table, part) else {
        return false;
    };
    let at = Cell::WORDS_OFFSET + Cell::WORD_SIZE * usize::from(k);
    if m.len() < at + Cell::WORD_SIZE {
        return false;
    }
    let w = image::word_at(m, at);
    image::put_word(m, at, image::set_bit(w, u16::from(p)));
    image::has_bit(image::word_at(m, at), u16::from(p))
}

// Whether the bit was read back, and what is held then.
pub(crate) fn mark(page: &mut Page<Stdout>, m: &mut [u8], table: u8, part: u8) {
    page.print(u8::from(write(m, table, part)));
    page.text(b" ");
    held(page, m, u32::from(table));
}
