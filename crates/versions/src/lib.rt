// Moving an image from one version to the other, for depots whose blocks hold version 1 and for old spares. The source is lent to be read alone; the
// target is another buffer, and what it held does not matter. Every input is taken.
#![tactic(auto)]

ghost use Rattle.std.specs.Prelude.{◌≡◌, ◌≤◌, length};
ghost use Rattle.laws.specs.Bytes.{lay};
ghost use Rattle.output.specs.Refusal.{number_in};
ghost use Rattle.image.specs.declared.version.Version.TheVariants.{V1, V2};
ghost use Rattle.image.specs.Version.{image_length};
ghost use Rattle.image.specs.Cell.{items};
ghost use Rattle.image.specs.Words.{kept_offset};
ghost use Rattle.image.specs.Made.{Makes};
ghost use Rattle.versions.specs.Moved.{numbered, signatures, other, moved};

use image::{Cell, Version};
use output::{Cursor, Refusal};

// How many items have a signature.
const ITEMS: u8 = 32;

// The bytes that both versions have, as they are but for the number.
fn put_common(version: Version, source: &[u8], target: &mut [u8])
    requires { (image_length V1 ≤ length source.now) × (image_length V1 ≤ length target.old) }
    ensures { target.new ≡ lay target.old 0 (numbered version source.now) }
{
    Cursor { at: 0 }.put_all(target, &source[..Version::LENGTH_1]);
    image::put_word(target, image::NUMBER_OFFSET, u16::from(version.number()));
}

// The signatures that version 2 keeps, added up anew. By their numbers, from which `Cell::item` and the place of a word both come.
#[tactic(auto, using(crate::proofs::Making::from_first, image::proofs::Kept::item_is))]
fn put_signatures(source: &[u8], target: &mut [u8])
    requires { (image_length V1 ≤ length source.now) × (length target.old ≡ image_length V2) }
    ensures { target.new ≡ lay target.old (kept_offset 0) (signatures items source.now) }
{
    for i in 0..ITEMS {
        let at = Cell::TABLE_SIGNATURES_OFFSET + Cell::WORD_SIZE * usize::from(i);
        image::put_word(target, at, storing::full_sum(Cell::item(i), source));
    }
}

// The version that a move to one of them comes from: no method, since `Version` is of `image`, where nothing is moved.
fn other(version: Version) -> Version
    ensures { result ≡ other version }
{
    match version {
        Version::V1 => Version::V2,
        Version::V2 => Version::V1,
    }
}

// To a version from the other: up to version 2 with true words; down to version 1 without the words, which are not judged. Refuses 1.
pub fn move_to(version: Version, source: &[u8], target: &mut [u8]) -> Result<(), Refusal>
    ensures { Makes (moved version source.now target.old) (number_in result) target.new }
{
    if !image::is_usable(source, other(version)) {
        return Err(Refusal::Image);
    }
    if target.len() != version.length() {
        return Err(Refusal::Image);
    }
    put_common(version, source, target);
    match version {
        Version::V1 => {}
        Version::V2 => put_signatures(source, target),
    }
    Ok(())
}

// From version 1 to version 2, with true words. Refuses 1.
pub fn move_up(source: &[u8], target: &mut [u8]) -> Result<(), Refusal>
    ensures { Makes (moved V2 source.now target.old) (number_in result) target.new }
{
    move_to(Version::V2, source, target)
}

// From version 2 to version 1, without the words, which are not judged. Refuses 1.
pub fn move_down(source: &[u8], target: &mut [u8]) -> Result<(), Refusal>
    ensures { Makes (moved V1 source.now target.old) (number_in result) target.new }
{
    move_to(Version::V1, source, target)
}
