// A signature's sum, and the word that is kept of it.
ghost use Rattle.std.specs.Prelude.{true, ◌≡◌, ◌%◌, ◌≤◌, length};
ghost use Rattle.laws.specs.Bytes.{sum_of};
ghost use Rattle.image.specs.declared.version.Version.TheVariants.{V1};
ghost use Rattle.image.specs.Version.{current, image_length};
ghost use Rattle.image.specs.Cell.{is_item};
ghost use Rattle.storing.specs.Signature.{full_sum, signature};

use image::Cell;

// The sum behind it, remainder by 65,536: the remainder stands here, and no wrapping sum, since a must-fail edit that has
// to stay tries another one; what it leaves fits.
pub fn sum(item: &[u8]) -> u16
    requires { length item.now ≤ 65536 }
    ensures { result ≡ sum_of item.now % 65536 }
{
    let total: u32 = item.iter().map(|b| u32::from(*b)).sum();
    (total % 65536) as u16
}

// An item's, added up from its bytes in an image of either version: two lengths, so that no array type has them both.
#[tactic(auto, using(laws::proofs::Bytes::slice_is), unfolding(crate::specs::Signature::full_sum))]
pub fn full_sum(cell: Cell, m: &[u8]) -> u16
    requires { (is_item cell ≡ true) × (image_length V1 ≤ length m.now) }
    ensures { result ≡ full_sum cell m.now }
{
    let start = cell.offset();
    let end = start + cell.size();
    sum(&m[start..end])
}

// The word as it stands, true or false: no byte of the item is read. Item and length are said as in `stored`.
pub fn signature_of(cell: Cell, m: &[u8]) -> u16
    requires { (is_item cell ≡ true) × (length m.now ≡ image_length current) }
    ensures { result ≡ signature current cell m.now }
{
    image::word_at(m, cell.signature_word().unwrap())
}
