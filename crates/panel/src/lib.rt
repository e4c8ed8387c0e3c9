// The block for the panel's host, which is written in C (document 02, request 9): plain numbers and byte slices, each slice a pointer with its length.
// Both take every input and say, for every input, all that they return and leave. What the lent numbers held does not matter. A number of the host's is
// judged at 64 bits, so that none is taken for another.
#![tactic(auto)]

ghost use Rattle.std.specs.Prelude.{◌≡◌};
ghost use Rattle.panel.specs.Panel.{switch_of, ServesPanel, TellsPanel};

use rules::Switch;

// The position of the key switch, by the host's number: no `From`, since neither type is of this crate.
#[tactic(auto, using(crate::proofs::Switches::zero_unseals, crate::proofs::Switches::others_seal))]
fn switch_of(number: u64) -> Switch
    ensures { result ≡ switch_of number }
{
    if number == 0 {
        Switch::Unsealed
    } else {
        Switch::Sealed
    }
}

// Serves a frame as the block does; sealed is any number but 0. The reply's length is left in `len`, and the number is returned.
#[unsafe(no_mangle)]
pub extern "C" fn izk_serve(
    frame: &[u8],
    sealed: u64,
    image: &mut [u8],
    out: &mut [u8],
    len: &mut usize,
) -> u8
    ensures { ServesPanel sealed frame.now image.old out.old
        result len.new image.new out.new }
{
    match izk::serve(frame, switch_of(sealed), image, out) {
        Ok(n) => {
            *len = n;
            0
        }
        Err(refusal) => {
            *len = 0;
            refusal.into()
        }
    }
}

// Leaves in `parts` how many parts of a table are held, and in `missing` the lowest that is not; the number is returned.
#[unsafe(no_mangle)]
pub extern "C" fn izk_held_parts(image: &[u8], table: u64, parts: &mut u8, missing: &mut u8) -> u8
    ensures { TellsPanel image.now table result parts.new missing.new }
{
    // A number that 32 bits do not hold is no table's: it goes in as 0, which is none either, and is not cut.
    match izk::held_parts(image, u32::try_from(table).unwrap_or(0)) {
        Ok(held) => {
            *parts = held.parts;
            *missing = held.missing.unwrap_or(0);
            0
        }
        Err(refusal) => {
            *parts = 0;
            *missing = 0;
            u8::from(refusal)
        }
    }
}
