// Making a lent buffer a fresh image.
ghost use Rattle.output.specs.Refusal.{number_in};
ghost use Rattle.image.specs.Version.{current};
ghost use Rattle.image.specs.Made.{Makes};
ghost use Rattle.image.specs.Fresh.{freshened};

use crate::version::{ADDRESS_OFFSET, IMAGE_LENGTH, NUMBER_OFFSET, Version};
use crate::word::put_word;
use output::Refusal;

// Refused in this order.
pub fn freshen(m: &mut [u8], address: u8) -> Result<(), Refusal>
    ensures { Makes (freshened current m.old address) (number_in result) m.new }
{
    if m.len() != IMAGE_LENGTH {
        return Err(Refusal::Image);
    }
    if address == 0 {
        return Err(Refusal::Value);
    }
    m.fill(0);
    m[..NUMBER_OFFSET].copy_from_slice(b"IZK");
    put_word(m, NUMBER_OFFSET, u16::from(Version::CURRENT.number()));
    m[ADDRESS_OFFSET] = address;
    Ok(())
}
