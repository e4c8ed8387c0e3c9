// The checksum of bytes, by their total.
ghost use Rattle.std.specs.Prelude.{◌≡◌};
ghost use Rattle.frame.specs.Digits.{check_of};

pub(crate) fn check_of(total: u8) -> u8
    ensures { result ≡ check_of total }
{
    total.wrapping_neg()
}
