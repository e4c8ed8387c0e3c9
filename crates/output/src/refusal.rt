// What is refused, by the rule that is broken.
ghost use Rattle.std.specs.Prelude.{◌≡◌};
ghost use Rattle.output.specs.Refusal.{number_of};

// Document 01's refusals and, from `Missing` on, those of document 02's requests 3, 11 and 10. Each of them has its number there.
#[derive(Clone, Copy, Debug, PartialEq, Eq)]
pub enum Refusal {
    Image = 1,
    Room = 2,
    Length = 3,
    Ends = 4,
    Digit = 5,
    Checksum = 6,
    Address = 7,
    Command = 8,
    BodyLength = 9,
    Place = 10,
    Value = 11,
    Missing = 12,
    Falls = 13,
    Level = 14,
    Sealed = 16,
    Frames = 17,
    Table = 18,
    Parts = 19,
    Rows = 20,
}

// The number, as it stands at each, which is what `as` reads off an enum.
impl From<Refusal> for u8 {
    ghost from_gives = { λ e n. n ≡ number_of e };

    fn from(refusal: Refusal) -> u8 {
        refusal as u8
    }
}
