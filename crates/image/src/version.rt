// The versions of an image, which of them the block serves, and where the version's number and the address stand in an image of any.
ghost use Rattle.std.specs.Prelude.{◌≡◌};
ghost use Rattle.image.specs.Version.{version_number, image_length};

// Version 1 is document 01's; version 2 keeps the signatures.
#[derive(Clone, Copy)]
pub enum Version {
    V1,
    V2,
}

impl Version {
    // how long an image of each is
    pub const LENGTH_1: usize = 23753;

    pub const LENGTH_2: usize = 23817;

    // the one that the block serves
    pub const CURRENT: Version = Version::V2;

    // As it stands in the image. A method and no `From`: a version has its length too, and which of the two a conversion gives would not be said.
    pub fn number(self) -> u8
        ensures { result ≡ version_number self }
    {
        match self {
            Version::V1 => 1,
            Version::V2 => 2,
        }
    }

    pub fn length(self) -> usize
        ensures { result ≡ image_length self }
    {
        match self {
            Version::V1 => Version::LENGTH_1,
            Version::V2 => Version::LENGTH_2,
        }
    }
}

// Of an image that the block serves.
pub const IMAGE_LENGTH: usize = Version::LENGTH_2;

pub const NUMBER_OFFSET: usize = 3;

pub const ADDRESS_OFFSET: usize = 5;
