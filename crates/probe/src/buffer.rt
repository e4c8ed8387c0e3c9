// A buffer of N bytes, of which a call is lent the first. There is no heap, so its length changes within a fixed room.
ghost use Rattle.std.specs.Prelude.{◌≤◌};

use image::IMAGE_LENGTH;

#[derive(Drop)]
pub struct Buffer<const N: usize> {
    bytes: [u8; N],
    len: usize,
    ghost within: { len ≤ N },
}

impl<const N: usize> Buffer<N> {
    pub(crate) fn new(len: usize) -> Self
        requires { len ≤ N }
    {
        Buffer { bytes: [0; N], len }
    }

    // No more than there are.
    pub(crate) fn lend_first(&mut self, len: usize) {
        self.len = len.min(N);
    }

    pub(crate) fn lent(&self) -> &[u8] {
        &self.bytes[..self.len]
    }

    pub(crate) fn lent_mut(&mut self) -> &mut [u8] {
        let len = self.len;
        let bytes = &mut self.bytes;
        &mut bytes[..len]
    }

    // All its bytes, lent or not.
    pub(crate) fn fill(&mut self, b: u8) {
        self.bytes.fill(b);
    }

    pub(crate) fn set(&mut self, at: usize, b: u8) {
        if at < N {
            self.bytes[at] = b;
        }
    }

    pub(crate) fn digest(&self) -> usize {
        digest(self.lent())
    }
}

// Two buffers, of which one is the image's. That they have changed places is a flag, so that no byte is copied for it; there are two, so a flag says it all.
#[derive(Drop)]
pub struct Pair {
    first: Buffer<24000>,
    second: Buffer<24000>,
    turned: bool,
}

impl Pair {
    // Each of them is lent an image's length at first.
    pub(crate) fn new() -> Self {
        Pair {
            first: Buffer::new(IMAGE_LENGTH),
            second: Buffer::new(IMAGE_LENGTH),
            turned: false,
        }
    }

    pub(crate) fn exchange(&mut self) {
        self.turned = !self.turned;
    }

    pub(crate) fn image(&mut self) -> &mut Buffer<24000> {
        let (image, _) = self.both();
        image
    }

    // The image buffer, then the second one.
    pub(crate) fn both(&mut self) -> (&mut Buffer<24000>, &mut Buffer<24000>) {
        if self.turned {
            (&mut self.second, &mut self.first)
        } else {
            (&mut self.first, &mut self.second)
        }
    }
}

// One number of an image or an output, so that two can be compared by eye.
pub(crate) fn digest(bytes: &[u8]) -> usize {
    let mut h = 1;
    for b in bytes {
        h = (257 * h + usize::from(*b) + 1) % 4294967291;
    }
    h
}
