// What is known of a table's parts.
ghost use Rattle.std.specs.Prelude.{◌<◌};
ghost use Rattle.std.specs.Option.{ForSome};

// How many parts are held, and the lowest missing part if one is. Parts count from 1, so that the documents' 0 stands for none and for nothing else.
#[derive(Clone, Copy)]
pub struct Held {
    pub parts: u8,
    pub missing: Option<u8>,
    ghost counted: { ForSome missing (λ p. 0 < p) },
}
