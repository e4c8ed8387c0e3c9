// Where the input is cut.
ghost use Rattle.std.specs.Prelude.{◌≡◌, ◌==◌, position};
ghost use Rattle.text.specs.Cut.{piece_end};

// Where the first 0Ah stands.
fn first_end(s: &[u8]) -> Option<usize>
    ensures { result ≡ position (λ b. b == 10) s.now }
{
    s.iter().position(|b| *b == b'\n')
}

// The index just past the piece that begins at `from`.
pub fn piece_end(input: &[u8], from: usize) -> usize
    ensures { result ≡ piece_end from input.now }
{
    let start = from.min(input.len());
    match first_end(&input[start..]) {
        Some(i) => start + i + 1,
        None => input.len(),
    }
}
