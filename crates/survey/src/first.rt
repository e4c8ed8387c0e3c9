// The first frame of a file, by whose address and table all are judged.
ghost use Rattle.std.specs.Prelude.{◌≡◌, [], false, get_or, MatchOption};
ghost use Rattle.text.specs.Cut.{pieces};
ghost use Rattle.survey.specs.File.{is_frame};
ghost use Rattle.survey.specs.Gather.{Opens};

#[derive(Clone, Copy)]
pub(crate) struct First {
    pub address: u8,
    pub table: u8,
}

// Nothing where the first piece is no frame: the file is refused for that. A byte that the contents of a short one do not have is 0, as the definition reads
// it, and no option: 0 is no address and no table, so that it is refused with those.
pub(crate) fn first_of(file: &[u8]) -> Option<First>
    ensures { MatchOption result (is_frame (get_or (pieces file.now) 0 []) ≡ false) (Opens file.now) }
{
    let piece = file.split_inclusive(|b| *b == b'\n').next()?;
    let mut work = [0u8; 133];
    let n = frame::read_into(piece, &mut work).ok()?;
    let contents = &work[..n];
    Some(First {
        address: contents.first().copied().unwrap_or(0),
        table: contents.get(2).copied().unwrap_or(0),
    })
}
