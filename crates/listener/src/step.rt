// What a byte of the line does, over plain values: nothing here sees the room.
ghost use Rattle.std.specs.Prelude.{◌≡◌, ◌<◌};
ghost use Rattle.listener.specs.Listening.{ends_frame, step_of, step_by, before_at};

// What a byte does to a record: it is let pass; or what was gathered is dropped; or it is gathered, at an index of the room, and may end the frame.
#[derive(Clone, Copy)]
pub(crate) enum Effect {
    Passes,
    Drops,
    Gathers { at: usize, ends: bool },
}

// Where the byte before the next one stands; 0 where none is gathered, and for a count that no room has.
#[tactic(auto, unfolding(crate::specs::Listening::before_at, laws::specs::Checks::within))]
pub(crate) fn before_at(count: usize) -> usize
    ensures { (result ≡ before_at count) × (result < 269) }
{
    match count {
        1..=269 => count - 1,
        _ => 0,
    }
}

// 0Ah right after 0Dh. The first byte gathered has none before it.
#[tactic(auto, unfolding(crate::specs::Listening::ends_frame))]
fn ends_frame(before: u8, count: usize, byte: u8) -> bool
    ensures { result ≡ ends_frame before count byte }
{
    count != 0 && before == b'\r' && byte == b'\n'
}

#[tactic(auto, unfolding(crate::specs::Listening::step_of))]
pub(crate) fn step_of(before: u8, count: usize, gathering: bool, byte: u8) -> Effect
    ensures { step_by count gathering result ≡ step_of before count gathering byte }
{
    if byte == b':' {
        return Effect::Gathers { at: 0, ends: false };
    }
    if !gathering {
        return Effect::Passes;
    }
    if 269 < count {
        return Effect::Passes;
    }
    // There is no room for it.
    if count == 269 {
        return Effect::Drops;
    }
    Effect::Gathers {
        at: count,
        ends: ends_frame(before, count, byte),
    }
}
