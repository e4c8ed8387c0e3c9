// The cells of the image: where each stands, how long it is, and how a request's numbers name one.
ghost use Rattle.std.specs.Prelude.{◌≡◌, ◌+◌, ◌*◌, ◌≤◌};
ghost use Rattle.image.specs.Cell.{offset, size, constants_named, errors_named, index_named, table_named, part_named, item_at};
ghost use Rattle.image.specs.Words.{signature_word};

// What a command works on: one of the 195 cells, or all eleven parts of a table at once, of which its signature and a volume speak. Inside, numbers
// count from 0: channels 0..7, error tables 0..7, tables 0..15 in image order, parts 0..10. No type bounds them: the definitions and the list of the 195
// cells are written with them, and each literal there would carry a proof; so a contract says where it needs a cell, or an item.
#[derive(Clone, Copy)]
pub enum Cell {
    Mask,
    Mode,
    Clock,
    Constants(u8),
    Errors(u8),
    Part(u8, u8),
    Table(u8),
}

impl Cell {
    // where each kind begins
    pub const MASK_OFFSET: usize = 6;

    pub const MODE_OFFSET: usize = 7;

    pub const CLOCK_OFFSET: usize = 8;

    pub const WORDS_OFFSET: usize = 17;

    pub const CONSTANTS_OFFSET: usize = 49;

    pub const ERRORS_OFFSET: usize = 713;

    pub const TABLES_OFFSET: usize = 1225;

    // where the words of their signatures begin
    pub const TABLE_SIGNATURES_OFFSET: usize = 23753;

    pub const CONSTANTS_SIGNATURES_OFFSET: usize = 23785;

    pub const ERRORS_SIGNATURES_OFFSET: usize = 23801;

    // how many bytes one of a kind has
    pub const BYTE_SIZE: usize = 1;

    pub const CLOCK_SIZE: usize = 9;

    pub const WORD_SIZE: usize = 2;

    pub const CONSTANTS_SIZE: usize = 83;

    pub const ERRORS_SIZE: usize = 64;

    pub const PART_SIZE: usize = 128;

    pub const TABLE_SIZE: usize = 1408;

    pub fn mask() -> Cell
        ensures { result ≡ Cell.Mask }
    {
        Cell::Mask
    }

    pub fn mode() -> Cell
        ensures { result ≡ Cell.Mode }
    {
        Cell::Mode
    }

    pub fn clock() -> Cell
        ensures { result ≡ Cell.Clock }
    {
        Cell::Clock
    }

    // What a request's numbers name, if anything: here a channel, then an error table, a table, a part.
    pub fn constants(channel: u8) -> Option<Cell>
        ensures { result ≡ constants_named channel }
    {
        (channel < 8).then_some(Cell::Constants(channel))
    }

    // Error tables are numbered from 1 on the wire.
    pub fn errors(number: u8) -> Option<Cell>
        ensures { result ≡ errors_named number }
    {
        match number {
            1..=8 => Some(Cell::Errors(number - 1)),
            _ => None,
        }
    }

    pub fn table(number: u8) -> Option<Cell>
        ensures { result ≡ table_named number }
    {
        table_index(u32::from(number)).map(|k| Cell::Table(k))
    }

    pub fn part(number: u8, part: u8) -> Option<Cell>
        ensures { result ≡ part_named number part }
    {
        let k = table_index(u32::from(number))?;
        match part {
            1..=11 => Some(Cell::Part(k, part - 1)),
            _ => None,
        }
    }

    // The i-th of the 32 items that have a signature, from 0, in the order in which these are kept.
    pub fn item(i: u8) -> Cell
        ensures { result ≡ item_at i }
    {
        match i {
            0..=15 => Cell::Table(i),
            16..=23 => Cell::Constants(i - 16),
            _ => Cell::Errors(i - 24),
        }
    }

    pub fn offset(self) -> usize
        ensures { result ≡ offset self }
    {
        match self {
            Cell::Mask => Cell::MASK_OFFSET,
            Cell::Mode => Cell::MODE_OFFSET,
            Cell::Clock => Cell::CLOCK_OFFSET,
            Cell::Constants(c) => Cell::CONSTANTS_OFFSET + Cell::CONSTANTS_SIZE * usize::from(c),
            Cell::Errors(e) => Cell::ERRORS_OFFSET + Cell::ERRORS_SIZE * usize::from(e),
            Cell::Part(k, p) => Cell::TABLES_OFFSET
                + Cell::TABLE_SIZE * usize::from(k)
                + Cell::PART_SIZE * usize::from(p),
            Cell::Table(k) => Cell::TABLES_OFFSET + Cell::TABLE_SIZE * usize::from(k),
        }
    }

    pub fn size(self) -> usize
        ensures { result ≡ size self }
    {
        match self {
            Cell::Mask | Cell::Mode => Cell::BYTE_SIZE,
            Cell::Clock => Cell::CLOCK_SIZE,
            Cell::Constants(_) => Cell::CONSTANTS_SIZE,
            Cell::Errors(_) => Cell::ERRORS_SIZE,
            Cell::Part(_, _) => Cell::PART_SIZE,
            Cell::Table(_) => Cell::TABLE_SIZE,
        }
    }

    // Where the signature is kept that its bytes count in. A part counts in its table's.
    pub fn signature_word(self) -> Option<usize>
        ensures { result ≡ signature_word self }
    {
        match self {
            Cell::Mask | Cell::Mode | Cell::Clock => None,
            Cell::Constants(c) => Some(kept_at(Cell::CONSTANTS_SIGNATURES_OFFSET, c)),
            Cell::Errors(e) => Some(kept_at(Cell::ERRORS_SIGNATURES_OFFSET, e)),
            Cell::Part(k, _) => Some(kept_at(Cell::TABLE_SIGNATURES_OFFSET, k)),
            Cell::Table(k) => Some(kept_at(Cell::TABLE_SIGNATURES_OFFSET, k)),
        }
    }
}

// The k-th word of those that begin at an offset.
fn kept_at(first: usize, k: u8) -> usize
    requires { first ≤ 65536 }
    ensures { result ≡ first + 2 * k }
{
    first + Cell::WORD_SIZE * usize::from(k)
}

// Where a table stands among the sixteen, from 0. No table has another number, however large. `as` narrows what the arms bound: the failure of a TryFrom
// could not come.
pub fn table_index(number: u32) -> Option<u8>
    ensures { result ≡ index_named number }
{
    match number {
        1..=8 => Some((number - 1) as u8),
        11..=18 => Some((number - 3) as u8),
        _ => None,
    }
}
