// Where a request's numbers lead.
use image::Cell;
use page::Page;
use std::io::Stdout;

// By a command that reads such a cell; 76 writes its own, and 61 reads a whole table. Commands have no names in the documents: the number is what the
// cases and the rules' own table have.
fn named(command: usize, a: u8, b: u8) -> Option<Cell> {
    match command {
        50 => Some(Cell::mask()),
        54 => Cell::constants(a),
        61 => Cell::table(a),
        63 => Cell::errors(a),
        76 => Some(Cell::mode()),
        78 => Some(Cell::clock()),
        _ => Cell::part(a, b),
    }
}

// Offset and size; nothing where no cell is named.
pub(crate) fn cell(page: &mut Page<Stdout>, command: usize, a: u8, b: u8) {
    if let Some(cell) = named(command, a, b) {
        page.print(cell.offset());
        page.next(cell.size());
    }
}
