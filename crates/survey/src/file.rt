// A table file, checked.
ghost use Rattle.std.specs.Prelude.{◌≡◌};
ghost use Rattle.output.specs.Refusal.{number_in};
ghost use Rattle.survey.specs.File.{file_number};

use crate::first::first_of;
use crate::rows::rise_then_stay;
use crate::sheet::Sheet;
use image::table_index;
use output::Refusal;

// Eleven frames have at most 2,959 bytes, so that a file longer than this fails the count of its frames too: the limit says how much is read in vain.
const FILE_MOST: usize = 4096;

const FRAMES: usize = 11;

// Checks a file before its frames are sent. Its refusals are 17, 18, 19 and 20, each over the whole file before the next.
pub fn check_file(file: &[u8]) -> Result<(), Refusal>
    ensures { number_in result ≡ file_number file.now }
{
    if FILE_MOST < file.len() {
        return Err(Refusal::Frames);
    }
    let first = first_of(file).ok_or(Refusal::Frames)?;
    let mut sheet = Sheet::new(first);
    let frames = sheet.read(file).ok_or(Refusal::Frames)?;
    if frames != FRAMES {
        return Err(Refusal::Frames);
    }
    if !sheet.one {
        return Err(Refusal::Table);
    }
    if first.address == 0 {
        return Err(Refusal::Table);
    }
    if table_index(u32::from(first.table)).is_none() {
        return Err(Refusal::Table);
    }
    if !sheet.once {
        return Err(Refusal::Parts);
    }
    if !rise_then_stay(&sheet.rows) {
        return Err(Refusal::Rows);
    }
    Ok(())
}
