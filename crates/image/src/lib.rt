// The image: its versions and cells, when it is usable, a fresh one, the words and their bits, held parts.
#![tactic(auto)]

mod cell;
mod fresh;
mod held;
mod parts;
mod usable;
mod version;
mod word;

pub use cell::{Cell, table_index};
pub use fresh::freshen;
pub use held::held_parts;
pub use parts::Held;
pub use usable::is_usable;
pub use version::{ADDRESS_OFFSET, IMAGE_LENGTH, NUMBER_OFFSET, Version};
pub use word::{has_bit, put_word, set_bit, word_at};
