// Texts in a buffer, what prints as a line, and the text of a refusal.
#![tactic(auto)]

mod cursor;
mod lines;
mod put;
mod refusals;

pub use cursor::Cursor;
pub use lines::{Line, append_line, append_lines};
pub use put::{ROOM, has_room, put_byte, put_bytes, put_decimal};
