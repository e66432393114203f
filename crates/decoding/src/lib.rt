// Reading frames: a line of bytes to its call, and the next line of an input. What a caller needs of
// `digits` and `pieces` stands here too.
#![tactic(auto)]

mod lines;
mod read;

pub use digits::Digits;
pub use lines::{NextLine, as_frame, next_line};
pub use pieces::{find_feed, keep};
pub use read::read_call;
