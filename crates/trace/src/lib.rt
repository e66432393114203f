// Going over a recorded run: a text in which each frame line is followed by the answer line given at the
// time. Its frames are run from a fresh engine, and the first pair whose answers differ is told.
#![tactic(auto)]

mod printing;
mod reader;
mod replaying;

pub use printing::{WIDEST, printed_line};
pub use reader::Trace;
pub use replaying::{LIMIT, Outcome, replay};
