// Frames: a whole run as a stream of bytes, on an engine that is lent whole; `lent` has the same on an
// engine's parts. `decoding` reads lines, `encoding` writes answers; what a caller needs of them stands
// here too.
#![tactic(auto)]

mod kept;
pub mod lent;
mod whole;

pub use decoding::{keep, read_call};
pub use encoding::answer_line;
pub use kept::{answer_frame, feed};
pub use lent::{Fed, finish};
pub use protocol::{KEPT, LONGEST, SET_DIGITS, VERSION_DIGITS};
pub use step::Parts;
pub use values::fresh;
pub use whole::run;
