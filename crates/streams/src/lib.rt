//! The streams of a program: reads and writes that are made again as long as that may help
//! (`Patient`), an engine that is run on what a source has (`serve`), and what the words of a command
//! line ask for (`words`).
//!
//! What a file, a pipe or a terminal gives or takes no contract can say. Of a reader and a writer whose
//! bytes are known, it is promised that the answers to all that is read are written, and where that fails,
//! that what is written is their beginning and how many lines it has.
#![tactic(auto)]

mod counting;
mod failure;
mod patient;
mod serving;
pub mod words;
mod writing;

pub use counting::lines;
pub use failure::Failure;
pub use patient::Patient;
pub use serving::{run, serve};
pub use writing::{Short, write_all};
