// What a program says where it could not go on.
ghost use Rattle.std.specs.Prelude.{◌↔◌, IsTrue};

use std::fmt;
use std::fmt::{Display, Formatter};
use std::io::{Error, ErrorKind};

/// What of a run could not be read or written, how many lines had been answered whole, and why.
#[derive(Clone, Copy)]
pub enum Failure {
    Read { lines: u64, reason: Error },
    Write { lines: u64, reason: Error },
}

impl Failure {
    ghost use Rattle.streams.specs.Failure.{IsClosedPipe};

    /// Whether the reader of a pipe has closed it. Nothing is said of that: whoever reads the first lines
    /// only has what was asked for.
    pub fn is_closed_pipe(&self) -> bool
        ensures { IsTrue result ↔ IsClosedPipe self.now }
    {
        match *self {
            Failure::Read { .. } => false,
            Failure::Write { reason, .. } => reason.kind() == ErrorKind::BrokenPipe,
        }
    }
}

impl Display for Failure {
    fn fmt<W: fmt::Write>(&self, f: &mut Formatter<W>) -> fmt::Result {
        match *self {
            Failure::Read { lines, reason } => {
                write!(f, "lines after line {lines} were not read: {reason}")
            }
            Failure::Write { lines, reason } => {
                write!(f, "answers after line {lines} were not written: {reason}")
            }
        }
    }
}
