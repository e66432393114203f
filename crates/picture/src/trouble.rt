// Why there is no picture, and with which status the program then ends.
use std::fmt;
use std::fmt::{Display, Write};
use std::io::{Error, ErrorKind};
use streams::Failure;

// The status where something could not be read or written.
pub(crate) const STATUS: u8 = 2;

#[derive(Clone, Copy)]
pub(crate) enum Trouble {
    NotOpen,
    Frames(Failure),
    Picture(Error),
}

impl Trouble {
    pub(crate) fn status(&self) -> u8 {
        match *self {
            Trouble::NotOpen => 1,
            Trouble::Frames(_) | Trouble::Picture(_) => STATUS,
        }
    }

    // Whether the reader of a pipe has closed it. Nothing is said of that.
    pub(crate) fn is_closed_pipe(&self) -> bool {
        match *self {
            Trouble::Picture(reason) => reason.kind() == ErrorKind::BrokenPipe,
            Trouble::NotOpen | Trouble::Frames(_) => false,
        }
    }
}

impl Display for Trouble {
    fn fmt<W: Write>(&self, f: &mut fmt::Formatter<W>) -> fmt::Result {
        match *self {
            Trouble::NotOpen => f.write_str("the session isn't open after these frames"),
            Trouble::Frames(failure) => write!(f, "{failure}"),
            Trouble::Picture(reason) => write!(f, "the picture was not written whole: {reason}"),
        }
    }
}
