// Where a picture goes: to standard output, through a small buffer, or nowhere, while it is measured.
ghost use Rattle.std.specs.Prelude.{◌≡◌, []};

use arrayvec::ArrayVec;
use std::fmt;
use std::io::Error;
use streams::Patient;

// How many bytes are held back before they are written.
const ROOM: usize = 4096;

#[derive(Drop)]
pub(crate) struct Page {
    // The handle that standard output is written by. A page that is only measured has none.
    output: Option<HostRuntime>,
    held: ArrayVec<u8, ROOM>,
    // Why it could not be written on, which an error of formatting does not tell.
    failure: Option<Error>,
}

impl Page {
    // A page on which nothing is written.
    pub(crate) fn measured() -> Page {
        Page {
            output: None,
            held: ArrayVec::new(),
            failure: None,
        }
    }

    // A page on standard output.
    pub(crate) fn written(rt: HostRuntime) -> Page {
        Page {
            output: Some(rt),
            held: ArrayVec::new(),
            failure: None,
        }
    }

    // Why it could not be written on.
    pub(crate) fn failure(&self) -> Error {
        self.failure.unwrap_or(Error::from(fmt::Error))
    }

    // Writes what is held back, if the page is on standard output.
    pub(crate) fn flush(&mut self) -> fmt::Result
        ensures { self.new.held.items ≡ [] }
    {
        let held = self.held.take();
        let Some(rt) = self.output else {
            return Ok(());
        };
        let mut output = Patient::new(rt.stdout(), rt);
        match streams::write_all(&mut output, &held) {
            Ok(()) => Ok(()),
            Err(short) => {
                self.failure = Some(short.reason);
                Err(fmt::Error)
            }
        }
    }
}

impl fmt::Write for Page {
    // A full buffer is written first.
    fn write_str(&mut self, text: &str) -> fmt::Result {
        for byte in text.as_bytes() {
            if self.held.is_full() {
                self.flush()?;
            }
            self.held.push(*byte);
        }
        Ok(())
    }
}
