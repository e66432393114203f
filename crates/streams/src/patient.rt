// Calls that are made again.
ghost use Rattle.std.specs.Prelude.{◌≡◌};

use std::io::{Error, ErrorKind, Read, Write};
use std::rt::Clock;
use std::time::Duration;
use std::{io, thread};

/// A reader or a writer whose calls are made again as long as that may help: one that a signal
/// interrupts at once, and one on a descriptor that does not block after a millisecond's sleep.
#[derive(Drop)]
pub struct Patient<S, C> {
    stream: S,
    clock: C,
}

impl<S, C> Patient<S, C> {
    /// A stream, and the clock by which it sleeps.
    pub fn new(stream: S, clock: C) -> Patient<S, C>
        ensures { result ≡ record { stream = stream; clock = clock } }
    {
        Patient { stream, clock }
    }
}

// Hands on why a call failed, but where the call is to be made again.
fn wait_out<C: Clock>(clock: &C, failure: Error) -> io::Result<()> {
    match failure.kind() {
        ErrorKind::WouldBlock => {
            thread::sleep(clock, Duration::from_millis(1));
            Ok(())
        }
        ErrorKind::Interrupted => Ok(()),
        _ => Err(failure),
    }
}

// So many turns at most, here and in `write`: a loop has to end, and what a descriptor gives does not
// end it.
impl<R: Read, C: Clock> Read for Patient<R, C> {
    ghost remaining = { λ patient. R.remaining patient.stream };

    fn read(&mut self, bytes: &mut [u8]) -> io::Result<usize> {
        for _ in 0..u64::MAX {
            match self.stream.read(bytes) {
                Ok(n) => return Ok(n),
                Err(failure) => wait_out(&self.clock, failure)?,
            }
        }
        Err(Error::from(ErrorKind::Interrupted))
    }
}

impl<W: Write, C: Clock> Write for Patient<W, C> {
    ghost contents = { λ patient. W.contents patient.stream };

    fn write(&mut self, bytes: &[u8]) -> io::Result<usize> {
        for _ in 0..u64::MAX {
            match self.stream.write(bytes) {
                Ok(n) => return Ok(n),
                Err(failure) => wait_out(&self.clock, failure)?,
            }
        }
        Err(Error::from(ErrorKind::Interrupted))
    }

    fn flush(&mut self) -> io::Result<()> {
        self.stream.flush()
    }
}
