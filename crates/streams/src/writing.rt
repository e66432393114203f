// Writing, with what is known where it fails.
ghost use Rattle.std.specs.Prelude.{◌≤◌, length, take, OnOk, IfErr};
ghost use Rattle.std.specs.Io.KnownBytes.{Appends};

use std::io::{Error, ErrorKind, Write};

/// How many bytes were written before a write failed, and why it did.
#[derive(Clone, Copy)]
pub struct Short {
    pub written: usize,
    pub reason: Error,
}

/// Writes all bytes, in as many writes as it takes. One that takes nothing is the last, since it would
/// be made for ever. Unlike `Write::write_all` it tells how many were written where not all are. A call
/// that a signal interrupts, or that would have to wait, is made again only where the stream is a
/// `Patient` one.
#[tactic(auto, using(crate::proofs::Laws::put_more))]
pub fn write_all<W: Write>(output: &mut W, bytes: &[u8]) -> Result<(), Short>
    ensures all { OnOk result (Appends (W.contents output.old) (W.contents output.new) bytes.now) }
    ensures within { IfErr result (λ short. short.written ≤ length bytes.now) }
    ensures some { IfErr result (λ short. Appends (W.contents output.old) (W.contents output.new) (take short.written bytes.now)) }
{
    let mut written = 0;
    while written < bytes.len() {
        match output.write(&bytes[written..]) {
            Ok(0) => {
                return Err(Short {
                    written,
                    reason: Error::from(ErrorKind::WriteZero),
                });
            }
            Ok(n) => written += n,
            Err(reason) => return Err(Short { written, reason }),
        }
    }
    Ok(())
}
