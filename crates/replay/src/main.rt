//! Goes over a recorded run: it is read from standard input, and one line goes to standard output, the
//! number of the first pair whose answers differ. What can't be read or written is said on standard error.
//! It ends with 0 where no pair differs, with 1 where one does or a frame lacks its answer, and with 2 for
//! trouble.
#![tactic(auto)]

ghost use Rattle.std.specs.Prelude.{◌≡◌, ◌≤◌, ◌<◌, ◌↔◌, length, take, IfOk, IfSome, MatchResult};
ghost use Rattle.std.specs.Io.KnownBytes.{Appends, Consumes, IsAtEnd};
ghost use Rattle.std.specs.Process.{exit_status};
ghost use Rattle.trace.specs.Outcomes.{outcome, printed};

use std::alloc::{AllocError, Global};
use std::fmt::{Display, Formatter};
use std::io::{Error, ErrorKind, Read, Write};
use std::process::ExitCode;
use std::{env, fmt, io};
use streams::words::{RELEASE, Task};
use streams::{Patient, words};
use trace::{LIMIT, Outcome};

const HELP: &str = "\
replay < RECORDED
Runs the frames of a recorded run from a fresh engine, and writes the number of
the first pair whose recorded answer is another: sixteen hexadecimal digits, all
zeros where none is, or 10 where the last line is a frame or the file too long.

    --help      says this
    --version   says the release

Status: 0, no pair differs; 1, one does, or the last line is a frame; 2, the file
is too long, something could not be read or written, or unknown words.
";

// One byte more than a recorded run may have: one that has as many is too long, and no more of it is read.
const ROOM: usize = LIMIT + 1;

// The status for trouble.
const TROUBLE: u8 = 2;

// Why there is no number: after this many lines the run could not be read, or the number not be written.
#[derive(Clone, Copy)]
enum Trouble {
    Read { lines: usize, reason: Error },
    Write { reason: Error },
}

impl Display for Trouble {
    fn fmt<W: fmt::Write>(&self, f: &mut Formatter<W>) -> fmt::Result {
        match *self {
            Trouble::Read { lines, reason } => {
                write!(f, "lines after line {lines} were not read: {reason}")
            }
            Trouble::Write { reason } => write!(f, "the number was not written: {reason}"),
        }
    }
}

// How many bytes were read before a read failed, and why it did.
#[derive(Clone, Copy)]
struct Short {
    read: usize,
    reason: Error,
}

// Reads until the bytes are full or the source ends, and gives how many were read. Each read is lent all
// the room that is left, since what a message has no room for is lost.
#[tactic(auto, using(crate::proofs::Read::read_on))]
fn fill<R: Read>(source: &mut R, bytes: &mut [u8]) -> Result<usize, Short>
    ensures within { MatchResult result (λ end. end ≤ length bytes.new) (λ short. short.read ≤ length bytes.new) }
    ensures consumed { MatchResult result (λ end. Consumes (R.remaining source.old) (R.remaining source.new) (take end bytes.new)) (λ short. Consumes (R.remaining source.old) (R.remaining source.new) (take short.read bytes.new)) }
    ensures at_end { IfOk result (λ end. end < length bytes.old → IsAtEnd (R.remaining source.new)) }
{
    let mut end = 0;
    while end < bytes.len() {
        match source.read(&mut bytes[end..]) {
            Ok(0) => return Ok(end),
            Ok(n) => end += n,
            Err(reason) => return Err(Short { read: end, reason }),
        }
    }
    Ok(end)
}

// The room that a recorded run is read into.
fn room(alloc: Global) -> Result<Vec<u8>, AllocError>
    ensures { IfOk result (λ bytes. length bytes.items ≡ ROOM) }
{
    vec![in alloc; 0u8; ROOM]
}

// Goes over the recorded run that a source has, and writes its line.
fn go_over<R: Read, W: Write>(
    alloc: Global,
    source: &mut R,
    output: &mut W,
) -> Result<Outcome, Trouble>
    ensures outcome { IfOk result (λ found. IfSome (R.remaining source.old) (λ bytes. found ≡ outcome bytes)) }
    ensures written { IfOk result (λ found. Appends (W.contents output.old) (W.contents output.new) (printed found)) }
{
    let mut bytes = match room(alloc) {
        Ok(bytes) => bytes,
        Err(failure) => {
            return Err(Trouble::Read {
                lines: 0,
                reason: Error::from(failure),
            });
        }
    };
    let end = match fill(source, &mut bytes) {
        Ok(end) => end,
        Err(short) => {
            return Err(Trouble::Read {
                lines: streams::lines(&bytes[..short.read]),
                reason: short.reason,
            });
        }
    };
    let found = trace::replay(&bytes[..end]);
    match streams::write_all(output, &trace::printed_line(found)) {
        Ok(()) => Ok(found),
        Err(short) => Err(Trouble::Write {
            reason: short.reason,
        }),
    }
}

// The status by which a run that was gone over is told.
fn status(found: Outcome) -> u8
    ensures agree { (result ≡ 0) ↔ (found ≡ Outcome.AllAgree) }
    ensures long { (result ≡ 2) ↔ (found ≡ Outcome.TooLong) }
    ensures most { result ≤ 2 }
{
    match found {
        Outcome::AllAgree => 0,
        Outcome::Differs(_) | Outcome::FrameLast => 1,
        Outcome::TooLong => TROUBLE,
    }
}

// Says what was the trouble, in a line on standard error.
fn ended<D: Display + Drop>(rt: HostRuntime, why: D) -> ExitCode
    ensures { exit_status result ≡ 2 }
{
    // Where that can't be written there is nobody to tell.
    let _ = eprintln!(rt; "replay: {why}");
    ExitCode::from(TROUBLE)
}

// What is asked for instead of a number is said on standard output. Of a pipe that its reader has closed
// nothing is said.
fn said(rt: HostRuntime, written: io::Result<()>) -> ExitCode {
    match written {
        Ok(()) => ExitCode::SUCCESS,
        Err(reason) if reason.kind() == ErrorKind::BrokenPipe => ExitCode::from(TROUBLE),
        Err(reason) => ended(rt, reason),
    }
}

// Goes over the recorded run of standard input. Of a pipe that its reader has closed nothing is said.
fn run(rt: HostRuntime) -> ExitCode {
    let mut source = Patient::new(rt.stdin(), rt);
    let mut output = Patient::new(rt.stdout(), rt);
    match go_over(rt.alloc(), &mut source, &mut output) {
        Ok(found) => ExitCode::from(status(found)),
        Err(Trouble::Write { reason }) if reason.kind() == ErrorKind::BrokenPipe => {
            ExitCode::from(TROUBLE)
        }
        Err(trouble) => ended(rt, trouble),
    }
}

// The words behind the program's name.
fn given(rt: HostRuntime) -> io::Result<Vec<String>> {
    Ok(env::args(&rt)?.skip(1).collect(rt.alloc())?)
}

fn main(rt: HostRuntime) -> ExitCode {
    let words = match given(rt) {
        Ok(words) => words,
        Err(reason) => return ended(rt, reason),
    };
    match words::asked(&words) {
        Ok(Task::Work) => run(rt),
        Ok(Task::Help) => said(rt, rt.print(HELP)),
        Ok(Task::Version) => said(rt, println!(rt; "replay {RELEASE}")),
        Err(wrong) => ended(rt, wrong),
    }
}
