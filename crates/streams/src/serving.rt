// An engine that is run on what a source has, in pieces of any size.
ghost use Rattle.std.specs.Prelude.{ℕ, ◌≡◌, ◌≤◌, ◌<◌, List, ◌++◌, length, take, drop, OnOk, IfOk, IfErr, IfSome};
ghost use Rattle.std.specs.Io.KnownBytes.{Appends, Consumes, IsAtEnd, Keeps};
ghost use Rattle.model.specs.State.{fresh as State·fresh};
ghost use Rattle.protocol.specs.Run.{calls_of, feed_at, replies};
ghost use Rattle.protocol.specs.Run.{run as Run·run};
ghost use Rattle.output.specs.Output.{ending};
ghost use Rattle.streams.specs.Feeds.{counted_on};
ghost use Rattle.streams.specs.Failure.{IsUnread};
ghost use Rattle.streams.specs.Serving.{Answered, Begun, Drawn};

use super::counting::lines_and;
use super::failure::Failure;
use super::writing::write_all;
use model::Engine;
use std::io;
use std::io::{Error, ErrorKind, Read, Write};

// How many bytes are read at once, and how many of answers are held before they are written.
const BUFFER: usize = 65536;

// Reads behind the first n bytes of a buffer, which stay, and gives the place behind what is read. At the
// end of the input that is the place where it was.
fn read_behind<R: Read>(source: &mut R, input: &mut [u8], n: usize) -> io::Result<usize>
    requires { n ≤ length input.old }
    ensures within { IfOk result (λ end. (n ≤ end) × (end ≤ length input.new)) }
    ensures unchanged { take n input.new ≡ take n input.old }
    ensures consumed { IfOk result (λ end. Consumes (R.remaining source.old) (R.remaining source.new) (drop n (take end input.new))) }
    ensures at_end { IfOk result (λ end. end ≡ n → n < length input.old → IsAtEnd (R.remaining source.new)) }
    ensures kept { IfErr result (λ _. Keeps (R.remaining source.old) (R.remaining source.new)) }
{
    let read = source.read(&mut input[n..])?;
    Ok(n + read)
}

// Writes answers, and counts the lines that are written whole.
fn show<W: Write>(output: &mut W, answers: &[u8], lines: u64) -> Result<u64, Failure>
    ensures all { OnOk result (Appends (W.contents output.old) (W.contents output.new) answers.now) }
    ensures counted { IfOk result (λ n. n ≡ counted_on lines answers.now) }
    ensures begun { IfErr result (Begun lines answers.now (W.contents output.old) (W.contents output.new)) }
    ensures unwritten { IfErr result (λ failure. IsUnread failure → ⊥) }
{
    match write_all(output, answers) {
        Ok(()) => Ok(lines_and(lines, answers)),
        Err(short) => Err(Failure::Write {
            lines: lines_and(lines, &answers[..short.written]),
            reason: short.reason,
        }),
    }
}

// Takes all whole lines of a part of the input, and writes their answers. Gives how many bytes that is.
#[tactic(auto, using(crate::proofs::Laws::answers_fit, crate::proofs::Laws::none_left))]
fn answer<W: Write>(
    engine: &mut Engine,
    part: &[u8],
    answers: &mut [u8; BUFFER],
    output: &mut W,
    lines: &mut u64,
) -> Result<usize, Failure>
    ensures answered { IfOk result (Answered part.now engine.old engine.new lines.old lines.new (W.contents output.old) (W.contents output.new)) }
    ensures unfinished { IfOk result (λ taken. feed_at (drop taken part.now) ≡ length (drop taken part.now)) }
    ensures begun { IfErr result (λ failure. (rest : List ℕ) → Begun lines.old (replies engine.old (calls_of (part.now ++ rest))) (W.contents output.old) (W.contents output.new) failure) }
    ensures unwritten { IfErr result (λ failure. IsUnread failure → ⊥) }
{
    // Read, so that it is known to fit 64 bits.
    let _before = *lines;
    let mut at = 0;
    while at < part.len() {
        let fed = frames::feed(engine, &part[at..], answers);
        *lines = show(output, &answers[..fed.written], *lines)?;
        at += fed.consumed;
        if fed.consumed == 0 {
            return Ok(at);
        }
    }
    Ok(at)
}

// Writes the answer to a last line that lacks its line feed, if this many bytes are left of one.
fn end<W: Write>(
    len: usize,
    answers: &mut [u8; BUFFER],
    output: &mut W,
    lines: u64,
) -> Result<(), Failure>
    ensures all { OnOk result (Appends (W.contents output.old) (W.contents output.new) (ending len)) }
    ensures begun { IfErr result (Begun lines (ending len) (W.contents output.old) (W.contents output.new)) }
    ensures unwritten { IfErr result (λ failure. IsUnread failure → ⊥) }
{
    if let Some(n) = frames::finish(len, answers) {
        show(output, &answers[..n], lines)?;
    }
    Ok(())
}

/// Runs an engine on all that a source has, in pieces that a buffer holds: the answers to what has been
/// read are written before more is read. Where a read fails the input has not ended, and its unfinished
/// last line stays unanswered. A call that a signal interrupts, or that would have to wait, is made again
/// only where the stream is a `Patient` one.
pub fn serve<R: Read, W: Write>(
    engine: &mut Engine,
    source: &mut R,
    output: &mut W,
) -> Result<(), Failure>
    ensures all { OnOk result (IfSome (R.remaining source.old) (λ input. Appends (W.contents output.old) (W.contents output.new) (replies engine.old (calls_of input)))) }
    ensures begun { IfErr result (λ failure. IfSome (R.remaining source.old) (λ input. Begun 0 (replies engine.old (calls_of input)) (W.contents output.old) (W.contents output.new) failure)) }
    ensures drawn { IfErr result (Drawn engine.old (R.remaining source.old) (R.remaining source.new) (W.contents output.old) (W.contents output.new)) }
{
    let mut input = [0u8; BUFFER];
    let mut answers = [0u8; BUFFER];
    let mut filled = 0;
    let mut lines = 0;
    for _ in 0..u64::MAX {
        let taken = answer(engine, &input[..filled], &mut answers, output, &mut lines)?;
        let kept = frames::keep(&mut input, taken, filled);
        match read_behind(source, &mut input, kept) {
            Ok(place) if kept < place => filled = place,
            Ok(_) => return end(kept, &mut answers, output, lines),
            Err(reason) => return Err(Failure::Read { lines, reason }),
        }
    }
    // So many reads are never made; but here too an unfinished line alone is left.
    answer(engine, &input[..filled], &mut answers, output, &mut lines)?;
    let reason = Error::from(ErrorKind::Interrupted);
    Err(Failure::Read { lines, reason })
}

/// The frame program's run: from a fresh engine, what is written is the run of what is read. A call that a
/// signal interrupts, or that would have to wait, is made again only where the stream is a `Patient` one.
#[tactic(auto, unfolding(protocol::specs::Run::run))]
pub fn run<R: Read, W: Write>(source: &mut R, output: &mut W) -> Result<(), Failure>
    ensures all { OnOk result (IfSome (R.remaining source.old) (λ input. Appends (W.contents output.old) (W.contents output.new) (Run·run input))) }
    ensures begun { IfErr result (λ failure. IfSome (R.remaining source.old) (λ input. Begun 0 (Run·run input) (W.contents output.old) (W.contents output.new) failure)) }
    ensures drawn { IfErr result (Drawn State·fresh (R.remaining source.old) (R.remaining source.new) (W.contents output.old) (W.contents output.new)) }
{
    serve(&mut frames::fresh(), source, output)
}
