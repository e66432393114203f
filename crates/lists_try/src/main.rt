//! Runs stored lists of frames. Each word names a file, which goes to a fresh engine in pieces that cut
//! lines anywhere; the answers go to standard output.
#![tactic(auto)]

ghost use Rattle.std.specs.Prelude.{◌≤◌, length};

use frames::LONGEST;
use std::env::{Env, FillError};
use std::fs::File;
use std::io::{Error, ErrorKind, Print, Read};
use std::{io, str};

// How many bytes of a file are held at a time.
const PIECE: usize = 1000;

// How many bytes the name of a file may have.
const NAME: usize = 4096;

// Room for one answer of any length and not for two such, so that a piece is not taken at once: what is
// left of it is kept, and more is read behind it.
const ROOM: usize = LONGEST + 45;

// The first n bytes, or all where n is more. The counts that come back from `frames` are what is tried
// here, so nothing rests on them.
fn first(n: usize, bytes: &[u8]) -> &[u8] {
    &bytes[..n.min(bytes.len())]
}

// Reads behind the first n bytes of a buffer, and gives the place behind what is read, and why nothing was
// where a read failed.
fn read_behind(file: &mut File, input: &mut [u8], n: usize) -> (usize, io::Result<()>)
    ensures { result.0 ≤ length input.new }
{
    let from = n.min(input.len());
    match file.read(&mut input[from..]) {
        Ok(read) => (from + read, Ok(())),
        Err(reason) => (from, Err(reason)),
    }
}

// Runs the list in an open file, from a fresh engine. Where a read fails, what is held is answered all the
// same.
// A buffer and how much of it is filled, since `frames::keep` is tried here as a maker calls it.
fn run(rt: HostRuntime, file: &mut File) -> io::Result<()> {
    let mut engine = frames::fresh();
    let mut input = [0u8; PIECE];
    let mut output = [0u8; ROOM];
    let mut len = 0usize;
    let mut done = Ok(());
    for _ in 0..u64::MAX {
        let (filled, read) = read_behind(file, &mut input, len);
        done = done.and(read);
        let fed = frames::feed(&mut engine, &input[..filled], &mut output);
        rt.write_all(first(fed.written, &output))?;
        if filled <= len && fed.consumed == 0 {
            break;
        }
        len = frames::keep(&mut input, fed.consumed, filled);
    }
    let last = frames::finish(len, &mut output);
    rt.write_all(first(last.unwrap_or(0), &output))?;
    done
}

// Runs the list in the file that these bytes name. What is no text names none.
fn run_named(rt: HostRuntime, name: &[u8]) -> io::Result<()> {
    match str::from_utf8(name) {
        Ok(path) => run(rt, &mut File::open(&rt, path)?),
        Err(_) => Err(Error::from(ErrorKind::InvalidFilename)),
    }
}

// A list that can't be run to its end is said, and those behind it are run. A word that is too long for a
// name names no file.
fn main(rt: HostRuntime) -> io::Result<()> {
    let mut done = Ok(());
    for i in 1..usize::MAX {
        let mut word = [0u8; NAME];
        let run = match rt.arg(i, &mut word) {
            Ok(len) => run_named(rt, first(len, &word)),
            Err(FillError::TooLong) => Err(Error::from(ErrorKind::InvalidFilename)),
            Err(FillError::NotPresent) => break,
        };
        if let Err(reason) = run {
            // Where that can't be written there is nobody to tell.
            let _ = eprintln!(rt; "word {i}: {reason}");
            done = Err(reason);
        }
    }
    done
}
