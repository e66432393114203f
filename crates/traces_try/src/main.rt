//! Tries going over recorded runs, and writes a line for each. Each word names a file, which is read whole.
//! Then come runs about as long as one may be, which are made here of pairs of an empty line and its
//! answer.
#![tactic(auto)]

use std::alloc::AllocError;
use std::env::{Env, FillError};
use std::fs::File;
use std::io::{Error, ErrorKind, Print, Read};
use std::{io, str};
use trace::LIMIT;

// How many bytes the longest of them has.
const ROOM: usize = LIMIT + 1;

// How many bytes the name of a file may have.
const NAME: usize = 4096;

// Goes over a recorded run and writes its line.
fn show(rt: HostRuntime, run: &[u8]) -> io::Result<()> {
    rt.write_all(&trace::printed_line(trace::replay(run)))
}

// Goes over the recorded run in the file at a path, as far as it can be read. A byte too many says that it
// is too long.
fn show_file(rt: HostRuntime, path: &str) -> io::Result<()> {
    let mut run = Vec::new(rt.alloc());
    let read = File::open(&rt, path)?
        .take(ROOM as u64)
        .read_to_end(&mut run);
    show(rt, &run)?;
    read?;
    Ok(())
}

// The same for the file that these bytes name. What is no text names none.
fn show_named(rt: HostRuntime, name: &[u8]) -> io::Result<()> {
    match str::from_utf8(name) {
        Ok(path) => show_file(rt, path),
        Err(_) => Err(Error::from(ErrorKind::InvalidFilename)),
    }
}

// What stands at a place of a run whose frames are all empty: a line feed, and then 01 and a line feed.
fn byte_at(place: usize) -> u8 {
    match place % 4 {
        1 => b'0',
        2 => b'1',
        _ => b'\n',
    }
}

// The first n bytes of such a run.
fn made(rt: HostRuntime, n: usize) -> Result<Vec<u8>, AllocError> {
    (0..n).map(byte_at).collect(rt.alloc())
}

// The same with another digit in the first answer.
fn spoiled(rt: HostRuntime, n: usize) -> Result<Vec<u8>, AllocError> {
    let mut run = made(rt, n)?;
    if let Some(digit) = run.get_mut(1) {
        *digit = b'1';
    }
    Ok(run)
}

// Made runs: with one byte less than a run may have, with as many, with one more; and the last two with an
// answer that differs.
fn show_made(rt: HostRuntime) -> io::Result<()> {
    for n in [LIMIT - 1, LIMIT, ROOM] {
        show(rt, &made(rt, n)?)?;
    }
    for n in [LIMIT, ROOM] {
        show(rt, &spoiled(rt, n)?)?;
    }
    Ok(())
}

// A file that can't be read is said, and those behind it are tried. A word that is too long for a name
// names no file.
fn main(rt: HostRuntime) -> io::Result<()> {
    let mut done = Ok(());
    for i in 1..usize::MAX {
        let mut word = [0u8; NAME];
        let shown = match rt.arg(i, &mut word) {
            Ok(len) => show_named(rt, &word[..len]),
            Err(FillError::TooLong) => Err(Error::from(ErrorKind::InvalidFilename)),
            Err(FillError::NotPresent) => break,
        };
        if let Err(reason) = shown {
            // Where that can't be written there is nobody to tell.
            let _ = eprintln!(rt; "word {i}: {reason}");
            done = Err(reason);
        }
    }
    show_made(rt)?;
    done
}
