//! A picture of a session, in the manner of Figure 2 of the first paper (docs/MODEL.md, "The papers"):
//! `picture PRODUCT SESSION` reads frames from standard input, as `linkage` does, and writes the session as
//! they leave it to standard output, as SVG. Answers are not written. What can't be read or written is said
//! on standard error. It ends with 0 where the picture is written, with 1 where the session isn't open, and
//! with 2 for trouble.
#![tactic(auto)]

mod arguments;
mod column;
mod flows;
mod legend;
mod names;
mod overlaps;
mod page;
mod panel;
mod session;
mod shapes;
mod trouble;
mod users;

use arguments::{Asked, Task};
use session::Session;
use std::fmt::Display;
use std::io::ErrorKind;
use std::process::ExitCode;
use std::{env, io};
use streams::Patient;
use streams::words::RELEASE;
use trouble::Trouble;

const HELP: &str = "\
picture PRODUCT SESSION < FRAMES > OUT.svg
Runs frames from a fresh engine, and draws one session as they leave it: PRODUCT
is server or bank, SESSION has two digits, 00 to 0f.

    --help      says this
    --version   says the release

Status: 0, the picture is written; 1, the session isn't open after these frames;
2, something could not be read or written, or wrong words.
";

// Reads the frames and writes the picture of the session that is asked for.
fn picture(rt: HostRuntime, asked: Asked) -> Result<(), Trouble> {
    let mut engine = frames::fresh();
    let mut source = Patient::new(rt.stdin(), rt);
    streams::serve(&mut engine, &mut source, &mut io::sink()).map_err(Trouble::Frames)?;
    let session = Session::of(&engine, asked.number()).ok_or(Trouble::NotOpen)?;
    session::show(rt, asked, &session).map_err(Trouble::Picture)
}

// Says why the program ends, in a line on standard error, and with which status.
fn ended<D: Display + Drop>(rt: HostRuntime, status: u8, why: D) -> ExitCode {
    // Where that can't be written there is nobody to tell.
    let _ = eprintln!(rt; "picture: {why}");
    ExitCode::from(status)
}

// What is asked for instead of a picture is said on standard output. Of a pipe that its reader has closed
// nothing is said.
fn said(rt: HostRuntime, written: io::Result<()>) -> ExitCode {
    match written {
        Ok(()) => ExitCode::SUCCESS,
        Err(reason) if reason.kind() == ErrorKind::BrokenPipe => ExitCode::from(trouble::STATUS),
        Err(reason) => ended(rt, trouble::STATUS, reason),
    }
}

// How the program ends after it was asked for a picture.
fn after(rt: HostRuntime, done: Result<(), Trouble>) -> ExitCode {
    match done {
        Ok(()) => ExitCode::SUCCESS,
        Err(trouble) if trouble.is_closed_pipe() => ExitCode::from(trouble.status()),
        Err(trouble) => ended(rt, trouble.status(), trouble),
    }
}

// The words behind the program's name.
fn given(rt: HostRuntime) -> io::Result<Vec<String>> {
    Ok(env::args(&rt)?.skip(1).collect(rt.alloc())?)
}

fn main(rt: HostRuntime) -> ExitCode {
    let words = match given(rt) {
        Ok(words) => words,
        Err(reason) => return ended(rt, trouble::STATUS, reason),
    };
    match arguments::read(&words) {
        Ok(Task::Draw(asked)) => after(rt, picture(rt, asked)),
        Ok(Task::Help) => said(rt, rt.print(HELP)),
        Ok(Task::Version) => said(rt, println!(rt; "picture {RELEASE}")),
        Err(wrong) => ended(rt, trouble::STATUS, wrong),
    }
}
