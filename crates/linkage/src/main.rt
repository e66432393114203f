//! The frame program: frames on standard input, answers on standard output, and on standard error what
//! could not be read or written. It ends with 0 where all is read and every answer written, with 1 where
//! that failed, and with 2 for words that it doesn't know.
#![tactic(auto)]

ghost use Rattle.std.specs.Prelude.{◌≡◌};
ghost use Rattle.std.specs.Process.{exit_status};

use std::fmt::Display;
use std::io::ErrorKind;
use std::process::ExitCode;
use std::{env, io};
use streams::words::{RELEASE, Task};
use streams::{Patient, words};

const HELP: &str = "\
linkage < FRAMES > ANSWERS
Reads frames, one a line, and writes an answer line for each, from a fresh engine.

    --help      says this
    --version   says the release

Status: 0, all is read and answered; 1, something could not be read or written;
2, unknown words, and then nothing is read.
";

// Says why the program ends, in a line on standard error, and with which status.
fn ended<D: Display + Drop>(rt: HostRuntime, status: u8, why: D) -> ExitCode
    ensures { exit_status result ≡ status }
{
    // Where that can't be written there is nobody to tell.
    let _ = eprintln!(rt; "linkage: {why}");
    ExitCode::from(status)
}

// What is asked for instead of a run is said on standard output. Of a pipe that its reader has closed nothing
// is said.
fn said(rt: HostRuntime, written: io::Result<()>) -> ExitCode {
    match written {
        Ok(()) => ExitCode::SUCCESS,
        Err(reason) if reason.kind() == ErrorKind::BrokenPipe => ExitCode::FAILURE,
        Err(reason) => ended(rt, 1, reason),
    }
}

// Answers all frames of standard input on standard output.
fn run(rt: HostRuntime) -> ExitCode {
    let mut source = Patient::new(rt.stdin(), rt);
    let mut output = Patient::new(rt.stdout(), rt);
    match streams::run(&mut source, &mut output) {
        Ok(()) => ExitCode::SUCCESS,
        Err(failure) if failure.is_closed_pipe() => ExitCode::FAILURE,
        Err(failure) => ended(rt, 1, failure),
    }
}

// The words behind the program's name.
fn given(rt: HostRuntime) -> io::Result<Vec<String>> {
    Ok(env::args(&rt)?.skip(1).collect(rt.alloc())?)
}

fn main(rt: HostRuntime) -> ExitCode {
    let words = match given(rt) {
        Ok(words) => words,
        Err(reason) => return ended(rt, 2, reason),
    };
    match words::asked(&words) {
        Ok(Task::Work) => run(rt),
        Ok(Task::Help) => said(rt, rt.print(HELP)),
        Ok(Task::Version) => said(rt, println!(rt; "linkage {RELEASE}")),
        Err(wrong) => ended(rt, 2, wrong),
    }
}
