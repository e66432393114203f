//! The words of a command line, for programs that are asked for their work, their help or their release.
ghost use Rattle.std.specs.Prelude.{◌≡◌, ◌≢◌, [], ◌∷◌, map, string_bytes, IfOk, IfErr, IfSome, IfNone};
ghost use Rattle.streams.specs.Words.{words_for};

use std::fmt;
use std::fmt::{Display, Formatter};

/// The release that the programs are of: CHANGELOG names it, and `--version` says it.
pub const RELEASE: &str = "2.3.1";

/// What a program is asked for.
#[derive(Clone, Copy, PartialEq, Eq, Debug)]
pub enum Task {
    /// No word: what the program is there for.
    Work,
    /// `--help`
    Help,
    /// `--version`
    Version,
}

/// The first word that a program doesn't know, or that has no place behind those before it.
#[derive(Clone, Copy)]
pub struct WrongWord<'a> {
    word: &'a str,
}

impl Display for WrongWord<'_> {
    fn fmt<W: fmt::Write>(&self, f: &mut Formatter<W>) -> fmt::Result {
        let word = self.word;
        write!(f, "the word {word:?} is not known here, see --help")
    }
}

// What a word alone asks for.
fn named(word: &str) -> Option<Task>
    ensures known { IfSome result (λ task. word.now ∷ [] ≡ words_for task) }
    ensures unknown { IfNone result ((task : Task) → word.now ∷ [] ≢ words_for task) }
{
    match word {
        "--help" => Some(Task::Help),
        "--version" => Some(Task::Version),
        _ => None,
    }
}

/// What the words ask of a program that takes none but these.
pub fn asked<'a>(words: &'a [String]) -> Result<Task, WrongWord<'a>>
    ensures known { IfOk result (λ task. map string_bytes words.now ≡ words_for task) }
    ensures unknown { IfErr result (λ _. (task : Task) → map string_bytes words.now ≢ words_for task) }
{
    let Some((first, others)) = words.split_first() else {
        return Ok(Task::Work);
    };
    let Some(task) = named(first.as_str()) else {
        return Err(WrongWord {
            word: first.as_str(),
        });
    };
    match others.first() {
        Some(word) => Err(WrongWord {
            word: word.as_str(),
        }),
        None => Ok(task),
    }
}

#[cfg(test)]
mod tests {
    use super::*;
    use std::alloc::AllocError;

    #[test]
    fn asks(rt: HostRuntime) -> Result<(), AllocError> {
        for (line, task, why) in [
            ("", Some(Task::Work), ""),
            ("--help", Some(Task::Help), ""),
            ("--version", Some(Task::Version), ""),
            (
                "--hel",
                None,
                "the word \"--hel\" is not known here, see --help",
            ),
            (
                "FILE --help",
                None,
                "the word \"FILE\" is not known here, see --help",
            ),
            (
                "--help FILE",
                None,
                "the word \"FILE\" is not known here, see --help",
            ),
            (
                "--help --help",
                None,
                "the word \"--help\" is not known here, see --help",
            ),
        ] {
            let words: Vec<String> = line
                .split_whitespace()
                .map(|word| word.to_string(rt.alloc()))
                .try_collect(rt.alloc())?;
            match asked(&words) {
                Ok(found) => assert_eq!(rt; Some(found), task, "at {line}"),
                Err(wrong) => {
                    let said = wrong.to_string(rt.alloc())?;
                    assert_eq!(rt; said.as_str(), why, "at {line}");
                }
            }
        }
        Ok(())
    }
}
