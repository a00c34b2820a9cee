// Printing, and saying what could not be done.
ghost use Rattle.std.specs.Prelude.{◌≡◌, OnOk, OnErr};
ghost use Rattle.std.specs.Result.{MatchResult};
ghost use Rattle.std.specs.Io.KnownBytes.{Appends};
ghost use Rattle.system.specs.Writes.{AppendsPart};

use std::env::FillError;
use std::fmt::{self, Display, Formatter, InlineText};
use std::io::{Eprint, Error, ErrorKind, Result, Write};
use std::process::ExitCode;
use std::rt::Env;

// The system's words for an error are shorter.
const WORDS: usize = 256;

// Whether the program was given an argument.
pub fn has_argument<R: Env>(rt: &R) -> bool {
    let mut first = [0u8; 1];
    !matches!(rt.arg(1, &mut first), Err(FillError::NotPresent))
}

// What could not be done, and why. It is said as a sentence, the error's number, where the system gave it one, and the system's words
// for it.
#[derive(Clone, Copy)]
pub struct Failure {
    pub sentence: &'static str,
    pub error: Error,
}

impl Display for Failure {
    fn fmt<W: fmt::Write>(&self, f: &mut Formatter<W>) -> fmt::Result {
        write!(f, "{}; error ", self.sentence)?;
        if let Some(number) = self.error.raw_os_error() {
            write!(f, "{number}")?;
        }
        let text = InlineText::<WORDS>::of(self.error);
        write!(f, ": {}", words_alone(text.as_str()))
    }
}

// The system's words for an error without the number that std writes behind them.
fn words_alone(words: &str) -> &str {
    match words.split_once(" (os error ") {
        Some((alone, _)) => alone,
        None => words,
    }
}

// How a program ends: where something could not be done, that is said on standard error, and the status is 1.
pub fn exit_code<R: Eprint, F: Display + Drop>(rt: &R, done: std::result::Result<(), F>) -> ExitCode
    ensures { MatchResult done (λ _. result.status ≡ 0) (λ _. result.status ≡ 1) }
{
    match done {
        Ok(()) => ExitCode::SUCCESS,
        Err(failure) => {
            // Nothing is left to do where it cannot be said.
            let _ = eprintln!(rt; "{failure}");
            ExitCode::FAILURE
        }
    }
}

// Writes a line with one write; only where that leaves some of it, with others. Where a write fails, or takes nothing, the line's first
// bytes are written, and no others. (std's write_all says nothing of a line that it could not write, and this says it: `part`.)
pub fn write_line<W: Write>(out: &mut W, line: &[u8]) -> Result<()>
    ensures whole { OnOk result (Appends (W.contents out.old) (W.contents out.new) line.now) }
    ensures part { OnErr result (AppendsPart (W.contents out.old) (W.contents out.new) line.now) }
{
    let mut rest = line;
    while !rest.is_empty() {
        match out.write(rest)? {
            0 => return Err(Error::from(ErrorKind::WriteZero)),
            taken => rest = &rest[taken..],
        }
    }
    Ok(())
}
