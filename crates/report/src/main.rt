// The report program: reads one scan file on standard input and prints its line (see lines::line) with one write. The line of a file
// that is too long says its whole length, so an input whose end the system does not tell, as a pipe, is read to it.
//
// Where the input cannot be read to its end no line is printed; where the line cannot be written whole, a part of it may be. Both are
// said on standard error and end the program with status 1. How the program is used is said there where it is given an argument. A
// script takes the line where it ends with a line feed and standard error is empty.
#![tactic(auto)]

ghost use Rattle.std.specs.Prelude.{List, ℕ};
ghost use Rattle.lines.specs.Lines.{Line};
ghost use Rattle.system.specs.Reads.{IsFile};

use limits::LINE_BYTES;
use refusals::Refusal;
use std::io::Write;
use std::process::ExitCode;
use system::{Failure, Source, StandardInput, TooLong};
use totals::Outcome;

// What is said where something could not be done.
const UNREAD: &str = "report: no line is printed, since standard input could not be read";

const UNWRITTEN: &str = "report: the line could not be written whole";

// Writes the line of a file. Of one that is too long, its length alone decides.
fn write_line(file: Result<&[u8], TooLong>, line: &mut [u8]) -> Result<usize, Refusal>
    ensures { (f : List ℕ) → IsFile file.entry f → Line f line.old line.new result }
{
    match file {
        Ok(bytes) => lines::line(bytes, line),
        Err(whole) => {
            let outcome = Outcome::from(reports::refuse_length(whole.length));
            lines::outcome_line(outcome, line)
        }
    }
}

// Reads a file and prints its line.
fn report<S: Source, W: Write>(input: &mut S, out: &mut W) -> Result<(), Failure> {
    let mut room = system::file_room();
    let length = system::read_file(input, &mut room).map_err(|error| Failure {
        sentence: UNREAD,
        error,
    })?;
    let mut line = [0u8; LINE_BYTES];
    let file = system::file_in(&room, length);
    // As many bytes are lent as the call wants, so it does not refuse.
    let n = write_line(file, &mut line).unwrap();
    system::write_line(out, &line[..n]).map_err(|error| Failure {
        sentence: UNWRITTEN,
        error,
    })
}

fn main(rt: HostRuntime) -> ExitCode {
    if system::has_argument(&rt) {
        let _ = eprintln!(rt; "usage: report < FILE");
        return ExitCode::SUCCESS;
    }
    let mut input = StandardInput {
        reader: rt.stdin(),
        files: &rt,
    };
    system::exit_code(&rt, report(&mut input, &mut rt.stdout()))
}
