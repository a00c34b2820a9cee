// The night program: reads a list of file names on standard input, one to a line, and prints the night sheet: the line of each file, in
// the list's order (see lines::outcome_line), and a last line with the totals (see lines::totals_line), each with one write.
//
// The list is judged whole before any file is opened, and a refused one prints the one line of its refusal. A name that is not a
// regular file's, such as a folder's or a pipe's, is `unopened`, and so is a file that cannot be opened or read, and one whose name is
// not UTF-8, which std does not open; the night goes on. The line of a file that is too long says its whole length, which the system
// tells, so no more of it is read than shows that.
//
// Where the list cannot be read nothing is printed; where a line cannot be written whole, the sheet ends there. Both are said on standard
// error and end the program with status 1. How the program is used is said there where it is given an argument. A script takes the
// sheet where standard error is empty.
#![tactic(auto)]

ghost use Rattle.std.specs.Prelude.{◌≡◌, List, ℕ, ◌+◌, ◌≤◌, length, take, IfOk, IfSome, OnOk, Ok};
ghost use Rattle.std.specs.Io.KnownBytes.{Appends};
ghost use Rattle.io.specs.Counts.{IsPrefixLen};
ghost use Rattle.limits.specs.Limits.{longest_list};
ghost use Rattle.refusals.specs.Numbers.{notice_of, noticed};
ghost use Rattle.reports.specs.Counts.{file_counted};
ghost use Rattle.lists.specs.Names.{list_checked};
ghost use Rattle.totals.specs.declared.Outcome.TheVariants.{Opened};
ghost use Rattle.totals.specs.Nights.{OfFile};
ghost use Rattle.lines.specs.Lines.{refused_line};
ghost use Rattle.system.specs.Reads.{IsFile};
ghost use Rattle.night.specs.Private.{next_place, Judged, Reached, Accepts, Within, OfList};

use limits::{LINE_BYTES, LONGEST_LIST, TOTALS_BYTES};
use lists::Judge;
use refusals::{Notice, Refusal};
use std::io::{self, Read, Write};
use std::ops::ControlFlow;
use std::process::ExitCode;
use std::rt::Files;
use system::{FILE_ROOM, Failure, MOST_READS, Source, TooLong};
use totals::{Outcome, Totals};

// One byte more than the longest list that is accepted has, so that one which fills it is refused.
const LIST_ROOM: usize = LONGEST_LIST + 1;

// What is said where something could not be done.
const UNREAD: &str = "night: no sheet is printed, since standard input could not be read";

const UNWRITTEN: &str = "night: the sheet could not be written whole";

// ---- the list

// The `ensures` gives only the length, which lending the array as a slice needs.
fn list_room() -> [u8; LIST_ROOM]
    ensures { longest_list + 1 ≡ length result }
{
    [0; LIST_ROOM]
}

// What reading the list has come to: the judge of what came, and how many of its bytes lie in the slice.
#[derive(Clone, Copy)]
struct Reading {
    judge: Judge,
    bytes: usize,
}

// Where the next piece goes: behind the bytes that there are, and in a full slice at its start. (bytes % room is no plainer: it owes that
// there is room.)
fn next_place(bytes: usize, room: usize) -> usize
    ensures { result ≡ next_place bytes room }
{
    if bytes < room { bytes } else { 0 }
}

// Reads one piece more, and judges it. Reading breaks off where the list ends or line 251 has begun.
fn read_piece<R: Read>(
    reader: &mut R,
    before: Reading,
    text: &mut [u8],
) -> io::Result<ControlFlow<Reading, Reading>>
    requires size { length text.old ≡ longest_list + 1 }
    requires within { before.bytes ≤ length text.old }
    requires judged { Judged text.old before.bytes before.judge }
    ensures { IfOk result (Reached text.new) }
{
    let place = next_place(before.bytes, text.len());
    let Some(bytes) = system::read_more(reader, place, text)? else {
        let judge = before.judge;
        return Ok(ControlFlow::Break(Reading {
            judge,
            bytes: place,
        }));
    };
    let judge = before.judge.judge_piece(&text[place..bytes]);
    if judge.is_over() {
        return Ok(ControlFlow::Break(Reading { judge, bytes }));
    }
    Ok(ControlFlow::Continue(Reading { judge, bytes }))
}

// Reads the list until it ends or line 251 has begun.
fn read_list<R: Read>(reader: &mut R, text: &mut [u8]) -> io::Result<Reading>
    requires { length text.old ≡ longest_list + 1 }
    ensures in_bounds { IfOk result (λ reading. IsPrefixLen reading.bytes text.new) }
    ensures accepts { IfOk result (λ reading. Accepts text.new reading.bytes reading.judge) }
{
    let mut reading = Reading {
        judge: Judge::start(),
        bytes: 0,
    };
    for _ in 0..MOST_READS {
        match read_piece(reader, reading, text)? {
            ControlFlow::Continue(more) => reading = more,
            ControlFlow::Break(whole) => return Ok(whole),
        }
    }
    Err(system::given_up())
}

// ---- the files

// What becomes of a file that is not too long.
fn outcome_of_bytes(file: &[u8]) -> Outcome
    ensures of_file { OfFile result }
    ensures counted { result ≡ Opened (noticed (file_counted file.now)) }
{
    Outcome::from(reports::count(file))
}

// What becomes of a file that was read. Of one that is too long, its length alone decides.
fn outcome_of_read(file: Result<&[u8], TooLong>) -> Outcome
    ensures of_file { OfFile result }
    ensures counted { (f : List ℕ) → IsFile file.entry f → result ≡ Opened (noticed (file_counted f)) }
{
    match file {
        Ok(bytes) => outcome_of_bytes(bytes),
        Err(whole) => Outcome::from(reports::refuse_length(whole.length)),
    }
}

// ---- the sheet

// Where the sheet is printed, and whence its files come, with room for one of them.
#[derive(Drop)]
struct Sheet<'a, R, W> {
    files: &'a R,
    out: W,
    room: [u8; FILE_ROOM],
}

impl<R: Files, W: Write> Sheet<'_, R, W>
where
    R::File: Source,
{
    // What becomes of a file that can be opened and read; none where it cannot. It is closed before this answers.
    fn open_and_count(&mut self, name: &[u8]) -> Option<Outcome>
        ensures { IfSome result OfFile }
    {
        if !system::is_file(self.files, name) {
            return None;
        }
        let mut file = system::open(self.files, name).ok()?;
        let length = system::read_file(&mut file, &mut self.room).ok()?;
        Some(outcome_of_read(system::file_in(&self.room, length)))
    }

    // What becomes of a file.
    #[tactic(auto, using(crate::proofs::Sheets::opened_or))]
    fn outcome_of(&mut self, name: &[u8]) -> Outcome
        ensures { OfFile result }
    {
        self.open_and_count(name).unwrap_or(Outcome::Unopened)
    }

    // Prints the line that a call has written to its room.
    fn print_line(&mut self, answer: Result<usize, Refusal>, room: &[u8]) -> Result<(), Failure>
        requires { Within (length room.now) answer }
        ensures { IfOk answer (λ n. OnOk result (Appends (W.contents self.old.out) (W.contents self.new.out) (take n room.now))) }
    {
        // As many bytes are lent as each call wants, so none refuses.
        let n = answer.unwrap();
        system::write_line(&mut self.out, &room[..n]).map_err(|error| Failure {
            sentence: UNWRITTEN,
            error,
        })
    }

    // (One function for the three lines is no plainer: it takes the call as a closure, and a clause for what that answers.)
    fn print_outcome(&mut self, outcome: Outcome) -> Result<(), Failure> {
        let mut line = [0u8; LINE_BYTES];
        let answer = lines::outcome_line(outcome, &mut line);
        self.print_line(answer, &line)
    }

    // A list has a refusal and is no file, so its line is not that of an outcome.
    fn print_refusal(&mut self, refusal: Refusal) -> Result<(), Failure>
        ensures { OnOk result (Appends (W.contents self.old.out) (W.contents self.new.out) (refused_line (notice_of refusal))) }
    {
        let mut line = [0u8; LINE_BYTES];
        let answer = lines::refused_line(Notice::from(refusal), &mut line);
        self.print_line(answer, &line)
    }

    fn print_totals(&mut self, totals: Totals) -> Result<(), Failure> {
        let mut line = [0u8; TOTALS_BYTES];
        let answer = lines::totals_line(totals, &mut line);
        self.print_line(answer, &line)
    }

    // Prints the line of each file of a list that is accepted, up to one that cannot be written. Answers the totals of all of them.
    // (Tried as a `for` over text.split_inclusive(..), and the proof did not close: in this generic method rattle makes no well-typed
    // `iterator-loop-line`, which the invariant of such a loop is checked with.)
    fn print_files(&mut self, text: &[u8]) -> Result<Totals, Failure>
        requires { list_checked text.now ≡ Ok tt }
        ensures { IfOk result (OfList text.now) }
    {
        let mut totals = totals::start();
        let mut place = 0;
        while place < text.len() {
            let end = lists::line_end(text, place);
            let outcome = self.outcome_of(&text[place..end]);
            self.print_outcome(outcome)?;
            totals = totals::add(totals, outcome);
            place = end + 1;
        }
        Ok(totals)
    }

    // Prints the sheet of a list that is accepted. Where a line cannot be written it has no last line.
    fn print(&mut self, text: &[u8]) -> Result<(), Failure>
        requires { list_checked text.now ≡ Ok tt }
    {
        let totals = self.print_files(text)?;
        self.print_totals(totals)
    }
}

// Reads the list and prints its sheet, or the line of its refusal.
fn night<L: Read, R: Files, W: Write + Drop>(list: &mut L, files: &R, out: W) -> Result<(), Failure>
where
    R::File: Source,
{
    let mut text = list_room();
    let reading = read_list(list, &mut text).map_err(|error| Failure {
        sentence: UNREAD,
        error,
    })?;
    let mut sheet = Sheet {
        files,
        out,
        room: system::file_room(),
    };
    match reading.judge.verdict() {
        Ok(()) => sheet.print(&text[..reading.bytes]),
        Err(refusal) => sheet.print_refusal(refusal),
    }
}

fn main(rt: HostRuntime) -> ExitCode {
    if system::has_argument(&rt) {
        let _ = eprintln!(rt; "usage: night < LIST");
        return ExitCode::SUCCESS;
    }
    system::exit_code(&rt, night(&mut rt.stdin(), &rt, rt.stdout()))
}
