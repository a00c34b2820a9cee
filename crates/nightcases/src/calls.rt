// The call that a record asks for.
//
// Bytes are lent with a filler everywhere, as many as stand next in the record. They are printed behind the
// answer, as the call left them, and then the line that was written.
use crate::pieces;
use crate::records::Record;
use lines::NUMBERS;
use refusals::{Notice, Refusal};
use reports::Counts;
use std::io::{Read, Write};
use totals::{Outcome, Totals};
use wire::Wire;
use wire::room::{self, LENT_BYTES, Lent};

#[derive(Clone, Copy)]
pub enum Call {
    CheckList,
    Judge,
    LineEnd,
    OutcomeLine,
    RefusedLine,
    TotalsLine,
    Add,
}

// The numbers that second/README.md gives the calls. One that no call has stands for `totals_line`.
impl From<u16> for Call {
    fn from(number: u16) -> Call {
        match number {
            1 => Call::CheckList,
            2 => Call::Judge,
            3 => Call::LineEnd,
            4 => Call::OutcomeLine,
            5 => Call::RefusedLine,
            7 => Call::Add,
            _ => Call::TotalsLine,
        }
    }
}

impl Call {
    // A line begins with it.
    fn name(self) -> &'static [u8] {
        match self {
            Call::CheckList => b"check_list",
            Call::Judge => b"judge",
            Call::LineEnd => b"line_end",
            Call::OutcomeLine => b"outcome_line",
            Call::RefusedLine => b"refused_line",
            Call::TotalsLine => b"totals_line",
            Call::Add => b"add",
        }
    }
}

// Makes the call, and prints its name, its answer and what it was lent. The name of a call that is lent bytes goes out once their number
// was read.
pub fn make<R: Read, W: Write>(wire: &mut Wire<R, W>, call: Call, record: Record<'_>) {
    let name = call.name();
    match call {
        Call::CheckList => {
            wire.print(name);
            check_list(wire, record.text);
        }
        Call::Judge => {
            wire.print(name);
            pieces::judge(wire, record);
        }
        Call::LineEnd => {
            wire.print(name);
            line_end(wire, record.text);
        }
        Call::OutcomeLine => lend(wire, name, |wire, lent| {
            lines::outcome_line(read_outcome(wire), lent)
        }),
        Call::RefusedLine => lend(wire, name, |wire, lent| {
            lines::refused_line(read_refusal(wire), lent)
        }),
        Call::TotalsLine => lend(wire, name, |wire, lent| {
            lines::totals_line(read_totals(wire), lent)
        }),
        Call::Add => {
            wire.print(name);
            add(wire);
        }
    }
}

// ---- lists

fn check_list<R, W: Write>(wire: &mut Wire<R, W>, text: &[u8]) {
    wire.value(lists::check(text));
}

fn line_end<R: Read, W: Write>(wire: &mut Wire<R, W>, text: &[u8]) {
    let at = wire.number() as usize;
    wire.value(Ok(lists::line_end(text, at)));
}

// ---- outcomes and totals

// A refusal's number has one byte.
fn notice_of(number: u64, place: u64) -> Notice {
    Notice {
        number: (number % 256) as u8,
        place: place as usize,
    }
}

fn read_refusal<R: Read, W>(wire: &mut Wire<R, W>) -> Notice {
    let [number, place] = wire.numbers::<2>();
    notice_of(number, place)
}

// An outcome is its kind and five numbers.
fn read_outcome<R: Read, W>(wire: &mut Wire<R, W>) -> Outcome {
    let [kind, samples, changed, spikes, up, down] = wire.numbers::<6>();
    match kind {
        0 => Outcome::Unopened,
        1 => Outcome::Opened(Ok(Counts {
            samples,
            changed,
            spikes,
            up,
            down,
        })),
        _ => Outcome::Opened(Err(notice_of(samples, changed))),
    }
}

// Totals are their numbers, in the order of the sheet's last line.
fn read_totals<R: Read, W>(wire: &mut Wire<R, W>) -> Totals {
    let numbers: [u64; NUMBERS] = wire.numbers();
    numbers.into()
}

// Adds so many outcomes, one after another. Totals are never refused.
fn add<R: Read, W: Write>(wire: &mut Wire<R, W>) {
    let mut totals = read_totals(wire);
    for _ in 0..wire.number() {
        totals = totals::add(totals, read_outcome(wire));
    }
    wire.answer(Ok(lines::in_order(totals)));
}

// ---- lines

fn lend<R: Read, W: Write, F: FnOnce(&mut Wire<R, W>, &mut [u8]) -> Result<usize, Refusal>>(
    wire: &mut Wire<R, W>,
    name: &[u8],
    call: F,
)
    requires { F.IsAlwaysCallable call }
{
    let mut room: [u8; LENT_BYTES] = room::filled(u8::FILLER);
    let lent = wire.lend(&mut room);
    wire.print(name);
    let answer = call(wire, lent);
    wire.value(answer);
    wire.elements(lent);
    if let Some(line) = answer.ok().and_then(|n| lent.get(..n)) {
        print_line(wire, line);
    }
}

// A line without its last byte, which is the line feed.
fn print_line<R, W: Write>(wire: &mut Wire<R, W>, line: &[u8]) {
    if let Some((_, text)) = line.split_last() {
        wire.print(b" ");
        wire.print(text);
    }
}
