// The call that a record asks for.
//
// A slice is lent with a filler everywhere, at the length that stands next in the record, and is printed
// behind the answer, as the call left it.
use crate::records::Record;
use refusals::Refusal;
use std::io::{Read, Write};
use wire::Wire;
use wire::room::{self, LENT_BYTES, LENT_WORDS, Lent};

#[derive(Clone, Copy)]
pub enum Call {
    Check,
    Clean,
    Residue,
    Root,
    TableToForm,
    FormToTable,
    Preset,
    RunRecipe,
    Compile,
    Write,
    Read,
    Count,
    Line,
}

// The numbers that second/README.md gives the calls. One that no call has stands for `compile`.
impl From<u16> for Call {
    fn from(number: u16) -> Call {
        match number {
            1 => Call::Check,
            2 => Call::Clean,
            3 => Call::Residue,
            4 => Call::Root,
            5 => Call::TableToForm,
            6 => Call::FormToTable,
            7 => Call::Preset,
            8 => Call::RunRecipe,
            10 => Call::Write,
            11 => Call::Read,
            12 => Call::Count,
            13 => Call::Line,
            _ => Call::Compile,
        }
    }
}

// Makes the call, and prints its answer and what it was lent.
pub fn make<R: Read, W: Write>(wire: &mut Wire<R, W>, call: Call, record: Record<'_>) {
    let Record { terms, scan, bytes } = record;
    match call {
        Call::Check => wire.value(forms::check(limits::WIDTH, terms).map(|_| terms.len())),
        Call::Clean => lend_words(wire, |_, lent| scans::clean(terms, scan, lent)),
        Call::Residue => lend_residues(wire, |_, lent| scans::residue(terms, scan, lent)),
        Call::Root => {
            wire.value(scans::root(terms, scan).map(|differs| differs.unwrap_or(scan.len())))
        }
        Call::TableToForm => lend_words(wire, |_, lent| tables::table_to_form(bytes, lent)),
        Call::FormToTable => lend_bytes(wire, |_, lent| tables::form_to_table(terms, lent)),
        Call::Preset => lend_words(wire, |wire, lent| presets::preset(wire.number(), lent)),
        Call::RunRecipe => lend_words(wire, |_, lent| runner::run(bytes, scan, lent)),
        Call::Compile => lend_words(wire, |_, lent| compiler::compile(bytes, lent)),
        Call::Write => lend_bytes(wire, |_, lent| files::write(terms, scan, lent)),
        Call::Read => lend_samples_and_terms(wire, bytes),
        Call::Count => wire.answer(reports::count(bytes).map(<[u64; 5]>::from)),
        Call::Line => lend_bytes(wire, |_, lent| lines::line(bytes, lent)),
    }
}

// ---- calls that are lent a slice
//
// Three functions make the room: tried as one over the type and the length, and the proof did not close. A bound on N times the size
// of a T is open there, and no clause can name a type parameter's size.

fn lend_bytes<R: Read, W: Write, F: FnOnce(&mut Wire<R, W>, &mut [u8]) -> Result<usize, Refusal>>(
    wire: &mut Wire<R, W>,
    call: F,
)
    requires { F.IsAlwaysCallable call }
{
    let mut room: [u8; LENT_BYTES] = room::filled(u8::FILLER);
    lend(wire, &mut room, call);
}

fn lend_words<R: Read, W: Write, F: FnOnce(&mut Wire<R, W>, &mut [u16]) -> Result<usize, Refusal>>(
    wire: &mut Wire<R, W>,
    call: F,
)
    requires { F.IsAlwaysCallable call }
{
    let mut room: [u16; LENT_WORDS] = room::filled(u16::FILLER);
    lend(wire, &mut room, call);
}

fn lend_residues<
    R: Read,
    W: Write,
    F: FnOnce(&mut Wire<R, W>, &mut [i32]) -> Result<usize, Refusal>,
>(wire: &mut Wire<R, W>, call: F)
    requires { F.IsAlwaysCallable call }
{
    let mut room: [i32; LENT_WORDS] = room::filled(i32::FILLER);
    lend(wire, &mut room, call);
}

fn lend<T: Lent, R: Read, W: Write, F: FnOnce(&mut Wire<R, W>, &mut [T]) -> Result<usize, Refusal>>(
    wire: &mut Wire<R, W>,
    room: &mut [T],
    call: F,
)
    requires { F.IsAlwaysCallable call }
{
    let lent = wire.lend(room);
    let answer = call(wire, lent);
    wire.value(answer);
    wire.elements(lent);
}

// ---- reading a file, which is lent samples and terms

fn lend_samples_and_terms<R: Read, W: Write>(wire: &mut Wire<R, W>, file: &[u8]) {
    let mut samples: [u16; LENT_WORDS] = room::filled(u16::FILLER);
    let mut terms: [u16; LENT_WORDS] = room::filled(u16::FILLER);
    let samples = wire.lend(&mut samples);
    let terms = wire.lend(&mut terms);
    let read = files::read(file, samples, terms);
    wire.answer(read.map(|sizes| [sizes.samples as u64, sizes.terms as u64]));
    wire.elements(samples);
    wire.elements(terms);
}
