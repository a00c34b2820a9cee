// The lines of the report and of the night sheet: fields of digits and words, written to a slice that the caller lends.
//
// No public function has a `requires`, and nothing is assumed.

#![tactic(auto)]

ghost use Rattle.std.specs.Prelude.{◌≡◌, [], ◌∷◌, ◌++◌, map, ◌+◌, ◌*◌, ◌≤◌, ◌<◌, length};
ghost use Rattle.limits.specs.Limits.{line_bytes, totals_bytes};
ghost use Rattle.totals.specs.declared.Outcome.TheVariants.{Opened};
ghost use Rattle.lines.specs.Lines.{decimal, line_of, counts_line, refused_line, outcome_line, in_order, totals_line, Writes, Line};
ghost use Rattle.lines.specs.Private.{Put};

use limits::{LINE_BYTES, TOTALS_BYTES};
use refusals::{Notice, Refusal};
use reports::Counts;
pub use totals::NUMBERS;
use totals::{Outcome, Totals};

const SPACE: u8 = b' ';

const LINE_FEED: u8 = b'\n';
// A number of 64 bits has at most so many digits.
const DIGITS: usize = 20;

// Puts a field and the byte behind it, and answers their length.
fn put_field(field: &[u8], end: u8, out: &mut [u8]) -> usize
    requires { length field.now < length out.old }
    ensures { Put (field.now ++ (end ∷ [])) out.old out.new result }
{
    let n = field.len();
    out[..n].copy_from_slice(field);
    out[n] = end;
    n + 1
}

// Puts a number and the byte behind it, and answers their length.
fn put_number(number: u64, end: u8, out: &mut [u8]) -> usize
    requires { 20 < length out.old }
    ensures { Put (decimal number ++ (end ∷ [])) out.old out.new result × (result ≤ 21) }
{
    let mut digits = [0; DIGITS];
    let n = io::decimal(number, &mut digits);
    put_field(&digits[..n], end, out)
}

// Puts the rest of a line, some numbers, and answers its length.
fn put_numbers(numbers: &[u64], out: &mut [u8]) -> usize
    requires { (0 < length numbers.now) × (21 * length numbers.now ≤ length out.old) }
    ensures { Put (line_of (map decimal numbers.now)) out.old out.new result }
{
    let last = numbers.len() - 1;
    let mut at = 0;
    for number in &numbers[..last] {
        at += put_number(*number, SPACE, &mut out[at..]);
    }
    at + put_number(numbers[last], LINE_FEED, &mut out[at..])
}

// Puts the line of what a count answered, and answers its length.
#[tactic(auto, unfolding(crate::specs::Lines::counts_line, crate::specs::Lines::outcome_line))]
fn put_answer(answer: Result<Counts, Notice>, out: &mut [u8]) -> usize
    requires { length out.old ≡ line_bytes }
    ensures { Put (outcome_line (Opened answer)) out.old out.new result }
{
    match answer {
        Ok(counts) => {
            let numbers: [u64; 5] = counts.into();
            put_numbers(&numbers, out)
        }
        Err(refusal) => {
            let numbers = [refusal.number as u64, refusal.place as u64];
            let at = put_field(b"refused", SPACE, out);
            at + put_numbers(&numbers, &mut out[at..])
        }
    }
}

// Puts the line of what became of a file, and answers its length.
#[tactic(auto, unfolding(crate::specs::Lines::line_of, crate::specs::Lines::unopened_word, crate::specs::Lines::unopened_line, crate::specs::Lines::outcome_line))]
fn put_outcome(outcome: Outcome, out: &mut [u8]) -> usize
    requires { length out.old ≡ line_bytes }
    ensures { Put (outcome_line outcome) out.old out.new result }
{
    match outcome {
        Outcome::Unopened => put_field(b"unopened", LINE_FEED, out),
        Outcome::Opened(answer) => put_answer(answer, out),
    }
}

// The totals in the order of the night sheet's last line.
pub fn in_order(totals: Totals) -> [u64; NUMBERS]
    ensures { result ≡ in_order totals }
{
    totals.into()
}

// Writes the night sheet's line of a file: `unopened`, the five counts, or `refused`, number, place.
// Refuses 10 where the slice has not 128 bytes, more than any such line has.
#[tactic(auto, using(refusals::proofs::Shared::lent_fine, crate::proofs::Puts::put_writes))]
pub fn outcome_line(outcome: Outcome, out: &mut [u8]) -> Result<usize, Refusal>
    ensures { Writes line_bytes (outcome_line outcome) out.old out.new result }
{
    refusals::check_lent(LINE_BYTES, out.len())?;
    Ok(put_outcome(outcome, out))
}

// Writes the line of a refused list, which is that of a refused file: `refused`, number, place. Refuses 10 as outcome_line does.
#[tactic(auto, unfolding(crate::specs::Lines::outcome_line))]
pub fn refused_line(refusal: Notice, out: &mut [u8]) -> Result<usize, Refusal>
    ensures { Writes line_bytes (refused_line refusal) out.old out.new result }
{
    outcome_line(Outcome::Opened(Err(refusal)), out)
}

// Writes the line that the report program prints of a file: the five counts, or `refused`, number, place. It never refuses the file.
// Refuses 10 as outcome_line does.
pub fn line(file: &[u8], out: &mut [u8]) -> Result<usize, Refusal>
    ensures { Line file.now out.old out.new result }
{
    outcome_line(Outcome::from(reports::count(file)), out)
}

// Writes the night sheet's last line: its totals. Refuses 10 where the slice has not 512 bytes, more than any such line has.
#[tactic(auto, using(refusals::proofs::Shared::lent_fine))]
pub fn totals_line(totals: Totals, out: &mut [u8]) -> Result<usize, Refusal>
    ensures { Writes totals_bytes (totals_line totals) out.old out.new result }
{
    refusals::check_lent(TOTALS_BYTES, out.len())?;
    Ok(put_numbers(&in_order(totals), out))
}
