// The C interface: each function wraps one public call and is proved against the same promise. For a file of the night sheet there are two
// calls, one that adds to the totals and one that writes the line.
//
// A slice is a pointer and a length; where the length is 0 the pointer may be null. The result is 0, or the
// refusal's number; `*value` is what the call returns, or the refusal's place. On refusal nothing else is written. No function has a
// `requires`, and nothing is assumed.

#![tactic(auto)]

ghost use Rattle.std.specs.Prelude.{◌≡◌, [], ◌∷◌, length};
ghost use Rattle.limits.specs.Limits.{width, line_bytes, totals_bytes};
ghost use Rattle.theory.specs.Lists.{first};
ghost use Rattle.theory.specs.Signals.{held, filtered_at};
ghost use Rattle.refusals.specs.Numbers.{notice};
ghost use Rattle.refusals.specs.Refusals.{and_then, kept, written};
ghost use Rattle.forms.specs.Check.{form_checked};
ghost use Rattle.tables.specs.Tables.{TableToForm, FormToTable};
ghost use Rattle.presets.specs.Presets.{Preset};
ghost use Rattle.scans.specs.Run.{Clean, Residue, root_checked, differs};
ghost use Rattle.runner.specs.Run.{Run};
ghost use Rattle.compiler.specs.Compile.{Compile};
ghost use Rattle.files.specs.Layout.{counts_family, file_terms, file_samples};
ghost use Rattle.files.specs.Files.{Write, file_checked, read_checked};
ghost use Rattle.reports.specs.Counts.{counts_in};
ghost use Rattle.lists.specs.Names.{CheckList};
ghost use Rattle.totals.specs.declared.Outcome.TheVariants.{Unopened};
ghost use Rattle.lines.specs.Lines.{Line, Writes, outcome_line, totals_line};
ghost use Rattle.exports.specs.Told.{notice_told, Told};
ghost use Rattle.exports.specs.Sheet.{outcome_in, totals_in, summed};
ghost use Rattle.exports.specs.Private.{sample_in, samples_in, terms_in, counted_in, five_in};

use files::Sizes;
use limits::{LINE_BYTES, WIDTH};
use refusals::{Notice, Refusal};
use reports::Counts;
use totals::{NUMBERS, Outcome, Totals};

// ---- what C is told

// The result, and the number that C finds at `value`.
fn tell(answer: Result<usize, Refusal>, value: &mut usize) -> u8
    ensures { notice result value.new ≡ notice_told answer }
{
    match answer {
        Ok(n) => {
            *value = n;
            0
        }
        Err(refusal) => {
            let notice = Notice::from(refusal);
            *value = notice.place;
            notice.number
        }
    }
}

// The first sample that differs, or the number of samples where none does.
fn sample_in(answer: Result<Option<usize>, Refusal>, samples: usize) -> Result<usize, Refusal>
    ensures { result ≡ sample_in answer samples }
{
    answer.map(|differs| differs.unwrap_or(samples))
}

// The number of samples read.
fn samples_in(answer: Result<Sizes, Refusal>) -> Result<usize, Refusal>
    ensures { result ≡ samples_in answer }
{
    answer.map(|sizes| sizes.samples)
}

// The number of terms read; what stood there before, where nothing was.
fn terms_in(answer: Result<Sizes, Refusal>, before: usize) -> usize
    ensures { result ≡ terms_in answer before }
{
    answer.map_or(before, |sizes| sizes.terms)
}

// The number of samples counted.
fn counted_in(answer: Result<Counts, Refusal>) -> Result<usize, Refusal>
    ensures { result ≡ counted_in answer }
{
    answer.map(|counts| counts.samples as usize)
}

// The five numbers in the printed order; what stood there before, where nothing was counted.
fn five_in(answer: Result<Counts, Refusal>, before: [u64; 5]) -> [u64; 5]
    ensures { result ≡ five_in answer before }
{
    // A match: tried with map_or, and the proof didn't close.
    match answer {
        Ok(counts) => counts.into(),
        Err(_) => before,
    }
}

// The totals after a file, with so many bytes lent for its line: with its outcome, or as they were where these are refused.
fn sum(numbers: [u64; NUMBERS], outcome: Outcome, lent: usize) -> [u64; NUMBERS]
    ensures { result ≡ summed numbers outcome lent }
{
    if refusals::check_lent(LINE_BYTES, lent).is_ok() {
        totals::add(numbers.into(), outcome).into()
    } else {
        numbers
    }
}

// Adds what became of a file to the totals and writes its line.
fn put_line(outcome: Outcome, totals: &mut [u64; NUMBERS], out: &mut [u8], value: &mut usize) -> u8
    ensures { Told (Writes line_bytes (outcome_line outcome) out.old out.new) result value.new
        × (totals.new ≡ summed totals.old outcome (length out.old)) }
{
    *totals = sum(*totals, outcome, out.len());
    tell(lines::outcome_line(outcome, out), value)
}

// So many terms, where they are a form.
fn count_in(checked: Result<(), Refusal>, terms: usize) -> Result<usize, Refusal>
    ensures { result ≡ and_then checked (Ok terms) }
{
    checked?;
    Ok(terms)
}

// ---- the calls

// Compiles a recipe; see compiler::compile. Refuses 1 to 5, 6; the terms go to `terms`, their number to `value`.
#[unsafe(no_mangle)]
pub extern "C" fn sf_compile(recipe: &[u8], terms: &mut [u16], value: &mut usize) -> u8
    ensures { Told (Compile recipe.now terms.old terms.new) result value.new }
{
    tell(compiler::compile(recipe, terms), value)
}

// Runs a recipe directly; see runner::run. Refuses 1 to 5, 9, 10; the samples go to `out`, their number to `value`.
#[unsafe(no_mangle)]
pub extern "C" fn sf_run_recipe(
    recipe: &[u8],
    scan: &[u16],
    out: &mut [u16],
    value: &mut usize,
) -> u8
    ensures { Told (Run recipe.now scan.now out.old out.new) result value.new }
{
    tell(runner::run(recipe, scan, out), value)
}

// Whether a list of terms is a form; see forms::check. Refuses 7, 8; the number of terms goes to `value`.
#[unsafe(no_mangle)]
pub extern "C" fn sf_check(terms: &[u16], value: &mut usize) -> u8
    ensures { let form = terms.now in
        Told (λ a. a ≡ and_then (form_checked width form) (Ok (length form))) result value.new }
{
    tell(count_in(forms::check(WIDTH, terms), terms.len()), value)
}

// A truth table to its form; see tables::table_to_form. Refuses 13, 12, 6; the terms go to `terms`, their number to `value`.
#[unsafe(no_mangle)]
pub extern "C" fn sf_table_to_form(table: &[u8], terms: &mut [u16], value: &mut usize) -> u8
    ensures { Told (TableToForm table.now terms.old terms.new) result value.new }
{
    tell(tables::table_to_form(table, terms), value)
}

// A form to its truth table; see tables::form_to_table. Refuses 7, 8, 13; the table goes to `table`, the number of terms to `value`.
#[unsafe(no_mangle)]
pub extern "C" fn sf_form_to_table(terms: &[u16], table: &mut [u8], value: &mut usize) -> u8
    ensures { Told (FormToTable terms.now table.old table.new) result value.new }
{
    tell(tables::form_to_table(terms, table), value)
}

// A preset's form; see presets::preset. Refuses 14, 6; the terms go to `terms`, their number to `value`.
#[unsafe(no_mangle)]
pub extern "C" fn sf_preset(number: u64, terms: &mut [u16], value: &mut usize) -> u8
    ensures { Told (Preset number terms.old terms.new) result value.new }
{
    tell(presets::preset(number, terms), value)
}

// Runs a form on a scan; see scans::clean. Refuses 7, 8, 9, 10; the cleaned samples go to `out`, their number to `value`.
#[unsafe(no_mangle)]
pub extern "C" fn sf_clean(terms: &[u16], scan: &[u16], out: &mut [u16], value: &mut usize) -> u8
    ensures { Told (Clean terms.now scan.now out.old out.new) result value.new }
{
    tell(scans::clean(terms, scan, out), value)
}

// The residue of a form on a scan; see scans::residue. Refuses 7, 8, 9, 10; the residues go to `out`, their number to `value`.
#[unsafe(no_mangle)]
pub extern "C" fn sf_residue(terms: &[u16], scan: &[u16], out: &mut [i32], value: &mut usize) -> u8
    ensures { Told (Residue terms.now scan.now out.old out.new) result value.new }
{
    tell(scans::residue(terms, scan, out), value)
}

// The root question; see scans::root. Refuses 7, 8, 9; `value` is the first sample that differs, or the number of samples where
// the scan is a root.
#[tactic(auto, using(crate::proofs::Tells::root_sample))]
#[unsafe(no_mangle)]
pub extern "C" fn sf_root(terms: &[u16], scan: &[u16], value: &mut usize) -> u8
    ensures { let form = terms.now in
        let s = scan.now in
        Told (λ a. a ≡ and_then (root_checked form s) (Ok (first (differs (filtered_at held form s) s) (length s)))) result value.new }
{
    tell(sample_in(scans::root(terms, scan), scan.len()), value)
}

// Writes a scan file; see files::write. Refuses 7, 8, 9, 10; the file goes to `out`, its length to `value`.
#[unsafe(no_mangle)]
pub extern "C" fn sf_write(terms: &[u16], scan: &[u16], out: &mut [u8], value: &mut usize) -> u8
    ensures { Told (Write terms.now scan.now out.old out.new) result value.new }
{
    tell(files::write(terms, scan, out), value)
}

// Reads a scan file; see files::read. Refuses 15 to 18, 7, 8, 9, 6, 10; the samples and the terms go to their slices, their numbers to
// `value` and `terms_read`.
#[tactic(auto, using(crate::proofs::Tells::read_samples, crate::proofs::Tells::read_terms))]
#[unsafe(no_mangle)]
pub extern "C" fn sf_read(
    file: &[u8],
    samples: &mut [u16],
    terms: &mut [u16],
    value: &mut usize,
    terms_read: &mut usize,
) -> u8
    ensures { let f = file.now in
        let check = read_checked counts_family f (length samples.old) (length terms.old) in
        Told (λ a. a ≡ and_then check (Ok (length (file_samples f)))) result value.new
        × (samples.new ≡ written check (file_samples f) samples.old)
        × (terms.new ≡ written check (file_terms f) terms.old)
        × (terms_read.new ≡ kept check (length (file_terms f)) terms_read.old) }
{
    let answer = files::read(file, samples, terms);
    *terms_read = terms_in(answer, *terms_read);
    tell(samples_in(answer), value)
}

// Counts for the report from a scan file; see reports::count. Refuses 15 to 18, 7, 8, 9; the five numbers go to `counts` in the printed
// order, the number of samples to `value`.
#[tactic(auto, using(crate::proofs::Tells::count_samples, crate::proofs::Tells::count_five))]
#[unsafe(no_mangle)]
pub extern "C" fn sf_count(file: &[u8], counts: &mut [u64; 5], value: &mut usize) -> u8
    ensures { let f = file.now in
        let check = file_checked counts_family f in
        let c = counts_in f in
        Told (λ a. a ≡ and_then check (Ok (length (file_samples f)))) result value.new
        × (counts.new ≡ kept check (c.samples ∷ c.changed ∷ c.spikes ∷ c.up ∷ c.down ∷ []) counts.old) }
{
    let answer = reports::count(file);
    *counts = five_in(answer, *counts);
    tell(counted_in(answer), value)
}

// The line that the report program prints of a scan file; see lines::line. Refuses 10, of `out` alone; the line goes to `out`, its
// length to `value`.
#[unsafe(no_mangle)]
pub extern "C" fn sf_line(file: &[u8], out: &mut [u8], value: &mut usize) -> u8
    ensures { Told (Line file.now out.old out.new) result value.new }
{
    tell(lines::line(file, out), value)
}

// ---- the night sheet, its totals fourteen numbers in the order of its last line

// Checks a list of file names; see lists::check. Refuses 20, 19; the number of names goes to `value`.
#[unsafe(no_mangle)]
pub extern "C" fn sf_night_list(text: &[u8], value: &mut usize) -> u8
    ensures { Told (CheckList text.now) result value.new }
{
    tell(lists::check(text), value)
}

// Adds a file that was read to the totals and writes its line; see totals::add and lines::outcome_line. Refuses 10, of `out` alone,
// and then adds nothing; the line goes to `out`, its length to `value`.
#[unsafe(no_mangle)]
pub extern "C" fn sf_night_line(
    file: &[u8],
    totals: &mut [u64; NUMBERS],
    out: &mut [u8],
    value: &mut usize,
) -> u8
    ensures { let o = outcome_in file.now in
        Told (Writes line_bytes (outcome_line o) out.old out.new) result value.new
        × (totals.new ≡ summed totals.old o (length out.old)) }
{
    put_line(Outcome::from(reports::count(file)), totals, out, value)
}

// The same for a file that could not be opened or read.
#[unsafe(no_mangle)]
pub extern "C" fn sf_night_unopened(
    totals: &mut [u64; NUMBERS],
    out: &mut [u8],
    value: &mut usize,
) -> u8
    ensures { Told (Writes line_bytes (outcome_line Unopened) out.old out.new) result value.new
        × (totals.new ≡ summed totals.old Unopened (length out.old)) }
{
    put_line(Outcome::Unopened, totals, out, value)
}

// The sheet's last line; see lines::totals_line. Refuses 10; the line goes to `out`, its length to `value`.
#[unsafe(no_mangle)]
pub extern "C" fn sf_night_totals(totals: &[u64; NUMBERS], out: &mut [u8], value: &mut usize) -> u8
    ensures { Told (Writes totals_bytes (totals_line (totals_in totals.now)) out.old out.new)
        result value.new }
{
    tell(lines::totals_line(Totals::from(*totals), out), value)
}
