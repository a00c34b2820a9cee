// The compiler: one form for a recipe.
//
// It runs the recipe on scans that show the patterns, as many samples to a pattern as the window has columns. In the middle of a
// pattern the recipe sees that pattern and nothing else, so what it gives there is its truth value. The patterns come in batches,
// so that neither the scan nor the stack grows with their number. No public function has a `requires`, and nothing is assumed.

#![tactic(auto)]

ghost use Rattle.std.specs.Prelude.{◌≡◌, Ok, ◌+◌, ◌*◌, ◌%◌, ◌<◌, ◌≤◌, length};
ghost use Rattle.limits.specs.Limits.{width, patterns, byte_bits, table_bytes};
ghost use Rattle.theory.specs.Lists.{tab};
ghost use Rattle.theory.specs.Sets.{gather};
ghost use Rattle.theory.specs.Tables.{table_of};
ghost use Rattle.recipes.specs.Meaning.{truth_of};
ghost use Rattle.compiler.specs.Private.{byte_samples, batch_bytes, sample_of, pattern_scan, middle_of};
ghost use Rattle.compiler.specs.Compile.{Compile};

use limits::{BYTE_BITS, REACH, TABLE_BYTES, WIDTH};
use recipes::Recipe;
use refusals::Refusal;
use std::array;

// The samples that show the patterns of a byte of the truth table.
const BYTE_SAMPLES: usize = BYTE_BITS * WIDTH;
// A batch is so many bytes of the truth table that its scan fills one piece of a run.
const BATCH_BYTES: usize = rows::PIECE / BYTE_SAMPLES;

const BATCH_SAMPLES: usize = BATCH_BYTES * BYTE_SAMPLES;
// The last batch may have fewer bytes than the others. (A constant cannot call div_ceil yet.)
const BATCHES: usize = (TABLE_BYTES + BATCH_BYTES - 1) / BATCH_BYTES;

// The sample that shows column k of the pattern v: 1 where the pattern has the position that stands there.
fn show(v: usize, k: usize) -> u16
    ensures { result ≡ sample_of v k }
{
    bits::bit(bits::has(v, windows::position(k))) as u16
}

// Fills a scan so that it shows the pattern v, column by column.
fn show_pattern(scan: &mut [u16], v: usize)
    ensures { scan.new ≡ tab (length scan.old) (sample_of v) }
{
    for (k, sample) in scan.iter_mut().enumerate() {
        *sample = show(v, k);
    }
}

// Fills a scan so that it shows whole patterns from the first on, one after the other. (By their number: after chunks_mut a proof knows a
// slice's length alone. One loop over the samples divides at each of them, and a compile of one step took half as long again.)
fn show_patterns(scan: &mut [u16], first: usize)
    requires { (first < patterns) × (length scan.old % width ≡ 0) }
    ensures { scan.new ≡ pattern_scan first (length scan.old) }
{
    for i in 0..scan.len() / WIDTH {
        let at = i * WIDTH;
        show_pattern(&mut scan[at..at + WIDTH], first + i);
    }
}

// Byte j of the truth table, of a run on the scan that shows its patterns: the middle of a pattern is its column of offset 0.
fn read_byte(out: &[u16], j: usize) -> u8
    requires { (j + 1) * byte_samples ≤ length out.now }
    ensures { result ≡ gather byte_bits (λ i. middle_of out.now (byte_bits * j + i)) }
{
    bits::byte(array::from_fn(|i| 1 <= out[(BYTE_BITS * j + i) * WIDTH + REACH]))
}

// The bytes of the truth table whose patterns the scan of a run shows. (A twin of `fill_table` of tables in shape; see there.)
fn read_bytes(out: &[u16], bytes: &mut [u8])
    requires { length out.now ≡ length bytes.old * byte_samples }
    ensures { bytes.new ≡ table_of (length bytes.old) (middle_of out.now) }
{
    for (j, byte) in bytes.iter_mut().enumerate() {
        *byte = read_byte(out, j);
    }
}

// The bytes of an accepted recipe's truth table for the patterns from the first on: a scan shows them, and is run.
fn fill_batch(recipe: &Recipe<'_>, bytes: &mut [u8], first: usize)
    requires nonempty { 0 < length bytes.old }
    requires few { length bytes.old ≤ batch_bytes }
    requires tabled { first + byte_bits * length bytes.old ≤ patterns }
    ensures { bytes.new ≡ table_of (length bytes.old) (λ v. truth_of recipe.now.bytes.now (first + v)) }
{
    let samples = bytes.len() * BYTE_SAMPLES;
    let mut shown = [0u16; BATCH_SAMPLES];
    let mut given = [0u16; BATCH_SAMPLES];
    let scan = &mut shown[..samples];
    let out = &mut given[..samples];
    show_patterns(scan, first);
    let _ = runner::run(recipe.bytes(), scan, out);
    read_bytes(out, bytes);
}

// The truth table of an accepted recipe, one batch after the other. (After chunks_mut a proof knows a slice's length alone.)
fn tabulate(recipe: &Recipe<'_>) -> [u8; TABLE_BYTES]
    ensures { result ≡ table_of table_bytes (truth_of recipe.now.bytes.now) }
{
    let mut table = [0u8; TABLE_BYTES];
    for batch in 0..BATCHES {
        let at = batch * BATCH_BYTES;
        let next = TABLE_BYTES.min(at + BATCH_BYTES);
        fill_batch(recipe, &mut table[at..next], BYTE_BITS * at);
    }
    table
}

// Compiles a recipe to its form: the terms go to the start of `terms`, and the answer is their number. Refuses 1 to 5 as
// `recipes::judge` does, then 6 where fewer elements are lent than the form has terms. A refusal changes no element of `terms`.
#[tactic(auto, unfolding(crate::specs::Compile::compile_checked), using(crate::proofs::Demand::accepted_faithful))]
pub fn compile(recipe: &[u8], terms: &mut [u16]) -> Result<usize, Refusal>
    ensures { Compile recipe.now terms.old terms.new result }
{
    let recipe = Recipe::new(recipe)?;
    let table = tabulate(&recipe);
    tables::table_to_form(&table, terms)
}
