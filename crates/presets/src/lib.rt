// The twenty presets: the filters of window three, each as a form.
//
// No public function has a `requires`, and nothing is assumed.

#![tactic(auto)]

ghost use Rattle.std.specs.Prelude.{◌≡◌, cond};
ghost use Rattle.limits.specs.Limits.{table_bytes};
ghost use Rattle.theory.specs.Tables.{table_of};
ghost use Rattle.presets.specs.Presets.{on_window, Preset};

use limits::{PRESETS, TABLE_BYTES};
use refusals::Refusal;
use std::array;

// Window three has so many samples, and they have so many patterns.
const THREE: usize = 3;

const THREE_PATTERNS: usize = 1 << THREE;

// The 8-bit truth tables over the offsets -1, 0, 1 (the first is the lowest bit): every positive one, ascending.
const TABLES: [u8; PRESETS] = [
    0, 128, 136, 160, 168, 170, 192, 200, 204, 224, 232, 234, 236, 238, 240, 248, 250, 252, 254,
    255,
];

// A byte of eight equal bits.
fn repeat(b: bool) -> u8
    ensures { result ≡ cond b 255 0 }
{
    if b { 255 } else { 0 }
}

// The truth table of an 8-bit one on the window's patterns. The offsets -1, 0, 1 stand at the positions 3, 4, 5, so the eight
// patterns of byte j all have the lowest three bits of j there.
fn tabulate(small: u8) -> [u8; TABLE_BYTES]
    ensures { result ≡ table_of table_bytes (on_window small) }
{
    array::from_fn(|j| repeat(bits::has(small as usize, j % THREE_PATTERNS)))
}

// A preset's form: answers the number of terms, and writes the form from the start of `terms`.
// Refuses 14 where the number is over 19, then 6 where fewer elements are lent than the form has terms.
#[tactic(auto, unfolding(crate::specs::Presets::preset_checked, crate::specs::Presets::preset_tables))]
pub fn preset(number: u64, terms: &mut [u16]) -> Result<usize, Refusal>
    ensures { Preset number terms.old terms.new result }
{
    let i = number as usize;
    let Some(&small) = TABLES.get(i) else {
        return Err(Refusal::PresetNumber(i));
    };
    let table = tabulate(small);
    tables::table_to_form(&table, terms)
}
