// Arrays to read arguments into, and arrays to lend, which hold a filler everywhere.
//
// The contract gives the length alone. Lending the array as a slice needs no more, and no check then
// looks at a hundred thousand elements.
ghost use Rattle.std.specs.Prelude.{◌≡◌, length};

use limits::{LONGEST_FILE, MOST_SAMPLES};

// So many elements more than a call can need may be lent to it.
const SPARE: usize = 16;

pub const LENT_BYTES: usize = LONGEST_FILE + SPARE;

pub const LENT_WORDS: usize = MOST_SAMPLES + SPARE;

// A truth table, a recipe or a file, also one of 65,535 terms.
pub const BYTES: usize = 131200;

// More terms than two bytes can say, and more samples than a scan may have.
pub const WORDS: usize = 100000;

// What a slice that is lent to a call may hold, and what it holds before the call.
pub trait Lent: Copy + Into<i64> {
    const FILLER: Self;
}

impl Lent for u8 {
    const FILLER: u8 = 171;
}

impl Lent for u16 {
    const FILLER: u16 = 43981;
}

impl Lent for i32 {
    const FILLER: i32 = -7;
}

pub fn filled<T: Copy, const N: usize>(filler: T) -> [T; N]
    ensures { N ≡ length result }
{
    [filler; N]
}
