// Leaves: what several crates ask of sets, bytes and counts, each once.
//
// No function has a `requires`, and nothing is assumed. Each contract is an equation for the result: it allows one.

#![tactic(auto, unfolding(theory::specs::Lists::bit, theory::specs::Sets::is_set, theory::specs::Sets::within))]

ghost use Rattle.std.specs.Prelude.{◌≡◌, false, ◌+◌, ◌*◌, ◌≤◌, get_or};
ghost use Rattle.limits.specs.Limits.{width, byte_bits};
ghost use Rattle.theory.specs.Lists.{bit as bit_of};
ghost use Rattle.theory.specs.Orders.{counts, larger as larger_of, smaller as smaller_of};
ghost use Rattle.theory.specs.Sets.{has as has_position, is_set, within, gather};

use limits::{BYTE_BITS, PATTERNS};

// A usize has so many bits.
const WORD_BITS: usize = 64;

// Whether a set has the position i.
pub fn has(set: usize, i: usize) -> bool
    ensures { result ≡ has_position set i }
{
    i < WORD_BITS && (set >> i) % 2 == 1
}

// Whether a number is a set of the window's positions, with some: 1 to 511.
pub fn is_set(set: u16) -> bool
    ensures { result ≡ is_set width set }
{
    0 < set && usize::from(set) < PATTERNS
}

// Whether every position of a is one of b.
pub fn is_within(a: u16, b: u16) -> bool
    ensures { result ≡ within a b }
{
    a & b == a
}

// A truth value as a number.
pub fn bit(test: bool) -> usize
    ensures { (result ≡ bit_of test) × (result ≤ 1) }
{
    usize::from(test)
}

// The byte of eight bits, the first one lowest.
pub fn byte(bits: [bool; BYTE_BITS]) -> u8
    ensures { result ≡ gather byte_bits (λ i. get_or bits i false) }
{
    let mut byte = 0;
    for &bit in bits.iter().rev() {
        byte = byte * 2 + u8::from(bit);
    }
    byte
}

// The number that two bytes are, low byte first.
pub fn word(low: u8, high: u8) -> u16
    ensures { result ≡ low + 256 * high }
{
    u16::from_le_bytes([low, high])
}

// The smaller of two counts. Not `a.min(b)`: with it and `max` a form of ten terms ran in 16.0 ns a sample for 12.8.
#[tactic(auto, unfolding(theory::specs::Orders::smaller))]
pub fn smaller(a: u16, b: u16) -> u16
    ensures { result ≡ smaller_of counts a b }
{
    if a <= b { a } else { b }
}

// The larger of two counts; not `a.max(b)`, for the same reason.
#[tactic(auto, unfolding(theory::specs::Orders::larger))]
pub fn larger(a: u16, b: u16) -> u16
    ensures { result ≡ larger_of counts a b }
{
    if a <= b { b } else { a }
}
