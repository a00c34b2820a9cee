// Windows: where the positions of a set stand in a row, the offsets that they stand for, and what stands beyond the ends of a row.
//
// A position stands in a column, and column k stands for the offset k - 4. Only `column` and `position` know that the positions stand
// in the order of their offsets. No public function has a `requires`, and nothing is assumed. Each public contract is an equation for the
// result: it allows one.

#![tactic(auto, unfolding(crate::specs::Private::stands, theory::specs::Signals::window, theory::specs::Signals::wide))]

ghost use Rattle.std.specs.Prelude.{◌≡◌, true, ◌+◌, ◌-◌, ◌≤◌, ◌<◌, length, get_or, find, MatchOption};
ghost use Rattle.std.proofs.Math.IntN.{sub_ℕ};
ghost use Rattle.std.specs.Int.Signed.{mag};
ghost use Rattle.limits.specs.Limits.{reach, width};
ghost use Rattle.theory.specs.Lists.{first};
ghost use Rattle.theory.specs.Sets.{has};
ghost use Rattle.theory.specs.Signals.{window, offsets, leftmost, rightmost};
ghost use Rattle.windows.specs.Columns.{position_in};
ghost use Rattle.windows.specs.Private.{stands, columns, NoneFrom};

use limits::{REACH, WIDTH};

// ---- beyond the ends

// What stands beyond the ends of a scan: an ends rule has become these two.
#[derive(Clone, Copy)]
pub struct Beyond {
    pub left: u16,
    pub right: u16,
}

// Held ends: the first sample stands left of the scan, and the last one right of it; 0 where there is none.
pub fn hold_ends(scan: &[u16]) -> Beyond
    ensures { (result.left ≡ get_or scan.now 0 0)
        × (result.right ≡ get_or scan.now (length scan.now - 1) 0) }
{
    let left = scan.first().copied().unwrap_or(0);
    let right = scan.last().copied().unwrap_or(0);
    Beyond { left, right }
}

// ---- positions and columns

// The column in which a position stands.
pub fn column(position: usize) -> usize
    ensures { result ≡ window.column position }
{
    position
}

// The position that stands in a column; the number of positions where none does, as docs/PROMISES.md says of `position`.
#[tactic(auto, using(crate::proofs::Columns::position_capped))]
pub fn position(column: usize) -> usize
    ensures { result ≡ position_in column }
{
    column.min(WIDTH)
}

// ---- the columns and the offsets of a set

// Whether a position of the set stands in a column.
fn stands(set: u16, column: usize) -> bool
    ensures { result ≡ stands set column }
{
    bits::has(usize::from(set), position(column))
}

// The least column in which a position of the set stands, if one does.
fn find_least(set: u16) -> Option<usize>
    ensures { result ≡ find (stands set) columns }
{
    (0..WIDTH).find(|&k| stands(set, k))
}

// The greatest one, if there is one. Not `.rev().find(..)`: no law says which list a range from its end is, and that didn't prove.
fn find_greatest(set: u16) -> Option<usize>
    ensures { MatchOption result (NoneFrom set 0) (λ k. (k < width) × (stands set k ≡ true) × NoneFrom set (k + 1)) }
{
    for k in (0..WIDTH).rev() {
        if stands(set, k) {
            return Some(k);
        }
    }
    None
}

// The least column in which a position of the set stands; the number of columns where none does, as docs/PROMISES.md says of
// `least_column`.
pub fn least_column(set: u16) -> usize
    ensures { result ≡ first (λ k. has set (position_in k)) width }
{
    find_least(set).unwrap_or(WIDTH)
}

// The offset that a column stands for.
fn offset(column: usize) -> i32
    requires { column < width }
    ensures { (result ≡ sub_ℕ column reach) × (mag result ≤ reach) }
{
    (column as i32) - (REACH as i32)
}

// The least offset of a set; 0 where it has none.
pub fn least_offset(set: u16) -> i32
    ensures { (result ≡ leftmost (offsets window set)) × (mag result ≤ reach) }
{
    find_least(set).map_or(0, offset)
}

// The greatest offset of a set; 0 where it has none.
pub fn greatest_offset(set: u16) -> i32
    ensures { (result ≡ rightmost (offsets window set)) × (mag result ≤ reach) }
{
    find_greatest(set).map_or(0, offset)
}
