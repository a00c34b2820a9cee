// Truth tables: a table of 64 bytes to its form, and a form to its table.
//
// Bit v mod 8 of byte v / 8 is the value on pattern v. No public function has a `requires`, and nothing is assumed.

#![tactic(auto)]

ghost use Rattle.std.specs.Prelude.{◌≡◌, true, false, cond, set, Ok, Err, ◌&&◌, ◌++◌, ◌+◌, ◌-◌, ◌*◌, ◌^◌, ◌<◌, ◌≤◌, length, drop};
ghost use Rattle.std.specs.Result.{MatchResult};
ghost use Rattle.limits.specs.Limits.{width, patterns, byte_bits, table_bytes};
ghost use Rattle.theory.specs.Lists.{bit, first, any_below};
ghost use Rattle.theory.specs.Sets.{has, gather, with_position};
ghost use Rattle.theory.specs.Forms.{holds, minimal};
ghost use Rattle.theory.specs.Tables.{table_at, table_of, slips};
ghost use Rattle.tables.specs.Tables.{form_in, bytes_checked, positive_checked};
ghost use Rattle.tables.specs.Tables.{TableToForm, FormToTable};

use limits::{BYTE_BITS, PATTERNS, TABLE_BYTES, WIDTH};
use refusals::Refusal;
use std::array;

// What position i is worth.
fn worth(i: usize) -> usize
    requires { i < width }
    ensures { result ≡ 2 ^ i }
{
    1 << i
}

// The table's value on the pattern v. Where the table has no byte for it, the value is 0. (This and the next two take table and pattern
// apart: a struct of both would be made anew for each pattern asked for.)
#[tactic(auto, unfolding(theory::specs::Tables::table_at), using(theory::proofs::Lists::get_or_beyond, theory::proofs::Sets::has_zero))]
fn value_on(table: &[u8], v: usize) -> bool
    ensures { result ≡ table_at table.now v }
{
    match table.get(v / BYTE_BITS) {
        Some(&byte) => bits::has(byte as usize, v % BYTE_BITS),
        None => false,
    }
}

// Whether the value is 1 on v and one more position turns it to 0.
#[tactic(auto, unfolding(theory::specs::Tables::slips, theory::specs::Sets::with_position))]
fn slips_on(table: &[u8], v: usize) -> bool
    ensures { result ≡ slips width (table_at table.now) v }
{
    value_on(table, v) && (0..WIDTH).any(|i| !value_on(table, v | worth(i)))
}

// Whether v has the position i and the value is 1 without it.
#[tactic(auto, using(theory::proofs::Positions::has_le))]
fn keeps_without(table: &[u8], v: usize, i: usize) -> bool
    requires { i < width }
    ensures { result ≡ (has v i && table_at table.now (v - 2 ^ i)) }
{
    bits::has(v, i) && value_on(table, v - worth(i))
}

// Puts v at n where it is kept, and answers the next index. (Tried: the kept numbers by `filter` and `enumerate`. The proof that the loop
// may ask for the next one did not close: the search for the iterator's own clause broke off.)
#[tactic(auto, unfolding(theory::specs::Lists::bit))]
fn put(terms: &mut [u16], n: usize, v: usize, kept: bool) -> usize
    requires { (kept ≡ true → n < length terms.old) × (v < patterns) }
    ensures value { result ≡ n + bit kept }
    ensures terms_after { terms.new ≡ cond kept (set terms.old n v) terms.old }
{
    if kept {
        terms[n] = v as u16;
        return n + 1;
    }
    n
}

// A table that never slips: it is positive.
#[derive(Clone, Copy)]
struct Steady<'a> {
    table: &'a [u8],
    ghost steady: { any_below (slips width (table_at table.now)) patterns ≡ false },
}

impl<'a> Steady<'a> {
    // Refuses 12 at the least pattern on which the table slips.
    fn check(table: &'a [u8]) -> Result<Steady<'a>, Refusal>
        ensures { MatchResult result (λ found. (found.table.now ≡ table.now) × (positive_checked table.now ≡ Ok tt))
            (λ why. positive_checked table.now ≡ Err why) }
    {
        match (0..PATTERNS).find(|&v| slips_on(table, v)) {
            Some(v) => Err(Refusal::NotPositive(v)),
            None => Ok(Steady { table }),
        }
    }

    // Whether v is a term of the table's form. One position less is enough to look at, since the table never slips.
    fn is_term(&self, v: usize) -> bool
        requires { v < patterns }
        ensures { result ≡ minimal (table_at self.now.table.now) v }
    {
        value_on(self.table, v) && !(0..WIDTH).any(|i| keeps_without(self.table, v, i))
    }

    // How many terms the table's form has.
    fn count_terms(&self) -> usize
        ensures { result ≡ length (form_in self.now.table.now) }
    {
        (0..PATTERNS).filter(|&v| self.is_term(v)).count()
    }

    // Writes the table's form from the start of a slice that has room, and answers its number of terms.
    fn fill_terms(&self, terms: &mut [u16]) -> usize
        requires { length (form_in self.now.table.now) ≤ length terms.old }
        ensures value { result ≡ length (form_in self.now.table.now) }
        ensures terms_after { terms.new ≡ form_in self.now.table.now ++ drop (length (form_in self.now.table.now)) terms.old }
    {
        let mut n: usize = 0;
        for v in 0..PATTERNS {
            n = put(terms, n, v, self.is_term(v));
        }
        n
    }
}

// Refusal 13, where a table slice is not 64 bytes.
#[tactic(auto, unfolding(crate::specs::Tables::bytes_checked))]
fn check_bytes(lent: usize) -> Result<(), Refusal>
    ensures { result ≡ bytes_checked lent }
{
    if lent != TABLE_BYTES {
        return Err(Refusal::TableLength(lent));
    }
    Ok(())
}

// A truth table to its form: answers the number of terms, and writes the form from the start of `terms`.
// Refuses 13 where the table is not 64 bytes, 12 where it is not positive, 6 where fewer elements are lent than the form has terms.
#[tactic(auto, unfolding(crate::specs::Tables::table_to_form_checked), using(refusals::proofs::Shared::room_fine))]
pub fn table_to_form(table: &[u8], terms: &mut [u16]) -> Result<usize, Refusal>
    ensures { TableToForm table.now terms.old terms.new result }
{
    check_bytes(table.len())?;
    let steady = Steady::check(table)?;
    refusals::check_room(steady.count_terms(), terms.len())?;
    Ok(steady.fill_terms(terms))
}

// The form's value on the pattern v. (With `any` the table of a form of one term took 1.3 times as long.)
fn holds_on(terms: &[u16], v: u16) -> bool
    ensures { result ≡ holds terms.now v }
{
    for &term in terms {
        if bits::is_within(term, v) {
            return true;
        }
    }
    false
}

// Byte j of the form's table.
fn byte_of(terms: &[u16], j: usize) -> u8
    requires { j < table_bytes }
    ensures { result ≡ gather byte_bits (λ i. holds terms.now (byte_bits * j + i)) }
{
    bits::byte(array::from_fn(|i| { holds_on(terms, (BYTE_BITS * j + i) as u16) }))
}

// Writes the form's table. (A twin of `read_bytes` of the compiler in shape: one function of both takes a closure, and can call it only
// under a `requires`, which no public function here has; a trait in its place wants a test that is total, with a bound tested anew.)
fn fill_table(terms: &[u16], table: &mut [u8])
    requires { length table.old ≡ table_bytes }
    ensures { table.new ≡ table_of table_bytes (holds terms.now) }
{
    for (j, byte) in table.iter_mut().enumerate() {
        *byte = byte_of(terms, j);
    }
}

// A form to its truth table: answers the number of terms, and writes the table.
// Refuses 7 and 8 where the terms are no form, 13 where the table lent is not 64 bytes.
#[tactic(auto, unfolding(crate::specs::Tables::form_to_table_checked), using(crate::proofs::Accepted::fine_bytes))]
pub fn form_to_table(terms: &[u16], table: &mut [u8]) -> Result<usize, Refusal>
    ensures { FormToTable terms.now table.old table.new result }
{
    forms::check(WIDTH, terms)?;
    check_bytes(table.len())?;
    fill_table(terms, table);
    Ok(terms.len())
}
