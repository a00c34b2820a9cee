// Values: what a form gives on what a window sees, by position. No geometry, no scan.
//
// It is the largest, over the terms, of the smallest value that the term reaches. No public function has a `requires`, and nothing is
// assumed. The public contract is an equation for the result: it allows one.

#![tactic(auto)]

ghost use Rattle.std.specs.Prelude.{◌≡◌, cond, ◌+◌, ◌<◌, ◌≤◌, length, get_or};
ghost use Rattle.limits.specs.Limits.{width, top};
ghost use Rattle.theory.specs.Sets.{has};
ghost use Rattle.theory.specs.Orders.{counts};
ghost use Rattle.theory.specs.Forms.{value as value_of};
ghost use Rattle.values.specs.Private.{smallest_in};

use limits::{TOP, WIDTH};

// The value where the term has position i; else the top, which makes no smallest smaller. The test is one of numbers as short as the
// values, so that as many terms are taken at a time.
fn reached(term: u16, i: usize, value: u16) -> u16
    requires { i < width }
    ensures { result ≡ cond (has term i) value top }
{
    let alone: u16 = 1 << i;
    if bits::is_within(alone, term) {
        value
    } else {
        TOP
    }
}

// The smallest that the term reaches at positions i and i + 1. Both values are read before they are asked for, and no branch depends
// on the term: so the compiler takes eight terms at a time. A struct of term, near and i would be made anew for each of the seven calls
// in the tree, each with an i of its own: no plainer.
fn smallest_of_two(term: u16, near: &[u16; WIDTH], i: usize) -> u16
    requires { i + 2 ≤ width }
    ensures { result ≡ smallest_in term near.now i 2 }
{
    let j = i + 1;
    bits::smaller(reached(term, i, near[i]), reached(term, j, near[j]))
}

// The smallest that the term reaches at four positions from i on.
fn smallest_of_four(term: u16, near: &[u16; WIDTH], i: usize) -> u16
    requires { i + 4 ≤ width }
    ensures { result ≡ smallest_in term near.now i 4 }
{
    bits::smaller(
        smallest_of_two(term, near, i),
        smallest_of_two(term, near, i + 2),
    )
}

// The smallest that the term reaches at all positions; the top for the term with no position. Not a loop over the nine: with it a form
// of ten terms ran in 36.7 ns a sample for 12.8, as terms were no longer taken eight at a time.
fn smallest(term: u16, near: &[u16; WIDTH]) -> u16
    ensures { result ≡ smallest_in term near.now 0 width }
{
    let last = WIDTH - 1;
    bits::smaller(
        bits::smaller(
            smallest_of_four(term, near, 0),
            smallest_of_four(term, near, 4),
        ),
        reached(term, last, near[last]),
    )
}

// The largest, over the terms, of the smallest that the term reaches of what the window sees; 0 for the empty form.
pub fn value(terms: &[u16], near: [u16; WIDTH]) -> u16
    ensures { result ≡ value_of counts width 0 top terms.now (λ i. get_or near i 0) }
{
    let mut m = 0;
    for &term in terms {
        m = bits::larger(m, smallest(term, &near));
    }
    m
}
