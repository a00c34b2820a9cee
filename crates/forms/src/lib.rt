// Forms: the check that a list of terms is one, over a window of any width.
//
// No public function has a `requires`, and nothing is assumed.

#![tactic(auto)]

ghost use Rattle.std.specs.Prelude.{◌≡◌, ◌<◌, ◌^◌, leb, length};
ghost use Rattle.theory.specs.Forms.{contains_earlier, is_bad};
ghost use Rattle.forms.specs.Check.{terms_checked, form_checked};

use limits::MOST_TERMS;
use refusals::Refusal;

// A term is a number of so many bits.
const TERM_BITS: usize = 16;

// Whether a term is over every set of so many positions; none is over one of all its bits or more.
fn is_over(width: usize, term: u16) -> bool
    ensures { result ≡ leb (2 ^ width) term }
{
    width < TERM_BITS && 0 < term >> width
}

// Whether the term at i contains one before it.
fn contains_earlier(terms: &[u16], i: usize) -> bool
    requires { i < length terms.now }
    ensures { result ≡ contains_earlier terms.now i }
{
    let term = terms[i];
    terms[..i]
        .iter()
        .any(|&earlier| bits::is_within(earlier, term))
}

// Whether the term at i is one that refusal 7 names.
#[tactic(auto, unfolding(theory::specs::Forms::is_bad))]
fn is_bad(width: usize, terms: &[u16], i: usize) -> bool
    requires { i < length terms.now }
    ensures { result ≡ is_bad width terms.now i }
{
    is_over(width, terms[i]) || (0 < i && terms[i] <= terms[i - 1]) || contains_earlier(terms, i)
}

// Refusal 7 at the first bad term. It stops there: a list of any length costs at most one look more than the longest form has terms.
#[tactic(auto, unfolding(crate::specs::Check::terms_checked))]
fn check_terms(width: usize, terms: &[u16]) -> Result<(), Refusal>
    ensures { result ≡ terms_checked width terms.now }
{
    match (0..terms.len()).find(|&i| is_bad(width, terms, i)) {
        Some(i) => Err(Refusal::BadTerm(i)),
        None => Ok(()),
    }
}

// Whether a list of terms is a form of a window of so many positions. Refuses 7 at the first bad term, then 8 over 126 terms.
#[tactic(auto, unfolding(crate::specs::Check::form_checked))]
pub fn check(width: usize, terms: &[u16]) -> Result<(), Refusal>
    ensures { result ≡ form_checked width terms.now }
{
    check_terms(width, terms)?;
    if terms.len() > MOST_TERMS {
        return Err(Refusal::TermCount(terms.len()));
    }
    Ok(())
}
