// Scans: a form run on a scan, the residue that a run leaves, and the question whether a scan is a root.
//
// A form sees the samples around each sample, and two values beyond the scan, one left and one right of it: what the ends rule has
// become. A run carries what it sees from sample to sample, so that each sample is loaded from the scan once. The filter is the largest,
// over the terms, of the smallest value that the term reaches; the contracts say document 01's count of levels. No public function has a
// `requires`, and nothing is assumed.

#![tactic(auto)]

ghost use Rattle.std.specs.Prelude.{◌≡◌, ℕ, ◌+◌, ◌-◌, ◌<◌, length, get_or, pos, negsuc, ◌-ℤ◌};
ghost use Rattle.limits.specs.Limits.{reach};
ghost use Rattle.theory.specs.Signals.{window, between};
ghost use Rattle.windows.specs.Columns.{position_in};
ghost use Rattle.scans.specs.Run.{run_checked, root_found, Clean, Residue, Root};
ghost use Rattle.scans.specs.Private.{carried, moved_on, value_around, all_left};

use limits::{MOST_SAMPLES, REACH, WIDTH};
use refusals::Refusal;
use windows::Beyond;

// ---- the window that a run carries

// What the window sees one sample further on: what stays in sight stands a column further left, and in the last column stands what
// arrives.
fn take_in(near: [u16; WIDTH], arriving: u16) -> [u16; WIDTH]
    ensures { result ≡ moved_on window near arriving }
{
    let mut seen = near;
    for (i, value) in seen.iter_mut().enumerate() {
        let from = windows::position(windows::column(i) + 1);
        *value = near.get(from).copied().unwrap_or(arriving);
    }
    seen
}

// The sample itself: it stands in the middle.
#[tactic(auto, using(crate::proofs::Windows::middle_lt))]
fn middle(near: [u16; WIDTH]) -> u16
    ensures { result ≡ get_or near (position_in reach) 0 }
{
    near[windows::position(REACH)]
}

// ---- what a run leaves

// What is left at a sample, of its raw and its cleaned value.
trait Left: Copy {
    ghost left: { ℕ → ℕ → Self };

    fn left(raw: u16, cleaned: u16) -> Self
        ensures { result ≡ left raw cleaned };
}

// A run leaves the cleaned value.
impl Left for u16 {
    ghost left = { λ raw cleaned. cleaned };

    fn left(raw: u16, cleaned: u16) -> u16 {
        cleaned
    }
}

// A residue leaves raw minus cleaned.
impl Left for i32 {
    ghost left = { λ raw cleaned. pos raw -ℤ pos cleaned };

    fn left(raw: u16, cleaned: u16) -> i32 {
        (raw as i32) - (cleaned as i32)
    }
}

// ---- over the whole scan

// A form on a scan that stands between its ends.
#[derive(Clone, Copy)]
struct Run<'a> {
    terms: &'a [u16],
    scan: &'a [u16],
    ends: Beyond,
}

impl<'a> Run<'a> {
    // With held ends.
    fn held(terms: &'a [u16], scan: &'a [u16]) -> Run<'a>
        ensures { (result.terms.now ≡ terms.now)
            × (result.scan.now ≡ scan.now)
            × (result.ends.left ≡ get_or scan.now 0 0)
            × (result.ends.right ≡ get_or scan.now (length scan.now - 1) 0) }
    {
        Run {
            terms,
            scan,
            ends: windows::hold_ends(scan),
        }
    }

    // Sample k, or what stands right of the scan. Nothing else reads the scan while a window is carried along it.
    fn load(&self, k: usize) -> u16
        ensures { result ≡ get_or self.now.scan.now k self.now.ends.right }
    {
        self.scan.get(k).copied().unwrap_or(self.ends.right)
    }

    // What the window sees just before the first sample: far to the left it sees what stands there alone, and then the first samples
    // arrive. (Tried as a fold over the range, whose proof did not close: what a range yields to a fold has no name in an answer.)
    fn enter(&self) -> [u16; WIDTH]
        ensures { result ≡ carried window (between self.now.ends.left self.now.ends.right self.now.scan.now) (negsuc 0) }
    {
        let mut near = [self.ends.left; WIDTH];
        for k in 0..REACH {
            let next = take_in(near, self.load(k));
            near = next;
        }
        near
    }

    // What the window sees around x, from what it saw around the sample before.
    fn move_on(&self, near: [u16; WIDTH], x: usize) -> [u16; WIDTH]
        requires { x < length self.now.scan.now }
        ensures { result ≡ moved_on window near (get_or self.now.scan.now (x + reach) self.now.ends.right) }
    {
        take_in(near, self.load(x + REACH))
    }

    // Fills a slice of as many elements with what is left at each sample, and answers how many they are.
    fn fill<T: Left>(&self, out: &mut [T]) -> usize
        requires { length out.old ≡ length self.now.scan.now }
        ensures { (out.new ≡ all_left self.now.ends.left self.now.ends.right T.left self.now.terms.now self.now.scan.now)
            × (result ≡ length self.now.scan.now) }
    {
        let mut near = self.enter();
        for (x, left) in out.iter_mut().enumerate() {
            let here = self.move_on(near, x);
            *left = T::left(middle(here), values::value(self.terms, here));
            near = here;
        }
        self.scan.len()
    }

    // The first sample that is not what the form gives around it, if there is one. It carries the window as `fill` does: the scan's own
    // iterator would load each sample a second time, which docs/DECISIONS.md ("The window that is carried") rules out.
    fn find_difference(&self) -> Option<usize>
        ensures { let run = self.now in
            result ≡ root_found (value_around run.ends.left run.ends.right run.terms.now run.scan.now) run.scan.now }
    {
        let mut near = self.enter();
        for x in 0..self.scan.len() {
            let here = self.move_on(near, x);
            if middle(here) != values::value(self.terms, here) {
                return Some(x);
            }
            near = here;
        }
        None
    }
}

// ---- the calls

// Refuses what a run and a residue refuse, where so many elements are lent.
#[tactic(auto, unfolding(crate::specs::Run::run_checked))]
fn admit_run(terms: &[u16], scan: &[u16], lent: usize) -> Result<(), Refusal>
    ensures { result ≡ run_checked terms.now scan.now lent }
{
    let samples = scan.len();
    forms::check(WIDTH, terms)?;
    refusals::check_scan(MOST_SAMPLES, samples)?;
    refusals::check_lent(samples, lent)
}

// Runs a form on a scan: the filter at each sample goes to out, and the answer is the number of samples. Refuses 7, 8, 9, 10 in this
// order: a bad term, over 126 terms, 0 or over 16,384 samples, and an out that has not one element for each sample. A refusal changes
// no element of out.
pub fn clean(terms: &[u16], scan: &[u16], out: &mut [u16]) -> Result<usize, Refusal>
    ensures { Clean terms.now scan.now out.old out.new result }
{
    admit_run(terms, scan, out.len())?;
    Ok(Run::held(terms, scan).fill(out))
}

// The residue of a form on a scan: raw minus cleaned at each sample, -65,535 to 65,535, goes to out, and the answer is the number of
// samples. Refuses 7, 8, 9, 10 in this order, as `clean` does; a refusal changes no element of out. (A twin of `clean` in shape alone:
// each is a call of C, so both names stay.)
pub fn residue(terms: &[u16], scan: &[u16], out: &mut [i32]) -> Result<usize, Refusal>
    ensures { Residue terms.now scan.now out.old out.new result }
{
    admit_run(terms, scan, out.len())?;
    Ok(Run::held(terms, scan).fill(out))
}

// The first sample that is not its filtered value; none, where the scan is a root of the form. Refuses 7, 8, 9 in this order,
// as `clean` does.
#[tactic(auto, unfolding(crate::specs::Run::root_checked))]
pub fn root(terms: &[u16], scan: &[u16]) -> Result<Option<usize>, Refusal>
    ensures { Root terms.now scan.now result }
{
    forms::check(WIDTH, terms)?;
    refusals::check_scan(MOST_SAMPLES, scan.len())?;
    Ok(Run::held(terms, scan).find_difference())
}
