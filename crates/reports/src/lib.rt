// The report's counts: what a form changes of a scan, counted from a scan file.
//
// No public function has a `requires`, and nothing is assumed.

#![tactic(auto)]

ghost use Rattle.std.specs.Prelude.{◌≡◌, ◌&&◌, not, eqb, ◌^◌, ◌≤◌, Err, Ok, length, get_or, pos, ◌-ℤ◌};
ghost use Rattle.std.specs.Int.{int_signum};
ghost use Rattle.limits.specs.Limits.{most_samples, most_terms};
ghost use Rattle.theory.specs.Signals.{held, residue_at};
ghost use Rattle.refusals.specs.declared.Refusal.TheVariants.{FileLength};
ghost use Rattle.scans.specs.Run.{run_checked};
ghost use Rattle.reports.specs.Counts.{kind_of, counts_of, five, Count};
ghost use Rattle.reports.specs.Private.{with_residue, IsBelow};

use limits::{MOST_SAMPLES, MOST_TERMS};
use refusals::Refusal;

// What the report prints of a file.
#[derive(Clone, Copy)]
pub struct Counts {
    // How many samples the scan has.
    pub samples: u64,
    // How many of them have a residue that isn't 0.
    pub changed: u64,
    // How many longest runs of neighbouring samples there are whose residues are of one sign.
    pub spikes: u64,
    // The total of the positive residues.
    pub up: u64,
    // The total of the negative residues, with the sign dropped.
    pub down: u64,
}

impl From<Counts> for [u64; 5] {
    ghost from_gives = { λ counts numbers. numbers ≡ five counts };

    // The numbers in the printed order.
    fn from(counts: Counts) -> [u64; 5] {
        [
            counts.samples,
            counts.changed,
            counts.spikes,
            counts.up,
            counts.down,
        ]
    }
}

// A sample less its cleaned value.
fn residue(raw: u16, cleaned: u16) -> i64
    ensures { result ≡ pos raw -ℤ pos cleaned }
{
    i64::from(raw) - i64::from(cleaned)
}

// Whether a run starts at a residue of one sign behind one of another.
fn starts_run(sign: i64, before: i64) -> bool
    requires { (int_signum sign ≡ sign) × (int_signum before ≡ before) }
    ensures { result ≡ (not (eqb (kind_of sign) 0) && not (eqb (kind_of sign) (kind_of before))) }
{
    sign != 0 && sign != before
}

impl Counts {
    // Takes in a residue, where the one before had a sign. Answers its own sign: a spike's samples have that in common. It all goes by the
    // residue: by the order of the sample and its cleaned value, `cmp`, a loop was not vectorised, and took two to five times as long.
    fn add(&mut self, residue: i64, before: i64) -> i64
        requires below { IsBelow (2 ^ 63) self.old }
        requires signed { int_signum before ≡ before }
        ensures sign { result ≡ int_signum residue }
        ensures counts { self.new ≡ with_residue before residue self.old }
    {
        let sign = residue.signum();
        self.changed += u64::from(sign != 0);
        self.spikes += u64::from(starts_run(sign, before));
        self.up += residue.max(0).unsigned_abs();
        self.down += residue.min(0).unsigned_abs();
        sign
    }
}

// The counts of a scan and its cleaned values, by their residues.
fn count_residues(scan: &[u16], cleaned: &[u16]) -> Counts
    requires { (length scan.now ≤ most_samples) × (length cleaned.now ≡ length scan.now) }
    ensures { result ≡ counts_of (length scan.now)
        (λ x. pos (get_or scan.now x 0) -ℤ pos (get_or cleaned.now x 0)) }
{
    let mut counts = Counts {
        samples: scan.len() as u64,
        changed: 0,
        spikes: 0,
        up: 0,
        down: 0,
    };
    let mut before = 0;
    for (x, &raw) in scan.iter().enumerate() {
        before = counts.add(residue(raw, cleaned[x]), before);
    }
    counts
}

// The counts of a form and a scan that a run accepts, with as many elements lent for the cleaned values.
fn clean_and_count(terms: &[u16], scan: &[u16], cleaned: &mut [u16]) -> Counts
    requires runs { run_checked terms.now scan.now (length scan.now) ≡ Ok tt }
    requires room { length cleaned.old ≡ length scan.now }
    ensures { result ≡ counts_of (length scan.now) (residue_at held terms.now scan.now) }
{
    let _ = scans::clean(terms, scan, cleaned);
    count_residues(scan, cleaned)
}

// The counts of a form and a scan that a run accepts.
fn count_scan(terms: &[u16], scan: &[u16]) -> Counts
    requires { run_checked terms.now scan.now (length scan.now) ≡ Ok tt }
    ensures { result ≡ counts_of (length scan.now) (residue_at held terms.now scan.now) }
{
    let mut cleaned = [0u16; MOST_SAMPLES];
    let n = scan.len();
    clean_and_count(terms, scan, &mut cleaned[..n])
}

// Counts from a file, with room lent for the longest scan and the longest form.
fn read_and_count(file: &[u8], samples: &mut [u16], terms: &mut [u16]) -> Result<Counts, Refusal>
    requires { (most_samples ≤ length samples.old) × (most_terms ≤ length terms.old) }
    ensures { Count file.now result }
{
    let sizes = files::read(file, samples, terms)?;
    Ok(count_scan(&terms[..sizes.terms], &samples[..sizes.samples]))
}

// Counts what the form of a file changes of its scan: the samples, those that changed, the spikes, and the totals of the
// positive and of the negative residues. Refuses 15 for the file's length, 16 for its mark, 17 for its term distance, 18 for its
// sample distance, 7 and 8 of its terms, and 9 of its samples, in this order.
pub fn count(file: &[u8]) -> Result<Counts, Refusal>
    ensures { Count file.now result }
{
    let mut samples = [0u16; MOST_SAMPLES];
    let mut terms = [0u16; MOST_TERMS];
    read_and_count(file, &mut samples, &mut terms)
}

// What counting answers of every file that is refused for its length (see length-counted in proofs/Lengths.antt): of such a file no
// byte need be read.
pub fn refuse_length(length: usize) -> Result<Counts, Refusal>
    ensures { result ≡ Err (FileLength length) }
{
    Err(Refusal::FileLength(length))
}
