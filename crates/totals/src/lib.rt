// The night sheet's totals: what each file adds to them.
//
// The running totals are exact for every night that a list can ask for (see proofs/Nights.antt). No public function has a `requires`,
// and nothing is assumed.

#![tactic(auto)]

ghost use Rattle.std.specs.Prelude.{◌≡◌};
ghost use Rattle.refusals.specs.Numbers.{noticed};
ghost use Rattle.totals.specs.declared.Outcome.TheVariants.{Unopened, Opened};
ghost use Rattle.totals.specs.Totals.{in_order, totals_in, adds, nothing, added};

use refusals::{Notice, Refusal};
use reports::Counts;

// The night sheet's last line has so many numbers.
pub const NUMBERS: usize = 14;

// What became of a file of the list.
#[derive(Clone, Copy)]
pub enum Outcome {
    // It could not be opened or read.
    Unopened,
    // It was read, and counted or refused.
    Opened(Result<Counts, Notice>),
}

impl From<Result<Counts, Refusal>> for Outcome {
    ghost from_gives = { λ answer outcome. outcome ≡ Opened (noticed answer) };

    // What became of a file that was read, from what counting it answered.
    fn from(answer: Result<Counts, Refusal>) -> Outcome {
        Outcome::Opened(answer.map_err(Notice::from))
    }
}

// The numbers of the night sheet's last line.
#[derive(Clone, Copy, Debug, Default, PartialEq, Eq)]
pub struct Totals {
    // How many files were cleaned.
    pub cleaned: u64,
    // How many files were not opened.
    pub unopened: u64,
    // How many files were refused under 7, 8, 9, 15, 16, 17 and 18.
    pub seven: u64,
    pub eight: u64,
    pub nine: u64,
    pub fifteen: u64,
    pub sixteen: u64,
    pub seventeen: u64,
    pub eighteen: u64,
    // The sums of what was counted of the cleaned files.
    pub samples: u64,
    pub changed: u64,
    pub spikes: u64,
    pub up: u64,
    pub down: u64,
}

impl From<Totals> for [u64; NUMBERS] {
    ghost from_gives = { λ totals numbers. numbers ≡ in_order totals };

    // The numbers in the order of the night sheet's last line.
    fn from(totals: Totals) -> [u64; NUMBERS] {
        [
            totals.cleaned,
            totals.unopened,
            totals.seven,
            totals.eight,
            totals.nine,
            totals.fifteen,
            totals.sixteen,
            totals.seventeen,
            totals.eighteen,
            totals.samples,
            totals.changed,
            totals.spikes,
            totals.up,
            totals.down,
        ]
    }
}

impl From<[u64; NUMBERS]> for Totals {
    ghost from_gives = { λ numbers totals. totals ≡ totals_in numbers };

    // The totals whose numbers are these, in that order.
    fn from(numbers: [u64; NUMBERS]) -> Totals {
        let [
            cleaned,
            unopened,
            seven,
            eight,
            nine,
            fifteen,
            sixteen,
            seventeen,
            eighteen,
            samples,
            changed,
            spikes,
            up,
            down,
        ] = numbers;
        Totals {
            cleaned,
            unopened,
            seven,
            eight,
            nine,
            fifteen,
            sixteen,
            seventeen,
            eighteen,
            samples,
            changed,
            spikes,
            up,
            down,
        }
    }
}

// Before the first file.
#[tactic(auto, unfolding(crate::specs::Totals::nothing, crate::specs::Totals::each_field))]
pub fn start() -> Totals
    ensures { result ≡ nothing }
{
    Totals::default()
}

// What a file adds that was refused.
#[tactic(auto, unfolding(crate::specs::Totals::nothing, crate::specs::Totals::each_field, crate::specs::Totals::adds, crate::specs::Totals::of_unopened, crate::specs::Totals::of_refused, crate::specs::Totals::of_cleaned, theory::specs::Lists::bit))]
fn of_refusal(refusal: Notice) -> Totals
    ensures { result ≡ adds (Opened (Err refusal)) }
{
    match refusal.number {
        7 => Totals {
            seven: 1,
            ..start()
        },
        8 => Totals {
            eight: 1,
            ..start()
        },
        9 => Totals { nine: 1, ..start() },
        15 => Totals {
            fifteen: 1,
            ..start()
        },
        16 => Totals {
            sixteen: 1,
            ..start()
        },
        17 => Totals {
            seventeen: 1,
            ..start()
        },
        18 => Totals {
            eighteen: 1,
            ..start()
        },
        _ => start(),
    }
}

// What a file adds that was cleaned.
#[tactic(auto, unfolding(crate::specs::Totals::nothing, crate::specs::Totals::each_field, crate::specs::Totals::adds, crate::specs::Totals::of_unopened, crate::specs::Totals::of_refused, crate::specs::Totals::of_cleaned))]
fn of_counts(counts: Counts) -> Totals
    ensures { result ≡ adds (Opened (Ok counts)) }
{
    Totals {
        cleaned: 1,
        samples: counts.samples,
        changed: counts.changed,
        spikes: counts.spikes,
        up: counts.up,
        down: counts.down,
        ..start()
    }
}

// What a file adds.
#[tactic(auto, unfolding(crate::specs::Totals::nothing, crate::specs::Totals::each_field, crate::specs::Totals::adds, crate::specs::Totals::of_unopened, crate::specs::Totals::of_refused, crate::specs::Totals::of_cleaned))]
fn of_outcome(outcome: Outcome) -> Totals
    ensures { result ≡ adds outcome }
{
    match outcome {
        Outcome::Unopened => Totals {
            unopened: 1,
            ..start()
        },
        Outcome::Opened(Ok(counts)) => of_counts(counts),
        Outcome::Opened(Err(refusal)) => of_refusal(refusal),
    }
}

// The totals with one file more. They wrap at 64 bits, which no night reaches.
pub fn add(totals: Totals, outcome: Outcome) -> Totals
    ensures { result ≡ added totals outcome }
{
    let mut sums: [u64; NUMBERS] = totals.into();
    let adds: [u64; NUMBERS] = of_outcome(outcome).into();
    for (i, sum) in sums.iter_mut().enumerate() {
        *sum = sum.wrapping_add(adds[i]);
    }
    sums.into()
}
