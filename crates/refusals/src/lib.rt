// Why a call says no.
//
// A refusal is one of the causes below, with its place. What C and a printed line say of it, its number and its place, is its notice.
// What a call checks is a `Result<(), Refusal>`, so the order of refusals is the order of the `?`s. No function has a `requires`, and
// nothing is assumed.

#![tactic(auto)]

ghost use Rattle.std.specs.Prelude.{◌≡◌};
ghost use Rattle.refusals.specs.Numbers.{notice_of};
ghost use Rattle.refusals.specs.Shared.{room_checked, scan_checked, lent_checked};

#[derive(Clone, Copy, Debug, PartialEq, Eq)]
pub enum Refusal {
    // ---- of recipes

    // The recipe is empty, not a multiple of 4 bytes, or over 128 bytes; its length.
    RecipeLength(usize),
    // A step code is over 8; the step, from 0.
    StepCode(usize),
    // A field is not allowed; the step.
    StepField(usize),
    // Too few signals held, a ninth added, or not one left; the step, or the number of steps.
    SignalsHeld(usize),
    // The reach leaves -4 to 4; the step.
    Reach(usize),

    // ---- of terms

    // Fewer elements lent for terms than needed; the terms needed.
    TermsLent(usize),
    // A term is over 511, not above its predecessor, or contains an earlier one; its index.
    BadTerm(usize),
    // A form has over 126 terms; its terms.
    TermCount(usize),

    // ---- of scans, lent slices, truth tables and presets

    // A scan of 0 or over 16,384 samples; the samples.
    ScanLength(usize),
    // An output slice of the wrong length; the length needed.
    OutputLength(usize),
    // A truth table is not positive; the least pattern that one more offset turns to 0.
    NotPositive(usize),
    // A truth table slice is not 64 bytes; its length.
    TableLength(usize),
    // A preset number is over 19; the number.
    PresetNumber(usize),

    // ---- of a scan file's layout

    // A scan file's length is outside 12 to 33,032; the length.
    FileLength(usize),
    // A scan file does not end with the mark; the mark's first byte, from the file's start.
    Mark(usize),
    // A scan file's term distance is not that of its number of terms; the term distance's first byte.
    TermDistance(usize),
    // A scan file's sample distance is not the file's length, is below the term distance, or leaves a part of a sample before the
    // terms; the sample distance's first byte.
    SampleDistance(usize),

    // ---- of lists of names

    // A line of the list is empty or too long; the first such, from 1.
    BadName(usize),
    // The list has over 250 lines; 250.
    NameCount(usize),
}

// What C, a printed line and the second program know a refusal by: its number in document 01's table, and its place.
#[derive(Clone, Copy, Debug, PartialEq, Eq)]
pub struct Notice {
    pub number: u8,
    pub place: usize,
}

impl From<Refusal> for Notice {
    ghost from_gives = { λ refusal told. told ≡ notice_of refusal };

    fn from(refusal: Refusal) -> Notice {
        let (number, place) = match refusal {
            Refusal::RecipeLength(length) => (1, length),
            Refusal::StepCode(step) => (2, step),
            Refusal::StepField(step) => (3, step),
            Refusal::SignalsHeld(step) => (4, step),
            Refusal::Reach(step) => (5, step),
            Refusal::TermsLent(needed) => (6, needed),
            Refusal::BadTerm(index) => (7, index),
            Refusal::TermCount(terms) => (8, terms),
            Refusal::ScanLength(samples) => (9, samples),
            Refusal::OutputLength(needed) => (10, needed),
            Refusal::NotPositive(pattern) => (12, pattern),
            Refusal::TableLength(length) => (13, length),
            Refusal::PresetNumber(preset) => (14, preset),
            Refusal::FileLength(length) => (15, length),
            Refusal::Mark(byte) => (16, byte),
            Refusal::TermDistance(byte) => (17, byte),
            Refusal::SampleDistance(byte) => (18, byte),
            Refusal::BadName(line) => (19, line),
            Refusal::NameCount(most) => (20, most),
        };
        Notice { number, place }
    }
}

// ---- what several calls check

// Refusal 6, where fewer elements are lent for terms than needed.
#[tactic(auto, unfolding(crate::specs::Shared::room_checked))]
pub fn check_room(needed: usize, lent: usize) -> Result<(), Refusal>
    ensures { result ≡ room_checked needed lent }
{
    if lent < needed {
        return Err(Refusal::TermsLent(needed));
    }
    Ok(())
}

// Refusal 9, where a scan has no samples or over the most that its family allows.
#[tactic(auto, unfolding(crate::specs::Shared::scan_checked))]
pub fn check_scan(most: usize, samples: usize) -> Result<(), Refusal>
    ensures { result ≡ scan_checked most samples }
{
    if samples == 0 || samples > most {
        return Err(Refusal::ScanLength(samples));
    }
    Ok(())
}

// Refusal 10, where an output slice has another length than needed.
#[tactic(auto, unfolding(crate::specs::Shared::lent_checked))]
pub fn check_lent(needed: usize, lent: usize) -> Result<(), Refusal>
    ensures { result ≡ lent_checked needed lent }
{
    if lent != needed {
        return Err(Refusal::OutputLength(needed));
    }
    Ok(())
}
