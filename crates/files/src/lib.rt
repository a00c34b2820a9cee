// The scan file: samples, terms, and a trailer that points back from the file's end.
//
// The layout goes by its family: how many bytes a sample takes, the mark, and the most samples. Today there is one family, that of
// counts. No public function has a `requires`, and nothing is assumed.

#![tactic(auto)]

ghost use Rattle.std.specs.Prelude.{◌≡◌, ◌++◌, ◌+◌, ◌*◌, ◌^◌, ◌<◌, ◌≤◌, ◌-◌, ◌%◌, ◌&&◌, eqb, leb, length, take, drop, Ok, Err, IfOk, IfErr, MatchOption};
ghost use Rattle.limits.specs.Limits.{word_bytes, width, most_samples, most_terms, trailer_bytes};
ghost use Rattle.refusals.specs.Refusals.{and_then};
ghost use Rattle.refusals.specs.Shared.{scan_checked};
ghost use Rattle.forms.specs.Check.{form_checked};
ghost use Rattle.files.specs.Bytes.{in_words};
ghost use Rattle.files.specs.Layout.{counts_family, terms_distance, file_length, sample_count, term_count, file_samples, file_terms, trailer, counts_file};
ghost use Rattle.files.specs.Files.{layout_checked, slices_checked, read_checked, write_checked, Read, Write};
ghost use Rattle.files.specs.Private.{Usable, counts_usable, trailer_of, stored, numbers};

use limits::{MOST_SAMPLES, MOST_TERMS, PATTERNS, TRAILER, WIDTH, WORD_BYTES};
use refusals::Refusal;
use std::marker::PhantomData;

// How many samples and terms a file has.
#[derive(Clone, Copy)]
pub struct Sizes {
    pub samples: usize,
    pub terms: usize,
}

// A family of scan files: the bytes that a sample takes, the word that ends a file, and the most samples of a scan.
#[derive(Clone, Copy)]
pub struct Family {
    pub bytes: usize,
    pub mark: u16,
    pub most: usize,
}

// A kind of scan, by the family of its files.
trait Kind {
    ghost use Rattle.files.specs.declared.Family.{Family};

    ghost FAMILY: { Family };

    const FAMILY: Family;

    ghost usable: { Usable FAMILY };
}

// Scans of counts: two bytes a sample, and the mark 53 46 hex, low byte first.
struct OfCounts;

impl Kind for OfCounts {
    ghost FAMILY = { counts_family };

    const FAMILY: Family = Family {
        bytes: WORD_BYTES,
        mark: 0x4653,
        most: MOST_SAMPLES,
    };

    ghost usable = { counts_usable };
}

// ---- the trailer

// How far from the file's end the trailer's fields begin: the sample distance, the term distance, and the mark.
const SAMPLES_FIELD: usize = TRAILER;

const TERMS_FIELD: usize = TRAILER - LONG_BYTES;

const MARK_FIELD: usize = WORD_BYTES;

// A distance in the trailer takes so many bytes.
const LONG_BYTES: usize = 2 * WORD_BYTES;

// What a file's last bytes say: the distances from its end to the first sample and to the first term, the number of terms, and the mark.
#[derive(Clone, Copy)]
struct Trailer {
    to_samples: u32,
    to_terms: u32,
    terms: u16,
    mark: u16,
}

// The distance from a file's end to the first of so many terms.
#[tactic(auto, unfolding(crate::specs::Layout::terms_distance))]
fn terms_distance(terms: usize) -> usize
    requires { terms_distance terms < 2 ^ 32 }
    ensures { result ≡ terms_distance terms }
{
    TRAILER + WORD_BYTES * terms
}

// The length of a file of so many samples and terms.
#[tactic(auto, unfolding(crate::specs::Layout::file_length, crate::specs::Layout::terms_distance))]
fn file_length<K: Kind>(samples: usize, terms: usize) -> usize
    requires { file_length K.FAMILY samples terms < 2 ^ 32 }
    ensures { result ≡ file_length K.FAMILY samples terms }
{
    K::FAMILY.bytes * samples + terms_distance(terms)
}

impl Trailer {
    // The trailer of a file; none where the file is shorter than one.
    #[tactic(auto, using(crate::proofs::Numbers::trailer_read))]
    fn read(file: &[u8]) -> Option<Trailer>
        ensures { MatchOption result (length file.now < trailer_bytes)
            (λ t. (trailer_bytes ≤ length file.now) × (t ≡ trailer_of file.now)) }
    {
        let t = file.last_chunk::<TRAILER>()?;
        Some(Trailer {
            to_samples: u32::from_le_bytes([t[0], t[1], t[2], t[3]]),
            to_terms: u32::from_le_bytes([t[4], t[5], t[6], t[7]]),
            terms: u16::from_le_bytes([t[8], t[9]]),
            mark: u16::from_le_bytes([t[10], t[11]]),
        })
    }

    // The trailer of a file of so many samples and terms.
    #[tactic(auto, unfolding(crate::specs::Layout::trailer, crate::specs::Layout::terms_distance))]
    fn new<K: Kind>(samples: usize, terms: usize) -> Trailer
        requires { (terms ≤ most_terms) × (file_length K.FAMILY samples terms < 2 ^ 32) }
        ensures { stored result ≡ trailer K.FAMILY samples terms }
    {
        Trailer {
            to_samples: file_length::<K>(samples, terms) as u32,
            to_terms: terms_distance(terms) as u32,
            terms: terms as u16,
            mark: K::FAMILY.mark,
        }
    }

    // Puts the trailer, each number low byte first.
    fn write(self, out: &mut [u8])
        requires { length out.old ≡ trailer_bytes }
        ensures { out.new ≡ stored self }
    {
        let (distances, words) = out.split_at_mut(2 * LONG_BYTES);
        let (to_samples, to_terms) = distances.split_at_mut(LONG_BYTES);
        let (terms, mark) = words.split_at_mut(WORD_BYTES);
        to_samples.copy_from_slice(&self.to_samples.to_le_bytes());
        to_terms.copy_from_slice(&self.to_terms.to_le_bytes());
        terms.copy_from_slice(&self.terms.to_le_bytes());
        mark.copy_from_slice(&self.mark.to_le_bytes());
    }

    // Whether the term distance is that of the number of terms.
    #[tactic(auto, unfolding(crate::specs::Layout::terms_distance))]
    fn points_at_terms(self) -> bool
        ensures { result ≡ eqb self.to_terms (terms_distance self.terms) }
    {
        self.to_terms as usize == terms_distance(self.terms as usize)
    }

    // Whether the sample distance is the whole file, and leaves whole samples before the terms.
    fn points_at_samples<K: Kind>(self, length: usize) -> bool
        ensures { result ≡ (eqb self.to_samples length && leb self.to_terms self.to_samples
            && eqb ((self.to_samples - self.to_terms) % K.FAMILY.bytes) 0) }
    {
        let (samples, terms) = (self.to_samples as usize, self.to_terms as usize);
        samples == length && terms <= samples && (samples - terms) % K::FAMILY.bytes == 0
    }
}

// ---- the layout

// Refusals 15 to 18 of the layout: the length, then the mark, the term distance and the sample distance, each at the field's first
// byte. Answers the trailer of a file that is laid out well.
#[tactic(auto, unfolding(crate::specs::Files::layout_checked, crate::specs::Layout::sized, crate::specs::Layout::marked, crate::specs::Layout::points_at_terms, crate::specs::Layout::points_at_samples))]
fn check_layout<K: Kind>(file: &[u8]) -> Result<Trailer, Refusal>
    ensures { result ≡ and_then (layout_checked K.FAMILY file.now) (Ok (trailer_of file.now)) }
{
    let end = file.len();
    let longest = file_length::<K>(K::FAMILY.most, MOST_TERMS);
    let Some(trailer) = Trailer::read(file) else {
        return Err(Refusal::FileLength(end));
    };
    if end > longest {
        return Err(Refusal::FileLength(end));
    }
    if trailer.mark != K::FAMILY.mark {
        return Err(Refusal::Mark(end - MARK_FIELD));
    }
    if !trailer.points_at_terms() {
        return Err(Refusal::TermDistance(end - TERMS_FIELD));
    }
    if !trailer.points_at_samples::<K>(end) {
        return Err(Refusal::SampleDistance(end - SAMPLES_FIELD));
    }
    Ok(trailer)
}

// A file that is laid out well, with its trailer.
#[derive(Drop)]
struct ScanFile<'a, K: Kind> {
    bytes: &'a [u8],
    trailer: Trailer,
    kind: PhantomData<K>,
    ghost laid_out: { layout_checked K.FAMILY bytes.now ≡ Ok tt },
    ghost said: { trailer ≡ trailer_of bytes.now },
}

impl<'a, K: Kind> ScanFile<'a, K> {
    // The file, where it is laid out well.
    fn open(bytes: &'a [u8]) -> Result<ScanFile<'a, K>, Refusal>
        ensures opened { IfOk result (λ file. file.bytes.now ≡ bytes.now) }
        ensures refused { IfErr result (λ refusal. layout_checked K.FAMILY bytes.now ≡ Err refusal) }
    {
        let trailer = check_layout::<K>(bytes)?;
        Ok(ScanFile {
            bytes,
            trailer,
            kind: PhantomData,
        })
    }

    // Where its samples end and its terms begin.
    fn first_term(&self) -> usize
        ensures { result ≡ K.FAMILY.bytes * sample_count K.FAMILY self.now.bytes.now }
    {
        self.bytes.len() - self.trailer.to_terms as usize
    }

    // The bytes of its samples, and those of its terms.
    #[tactic(auto, unfolding(crate::specs::Layout::file_length, crate::specs::Layout::terms_distance), using(crate::proofs::Layouts::well_laid, crate::proofs::Layouts::whole))]
    fn parts(&self) -> (&'a [u8], &'a [u8])
        ensures samples { result.0.now ≡ take (K.FAMILY.bytes * sample_count K.FAMILY self.now.bytes.now) self.now.bytes.now }
        ensures terms { result.1.now ≡ take (word_bytes * term_count self.now.bytes.now)
            (drop (K.FAMILY.bytes * sample_count K.FAMILY self.now.bytes.now) self.now.bytes.now) }
        ensures whole { K.FAMILY.bytes * sample_count K.FAMILY self.now.bytes.now + word_bytes * term_count self.now.bytes.now
            ≤ length self.now.bytes.now }
    {
        let (samples, behind) = self.bytes.split_at(self.first_term());
        let (terms, _) = behind.split_at(WORD_BYTES * self.trailer.terms as usize);
        (samples, terms)
    }

    // The number of its samples.
    fn count_samples(&self) -> usize
        ensures { result ≡ sample_count K.FAMILY self.now.bytes.now }
    {
        self.first_term() / K::FAMILY.bytes
    }

    // Its terms.
    fn terms(&self) -> &'a [[u8; WORD_BYTES]]
        ensures { (numbers result.now ≡ file_terms self.now.bytes.now) × (length result.now ≡ term_count self.now.bytes.now) }
    {
        let (_, terms) = self.parts();
        terms.as_chunks::<WORD_BYTES>().0
    }

    // Refusals 7 and 8, then 9, of what it holds: its terms are judged where they lie, then its samples are counted.
    fn check_contents(&self) -> Result<(), Refusal>
        ensures { result ≡ and_then (form_checked width (file_terms self.now.bytes.now))
            (scan_checked K.FAMILY.most (sample_count K.FAMILY self.now.bytes.now)) }
    {
        check_form(self.terms())?;
        refusals::check_scan(K::FAMILY.most, self.count_samples())
    }

    // Refusals 6, then 10, with so many elements lent for its samples and its terms.
    #[tactic(auto, unfolding(crate::specs::Files::slices_checked))]
    fn check_slices(&self, samples_lent: usize, terms_lent: usize) -> Result<(), Refusal>
        ensures { result ≡ slices_checked K.FAMILY self.now.bytes.now samples_lent terms_lent }
    {
        refusals::check_room(self.terms().len(), terms_lent)?;
        let samples = self.count_samples();
        if samples_lent < samples {
            return Err(Refusal::OutputLength(samples));
        }
        Ok(())
    }
}

// ---- reading

// Reads words to the start of out.
#[tactic(auto, using(crate::proofs::Numbers::read_next))]
fn read_words(words: &[[u8; WORD_BYTES]], out: &mut [u16])
    requires { length words.now ≤ length out.old }
    ensures { out.new ≡ numbers words.now ++ drop (length words.now) out.old }
{
    for (i, word) in words.iter().enumerate() {
        out[i] = u16::from_le_bytes(*word);
    }
}

// More words than any form has terms: terms that rise and are patterns are at most as many as there are patterns, so one word more shows
// a bad term.
const ENOUGH: usize = PATTERNS + 1;

// The form check on words. Of more words than enough the front decides: with no heap it is read to an array, of which `few` are in use.
fn check_form(words: &[[u8; WORD_BYTES]]) -> Result<(), Refusal>
    ensures { result ≡ form_checked width (numbers words.now) }
{
    let mut terms = [0u16; ENOUGH];
    let few = words.len().min(ENOUGH);
    read_words(&words[..few], &mut terms);
    forms::check(WIDTH, &terms[..few])
}

impl<'a> ScanFile<'a, OfCounts> {
    // Its samples. (A near twin of `terms`: but terms are words in a file of any family, and samples only where they take two bytes.)
    fn samples(&self) -> &'a [[u8; WORD_BYTES]]
        ensures { (numbers result.now ≡ file_samples self.now.bytes.now)
            × (length result.now ≡ sample_count counts_family self.now.bytes.now) }
    {
        let (samples, _) = self.parts();
        samples.as_chunks::<WORD_BYTES>().0
    }

    // Reads the samples and the terms of a file that can be read to slices that have room for them.
    fn fill(&self, samples: &mut [u16], terms: &mut [u16]) -> Sizes
        requires { read_checked counts_family self.now.bytes.now (length samples.old) (length terms.old) ≡ Ok tt }
        ensures { Read self.now.bytes.now
            samples.old samples.new terms.old terms.new (Ok result) }
    {
        let samples_in = self.samples();
        let terms_in = self.terms();
        read_words(samples_in, samples);
        read_words(terms_in, terms);
        Sizes {
            samples: samples_in.len(),
            terms: terms_in.len(),
        }
    }
}

// Reads a file: its samples go to the start of one slice and its terms to the start of the other, and elements behind
// them keep their values. Answers how many samples and terms there are. Refuses 15 for the file's length, 16 for its mark, 17
// for its term distance, 18 for its sample distance, 7 and 8 of its terms, 9 of its samples, 6 where fewer elements are lent
// for terms, and 10 where fewer are lent for samples, in this order; after a refusal neither slice has changed.
#[tactic(auto, unfolding(crate::specs::Files::read_checked, crate::specs::Files::file_checked))]
pub fn read(file: &[u8], samples: &mut [u16], terms: &mut [u16]) -> Result<Sizes, Refusal>
    ensures { Read file.now
        samples.old samples.new terms.old terms.new result }
{
    let scan_file = ScanFile::<OfCounts>::open(file)?;
    scan_file.check_contents()?;
    scan_file.check_slices(samples.len(), terms.len())?;
    Ok(scan_file.fill(samples, terms))
}

// ---- writing

// Puts numbers one after another, each low byte first. (Not by `chunks_exact_mut`: std says nothing of what a slice cut so ends as.)
fn put_words(numbers: &[u16], out: &mut [u8])
    requires { length out.old ≡ word_bytes * length numbers.now }
    ensures { out.new ≡ in_words numbers.now }
{
    for (i, number) in numbers.iter().enumerate() {
        let at = WORD_BYTES * i;
        out[at..at + WORD_BYTES].copy_from_slice(&number.to_le_bytes());
    }
}

// Refuses what a write of so many samples refuses, with so many bytes lent. The length needed is only computed of a form and a
// scan that are allowed, so that it cannot wrap.
#[tactic(auto, unfolding(crate::specs::Files::write_checked), using(refusals::proofs::Shared::scan_fine, forms::proofs::Fine::fine_few, crate::proofs::Layouts::length_most))]
fn admit_write<K: Kind>(terms: &[u16], samples: usize, lent: usize) -> Result<(), Refusal>
    ensures { result ≡ write_checked K.FAMILY terms.now samples lent }
{
    forms::check(WIDTH, terms)?;
    refusals::check_scan(K::FAMILY.most, samples)?;
    refusals::check_lent(file_length::<K>(samples, terms.len()), lent)
}

// Puts a whole file of counts.
fn fill_file(terms: &[u16], scan: &[u16], out: &mut [u8])
    requires bounded { (length scan.now ≤ most_samples) × (length terms.now ≤ most_terms) }
    requires room { length out.old ≡ file_length counts_family (length scan.now) (length terms.now) }
    ensures { out.new ≡ counts_file terms.now scan.now }
{
    let (samples, rest) = out.split_at_mut(WORD_BYTES * scan.len());
    let (words, trailer) = rest.split_at_mut(WORD_BYTES * terms.len());
    put_words(scan, samples);
    put_words(terms, words);
    Trailer::new::<OfCounts>(scan.len(), terms.len()).write(trailer);
}

// Writes the file of a form and a scan to out, and answers its length. Refuses 7 and 8 of the terms, 9 of the scan, and
// 10 where out is not exactly as long as the file, in this order; after a refusal out has not changed.
#[tactic(auto, using(crate::proofs::Accepts::fine_write, forms::proofs::Fine::fine_few))]
pub fn write(terms: &[u16], scan: &[u16], out: &mut [u8]) -> Result<usize, Refusal>
    ensures { Write terms.now scan.now out.old out.new result }
{
    admit_write::<OfCounts>(terms, scan.len(), out.len())?;
    fill_file(terms, scan, out);
    Ok(out.len())
}
