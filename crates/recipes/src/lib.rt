// Recipes: the steps decoded from their bytes, and whether a recipe is accepted.
//
// No public function has a `requires`, and nothing is assumed.

#![tactic(auto)]

ghost use Rattle.std.specs.Prelude.{◌≡◌, ◌*◌, ◌/◌, ◌≤◌, ◌<◌, ◌-ℤ◌, List, [], ◌∷◌, ◌++◌, length, get_or, reverse, Ok, IfOk, IfErr};
ghost use Rattle.std.proofs.Math.Option.{some};
ghost use Rattle.std.specs.Int.Signed.{mag};
ghost use Rattle.limits.specs.Limits.{reach, most_signals, step_bytes};
ghost use Rattle.refusals.specs.declared.Refusal.TheVariants.{SignalsHeld};
ghost use Rattle.theory.specs.Signals.{window, size as size_of};
ghost use Rattle.recipes.specs.Steps.{no_fields, set_alone, rank_fits, odd_set, allowed as allowed_of, decoded_of, step_at};
ghost use Rattle.recipes.specs.Machine.{act, reaches, both_reach};
ghost use Rattle.recipes.specs.Judge.{recipe_checked};
ghost use Rattle.recipes.specs.Private.{change_of, join_of, judged, origin, within, step_checked};
ghost use Rattle.recipes.specs.Private.{min_of, max_of, eroded_reach, dilated_reach, opened_reach};

use arrayvec::ArrayVec;
use limits::{MOST_SIGNALS, MOST_STEPS, PATTERNS, STEP_BYTES};
use refusals::Refusal;
use std::marker::Model;

// The bytes of a recipe of the most steps.
const LONGEST_RECIPE: usize = STEP_BYTES * MOST_STEPS;

// A step of document 01's table, with its set B (and its rank k).
#[derive(Clone, Copy)]
pub enum Step {
    Signal,
    Erode(u16),
    Dilate(u16),
    Open(u16),
    Close(u16),
    Rank { k: u8, set: u16 },
    Median(u16),
    Larger,
    Smaller,
}

// The set of all offsets.
const ALL_OFFSETS: u16 = (PATTERNS - 1) as u16;
// The greatest offset.
const FAR: u32 = limits::REACH as u32;

// How many offsets a set has; bits that stand for none do not count. Refuses nothing.
#[tactic(auto, unfolding(theory::specs::Signals::size, theory::specs::Signals::window, theory::specs::Signals::wide), using(crate::proofs::Decodes::low_ones))]
pub fn size(set: u16) -> u8
    ensures { result ≡ size_of window set }
{
    u16::count_ones(set & ALL_OFFSETS) as u8
}

// The fields of a step: its rank k and its set B.
#[derive(Clone, Copy)]
struct Fields {
    rank: u8,
    set: u16,
}

impl Fields {
    // Whether a step that has no field has none.
    fn are_none(self) -> bool
        ensures { result ≡ no_fields self.rank self.set }
    {
        self.rank == 0 && self.set == 0
    }

    // Whether the set is the only field.
    fn are_set(self) -> bool
        ensures { result ≡ set_alone self.rank self.set }
    {
        self.rank == 0 && bits::is_set(self.set)
    }

    // Whether the rank is 1 to the size of the set.
    #[tactic(auto, unfolding(crate::specs::Steps::rank_fits))]
    fn are_rank(self) -> bool
        ensures { result ≡ rank_fits self.rank self.set }
    {
        bits::is_set(self.set) && 1 <= self.rank && self.rank <= size(self.set)
    }

    // Whether the set is the only field, and has an odd size.
    #[tactic(auto, unfolding(crate::specs::Steps::odd_set))]
    fn are_odd_set(self) -> bool
        ensures { result ≡ odd_set self.rank self.set }
    {
        self.are_set() && (size(self.set) % 2 == 1)
    }
}

// The step of a code from 1 to 4; that codes are numbers in ranges here is document 01's form.
fn change_of(code: u8, set: u16) -> Step
    ensures { result ≡ change_of code set }
{
    match code {
        1 => Step::Erode(set),
        2 => Step::Dilate(set),
        3 => Step::Open(set),
        _ => Step::Close(set),
    }
}

// The step of a code from 7 to 8.
fn join_of(code: u8) -> Step
    ensures { result ≡ join_of code }
{
    match code {
        7 => Step::Larger,
        _ => Step::Smaller,
    }
}

// A step whose fields are allowed, or refusal 3.
fn allow(place: usize, allowed: bool, step: Step) -> Result<Step, Refusal>
    ensures { result ≡ allowed_of place allowed step }
{
    if !allowed {
        return Err(Refusal::StepField(place));
    }
    Ok(step)
}

// The step of a code, a rank and a set, which stands at a place of a recipe. Refuses 2 where the code is
// over 8 and 3 where a field is not allowed, each with the place.
#[tactic(auto, unfolding(crate::specs::Steps::decoded_of), using(crate::proofs::Decodes::codes_1_4, crate::proofs::Decodes::codes_7_8, crate::proofs::Decodes::codes_over))]
pub fn decode(place: usize, code: u8, rank: u8, set: u16) -> Result<Step, Refusal>
    ensures { result ≡ decoded_of place code rank set }
{
    let fields = Fields { rank, set };
    // The codes stay numbers in ranges: document 01's "Code places and language forms" names this match.
    match code {
        0 => allow(place, fields.are_none(), Step::Signal),
        1..=4 => allow(place, fields.are_set(), change_of(code, set)),
        5 => allow(place, fields.are_rank(), Step::Rank { k: rank, set }),
        6 => allow(place, fields.are_odd_set(), Step::Median(set)),
        7..=8 => allow(place, fields.are_none(), join_of(code)),
        _ => Err(Refusal::StepCode(place)),
    }
}

// The byte at k, and 0 past the end.
fn byte_at(recipe: &[u8], k: usize) -> u8
    ensures { result ≡ get_or recipe.now k 0 }
{
    recipe.get(k).copied().unwrap_or(0)
}

// The step at a place of a recipe, from 0: its four bytes decoded, those past the end read as 0. Refuses
// as `decode` does.
#[tactic(auto, unfolding(crate::specs::Steps::step_at), using(crate::proofs::Decodes::step_past))]
pub fn step_at(recipe: &[u8], place: usize) -> Result<Step, Refusal>
    ensures { result ≡ step_at recipe.now place }
{
    if recipe.len() / STEP_BYTES < place {
        return Ok(Step::Signal);
    }
    let at = STEP_BYTES * place;
    let code = byte_at(recipe, at);
    let rank = byte_at(recipe, at + 1);
    let low = byte_at(recipe, at + 2);
    let high = byte_at(recipe, at + 3);
    decode(place, code, rank, bits::word(low, high))
}

// The offsets that a signal held can depend on, from lo to hi: both are -4 to 4.
#[derive(Clone, Copy)]
struct Reach {
    lo: i32,
    hi: i32,
}

impl Model for Reach {
    ghost use Rattle.recipes.specs.Machine.{Reach as Ends};
    ghost use Rattle.recipes.specs.Private.{Little};

    ghost Value = { Ends };

    ghost view = { λ r. record { lo = r.lo; hi = r.hi } };

    ghost invariant = { λ r. Little r.lo × Little r.hi };

    ghost inverse = { λ r. record { lo = r.lo; hi = r.hi } };
}

// The scan's: 0 to 0.
impl Default for Reach {
    ghost is_default = { λ r. r ≡ origin };

    fn default() -> Reach {
        Reach { lo: 0, hi: 0 }
    }
}

// max B-min B.
fn span(set: u16) -> i32
    ensures { (result ≡ max_of set -ℤ min_of set) × (mag result ≤ 3 * reach) }
{
    windows::greatest_offset(set) - windows::least_offset(set)
}

impl Reach {
    // With ends of its own, where they are -4 to 4.
    #[tactic(auto, unfolding(crate::specs::Judge::in_reach))]
    fn new(lo: i32, hi: i32) -> Option<Reach>
        ensures { result ≡ within (record { lo = lo; hi = hi }) }
    {
        if FAR < lo.unsigned_abs() || FAR < hi.unsigned_abs() {
            return None;
        }
        Some(Reach { lo, hi })
    }

    // After an erode, a rank or a median: lo+min B to hi+max B.
    #[tactic(auto, unfolding(crate::specs::Private::eroded_reach), using(crate::proofs::Reaches::reach_by, crate::proofs::Reaches::read_sum))]
    fn eroded(self, set: u16) -> Option<Reach>
        ensures { result ≡ within (eroded_reach set self) }
    {
        Reach::new(
            self.lo + windows::least_offset(set),
            self.hi + windows::greatest_offset(set),
        )
    }

    // After a dilate: lo-max B to hi-min B.
    #[tactic(auto, unfolding(crate::specs::Private::dilated_reach), using(crate::proofs::Reaches::reach_by, crate::proofs::Reaches::read_difference))]
    fn dilated(self, set: u16) -> Option<Reach>
        ensures { result ≡ within (dilated_reach set self) }
    {
        Reach::new(
            self.lo - windows::greatest_offset(set),
            self.hi - windows::least_offset(set),
        )
    }

    // After an open or a close: lo-(max B-min B) to hi+(max B-min B).
    #[tactic(auto, unfolding(crate::specs::Private::opened_reach), using(crate::proofs::Reaches::reach_by, crate::proofs::Reaches::read_sum, crate::proofs::Reaches::read_difference))]
    fn opened(self, set: u16) -> Option<Reach>
        ensures { result ≡ within (opened_reach set self) }
    {
        let span = span(set);
        Reach::new(self.lo - span, self.hi + span)
    }

    // Of the larger or the smaller of two signals: always one.
    #[tactic(auto, unfolding(crate::specs::Machine::both_reach))]
    fn joined(self, last: Reach) -> Option<Reach>
        ensures { result ≡ within (both_reach self last) }
    {
        Reach::new(self.lo.min(last.lo), self.hi.max(last.hi))
    }
}

// The reaches of the signals held, in the order in which they were added.
#[derive(Drop)]
struct Held {
    reaches: ArrayVec<Reach, MOST_SIGNALS>,
    ghost few: { length reaches.items ≤ most_signals },
}

impl Held {
    // The last signal's, which is held no longer. Refuses 4 with the place, where none is held.
    fn take(&mut self, place: usize) -> Result<Reach, Refusal>
        ensures ok { IfOk result (λ last. self.old.reaches.items ≡ self.new.reaches.items ++ last ∷ []) }
        ensures err { IfErr result (λ why. (why ≡ SignalsHeld place) × (self.old.reaches.items ≡ [])) }
    {
        self.reaches.pop().ok_or(Refusal::SignalsHeld(place))
    }

    // Holds one more. Refuses 4 with the place, where it would be a ninth.
    fn hold(&mut self, place: usize, reach: Reach) -> Result<(), Refusal>
        ensures ok { IfOk result (λ _. (self.new.reaches.items ≡ self.old.reaches.items ++ reach ∷ [])
            × (length self.old.reaches.items < most_signals)) }
        ensures err { IfErr result (λ why. (why ≡ SignalsHeld place) × (length self.old.reaches.items ≡ most_signals)) }
    {
        self.reaches
            .try_push(reach)
            .or(Err(Refusal::SignalsHeld(place)))
    }

    // What a step leaves. Refuses 4, and then 5, with the place.
    fn perform(&mut self, place: usize, step: Step) -> Result<(), Refusal>
        ensures answer { result ≡ step_checked place (act reaches step (reverse self.old.reaches.items)) }
        ensures held { IfOk result (λ _. some (reverse self.new.reaches.items) ≡ act reaches step (reverse self.old.reaches.items)) }
    {
        let left = match step {
            Step::Signal => Some(Reach::default()),
            Step::Erode(set) | Step::Rank { k: _, set } | Step::Median(set) => self
                .take(place)?
                .eroded(set),
            Step::Dilate(set) => self.take(place)?.dilated(set),
            Step::Open(set) | Step::Close(set) => self.take(place)?.opened(set),
            Step::Larger | Step::Smaller => {
                let last = self.take(place)?;
                self.take(place)?.joined(last)
            }
        };
        self.hold(place, left.ok_or(Refusal::Reach(place))?)
    }
}

// Whether a recipe's steps are accepted: step by step 2, 3, 4, 5, then 4 at the end. (By the place and not by the bytes of a step:
// decoding asks for the place, since a refusal names it.)
fn judge_steps(recipe: &[u8]) -> Result<(), Refusal>
    ensures { result ≡ judged recipe.now }
{
    let steps = recipe.len() / STEP_BYTES;
    let mut held = Held {
        reaches: ArrayVec::new(),
    };
    for place in 0..steps {
        let decoded = step_at(recipe, place);
        let Ok(step) = decoded else {
            return decoded.map(|_| ());
        };
        held.perform(place, step)?;
    }
    if held.reaches.len() != 1 {
        return Err(Refusal::SignalsHeld(steps));
    }
    Ok(())
}

// Whether a recipe is accepted. Refuses 1 with its length; then, at the first step where one is due,
// 2, 3, 4 or 5 with the step; then 4 with the number of steps, where not one signal is left.
#[tactic(auto, unfolding(crate::specs::Judge::recipe_checked, crate::specs::Judge::bad_length, crate::specs::Private::judged))]
pub fn judge(recipe: &[u8]) -> Result<(), Refusal>
    ensures { result ≡ recipe_checked recipe.now }
{
    let n = recipe.len();
    if n == 0 || LONGEST_RECIPE < n || n % STEP_BYTES != 0 {
        return Err(Refusal::RecipeLength(n));
    }
    judge_steps(recipe)
}

// A recipe that is accepted: its bytes.
#[derive(Clone, Copy)]
pub struct Recipe<'a> {
    bytes: &'a [u8],
    pub ghost fine: { recipe_checked bytes.now ≡ Ok tt },
}

impl<'a> Recipe<'a> {
    // The recipe, where it is accepted. Refuses as `judge` does.
    pub fn new(recipe: &'a [u8]) -> Result<Recipe<'a>, Refusal>
        ensures ok { IfOk result (λ accepted. accepted.bytes.now ≡ recipe.now) }
        ensures err { IfErr result (λ why. recipe_checked recipe.now ≡ Err why) }
    {
        judge(recipe)?;
        Ok(Recipe { bytes: recipe })
    }

    // Its bytes.
    pub fn bytes(&self) -> &'a [u8]
        ensures { result.now ≡ self.now.bytes.now }
    {
        self.bytes
    }

    // How many steps it has.
    pub fn steps(&self) -> usize
        ensures { result ≡ length self.now.bytes.now / step_bytes }
    {
        self.bytes.len() / STEP_BYTES
    }

    // The step at a place, from 0, as `step_at` of its bytes has it.
    pub fn step_at(&self, place: usize) -> Result<Step, Refusal>
        ensures { result ≡ step_at self.now.bytes.now place }
    {
        step_at(self.bytes, place)
    }
}
