// Lists of file names: which are refused, found piece by piece, and where each name ends.
//
// A judge is two counts and a place, however long the list is. Its verdict is that of the whole text, wherever the text is cut into pieces
// (proofs/Cuts.antt). No public function has a `requires`, and nothing is assumed.

#![tactic(auto)]

ghost use Rattle.std.specs.Prelude.{◌≡◌, ◌≤◌};
ghost use Rattle.std.specs.List.{position};
ghost use Rattle.limits.specs.Limits.{most_names};
ghost use Rattle.lists.specs.Names.{is_line_end, is_bad_length, CheckList, line_end};
ghost use Rattle.lists.specs.Judge.{fresh, ended, grown, closed, is_over, stepped, judged, verdict_of};

use limits::{LONGEST_NAME, MOST_NAMES};
use refusals::Refusal;

const LINE_FEED: u8 = b'\n';

// Whether a byte ends a line.
fn is_line_end(byte: u8) -> bool
    ensures { result ≡ is_line_end byte }
{
    byte == LINE_FEED
}

// Whether a line of so many bytes is empty or too long.
#[tactic(auto, unfolding(crate::specs::Names::is_bad_length))]
fn is_bad_length(bytes: usize) -> bool
    ensures { result ≡ is_bad_length bytes }
{
    bytes == 0 || bytes > LONGEST_NAME
}

// What is known of a list so far.
#[derive(Clone, Copy, Debug, PartialEq, Eq)]
pub struct Judge {
    // How many lines have ended.
    pub lines: usize,
    // How many bytes the line at hand has, counted to one more than a name may have.
    pub bytes: usize,
    // The first of the lines that have ended and are empty or too long, from 1, if there is one.
    pub bad: Option<usize>,
}

impl Judge {
    // Before the first byte of a list.
    pub fn start() -> Judge
        ensures { result ≡ fresh }
    {
        Judge {
            lines: 0,
            bytes: 0,
            bad: None,
        }
    }

    // Whether line 251 has begun, so that no further byte changes the verdict.
    #[tactic(auto, using(crate::proofs::Judges::over_by))]
    pub fn is_over(self) -> bool
        ensures { result ≡ is_over self }
    {
        self.lines > MOST_NAMES || (self.lines == MOST_NAMES && self.bytes > 0)
    }

    // Ends the line at hand.
    #[tactic(auto, unfolding(crate::specs::Judge::ended))]
    fn end(self) -> Judge
        requires { self.lines ≤ most_names }
        ensures { result ≡ ended self }
    {
        let lines = self.lines + 1;
        Judge {
            lines,
            bytes: 0,
            bad: self.bad.or(is_bad_length(self.bytes).then_some(lines)),
        }
    }

    // Lengthens the line at hand by a byte.
    #[tactic(auto, unfolding(crate::specs::Judge::grown))]
    fn grow(self) -> Judge
        ensures { result ≡ grown self }
    {
        if self.bytes > LONGEST_NAME {
            return self;
        }
        Judge {
            bytes: self.bytes + 1,
            ..self
        }
    }

    // Ends the line at hand where the text ends, if it has begun.
    #[tactic(auto, unfolding(crate::specs::Judge::closed))]
    fn close(self) -> Judge
        requires { self.lines ≤ most_names }
        ensures { result ≡ closed self }
    {
        if self.bytes > 0 { self.end() } else { self }
    }

    // Goes on by one byte.
    #[tactic(auto, unfolding(crate::specs::Judge::stepped), using(crate::proofs::Judges::not_over))]
    fn step(self, byte: u8) -> Judge
        ensures { result ≡ stepped self byte }
    {
        if self.is_over() {
            self
        } else if is_line_end(byte) {
            self.end()
        } else {
            self.grow()
        }
    }

    // Goes on through a piece of the list.
    pub fn judge_piece(self, piece: &[u8]) -> Judge
        ensures { result ≡ judged self piece.now }
    {
        piece.iter().fold(self, |judge, &byte| judge.step(byte))
    }

    // The verdict on a list that ends here: refuses 20 for over 250 lines, then 19 for the first line that is empty or too long.
    #[tactic(auto, unfolding(crate::specs::Judge::verdict_of), using(crate::proofs::Judges::not_over))]
    pub fn verdict(self) -> Result<(), Refusal>
        ensures { result ≡ verdict_of self }
    {
        if self.is_over() {
            return Err(Refusal::NameCount(MOST_NAMES));
        }
        match self.close().bad {
            Some(line) => Err(Refusal::BadName(line)),
            None => Ok(()),
        }
    }
}

// Checks a list that is at hand whole, and answers the number of its names. Refuses 20, then 19.
#[tactic(auto, using(crate::proofs::Cuts::verdict_whole, crate::proofs::Cuts::fine_few, crate::proofs::Cuts::names_told))]
pub fn check(text: &[u8]) -> Result<usize, Refusal>
    ensures { CheckList text.now result }
{
    let whole = Judge::start().judge_piece(text);
    whole.verdict()?;
    Ok(whole.close().lines)
}

// The place of a text's first line feed, if it has one.
fn line_feed(text: &[u8]) -> Option<usize>
    ensures { result ≡ position is_line_end text.now }
{
    text.iter().position(|&byte| is_line_end(byte))
}

// Where the line ends that begins at a place: at its line feed, or else at the end of the text.
#[tactic(auto, using(crate::proofs::Ends::found_most, crate::proofs::Ends::end_beyond, crate::proofs::Ends::end_at))]
pub fn line_end(text: &[u8], at: usize) -> usize
    ensures { result ≡ line_end text.now at }
{
    let Some(line) = text.get(at..) else {
        return at;
    };
    at + line_feed(line).unwrap_or(line.len())
}
