// A list that is judged piece by piece, as a program reads it.
use crate::records::Record;
use lists::Judge;
use std::io::Write;
use wire::Wire;

// A proved loop has to end, and sizes of 0 bring it no nearer: pieces are counted up to more than a text is cut into.
const MOST_PIECES: u64 = 1000000;

// Judges the text in pieces of the sizes, from the first again after the last, and prints the verdict and how many
// pieces had come when line 251 began. Where there are no sizes the text is one piece.
pub fn judge<R, W: Write>(wire: &mut Wire<R, W>, record: Record<'_>) {
    let mut judge = Judge::start();
    let mut pieces = 0;
    let mut rest = record.text;
    let mut sizes = record.sizes.iter().cycle();
    for turn in 0..MOST_PIECES {
        if rest.is_empty() {
            break;
        }
        if !judge.is_over() {
            pieces = turn + 1;
        }
        let size = sizes
            .next()
            .map_or(rest.len(), |size| rest.len().min(*size as usize));
        let (piece, later) = rest.split_at(size);
        judge = judge.judge_piece(piece);
        rest = later;
    }
    // A verdict has no value, and its line has 0.
    wire.value(judge.verdict().map(|_| 0));
    wire.word(pieces);
}
