// Numbers and lent slices on a call's line.
//
// A failure to write is not told: the calls that follow are made all the same.
use crate::Wire;
use refusals::{Notice, Refusal};
use std::io::Write;

// More elements are given by their checksum.
const LONGEST_SHOWN: usize = 40;

const TWO_TO_32: u64 = 1 << 32;

const TWO_TO_48: u64 = 1 << 48;

// The checksum with one element more, plus 2^32 where it is negative. Both are cut to size first, so that nothing can wrap.
fn mixed(sum: u64, element: i64) -> u64 {
    (sum % TWO_TO_48 * 31 + element.cast_unsigned() % TWO_TO_32 + 1) % TWO_TO_48
}

impl<R, W: Write> Wire<R, W> {
    // Bytes as they are, as far as no write fails.
    pub fn print(&mut self, bytes: &[u8]) {
        let _ = self.out.write_all(bytes);
    }

    // A number behind what stands before it. The two are written apart, and where one cannot be, the other is tried all the same.
    fn number_behind(&mut self, before: &[u8], n: u64) {
        self.print(before);
        let _ = write!(self.out, "{}", n);
    }

    // A space and a number.
    pub fn word(&mut self, n: u64) {
        self.number_behind(b" ", n);
    }

    // A space and an element, with its sign where it has one.
    fn signed_word(&mut self, element: i64) {
        let before: &[u8] = if element < 0 { b" -" } else { b" " };
        self.number_behind(before, element.unsigned_abs());
    }

    // What a call answered: 0 and its values, or the number and the place of a refusal.
    pub fn answer<const N: usize>(&mut self, answer: Result<[u64; N], Refusal>) {
        match answer {
            Ok(values) => {
                self.word(0);
                for value in values {
                    self.word(value);
                }
            }
            Err(refusal) => {
                let notice = Notice::from(refusal);
                self.word(notice.number as u64);
                self.word(notice.place as u64);
            }
        }
    }

    // What a call of one value answered.
    pub fn value(&mut self, answer: Result<usize, Refusal>) {
        self.answer(answer.map(|n| [n as u64]));
    }

    // The elements of a slice that was lent, or the checksum of more than forty.
    pub fn elements<T: Copy + Into<i64>>(&mut self, lent: &[T]) {
        self.print(b" :");
        if lent.len() > LONGEST_SHOWN {
            let sum = lent
                .iter()
                .fold(0, |sum, element| mixed(sum, (*element).into()));
            self.number_behind(b" #", sum);
            return;
        }
        for element in lent {
            self.signed_word((*element).into());
        }
    }

    pub fn end_of_line(&mut self) {
        self.print(b"\n");
    }
}
