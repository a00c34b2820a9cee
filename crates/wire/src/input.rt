// An input, taken apart as it is read.
//
// A byte past its end counts as 0, and a length over the room there is counts as that room. Neither
// comes up in a stream of calls.
ghost use Rattle.std.specs.Prelude.{◌≤◌, length};

use crate::Wire;
use std::io::Read;

// A number that stands in a record as one of many.
pub trait Element: Sized {
    // Puts the next numbers into the slots.
    fn read_all<R: Read>(input: &mut R, slots: &mut [Self]);
}

impl Element for u8 {
    fn read_all<R: Read>(input: &mut R, slots: &mut [u8]) {
        fill(input, slots);
    }
}

impl Element for u16 {
    fn read_all<R: Read>(input: &mut R, slots: &mut [u16]) {
        for slot in slots {
            *slot = u16::from_le_bytes(next(input));
        }
    }
}

// Fills the slice, as far as the input goes and no read fails. What is past that stays as it was.
fn fill<R: Read>(input: &mut R, bytes: &mut [u8]) {
    let _ = input.read_exact(bytes);
}

// The next bytes, 0 past the end. They are read two at a time: where one read brings what was sent together and no more, as of a datagram,
// a number takes two bytes of each.
fn next<R: Read, const N: usize>(input: &mut R) -> [u8; N] {
    let mut bytes = [0; N];
    for two in bytes.chunks_mut(2) {
        fill(input, two);
    }
    bytes
}

// Every number stands low byte first.
impl<R: Read, W> Wire<R, W> {
    // The next number of two bytes.
    pub fn two_bytes(&mut self) -> u16 {
        u16::from_le_bytes(next(&mut self.input))
    }

    // The next number of four bytes.
    fn four_bytes(&mut self) -> u32 {
        u32::from_le_bytes(next(&mut self.input))
    }

    // The next number of eight bytes.
    pub fn number(&mut self) -> u64 {
        u64::from_le_bytes(next(&mut self.input))
    }

    // The next numbers of eight bytes.
    pub fn numbers<const N: usize>(&mut self) -> [u64; N] {
        let mut numbers = [0; N];
        for number in &mut numbers {
            *number = self.number();
        }
        numbers
    }

    // How many elements of the room the next argument asks for, at most all of them.
    pub fn count_to_lend<T>(&mut self, room: &[T]) -> usize
        ensures { result ≤ length room.now }
    {
        room.len().min(self.four_bytes() as usize)
    }

    // The start of the room, as long as the next argument asks for.
    pub fn lend<'a, T>(&mut self, room: &'a mut [T]) -> &'a mut [T]
        ensures { length result.now ≤ length room.old }
    {
        let n = self.count_to_lend(room);
        &mut room[..n]
    }

    // The next slice, which is put at the start of the room.
    pub fn slice<'a, T: Element>(&mut self, room: &'a mut [T]) -> &'a [T]
        ensures { length result.now ≤ length room.old }
    {
        let slots = self.lend(room);
        T::read_all(&mut self.input, slots);
        slots
    }

    // The next run, which is put at the start of the room: a unit over and over. Each turn doubles what there is of it, and a length has no
    // more bits than there are turns. (By zip and cycle a unit of 256 bytes took ten times as long.)
    fn run<'a>(&mut self, room: &'a mut [u8]) -> &'a [u8]
        ensures { length result.now ≤ length room.old }
    {
        let unit = self.slice(room).len();
        let run = self.lend(room);
        let mut filled = unit.min(run.len());
        for _ in 0..usize::BITS {
            let (there, rest) = run.split_at_mut(filled);
            let more = there.len().min(rest.len());
            if more == 0 {
                break;
            }
            rest[..more].copy_from_slice(&there[..more]);
            filled += more;
        }
        run
    }

    // The next text, which is put at the start of the room, run after run.
    pub fn text<'a>(&mut self, room: &'a mut [u8]) -> &'a [u8]
        ensures { length result.now ≤ length room.old }
    {
        let mut n = 0;
        for _ in 0..self.four_bytes() {
            n += self.run(&mut room[n..]).len();
        }
        &room[..n]
    }
}
