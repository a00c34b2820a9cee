// Makes the calls of lists, totals and their lines that standard input asks for, and prints a line for each.
//
// second/README.md has the formats of both. The program is proved safe and ending; that each line is
// the one expected is shown by running it on the stored vectors.

#![tactic(auto)]

mod calls;
mod pieces;
mod records;

use records::Room;
use wire::Wire;
use wire::room::{self, BYTES, WORDS};

fn main(rt: HostRuntime) {
    let mut text: [u8; BYTES] = room::filled(0);
    let mut sizes: [u16; WORDS] = room::filled(0);
    let mut room = Room {
        text: &mut text,
        sizes: &mut sizes,
    };
    Wire::new(rt.stdin(), rt.stdout()).make_all(&mut room);
}
