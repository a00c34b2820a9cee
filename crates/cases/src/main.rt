// Makes the calls that standard input asks for, and prints a line for each.
//
// second/README.md has the formats of both. The program is proved safe and ending; that each line is
// the one expected is shown by running it on the stored vectors.

#![tactic(auto)]

mod calls;
mod records;

use records::Room;
use wire::Wire;
use wire::room::{self, BYTES, WORDS};

fn main(rt: HostRuntime) {
    let mut terms: [u16; WORDS] = room::filled(0);
    let mut scan: [u16; WORDS] = room::filled(0);
    let mut bytes: [u8; BYTES] = room::filled(0);
    let mut room = Room {
        terms: &mut terms,
        scan: &mut scan,
        bytes: &mut bytes,
    };
    Wire::new(rt.stdin(), rt.stdout()).make_all(&mut room);
}
