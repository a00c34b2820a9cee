// A record of standard input, and the arrays that it is read into.
//
// A record has every field that any call takes, so that all are read in one way. A call uses those that
// it takes; the others are empty.
use crate::calls::{self, Call};
use std::io::{Read, Write};
use wire::{Calls, Wire};

// What a record gives its call to read.
#[derive(Clone, Copy)]
pub struct Record<'a> {
    pub terms: &'a [u16],
    pub scan: &'a [u16],
    pub bytes: &'a [u8],
}

// Room for a record.
#[derive(Drop)]
pub struct Room<'a> {
    pub terms: &'a mut [u16],
    pub scan: &'a mut [u16],
    pub bytes: &'a mut [u8],
}

impl Calls for Room<'_> {
    type Call = Call;

    fn make<R: Read, W: Write>(&mut self, wire: &mut Wire<R, W>, call: Call) {
        print_name(wire, self.bytes);
        let record = Record {
            terms: wire.slice(self.terms),
            scan: wire.slice(self.scan),
            bytes: wire.slice(self.bytes),
        };
        calls::make(wire, call, record);
    }
}

// A line begins with the name that the record has for the call.
fn print_name<R: Read, W: Write>(wire: &mut Wire<R, W>, room: &mut [u8]) {
    let name = wire.slice(room);
    wire.print(name);
}
