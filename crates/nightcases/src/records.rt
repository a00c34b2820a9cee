// A record of standard input, and the arrays that it is read into.
//
// A record has every field that any call takes, so that all are read in one way. A call uses those that
// it takes; the others are empty.
use crate::calls::{self, Call};
use std::io::{Read, Write};
use wire::{Calls, Wire};

// What a record gives its call to read.
#[derive(Clone, Copy)]
pub struct Record<'a> {
    pub text: &'a [u8],
    pub sizes: &'a [u16],
}

// Room for a record.
#[derive(Drop)]
pub struct Room<'a> {
    pub text: &'a mut [u8],
    pub sizes: &'a mut [u16],
}

impl Calls for Room<'_> {
    type Call = Call;

    fn make<R: Read, W: Write>(&mut self, wire: &mut Wire<R, W>, call: Call) {
        let record = Record {
            text: wire.text(self.text),
            sizes: wire.slice(self.sizes),
        };
        calls::make(wire, call, record);
    }
}
