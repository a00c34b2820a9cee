// Records of standard input, each with the call that it asks for.
use crate::Wire;
use std::io::{Read, Write};

const MOST_CALLS: u32 = 1000000;

// The calls that a program makes.
pub trait Calls {
    // A record's first number says which call it asks for. 0 is no call.
    type Call: From<u16>;

    // Reads the rest of a record, makes its call, and prints the line but for its end.
    fn make<R: Read, W: Write>(&mut self, wire: &mut Wire<R, W>, call: Self::Call);
}

impl<R: Read, W: Write> Wire<R, W> {
    // Makes calls as long as there are any. A proved loop has to end, and nothing says that the input
    // does: calls are counted down from more than any stream has.
    pub fn make_all<C: Calls>(&mut self, calls: &mut C) {
        for _ in 0..MOST_CALLS {
            let Some(number) = self.next_call() else {
                return;
            };
            calls.make(self, C::Call::from(number));
            self.end_of_line();
        }
    }

    // The number of the call that the next record asks for, where there is a record.
    fn next_call(&mut self) -> Option<u16> {
        match self.two_bytes() {
            0 => None,
            number => Some(number),
        }
    }
}
