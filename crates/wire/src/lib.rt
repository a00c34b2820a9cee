// The wire: how a call stands on the standard input of the programs `cases` and `nightcases`, and what it gave on the standard output.
//
// second/README.md has the formats. It is a crate of its own so that it is proved beside the crates that the programs wait for. No public
// function has a `requires`. Contracts say how long a slice is, and nothing of what is read and written.
#![tactic(auto)]

mod input;
mod output;
mod records;
pub mod room;

pub use input::Element;
pub use records::Calls;

// What calls are read from, and what their lines are printed on.
#[derive(Drop)]
pub struct Wire<R, W> {
    input: R,
    out: W,
}

impl<R, W> Wire<R, W> {
    pub fn new(input: R, out: W) -> Wire<R, W> {
        Wire { input, out }
    }
}
