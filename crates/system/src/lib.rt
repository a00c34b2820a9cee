// What the programs report and night ask of the operating system.
//
// Bytes are read until they end, or where there are too many, told by their number; a name is looked at before it is opened; and what
// could not be done is said on standard error.
// No public function has a `requires`. Of a reader or a writer whose bytes are known the contracts of read_more, read_file and write_line
// say what was read or written. Of a real file, a terminal or a look no contract can: there they say where the bytes lie and what is not
// touched. What is assumed is what the C library promises of its functions, as the toolchain's std states it.
#![tactic(auto)]

mod input;
mod long;
mod names;
mod places;
mod tell;
#[cfg(test)]
mod tests;

pub use input::{
    FILE_ROOM, MOST_READS, Source, file_in, file_room, given_up, read_file, read_more,
};
pub use long::TooLong;
pub use names::{is_file, open};
pub use places::StandardInput;
pub use tell::{Failure, exit_code, has_argument, write_line};
