// Reading an input to its end, or where it is too long, to where its length is known.
ghost use Rattle.std.specs.Prelude.{◌≡◌, ◌≢◌, ◌+◌, ◌<◌, ℕ, pos, List, length, take, drop, Some, IfSome, IfNone, IfOk, IfErr};
ghost use Rattle.std.specs.IoError.{error_kind, raw_os_error};
ghost use Rattle.std.specs.Io.KnownBytes.{Consumes, IsAtEnd, Keeps};
ghost use Rattle.io.specs.Counts.{IsPrefixLen};
ghost use Rattle.limits.specs.Limits.{longest_file};
ghost use Rattle.system.specs.Reads.{ReadsOn, Kept, IsRead, IsFile};
ghost use Rattle.system.specs.Private.{HasRead};

use crate::long::TooLong;
use limits::LONGEST_FILE;
use std::io::{Error, ErrorKind, Read, Result};

// A proved loop has to end, so reads are counted: far more than any input needs, however often signals interrupt them.
pub const MOST_READS: u32 = 4000000000;

// The system's number for a read that a signal interrupted, which is said where reads have been counted down.
const INTERRUPTED: i32 = 4;

// One byte more than the longest file has, so that a file which fills it is too long.
pub const FILE_ROOM: usize = LONGEST_FILE + 1;

// So many bytes are read at once where they are only counted.
const COUNTED_AT_ONCE: usize = 65536;

// What is read, and may tell how long it is.
pub trait Source: Read {
    // How long the whole is of which a room full was read, where the system tells it. Then nothing more is to be read, since the place of
    // the next read may have moved.
    fn told_length(&mut self) -> Option<TooLong>
        ensures told { IfSome result (λ whole. IfSome (Self.remaining self.old) (λ xs. whole.length ≡ longest_file + 1 + length xs)) }
        ensures untold { IfNone result (Keeps (Self.remaining self.old) (Self.remaining self.new)) };
}

// ---- reading

// Room for a file. The `ensures` gives only the length, which lending the array as a slice needs.
pub fn file_room() -> [u8; FILE_ROOM]
    ensures { longest_file + 1 ≡ length result }
{
    [0; FILE_ROOM]
}

// Why reading ends that has gone on as often as it may.
pub fn given_up() -> Error
    ensures { raw_os_error result ≡ Some (pos 4) }
{
    Error::from_raw_os_error(INTERRUPTED)
}

// Reads once more, behind the bytes that there are, and answers how many there are now; none where reading is over, as it is in a slice
// that is full. A read that a signal interrupts is to be taken up again, and has read nothing.
pub fn read_more<R: Read>(reader: &mut R, bytes: usize, input: &mut [u8]) -> Result<Option<usize>>
    ensures kept { take bytes input.new ≡ take bytes input.old }
    ensures more { IfOk result (λ read. IfSome read (ReadsOn bytes input.old input.new)) }
    ensures taken { IfOk result (λ read. IfSome read (λ n.
        Consumes (R.remaining reader.old) (R.remaining reader.new) (drop bytes (take n input.new)))) }
    ensures over { IfOk result (λ read. IfNone read (Keeps (R.remaining reader.old) (R.remaining reader.new))) }
    ensures ended { IfOk result (λ read. IfNone read (bytes < length input.old → IsAtEnd (R.remaining reader.new))) }
    ensures failed { IfErr result (λ e. (error_kind e ≢ ErrorKind.Interrupted) × Keeps (R.remaining reader.old) (R.remaining reader.new)) }
{
    if input.len() < bytes {
        return Ok(None);
    }
    match reader.read(&mut input[bytes..]) {
        Ok(0) => Ok(None),
        Ok(more) => Ok(Some(bytes + more)),
        Err(error) if error.kind() == ErrorKind::Interrupted => Ok(Some(bytes)),
        Err(error) => Err(error),
    }
}

// Reads until the input ends or the slice is full, and answers how many bytes it read. A read that a signal interrupts is taken up again.
// Where a read fails, the bytes that were read before stay in the slice.
#[tactic(auto, using(crate::proofs::Bytes::reads_both))]
pub(crate) fn read_all<R: Read>(reader: &mut R, input: &mut [u8]) -> Result<usize>
    ensures in_bounds { IfOk result (λ n. IsPrefixLen n input.new) }
    ensures len { length input.new ≡ length input.old }
    ensures taken { IfOk result (λ n. Consumes (R.remaining reader.old) (R.remaining reader.new) (take n input.new)) }
    ensures ended { IfOk result (λ n. n < length input.old → IsAtEnd (R.remaining reader.new)) }
    ensures failed { IfErr result (λ _. HasRead (R.remaining reader.old) (R.remaining reader.new) input.new) }
{
    let mut bytes = 0;
    for _ in 0..MOST_READS {
        match read_more(reader, bytes, input)? {
            Some(more) => bytes = more,
            None => return Ok(bytes),
        }
    }
    Err(given_up())
}

// ---- the length of an input that is too long

// Reads on from a room full of bytes to the input's end. What is read is counted and not kept.
fn count_on<R: Read>(reader: &mut R) -> Result<TooLong>
    ensures { IfOk result (λ whole. IfSome (R.remaining reader.old) (λ xs. whole.length ≡ longest_file + 1 + length xs)) }
{
    let mut room = [0; COUNTED_AT_ONCE];
    let mut length = FILE_ROOM;
    for _ in 0..MOST_READS {
        match read_more(reader, 0, &mut room)? {
            Some(more) => length += more,
            None => return Ok(TooLong { length }),
        }
    }
    Err(given_up())
}

// How long an input is whose first bytes have filled the room. Where the system tells it, as of a file, a long file costs no more than a
// short one. Where it does not, as of a pipe, the input is read on.
fn whole_length<S: Source>(source: &mut S) -> Result<TooLong>
    ensures { IfOk result (λ whole. IfSome (S.remaining source.old) (λ xs. whole.length ≡ longest_file + 1 + length xs)) }
{
    match source.told_length() {
        Some(whole) => Ok(whole),
        None => count_on(source),
    }
}

// Reads a file, and answers how long it is, whatever its length; all of its bytes lie in the room where it is not too long. The second
// `ensures` gives only the length, which lending the array as a slice needs; the third says of a file whose bytes are known that it is
// the one that was read.
pub fn read_file<S: Source>(source: &mut S, room: &mut [u8; FILE_ROOM]) -> Result<usize>
    ensures kept { IfOk result (λ n. Kept n room.new) }
    ensures len { longest_file + 1 ≡ length room.new }
    ensures whole { IfOk result (λ n. IfSome (S.remaining source.old) (IsRead n room.new)) }
{
    let bytes = read_all(source, room)?;
    if bytes < FILE_ROOM {
        return Ok(bytes);
    }
    Ok(whole_length(source)?.length)
}

// The file of so many bytes that was read to a room: its bytes, or where it is too long, its length. (The two lie apart, since a file may
// be longer than the room is, and then no slice of it says how long.)
pub fn file_in(room: &[u8; FILE_ROOM], length: usize) -> std::result::Result<&[u8], TooLong>
    ensures { (f : List ℕ) → IsRead length room.now f → IsFile result f }
{
    if LONGEST_FILE < length {
        return Err(TooLong { length });
    }
    Ok(&room[..length])
}
