// What a file, and standard input, tell of their length.
ghost use Rattle.std.specs.Prelude.{◌≡◌, ◌+◌, ◌-◌, ◌^◌, ◌<◌, IfSome};
ghost use Rattle.limits.specs.Limits.{longest_file};
ghost use Rattle.system.specs.Private.{place_of};

use crate::input::{FILE_ROOM, Source, read_all};
use crate::long::TooLong;
use std::fs::{self, File};
use std::io::{Read, Result, Seek, SeekFrom};
use std::os::unix::fs::FileTypeExt;
use std::rt::Files;

// Where the system says what standard input is, and how far it was read.
const STANDARD_INPUT: &str = "/proc/self/fd/0";

const ITS_PLACE: &str = "/proc/self/fdinfo/0";

// A place in a file as the system tells it. Its answers below 0 are no place.
fn place(told: i64) -> Option<usize>
    ensures value { result ≡ place_of told }
    ensures small { IfSome result (λ n. n < 2 ^ 63) }
{
    usize::try_from(told).ok()
}

// What the system told std, which makes an error of -1, and of any other answer below 0 a number of 64 bits.
fn told(answer: Result<u64>) -> Option<usize>
    ensures { IfSome result (λ n. n < 2 ^ 63) }
{
    let told = i64::try_from(answer.ok()?).ok()?;
    place(told)
}

// How long a file is of which a room full was read, up to one place, and which ends at another. One that was cut meanwhile is what
// was read of it.
fn length_by_places(here: usize, end: usize) -> TooLong
    requires { end < 2 ^ 63 }
    ensures { result.length ≡ longest_file + 1 + (end - here) }
{
    TooLong {
        length: FILE_ROOM + end.saturating_sub(here),
    }
}

impl Source for File {
    // A file of the system's own may have places, but no end that it tells.
    fn told_length(&mut self) -> Option<TooLong> {
        let here = told(self.stream_position())?;
        // A device may tell a place that no read has moved.
        if here < FILE_ROOM {
            return None;
        }
        let end = told(self.seek(SeekFrom::End(0)))?;
        Some(length_by_places(here, end))
    }
}

// Standard input as it is read. std does not seek in it, so its place is read where the system tells it: that of descriptor 0, which the
// reader has to be of.
#[derive(Drop)]
pub struct StandardInput<'a, R, F> {
    pub reader: R,
    pub files: &'a F,
}

impl<R: Read, F: Files> Read for StandardInput<'_, R, F> {
    fn read(&mut self, buf: &mut [u8]) -> Result<usize> {
        self.reader.read(buf)
    }
}

impl<R: Read, F: Files> Source for StandardInput<'_, R, F> {
    fn told_length(&mut self) -> Option<TooLong> {
        let here = read_place(self.files)?;
        if here < FILE_ROOM {
            return None;
        }
        let end = read_end(self.files)?;
        Some(length_by_places(here, end))
    }
}

// Where standard input ends, a regular file or a disk: where a seek says so of the same file, opened anew. That moves no place of the
// input. A file that cannot be opened anew, as where a right to it is gone, ends where its length says; a length of 0 says nothing, since
// a disk and a file of the system's own have it, too.
fn read_end<F: Files>(files: &F) -> Option<usize>
    ensures { IfSome result (λ n. n < 2 ^ 63) }
{
    let found = fs::metadata(files, STANDARD_INPUT).ok()?;
    if !found.is_file() && !found.file_type().is_block_device() {
        return None;
    }
    match File::open(files, STANDARD_INPUT) {
        Ok(mut file) => told(file.seek(SeekFrom::End(0))),
        Err(_) if found.len() == 0 => None,
        Err(_) => told(Ok(found.len())),
    }
}

// The place of the next read of standard input.
fn read_place<F: Files>(files: &F) -> Option<usize> {
    let mut file = File::open(files, ITS_PLACE).ok()?;
    let mut text = [0u8; 64];
    let n = read_all(&mut file, &mut text).ok()?;
    place(told_place(&text[..n])?)
}

// The place in the first line of what the system says of an open file, as `pos:`, a tab and a number.
pub(crate) fn told_place(text: &[u8]) -> Option<i64> {
    let (first, _) = str::from_utf8(text).ok()?.split_once('\n')?;
    first.strip_prefix("pos:\t")?.parse().ok()
}
