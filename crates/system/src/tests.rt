// What no clause says: how a failure in the midst of reading or writing comes out, and what the system's words are taken for.
use crate::input::{FILE_ROOM, Source, file_room, read_all, read_file};
use crate::long::TooLong;
use crate::places::told_place;
use crate::tell::write_line;
use std::io::{Error, ErrorKind, Read, Result, Write};
use std::test::Fail;

// Gives its bytes a few at a time, and fails at one read, counted down from.
#[derive(Drop)]
struct Slow<'a> {
    left: &'a [u8],
    at_once: usize,
    until_failure: u32,
    failure: ErrorKind,
}

impl Read for Slow<'_> {
    fn read(&mut self, buf: &mut [u8]) -> Result<usize> {
        if self.until_failure == 0 {
            self.until_failure = 1000;
            return Err(Error::from(self.failure));
        }
        self.until_failure -= 1;
        let most = buf.len().min(self.at_once);
        self.left.read(&mut buf[..most])
    }
}

impl Source for Slow<'_> {
    fn told_length(&mut self) -> Option<TooLong> {
        None
    }
}

fn make_slow(left: &[u8], until_failure: u32, failure: ErrorKind) -> Slow<'_> {
    Slow {
        left,
        at_once: 3,
        until_failure,
        failure,
    }
}

#[test]
fn takes_interrupted_reads_up_again(rt: HostRuntime) {
    let mut input = make_slow(b"abcdefgh", 1, ErrorKind::Interrupted);
    let mut room = [0u8; 10];
    let read = read_all(&mut input, &mut room);
    assert!(rt; read.is_ok_and(|bytes| bytes == 8));
    assert_eq!(rt; room.as_slice(), b"abcdefgh\0\0".as_slice());
}

#[test]
fn says_that_a_read_failed(rt: HostRuntime) {
    let mut input = make_slow(b"abcdefgh", 2, ErrorKind::TimedOut);
    let mut room = [0u8; 10];
    let read = read_all(&mut input, &mut room);
    assert!(rt; read.is_err_and(|e| e.kind() == ErrorKind::TimedOut));
    assert_eq!(rt; 6 + input.left.len(), 8);
    assert_eq!(rt; room.as_slice(), b"abcdef\0\0\0\0".as_slice());
}

#[test]
fn counts_on_where_no_length_is_told(rt: HostRuntime) {
    let text = [7u8; FILE_ROOM + 100];
    let mut input = make_slow(&text, 100000, ErrorKind::Other);
    input.at_once = 5000;
    let mut room = file_room();
    let read = read_file(&mut input, &mut room);
    assert!(rt; read.is_ok_and(|bytes| bytes == FILE_ROOM + 100));
}

// Takes a few bytes at a time, and fails once it has taken some.
#[derive(Drop)]
struct Narrow {
    taken: usize,
    most: usize,
}

impl Write for Narrow {
    fn write(&mut self, buf: &[u8]) -> Result<usize> {
        if self.taken >= self.most {
            return Err(Error::from(ErrorKind::StorageFull));
        }
        let n = buf.len().min(2);
        self.taken = self.taken.saturating_add(n);
        Ok(n)
    }

    fn flush(&mut self) -> Result<()> {
        Ok(())
    }
}

#[test]
fn writes_on_after_a_short_write(rt: HostRuntime) -> std::result::Result<(), Fail> {
    let mut out = Narrow { taken: 0, most: 9 };
    write_line(&mut out, b"5 1 1\n")?;
    assert_eq!(rt; out.taken, 6);
    match write_line(&mut out, b"5 1 1\n") {
        Ok(()) => assert!(rt; false),
        Err(error) => assert!(rt; error.kind() == ErrorKind::StorageFull),
    }
    assert_eq!(rt; out.taken, 10);
    Ok(())
}

#[test]
fn finds_the_place_that_is_told(rt: HostRuntime) {
    assert_eq!(rt; told_place(b"pos:\t33033\nflags:\t0100000\n"), Some(33033));
    assert_eq!(rt; told_place(b"pos:\t0\n"), Some(0));
    assert_eq!(rt;
        told_place(b"pos:\t9223372036854775807\nf"),
        Some(9223372036854775807)
    );
    assert_eq!(rt; told_place(b""), None);
    assert_eq!(rt; told_place(b"pos:\t\n"), None);
    assert_eq!(rt; told_place(b"pos:\t-1\n"), Some(-1));
    assert_eq!(rt; told_place(b"pos:\t9223372036854775808\n"), None);
    assert_eq!(rt; told_place(b"pos:\t33033"), None);
    assert_eq!(rt; told_place(b"flags:\t0\npos:\t1\n"), None);
    assert_eq!(rt; told_place(b"pos:\t1\xff\n"), None);
}
