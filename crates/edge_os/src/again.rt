//! Calls of the system that a signal interrupted are made again.
ghost use Rattle.std.specs.Prelude.{◌≤◌, length, IfOk};

use std::fs::File;
use std::io::{self, ErrorKind, Read, Write};
use std::os::unix::fs::FileExt;

// How often a call is made at most: as often as signals come.
const TRIES: u64 = u64::MAX;

/// What a call gives that no signal interrupted.
pub fn uninterrupted<T: Drop, F: Fn() -> io::Result<T>>(call: F) -> io::Result<T>
    requires { F.IsAlwaysCallable call }
{
    for _ in 0..TRIES {
        let done = call();
        if !is_interrupted(&done) {
            return done;
        }
    }
    Err(io::Error::from(ErrorKind::Interrupted))
}

/// Reads the next bytes.
pub fn read<R: Read>(reader: &mut R, buf: &mut [u8]) -> io::Result<usize>
    ensures bound { IfOk result (λ n. n ≤ length buf.old) }
{
    for _ in 0..TRIES {
        let done = reader.read(buf);
        if !is_interrupted(&done) {
            return done;
        }
    }
    Err(io::Error::from(ErrorKind::Interrupted))
}

/// Reads the bytes at a place.
pub fn read_at(file: &File, buf: &mut [u8], at: u64) -> io::Result<usize>
    ensures bound { IfOk result (λ n. n ≤ length buf.old) }
{
    for _ in 0..TRIES {
        let done = file.read_at(buf, at);
        if !is_interrupted(&done) {
            return done;
        }
    }
    Err(io::Error::from(ErrorKind::Interrupted))
}

/// Writes from the front of the bytes.
pub fn write<W: Write>(writer: &mut W, bytes: &[u8]) -> io::Result<usize>
    ensures bound { IfOk result (λ n. n ≤ length bytes.now) }
{
    for _ in 0..TRIES {
        let done = writer.write(bytes);
        if !is_interrupted(&done) {
            return done;
        }
    }
    Err(io::Error::from(ErrorKind::Interrupted))
}

fn is_interrupted<T: Drop>(done: &io::Result<T>) -> bool {
    match done {
        Ok(_) => false,
        Err(error) => error.kind() == ErrorKind::Interrupted,
    }
}
