//! A connection whose first head is looked at before anything of it is handed on.
ghost use Rattle.std.specs.Prelude.{◌≡◌, ◌≤◌, length, IfOk};

use http_admission::{Admission, Door, MAX_HEAD, admission_of};
use std::alloc::{AllocError, Global};
use std::io::{self, ErrorKind, Read};

/// A reader that is told what became of its connection, once the first head has come.
pub trait Ear: Read {
    /// The head is let in.
    fn admitted(&mut self);

    /// The head isn't let in, and nothing of the connection is heard.
    fn refused(&mut self);
}

// How much of what comes is handed on.
#[derive(Clone, Copy)]
enum Stands {
    // That isn't known so far.
    Looking,
    // All of it.
    Through,
    // So many bytes of it.
    Limited(u64),
}

/// A reader behind a door: it hands nothing on before its first head was looked at ([`admission_of`]), and then what is
/// heard of the connection, behind which it ends. It takes 16 KiB at its first read; where it can't have them, that
/// read fails. A read that fails leaves what has come so far as it is.
#[derive(Drop)]
pub struct AtDoor<R> {
    door: Door,
    reader: R,
    stands: Stands,
    // What was read to look at the head: so many bytes of it were filled, and so many of these given.
    ahead: Vec<u8>,
    filled: usize,
    given: usize,
    alloc: Global,
}

impl<R: Ear> AtDoor<R> {
    /// A reader of which nothing was read so far.
    pub fn new(alloc: Global, door: Door, reader: R) -> AtDoor<R> {
        AtDoor {
            door,
            reader,
            stands: Stands::Looking,
            ahead: Vec::new(alloc),
            filled: 0,
            given: 0,
            alloc,
        }
    }

    // Reads until it is known how much is handed on. Each read gives a byte at least, so there are no more than bytes.
    fn look(&mut self) -> io::Result<()> {
        if self.ahead.is_empty() {
            let Ok(space) = zeros(self.alloc) else {
                return Err(io::Error::from(ErrorKind::OutOfMemory));
            };
            self.ahead = space;
        }
        for _ in 0..MAX_HEAD {
            let before = self.filled.min(self.ahead.len());
            let n = self.reader.read(&mut self.ahead[before..])?;
            self.filled = before + n;
            let found = found_in(self.door, &self.ahead[..self.filled], before);
            if n == 0 || found.is_some() {
                self.settle(found.unwrap_or(Admission::NoHead));
                return Ok(());
            }
        }
        self.settle(Admission::NoHead);
        Ok(())
    }

    fn settle(&mut self, found: Admission) {
        match found {
            Admission::Refused => {
                self.stands = Stands::Limited(0);
                self.reader.refused();
            }
            Admission::First(len) => {
                self.stands = Stands::Limited(len);
                self.reader.admitted();
            }
            Admission::Whole => {
                self.stands = Stands::Through;
                self.reader.admitted();
            }
            Admission::NoHead => self.stands = Stands::Through,
        }
    }

    // The next bytes: those that were read ahead, and then the reader's.
    fn give(&mut self, buf: &mut [u8]) -> io::Result<usize>
        ensures bound { IfOk result (λ n. n ≤ length buf.old) }
    {
        let filled = self.filled.min(self.ahead.len());
        if self.given >= filled {
            return self.reader.read(buf);
        }
        let waiting = &self.ahead[self.given..filled];
        let n = waiting.len().min(buf.len());
        buf[..n].copy_from_slice(&waiting[..n]);
        self.given += n;
        Ok(n)
    }
}

impl<R: Ear> Read for AtDoor<R> {
    fn read(&mut self, buf: &mut [u8]) -> io::Result<usize> {
        if let Stands::Looking = self.stands {
            self.look()?;
        }
        let Stands::Limited(left) = self.stands else {
            return self.give(buf);
        };
        let most = most_of(left, buf.len());
        if most == 0 {
            return Ok(0);
        }
        let n = self.give(&mut buf[..most])?;
        self.stands = Stands::Limited(left.saturating_sub(n as u64));
        Ok(n)
    }
}

// What becomes of a connection that begins with these bytes. A head ends with a line, so nothing is found where what
// came behind so many bytes ends none.
fn found_in(door: Door, bytes: &[u8], before: usize) -> Option<Admission> {
    let came = bytes.get(before..)?;
    if came.contains(&b'\n') || bytes.len() >= MAX_HEAD {
        admission_of(door, bytes)
    } else {
        None
    }
}

// How many bytes may be read, where so many are left and there is that much room.
fn most_of(left: u64, room: usize) -> usize
    ensures { result ≤ room }
{
    if left < room as u64 {
        left as usize
    } else {
        room
    }
}

fn zeros(alloc: Global) -> Result<Vec<u8>, AllocError>
    ensures { IfOk result (λ bytes. length bytes.items ≡ 16384) }
{
    vec![in alloc; 0; 16_384]
}
