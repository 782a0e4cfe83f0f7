//! Standard input and standard output, which are waited for also where another program has left them so that their
//! calls don't wait, and what a person at a terminal is shown of them.
ghost use Rattle.std.specs.Prelude.{◌≡◌};
ghost use Rattle.std.specs.Io.{ReadsAtMost, WritesAtMost};

use crate::edges::{ReadSource, WriteSink};
use crate::screen::Screen;
use crate::tally::Tally;
use libc::net::{POLLIN, POLLOUT, poll};
use libc::types::pollfd;
use std::io::{self, ErrorKind, IsTerminal, Read, Stdin, Stdout, Write};
use std::os::fd::{AsRawFd, RawFd};

// How often a call is made at most: as often as what was there was taken by another program.
const TRIES: u64 = u64::MAX;

// For as long as the system's `poll` may wait: without a limit, as a stream's own calls wait.
const FOR_EVER: i32 = -1;

/// Standard input as a source.
pub type StandardIn<'a> = ReadSource<ShownIn<'a>>;

/// Standard output as a sink.
pub type StandardOut<'a> = WriteSink<ShownOut<'a>>;

/// Standard input, of which nothing was read so far. A read waits until there is something, or the end.
pub fn standard_input<'a>(rt: &'a HostRuntime, screen: &'a Screen<'a>) -> StandardIn<'a>
    ensures { result.faults ≡ 0 }
{
    let stream = rt.stdin();
    let is_typed = stream.is_terminal();
    ReadSource::new(ShownIn {
        stream: Waited { stream },
        screen,
        is_typed,
        was_read: false,
        tally: Tally::new(screen, "read", !is_typed),
    })
}

/// Standard output, to which nothing was written so far. A write waits until something can be taken.
pub fn standard_output<'a>(rt: &'a HostRuntime, screen: &'a Screen<'a>) -> StandardOut<'a>
    ensures { result.faults ≡ 0 }
{
    let stream = rt.stdout();
    let is_on_screen = stream.is_terminal();
    WriteSink::new(ShownOut {
        stream: Waited { stream },
        screen,
        is_on_screen,
        tally: Tally::new(screen, "wrote", !is_on_screen),
    })
}

/// Standard input, of which is shown how much was read; or, where a person types it, that it is read, before the first
/// read.
#[derive(Drop)]
pub struct ShownIn<'a> {
    stream: Waited<Stdin>,
    screen: &'a Screen<'a>,
    // Whether a person types it.
    is_typed: bool,
    was_read: bool,
    tally: Tally<'a>,
}

impl<'a> Read for ShownIn<'a> {
    fn read(&mut self, buf: &mut [u8]) -> io::Result<usize> {
        if self.is_typed && !self.was_read {
            self.screen.tell(
                "perkeep: reading what is typed, until Ctrl-D at the beginning of a line",
            );
        }
        self.was_read = true;
        let done = self.stream.read(buf);
        self.tally.add(&done);
        done
    }
}

/// Standard output, of which is shown how much was written; or, where it is a terminal too, before each write of which
/// the passing line is cleared.
#[derive(Drop)]
pub struct ShownOut<'a> {
    stream: Waited<Stdout>,
    screen: &'a Screen<'a>,
    // Whether it is a terminal.
    is_on_screen: bool,
    tally: Tally<'a>,
}

impl<'a> ShownOut<'a> {
    /// How many bytes were written so far.
    pub fn written(&self) -> u64 {
        self.tally.bytes()
    }
}

impl<'a> Write for ShownOut<'a> {
    fn write(&mut self, buf: &[u8]) -> io::Result<usize> {
        if self.is_on_screen {
            self.screen.clear();
        }
        let done = self.stream.write(buf);
        self.tally.add(&done);
        done
    }

    fn flush(&mut self) -> io::Result<()> {
        self.stream.flush()
    }
}

/// A stream that is waited for where a call of it would have to wait and doesn't.
#[derive(Drop)]
pub struct Waited<S> {
    stream: S,
}

impl<S: Read + AsRawFd> Read for Waited<S> {
    fn read(&mut self, buf: &mut [u8]) -> io::Result<usize> {
        for _ in 0..TRIES {
            let done = self.stream.read(buf);
            if !would_block(&done) {
                return done;
            }
            wait_for(self.stream.as_raw_fd(), POLLIN);
        }
        Err(io::Error::from(ErrorKind::WouldBlock))
    }
}

impl<S: Write + AsRawFd> Write for Waited<S> {
    fn write(&mut self, buf: &[u8]) -> io::Result<usize> {
        for _ in 0..TRIES {
            let done = self.stream.write(buf);
            if !would_block(&done) {
                return done;
            }
            wait_for(self.stream.as_raw_fd(), POLLOUT);
        }
        Err(io::Error::from(ErrorKind::WouldBlock))
    }

    fn flush(&mut self) -> io::Result<()> {
        self.stream.flush()
    }
}

fn would_block(done: &io::Result<usize>) -> bool {
    match done {
        Ok(_) => false,
        Err(error) => error.kind() == ErrorKind::WouldBlock,
    }
}

// Waits until a stream has what is asked for, or has ended or failed, or a signal comes: the next call shows which.
fn wait_for(stream: RawFd, events: i16) {
    let mut asked = [pollfd {
        fd: stream,
        events,
        revents: 0,
    }];
    poll(&mut asked, FOR_EVER);
}
