//! Reads and writes of a socket, which wait with patience.
ghost use Rattle.std.specs.Io.{ReadsAtMost, WritesAtMost};

use crate::patience::{Allowance, Patience, Progress};
use edge_os::Screen;
use std::io::{self, ErrorKind, Read, Write};
use std::net::TcpStream;
use std::time::{Duration, Instant};

// For how many seconds the system waits at a time, for bytes or for room. A write of which it took a part in that time
// is no failure, and begins anew with the rest.
const PAUSE: u64 = 1;

// How often a call is made at most: as often as patience lasts.
const TRIES: u64 = u64::MAX;

// For how many seconds the other end is waited for before that is shown.
const SOON: u64 = 2;

/// Who is shown that the other end is waited for.
#[derive(Clone, Copy)]
pub(crate) struct Watch<'a> {
    // The screen, and the address of the other end.
    shown: Option<(&'a Screen<'a>, &'a str)>,
}

impl<'a> Watch<'a> {
    /// Nobody.
    pub(crate) fn new() -> Watch<'a> {
        Watch { shown: None }
    }

    /// The one before the screen, as of the server at an address.
    pub(crate) fn on(screen: &'a Screen<'a>, addr: &'a str) -> Watch<'a> {
        Watch {
            shown: Some((screen, addr)),
        }
    }

    // Shows for how long the other end was waited for.
    fn show(self, patience: &Patience) {
        let seconds = patience.waited().as_secs();
        if seconds < SOON {
            return;
        }
        if let Some((screen, addr)) = self.shown {
            screen.pass(format_args!(
                "perkeep: waiting for a reply from {addr}, {seconds} s so far"
            ));
        }
    }
}

/// A socket is set up: it sends what it is given at once, and its calls wait a second at most.
pub(crate) fn set_up(stream: &TcpStream) -> io::Result<()> {
    stream.set_nodelay(true)?;
    stream.set_read_timeout(Some(Duration::from_secs(PAUSE)))?;
    stream.set_write_timeout(Some(Duration::from_secs(PAUSE)))
}

/// Reads the next bytes. It fails once they were waited for too long, or nothing is left of the allowance.
pub(crate) fn hear(
    rt: &HostRuntime,
    stream: &TcpStream,
    patience: &mut Patience,
    allowance: &Allowance,
    watch: Watch<'_>,
    buf: &mut [u8],
) -> io::Result<usize>
    ensures { ReadsAtMost result buf.new }
{
    let mut socket = stream;
    for _ in 0..TRIES {
        let begun = clock(rt, patience.needs_clock() || allowance.needs_clock())?;
        let done = socket.read(buf);
        let came = match &done {
            Ok(0) => return done,
            Ok(n) => *n,
            Err(error) if error.kind() == ErrorKind::WouldBlock => 0,
            Err(_) => return done,
        };
        let took = took(rt, begun, done.is_err())?;
        match patience.after(took, came) {
            Some(next) if allowance.after(took) => *patience = next,
            _ => return Err(io::Error::from(ErrorKind::TimedOut)),
        }
        if came > 0 {
            return done;
        }
        watch.show(patience);
    }
    Err(io::Error::from(ErrorKind::TimedOut))
}

/// Writes from the front of the bytes. It fails once too few were taken for too long, or nothing is left of the
/// allowance.
pub(crate) fn tell(
    rt: &HostRuntime,
    stream: &TcpStream,
    progress: &mut Progress,
    allowance: &Allowance,
    bytes: &[u8],
) -> io::Result<usize>
    ensures { WritesAtMost result bytes.now }
{
    let mut socket = stream;
    for _ in 0..TRIES {
        let begun = clock(rt, progress.needs_clock() || allowance.needs_clock())?;
        let done = socket.write(bytes);
        let went = match &done {
            Ok(n) => *n,
            Err(error) if error.kind() == ErrorKind::WouldBlock => 0,
            Err(_) => return done,
        };
        let took = took(rt, begun, done.is_err())?;
        match progress.after(took, went) {
            Some(next) if allowance.after(took) => *progress = next,
            _ => return Err(io::Error::from(ErrorKind::TimedOut)),
        }
        if done.is_ok() {
            return done;
        }
    }
    Err(io::Error::from(ErrorKind::TimedOut))
}

// When a call begins, where that has to be known.
fn clock(rt: &HostRuntime, is_needed: bool) -> io::Result<Option<Instant>> {
    if is_needed {
        Ok(Some(Instant::now(rt)?))
    } else {
        Ok(None)
    }
}

// For how long a call waited. Where the clock wasn't read before it, that is a pause where the call gave up, and else
// none.
fn took(rt: &HostRuntime, begun: Option<Instant>, gave_up: bool) -> io::Result<Duration> {
    match begun {
        Some(begun) => begun.elapsed(rt),
        None if gave_up => Ok(Duration::from_secs(PAUSE)),
        None => Ok(Duration::from_secs(0)),
    }
}
