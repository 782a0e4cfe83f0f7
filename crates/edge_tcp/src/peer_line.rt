//! The connections to a peer, one after the other, as both of their ends see them (`docs/sync.md`, "Connections").
ghost use Rattle.std.specs.Io.{ReadsAtMost, WritesAtMost};

use crate::dialing::dial;
use crate::patience::{Allowance, Patience, Progress};
use crate::waiting::{Watch, hear, tell};
use edge_os::{ReadSource, Screen, WriteSink};
use std::alloc::{AllocError, Global};
use std::cell::RefCell;
use std::io::{self, ErrorKind, Read, Write};
use std::net::TcpStream;
use std::rc::Rc;
use std::time::Instant;

/// What a peer answers.
pub type PeerIn<'a> = ReadSource<PeerReader<'a>>;

/// What it is asked.
pub type PeerOut<'a> = WriteSink<PeerWriter<'a>>;

// For how many seconds a connection may stand idle before a request.
const MAX_IDLE: u64 = 20;

// A request of more bytes than these may still be on its way for long, once it was written.
const MAX_AT_ONCE: usize = 65_536;

/// Both ends of the connections to a peer at an address, `HOST:PORT`. Nothing is looked up and no connection made
/// before the first call. It fails for want of memory alone.
///
/// A request is all that is written between two reads. It goes over a new connection where there is none so far, where
/// the end of the last one was read, and where that one stood idle for over 20 seconds. A new one is connected within
/// ten seconds. The first byte of the first reply of all, and of one to a request of more than 65,536 bytes, is waited
/// for ten minutes, and that of the first reply of each later connection 150 seconds. Then, and for any other reply, it
/// is waited 60 seconds at a time for 1,024 bytes at least, as it is waited for room for a request's. Once no
/// connection could be made, or a call has failed, each call fails. For how long a reply is waited for is shown on the
/// screen.
pub fn peer_ends<'a>(
    rt: &'a HostRuntime,
    screen: &'a Screen<'a>,
    addr: &'a str,
) -> Result<(PeerIn<'a>, PeerOut<'a>), AllocError> {
    let line = PeerLine {
        rt,
        addr,
        stands: Stands::Unmade,
        has_replied: false,
        watch: Watch::on(screen, addr),
    };
    let ours = Rc::new(rt.alloc(), RefCell::new(line))?;
    let theirs = ours.clone()?;
    Ok((
        ReadSource::new(PeerReader { line: ours }),
        WriteSink::new(PeerWriter { line: theirs }),
    ))
}

/// The end that is read.
#[derive(Drop)]
pub struct PeerReader<'a> {
    line: Rc<RefCell<PeerLine<'a>>, Global>,
}

impl<'a> Read for PeerReader<'a> {
    fn read(&mut self, buf: &mut [u8]) -> io::Result<usize> {
        match self.line.try_borrow_mut() {
            Ok(mut line) => line.hear(buf),
            Err(_) => Err(io::Error::from(ErrorKind::NotConnected)),
        }
    }
}

/// The end that is written to.
#[derive(Drop)]
pub struct PeerWriter<'a> {
    line: Rc<RefCell<PeerLine<'a>>, Global>,
}

impl<'a> Write for PeerWriter<'a> {
    fn write(&mut self, buf: &[u8]) -> io::Result<usize> {
        match self.line.try_borrow_mut() {
            Ok(mut line) => line.tell(buf),
            Err(_) => Err(io::Error::from(ErrorKind::NotConnected)),
        }
    }

    fn flush(&mut self) -> io::Result<()> {
        Ok(())
    }
}

// What both ends have.
#[derive(Drop)]
struct PeerLine<'a> {
    rt: &'a HostRuntime,
    addr: &'a str,
    stands: Stands,
    // Whether the peer has replied so far.
    has_replied: bool,
    watch: Watch<'a>,
}

// How the connection stands.
#[derive(Drop)]
enum Stands {
    // None was made so far.
    Unmade,
    // It is open.
    Open(Connection),
    // The peer has ended it.
    Ended,
    // It failed, or none could be made.
    Broken,
}

#[derive(Drop)]
struct Connection {
    stream: TcpStream,
    patience: Patience,
    progress: Progress,
    allowance: Allowance,
    // Whether the peer has replied over it so far.
    has_replied: bool,
    // Whether a request was begun since the last read, and how many of its bytes were written.
    is_asked: bool,
    asked: usize,
    // When it was made, or read last.
    used: Instant,
}

impl<'a> PeerLine<'a> {
    fn hear(&mut self, buf: &mut [u8]) -> io::Result<usize>
        ensures { ReadsAtMost result buf.new }
    {
        if let Stands::Unmade = self.stands {
            self.connect()?;
        }
        let done = match &mut self.stands {
            Stands::Open(connection) => connection.hear(self.rt, self.watch, buf),
            Stands::Ended => Ok(0),
            Stands::Unmade | Stands::Broken => Err(io::Error::from(ErrorKind::NotConnected)),
        };
        match &done {
            Ok(0) if !buf.is_empty() => self.stands = Stands::Ended,
            Ok(count) => self.has_replied |= *count > 0,
            Err(error) => self.fail(error.kind()),
        }
        done
    }

    fn tell(&mut self, bytes: &[u8]) -> io::Result<usize>
        ensures { WritesAtMost result bytes.now }
    {
        self.begin()?;
        let done = match &mut self.stands {
            Stands::Open(connection) => connection.tell(self.rt, bytes),
            _ => Err(io::Error::from(ErrorKind::NotConnected)),
        };
        if let Err(error) = &done {
            self.fail(error.kind());
        }
        done
    }

    // Where a request begins there is then a connection for it.
    fn begin(&mut self) -> io::Result<()> {
        let is_due = match &self.stands {
            Stands::Unmade | Stands::Ended => true,
            Stands::Open(connection) => connection.is_stale(self.rt)?,
            Stands::Broken => false,
        };
        if is_due {
            self.connect()?;
        }
        Ok(())
    }

    fn connect(&mut self) -> io::Result<()> {
        self.stands = Stands::Broken;
        let stream = dial(self.rt, self.addr)?;
        self.stands = Stands::Open(Connection {
            stream,
            patience: first_patience(self.has_replied),
            progress: Progress::new(),
            allowance: Allowance::endless(),
            has_replied: false,
            is_asked: false,
            asked: 0,
            used: Instant::now(self.rt)?,
        });
        Ok(())
    }

    // A call has failed. One that a signal interrupted is made again.
    fn fail(&mut self, kind: ErrorKind) {
        if kind != ErrorKind::Interrupted {
            self.stands = Stands::Broken;
        }
    }
}

impl Connection {
    // Whether it stood idle for too long, before a request.
    fn is_stale(&self, rt: &HostRuntime) -> io::Result<bool> {
        Ok(!self.is_asked && self.used.elapsed(rt)?.as_secs() >= MAX_IDLE)
    }

    fn hear(&mut self, rt: &HostRuntime, watch: Watch<'_>, buf: &mut [u8]) -> io::Result<usize>
        ensures { ReadsAtMost result buf.new }
    {
        let done = hear(
            rt,
            &self.stream,
            &mut self.patience,
            &self.allowance,
            watch,
            buf,
        );
        self.is_asked = false;
        self.has_replied |= matches!(done, Ok(count) if count > 0);
        if let Ok(now) = Instant::now(rt) {
            self.used = now;
        }
        done
    }

    fn tell(&mut self, rt: &HostRuntime, bytes: &[u8]) -> io::Result<usize>
        ensures { WritesAtMost result bytes.now }
    {
        if !self.is_asked {
            self.is_asked = true;
            self.asked = 0;
            if self.has_replied {
                self.patience = Patience::within_a_message();
            }
            self.progress = Progress::new();
        }
        let done = tell(rt, &self.stream, &mut self.progress, &self.allowance, bytes);
        if let Ok(count) = &done {
            self.asked = self.asked.saturating_add(*count);
        }
        if self.asked > MAX_AT_ONCE {
            self.patience = Patience::before_a_slow_reply();
        }
        done
    }
}

// How long the first reply over a connection is waited for, where the peer has replied over another one, and else.
fn first_patience(has_replied: bool) -> Patience {
    if has_replied {
        Patience::before_another_reply()
    } else {
        Patience::before_a_slow_reply()
    }
}
