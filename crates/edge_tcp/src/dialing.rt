//! Connecting to a peer.
use crate::waiting::set_up;
use std::io::{self, ErrorKind};
use std::net::{SocketAddr, TcpStream, ToSocketAddrs};
use std::time::{Duration, Instant};

// How many seconds connecting may take, over all addresses of a host.
const MAX: u64 = 10;

/// A connection to an address, `HOST:PORT`, that is set up. The addresses of the host are tried in turn, each for its
/// share of what is left of ten seconds: as long as the system looks for them isn't counted. It fails where none
/// answers in time, and where the text is no such address.
pub(crate) fn dial(rt: &HostRuntime, addr: &str) -> io::Result<TcpStream> {
    let found = addr.to_socket_addrs(rt)?;
    let begun = Instant::now(rt)?;
    let mut untried = found.size_hint().0;
    let mut last = io::Error::from(ErrorKind::NotFound);
    for addr in found {
        let left = Duration::from_secs(MAX).saturating_sub(begun.elapsed(rt)?);
        match connect(rt, &addr, share(left, untried)) {
            Ok(stream) => return Ok(stream),
            Err(error) => last = error,
        }
        untried = untried.saturating_sub(1);
    }
    Err(last)
}

/// Whether a connection to an address, `HOST:PORT`, can be made within ten seconds. It is closed at once.
pub fn answers(rt: &HostRuntime, addr: &str) -> bool {
    dial(rt, addr).is_ok()
}

fn connect(rt: &HostRuntime, addr: &SocketAddr, limit: Duration) -> io::Result<TcpStream> {
    let stream = TcpStream::connect_timeout(rt, addr, limit)?;
    set_up(&stream)?;
    Ok(stream)
}

// One of so many equal parts of a time: a millisecond at least, since a limit of nothing is none.
fn share(time: Duration, parts: usize) -> Duration {
    let parts = u64::try_from(parts).unwrap_or(1).max(1);
    let milliseconds = u64::try_from(time.as_millis()).unwrap_or(1) / parts;
    Duration::from_millis(milliseconds.max(1))
}
