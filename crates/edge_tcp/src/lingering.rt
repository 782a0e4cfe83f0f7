//! The end of a connection.
use std::io::{ErrorKind, Read};
use std::net::{Shutdown, TcpStream};
use std::time::{Duration, Instant};

// For how many milliseconds an end is waited for.
const MAX_LINGER: u64 = 1_000;

// How often what comes is read at most: as often as something comes in that time.
const READS: u64 = u64::MAX;

/// Tells the other end that nothing more comes, and reads what it still says, for a second and no longer, however much
/// that is.
pub(crate) fn linger(rt: &HostRuntime, stream: &TcpStream) {
    if stream.shutdown(Shutdown::Write).is_err() {
        return;
    }
    let Ok(begun) = Instant::now(rt) else {
        return;
    };
    let mut buf = [0u8; 16_384];
    for _ in 0..READS {
        let took = begun
            .elapsed(rt)
            .unwrap_or(Duration::from_millis(MAX_LINGER));
        let left = Duration::from_millis(MAX_LINGER).saturating_sub(took);
        if left.is_zero()
            || stream.set_read_timeout(Some(left)).is_err()
            || !goes_on(stream, &mut buf)
        {
            return;
        }
    }
}

// Reads what comes; whether more may.
fn goes_on(stream: &TcpStream, buf: &mut [u8]) -> bool {
    let mut reader = stream;
    match reader.read(buf) {
        Ok(count) => count > 0,
        Err(error) => error.kind() == ErrorKind::Interrupted,
    }
}
