//! A socket that listens.
ghost use Rattle.std.specs.Prelude.{◌≡◌};
ghost use Rattle.edge_base.specs.Edge.{HasCause};
ghost use Rattle.edge_listen.specs.Listening.{Accepts};

use crate::connection::{TcpIn, TcpOut, ends_of};
use edge_base::Failed;
use edge_listen::Listener;
use edge_os::{Readiness, counted};
use http_admission::Door;
use std::io::{self, ErrorKind};
use std::net::{TcpListener, TcpStream};
use std::sync::Wait;
use std::thread;
use std::time::Duration;

// How often a connection is asked for at most: as often as one went before it was accepted.
const TRIES: u64 = u64::MAX;

// How often it is asked for while the system has no room for one, and how many milliseconds are waited after each time:
// ten seconds in all.
const MAX_REFUSALS: u32 = 100;

const PAUSE: u64 = 100;

// The system's numbers for: no memory; no room for an open file in it, or in this program; a fault of the protocol,
// which the connection alone is to blame for; no room for a socket's buffers.
const OUT_OF_MEMORY: i32 = 12;

const TOO_MANY_FILES_OF_ALL: i32 = 23;

const TOO_MANY_FILES: i32 = 24;

const PROTOCOL_FAULT: i32 = 71;

const NO_BUFFERS: i32 = 105;

/// A socket that listens, lent to one who accepts at a door. What a client whose connection was accepted is waited for
/// is told at [`TcpIn`] and [`TcpOut`]. Where the system has no room for another connection it is asked for ten
/// seconds, and then that is a failure; a connection that can't be set up is closed, and the next one accepted.
#[derive(Drop)]
pub struct TcpListenerOn<'a> {
    rt: &'a HostRuntime,
    listener: &'a TcpListener,
    ready: &'a Readiness<'a>,
    door: Door,
    accepted: u64,
    faults: u64,
}

impl<'a> TcpListenerOn<'a> {
    /// One who accepts, and has accepted nothing so far. The first one that is asked to tells that the server is ready.
    pub fn new(
        rt: &'a HostRuntime,
        listener: &'a TcpListener,
        ready: &'a Readiness<'a>,
        door: Door,
    ) -> TcpListenerOn<'a>
        ensures accepted { result.accepted ≡ 0 }
        ensures faults { result.faults ≡ 0 }
    {
        TcpListenerOn {
            rt,
            listener,
            ready,
            door,
            accepted: 0,
            faults: 0,
        }
    }

    // The next connection that can be set up.
    fn next(&self) -> io::Result<(TcpIn<'a>, TcpOut<'a>)> {
        for _ in 0..TRIES {
            if let Ok(ends) = ends_of(self.rt, accept(self.rt, self.listener)?, self.door) {
                return Ok(ends);
            }
        }
        Err(io::Error::from(ErrorKind::ConnectionAborted))
    }
}

impl<'a> Listener for TcpListenerOn<'a> {
    type In = TcpIn<'a>;

    type Out = TcpOut<'a>;

    ghost accepted = { λ l. l.accepted };

    ghost faults = { λ l. l.faults };

    fn accept<R: Wait>(&mut self, _rt: &R) -> Result<(TcpIn<'a>, TcpOut<'a>), Failed> {
        self.ready.tell();
        let next = self.next();
        let connection = counted(next, &mut self.faults)?;
        self.accepted = self.accepted.saturating_add(1);
        Ok(connection)
    }

    fn accepted(&self) -> u64 {
        self.accepted
    }

    fn faults(&self) -> u64 {
        self.faults
    }
}

fn accept(rt: &HostRuntime, listener: &TcpListener) -> io::Result<TcpStream> {
    let mut refusals = 0u32;
    for _ in 0..TRIES {
        match listener.accept() {
            Ok((stream, _)) => return Ok(stream),
            Err(error) if has_gone(&error) => {}
            Err(error) if has_no_room(&error) && refusals < MAX_REFUSALS => {
                refusals = refusals.saturating_add(1);
                thread::sleep(rt, Duration::from_millis(PAUSE));
            }
            Err(error) => return Err(error),
        }
    }
    Err(io::Error::from(ErrorKind::ConnectionAborted))
}

// Whether a signal interrupted the call, or the other end went before it was accepted.
fn has_gone(error: &io::Error) -> bool {
    matches!(
        error.kind(),
        ErrorKind::Interrupted | ErrorKind::ConnectionAborted
    )
}

// Whether the system had no room for one more connection, or for this one.
fn has_no_room(error: &io::Error) -> bool {
    matches!(
        error.raw_os_error(),
        Some(OUT_OF_MEMORY | TOO_MANY_FILES_OF_ALL | TOO_MANY_FILES | PROTOCOL_FAULT | NO_BUFFERS)
    )
}
