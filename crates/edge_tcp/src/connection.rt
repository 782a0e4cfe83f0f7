//! The two ends of a connection over TCP, which wait for their client with patience (`docs/server.md`, "Connections").
use crate::at_door::{AtDoor, Ear};
use crate::lingering::linger;
use crate::patience::{Allowance, Patience, Progress};
use crate::waiting::{Watch, hear, set_up, tell};
use edge_os::{ReadSource, WriteSink};
use http_admission::Door;
use std::alloc::Global;
use std::io::{self, ErrorKind, Read, Write};
use std::net::TcpStream;
use std::sync::Arc;
use std::sync::atomic::{AtomicBool, Ordering};

/// What the other end of a connection says, as far as it is heard.
pub type TcpIn<'a> = ReadSource<AtDoor<ReadHalf<'a>>>;

/// What it is told.
pub type TcpOut<'a> = WriteSink<WriteHalf<'a>>;

/// Both ends of a connection that was accepted at a door.
pub(crate) fn ends_of<'a>(
    rt: &'a HostRuntime,
    stream: TcpStream,
    door: Door,
) -> io::Result<(TcpIn<'a>, TcpOut<'a>)> {
    set_up(&stream)?;
    let ours = Shared {
        stream,
        was_told: AtomicBool::new(false),
        allowance: Allowance::at(door),
    };
    let Ok(ours) = Arc::new(rt.alloc(), ours) else {
        return Err(io::Error::from(ErrorKind::OutOfMemory));
    };
    let theirs = Arc::try_clone(&ours)?;
    let door = AtDoor::new(
        rt.alloc(),
        door,
        ReadHalf::new(rt, ours, Patience::at_first(door)),
    );
    Ok((
        ReadSource::new(door),
        WriteSink::new(WriteHalf::new(rt, theirs)),
    ))
}

// What both ends have.
#[derive(Drop)]
struct Shared {
    stream: TcpStream,
    // Whether the client was told anything since it was heard last.
    was_told: AtomicBool,
    allowance: Allowance,
}

/// A socket that is read. A read fails once the client was waited for too long. Where it is dropped the client is told
/// that nothing more comes, and what that one still says is read, for a second at most: a socket that is closed over
/// bytes that nobody read takes the last reply from the one who sent them. A client that wasn't let in was told
/// nothing, and isn't waited for.
pub struct ReadHalf<'a> {
    rt: &'a HostRuntime,
    shared: Arc<Shared, Global>,
    patience: Patience,
    lingers: bool,
}

impl<'a> ReadHalf<'a> {
    fn new(rt: &'a HostRuntime, shared: Arc<Shared, Global>, patience: Patience) -> ReadHalf<'a> {
        ReadHalf {
            rt,
            shared,
            patience,
            lingers: true,
        }
    }
}

impl<'a> Read for ReadHalf<'a> {
    fn read(&mut self, buf: &mut [u8]) -> io::Result<usize> {
        if self.shared.was_told.swap(false, Ordering::Relaxed) {
            self.patience = Patience::behind_a_reply();
        }
        let shared = &self.shared;
        hear(
            self.rt,
            &shared.stream,
            &mut self.patience,
            &shared.allowance,
            Watch::new(),
            buf,
        )
    }
}

impl<'a> Ear for ReadHalf<'a> {
    fn admitted(&mut self) {
        self.patience = Patience::within_a_message();
    }

    fn refused(&mut self) {
        self.lingers = false;
    }
}

impl<'a> Drop for ReadHalf<'a> {
    fn drop(self) {
        if self.lingers {
            linger(self.rt, &self.shared.stream);
        }
        let ReadHalf {
            rt: _,
            shared: _,
            patience: _,
            lingers: _,
        } = self;
    }
}

/// A socket that is written to. A write fails once the client took too little for too long. It may take less than it is
/// given, as whoever reads slowly makes room for.
#[derive(Drop)]
pub struct WriteHalf<'a> {
    rt: &'a HostRuntime,
    shared: Arc<Shared, Global>,
    progress: Progress,
}

impl<'a> WriteHalf<'a> {
    fn new(rt: &'a HostRuntime, shared: Arc<Shared, Global>) -> WriteHalf<'a> {
        WriteHalf {
            rt,
            shared,
            progress: Progress::new(),
        }
    }
}

impl<'a> Write for WriteHalf<'a> {
    fn write(&mut self, buf: &[u8]) -> io::Result<usize> {
        self.shared.was_told.store(true, Ordering::Relaxed);
        let shared = &self.shared;
        tell(
            self.rt,
            &shared.stream,
            &mut self.progress,
            &shared.allowance,
            buf,
        )
    }

    fn flush(&mut self) -> io::Result<()> {
        Ok(())
    }
}
