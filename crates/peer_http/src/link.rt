//! A connection to a peer.
ghost use Rattle.std.specs.Prelude.{◌≡◌, ◌<◌, ◌≤◌, length, IfOk, IsErrOf};
ghost use Rattle.edge_base.specs.Edge.{FaultsRose};
ghost use Rattle.peer_http.specs.Links.{Asks, both, unread};

use crate::gathering::ReplyFault;
use crate::replies::{Reply, read_reply};
use blobref::NoMemory;
use edge_base::{Failed, Sink, Source, write_all};
use http_wire::Wire;
use std::alloc::{AllocError, Global};
use std::marker::Model;

/// The most bytes of a body that are read at a time.
const PIECE: usize = 16_384;

/// A connection, with all buffers that reading from it needs. A contract sees the reader of it, where that one's bytes
/// come from, and where requests go to.
#[derive(Drop)]
pub(crate) struct Link<S: Source, K: Sink> {
    alloc: Global,
    wire: Wire,
    source: S,
    sink: K,
    space: Vec<u8>,
}

impl<S: Source, K: Sink> Model for Link<S, K> {
    ghost use Rattle.std.specs.Prelude.{◌≡◌, length};
    ghost use Rattle.peer_http.specs.Links.{LinkView};

    ghost Value = { LinkView S K };

    ghost view = { λ l. record { wire = l.wire; source = l.source; sink = l.sink } };

    ghost invariant = { λ l. length l.space.items ≡ 16384 };
}

impl<S: Source + Drop, K: Sink + Drop> Link<S, K> {
    /// A connection of which nothing was read. Where there is no memory its ends are dropped.
    pub(crate) fn make(alloc: Global, source: S, sink: K) -> Result<Link<S, K>, NoMemory>
        ensures { IfOk result (λ link. link ≡ unread source sink) }
    {
        let wire = Wire::make(alloc)?;
        let space = zeros(alloc)?;
        Ok(Link {
            alloc,
            wire,
            source,
            sink,
            space,
        })
    }
}

impl<S: Source, K: Sink> Link<S, K> {
    /// Writes a request, and reads the reply, with a body of at most `most` bytes.
    pub(crate) fn ask(&mut self, request: &[u8], most: usize) -> Result<Reply, ReplyFault>
        ensures asks { Asks most (S.left self.old.source) (S.left self.new.source) (K.written self.old.sink)
            (K.written self.new.sink) self.old.wire self.new.wire request.now result }
        ensures fault { IsErrOf result ReplyFault.Failed
            → FaultsRose (both (S.faults self.old.source) (K.faults self.old.sink))
            (both (S.faults self.new.source) (K.faults self.new.sink)) }
        ensures later { both (S.faults self.old.source) (K.faults self.old.sink)
            ≤ both (S.faults self.new.source) (K.faults self.new.sink) }
    {
        let buf = self.space.as_mut_slice();
        exchange(
            self.alloc,
            &mut self.wire,
            &mut self.source,
            &mut self.sink,
            buf,
            request,
            most,
        )
    }

    /// The allocator.
    pub(crate) fn alloc(&self) -> Global {
        self.alloc
    }

    /// How often both ways failed, at most the last value of the type.
    pub(crate) fn faults(&self) -> u64
        ensures { result ≡ both (S.faults self.now.source) (K.faults self.now.sink) }
    {
        self.source.faults().saturating_add(self.sink.faults())
    }
}

// Writes a request, and reads the reply.
fn exchange<S: Source, K: Sink>(
    alloc: Global,
    wire: &mut Wire,
    source: &mut S,
    sink: &mut K,
    buf: &mut [u8],
    request: &[u8],
    most: usize,
) -> Result<Reply, ReplyFault>
    requires { 0 < length buf.old }
    ensures asks { Asks most (S.left source.old) (S.left source.new) (K.written sink.old) (K.written sink.new)
        wire.old wire.new request.now result }
    ensures fault { IsErrOf result ReplyFault.Failed → FaultsRose (both (S.faults source.old) (K.faults sink.old))
        (both (S.faults source.new) (K.faults sink.new)) }
    ensures later { both (S.faults source.old) (K.faults sink.old) ≤ both (S.faults source.new) (K.faults sink.new) }
{
    match write_all(sink, request) {
        Ok(()) => {}
        Err(Failed) => return Err(ReplyFault::Failed),
    }
    read_reply(alloc, wire, source, buf, most)
}

// Room for one piece.
fn zeros(alloc: Global) -> Result<Vec<u8>, AllocError>
    ensures { IfOk result (λ bytes. length bytes.items ≡ 16384) }
{
    vec![in alloc; 0; PIECE]
}
