//! A peer over HTTP.
ghost use Rattle.std.specs.Prelude.{◌≡◌, None, IfOk};
ghost use Rattle.peer_http.specs.Calls.{ListsOver, FetchesOver, KeepsOver};
ghost use Rattle.peer_http.specs.Links.{both, unread};

use crate::calls;
use crate::link::Link;
use blobref::{Listing, NoMemory, Octets, Ref};
use edge_base::{Sink, Source};
use peer_base::{Peer, PeerFault};
use std::alloc::Global;
use std::marker::Model;

/// A peer that is asked over HTTP, on one connection (`docs/sync.md`). It keeps one buffer for requests, which is as
/// long as the longest one so far, and some 235 KiB for reading. A contract sees the reader of the connection, the
/// source that this reads and the sink that requests go to.
#[derive(Drop)]
pub struct WirePeer<S: Source, K: Sink> {
    link: Link<S, K>,
    request: Vec<u8>,
}

impl<S: Source, K: Sink> Model for WirePeer<S, K> {
    ghost use Rattle.peer_http.specs.Links.{LinkView};

    ghost Value = { LinkView S K };

    ghost view = { λ p. p.link };
}

impl<S: Source + Drop, K: Sink + Drop> WirePeer<S, K> {
    /// The peer at the other end of a connection, of which nothing was read. It fails for want of memory
    /// alone, and its ends are dropped then.
    pub fn make(alloc: Global, source: S, sink: K) -> Result<WirePeer<S, K>, NoMemory>
        ensures { IfOk result (λ peer. peer ≡ unread source sink) }
    {
        let link = Link::make(alloc, source, sink)?;
        Ok(WirePeer {
            link,
            request: Vec::new(alloc),
        })
    }
}

/// It doesn't tell what it holds, and never is full. Each call writes one request, in one piece where the sink takes it
/// so, and reads one reply, which begins with the first byte that no call has taken. `Failed` is a fault of the source
/// or of the sink. `BadReply` comes where what is read is no reply, has too long a body, or doesn't say what was asked,
/// and `Refused` where its status is another than 200, and for `fetch` another than 404.
impl<S: Source, K: Sink> Peer for WirePeer<S, K> {
    ghost content = { λ p. None };

    ghost faults = { λ p. both (S.faults p.source) (K.faults p.sink) };

    ghost fills = { λ p blob blobs pack. ⊥ };

    ghost follows = { λ a b. Unit {0} };

    ghost puts = { λ a blobs b. Unit {0} };

    ghost lists = { λ a after limit answer b. ListsOver S.left K.written a after limit answer b };

    ghost fetches = { λ a r answer b. FetchesOver S.left K.written a r answer b };

    ghost keeps = { λ a blob answer b. KeepsOver S.left K.written a blob answer b };

    ghost puts_nothing = { λ p. tt };

    ghost puts_then = { λ a b c first second p q. tt };

    ghost puts_follows = { λ a b blobs p. tt };

    ghost follows_then = { λ a b c p q. tt };

    fn blobs_are_small(&self) {}

    fn list(&mut self, after: Option<&Ref>, limit: usize) -> Result<Listing, PeerFault> {
        calls::list(&mut self.link, &mut self.request, after, limit)
    }

    fn fetch(&mut self, r: &Ref) -> Result<Option<Octets>, PeerFault> {
        calls::fetch(&mut self.link, &mut self.request, r)
    }

    fn put(&mut self, r: &Ref, bytes: &[u8]) -> Result<(), PeerFault> {
        calls::put(&mut self.link, &mut self.request, r, bytes)
    }

    fn faults(&self) -> u64 {
        self.link.faults()
    }
}
