//! A server at an address, of which a person at a terminal is shown how far the copying is.
use crate::copying::Copying;
use blobref::{Listing, Octets, Ref};
use edge_os::Screen;
use peer_base::{Peer, PeerFault};

/// The server at an address. It is shown how far the copying from it or to it is; and of one of a round whose turn it
/// is, as it is asked for its first page, which is once in each half of a round: first as it is copied from, and then
/// as it is copied to.
#[derive(Drop)]
pub(crate) struct ShownPeer<'a, P> {
    screen: &'a Screen<'a>,
    address: &'a str,
    peer: P,
    copying: Copying<'a>,
    // Whether it is one of a round.
    is_of_round: bool,
    // Whether it was asked for a page so far.
    was_asked: bool,
    // Whether its last call was answered with an error, or a blob that it had listed was absent.
    has_refused: bool,
}

impl<'a, P> ShownPeer<'a, P> {
    /// The one that a command copies from or to.
    pub(crate) fn alone(screen: &'a Screen<'a>, address: &'a str, peer: P) -> ShownPeer<'a, P> {
        ShownPeer::new(screen, address, peer, false)
    }

    /// One of those of a round.
    pub(crate) fn of_round(screen: &'a Screen<'a>, address: &'a str, peer: P) -> ShownPeer<'a, P> {
        ShownPeer::new(screen, address, peer, true)
    }

    fn new(
        screen: &'a Screen<'a>,
        address: &'a str,
        peer: P,
        is_of_round: bool,
    ) -> ShownPeer<'a, P> {
        ShownPeer {
            screen,
            address,
            peer,
            copying: Copying::new(screen),
            is_of_round,
            was_asked: false,
            has_refused: false,
        }
    }

    /// Its address.
    pub(crate) fn address(&self) -> &'a str {
        self.address
    }

    /// Whether its last call was answered with an error, or a blob that it had listed was absent.
    pub(crate) fn has_refused(&self) -> bool {
        self.has_refused
    }

    // Says that it is this one's turn.
    fn tell_turn(&self) {
        if self.is_of_round {
            let way = if self.was_asked { "to" } else { "from" };
            self.screen
                .tell(format_args!("perkeep: copying {way} {}", self.address));
        }
    }
}

/// Each call is one of the peer at the address.
impl<'a, P: Peer> Peer for ShownPeer<'a, P> {
    ghost content = { λ p. P.content p.peer };

    ghost faults = { λ p. P.faults p.peer };

    ghost fills = { λ p. P.fills p.peer };

    ghost follows = { λ a b. P.follows a.peer b.peer };

    ghost puts = { λ a blobs b. P.puts a.peer blobs b.peer };

    ghost lists = { λ a after limit answer b. P.lists a.peer after limit answer b.peer };

    ghost fetches = { λ a r answer b. P.fetches a.peer r answer b.peer };

    ghost keeps = { λ a blob answer b. P.keeps a.peer blob answer b.peer };

    ghost puts_nothing = { λ p. P.puts_nothing p.peer };

    ghost puts_then = { λ a b c first second p q. P.puts_then a.peer b.peer c.peer first second p q };

    ghost puts_follows = { λ a b blobs p. P.puts_follows a.peer b.peer blobs p };

    ghost follows_then = { λ a b c p q. P.follows_then a.peer b.peer c.peer p q };

    fn blobs_are_small(&self) {
        self.peer.blobs_are_small();
    }

    fn list(&mut self, after: Option<&Ref>, limit: usize) -> Result<Listing, PeerFault> {
        if after.is_none() {
            self.tell_turn();
        }
        self.copying.goes_on_behind(after);
        self.was_asked = true;
        let listed = self.peer.list(after, limit);
        self.has_refused = listed.is_err();
        listed
    }

    fn fetch(&mut self, r: &Ref) -> Result<Option<Octets>, PeerFault> {
        let fetched = self.peer.fetch(r);
        self.has_refused = !matches!(fetched, Ok(Some(_)));
        self.copying.passes(r, !self.has_refused);
        fetched
    }

    fn put(&mut self, r: &Ref, bytes: &[u8]) -> Result<(), PeerFault> {
        let done = self.peer.put(r, bytes);
        self.has_refused = done.is_err();
        self.copying.passes(r, !self.has_refused);
        done
    }

    fn faults(&self) -> u64 {
        self.peer.faults()
    }
}
