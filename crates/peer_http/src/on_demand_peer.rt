//! A peer whose connection is made at its first call.
ghost use Rattle.std.specs.Prelude.{◌≡◌, ◌≤◌, Some, None, length, IsErrOf};
ghost use Rattle.edge_base.specs.Edge.{FaultsRose};
ghost use Rattle.peer_base.specs.declared.peer.PeerFault.TheVariants as fault;
ghost use Rattle.peer_http.specs.Calls.{ListsOver, FetchesOver, KeepsOver};
ghost use Rattle.peer_http.specs.Dialing.{Takes, IsDialed, count_after};
ghost use Rattle.peer_http.specs.Links.{link_faults};

use crate::dialer::Dialer;
use crate::wire_peer::WirePeer;
use blobref::{Listing, NoMemory, Octets, Ref};
use peer_base::{Peer, PeerFault};
use std::alloc::Global;
use std::marker::Model;

/// A peer over HTTP that gets its ends from a dialer (`docs/sync.md`). It takes these, and the memory of a
/// [`WirePeer`], at its first call, and keeps them. A contract sees the dialer, the connection, where there is one so
/// far, and how many calls have failed.
#[derive(Drop)]
pub struct OnDemandPeer<D: Dialer> {
    alloc: Global,
    dialer: D,
    peer: Option<WirePeer<D::In, D::Out>>,
    faults: u64,
}

impl<D: Dialer> Model for OnDemandPeer<D> {
    ghost use Rattle.peer_http.specs.Dialing.{OnDemand};

    ghost Value = { OnDemand D D.In D.Out };

    ghost view = { λ p. record { dialer = p.dialer; link = p.peer; faults = p.faults } };
}

impl<D: Dialer> OnDemandPeer<D> {
    /// The peer that the dialer leads to, which nobody has asked so far. Nothing is done.
    pub fn new(alloc: Global, dialer: D) -> OnDemandPeer<D>
        ensures { result ≡ record { dialer = dialer; link = None; faults = 0 } }
    {
        OnDemandPeer {
            alloc,
            dialer,
            peer: None,
            faults: 0,
        }
    }

    // The peer to ask, which is to be put back.
    fn take(&mut self) -> Result<WirePeer<D::In, D::Out>, NoMemory>
        ensures taken { Takes D.gives D.Out.written self.old.dialer self.old.link self.new.dialer result }
        ensures away { self.new.link ≡ None }
        ensures same { self.new.faults ≡ self.old.faults }
    {
        match self.peer.take() {
            Some(peer) => Ok(peer),
            None => {
                let (source, sink) = self.dialer.ends()?;
                WirePeer::make(self.alloc, source, sink)
            }
        }
    }

    // Puts the peer that was asked back. A failure is counted.
    fn give_back<T: Drop>(
        &mut self,
        peer: WirePeer<D::In, D::Out>,
        answer: Result<T, PeerFault>,
    ) -> Result<T, PeerFault>
        ensures same { result ≡ answer }
        ensures back { self.new ≡ record {
          dialer = self.old.dialer;
          link = Some peer;
          faults = count_after answer self.old.faults;
        } }
        ensures later { self.old.faults ≤ self.new.faults }
        ensures rose { IsErrOf result fault.Failed → FaultsRose self.old.faults self.new.faults }
    {
        self.peer = Some(peer);
        if matches!(answer, Err(PeerFault::Failed)) {
            self.faults = self.faults.saturating_add(1);
        }
        answer
    }
}

/// Each call is one of a [`WirePeer`] over the ends that it has. Where it has none so far it takes new ones; if there
/// is no memory for them the call answers `NoMemory`, has asked nothing, and the next one tries again. Each `Failed`,
/// which is a fault of an end, and nothing else, counts one. It doesn't tell what it holds, and never is full.
impl<D: Dialer> Peer for OnDemandPeer<D> {
    ghost content = { λ p. None };

    ghost faults = { λ p. p.faults };

    ghost fills = { λ p blob blobs pack. ⊥ };

    ghost follows = { λ a b. Unit {0} };

    ghost puts = { λ a blobs b. Unit {0} };

    ghost lists = { λ a after limit answer b. IsDialed D.gives D.Out.written (link_faults D.In.faults D.Out.faults)
        (λ link given link_now. ListsOver D.In.left D.Out.written link after limit given link_now) a answer b };

    ghost fetches = { λ a r answer b. IsDialed D.gives D.Out.written (link_faults D.In.faults D.Out.faults)
        (λ link given link_now. FetchesOver D.In.left D.Out.written link r given link_now) a answer b };

    ghost keeps = { λ a blob answer b. IsDialed D.gives D.Out.written (link_faults D.In.faults D.Out.faults)
        (λ link given link_now. KeepsOver D.In.left D.Out.written link blob given link_now) a answer b };

    ghost puts_nothing = { λ p. tt };

    ghost puts_then = { λ a b c first second p q. tt };

    ghost puts_follows = { λ a b blobs p. tt };

    ghost follows_then = { λ a b c p q. tt };

    fn blobs_are_small(&self) {}

    fn list(&mut self, after: Option<&Ref>, limit: usize) -> Result<Listing, PeerFault> {
        let mut peer = self.take()?;
        let listed = peer.list(after, limit);
        self.give_back(peer, listed)
    }

    fn fetch(&mut self, r: &Ref) -> Result<Option<Octets>, PeerFault> {
        let mut peer = self.take()?;
        let fetched = peer.fetch(r);
        self.give_back(peer, fetched)
    }

    fn put(&mut self, r: &Ref, bytes: &[u8]) -> Result<(), PeerFault> {
        let mut peer = self.take()?;
        let done = peer.put(r, bytes);
        self.give_back(peer, done)
    }

    fn faults(&self) -> u64 {
        self.faults
    }
}
