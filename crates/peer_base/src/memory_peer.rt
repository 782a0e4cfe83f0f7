//! A peer in memory, whose calls fail by a list.
ghost use Rattle.std.specs.Prelude.{◌≡◌, Some, None};
ghost use Rattle.std.specs.FinMap as finite;
ghost use Rattle.std.specs.Option.{ForSome};
ghost use Rattle.edge_base.specs.ShelfLaws.{ArePut, IsRun, put_nothing, put_then, runs_then};
ghost use Rattle.edge_base.specs.Calls.{no_calls};
ghost use Rattle.peer_base.specs.Blobs.{AreHeld};
ghost use Rattle.peer_base.specs.Memory.{IsListed, IsFetched, IsKept};

use crate::held::Rack;
use crate::peer::{Peer, PeerFault};
use blobref::{Listing, Octets, Ref};
use edge_base::{CallList, Calls};
use std::alloc::Global;
use std::marker::Model;

/// A peer in memory. A contract sees its blobs under their refs, and its calls.
#[derive(Drop)]
pub struct MemPeer {
    rack: Rack,
    calls: Calls,
}

impl Model for MemPeer {
    ghost use Rattle.edge_base.specs.Memory.{Rack as Held, rack_code};

    ghost Value = { Held };

    ghost coded = { rack_code };

    ghost view = { λ p. record { rack = p.rack; calls = p.calls } };
}

impl MemPeer {
    /// A peer without blobs. Its calls whose numbers are in the list fail: `list`, `fetch` and `put` then answer
    /// `Failed`, and change nothing else.
    pub fn empty(alloc: Global, fails: CallList) -> MemPeer
        ensures { result ≡ record { rack = finite.empty; calls = no_calls fails None } }
    {
        MemPeer {
            rack: Rack::empty(alloc),
            calls: Calls::of(fails, None),
        }
    }
}

/// It tells its blobs, and never is full. A run of its calls puts the blobs that were put into the map, and does
/// nothing else. `Failed` comes exactly where the call is to fail; `list`, `fetch` and `put` are counted alike.
impl Peer for MemPeer {
    ghost content = { λ p. Some p.rack };

    ghost faults = { λ p. p.calls.faults };

    ghost fills = { λ p blob blobs pack. ⊥ };

    ghost follows = { λ a b. IsRun a.rack b.rack };

    ghost puts = { λ a blobs b. ArePut a.rack blobs b.rack };

    ghost lists = { λ a after limit answer b. IsListed a.rack a.calls after limit answer b.rack b.calls };

    ghost fetches = { λ a r answer b. IsFetched a.rack a.calls r answer b.rack b.calls };

    ghost keeps = { λ a blob answer b. IsKept a.rack a.calls blob answer b.rack b.calls };

    ghost puts_nothing = { λ p. put_nothing p.rack };

    ghost puts_then = { λ a b c first second p q. put_then a.rack b.rack c.rack first second p q };

    ghost puts_follows = { λ a b blobs p. (blobs, p) };

    ghost follows_then = { λ a b c p q. runs_then a.rack b.rack c.rack p q };

    fn blobs_are_small(&self)
        ensures { ForSome (Some self.now.rack) AreHeld }
    {
        self.rack.are_held();
    }

    fn list(&mut self, after: Option<&Ref>, limit: usize) -> Result<Listing, PeerFault> {
        if self.calls.begin().is_err() {
            return Err(PeerFault::Failed);
        }
        Ok(self.rack.list(after, limit)?)
    }

    fn fetch(&mut self, r: &Ref) -> Result<Option<Octets>, PeerFault> {
        if self.calls.begin().is_err() {
            return Err(PeerFault::Failed);
        }
        Ok(self.rack.fetch(r)?)
    }

    fn put(&mut self, r: &Ref, bytes: &[u8]) -> Result<(), PeerFault> {
        if self.calls.begin().is_err() {
            return Err(PeerFault::Failed);
        }
        Ok(self.rack.keep(r, bytes)?)
    }

    fn faults(&self) -> u64 {
        self.calls.faults()
    }
}
