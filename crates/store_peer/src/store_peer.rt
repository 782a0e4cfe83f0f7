//! A store as a peer.
ghost use Rattle.std.specs.Prelude.{◌≡◌, ◌≤◌, ◌∷◌, [], length, IfOk, IfSome, OnOk, OnErr, option_copied};
ghost use Rattle.std.specs.Option.{ForSome, option_map};
ghost use Rattle.blobref.specs.Blobref.{IsOwnRef};
ghost use Rattle.edge_base.specs.Shelf.{max_blob};
ghost use Rattle.pack_store.specs.RunLaws.{store_puts_nothing, store_puts_then, store_follows_then};
ghost use Rattle.peer_base.specs.Blobs.{AreHeld, IsPage, listed};
ghost use Rattle.peer_base.specs.Causes.{ListCause, FetchCause, PutLeaves, MayKeep};
ghost use Rattle.store_peer.specs.Faults.{IsOfPeer, get_fault, put_fault};
ghost use Rattle.store_peer.specs.StorePeer.{peer_of};

use blobref::{Listing, Octets, Ref};
use edge_base::{GetFault, PutFault};
use pack_disk::Disk;
use pack_store::{Store, puts_last};
use peer_base::{Peer, PeerFault};
use std::marker::Model;

/// A store that is asked as a peer. A contract sees the store.
#[derive(Drop)]
pub struct StorePeer<D: Disk> {
    store: Store<D>,
}

impl<D: Disk> Model for StorePeer<D> {
    ghost use Rattle.pack_store.specs.Archive.{Archive};

    ghost Value = { Archive D };

    ghost view = { λ p. p.store };
}

impl<D: Disk> StorePeer<D> {
    /// The peer of a store.
    pub fn over(store: Store<D>) -> StorePeer<D>
        ensures { result ≡ store }
    {
        StorePeer { store }
    }

    /// The store again. Nothing is done to it.
    pub fn back(self) -> Store<D>
        ensures { result ≡ self }
    {
        self.store
    }
}

/// It tells its arrivals where its disk tells its packs, and is full as its store is. `Failed` is its disk's fault.
/// Whether its disk tells or not, each call is one of its store: a page is that of all refs that have arrived, a ref
/// is absent exactly where it isn't one of them, and neither `BadReply` nor `Refused` comes.
impl<D: Disk> Peer for StorePeer<D> {
    ghost content = { (peer_of D.Disk).content };

    ghost faults = { (peer_of D.Disk).faults };

    ghost fills = { (peer_of D.Disk).fills };

    ghost follows = { (peer_of D.Disk).follows };

    ghost puts = { (peer_of D.Disk).puts };

    ghost lists = { (peer_of D.Disk).lists };

    ghost fetches = { (peer_of D.Disk).fetches };

    ghost keeps = { (peer_of D.Disk).keeps };

    ghost puts_nothing = { λ p. store_puts_nothing _ D.counts_now D.only_now p };

    ghost puts_then = { λ a b c first second. store_puts_then _ D.counts_now D.only_now a b c first second };

    ghost puts_follows = { λ a b blobs p. p.crash };

    ghost follows_then = { λ a b c. store_follows_then _ D.counts_now D.only_now a b c };

    fn blobs_are_small(&self) {
        self.store.arrivals_are_held();
        // The contract of `count` says that it is a `u64`.
        let _count = self.store.count();
    }

    fn list(&mut self, after: Option<&Ref>, limit: usize) -> Result<Listing, PeerFault> {
        self.store.arrivals_are_held();
        let page = self.store.list(after, limit)?;
        Ok(page)
    }

    fn fetch(&mut self, r: &Ref) -> Result<Option<Octets>, PeerFault> {
        self.store.arrivals_are_held();
        let found = match self.store.find(r) {
            Ok(found) => found,
            Err(fault) => return Err(get_fault(fault)),
        };
        let found = match found {
            Some(found) => found,
            None => return Ok(None),
        };
        let checked = match found.checked() {
            Ok(checked) => checked,
            Err(damage) => return Err(get_fault(damage)),
        };
        Ok(Some(checked.1))
    }

    /// As `Store::put_own`, but that no blob is too long.
    fn put(&mut self, r: &Ref, bytes: &[u8]) -> Result<(), PeerFault> {
        puts_last::<D>();
        match self.store.put_own(r, bytes) {
            Ok(_) => Ok(()),
            Err(fault) => Err(put_fault(fault)),
        }
    }

    fn faults(&self) -> u64 {
        self.store.faults()
    }
}

fn get_fault(fault: GetFault) -> PeerFault
    ensures { result ≡ get_fault fault }
{
    match fault {
        GetFault::Disk => PeerFault::Failed,
        GetFault::Damaged { want, is } => PeerFault::Damaged { want, is },
        GetFault::NoMemory => PeerFault::NoMemory,
    }
}

// A blob that is put is neither too long nor under another ref.
fn put_fault(fault: PutFault) -> PeerFault
    requires { IsOfPeer fault }
    ensures { result ≡ put_fault fault }
{
    match fault {
        PutFault::Full { blobs, pack } => PeerFault::Full { blobs, pack },
        PutFault::Disk => PeerFault::Failed,
        PutFault::NoMemory => PeerFault::NoMemory,
        PutFault::TooBig { .. } | PutFault::BadDigest { .. } => unreachable!(),
    }
}
