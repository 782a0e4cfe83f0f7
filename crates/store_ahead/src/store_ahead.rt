//! A store that reads ahead.
ghost use Rattle.std.specs.Prelude.{◌≡◌, ◌≤◌, IfSome};
ghost use Rattle.pack_store.specs.Packs.{KeepsAll};
ghost use Rattle.pack_store.specs.Puts.{HasNoRoom};
ghost use Rattle.pack_store.specs.StoreShelf.{content_of, PutsStore, FetchesStore};
ghost use Rattle.pack_store.specs.RunLaws.{store_puts_nothing, store_puts_then, store_follows_then};
ghost use Rattle.store_ahead.specs.Ahead.{IsHeld};

use crate::next::{next_refs, read_blobs};
use blob_checks::own_count;
use blobref::{Octets, Ref};
use edge_base::{GetFault, Put, PutFault, Shelf};
use file_tree::PartShelf;
use pack_disk::Disk;
use pack_store::Store;
use schema_fact::Part;
use std::alloc::Global;
use std::marker::Model;

/// A store that reads the blobs of the next requests several at a time, and checks them together (`docs/files.md`). It
/// answers as the store does, and a contract sees the store. It holds up to 64 blobs, of at most 8 MiB together.
#[derive(Drop)]
pub struct StoreAhead<D: Disk> {
    alloc: Global,
    store: Store<D>,
    // Blobs of the store, each under its own ref. The last one is the next to be requested.
    ahead: Vec<(Ref, Octets)>,
}

impl<D: Disk> Model for StoreAhead<D> {
    ghost use Rattle.std.specs.Prelude.{All};
    ghost use Rattle.pack_store.specs.Archive.{Archive};
    ghost use Rattle.store_ahead.specs.Ahead.{IsHeld};

    ghost Value = { Archive D };

    ghost view = { λ a. a.store };

    ghost invariant = { λ a. All (IsHeld D.Disk a.store) a.ahead.items };
}

impl<D: Disk> StoreAhead<D> {
    /// Wraps a store. Nothing was read ahead.
    pub fn over(alloc: Global, store: Store<D>) -> StoreAhead<D>
        ensures { result ≡ store }
    {
        StoreAhead {
            alloc,
            store,
            ahead: Vec::new(alloc),
        }
    }

    /// The store, unchanged.
    pub fn back(self) -> Store<D>
        ensures { result ≡ self }
    {
        self.store
    }

    // The bytes of the next blob, if it has this ref. If it hasn't, all blobs that were read ahead are dropped.
    fn take_next(&mut self, r: &Ref) -> Option<Octets>
        ensures held { IfSome result (λ bytes. IsHeld D.Disk self.old (r.now, bytes)) }
        ensures same { self.new ≡ self.old }
    {
        let (next, bytes) = self.ahead.pop()?;
        if next == *r {
            return Some(bytes);
        }
        self.ahead.clear();
        None
    }
}

/// The same shelf as the store.
impl<D: Disk> Shelf for StoreAhead<D> {
    ghost content = { λ a. content_of D.Disk a };

    ghost faults = { λ a. D.faults a.disk };

    ghost fills = { λ a blob blobs pack. HasNoRoom D.Disk a.limits a blob blobs pack };

    ghost follows = { λ a b. KeepsAll D.Disk a.disk b.disk };

    ghost puts = { λ a blobs b. PutsStore D.Disk a blobs b };

    ghost fetches = { λ a r answer b. FetchesStore D.Disk a r answer b };

    ghost puts_nothing = { λ a. store_puts_nothing _ D.counts_now D.only_now a };

    ghost puts_then = { λ a b c first second. store_puts_then _ D.counts_now D.only_now a b c first second };

    ghost puts_follows = { λ a b blobs p. p.crash };

    ghost follows_then = { λ a b c. store_follows_then _ D.counts_now D.only_now a b c };

    fn fetch(&mut self, r: &Ref) -> Result<Option<Octets>, GetFault> {
        match self.take_next(r) {
            Some(bytes) => Ok(Some(bytes)),
            None => self.store.fetch(r),
        }
    }

    fn keep(&mut self, r: &Ref, bytes: &[u8]) -> Result<Put, PutFault> {
        self.ahead.clear();
        self.store.keep(r, bytes)
    }

    fn faults(&self) -> u64 {
        self.store.faults()
    }
}

impl<D: Disk> PartShelf for StoreAhead<D> {
    fn look_ahead(&mut self, parts: &[Part], from: u64, count: u64) {
        if !self.ahead.is_empty() {
            return;
        }
        let Ok(refs) = next_refs(self.alloc, parts, from, count) else {
            return;
        };
        let mut blobs = read_blobs(self.alloc, &mut self.store, refs.as_slice());
        let own = own_count(&blobs);
        blobs.truncate(own);
        blobs.as_mut_slice().reverse();
        self.ahead = blobs;
    }
}
