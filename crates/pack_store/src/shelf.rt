//! A store as a shelf.
ghost use Rattle.std.specs.Prelude.{◌≡◌};
ghost use Rattle.pack_store.specs.Packs.{KeepsAll};
ghost use Rattle.pack_store.specs.Puts.{HasNoRoom};
ghost use Rattle.pack_store.specs.StoreShelf.{content_of, PutsStore, FetchesStore, ContentStands};
ghost use Rattle.pack_store.specs.RunLaws.{store_puts_nothing, store_puts_then, store_follows_then};

use crate::opened_laws::puts_last;
use crate::store::Store;
use blobref::{Octets, Ref};
use edge_base::{GetFault, Put, PutFault, Shelf};
use pack_disk::Disk;
use pack_format::MAX_SIZE;

/// It tells its arrivals where its disk tells its packs. A run of its calls is one after which a crash leaves what
/// every image held before. One that puts blobs also leaves them in every image, and puts them into the packs in their
/// order (`docs/store.md`); one that puts none leaves the arrivals as they are. A blob that is fetched is absent
/// exactly where its ref hasn't arrived, whether the disk tells or not.
impl<D: Disk> Shelf for Store<D> {
    ghost content = { λ s. content_of D.Disk s };

    ghost faults = { λ s. D.faults s.disk };

    ghost fills = { λ s blob blobs pack. HasNoRoom D.Disk s.limits s blob blobs pack };

    ghost follows = { λ a b. KeepsAll D.Disk a.disk b.disk };

    ghost puts = { λ a blobs b. PutsStore D.Disk a blobs b };

    ghost fetches = { λ a r answer b. FetchesStore D.Disk a r answer b };

    ghost puts_nothing = { λ s. store_puts_nothing _ D.counts_now D.only_now s };

    ghost puts_then = { λ a b c first second. store_puts_then _ D.counts_now D.only_now a b c first second };

    ghost puts_follows = { λ a b blobs p. p.crash };

    ghost follows_then = { λ a b c. store_follows_then _ D.counts_now D.only_now a b c };

    fn fetch(&mut self, r: &Ref) -> Result<Option<Octets>, GetFault> {
        self.get(r)
    }

    /// The number in the answer is that of the arrival.
    fn keep(&mut self, r: &Ref, bytes: &[u8]) -> Result<Put, PutFault> {
        let size = bytes.len() as u64;
        if size > MAX_SIZE {
            return Err(PutFault::TooBig { size });
        }
        puts_last::<D>();
        self.put_own(r, bytes)
    }

    fn faults(&self) -> u64 {
        self.disk.faults()
    }
}

/// What a store tells as a shelf is the content of its disk's packs, where it is as its disk says (`docs/store.md`).
#[tactic(auto, using(crate::proofs::StoreShelf::content_stands))]
pub fn content_stands<D: Disk>()
    ensures { ContentStands D.Disk }
{}
