//! Blobs under their refs, in memory.
ghost use Rattle.std.specs.Prelude.{◌≡◌, ◌≤◌, length, OnOk, OnErr, IfOk, IfSome, option_copied};
ghost use Rattle.std.specs.FinMap as finite;
ghost use Rattle.blobref.specs.Blobref.{IsOwnRef};
ghost use Rattle.edge_base.specs.Shelf.{max_blob, with_blob};
ghost use Rattle.peer_base.specs.Blobs.{AreHeld, listed};
ghost use Rattle.peer_base.specs.Memory.{page_from, bound_of};

use blobref::{Listing, NoMemory, Octets, Ref};
use edge_base::BlobMap;
use std::alloc::Global;
use std::marker::Model;
use std::ops::Bound;

// Blobs under refs of their own, none too long. A contract sees it as the map.
#[derive(Drop)]
pub(crate) struct Rack {
    alloc: Global,
    held: BlobMap,
}

impl Model for Rack {
    ghost use Rattle.std.specs.FinMap as finite;
    ghost use Rattle.std.specs.Coded.{coded_ℕ, coded_list};
    ghost use Rattle.edge_base.specs.Shelf.{Blobs};
    ghost use Rattle.peer_base.specs.Blobs.{AreBlobs};

    ghost Value = { Blobs };

    ghost coded = { finite.code (coded_list coded_ℕ) (coded_list coded_ℕ) };

    ghost view = { λ k. k.held };

    ghost invariant = { λ k. AreBlobs k.held };
}

impl Rack {
    // No blobs.
    pub(crate) fn empty(alloc: Global) -> Rack
        ensures { result ≡ finite.empty }
    {
        Rack {
            alloc,
            held: BlobMap::empty(alloc),
        }
    }

    // A copy of the bytes of a ref.
    pub(crate) fn fetch(&self, r: &Ref) -> Result<Option<Octets>, NoMemory>
        ensures found { IfOk result (λ found. found ≡ finite.get self.now r.now) }
        ensures named { IfOk result (λ found. IfSome found (λ bytes. IsOwnRef r.now bytes)) }
        ensures small { IfOk result (λ found. IfSome found (λ bytes. length bytes ≤ max_blob)) }
    {
        match self.held.get(r) {
            Some(bytes) => Ok(Some(Octets::copy(self.alloc, bytes.as_slice())?)),
            None => Ok(None),
        }
    }

    // Keeps a copy of the bytes under their own ref, where that isn't there. Where there is no memory nothing changes.
    pub(crate) fn keep(&mut self, r: &Ref, bytes: &[u8]) -> Result<(), NoMemory>
        requires own { IsOwnRef r.now bytes.now }
        requires small { length bytes.now ≤ max_blob }
        ensures ok { OnOk result (self.new ≡ with_blob self.old (r.now, bytes.now)) }
        ensures err { OnErr result (self.new ≡ self.old) }
    {
        if self.held.get(r).is_some() {
            return Ok(());
        }
        self.held.insert(r, Octets::copy(self.alloc, bytes)?)?;
        Ok(())
    }

    // The refs that are greater, the first of them.
    pub(crate) fn list(&self, after: Option<&Ref>, limit: usize) -> Result<Listing, NoMemory>
        ensures { IfOk result (λ page. page ≡ listed (option_copied after.entry) limit self.now) }
    {
        list_blobs(self.alloc, &self.held, start_of(after), limit)
    }

    // A law: they are what a peer may hold.
    pub(crate) fn are_held(&self)
        ensures { AreHeld self.now }
    {
        let _len = self.held.len();
    }
}

// The first refs from a start on, with the sizes of their blobs.
fn list_blobs(
    alloc: Global,
    blobs: &BlobMap,
    start: Bound<Ref>,
    limit: usize,
) -> Result<Listing, NoMemory>
    ensures { IfOk result (λ page. page ≡ page_from start limit blobs.now) }
{
    let mut listing = Listing::empty(alloc);
    for (r, bytes) in blobs.range_from(start) {
        if listing.len() == limit {
            break;
        }
        listing.push((*r, bytes.as_slice().len() as u64))?;
    }
    Ok(listing)
}

// What a list begins with.
fn start_of(after: Option<&Ref>) -> Bound<Ref>
    ensures { result ≡ bound_of (option_copied after.entry) }
{
    match after {
        Some(after) => Bound::Excluded(*after),
        None => Bound::Unbounded,
    }
}
