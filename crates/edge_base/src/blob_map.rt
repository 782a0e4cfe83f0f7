//! Blobs in memory.
ghost use Rattle.std.specs.Prelude.{◌≡◌, ◌<◌, ◌^◌, length, option_copied, OnOk, OnErr};
ghost use Rattle.std.specs.FinMap as finite;
ghost use Rattle.std.specs.BTreeMap.Range.{entries_between};
ghost use Rattle.std.specs.Map.Iter.{ShowsInOrder, deref_pair};
ghost use Rattle.std.specs.declared.ops.Bound.TheVariants.{Unbounded};
ghost use Rattle.blobref.specs.Blobref.{ref_cmp};

use blobref::{NoMemory, Octets, Ref};
use std::alloc::Global;
use std::collections::BTreeMap;
use std::collections::btree_map::Range;
use std::marker::Model;
use std::ops::Bound;

/// Bytes under refs, any bytes under any ref. A contract sees it as the map. A look-up and a change cost the logarithm
/// of the number of refs.
#[derive(Drop)]
pub struct BlobMap {
    blobs: BTreeMap<Ref, Octets>,
}

impl Model for BlobMap {
    ghost use Rattle.std.specs.FinMap as finite;
    ghost use Rattle.std.specs.Coded.{coded_ℕ, coded_list};
    ghost use Rattle.edge_base.specs.Shelf.{Blobs};

    ghost Value = { Blobs };

    ghost coded = { finite.code (coded_list coded_ℕ) (coded_list coded_ℕ) };

    ghost view = { λ h. finite.from_entries h.blobs.entries };
}

impl BlobMap {
    /// A map without blobs. It takes no memory before the first insert.
    pub fn empty(alloc: Global) -> BlobMap
        ensures { result ≡ finite.empty }
    {
        BlobMap {
            blobs: BTreeMap::new(alloc),
        }
    }

    /// The bytes of a ref, and `None` exactly where it isn't there.
    pub fn get(&self, r: &Ref) -> Option<&Octets>
        ensures { option_copied result ≡ finite.get self.now r.now }
    {
        self.blobs.get(r)
    }

    /// Puts bytes under a ref, in place of those that were there. Where there is no memory nothing changes.
    pub fn insert(&mut self, r: &Ref, bytes: Octets) -> Result<(), NoMemory>
        ensures ok { OnOk result (self.new ≡ finite.insert self.old r.now bytes) }
        ensures err { OnErr result (self.new ≡ self.old) }
    {
        self.blobs.insert(*r, bytes)?;
        Ok(())
    }

    /// Takes a ref out with its bytes, and says whether it was there. It takes no memory.
    pub fn remove(&mut self, r: &Ref) -> bool
        ensures there { result ≡ finite.contains_key self.old r.now }
        ensures removed { self.new ≡ finite.remove self.old r.now }
    {
        self.blobs.remove(r).is_some()
    }

    /// The refs from a start on with their bytes, ascending; all of them from `Bound::Unbounded` on. It takes no
    /// memory, and a whole walk costs as much as there are refs in it.
    pub fn range_from(&self, start: Bound<Ref>) -> Range<'_, Ref, Octets>
        ensures between { result ≡ entries_between ref_cmp start Unbounded (finite.entries self.now) }
        ensures runs { ShowsInOrder (deref_pair {K = Ref} {X = Octets}) }
    {
        self.blobs.range((start, Bound::Unbounded))
    }

    /// How many refs there are.
    pub fn len(&self) -> usize
        ensures is { result ≡ length (finite.entries self.now) }
        ensures small { result < 2 ^ 63 }
    {
        self.blobs.len()
    }
}
