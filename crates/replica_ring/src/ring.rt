//! The ring.
ghost use Rattle.std.specs.Prelude.{◌≡◌, replicate, OnOk, OnErr, IfOk, option_copied};
ghost use Rattle.std.specs.FinMap.{empty, get};
ghost use Rattle.replica_ring.specs.Rings.{at, all_uploaded, changed, pulled, run, step, uploaded};

use crate::events::{RingEvent, RingEventList};
use crate::giving::{give, is_valid, keep, valid_blobs};
use crate::pulling::first_lacking;
use blobref::{NoMemory, Octets, Ref};
use edge_base::BlobMap;
use std::alloc::Global;
use std::marker::Model;

/// Stores that exchange blobs in pairs. A contract sees the blobs of each under their refs; each is under a ref of its
/// own and has at most 16,777,216 bytes. All of them are in memory, so it is for trying what comes of events.
#[derive(Drop)]
pub struct Ring {
    alloc: Global,
    maps: Vec<BlobMap>,
}

impl Model for Ring {
    ghost use Rattle.std.specs.Prelude.{List};
    ghost use Rattle.std.specs.FinMap as finite;
    ghost use Rattle.std.specs.Coded.{coded_ℕ, coded_list};
    ghost use Rattle.edge_base.specs.Shelf.{Blobs};
    ghost use Rattle.replica_ring.specs.Rings.{AreAllValid};

    ghost Value = { List Blobs };

    ghost coded = { coded_list (finite.code (coded_list coded_ℕ) (coded_list coded_ℕ)) };

    ghost view = { λ r. r.maps.items };

    ghost invariant = { λ r. AreAllValid r.maps.items };
}

impl Ring {
    /// So many stores without blobs. It keeps the allocator, and takes all its memory from it. `NoMemory` comes only
    /// where no memory is left.
    pub fn of(alloc: Global, stores: u32) -> Result<Ring, NoMemory>
        ensures { IfOk result (λ ring. ring ≡ replicate stores empty) }
    {
        let maps = empty_maps(alloc, stores)?;
        Ok(Ring { alloc, maps })
    }

    /// The bytes of a ref in a store, and `None` exactly where it isn't there, or where there is no such store.
    pub fn get(&self, store: u32, r: &Ref) -> Option<&Octets>
        ensures { option_copied result ≡ get (at self.now store) r.now }
    {
        let maps = self.maps.as_slice();
        let store = store as usize;
        if store >= maps.len() {
            return None;
        }
        maps[store].get(r)
    }

    /// Does what the event says. `NoMemory` comes only where no memory is left, and then nothing has changed.
    ///
    /// It copies what it adds. A `Pull` looks up each blob of the source in the target, in the order of refs, until it
    /// has found as many as it may take.
    pub fn step(&mut self, event: &RingEvent) -> Result<(), NoMemory>
        ensures ok { OnOk result (self.new ≡ step self.old event.now) }
        ensures err { OnErr result (self.new ≡ self.old) }
    {
        step_maps(self.alloc, self.maps.as_mut_slice(), event)
    }
}

/// The ring after these events, in their order. `NoMemory` comes only where no memory is left, and the ring is gone
/// then.
pub fn run_ring(ring: Ring, events: &RingEventList) -> Result<Ring, NoMemory>
    ensures { IfOk result (λ end. end ≡ run ring events.now) }
{
    let mut ring = ring;
    for event in events.as_slice() {
        ring.step(event)?;
    }
    Ok(ring)
}

fn empty_maps(alloc: Global, count: u32) -> Result<Vec<BlobMap>, NoMemory>
    ensures { IfOk result (λ maps. maps.items ≡ replicate count empty) }
{
    let mut maps = Vec::new(alloc);
    'stores: for _ in 0..count {
        maps.push(BlobMap::empty(alloc))?;
    }
    Ok(maps)
}

// Does what the event says. Where there is no memory nothing changes.
fn step_maps(alloc: Global, maps: &mut [BlobMap], event: &RingEvent) -> Result<(), NoMemory>
    ensures ok { OnOk result (maps.new ≡ step maps.old event.now) }
    ensures err { OnErr result (maps.new ≡ maps.old) }
{
    match event {
        RingEvent::Upload { store, r, bytes } => {
            upload(alloc, maps, *store as usize, r, bytes.as_slice())
        }
        RingEvent::Pull {
            source,
            target,
            count,
        } => pull(alloc, maps, *source as usize, *target as usize, *count),
        RingEvent::Stop { store, also } => stop(alloc, maps, *store as usize, also.as_slice()),
    }
}

fn upload(
    alloc: Global,
    maps: &mut [BlobMap],
    store: usize,
    r: &Ref,
    bytes: &[u8],
) -> Result<(), NoMemory>
    ensures ok { OnOk result (maps.new ≡ changed store (λ h. uploaded h (r.now, bytes.now)) maps.old) }
    ensures err { OnErr result (maps.new ≡ maps.old) }
{
    if store >= maps.len() || !is_valid(r, bytes) {
        return Ok(());
    }
    keep(alloc, &mut maps[store], r, bytes)
}

fn pull(
    alloc: Global,
    maps: &mut [BlobMap],
    source: usize,
    target: usize,
    count: u64,
) -> Result<(), NoMemory>
    ensures ok { OnOk result (maps.new ≡ changed target (pulled (at maps.old source) count) maps.old) }
    ensures err { OnErr result (maps.new ≡ maps.old) }
{
    if source >= maps.len() || target >= maps.len() {
        return Ok(());
    }
    let blobs = first_lacking(alloc, &maps[source], &maps[target], count)?;
    give(alloc, &mut maps[target], blobs.as_slice())
}

fn stop(
    alloc: Global,
    maps: &mut [BlobMap],
    store: usize,
    also: &[(Ref, Octets)],
) -> Result<(), NoMemory>
    ensures ok { OnOk result (maps.new ≡ changed store (λ h. all_uploaded h also.now) maps.old) }
    ensures err { OnErr result (maps.new ≡ maps.old) }
{
    if store >= maps.len() {
        return Ok(());
    }
    let blobs = valid_blobs(alloc, also)?;
    give(alloc, &mut maps[store], blobs.as_slice())
}
