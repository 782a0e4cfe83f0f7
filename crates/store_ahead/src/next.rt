//! The blobs that will be requested next, and their bytes.
ghost use Rattle.std.specs.Prelude.{◌≡◌, ◌≤◌, All, IfSome};
ghost use Rattle.pack_store.specs.Reading.{StaysStill};
ghost use Rattle.store_ahead.specs.Ahead.{StandsUnder};

use blob_checks::{BYTES, COUNT, has_lanes};
use blobref::{NoMemory, Octets, Ref, RefList};
use pack_disk::Disk;
use pack_store::Store;
use schema_fact::{Origin, Part};
use std::alloc::Global;

/// The blobs that will be requested next if these bytes of these parts are read: those of the first parts, up to a part
/// that isn't a blob, or of which no byte is read.
pub(crate) fn next_refs(
    alloc: Global,
    parts: &[Part],
    from: u64,
    count: u64,
) -> Result<RefList, NoMemory> {
    let mut refs = RefList::empty(alloc);
    let mut at = from;
    let mut left = count;
    for part in &parts[..parts.len().min(COUNT)] {
        let here = left.min(part.size.saturating_sub(at));
        let Some(r) = asked_blob(part, here) else {
            break;
        };
        refs.push(r)?;
        at = at.saturating_sub(part.size);
        left -= here;
    }
    Ok(refs)
}

// The blob of a part of which `count` bytes are read.
fn asked_blob(part: &Part, count: u64) -> Option<Ref> {
    match &part.origin {
        Origin::Blob(r) if count > 0 => Some(*r),
        _ => None,
    }
}

/// The blobs of the first of these refs, as the store has them, as long as they have at most 8 MiB together. Their
/// digests aren't checked. It ends before one that can't be read.
pub(crate) fn read_blobs<D: Disk>(
    alloc: Global,
    store: &mut Store<D>,
    refs: &[Ref],
) -> Vec<(Ref, Octets)>
    ensures stand { All (StandsUnder D.Disk store.old) result.items }
    ensures stays { StaysStill D.Disk store.old store.new }
    ensures later { D.faults store.old.disk ≤ D.faults store.new.disk }
{
    let mut blobs = Vec::new(alloc);
    let mut room = BYTES;
    for r in refs {
        let Some(bytes) = read_blob(store, r, room) else {
            break;
        };
        room = room.saturating_sub(bytes.as_slice().len() as u64);
        if blobs.push((*r, bytes)).is_err() {
            break;
        }
    }
    blobs
}

// The bytes under a ref of a SHA-224, if they fit.
fn read_blob<D: Disk>(store: &mut Store<D>, r: &Ref, room: u64) -> Option<Octets>
    ensures stands { IfSome result (λ bytes. StandsUnder D.Disk store.old (r.now, bytes)) }
    ensures stays { StaysStill D.Disk store.old store.new }
    ensures later { D.faults store.old.disk ≤ D.faults store.new.disk }
{
    if !fits(store, r, room) {
        return None;
    }
    match store.find(r) {
        Ok(Some(found)) => Some(found.bytes),
        _ => None,
    }
}

fn fits<D: Disk>(store: &Store<D>, r: &Ref, room: u64) -> bool {
    match store.stat(r) {
        Some(size) => size <= room && has_lanes(r),
        None => false,
    }
}
